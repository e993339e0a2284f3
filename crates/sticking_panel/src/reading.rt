// What the bytes do.
ghost use Rattle.std.specs.Prelude.{◌≡◌};
ghost use Rattle.sticking_panel.specs.Rules.{controlled, printed};

use canvas::canvas::Canvas;

// Prints a code: the cursor goes a column on, but in the last column it stays.
pub(crate) fn print(canvas: &mut Canvas, code: u8)
    ensures { canvas.new ≡ printed canvas.old code }
{
    canvas.draw(code);
    canvas.advance();
}

// A control byte. Most do nothing.
pub(crate) fn control(canvas: &mut Canvas, byte: u8)
    ensures { canvas.new ≡ controlled canvas.old byte }
{
    let size = canvas.size();
    let place = canvas.cursor().place;
    match byte {
        0x08 => canvas.step(place.left_of(1)),
        0x0A => canvas.step(size.below(place, 1)),
        0x0C => canvas.wipe(),
        0x0D => canvas.move_to(place.row as usize, 0),
        _ => {}
    }
}
