// How far a sequence of bytes has been read, and what codes and control bytes do.
ghost use Rattle.std.specs.Prelude.{◌≡◌};
ghost use Rattle.display.specs.Cell.{Code};
ghost use Rattle.panel.specs.Meaning.{of};
ghost use Rattle.short_code_panel.specs.Rules.{acted, addressed, fed, printed};

use canvas::canvas::Canvas;

#[derive(Clone, Copy, Debug)]
pub enum Reading {
    // no sequence is half read
    Ready,
    // ESC was read
    Escape,
    // ESC and = were read: the row follows
    Row,
    // the row was read: the column follows
    Column(u8),
}

// Prints a code: the cursor goes a column on, or to the next row.
pub(crate) fn print(canvas: &mut Canvas, code: u8)
    ensures { canvas.new ≡ printed canvas.old code }
{
    canvas.draw(code);
    if !canvas.advance() {
        canvas.new_line();
    }
}

// Moves the cursor to a row and a column. A pair outside the panel moves nothing.
pub(crate) fn address(canvas: &mut Canvas, row: u8, column: u8)
    ensures { canvas.new ≡ addressed canvas.old row column }
{
    let to = canvas.size().place(row as usize, column as usize);
    canvas.step(to);
}

// What a byte below 20h does to the canvas. Most do nothing.
fn act(canvas: &mut Canvas, byte: u8)
    ensures { canvas.new ≡ acted canvas.old byte }
{
    let size = canvas.size();
    let place = canvas.cursor().place;
    match byte {
        0x08 => canvas.step(place.left_of(1)),
        0x0A => canvas.line_feed(),
        0x0B => canvas.step(place.above(1)),
        0x0C => canvas.step(size.right_of(place, 1)),
        0x0D => canvas.move_to(place.row as usize, 0),
        0x0E => canvas.set_pen(1),
        0x0F => canvas.set_pen(0),
        0x1A => canvas.wipe(),
        0x1E => canvas.move_to(0, 0),
        _ => {}
    }
}

// A byte that is no code. One below 20h ends a sequence and acts; the others do nothing.
#[tactic(auto, unfolding(crate::specs::Rules::fed))]
pub(crate) fn control(canvas: &mut Canvas, reading: &mut Reading, byte: u8)
    requires { Code byte → ⊥ }
    ensures { of canvas.new reading.new ≡ fed (of canvas.old reading.old) byte }
{
    match byte {
        0x1B => *reading = Reading::Escape,
        0x00..=0x1F => {
            act(canvas, byte);
            *reading = Reading::Ready;
        }
        _ => {}
    }
}
