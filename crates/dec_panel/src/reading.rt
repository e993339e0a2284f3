// What the bytes of codes and sequences do.
ghost use Rattle.std.specs.Prelude.{◌≡◌, ◌<◌};
ghost use Rattle.dec_rules.specs.Reading.{digit_read, ended, pen_after as after_parameter, pen_by as after_parameters};
ghost use Rattle.dec_rules.specs.Rules.{fed, printed};
ghost use Rattle.display.specs.Cell.{Code};
ghost use Rattle.panel.specs.Meaning.{of};

use canvas::canvas::Canvas;
use dec_rules::reading::{Parameters, Reading};

// A digit joins the parameter being read. A value above 999 counts as 999.
pub(crate) fn read_digit(parameters: &mut Parameters, digit: u8)
    requires { parameters.old.at < 8 }
    ensures { parameters.new ≡ digit_read parameters.old digit }
{
    let at = parameters.at;
    let value = parameters.values[at] as u32 * 10 + digit as u32;
    parameters.values[at] = value.min(999) as u16;
}

// Prints a code, once a pending wrap has taken place: the cursor goes a column on, or is held in the last one.
#[tactic(auto, using(canvas::proofs::Arrivals::onward_stepped), unfolding(dec_rules::specs::Rules::printed))]
pub(crate) fn print(canvas: &mut Canvas, code: u8)
    ensures { canvas.new ≡ printed canvas.old code }
{
    if canvas.cursor().held {
        canvas.new_line();
    }
    canvas.draw(code);
    if !canvas.advance() {
        canvas.hold();
    }
}

// The pen after one parameter of the end m.
fn pen_after(pen: u8, parameter: u16) -> u8
    ensures { result ≡ after_parameter pen parameter }
{
    match parameter {
        0 => 0,
        1 => pen | 1,
        4 => pen | 2,
        5 => pen | 4,
        7 => pen | 8,
        _ => pen,
    }
}

// The pen after all parameters.
fn pen_by(pen: u8, parameters: &Parameters) -> u8
    ensures { result ≡ after_parameters pen parameters.now }
{
    let read = parameters.at.min(7) + 1;
    parameters.values[..read]
        .iter()
        .fold(pen, |pen, value| pen_after(pen, *value))
}

// Does what the end of a sequence says.
#[tactic(auto, unfolding(dec_rules::specs::Reading::ended))]
pub(crate) fn end_sequence(canvas: &mut Canvas, parameters: &Parameters, end: u8)
    ensures { canvas.new ≡ ended canvas.old parameters.now end }
{
    let place = canvas.cursor().place;
    let row = place.row as usize;
    let column = place.column as usize;
    let first = parameters.values[0].max(1) as usize;
    let second = parameters.values[1].max(1) as usize;
    match end {
        b'A' => canvas.move_to(row.saturating_sub(first), column),
        b'B' => canvas.move_to(row + first, column),
        b'C' => canvas.move_to(row, column + first),
        b'D' => canvas.move_to(row, column.saturating_sub(first)),
        b'H' => canvas.move_to(first - 1, second - 1),
        b'J' if parameters.values[0] == 2 => canvas.clear(),
        b'm' => {
            let pen = pen_by(canvas.pen(), parameters);
            canvas.set_pen(pen);
        }
        _ => {}
    }
}

// A control byte, which acts in every reading state. Most do nothing.
#[tactic(auto, unfolding(dec_rules::specs::Rules::fed, dec_rules::specs::Rules::controlled))]
pub(crate) fn control(canvas: &mut Canvas, reading: &mut Reading, byte: u8)
    requires { Code byte → ⊥ }
    ensures { of canvas.new reading.new ≡ fed (of canvas.old reading.old) byte }
{
    let place = canvas.cursor().place;
    let row = place.row as usize;
    let column = place.column as usize;
    match byte {
        0x08 => canvas.move_to(row, column.saturating_sub(1)),
        0x0A => canvas.line_feed(),
        0x0D => canvas.move_to(row, 0),
        0x1B => *reading = Reading::Escape,
        0x18 => *reading = Reading::Ground,
        _ => {}
    }
}
