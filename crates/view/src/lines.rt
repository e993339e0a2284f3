// The lines of a report that follow the rows.
ghost use Rattle.std.specs.Prelude.{◌≡◌, [], if◌then◌else◌};

use display::place::{Cursor, Place};
use std::fmt;

// A word, if a test holds.
fn word_if(test: bool, word: &'static str) -> &'static str
    ensures { result.now ≡ (if test then word.now else []) }
{
    if test { word } else { "" }
}

// Where the cursor stands, as a line.
#[derive(Clone, Copy)]
pub(crate) struct CursorLine(pub(crate) Cursor);

impl fmt::Display for CursorLine {
    ghost use Rattle.std.specs.Prelude.{Some};
    ghost use Rattle.view.specs.Report.{cursor_line};

    ghost output = { λ c. Some (cursor_line c.0) };

    fn fmt<W: fmt::Write>(&self, f: &mut fmt::Formatter<W>) -> fmt::Result {
        let Place { row, column } = self.0.place;
        let held = word_if(self.0.held, " held");
        writeln!(f, "at {row} {column}{held}")
    }
}

// The pen now set, as a line.
#[derive(Clone, Copy)]
pub(crate) struct PenLine(pub(crate) u8);

impl fmt::Display for PenLine {
    ghost use Rattle.std.specs.Prelude.{Some};
    ghost use Rattle.view.specs.Report.{pen_line};

    ghost output = { λ p. Some (pen_line p.0) };

    fn fmt<W: fmt::Write>(&self, f: &mut fmt::Formatter<W>) -> fmt::Result {
        let pen = self.0;
        let plain = word_if(pen == 0, " plain");
        let bold = word_if(pen & 1 != 0, " bold");
        let underscore = word_if(pen & 2 != 0, " underscore");
        let blink = word_if(pen & 4 != 0, " blink");
        let reverse = word_if(pen & 8 != 0, " reverse");
        writeln!(f, "pen{plain}{bold}{underscore}{blink}{reverse}")
    }
}
