// The refusals of a screen.
ghost use Rattle.std.specs.Prelude.{◌≡◌};
ghost use Rattle.faults.specs.Told.{told};

use std::error::Error;
use std::fmt;

// Why a call is refused. The rules give each refusal a number and some values; where several apply, too small comes
// first, and then they come in this order.
#[derive(Clone, Copy, Debug, PartialEq, Eq)]
pub enum Fault {
    // there is no such place on the panel, or no such row; a row that stands alone has column 0
    Outside { row: usize, column: usize },
    // the code is not one of 20h to 7Eh
    NotCode { row: usize, column: usize },
    // the panel has no such pen, or cells of this type do not admit it
    NotPen { row: usize, column: usize },
    // the cell is not blank, and the panel's corner, where it is, is not safe
    UnsafeCorner { row: usize, column: usize },
    // no redraw has been accepted yet
    NotDrawn,
    // no sequence of motions leads to this place, which is the first such goal of the plan
    NoSequence { row: usize, column: usize },
    // the output is shorter than what is to be sent
    OutputTooShort { needed: usize },
    // the size is outside its limits, a picture has fewer cells than there are places, or the memory of the search has
    // not a label for each place and one more
    TooSmall,
}

impl Fault {
    // The number that the rules give it.
    pub fn number(&self) -> u8
        ensures { result ≡ (told self.now).number }
    {
        match self {
            Fault::Outside { .. } => 1,
            Fault::NotCode { .. } => 2,
            Fault::NotPen { .. } => 3,
            Fault::UnsafeCorner { .. } => 4,
            Fault::NotDrawn => 5,
            Fault::NoSequence { .. } => 6,
            Fault::OutputTooShort { .. } => 7,
            Fault::TooSmall => 8,
        }
    }
}

// The number and the values, with spaces between them.
impl fmt::Display for Fault {
    ghost use Rattle.std.specs.Prelude.{Some};
    ghost use Rattle.faults.specs.Told.{told, words};

    ghost output = { λ f. Some (words (told f)) };

    fn fmt<W: fmt::Write>(&self, f: &mut fmt::Formatter<W>) -> fmt::Result {
        let number = self.number();
        match *self {
            Fault::Outside { row, column }
            | Fault::NotCode { row, column }
            | Fault::NotPen { row, column }
            | Fault::UnsafeCorner { row, column }
            | Fault::NoSequence { row, column } => write!(f, "{number} {row} {column}"),
            Fault::OutputTooShort { needed } => write!(f, "{number} {needed}"),
            Fault::NotDrawn | Fault::TooSmall => write!(f, "{number}"),
        }
    }
}

impl Error for Fault {}
