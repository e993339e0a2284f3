// The place that a leg is asked to lead to.
ghost use Rattle.std.specs.Prelude.{◌≡◌, MatchResult};
ghost use Rattle.display.specs.Place.{On};
ghost use Rattle.display.specs.Surface.{place_of};

use display::place::Place;
use display::size::Size;
use std::error::Error;
use std::fmt;

// A row and a column that are no place of a panel of a size.
#[derive(Clone, Copy, Debug)]
pub struct Outside {
    pub row: usize,
    pub column: usize,
    pub size: Size,
}

impl fmt::Display for Outside {
    ghost use Rattle.std.specs.Prelude.{Some};
    ghost use Rattle.leg_view.specs.Goal.{told};

    ghost output = { λ o. Some (told o) };

    fn fmt<W: fmt::Write>(&self, f: &mut fmt::Formatter<W>) -> fmt::Result {
        let Outside { row, column, size } = *self;
        let Size { rows, columns } = size;
        write!(
            f,
            "the goal {row} {column} is not on a panel of {rows} rows and {columns} columns"
        )
    }
}

impl Error for Outside {}

// The place at a row and a column of a panel of a size.
pub fn goal_on(size: Size, row: usize, column: usize) -> Result<Place, Outside>
    ensures { MatchResult result
        (λ p. (p ≡ place_of row column) × On size p)
        (λ o. (o ≡ record { row = row; column = column; size = size }) × (On size (place_of row column) → ⊥)) }
{
    size.place(row, column).ok_or(Outside { row, column, size })
}
