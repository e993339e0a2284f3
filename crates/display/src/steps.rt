// Places some rows or columns away from another.
ghost use Rattle.std.specs.Prelude.{◌≡◌};
ghost use Rattle.display.specs.Steps.{above, below, left_of, right_of};
ghost use Rattle.display.specs.Surface.{stepped};

use crate::place::{Cursor, Place};
use crate::size::Size;

impl Place {
    // The place some rows above, if there is such a row.
    pub fn above(&self, rows: u8) -> Option<Place>
        ensures { result ≡ above self.now rows }
    {
        let row = self.row.checked_sub(rows)?;
        Some(Place { row, ..*self })
    }

    // The place some columns to the left, if there is such a column.
    pub fn left_of(&self, columns: u8) -> Option<Place>
        ensures { result ≡ left_of self.now columns }
    {
        let column = self.column.checked_sub(columns)?;
        Some(Place { column, ..*self })
    }
}

impl Size {
    // The place some rows below another, if the panel has such a row.
    pub fn below(&self, place: Place, rows: u8) -> Option<Place>
        ensures { result ≡ below self.now place rows }
    {
        let row = place.row.checked_add(rows)?;
        (row < self.rows).then_some(Place { row, ..place })
    }

    // The place some columns to the right of another, if the panel has such a column.
    pub fn right_of(&self, place: Place, columns: u8) -> Option<Place>
        ensures { result ≡ right_of self.now place columns }
    {
        let column = place.column.checked_add(columns)?;
        (column < self.columns).then_some(Place { column, ..place })
    }

    // The cursor a column to the right of a place, unheld, or another one where that is the last column.
    pub fn stepped(&self, place: Place, last: Cursor) -> Cursor
        ensures { result ≡ stepped self.now place last }
    {
        self.right_of(place, 1).map_or(last, Cursor::from)
    }
}
