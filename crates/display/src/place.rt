// Places of a panel, and the cursor.
ghost use Rattle.std.specs.Prelude.{◌≡◌, ◌*◌, ◌<◌, ◌≤◌, MatchOption};
ghost use Rattle.display.specs.Limits.{Allowed};
ghost use Rattle.display.specs.Place.{Numbered, On, number};
ghost use Rattle.display.specs.Surface.{corner, resting};

use crate::size::Size;

// A row and a column, counted from 0. The default is the first place.
#[derive(Clone, Copy, Debug, Default, PartialEq, Eq)]
pub struct Place {
    pub row: u8,
    pub column: u8,
}

// Where the cursor stands. It is held while a wrap is pending in the last column. The default is on the first place,
// unheld. A flag beside the place, and neither an option nor an enum: there is a place either way, and most ask for it.
#[derive(Clone, Copy, Debug, Default, PartialEq, Eq)]
pub struct Cursor {
    pub place: Place,
    pub held: bool,
}

// The cursor at a place, unheld.
impl From<Place> for Cursor {
    ghost from_gives = { λ p c. c ≡ resting p };

    fn from(place: Place) -> Cursor {
        Cursor { place, held: false }
    }
}

impl Size {
    // A size within the limits, or nothing.
    pub fn new(rows: usize, columns: usize) -> Option<Size>
        ensures { MatchOption result (Allowed rows columns → ⊥) (λ s. (s.rows ≡ rows) × (s.columns ≡ columns)) }
    {
        if rows < 1 || rows > 24 || columns < 2 || columns > 80 {
            return None;
        }
        Some(Size {
            rows: rows as u8,
            columns: columns as u8,
        })
    }

    // How many places there are.
    pub fn places(&self) -> usize
        ensures { result ≡ self.now.rows * self.now.columns }
    {
        self.rows as usize * self.columns as usize
    }

    // The place at a row and a column, if it is on the panel.
    pub fn place(&self, row: usize, column: usize) -> Option<Place>
        ensures { MatchOption result (On self.now (record { row = row; column = column }) → ⊥)
            (λ p. (p ≡ record { row = row; column = column }) × On self.now p) }
    {
        if row < self.rows as usize && column < self.columns as usize {
            Some(Place {
                row: row as u8,
                column: column as u8,
            })
        } else {
            None
        }
    }

    // The last place.
    pub fn corner(&self) -> Place
        ensures is { result ≡ corner self.now }
        ensures on { On self.now result }
    {
        Place {
            row: self.rows - 1,
            column: self.columns - 1,
        }
    }

    // The number of a place: the places of a row have numbers in a row.
    pub fn number(&self, place: Place) -> usize
        ensures { result ≡ number self.now place }
    {
        place.row as usize * self.columns as usize + place.column as usize
    }

    // The place that has a number, if there is one: the rules number places.
    pub fn place_at(&self, number: usize) -> Option<Place>
        ensures { MatchOption result (self.now.rows * self.now.columns ≤ number)
            (Numbered self.now number) }
    {
        if number >= self.places() {
            return None;
        }
        let columns = self.columns as usize;
        Some(Place {
            row: (number / columns) as u8,
            column: (number % columns) as u8,
        })
    }
}
