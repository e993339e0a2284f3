// What is done to a canvas.
ghost use Rattle.std.specs.Prelude.{◌≡◌, ◌+◌, ◌<◌, Decides};
ghost use Rattle.display.specs.Surface.{drawn, inked, moved, wiped};
ghost use Rattle.canvas.specs.Drawing.{cleared, goto, holding, line_fed, new_line, onward, scrolled, went};
ghost use Rattle.canvas.specs.Held.{Whole};

use super::Canvas;
use display::cell::Glyph;
use display::place::{Cursor, Place};

impl Canvas {
    // Moves the cursor, unheld, to a row and a column, or to the edge where they lie beyond it.
    pub fn move_to(&mut self, row: usize, column: usize)
        ensures after { self.new ≡ goto self.old row column }
        ensures whole { Whole self.new }
    {
        let last_row = self.size.rows - 1;
        let last_column = self.size.columns - 1;
        let row = row.min(last_row as usize) as u8;
        let column = column.min(last_column as usize) as u8;
        self.cursor = Cursor::from(Place { row, column });
    }

    // Moves the cursor, unheld, to a place, if there is one to go to.
    pub fn step(&mut self, to: Option<Place>)
        ensures after { self.new ≡ went self.old to }
        ensures whole { Whole self.new }
    {
        // read for the proof: a canvas that stays is whole too
        let _ = &self.size;
        if let Some(place) = to {
            self.move_to(place.row as usize, place.column as usize);
        }
    }

    // Marks the cursor as held where it stands.
    pub fn hold(&mut self)
        ensures after { self.new ≡ holding self.old }
        ensures whole { Whole self.new }
    {
        self.cursor.held = true;
    }

    // Sets the cell at the cursor to a code and the pen now set.
    pub fn draw(&mut self, code: u8)
        ensures after { self.new ≡ drawn self.old code }
        ensures whole { Whole self.new }
    {
        let pen = self.pen;
        let at = self.size.number(self.cursor.place);
        self.cells[at] = Glyph { code, pen };
    }

    // Moves the cursor a row down, unheld. On the last row the picture moves up a row in its place.
    pub fn line_feed(&mut self)
        ensures after { self.new ≡ line_fed self.old }
        ensures whole { Whole self.new }
    {
        self.cursor.held = false;
        if self.cursor.place.row + 1 < self.size.rows {
            self.cursor.place.row += 1;
        } else {
            self.scroll();
        }
    }

    // Moves the cursor to column 0 of the next row, unheld. On the last row the picture moves up a row in its place.
    pub fn new_line(&mut self)
        ensures after { self.new ≡ new_line self.old }
        ensures whole { Whole self.new }
    {
        self.move_to(self.cursor.place.row as usize, 0);
        self.line_feed();
    }

    // Moves the cursor a column to the right, unheld, and tells that it did. In the last column nothing changes.
    pub fn advance(&mut self) -> bool
        ensures after { self.new
            ≡ onward self.old self.old }
        ensures told { Decides result
            (self.old.cursor.place.column + 1 < self.old.size.columns) }
        ensures whole { Whole self.new }
    {
        let column = self.cursor.place.column + 1;
        if column < self.size.columns {
            self.cursor.place.column = column;
            self.cursor.held = false;
            return true;
        }
        false
    }

    // Moves the picture up a row. The last row is then blank.
    fn scroll(&mut self)
        ensures { self.new ≡ scrolled self.old }
    {
        let columns = self.size.columns as usize;
        let kept = self.cells.len() - columns;
        self.cells.rotate_left(columns);
        self.cells[kept..].fill(Glyph::BLANK);
    }

    // Blanks every cell and leaves the cursor where it stands, unheld.
    pub fn clear(&mut self)
        ensures after { self.new
            ≡ moved (cleared self.old) self.old.cursor.place }
        ensures whole { Whole self.new }
    {
        self.blank_cells();
        self.cursor = Cursor::from(self.cursor.place);
    }

    // Blanks every cell, moves the cursor to the first place, unheld, and sets pen 0.
    pub fn wipe(&mut self)
        ensures after { self.new ≡ wiped self.old.size }
        ensures whole { Whole self.new }
    {
        self.blank_cells();
        self.cursor = Cursor::default();
        self.pen = 0;
    }

    fn blank_cells(&mut self)
        ensures { self.new ≡ cleared self.old }
    {
        self.cells.fill(Glyph::BLANK);
    }

    // Sets the pen.
    pub fn set_pen(&mut self, pen: u8)
        ensures after { self.new ≡ inked self.old pen }
        ensures whole { Whole self.new }
    {
        self.pen = pen;
    }
}
