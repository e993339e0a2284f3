// What a canvas tells.
ghost use Rattle.std.specs.Prelude.{◌≡◌, ◌*◌, ◌<◌, IfOk, length, vec_len};
ghost use Rattle.display.specs.Place.{On, number};
ghost use Rattle.display.specs.Surface.{Told, wiped};
ghost use Rattle.canvas.specs.Held.{Whole};

use super::Canvas;
use display::cell::Glyph;
use display::place::{Cursor, Place};
use display::size::Size;
use std::alloc::{AllocError, Global};

impl Canvas {
    // A canvas of blanks, the cursor on the first place, pen 0.
    pub fn new(heap: Global, size: Size) -> Result<Canvas, AllocError>
        ensures { IfOk result (λ c. c ≡ wiped size) }
    {
        let cells = vec![in heap; Glyph::BLANK; size.places()]?;
        Ok(Canvas {
            size,
            cells,
            cursor: Cursor::default(),
            pen: 0,
        })
    }

    pub fn size(&self) -> Size
        ensures is { result ≡ self.now.size }
        ensures whole { Whole self.now }
    {
        self.size
    }

    pub fn cursor(&self) -> Cursor
        ensures is { result ≡ self.now.cursor }
        ensures on { On self.now.size result.place }
        ensures whole { Whole self.now }
    {
        self.cursor
    }

    pub fn pen(&self) -> u8
        ensures is { result ≡ self.now.pen }
        ensures whole { Whole self.now }
    {
        self.pen
    }

    // The picture, row by row.
    pub fn picture(&self) -> &[Glyph]
        ensures is { result.now ≡ self.now.picture }
        ensures filled { length result.now
            ≡ self.now.size.rows * self.now.size.columns }
        ensures whole { Whole self.now }
    {
        &self.cells
    }

    // The glyph at a place, or nothing where there is no such place.
    pub fn glyph(&self, place: Place) -> Option<Glyph>
        ensures is { Told self.now place result }
        ensures whole { Whole self.now }
    {
        let place = self.size.place(place.row as usize, place.column as usize)?;
        Some(self.cells[self.size.number(place)])
    }
}
