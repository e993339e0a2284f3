// What the model tells besides.
use super::Model;
use crate::kind::Kind;
use display::cell::Glyph;
use display::place::{Cursor, Place};
use panel::readout::Readout;

impl<K: Kind> Readout for Model<K> {
    fn glyph(&self, place: Place) -> Option<Glyph> {
        self.canvas.glyph(place)
    }

    fn cursor(&self) -> Cursor {
        self.canvas.cursor()
    }

    fn pen(&self) -> u8 {
        self.canvas.pen()
    }

    fn is_ready(&self) -> bool {
        K::is_ready(&self.reading)
    }
}
