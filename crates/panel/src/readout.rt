// What a model of a panel tells besides, and a real panel never does.
ghost use Rattle.std.specs.Prelude.{◌≡◌, Decides};
ghost use Rattle.display.specs.Surface.{Told};

use crate::panel::Panel;
use display::cell::Glyph;
use display::place::{Cursor, Place};

pub trait Readout: Panel {
    // The glyph at a place, or nothing where there is no such place.
    fn glyph(&self, place: Place) -> Option<Glyph>
        ensures { Told (Self.Panel.meaning self.now).surface place result };

    fn cursor(&self) -> Cursor
        ensures { result ≡ (Self.Panel.meaning self.now).surface.cursor };

    // The pen now set.
    fn pen(&self) -> u8
        ensures { result ≡ (Self.Panel.meaning self.now).surface.pen };

    // Whether no sequence is half read.
    fn is_ready(&self) -> bool
        ensures { Decides result ((Self.Panel.meaning self.now).mode ≡ Self.Panel.ready) };
}
