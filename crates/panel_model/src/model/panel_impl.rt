// The model as a panel.
ghost use Rattle.std.specs.Prelude.{◌≡◌, IfOk};
ghost use Rattle.display.specs.Surface.{resting, wiped};
ghost use Rattle.panel.specs.Meaning.{of};

use super::Model;
use crate::kind::{Kind, NeverHolds};
use canvas::canvas::Canvas;
use display::place::{Cursor, Place};
use display::size::Size;
use panel::bytes::ShortBytes;
use panel::moves;
use panel::panel::Panel;
use std::alloc::{AllocError, Global};

impl<K: Kind> Model<K> {
    // A new panel is as wiped. What `meaning` is below is said out, here and in `place`: a name would be no plainer.
    pub fn new(heap: Global, size: Size) -> Result<Model<K>, AllocError>
        ensures { IfOk result (λ p. of p.canvas p.reading ≡ of (wiped size) K.READY) }
    {
        let canvas = Canvas::new(heap, size)?;
        Ok(Model {
            canvas,
            reading: K::READY,
        })
    }
}

impl<K: NeverHolds> Model<K> {
    // Where the cursor stands. It is never held.
    pub fn place(&self) -> Place
        ensures { (of self.now.canvas self.now.reading).surface.cursor ≡ resting result }
    {
        self.canvas.cursor().place
    }
}

impl<K: Kind> Panel for Model<K> {
    ghost Mode = { K.Reading };

    ghost ready = { K.READY };

    ghost answers = { λ p. K.answers p.canvas.size };

    ghost meaning = { λ p. of p.canvas p.reading };

    ghost fed = { λ _. K.fed };

    ghost lawful = { λ p. K.lawful p.canvas.size };

    ghost sound = { λ p. p.sound };

    fn size(&self) -> Size {
        self.canvas.size()
    }

    fn pens(&self) -> u8 {
        K::PENS
    }

    fn corner_safe(&self) -> bool {
        K::CORNER_SAFE
    }

    fn motions(&self) -> u16 {
        K::motions(self.size())
    }

    // Here, and in the next two, a motion goes by its number, a rule of the project.
    fn landing(&self, motion: u16, cursor: Cursor) -> Option<Place> {
        moves::landing::<K::Motion>(self.size(), motion, cursor)
    }

    fn motion_bytes(&self, motion: u16) -> ShortBytes {
        moves::bytes::<K::Motion>(self.size(), motion)
    }

    fn delay(&self, motion: u16) -> u16 {
        moves::delay::<K::Motion>(self.size(), motion)
    }

    fn after_print(&self, place: Place) -> Cursor {
        K::after_print(self.size(), place)
    }

    fn pen_bytes(&self, pen: u8) -> ShortBytes {
        K::pen_bytes(pen)
    }

    fn wipe_bytes(&self) -> ShortBytes {
        K::wipe_bytes()
    }

    fn feed(&mut self, byte: u8) {
        K::feed(&mut self.canvas, &mut self.reading, byte);
    }
}
