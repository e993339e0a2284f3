// What the legs on a panel depend on, and what is asked of it.
ghost use Rattle.std.specs.Prelude.{◌≡◌};
ghost use Rattle.legs.specs.Scene.{lands, motion_sent, retype};
ghost use Rattle.legs.specs.Seen.{scened};
ghost use Rattle.panel.specs.Bytes.{bytes_of};

use crate::glass::Glass;
use display::cell::Cell;
use display::place::{Cursor, Place};
use panel::bytes::ShortBytes;
use panel::panel::Panel;

// A panel, of which only its answers count, the glass and the pen now set.
#[derive(Clone, Copy)]
pub struct Scene<'a, P, C> {
    pub panel: &'a P,
    pub glass: Glass<'a, C>,
    pub pen: u8,
}

impl<'a, P: Panel, C: Cell> Scene<'a, P, C> {
    // Where the retype lands, which sends the cell that is on the glass, or nothing where it is not offered.
    fn retype(&self, cursor: Cursor) -> Option<Place>
        ensures { result ≡ retype (scened P.answers C.glyph self.now) cursor }
    {
        let size = self.panel.size();
        if cursor.held || self.glass.glyph(size.number(cursor.place)).pen != self.pen {
            return None;
        }
        size.right_of(cursor.place, 1)
    }

    // Where a motion lands from a cursor, or nothing where it is not offered. The retype has the number after the
    // panel's own motions. A search asks this of each motion, so it is written into it and not called.
    #[inline(always)]
    pub fn landing(&self, motion: u16, cursor: Cursor) -> Option<Place>
        ensures { result ≡ lands (scened P.answers C.glyph self.now) motion cursor }
    {
        if motion == self.panel.motions() {
            self.retype(cursor)
        } else {
            self.panel.landing(motion, cursor)
        }
    }

    // The bytes of a motion that is taken from a cursor.
    pub fn motion_bytes(&self, motion: u16, cursor: Cursor) -> ShortBytes
        ensures { bytes_of result ≡ motion_sent (scened P.answers C.glyph self.now) cursor motion }
    {
        if motion == self.panel.motions() {
            let number = self.panel.size().number(cursor.place);
            ShortBytes::from_slice(&[self.glass.glyph(number).code])
        } else {
            self.panel.motion_bytes(motion)
        }
    }
}
