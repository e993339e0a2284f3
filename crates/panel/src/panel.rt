// The interface of a panel.
ghost use Rattle.std.specs.Prelude.{◌≡◌, ℕ};
ghost use Rattle.panel.specs.Answers.{Answers};
ghost use Rattle.panel.specs.Bytes.{bytes_of};
ghost use Rattle.panel.specs.Lawful.{Lawful, Sound};
ghost use Rattle.panel.specs.Meaning.{Meaning};

use crate::bytes::ShortBytes;
use display::place::{Cursor, Place};
use display::size::Size;

// A kind of panel. It answers questions, which change nothing, and takes bytes, which it never refuses.
pub trait Panel {
    // the reading states: how far a sequence of bytes has been read
    ghost Mode: { Type 0 };

    // the reading state in which no sequence is half read
    ghost ready: { Mode };

    ghost answers: { Self → Answers };

    ghost meaning: { Self → Meaning Mode };

    // the meaning after one byte
    ghost fed: { Answers → Meaning Mode → ℕ → Meaning Mode };

    fn size(&self) -> Size
        ensures { result ≡ (answers self.now).size };

    // The number of pens.
    fn pens(&self) -> u8
        ensures { result ≡ (answers self.now).pens };

    // Whether the last place of the last row can be printed on.
    fn corner_safe(&self) -> bool
        ensures { result ≡ (answers self.now).corner_safe };

    // The number of motions. They are asked for by number, since the rules number them; a kind has an enum of them.
    fn motions(&self) -> u16
        ensures { result ≡ (answers self.now).motions };

    // Where a motion lands from a cursor, or nothing where it is not offered.
    fn landing(&self, motion: u16, cursor: Cursor) -> Option<Place>
        ensures { result ≡ (answers self.now).lands motion cursor };

    fn motion_bytes(&self, motion: u16) -> ShortBytes
        ensures { bytes_of result ≡ (answers self.now).motion_bytes motion };

    // The milliseconds that a motion takes.
    fn delay(&self, motion: u16) -> u16
        ensures { result ≡ (answers self.now).delay motion };

    // The cursor once a code was printed at a place.
    fn after_print(&self, place: Place) -> Cursor
        ensures { result ≡ (answers self.now).after place };

    fn pen_bytes(&self, pen: u8) -> ShortBytes
        ensures { bytes_of result ≡ (answers self.now).pen_bytes pen };

    fn wipe_bytes(&self) -> ShortBytes
        ensures { bytes_of result ≡ (answers self.now).wipe };

    fn feed(&mut self, byte: u8)
        ensures fixed { answers self.new ≡ answers self.old }
        ensures after { meaning self.new
            ≡ fed (answers self.old) (meaning self.old) byte };

    ghost lawful: { (p : Self) → Lawful ready (answers p) (fed (answers p)) };

    ghost sound: { (p : Self) → Sound (answers p) (meaning p) };
}
