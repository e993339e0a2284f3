// A kind of panel: what it answers on a panel of each size, and what a byte does. An answer that is a line or two in
// each kind stays with the kind: that line is its rule.
ghost use Rattle.std.specs.Prelude.{◌≡◌, ℕ, Bool, false, Decides};
ghost use Rattle.display.specs.declared.size.Size.{Size as Sizes};
ghost use Rattle.panel.specs.Answers.{Answers};
ghost use Rattle.panel.specs.Bytes.{bytes_of};
ghost use Rattle.panel.specs.Lawful.{Lawful};
ghost use Rattle.panel.specs.Meaning.{Meaning, of};
ghost use Rattle.panel_model.specs.Tied.{Tied};

use canvas::canvas::Canvas;
use display::place::{Cursor, Place};
use display::size::Size;
use panel::bytes::ShortBytes;
use panel::moves::Moves;

pub trait Kind {
    // how far a sequence of bytes has been read
    type Reading: Copy;

    type Motion: Moves;

    // The number of pens.
    const PENS: u8;

    ghost PENS: { ℕ };

    // Whether the last place of the last row can be printed on.
    const CORNER_SAFE: bool;

    ghost CORNER_SAFE: { Bool };

    // The reading state in which no sequence is half read.
    const READY: Self::Reading;

    ghost READY: { Self.Reading };

    // all that a panel of a size answers
    ghost answers: { Sizes → Answers };

    // the meaning after one byte
    ghost fed: { Meaning Self.Reading → ℕ → Meaning Self.Reading };

    // whether a letter can leave the cursor held
    ghost holds: { Bool };

    // The number of motions.
    fn motions(size: Size) -> u16
        ensures { result ≡ (answers size).motions };

    // The cursor once a code was printed at a place.
    fn after_print(size: Size, place: Place) -> Cursor
        ensures { result ≡ (answers size).after place };

    fn pen_bytes(pen: u8) -> ShortBytes
        ensures { (z : Sizes) → bytes_of result ≡ (answers z).pen_bytes pen };

    fn wipe_bytes() -> ShortBytes
        ensures { (z : Sizes) → bytes_of result ≡ (answers z).wipe };

    // Asked of the kind: `==` at a type parameter does not say that two reading states are the same, and a law that it
    // does would stand in each kind in the same place.
    fn is_ready(reading: &Self::Reading) -> bool
        ensures { Decides result (reading.now ≡ READY) };

    // What a byte does. The canvas and the reading state are lent apart and not as the model: a kind would have to show
    // anew what a model keeps, which the law `keeps` in `lawful` shows once.
    fn feed(canvas: &mut Canvas, reading: &mut Self::Reading, byte: u8)
        ensures { of canvas.new reading.new ≡ fed (of canvas.old reading.old) byte };

    ghost lawful: { (z : Sizes) → Lawful READY (answers z) fed };

    ghost tied: { (z : Sizes) → Tied z PENS CORNER_SAFE (Self.Motion.numbered z) (Self.Motion.offered z) Self.Motion.spelled Self.Motion.takes (answers z) };

    // a byte leaves the cursor unheld where no letter can hold it
    ghost unheld: { holds ≡ false → (m : Meaning Self.Reading) (b : ℕ) → m.surface.cursor.held ≡ false → (fed m b).surface.cursor.held ≡ false };
}

// A kind whose cursor is never held.
pub trait NeverHolds: Kind {
    ghost never: { Self.holds ≡ false };
}
