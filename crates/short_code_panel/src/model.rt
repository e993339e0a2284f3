// The kind, and its model.
ghost use Rattle.std.specs.Prelude.{false, refl};
ghost use Rattle.std.proofs.Common.{rules};
ghost use Rattle.short_code_panel.specs.declared.reading.Reading.TheVariants.{Ready};
ghost use Rattle.short_code_panel.specs.Laws;
ghost use Rattle.short_code_panel.specs.Marks;
ghost use Rattle.short_code_panel.specs.Motions;
ghost use Rattle.short_code_panel.specs.Rules;

use crate::motions::{Motion, after_code, of_pen};
use crate::reading::{Reading, address, control, print};
use canvas::canvas::Canvas;
use display::place::{Cursor, Place};
use display::size::Size;
use panel::bytes::ShortBytes;
use panel_model::kind::{Kind, NeverHolds};
use panel_model::model::Model;

// where the interfaces are met, once for every kind
pub use panel_model::model::{panel_impl, readout};

// The kind.
pub struct ShortCode;

// The model of such a panel.
pub type ShortCodePanel = Model<ShortCode>;

impl Kind for ShortCode {
    type Reading = Reading;

    type Motion = Motion;

    const PENS: u8 = 2;

    ghost PENS = { 2 };

    const CORNER_SAFE: bool = false;

    ghost CORNER_SAFE = { false };

    const READY: Reading = Reading::Ready;

    ghost READY = { Ready };

    ghost answers = { Motions.answers };

    ghost fed = { Rules.fed };

    ghost holds = { false };

    // From here to `is_ready` each is this kind's rule, in a line or two. Constants would be no plainer: the sticking
    // panel has no addresses, and no bytes for pens.
    fn motions(size: Size) -> u16 {
        6 + size.places() as u16
    }

    fn after_print(size: Size, place: Place) -> Cursor {
        after_code(size, place)
    }

    fn pen_bytes(pen: u8) -> ShortBytes {
        of_pen(pen)
    }

    fn wipe_bytes() -> ShortBytes {
        ShortBytes::from_slice(b"\x1A")
    }

    fn is_ready(reading: &Reading) -> bool {
        matches!(reading, Reading::Ready)
    }

    // A match on the reading state and the byte together, changed in place: a rule of the project.
    #[tactic(auto, unfolding(crate::specs::Rules::fed, crate::specs::Rules::coded))]
    fn feed(canvas: &mut Canvas, reading: &mut Reading, byte: u8) {
        match (&mut *reading, byte) {
            (Reading::Ready, 0x20..=0x7E) => print(canvas, byte),
            (reading @ Reading::Escape, b'=') => *reading = Reading::Row,
            (reading @ Reading::Escape, 0x20..=0x7E) => *reading = Reading::Ready,
            (reading @ Reading::Row, 0x20..=0x7E) => *reading = Reading::Column(byte - 0x20),
            (Reading::Column(row), 0x20..=0x7E) => {
                address(canvas, *row, byte - 0x20);
                *reading = Reading::Ready;
            }
            _ => control(canvas, reading, byte),
        }
    }

    ghost lawful = { Laws.lawful };

    ghost tied = { λ _. Prim.search rules };

    ghost unheld = { λ _. Marks.unheld_fed };
}

impl NeverHolds for ShortCode {
    ghost never = { refl };
}
