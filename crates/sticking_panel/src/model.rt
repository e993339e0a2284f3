// The kind, and its model.
ghost use Rattle.std.specs.Prelude.{true, false, refl};
ghost use Rattle.std.proofs.Common.{rules};
ghost use Rattle.sticking_panel.specs.Laws;
ghost use Rattle.sticking_panel.specs.Marks;
ghost use Rattle.sticking_panel.specs.Motions;
ghost use Rattle.sticking_panel.specs.Rules;

use crate::motions::Motion;
use crate::reading::{control, print};
use canvas::canvas::Canvas;
use display::place::{Cursor, Place};
use display::size::Size;
use panel::bytes::ShortBytes;
use panel_model::kind::{Kind, NeverHolds};
use panel_model::model::Model;

// where the interfaces are met, once for every kind
pub use panel_model::model::{panel_impl, readout};

// The kind.
pub struct Sticking;

// The model of such a panel.
pub type StickingPanel = Model<Sticking>;

impl Kind for Sticking {
    // No sequence is ever half read.
    type Reading = ();

    type Motion = Motion;

    const PENS: u8 = 1;

    ghost PENS = { 1 };

    const CORNER_SAFE: bool = true;

    ghost CORNER_SAFE = { true };

    const READY: () = ();

    ghost READY = { Rules.ready };

    ghost answers = { Motions.answers };

    ghost fed = { Rules.fed };

    ghost holds = { false };

    // From here to `is_ready` each is this kind's rule, in a line. Constants would be no plainer: this panel has no
    // addresses, and no bytes for pens.
    fn motions(_: Size) -> u16 {
        3
    }

    fn after_print(size: Size, place: Place) -> Cursor {
        size.stepped(place, Cursor::from(place))
    }

    fn pen_bytes(_: u8) -> ShortBytes {
        ShortBytes::new()
    }

    fn wipe_bytes() -> ShortBytes {
        ShortBytes::from_slice(b"\x0C")
    }

    fn is_ready(_: &()) -> bool {
        true
    }

    // A match on the byte, since there is one reading state.
    #[tactic(auto, unfolding(crate::specs::Rules::fed))]
    fn feed(canvas: &mut Canvas, _: &mut (), byte: u8) {
        match byte {
            0x20..=0x7E => print(canvas, byte),
            _ => control(canvas, byte),
        }
    }

    ghost lawful = { Laws.lawful };

    ghost tied = { λ _. Prim.search rules };

    ghost unheld = { λ _. Marks.unheld_fed };
}

impl NeverHolds for Sticking {
    ghost never = { refl };
}
