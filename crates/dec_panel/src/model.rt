// The kind, and its model.
ghost use Rattle.std.specs.Prelude.{true};
ghost use Rattle.std.proofs.Common.{rules};
ghost use Rattle.dec_rules.specs.Motions;
ghost use Rattle.dec_rules.specs.Rules;
ghost use Rattle.dec_rules.specs.declared.reading.Reading.TheVariants.{Ground};
ghost use Rattle.dec_rules.proofs.Laws;

use crate::reading::{control, end_sequence, print, read_digit};
use crate::spelling::{of_pen, of_wipe};
use canvas::canvas::Canvas;
use dec_rules::motion::Motion;
use dec_rules::reading::{Parameters, Reading};
use display::place::{Cursor, Place};
use display::size::Size;
use panel::bytes::ShortBytes;
use panel_model::kind::Kind;
use panel_model::model::Model;

// where the interfaces are met, once for every kind
pub use panel_model::model::{panel_impl, readout};

// The kind.
pub struct Dec;

// The model of such a panel.
pub type DecPanel = Model<Dec>;

impl Kind for Dec {
    type Reading = Reading;

    type Motion = Motion;

    const PENS: u8 = 16;

    ghost PENS = { 16 };

    const CORNER_SAFE: bool = true;

    ghost CORNER_SAFE = { true };

    const READY: Reading = Reading::Ground;

    ghost READY = { Ground };

    ghost answers = { Motions.answers };

    ghost fed = { Rules.fed };

    ghost holds = { true };

    // From here to `is_ready` each is this kind's rule, in a line or two. Constants would be no plainer: the sticking
    // panel has no addresses, and no bytes for pens.
    fn motions(size: Size) -> u16 {
        207 + size.places() as u16
    }

    // A column on, or held in the last one.
    fn after_print(size: Size, place: Place) -> Cursor {
        size.stepped(place, Cursor { place, held: true })
    }

    fn pen_bytes(pen: u8) -> ShortBytes {
        of_pen(pen)
    }

    fn wipe_bytes() -> ShortBytes {
        of_wipe()
    }

    fn is_ready(reading: &Reading) -> bool {
        matches!(reading, Reading::Ground)
    }

    // A match on the reading state and the byte together, changed in place, with guards: a rule of the project.
    #[tactic(auto, unfolding(dec_rules::specs::Rules::fed, dec_rules::specs::Rules::coded))]
    fn feed(canvas: &mut Canvas, reading: &mut Reading, byte: u8) {
        match (&mut *reading, byte) {
            (Reading::Ground, 0x20..=0x7E) => print(canvas, byte),
            (reading @ Reading::Escape, b'[') => *reading = Reading::Sequence(Parameters::NONE),
            (reading @ Reading::Escape, 0x20..=0x7E) => *reading = Reading::Ground,
            (Reading::Sequence(parameters), b'0'..=b'9') if parameters.at < 8 => read_digit(
                parameters,
                byte - b'0',
            ),
            (Reading::Sequence(parameters), b';') if parameters.at < 8 => parameters.at += 1,
            (Reading::Sequence(_), b'0'..=b'9' | b';') => {}
            // intermediates, the colon and the private markers void the sequence
            (reading @ Reading::Sequence(_), 0x20..=0x2F) => *reading = Reading::Voided,
            (reading @ Reading::Sequence(_), b':') => *reading = Reading::Voided,
            (reading @ Reading::Sequence(_), 0x3C..=0x3F) => *reading = Reading::Voided,
            (Reading::Sequence(parameters), 0x40..=0x7E) => {
                end_sequence(canvas, parameters, byte);
                *reading = Reading::Ground;
            }
            (Reading::Voided, 0x20..=0x3F) => {}
            (reading @ Reading::Voided, 0x40..=0x7E) => *reading = Reading::Ground,
            _ => control(canvas, reading, byte),
        }
    }

    ghost lawful = { Laws.lawful };

    ghost tied = { λ _. Prim.search rules };

    ghost unheld = { Prim.search rules };
}
