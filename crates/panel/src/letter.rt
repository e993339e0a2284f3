// One letter on a wiped panel, whatever its kind: a trial that every law has a part in.
ghost use Rattle.std.specs.Prelude.{◌≡◌, Decides};
ghost use Rattle.panel.specs.Lawful.{Free};
ghost use Rattle.panel.specs.Letter.{Possible, Shown, Shows};

use crate::feeding::{feed_code, feed_motion, feed_pen, feed_wipe};
use crate::panel::Panel;
use display::cell::is_printable;
use display::place::{Cursor, Place};

// Whether a code may be printed at a place: an unsafe corner is no such place.
fn may_print<P: Panel>(panel: &P, place: Place) -> bool
    ensures { Decides result (Free (P.answers panel.now) place) }
{
    panel.corner_safe() || place != panel.size().corner()
}

// Wipes the panel, moves to a place, sets a pen and prints a code. Pen and code stand apart, as they are fed; the rules
// number motions; that the answers stay is a clause, as it speaks of two states of a panel.
#[tactic(auto, using(crate::proofs::Letters::fed_apart, crate::proofs::Letters::few_bytes))]
fn print_at<P: Panel>(panel: &mut P, motion: u16, place: Place, pen: u8, code: u8) -> Cursor
    requires { Possible (P.answers panel.old) motion pen code place }
    ensures fixed { P.answers panel.new ≡ P.answers panel.old }
    ensures shown { Shown P.ready (P.answers panel.old) (P.fed (P.answers panel.old)) motion pen code place
        (P.meaning panel.old) (P.meaning panel.new) result }
{
    feed_wipe(panel);
    feed_motion(panel, motion);
    feed_pen(panel, pen);
    feed_code(panel, code);
    panel.after_print(place)
}

// Wipes the panel, takes a motion from the first place, sets a pen and prints a code, and answers where the cursor
// then stands. Where the motion is not offered there or leads to an unsafe corner, or the panel has no such pen, or
// the byte is no code, nothing is answered and the panel is left alone. Motion, pen and code stand as they do above.
pub fn show_letter<P: Panel>(panel: &mut P, motion: u16, pen: u8, code: u8) -> Option<Cursor>
    ensures fixed { P.answers panel.new ≡ P.answers panel.old }
    ensures shows { Shows P.ready (P.answers panel.old) (P.fed (P.answers panel.old)) motion pen code
        (P.meaning panel.old) (P.meaning panel.new) result }
{
    let place = panel.landing(motion, Cursor::default())?;
    if pen >= panel.pens() || !is_printable(code) || !may_print(panel, place) {
        return None;
    }
    Some(print_at(panel, motion, place, pen, code))
}
