// Feeding whole byte strings, and what the laws give of them. What a call feeds, and that the answers stay, are clauses
// of each: they speak of two states of a panel, and an invariant speaks of one.
ghost use Rattle.std.specs.Prelude.{◌≡◌, length};
ghost use Rattle.panel.specs.Lawful.{Inks, Keeps, Lands, Prints, Wipes};
ghost use Rattle.panel.specs.Meaning.{feeds};

use crate::panel::Panel;

// Feeds some bytes and tells how many they were. Whatever such a panel can mean, they lead to what it can mean.
#[tactic(auto, using(crate::proofs::Feeds::feeds_keep))]
pub fn feed_all<P: Panel>(panel: &mut P, bytes: &[u8]) -> usize
    ensures count { result ≡ length bytes.now }
    ensures fixed { P.answers panel.new ≡ P.answers panel.old }
    ensures after { P.meaning panel.new
        ≡ feeds (P.fed (P.answers panel.old)) (P.meaning panel.old) bytes.now }
    ensures keeps { Keeps (P.answers panel.old) (P.fed (P.answers panel.old)) bytes.now }
{
    for byte in bytes {
        panel.feed(*byte);
    }
    bytes.len()
}

// Feeds the bytes of a motion, told by its number as the rules number them. A ready panel lands where the motion is
// told to land, unheld and ready.
pub fn feed_motion<P: Panel>(panel: &mut P, motion: u16)
    ensures fixed { P.answers panel.new ≡ P.answers panel.old }
    ensures after { P.meaning panel.new
        ≡ feeds (P.fed (P.answers panel.old)) (P.meaning panel.old)
        ((P.answers panel.old).motion_bytes motion) }
    ensures lands { Lands P.ready (P.answers panel.old) (P.meaning panel.old) motion
        (P.meaning panel.new) }
{
    let bytes = panel.motion_bytes(motion);
    feed_all(panel, bytes.as_slice());
}

// Feeds a code. A ready, unheld panel sets the cell at the cursor and takes the after-state.
pub fn feed_code<P: Panel>(panel: &mut P, code: u8)
    ensures fixed { P.answers panel.new ≡ P.answers panel.old }
    ensures after { P.meaning panel.new
        ≡ P.fed (P.answers panel.old) (P.meaning panel.old) code }
    ensures prints { Prints P.ready (P.answers panel.old) (P.meaning panel.old) code
        (P.meaning panel.new) }
{
    panel.feed(code);
}

// Feeds the bytes of a pen. A ready panel sets that pen.
pub fn feed_pen<P: Panel>(panel: &mut P, pen: u8)
    ensures fixed { P.answers panel.new ≡ P.answers panel.old }
    ensures after { P.meaning panel.new
        ≡ feeds (P.fed (P.answers panel.old)) (P.meaning panel.old)
        ((P.answers panel.old).pen_bytes pen) }
    ensures inks { Inks P.ready (P.answers panel.old) (P.meaning panel.old) pen
        (P.meaning panel.new) }
{
    let bytes = panel.pen_bytes(pen);
    feed_all(panel, bytes.as_slice());
}

// Feeds the wipe bytes, which give one meaning whatever came before: all blanks, the first place, unheld, pen 0,
// ready.
pub fn feed_wipe<P: Panel>(panel: &mut P)
    ensures fixed { P.answers panel.new ≡ P.answers panel.old }
    ensures after { P.meaning panel.new
        ≡ feeds (P.fed (P.answers panel.old)) (P.meaning panel.old) (P.answers panel.old).wipe }
    ensures wipes { Wipes P.ready (P.answers panel.old) (P.meaning panel.new) }
{
    let bytes = panel.wipe_bytes();
    feed_all(panel, bytes.as_slice());
}
