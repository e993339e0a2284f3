// Feeding bytes to a panel whose motions are in order.
ghost use Rattle.std.specs.Prelude.{◌≡◌};
ghost use Rattle.panel.specs.Meaning.{feeds};

use cost::cost::Cost;
use motion_order::charted::Charted;
use panel::panel::Panel;

// Feeds some bytes, one after the other.
pub(crate) fn feed_all<P: Panel, K: Cost>(charted: &mut Charted<P, K>, bytes: &[u8])
    ensures fixed { P.answers charted.new ≡ P.answers charted.old }
    ensures after { P.meaning charted.new
        ≡ feeds (P.fed (P.answers charted.old)) (P.meaning charted.old) bytes.now }
{
    for byte in bytes {
        charted.feed(*byte);
    }
}
