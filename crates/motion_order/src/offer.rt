// A motion, and what its cost is reckoned from.
ghost use Rattle.std.specs.Prelude.{◌≡◌, ◌<◌};
ghost use Rattle.motion_order.specs.InOrder.{Told, dearer, weighed};

use cost::cost::Cost;
use panel::panel::Panel;

// Every motion of the largest panel, and the retype.
pub const MOST_OFFERS: usize = 4097;

// The retype is counted as a motion here. Its number is the one after the last motion of the panel, which the panel
// does not offer.
#[derive(Clone, Copy, Debug, PartialEq, Eq)]
pub struct Offer {
    pub motion: u16,
    pub milliseconds: u16,
    pub bytes: u8,
}

impl Offer {
    // A motion of the panel.
    pub(crate) fn of_motion<P: Panel>(panel: &P, motion: u16) -> Offer
        requires { motion < (P.answers panel.now).motions }
        ensures is { result.motion ≡ motion }
        ensures told { Told (P.answers panel.now) result }
    {
        let bytes = panel.motion_bytes(motion);
        Offer {
            motion,
            milliseconds: panel.delay(motion),
            bytes: bytes.as_slice().len() as u8,
        }
    }

    // The retype: the panel prints what is there already, which is one byte and takes no time.
    pub(crate) fn of_retype<P: Panel>(panel: &P) -> Offer
        ensures is { result.motion ≡ (P.answers panel.now).motions }
        ensures told { Told (P.answers panel.now) result }
    {
        Offer {
            motion: panel.motions(),
            milliseconds: 0,
            bytes: 1,
        }
    }

    pub fn cost<K: Cost>(&self) -> K
        ensures { K.value result ≡ weighed K.costs self.now }
    {
        K::of_motion(self.bytes, self.milliseconds)
    }

    // Whether this motion costs more than another.
    pub(crate) fn is_dearer<K: Cost>(&self, other: &Offer) -> bool
        ensures { result ≡ dearer K.costs other.now self.now }
    {
        let cost: K = self.cost();
        !cost.at_most(other.cost())
    }
}
