// A panel together with the order of its motions.
ghost use Rattle.std.specs.Prelude.{◌≡◌};
ghost use Rattle.motion_order.specs.Classes.{class_of, count_of};
ghost use Rattle.motion_order.specs.InClasses.{InClasses};

use crate::classes::Classes;
use crate::ends::{Ends, mark_ends};
use crate::order::MotionOrder;
use cost::cost::Cost;
use panel::panel::Panel;
use std::marker::Model;

// Contracts see the panel. The order of its motions is made once, since what a panel answers never changes; the two
// stand together so that no search takes the order of one panel for another's.
#[derive(Drop)]
pub struct Charted<P: Panel, K: Cost> {
    panel: P,
    order: MotionOrder<K>,
    ends: Ends,
}

impl<P: Panel, K: Cost> Model for Charted<P, K> {
    ghost use Rattle.std.specs.Prelude.{length};
    ghost use Rattle.motion_order.specs.Ends.{class_at};
    ghost use Rattle.motion_order.specs.InClasses.{InClasses};

    ghost Value = { P };

    ghost view = { λ c. c.panel };

    ghost invariant = { λ c. InClasses K.costs (P.answers c.panel) (length c.ends) (class_at c.order c.ends) };
}

impl<P: Panel, K: Cost> Charted<P, K> {
    // Makes the order of a panel's motions.
    pub fn new(panel: P) -> Charted<P, K>
        ensures { result ≡ panel }
    {
        let order = MotionOrder::new(&panel);
        let ends = mark_ends::<K>(order.offers());
        Charted { panel, order, ends }
    }

    pub fn panel(&self) -> &P
        ensures { result.now ≡ self.now }
    {
        &self.panel
    }

    // The panel's motions and its retype in classes of one cost.
    pub fn classes(&self) -> Classes<'_>
        ensures { InClasses K.costs (P.answers self.now) (count_of result) (class_of result) }
    {
        Classes {
            offers: self.order.offers(),
            ends: self.ends.as_slice(),
        }
    }

    // Feeds a byte to the panel.
    pub fn feed(&mut self, byte: u8)
        ensures fixed { P.answers self.new ≡ P.answers self.old }
        ensures after { P.meaning self.new ≡ P.fed (P.answers self.old) (P.meaning self.old) byte }
    {
        self.panel.feed(byte);
    }
}
