// A panel's motions and its retype, the cheapest first, and those of one cost by their numbers.
ghost use Rattle.std.specs.Prelude.{◌≡◌, ◌+◌, ◌<◌, ◌≤◌, [], ◌∷◌, ◌++◌, length, IsPermutation};
ghost use Rattle.motion_order.specs.Gathered.{Gathered, Sorted, ranked};
ghost use Rattle.motion_order.specs.InOrder.{InOrder};

use crate::offer::{MOST_OFFERS, Offer};
use cost::cost::Cost;
use panel::panel::Panel;
use std::cmp::Ordering;
use std::marker::{Model, PhantomData};

// Contracts see the offers. An array and a count, since nothing is allocated once a model is made. The parameter keeps
// an order by one cost from being taken for one by another.
#[derive(Drop)]
pub struct MotionOrder<K> {
    entries: [Offer; MOST_OFFERS],
    count: usize,
    cost: PhantomData<K>,
}

impl<K> Model for MotionOrder<K> {
    ghost use Rattle.std.specs.Prelude.{List, ◌≤◌, take};
    ghost use Rattle.motion_order.specs.declared.offer.Offer.{Offer};
    ghost use Rattle.motion_order.specs.declared.offer.TheConstants.{MOST_OFFERS};

    ghost Value = { List Offer };

    ghost view = { λ order. take order.count order.entries };

    ghost invariant = { λ order. order.count ≤ MOST_OFFERS };
}

impl<K: Cost> MotionOrder<K> {
    // All motions of the panel and its retype, in order.
    pub fn new<P: Panel>(panel: &P) -> MotionOrder<K>
        ensures { InOrder K.costs (P.answers panel.now) result }
    {
        let mut order = MotionOrder::gathered(panel);
        order.sort();
        order
    }

    pub fn offers(&self) -> &[Offer]
        ensures same { result.now ≡ self.now }
        ensures few { length result.now ≤ MOST_OFFERS }
    {
        &self.entries[..self.count]
    }

    fn empty() -> MotionOrder<K>
        ensures { result ≡ [] }
    {
        let none = Offer {
            motion: 0,
            milliseconds: 0,
            bytes: 0,
        };
        MotionOrder {
            entries: [none; MOST_OFFERS],
            count: 0,
            cost: PhantomData,
        }
    }

    fn push(&mut self, offer: Offer)
        requires { length self.old < MOST_OFFERS }
        ensures { self.new ≡ self.old ++ offer ∷ [] }
    {
        self.entries[self.count] = offer;
        self.count += 1;
    }

    // The motions in the order of their numbers, and then the retype.
    #[tactic(auto, using(crate::proofs::Gathering::none, crate::proofs::Gathering::more))]
    fn gathered<P: Panel>(panel: &P) -> MotionOrder<K>
        ensures { let answers = P.answers panel.now in
            Gathered answers (answers.motions + 1) result }
    {
        let mut order = MotionOrder::empty();
        for motion in 0..panel.motions() {
            order.push(Offer::of_motion(panel, motion));
        }
        order.push(Offer::of_retype(panel));
        order
    }

    fn sort(&mut self)
        ensures same { IsPermutation self.old self.new }
        ensures sorted { Sorted K.costs self.new }
    {
        sort_offers::<K>(&mut self.entries[..self.count]);
    }
}

// A closure: a generic function that is passed by its name gets no generated proof here.
fn sort_offers<K: Cost>(offers: &mut [Offer])
    ensures same { IsPermutation offers.old offers.new }
    ensures sorted { Sorted K.costs offers.new }
{
    offers.sort_unstable_by(|a, b| compared::<K>(a, b));
}

fn compared<K: Cost>(a: &Offer, b: &Offer) -> Ordering
    ensures { result ≡ ranked K.costs a.now b.now }
{
    if b.is_dearer::<K>(a) {
        Ordering::Less
    } else if a.is_dearer::<K>(b) {
        Ordering::Greater
    } else {
        a.motion.cmp(&b.motion)
    }
}
