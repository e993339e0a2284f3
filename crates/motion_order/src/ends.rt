// Where the classes of one cost end.
ghost use Rattle.std.specs.Prelude.{◌≡◌, ◌<◌, ◌≤◌, [], ◌∷◌, ◌++◌, length};
ghost use Rattle.motion_order.specs.Ends.{Marked};
ghost use Rattle.motion_order.specs.InOrder.{CheapestFirst};

use crate::offer::{MOST_OFFERS, Offer};
use cost::cost::Cost;
use std::marker::Model;

// Contracts see the places at which the classes end, each the one after the last entry of a class.
#[derive(Drop)]
pub struct Ends {
    places: [u16; MOST_OFFERS],
    count: usize,
}

impl Model for Ends {
    ghost use Rattle.std.specs.Prelude.{List, ℕ, ◌≤◌, take};
    ghost use Rattle.motion_order.specs.declared.offer.TheConstants.{MOST_OFFERS};

    ghost Value = { List ℕ };

    ghost view = { λ ends. take ends.count ends.places };

    ghost invariant = { λ ends. ends.count ≤ MOST_OFFERS };
}

impl Ends {
    fn none() -> Ends
        ensures { result ≡ [] }
    {
        Ends {
            places: [0; MOST_OFFERS],
            count: 0,
        }
    }

    fn push(&mut self, place: usize)
        requires room { length self.old < MOST_OFFERS }
        requires near { place ≤ MOST_OFFERS }
        ensures { self.new ≡ self.old ++ place ∷ [] }
    {
        self.places[self.count] = place as u16;
        self.count += 1;
    }

    pub fn as_slice(&self) -> &[u16]
        ensures { result.now ≡ self.now }
    {
        &self.places[..self.count]
    }
}

// A class ends where the next entry is dearer, and the last where the entries end.
#[tactic(auto, using(crate::proofs::Marking::begun))]
pub(crate) fn mark_ends<K: Cost>(offers: &[Offer]) -> Ends
    requires some { 0 < length offers.now }
    requires few { length offers.now ≤ MOST_OFFERS }
    requires cheapest_first { CheapestFirst K.costs offers.now }
    ensures { Marked K.costs offers.now result (length offers.now) }
{
    let mut ends = Ends::none();
    for place in 1..offers.len() {
        if offers[place].is_dearer::<K>(&offers[place - 1]) {
            ends.push(place);
        }
    }
    ends.push(offers.len());
    ends
}
