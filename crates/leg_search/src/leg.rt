// What a search tells.
ghost use Rattle.std.specs.Prelude.{◌≡◌};
ghost use Rattle.leg_search.specs.Memory.{held_labels};

use display::place::Place;
use labels::label::Label;

// The leg that a search has found: what it costs, and which labels of the search's memory hold its motions, from the
// first to before the end.
#[derive(Clone, Copy, Debug)]
pub struct Leg<K> {
    pub cost: K,
    pub first: usize,
    pub end: usize,
}

impl<K> Leg<K> {
    // The labels that hold the motions, of the memory of the search: none, or fewer, where there are not so many.
    pub fn steps<'a>(&self, labels: &'a [Label<K>]) -> &'a [Label<K>]
        ensures { result.now ≡ held_labels labels.now self.now.first self.now.end }
    {
        let labels = &labels[..self.end.min(labels.len())];
        &labels[self.first.min(labels.len())..]
    }
}

// Why a search is refused. Then nothing has changed.
#[derive(Clone, Copy, Debug, PartialEq, Eq)]
pub enum Refusal {
    // there are fewer labels than places and one
    TooShort,
    // the start or else the goal is not on the panel
    Outside { place: Place },
}
