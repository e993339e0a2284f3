// How far a search has come, beside what is noted of each state.
ghost use Rattle.std.specs.Prelude.{◌≡◌, ◌<◌, ℕ, length, slice_index_or};
ghost use Rattle.labels.specs.Label.{noted};
ghost use Rattle.leg_search.specs.Noting.{Appends};
ghost use Rattle.leg_search.specs.Reading.{lined, reach_of};

use crate::notes::cost_of;
use cost::cost::Cost;
use labels::label::Label;

// As many as the largest panel has motions, and one.
const MOST_CLASSES: usize = 4097;

// The reached states stand in a line, the cheapest first: the label at a place of the line holds the state that stands
// there. Beside that is kept where the line ends, and for each class of motions from which place on it is due.
#[derive(Drop)]
pub(crate) struct Front {
    pub count: usize,
    pub next: [u16; MOST_CLASSES],
}

impl Front {
    // Nothing stands in the line, and no class is taken.
    pub(crate) fn new() -> Front
        ensures count { result.count ≡ 0 }
        ensures next { (class : ℕ) → slice_index_or result.next class 0 ≡ 0 }
    {
        Front {
            count: 0,
            next: [0; MOST_CLASSES],
        }
    }

    // Puts a state at the end of the line.
    pub(crate) fn append<K: Cost>(&mut self, labels: &mut [Label<K>], state: u16)
        requires { self.old.count < length labels.old }
        ensures same { length labels.new ≡ length labels.old }
        ensures next { self.new.next ≡ self.old.next }
        ensures appends { Appends (reach_of K.value K.costs.zero labels.old self.old)
            (reach_of K.value K.costs.zero labels.new self.new) state }
    {
        labels[self.count].hold(state);
        self.count += 1;
    }
}

// The state that stands at a place of the line.
pub(crate) fn state_at<K: Cost>(labels: &[Label<K>], position: usize) -> u16
    requires { position < length labels.now }
    ensures { result ≡ lined labels.now position }
{
    labels[position].step()
}

// What the best sequence to that state costs, of those that are known.
pub(crate) fn cost_at<K: Cost>(labels: &[Label<K>], position: usize) -> K
    requires position { position < length labels.now }
    requires state { lined labels.now position < length labels.now }
    ensures { K.value result ≡ (noted K.value K.costs.zero labels.now (lined labels.now position)).cost }
{
    cost_of(labels, usize::from(state_at(labels, position)))
}
