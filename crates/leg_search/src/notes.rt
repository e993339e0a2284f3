// What the labels of a search say of states.
ghost use Rattle.std.specs.Prelude.{◌≡◌, ◌<◌, Decides, length};
ghost use Rattle.labels.specs.Label.{noted};
ghost use Rattle.labels.specs.declared.label.Stage.TheVariants.{Reached};
ghost use Rattle.leg_search.specs.Run.{Exceeds};

use cost::cost::Cost;
use labels::label::{Label, Stage};

// Whether a state is reached.
pub(crate) fn is_reached<K: Cost>(labels: &[Label<K>], state: usize) -> bool
    requires { state < length labels.now }
    ensures { Decides result ((noted K.value K.costs.zero labels.now state).stage ≡ Reached) }
{
    labels[state].stage() == Stage::Reached
}

// What the best sequence to a state costs, of those that are known.
pub(crate) fn cost_of<K: Cost>(labels: &[Label<K>], state: usize) -> K
    requires { state < length labels.now }
    ensures { K.value result ≡ (noted K.value K.costs.zero labels.now state).cost }
{
    labels[state].cost()
}

// Whether a cost is more than a state is known to cost.
pub(crate) fn is_beyond<K: Cost>(labels: &[Label<K>], state: usize, cost: K) -> bool
    requires { state < length labels.now }
    ensures { Decides result (Exceeds K.costs (noted K.value K.costs.zero labels.now state) (K.value cost)) }
{
    is_reached(labels, state) && !cost.at_most(cost_of(labels, state))
}
