// The memory of a search: made ready before it, and holding the leg after it.
ghost use Rattle.std.specs.Prelude.{◌≡◌, ◌+◌, ◌<◌, ◌≤◌, length};
ghost use Rattle.labels.specs.Label.{noted};
ghost use Rattle.leg_search.specs.Memory.{HoldsMore, Prepared, Traces, Trailed, held};

use cost::cost::Cost;
use labels::label::Label;

// Makes the labels ready for a search from one of their states.
pub(crate) fn prepare<K: Cost>(labels: &mut [Label<K>], beginning: usize)
    requires { beginning < length labels.old }
    ensures same { length labels.new ≡ length labels.old }
    ensures ready { Prepared K.costs (noted K.value K.costs.zero labels.new) beginning }
{
    for state in 0..labels.len() {
        labels[state] = Label::unreached();
    }
    labels[beginning] = Label::beginning();
}

// One step of the way back: lets a label hold the last motion to a state, and answers from which state that departs.
fn step_back<K: Cost>(labels: &mut [Label<K>], state: usize, slot: usize) -> usize
    requires state { state < length labels.old }
    requires slot { slot < length labels.old }
    ensures from { result ≡ (noted K.value K.costs.zero labels.old state).from }
    ensures notes { noted K.value K.costs.zero labels.new ≡ noted K.value K.costs.zero labels.old }
    ensures holds { HoldsMore labels.old labels.new slot (noted K.value K.costs.zero labels.old state).motion }
{
    let motion = labels[state].motion();
    let from = labels[state].from();
    labels[slot].hold(motion);
    usize::from(from)
}

// Follows the labels from the goal back to the beginning, and lays the motions of the leg into the labels that end with
// that of the last place. Answers which of them holds the first motion.
pub(crate) fn trace<K: Cost>(
    labels: &mut [Label<K>],
    goal: usize,
    beginning: usize,
    places: usize,
) -> usize
    requires memory { places < length labels.old }
    requires trailed { Trailed (noted K.value K.costs.zero labels.old) beginning goal places }
    ensures first { result ≤ places }
    ensures traces { Traces (noted K.value K.costs.zero labels.old) beginning goal places
        (held labels.new result places) }
{
    let mut first = places;
    let mut state = goal;
    while state != beginning {
        first -= 1;
        state = step_back(labels, state, first);
    }
    first
}
