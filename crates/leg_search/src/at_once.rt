// A search that takes all motions of a state at once. Thousands of costs ask hardly more of it than few; but it looks
// through all places for the cheapest reached state each time, and takes motions before it is known whether they matter.
ghost use Rattle.std.specs.Prelude.{◌≡◌, ◌≢◌, ◌+◌, ◌<◌, ◌≤◌, Decides, length, false, true};
ghost use Rattle.display.specs.Place.{On, number};
ghost use Rattle.labels.specs.Label.{noted};
ghost use Rattle.labels.specs.declared.label.Stage.TheVariants.{Reached};
ghost use Rattle.leg_search.specs.AtOnce.{AtOnce, Best, Idle, Least, Marks, NoneDue, Rest, RestIn, unsettled};
ghost use Rattle.leg_search.specs.Memory.{Prepared};
ghost use Rattle.leg_search.specs.Reading.{task_of};
ghost use Rattle.leg_search.specs.Run.{Ends};
ghost use Rattle.leg_search.specs.Task.{Asks, places, price as costs};
ghost use Rattle.legs.specs.Scene.{numbered};
ghost use Rattle.motion_order.specs.Classes.{class_of};

use crate::due::price;
use crate::notes::{cost_of, is_beyond, is_reached};
use crate::take::Departure;
use crate::task::Task;
use crate::turn::settle;
use cost::cost::Cost;
use display::cell::Cell;
use display::place::{Cursor, Place};
use labels::label::Label;
use motion_order::offer::Offer;
use panel::panel::Panel;

// The cheaper of a reached state and the best so far; the best so far where the state is not reached.
fn better<K: Cost>(labels: &[Label<K>], best: Option<u16>, state: u16) -> Option<u16>
    requires state { state < length labels.now }
    requires best { Best K.costs (noted K.value K.costs.zero labels.now) state best }
    ensures { Best K.costs (noted K.value K.costs.zero labels.now) (state + 1) result }
{
    if !is_reached(labels, usize::from(state)) {
        return best;
    }
    if let Some(other) = best {
        if cost_of(labels, usize::from(other)).at_most(cost_of(labels, usize::from(state))) {
            return best;
        }
    }
    Some(state)
}

// The cheapest of the reached states with a number below `end`, if any is reached.
fn cheapest<K: Cost>(labels: &[Label<K>], end: u16) -> Option<u16>
    requires { end ≤ length labels.now }
    ensures { Best K.costs (noted K.value K.costs.zero labels.now) end result }
{
    let mut best = None;
    for state in 0..end {
        best = better(labels, best, state);
    }
    best
}

// Takes note of one motion of a state, if it is offered there.
fn note_motion<P: Panel, C: Cell, K: Cost>(
    task: &Task<P, C>,
    labels: &mut [Label<K>],
    departure: Departure<K>,
    motion: u16,
)
    requires on { On (P.answers task.now.scene.panel.now).size departure.cursor.place }
    requires memory { length labels.old ≡ places (task_of P.answers C.glyph K.costs task.now) + 1 }
    ensures same { length labels.new ≡ length labels.old }
    ensures unsettled { unsettled labels.new ≡ unsettled labels.old }
    ensures marks { Marks (task_of P.answers C.glyph K.costs task.now)
        (noted K.value K.costs.zero labels.old) (noted K.value K.costs.zero labels.new) (K.value departure.cost)
        departure.cursor departure.number motion }
{
    if let Some(place) = task.scene.landing(motion, departure.cursor) {
        let state = task.scene.panel.size().number(place);
        labels[state].improve(departure.cost, motion, departure.number);
    }
}

// Takes the motions of a class from a settled state, at what a sequence costs that ends with one of them.
fn note_class<P: Panel, C: Cell, K: Cost>(
    task: &Task<P, C>,
    offers: &[Offer],
    labels: &mut [Label<K>],
    from: Departure<K>,
    class: usize,
    cost: K,
)
    requires asks { Asks (task_of P.answers C.glyph K.costs task.now) }
    requires memory { length labels.old ≡ places (task_of P.answers C.glyph K.costs task.now) + 1 }
    requires class { class < (task_of P.answers C.glyph K.costs task.now).count }
    requires offers { offers.now ≡ class_of task.now.classes class }
    requires cost { K.value cost ≡ K.costs.plus (K.value from.cost)
        (costs (task_of P.answers C.glyph K.costs task.now) class) }
    requires at_once { AtOnce (task_of P.answers C.glyph K.costs task.now) (noted K.value K.costs.zero labels.old)
        from.cursor from.number (K.value from.cost)
        (RestIn (task_of P.answers C.glyph K.costs task.now) from.number class 0) }
    ensures same { length labels.new ≡ length labels.old }
    ensures unsettled { unsettled labels.new ≡ unsettled labels.old }
    ensures at_once { AtOnce (task_of P.answers C.glyph K.costs task.now) (noted K.value K.costs.zero labels.new)
        from.cursor from.number (K.value from.cost)
        (Rest (task_of P.answers C.glyph K.costs task.now) from.number (class + 1)) }
{
    let departure = Departure { cost, ..from };
    for offer in offers {
        note_motion(task, labels, departure, offer.motion);
    }
}

// Takes the motions of a settled state, class by class, until a class comes to more than the goal is known at.
fn note_all<P: Panel, C: Cell, K: Cost>(
    task: &Task<P, C>,
    labels: &mut [Label<K>],
    from: Departure<K>,
)
    requires asks { Asks (task_of P.answers C.glyph K.costs task.now) }
    requires memory { length labels.old ≡ places (task_of P.answers C.glyph K.costs task.now) + 1 }
    requires at_once { AtOnce (task_of P.answers C.glyph K.costs task.now) (noted K.value K.costs.zero labels.old)
        from.cursor from.number (K.value from.cost)
        (Rest (task_of P.answers C.glyph K.costs task.now) from.number 0) }
    ensures same { length labels.new ≡ length labels.old }
    ensures unsettled { unsettled labels.new ≡ unsettled labels.old }
    ensures at_once { AtOnce (task_of P.answers C.glyph K.costs task.now) (noted K.value K.costs.zero labels.new)
        from.cursor from.number (K.value from.cost) NoneDue }
{
    for class in 0..task.classes.count() {
        let offers = task.classes.class(class);
        let cost = from.cost.plus(price(offers));
        if is_beyond(labels, task.goal, cost) {
            return;
        }
        note_class(task, offers, labels, from, class, cost);
    }
}

// Whether the goal is reached, and costs no more than another state.
fn is_at_goal<K: Cost>(labels: &[Label<K>], goal: usize, state: usize) -> bool
    requires goal { goal < length labels.now }
    requires state { state < length labels.now }
    ensures { Decides result (((noted K.value K.costs.zero labels.now goal).stage ≡ Reached)
        × (K.costs.at_most (noted K.value K.costs.zero labels.now goal).cost
        (noted K.value K.costs.zero labels.now state).cost ≡ true)) }
{
    is_reached(labels, goal) && cost_of(labels, goal).at_most(cost_of(labels, state))
}

// Settles the cheapest of the reached states, at a place of the panel, and takes its motions as far as they matter.
fn turn_at_once<P: Panel, C: Cell, K: Cost>(
    task: &Task<P, C>,
    labels: &mut [Label<K>],
    place: Place,
)
    requires asks { Asks (task_of P.answers C.glyph K.costs task.now) }
    requires memory { length labels.old ≡ places (task_of P.answers C.glyph K.costs task.now) + 1 }
    requires idle { Idle (task_of P.answers C.glyph K.costs task.now) (noted K.value K.costs.zero labels.old) }
    requires on { On (P.answers task.now.scene.panel.now).size place }
    requires least { Least K.costs (noted K.value K.costs.zero labels.old)
        (places (task_of P.answers C.glyph K.costs task.now))
        (number (P.answers task.now.scene.panel.now).size place) }
    requires before_goal { (noted K.value K.costs.zero labels.old task.now.goal).stage ≡ Reached
        → K.costs.at_most (noted K.value K.costs.zero labels.old task.now.goal).cost
        (noted K.value K.costs.zero labels.old (number (P.answers task.now.scene.panel.now).size place)).cost ≡ false }
    ensures same { length labels.new ≡ length labels.old }
    ensures less { unsettled labels.new < unsettled labels.old }
    ensures idle { Idle (task_of P.answers C.glyph K.costs task.now) (noted K.value K.costs.zero labels.new) }
{
    let state = task.scene.panel.size().number(place);
    let from = Departure {
        cursor: Cursor::from(place),
        number: state as u16,
        cost: cost_of(labels, state),
    };
    settle(labels, state);
    note_all(task, labels, from);
}

// From a start that is settled alone: takes its motions, then settles the cheapest reached state and takes its motions,
// again and again, until none is reached, or the goal costs no more than the cheapest.
pub(crate) fn run_at_once<P: Panel, C: Cell, K: Cost>(
    task: &Task<P, C>,
    labels: &mut [Label<K>],
    beginning: u16,
)
    requires asks { Asks (task_of P.answers C.glyph K.costs task.now) }
    requires memory { length labels.old ≡ places (task_of P.answers C.glyph K.costs task.now) + 1 }
    requires beginning { beginning ≡ numbered (P.answers task.now.scene.panel.now).size task.now.start }
    requires apart { beginning ≢ task.now.goal }
    requires prepared { Prepared K.costs (noted K.value K.costs.zero labels.old) beginning }
    ensures same { length labels.new ≡ length labels.old }
    ensures ends { Ends (task_of P.answers C.glyph K.costs task.now) (noted K.value K.costs.zero labels.new) }
{
    let size = task.scene.panel.size();
    let from = Departure {
        cursor: task.start,
        number: beginning,
        cost: K::zero(),
    };
    note_all(task, labels, from);
    while let Some(state) = cheapest(labels, size.places() as u16) {
        if is_at_goal(labels, task.goal, usize::from(state)) {
            return;
        }
        if let Some(place) = size.place_at(usize::from(state)) {
            turn_at_once(task, labels, place);
        }
    }
}
