// Taking the motions of a class from a state.
ghost use Rattle.std.specs.Prelude.{◌≡◌, ◌≢◌, ◌+◌, ◌<◌, Decides, length, true};
ghost use Rattle.display.specs.Place.{On};
ghost use Rattle.labels.specs.Label.{noted};
ghost use Rattle.labels.specs.declared.label.Stage.TheVariants.{Unreached, Reached};
ghost use Rattle.leg_search.specs.Noting.{Grown, Noted, Preceded, Took};
ghost use Rattle.leg_search.specs.Reading.{reach_of, task_of};
ghost use Rattle.leg_search.specs.Take.{InTurn, Roomy, Takes};
ghost use Rattle.leg_search.specs.Task.{Asks, places};
ghost use Rattle.leg_search.specs.declared.front.Front.{Front};
ghost use Rattle.legs.specs.Scene.{numbered};
ghost use Rattle.motion_order.specs.Classes.{class_of};

use crate::front::Front;
use crate::notes::is_reached;
use crate::task::Task;
use cost::cost::Cost;
use display::cell::Cell;
use display::place::Cursor;
use labels::label::{Label, Stage};
use motion_order::offer::Offer;
use panel::panel::Panel;

// A settled state from which motions are taken: its cursor, its number, and a cost: that of its leg, or of a sequence that
// ends with one of the motions.
#[derive(Clone, Copy)]
pub(crate) struct Departure<K> {
    pub cursor: Cursor,
    pub number: u16,
    pub cost: K,
}

// Whether no sequence to a state is known, and it is not the goal.
fn is_new<K: Cost>(labels: &[Label<K>], state: usize, goal: usize) -> bool
    requires { state < length labels.now }
    ensures { Decides result ((state ≢ goal) × ((noted K.value K.costs.zero labels.now state).stage ≡ Unreached)) }
{
    state != goal && labels[state].stage() == Stage::Unreached
}

// Takes note of a sequence to a state, while the goal is not reached. A new state comes to stand in the line.
fn note<K: Cost>(
    front: &mut Front,
    labels: &mut [Label<K>],
    departure: Departure<K>,
    motion: u16,
    state: u16,
    goal: usize,
)
    requires state { state < length labels.old }
    requires not_yet { (noted K.value K.costs.zero labels.old goal).stage ≢ Reached }
    requires room { (noted K.value K.costs.zero labels.old state).stage ≡ Unreached
        → front.old.count < length labels.old }
    ensures same { length labels.new ≡ length labels.old }
    ensures next { front.new.next ≡ front.old.next }
    ensures noted { Noted K.costs goal (reach_of K.value K.costs.zero labels.old front.old)
        (reach_of K.value K.costs.zero labels.new front.new) (K.value departure.cost) motion departure.number state }
{
    let number = usize::from(state);
    if !is_new(labels, number, goal) {
        labels[number].improve(departure.cost, motion, departure.number);
        return;
    }
    front.append(labels, state);
    labels[number].improve(departure.cost, motion, departure.number);
}

// Takes a motion of a state where the goal is reached, at the cost whose turn it is: only what lands on the goal counts,
// and no motion after that by which it is reached. Answers whether the motion comes after that.
fn take_last<P: Panel, C: Cell, K: Cost>(
    task: &Task<P, C>,
    labels: &mut [Label<K>],
    departure: Departure<K>,
    motion: u16,
) -> bool
    requires goal { task.now.goal < length labels.old }
    requires reached { (noted K.value K.costs.zero labels.old task.now.goal).stage ≡ Reached }
    ensures same { length labels.new ≡ length labels.old }
    ensures late { Decides result (Preceded (noted K.value K.costs.zero labels.old task.now.goal) motion) }
    ensures took { (front : Front) → Took (task_of P.answers C.glyph K.costs task.now)
        (reach_of K.value K.costs.zero labels.old front) (reach_of K.value K.costs.zero labels.new front)
        (K.value departure.cost) departure.cursor departure.number motion result }
{
    if labels[task.goal].motion() < motion {
        return true;
    }
    if let Some(place) = task.scene.landing(motion, departure.cursor) {
        if task.scene.panel.size().number(place) == task.goal {
            labels[task.goal].improve(departure.cost, motion, departure.number);
        }
    }
    false
}

// Takes one motion of a state, and answers whether it comes after that by which the goal is reached. Such a motion is left
// out.
fn take_motion<P: Panel, C: Cell, K: Cost>(
    task: &Task<P, C>,
    front: &mut Front,
    labels: &mut [Label<K>],
    departure: Departure<K>,
    motion: u16,
) -> bool
    requires on { On (P.answers task.now.scene.panel.now).size departure.cursor.place }
    requires goal { task.now.goal < places (task_of P.answers C.glyph K.costs task.now) }
    requires memory { length labels.old ≡ places (task_of P.answers C.glyph K.costs task.now) + 1 }
    requires room { Roomy (task_of P.answers C.glyph K.costs task.now)
        (reach_of K.value K.costs.zero labels.old front.old) }
    ensures same { length labels.new ≡ length labels.old }
    ensures next { front.new.next ≡ front.old.next }
    ensures late { Decides result (Preceded (noted K.value K.costs.zero labels.old task.now.goal) motion) }
    ensures took { Took (task_of P.answers C.glyph K.costs task.now)
        (reach_of K.value K.costs.zero labels.old front.old) (reach_of K.value K.costs.zero labels.new front.new)
        (K.value departure.cost) departure.cursor departure.number motion result }
{
    if is_reached(labels, task.goal) {
        return take_last(task, labels, departure, motion);
    }
    if let Some(place) = task.scene.landing(motion, departure.cursor) {
        let state = task.scene.panel.size().number(place) as u16;
        note(front, labels, departure, motion, state, task.goal);
    }
    false
}

// Takes the motions of a class from a state, by their numbers, until they come after that by which the goal is reached.
pub(crate) fn take<P: Panel, C: Cell, K: Cost>(
    task: &Task<P, C>,
    offers: &[Offer],
    front: &mut Front,
    labels: &mut [Label<K>],
    departure: Departure<K>,
    class: usize,
)
    requires asks { Asks (task_of P.answers C.glyph K.costs task.now) }
    requires offers { offers.now ≡ class_of task.now.classes class }
    requires number { departure.number ≡ numbered (P.answers task.now.scene.panel.now).size departure.cursor }
    requires memory { length labels.old ≡ places (task_of P.answers C.glyph K.costs task.now) + 1 }
    requires takes { Takes (task_of P.answers C.glyph K.costs task.now)
        (reach_of K.value K.costs.zero labels.old front.old) (reach_of K.value K.costs.zero labels.old front.old)
        class 0 (K.value departure.cost) departure.cursor }
    ensures same { length labels.new ≡ length labels.old }
    ensures next { front.new.next ≡ front.old.next }
    ensures in_turn { InTurn (task_of P.answers C.glyph K.costs task.now)
        (reach_of K.value K.costs.zero labels.new front.new) (K.value departure.cost) }
    ensures grown { Grown (reach_of K.value K.costs.zero labels.old front.old)
        (reach_of K.value K.costs.zero labels.new front.new) }
{
    for offer in offers {
        if take_motion(task, front, labels, departure, offer.motion) {
            return;
        }
    }
}
