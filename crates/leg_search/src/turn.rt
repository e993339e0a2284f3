// One turn of a search.
ghost use Rattle.std.specs.Prelude.{◌≡◌, ◌≢◌, ◌+◌, ◌*◌, ◌<◌, Decides, length, slice_index_or, false, true};
ghost use Rattle.labels.specs.Label.{noted};
ghost use Rattle.labels.specs.declared.label.Stage.TheVariants.{Reached};
ghost use Rattle.leg_search.specs.AtOnce.{unsettled};
ghost use Rattle.leg_search.specs.Noting.{Grown};
ghost use Rattle.leg_search.specs.Reach.{due_at};
ghost use Rattle.leg_search.specs.Reading.{lined, reach_of, task_of};
ghost use Rattle.leg_search.specs.Take.{InTurn};
ghost use Rattle.leg_search.specs.Task.{Asks, places, price};
ghost use Rattle.leg_search.specs.Turn.{Rests, Settles, Turned, remaining};

use crate::due::Due;
use crate::front::{Front, cost_at, state_at};
use crate::notes::is_reached;
use crate::take::{Departure, take};
use crate::task::Task;
use cost::cost::Cost;
use display::cell::Cell;
use display::place::Cursor;
use labels::label::Label;
use panel::panel::Panel;

// Whether two costs are the same.
fn is_same<K: Cost>(one: K, other: K) -> bool
    ensures { Decides result (K.value one ≡ K.value other) }
{
    one.at_most(other) && other.at_most(one)
}

// The cursor of a state that stands at a place of the line: that of the first is where the search begins.
fn cursor_at<P: Panel, C: Cell>(task: &Task<P, C>, position: usize, state: usize) -> Cursor
    ensures first { position ≡ 0 → result ≡ task.now.start }
    ensures later { position ≢ 0 → state < (P.answers task.now.scene.panel.now).size.rows
        * (P.answers task.now.scene.panel.now).size.columns
        → Rests (P.answers task.now.scene.panel.now).size state result }
{
    if position == 0 {
        return task.start;
    }
    match task.scene.panel.size().place_at(state) {
        Some(place) => Cursor::from(place),
        None => task.start,
    }
}

// Settles a state, if it is reached.
pub(crate) fn settle<K: Cost>(labels: &mut [Label<K>], state: usize)
    requires { state < length labels.old }
    ensures same { length labels.new ≡ length labels.old }
    ensures line { lined labels.new ≡ lined labels.old }
    ensures settles { Settles (noted K.value K.costs.zero labels.old) (noted K.value K.costs.zero labels.new) state }
    ensures less { (noted K.value K.costs.zero labels.old state).stage ≡ Reached
        → unsettled labels.new < unsettled labels.old }
{
    if is_reached(labels, state) {
        labels[state].settle();
    }
}

// Takes a class from the state at a place of the line, if that costs as much as told, and answers whether it does.
fn take_at<P: Panel, C: Cell, K: Cost>(
    task: &Task<P, C>,
    front: &mut Front,
    labels: &mut [Label<K>],
    due: Due<K>,
    position: usize,
    level: K,
) -> bool
    requires asks { Asks (task_of P.answers C.glyph K.costs task.now) }
    requires memory { length labels.old ≡ places (task_of P.answers C.glyph K.costs task.now) + 1 }
    requires in_turn { InTurn (task_of P.answers C.glyph K.costs task.now)
        (reach_of K.value K.costs.zero labels.old front.old) (K.value due.cost) }
    requires class { due.class < (task_of P.answers C.glyph K.costs task.now).count }
    requires at { slice_index_or front.old.next due.class 0 ≡ position }
    requires within { position < front.old.count }
    requires level { K.value due.cost ≡ K.costs.plus (K.value level)
        (price (task_of P.answers C.glyph K.costs task.now) due.class) }
    ensures same { length labels.new ≡ length labels.old }
    ensures turned { Turned (task_of P.answers C.glyph K.costs task.now)
        (reach_of K.value K.costs.zero labels.old front.old) (reach_of K.value K.costs.zero labels.new front.new)
        (K.value due.cost) due.class }
    ensures taken { result ≡ true → (slice_index_or front.new.next due.class 0 ≡ position + 1)
        × (remaining (places (task_of P.answers C.glyph K.costs task.now)) front.new
        < remaining (places (task_of P.answers C.glyph K.costs task.now)) front.old) }
    ensures left { result ≡ false → (front.new ≡ front.old)
        × ((noted K.value K.costs.zero labels.old (lined labels.old position)).cost ≢ K.value level) }
{
    if !is_same(cost_at(labels, position), level) {
        return false;
    }
    let number = state_at(labels, position);
    let state = usize::from(number);
    settle(labels, state);
    front.next[due.class] = position as u16 + 1;
    let departure = Departure {
        cursor: cursor_at(task, position, state),
        number,
        cost: due.cost,
    };
    let offers = task.classes.class(due.class);
    take(task, offers, front, labels, departure, due.class);
    true
}

// Takes the class that is due from the states that cost as much as the first from which it is due.
pub(crate) fn turn<P: Panel, C: Cell, K: Cost>(
    task: &Task<P, C>,
    front: &mut Front,
    labels: &mut [Label<K>],
    due: Due<K>,
)
    requires asks { Asks (task_of P.answers C.glyph K.costs task.now) }
    requires memory { length labels.old ≡ places (task_of P.answers C.glyph K.costs task.now) + 1 }
    requires in_turn { InTurn (task_of P.answers C.glyph K.costs task.now)
        (reach_of K.value K.costs.zero labels.old front.old) (K.value due.cost) }
    requires class { due.class < (task_of P.answers C.glyph K.costs task.now).count }
    requires within { slice_index_or front.old.next due.class 0 < front.old.count }
    requires cost { K.value due.cost ≡ due_at (task_of P.answers C.glyph K.costs task.now)
        (reach_of K.value K.costs.zero labels.old front.old) due.class }
    ensures same { length labels.new ≡ length labels.old }
    ensures turned { Turned (task_of P.answers C.glyph K.costs task.now)
        (reach_of K.value K.costs.zero labels.old front.old) (reach_of K.value K.costs.zero labels.new front.new)
        (K.value due.cost) due.class }
    ensures less { remaining (places (task_of P.answers C.glyph K.costs task.now)) front.new
        < remaining (places (task_of P.answers C.glyph K.costs task.now)) front.old }
{
    let first = usize::from(front.next[due.class]);
    let level = cost_at(labels, first);
    for position in first..front.count {
        if !take_at(task, front, labels, due, position, level) {
            return;
        }
    }
}
