// The turns of a search, until nothing is due, all that is due comes to more than the goal is known to cost, or too many
// turns have been taken.
ghost use Rattle.std.specs.Prelude.{◌≡◌, ◌≢◌, ◌+◌, ◌<◌, Decides, length, true};
ghost use Rattle.labels.specs.Label.{noted};
ghost use Rattle.leg_search.specs.Memory.{Prepared};
ghost use Rattle.leg_search.specs.Reading.{reach_of, task_of};
ghost use Rattle.leg_search.specs.Run.{Ends};
ghost use Rattle.leg_search.specs.Task.{Asks, places};
ghost use Rattle.legs.specs.Scene.{numbered};

use crate::due::next_due;
use crate::front::Front;
use crate::notes::is_beyond;
use crate::task::Task;
use crate::turn::turn;
use cost::cost::Cost;
use display::cell::Cell;
use due_queue::queue::Queue;
use labels::label::Label;
use panel::panel::Panel;

// The turns after which a search is given up. No leg that was tried on the deferred-wrap panel took five hundred; a panel
// with many costs could ask for millions.
const MOST_TURNS: u16 = 49_152;

// The turns that any search has.
const FEW_TURNS: u16 = 1_024;

// As many motions take the time of a turn, where all of a state are taken at once.
const MOTIONS_OF_A_TURN: usize = 32;

// Whether so many turns take more time than it would to take all motions of the states in the line at once.
fn are_too_many(turns: u16, states: usize, classes: usize) -> bool
    ensures { result ≡ true → 1024 < turns }
{
    turns > FEW_TURNS
        && usize::from(turns - FEW_TURNS) / states.max(1) > classes / MOTIONS_OF_A_TURN
}

// Takes one class after another, the one that is due first, from a state that is settled and stands in the line alone.
// Answers whether the search has come to its end.
pub(crate) fn run<P: Panel, C: Cell, K: Cost>(
    task: &Task<P, C>,
    labels: &mut [Label<K>],
    beginning: u16,
) -> bool
    requires asks { Asks (task_of P.answers C.glyph K.costs task.now) }
    requires memory { length labels.old ≡ places (task_of P.answers C.glyph K.costs task.now) + 1 }
    requires beginning { beginning ≡ numbered (P.answers task.now.scene.panel.now).size task.now.start }
    requires apart { beginning ≢ task.now.goal }
    requires prepared { Prepared K.costs (noted K.value K.costs.zero labels.old) beginning }
    ensures same { length labels.new ≡ length labels.old }
    ensures ends { result ≡ true
        → Ends (task_of P.answers C.glyph K.costs task.now) (noted K.value K.costs.zero labels.new) }
{
    let mut front = Front::new();
    front.append(labels, beginning);
    let mut queue = Queue::new(task.classes.count());
    let mut seen = 0;
    let mut turns = 0;
    while let Some(due) = next_due(task, &front, labels, &mut queue, seen < front.count) {
        if is_beyond(labels, task.goal, due.cost) {
            return true;
        }
        if turns == MOST_TURNS || are_too_many(turns, front.count, task.classes.count()) {
            return false;
        }
        turns += 1;
        seen = front.count;
        turn(task, &mut front, labels, due);
    }
    true
}
