// A search for the leg from a cursor to a place.
ghost use Rattle.std.specs.Prelude.{◌≡◌, ◌≢◌, ◌+◌, ◌*◌, ◌<◌, length};
ghost use Rattle.display.specs.Place.{On, number};
ghost use Rattle.labels.specs.Label.{noted};
ghost use Rattle.leg_search.specs.Answer.{Answered};
ghost use Rattle.leg_search.specs.Reading.{task_of};
ghost use Rattle.leg_search.specs.Run.{Ends};
ghost use Rattle.leg_search.specs.Task.{Asks, places};
ghost use Rattle.legs.specs.Scene.{numbered};
ghost use Rattle.legs.specs.Seen.{scened};

use crate::at_once::run_at_once;
use crate::leg::Leg;
use crate::memory::{prepare, trace};
use crate::notes::{cost_of, is_reached};
use crate::run::run;
use crate::task::Task;
use cost::cost::Cost;
use display::cell::Cell;
use display::place::{Cursor, Place};
use display::size::Size;
use labels::label::Label;
use panel::panel::Panel;

// The number of a cursor's state: that of its place. A held one has the number after those of the places.
fn state_of(size: Size, cursor: Cursor) -> usize
    ensures { result ≡ numbered size cursor }
{
    if cursor.held {
        size.places()
    } else {
        size.number(cursor.place)
    }
}

// Takes classes of motions as they fall due; where that takes too many turns, begins anew, and takes all motions of a
// state at once.
fn explore<P: Panel, C: Cell, K: Cost>(task: &Task<P, C>, labels: &mut [Label<K>], beginning: u16)
    requires asks { Asks (task_of P.answers C.glyph K.costs task.now) }
    requires memory { length labels.old ≡ places (task_of P.answers C.glyph K.costs task.now) + 1 }
    requires beginning { beginning ≡ numbered (P.answers task.now.scene.panel.now).size task.now.start }
    requires within { beginning < length labels.old }
    requires apart { beginning ≢ task.now.goal }
    ensures same { length labels.new ≡ length labels.old }
    ensures ends { Ends (task_of P.answers C.glyph K.costs task.now) (noted K.value K.costs.zero labels.new) }
{
    prepare(labels, usize::from(beginning));
    if run(task, labels, beginning) {
        return;
    }
    prepare(labels, usize::from(beginning));
    run_at_once(task, labels, beginning);
}

// The leg to a place, whose number the task has, if any sequence leads there. There is a label for each place, and one
// more.
pub(crate) fn search<P: Panel, C: Cell, K: Cost>(
    task: &Task<P, C>,
    goal: Place,
    labels: &mut [Label<K>],
) -> Option<Leg<K>>
    requires asks { Asks (task_of P.answers C.glyph K.costs task.now) }
    requires goal { On (P.answers task.now.scene.panel.now).size goal }
    requires number { task.now.goal ≡ number (P.answers task.now.scene.panel.now).size goal }
    requires memory { length labels.old ≡ places (task_of P.answers C.glyph K.costs task.now) + 1 }
    ensures same { length labels.new ≡ length labels.old }
    ensures answered { Answered K.costs K.value (scened P.answers C.glyph task.now.scene) task.now.start goal labels.new
        result }
{
    let size = task.scene.panel.size();
    let places = size.places();
    let beginning = state_of(size, task.start);
    if beginning == task.goal {
        return Some(Leg {
            cost: K::zero(),
            first: places,
            end: places,
        });
    }
    explore(task, labels, beginning as u16);
    if !is_reached(labels, task.goal) {
        return None;
    }
    Some(Leg {
        cost: cost_of(labels, task.goal),
        first: trace(labels, task.goal, beginning, places),
        end: places,
    })
}
