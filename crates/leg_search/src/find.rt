// Finding the leg from a cursor to a place.
ghost use Rattle.std.specs.Prelude.{◌≡◌, Decides, MatchOption, length};
ghost use Rattle.display.specs.Place.{On};
ghost use Rattle.leg_search.specs.Find.{Astray, Covered, Finds};
ghost use Rattle.legs.specs.Scene.{scene_of};

use crate::leg::{Leg, Refusal};
use crate::search::search;
use crate::task::Task;
use cost::cost::Cost;
use display::cell::Cell;
use display::place::{Cursor, Place};
use display::size::Size;
use labels::label::Label;
use legs::glass::Glass;
use legs::scene::Scene;
use motion_order::charted::Charted;
use panel::panel::Panel;

// Whether there are labels enough for a search on a panel of a size.
fn is_covered<K>(size: Size, labels: &[Label<K>]) -> bool
    ensures { Decides result (Covered size (length labels.now)) }
{
    size.places() < labels.len()
}

// Whether a place is on a panel of a size.
fn is_on(size: Size, place: Place) -> bool
    ensures { Decides result (On size place) }
{
    place.row < size.rows && place.column < size.columns
}

// The first of the start and the goal that is not on a panel of a size.
fn astray(size: Size, start: Cursor, goal: Place) -> Option<Place>
    ensures { MatchOption result (On size start.place × On size goal) (Astray size start goal) }
{
    if !is_on(size, start.place) {
        return Some(start.place);
    }
    if !is_on(size, goal) {
        return Some(goal);
    }
    None
}

// The leg from a cursor to a place on the panel, or nothing where no sequence of motions leads there, while the glass
// is as told and a pen is set; where a picture of it ends before a place, a blank is there. The search needs a label
// for each place and one more; some of them hold the leg's motions when it is done.
pub fn find<P: Panel, C: Cell, K: Cost>(
    charted: &Charted<P, K>,
    glass: Glass<C>,
    pen: u8,
    start: Cursor,
    goal: Place,
    labels: &mut [Label<K>],
) -> Result<Option<Leg<K>>, Refusal>
    ensures { Finds K.costs K.value
        (scene_of (P.answers charted.now) C.glyph glass.entry.below.now glass.entry.from.now glass.entry.split pen)
        start goal labels.old labels.new result }
{
    let panel = charted.panel();
    let size = panel.size();
    if !is_covered(size, labels) {
        return Err(Refusal::TooShort);
    }
    if let Some(place) = astray(size, start, goal) {
        return Err(Refusal::Outside { place });
    }
    let task = Task {
        scene: Scene { panel, glass, pen },
        classes: charted.classes(),
        start,
        goal: size.number(goal),
    };
    Ok(search(&task, goal, &mut labels[..size.places() + 1]))
}
