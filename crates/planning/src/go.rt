// Going to a place by the leg that leads there.
ghost use Rattle.std.specs.Prelude.{◌≡◌, ◌*◌, ◌<◌, length, map};
ghost use Rattle.display.specs.Place.{On};
ghost use Rattle.leg_search.specs.Find.{Covered};
ghost use Rattle.planning.specs.Walks.{Goes};

use crate::pictures::Pictures;
use crate::pour::pour_leg;
use cost::cost::Cost;
use display::cell::Cell;
use display::place::{Cursor, Place};
use labels::label::Label;
use leg_search::find::find;
use legs::glass::Glass;
use legs::scene::Scene;
use motion_order::charted::Charted;
use panel::panel::Panel;

// How far a plan has come: the cursor, the pen now set, and how many bytes are counted.
#[derive(Clone, Copy)]
pub(crate) struct Progress {
    pub cursor: Cursor,
    pub pen: u8,
    pub count: usize,
}

// Sends the leg to a place, while the wanted cells are on the glass at the places with a number below `split`, and the
// shown ones at the others; or answers nothing where no sequence leads there.
pub(crate) fn go<P: Panel, C: Cell, K: Cost>(
    charted: &Charted<P, K>,
    pictures: Pictures<C>,
    split: usize,
    progress: Progress,
    goal: Place,
    labels: &mut [Label<K>],
    output: &mut [u8],
) -> Option<usize>
    requires covered { Covered (P.answers charted.now).size (length labels.old) }
    requires start { On (P.answers charted.now).size progress.cursor.place }
    requires goal { On (P.answers charted.now).size goal }
    requires count { progress.count < 1152921504606846976 }
    ensures labels { length labels.new ≡ length labels.old }
    ensures goes { Goes K.costs (P.answers charted.now) (map C.glyph pictures.entry.shown.now)
        (map C.glyph pictures.entry.wanted.now) split progress goal output.old output.new result }
{
    let glass = Glass {
        below: pictures.wanted,
        from: pictures.shown,
        split,
    };
    let leg = match find(charted, glass, progress.pen, progress.cursor, goal, labels) {
        Ok(leg) => leg?,
        Err(_) => unreachable!(),
    };
    let scene = Scene {
        panel: charted.panel(),
        glass,
        pen: progress.pen,
    };
    Some(pour_leg(
        &scene,
        progress.cursor,
        leg.steps(labels),
        output,
        progress.count,
    ))
}
