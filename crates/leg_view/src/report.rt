// The whole text. It stays bytes, as the report on a panel does.
ghost use Rattle.std.specs.Prelude.{◌≡◌, IfOk, MatchResult, map};
ghost use Rattle.display.specs.Place.{On};
ghost use Rattle.display.specs.Surface.{place_of};
ghost use Rattle.labels.specs.Label.{step_of};
ghost use Rattle.leg_search.specs.Answer.{Tells};
ghost use Rattle.leg_search.specs.Memory.{held_labels};
ghost use Rattle.leg_view.specs.Report.{OffPanel, TellsLeg, TellsOn, ToldLeg, scene_now};
ghost use Rattle.legs.specs.Scene.{sent};
ghost use Rattle.legs.specs.Seen.{scened};
ghost use Rattle.legs.specs.Sequence.{sequence};

use crate::cells::{read_cells, scene_over};
use crate::costs::Worded;
use crate::goal::{Outside, goal_on};
use crate::lines::{write_lines, write_no_sequence};
use cost::cost::Cost;
use display::cell::Cell;
use display::place::{Cursor, Place};
use labels::label::Label;
use leg_search::find::find;
use leg_search::leg::Leg;
use leg_search::sending::write_leg;
use legs::scene::Scene;
use motion_order::charted::Charted;
use panel::panel::Panel;
use panel::readout::Readout;
use std::alloc::{AllocError, Global};

// The bytes of a leg that was found. A motion has at most sixteen, and a leg no more motions than there are places.
fn sent_bytes<P: Panel, C: Cell, K: Cost>(
    heap: Global,
    scene: &Scene<P, C>,
    start: Cursor,
    goal: Place,
    labels: &[Label<K>],
    leg: Leg<K>,
) -> Result<Vec<u8>, AllocError>
    requires { Tells K.costs K.value (scened P.answers C.glyph scene.now) start goal labels.now leg }
    ensures { IfOk result (λ v. v.items ≡ sent (scened P.answers C.glyph scene.now) start
        (sequence (map step_of (held_labels labels.now leg.first leg.end)))) }
{
    let mut output = vec![in heap; 0u8; 16 * scene.panel.size().places()]?;
    match write_leg(scene, start, leg.steps(labels), &mut output) {
        Some(count) => output.truncate(count),
        None => unreachable!(),
    }
    Ok(output)
}

// The lines of a leg that was found.
fn leg_lines<P: Panel, C: Cell, K: Worded>(
    heap: Global,
    scene: &Scene<P, C>,
    start: Cursor,
    goal: Place,
    labels: &[Label<K>],
    leg: Leg<K>,
) -> Result<Vec<u8>, AllocError>
    requires { Tells K.costs K.value (scened P.answers C.glyph scene.now) start goal labels.now leg }
    ensures { IfOk result
        (λ v. ToldLeg K.costs K.value K.worded (scened P.answers C.glyph scene.now) start goal v.items) }
{
    let bytes = sent_bytes(heap, scene, start, goal, labels, leg)?;
    write_lines(heap, leg.steps(labels), &bytes, leg.cost)
}

// What is told of the leg from where the cursor of a panel stands to a place, over the picture that it shows and with
// the pen that it has set: the leg's motions, its bytes and its cost, or that there is none.
fn leg_text<P: Readout, K: Worded>(
    heap: Global,
    charted: &Charted<P, K>,
    goal: Place,
) -> Result<Vec<u8>, AllocError>
    requires { On (P.Panel.answers charted.now).size goal }
    ensures { IfOk result
        (λ v. TellsLeg K.costs K.value K.worded
        (scene_now (P.Panel.answers charted.now) (P.Panel.meaning charted.now).surface)
        (P.Panel.meaning charted.now).surface.cursor goal v.items) }
{
    let panel = charted.panel();
    let cells = read_cells(heap, panel)?;
    let scene = scene_over(panel, &cells);
    let start = panel.cursor();
    let mut labels = vec![in heap; Label::unreached(); panel.size().places() + 1]?;
    match find(charted, scene.glass, scene.pen, start, goal, &mut labels) {
        Ok(Some(leg)) => leg_lines(heap, &scene, start, goal, &labels, leg),
        Ok(None) => write_no_sequence(heap),
        Err(_) => unreachable!(),
    }
}

// What is told of the leg from where the cursor of a panel stands to a row and a column, as above, or why it is
// refused: there is no such place on the panel.
pub fn leg_to<P: Readout, K: Worded>(
    heap: Global,
    charted: &Charted<P, K>,
    row: usize,
    column: usize,
) -> Result<Result<Vec<u8>, Outside>, AllocError>
    ensures { IfOk result (λ r. MatchResult r
        (λ v. TellsOn K.costs K.value K.worded
        (scene_now (P.Panel.answers charted.now) (P.Panel.meaning charted.now).surface)
        (P.Panel.meaning charted.now).surface.cursor (place_of row column) v.items)
        (OffPanel (P.Panel.answers charted.now).size row column)) }
{
    match goal_on(charted.panel().size(), row, column) {
        Ok(goal) => Ok(Ok(leg_text(heap, charted, goal)?)),
        Err(outside) => Ok(Err(outside)),
    }
}
