// What the legs on a panel depend on, as a search takes it.
ghost use Rattle.std.specs.Prelude.{◌≡◌, ◌<◌, ◌*◌, IfOk, length, map, slice_index_or};
ghost use Rattle.display.specs.Cell.{blank};
ghost use Rattle.leg_view.specs.Report.{scene_now};
ghost use Rattle.legs.specs.Seen.{scened};

use display::cell::attributed::Attributed;
use display::cell::{Cell, Glyph};
use legs::glass::Glass;
use legs::scene::Scene;
use panel::readout::Readout;
use std::alloc::{AllocError, Global};

// The cell at the place with a number. Each glyph that a panel can show makes a cell.
fn cell_at<P: Readout>(panel: &P, number: usize) -> Attributed
    requires { number < (P.Panel.answers panel.now).size.rows * (P.Panel.answers panel.now).size.columns }
    ensures { ⟦<Attributed as Cell>⟧.glyph result
        ≡ slice_index_or (P.Panel.meaning panel.now).surface.picture number blank }
{
    let glyph = match panel.size().place_at(number) {
        Some(place) => panel.glyph(place).unwrap_or(Glyph::BLANK),
        None => Glyph::BLANK,
    };
    match Attributed::build(glyph.code, glyph.pen) {
        Some(cell) => cell,
        None => unreachable!(),
    }
}

// The whole picture, read cell by cell.
pub(crate) fn read_cells<P: Readout>(heap: Global, panel: &P) -> Result<Vec<Attributed>, AllocError>
    ensures { IfOk result
        (λ v. map ⟦<Attributed as Cell>⟧.glyph v.items ≡ (P.Panel.meaning panel.now).surface.picture) }
{
    (0..panel.size().places())
        .map(|number| cell_at(panel, number))
        .collect(heap)
}

// A panel with its picture and the pen that it has set. The picture stands on the whole glass.
#[tactic(auto, using(crate::proofs::Scenes::one_picture))]
pub(crate) fn scene_over<'a, P: Readout>(
    panel: &'a P,
    cells: &'a [Attributed],
) -> Scene<'a, P, Attributed>
    requires { map ⟦<Attributed as Cell>⟧.glyph cells.now ≡ (P.Panel.meaning panel.now).surface.picture }
    ensures panel { result.panel.now ≡ panel.now }
    ensures cells { (result.glass.below.now ≡ cells.now) × (result.glass.from.now ≡ cells.now) }
    ensures scene { scened P.Panel.answers ⟦<Attributed as Cell>⟧.glyph result
        ≡ scene_now (P.Panel.answers panel.now) (P.Panel.meaning panel.now).surface }
{
    let glass = Glass {
        below: cells,
        from: cells,
        split: 0,
    };
    Scene {
        panel,
        glass,
        pen: panel.pen(),
    }
}
