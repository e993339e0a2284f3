// Drawing the cells of a run.
ghost use Rattle.std.specs.Prelude.{◌≡◌, ◌+◌, ◌∷◌, ◌++◌, ◌<◌, ◌≤◌, [], length, map};
ghost use Rattle.plan.specs.Drawing.{cells_of, penned};
ghost use Rattle.planning.specs.Pours.{Draws, Pours};

use crate::pour::pour;
use display::cell::{Cell, Glyph, glyph_of};
use panel::panel::Panel;
use runs::run::Run;

// The pen that is set once some cells are drawn, and how many bytes are then counted.
#[derive(Clone, Copy)]
pub(crate) struct Inked {
    pub pen: u8,
    pub count: usize,
}

// Sends the bytes of a glyph's pen, if it is not the one that is set, and its code.
fn draw_glyph<P: Panel>(panel: &P, glyph: Glyph, pen: u8, output: &mut [u8], count: usize) -> usize
    requires { count < 4611686018427387904 }
    ensures pours { Pours (penned (P.answers panel.now) pen glyph.pen ++ (glyph.code ∷ [])) output.old output.new count
        result }
    ensures few { result ≤ count + 17 }
{
    let mut count = count;
    if glyph.pen != pen {
        let bytes = panel.pen_bytes(glyph.pen);
        count = pour(output, count, bytes.as_slice());
    }
    pour(output, count, &[glyph.code])
}

// Draws the cells of a run, one after the other.
pub(crate) fn draw_run<P: Panel, C: Cell>(
    panel: &P,
    wanted: &[C],
    run: Run,
    pen: u8,
    output: &mut [u8],
    count: usize,
) -> Inked
    requires count { count < 1152921504606846976 }
    requires order { run.first ≤ run.end }
    requires inside { run.end ≤ length wanted.now }
    requires few { length wanted.now ≤ 1920 }
    ensures { Draws (P.answers panel.now) (cells_of (map C.glyph wanted.now) run) pen output.old output.new count
        result }
{
    let mut inked = Inked { pen, count };
    for cell in &wanted[run.first..run.end] {
        let glyph = glyph_of(cell);
        inked = Inked {
            count: draw_glyph(panel, glyph, inked.pen, output, inked.count),
            pen: glyph.pen,
        };
    }
    inked
}
