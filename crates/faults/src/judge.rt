// What is asked of a cell before it is put.
ghost use Rattle.std.specs.Prelude.{◌≡◌, ◌&&◌, not};
ghost use Rattle.faults.specs.Causes.{Judges, is_blank, is_corner};

use crate::fault::Fault;
use display::cell::{Cell, is_printable};
use display::place::Place;
use panel::panel::Panel;

// A cell at a place of the panel.
#[derive(Clone, Copy)]
pub struct Placed<C> {
    pub place: Place,
    pub cell: C,
}

// Whether a panel's unsafe corner is at a place, and a code and a pen are no blank.
fn spoils_corner<P: Panel>(panel: &P, place: Place, code: u8, pen: u8) -> bool
    ensures { result ≡ (not (P.answers panel.now).corner_safe
        && is_corner (P.answers panel.now).size place.row place.column && not (is_blank code pen)) }
{
    !panel.corner_safe() && place == panel.size().corner() && !(code == b' ' && pen == 0)
}

// The cell of a code and a pen, and the place at a row and a column, where it can be put; or the first reason why it
// cannot.
pub fn judge<P: Panel, C: Cell>(
    panel: &P,
    row: usize,
    column: usize,
    code: u8,
    pen: u8,
) -> Result<Placed<C>, Fault>
    ensures { Judges (P.answers panel.now) C.admits C.glyph row column code pen result }
{
    let Some(place) = panel.size().place(row, column) else {
        return Err(Fault::Outside { row, column });
    };
    if !is_printable(code) {
        return Err(Fault::NotCode { row, column });
    }
    if pen >= panel.pens() {
        return Err(Fault::NotPen { row, column });
    }
    let Some(cell) = C::build(code, pen) else {
        return Err(Fault::NotPen { row, column });
    };
    if spoils_corner(panel, place, code, pen) {
        return Err(Fault::UnsafeCorner { row, column });
    }
    Ok(Placed { place, cell })
}
