// What is asked of a whole picture before it is shown.
ghost use Rattle.std.specs.Prelude.{◌≡◌, map};
ghost use Rattle.std.specs.Option.{option_map};
ghost use Rattle.faults.specs.Causes.{Checks};
ghost use Rattle.faults.specs.Rows.{ChecksRow, place_cause};
ghost use Rattle.faults.specs.Told.{told};

use crate::fault::Fault;
use crate::judge::judge;
use display::cell::{Cell, glyph_at};
use display::place::Place;
use panel::panel::Panel;

// Why the cell of a picture at a place cannot be put, if it cannot.
fn cell_fault<P: Panel, C: Cell>(panel: &P, picture: &[C], place: Place) -> Option<Fault>
    ensures { option_map told result ≡ place_cause (P.answers panel.now) C.admits (map C.glyph picture.now) place }
{
    let glyph = glyph_at(picture, panel.size().number(place));
    judge::<P, C>(
        panel,
        usize::from(place.row),
        usize::from(place.column),
        glyph.code,
        glyph.pen,
    )
    .err()
}

// The first cell of a row, by its column, that cannot be put, and why.
fn row_fault<P: Panel, C: Cell>(panel: &P, picture: &[C], row: u8) -> Option<Fault>
    ensures { ChecksRow (P.answers panel.now) C.admits (map C.glyph picture.now) row result }
{
    for column in 0..panel.size().columns {
        if let Some(fault) = cell_fault(panel, picture, Place { row, column }) {
            return Some(fault);
        }
    }
    None
}

// The first cell of a picture, by its place's number, that cannot be put, and why. A picture that ends before a place
// has a blank there.
pub fn first_fault<P: Panel, C: Cell>(panel: &P, picture: &[C]) -> Option<Fault>
    ensures { Checks (P.answers panel.now) C.admits (map C.glyph picture.now) result }
{
    for row in 0..panel.size().rows {
        if let Some(fault) = row_fault(panel, picture, row) {
            return Some(fault);
        }
    }
    None
}
