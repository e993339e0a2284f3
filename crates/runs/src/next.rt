// The next run of two pictures.
ghost use Rattle.std.specs.Prelude.{◌≡◌, ◌+◌, ◌*◌, ◌/◌, ◌<◌, false, map, true};
ghost use Rattle.display.specs.Cell.{blank};
ghost use Rattle.runs.specs.Runs.{FirstWhere, NextRun, differs, same_glyph};

use crate::run::Run;
use display::cell::Cell;
use display::size::Size;

// Whether a cell is blank.
fn is_blank<C: Cell>(cell: &C) -> bool
    ensures { result ≡ same_glyph (C.glyph cell.now) blank }
{
    cell.code() == b' ' && cell.pen() == 0
}

// Whether the cells with a number of two pictures are not the same. A picture that ends before it has a blank there.
fn differ<C: Cell>(shown: &[C], wanted: &[C], number: usize) -> bool
    ensures { result ≡ differs (map C.glyph shown.now) (map C.glyph wanted.now) number }
{
    match (shown.get(number), wanted.get(number)) {
        (Some(shown), Some(wanted)) => !shown.same(wanted),
        (Some(shown), None) => !is_blank(shown),
        (None, Some(wanted)) => !is_blank(wanted),
        (None, None) => false,
    }
}

// The first number from one to below another where it is as told whether the pictures differ; the other where there is
// none.
fn first_where<C: Cell>(
    shown: &[C],
    wanted: &[C],
    from: usize,
    end: usize,
    differing: bool,
) -> usize
    ensures { FirstWhere (differs (map C.glyph shown.now) (map C.glyph wanted.now)) from end differing result }
{
    for number in from..end {
        if differ(shown, wanted, number) == differing {
            return number;
        }
    }
    end
}

// Where a stretch of cells ends that begins at a place: at the first place of its row where the pictures do not differ,
// or with the row.
fn end_in_row<C: Cell>(size: Size, shown: &[C], wanted: &[C], first: usize) -> usize
    requires { first < size.rows * size.columns }
    ensures { FirstWhere (differs (map C.glyph shown.now) (map C.glyph wanted.now)) first
        ((first / size.columns + 1) * size.columns) false result }
{
    let columns = usize::from(size.columns);
    let row_end = (first / columns + 1) * columns;
    first_where(shown, wanted, first, row_end, false)
}

// The first stretch of cells in a row of a panel, from the place with a number on, in which two pictures differ, as
// long as can be.
pub fn next_run<C: Cell>(size: Size, shown: &[C], wanted: &[C], from: usize) -> Option<Run>
    ensures { NextRun size.columns (size.rows * size.columns)
        (differs (map C.glyph shown.now) (map C.glyph wanted.now)) from result }
{
    let places = size.places();
    let first = first_where(shown, wanted, from, places, true);
    if first >= places {
        return None;
    }
    let end = end_in_row(size, shown, wanted, first);
    Some(Run { first, end })
}
