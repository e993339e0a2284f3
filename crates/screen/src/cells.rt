// Cells of the pictures that are lent.
ghost use Rattle.std.specs.Prelude.{◌≡◌, ◌<◌, ◌≤◌, length, replicate, slice_set};
ghost use Rattle.display.specs.Cell.{blank};
ghost use Rattle.screen.specs.Calls.{copied};

use display::cell::Cell;

// A blank of a type of cells: every type admits it.
pub(crate) fn blank_cell<C: Cell>() -> C
    ensures { C.glyph result ≡ blank }
{
    match C::build(b' ', 0) {
        Some(cell) => cell,
        None => unreachable!(),
    }
}

// Sets one cell.
pub(crate) fn set_cell<C: Cell>(picture: &mut [C], number: usize, cell: C)
    requires { number < length picture.old }
    ensures { picture.new ≡ slice_set picture.old number cell }
{
    picture[number] = cell;
}

// Makes the first cells of a picture one and the same.
pub(crate) fn lay_out<C: Cell>(picture: &mut [C], places: usize, cell: C)
    requires { places ≤ length picture.old }
    ensures { picture.new ≡ copied places (replicate places cell) picture.old }
{
    for place in 0..places {
        picture[place] = cell;
    }
}
