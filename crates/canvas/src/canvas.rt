// The canvas, and what it tells and does.
use display::cell::Glyph;
use display::place::Cursor;
use display::size::Size;
use std::marker::Model;

mod edits;
mod reads;

// Contracts see the surface that it holds. The picture fills the panel, and the cursor is on it.
#[derive(Drop)]
pub struct Canvas {
    size: Size,
    cells: Vec<Glyph>,
    cursor: Cursor,
    pen: u8,
}

impl Model for Canvas {
    ghost use Rattle.display.specs.Surface.{Surface};

    ghost Value = { Surface };

    ghost use Rattle.canvas.specs.Held.{Placed, surface};

    ghost view = { surface };

    ghost invariant = { Placed };
}
