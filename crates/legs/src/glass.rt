// What stands on the glass while a leg is taken.
ghost use Rattle.std.specs.Prelude.{◌≡◌};
ghost use Rattle.legs.specs.Glass.{glass_glyph};

use display::cell::{Cell, Glyph, glyph_at};

// Two pictures, row by row: the cells of the places with a number below `split` are those of the first, the others
// those of the second. So it is while a picture is redrawn in the order of its places.
#[derive(Clone, Copy)]
pub struct Glass<'a, C> {
    pub below: &'a [C],
    pub from: &'a [C],
    pub split: usize,
}

impl<'a, C: Cell> Glass<'a, C> {
    // The glyph at the place with a number; a blank where the picture ends before it.
    pub fn glyph(&self, number: usize) -> Glyph
        ensures { result ≡ glass_glyph C.glyph self.now.below.now self.now.from.now self.now.split number }
    {
        let picture = if number < self.split {
            self.below
        } else {
            self.from
        };
        glyph_at(picture, number)
    }
}
