ghost use Rattle.display.specs.Cell.{attributed_admits};
ghost use Rattle.std.proofs.Common.{rules};

use super::{Cell, Glyph, is_printable};
use std::fmt;

// A cell that admits every pen: a glyph.
#[derive(Clone, Copy, PartialEq, Eq)]
pub struct Attributed(Glyph);

// As its code and its pen, by their names.
impl fmt::Debug for Attributed {
    fn fmt<W: fmt::Write>(&self, f: &mut fmt::Formatter<W>) -> fmt::Result {
        f.debug_struct("Attributed")
            .field("code", &self.0.code)
            .field("pen", &self.0.pen)
            .finish()
    }
}

impl Cell for Attributed {
    ghost glyph = { λ c. c.0 };

    ghost admits = { attributed_admits };

    ghost every_code = { Prim.search rules };

    ghost only_codes = { Prim.search rules };

    // What is admitted is all that the two types of cells differ in.
    fn build(code: u8, pen: u8) -> Option<Attributed> {
        (is_printable(code) && pen <= 15).then_some(Attributed(Glyph { code, pen }))
    }

    fn code(&self) -> u8 {
        self.0.code
    }

    fn pen(&self) -> u8 {
        self.0.pen
    }

    // the derived `==`, as `Cell` tells
    fn same(&self, other: &Attributed) -> bool {
        self == other
    }
}
