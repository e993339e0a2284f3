ghost use Rattle.display.specs.Cell.{glyph_of, plain_admits};
ghost use Rattle.std.proofs.Common.{rules};

use super::{Cell, is_printable};
use std::fmt;

// A cell that admits pen 0 only: a code.
#[derive(Clone, Copy, PartialEq, Eq)]
pub struct Plain(u8);

// As its code, by its name.
impl fmt::Debug for Plain {
    fn fmt<W: fmt::Write>(&self, f: &mut fmt::Formatter<W>) -> fmt::Result {
        f.debug_struct("Plain").field("code", &self.0).finish()
    }
}

impl Cell for Plain {
    ghost glyph = { λ c. glyph_of c.0 0 };

    ghost admits = { plain_admits };

    ghost every_code = { Prim.search rules };

    ghost only_codes = { Prim.search rules };

    // What is admitted is all that the two types of cells differ in.
    fn build(code: u8, pen: u8) -> Option<Plain> {
        (is_printable(code) && pen == 0).then_some(Plain(code))
    }

    fn code(&self) -> u8 {
        self.0
    }

    fn pen(&self) -> u8 {
        0
    }

    // the derived `==`, as `Cell` tells
    fn same(&self, other: &Plain) -> bool {
        self == other
    }
}
