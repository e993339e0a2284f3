// Cells: what a picture holds at a place.
ghost use Rattle.std.specs.Prelude.{◌≡◌, ℕ, Bool, true, Decides, map, slice_index_or};
ghost use Rattle.display.specs.Cell.{Built, Code, blank};
ghost use Rattle.display.specs.declared.cell.Glyph.{Glyph};

pub mod attributed;
pub mod plain;

// What is seen at a place: a printable code, 20h to 7Eh, and the pen that drew it. Pen bits 0 to 3 are bold,
// underscore, blink and reverse. A pen is a number by the rules, and a narrower type would ask more of callers.
#[derive(Clone, Copy, Debug, PartialEq, Eq)]
pub struct Glyph {
    pub code: u8,
    pub pen: u8,
}

impl Glyph {
    // A space in pen 0.
    pub const BLANK: Glyph = Glyph { code: b' ', pen: 0 };
}

// Whether a byte is a printable code.
pub fn is_printable(byte: u8) -> bool
    ensures { Decides result (Code byte) }
{
    (0x20..=0x7E).contains(&byte)
}

// A type of cell. It may hold more than a letter: a cell means a glyph.
pub trait Cell: Copy {
    ghost glyph: { Self → Glyph };

    // the codes with the pens that a cell can be built from
    ghost admits: { ℕ → ℕ → Bool };

    // A cell of this code and pen, if they are admitted. They stand apart, and not as a glyph, since either may be
    // refused.
    fn build(code: u8, pen: u8) -> Option<Self>
        ensures { Built admits glyph code pen result };

    fn code(&self) -> u8
        ensures { result ≡ (glyph self.now).code };

    fn pen(&self) -> u8
        ensures { result ≡ (glyph self.now).pen };

    // Whether two cells have the same code and the same pen. Each type answers by its own derived `==`: a default here
    // would compare field by field, since `==` at a type parameter says nothing of glyphs, and a law that it does would
    // stand in each type in the same place.
    fn same(&self, other: &Self) -> bool
        ensures { Decides result (glyph self.now ≡ glyph other.now) };

    ghost every_code: { (code : ℕ) → Code code → admits code 0 ≡ true };

    ghost only_codes: { (code pen : ℕ) → admits code pen ≡ true → Code code };
}

// What is seen of a cell.
pub fn glyph_of<C: Cell>(cell: &C) -> Glyph
    ensures { result ≡ C.glyph cell.now }
{
    Glyph {
        code: cell.code(),
        pen: cell.pen(),
    }
}

// What a picture, row by row, has at the place with a number: a blank where it ends before that.
pub fn glyph_at<C: Cell>(picture: &[C], number: usize) -> Glyph
    ensures { result ≡ slice_index_or (map C.glyph picture.now) number blank }
{
    match picture.get(number) {
        Some(cell) => glyph_of(cell),
        None => Glyph::BLANK,
    }
}
