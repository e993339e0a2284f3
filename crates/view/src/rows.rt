// The rows of a picture.
ghost use Rattle.std.specs.Prelude.{◌≡◌, ℕ, ◌*◌, ◌++◌, IfOk, OnOk, length, slice_index_or};
ghost use Rattle.display.specs.Cell.{blank};
ghost use Rattle.display.specs.Place.{On, number};
ghost use Rattle.display.specs.Surface.{Surface};
ghost use Rattle.display.specs.declared.cell.Glyph.{Glyph as Cell};
ghost use Rattle.view.specs.Report.{pen_digit, plain, rows_of};

use display::cell::Glyph;
use display::place::Place;
use display::size::Size;
use panel::readout::Readout;
use std::alloc::{AllocError, Global};

// The pen of a cell as a hexadecimal digit.
#[tactic(auto, using(crate::proofs::Digits::hex_digit_at))]
pub(crate) fn pen_digit(glyph: Glyph) -> u8
    ensures { result ≡ pen_digit glyph }
{
    b"0123456789ABCDEF"[(glyph.pen % 16) as usize]
}

// The glyph at a place of the panel.
fn glyph_at<P: Readout>(panel: &P, place: Place) -> Glyph
    requires { On (P.Panel.meaning panel.now).surface.size place }
    ensures { result ≡ slice_index_or (P.Panel.meaning panel.now).surface.picture
        (number (P.Panel.meaning panel.now).surface.size place) blank }
{
    panel.glyph(place).unwrap_or(Glyph::BLANK)
}

// The whole picture, read cell by cell and row by row: the place of a cell is then told without a division.
pub(crate) fn read_picture<P: Readout>(heap: Global, panel: &P) -> Result<Vec<Glyph>, AllocError>
    ensures read { IfOk result (λ v. v.items ≡ (P.Panel.meaning panel.now).surface.picture) }
    ensures filled { length (P.Panel.meaning panel.now).surface.picture
        ≡ (P.Panel.answers panel.now).size.rows * (P.Panel.answers panel.now).size.columns }
{
    let size = panel.size();
    let mut picture = Vec::with_capacity(heap, size.places())?;
    for row in 0..size.rows {
        picture.extend((0..size.columns).map(|column| glyph_at(panel, Place { row, column })))?;
    }
    Ok(picture)
}

// All rows of a picture, each between bars. A cell is written as a byte.
pub(crate) fn append_rows<F: Fn(Glyph) -> u8>(
    out: &mut Vec<u8>,
    picture: &[Glyph],
    size: Size,
    write: F,
) -> Result<(), AllocError>
    requires callable { F.IsAlwaysCallable write }
    requires filled { length picture.now ≡ size.rows * size.columns }
    ensures { (s : Surface) (w : Cell → ℕ) → s.size ≡ size → s.picture ≡ picture.now
        → ((g : Cell) (r : ℕ) → F.post write g r → r ≡ w g)
        → OnOk result (out.new.items ≡ out.old.items ++ rows_of w s) }
{
    for row in picture.chunks_exact(size.columns as usize) {
        out.push(b'|')?;
        out.extend(row.iter().map(|glyph| write(*glyph)))?;
        out.extend_from_slice(b"|\n")?;
    }
    Ok(())
}

// Whether no cell has a pen other than 0.
pub(crate) fn is_plain(picture: &[Glyph]) -> bool
    ensures { result ≡ plain picture.now }
{
    picture.iter().all(|glyph| glyph.pen == 0)
}
