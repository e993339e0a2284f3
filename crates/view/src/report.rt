// The whole report. It stays bytes and no text, since the codes of the cells are bytes.
ghost use Rattle.std.specs.Prelude.{◌≡◌, length, IfOk};
ghost use Rattle.panel.specs.Meaning.{feeds};
ghost use Rattle.view.specs.Report.{Reports};

use crate::lines::{CursorLine, PenLine};
use crate::rows::{append_rows, is_plain, pen_digit, read_picture};
use panel::feeding::feed_all;
use panel::readout::Readout;
use std::alloc::{AllocError, Global};

// How many bytes the lines behind the rows have, at the most: "at 23 79 held", "pen bold underscore blink reverse", and
// "reading", each with its end.
const LINES: usize = 56;

// What a panel shows after `read` bytes: the picture row by row, the cursor, the pen, and whether a sequence is half
// read.
pub fn report<P: Readout>(heap: Global, panel: &P, read: usize) -> Result<Vec<u8>, AllocError>
    ensures { IfOk result
        (λ v. Reports P.Panel.ready (P.Panel.meaning panel.now) read v.items) }
{
    let size = panel.size();
    let picture = read_picture(heap, panel)?;
    let mut out = format!(in heap; "read {read}\n")?.into_bytes();
    // room for the rows and the lines behind them: a text that grows is held twice meanwhile
    out.reserve_exact(size.places() + 3 * size.rows as usize + LINES)?;
    append_rows(&mut out, &picture, size, |glyph| glyph.code)?;
    if !is_plain(&picture) {
        append_rows(&mut out, &picture, size, pen_digit)?;
    }
    let cursor = CursorLine(panel.cursor());
    let pen = PenLine(panel.pen());
    let state = if panel.is_ready() { "ready" } else { "reading" };
    // `write!` to the vector would fail by an io::Error, and a report fails by an AllocError alone.
    let end = format!(in heap; "{cursor}{pen}{state}\n")?;
    out.extend_from_slice(end.as_bytes())?;
    Ok(out)
}

// Feeds some bytes to a panel and reports what it then shows. That the answers stay is a clause, and no invariant, as
// it speaks of two states of the panel.
pub fn show<P: Readout>(heap: Global, panel: &mut P, bytes: &[u8]) -> Result<Vec<u8>, AllocError>
    ensures fixed { P.Panel.answers panel.new ≡ P.Panel.answers panel.old }
    ensures fed { P.Panel.meaning panel.new
        ≡ feeds (P.Panel.fed (P.Panel.answers panel.old)) (P.Panel.meaning panel.old)
        bytes.now }
    ensures shown { IfOk result
        (λ v. Reports P.Panel.ready (P.Panel.meaning panel.new) (length bytes.now)
        v.items) }
{
    let read = feed_all(panel, bytes);
    report(heap, panel, read)
}
