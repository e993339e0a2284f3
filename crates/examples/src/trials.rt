// What the examples share.
use display::place::{Cursor, Place};
use display::size::Size;
use panel::readout::Readout;
use panel_model::kind::Kind;
use panel_model::model::Model;
use std::alloc::Global;
use std::process::Abort;
use std::test::Fail;
use view::report::show;

pub(crate) fn size(rows: usize, columns: usize) -> Result<Size, Fail> {
    Ok(Size::new(rows, columns).ok_or("no size")?)
}

// A panel of a kind, as wiped.
pub(crate) fn new<K: Kind>(heap: Global, rows: usize, columns: usize) -> Result<Model<K>, Fail> {
    Ok(Model::new(heap, size(rows, columns)?)?)
}

pub(crate) fn at(row: u8, column: u8, held: bool) -> Cursor {
    Cursor {
        place: Place { row, column },
        held,
    }
}

// Feeds a panel some bytes; it then shows the text.
pub(crate) fn shows<P: Readout>(
    rt: &(impl Abort + AllocGlobal),
    panel: &mut P,
    bytes: &[u8],
    text: &str,
) -> Result<(), Fail> {
    let shown = show(rt.alloc(), panel, bytes)?;
    assert_eq!(rt; shown.as_slice(), text.as_bytes());
    Ok(())
}

// Each example on a panel of its own: its rows and columns, the bytes, and what it then shows.
pub(crate) fn each_shows<K: Kind>(
    rt: &(impl Abort + AllocGlobal),
    examples: &[(usize, usize, &str, &str)],
) -> Result<(), Fail> {
    for (rows, columns, bytes, text) in examples {
        let mut panel = new::<K>(rt.alloc(), *rows, *columns)?;
        shows(rt, &mut panel, bytes.as_bytes(), text)?;
    }
    Ok(())
}
