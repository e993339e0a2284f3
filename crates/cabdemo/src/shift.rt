// The entries of a shift, on panels of four rows and twelve columns.
use screen_log::entry::Entry;
use std::alloc::{AllocError, Global};

pub(crate) const ROWS: usize = 4;

pub(crate) const COLUMNS: usize = 12;

pub(crate) const PLACES: usize = 48;

// A label for each place and one more, and room for every showing of the shift.
const LABELS: usize = 49;

const ROOM: usize = 4096;

// Enters a put for each letter of a text, rightwards from a place.
fn put_text<'a>(
    entries: &mut Vec<Entry<'a>>,
    row: usize,
    column: usize,
    text: &[u8],
) -> Result<(), AllocError> {
    for (index, code) in text.iter().enumerate() {
        entries.push(Entry::Put {
            row,
            column: column.saturating_add(index),
            code: *code,
            pen: 0,
        })?;
    }
    Ok(())
}

// The bed list: its texts reach into the last column.
fn put_beds<'a>(entries: &mut Vec<Entry<'a>>) -> Result<(), AllocError> {
    put_text(entries, 0, 0, b"1 LEEK  OPEN")?;
    put_text(entries, 1, 0, b"2 KALE  SHUT")?;
    put_text(entries, 2, 0, b"3 BEET  SHUT")
}

// Puts that are refused: beside the panel, no code, and no pen of any panel.
fn put_wrongly<'a>(entries: &mut Vec<Entry<'a>>) -> Result<(), AllocError> {
    for (column, code, pen) in [(COLUMNS, b'X', 0), (0, 0x7F, 0), (0, b'X', 16)] {
        entries.push(Entry::Put {
            row: 0,
            column,
            code,
            pen,
        })?;
    }
    Ok(())
}

// A refresh and a redraw that are lent enough.
fn enter_refresh<'a>(entries: &mut Vec<Entry<'a>>) -> Result<(), AllocError> {
    entries.push(Entry::Refresh {
        labels: LABELS,
        room: ROOM,
    })?;
    Ok(())
}

fn enter_redraw<'a>(
    entries: &mut Vec<Entry<'a>>,
    labels: usize,
    room: usize,
) -> Result<(), AllocError> {
    entries.push(Entry::Redraw { labels, room })?;
    Ok(())
}

// The whole shift, with some noise on the line.
pub(crate) fn shift<'a>(heap: Global, noise: &'a [u8]) -> Result<Vec<Entry<'a>>, AllocError> {
    let mut entries = Vec::new(heap);
    // before the first redraw a refresh has nothing to go by
    enter_refresh(&mut entries)?;
    put_beds(&mut entries)?;
    put_wrongly(&mut entries)?;
    entries.push(Entry::Rest { row: 2, column: 8 })?;
    // too little memory, and too little room
    enter_redraw(&mut entries, LABELS - 1, ROOM)?;
    enter_redraw(&mut entries, LABELS, 16)?;
    enter_redraw(&mut entries, LABELS, ROOM)?;
    // nothing has changed, so nothing is sent, even where there is no room
    entries.push(Entry::Refresh {
        labels: LABELS,
        room: 0,
    })?;
    // OPEN moves from the first bed to the second
    put_text(&mut entries, 0, 8, b"SHUT")?;
    put_text(&mut entries, 1, 8, b"OPEN")?;
    enter_refresh(&mut entries)?;
    // with OPEN as noise it stands beside the third bed, and no refresh knows of it
    entries.push(Entry::Stray { bytes: noise })?;
    enter_refresh(&mut entries)?;
    enter_redraw(&mut entries, LABELS, ROOM)?;
    Ok(entries)
}
