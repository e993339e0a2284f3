// What refreshes and redraws send, and why they are refused.
use crate::cab::{Cab, open};
use cost::byte::ByteCost;
use cost::line::LineCost;
use dec_panel::model::Dec;
use display::cell::Cell;
use display::cell::attributed::Attributed;
use display::cell::plain::Plain;
use faults::fault::Fault;
use panel::readout::Readout;
use short_code_panel::model::ShortCode;
use std::test::Fail;
use sticking_panel::model::Sticking;

#[test]
fn a_redraw_wipes_and_draws(rt: HostRuntime) -> Result<(), Fail> {
    let mut cab: Cab<Dec, Attributed, ByteCost> = open(rt.alloc(), 2, 4)?;
    cab.put_text(0, 2, b"AB").ok().ok_or("not put")?;
    cab.screen.rest(1, 0).ok().ok_or("no rest")?;
    assert_eq!(&rt; cab.redraw(), Ok(17));
    // the wipe, two blanks retyped, the text, and out of the held last column
    let sent = b"\x1B[0m\x1B[H\x1B[2J  AB\r\n";
    assert!(&rt; cab.output.starts_with(sent));
    assert!(&rt; !cab.screen.panel().cursor().held);
    Ok(())
}

#[test]
fn a_refresh_sends_what_has_changed(rt: HostRuntime) -> Result<(), Fail> {
    let mut cab: Cab<ShortCode, Attributed, LineCost> = open(rt.alloc(), 2, 4)?;
    assert_eq!(&rt; cab.refresh(), Err(Fault::NotDrawn));
    assert_eq!(&rt; cab.redraw(), Ok(1));
    cab.put(0, 3, b'x', 1).ok().ok_or("not put")?;
    // three columns to the right, pen 1, the code, which wraps, and up
    assert_eq!(&rt; cab.refresh(), Ok(6));
    assert!(&rt; cab.output.starts_with(b"\x0C\x0C\x0C\x0Ex\x0B"));
    // nothing has changed
    cab.output.truncate(0);
    assert_eq!(&rt; cab.refresh(), Ok(0));
    Ok(())
}

#[test]
fn what_is_lent_has_to_be_enough(rt: HostRuntime) -> Result<(), Fail> {
    let mut cab: Cab<Dec, Attributed, ByteCost> = open(rt.alloc(), 2, 4)?;
    cab.put_text(0, 0, b"AB").ok().ok_or("not put")?;
    cab.output.truncate(13);
    // the wipe, the text, and back to the first place
    assert_eq!(&rt; cab.redraw(), Err(Fault::OutputTooShort { needed: 14 }));
    cab.labels.truncate(8);
    assert_eq!(&rt; cab.redraw(), Err(Fault::TooSmall));
    assert_eq!(&rt; cab.refresh(), Err(Fault::TooSmall));
    Ok(())
}

#[test]
fn a_cell_that_put_would_refuse_is_not_shown(rt: HostRuntime) -> Result<(), Fail> {
    let mut cab: Cab<ShortCode, Attributed, ByteCost> = open(rt.alloc(), 2, 4)?;
    let cell = Attributed::build(b'x', 2).ok_or("no cell")?;
    *cab.wanted.last_mut().ok_or("no corner")? = cell;
    // before it is asked whether a redraw was accepted
    assert_eq!(&rt; cab.refresh(), Err(Fault::NotPen { row: 1, column: 3 }));
    Ok(())
}

#[test]
fn the_sticking_panel_has_no_way_up(rt: HostRuntime) -> Result<(), Fail> {
    let mut cab: Cab<Sticking, Plain, ByteCost> = open(rt.alloc(), 3, 4)?;
    cab.screen.rest(2, 0).ok().ok_or("no rest")?;
    assert_eq!(&rt; cab.redraw(), Ok(3));
    cab.put(1, 3, b'x', 0).ok().ok_or("not put")?;
    assert_eq!(&rt; cab.refresh(), Err(Fault::NoSequence { row: 1, column: 3 }));
    Ok(())
}

#[test]
fn a_row_tells_the_span_that_was_put(rt: HostRuntime) -> Result<(), Fail> {
    let mut cab: Cab<Dec, Attributed, ByteCost> = open(rt.alloc(), 2, 8)?;
    cab.put(1, 5, b'x', 0).ok().ok_or("not put")?;
    cab.put(1, 2, b' ', 0).ok().ok_or("not put")?;
    let refused = cab.put(1, 8, b'x', 0);
    assert!(&rt; refused.is_err());
    let span = cab.screen.span(1).ok().ok_or("no row")?.ok_or("no span")?;
    assert_eq!(&rt; (span.first, span.last), (2, 5));
    // a row that is walked by its span
    let row = cab.wanted.get(8..16).ok_or("no cells")?;
    let mut codes = [0u8; 4];
    for (cell, code) in span.cells(row).ok_or("no row")?.iter().zip(&mut codes) {
        *code = cell.code();
    }
    assert_eq!(&rt; codes, *b"   x");
    assert!(&rt; span.cells(&cab.wanted).is_none());
    assert!(&rt; cab.screen.span(0).ok().ok_or("no row")?.is_none());
    assert!(&rt; cab.screen.span(2).is_err());
    assert!(&rt; cab.redraw().is_ok());
    assert!(&rt; cab.screen.span(1).ok().ok_or("no row")?.is_none());
    Ok(())
}
