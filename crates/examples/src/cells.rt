// Sizes, places and cells.
use crate::trials::size;
use display::cell::Cell;
use display::cell::attributed::Attributed;
use display::cell::plain::Plain;
use display::place::Place;
use display::size::Size;
use std::test::Fail;

#[test]
fn sizes_have_limits(rt: HostRuntime) {
    for (rows, columns) in [(0, 80), (25, 80), (24, 1), (24, 81)] {
        assert!(rt; Size::new(rows, columns).is_none());
    }
    for (rows, columns) in [(1, 2), (24, 80), (24, 2), (1, 80)] {
        assert!(rt; Size::new(rows, columns).is_some());
    }
}

#[test]
fn places_are_numbered_row_by_row(rt: HostRuntime) -> Result<(), Fail> {
    let size = size(24, 80)?;
    assert_eq!(rt; size.places(), 1920);
    assert_eq!(rt; size.number(Place { row: 1, column: 2 }), 82);
    assert_eq!(rt; size.place_at(82), Some(Place { row: 1, column: 2 }));
    assert_eq!(rt;
        size.place_at(1919),
        Some(Place {
            row: 23,
            column: 79,
        })
    );
    assert_eq!(rt; size.place_at(1920), None);
    assert_eq!(rt;
        size.place(23, 79),
        Some(Place {
            row: 23,
            column: 79,
        })
    );
    assert_eq!(rt; size.place(0, 80), None);
    assert_eq!(rt; size.place(24, 0), None);
    Ok(())
}

#[test]
fn plain_cells_take_pen_0_alone(rt: HostRuntime) -> Result<(), Fail> {
    let cell = Plain::build(b'~', 0).ok_or("admitted")?;
    assert_eq!(rt; cell.code(), b'~');
    assert_eq!(rt; cell.pen(), 0);
    assert!(rt; Plain::build(b'~', 1).is_none());
    assert!(rt; Plain::build(0x1F, 0).is_none());
    assert!(rt; Plain::build(0x7F, 0).is_none());
    Ok(())
}

#[test]
fn attributed_cells_take_every_pen(rt: HostRuntime) -> Result<(), Fail> {
    let cell = Attributed::build(b' ', 15).ok_or("admitted")?;
    assert_eq!(rt; cell.code(), b' ');
    assert_eq!(rt; cell.pen(), 15);
    assert!(rt; Attributed::build(b' ', 16).is_none());
    assert!(rt; Attributed::build(0x1F, 0).is_none());
    let other = Attributed::build(b' ', 14).ok_or("admitted")?;
    assert!(rt; !cell.same(&other));
    assert!(rt; cell.same(&cell));
    Ok(())
}
