// What put takes and what it refuses.
use crate::cab::{Cab, open};
use cost::byte::ByteCost;
use dec_panel::model::Dec;
use display::cell::attributed::Attributed;
use display::cell::plain::Plain;
use faults::fault::Fault;
use screen::size::panel_size;
use short_code_panel::model::ShortCode;
use std::test::Fail;

#[test]
fn a_code_is_put_into_the_last_column_and_not_beside_it(rt: HostRuntime) -> Result<(), Fail> {
    let mut cab: Cab<Dec, Attributed, ByteCost> = open(rt.alloc(), 24, 80)?;
    let cases = [
        (0, 79, 0x7E, 0, Ok(())),
        (23, 79, b'x', 15, Ok(())),
        (0, 80, 0x7E, 0, Err(Fault::Outside { row: 0, column: 80 })),
        (24, 0, b'x', 0, Err(Fault::Outside { row: 24, column: 0 })),
        (
            9999,
            0,
            0x7F,
            99,
            Err(Fault::Outside {
                row: 9999,
                column: 0,
            }),
        ),
        (0, 79, 0x7F, 0, Err(Fault::NotCode { row: 0, column: 79 })),
        (0, 0, 0x1F, 99, Err(Fault::NotCode { row: 0, column: 0 })),
        (5, 6, b'x', 16, Err(Fault::NotPen { row: 5, column: 6 })),
    ];
    for (row, column, code, pen, answer) in cases {
        assert_eq!(&rt; cab.put(row, column, code, pen), answer);
    }
    Ok(())
}

#[test]
fn plain_cells_admit_pen_0_alone(rt: HostRuntime) -> Result<(), Fail> {
    let mut cab: Cab<Dec, Plain, ByteCost> = open(rt.alloc(), 2, 4)?;
    assert_eq!(&rt; cab.put(0, 0, b'x', 0), Ok(()));
    assert_eq!(&rt;
        cab.put(0, 0, b'x', 1),
        Err(Fault::NotPen { row: 0, column: 0 })
    );
    Ok(())
}

#[test]
fn an_unsafe_corner_stays_blank(rt: HostRuntime) -> Result<(), Fail> {
    let mut cab: Cab<ShortCode, Attributed, ByteCost> = open(rt.alloc(), 2, 4)?;
    let cases = [
        (1, 2, b'x', 1, Ok(())),
        (1, 3, b' ', 0, Ok(())),
        (
            1,
            3,
            b'x',
            0,
            Err(Fault::UnsafeCorner { row: 1, column: 3 }),
        ),
        (
            1,
            3,
            b' ',
            1,
            Err(Fault::UnsafeCorner { row: 1, column: 3 }),
        ),
        (1, 3, b'x', 2, Err(Fault::NotPen { row: 1, column: 3 })),
    ];
    for (row, column, code, pen, answer) in cases {
        assert_eq!(&rt; cab.put(row, column, code, pen), answer);
    }
    Ok(())
}

#[test]
fn a_size_has_limits(rt: HostRuntime) -> Result<(), Fail> {
    for (rows, columns, fits) in [
        (1, 2, true),
        (24, 80, true),
        (0, 80, false),
        (25, 80, false),
        (24, 1, false),
        (24, 81, false),
    ] {
        match panel_size(rows, columns) {
            Ok(_) => assert!(&rt; fits),
            Err(fault) => {
                assert!(&rt; !fits);
                assert_eq!(&rt; fault.number(), 8);
            }
        }
    }
    Ok(())
}
