// The short-code panel's answers at 24 rows and 80 columns.
// Places and blanks are written out, so that a test shows its numbers.
use crate::trials::{at, new};
use display::place::Place;
use panel::panel::Panel;
use short_code_panel::model::ShortCode;
use std::test::Fail;

#[test]
fn bytes_and_delays(rt: HostRuntime) -> Result<(), Fail> {
    let panel = new::<ShortCode>(rt.alloc(), 24, 80)?;
    assert_eq!(rt; panel.motions(), 1926);
    for (motion, bytes, delay) in [
        (0, "\r", 0),
        (1, "\x08", 0),
        (2, "\n", 0),
        (3, "\x0B", 0),
        (4, "\x0C", 0),
        (5, "\x1E", 0),
        (6, "\x1B=  ", 3),
        (169, "\x1B=\x22#", 3),
        (1925, "\x1B=7o", 3),
        (1926, "", 0),
    ] {
        assert_eq!(rt; panel.motion_bytes(motion).as_slice(), bytes.as_bytes());
        assert_eq!(rt; panel.delay(motion), delay);
    }
    Ok(())
}

#[test]
fn landings(rt: HostRuntime) -> Result<(), Fail> {
    let panel = new::<ShortCode>(rt.alloc(), 24, 80)?;
    for (motion, row, column) in [
        (0, 3, 0),
        (1, 3, 8),
        (2, 4, 9),
        (3, 2, 9),
        (4, 3, 10),
        (5, 0, 0),
        (169, 2, 3),
    ] {
        assert_eq!(rt;
            panel.landing(motion, at(3, 9, false)),
            Some(Place { row, column })
        );
        // it is never held, and offers nothing there
        assert_eq!(rt; panel.landing(motion, at(3, 9, true)), None);
    }
    // at the edges
    assert_eq!(rt; panel.landing(1, at(3, 0, false)), None);
    assert_eq!(rt; panel.landing(2, at(23, 9, false)), None);
    assert_eq!(rt; panel.landing(3, at(0, 9, false)), None);
    assert_eq!(rt; panel.landing(4, at(3, 79, false)), None);
    assert_eq!(rt;
        panel.landing(5, at(0, 0, false)),
        Some(Place { row: 0, column: 0 })
    );
    assert_eq!(rt; panel.landing(1926, at(0, 0, false)), None);
    Ok(())
}

#[test]
fn pens_and_wipe(rt: HostRuntime) -> Result<(), Fail> {
    let panel = new::<ShortCode>(rt.alloc(), 24, 80)?;
    assert_eq!(rt; panel.pens(), 2);
    assert!(rt; !panel.corner_safe());
    assert_eq!(rt; panel.pen_bytes(0).as_slice(), b"\x0F".as_slice());
    assert_eq!(rt; panel.pen_bytes(1).as_slice(), b"\x0E".as_slice());
    assert_eq!(rt; panel.wipe_bytes().as_slice(), b"\x1A".as_slice());
    assert_eq!(rt; panel.place(), Place { row: 0, column: 0 });
    for (row, column, next_row, next_column) in [
        (2, 78, 2, 79),
        (2, 79, 3, 0),
        (23, 78, 23, 79),
        (23, 79, 23, 0),
    ] {
        assert_eq!(rt;
            panel.after_print(Place { row, column }),
            at(next_row, next_column, false)
        );
    }
    Ok(())
}
