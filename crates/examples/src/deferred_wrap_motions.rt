// The deferred-wrap panel's answers at 24 rows and 80 columns.
// Places and blanks are written out, so that a test shows its numbers.
use crate::trials::{at, new};
use dec_panel::model::Dec;
use display::place::Place;
use panel::panel::Panel;
use std::test::Fail;

#[test]
fn bytes_and_delays(rt: HostRuntime) -> Result<(), Fail> {
    let panel = new::<Dec>(rt.alloc(), 24, 80)?;
    assert_eq!(rt; panel.motions(), 2127);
    assert_eq!(rt; panel.motion_bytes(0).as_slice(), b"\r".as_slice());
    assert_eq!(rt; panel.motion_bytes(3).as_slice(), b"\x1B[A".as_slice());
    assert_eq!(rt; panel.motion_bytes(25).as_slice(), b"\x1B[23A".as_slice());
    assert_eq!(rt; panel.motion_bytes(27).as_slice(), b"\x1B[2B".as_slice());
    assert_eq!(rt; panel.motion_bytes(52).as_slice(), b"\x1B[4C".as_slice());
    assert_eq!(rt; panel.motion_bytes(206).as_slice(), b"\x1B[79D".as_slice());
    assert_eq!(rt; panel.motion_bytes(207).as_slice(), b"\x1B[1;1H".as_slice());
    assert_eq!(rt;
        panel.motion_bytes(2126).as_slice(),
        b"\x1B[24;80H".as_slice()
    );
    assert_eq!(rt; panel.motion_bytes(2127).as_slice(), b"".as_slice());
    assert_eq!(rt; panel.delay(2), 0);
    assert_eq!(rt; panel.delay(3), 2);
    assert_eq!(rt; panel.delay(207), 5);
    Ok(())
}

#[test]
fn landings(rt: HostRuntime) -> Result<(), Fail> {
    let panel = new::<Dec>(rt.alloc(), 24, 80)?;
    assert_eq!(rt;
        panel.landing(0, at(3, 9, false)),
        Some(Place { row: 3, column: 0 })
    );
    assert_eq!(rt; panel.landing(1, at(3, 0, false)), None);
    assert_eq!(rt; panel.landing(2, at(23, 0, false)), None);
    assert_eq!(rt; panel.landing(4, at(1, 0, false)), None);
    assert_eq!(rt;
        panel.landing(4, at(2, 7, false)),
        Some(Place { row: 0, column: 7 })
    );
    assert_eq!(rt;
        panel.landing(127, at(0, 0, false)),
        Some(Place { row: 0, column: 79 })
    );
    assert_eq!(rt; panel.landing(127, at(0, 1, false)), None);
    // while held, only a return and an address are offered
    assert_eq!(rt; panel.landing(1, at(0, 79, true)), None);
    assert_eq!(rt;
        panel.landing(0, at(0, 79, true)),
        Some(Place { row: 0, column: 0 })
    );
    assert_eq!(rt;
        panel.landing(289, at(0, 79, true)),
        Some(Place { row: 1, column: 2 })
    );
    assert_eq!(rt; panel.landing(2127, at(0, 0, false)), None);
    Ok(())
}

#[test]
fn pens_and_wipe(rt: HostRuntime) -> Result<(), Fail> {
    let panel = new::<Dec>(rt.alloc(), 24, 80)?;
    assert_eq!(rt; panel.pens(), 16);
    assert!(rt; panel.corner_safe());
    assert_eq!(rt; panel.pen_bytes(0).as_slice(), b"\x1B[0m".as_slice());
    assert_eq!(rt; panel.pen_bytes(9).as_slice(), b"\x1B[0;1;7m".as_slice());
    assert_eq!(rt;
        panel.pen_bytes(15).as_slice(),
        b"\x1B[0;1;4;5;7m".as_slice()
    );
    assert_eq!(rt;
        panel.wipe_bytes().as_slice(),
        b"\x1B[0m\x1B[H\x1B[2J".as_slice()
    );
    assert_eq!(rt;
        panel.after_print(Place { row: 2, column: 78 }),
        at(2, 79, false)
    );
    assert_eq!(rt;
        panel.after_print(Place { row: 2, column: 79 }),
        at(2, 79, true)
    );
    Ok(())
}
