// The sticking panel's answers at 24 rows and 80 columns.
// Places and blanks are written out, so that a test shows its numbers.
use crate::trials::{at, new};
use display::place::Place;
use panel::panel::Panel;
use std::test::Fail;
use sticking_panel::model::Sticking;

#[test]
fn answers(rt: HostRuntime) -> Result<(), Fail> {
    let panel = new::<Sticking>(rt.alloc(), 24, 80)?;
    assert_eq!(rt; panel.motions(), 3);
    assert_eq!(rt; panel.pens(), 1);
    assert!(rt; panel.corner_safe());
    assert_eq!(rt; panel.pen_bytes(0).as_slice(), b"".as_slice());
    assert_eq!(rt; panel.wipe_bytes().as_slice(), b"\x0C".as_slice());
    assert_eq!(rt; panel.place(), Place { row: 0, column: 0 });
    for (motion, bytes, row, column) in [(0, "\r", 3, 0), (1, "\x08", 3, 8), (2, "\n", 4, 9)] {
        assert_eq!(rt; panel.motion_bytes(motion).as_slice(), bytes.as_bytes());
        assert_eq!(rt; panel.delay(motion), 0);
        assert_eq!(rt;
            panel.landing(motion, at(3, 9, false)),
            Some(Place { row, column })
        );
        assert_eq!(rt; panel.landing(motion, at(3, 9, true)), None);
    }
    assert_eq!(rt; panel.landing(1, at(3, 0, false)), None);
    assert_eq!(rt; panel.landing(2, at(23, 9, false)), None);
    assert_eq!(rt; panel.landing(3, at(3, 9, false)), None);
    assert_eq!(rt;
        panel.after_print(Place { row: 2, column: 78 }),
        at(2, 79, false)
    );
    assert_eq!(rt;
        panel.after_print(Place { row: 2, column: 79 }),
        at(2, 79, false)
    );
    Ok(())
}
