// One function, proved once from the laws, on all three kinds of panel; and one stream that tells them apart.
// Places and blanks are written out, so that a test shows its numbers.
use crate::trials::{at, new, shows};
use dec_panel::model::Dec;
use display::cell::Glyph;
use display::place::Place;
use panel::letter::show_letter;
use panel::panel::Panel;
use panel::readout::Readout;
use short_code_panel::model::ShortCode;
use std::process::Abort;
use std::test::Fail;
use sticking_panel::model::Sticking;

// A letter on the place below the first, whatever the panel held before: motion 2 is a line feed on each of the three.
fn one_letter<P: Readout>(rt: &impl Abort, panel: &mut P) {
    panel.feed(b'x');
    panel.feed(0x1B);
    let after = at(1, 1, false);
    assert_eq!(rt; show_letter(panel, 2, 0, b'A'), Some(after));
    assert_eq!(rt; panel.cursor(), after);
    assert!(rt; panel.is_ready());
    assert_eq!(rt;
        panel.glyph(Place { row: 1, column: 0 }),
        Some(Glyph { code: b'A', pen: 0 })
    );
    assert_eq!(rt;
        panel.glyph(Place { row: 0, column: 0 }),
        Some(Glyph { code: b' ', pen: 0 })
    );
    // a backspace is not offered on the first place, 16 is no pen, 7Fh no code: the panel is left alone
    assert_eq!(rt; show_letter(panel, 1, 0, b'B'), None);
    assert_eq!(rt; show_letter(panel, 2, 16, b'B'), None);
    assert_eq!(rt; show_letter(panel, 2, 0, 0x7F), None);
    assert_eq!(rt; panel.cursor(), after);
}

#[test]
fn one_letter_on_each(rt: HostRuntime) -> Result<(), Fail> {
    let mut deferred = new::<Dec>(rt.alloc(), 4, 12)?;
    one_letter(&rt, &mut deferred);
    let mut immediate = new::<ShortCode>(rt.alloc(), 4, 12)?;
    one_letter(&rt, &mut immediate);
    let mut sticking = new::<Sticking>(rt.alloc(), 4, 12)?;
    one_letter(&rt, &mut sticking);
    Ok(())
}

// An address of the corner: the short-code panel's is not safe, the deferred-wrap panel's is.
#[test]
fn the_corner(rt: HostRuntime) -> Result<(), Fail> {
    let mut immediate = new::<ShortCode>(rt.alloc(), 4, 12)?;
    assert_eq!(rt; show_letter(&mut immediate, 6 + 47, 0, b'A'), None);
    let mut deferred = new::<Dec>(rt.alloc(), 4, 12)?;
    assert_eq!(rt;
        show_letter(&mut deferred, 207 + 47, 0, b'A'),
        Some(at(3, 11, true))
    );
    Ok(())
}

const STREAM: &[u8] = b"12 LEEK OPEN\r\n13 BEET OPEN14 KALE";

#[test]
fn side_by_side(rt: HostRuntime) -> Result<(), Fail> {
    // the wrap waits: the carriage return takes it back, the next letter carries it out
    let mut deferred = new::<Dec>(rt.alloc(), 4, 12)?;
    shows(
        &rt,
        &mut deferred,
        STREAM,
        "read 33\n|12 LEEK OPEN|\n|13 BEET OPEN|\n|14 KALE     |\n|            |\nat 2 7\npen plain\nready\n",
    )?;
    // the wrap comes at once: the line feed then skips a row
    let mut immediate = new::<ShortCode>(rt.alloc(), 4, 12)?;
    shows(
        &rt,
        &mut immediate,
        STREAM,
        "read 33\n|12 LEEK OPEN|\n|            |\n|13 BEET OPEN|\n|14 KALE     |\nat 3 7\npen plain\nready\n",
    )?;
    // no wrap: the letters that follow overwrite each other
    let mut sticking = new::<Sticking>(rt.alloc(), 4, 12)?;
    shows(
        &rt,
        &mut sticking,
        STREAM,
        "read 33\n|12 LEEK OPEN|\n|13 BEET OPEE|\n|            |\n|            |\nat 1 11\npen plain\nready\n",
    )
}
