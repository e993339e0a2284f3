// What a log holds.
use cost::byte::ByteCost;
use dec_panel::model::DecPanel;
use display::cell::Cell;
use display::cell::attributed::Attributed;
use display::size::Size;
use faults::fault::Fault;
use labels::label::Label;
use screen_log::entry::{Entry, Line};
use screen_log::keep::keep_log;
use std::test::Fail;

#[test]
fn each_entry_has_its_answer(rt: HostRuntime) -> Result<(), Fail> {
    let heap = rt.alloc();
    let size = Size::new(2, 4).ok_or("no size")?;
    let blank = Attributed::build(b' ', 0).ok_or("no blank")?;
    let mut wanted = [blank; 8];
    let mut shown = [blank; 8];
    let mut labels: [Label<ByteCost>; 9] = [Label::unreached(); 9];
    let mut output = [0u8; 64];
    let entries = [
        Entry::Refresh {
            labels: 9,
            room: 64,
        },
        Entry::Put {
            row: 0,
            column: 0,
            code: b'x',
            pen: 0,
        },
        Entry::Redraw {
            labels: 8,
            room: 64,
        },
        Entry::Redraw {
            labels: 9,
            room: 12,
        },
        Entry::Redraw {
            labels: 9,
            room: 64,
        },
        Entry::Stray { bytes: b"noise" },
        Entry::Refresh { labels: 9, room: 0 },
        Entry::Rest { row: 2, column: 0 },
        // no line is there for it
        Entry::Put {
            row: 9,
            column: 9,
            code: b'x',
            pen: 0,
        },
    ];
    let mut lines = [Line::none(); 8];
    let panel = DecPanel::new(heap, size)?;
    let kept = keep_log(
        panel,
        &mut wanted,
        &mut shown,
        &mut labels,
        &mut output,
        &entries,
        &mut lines,
    );
    assert!(&rt; kept.is_ok());
    let answers = [
        Err(Fault::NotDrawn),
        Ok(0),
        Err(Fault::TooSmall),
        Err(Fault::OutputTooShort { needed: 13 }),
        Ok(13),
        Ok(0),
        Ok(0),
        Err(Fault::Outside { row: 2, column: 0 }),
    ];
    for (line, answer) in lines.iter().zip(&answers) {
        assert!(&rt; line.answer == *answer);
    }
    assert!(&rt; output.starts_with(b"\x1B[0m\x1B[H\x1B[2Jx\r"));
    Ok(())
}
