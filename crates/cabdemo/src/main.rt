// A shift in the cab, on each of three panels: a bed list goes up line under line, OPEN moves from one bed to its
// neighbour, puts are refused, noise strays onto the line, a refresh cannot help, and a redraw does. The log is
// printed: each entry, its answer, the bytes that it sent, and the picture then on the panel.
#![tactic(auto)]

mod shift;

use crate::shift::{COLUMNS, PLACES, ROWS, shift};
use anyhow::anyhow;
use cost::byte::ByteCost;
use cost::cost::Cost;
use cost::line::LineCost;
use dec_panel::model::DecPanel;
use display::cell::Cell;
use display::cell::attributed::Attributed;
use display::cell::plain::Plain;
use labels::label::Label;
use log_view::line::{heard_bytes, line_text};
use panel::readout::Readout;
use screen::size::panel_size;
use screen_log::entry::{Entry, Line};
use screen_log::keep::keep_log;
use short_code_panel::model::ShortCodePanel;
use std::io::Write;
use std::process::ExitCode;
use sticking_panel::model::StickingPanel;
use view::report::show;

// Prints a log. A second panel, which is as the first one was at the opening, is fed what each entry sent or let stray:
// so it shows what the first one showed.
fn print_log<P: Readout + Drop>(
    rt: &HostRuntime,
    mut panel: P,
    entries: &[Entry],
    lines: &[Line],
    output: &[u8],
) -> anyhow::Result<()> {
    for (entry, line) in entries.iter().zip(lines) {
        rt.stdout()
            .write_all(&line_text(rt.alloc(), entry, line, output)?)?;
        let heard = heard_bytes(entry, line, output);
        if !heard.is_empty() {
            rt.stdout()
                .write_all(&show(rt.alloc(), &mut panel, heard)?)?;
        }
    }
    Ok(())
}

// Keeps the log of the shift on a panel, and prints it by another panel that is the same.
fn keep_shift<P: Readout + Drop, C: Cell, K: Cost>(
    rt: &HostRuntime,
    name: &str,
    panel: P,
    other: P,
) -> anyhow::Result<()> {
    let heap = rt.alloc();
    let blank = C::build(b' ', 0).ok_or_else(|| anyhow!("no blank cell"))?;
    let mut wanted = vec![in heap; blank; PLACES]?;
    let mut shown = vec![in heap; blank; PLACES]?;
    let mut labels = vec![in heap; Label::unreached(); PLACES + 1]?;
    let mut output = vec![in heap; 0u8; 4096]?;
    let entries = shift(heap, b"OPEN")?;
    let mut lines = vec![in heap; Line::none(); entries.len()]?;
    println!(rt; "{name}")?;
    match keep_log::<P, C, K>(
        panel,
        &mut wanted,
        &mut shown,
        &mut labels,
        &mut output,
        &entries,
        &mut lines,
    ) {
        Ok(_screen) => print_log(rt, other, &entries, &lines, &output),
        Err(unopened) => {
            let fault = unopened.fault;
            Err(anyhow!("no screen: {fault}"))
        }
    }
}

fn run(rt: &HostRuntime) -> anyhow::Result<()> {
    let heap = rt.alloc();
    let size = panel_size(ROWS, COLUMNS)?;
    keep_shift::<_, Attributed, ByteCost>(
        rt,
        "deferred wrap, byte cost",
        DecPanel::new(heap, size)?,
        DecPanel::new(heap, size)?,
    )?;
    keep_shift::<_, Attributed, LineCost>(
        rt,
        "immediate wrap, line cost",
        ShortCodePanel::new(heap, size)?,
        ShortCodePanel::new(heap, size)?,
    )?;
    keep_shift::<_, Plain, ByteCost>(
        rt,
        "sticking, byte cost",
        StickingPanel::new(heap, size)?,
        StickingPanel::new(heap, size)?,
    )
}

fn main(rt: HostRuntime) -> ExitCode {
    match run(&rt) {
        Ok(()) => ExitCode::SUCCESS,
        Err(error) => {
            let _told = eprintln!(rt; "cabdemo: {error}");
            ExitCode::FAILURE
        }
    }
}
