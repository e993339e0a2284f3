// Shows the picture that a stream of bytes leaves on a panel, and the leg from there to a place.
#![tactic(auto)]

use anyhow::anyhow;
use cost::byte::ByteCost;
use cost::line::LineCost;
use dec_panel::model::DecPanel;
use leg_view::costs::Worded;
use leg_view::report::leg_to;
use leg_view::requests::{Costing, Request as LegRequest, asked_leg};
use motion_order::charted::Charted;
use panel::readout::Readout;
use short_code_panel::model::ShortCodePanel;
use std::env;
use std::io::{Read, Write};
use std::process::ExitCode;
use sticking_panel::model::StickingPanel;
use view::input::add_within;
use view::report::show;
use view::requests::{Kind, Request, asked_panel};

const USAGE: &str =
    "usage: panelview [KIND ROWS COLUMNS [COST ROW COLUMN]]: D, C or T, 1 to 24, 2 to 80, byte or line; else D 24 80";

// What the arguments ask for: a panel, and a leg on it perhaps.
struct Wanted {
    panel: Request,
    leg: Option<LegRequest>,
}

// The panel and the leg that the first seven words ask for, or nothing where they do not ask for one.
fn asked(words: [Option<&str>; 7]) -> Option<Wanted> {
    match words {
        [None, ..] => Some(Wanted {
            panel: asked_panel("D", "24", "80")?,
            leg: None,
        }),
        [Some(kind), Some(rows), Some(columns), None, ..] => Some(Wanted {
            panel: asked_panel(kind, rows, columns)?,
            leg: None,
        }),
        [
            Some(kind),
            Some(rows),
            Some(columns),
            Some(cost),
            Some(row),
            Some(column),
            None,
        ] => {
            Some(Wanted {
                panel: asked_panel(kind, rows, columns)?,
                leg: Some(asked_leg(cost, row, column)?),
            })
        }
        _ => None,
    }
}

// The words are taken one by one: no second list of them is made, which memory might not do for.
fn read_arguments(rt: &HostRuntime) -> anyhow::Result<Wanted> {
    let mut words = env::args(rt)?.skip(1);
    let (kind, rows, columns) = (words.next(), words.next(), words.next());
    let (cost, row, column) = (words.next(), words.next(), words.next());
    let more = words.next();
    asked([
        kind.as_deref(),
        rows.as_deref(),
        columns.as_deref(),
        cost.as_deref(),
        row.as_deref(),
        column.as_deref(),
        more.as_deref(),
    ])
    .ok_or_else(|| anyhow!(USAGE))
}

// All of standard input, unless it is longer than the limit.
fn read_input(rt: &HostRuntime) -> anyhow::Result<Vec<u8>> {
    let mut input = Vec::new(rt.alloc());
    let mut stdin = rt.stdin();
    let mut part = [0u8; 4096];
    // to the end of the input, which no number is known for; `read_to_end` would not tell the limit
    for _ in 0..u64::MAX {
        let count = stdin.read(&mut part)?;
        if count == 0 {
            break;
        }
        add_within(&mut input, &part[..count])?;
    }
    Ok(input)
}

// The text of a leg on a panel, by one type of cost. Not inlined: what a search lays on the stack is to be there only
// where a leg is asked for.
#[inline(never)]
fn leg_by<P: Readout + Drop, K: Worded>(
    rt: &HostRuntime,
    panel: P,
    leg: LegRequest,
) -> anyhow::Result<Vec<u8>> {
    let charted: Charted<P, K> = Charted::new(panel);
    Ok(leg_to(rt.alloc(), &charted, leg.row, leg.column)??)
}

// Feeds the input to a panel and tells what it then shows. Not inlined either, so that the loop that feeds has the
// registers to itself.
#[inline(never)]
fn text_of<P: Readout>(rt: &HostRuntime, panel: &mut P, input: &[u8]) -> anyhow::Result<Vec<u8>> {
    Ok(show(rt.alloc(), panel, input)?)
}

// Feeds the input to a panel and prints what it then shows, and the leg from there if one is asked for.
fn show_on<P: Readout + Drop>(
    rt: &HostRuntime,
    mut panel: P,
    input: &[u8],
    leg: Option<LegRequest>,
) -> anyhow::Result<()> {
    let mut text = text_of(rt, &mut panel, input)?;
    if let Some(leg) = leg {
        let told = match leg.costing {
            Costing::Byte => leg_by::<P, ByteCost>(rt, panel, leg)?,
            Costing::Line => leg_by::<P, LineCost>(rt, panel, leg)?,
        };
        text.extend_from_slice(&told)?;
    }
    rt.stdout().write_all(&text)?;
    Ok(())
}

fn run(rt: &HostRuntime) -> anyhow::Result<()> {
    let Wanted { panel, leg } = read_arguments(rt)?;
    let Request { kind, size } = panel;
    let input = read_input(rt)?;
    match kind {
        Kind::DeferredWrap => show_on(rt, DecPanel::new(rt.alloc(), size)?, &input, leg),
        Kind::ImmediateWrap => show_on(rt, ShortCodePanel::new(rt.alloc(), size)?, &input, leg),
        Kind::Sticking => show_on(rt, StickingPanel::new(rt.alloc(), size)?, &input, leg),
    }
}

fn main(rt: HostRuntime) -> ExitCode {
    match run(&rt) {
        Ok(()) => ExitCode::SUCCESS,
        Err(error) => {
            let _told = eprintln!(rt; "panelview: {error}");
            ExitCode::FAILURE
        }
    }
}
