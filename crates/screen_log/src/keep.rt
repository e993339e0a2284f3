// Keeping a log.
ghost use Rattle.std.specs.Prelude.{◌≡◌, MatchResult, length};
ghost use Rattle.std.specs.Result.{result_unwrap_or};
ghost use Rattle.screen_log.specs.Book.{opened};
ghost use Rattle.screen_log.specs.Enter.{Enters};
ghost use Rattle.screen_log.specs.Keep.{Keeps, Tied, Unkept};

use crate::enter::enter;
use crate::entry::{Entry, Line};
use cost::cost::Cost;
use display::cell::Cell;
use labels::label::Label;
use panel::panel::Panel;
use screen::screen::{Screen, Unopened};

// Makes the call of one entry, and writes its line. The rest of the log's output is at hand, which begins at `first`.
// Answers how many bytes were sent.
fn enter_one<P: Panel, C: Cell, K: Cost>(
    screen: &mut Screen<P, K>,
    wanted: &mut [C],
    shown: &mut [C],
    labels: &mut [Label<K>],
    rest: &mut [u8],
    entry: &Entry,
    line: &mut Line,
    first: usize,
) -> usize
    ensures labels { length labels.new ≡ length labels.old }
    ensures enters { Enters K.costs P.answers P.meaning P.fed P.ready C.glyph C.admits screen.old screen.new wanted.old
        wanted.new shown.old shown.new (length labels.old) rest.old rest.new entry.now line.new.answer }
    ensures begin { line.new.first ≡ first }
    ensures count { result ≡ result_unwrap_or line.new.answer 0 }
{
    let answer = enter(screen, wanted, shown, labels, rest, entry);
    *line = Line { answer, first };
    answer.unwrap_or(0)
}

// Makes the calls of a list of entries, and writes a line for each and the bytes that each sent behind those before.
// The screen has been opened; as many entries are taken as there are lines.
fn enter_all<P: Panel, C: Cell, K: Cost>(
    screen: &mut Screen<P, K>,
    wanted: &mut [C],
    shown: &mut [C],
    labels: &mut [Label<K>],
    output: &mut [u8],
    entries: &[Entry],
    lines: &mut [Line],
)
    requires { Tied P.answers P.meaning P.ready C.glyph (P.answers screen.old.panel)
        (opened (P.answers screen.old.panel).size) screen.old wanted.old shown.old }
    ensures labels { length labels.new ≡ length labels.old }
    ensures keeps { Keeps K.costs P.answers P.meaning P.fed P.ready C.glyph C.admits screen.old.panel wanted.old
        wanted.new shown.old shown.new (length labels.old) output.old output.new entries.now lines.old lines.new
        screen.new }
{
    let mut first = 0;
    for index in 0..entries.len().min(lines.len()) {
        first += enter_one(
            screen,
            wanted,
            shown,
            labels,
            &mut output[first..],
            &entries[index],
            &mut lines[index],
            first,
        );
    }
}

// Opens a screen on a panel, whatever that shows, and keeps the log of a list of entries: calls of the screen, made one
// after the other, with nothing else done to the screen, its panel or its two pictures. For each entry there is a line
// that tells what it answered, and where in the output the bytes begin that it sent; as many entries are taken as there
// are lines. The screen is handed back as the last entry leaves it; or the panel, where no screen can be opened on it.
pub fn keep_log<P: Panel, C: Cell, K: Cost>(
    panel: P,
    wanted: &mut [C],
    shown: &mut [C],
    labels: &mut [Label<K>],
    output: &mut [u8],
    entries: &[Entry],
    lines: &mut [Line],
) -> Result<Screen<P, K>, Unopened<P>>
    ensures labels { length labels.new ≡ length labels.old }
    ensures keeps { MatchResult result
        (λ s. Keeps K.costs P.answers P.meaning P.fed P.ready C.glyph C.admits panel wanted.old wanted.new shown.old
        shown.new (length labels.old) output.old output.new entries.now lines.old lines.new s)
        (λ u. Unkept (P.answers panel) panel wanted.old wanted.new shown.old shown.new output.old output.new lines.old
        lines.new u) }
{
    let mut screen = Screen::open(panel, wanted, shown)?;
    enter_all(&mut screen, wanted, shown, labels, output, entries, lines);
    Ok(screen)
}
