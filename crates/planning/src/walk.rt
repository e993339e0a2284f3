// Walking a plan from run to run.
ghost use Rattle.std.specs.Prelude.{◌≡◌, ◌*◌, ◌/◌, ◌%◌, ◌<◌, ◌≤◌, length, map};
ghost use Rattle.display.specs.Place.{On};
ghost use Rattle.display.specs.Surface.{place_of};
ghost use Rattle.planning.specs.Enough.{Enough};
ghost use Rattle.planning.specs.Walks.{RunTaken, Walks};
ghost use Rattle.runs.specs.Runs.{Stretch, differs};

use crate::draw::draw_run;
use crate::go::{Progress, go};
use crate::pictures::Pictures;
use cost::cost::Cost;
use display::cell::Cell;
use display::place::{Cursor, Place};
use labels::label::Label;
use motion_order::charted::Charted;
use panel::panel::Panel;
use plan::stand::Stand;
use runs::next::next_run;
use runs::run::Run;

// What is sent: how many bytes are counted, and the pen that is set after them.
#[derive(Clone, Copy, Debug)]
pub struct Sent {
    pub count: usize,
    pub pen: u8,
}

// The place with a number, of so many columns a row.
fn numbered(columns: usize, number: usize) -> Place
    requires columns { 1 ≤ columns }
    requires width { columns ≤ 80 }
    requires number { number < 24 * columns }
    ensures { result ≡ place_of (number / columns) (number % columns) }
{
    Place {
        row: (number / columns) as u8,
        column: (number % columns) as u8,
    }
}

// Sends the leg to a run and draws its cells; or answers the run's first place, where no sequence leads there.
fn take_run<P: Panel, C: Cell, K: Cost>(
    charted: &Charted<P, K>,
    pictures: Pictures<C>,
    run: Run,
    progress: Progress,
    labels: &mut [Label<K>],
    output: &mut [u8],
) -> Result<Progress, Place>
    requires enough { Enough (P.answers charted.now).size (length labels.old) (length pictures.wanted.now) }
    requires few { length pictures.wanted.now ≤ 1920 }
    requires start { On (P.answers charted.now).size progress.cursor.place }
    requires run { Stretch (P.answers charted.now).size.columns
        ((P.answers charted.now).size.rows * (P.answers charted.now).size.columns)
        (differs (map C.glyph pictures.shown.now) (map C.glyph pictures.wanted.now)) run }
    requires count { progress.count < 576460752303423488 }
    ensures labels { length labels.new ≡ length labels.old }
    ensures taken { RunTaken K.costs (P.answers charted.now) (map C.glyph pictures.entry.shown.now)
        (map C.glyph pictures.entry.wanted.now) run progress output.old output.new result }
{
    let size = charted.panel().size();
    let columns = usize::from(size.columns);
    let first = numbered(columns, run.first);
    let Some(count) = go(
        charted, pictures, run.first, progress, first, labels, output,
    ) else {
        return Err(first);
    };
    let inked = draw_run(
        charted.panel(),
        pictures.wanted,
        run,
        progress.pen,
        output,
        count,
    );
    Ok(Progress {
        cursor: charted.panel().after_print(numbered(columns, run.end - 1)),
        pen: inked.pen,
        count: inked.count,
    })
}

// Sends a whole plan from where the panel stands: legs to the runs, one after the other, with the drawing of each, and
// the leg to the rest place. Its bytes are laid behind `count` bytes of the output where there is room for all; or else
// they are only counted. Or answers the first goal that no sequence leads to.
pub(crate) fn walk<P: Panel, C: Cell, K: Cost>(
    charted: &Charted<P, K>,
    pictures: Pictures<C>,
    start: Stand,
    rest: Place,
    labels: &mut [Label<K>],
    output: &mut [u8],
    count: usize,
) -> Result<Sent, Place>
    requires enough { Enough (P.answers charted.now).size (length labels.old) (length pictures.wanted.now) }
    requires few { length pictures.wanted.now ≤ 1920 }
    requires start { On (P.answers charted.now).size start.place }
    requires rest { On (P.answers charted.now).size rest }
    requires count { count ≤ 16 }
    ensures labels { length labels.new ≡ length labels.old }
    ensures size { length output.new ≡ length output.old }
    ensures walks { Walks K.costs (P.answers charted.now) (map C.glyph pictures.entry.shown.now)
        (map C.glyph pictures.entry.wanted.now) rest start count output.old output.new result }
{
    let size = charted.panel().size();
    let mut progress = Progress {
        cursor: Cursor::from(start.place),
        pen: start.pen,
        count,
    };
    let mut from = 0;
    while let Some(run) = next_run(size, pictures.shown, pictures.wanted, from) {
        progress = take_run(charted, pictures, run, progress, labels, output)?;
        from = run.end;
    }
    let Some(count) = go(
        charted,
        pictures,
        size.places(),
        progress,
        rest,
        labels,
        output,
    ) else {
        return Err(rest);
    };
    Ok(Sent {
        count,
        pen: progress.pen,
    })
}
