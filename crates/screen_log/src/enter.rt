// Making the call that an entry tells of.
ghost use Rattle.std.specs.Prelude.{◌≡◌, ◌≤◌, length};
ghost use Rattle.screen_log.specs.Enter.{Enters};

use crate::entry::Entry;
use cost::cost::Cost;
use display::cell::Cell;
use faults::fault::Fault;
use labels::label::Label;
use panel::panel::Panel;
use screen::screen::Screen;

// Makes the call and answers how many bytes it sent, or why it was refused. The output is what is left of the log's.
pub(crate) fn enter<P: Panel, C: Cell, K: Cost>(
    screen: &mut Screen<P, K>,
    wanted: &mut [C],
    shown: &mut [C],
    labels: &mut [Label<K>],
    output: &mut [u8],
    entry: &Entry,
) -> Result<usize, Fault>
    ensures labels { length labels.new ≡ length labels.old }
    ensures enters { Enters K.costs P.answers P.meaning P.fed P.ready C.glyph C.admits screen.old screen.new wanted.old
        wanted.new shown.old shown.new (length labels.old) output.old output.new entry.now result }
{
    match *entry {
        Entry::Put {
            row,
            column,
            code,
            pen,
        } => {
            screen.put(wanted, row, column, code, pen)?;
            Ok(0)
        }
        Entry::Rest { row, column } => {
            screen.rest(row, column)?;
            Ok(0)
        }
        Entry::Refresh {
            labels: count,
            room,
        } => {
            let count = count.min(labels.len());
            let room = room.min(output.len());
            screen.refresh(wanted, shown, &mut labels[..count], &mut output[..room])
        }
        Entry::Redraw {
            labels: count,
            room,
        } => {
            let count = count.min(labels.len());
            let room = room.min(output.len());
            screen.redraw(wanted, shown, &mut labels[..count], &mut output[..room])
        }
        Entry::Stray { bytes } => {
            screen.stray(bytes);
            Ok(0)
        }
    }
}
