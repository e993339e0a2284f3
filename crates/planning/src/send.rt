// Sending the plan of a showing, or saying why it cannot be sent.
ghost use Rattle.std.specs.Prelude.{◌≡◌, ◌≤◌, Decides, length, map};
ghost use Rattle.display.specs.Place.{On};
ghost use Rattle.faults.specs.declared.fault.Fault.TheVariants.{Outside};
ghost use Rattle.panel.specs.Bytes.{bytes_of};
ghost use Rattle.planning.specs.Enough.{Enough};
ghost use Rattle.planning.specs.Planned.{Plans};
ghost use Rattle.planning.specs.Tried.{Tries, WalksAhead};

use crate::pictures::Pictures;
use crate::pour::pour;
use crate::walk::{Sent, walk};
use cost::cost::Cost;
use display::cell::Cell;
use display::place::Place;
use display::size::Size;
use faults::fault::Fault;
use labels::label::Label;
use motion_order::charted::Charted;
use panel::bytes::ShortBytes;
use panel::panel::Panel;
use plan::stand::Stand;

// Whether so many labels and wanted cells are enough for the plans of a panel of a size.
fn is_enough(size: Size, labels: usize, wanted: usize) -> bool
    ensures { Decides result (Enough size labels wanted) }
{
    let places = size.places();
    places < labels && places <= wanted
}

// Whether a place is on a panel of a size.
fn is_on(size: Size, place: Place) -> bool
    ensures { Decides result (On size place) }
{
    place.row < size.rows && place.column < size.columns
}

// The refusal of a place.
fn outside(place: Place) -> Fault
    ensures { result ≡ Outside place.row place.column }
{
    Fault::Outside {
        row: usize::from(place.row),
        column: usize::from(place.column),
    }
}

// As many bytes at the start of an output are put by while a plan is tried.
const PUT_BY: usize = 4096;

// What a first walk of a plan has come to.
#[derive(Clone, Copy)]
enum Tried {
    // its bytes are written
    Written(Sent),
    // there are so many that they may not fit
    Counted(usize),
    // no sequence leads to this place
    Stopped(Place),
}

// Writes some bytes and then those of a plan at the start of an output, where there is room for all; or else only
// counts them. Or answers the first goal that no sequence leads to. Where not all is written, the output is not as it
// was.
fn write_plan<P: Panel, C: Cell, K: Cost>(
    charted: &Charted<P, K>,
    pictures: Pictures<C>,
    head: ShortBytes,
    start: Stand,
    rest: Place,
    labels: &mut [Label<K>],
    output: &mut [u8],
) -> Result<Sent, Place>
    requires enough { Enough (P.answers charted.now).size (length labels.old) (length pictures.wanted.now) }
    requires few { length pictures.wanted.now ≤ 1920 }
    requires start { On (P.answers charted.now).size start.place }
    requires rest { On (P.answers charted.now).size rest }
    ensures labels { length labels.new ≡ length labels.old }
    ensures size { length output.new ≡ length output.old }
    ensures walks { WalksAhead K.costs (P.answers charted.now) (map C.glyph pictures.entry.shown.now)
        (map C.glyph pictures.entry.wanted.now) rest start (bytes_of head) output.old output.new result }
{
    let count = pour(output, 0, head.as_slice());
    walk(charted, pictures, start, rest, labels, output, count)
}

// Tries a plan: its bytes are written where they are no more than are put by and the output has room for; or else the
// output is as it was.
fn try_plan<P: Panel, C: Cell, K: Cost>(
    charted: &Charted<P, K>,
    pictures: Pictures<C>,
    head: ShortBytes,
    start: Stand,
    rest: Place,
    labels: &mut [Label<K>],
    output: &mut [u8],
) -> Tried
    requires enough { Enough (P.answers charted.now).size (length labels.old) (length pictures.wanted.now) }
    requires few { length pictures.wanted.now ≤ 1920 }
    requires start { On (P.answers charted.now).size start.place }
    requires rest { On (P.answers charted.now).size rest }
    ensures labels { length labels.new ≡ length labels.old }
    ensures tries { Tries K.costs (P.answers charted.now) (map C.glyph pictures.entry.shown.now)
        (map C.glyph pictures.entry.wanted.now) rest start (bytes_of head) output.old output.new result }
{
    let room = output.len().min(PUT_BY);
    let mut saved = [0; PUT_BY];
    saved[..room].copy_from_slice(&output[..room]);
    let tried = match write_plan(
        charted,
        pictures,
        head,
        start,
        rest,
        labels,
        &mut output[..room],
    ) {
        Ok(sent) => {
            if sent.count <= room {
                return Tried::Written(sent);
            }
            Tried::Counted(sent.count)
        }
        Err(place) => Tried::Stopped(place),
    };
    output[..room].copy_from_slice(&saved[..room]);
    tried
}

// Writes some bytes and then those of a plan at the start of an output, from where the panel stands. A refusal leaves
// the output as it is, so the bytes that are there are put by; where the plan has more than that, it is walked a second
// time once it is known that it is not refused. Where a picture that is shown ends before a place, a blank is there.
pub fn send_plan<P: Panel, C: Cell, K: Cost>(
    charted: &Charted<P, K>,
    pictures: Pictures<C>,
    head: ShortBytes,
    start: Stand,
    rest: Place,
    labels: &mut [Label<K>],
    output: &mut [u8],
) -> Result<Sent, Fault>
    ensures { Plans K.costs (P.answers charted.now) C.glyph pictures.entry.shown.now pictures.entry.wanted.now
        (bytes_of head) start rest labels.old labels.new output.old output.new result }
{
    let size = charted.panel().size();
    if !is_enough(size, labels.len(), pictures.wanted.len()) {
        return Err(Fault::TooSmall);
    }
    if !is_on(size, start.place) {
        return Err(outside(start.place));
    }
    if !is_on(size, rest) {
        return Err(outside(rest));
    }
    let pictures = pictures.cut(size.places());
    let needed = match try_plan(charted, pictures, head, start, rest, labels, output) {
        Tried::Written(sent) => return Ok(sent),
        Tried::Counted(needed) => needed,
        Tried::Stopped(place) => {
            return Err(Fault::NoSequence {
                row: usize::from(place.row),
                column: usize::from(place.column),
            });
        }
    };
    if output.len() < needed {
        return Err(Fault::OutputTooShort { needed });
    }
    match write_plan(charted, pictures, head, start, rest, labels, output) {
        Ok(sent) => Ok(sent),
        Err(_) => unreachable!(),
    }
}
