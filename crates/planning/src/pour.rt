// Laying bytes into an output.
ghost use Rattle.std.specs.Prelude.{◌≡◌, ◌+◌, ◌<◌, ◌≤◌, length, map};
ghost use Rattle.labels.specs.Label.{step_of};
ghost use Rattle.legs.specs.Scene.{sent};
ghost use Rattle.legs.specs.Seen.{scened};
ghost use Rattle.legs.specs.Sequence.{sequence};
ghost use Rattle.planning.specs.Pours.{Pours, most_leg};

use cost::cost::Cost;
use display::cell::Cell;
use display::place::Cursor;
use labels::label::Label;
use leg_search::sending::{motion_bytes, next_cursor};
use legs::scene::Scene;
use panel::panel::Panel;

// Lays bytes behind those that are counted, where the output has room for them, and counts them whether it has or not.
pub(crate) fn pour(output: &mut [u8], count: usize, bytes: &[u8]) -> usize
    requires { count + length bytes.now < 18446744073709551616 }
    ensures { Pours bytes.now output.old output.new count result }
{
    let end = count + bytes.len();
    if end <= output.len() {
        output[count..end].copy_from_slice(bytes);
    }
    end
}

// The same with the bytes of a leg whose motions some labels hold.
pub(crate) fn pour_leg<P: Panel, C: Cell, K: Cost>(
    scene: &Scene<P, C>,
    start: Cursor,
    steps: &[Label<K>],
    output: &mut [u8],
    count: usize,
) -> usize
    requires count { count < 4611686018427387904 }
    requires few { length (sent (scened P.answers C.glyph scene.now) start (sequence (map step_of steps.now)))
        ≤ most_leg }
    ensures { Pours (sent (scened P.answers C.glyph scene.now) start (sequence (map step_of steps.now))) output.old
        output.new count result }
{
    let mut cursor = Some(start);
    let mut count = count;
    for label in steps {
        let motion = label.step();
        let bytes = motion_bytes(scene, cursor, motion);
        count = pour(output, count, bytes.as_slice());
        cursor = next_cursor(scene, cursor, motion);
    }
    count
}
