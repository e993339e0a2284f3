// The bytes of a leg that has been found.
ghost use Rattle.std.specs.Prelude.{◌≡◌, ◌+◌, ◌≤◌, [], ◌++◌, drop, length, map, take};
ghost use Rattle.std.specs.Option.{option_and_then, option_map_or};
ghost use Rattle.labels.specs.Label.{step_of};
ghost use Rattle.leg_search.specs.Sending.{Lengths, Writes};
ghost use Rattle.legs.specs.Scene.{motion_sent, sent, steps};
ghost use Rattle.legs.specs.Seen.{scened};
ghost use Rattle.legs.specs.Sequence.{sequence};
ghost use Rattle.panel.specs.Bytes.{bytes_of};

use cost::cost::Cost;
use display::cell::Cell;
use display::place::Cursor;
use labels::label::Label;
use legs::scene::Scene;
use panel::bytes::ShortBytes;
use panel::panel::Panel;

// The bytes of a motion from where the ones before it have led, and none where they have led nowhere.
pub fn motion_bytes<P: Panel, C: Cell>(
    scene: &Scene<P, C>,
    cursor: Option<Cursor>,
    motion: u16,
) -> ShortBytes
    ensures { bytes_of result
        ≡ option_map_or (λ d. motion_sent (scened P.answers C.glyph scene.now) d motion) cursor [] }
{
    match cursor {
        Some(cursor) => scene.motion_bytes(motion, cursor),
        None => ShortBytes::new(),
    }
}

// Where a motion leads from where the ones before it have led.
pub fn next_cursor<P: Panel, C: Cell>(
    scene: &Scene<P, C>,
    cursor: Option<Cursor>,
    motion: u16,
) -> Option<Cursor>
    ensures { result ≡ option_and_then (steps (scened P.answers C.glyph scene.now) motion) cursor }
{
    Some(Cursor::from(scene.landing(motion, cursor?)?))
}

// How many bytes a leg has, if they are not more than there is room for.
fn length_within<P: Panel, C: Cell, K: Cost>(
    scene: &Scene<P, C>,
    start: Cursor,
    leg: &[Label<K>],
    room: usize,
) -> Option<usize>
    ensures { Lengths (sent (scened P.answers C.glyph scene.now) start (sequence (map step_of leg.now))) room result }
{
    let mut cursor = Some(start);
    let mut count = 0;
    for label in leg {
        let motion = label.step();
        let bytes = motion_bytes(scene, cursor, motion);
        let length = bytes.as_slice().len();
        if length > room - count {
            return None;
        }
        count += length;
        cursor = next_cursor(scene, cursor, motion);
    }
    Some(count)
}

// Lays some bytes into an output from a place on, which has room for them, and answers where they end.
fn lay(output: &mut [u8], count: usize, bytes: &[u8]) -> usize
    requires { count + length bytes.now ≤ length output.old }
    ensures end { result ≡ count + length bytes.now }
    ensures laid { output.new ≡ (take count output.old ++ bytes.now) ++ drop result output.old }
{
    let end = count + bytes.len();
    output[count..end].copy_from_slice(bytes);
    end
}

// Writes the bytes of the leg whose motions some labels hold at the start of an output, and answers how many they are;
// or nothing, and nothing is written, where the output is too short for them. The leg begins at a cursor.
pub fn write_leg<P: Panel, C: Cell, K: Cost>(
    scene: &Scene<P, C>,
    start: Cursor,
    leg: &[Label<K>],
    output: &mut [u8],
) -> Option<usize>
    ensures { Writes (sent (scened P.answers C.glyph scene.now) start (sequence (map step_of leg.now))) output.old
        output.new result }
{
    length_within(scene, start, leg, output.len())?;
    let mut cursor = Some(start);
    let mut count = 0;
    for label in leg {
        let motion = label.step();
        let bytes = motion_bytes(scene, cursor, motion);
        count = lay(output, count, bytes.as_slice());
        cursor = next_cursor(scene, cursor, motion);
    }
    Some(count)
}
