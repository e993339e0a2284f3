// The lines that tell a leg.
ghost use Rattle.std.specs.Prelude.{◌≡◌, ◌%◌, ◌++◌, IfOk, OnOk, map};
ghost use Rattle.labels.specs.Label.{step_of};
ghost use Rattle.leg_view.specs.Report.{bytes_line, cost_line, leg_lines, motion_word, motions_line, no_sequence};
ghost use Rattle.view.specs.Report.{hex_digit};

use crate::costs::Worded;
use cost::cost::Cost;
use labels::label::Label;
use std::alloc::{AllocError, Global};

// The last hexadecimal digit of a number.
#[tactic(auto, using(view::proofs::Digits::hex_digit_at))]
fn hex_digit(number: u8) -> u8
    ensures { result ≡ hex_digit (number % 16) }
{
    b"0123456789ABCDEF"[(number % 16) as usize]
}

// A motion, by its number.
fn append_motion(heap: Global, out: &mut Vec<u8>, motion: u16) -> Result<(), AllocError>
    ensures { OnOk result (out.new.items ≡ out.old.items ++ motion_word motion) }
{
    out.extend_from_slice(format!(in heap; " {motion}")?.as_bytes())?;
    Ok(())
}

// The motions that some labels hold.
fn append_motions<K: Cost>(
    heap: Global,
    out: &mut Vec<u8>,
    steps: &[Label<K>],
) -> Result<(), AllocError>
    ensures { OnOk result (out.new.items ≡ out.old.items ++ motions_line (map step_of steps.now)) }
{
    out.extend_from_slice(b"motions")?;
    for label in steps {
        append_motion(heap, out, label.step())?;
    }
    out.push(b'\n')?;
    Ok(())
}

// Some bytes, each as two digits.
pub fn append_bytes(out: &mut Vec<u8>, bytes: &[u8]) -> Result<(), AllocError>
    ensures { OnOk result (out.new.items ≡ out.old.items ++ bytes_line bytes.now) }
{
    out.extend_from_slice(b"bytes")?;
    for byte in bytes {
        out.extend_from_slice(&[b' ', hex_digit(*byte / 16), hex_digit(*byte)])?;
    }
    out.push(b'\n')?;
    Ok(())
}

// A cost.
fn append_cost<K: Worded>(heap: Global, out: &mut Vec<u8>, cost: K) -> Result<(), AllocError>
    ensures { OnOk result (out.new.items ≡ out.old.items ++ cost_line (K.worded cost)) }
{
    out.extend_from_slice(b"cost ")?;
    out.extend_from_slice(&cost.words(heap)?)?;
    out.push(b'\n')?;
    Ok(())
}

// The line where no sequence leads to the goal.
pub(crate) fn write_no_sequence(heap: Global) -> Result<Vec<u8>, AllocError>
    ensures { IfOk result (λ v. v.items ≡ no_sequence) }
{
    Vec::from_slice(heap, b"no sequence\n")
}

// The lines of a leg, whose motions some labels hold.
pub(crate) fn write_lines<K: Worded>(
    heap: Global,
    steps: &[Label<K>],
    bytes: &[u8],
    cost: K,
) -> Result<Vec<u8>, AllocError>
    ensures { IfOk result (λ v. v.items ≡ leg_lines (map step_of steps.now) bytes.now (K.worded cost)) }
{
    let mut out = Vec::new(heap);
    append_motions(heap, &mut out, steps)?;
    append_bytes(&mut out, bytes)?;
    append_cost(heap, &mut out, cost)?;
    Ok(out)
}
