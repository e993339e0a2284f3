// The text of a line.
ghost use Rattle.std.specs.Prelude.{◌≡◌, IfOk};
ghost use Rattle.log_view.specs.Told.{heard_of, sent_of, told_line};

use crate::words::{AnswerWords, EntryWords};
use leg_view::lines::append_bytes;
use screen_log::entry::{Entry, Line};
use std::alloc::{AllocError, Global};

// The bytes that an entry sent, in the output of its log.
fn sent_bytes<'a>(line: &Line, output: &'a [u8]) -> &'a [u8]
    ensures { result.now ≡ sent_of line.now.answer line.now.first output.now }
{
    match line.answer {
        Ok(count) => {
            let sent = &output[line.first.min(output.len())..];
            &sent[..count.min(sent.len())]
        }
        Err(_) => &[],
    }
}

// What is told of an entry and its line: the entry, its answer, and the bytes that it sent, if it sent any.
pub fn line_text(
    heap: Global,
    entry: &Entry,
    line: &Line,
    output: &[u8],
) -> Result<Vec<u8>, AllocError>
    ensures { IfOk result (λ v. v.items ≡ told_line entry.now line.now.answer
        (sent_of line.now.answer line.now.first output.now)) }
{
    let answer = AnswerWords {
        answer: line.answer,
        showing: matches!(entry, Entry::Refresh { .. } | Entry::Redraw { .. }),
    };
    let entry = EntryWords(*entry);
    let mut out = format!(in heap; "{entry}: {answer}\n")?.into_bytes();
    let sent = sent_bytes(line, output);
    if !sent.is_empty() {
        append_bytes(&mut out, sent)?;
    }
    Ok(out)
}

// The bytes that reached the panel by an entry: those that it sent, or those that strayed.
pub fn heard_bytes<'a>(entry: &Entry<'a>, line: &Line, output: &'a [u8]) -> &'a [u8]
    ensures { result.now ≡ heard_of entry.now line.now.answer line.now.first output.now }
{
    match *entry {
        Entry::Stray { bytes } => bytes,
        _ => sent_bytes(line, output),
    }
}
