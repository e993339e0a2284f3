// The words of an entry and of its answer.
use faults::fault::Fault;
use screen_log::entry::Entry;
use std::fmt;

// An entry, in words.
#[derive(Clone, Copy)]
pub(crate) struct EntryWords<'a>(pub(crate) Entry<'a>);

impl<'a> fmt::Display for EntryWords<'a> {
    ghost use Rattle.std.specs.Prelude.{Some};
    ghost use Rattle.log_view.specs.Told.{entry_words};

    ghost output = { λ e. Some (entry_words e.0) };

    fn fmt<W: fmt::Write>(&self, f: &mut fmt::Formatter<W>) -> fmt::Result {
        match self.0 {
            Entry::Put {
                row,
                column,
                code,
                pen,
            } => write!(f, "put {row} {column} code {code} pen {pen}"),
            Entry::Rest { row, column } => write!(f, "rest {row} {column}"),
            Entry::Refresh { labels, room } => write!(f, "refresh labels {labels} room {room}"),
            Entry::Redraw { labels, room } => write!(f, "redraw labels {labels} room {room}"),
            Entry::Stray { bytes } => {
                let count = bytes.len();
                write!(f, "stray {count} bytes")
            }
        }
    }
}

// An answer, in words. A showing tells how many bytes it sent.
#[derive(Clone, Copy)]
pub(crate) struct AnswerWords {
    pub answer: Result<usize, Fault>,
    pub showing: bool,
}

impl fmt::Display for AnswerWords {
    ghost use Rattle.std.specs.Prelude.{Some};
    ghost use Rattle.log_view.specs.Told.{answer_words};

    ghost output = { λ a. Some (answer_words a.answer a.showing) };

    fn fmt<W: fmt::Write>(&self, f: &mut fmt::Formatter<W>) -> fmt::Result {
        match self.answer {
            Ok(count) => {
                if self.showing {
                    write!(f, "sent {count}")
                } else {
                    write!(f, "accepted")
                }
            }
            Err(fault) => write!(f, "refused {fault}"),
        }
    }
}
