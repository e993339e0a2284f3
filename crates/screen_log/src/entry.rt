// What is entered in a log.
ghost use Rattle.std.specs.Prelude.{◌≡◌, Ok};

use faults::fault::Fault;

// A call of a screen. A showing is lent so many of the labels at hand, and so many bytes of the output that is left, or
// all where there are not so many.
#[derive(Clone, Copy)]
pub enum Entry<'a> {
    Put {
        row: usize,
        column: usize,
        code: u8,
        pen: u8,
    },
    Rest {
        row: usize,
        column: usize,
    },
    Refresh {
        labels: usize,
        room: usize,
    },
    Redraw {
        labels: usize,
        room: usize,
    },
    // bytes that reach the panel behind the screen's back
    Stray {
        bytes: &'a [u8],
    },
}

// What became of an entry: how many bytes were sent, or why it was refused. A put, a rest and a stray send none. The
// bytes sent stand in the log's output from `first` on.
#[derive(Clone, Copy)]
pub struct Line {
    pub answer: Result<usize, Fault>,
    pub first: usize,
}

impl Line {
    // A line to begin with: nothing was sent.
    pub fn none() -> Line
        ensures { result ≡ record { answer = Ok 0; first = 0 } }
    {
        Line {
            answer: Ok(0),
            first: 0,
        }
    }
}
