// The panel that the words ask for, of any kind.
ghost use Rattle.std.specs.Prelude.{◌≡◌, ◌≢◌, MatchOption, MatchResult};
ghost use Rattle.view.specs.Requests.{Requested};
ghost use Rattle.view.specs.declared.requests.Request.{Request as Requests};

use crate::arguments::asked_size;
use display::size::Size;
use std::error::Error;
use std::fmt;
use std::str::FromStr;

// The kinds of panels, by what they do in the last column.
#[derive(Clone, Copy, Debug, PartialEq, Eq)]
pub enum Kind {
    // the DEC panel: the cursor is held until the next letter
    DeferredWrap,
    // the short-code panel: the cursor goes to the next row
    ImmediateWrap,
    // the cursor stays
    Sticking,
}

// A word that stands for no kind.
#[derive(Clone, Copy, Debug, PartialEq, Eq)]
pub struct UnknownKind;

impl fmt::Display for UnknownKind {
    ghost use Rattle.std.specs.Prelude.{Some, codes};

    ghost output = { λ _. Some (codes "the kind is not D, C or T") };

    fn fmt<W: fmt::Write>(&self, f: &mut fmt::Formatter<W>) -> fmt::Result {
        write!(f, "the kind is not D, C or T")
    }
}

impl Error for UnknownKind {}

// The kind that a letter stands for.
impl FromStr for Kind {
    type Err = UnknownKind;

    ghost use Rattle.view.specs.Requests.{letter};
    ghost use Rattle.view.specs.declared.requests.Kind.{Kind as Kinds};

    ghost from_str_gives = { λ word r. MatchResult r
        (λ k. word ≡ letter k)
        (λ _. (k : Kinds) → word ≢ letter k) };

    fn from_str(word: &str) -> Result<Kind, UnknownKind> {
        match word {
            "D" => Ok(Kind::DeferredWrap),
            "C" => Ok(Kind::ImmediateWrap),
            "T" => Ok(Kind::Sticking),
            _ => Err(UnknownKind),
        }
    }
}

// A panel that is asked for.
#[derive(Clone, Copy)]
pub struct Request {
    pub kind: Kind,
    pub size: Size,
}

// The panel that a kind, rows and columns ask for, or nothing where they do not ask for one.
pub fn asked_panel(kind: &str, rows: &str, columns: &str) -> Option<Request>
    ensures { MatchOption result
        ((q : Requests) → Requested kind.now rows.now columns.now q → ⊥)
        (Requested kind.now rows.now columns.now) }
{
    let kind = kind.parse::<Kind>().ok()?;
    let size = asked_size("D", rows, columns)?;
    Some(Request { kind, size })
}
