// The leg that the words ask for.
ghost use Rattle.std.specs.Prelude.{◌≡◌, ◌≢◌, MatchOption, MatchResult};
ghost use Rattle.leg_view.specs.Requests.{Requested};
ghost use Rattle.leg_view.specs.declared.requests.Request.{Request as Requests};

use std::error::Error;
use std::fmt;
use std::str::FromStr;

// What a leg is the least by.
#[derive(Clone, Copy, Debug, PartialEq, Eq)]
pub enum Costing {
    // bytes
    Byte,
    // milliseconds on the line, and then bytes
    Line,
}

// A word that stands for no cost.
#[derive(Clone, Copy, Debug, PartialEq, Eq)]
pub struct UnknownCost;

impl fmt::Display for UnknownCost {
    ghost use Rattle.std.specs.Prelude.{Some, codes};

    ghost output = { λ _. Some (codes "the cost is not byte or line") };

    fn fmt<W: fmt::Write>(&self, f: &mut fmt::Formatter<W>) -> fmt::Result {
        write!(f, "the cost is not byte or line")
    }
}

impl Error for UnknownCost {}

// The cost that a word stands for.
impl FromStr for Costing {
    type Err = UnknownCost;

    ghost use Rattle.leg_view.specs.Requests.{cost_word};
    ghost use Rattle.leg_view.specs.declared.requests.Costing.{Costing as Costings};

    ghost from_str_gives = { λ word r. MatchResult r
        (λ c. word ≡ cost_word c)
        (λ _. (c : Costings) → word ≢ cost_word c) };

    fn from_str(word: &str) -> Result<Costing, UnknownCost> {
        match word {
            "byte" => Ok(Costing::Byte),
            "line" => Ok(Costing::Line),
            _ => Err(UnknownCost),
        }
    }
}

// A leg that is asked for: to a row and a column, which may be on no panel.
#[derive(Clone, Copy)]
pub struct Request {
    pub costing: Costing,
    pub row: usize,
    pub column: usize,
}

// The leg that a cost, a row and a column ask for, or nothing where they do not ask for one.
pub fn asked_leg(cost: &str, row: &str, column: &str) -> Option<Request>
    ensures { MatchOption result
        ((q : Requests) → Requested cost.now row.now column.now q → ⊥)
        (Requested cost.now row.now column.now) }
{
    let costing = cost.parse::<Costing>().ok()?;
    let row = row.parse().ok()?;
    let column = column.parse().ok()?;
    Some(Request {
        costing,
        row,
        column,
    })
}
