// Milliseconds, and then bytes.
ghost use Rattle.cost.specs.Line.{FewOnLine, Line, line, line_costs, line_few, line_laws};

use crate::cost::Cost;

#[derive(Clone, Copy, Debug, PartialEq, Eq)]
pub struct LineCost {
    pub milliseconds: u32,
    pub bytes: u16,
}

impl Cost for LineCost {
    ghost Value = { Line };

    ghost costs = { line_costs };

    ghost value = { λ c. line c.milliseconds c.bytes };

    ghost Few = { FewOnLine };

    ghost laws = { line_laws };

    ghost few_laws = { line_few };

    fn zero() -> LineCost {
        LineCost {
            milliseconds: 0,
            bytes: 0,
        }
    }

    fn of_motion(bytes: u8, milliseconds: u16) -> LineCost {
        LineCost {
            milliseconds: u32::from(milliseconds),
            bytes: u16::from(bytes),
        }
    }

    fn plus(self, other: LineCost) -> LineCost {
        LineCost {
            milliseconds: self.milliseconds + other.milliseconds,
            bytes: self.bytes + other.bytes,
        }
    }

    fn at_most(self, other: LineCost) -> bool {
        if self.milliseconds == other.milliseconds {
            self.bytes <= other.bytes
        } else {
            self.milliseconds < other.milliseconds
        }
    }
}
