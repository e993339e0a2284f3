// The number of bytes.
ghost use Rattle.cost.specs.Bytes.{FewBytes, byte_costs, byte_few, byte_laws};

use crate::cost::Cost;

#[derive(Clone, Copy, Debug, PartialEq, Eq)]
pub struct ByteCost {
    pub bytes: u16,
}

impl Cost for ByteCost {
    ghost use Rattle.std.specs.Prelude.{ℕ};

    ghost Value = { ℕ };

    ghost costs = { byte_costs };

    ghost value = { λ c. c.bytes };

    ghost Few = { FewBytes };

    ghost laws = { byte_laws };

    ghost few_laws = { byte_few };

    fn zero() -> ByteCost {
        ByteCost { bytes: 0 }
    }

    // the time is no part of this cost
    fn of_motion(bytes: u8, _milliseconds: u16) -> ByteCost {
        ByteCost {
            bytes: u16::from(bytes),
        }
    }

    fn plus(self, other: ByteCost) -> ByteCost {
        ByteCost {
            bytes: self.bytes + other.bytes,
        }
    }

    fn at_most(self, other: ByteCost) -> bool {
        self.bytes <= other.bytes
    }
}
