// How a cost is told.
ghost use Rattle.std.specs.Prelude.{◌≡◌, ℕ, List, IfOk};

use cost::byte::ByteCost;
use cost::cost::Cost;
use cost::line::LineCost;
use std::alloc::{AllocError, Global};

// A cost that is told in words.
pub trait Worded: Cost {
    ghost worded: { Self → List ℕ };

    fn words(self, heap: Global) -> Result<Vec<u8>, AllocError>
        ensures { IfOk result (λ v. v.items ≡ worded self) };

    // costs of one value have the same words
    ghost same_words: { (a b : Self) → Self.Cost.value a ≡ Self.Cost.value b → worded a ≡ worded b };
}

impl Worded for ByteCost {
    ghost use Rattle.leg_view.specs.Costs.{bytes_same, bytes_worded};

    ghost worded = { λ c. bytes_worded c.bytes };

    ghost same_words = { λ a b h. bytes_same a.bytes b.bytes h };

    fn words(self, heap: Global) -> Result<Vec<u8>, AllocError> {
        let bytes = self.bytes;
        Ok(format!(in heap; "{bytes} bytes")?.into_bytes())
    }
}

impl Worded for LineCost {
    ghost use Rattle.cost.specs.Line.{line};
    ghost use Rattle.leg_view.specs.Costs.{line_same, line_worded};

    ghost worded = { λ c. line_worded (line c.milliseconds c.bytes) };

    ghost same_words = { λ a b h. line_same (line a.milliseconds a.bytes) (line b.milliseconds b.bytes) h };

    fn words(self, heap: Global) -> Result<Vec<u8>, AllocError> {
        let LineCost {
            milliseconds,
            bytes,
        } = self;
        Ok(format!(in heap; "{milliseconds} ms {bytes} bytes")?.into_bytes())
    }
}
