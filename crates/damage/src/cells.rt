// The cells of a span.
ghost use Rattle.std.specs.Option.{option_map};
ghost use Rattle.damage.specs.Damage.{CellsIn};

use crate::span::Span;

impl Span {
    // The cells from the first column to the last, in a row that has as many cells as the panel has columns.
    pub fn cells<'a, C>(&self, row: &'a [C]) -> Option<&'a [C]>
        ensures { CellsIn self.now row.now (option_map (λ cs. cs.now) result) }
    {
        if row.len() == usize::from(self.width) {
            Some(&row[usize::from(self.first)..usize::from(self.last) + 1])
        } else {
            None
        }
    }
}
