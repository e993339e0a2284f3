// The columns put in each row.
ghost use Rattle.std.specs.Prelude.{◌≡◌, replicate, slice_index_or};
ghost use Rattle.damage.specs.Damage.{Spans, added, untouched, widened};

use crate::span::Span;
use display::place::Place;

// The columns put in one row: the first and the last, and whether any was put. The two say nothing where none was.
#[derive(Clone, Copy, Debug)]
pub struct PutColumns {
    pub first: u8,
    pub last: u8,
    pub any: bool,
}

impl PutColumns {
    pub const NONE: PutColumns = PutColumns {
        first: 0,
        last: 0,
        any: false,
    };

    // One column more is put.
    pub fn widen(&mut self, column: u8)
        ensures { self.new ≡ widened self.old column }
    {
        if self.any {
            self.first = self.first.min(column);
            self.last = self.last.max(column);
        } else {
            *self = PutColumns {
                first: column,
                last: column,
                any: true,
            };
        }
    }

    // The span of these columns on a panel of a width, if any was put and they make one.
    pub fn span(&self, width: u8) -> Option<Span>
        ensures { Spans self.now width result }
    {
        let PutColumns { first, last, any } = *self;
        if any && first <= last && last < width {
            Some(Span { first, last, width })
        } else {
            None
        }
    }
}

// The columns put in each of 24 rows, as many as the largest panel has.
#[derive(Clone, Copy, Debug)]
pub struct Damage {
    pub rows: [PutColumns; 24],
}

impl Damage {
    // Nothing is put.
    pub fn none() -> Damage
        ensures { result.rows ≡ replicate 24 untouched }
    {
        Damage {
            rows: [PutColumns::NONE; 24],
        }
    }

    // A cell is put at a place. Rows that no panel has are passed over.
    pub fn put(&mut self, place: Place)
        ensures { self.new.rows ≡ added self.old.rows place.row place.column }
    {
        let row = usize::from(place.row);
        if row < self.rows.len() {
            self.rows[row].widen(place.column);
        }
    }

    // The span of the columns put in a row of a panel of a width, if any was put there.
    pub fn span(&self, row: usize, width: u8) -> Option<Span>
        ensures { Spans (slice_index_or self.now.rows row untouched) width result }
    {
        self.rows.get(row)?.span(width)
    }
}
