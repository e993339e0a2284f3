// The table.
ghost use Rattle.std.specs.Prelude.{◌≡◌, Some, take};
ghost use Rattle.worked_legs.specs.Established.{Worked};
ghost use Rattle.worked_legs.specs.Table.{row, row_of};

use crate::row::CostKind::{Bytes, Line};
use crate::row::PanelKind::{Deferred, ShortCode, Sticking};
use crate::row::{CostKind, PanelKind, WorkedLeg};
use display::place::{Cursor, Place};
use panel::bytes::ShortBytes;

// Eight legs on a panel of 24 rows and 80 columns, all of it blank and pen 0 set.
#[tactic(auto, using(crate::proofs::Established::table_established))]
pub fn worked_legs() -> [WorkedLeg; 8]
    ensures { Worked result }
{
    let first = Place { row: 0, column: 0 };
    let four = Place { row: 0, column: 4 };
    let five = Place { row: 0, column: 5 };
    let end = Place { row: 0, column: 79 };
    let next = Place { row: 1, column: 0 };
    let inside = Place { row: 2, column: 3 };
    let start = Cursor::from(first);
    let held = Cursor {
        place: end,
        held: true,
    };
    [
        leg(Deferred, Bytes, start, four, b"\x1B[4C"),
        leg(Deferred, Line, start, five, b"     "),
        leg(Deferred, Bytes, held, end, b"\r\x1B[79C"),
        leg(Deferred, Bytes, held, next, b"\r\n"),
        leg(ShortCode, Bytes, start, inside, b"\x1B=\"#"),
        leg(ShortCode, Line, start, inside, b"\x0C\x0C\x0C\n\n"),
        leg(Sticking, Bytes, Cursor::from(end), next, b"\n\r"),
        WorkedLeg {
            panel: Sticking,
            cost: Bytes,
            start: Cursor::from(next),
            goal: first,
            bytes: None,
        },
    ]
}

// A row with the bytes of a leg, of which it has sixteen at most.
fn leg(panel: PanelKind, cost: CostKind, start: Cursor, goal: Place, bytes: &[u8]) -> WorkedLeg
    ensures { row_of result ≡ row panel cost start goal (Some (take 16 bytes.now)) }
{
    WorkedLeg {
        panel,
        cost,
        start,
        goal,
        bytes: Some(ShortBytes::from_slice(bytes)),
    }
}
