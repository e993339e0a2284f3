// The legs of the table, found by the search.
use crate::ask::{Answer, ask};
use cost::byte::ByteCost;
use cost::cost::Cost;
use cost::line::LineCost;
use dec_panel::model::Dec;
use panel_model::kind::Kind;
use short_code_panel::model::ShortCode;
use std::alloc::Global;
use std::test::Fail;
use sticking_panel::model::Sticking;
use worked_legs::row::{CostKind, PanelKind, WorkedLeg};
use worked_legs::table::worked_legs;

fn bytes_by<Q: Kind, K: Cost>(heap: Global, row: WorkedLeg) -> Result<Option<Vec<u8>>, Fail> {
    match ask::<Q, K>(heap, 1920, 1921, (b' ', 0), row.start, row.goal)? {
        Answer::Leg(bytes, _) => Ok(Some(bytes)),
        Answer::None => Ok(None),
        Answer::Refused(_) => Err("refused")?,
    }
}

fn bytes_on<Q: Kind>(heap: Global, row: WorkedLeg) -> Result<Option<Vec<u8>>, Fail> {
    match row.cost {
        CostKind::Bytes => bytes_by::<Q, ByteCost>(heap, row),
        CostKind::Line => bytes_by::<Q, LineCost>(heap, row),
    }
}

#[test]
fn the_search_finds_the_worked_legs(rt: HostRuntime) -> Result<(), Fail> {
    for row in worked_legs() {
        let bytes = match row.panel {
            PanelKind::Deferred => bytes_on::<Dec>(rt.alloc(), row)?,
            PanelKind::ShortCode => bytes_on::<ShortCode>(rt.alloc(), row)?,
            PanelKind::Sticking => bytes_on::<Sticking>(rt.alloc(), row)?,
        };
        match bytes {
            Some(found) => {
                let worked = row.bytes.ok_or("a leg where none is worked out")?;
                assert_eq!(rt; found.as_slice(), worked.as_slice());
            }
            None => assert!(rt; row.bytes.is_none()),
        }
    }
    Ok(())
}
