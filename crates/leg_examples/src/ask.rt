// A search as the examples ask for it: on a panel of 24 rows and 80 columns, with a glass all of one letter.
use cost::cost::Cost;
use display::cell::Cell;
use display::cell::attributed::Attributed;
use display::place::{Cursor, Place};
use display::size::Size;
use labels::label::Label;
use leg_search::find::find;
use leg_search::leg::Refusal;
use leg_search::sending::write_leg;
use legs::glass::Glass;
use legs::scene::Scene;
use motion_order::charted::Charted;
use panel_model::kind::Kind;
use panel_model::model::Model;
use std::alloc::Global;
use std::test::Fail;

// What a search answers: the bytes of the leg and its cost, that there is none, or why it is refused.
#[derive(Drop)]
pub(crate) enum Answer<K> {
    Leg(Vec<u8>, K),
    None,
    Refused(Refusal),
}

// The pen now set is 0, and `cells` cells are on the glass.
pub(crate) fn ask<Q: Kind, K: Cost>(
    heap: Global,
    cells: usize,
    labels: usize,
    letter: (u8, u8),
    start: Cursor,
    goal: Place,
) -> Result<Answer<K>, Fail> {
    let size = Size::new(24, 80).ok_or("no size")?;
    let charted: Charted<Model<Q>, K> = Charted::new(Model::new(heap, size)?);
    let cell = Attributed::build(letter.0, letter.1).ok_or("no cell")?;
    let picture = vec![in heap; cell; cells]?;
    let mut labels = vec![in heap; Label::unreached(); labels]?;
    let glass = Glass {
        below: &picture,
        from: &picture,
        split: 0,
    };
    match find(&charted, glass, 0, start, goal, &mut labels) {
        Err(refusal) => Ok(Answer::Refused(refusal)),
        Ok(None) => Ok(Answer::None),
        Ok(Some(leg)) => {
            let scene = Scene {
                panel: charted.panel(),
                glass,
                pen: 0,
            };
            let mut output = vec![in heap; 0; 64]?;
            let count = write_leg(&scene, start, leg.steps(&labels), &mut output).ok_or(
                "too long",
            )?;
            output.truncate(count);
            Ok(Answer::Leg(output, leg.cost))
        }
    }
}
