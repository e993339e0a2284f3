// What a search refuses: too little memory, and places that are not on the panel.
use crate::ask::{Answer, ask};
use cost::byte::ByteCost;
use dec_panel::model::Dec;
use display::place::{Cursor, Place};
use leg_search::leg::Refusal;
use std::process::Abort;
use std::test::Fail;

// Asks for a leg by the byte cost on the deferred-wrap panel, and is refused.
fn is_refused(
    rt: &(impl Abort + AllocGlobal),
    labels: usize,
    start: Place,
    goal: Place,
    refusal: Refusal,
) -> Result<(), Fail> {
    match ask::<Dec, ByteCost>(
        rt.alloc(),
        1920,
        labels,
        (b' ', 0),
        Cursor::from(start),
        goal,
    )? {
        Answer::Refused(why) => assert_eq!(rt; why, refusal),
        _ => Err("not refused")?,
    }
    Ok(())
}

#[test]
fn a_search_wants_a_label_for_each_place_and_one_more(rt: HostRuntime) -> Result<(), Fail> {
    let first = Place { row: 0, column: 0 };
    is_refused(&rt, 1920, first, first, Refusal::TooShort)
}

#[test]
fn a_search_wants_places_on_the_panel(rt: HostRuntime) -> Result<(), Fail> {
    let first = Place { row: 0, column: 0 };
    let below = Place { row: 24, column: 0 };
    let beside = Place { row: 0, column: 80 };
    is_refused(&rt, 1921, below, beside, Refusal::Outside { place: below })?;
    is_refused(&rt, 1921, first, beside, Refusal::Outside { place: beside })?;
    // too little memory comes before a place that is not on the panel
    is_refused(&rt, 0, below, beside, Refusal::TooShort)
}
