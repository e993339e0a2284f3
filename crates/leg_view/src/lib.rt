// What a person is told of the leg from where the cursor of a panel stands to a place, as text.
#![tactic(auto)]

mod cells;
pub mod costs;
pub mod goal;
pub mod lines;
pub mod report;
pub mod requests;
