// What a person is shown of a panel, as text.
#![tactic(auto)]

pub mod arguments;
pub mod input;
mod lines;
pub mod report;
pub mod requests;
mod rows;
