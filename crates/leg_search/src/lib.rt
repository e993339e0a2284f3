// The search for legs, over memory that is lent. What it answers is the leg, of which there is only one, or that no
// sequence of motions leads to the goal.
#![tactic(auto)]

mod at_once;
mod due;
pub mod find;
mod front;
pub mod leg;
mod memory;
mod notes;
mod run;
mod search;
pub mod sending;
mod take;
mod task;
mod turn;
