// Why a call of the screen is refused, and what is asked of a cell before it is put. Each refusal has one number and
// its values, and the first reason is told, in the order of a table.
#![tactic(auto)]

pub mod cells;
pub mod fault;
pub mod judge;
