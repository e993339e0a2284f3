// Which cells were put since a screen was last shown: a span of columns for each row, from the least to the greatest
// that was put there.
#![tactic(auto)]

pub mod cells;
pub mod damage;
pub mod span;
