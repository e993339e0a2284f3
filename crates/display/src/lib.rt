// What every layer shares: the size of a panel, its places, and the cells of a picture.
#![tactic(auto)]

pub mod cell;
pub mod place;
pub mod size;
pub mod steps;
