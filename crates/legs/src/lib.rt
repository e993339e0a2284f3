// Legs: the least sequences of motions from a cursor to a place, and the scene that they depend on.
#![tactic(auto)]

pub mod glass;
pub mod scene;
