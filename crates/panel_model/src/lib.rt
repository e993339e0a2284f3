// The model of a panel, once for every kind: a canvas, a reading state, and the rules of the kind.
#![tactic(auto)]

pub mod kind;
pub mod model;
