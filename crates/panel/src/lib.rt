// A text panel: what it answers, what bytes do to it, and the laws that every panel keeps.
// Code above this crate is proved once, for every panel.
#![tactic(auto)]

pub mod bytes;
pub mod feeding;
pub mod letter;
pub mod moves;
pub mod panel;
pub mod readout;
