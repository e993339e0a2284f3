// Runs: where two pictures differ. The next one is as long as can be, and nothing differs ahead of it.
#![tactic(auto)]

pub mod next;
pub mod run;
