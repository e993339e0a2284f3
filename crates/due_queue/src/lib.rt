// A queue of numbers that are due or not: it answers the one that is due first. It is a heap in place, by a rank that
// the caller tells: nothing is allocated, and no key is kept.
#![tactic(auto)]

mod heap;
pub mod queue;
pub mod rank;
mod waking;
