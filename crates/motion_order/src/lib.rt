// The order in which a search takes a panel's motions: in classes of one cost, the cheapest first, and in a class by
// their numbers. It is made once for a panel, and holds all of its motions, each once.
#![tactic(auto)]

pub mod charted;
pub mod classes;
pub mod ends;
pub mod offer;
pub mod order;
