// What motions cost, behind one interface: bytes, or milliseconds and then bytes.
#![tactic(auto)]

pub mod byte;
pub mod cost;
pub mod line;
