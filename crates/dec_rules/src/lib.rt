// The rule book of the deferred-wrap panel, a DEC terminal: its reading states and motions as types,
// what they mean in specs/, and the proof in proofs/ that a panel which follows the rules is lawful.
#![tactic(auto)]

pub mod motion;
pub mod reading;
