// Plans: the bytes that bring a panel from one picture to another. What a plan is stands in specs/, what it does to a
// panel in proofs/.
#![tactic(auto)]

pub mod stand;
