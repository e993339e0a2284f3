// Worked legs: a table of eight legs on a blank glass, for each kind of panel and each cost, and for tests of a search.
// Each row is proved from the definitions of legs and panels alone, with no search: no sequence that leads to its goal
// costs less, and of those that cost as little its own comes first; or none leads there.
#![tactic(auto)]

pub mod row;
pub mod table;
