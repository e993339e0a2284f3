// The labels of a search for legs: what is known of each state so far, and why a settled one has its leg.
#![tactic(auto)]

pub mod label;
