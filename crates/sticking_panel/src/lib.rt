// The sticking panel: a letter in the last column leaves the cursor there, and the next one overwrites it.
// The model meets the panel interface; specs/ has the rules that it is proved against.
#![tactic(auto)]

pub mod model;
mod motions;
mod reading;
