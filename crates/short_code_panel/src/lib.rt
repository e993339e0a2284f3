// The short-code panel, which wraps at once: a letter in the last column moves the cursor to the next row.
// The model meets the panel interface; specs/ has the rules that it is proved against.
#![tactic(auto)]

pub mod model;
mod motions;
mod reading;
