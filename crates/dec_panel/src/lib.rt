// The deferred-wrap panel, a DEC terminal: a letter in the last column holds the cursor there until the next letter.
// The model meets the panel interface; dec_rules has the rules that it is proved against.
#![tactic(auto)]

pub mod model;
mod reading;
mod spelling;
