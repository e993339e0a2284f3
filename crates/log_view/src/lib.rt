// What a person is shown of the log of a screen, as text: each entry with its answer and the bytes that it sent. Every
// call promises the whole text.
#![tactic(auto)]

pub mod line;
mod words;
