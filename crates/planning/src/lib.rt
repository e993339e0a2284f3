// Sending a plan: its legs are searched for, and its bytes are written. What is written is the plan and nothing else;
// or it is told why not, and the output is as it was.
#![tactic(auto)]

mod draw;
mod go;
pub mod pictures;
mod pour;
pub mod send;
pub mod walk;
