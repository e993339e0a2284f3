// The screen: it keeps a text panel at a wanted picture, and sends no more than that takes. Every call promises its
// answer and what every buffer holds after it, refusals included; none asks anything of its caller.
#![tactic(auto)]

mod cells;
mod feeding;
pub mod screen;
pub mod showing;
pub mod size;
