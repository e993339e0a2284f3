// The log of a screen: every call that is made of it, from its opening on, and what each answers and sends. Keeping it
// promises the law of the log: each answer and all bytes are those of the rules, and no others are; and the panel shows
// what was last accepted, unless noise has reached it since the last redraw.
#![tactic(auto)]

mod enter;
pub mod entry;
pub mod keep;
