// Examples of use, as tests: sizes, places and cells, the words that a program takes, each kind of panel, and what all
// kinds share.
#![tactic(auto)]

#[cfg(test)]
mod arguments;
#[cfg(test)]
mod cells;
#[cfg(test)]
mod deferred_wrap;
#[cfg(test)]
mod deferred_wrap_motions;
#[cfg(test)]
mod every_panel;
#[cfg(test)]
mod inputs;
#[cfg(test)]
mod requests;
#[cfg(test)]
mod short_code;
#[cfg(test)]
mod short_code_answers;
#[cfg(test)]
mod sticking;
#[cfg(test)]
mod sticking_answers;
#[cfg(test)]
mod trials;
