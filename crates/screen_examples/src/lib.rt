// Examples of a screen, as tests: what is put and refused, what is sent, and what a log holds.
#![tactic(auto)]

#[cfg(test)]
mod cab;
#[cfg(test)]
mod logs;
#[cfg(test)]
mod puts;
#[cfg(test)]
mod showings;
