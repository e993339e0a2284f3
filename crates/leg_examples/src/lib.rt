// Examples of legs, as tests: the worked ones, found by the search, and what a search refuses.
#![tactic(auto)]

#[cfg(test)]
mod ask;
#[cfg(test)]
mod memory;
#[cfg(test)]
mod refused;
#[cfg(test)]
mod worked;
