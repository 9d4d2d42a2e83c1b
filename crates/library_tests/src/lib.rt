//! Tests of what a program of cases can't show as a line of its input: generic functions and adapters, each at one
//! type, and calls that no command makes, through public functions alone.
//!
//! They stand here, and not beside what they test, since a crate with tests is proved once with them and once without.
#![tactic(auto)]

#[cfg(test)]
mod counted;
#[cfg(test)]
mod frames;
#[cfg(test)]
mod lane_slices;
#[cfg(test)]
mod statements;
#[cfg(test)]
mod streams;
