//! The command `trace` of `svemu-tool`: a line on each step of a run, as far as it is asked for.
#![tactic(auto)]

mod asked;
mod command;
mod refusals;
mod run;

pub use command::trace_program;
