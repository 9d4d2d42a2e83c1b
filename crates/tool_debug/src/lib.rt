//! The command `debug` of `svemu-tool`: a session of a person over a machine, a command a line.
#![tactic(auto)]

mod command;
mod lines;
mod talk;

pub use command::debug_program;
