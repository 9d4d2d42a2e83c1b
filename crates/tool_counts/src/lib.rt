//! The command `count` of `svemu-tool`: how often each word of a program was executed, at one vector length or at each.
#![tactic(auto)]

mod command;
mod counted;
mod refusals;
mod stops;

pub use command::count_program;
