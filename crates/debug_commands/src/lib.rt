//! The commands of a person's session: what each does to the machine, the breaks and the session, and what it puts.
#![tactic(auto)]

mod commands;
mod reports;

pub use commands::obey;
