//! The command `run` of `svemu-tool`: a program as `svemu` runs it, with a line for a person in the place of the
//! report.
#![tactic(auto)]

mod ends;
mod files;
mod image;
mod refusals;
mod reports;
mod run;
mod tool;
mod world;

pub use ends::Told;
pub use refusals::{file_text, line_text};
pub use tool::run_program;
