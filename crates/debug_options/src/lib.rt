//! The words of the command `debug` of `svemu-tool`: its options, the files that they name, and what is said of what is
//! refused.
#![tactic(auto)]

mod options;
mod refusals;
mod sources;

pub use options::{Given, run_words};
pub use refusals::{FILE_LIMIT, miss_file, refuse_long_file, refuse_table, refuse_words};
pub use sources::{ReadFile, read_sources, seen_sources};
