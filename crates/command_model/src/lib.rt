//! The command line as a command with its values, and the lines of refusals.
//!
//! What a sweep is: one program at each vector length, and a line on each, as definitions. What the command `load` makes
//! of its program: a run at each vector length, and a line on each, as definitions; and the listing of that program, as
//! a definition and built as a text.
#![tactic(auto)]

pub mod command_line;
mod listing;
pub mod sweep_laws;
pub mod sweep_limits;

pub use command_line::{Command, Line, OptionName, WordsFault, WordsWhy};
pub use listing::{OutOfMemory, load_listing};
pub use sweep_limits::{LOAD_BUDGET, LOAD_PAGES, STREAM_LIMIT};
