//! The command line: its words read as a line that a command does, or refused; and the result of a command
//! line: its ending, and what it writes and takes.
#![tactic(auto)]

mod command_line;
mod command_words;
pub mod ending;
mod scan;
mod values;

pub use command_line::line_of_words;
pub use command_model::{Line, WordsFault, WordsWhy};
pub use command_words::word;
pub use ending::Ending;
