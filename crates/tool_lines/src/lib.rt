//! The command line of `svemu-tool`: its words, read as a command with the places of its values or refused; and the
//! words of the line of `svemu` that does the same.
#![tactic(auto)]

mod counted;
mod line;
mod words;

pub use counted::counted_words;
pub use line::{RunLine, ToolFault, ToolLine, ToolOption, ToolWhy, tool_line};
pub use words::{Variables, same_words};
