//! A line of a person at the debugger: the command that its words are, by the symbols of a program, or why they are
//! none.
#![tactic(auto)]

mod arguments;
mod commands;
mod pieces;
mod readers;

pub use commands::{Change, Command, Extent, Move, WatchKind};
pub use pieces::cut_words;
pub use readers::command_of;
