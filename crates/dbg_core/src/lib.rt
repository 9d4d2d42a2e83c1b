//! The reader of debugger scripts: a text to its commands, or to its first refusal. A debugger session: the commands of
//! a script over a machine.
//!
//! Contracts cite the definitions of `dbg_model`. No call takes memory but `read_script`.
#![tactic(auto)]

mod commands;
mod ends;
mod lines;
mod moves;
mod points;
mod script_arguments;
mod script_commands;
mod script_reader;

pub use commands::session;
pub use dbg_model::{Command, Script, ScriptFault, ScriptWhy};
pub use ends::SessionEnd;
pub use lines::{put_ending, put_stepped, put_stop, show};
pub use points::{Points, Stop};
pub use script_reader::{ScriptError, read_script};
