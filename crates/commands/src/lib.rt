//! The commands, from the words of a line to its ending.
#![tactic(auto)]

mod arguments;
mod debugger;
mod disassembly;
mod files;
mod line;
mod listings;
mod loading;
mod program;
mod run;
mod sweeping;
mod texts;
mod threads;
mod two_files;

pub use files::file_bytes;
pub use line::command;
pub use program::{Program, open_machine};
pub use run::{ending_of_run, is_failure, put_report};
pub use threads::{ending_of_stop, put_world, schedule_of, stop_of};
