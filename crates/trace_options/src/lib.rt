//! What a trace tells: which steps of a run, and what of a step, as the words of a command line say it.
#![tactic(auto)]

mod options;
mod places;
mod run_line;
mod shown;
mod window;
mod word;

pub use options::{Given, TraceFault, TraceOption, TraceWhy, trace_options};
pub use places::window_of;
pub use run_line::run_words;
pub use shown::{Shown, shown_of};
pub use window::{Range, Stage, Window, behind, is_in_range, is_over, stage_at};
