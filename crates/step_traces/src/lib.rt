//! The lines of a run's steps, by two machines of which one is a step ahead.
#![tactic(auto)]

mod discard;
mod step;
mod walk;

pub use step::put_step_line;
pub use walk::trace;
