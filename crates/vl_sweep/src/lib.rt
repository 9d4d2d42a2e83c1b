//! One program at each vector length, one length after the other, and a line on each: a sweep of an image, and the runs of
//! a load program.
#![tactic(auto)]

mod bound_sink;
mod lengths;
mod line;
mod load_line;
mod load_runs;

pub use bound_sink::BoundSink;
pub use lengths::{SweepEnd, sweep};
pub use load_runs::{OutOfMemory, load_lines};
