//! The definitions of a step and a run, and of the lines that show a machine; and of a world of guest threads: its
//! contexts, the calls that speak of them, and a run under a schedule.
#![tactic(auto)]

pub mod insn;
pub mod laws;
pub mod thread;
pub mod thread_laws;

pub use insn::Insn;
pub use thread::{SchedulePlace, Standing, ThreadCall, ThreadErrno, WorldEnding};
