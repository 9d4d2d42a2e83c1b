//! A machine: it is opened from an image, takes steps and runs. Opened with marks, it can be marked and go back to a
//! mark.
//!
//! Contracts see a machine as its parts, the accesses of its last step, whether a stream has failed, and what its marks
//! keep. What a step and a run make of it are the definitions of `emu_run`, over streams that tell their bytes.
#![tactic(auto)]

mod calls;
mod contexts;
mod ends;
mod load;
mod machine;
mod marks;
mod open;
mod program;
mod registers;
mod running;
mod saved;
mod stack;

pub use emu_model::{Ended, Length, Trap, TrapKind};
pub use emu_system::are_arguments;
pub use ends::{Progress, RunEnd, StepEnd, step_end};
pub use machine::Machine;
