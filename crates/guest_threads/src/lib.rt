//! Guest threads: a world of contexts that share a machine's memory, and its run under a schedule.
//!
//! Contracts see a world as its definition in `emu_run`, and whether a stream has failed. A machine has the
//! registers of the context that took the last step, and those of the others are kept beside it.
#![tactic(auto)]

mod advance;
mod calls;
mod clone;
mod ends;
mod futex;
mod held;
mod parts;
mod places;
mod run;
mod step;
mod svc;
mod turns;
mod went;
mod world;

pub use ends::WorldEnd;
pub use world::World;
