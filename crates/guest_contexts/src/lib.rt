//! Contexts of guest threads: each with the registers that it has while it isn't in the machine, and how it stands.
#![tactic(auto)]

mod begin;
mod context;
mod copies;
mod monitors;
mod numbers;
mod room;
mod standings;
mod turns;

pub use begin::{Turn, begin_next, exchange, next_turn, turn_end};
pub use context::{Context, Started};
pub use copies::copy_core;
pub use monitors::{empty_monitors, is_some_watching, note_accesses};
pub use numbers::{error_answer, thread_call};
pub use room::{Spare, spares};
pub use standings::{are_all_gone, is_some_ready, ready, set_clear, stand, wake};
pub use turns::{Rest, place_among, rest_of};
