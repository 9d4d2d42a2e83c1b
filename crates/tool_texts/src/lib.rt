//! What `svemu-tool` says behind a program's errors, for a person: why a run didn't come to its exit, where, and what
//! to do about it.
//!
//! Contracts give the whole text of each line. `Err` is want of memory; the text then has some of the line's first
//! bytes. Which hint is chosen for a refused file (`image_hint`) no contract says.
#![tactic(auto)]

mod accesses;
mod pieces;
mod refusals;
mod stops;

pub use accesses::{Beside, push_access, push_call};
pub use pieces::{Place, push_place, push_short};
pub use refusals::{image_hint, push_family_line, push_file_line, push_value_line};
pub use stops::{
    Stop, push_at_stop, push_call_hint, push_jump, push_spent, push_stuck, push_undefined,
};
