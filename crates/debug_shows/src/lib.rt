//! What a person's session shows of a machine, as text behind a text. Err is want of memory; the text then has some of
//! the first bytes.
#![tactic(auto)]

mod breaks;
mod changes;
mod frames;
mod memory;
mod places;
mod refusals;
mod things;
mod transfers;
mod values;

pub use breaks::{push_met, push_points};
pub use changes::{Before, push_changes};
pub use frames::push_backtrace;
pub use memory::{push_disassembly, push_memory};
pub use places::{push_place, push_where};
pub use refusals::{push_help, push_refusal};
pub use things::push_thing;
