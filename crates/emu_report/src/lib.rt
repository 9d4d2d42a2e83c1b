//! What a command writes when it ends: one line, and after a run the registers; and the lines of a debugger.
//!
//! Each call puts a text whole, or answers `Failed` and has put some of its first bytes.
#![tactic(auto)]

mod debugger;
mod endings;
mod names;
mod refusals;
mod registers;
mod text;

pub use debugger::{
    put_break, put_lanes, put_length, put_memory, put_preg, put_step, put_watch, put_zreg,
};
pub use endings::{push_exit, push_spent, push_trap, put_exit, put_spent, put_stuck, put_trap};
pub use refusals::{
    put_image_refusal, put_listing_refusal, put_schedule_refusal, put_script_refusal, put_too_long,
    put_words_refusal,
};
pub use registers::{put_context, put_ffr, put_registers, put_scalars};
pub use text::Text;
