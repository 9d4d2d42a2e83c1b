//! What a machine has where a person's words name registers, lanes, places and conditions; and which words of a program
//! call and return.
#![tactic(auto)]

mod calls;
mod conditions;
mod registers;

pub use calls::{is_call, is_return};
pub use conditions::holds;
pub use registers::{address_of, lane_value, register_value};
pub use trace_lines::word_at;
