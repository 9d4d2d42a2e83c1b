//! Texts of numbers, registers and lanes, as a person's session shows them, behind a text. Err is want of memory; the
//! text then has some of the first bytes.
#![tactic(auto)]

mod lanes;
mod numbers;
mod registers;

pub use lanes::push_lanes;
pub use numbers::{character, push_decimal, push_digits, push_hex, push_number};
pub use registers::{
    push_ffr, push_lane_name, push_name, push_noted, push_p, push_register, push_z,
};
