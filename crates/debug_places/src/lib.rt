//! What a person at the debugger writes of a program: places, by its symbols, conditions of its registers and lanes,
//! and how memory and registers are to be written.
#![tactic(auto)]

mod conditions;
mod formats;
mod places;
mod refusals;

pub use conditions::{Compare, Condition, Operand, condition_of};
pub use formats::{Format, Notation, format_of, plain_format};
pub use places::{Base, Place, place_of};
pub use refusals::{Refusal, Why, refuse};
