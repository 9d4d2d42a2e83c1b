//! Fields of an instruction word as types that hold no other numbers, readings of bits, and bitmask immediates.
#![tactic(auto)]

pub mod bitmasks;
pub mod fields;
pub mod flags;
pub mod insn_words;
mod macros;
pub mod numbers;

pub use bitmasks::{bitmask, bitmask_fields};
pub use fields::{Pred, PredLow, Reg, U};
pub use flags::{Cond, Esize, Flags};
pub use insn_words::{Word, bits, flag, put};
pub use numbers::{add_flags, extended, low_bits, sext, sign_extended};
