//! The definitions of what A64 instructions do: to the scalar registers, to the program counter, and by loads and
//! stores; and the plain types that they match on.
#![tactic(auto)]

pub mod groups;
pub mod laws;
pub mod transfer;

pub use groups::{Group, group_of};
pub use transfer::Transfer;
