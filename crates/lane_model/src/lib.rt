//! The definitions of lanes and predicates over plain lists: where a lane of a permute comes from, the first and the
//! last active lane, lists and words as bits, and what predicate instructions make of bits; and the plain types that
//! these match on.
#![tactic(auto)]

pub mod places;
pub mod predicates;

pub use places::LaneSource;
pub use predicates::{LogicOp, WhileTest};
