//! Functions of lanes: what SVE instructions make of them.
//!
//! A lane is a number of e bits, 8, 16, 32 or 64 (the manual's esize), in the low bits of a word; a result has zeros
//! above. Each function is one for all widths, and is the definition of its name; `apply`, `test` and `unary` take the
//! name as a value.
#![tactic(auto)]

mod compare;
mod logic;
mod names;
pub mod numbers;
mod products;
mod shifts;
mod single;
mod sums;

pub use compare::test;
pub use logic::{and, eor, orr};
pub use names::apply;
pub use numbers::wrapped;
pub use products::{dot_product, multiply_add, multiply_subtract};
pub use single::unary;
pub use sums::{add, smax, smin, umax, umin};
pub use sve_effects::{LaneOp, LaneTest};
