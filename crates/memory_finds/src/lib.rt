//! Where bytes stand in memory.
#![tactic(auto)]

mod finds;

pub use finds::next_found;
