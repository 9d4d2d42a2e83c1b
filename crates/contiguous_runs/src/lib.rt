//! The first lanes of a register, moved at once between the register and memory: as many as are active, where no lane
//! behind them is.
#![tactic(auto)]

mod leading;
mod moves;
mod register_bytes;

pub use leading::leading_lanes;
pub use moves::{load_lanes, store_lanes};
