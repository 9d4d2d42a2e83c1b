//! The definitions of what SVE instructions do: functions of lanes and loops over them, and one equation for each form;
//! and the plain types that they match on.
#![tactic(auto)]

pub mod groups;
pub mod lane_functions;
pub mod laws;
pub mod sizes;

pub use groups::{Group, group_of};
pub use lane_functions::{LaneOp, LaneTest};
pub use sizes::lane_bits;
