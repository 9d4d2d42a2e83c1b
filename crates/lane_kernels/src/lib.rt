//! Operations on lanes, carried out chunk by chunk over slices of any length.
//!
//! An operation is of one lane, of two or of three, a test of two, or a step of a fold; it stands for all lane types. A
//! kernel takes whole chunks of W lanes, and the rest one by one. An operation that has only a function of lanes, for
//! every width of them, takes a chunk lane by lane.
#![tactic(auto)]

mod kernels;
mod lane_wise;

pub use kernels::{FoldOp, Op1, Op2, Op3, Test2, compare, fold, map1, map2, map3, select};
pub use lane_wise::{LaneWise1, LaneWise2, LaneWise3, LaneWiseFold, LaneWiseTest2};
