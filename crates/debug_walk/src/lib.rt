//! Walks of a machine that may go back: to a step, on to the first machine that meets a test, and back to the last one
//! that does, by the marks that a session has.
//!
//! Contracts cite the course of a session (`dbg_model`). No call takes memory.
#![tactic(auto)]

mod back;
mod on;
mod steps;
mod test;

pub use back::{backward, machines_before};
pub use dbg_back::{BackEnd, Trail};
pub use on::{Found, forward};
pub use steps::go_to;
pub use test::Test;
