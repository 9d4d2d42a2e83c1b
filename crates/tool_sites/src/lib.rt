//! Where a run stopped and why, from its machine, its image and the symbols of its file: the places of addresses, what
//! is next to an access that was refused, and the line that tells of the stop.
#![tactic(auto)]

mod beside;
mod guards;
mod hints;
mod lines;
mod nearby;
mod places;
mod words;

pub use hints::{explain_alone, explain_stuck};
pub use lines::explain;
