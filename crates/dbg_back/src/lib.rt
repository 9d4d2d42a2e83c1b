//! A debugger session that may go back.
//!
//! It goes back by marks of its machine, which keep the machine of the start and of each 4,096 steps while there is
//! room for them. Contracts cite the definitions of `dbg_model`. No call takes memory.
#![tactic(auto)]

mod back;
mod dropped;
mod ends;
mod marks;
mod moves;
mod session;
mod trail;

pub use back::{restore_before, turn_back};
pub use dropped::Dropped;
pub use ends::{BackEnd, end_of_put};
pub use moves::{advance, is_below, move_to};
pub use session::session_back;
pub use trail::Trail;
