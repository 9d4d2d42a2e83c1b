//! A person's session over a machine, beside what it shows: its state, and how its commands move the machine.
#![tactic(auto)]

mod ends;
mod line_moves;
mod moves;
mod session;

pub use ends::Broken;
pub use line_moves::is_by_lines;
pub use moves::{go, go_to_last_write};
pub use session::{Reached, Session};
