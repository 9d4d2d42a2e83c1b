//! What a person's session puts of its machine as it is: of registers, memory and instructions, of its breaks and
//! watches, of the lines of the source, and what is found in memory.
#![tactic(auto)]

mod listings;
mod searches;
mod shows;

pub use listings::put_listing;
pub use shows::{find_by, put, put_where, show_by};
