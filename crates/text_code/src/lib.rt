//! Statements read and instructions printed by patterns of slots, whatever the table.
#![tactic(auto)]

mod aiming;
mod bits;
mod choosing;
pub mod dictionary;
mod faults;
mod filling;
mod groups;
mod judging;
mod kinds;
mod lines;
mod macros;
mod names;
mod operands;
mod patterns;
mod reading;
mod showing;
mod token_words;

pub use aiming::{Reach, aimed, reach_of, unaimed};
pub use choosing::{chosen, shows};
pub use faults::fault;
pub use filling::MOST;
pub use judging::{answer, has_target};
pub use lines::line_of;
pub use names::spots_in;
pub use operands::{items, last_label};
pub use patterns::{Name, Names, Pattern, Spot};
pub use reading::{Aim, Found, Table, read};
pub use showing::printed_item;
pub use token_words::item_of_word;
