//! Instructions printed by patterns of slots, whatever the table.
#![tactic(auto)]

mod by_class;
mod edges;
mod numerals;
mod printing;
mod spelling;

pub use printing::print_word;
