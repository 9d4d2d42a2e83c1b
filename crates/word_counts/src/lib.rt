//! How often each word of a program was executed: counts by the numbers of words, kept by pages, and the lines that
//! show them.
#![tactic(auto)]

mod lines;
mod table;

pub use lines::push_lines;
pub use table::WordCounts;
