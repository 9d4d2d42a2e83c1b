//! Lanes that are active by a predicate: runs of them, by its bits, and words and registers that keep them; and the
//! words of registers that elements in memory make.
#![tactic(auto)]

mod element_words;
mod fields;
mod kept_words;
mod lanes;
mod parts;
mod whole;

pub use element_words::put_words;
pub use fields::{active_from, front_lanes, idle_from, is_full, largest, words_of_lanes};
pub use kept_words::keep_active;
pub use parts::{set_copied, set_words};
