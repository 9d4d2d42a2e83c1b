//! What scripts and schedules share: the lines of a text, the words of a line and the numbers that words write.
#![tactic(auto)]

mod numbers;
mod texts;

pub use numbers::number_of_word;
pub use texts::{is_comment, lines, text_at, words};
