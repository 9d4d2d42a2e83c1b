//! Words of SVE operations lane by lane, folds and counts to instructions and back.
#![tactic(auto)]

mod data_words;
mod dispatch;
mod folds;
mod lanes;

pub use data_words::data_word;
pub use dispatch::find_data;
pub use lanes::unary;
