//! Words of SVE compares, operations on predicates and operations with an immediate to instructions and back.
#![tactic(auto)]

mod base_words;
mod compares;
mod counts;
mod dispatch;
mod immediates;
mod predicate_words;
mod predicates;

pub use dispatch::find_predicates;
pub use predicate_words::predicate_word;
