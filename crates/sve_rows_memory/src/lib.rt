//! Words of SVE loads and stores to instructions and back.
#![tactic(auto)]

mod dispatch;
mod gathers;
mod loads;
mod memory_words;
mod scatters;
mod stores;

pub use dispatch::find_memory;
pub use memory_words::memory_word;
