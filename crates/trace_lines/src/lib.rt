//! The parts of a step's line: what stood before the step, and what it changed and touched.
#![tactic(auto)]

mod accesses;
mod head;
mod scalars;
mod vectors;

pub use accesses::put_accesses;
pub use head::{put_end, put_head, word_at};
pub use scalars::put_scalars;
pub use vectors::put_vectors;
