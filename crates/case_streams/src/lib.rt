//! What a program of cases makes of lines: files and streams in memory that behave as lines say, objects that keep what
//! had been moved when they were called, and bytes as lines.
//!
//! It is proved for safety alone, as the programs are that use it.
#![tactic(auto)]

mod bytes;
mod scene;
mod shown;
mod watched;

pub use bytes::{is_first, is_rest, put_number, words_of};
pub use scene::{Fault, Scene, Streams};
pub use shown::{first_line, show, show_digest, show_range};
pub use watched::{Calls, Moved, Object, Tally, Watched, object_of};
