//! The outside: where bytes come from and go to, and files by name.
//!
//! The traits `Source`, `Sink` and `Images` say what each call gives and leaves, and keep a count of
//! faults that never falls: `Failed` comes only where it rose, and any other answer leaves it as it was.
#![tactic(auto)]

mod calls;
mod file_images;
mod images;
mod memory;
mod memory_images;
mod no_fault;
mod slice_source;
mod std_streams;
mod streams;
mod whole_source;

pub use file_images::FileImages;
pub use images::{Images, ImagesError};
pub use memory::{MemSink, MemSource};
pub use memory_images::MemImages;
pub use no_fault::{NoFaultImages, NoFaultSource};
pub use slice_source::SliceSource;
pub use std_streams::{StdSink, StdSource};
pub use streams::{Failed, Sink, Source, put_all};
pub use whole_source::{ReadEnd, read_all};
