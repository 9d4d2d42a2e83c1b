//! The mapped pages of the guest as a plain program: a sorted list of page numbers, each with its rights and its 4,096
//! bytes, which wants memory as it grows. The program runs over `guest_pages`, which keeps the same contract faster;
//! the two are run side by side in `page_cases`.
//!
//! The number of a page is its address divided by 4,096.
#![tactic(auto)]

pub mod pages;
mod slots;

pub use emu_model::Rights;
pub use guest_pages::{MapFault, Unmapped};
pub use pages::{MapError, OutOfMemory, Pages};
