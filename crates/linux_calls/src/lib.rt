//! The system calls of the guest, by the numbers and errors of Linux on arm64.
#![tactic(auto)]

mod arguments;
mod buffer;
pub mod calling;
pub mod end;
mod entries;
mod files;
mod identity;
mod lengths;
mod memory;
mod moves;
mod ranges;
mod reply;
mod still;

pub use calling::call;
pub use emu_model::Break;
pub use end::CallEnd;
