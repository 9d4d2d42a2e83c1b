//! What a listing is and what it makes, as definitions: its lines, where each of them stands, the file, and the first
//! refusal.
//!
//! How the statements of instructions are read is a parameter of these definitions.
#![tactic(auto)]

mod directive;
mod fault;
mod line;

pub use directive::{Directive, DirectiveName};
pub use fault::{ListingFault, ListingWhy};
pub use line::{Body, Line, Section};
