//! Tokens and numbers of a line of a listing, as definitions and found in its text, and what lines name: labels and
//! addresses.
//!
//! A place is counted in bytes from the beginning of the text. A token or a number is read from a place on as if the
//! text began there, and a comment goes on to the text's end.
#![tactic(auto)]

mod fault;
pub mod laws;
mod name;
mod numbers;
mod scan;
mod target;
mod token;

pub use fault::AsmFault;
pub use name::{Name, OutOfMemory};
pub use numbers::number;
pub use target::{Target, Values};
pub use token::{Token, next_token};
