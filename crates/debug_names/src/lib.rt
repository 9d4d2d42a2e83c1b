//! What the words of a person at the debugger name: registers, lanes and commands.
#![tactic(auto)]

mod registers;
mod verbs;

pub use registers::{
    Lane, Register, Thing, lane_of, register_of, size_of_letter, thing_of, vector_of,
};
pub use verbs::{Verb, all_verbs, begins, nearest, verb_of};
