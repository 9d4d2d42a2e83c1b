//! What an operation of an A64 instruction makes of the scalar registers, and what a form makes of them by its operation.
#![tactic(auto)]

mod by_form;
mod performed;

pub use by_form::perform_form;
pub use performed::perform;
