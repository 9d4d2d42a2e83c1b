//! What A64 instructions do, as operations whose operands are made ready: the operation of a form, and the parts of which
//! operations are made. A word's operation rests on the word alone, so that it can be remembered.
#![tactic(auto)]

mod data_forms;
pub mod fields;
mod flow_forms;
mod memory_forms;
pub mod numbers;
mod of_form;
pub mod operands;
mod operation;
pub mod results;
pub mod shifts;
pub mod sums;

pub use of_form::operation_of;
pub use operation::Operation;
