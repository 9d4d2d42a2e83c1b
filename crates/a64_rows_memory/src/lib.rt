//! Words of A64 loads and stores to instructions and back, line by line of the table.
#![tactic(auto)]

pub mod loads_and_stores;
