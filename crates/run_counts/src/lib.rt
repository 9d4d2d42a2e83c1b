//! The run of a machine, with how often each word was executed.
#![tactic(auto)]

mod discard;
mod run;

pub use run::run_counted;
