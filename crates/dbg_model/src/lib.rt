//! The definitions of a debugger: what a script's text says, and what its commands make of a machine and print; and the
//! plain types that they match on; and laws of a session, which may go back.
#![tactic(auto)]

pub mod back_laws;
pub mod laws;
pub mod script;

pub use script::{Command, Script, ScriptFault, ScriptWhy, Stop, Watch};
