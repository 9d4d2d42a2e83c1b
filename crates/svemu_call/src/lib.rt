//! The top call, `svemu`, which does all that the program does: what a command line says, over the files and streams that
//! are handed in. Its clauses are the headline.
#![tactic(auto)]

mod status;
mod top;

pub use status::status_of;
pub use top::svemu;
