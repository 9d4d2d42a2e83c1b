//! What commands of `svemu-tool` read before they run a program, how they end where that is refused or fails, and what
//! they say of it on the errors: which line stands for which refusal no contract says.
#![tactic(auto)]

mod copies;
mod reading;
mod saying;

pub use copies::{arguments, push_word};
pub use reading::{file_bytes, input_bytes};
pub use saying::{refuse_image, say, say_word};
