//! Names.
ghost use Rattle.std.specs.Prelude.{◌≡◌, IfOk};

use std::alloc::{AllocError, Global};
use std::marker::Model;

/// Want of memory.
pub type OutOfMemory = AllocError;

/// A text of its own: the name of a label, or the text of a string. Contracts see its bytes.
#[derive(Debug, Drop)]
pub struct Name {
    pub text: String,
}

impl Model for Name {
    ghost use Rattle.std.specs.Prelude.{List, ℕ, string_bytes};

    ghost Value = { List ℕ };

    ghost view = { λ n. string_bytes n.text };
}

impl Name {
    /// The name of this text.
    pub fn of(alloc: Global, text: &str) -> Result<Name, OutOfMemory>
        ensures { IfOk result (λ n. n ≡ text.now) }
    {
        Ok(Name {
            text: String::from_str(alloc, text)?,
        })
    }
}
