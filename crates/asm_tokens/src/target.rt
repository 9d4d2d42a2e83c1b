//! What an instruction or a number names.
use crate::name::Name;
use std::marker::Model;

/// A place that is named by its label or by its address.
#[derive(Debug, Drop)]
pub enum Target {
    Label(Name),
    Address(u64),
}

/// The values of a directive. Contracts see their list.
#[derive(Debug, Drop)]
pub struct Values {
    pub items: Vec<Target>,
}

impl Model for Values {
    ghost use Rattle.std.specs.Prelude.{List};
    ghost use Rattle.asm_tokens.specs.declared.target.Target.{Target};

    ghost Value = { List Target };

    ghost view = { λ v. v.items.items };
}
