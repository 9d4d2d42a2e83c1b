//! A context: its registers, the address that is cleared when it leaves, and how it stands.
ghost use Rattle.std.specs.Prelude.{◌≡◌};
ghost use Rattle.emu_run.specs.Worlds as worlds;

use core_regs::Core;
use emu_run::Standing;
use std::marker::Model;
use vec_regs::VecRegs;

/// A context of a world, whose registers are in boxes, so that they can be exchanged as they are. Contracts see it as a
/// record.
#[derive(Drop)]
pub struct Context {
    /// The scalar registers.
    pub core: Box<Core>,
    /// The vector registers.
    pub vec: Box<VecRegs>,
    /// The address of the word that is cleared when it leaves, or 0.
    pub clear: u64,
    /// Whether it can take a step.
    pub standing: Standing,
}

impl Model for Context {
    ghost use Rattle.emu_run.specs.Codes.{coded_context};
    ghost use Rattle.emu_run.specs.Worlds.{Context as ContextState};

    ghost Value = { ContextState };

    ghost coded = { coded_context };

    ghost view = { λ a. record { core = a.core.value; vectors = a.vec.value; clear = a.clear; standing = a.standing } };
}

/// A context that starts: it is ready. Contracts see it as the context that it becomes.
#[derive(Drop)]
pub struct Started {
    /// The scalar registers.
    pub core: Core,
    /// The vector registers.
    pub vec: VecRegs,
    /// The address of the word that is cleared when it leaves, or 0.
    pub clear: u64,
}

impl Model for Started {
    ghost use Rattle.emu_run.specs.Codes.{coded_context};
    ghost use Rattle.emu_run.specs.Worlds.{Context as ContextState};
    ghost use Rattle.emu_run.specs.declared.thread.Standing.TheVariants.{Ready};

    ghost Value = { ContextState };

    ghost coded = { coded_context };

    ghost view = { λ a. record { core = a.core; vectors = a.vec; clear = a.clear; standing = Ready } };
}

impl Context {
    /// Whether it can take a step.
    pub fn is_ready(&self) -> bool
        ensures { result ≡ worlds.is_ready self.now }
    {
        match self.standing {
            Standing::Ready => true,
            Standing::Waiting(_) => false,
            Standing::Gone => false,
        }
    }

    /// Whether it waits at an address.
    pub fn waits_at(&self, address: u64) -> bool
        ensures { result ≡ worlds.waits_at address self.now }
    {
        match self.standing {
            Standing::Ready => false,
            Standing::Waiting(at) => at == address,
            Standing::Gone => false,
        }
    }

    /// Whether it has left.
    pub fn is_gone(&self) -> bool
        ensures { result ≡ worlds.is_gone self.now }
    {
        match self.standing {
            Standing::Ready => false,
            Standing::Waiting(_) => false,
            Standing::Gone => true,
        }
    }
}
