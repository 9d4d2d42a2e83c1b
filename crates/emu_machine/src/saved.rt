//! What a mark keeps of a machine beside its pages.
ghost use Rattle.std.specs.Prelude.{◌≡◌, ℕ};
ghost use Rattle.emu_model.specs.SoundState.{IsSoundBreak};

use core_regs::Core;
use emu_model::{Break, Length, PAGE_SIZE};
use std::marker::Model;
use vec_regs::VecRegs;

/// The registers, the break and the number of steps of a machine that hasn't ended.
#[derive(Drop)]
pub(crate) struct Saved {
    pub(crate) core: Core,
    pub(crate) vec: VecRegs,
    pub(crate) brk: Break,
    pub(crate) steps: u64,
}

impl Model for Saved {
    ghost use Rattle.emu_machine.specs.Machines.{Saved as SavedParts, coded_saved};
    ghost use Rattle.emu_model.specs.SoundState.{IsSoundBreak};

    ghost Value = { SavedParts };

    ghost coded = { coded_saved };

    ghost view = { λ a. record { core = a.core; vectors = a.vec; brk = a.brk; steps = a.steps } };

    ghost invariant = { λ a. IsSoundBreak a.brk };
}

impl Saved {
    /// Of a machine with these.
    pub(crate) fn of(core: &Core, vec: &VecRegs, brk: Break, steps: u64) -> Saved
        requires { IsSoundBreak brk }
        ensures { result ≡ record { core = core.now; vectors = vec.now; brk = brk; steps = steps } }
    {
        Saved {
            core: core.copy(),
            vec: vec.copy(),
            brk,
            steps,
        }
    }

    /// Becomes what a mark keeps of a machine with these, where it stands.
    #[inline(always)]
    pub(crate) fn set(&mut self, core: &Core, vec: &VecRegs, brk: Break, steps: u64)
        requires { IsSoundBreak brk }
        ensures { self.new ≡ record { core = core.now; vectors = vec.now; brk = brk; steps = steps } }
    {
        self.core = core.copy();
        self.vec.set(vec);
        self.brk = brk;
        self.steps = steps;
    }

    /// What a mark keeps that is none: any registers of a vector length.
    pub(crate) fn unset(length: Length) -> Saved {
        let brk = Break {
            start: PAGE_SIZE,
            now: PAGE_SIZE,
        };
        Saved {
            core: Core::new(),
            vec: VecRegs::new(length),
            brk,
            steps: 0,
        }
    }

    /// The same once more.
    pub(crate) fn copy(&self) -> Saved
        ensures { result ≡ self.now }
    {
        Saved::of(&self.core, &self.vec, self.brk, self.steps)
    }
}
