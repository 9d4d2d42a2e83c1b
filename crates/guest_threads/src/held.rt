//! A machine with the contexts whose registers it doesn't have, and the exchange of their registers with the machine's.
ghost use Rattle.std.specs.Prelude.{◌≡◌, ◌<◌, ◌≤◌, IfOk, is_some, length, true, false};
ghost use Rattle.emu_machine.specs.Machines.{has_ended as machine_has_ended};
ghost use Rattle.emu_run.specs.Worlds as worlds;
ghost use Rattle.guest_threads.specs.Ends.{last_machine};

use arrayvec::ArrayVec;
use core_regs::Core;
use emu_machine::Machine;
use emu_run::Standing;
use guest_contexts::{Context, Spare, ready, spares};
use guest_pages::OutOfMemory;
use std::alloc::{AllocError, Global};
use std::marker::Model;
use vec_regs::VecRegs;

/// The most contexts of a world, those that have left included.
pub(crate) const MOST_CONTEXTS: usize = 64;

/// A machine with contexts. Contracts see the world that they are, and whether a stream has failed in one of its steps.
#[derive(Drop)]
pub(crate) struct Held {
    pub(crate) machine: Machine,
    pub(crate) contexts: Vec<Context>,
    /// The context whose registers the machine has.
    pub(crate) last: usize,
    /// Room for the registers of those that haven't started.
    pub(crate) spares: Vec<Spare>,
    /// The numbers of the contexts that are ready, in order.
    pub(crate) numbers: ArrayVec<usize, MOST_CONTEXTS>,
    /// That none of the contexts has a monitor, where that is known.
    pub(crate) unwatched: bool,
}

impl Model for Held {
    ghost use Rattle.std.specs.Prelude.{length};
    ghost use Rattle.std.specs.Vec.{vec_capacity};
    ghost use Rattle.guest_contexts.specs.Laid.{world_of};
    ghost use Rattle.guest_threads.specs.Ends.{WorldHeld, coded_held, IsInside};

    ghost Value = { WorldHeld };

    ghost coded = { coded_held };

    ghost view = { λ a.
        record { world = world_of a.machine.parts a.last a.contexts.items; failed = a.machine.failed } };

    ghost invariant = { λ a. IsInside a.last a.contexts.items (vec_capacity a.contexts)
        (length a.spares.items) a.numbers.items a.unwatched };
}

/// Whether it is known that none of the contexts has a monitor, once these registers are back at theirs.
fn stays_unwatched(unwatched: bool, core: &Core) -> bool
    ensures { result ≡ true → (unwatched ≡ true) × (is_some core.now.monitor ≡ false) }
{
    // without a branch, since each change of contexts asks it
    unwatched & core.monitor().is_none()
}

impl Held {
    /// The world of a machine, which hasn't ended, with context 0 alone. The memory of all contexts is taken, and where
    /// it is wanting the machine is dropped.
    pub(crate) fn open(alloc: Global, machine: Machine) -> Result<Held, OutOfMemory>
        requires { machine_has_ended machine ≡ false }
        ensures { IfOk result (λ w. w ≡ record { world = worlds.opened machine.parts; failed = false }) }
    {
        let most = machine.vec().most();
        let spares = spares(alloc, most, MOST_CONTEXTS - 1)?;
        let mut contexts = Vec::with_capacity(alloc, MOST_CONTEXTS)?;
        contexts.push_reserved(Context {
            core: Box::new(alloc, Core::new()).map_err(AllocError::from)?,
            vec: Box::new(alloc, VecRegs::new(most)).map_err(AllocError::from)?,
            clear: 0,
            standing: Standing::Ready,
        });
        let numbers = ready(&contexts);
        Ok(Held {
            machine,
            contexts,
            last: 0,
            spares,
            numbers,
            unwatched: false,
        })
    }

    /// The number of steps that were counted: each but those that trapped or failed.
    pub(crate) fn steps(&self) -> u64
        ensures { result ≡ self.now.world.steps }
    {
        self.machine.steps()
    }

    /// The context whose registers the machine has.
    pub(crate) fn last(&self) -> usize
        ensures value { result ≡ self.now.world.last }
        ensures within { result < length self.now.world.contexts }
    {
        self.last
    }

    /// The number of contexts, those that have left included: at least one.
    pub(crate) fn contexts(&self) -> u32
        ensures value { result ≡ length self.now.world.contexts }
        ensures some { 1 ≤ result }
        ensures most { result ≤ 64 }
    {
        self.contexts.len() as u32
    }

    /// The registers of a context: those that it left with, where it has left.
    pub(crate) fn context(&self, k: u32) -> (&Core, &VecRegs)
        requires { k < length self.now.world.contexts }
        ensures core { result.0.now ≡ (worlds.context self.now.world k).core }
        ensures vectors { result.1.now ≡ (worlds.context self.now.world k).vectors }
    {
        if k as usize == self.last {
            return (self.machine.core(), self.machine.vec());
        }
        let context = &self.contexts[k as usize];
        (&context.core, &context.vec)
    }

    /// The machine, with the registers of the context that took the last step.
    pub(crate) fn machine(&self) -> &Machine
        ensures { result.now.parts ≡ last_machine self.now.world }
    {
        &self.machine
    }

    /// Brings the registers of a context into the machine, and those that the machine had back to theirs.
    #[inline(always)]
    pub(crate) fn bring(&mut self, k: usize)
        requires { k < length self.old.world.contexts }
        ensures { self.new ≡ record self.old { world = worlds.taken_by_context k self.old.world } }
    {
        let last = self.last;
        if k != last {
            let unwatched = stays_unwatched(self.unwatched, self.machine.core());
            let contexts = &mut *self.contexts;
            self.machine.exchange(contexts, last);
            self.machine.exchange(contexts, k);
            self.unwatched = unwatched;
            self.last = k;
        }
    }
}
