//! A world of guest threads: it is opened from a machine, runs under a schedule, and shows its contexts.
ghost use Rattle.std.specs.Prelude.{◌≡◌, ◌<◌, ◌≤◌, ◌⊎◌, IfOk, IfSome, is_none, length, true, false};
ghost use Rattle.emu_machine.specs.Machines.{has_ended as machine_has_ended, MakesWrite};
ghost use Rattle.guest_threads.specs.Ends.{
  has_ended,
  end_of_world,
  is_broken_off,
  last_machine,
  AllWait,
  Becomes,
  IsKeptAt,
  TakesWithin,
  Puts,
};
ghost use Rattle.io_gate.specs.Streams.{Causes};
ghost use Rattle.linux_calls.specs.Names.{NamesRead};
ghost use Rattle.emu_run.specs.Threads as model;
ghost use Rattle.emu_run.specs.Threads.{with_input};
ghost use Rattle.emu_run.specs.Worlds as worlds;

use crate::ends::WorldEnd;
use crate::held::Held;
use core_regs::Core;
use emu_machine::Machine;
use guest_pages::OutOfMemory;
use guest_schedule::Schedule;
use io_gate::{Sink, Source};
use std::alloc::Global;
use std::marker::Model;
use vec_regs::VecRegs;

/// A world. Contracts see what its contexts share, the contexts, and whether a stream has failed in one of its steps. A
/// world that hasn't ended has a context that hasn't left.
#[derive(Drop)]
pub struct World {
    held: Held,
}

impl Model for World {
    ghost use Rattle.guest_threads.specs.Ends.{WorldHeld, coded_held};
    ghost use Rattle.emu_run.specs.Living.{IsLiving};

    ghost Value = { WorldHeld };

    ghost coded = { coded_held };

    ghost view = { λ a. a.held };

    ghost invariant = { λ a. IsLiving a.held.world };
}

impl World {
    /// The world of a machine, which hasn't ended, with context 0 alone. The memory of all contexts is taken, and where
    /// it is wanting the machine is dropped.
    pub fn open(alloc: Global, machine: Machine) -> Result<World, OutOfMemory>
        requires { machine_has_ended machine ≡ false }
        ensures { IfOk result (λ w. w ≡ record { world = worlds.opened machine.parts; failed = false }) }
    {
        let held = Held::open(alloc, machine)?;
        Ok(World { held })
    }

    /// The number of steps that were counted: each but those that trapped or failed.
    pub fn steps(&self) -> u64
        ensures { result ≡ self.now.world.steps }
    {
        self.held.steps()
    }

    /// The number of contexts, those that have left included: at least one.
    pub fn contexts(&self) -> u32
        ensures value { result ≡ length self.now.world.contexts }
        ensures some { 1 ≤ result }
        ensures most { result ≤ 64 }
    {
        self.held.contexts()
    }

    /// The registers of a context: those that it left with, where it has left.
    pub fn context(&self, k: u32) -> (&Core, &VecRegs)
        requires { k < length self.now.world.contexts }
        ensures core { result.0.now ≡ (worlds.context self.now.world k).core }
        ensures vectors { result.1.now ≡ (worlds.context self.now.world k).vectors }
    {
        self.held.context(k)
    }

    /// The machine, with the registers of the context that took the last step, or of context 0 where none was taken.
    pub fn machine(&self) -> &Machine
        ensures { result.now.parts ≡ last_machine self.now.world }
    {
        self.held.machine()
    }

    /// Takes the steps that a schedule names, until the world has ended, no context is ready, or `budget` steps are
    /// counted in all.
    ///
    /// After a fault of a stream, which is answered exactly where that stream failed, the world has ended. It then
    /// stands before the step that wasn't done: it is what a run with a budget of the steps counted so far leaves, but
    /// that bytes which the call took are stored, and that the context of that step is the last. A sink that didn't
    /// fail has then all that these steps put. No run wants memory.
    pub fn run<I: Source, O: Sink, E: Sink>(
        &mut self,
        schedule: &Schedule,
        budget: u64,
        input: &mut I,
        output: &mut O,
        errors: &mut E,
    ) -> WorldEnd
        requires going { has_ended self.old ≡ false }
        requires within { self.old.world.steps ≤ budget }
        ensures state { Becomes (model.threads schedule.now budget) self.old.world self.new.world (I.left input.old)
            (I.left input.new) (is_broken_off result) }
        ensures input { TakesWithin (model.threads schedule.now budget) self.old.world (I.left input.old)
            (I.left input.new) (is_broken_off result) }
        ensures output { Puts (λ st. (model.threads schedule.now budget st).output) self.old.world (I.left input.old)
            (O.held output.old) (O.held output.new) (is_broken_off result) }
        ensures errors { Puts (λ st. (model.threads schedule.now budget st).errors) self.old.world (I.left input.old)
            (E.held errors.old) (E.held errors.new) (is_broken_off result) }
        ensures end { is_broken_off result ≡ false → result ≡ end_of_world self.new.world }
        ensures spent { result ≡ WorldEnd.Spent → self.new.world.steps ≡ budget }
        ensures stuck { result ≡ WorldEnd.Stuck → AllWait self.new.world }
        ensures kept { IfSome (I.left input.old) (λ bytes. is_broken_off result ≡ true → IsKeptAt
            (model.threads schedule.now self.new.world.steps (with_input self.old.world bytes)) self.new.world
            (I.left input.new)) }
        ensures unended { is_broken_off result ≡ true → is_none self.new.world.ended ≡ true }
        ensures unspent { is_broken_off result ≡ true → self.new.world.steps < budget }
        ensures failed { self.new.failed ≡ is_broken_off result }
        ensures read_cause { Causes (result ≡ WorldEnd.ReadFault) (I.faults input.old) (I.faults input.new) }
        ensures write_cause { Causes (result ≡ WorldEnd.WriteFault) (O.faults output.old) (O.faults output.new) }
        ensures errors_cause { Causes (result ≡ WorldEnd.ErrorsFault) (E.faults errors.old) (E.faults errors.new) }
        ensures read_named { result ≡ WorldEnd.ReadFault → NamesRead (last_machine self.new.world).core }
        ensures write_named { result ≡ WorldEnd.WriteFault → MakesWrite (last_machine self.new.world) 1 }
        ensures errors_named { result ≡ WorldEnd.ErrorsFault → MakesWrite (last_machine self.new.world) 2 }
        ensures whole_output { (result ≡ WorldEnd.ReadFault) ⊎ (result ≡ WorldEnd.ErrorsFault)
            → Puts (λ st. (model.threads schedule.now self.new.world.steps st).output) self.old.world
            (I.left input.old) (O.held output.old) (O.held output.new) false }
        ensures whole_errors { (result ≡ WorldEnd.ReadFault) ⊎ (result ≡ WorldEnd.WriteFault)
            → Puts (λ st. (model.threads schedule.now self.new.world.steps st).errors) self.old.world
            (I.left input.old) (E.held errors.old) (E.held errors.new) false }
    {
        self.held
            .follow(schedule.turns(), budget, input, output, errors)
    }
}
