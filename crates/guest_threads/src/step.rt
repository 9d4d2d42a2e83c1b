//! One step of a context.
ghost use Rattle.std.specs.Prelude.{◌≡◌, ◌<◌, ◌⊎◌, ◌+◌, ◌-◌, ◌^◌, is_none, length, true, false};
ghost use Rattle.emu_machine.specs.Ends.{step_end, is_undone};
ghost use Rattle.emu_machine.specs.Machines.{MakesWrite};
ghost use Rattle.guest_threads.specs.Calls.{IsCalling};
ghost use Rattle.guest_threads.specs.Ends.{has_ended, last_machine, Becomes, TakesWithin, PutsAlways, IsKept};
ghost use Rattle.guest_threads.specs.Steps.{stepped_as};
ghost use Rattle.guest_threads.specs.Named.{last_end};
ghost use Rattle.io_gate.specs.Streams.{Causes};
ghost use Rattle.linux_calls.specs.Names.{NamesRead};
ghost use Rattle.emu_run.specs.declared.thread.Standing.TheVariants as standing;
ghost use Rattle.emu_run.specs.Living.{IsLiving};
ghost use Rattle.emu_run.specs.Threads as model;
ghost use Rattle.emu_run.specs.Worlds as worlds;

use crate::held::Held;
use crate::svc::makes_call;
use crate::went::{Went, went_by};
use emu_machine::StepEnd;
use guest_contexts::note_accesses;
use io_gate::{Sink, Source};

impl Held {
    /// Takes one step of a context, which is ready, and names its answer.
    ///
    /// It isn't inlined, so that calls and their streams aren't in the loop of a run, nor an answer in memory.
    #[inline(never)]
    pub(crate) fn one_by_name<I: Source, O: Sink, E: Sink>(
        &mut self,
        k: usize,
        input: &mut I,
        output: &mut O,
        errors: &mut E,
    ) -> Went
        requires going { has_ended self.old ≡ false }
        requires room { self.old.world.steps < 2 ^ 64 - 1 }
        requires within { k < length self.old.world.contexts }
        requires ready { (worlds.context self.old.world k).standing ≡ standing.Ready }
        ensures state { Becomes (λ st. model.stepped st k) self.old.world self.new.world (I.left input.old)
            (I.left input.new) (is_undone (last_end result self.new.world.ended)) }
        ensures input { TakesWithin (λ st. model.stepped st k) self.old.world (I.left input.old) (I.left input.new)
            (is_undone (last_end result self.new.world.ended)) }
        ensures output { PutsAlways (λ st. (model.stepped st k).output) self.old.world (O.held output.old)
            (O.held output.new) (is_undone (last_end result self.new.world.ended)) }
        ensures errors { PutsAlways (λ st. (model.stepped st k).errors) self.old.world (E.held errors.old)
            (E.held errors.new) (is_undone (last_end result self.new.world.ended)) }
        ensures end { is_undone (last_end result self.new.world.ended) ≡ false
            → last_end result self.new.world.ended ≡ step_end self.new.world.ended }
        ensures over { result ≡ Went.Over → is_none self.new.world.ended ≡ false }
        ensures counted { last_end result self.new.world.ended ≡ StepEnd.Going
            → self.new.world.steps ≡ self.old.world.steps + 1 }
        ensures kept { is_undone (last_end result self.new.world.ended) ≡ true
            → IsKept self.old.world self.new.world k (I.left input.old) (I.left input.new) }
        ensures failed { self.new.failed ≡ is_undone (last_end result self.new.world.ended) }
        ensures last { self.new.world.last ≡ k }
        ensures living { is_undone (last_end result self.new.world.ended) ≡ false → IsLiving self.new.world }
        ensures read_cause { Causes (last_end result self.new.world.ended ≡ StepEnd.ReadFault) (I.faults input.old)
            (I.faults input.new) }
        ensures write_cause { Causes (last_end result self.new.world.ended ≡ StepEnd.WriteFault) (O.faults output.old)
            (O.faults output.new) }
        ensures errors_cause { Causes (last_end result self.new.world.ended ≡ StepEnd.ErrorsFault) (E.faults errors.old)
            (E.faults errors.new) }
        ensures read_named { last_end result self.new.world.ended ≡ StepEnd.ReadFault
            → NamesRead (last_machine self.new.world).core }
        ensures write_named { last_end result self.new.world.ended ≡ StepEnd.WriteFault
            → MakesWrite (last_machine self.new.world) 1 }
        ensures errors_named { last_end result self.new.world.ended ≡ StepEnd.ErrorsFault
            → MakesWrite (last_machine self.new.world) 2 }
        ensures output_kept { (last_end result self.new.world.ended ≡ StepEnd.ReadFault)
            ⊎ (last_end result self.new.world.ended ≡ StepEnd.ErrorsFault) → output.new ≡ output.old }
        ensures errors_kept { (last_end result self.new.world.ended ≡ StepEnd.ReadFault)
            ⊎ (last_end result self.new.world.ended ≡ StepEnd.WriteFault) → errors.new ≡ errors.old }
    {
        let end = self.one(k, input, output, errors);
        went_by(end)
    }

    /// Takes one step of a context, which is ready.
    ///
    /// After a fault of a stream, which is answered exactly where that stream failed, the world has ended with the step
    /// not done: it is as before, but that bytes which the call took are stored, and that the context of the step is
    /// the last.
    fn one<I: Source, O: Sink, E: Sink>(
        &mut self,
        k: usize,
        input: &mut I,
        output: &mut O,
        errors: &mut E,
    ) -> StepEnd
        requires going { has_ended self.old ≡ false }
        requires room { self.old.world.steps < 2 ^ 64 - 1 }
        requires within { k < length self.old.world.contexts }
        requires ready { (worlds.context self.old.world k).standing ≡ standing.Ready }
        ensures state { Becomes (λ st. model.stepped st k) self.old.world self.new.world (I.left input.old)
            (I.left input.new) (is_undone result) }
        ensures input { TakesWithin (λ st. model.stepped st k) self.old.world (I.left input.old) (I.left input.new)
            (is_undone result) }
        ensures output { PutsAlways (λ st. (model.stepped st k).output) self.old.world (O.held output.old)
            (O.held output.new) (is_undone result) }
        ensures errors { PutsAlways (λ st. (model.stepped st k).errors) self.old.world (E.held errors.old)
            (E.held errors.new) (is_undone result) }
        ensures end { is_undone result ≡ false → result ≡ step_end self.new.world.ended }
        ensures counted { result ≡ StepEnd.Going → self.new.world.steps ≡ self.old.world.steps + 1 }
        ensures kept { is_undone result ≡ true
            → IsKept self.old.world self.new.world k (I.left input.old) (I.left input.new) }
        ensures failed { self.new.failed ≡ is_undone result }
        ensures last { self.new.world.last ≡ k }
        ensures living { is_undone result ≡ false → IsLiving self.new.world }
        ensures read_cause { Causes (result ≡ StepEnd.ReadFault) (I.faults input.old) (I.faults input.new) }
        ensures write_cause { Causes (result ≡ StepEnd.WriteFault) (O.faults output.old) (O.faults output.new) }
        ensures errors_cause { Causes (result ≡ StepEnd.ErrorsFault) (E.faults errors.old) (E.faults errors.new) }
        ensures read_named { result ≡ StepEnd.ReadFault → NamesRead (last_machine self.new.world).core }
        ensures write_named { result ≡ StepEnd.WriteFault → MakesWrite (last_machine self.new.world) 1 }
        ensures errors_named { result ≡ StepEnd.ErrorsFault → MakesWrite (last_machine self.new.world) 2 }
        ensures output_kept { (result ≡ StepEnd.ReadFault) ⊎ (result ≡ StepEnd.ErrorsFault) → output.new ≡ output.old }
        ensures errors_kept { (result ≡ StepEnd.ReadFault) ⊎ (result ≡ StepEnd.WriteFault) → errors.new ≡ errors.old }
    {
        self.bring(k);
        let calls = self.is_calling();
        match self.call(calls) {
            Some(end) => {
                self.empty_monitors();
                end
            }
            None => self.step(calls, input, output, errors),
        }
    }

    /// Whether the next step of the context whose registers the machine has makes a call.
    fn is_calling(&mut self) -> bool
        ensures call { result
            ≡ model.makes_call (worlds.parts_with self.old.world (worlds.context self.old.world self.old.world.last)) }
        ensures unchanged { self.new ≡ self.old }
    {
        makes_call(&mut self.machine)
    }

    /// Takes the step of a machine alone, with the context whose registers the machine has. `calls` says whether it
    /// makes a call, which empties all monitors; any other step empties those of other contexts that it writes to.
    fn step<I: Source, O: Sink, E: Sink>(
        &mut self,
        calls: bool,
        input: &mut I,
        output: &mut O,
        errors: &mut E,
    ) -> StepEnd
        requires { IsCalling self.old }
        ensures state { Becomes (λ st. stepped_as calls st) self.old.world self.new.world (I.left input.old)
            (I.left input.new) (is_undone result) }
        ensures input { TakesWithin (λ st. stepped_as calls st) self.old.world (I.left input.old) (I.left input.new)
            (is_undone result) }
        ensures output { PutsAlways (λ st. (stepped_as calls st).output) self.old.world (O.held output.old)
            (O.held output.new) (is_undone result) }
        ensures errors { PutsAlways (λ st. (stepped_as calls st).errors) self.old.world (E.held errors.old)
            (E.held errors.new) (is_undone result) }
        ensures end { is_undone result ≡ false → result ≡ step_end self.new.world.ended }
        ensures counted { result ≡ StepEnd.Going → self.new.world.steps ≡ self.old.world.steps + 1 }
        ensures kept { is_undone result ≡ true
            → IsKept self.old.world self.new.world self.old.world.last (I.left input.old) (I.left input.new) }
        ensures failed { self.new.failed ≡ is_undone result }
        ensures last { self.new.world.last ≡ self.old.world.last }
        ensures living { is_undone result ≡ false → IsLiving self.new.world }
        ensures read_cause { Causes (result ≡ StepEnd.ReadFault) (I.faults input.old) (I.faults input.new) }
        ensures write_cause { Causes (result ≡ StepEnd.WriteFault) (O.faults output.old) (O.faults output.new) }
        ensures errors_cause { Causes (result ≡ StepEnd.ErrorsFault) (E.faults errors.old) (E.faults errors.new) }
        ensures read_named { result ≡ StepEnd.ReadFault → NamesRead (last_machine self.new.world).core }
        ensures write_named { result ≡ StepEnd.WriteFault → MakesWrite (last_machine self.new.world) 1 }
        ensures errors_named { result ≡ StepEnd.ErrorsFault → MakesWrite (last_machine self.new.world) 2 }
        ensures output_kept { (result ≡ StepEnd.ReadFault) ⊎ (result ≡ StepEnd.ErrorsFault) → output.new ≡ output.old }
        ensures errors_kept { (result ≡ StepEnd.ReadFault) ⊎ (result ≡ StepEnd.WriteFault) → errors.new ≡ errors.old }
    {
        let end = self.machine.step(input, output, errors);
        if is_fault(end) {
            return end;
        }
        if calls {
            self.empty_monitors();
            return end;
        }
        note_accesses(&mut self.contexts, self.machine.accesses());
        self.unwatched = false;
        end
    }
}

/// Whether a stream failed, so that the step wasn't done.
fn is_fault(end: StepEnd) -> bool
    ensures { result ≡ is_undone end }
{
    match end {
        StepEnd::Going | StepEnd::Exit(_) | StepEnd::Trap(_) => false,
        StepEnd::ReadFault | StepEnd::WriteFault | StepEnd::ErrorsFault => true,
    }
}
