//! The step of a call.
ghost use Rattle.std.specs.Prelude.{◌≡◌, ◌<◌, ◌⊎◌, ◌+◌, ◌-◌, ◌^◌, List, ℕ, true, false};
ghost use Rattle.io_gate.specs.Streams.{Causes};
ghost use Rattle.emu_system.specs.Start.{with_input};
ghost use Rattle.emu_system.specs.SystemCall.{action};
ghost use Rattle.linux_calls.specs.Ends.{OfInput, is_fault};
ghost use Rattle.linux_calls.specs.Names.{NamesRead, NamesWrite};
ghost use Rattle.emu_machine.specs.Ends.{
  step_end,
  step_by,
  left_by,
  is_undone,
  is_unput,
  Becomes,
  TakesWithin,
  PutsAlways,
  IsKept,
};
ghost use Rattle.emu_machine.specs.Machines.{call_made, has_ended};

use crate::ends::StepEnd;
use crate::machine::Machine;
use emu_model::Ended;
use io_gate::{Sink, Source};
use linux_calls::{CallEnd, call};

impl Machine {
    /// Makes the call whose number is in x8. It isn't inlined, so that a single step that makes none pays for none.
    #[inline(never)]
    pub(crate) fn call<I: Source, O: Sink, E: Sink>(
        &mut self,
        input: &mut I,
        output: &mut O,
        errors: &mut E,
    ) -> StepEnd
        requires going { has_ended self.old ≡ false }
        requires room { self.old.parts.steps < 2 ^ 64 - 1 }
        ensures state { Becomes call_made self.old.parts self.new.parts (I.left input.old) (I.left input.new)
            (is_undone result) }
        ensures machine { OfInput (action self.old.parts) (I.left input.old)
            (λ bytes. is_undone result ≡ false → self.new.parts ≡ (call_made (with_input self.old.parts bytes)).parts) }
        ensures input { TakesWithin call_made self.old.parts (I.left input.old) (I.left input.new) (is_undone result) }
        ensures output { PutsAlways (λ st. (call_made st).output) self.old.parts (O.held output.old) (O.held output.new)
            (is_undone result) }
        ensures errors { PutsAlways (λ st. (call_made st).errors) self.old.parts (E.held errors.old) (E.held errors.new)
            (is_undone result) }
        ensures end { is_undone result ≡ false → result ≡ step_end self.new.parts.ended }
        ensures ends { (bytes : List ℕ) → is_undone result ≡ false
            → result ≡ step_end (call_made (with_input self.old.parts bytes)).parts.ended }
        ensures counted { result ≡ StepEnd.Going → self.new.parts.steps ≡ self.old.parts.steps + 1 }
        ensures kept { is_undone result ≡ true
            → IsKept self.old.parts self.new.parts (I.left input.old) (I.left input.new) }
        ensures unstored { is_unput result ≡ true → self.new.parts ≡ self.old.parts }
        ensures accesses { self.new.accesses ≡ self.old.accesses }
        ensures failed { self.new.failed ≡ is_undone result }
        ensures marks { self.new.marks ≡ self.old.marks }
        ensures saved { self.new.saved ≡ self.old.saved }
        ensures read_cause { Causes (result ≡ StepEnd.ReadFault) (I.faults input.old) (I.faults input.new) }
        ensures write_cause { Causes (result ≡ StepEnd.WriteFault) (O.faults output.old) (O.faults output.new) }
        ensures errors_cause { Causes (result ≡ StepEnd.ErrorsFault) (E.faults errors.old) (E.faults errors.new) }
        ensures read_named { result ≡ StepEnd.ReadFault → NamesRead self.old.parts.core }
        ensures write_named { result ≡ StepEnd.WriteFault → NamesWrite self.old.parts.core 1 }
        ensures errors_named { result ≡ StepEnd.ErrorsFault → NamesWrite self.old.parts.core 2 }
        ensures output_kept { (result ≡ StepEnd.ReadFault) ⊎ (result ≡ StepEnd.ErrorsFault) → output.new ≡ output.old }
        ensures errors_kept { (result ≡ StepEnd.ReadFault) ⊎ (result ≡ StepEnd.WriteFault) → errors.new ≡ errors.old }
    {
        let end = call(
            &mut *self.running.core,
            &mut *self.running.vec,
            &mut self.running.memory,
            &mut self.running.brk,
            input,
            output,
            errors,
        );
        self.leave(end)
    }

    /// Goes on behind a call by how it ended.
    fn leave(&mut self, end: CallEnd) -> StepEnd
        requires going { has_ended self.old ≡ false }
        requires room { self.old.parts.steps < 2 ^ 64 - 1 }
        ensures parts { self.new.parts ≡ left_by end self.old.parts }
        ensures accesses { self.new.accesses ≡ self.old.accesses }
        ensures failed { self.new.failed ≡ is_fault end }
        ensures marks { self.new.marks ≡ self.old.marks }
        ensures saved { self.new.saved ≡ self.old.saved }
        ensures end { result ≡ step_by end }
    {
        match end {
            CallEnd::Returned => {
                let next = self.running.core.pc().wrapping_add(4);
                self.running.go_on(next);
                StepEnd::Going
            }
            CallEnd::Exit(code) => {
                self.running.steps += 1;
                self.running.ended = Some(Ended::Exit(code));
                StepEnd::Exit(code)
            }
            CallEnd::ReadFault => {
                self.running.failed = true;
                StepEnd::ReadFault
            }
            CallEnd::WriteFault => {
                self.running.failed = true;
                StepEnd::WriteFault
            }
            CallEnd::ErrorsFault => {
                self.running.failed = true;
                StepEnd::ErrorsFault
            }
        }
    }
}
