//! The machine, its step and its run.
ghost use Rattle.std.specs.Prelude.{
  ◌≡◌,
  ◌<◌,
  ◌≤◌,
  ◌⊎◌,
  ◌+◌,
  ◌-◌,
  ◌^◌,
  List,
  [],
  ℕ,
  ⊤,
  IfSome,
  Some,
  None,
  is_none,
  true,
  false,
  length,
};
ghost use Rattle.io_gate.specs.Streams.{Causes};
ghost use Rattle.emu_model.specs.SoundState.{IsSoundBreak};
ghost use Rattle.emu_system.specs.Start.{with_input};
ghost use Rattle.emu_run.specs.Run as runs;
ghost use Rattle.emu_run.specs.Step as model;
ghost use Rattle.emu_system.specs.SystemCall.{call, quiet};
ghost use Rattle.emu_machine.specs.Accesses.{run_accesses};
ghost use Rattle.emu_machine.specs.Advances.{Advances, EndsBy, MatchCall};
ghost use Rattle.emu_machine.specs.InTurns.{AdvancesInTurns, turn_of};
ghost use Rattle.guest_contexts.specs.Begins.{IsTurn, begins_next};
ghost use Rattle.linux_calls.specs.Names.{NamesRead};
ghost use Rattle.emu_machine.specs.Ends.{
  step_end,
  run_end,
  run_end_of,
  is_undone,
  is_unput,
  is_broken_off,
  Becomes,
  OfStep,
  TakesWithin,
  Puts,
  PutsAlways,
  IsKept,
};
ghost use Rattle.emu_machine.specs.Machines.{has_ended, is_at_call, MakesRead, MakesWrite};

use crate::ends::{Progress, RunEnd, StepEnd, run_end_of, step_end};
use crate::registers::Registers;
use crate::running::Running;
use crate::saved::Saved;
use core_regs::Core;
use emu_model::{Break, Ended};
use guest_contexts::{Context, Turn};
use guest_mem::{Access, AccessList, AccessLog, Mem};
use io_gate::{Sink, Source};
use std::marker::Model;
use vec_regs::VecRegs;

/// A machine. Contracts see its parts, the accesses of its last step and whether a stream has failed in one of its
/// steps; and beside these its marks, what they keep beside their pages, and the number of spare frames.
#[derive(Drop)]
pub struct Machine {
    // first, so that both have one address
    pub(crate) running: Running,
    // the accesses of its log, from where the loop of steps was left
    pub(crate) shown: AccessList,
}

impl Model for Machine {
    ghost use Rattle.std.specs.Prelude.{◌≡◌};
    ghost use Rattle.emu_machine.specs.Machines.{MachineState, coded_machine};

    ghost Value = { MachineState };

    ghost coded = { coded_machine };

    ghost view = { λ a. a.running };

    ghost invariant = { λ a. a.shown.items ≡ a.running.accesses };
}

impl Machine {
    /// A machine before its first step.
    #[inline(always)]
    pub(crate) fn at_start(
        registers: Registers,
        memory: Mem,
        brk: Break,
        saved: Vec<Saved>,
    ) -> Machine
        requires { IsSoundBreak brk }
        ensures { result ≡ record {
          parts = record {
            core = registers.core.value;
            vectors = registers.vec.value;
            memory = memory.memory;
            brk = brk;
            steps = 0;
            ended = None;
          };
          accesses = [];
          failed = false;
          marks = memory.marks;
          saved = saved.items;
          spare = memory.spare;
        } }
    {
        let Registers {
            core,
            vec,
            words,
            operations,
            mut shown,
        } = registers;
        shown.clear();
        Machine {
            running: Running {
                memory,
                core,
                vec,
                log: AccessLog::new(),
                words,
                operations,
                brk,
                steps: 0,
                ended: None,
                failed: false,
                saved,
            },
            shown,
        }
    }

    /// Whether the machine has ended: by an exit, a trap or a fault of a stream.
    pub fn ended(&self) -> bool
        ensures { result ≡ has_ended self.now }
    {
        self.running.ended.is_some() || self.running.failed
    }

    /// How the machine ended. None exactly where neither an exit nor a trap ended it.
    pub fn ending(&self) -> Option<Ended>
        ensures { result ≡ self.now.parts.ended }
    {
        self.running.ended
    }

    /// The number of steps that were counted: each but those that trapped or failed.
    pub fn steps(&self) -> u64
        ensures { result ≡ self.now.parts.steps }
    {
        self.running.steps
    }

    /// The scalar registers.
    pub fn core(&self) -> &Core
        ensures { result.now ≡ self.now.parts.core }
    {
        &self.running.core
    }

    /// The vector registers, of the machine's vector length.
    pub fn vec(&self) -> &VecRegs
        ensures { result.now ≡ self.now.parts.vectors }
    {
        &self.running.vec
    }

    /// The memory, with its marks.
    pub fn mem(&self) -> &Mem
        ensures { result.now
            ≡ record { memory = self.now.parts.memory; marks = self.now.marks; spare = self.now.spare } }
    {
        &self.running.memory
    }

    /// The elements that the last step loaded or stored, in order: their addresses and numbers of bytes. Empty before
    /// the first step, and after a call.
    pub fn accesses(&self) -> &[Access]
        ensures { result.now ≡ self.now.accesses }
    {
        self.shown.as_slice()
    }

    /// Takes one step: the word at the program counter is fetched and decoded, and its instruction is done. The marks
    /// and what they keep stay, whatever it answers.
    ///
    /// What a step that is done makes of the machine rests on the input only at a call that takes bytes of it, and how
    /// it ends never does. `Going` and `Exit` count the step, and `Trap` doesn't. A fault of a stream is answered
    /// exactly where that stream failed, and the machine has then ended with the step not done: it is as before, but
    /// that bytes which the call took are stored, and a sink that didn't fail has what it had. No step wants memory.
    /// The accesses are those of this step whatever it answers: a trap leaves those of the elements before the one that
    /// was refused, and a call leaves none.
    pub fn step<I: Source, O: Sink, E: Sink>(
        &mut self,
        input: &mut I,
        output: &mut O,
        errors: &mut E,
    ) -> StepEnd
        requires going { has_ended self.old ≡ false }
        requires room { self.old.parts.steps < 2 ^ 64 - 1 }
        ensures state { Becomes model.step self.old.parts self.new.parts (I.left input.old) (I.left input.new)
            (is_undone result) }
        ensures machine { OfStep self.old.parts (I.left input.old) (λ bytes. is_undone result ≡ false
            → self.new.parts ≡ (model.step (with_input self.old.parts bytes)).parts) }
        ensures input { TakesWithin model.step self.old.parts (I.left input.old) (I.left input.new) (is_undone result) }
        ensures output { PutsAlways
            (λ st. (model.step st).output) self.old.parts (O.held output.old) (O.held output.new) (is_undone result) }
        ensures errors { PutsAlways
            (λ st. (model.step st).errors) self.old.parts (E.held errors.old) (E.held errors.new) (is_undone result) }
        ensures end { is_undone result ≡ false → result ≡ step_end self.new.parts.ended }
        ensures ends { (bytes : List ℕ) → is_undone result ≡ false
            → result ≡ step_end (model.step (with_input self.old.parts bytes)).parts.ended }
        ensures counted { result ≡ StepEnd.Going → self.new.parts.steps ≡ self.old.parts.steps + 1 }
        ensures kept { is_undone result ≡ true
            → IsKept self.old.parts self.new.parts (I.left input.old) (I.left input.new) }
        ensures unstored { is_unput result ≡ true → self.new.parts ≡ self.old.parts }
        ensures accesses { self.new.accesses ≡ model.accesses self.old.parts }
        ensures undone { is_undone result ≡ true → self.new.accesses ≡ [] }
        ensures failed { self.new.failed ≡ is_undone result }
        ensures marks { self.new.marks ≡ self.old.marks }
        ensures saved { self.new.saved ≡ self.old.saved }
        ensures read_cause { Causes (result ≡ StepEnd.ReadFault) (I.faults input.old) (I.faults input.new) }
        ensures write_cause { Causes (result ≡ StepEnd.WriteFault) (O.faults output.old) (O.faults output.new) }
        ensures errors_cause { Causes (result ≡ StepEnd.ErrorsFault) (E.faults errors.old) (E.faults errors.new) }
        ensures read_named { result ≡ StepEnd.ReadFault → MakesRead self.old.parts }
        ensures write_named { result ≡ StepEnd.WriteFault → MakesWrite self.old.parts 1 }
        ensures errors_named { result ≡ StepEnd.ErrorsFault → MakesWrite self.old.parts 2 }
        ensures output_kept { (result ≡ StepEnd.ReadFault) ⊎ (result ≡ StepEnd.ErrorsFault) → output.new ≡ output.old }
        ensures errors_kept { (result ≡ StepEnd.ReadFault) ⊎ (result ≡ StepEnd.WriteFault) → errors.new ≡ errors.old }
    {
        match self.once() {
            Progress::AtCall => self.call(input, output, errors),
            _ => step_end(self.ending()),
        }
    }

    /// Takes steps until the next one makes a call, `until` steps are counted in all, or one ends the machine.
    pub fn advance(&mut self, until: u64) -> Progress
        requires going { has_ended self.old ≡ false }
        requires within { self.old.parts.steps < until }
        ensures steps { Advances until self.old self.new result }
        ensures failed { self.new.failed ≡ false }
        ensures marks { self.new.marks ≡ self.old.marks }
        ensures saved { self.new.saved ≡ self.old.saved }
        ensures going { MatchCall result (has_ended self.new ≡ false) ⊤ }
        ensures below { MatchCall result (self.new.parts.steps < until) ⊤ }
    {
        let mut turn = Turn::alone(until);
        self.advance_in_turns(&[], &[], &mut [], &mut turn)
    }

    /// Takes steps under a schedule, turn after turn: until the next one makes a call, one ends the machine, or a turn
    /// is used up and the next one isn't begun. The machine has the registers of the turn's context, and `contexts`
    /// those of all others; `numbers` are those of the contexts that are ready. It is the one loop of all runs: with
    /// no schedule it takes the steps of a turn alone.
    #[inline(never)]
    pub fn advance_in_turns(
        &mut self,
        schedule: &[(u64, u64)],
        numbers: &[usize],
        contexts: &mut [Context],
        turn: &mut Turn,
    ) -> Progress
        requires going { has_ended self.old ≡ false }
        requires within { self.old.parts.steps < turn.old.until }
        requires turn { 0 < length schedule.now → IsTurn schedule.now numbers.now contexts.old turn.old }
        ensures steps { AdvancesInTurns schedule.now numbers.now
            (record { machine = self.old; turn = turn.old; contexts = contexts.old })
            (record { machine = self.new; turn = turn.new; contexts = contexts.new }) result }
        ensures stopped { result ≡ Progress.GoesOn → begins_next schedule.now numbers.now
            (turn_of (record { machine = self.new; turn = turn.new; contexts = contexts.new })) ≡ false }
        ensures turn { 0 < length schedule.now → IsTurn schedule.now numbers.now contexts.new turn.new }
        ensures count { length contexts.new ≡ length contexts.old }
        ensures failed { self.new.failed ≡ false }
        ensures marks { self.new.marks ≡ self.old.marks }
        ensures saved { self.new.saved ≡ self.old.saved }
        ensures going { MatchCall result (has_ended self.new ≡ false) ⊤ }
        ensures below { MatchCall result (self.new.parts.steps < turn.new.until) ⊤ }
    {
        let progress = self.running.take_turns(schedule, numbers, contexts, turn);
        self.shown.set(&self.running.log);
        progress
    }

    /// A step that makes no call, with the log emptied. At a call nothing else is changed.
    fn once(&mut self) -> Progress
        requires going { has_ended self.old ≡ false }
        requires room { self.old.parts.steps < 2 ^ 64 - 1 }
        ensures turn { MatchCall result ((input : List ℕ) → model.step_from self.old.parts input ≡ call self.old.parts input)
            ((input : List ℕ) → model.step_from self.old.parts input ≡ quiet self.new.parts input) }
        ensures kept { MatchCall result (self.new.parts ≡ self.old.parts) ⊤ }
        ensures svc { result ≡ Progress.AtCall → is_at_call self.old.parts ≡ true }
        ensures ended { EndsBy result self.new.parts }
        ensures counted { result ≡ Progress.GoesOn → self.new.parts.steps ≡ self.old.parts.steps + 1 }
        ensures accesses { self.new.accesses ≡ model.accesses self.old.parts }
        ensures failed { self.new.failed ≡ false }
        ensures marks { self.new.marks ≡ self.old.marks }
        ensures saved { self.new.saved ≡ self.old.saved }
    {
        let steps = self.steps();
        self.advance(steps + 1)
    }

    /// Takes steps until the machine has ended or has counted `budget` steps in all, which is `Spent`.
    ///
    /// After a fault of a stream, which is answered exactly where that stream failed, the machine has ended. It then
    /// stands before the step that wasn't done: it is what a run with a budget of the steps counted so far leaves, but
    /// that bytes which the call took are stored. A sink that didn't fail has then all that these steps put. No run
    /// wants memory, and each leaves the marks. The accesses are those of the last step that was taken, done or not,
    /// and as before where none was.
    pub fn run<I: Source, O: Sink, E: Sink>(
        &mut self,
        budget: u64,
        input: &mut I,
        output: &mut O,
        errors: &mut E,
    ) -> RunEnd
        requires going { has_ended self.old ≡ false }
        requires within { self.old.parts.steps ≤ budget }
        ensures state { Becomes (λ st. runs.run st budget) self.old.parts self.new.parts (I.left input.old)
            (I.left input.new) (is_broken_off result) }
        ensures input { TakesWithin (λ st. runs.run st budget) self.old.parts (I.left input.old) (I.left input.new)
            (is_broken_off result) }
        ensures output { Puts (λ st. (runs.run st budget).output) self.old.parts (I.left input.old) (O.held output.old)
            (O.held output.new) (is_broken_off result) }
        ensures errors { Puts (λ st. (runs.run st budget).errors) self.old.parts (I.left input.old) (E.held errors.old)
            (E.held errors.new) (is_broken_off result) }
        ensures end { is_broken_off result ≡ false → result ≡ run_end self.new.parts.ended }
        ensures spent { result ≡ RunEnd.Spent → self.new.parts.steps ≡ budget }
        ensures accesses { IfSome (I.left input.old) (λ bytes. is_broken_off result ≡ false
            → self.new.accesses ≡ run_accesses self.old.accesses self.old.parts bytes budget) }
        ensures undone { is_broken_off result ≡ true → self.new.accesses ≡ [] }
        ensures kept { IfSome (I.left input.old) (λ bytes. is_broken_off result ≡ true
            → IsKept (runs.run (with_input self.old.parts bytes) self.new.parts.steps).parts self.new.parts
            (Some (runs.run (with_input self.old.parts bytes) self.new.parts.steps).input) (I.left input.new)) }
        ensures unspent { is_broken_off result ≡ true → self.new.parts.steps < budget }
        ensures unended { is_broken_off result ≡ true → is_none self.new.parts.ended ≡ true }
        ensures failed { self.new.failed ≡ is_broken_off result }
        ensures marks { self.new.marks ≡ self.old.marks }
        ensures saved { self.new.saved ≡ self.old.saved }
        ensures read_cause { Causes (result ≡ RunEnd.ReadFault) (I.faults input.old) (I.faults input.new) }
        ensures write_cause { Causes (result ≡ RunEnd.WriteFault) (O.faults output.old) (O.faults output.new) }
        ensures errors_cause { Causes (result ≡ RunEnd.ErrorsFault) (E.faults errors.old) (E.faults errors.new) }
        ensures read_named { result ≡ RunEnd.ReadFault → NamesRead self.new.parts.core }
        ensures write_named { result ≡ RunEnd.WriteFault → MakesWrite self.new.parts 1 }
        ensures errors_named { result ≡ RunEnd.ErrorsFault → MakesWrite self.new.parts 2 }
        ensures whole_output { (result ≡ RunEnd.ReadFault) ⊎ (result ≡ RunEnd.ErrorsFault)
            → Puts (λ st. (runs.run st self.new.parts.steps).output) self.old.parts (I.left input.old)
            (O.held output.old) (O.held output.new) false }
        ensures whole_errors { (result ≡ RunEnd.ReadFault) ⊎ (result ≡ RunEnd.WriteFault)
            → Puts (λ st. (runs.run st self.new.parts.steps).errors) self.old.parts (I.left input.old)
            (E.held errors.old) (E.held errors.new) false }
    {
        while self.steps() < budget {
            match self.advance(budget) {
                Progress::GoesOn => return RunEnd::Spent,
                Progress::Trapped => return run_end_of(step_end(self.ending())),
                Progress::AtCall => match self.step(input, output, errors) {
                    StepEnd::Going => {}
                    end => return run_end_of(end),
                },
            }
        }
        RunEnd::Spent
    }
}
