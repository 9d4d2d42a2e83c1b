//! What a step works on: the machine as it runs, and its step.
ghost use Rattle.std.specs.Prelude.{◌≡◌, ◌<◌, ◌+◌, ◌-◌, ◌^◌, List, [], ℕ, ⊤, Some, None, true, false, length};
ghost use Rattle.emu_bits.specs.Fields.{field};
ghost use Rattle.emu_model.specs.SoundState.{IsSoundBreak};
ghost use Rattle.emu_run.specs.Step as model;
ghost use Rattle.emu_system.specs.SystemCall.{call, quiet, went_on};
ghost use Rattle.emu_machine.specs.Advances.{Advances, EndsBy, MatchCall, left_by_effect, progress_by};
ghost use Rattle.emu_machine.specs.InTurns.{AdvancesInTurns, turn_of};
ghost use Rattle.guest_contexts.specs.Begins.{IsTurn, begins_next};
ghost use Rattle.emu_machine.specs.Machines.{has_ended, is_at_call, is_svc, makes_call};

use crate::ends::Progress;
use crate::saved::Saved;
use a64_flow::tried;
use core_regs::{Core, Effect};
use emu_model::{Break, Ended, Kind, Trap, TrapKind};
use guest_contexts::{Context, Turn, begin_next};
use guest_mem::{AccessLog, Mem};
use insn_decode::{DecodedWords, KnownOperations, decode_a64_word, may_be_sve};
use insn_exec::{perform_a64, perform_sve};
use std::marker::Model;
use vec_regs::VecRegs;

/// A machine, but for the slice of its accesses. Contracts see it as they see the machine.
#[derive(Drop)]
pub(crate) struct Running {
    // first, so that its address is the machine's, and a step needs one register of the host for both
    pub(crate) memory: Mem,
    // in boxes, so that they can be exchanged and moved as they are
    pub(crate) core: Box<Core>,
    pub(crate) vec: Box<VecRegs>,
    pub(crate) log: AccessLog,
    // no part of what contracts see: a step does the same whatever it has
    pub(crate) words: DecodedWords,
    pub(crate) operations: KnownOperations,
    pub(crate) brk: Break,
    pub(crate) steps: u64,
    pub(crate) ended: Option<Ended>,
    pub(crate) failed: bool,
    // none, or sixteen
    pub(crate) saved: Vec<Saved>,
}

impl Model for Running {
    ghost use Rattle.emu_machine.specs.Machines.{MachineState, coded_machine};

    ghost Value = { MachineState };

    ghost coded = { coded_machine };

    ghost view = { λ a. record {
      parts = record {
        core = a.core.value;
        vectors = a.vec.value;
        memory = a.memory.memory;
        brk = a.brk;
        steps = a.steps;
        ended = a.ended;
      };
      accesses = a.log.items;
      failed = a.failed;
      marks = a.memory.marks;
      saved = a.saved.items;
      spare = a.memory.spare;
    } };

    ghost use Rattle.emu_model.specs.SoundState.{IsSoundBreak};

    ghost invariant = { λ a. IsSoundBreak a.brk };
}

impl Running {
    /// Ends by a trap, with no step counted.
    #[cold]
    #[inline(never)]
    fn trap(&mut self, kind: TrapKind, address: u64) -> Progress
        ensures parts { self.new.parts ≡ model.trapped self.old.parts kind address }
        ensures accesses { self.new.accesses ≡ self.old.accesses }
        ensures failed { self.new.failed ≡ self.old.failed }
        ensures marks { self.new.marks ≡ self.old.marks }
        ensures saved { self.new.saved ≡ self.old.saved }
        ensures progress { result ≡ Progress.Trapped }
    {
        self.ended = Some(Ended::Trap(Trap { kind, address }));
        Progress::Trapped
    }

    /// Goes on at an address, and counts the step.
    pub(crate) fn go_on(&mut self, address: u64)
        requires { self.old.parts.steps < 2 ^ 64 - 1 }
        ensures parts { self.new.parts
            ≡ went_on self.old.parts self.old.parts.core self.old.parts.vectors self.old.parts.memory address }
        ensures accesses { self.new.accesses ≡ self.old.accesses }
        ensures failed { self.new.failed ≡ self.old.failed }
        ensures marks { self.new.marks ≡ self.old.marks }
        ensures saved { self.new.saved ≡ self.old.saved }
        ensures spare { self.new.spare ≡ self.old.spare }
    {
        self.core.set_pc(address);
        self.steps += 1;
    }

    /// Goes on behind an instruction by its effect: there or where it branched, or by its trap. A call isn't made.
    #[inline(always)]
    fn leave_insn(&mut self, effect: Effect) -> Progress
        requires { self.old.parts.steps < 2 ^ 64 - 1 }
        ensures parts { self.new.parts ≡ left_by_effect effect self.old.parts }
        ensures accesses { self.new.accesses ≡ self.old.accesses }
        ensures failed { self.new.failed ≡ self.old.failed }
        ensures marks { self.new.marks ≡ self.old.marks }
        ensures saved { self.new.saved ≡ self.old.saved }
        ensures progress { result ≡ progress_by effect }
    {
        match effect {
            Effect::Next => {
                let next = self.core.pc().wrapping_add(4);
                self.go_on(next);
                Progress::GoesOn
            }
            Effect::Branch(target) => {
                self.go_on(target);
                Progress::GoesOn
            }
            Effect::Trap(trap) => self.trap(trap.kind, trap.address),
            Effect::Call => Progress::AtCall,
        }
    }

    /// A step that makes no call. At a call nothing is changed but the number of spare frames, of which nothing is
    /// said.
    #[inline(always)]
    fn plain(&mut self) -> Progress
        requires going { has_ended self.old ≡ false }
        requires room { self.old.parts.steps < 2 ^ 64 - 1 }
        requires clear { self.old.accesses ≡ [] }
        ensures turn { MatchCall result ((input : List ℕ) → model.step_from self.old.parts input ≡ call self.old.parts input)
            ((input : List ℕ) → model.step_from self.old.parts input ≡ quiet self.new.parts input) }
        ensures kept { MatchCall result (self.new ≡ record self.old { spare = self.new.spare })
            (self.new.failed ≡ false) }
        ensures svc { result ≡ Progress.AtCall → is_at_call self.old.parts ≡ true }
        ensures alone { MatchCall result ⊤ (makes_call self.old.parts ≡ false) }
        ensures ended { EndsBy result self.new.parts }
        ensures counted { result ≡ Progress.GoesOn → self.new.parts.steps ≡ self.old.parts.steps + 1 }
        ensures accesses { self.new.accesses ≡ model.accesses self.old.parts }
        ensures marks { self.new.marks ≡ self.old.marks }
        ensures saved { self.new.saved ≡ self.old.saved }
    {
        let pc = self.core.pc();
        if pc % 4 != 0 {
            return self.trap(TrapKind::PcAlign, pc);
        }
        let word = match self.memory.load(pc, 4, Kind::Fetch) {
            Err(denied) => return self.trap(TrapKind::Fetch, denied.address),
            Ok(word) => word as u32,
        };
        if may_be_sve(word) {
            return self.vector(word);
        }
        self.by_word(word)
    }

    /// Does the instruction of a word that isn't in a row of SVE: by its operation where that is done at once, else by
    /// its form.
    #[inline(always)]
    fn by_word(&mut self, word: u32) -> Progress
        requires going { has_ended self.old ≡ false }
        requires room { self.old.parts.steps < 2 ^ 64 - 1 }
        requires clear { self.old.accesses ≡ [] }
        requires word { ¬ (field word 27 2 ≡ 0) }
        ensures turn { MatchCall result
            ((input : List ℕ) → model.executed self.old.parts input (model.decode word) ≡ call self.old.parts input)
            ((input : List ℕ) → model.executed self.old.parts input (model.decode word) ≡ quiet self.new.parts input) }
        ensures kept { MatchCall result (self.new ≡ record self.old { spare = self.new.spare })
            (self.new.failed ≡ false) }
        ensures svc { result ≡ Progress.AtCall → is_svc (model.decode word) ≡ true }
        ensures alone { MatchCall result ⊤ (is_svc (model.decode word) ≡ false) }
        ensures ended { EndsBy result self.new.parts }
        ensures counted { result ≡ Progress.GoesOn → self.new.parts.steps ≡ self.old.parts.steps + 1 }
        ensures accesses { self.new.accesses ≡ model.executed_accesses self.old.parts (model.decode word) }
        ensures marks { self.new.marks ≡ self.old.marks }
        ensures saved { self.new.saved ≡ self.old.saved }
    {
        let pc = self.core.pc();
        match tried(
            &mut *self.core,
            &mut self.memory,
            &mut self.log,
            self.operations.find(pc, word),
        ) {
            Some(effect) => self.leave_insn(effect),
            None => self.by_form(word),
        }
    }

    /// The same by its form. It isn't inlined, so that no form of A64 is in the loop.
    #[inline(never)]
    fn by_form(&mut self, word: u32) -> Progress
        requires going { has_ended self.old ≡ false }
        requires room { self.old.parts.steps < 2 ^ 64 - 1 }
        requires clear { self.old.accesses ≡ [] }
        requires word { ¬ (field word 27 2 ≡ 0) }
        ensures turn { MatchCall result
            ((input : List ℕ) → model.executed self.old.parts input (model.decode word) ≡ call self.old.parts input)
            ((input : List ℕ) → model.executed self.old.parts input (model.decode word) ≡ quiet self.new.parts input) }
        ensures kept { MatchCall result (self.new ≡ record self.old { spare = self.new.spare })
            (self.new.failed ≡ false) }
        ensures svc { result ≡ Progress.AtCall → is_svc (model.decode word) ≡ true }
        ensures alone { MatchCall result ⊤ (is_svc (model.decode word) ≡ false) }
        ensures ended { EndsBy result self.new.parts }
        ensures counted { result ≡ Progress.GoesOn → self.new.parts.steps ≡ self.old.parts.steps + 1 }
        ensures accesses { self.new.accesses ≡ model.executed_accesses self.old.parts (model.decode word) }
        ensures marks { self.new.marks ≡ self.old.marks }
        ensures saved { self.new.saved ≡ self.old.saved }
    {
        match decode_a64_word::<Running>(word) {
            None => {
                let pc = self.core.pc();
                self.trap(TrapKind::Undefined, pc)
            }
            Some(insn) => {
                let effect = perform_a64(
                    &mut *self.core,
                    &mut *self.vec,
                    &mut self.memory,
                    &mut self.log,
                    &insn,
                );
                self.leave_insn(effect)
            }
        }
    }

    /// Does the instruction of a word that may be in a row of SVE. It is inlined, with all that leads to the function
    /// of the row.
    #[inline(always)]
    fn vector(&mut self, word: u32) -> Progress
        requires going { has_ended self.old ≡ false }
        requires room { self.old.parts.steps < 2 ^ 64 - 1 }
        requires clear { self.old.accesses ≡ [] }
        requires word { field word 27 2 ≡ 0 }
        ensures turn { MatchCall result
            ((input : List ℕ) → model.executed self.old.parts input (model.decode word) ≡ call self.old.parts input)
            ((input : List ℕ) → model.executed self.old.parts input (model.decode word) ≡ quiet self.new.parts input) }
        ensures kept { MatchCall result (self.new ≡ record self.old { spare = self.new.spare })
            (self.new.failed ≡ false) }
        ensures svc { result ≡ Progress.AtCall → is_svc (model.decode word) ≡ true }
        ensures alone { MatchCall result ⊤ (is_svc (model.decode word) ≡ false) }
        ensures ended { EndsBy result self.new.parts }
        ensures counted { result ≡ Progress.GoesOn → self.new.parts.steps ≡ self.old.parts.steps + 1 }
        ensures accesses { self.new.accesses ≡ model.executed_accesses self.old.parts (model.decode word) }
        ensures marks { self.new.marks ≡ self.old.marks }
        ensures saved { self.new.saved ≡ self.old.saved }
    {
        match self.words.find(word) {
            None => {
                let pc = self.core.pc();
                self.trap(TrapKind::Undefined, pc)
            }
            Some(insn) => {
                let effect = perform_sve(
                    &mut *self.core,
                    &mut *self.vec,
                    &mut self.memory,
                    &mut self.log,
                    insn,
                );
                self.leave_insn(effect)
            }
        }
    }

    /// Takes steps until the next one makes a call, `until` steps are counted in all, or one ends the machine. It is
    /// compiled into its one caller.
    #[inline(always)]
    pub(crate) fn take_steps(&mut self, until: u64) -> Progress
        requires going { has_ended self.old ≡ false }
        requires within { self.old.parts.steps < until }
        ensures steps { Advances until self.old self.new result }
        ensures failed { self.new.failed ≡ false }
        ensures marks { self.new.marks ≡ self.old.marks }
        ensures saved { self.new.saved ≡ self.old.saved }
        ensures going { MatchCall result (has_ended self.new ≡ false) ⊤ }
        ensures below { MatchCall result (self.new.parts.steps < until) ⊤ }
    {
        // what is asked of the number is asked behind the step, so that no answer of it is kept to the next one
        loop {
            self.log.clear();
            match self.plain() {
                Progress::GoesOn => {}
                Progress::Trapped => return Progress::Trapped,
                Progress::AtCall => return Progress::AtCall,
            }
            if self.steps >= until {
                return Progress::GoesOn;
            }
        }
    }

    /// Takes steps under a schedule, turn after turn: until the next one makes a call, one ends the machine, or a turn
    /// is used up and the next one isn't begun. It is compiled into its one caller.
    #[inline(always)]
    pub(crate) fn take_turns(
        &mut self,
        schedule: &[(u64, u64)],
        numbers: &[usize],
        contexts: &mut [Context],
        turn: &mut Turn,
    ) -> Progress
        requires going { has_ended self.old ≡ false }
        requires within { self.old.parts.steps < turn.old.until }
        requires turn { 0 < length schedule.now → IsTurn schedule.now numbers.now contexts.old turn.old }
        ensures steps { AdvancesInTurns schedule.now numbers.now
            (record { machine = self.old; turn = turn.old; contexts = contexts.old })
            (record { machine = self.new; turn = turn.new; contexts = contexts.new }) result }
        ensures stopped { result ≡ Progress.GoesOn → begins_next schedule.now numbers.now
            (turn_of (record { machine = self.new; turn = turn.new; contexts = contexts.new })) ≡ false }
        ensures turn { 0 < length schedule.now → IsTurn schedule.now numbers.now contexts.new turn.new }
        ensures count { length contexts.new ≡ length contexts.old }
        ensures failed { self.new.failed ≡ false }
        ensures marks { self.new.marks ≡ self.old.marks }
        ensures saved { self.new.saved ≡ self.old.saved }
        ensures going { MatchCall result (has_ended self.new ≡ false) ⊤ }
        ensures below { MatchCall result (self.new.parts.steps < turn.new.until) ⊤ }
    {
        loop {
            match self.take_steps(turn.until) {
                Progress::GoesOn => {}
                Progress::Trapped => return Progress::Trapped,
                Progress::AtCall => return Progress::AtCall,
            }
            if !begin_next(
                schedule,
                numbers,
                contexts,
                turn,
                &mut self.core,
                &mut self.vec,
            ) {
                return Progress::GoesOn;
            }
        }
    }
}
