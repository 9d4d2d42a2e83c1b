//! A case: one step, and the state that it has to lead to.
use crate::digits::{number, small};
use crate::state::State;
use core_regs::Effect;
use guest_mem::AccessLog;
use insn_decode::{Insn, decode};
use insn_exec::{load_listed, perform};
use std::alloc::Global;
use vec_regs::Length;

/// A case as its line has it: the word, the vector length, and the items before and after the step.
#[derive(Clone, Copy)]
struct Case<'a> {
    word: u32,
    length: Length,
    before: &'a str,
    after: &'a str,
}

impl Case<'_> {
    /// The state before the step. None where there is no memory for it.
    fn first(&self, alloc: Global) -> Option<State> {
        State::read(alloc, self.word, self.length, self.before)
    }

    /// The state after the step: the one before it, with what differs.
    fn wanted(&self, alloc: Global) -> Option<State> {
        let mut state = self.first(alloc)?;
        let pc = state.core.pc();
        state.core.set_pc(pc.wrapping_add(4));
        state.set_all(self.after);
        if state.trap.is_some() {
            state.core.set_pc(pc);
        }
        Some(state)
    }
}

/// The case of a line, or none where its word or its length is none.
fn case_of(line: &str) -> Option<Case<'_>> {
    let mut columns = line.split('\t');
    let mut is_well = true;
    let word = number(columns.next().unwrap_or(""), &mut is_well);
    let bits = small(columns.next().unwrap_or(""), &mut is_well);
    let before = columns.next().unwrap_or("");
    let after = columns.next().unwrap_or("");
    match Length::of_bits(bits) {
        Some(length) if is_well && word < 1 << 32 => Some(Case {
            word: word as u32,
            length,
            before,
            after,
        }),
        _ => None,
    }
}

/// Does an instruction, counts the elements that it loads or stores, and goes on as it says.
fn step(state: &mut State, insn: &Insn) {
    let mut log = AccessLog::new();
    let (core, vec, memory) = (&mut state.core, &mut state.vec, &mut state.memory);
    let effect = perform(core, vec, memory, &mut log, insn);
    state.accesses = Some(log.len());
    go_on(state, effect);
}

/// Does a first-faulting or non-faulting load element by element, and goes on as it says; whether it is one.
fn step_listed(state: &mut State, insn: &Insn) -> bool {
    match insn {
        Insn::Sve(insn) if sve_ffr::is_own(insn) => {
            let (core, vec, memory) = (&mut state.core, &mut state.vec, &mut state.memory);
            let mut log = AccessLog::new();
            let effect = load_listed(core, vec, memory, &mut log, insn);
            state.accesses = Some(log.len());
            go_on(state, effect);
            true
        }
        _ => false,
    }
}

/// Goes on as an effect says. Of a call there is no case.
fn go_on(state: &mut State, effect: Effect) {
    let pc = state.core.pc();
    match effect {
        Effect::Next => state.core.set_pc(pc.wrapping_add(4)),
        Effect::Branch(target) => state.core.set_pc(target),
        Effect::Trap(trap) => state.trap = Some(trap),
        Effect::Call => state.is_well = false,
    }
}

/// Whether an instruction does what a case has, at once and element by element, from these states that are the same.
fn does(insn: &Insn, mut at_once: State, mut listed: State, wanted: &State) -> bool {
    step(&mut at_once, insn);
    let is_listed = step_listed(&mut listed, insn);
    at_once.is_same(wanted) && (!is_listed || listed.is_same(wanted))
}

/// The same of a case and the instruction that its word is. Not where memory is wanting.
fn holds(alloc: Global, case: &Case, insn: &Insn) -> bool {
    match (case.first(alloc), case.first(alloc), case.wanted(alloc)) {
        (Some(at_once), Some(listed), Some(wanted)) => does(insn, at_once, listed, &wanted),
        _ => false,
    }
}

/// Whether an instruction does what the case of a line has; false where the line is no case of an instruction that
/// makes no call.
pub fn agrees(alloc: Global, line: &str) -> bool {
    match case_of(line) {
        Some(case) => match decode(case.word) {
            Some(insn) => holds(alloc, &case, &insn),
            None => false,
        },
        None => false,
    }
}
