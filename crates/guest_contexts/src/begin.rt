//! The turn of a schedule that begins behind one that is used up, and the exchange of registers that it asks for.
ghost use Rattle.std.specs.Prelude.{◌≡◌, ◌<◌, ◌≤◌, ◌+◌, MatchBool, MatchOption, get_or, length, set};
ghost use Rattle.guest_contexts.specs.Begins.{Begins, IsTurn, begins_next};
ghost use Rattle.emu_run.specs.Threads as model;
ghost use Rattle.emu_run.specs.Worlds as worlds;

use crate::context::Context;
use crate::turns::place_among;
use core_regs::Core;
use vec_regs::VecRegs;

/// The turn that a run under a schedule is in.
#[derive(Clone, Copy)]
pub struct Turn {
    /// Its place in the schedule.
    pub place: usize,
    /// The context that takes its steps.
    pub context: usize,
    /// The context of the step before its first one.
    pub before: usize,
    /// The number of steps that are counted in all when it is used up.
    pub until: u64,
    /// The number of steps that are counted in all when the run ends.
    pub budget: u64,
}

impl Turn {
    /// The steps of a machine alone, until so many are counted in all.
    #[inline(always)]
    pub fn alone(until: u64) -> Turn
        ensures { result ≡ record { place = 0; context = 0; before = 0; until = until; budget = until } }
    {
        Turn {
            place: 0,
            context: 0,
            before: 0,
            until,
            budget: until,
        }
    }
}

/// The place of the turn behind a turn.
#[inline(always)]
pub fn next_turn(turns: &[(u64, u64)], turn: usize) -> usize
    requires { turn < length turns.now }
    ensures is { result ≡ model.next_turn turns.now turn }
    ensures within { result < length turns.now }
{
    let next = turn + 1;
    if next == turns.len() {
        return 0;
    }
    next
}

/// The number of steps that are counted in all when a turn that begins is used up. None exactly where that is more than
/// the budget.
#[inline(always)]
pub fn turn_end(turns: &[(u64, u64)], turn: usize, steps: u64, budget: u64) -> Option<u64>
    requires turn { turn < length turns.now }
    requires within { steps ≤ budget }
    ensures { MatchOption result (budget < steps + (model.turn_at turns.now turn).1)
        (λ until. (until ≡ steps + (model.turn_at turns.now turn).1) × (until ≤ budget)) }
{
    let more = turns[turn].1;
    if budget - steps < more {
        return None;
    }
    Some(steps + more)
}

/// Exchanges registers with those of the context at a place, by their boxes alone.
#[inline(always)]
pub fn exchange(core: &mut Box<Core>, vec: &mut Box<VecRegs>, contexts: &mut [Context], k: usize)
    requires { k < length contexts.old }
    ensures core { core.new.value ≡ (get_or contexts.old k worlds.no_context).core }
    ensures vec { vec.new.value ≡ (get_or contexts.old k worlds.no_context).vectors }
    ensures contexts { contexts.new
        ≡ set contexts.old k (record (get_or contexts.old k worlds.no_context)
        { core = core.old.value; vectors = vec.old.value }) }
{
    let context = &mut contexts[k];
    std::mem::swap(core, &mut context.core);
    std::mem::swap(vec, &mut context.vec);
}

/// Begins the turn behind one that is used up: the machine gets the registers of its context, and those that it had go
/// back to theirs. Nothing is begun, and nothing changed, exactly where there is no schedule, no context is ready, the
/// turn doesn't end within the budget, or another context follows one that has a monitor.
#[inline(always)]
pub fn begin_next(
    schedule: &[(u64, u64)],
    numbers: &[usize],
    contexts: &mut [Context],
    turn: &mut Turn,
    core: &mut Box<Core>,
    vec: &mut Box<VecRegs>,
) -> bool
    requires { 0 < length schedule.now → IsTurn schedule.now numbers.now contexts.old turn.old }
    ensures begins { result ≡ begins_next schedule.now numbers.now (record {
      turn = turn.old;
      core = core.old.value;
      vectors = vec.old.value;
      contexts = contexts.old;
    }) }
    ensures turn { MatchBool result
        (Begins schedule.now numbers.now
        (record { turn = turn.old; core = core.old.value; vectors = vec.old.value; contexts = contexts.old })
        (record { turn = turn.new; core = core.new.value; vectors = vec.new.value; contexts = contexts.new }))
        ((turn.new ≡ turn.old) × (core.new ≡ core.old) × (vec.new ≡ vec.old) × (contexts.new ≡ contexts.old)) }
{
    if schedule.is_empty() {
        return false;
    }
    let place = next_turn(schedule, turn.place);
    let Some(until) = turn_end(schedule, place, turn.until, turn.budget) else {
        return false;
    };
    let Some(at) = place_among(schedule[place].0, numbers.len() as u64) else {
        return false;
    };
    let k = numbers[at as usize];
    let last = turn.context;
    if k != last {
        if core.monitor().is_some() {
            return false;
        }
        exchange(core, vec, contexts, last);
        exchange(core, vec, contexts, k);
    }
    *turn = Turn {
        place,
        context: k,
        before: last,
        until,
        budget: turn.budget,
    };
    true
}
