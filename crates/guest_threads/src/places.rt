//! Where a run is in its schedule.
ghost use Rattle.std.specs.Prelude.{◌≡◌, ◌<◌, ◌≤◌, ◌+◌, ◌-◌, ◌^◌, ◌⊎◌, MatchOption, length, true, false};
ghost use Rattle.guest_schedule.specs.Turns.{IsSchedule};
ghost use Rattle.guest_threads.specs.Ends.{IsPlace, IsPicked, IsReadyAt};
ghost use Rattle.emu_run.specs.Threads as model;
ghost use Rattle.emu_run.specs.Worlds as worlds;

use crate::held::Held;
use emu_run::SchedulePlace;
use guest_contexts::{next_turn, place_among};

/// The number of steps that are counted in all when the turn of a place, or the budget, is used up.
#[inline(always)]
pub(crate) fn turn_until(
    turns: &[(u64, u64)],
    place: &SchedulePlace,
    steps: u64,
    budget: u64,
) -> u64
    requires turn { place.now.turn < length turns.now }
    requires used { place.now.used < (model.turn_at turns.now place.now.turn).1 }
    requires below { steps < budget }
    ensures below { steps < result }
    ensures within { result ≤ budget }
    ensures turn { result + place.now.used ≤ steps + (model.turn_at turns.now place.now.turn).1 }
    ensures fits { place.now.used + (result - steps) < 2 ^ 64 }
{
    let left = turns[place.turn].1 - place.used;
    if left < budget - steps {
        return steps + left;
    }
    budget
}

/// The number of steps of a turn that are used up behind steps by which the count came from `before` to `after`.
#[inline(always)]
pub(crate) fn used_behind(used: u64, before: u64, after: u64) -> u64
    requires on { before ≤ after }
    requires fits { used + (after - before) < 2 ^ 64 }
    ensures { result ≡ used + (after - before) }
{
    used + (after - before)
}

impl Held {
    /// The context that takes the next step. None exactly where no context is ready.
    #[inline(always)]
    pub(crate) fn pick(&self, turns: &[(u64, u64)], place: &SchedulePlace) -> Option<usize>
        requires { IsPlace self.now.world turns.now place.now }
        ensures { MatchOption result (worlds.some_ready self.now.world ≡ false)
            (λ k. IsPicked self.now.world turns.now place.now k) }
    {
        if place.used != 0 {
            return Some(place.held);
        }
        let count = self.numbers.len() as u64;
        let Some(at) = place_among(turns[place.turn].0, count) else {
            return None;
        };
        Some(self.numbers[at as usize])
    }

    /// The place behind steps of a context, by which so many of its turn are used up.
    #[inline(always)]
    pub(crate) fn next_place(
        &self,
        turns: &[(u64, u64)],
        turn: usize,
        used: u64,
        k: usize,
    ) -> SchedulePlace
        requires turn { turn < length turns.now }
        requires some { 0 < used }
        requires most { used ≤ (model.turn_at turns.now turn).1 }
        requires context { k ≡ self.now.world.last }
        requires schedule { IsSchedule turns.now }
        ensures place { result
            ≡ model.next_place self.now.world turns.now (record { turn = turn; used = used - 1; held = k }) k }
        ensures is_place { IsPlace self.now.world turns.now result }
    {
        if self.is_over(turns, turn, used, k) {
            return SchedulePlace {
                turn: next_turn(turns, turn),
                used: 0,
                held: 0,
            };
        }
        SchedulePlace {
            turn,
            used,
            held: k,
        }
    }

    /// Whether a turn is over of which a context has used up so many steps.
    fn is_over(&self, turns: &[(u64, u64)], turn: usize, used: u64, k: usize) -> bool
        requires turn { turn < length turns.now }
        requires most { used ≤ (model.turn_at turns.now turn).1 }
        requires context { k ≡ self.now.world.last }
        ensures over { result ≡ true
            → (used ≡ (model.turn_at turns.now turn).1) ⊎ (worlds.is_ready (worlds.context self.now.world k) ≡ false) }
        ensures on { result ≡ false → used < (model.turn_at turns.now turn).1 }
        ensures ready { result ≡ false → IsReadyAt self.now.world k }
    {
        let steps = turns[turn].1;
        if used >= steps {
            return true;
        }
        !self.is_ready(k)
    }

    /// Whether the context whose registers the machine has is ready.
    fn is_ready(&self, k: usize) -> bool
        requires { k ≡ self.now.world.last }
        ensures ready { result ≡ worlds.is_ready (worlds.context self.now.world k) }
        ensures within { k < length self.now.world.contexts }
    {
        let context = &self.contexts[k];
        context.is_ready()
    }
}
