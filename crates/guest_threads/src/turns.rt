//! Whole turns of a schedule, one after the other, by the loop of the machine.
ghost use Rattle.std.specs.Prelude.{◌≡◌, ◌≤◌, ◌-◌, MatchOption, if◌then◌else◌, nat_eq, false};
ghost use Rattle.guest_schedule.specs.Turns.{IsSchedule};
ghost use Rattle.guest_threads.specs.Ends.{has_ended, IsPlace};
ghost use Rattle.guest_threads.specs.Quiet.{FollowsOn, FollowsToEnd, StopsWithin};
ghost use Rattle.emu_run.specs.Threads as model;
ghost use Rattle.emu_run.specs.Worlds as worlds;

use crate::held::Held;
use emu_machine::Progress;
use emu_run::SchedulePlace;
use guest_contexts::{Turn, next_turn, turn_end};

impl Held {
    /// Takes the steps of whole turns from the beginning of a turn on, and answers the place of the next step: while
    /// none of the contexts has a monitor, no step makes a call, and each turn ends within the budget. None exactly
    /// where a step ended the world.
    #[inline(always)]
    pub(crate) fn take_turns(
        &mut self,
        turns: &[(u64, u64)],
        from: SchedulePlace,
        budget: u64,
    ) -> Option<SchedulePlace>
        requires going { has_ended self.old ≡ false }
        requires within { self.old.world.steps ≤ budget }
        requires place { IsPlace self.old.world turns.now from }
        requires begins { from.used ≡ 0 → from.held ≡ 0 }
        requires schedule { IsSchedule turns.now }
        ensures steps { MatchOption result (FollowsToEnd turns.now budget from self.old.world self.new.world)
            (λ place. FollowsOn turns.now budget from self.old.world place self.new.world) }
        ensures failed { self.new.failed ≡ false }
    {
        if from.used != 0 {
            return Some(from);
        }
        let Some(until) = turn_end(turns, from.turn, self.steps(), budget) else {
            return Some(from);
        };
        let Some(k) = self.pick(turns, &from) else {
            return Some(from);
        };
        let last = self.last();
        self.bring(k);
        if !self.unwatched {
            self.bring(last);
            return Some(from);
        }
        let mut turn = Turn {
            place: from.turn,
            context: k,
            before: last,
            until,
            budget,
        };
        let progress = self
            .machine
            .advance_in_turns(turns, &self.numbers, &mut self.contexts, &mut turn);
        self.last = turn.context;
        match progress {
            Progress::Trapped => None,
            Progress::GoesOn => Some(SchedulePlace {
                turn: next_turn(turns, turn.place),
                used: 0,
                held: 0,
            }),
            Progress::AtCall => Some(self.stop_within(turns, &turn)),
        }
    }

    /// The place of the next step, which isn't taken here, in a turn that has begun. Where none of its steps was taken
    /// the registers are again those of the context of the last one.
    fn stop_within(&mut self, turns: &[(u64, u64)], turn: &Turn) -> SchedulePlace
        requires { StopsWithin turns.now turn.now self.old.world }
        ensures turn { result.turn ≡ turn.now.place }
        ensures used { result.used
            ≡ self.old.world.steps - (turn.now.until - (model.turn_at turns.now turn.now.place).1) }
        ensures held { result.held ≡ (if nat_eq result.used 0 then 0 else turn.now.context) }
        ensures world { self.new
            ≡ (if nat_eq result.used 0
            then record self.old { world = worlds.taken_by_context turn.now.before self.old.world } else self.old) }
    {
        let begun = turn.until - turns[turn.place].1;
        let used = self.steps() - begun;
        if used == 0 {
            self.bring(turn.before);
        }
        SchedulePlace {
            turn: turn.place,
            used,
            held: if used == 0 { 0 } else { turn.context },
        }
    }
}
