//! The run of a world under a schedule.
ghost use Rattle.std.specs.Prelude.{◌≡◌, ◌<◌, ◌≤◌, ◌⊎◌, IfSome, is_none, true, false};
ghost use Rattle.emu_machine.specs.Machines.{MakesWrite};
ghost use Rattle.guest_schedule.specs.Turns.{IsSchedule};
ghost use Rattle.guest_threads.specs.Ends.{
  has_ended,
  end_of_world,
  world_end_of,
  is_broken_off,
  last_machine,
  Becomes,
  IsKeptAt,
  TakesWithin,
  Puts,
};
ghost use Rattle.io_gate.specs.Streams.{Causes};
ghost use Rattle.linux_calls.specs.Names.{NamesRead};
ghost use Rattle.emu_run.specs.Living.{IsLiving};
ghost use Rattle.emu_run.specs.Threads as model;
ghost use Rattle.emu_run.specs.Threads.{with_input};

use crate::ends::WorldEnd;
use crate::held::Held;
use crate::places::{turn_until, used_behind};
use crate::went::Went;
use emu_machine::{Ended, StepEnd};
use emu_run::SchedulePlace;
use guest_contexts::{Rest, rest_of};
use io_gate::{Sink, Source};

impl Held {
    /// Takes the steps that the turns of a schedule name, until the world has ended, no context is ready, or `budget`
    /// steps are counted in all. It isn't inlined, so that what its loop reads is in registers.
    #[inline(never)]
    pub(crate) fn follow<I: Source, O: Sink, E: Sink>(
        &mut self,
        schedule: &[(u64, u64)],
        budget: u64,
        input: &mut I,
        output: &mut O,
        errors: &mut E,
    ) -> WorldEnd
        requires going { has_ended self.old ≡ false }
        requires within { self.old.world.steps ≤ budget }
        requires schedule { IsSchedule schedule.now }
        ensures state { Becomes (model.threads schedule.now budget) self.old.world self.new.world (I.left input.old)
            (I.left input.new) (is_broken_off result) }
        ensures input { TakesWithin (model.threads schedule.now budget) self.old.world (I.left input.old)
            (I.left input.new) (is_broken_off result) }
        ensures output { Puts (λ st. (model.threads schedule.now budget st).output) self.old.world (I.left input.old)
            (O.held output.old) (O.held output.new) (is_broken_off result) }
        ensures errors { Puts (λ st. (model.threads schedule.now budget st).errors) self.old.world (I.left input.old)
            (E.held errors.old) (E.held errors.new) (is_broken_off result) }
        ensures end { is_broken_off result ≡ false → result ≡ end_of_world self.new.world }
        ensures spent { result ≡ WorldEnd.Spent → self.new.world.steps ≡ budget }
        ensures living { IsLiving self.old.world → IsLiving self.new.world }
        ensures kept { IfSome (I.left input.old) (λ bytes. is_broken_off result ≡ true → IsKeptAt
            (model.threads schedule.now self.new.world.steps (with_input self.old.world bytes)) self.new.world
            (I.left input.new)) }
        ensures unended { is_broken_off result ≡ true → is_none self.new.world.ended ≡ true }
        ensures unspent { is_broken_off result ≡ true → self.new.world.steps < budget }
        ensures failed { self.new.failed ≡ is_broken_off result }
        ensures read_cause { Causes (result ≡ WorldEnd.ReadFault) (I.faults input.old) (I.faults input.new) }
        ensures write_cause { Causes (result ≡ WorldEnd.WriteFault) (O.faults output.old) (O.faults output.new) }
        ensures errors_cause { Causes (result ≡ WorldEnd.ErrorsFault) (E.faults errors.old) (E.faults errors.new) }
        ensures read_named { result ≡ WorldEnd.ReadFault → NamesRead (last_machine self.new.world).core }
        ensures write_named { result ≡ WorldEnd.WriteFault → MakesWrite (last_machine self.new.world) 1 }
        ensures errors_named { result ≡ WorldEnd.ErrorsFault → MakesWrite (last_machine self.new.world) 2 }
        ensures whole_output { (result ≡ WorldEnd.ReadFault) ⊎ (result ≡ WorldEnd.ErrorsFault)
            → Puts (λ st. (model.threads schedule.now self.new.world.steps st).output) self.old.world
            (I.left input.old) (O.held output.old) (O.held output.new) false }
        ensures whole_errors { (result ≡ WorldEnd.ReadFault) ⊎ (result ≡ WorldEnd.WriteFault)
            → Puts (λ st. (model.threads schedule.now self.new.world.steps st).errors) self.old.world
            (I.left input.old) (E.held errors.old) (E.held errors.new) false }
    {
        let mut place = SchedulePlace {
            turn: 0,
            used: 0,
            held: 0,
        };
        while self.steps() < budget {
            let Some(k) = self.pick(schedule, &place) else {
                return self.end();
            };
            let before = self.steps();
            let until = turn_until(schedule, &place, before, budget);
            match self.go(k, until, input, output, errors) {
                Went::On => {}
                went => {
                    let end = self.last_end(went);
                    return self.end_of(end);
                }
            }
            let after = self.steps();
            let used = used_behind(place.used, before, after);
            let next = self.next_place(schedule, place.turn, used, k);
            let Some(there) = self.take_turns(schedule, next, budget) else {
                return self.end();
            };
            place = there;
        }
        self.end()
    }

    /// How a run of the world ends that stops here.
    fn end(&self) -> WorldEnd
        ensures { result ≡ end_of_world self.now.world }
    {
        match self.machine.ending() {
            None => match rest_of(&self.contexts) {
                Rest::Spent => WorldEnd::Spent,
                Rest::Stuck => WorldEnd::Stuck,
            },
            Some(Ended::Exit(code)) => WorldEnd::Exit(code),
            Some(Ended::Trap(trap)) => WorldEnd::Trap(trap, self.machine.core().pc()),
        }
    }

    /// The answer of a run by that of its last step.
    fn end_of(&self, end: StepEnd) -> WorldEnd
        ensures { result ≡ world_end_of self.now.world end }
    {
        match end {
            StepEnd::Going => self.end(),
            StepEnd::Exit(code) => WorldEnd::Exit(code),
            StepEnd::Trap(trap) => WorldEnd::Trap(trap, self.machine.core().pc()),
            StepEnd::ReadFault => WorldEnd::ReadFault,
            StepEnd::WriteFault => WorldEnd::WriteFault,
            StepEnd::ErrorsFault => WorldEnd::ErrorsFault,
        }
    }
}
