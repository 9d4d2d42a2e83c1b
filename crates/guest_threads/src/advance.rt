//! Steps of one context, one after the other.
ghost use Rattle.std.specs.Prelude.{◌≡◌, ◌<◌, ◌≤◌, ◌⊎◌, ◌+◌, ◌-◌, ◌^◌, MatchBool, is_none, length, true, false};
ghost use Rattle.emu_machine.specs.Ends.{is_undone};
ghost use Rattle.emu_machine.specs.Machines.{MakesWrite};
ghost use Rattle.guest_threads.specs.Calls.{IsCalling};
ghost use Rattle.guest_threads.specs.Ends.{has_ended, last_machine};
ghost use Rattle.guest_threads.specs.Quiet.{AdvancesOn, AdvancesToEnd, TakesSteps, has_trapped};
ghost use Rattle.guest_threads.specs.Named.{last_end};
ghost use Rattle.io_gate.specs.Streams.{Causes};
ghost use Rattle.linux_calls.specs.Names.{NamesRead};
ghost use Rattle.emu_run.specs.declared.thread.Standing.TheVariants as standing;
ghost use Rattle.emu_run.specs.Living.{IsLiving};
ghost use Rattle.emu_run.specs.Worlds as worlds;

use crate::held::Held;
use crate::went::Went;
use emu_machine::{Progress, StepEnd, step_end};
use guest_contexts::is_some_watching;
use io_gate::{Sink, Source};

impl Held {
    /// Takes steps of a context, which is ready: at least one, and more until `until` are counted in all, the next one
    /// makes a call, or one ends the world. Where another context has a monitor, which each store may empty, it takes
    /// one alone.
    #[inline(always)]
    pub(crate) fn go<I: Source, O: Sink, E: Sink>(
        &mut self,
        k: usize,
        until: u64,
        input: &mut I,
        output: &mut O,
        errors: &mut E,
    ) -> Went
        requires going { has_ended self.old ≡ false }
        requires below { self.old.world.steps < until }
        requires within { k < length self.old.world.contexts }
        requires ready { (worlds.context self.old.world k).standing ≡ standing.Ready }
        ensures steps { TakesSteps k until self.old.world self.new.world (last_end result self.new.world.ended)
            (I.left input.old) (I.left input.new) (O.held output.old) (O.held output.new) (E.held errors.old)
            (E.held errors.new) }
        ensures over { result ≡ Went.Over → is_none self.new.world.ended ≡ false }
        ensures failed { self.new.failed ≡ is_undone (last_end result self.new.world.ended) }
        ensures last { self.new.world.last ≡ k }
        ensures living { is_undone (last_end result self.new.world.ended) ≡ false → IsLiving self.new.world }
        ensures read_cause { Causes (last_end result self.new.world.ended ≡ StepEnd.ReadFault) (I.faults input.old)
            (I.faults input.new) }
        ensures write_cause { Causes (last_end result self.new.world.ended ≡ StepEnd.WriteFault) (O.faults output.old)
            (O.faults output.new) }
        ensures errors_cause { Causes (last_end result self.new.world.ended ≡ StepEnd.ErrorsFault) (E.faults errors.old)
            (E.faults errors.new) }
        ensures read_named { last_end result self.new.world.ended ≡ StepEnd.ReadFault
            → NamesRead (last_machine self.new.world).core }
        ensures write_named { last_end result self.new.world.ended ≡ StepEnd.WriteFault
            → MakesWrite (last_machine self.new.world) 1 }
        ensures errors_named { last_end result self.new.world.ended ≡ StepEnd.ErrorsFault
            → MakesWrite (last_machine self.new.world) 2 }
        ensures output_kept { (last_end result self.new.world.ended ≡ StepEnd.ReadFault)
            ⊎ (last_end result self.new.world.ended ≡ StepEnd.ErrorsFault) → output.new ≡ output.old }
        ensures errors_kept { (last_end result self.new.world.ended ≡ StepEnd.ReadFault)
            ⊎ (last_end result self.new.world.ended ≡ StepEnd.WriteFault) → errors.new ≡ errors.old }
    {
        self.bring(k);
        let before = self.steps();
        if self.advance(until) {
            return Went::Over;
        }
        let after = self.steps();
        if after != before {
            return Went::On;
        }
        self.one_by_name(k, input, output, errors)
    }

    /// How the last step ended, by its name.
    pub(crate) fn last_end(&self, went: Went) -> StepEnd
        ensures { result ≡ last_end went self.now.world.ended }
    {
        match went {
            Went::On => StepEnd::Going,
            Went::Over => step_end(self.machine.ending()),
            Went::ReadFault => StepEnd::ReadFault,
            Went::WriteFault => StepEnd::WriteFault,
            Went::ErrorsFault => StepEnd::ErrorsFault,
        }
    }

    /// Takes steps of the context whose registers the machine has, until the next one makes a call, `until` are counted
    /// in all, or one ends the world, and says whether one has. Where a context has a monitor it takes none.
    #[inline(always)]
    fn advance(&mut self, until: u64) -> bool
        requires calling { IsCalling self.old }
        requires below { self.old.world.steps < until }
        ensures steps { MatchBool result (AdvancesToEnd until self.old.world self.new.world)
            (AdvancesOn until self.old.world self.new.world) }
        ensures failed { self.new.failed ≡ false }
    {
        if self.unwatched {
            return has_trapped(self.machine.advance(until));
        }
        if is_some_watching(&self.contexts) {
            return false;
        }
        self.unwatched = true;
        has_trapped(self.machine.advance(until))
    }
}

/// Whether the last one of steps trapped.
fn has_trapped(progress: Progress) -> bool
    ensures { result ≡ has_trapped progress }
{
    match progress {
        Progress::Trapped => true,
        Progress::GoesOn | Progress::AtCall => false,
    }
}
