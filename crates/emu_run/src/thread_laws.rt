//! Laws of the definitions, each the contract of a function that does nothing.
ghost use Rattle.std.specs.Prelude.{◌≡◌, ◌<◌, ◌≤◌, ℕ, List, length, is_none, true, false};
ghost use Rattle.emu_run.specs.Threads.{WorldState, one, threads};
ghost use Rattle.emu_run.specs.Living.{IsLiving, some_waiting};
ghost use Rattle.emu_run.specs.ThreadLaws.{HasStopped};
ghost use Rattle.emu_run.specs.Worlds.{World, some_ready};

/// A run stops where the world has ended, no context is ready or the budget is counted.
#[tactic(auto, using(crate::specs::ThreadLaws::threads_stop))]
pub fn runs_stop()
    ensures { (schedule : List (ℕ × ℕ)) (budget : ℕ) (st : WorldState) → st.world.steps ≤ budget
        → HasStopped budget (threads schedule budget st) }
{}

/// A step leaves a world that has ended, or of whose contexts one isn't gone.
#[tactic(auto, using(crate::specs::Living::one_living))]
pub fn a_context_stays()
    ensures { (w : World) (k : ℕ) (input : List ℕ) → k < length w.contexts → IsLiving (one w k input).world }
{}

/// Where no context of such a world is ready, and it hasn't ended, one waits.
#[tactic(auto, using(crate::specs::Living::some_waits))]
pub fn one_waits()
    ensures { (w : World) → IsLiving w → is_none w.ended ≡ true → some_ready w ≡ false → some_waiting w ≡ true }
{}
