//! Laws of the definitions, each the contract of a function that does nothing.
ghost use Rattle.std.specs.Prelude.{◌≡◌, ◌≤◌, ◌-◌, ℕ};
ghost use Rattle.emu_model.specs.State.{State};
ghost use Rattle.emu_model.specs.SoundState.{IsSound};
ghost use Rattle.emu_run.specs.Step.{step};
ghost use Rattle.emu_run.specs.Run.{run, until_end};
ghost use Rattle.emu_run.specs.Least.{IsRun};

/// A run of a machine that has counted at most its budget of steps ends where the machine has ended or has counted
/// the budget, and no sooner.
#[tactic(auto, using(crate::specs::Least::run_is_least))]
pub fn runs_stop_at_the_least_step()
    ensures { (st : State) (budget : ℕ) → st.parts.steps ≤ budget → IsRun budget st (run st budget) }
{}

/// A step leaves a sound state sound: each number and list keeps its range and its length.
pub fn steps_keep_soundness()
    ensures { (st : State) → IsSound st → IsSound (step st) }
{}

/// A machine that goes back to what it was behind the first j of n steps, and takes the others again, is what it was
/// behind all n.
#[tactic(auto, using(crate::specs::Steps::again))]
pub fn steps_are_taken_again()
    ensures { (st : State) (j n : ℕ) → j ≤ n → until_end (until_end st j) (n - j) ≡ until_end st n }
{}
