//! Laws of a debugger session, which may go back, each the contract of a function that does nothing.
ghost use Rattle.std.specs.Prelude.{◌≡◌, ℕ, List, false};
ghost use Rattle.emu_model.specs.State.{State};
ghost use Rattle.emu_run.specs.Run.{until_end};
ghost use Rattle.emu_run.specs.Step.{step};
ghost use Rattle.dbg_model.specs.declared.script.Command.{Command};
ghost use Rattle.dbg_model.specs.Commands.{has_back};
ghost use Rattle.dbg_model.specs.CourseLaws.{IsOn};
ghost use Rattle.dbg_model.specs.Forward as forward;
ghost use Rattle.dbg_model.specs.Session.{session};

/// A step leaves the greatest number of mapped pages as it is.
#[tactic(auto, using(crate::specs::Limits::step_limit))]
pub fn steps_keep_the_limit()
    ensures { (st : State) → (step st).parts.memory.limit ≡ st.parts.memory.limit }
{}

/// So do steps up to the machine's end.
#[tactic(auto, using(crate::specs::Limits::until_end_limit))]
pub fn runs_keep_the_limit()
    ensures { (st : State) (k : ℕ) → (until_end st k).parts.memory.limit ≡ st.parts.memory.limit }
{}

/// The machine of a session, after any commands, is one that the run from its start passes, and so is what is left of
/// its input: each line of a session, also behind `back`, shows a machine of that run.
#[tactic(auto, using(crate::specs::CourseLaws::sessions_are_on))]
pub fn sessions_stay_on_the_run()
    ensures { (commands : List Command) (budget : ℕ) (start : State) → IsOn start (session commands budget start) }
{}

/// A session whose commands only go forward, from a machine that has counted no step, is what they make of the states
/// alone, one after the other.
#[tactic(auto, using(crate::specs::ForwardLaws::session_ahead))]
pub fn sessions_ahead_go_forward()
    ensures { (commands : List Command) (budget : ℕ) (start : State) → has_back commands ≡ false
        → start.parts.steps ≡ 0 → session commands budget start ≡ forward.session commands budget start }
{}
