//! Laws of the definitions, each the contract of a function that does nothing.
ghost use Rattle.std.specs.Prelude.{◌-◌, ℕ, List};
ghost use Rattle.emu_model.specs.State.{State};
ghost use Rattle.dbg_model.specs.declared.script.Command.{Command};
ghost use Rattle.dbg_model.specs.Forward.{session};
ghost use Rattle.dbg_model.specs.Reached.{IsReached};

/// The machine of a session that only goes forward, after any commands, is one that steps lead to from where it began: no more of them than
/// the budget leaves there, and none past the machine's end. So each line of a session shows a machine that the run
/// from the same start, with the same budget, passes.
#[tactic(auto, using(crate::specs::Reached::sessions_are_reached))]
pub fn sessions_move_by_steps()
    ensures { (commands : List Command) (budget : ℕ) (st : State)
        → IsReached (budget - st.parts.steps) st (session commands budget st) }
{}
