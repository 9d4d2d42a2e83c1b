//! On to the first machine that meets a test.
ghost use Rattle.std.specs.Prelude.{◌≡◌, ◌-◌, false, true};
ghost use Rattle.io_gate.specs.Streams.{Causes};
ghost use Rattle.dbg_back.specs.Ends.{is_fault};
ghost use Rattle.dbg_back.specs.Walks.{CanWalk, Does, IsWalk};
ghost use Rattle.dbg_model.specs.Session.{Course};
ghost use Rattle.emu_model.specs.State.{State};
ghost use Rattle.debug_walk.specs.Walks.{is_sought, made_before_sought, sought};

use crate::steps::one_step;
use crate::test::Test;
use dbg_back::{BackEnd, Trail, is_below};
use emu_machine::Machine;
use io_gate::Sink;

/// How a walk ended: whether its last machine met the test, and whether a stream failed.
#[derive(Clone, Copy)]
pub struct Found {
    pub met: bool,
    pub end: BackEnd,
}

/// Takes steps, at least one, until a machine meets the test, so many steps are counted in all, or the machine ends.
pub fn forward<T: Test, O: Sink, E: Sink>(
    test: &T,
    machine: &mut Machine,
    trail: &mut Trail,
    until: u64,
    input: &[u8],
    output: &mut O,
    errors: &mut E,
) -> Found
    requires walks { CanWalk input.now machine.old trail.old }
    ensures does { Does (λ start c. sought (T.meets test.now) c (until - c.state.parts.steps)) input.now machine.old
        machine.new trail.old trail.new (O.held output.old) (O.held output.new) (E.held errors.old)
        (E.held errors.new) (is_fault result.end) }
    ensures met { is_fault result.end ≡ false → (start : State) (c : Course) → IsWalk start input.now c machine.old
        trail.old → result.met ≡ is_sought (T.meets test.now) c (until - c.state.parts.steps) }
    ensures accesses { result.met ≡ true → (start : State) (c : Course) → IsWalk start input.now c machine.old trail.old
        → machine.new.accesses ≡ made_before_sought (T.meets test.now) c (until - c.state.parts.steps) }
    ensures write_cause { Causes (result.end ≡ BackEnd.WriteFault) (O.faults output.old) (O.faults output.new) }
    ensures errors_cause { Causes (result.end ≡ BackEnd.ErrorsFault) (E.faults errors.old) (E.faults errors.new) }
{
    'walk: while is_below(machine, until) {
        let from = machine.core().pc();
        match one_step(machine, trail, input, output, errors) {
            BackEnd::Done => {}
            end => return Found { met: false, end },
        }
        if test.is_met(from, machine) {
            return Found {
                met: true,
                end: BackEnd::Done,
            };
        }
    }
    Found {
        met: false,
        end: BackEnd::Done,
    }
}
