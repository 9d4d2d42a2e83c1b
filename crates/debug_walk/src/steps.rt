//! One step, and the way to a number of steps.
ghost use Rattle.std.specs.Prelude.{◌≡◌, ◌<◌, ◌+◌, ◌-◌, ◌^◌, false};
ghost use Rattle.io_gate.specs.Streams.{Causes};
ghost use Rattle.emu_machine.specs.Machines.{has_ended};
ghost use Rattle.emu_run.specs.Step.{accesses};
ghost use Rattle.dbg_model.specs.Session as model;
ghost use Rattle.dbg_back.specs.Ends.{is_fault};
ghost use Rattle.dbg_back.specs.Walks.{CanWalk, Does};
ghost use Rattle.debug_walk.specs.Walks.{at_step};

use dbg_back::{BackEnd, Trail, advance, move_to, turn_back};
use emu_machine::Machine;
use io_gate::Sink;

/// Takes one step of a machine that goes on.
pub fn one_step<O: Sink, E: Sink>(
    machine: &mut Machine,
    trail: &mut Trail,
    input: &[u8],
    output: &mut O,
    errors: &mut E,
) -> BackEnd
    requires walks { CanWalk input.now machine.old trail.old }
    requires going { has_ended machine.old ≡ false }
    requires room { machine.old.parts.steps < 2 ^ 64 - 1 }
    ensures does { Does (λ start. model.stepped) input.now machine.old machine.new trail.old trail.new
        (O.held output.old) (O.held output.new) (E.held errors.old) (E.held errors.new) (is_fault result) }
    ensures accesses { is_fault result ≡ false → machine.new.accesses ≡ accesses machine.old.parts }
    ensures further { is_fault result ≡ false → has_ended machine.new ≡ false → machine.old.parts.steps <
        machine.new.parts.steps }
    ensures write_cause { Causes (result ≡ BackEnd.WriteFault) (O.faults output.old) (O.faults output.new) }
    ensures errors_cause { Causes (result ≡ BackEnd.ErrorsFault) (E.faults errors.old) (E.faults errors.new) }
{
    trail.keep(machine);
    let until = machine.steps() + 1;
    advance(machine, trail, until, input, output, errors)
}

/// Goes to where so many steps are counted, or to the machine's end before that. What the program writes is put once,
/// by the first step that counts so far.
pub fn go_to<O: Sink, E: Sink>(
    machine: &mut Machine,
    trail: &mut Trail,
    target: u64,
    input: &[u8],
    output: &mut O,
    errors: &mut E,
) -> BackEnd
    requires walks { CanWalk input.now machine.old trail.old }
    ensures does { Does (λ start. at_step start target) input.now machine.old machine.new trail.old trail.new
        (O.held output.old) (O.held output.new) (E.held errors.old) (E.held errors.new) (is_fault result) }
    ensures write_cause { Causes (result ≡ BackEnd.WriteFault) (O.faults output.old) (O.faults output.new) }
    ensures errors_cause { Causes (result ≡ BackEnd.ErrorsFault) (E.faults errors.old) (E.faults errors.new) }
{
    let steps = machine.steps();
    if target <= steps {
        turn_back(machine, trail, steps - target, input);
        return BackEnd::Done;
    }
    move_to(machine, trail, target, input, output, errors)
}
