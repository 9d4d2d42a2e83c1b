//! The commands that move the machine.
ghost use Rattle.std.specs.Prelude.{◌≡◌, ◌+◌, ◌-◌, false};
ghost use Rattle.io_gate.specs.Streams.{Causes};
ghost use Rattle.linux_calls.specs.Names.{NamesRead};
ghost use Rattle.emu_machine.specs.Machines.{MakesWrite};
ghost use Rattle.emu_run.specs.Run.{run};
ghost use Rattle.dbg_model.specs.Session.{no_points};
ghost use Rattle.dbg_model.specs.Forward.{go, stepped};
ghost use Rattle.dbg_core.specs.Ends.{LeavesMachine, Obeys, Spares, is_fault};

use crate::ends::{SessionEnd, end_of_put, end_of_run, end_of_step};
use crate::lines::{put_ending, put_met, put_stepped};
use crate::points::Points;
use emu_machine::{Machine, StepEnd};
use io_gate::{Sink, Source};

/// Takes steps until the machine has ended or has counted so many in all.
fn run_to<I: Source, O: Sink, E: Sink>(
    machine: &mut Machine,
    target: u64,
    input: &mut I,
    output: &mut O,
    errors: &mut E,
) -> SessionEnd
    requires { machine.old.failed ≡ false }
    ensures obeys { Obeys (λ st. run st target) machine.old.parts machine.new.parts (I.left input.old)
        (I.left input.new) (O.held output.old) (O.held output.new) (E.held errors.old) (E.held errors.new) result }
    ensures leaves { LeavesMachine (λ st. run st target) target machine.old.parts machine.new (I.left input.old)
        (I.left input.new) result }
    ensures spares { Spares (λ st. run st target) machine.old.parts machine.new
        (I.left input.old) (I.left input.new) (O.held output.old) (O.held output.new) (E.held errors.old)
        (E.held errors.new) result }
    ensures failed { machine.new.failed ≡ is_fault result }
    ensures read_cause { Causes (result ≡ SessionEnd.ReadFault) (I.faults input.old) (I.faults input.new) }
    ensures write_cause { Causes (result ≡ SessionEnd.WriteFault) (O.faults output.old) (O.faults output.new) }
    ensures errors_cause { Causes (result ≡ SessionEnd.ErrorsFault) (E.faults errors.old) (E.faults errors.new) }
    ensures read_named { result ≡ SessionEnd.ReadFault → NamesRead machine.new.parts.core }
    ensures errors_named { result ≡ SessionEnd.ErrorsFault → MakesWrite machine.new.parts 2 }
{
    if machine.ended() {
        return SessionEnd::Done;
    }
    if target <= machine.steps() {
        return SessionEnd::Done;
    }
    end_of_run(machine.run(target, input, output, errors))
}

/// `step N`: takes N steps, and puts that they were counted, or how the machine ended before.
pub fn step<I: Source, O: Sink, E: Sink>(
    machine: &mut Machine,
    n: u64,
    budget: u64,
    input: &mut I,
    output: &mut O,
    errors: &mut E,
) -> SessionEnd
    requires { machine.old.failed ≡ false }
    ensures obeys { Obeys (stepped (machine.old.parts.steps + n) budget) machine.old.parts machine.new.parts
        (I.left input.old) (I.left input.new) (O.held output.old) (O.held output.new) (E.held errors.old)
        (E.held errors.new) result }
    ensures leaves { LeavesMachine (stepped (machine.old.parts.steps + n) budget) budget machine.old.parts machine.new
        (I.left input.old) (I.left input.new) result }
    ensures spares { Spares (stepped (machine.old.parts.steps + n) budget) machine.old.parts machine.new
        (I.left input.old) (I.left input.new) (O.held output.old) (O.held output.new) (E.held errors.old)
        (E.held errors.new) result }
    ensures done { result ≡ SessionEnd.Done → machine.new.failed ≡ false }
    ensures read_cause { Causes (result ≡ SessionEnd.ReadFault) (I.faults input.old) (I.faults input.new) }
    ensures write_cause { Causes (result ≡ SessionEnd.WriteFault) (O.faults output.old) (O.faults output.new) }
    ensures errors_cause { Causes (result ≡ SessionEnd.ErrorsFault) (E.faults errors.old) (E.faults errors.new) }
    ensures read_named { result ≡ SessionEnd.ReadFault → NamesRead machine.new.parts.core }
    ensures errors_named { result ≡ SessionEnd.ErrorsFault → MakesWrite machine.new.parts 2 }
{
    let steps = machine.steps();
    let target = steps.saturating_add(n).min(budget);
    match run_to(machine, target, input, output, errors) {
        SessionEnd::Done => end_of_put(put_stepped(steps, n, machine, output)),
        end => end,
    }
}

/// `go`: takes steps until the machine ends, a watch is touched, the program counter stands on a break or the budget is
/// spent, tested in this order behind each step, and puts which it was.
pub fn go<I: Source, O: Sink, E: Sink>(
    machine: &mut Machine,
    points: &Points,
    budget: u64,
    input: &mut I,
    output: &mut O,
    errors: &mut E,
) -> SessionEnd
    requires { machine.old.failed ≡ false }
    ensures obeys { Obeys (λ st. go points.now st (budget - st.parts.steps)) machine.old.parts machine.new.parts
        (I.left input.old) (I.left input.new) (O.held output.old) (O.held output.new) (E.held errors.old)
        (E.held errors.new) result }
    ensures leaves { LeavesMachine (λ st. go points.now st (budget - st.parts.steps)) budget
        machine.old.parts machine.new (I.left input.old) (I.left input.new) result }
    ensures spares { Spares (λ st. go points.now st (budget - st.parts.steps)) machine.old.parts machine.new
        (I.left input.old) (I.left input.new) (O.held output.old) (O.held output.new) (E.held errors.old)
        (E.held errors.new) result }
    ensures done { result ≡ SessionEnd.Done → machine.new.failed ≡ false }
    ensures read_cause { Causes (result ≡ SessionEnd.ReadFault) (I.faults input.old) (I.faults input.new) }
    ensures write_cause { Causes (result ≡ SessionEnd.WriteFault) (O.faults output.old) (O.faults output.new) }
    ensures errors_cause { Causes (result ≡ SessionEnd.ErrorsFault) (E.faults errors.old) (E.faults errors.new) }
    ensures read_named { result ≡ SessionEnd.ReadFault → NamesRead machine.new.parts.core }
    ensures errors_named { result ≡ SessionEnd.ErrorsFault → MakesWrite machine.new.parts 2 }
{
    if points.is_empty() {
        go_free(machine, budget, input, output, errors)
    } else {
        go_to_point(machine, points, budget, input, output, errors)
    }
}

/// `go` without a break or a watch, which tests for none.
fn go_free<I: Source, O: Sink, E: Sink>(
    machine: &mut Machine,
    budget: u64,
    input: &mut I,
    output: &mut O,
    errors: &mut E,
) -> SessionEnd
    requires { machine.old.failed ≡ false }
    ensures obeys { Obeys (λ st. go no_points st (budget - st.parts.steps)) machine.old.parts machine.new.parts
        (I.left input.old) (I.left input.new) (O.held output.old) (O.held output.new) (E.held errors.old)
        (E.held errors.new) result }
    ensures leaves { LeavesMachine (λ st. go no_points st (budget - st.parts.steps)) budget
        machine.old.parts machine.new (I.left input.old) (I.left input.new) result }
    ensures spares { Spares (λ st. go no_points st (budget - st.parts.steps)) machine.old.parts machine.new
        (I.left input.old) (I.left input.new) (O.held output.old) (O.held output.new) (E.held errors.old)
        (E.held errors.new) result }
    ensures done { result ≡ SessionEnd.Done → machine.new.failed ≡ false }
    ensures read_cause { Causes (result ≡ SessionEnd.ReadFault) (I.faults input.old) (I.faults input.new) }
    ensures write_cause { Causes (result ≡ SessionEnd.WriteFault) (O.faults output.old) (O.faults output.new) }
    ensures errors_cause { Causes (result ≡ SessionEnd.ErrorsFault) (E.faults errors.old) (E.faults errors.new) }
    ensures read_named { result ≡ SessionEnd.ReadFault → NamesRead machine.new.parts.core }
    ensures errors_named { result ≡ SessionEnd.ErrorsFault → MakesWrite machine.new.parts 2 }
{
    match run_to(machine, budget, input, output, errors) {
        SessionEnd::Done => end_of_put(put_ending(machine, output)),
        end => end,
    }
}

/// `go` with breaks and watches.
fn go_to_point<I: Source, O: Sink, E: Sink>(
    machine: &mut Machine,
    points: &Points,
    budget: u64,
    input: &mut I,
    output: &mut O,
    errors: &mut E,
) -> SessionEnd
    requires { machine.old.failed ≡ false }
    ensures obeys { Obeys (λ st. go points.now st (budget - st.parts.steps)) machine.old.parts machine.new.parts
        (I.left input.old) (I.left input.new) (O.held output.old) (O.held output.new) (E.held errors.old)
        (E.held errors.new) result }
    ensures leaves { LeavesMachine (λ st. go points.now st (budget - st.parts.steps)) budget
        machine.old.parts machine.new (I.left input.old) (I.left input.new) result }
    ensures spares { Spares (λ st. go points.now st (budget - st.parts.steps)) machine.old.parts machine.new
        (I.left input.old) (I.left input.new) (O.held output.old) (O.held output.new) (E.held errors.old)
        (E.held errors.new) result }
    ensures done { result ≡ SessionEnd.Done → machine.new.failed ≡ false }
    ensures read_cause { Causes (result ≡ SessionEnd.ReadFault) (I.faults input.old) (I.faults input.new) }
    ensures write_cause { Causes (result ≡ SessionEnd.WriteFault) (O.faults output.old) (O.faults output.new) }
    ensures errors_cause { Causes (result ≡ SessionEnd.ErrorsFault) (E.faults errors.old) (E.faults errors.new) }
    ensures read_named { result ≡ SessionEnd.ReadFault → NamesRead machine.new.parts.core }
    ensures errors_named { result ≡ SessionEnd.ErrorsFault → MakesWrite machine.new.parts 2 }
{
    if machine.ended() {
        return end_of_put(put_ending(machine, output));
    }
    'walk: while machine.steps() < budget {
        match machine.step(input, output, errors) {
            StepEnd::Going => {}
            end => {
                return match end_of_step(end) {
                    SessionEnd::Done => end_of_put(put_ending(machine, output)),
                    fault => fault,
                };
            }
        }
        match points.point_met(machine) {
            None => {}
            Some(stop) => return end_of_put(put_met(stop, machine, output)),
        }
    }
    end_of_put(put_ending(machine, output))
}
