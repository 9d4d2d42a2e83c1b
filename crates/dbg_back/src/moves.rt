//! The commands that move the machine forward.
ghost use Rattle.std.specs.Prelude.{◌≡◌, ◌≤◌, ◌<◌, ◌⊎◌, ◌+◌, ◌-◌, false, true, length as len};
ghost use Rattle.io_gate.specs.Streams.{Causes};
ghost use Rattle.emu_run.specs.Step.{accesses};
ghost use Rattle.emu_machine.specs.Machines.{has_ended};
ghost use Rattle.dbg_model.specs.Session as model;
ghost use Rattle.dbg_back.specs.Ends.{is_fault};
ghost use Rattle.dbg_back.specs.Walks.{CanWalk, Does, Runs, Stopped, advanced};

use crate::dropped::Dropped;
use crate::ends::{BackEnd, end_of_put, end_of_run};
use crate::trail::Trail;
use dbg_core::{Points, put_ending, put_stepped, put_stop};
use emu_machine::Machine;
use io_gate::{Sink, SliceSource};

/// Runs the machine until it has ended or has counted so many steps in all, from its place in the input on.
fn run_to<O: Sink, E: Sink>(
    machine: &mut Machine,
    trail: &mut Trail,
    until: u64,
    input: &[u8],
    output: &mut O,
    errors: &mut E,
) -> BackEnd
    requires place { trail.old.place ≤ len input.now }
    requires going { has_ended machine.old ≡ false }
    requires within { machine.old.parts.steps ≤ until }
    ensures runs { Runs until input.now machine.old machine.new trail.old.place trail.new.place (O.held output.old)
        (O.held output.new) (E.held errors.old) (E.held errors.new) (is_fault result) }
    ensures stopped { is_fault result ≡ false → Stopped until machine.new.parts }
    ensures accesses { is_fault result ≡ false → until ≡ machine.old.parts.steps + 1 → machine.new.accesses ≡
        accesses machine.old.parts }
    ensures marks { machine.new.marks ≡ machine.old.marks }
    ensures saved { machine.new.saved ≡ machine.old.saved }
    ensures top { trail.new.top ≡ trail.old.top }
    ensures due { trail.new.due ≡ trail.old.due }
    ensures steps { trail.new.steps ≡ trail.old.steps }
    ensures places { trail.new.places ≡ trail.old.places }
    ensures write_cause { Causes (result ≡ BackEnd.WriteFault) (O.faults output.old) (O.faults output.new) }
    ensures errors_cause { Causes (result ≡ BackEnd.ErrorsFault) (E.faults errors.old) (E.faults errors.new) }
{
    let rest = &input[trail.place..];
    let mut source = SliceSource::new(rest);
    let end = machine.run(until, &mut source, output, errors);
    trail.place = input.len().saturating_sub(source.rest().len());
    end_of_run(end)
}

/// Takes steps up to the machine's end, the furthest count, or so many in all, with sinks that drop what they get; or
/// where the machine stands at the furthest count, up to its end or so many in all, with those of the session.
pub fn advance<O: Sink, E: Sink>(
    machine: &mut Machine,
    trail: &mut Trail,
    until: u64,
    input: &[u8],
    output: &mut O,
    errors: &mut E,
) -> BackEnd
    requires walks { CanWalk input.now machine.old trail.old }
    requires going { has_ended machine.old ≡ false }
    requires within { machine.old.parts.steps < until }
    ensures does { Does (λ start. advanced until) input.now machine.old machine.new trail.old trail.new (O.held
        output.old) (O.held output.new) (E.held errors.old) (E.held errors.new) (is_fault result) }
    ensures further { is_fault result ≡ false → has_ended machine.new ≡ false → machine.old.parts.steps <
        machine.new.parts.steps }
    ensures accesses { is_fault result ≡ false → until ≡ machine.old.parts.steps + 1 → machine.new.accesses ≡
        accesses machine.old.parts }
    ensures write_cause { Causes (result ≡ BackEnd.WriteFault) (O.faults output.old) (O.faults output.new) }
    ensures errors_cause { Causes (result ≡ BackEnd.ErrorsFault) (E.faults errors.old) (E.faults errors.new) }
{
    if machine.steps() < trail.top {
        let part = until.min(trail.top);
        run_to(machine, trail, part, input, &mut Dropped, &mut Dropped)
    } else {
        let end = run_to(machine, trail, until, input, output, errors);
        trail.top = machine.steps();
        end
    }
}

/// Whether a machine that goes on has counted fewer steps than so many.
pub fn is_below(machine: &Machine, target: u64) -> bool
    ensures going { result ≡ true → has_ended machine.now ≡ false }
    ensures below { result ≡ true → machine.now.parts.steps < target }
    ensures over { result ≡ false → (has_ended machine.now ≡ true) ⊎ (target ≤ machine.now.parts.steps) }
{
    !machine.ended() && machine.steps() < target
}

/// Takes steps until the machine has ended or has counted so many in all, and marks it on the way.
pub fn move_to<O: Sink, E: Sink>(
    machine: &mut Machine,
    trail: &mut Trail,
    target: u64,
    input: &[u8],
    output: &mut O,
    errors: &mut E,
) -> BackEnd
    requires walks { CanWalk input.now machine.old trail.old }
    ensures does { Does (λ start c. model.walked c (target - c.state.parts.steps)) input.now machine.old machine.new
        trail.old trail.new (O.held output.old) (O.held output.new) (E.held errors.old) (E.held errors.new) (is_fault
        result) }
    ensures write_cause { Causes (result ≡ BackEnd.WriteFault) (O.faults output.old) (O.faults output.new) }
    ensures errors_cause { Causes (result ≡ BackEnd.ErrorsFault) (E.faults errors.old) (E.faults errors.new) }
{
    'walk: while is_below(machine, target) {
        trail.keep(machine);
        let until = target.min(trail.due);
        match advance(machine, trail, until, input, output, errors) {
            BackEnd::Done => {}
            end => return end,
        }
    }
    BackEnd::Done
}

/// `step N`: takes N steps, and puts that they were counted, or how the machine ended before.
pub fn step<O: Sink, E: Sink>(
    machine: &mut Machine,
    trail: &mut Trail,
    n: u64,
    budget: u64,
    input: &[u8],
    output: &mut O,
    errors: &mut E,
) -> BackEnd
    requires walks { CanWalk input.now machine.old trail.old }
    ensures does { Does (λ start. model.steps_taken n budget) input.now machine.old machine.new trail.old trail.new
        (O.held output.old) (O.held output.new) (E.held errors.old) (E.held errors.new) (is_fault result) }
    ensures write_cause { Causes (result ≡ BackEnd.WriteFault) (O.faults output.old) (O.faults output.new) }
    ensures errors_cause { Causes (result ≡ BackEnd.ErrorsFault) (E.faults errors.old) (E.faults errors.new) }
{
    let steps = machine.steps();
    let target = steps.saturating_add(n).min(budget);
    match move_to(machine, trail, target, input, output, errors) {
        BackEnd::Done => end_of_put(put_stepped(steps, n, machine, output)),
        end => end,
    }
}

/// `go`: takes steps until the machine ends, a watch is touched, the program counter stands on a break or the budget is
/// spent, and puts which it was.
pub fn go<O: Sink, E: Sink>(
    machine: &mut Machine,
    trail: &mut Trail,
    points: &Points,
    budget: u64,
    input: &[u8],
    output: &mut O,
    errors: &mut E,
) -> BackEnd
    requires walks { CanWalk input.now machine.old trail.old }
    ensures does { Does (λ start c. model.go points.now c (budget - c.state.parts.steps)) input.now machine.old
        machine.new trail.old trail.new (O.held output.old) (O.held output.new) (E.held errors.old) (E.held
        errors.new) (is_fault result) }
    ensures write_cause { Causes (result ≡ BackEnd.WriteFault) (O.faults output.old) (O.faults output.new) }
    ensures errors_cause { Causes (result ≡ BackEnd.ErrorsFault) (E.faults errors.old) (E.faults errors.new) }
{
    if points.is_empty() {
        go_free(machine, trail, budget, input, output, errors)
    } else {
        go_to_point(machine, trail, points, budget, input, output, errors)
    }
}

/// `go` without a break or a watch, which tests for none.
fn go_free<O: Sink, E: Sink>(
    machine: &mut Machine,
    trail: &mut Trail,
    budget: u64,
    input: &[u8],
    output: &mut O,
    errors: &mut E,
) -> BackEnd
    requires walks { CanWalk input.now machine.old trail.old }
    ensures does { Does (λ start c. model.printed model.ended_line (model.walked c (budget - c.state.parts.steps)))
        input.now machine.old machine.new trail.old trail.new (O.held output.old) (O.held output.new) (E.held
        errors.old) (E.held errors.new) (is_fault result) }
    ensures write_cause { Causes (result ≡ BackEnd.WriteFault) (O.faults output.old) (O.faults output.new) }
    ensures errors_cause { Causes (result ≡ BackEnd.ErrorsFault) (E.faults errors.old) (E.faults errors.new) }
{
    match move_to(machine, trail, budget, input, output, errors) {
        BackEnd::Done => end_of_put(put_ending(machine, output)),
        end => end,
    }
}

/// `go` with breaks and watches.
fn go_to_point<O: Sink, E: Sink>(
    machine: &mut Machine,
    trail: &mut Trail,
    points: &Points,
    budget: u64,
    input: &[u8],
    output: &mut O,
    errors: &mut E,
) -> BackEnd
    requires walks { CanWalk input.now machine.old trail.old }
    ensures does { Does (λ start c. model.go points.now c (budget - c.state.parts.steps)) input.now machine.old
        machine.new trail.old trail.new (O.held output.old) (O.held output.new) (E.held errors.old) (E.held
        errors.new) (is_fault result) }
    ensures write_cause { Causes (result ≡ BackEnd.WriteFault) (O.faults output.old) (O.faults output.new) }
    ensures errors_cause { Causes (result ≡ BackEnd.ErrorsFault) (E.faults errors.old) (E.faults errors.new) }
{
    'walk: while is_below(machine, budget) {
        trail.keep(machine);
        let until = machine.steps() + 1;
        match advance(machine, trail, until, input, output, errors) {
            BackEnd::Done => {}
            end => return end,
        }
        match points.met(machine, budget) {
            None => {}
            Some(stop) => return end_of_put(put_stop(machine, &stop, output)),
        }
    }
    end_of_put(put_ending(machine, output))
}
