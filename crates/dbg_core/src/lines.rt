//! The lines that a session puts to the output.
ghost use Rattle.std.specs.Prelude.{◌+◌, IsTrue};
ghost use Rattle.io_gate.specs.Streams.{HasCause};
ghost use Rattle.io_gate.specs.Pieces.{PutsAll};
ghost use Rattle.emu_run.specs.Reports.{ending_line};
ghost use Rattle.emu_run.specs.Registers.{scalar_lines};
ghost use Rattle.dbg_model.specs.ScriptLimits.{is_within};
ghost use Rattle.dbg_model.specs.Session.{lanes_line, length_line, command_text, stepped_text, stop_line};
ghost use Rattle.dbg_core.specs.Stops.{HasEnded, line_of_stop, shown_behind};

use crate::points::Stop;
use dbg_model::{Command, Stop as Met};
use emu_bits::{Esize, Reg};
use emu_machine::{Ended, Machine};
use emu_report::{
    put_break, put_exit, put_ffr, put_lanes, put_length, put_memory, put_preg, put_scalars,
    put_spent, put_step, put_trap, put_watch, put_zreg,
};
use io_gate::{Failed, Sink};

/// Puts the line that says how the machine ended, or that its budget is spent. Err is that the sink failed, with a
/// first part put.
pub fn put_ending<S: Sink>(machine: &Machine, sink: &mut S) -> Result<(), Failed>
    ensures bytes { PutsAll (S.held sink.old) (S.held sink.new)
        (ending_line machine.now.parts machine.now.parts.ended) result }
    ensures cause { HasCause (S.faults sink.old) (S.faults sink.new) result }
{
    match machine.ending() {
        None => put_spent(machine.steps(), sink),
        Some(Ended::Exit(code)) => put_exit(code, machine.steps(), sink),
        Some(Ended::Trap(trap)) => put_trap(&trap, machine.core().pc(), machine.steps(), sink),
    }
}

/// Puts what comes of `n` steps of a machine that had counted `steps`: that they were counted, or how the machine
/// ended. Err is that the sink failed, with a first part put.
pub fn put_stepped<S: Sink>(
    steps: u64,
    n: u64,
    machine: &Machine,
    sink: &mut S,
) -> Result<(), Failed>
    ensures bytes { PutsAll (S.held sink.old) (S.held sink.new) (stepped_text (steps + n) machine.now.parts) result }
    ensures cause { HasCause (S.faults sink.old) (S.faults sink.new) result }
{
    let counted = u128::from(machine.steps()) == u128::from(steps) + u128::from(n);
    if counted && machine.ending().is_none() {
        put_step(machine.steps(), machine.core().pc(), sink)
    } else {
        put_ending(machine, sink)
    }
}

/// Puts where the machine stopped at a watch or a break.
pub fn put_met<S: Sink>(stop: Met, machine: &Machine, sink: &mut S) -> Result<(), Failed>
    ensures bytes { PutsAll (S.held sink.old) (S.held sink.new) (stop_line stop machine.now.parts) result }
    ensures cause { HasCause (S.faults sink.old) (S.faults sink.new) result }
{
    match stop {
        Met::AtWatch(number) => put_watch(
            u64::from(number),
            machine.steps(),
            machine.core().pc(),
            sink,
        ),
        Met::AtBreak => put_break(machine.steps(), machine.core().pc(), sink),
    }
}

/// Puts the line of what stopped `go`: how the machine ended, that a watch was touched, that a break was reached, or
/// that the budget is spent. Err is that the output failed, with a first part put.
pub fn put_stop<O: Sink>(machine: &Machine, stop: &Stop, output: &mut O) -> Result<(), Failed>
    requires { HasEnded stop.now machine.now.parts }
    ensures bytes { PutsAll (O.held output.old) (O.held output.new) (line_of_stop stop.now machine.now.parts) result }
    ensures cause { HasCause (O.faults output.old) (O.faults output.new) result }
{
    match stop {
        Stop::Ended => put_ending(machine, output),
        Stop::Watch(number) => put_met(Met::AtWatch(*number), machine, output),
        Stop::Break => put_met(Met::AtBreak, machine, output),
        Stop::Spent => put_spent(machine.steps(), output),
    }
}

/// Puts the scalar registers and the vector length of a machine.
fn put_machine_scalars<S: Sink>(machine: &Machine, sink: &mut S) -> Result<(), Failed>
    ensures bytes { PutsAll (S.held sink.old) (S.held sink.new)
        (scalar_lines machine.now.parts.core machine.now.parts.vectors.bits) result }
    ensures cause { HasCause (S.faults sink.old) (S.faults sink.new) result }
{
    put_scalars(machine.core(), machine.vec(), sink)
}

/// Puts the present and the starting vector length of a machine.
fn put_machine_length<S: Sink>(machine: &Machine, sink: &mut S) -> Result<(), Failed>
    ensures bytes { PutsAll (S.held sink.old) (S.held sink.new) (length_line machine.now.parts.vectors) result }
    ensures cause { HasCause (S.faults sink.old) (S.faults sink.new) result }
{
    put_length(machine.vec(), sink)
}

/// Puts the lanes of a Z register of a machine.
fn put_machine_lanes<S: Sink>(
    k: Reg,
    size: Esize,
    machine: &Machine,
    sink: &mut S,
) -> Result<(), Failed>
    ensures bytes { PutsAll (S.held sink.old) (S.held sink.new) (lanes_line machine.now.parts.vectors k size) result }
    ensures cause { HasCause (S.faults sink.old) (S.faults sink.new) result }
{
    put_lanes(k, size, machine.vec(), sink)
}

/// Puts what a command shows of a machine that it doesn't move.
pub fn put_shown<S: Sink>(command: &Command, machine: &Machine, sink: &mut S) -> Result<(), Failed>
    requires { IsTrue (is_within command.now) }
    ensures bytes { PutsAll (S.held sink.old) (S.held sink.new) (command_text command.now machine.now.parts) result }
    ensures cause { HasCause (S.faults sink.old) (S.faults sink.new) result }
{
    match command {
        Command::Regs => put_machine_scalars(machine, sink),
        Command::Vl => put_machine_length(machine, sink),
        Command::Zreg(k) => put_zreg(*k, machine.vec(), sink),
        Command::Preg(k) => put_preg(*k, machine.vec(), sink),
        Command::Ffr => put_ffr(machine.vec(), sink),
        Command::Lanes(k, size) => put_machine_lanes(*k, *size, machine, sink),
        Command::Mem(address, count) => put_memory(*address, *count, machine.mem(), sink),
        Command::Step(_)
        | Command::Go
        | Command::Break(_)
        | Command::Watch(_, _)
        | Command::Back(_) => Ok(()),
    }
}

/// Puts what a command prints of a machine that it has moved no further than so: for `step` that its steps were
/// counted, and nothing for `go`, `back`, a break or a watch. Err is that the output failed, with a first part put.
pub fn show<O: Sink>(machine: &Machine, command: &Command, output: &mut O) -> Result<(), Failed>
    requires { IsTrue (is_within command.now) }
    ensures bytes { PutsAll (O.held output.old) (O.held output.new)
        (shown_behind command.now machine.now.parts) result }
    ensures cause { HasCause (O.faults output.old) (O.faults output.new) result }
{
    match command {
        Command::Step(_) => put_step(machine.steps(), machine.core().pc(), output),
        shown => put_shown(shown, machine, output),
    }
}
