//! The commands of a script that may go back, one after the other.
ghost use Rattle.std.specs.Prelude.{◌≡◌, ◌<◌, false, is_some, length, slice_get, IfSome, IsTrue, Some};
ghost use Rattle.std.specs.List.{count_by};
ghost use Rattle.io_gate.specs.Streams.{Causes};
ghost use Rattle.emu_system.specs.Gained.{Gains};
ghost use Rattle.emu_system.specs.Start.{with_input};
ghost use Rattle.emu_machine.specs.Machines.{has_ended};
ghost use Rattle.emu_model.specs.State.{State};
ghost use Rattle.dbg_model.specs.ScriptLimits.{is_within};
ghost use Rattle.dbg_model.specs.Session as model;
ghost use Rattle.dbg_back.specs.Ends.{is_fault};
ghost use Rattle.dbg_back.specs.Walks.{CanWalk, Does};

use crate::back::go_back;
use crate::ends::{BackEnd, end_of_put};
use crate::moves::{go, step};
use crate::trail::Trail;
use dbg_core::{Command, Points, Script, show};
use emu_machine::Machine;
use io_gate::Sink;

/// The command at a place.
fn command_at(commands: &[Command], k: usize) -> &Command
    requires { k < length commands.now }
    ensures { slice_get commands.now k ≡ Some result.now }
{
    &commands[k]
}

/// Obeys one command.
fn obey<O: Sink, E: Sink>(
    command: &Command,
    points: &Points,
    machine: &mut Machine,
    trail: &mut Trail,
    budget: u64,
    input: &[u8],
    output: &mut O,
    errors: &mut E,
) -> BackEnd
    requires walks { CanWalk input.now machine.old trail.old }
    requires within { IsTrue (is_within command.now) }
    ensures does { Does (λ start. model.obeyed start command.now points.now budget) input.now machine.old machine.new
        trail.old trail.new (O.held output.old) (O.held output.new) (E.held errors.old) (E.held errors.new) (is_fault
        result) }
    ensures write_cause { Causes (result ≡ BackEnd.WriteFault) (O.faults output.old) (O.faults output.new) }
    ensures errors_cause { Causes (result ≡ BackEnd.ErrorsFault) (E.faults errors.old) (E.faults errors.new) }
{
    match command {
        Command::Step(n) => step(machine, trail, *n, budget, input, output, errors),
        Command::Go => go(machine, trail, points, budget, input, output, errors),
        Command::Back(k) => go_back(machine, trail, *k, input, output),
        shown => end_of_put(show(machine, shown, output)),
    }
}

/// Obeys the commands of a script, which may go back, by a machine that has counted no step and has sixteen marks,
/// which are none, with a budget of steps and the whole input. What the commands print goes to `output`, between the
/// bytes that the program writes there; what the program writes is put by the first step that counts so far, and not
/// again by a step behind `back`.
///
/// A fault is answered only where that stream failed, and then the session is broken off: what was put are first bytes
/// of what the whole session puts. It takes no memory.
pub fn session_back<O: Sink, E: Sink>(
    machine: &mut Machine,
    script: &Script,
    budget: u64,
    input: &[u8],
    output: &mut O,
    errors: &mut E,
) -> BackEnd
    requires marks { length machine.old.marks ≡ 16 }
    requires places { length machine.old.saved ≡ 16 }
    requires none { count_by is_some machine.old.marks ≡ 0 }
    requires steps { machine.old.parts.steps ≡ 0 }
    requires going { has_ended machine.old ≡ false }
    ensures output { IfSome (O.held output.old) (λ had. Gains (is_fault result) (O.held output.new) had
        (model.session script.now budget (with_input machine.old.parts input.now)).output) }
    ensures errors { IfSome (E.held errors.old) (λ had. Gains (is_fault result) (E.held errors.new) had
        (model.session script.now budget (with_input machine.old.parts input.now)).errors) }
    ensures write_cause { Causes (result ≡ BackEnd.WriteFault) (O.faults output.old) (O.faults output.new) }
    ensures errors_cause { Causes (result ≡ BackEnd.ErrorsFault) (E.faults errors.old) (E.faults errors.new) }
{
    let commands = script.commands();
    let mut points = Points::new();
    let mut trail = Trail::begin(machine);
    'walk: for k in 0..commands.len() {
        let command = command_at(commands, k);
        match obey(
            command, &points, machine, &mut trail, budget, input, output, errors,
        ) {
            BackEnd::Done => {}
            end => return end,
        }
        points.add_if(command);
    }
    BackEnd::Done
}
