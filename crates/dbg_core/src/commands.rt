//! The commands of a script, one after the other.
ghost use Rattle.std.specs.Prelude.{◌≡◌, ◌<◌, ◌⊎◌, true, false, is_none, length, slice_get, IfSome, IsTrue, Some};
ghost use Rattle.io_gate.specs.Streams.{Causes};
ghost use Rattle.emu_system.specs.Start.{with_input};
ghost use Rattle.linux_calls.specs.Names.{NamesRead};
ghost use Rattle.emu_machine.specs.Machines.{MakesWrite};
ghost use Rattle.emu_machine.specs.Ends.{Becomes, TakesWithin, Puts};
ghost use Rattle.dbg_model.specs.Commands.{has_back};
ghost use Rattle.dbg_model.specs.ScriptLimits.{is_within};
ghost use Rattle.dbg_model.specs.Forward as model;
ghost use Rattle.dbg_core.specs.Ends.{LeavesMachine, Obeys, Spares, StandsIn, StandsWith, is_fault};

use crate::ends::{SessionEnd, end_of_put};
use crate::lines::put_shown;
use crate::moves::{go, step};
use crate::points::Points;
use dbg_model::{Command, Script};
use emu_machine::Machine;
use io_gate::{Sink, Source};

/// The command at a place.
fn command_at(commands: &[Command], k: usize) -> &Command
    requires { k < length commands.now }
    ensures { slice_get commands.now k ≡ Some result.now }
{
    &commands[k]
}

/// Obeys one command.
fn obey<I: Source, O: Sink, E: Sink>(
    command: &Command,
    points: &Points,
    machine: &mut Machine,
    budget: u64,
    input: &mut I,
    output: &mut O,
    errors: &mut E,
) -> SessionEnd
    requires failed { machine.old.failed ≡ false }
    requires within { IsTrue (is_within command.now) }
    ensures obeys { Obeys (model.obeyed command.now points.now budget) machine.old.parts machine.new.parts
        (I.left input.old) (I.left input.new) (O.held output.old) (O.held output.new) (E.held errors.old)
        (E.held errors.new) result }
    ensures leaves { LeavesMachine (model.obeyed command.now points.now budget) budget machine.old.parts machine.new
        (I.left input.old) (I.left input.new) result }
    ensures spares { Spares (model.obeyed command.now points.now budget) machine.old.parts machine.new
        (I.left input.old) (I.left input.new) (O.held output.old) (O.held output.new) (E.held errors.old)
        (E.held errors.new) result }
    ensures done { result ≡ SessionEnd.Done → machine.new.failed ≡ false }
    ensures read_cause { Causes (result ≡ SessionEnd.ReadFault) (I.faults input.old) (I.faults input.new) }
    ensures write_cause { Causes (result ≡ SessionEnd.WriteFault) (O.faults output.old) (O.faults output.new) }
    ensures errors_cause { Causes (result ≡ SessionEnd.ErrorsFault) (E.faults errors.old) (E.faults errors.new) }
    ensures read_named { result ≡ SessionEnd.ReadFault → NamesRead machine.new.parts.core }
    ensures errors_named { result ≡ SessionEnd.ErrorsFault → MakesWrite machine.new.parts 2 }
{
    match command {
        Command::Step(n) => step(machine, *n, budget, input, output, errors),
        Command::Go => go(machine, points, budget, input, output, errors),
        shown => end_of_put(put_shown(shown, machine, output)),
    }
}

/// Obeys the commands of a script, of which none goes back, by a machine with a budget of steps. What the commands
/// print goes to `output`, between the bytes that the program writes there.
///
/// A fault is answered only where that stream failed, and then the session is broken off: what was put are first bytes
/// of what the whole session puts, and no more was taken. `WriteFault` also stands for the session's own lines: the
/// machine is then as the commands leave it, up to the one whose line wasn't put. After a fault in a step the machine
/// has ended, before that step, except that bytes which its call took are stored. A sink that didn't fail has all that
/// was put up to there. It takes no memory.
pub fn session<I: Source, O: Sink, E: Sink>(
    machine: &mut Machine,
    script: &Script,
    budget: u64,
    input: &mut I,
    output: &mut O,
    errors: &mut E,
) -> SessionEnd
    requires failed { machine.old.failed ≡ false }
    requires forward { has_back script.now ≡ false }
    ensures state { Becomes (model.session script.now budget) machine.old.parts machine.new.parts (I.left input.old)
        (I.left input.new) (is_fault result) }
    ensures input { TakesWithin (model.session script.now budget) machine.old.parts (I.left input.old)
        (I.left input.new) (is_fault result) }
    ensures output { Puts (λ st. (model.session script.now budget st).output) machine.old.parts (I.left input.old)
        (O.held output.old) (O.held output.new) (is_fault result) }
    ensures errors { Puts (λ st. (model.session script.now budget st).errors) machine.old.parts (I.left input.old)
        (E.held errors.old) (E.held errors.new) (is_fault result) }
    ensures stands { IfSome (I.left input.old)
        (λ bytes. StandsIn script.now budget (with_input machine.old.parts bytes) machine.new (I.left input.new)) }
    ensures done { result ≡ SessionEnd.Done → machine.new.failed ≡ false }
    ensures line { machine.new.failed ≡ false → is_fault result ≡ true → result ≡ SessionEnd.WriteFault }
    ensures unspent { machine.new.failed ≡ true → machine.new.parts.steps < budget }
    ensures unended { machine.new.failed ≡ true → is_none machine.new.parts.ended ≡ true }
    ensures read_cause { Causes (result ≡ SessionEnd.ReadFault) (I.faults input.old) (I.faults input.new) }
    ensures write_cause { Causes (result ≡ SessionEnd.WriteFault) (O.faults output.old) (O.faults output.new) }
    ensures errors_cause { Causes (result ≡ SessionEnd.ErrorsFault) (E.faults errors.old) (E.faults errors.new) }
    ensures read_named { result ≡ SessionEnd.ReadFault → NamesRead machine.new.parts.core }
    ensures write_named { machine.new.failed ≡ true → result ≡ SessionEnd.WriteFault → MakesWrite machine.new.parts 1 }
    ensures errors_named { result ≡ SessionEnd.ErrorsFault → MakesWrite machine.new.parts 2 }
    ensures whole_output { (result ≡ SessionEnd.ReadFault) ⊎ (result ≡ SessionEnd.ErrorsFault)
        → IfSome (I.left input.old) (λ bytes. StandsWith (λ st. st.output) script.now budget
        (with_input machine.old.parts bytes) machine.new (I.left input.new) (O.held output.old) (O.held output.new)) }
    ensures whole_errors { (result ≡ SessionEnd.ReadFault) ⊎ (result ≡ SessionEnd.WriteFault)
        → IfSome (I.left input.old) (λ bytes. StandsWith (λ st. st.errors) script.now budget
        (with_input machine.old.parts bytes) machine.new (I.left input.new) (E.held errors.old) (E.held errors.new)) }
{
    let commands = script.commands();
    let mut points = Points::new();
    'walk: for k in 0..commands.len() {
        let command = command_at(commands, k);
        match obey(command, &points, machine, budget, input, output, errors) {
            SessionEnd::Done => {}
            end => return end,
        }
        points.add_if(command);
    }
    SessionEnd::Done
}
