//! The command that moves the machine back.
ghost use Rattle.std.specs.Prelude.{◌≡◌, ◌≢◌, ◌≤◌, ◌+◌, ◌++◌, ℕ, List, []};
ghost use Rattle.std.specs.Prelude.{Option, None, get_or, is_some, length as len, true, false};
ghost use Rattle.io_gate.specs.Streams.{Causes, HasCause};
ghost use Rattle.io_gate.specs.Pieces.{PutsAll};
ghost use Rattle.emu_run.specs.Reports.{address_text};
ghost use Rattle.dbg_model.specs.Session.{back_text, back_to, went_back};
ghost use Rattle.dbg_back.specs.Ends.{is_fault};
ghost use Rattle.dbg_back.specs.Walks.{CanWalk, Does, Turns};

use crate::dropped::Dropped;
use crate::ends::{BackEnd, end_of_put};
use crate::marks::{drop_marks, nearest_mark};
use crate::moves::move_to;
use crate::trail::Trail;
use emu_machine::Machine;
use emu_report::Text;
use io_gate::{Failed, Sink};

/// Appends an address, as in the other lines.
fn push_address(text: &mut Text, address: u64)
    requires { len text.old + 18 ≤ 2048 }
    ensures text { text.new ≡ text.old ++ address_text address }
    ensures len { len text.new ≡ len text.old + 18 }
{
    text.push(b"0x");
    text.push_hex(address, 16);
}

/// Puts the line of a machine that went back, as `back to 1 steps at 0x0000000000400004`.
fn put_back<S: Sink>(machine: &Machine, sink: &mut S) -> Result<(), Failed>
    ensures bytes { PutsAll (S.held sink.old) (S.held sink.new) (back_text machine.now.parts) result }
    ensures cause { HasCause (S.faults sink.old) (S.faults sink.new) result }
{
    let mut text = Text::new();
    text.push(b"back to ");
    text.push_decimal(machine.steps());
    text.push(b" steps at ");
    push_address(&mut text, machine.core().pc());
    text.push(b"\n");
    text.put(sink)
}

/// Makes the machine that of the mark of the greatest number of steps up to `target`, and drops all marks but this one
/// and the first.
pub fn restore_before(machine: &mut Machine, trail: &mut Trail, target: u64)
    requires count { len machine.old.marks ≡ 16 }
    requires saved { len machine.old.saved ≡ 16 }
    requires first { is_some (get_or machine.old.marks 0 None) ≡ true }
    requires start { get_or trail.old.steps 0 0 ≡ 0 }
    ensures turns { Turns target machine.old machine.new trail.old trail.new }
    ensures accesses { machine.new.accesses ≡ [] }
{
    let nearest = nearest_mark(machine, trail, target);
    drop_marks(machine, nearest);
    machine.restore(nearest);
    trail.stand_at(nearest);
}

/// Makes the machine that of the run from the start behind `target` steps, which it has counted.
pub fn turn_back(machine: &mut Machine, trail: &mut Trail, k: u64, input: &[u8])
    requires walks { CanWalk input.now machine.old trail.old }
    ensures does { (held errs : Option (List ℕ)) → Does (λ start. back_to start k) input.now machine.old machine.new
        trail.old trail.new held held errs errs false }
{
    let target = machine.steps().saturating_sub(k);
    restore_before(machine, trail, target);
    move_to(machine, trail, target, input, &mut Dropped, &mut Dropped);
}

/// `back K`: goes to the machine with K counted steps fewer, or to the start, and puts where that is. Steps from a mark
/// on go with sinks that drop what they get.
pub fn go_back<O: Sink>(
    machine: &mut Machine,
    trail: &mut Trail,
    k: u64,
    input: &[u8],
    output: &mut O,
) -> BackEnd
    requires walks { CanWalk input.now machine.old trail.old }
    ensures does { (errs : Option (List ℕ)) → Does (λ start. went_back start k) input.now machine.old machine.new
        trail.old trail.new (O.held output.old) (O.held output.new) errs errs (is_fault result) }
    ensures write_cause { Causes (result ≡ BackEnd.WriteFault) (O.faults output.old) (O.faults output.new) }
    ensures no_errors { result ≢ BackEnd.ErrorsFault }
{
    turn_back(machine, trail, k, input);
    end_of_put(put_back(machine, output))
}
