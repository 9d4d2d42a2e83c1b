//! The commands that move the machine by lines of the source.
ghost use Rattle.std.specs.Prelude.{◌≡◌, IfOk, OnOk};
ghost use Rattle.dbg_back.specs.Walks.{CanWalk};
ghost use Rattle.debug_moves.specs.Sessions.{MeetsStop};
ghost use Rattle.debug_walk.specs.Walks.{StaysOn};

use crate::ends::Broken;
use crate::session::{Reached, Session};
use dbg_back::is_below;
use debug_points::Aim;
use debug_values::{is_call, word_at};
use debug_walk::Trail;
use debug_words::Move;
use emu_bits::Reg;
use emu_machine::Machine;
use io_gate::Sink;
use source_lines::{SourcePlace, address_at, address_behind, place_at};

/// Whether a command goes on by lines of the source.
pub fn is_by_lines(way: Move) -> bool {
    matches!(way, Move::StepLine | Move::NextLine)
}

/// The addresses that are passed at once, from one up to another: those of the row of the place where a machine stands,
/// or of its function where no line is known of it.
fn passed_at_once(session: &Session, machine: &Machine) -> (u64, u64) {
    let pc = machine.core().pc();
    match place_at(session.rows, pc) {
        None => session.function(machine),
        Some(_) => (
            address_at(session.rows, pc),
            address_behind(session.rows, pc),
        ),
    }
}

/// Whether the line of the place where a machine stands is known.
fn has_line(session: &Session, machine: &Machine) -> bool {
    place_at(session.rows, machine.core().pc()).is_some()
}

/// Whether a place is of a line, if there is one.
fn is_of(place: &SourcePlace<'_>, line: &Option<SourcePlace<'_>>) -> bool {
    match line {
        None => false,
        Some(line) => place.line == line.line && place.file == line.file,
    }
}

/// Whether the line of the place where a machine stands is known, and isn't the one that it stood at.
fn is_at_another(session: &Session, from: &Option<SourcePlace<'_>>, machine: &Machine) -> bool {
    match place_at(session.rows, machine.core().pc()) {
        None => false,
        Some(place) => !is_of(&place, from),
    }
}

/// Whether a move ended elsewhere than it was to go.
fn is_stopped(reached: &Reached) -> bool {
    !matches!(*reached, Reached::Aim)
}

/// Goes on to the function that a call calls, if lines of that are known, and else behind the call: to an address, with
/// the stack as it is.
fn enter_call<O: Sink, E: Sink>(
    session: &mut Session,
    behind: u64,
    sp: u64,
    machine: &mut Machine,
    trail: &mut Trail,
    output: &mut O,
    errors: &mut E,
) -> Result<Reached, Broken>
    requires walks { CanWalk session.old.input.now machine.old trail.old }
    ensures stays { OnOk result (StaysOn session.old.input.now machine.old machine.new trail.old trail.new) }
    ensures input { session.new.input.now ≡ session.old.input.now }
    ensures met { IfOk result (MeetsStop machine.new) }
{
    let call = machine.core().pc();
    let aim = Aim::Outside(call, call, false);
    let reached = session.seek(aim, machine, trail, output, errors)?;
    let stays = machine.core().pc() == behind || has_line(session, machine);
    if stays || is_stopped(&reached) {
        return Ok(reached);
    }
    session.seek(Aim::Above(behind, sp), machine, trail, output, errors)
}

/// Goes on behind a call; or, where calls are gone into, to the function that it calls, if lines of that are known.
fn pass_call<O: Sink, E: Sink>(
    session: &mut Session,
    into: bool,
    machine: &mut Machine,
    trail: &mut Trail,
    output: &mut O,
    errors: &mut E,
) -> Result<Reached, Broken>
    requires walks { CanWalk session.old.input.now machine.old trail.old }
    ensures stays { OnOk result (StaysOn session.old.input.now machine.old machine.new trail.old trail.new) }
    ensures input { session.new.input.now ≡ session.old.input.now }
    ensures met { IfOk result (MeetsStop machine.new) }
{
    let call = machine.core().pc();
    let behind = call.wrapping_add(4);
    let sp = machine.core().x_sp(Reg::at(31, 0));
    if into {
        return enter_call(session, behind, sp, machine, trail, output, errors);
    }
    session.seek(Aim::Above(behind, sp), machine, trail, output, errors)
}

/// Goes on out of what is passed at once, to a call in it, or behind one.
fn pass_row<O: Sink, E: Sink>(
    session: &mut Session,
    into: bool,
    machine: &mut Machine,
    trail: &mut Trail,
    output: &mut O,
    errors: &mut E,
) -> Result<Reached, Broken>
    requires walks { CanWalk session.old.input.now machine.old trail.old }
    ensures stays { OnOk result (StaysOn session.old.input.now machine.old machine.new trail.old trail.new) }
    ensures input { session.new.input.now ≡ session.old.input.now }
    ensures met { IfOk result (MeetsStop machine.new) }
{
    if is_call(word_at(machine.mem(), machine.core().pc())) {
        return pass_call(session, into, machine, trail, output, errors);
    }
    let (start, behind) = passed_at_once(session, machine);
    let aim = Aim::Outside(start, behind, true);
    session.seek(aim, machine, trail, output, errors)
}

/// Goes on to the first place whose line is known and isn't the present one. Calls are passed with all that they do;
/// or, where they are gone into, only those of functions of which no line is known.
pub fn step_line<O: Sink, E: Sink>(
    session: &mut Session,
    into: bool,
    machine: &mut Machine,
    trail: &mut Trail,
    output: &mut O,
    errors: &mut E,
) -> Result<Reached, Broken>
    requires walks { CanWalk session.old.input.now machine.old trail.old }
    ensures stays { OnOk result (StaysOn session.old.input.now machine.old machine.new trail.old trail.new) }
    ensures input { session.new.input.now ≡ session.old.input.now }
    ensures met { IfOk result (MeetsStop machine.new) }
{
    let from = place_at(session.rows, machine.core().pc());
    let limit = session.limit(machine);
    'rows: for _ in 0..session.slice {
        if !is_below(machine, limit) {
            return Ok(session.unmet(machine));
        }
        let pc = machine.core().pc();
        let calls = into && is_call(word_at(machine.mem(), pc));
        let reached = pass_row(session, into, machine, trail, output, errors)?;
        let entered = calls && machine.core().pc() != pc.wrapping_add(4);
        if is_stopped(&reached) || entered || is_at_another(session, &from, machine) {
            return Ok(reached);
        }
    }
    Ok(session.unmet(machine))
}
