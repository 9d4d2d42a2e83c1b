//! What is put where the machine stands behind a command.
ghost use Rattle.std.specs.Prelude.{◌≡◌, ◌<◌, false, OnOk};
ghost use Rattle.emu_model.specs.State.{State};
ghost use Rattle.emu_machine.specs.Machines.{has_ended};
ghost use Rattle.dbg_model.specs.Session.{Course};
ghost use Rattle.dbg_back.specs.Walks.{CanWalk, IsWalk};
ghost use Rattle.debug_walk.specs.Walks.{StaysOn, at_step};

use dbg_back::Dropped;
use debug_moves::{Broken, Reached, Session};
use debug_points::What;
use debug_reports::{put, put_where};
use debug_shows::{Before, push_changes, push_met};
use debug_walk::{Trail, go_to};
use emu_machine::Machine;
use guest_mem::Access;
use io_gate::Sink;
use std::alloc::{AllocError, Global};

/// The accesses of the last step of a machine, as a list of its own. Err is want of memory.
fn accesses_of(alloc: Global, machine: &Machine) -> Result<Vec<Access>, AllocError> {
    Vec::from_slice(alloc, machine.accesses())
}

/// Goes to where so many steps are counted, which the run has come to before: what the program wrote isn't put again.
fn stand_at(session: &Session, machine: &mut Machine, trail: &mut Trail, target: u64)
    requires { CanWalk session.now.input.now machine.old trail.old }
    ensures { (start : State) (c : Course) → IsWalk start session.now.input.now c machine.old trail.old → IsWalk start
        session.now.input.now (at_step start target c) machine.new trail.new }
{
    go_to(
        machine,
        trail,
        target,
        session.input,
        &mut Dropped,
        &mut Dropped,
    );
}

/// The machine before its last step, as far as what the step changed is told by it, where so many steps are counted.
/// The machine is then as before, and its accesses are those of the step.
fn step_before(
    alloc: Global,
    session: &Session,
    machine: &mut Machine,
    trail: &mut Trail,
    here: u64,
) -> Result<Before, Broken>
    requires walks { CanWalk session.now.input.now machine.old trail.old }
    requires here { here ≡ machine.old.parts.steps }
    requires some { 0 < here }
    requires going { has_ended machine.old ≡ false }
    ensures stays { OnOk result (StaysOn session.now.input.now machine.old machine.new trail.old trail.new) }
    ensures same { OnOk result (machine.new.parts ≡ machine.old.parts) }
{
    stand_at(session, machine, trail, here - 1);
    stand_at(session, machine, trail, here);
    let accesses = accesses_of(alloc, machine)?;
    stand_at(session, machine, trail, here - 1);
    let before = Before::of(alloc, machine, &accesses)?;
    stand_at(session, machine, trail, here);
    Ok(before)
}

/// The machine before its last step, as far as what the step changed is told by it. None where no step was taken, or
/// the machine has ended. The machine is then as before, and its accesses are those of the step.
pub fn before_step(
    alloc: Global,
    session: &Session,
    machine: &mut Machine,
    trail: &mut Trail,
) -> Result<Option<Before>, Broken>
    requires walks { CanWalk session.now.input.now machine.old trail.old }
    ensures stays { OnOk result (StaysOn session.now.input.now machine.old machine.new trail.old trail.new) }
    ensures same { OnOk result (machine.new.parts ≡ machine.old.parts) }
{
    let here = machine.steps();
    if here == 0 {
        return Ok(None);
    }
    if machine.ended() {
        return Ok(None);
    }
    let before = step_before(alloc, session, machine, trail, here)?;
    Ok(Some(before))
}

/// Puts what the last step changed.
fn put_changes<O: Sink>(
    alloc: Global,
    session: &Session,
    asked: Option<(u64, u64)>,
    machine: &mut Machine,
    trail: &mut Trail,
    output: &mut O,
) -> Result<(), Broken>
    requires walks { CanWalk session.now.input.now machine.old trail.old }
    ensures stays { OnOk result (StaysOn session.now.input.now machine.old machine.new trail.old trail.new) }
    ensures same { OnOk result (machine.new.parts ≡ machine.old.parts) }
{
    if let Some(before) = before_step(alloc, session, machine, trail)? {
        let mut text = String::new(alloc);
        push_changes(&mut text, session.symbols, asked, &before, machine)?;
        put(text.as_str(), output)?;
    }
    Ok(())
}

/// Puts why a move ended where it did.
fn put_reached<O: Sink>(
    alloc: Global,
    session: &Session,
    reached: &Reached,
    machine: &Machine,
    output: &mut O,
) -> Result<(), Broken> {
    match reached {
        Reached::Stop(point) => {
            let mut text = String::new(alloc);
            push_met(&mut text, session.symbols, point)?;
            put(text.as_str(), output)
        }
        Reached::Slice => put("stopped by itself: an empty line goes on\n", output),
        Reached::End if !machine.ended() && machine.steps() == 0 => put("the start\n", output),
        Reached::End if !machine.ended() => put("the budget is spent\n", output),
        Reached::End | Reached::Aim | Reached::Written(_, _) => Ok(()),
    }
}

/// The bytes that a stop is about: those of a watch.
fn asked_of(reached: &Reached) -> Option<(u64, u64)> {
    match reached {
        Reached::Stop(point) => match point.what {
            What::Watch(_, address, count) => Some((address, count)),
            What::Break(_, _) => None,
        },
        Reached::Written(address, count) => Some((*address, *count)),
        Reached::Aim | Reached::Slice | Reached::End => None,
    }
}

/// Puts where a move ended, and what the last step changed.
pub fn put_stop<O: Sink>(
    alloc: Global,
    session: &Session,
    reached: Reached,
    machine: &mut Machine,
    trail: &mut Trail,
    output: &mut O,
) -> Result<(), Broken>
    requires walks { CanWalk session.now.input.now machine.old trail.old }
    ensures stays { OnOk result (StaysOn session.now.input.now machine.old machine.new trail.old trail.new) }
    ensures same { OnOk result (machine.new.parts ≡ machine.old.parts) }
{
    put_reached(alloc, session, &reached, machine, output)?;
    put_where(alloc, session, machine, output)?;
    let asked = asked_of(&reached);
    put_changes(alloc, session, asked, machine, trail, output)
}
