//! The commands that move the machine.
ghost use Rattle.std.specs.Prelude.{◌≡◌, IfOk, OnOk, is_some, true};
ghost use Rattle.emu_model.specs.State.{State};
ghost use Rattle.dbg_model.specs.Session.{Course};
ghost use Rattle.dbg_back.specs.Walks.{CanWalk, IsWalk};
ghost use Rattle.debug_moves.specs.Sessions.{MeetsStop, back_to_write, last_write};
ghost use Rattle.debug_walk.specs.Walks.{StaysOn};

use crate::ends::Broken;
use crate::line_moves::step_line;
use crate::session::{Reached, Session, steps_before};
use debug_points::{Aim, Goal, Points};
use debug_values::{is_call, is_return, word_at};
use debug_walk::{Trail, backward, machines_before};
use debug_words::Move;
use emu_bits::Reg;
use emu_machine::Machine;
use io_gate::Sink;
use std::alloc::Global;

/// Takes one step with the whole of a call that it makes.
fn next<O: Sink, E: Sink>(
    session: &mut Session,
    machine: &mut Machine,
    trail: &mut Trail,
    output: &mut O,
    errors: &mut E,
) -> Result<Reached, Broken>
    requires walks { CanWalk session.old.input.now machine.old trail.old }
    ensures stays { OnOk result (StaysOn session.old.input.now machine.old machine.new trail.old trail.new) }
    ensures input { session.new.input.now ≡ session.old.input.now }
    ensures met { IfOk result (MeetsStop machine.new) }
{
    let pc = machine.core().pc();
    if is_call(word_at(machine.mem(), pc)) {
        let sp = machine.core().x_sp(Reg::at(31, 0));
        return session.seek(
            Aim::Above(pc.wrapping_add(4), sp),
            machine,
            trail,
            output,
            errors,
        );
    }
    let target = machine.steps().saturating_add(1);
    session.go(machine, trail, target, output, errors)?;
    Ok(Reached::Aim)
}

/// Goes one step back, and where that is behind a return to the call that it belongs to.
fn next_back<O: Sink, E: Sink>(
    session: &mut Session,
    machine: &mut Machine,
    trail: &mut Trail,
    output: &mut O,
    errors: &mut E,
) -> Result<Reached, Broken>
    requires walks { CanWalk session.old.input.now machine.old trail.old }
    ensures stays { OnOk result (StaysOn session.old.input.now machine.old machine.new trail.old trail.new) }
    ensures input { session.new.input.now ≡ session.old.input.now }
    ensures met { IfOk result (MeetsStop machine.new) }
{
    let call = machine.core().pc().wrapping_sub(4);
    let sp = machine.core().x_sp(Reg::at(31, 0));
    session.go(machine, trail, steps_before(machine, 1), output, errors)?;
    if is_return(word_at(machine.mem(), machine.core().pc())) {
        return Ok(session.seek_back(Aim::Above(call, sp), machine, trail));
    }
    Ok(Reached::Aim)
}

/// Whether a move goes on behind where it ended.
fn goes_on(reached: &Reached, way: Move) -> bool {
    match reached {
        Reached::Stop(_) => matches!(way, Move::Continue | Move::ContinueBack),
        Reached::Aim => true,
        Reached::Written(_, _) | Reached::Slice | Reached::End => false,
    }
}

/// Takes a move once.
fn once<O: Sink, E: Sink>(
    session: &mut Session,
    way: Move,
    machine: &mut Machine,
    trail: &mut Trail,
    output: &mut O,
    errors: &mut E,
) -> Result<Reached, Broken>
    requires walks { CanWalk session.old.input.now machine.old trail.old }
    ensures stays { OnOk result (StaysOn session.old.input.now machine.old machine.new trail.old trail.new) }
    ensures input { session.new.input.now ≡ session.old.input.now }
    ensures met { IfOk result (MeetsStop machine.new) }
{
    match way {
        Move::Next => next(session, machine, trail, output, errors),
        Move::NextBack => next_back(session, machine, trail, output, errors),
        Move::StepLine => step_line(session, true, machine, trail, output, errors),
        Move::NextLine => step_line(session, false, machine, trail, output, errors),
        Move::ContinueBack => Ok(session.seek_back(Aim::Stops, machine, trail)),
        _ => session.seek(Aim::Stops, machine, trail, output, errors),
    }
}

/// Takes a move so often, on or back, as far as nothing stops it. Err says which stream failed.
pub fn go<O: Sink, E: Sink>(
    session: &mut Session,
    way: Move,
    count: u64,
    machine: &mut Machine,
    trail: &mut Trail,
    output: &mut O,
    errors: &mut E,
) -> Result<Reached, Broken>
    requires walks { CanWalk session.old.input.now machine.old trail.old }
    ensures stays { OnOk result (StaysOn session.old.input.now machine.old machine.new trail.old trail.new) }
    ensures input { session.new.input.now ≡ session.old.input.now }
    ensures met { IfOk result (MeetsStop machine.new) }
{
    if matches!(way, Move::Step) {
        let target = machine.steps().saturating_add(count);
        session.go(machine, trail, target, output, errors)?;
        return Ok(Reached::Aim);
    }
    if matches!(way, Move::StepBack) {
        session.go(machine, trail, steps_before(machine, count), output, errors)?;
        return Ok(Reached::Aim);
    }
    let mut reached = Reached::Aim;
    'moves: for _ in 0..count {
        reached = once(session, way, machine, trail, output, errors)?;
        if !goes_on(&reached, way) {
            return Ok(reached);
        }
    }
    Ok(reached)
}

/// Goes back to the step before the last one that wrote to so many bytes from an address on: to the machine behind it.
/// False where there is none, and the machine is then as before. Err says which stream failed.
pub fn go_to_last_write<O: Sink, E: Sink>(
    alloc: Global,
    session: &Session,
    address: u64,
    count: u64,
    machine: &mut Machine,
    trail: &mut Trail,
    output: &mut O,
    errors: &mut E,
) -> Result<bool, Broken>
    requires walks { CanWalk session.now.input.now machine.old trail.old }
    ensures found { IfOk result (λ found. (start : State) (c : Course) → IsWalk start session.now.input.now c
        machine.old trail.old → found ≡ is_some (last_write address count start c)) }
    ensures back { IfOk result (λ found. found ≡ true → (start : State) (c : Course) → IsWalk start
        session.now.input.now c machine.old trail.old → IsWalk start session.now.input.now
        (back_to_write address count start c) machine.new trail.new) }
    ensures stays { OnOk result (StaysOn session.now.input.now machine.old machine.new trail.old trail.new) }
{
    let here = machines_before(machine);
    let none = Points::new(alloc);
    let goal = Goal {
        points: &none,
        aim: Aim::Write(address, count),
    };
    if backward(&goal, machine, trail, 0, session.input) {
        return Ok(true);
    }
    session.go(machine, trail, here, output, errors)?;
    Ok(false)
}
