//! The state of a session beside its machine, and how it moves the machine.
ghost use Rattle.std.specs.Prelude.{◌≡◌, ◌<◌, ◌≤◌, ◌-◌, ℕ, List, [], Option, min, length, slice_get, is_err, IfOk};
ghost use Rattle.std.specs.Prelude.{IfSome, OnOk, None, Some, false};
ghost use Rattle.std.specs.Bool.{OnTrue};
ghost use Rattle.emu_model.specs.State.{State};
ghost use Rattle.dbg_model.specs.Session.{Course, walked};
ghost use Rattle.dbg_back.specs.Walks.{CanWalk, Does, IsWalk};
ghost use Rattle.debug_moves.specs.Sessions.{
  MeetsStop,
  back_from,
  limit,
  met_before,
  met_first,
  moved_back,
  moved_on,
  next_met,
  seek_until,
  stop_or,
  unmet,
};
ghost use Rattle.debug_walk.specs.Walks.{StaysOn, at_step, machines_before};

use crate::ends::{Broken, done};
use dbg_back::move_to;
use debug_points::{Aim, Goal, Point, Points};
use debug_walk::{Trail, backward, forward, go_to, machines_before};
use elf_symbols::{Symbol, symbol_at};
use emu_bits::Reg;
use emu_machine::Machine;
use io_gate::Sink;
use source_lines::{Row, SourceFile, SourcePlace};

/// The state of a session beside its machine.
#[derive(Drop)]
pub struct Session<'symbols, 'names, 'rows, 'table, 'sources, 'texts, 'input> {
    /// The symbols of the program's file, in the order of `elf_symbols::symbols`.
    pub symbols: &'symbols [Symbol<'names>],
    /// The lines of the program's source by their addresses.
    pub rows: &'rows [Row<'table>],
    /// The files of the source that are there.
    pub sources: &'sources [SourceFile<'texts>],
    /// The program's whole input, as bytes.
    pub input: &'input [u8],
    /// The greatest number of steps in all.
    pub budget: u64,
    /// How many steps a command goes at most.
    pub slice: u64,
    /// The breaks and watches, with the stops of each that are still to be passed.
    pub points: Points,
    /// Whether a prompt is shown before each line.
    pub prompted: bool,
    /// Which line a listing goes on from, where one was shown since the machine moved.
    pub listed: Option<SourcePlace<'table>>,
}

/// Where a move ended.
#[derive(Clone, Copy)]
pub enum Reached {
    /// At a break or watch.
    Stop(Point),
    /// Where the command was to go.
    Aim,
    /// Behind a write to so many bytes from an address on.
    Written(u64, u64),
    /// By itself, behind as many steps as a command goes.
    Slice,
    /// At the end of the program, or of its budget; or at the start.
    End,
}

/// The break or watch at a place.
fn point_at(points: &[Point], place: usize) -> Point
    requires { place < length points.now }
    ensures { slice_get points.now place ≡ Some result }
{
    points[place]
}

impl Session<'_, '_, '_, '_, '_, '_, '_> {
    /// How many steps a command counts at most, in all.
    pub fn limit(&self, machine: &Machine) -> u64
        ensures { result ≡ limit machine.now.parts.steps self.now.slice self.now.budget }
    {
        machine.steps().saturating_add(self.slice).min(self.budget)
    }

    /// Goes to the machine behind so many steps of the run, back or on, at most as many as the budget. Err says
    /// which stream failed.
    pub fn go<O: Sink, E: Sink>(
        &self,
        machine: &mut Machine,
        trail: &mut Trail,
        target: u64,
        output: &mut O,
        errors: &mut E,
    ) -> Result<(), Broken>
        requires walks { CanWalk self.now.input.now machine.old trail.old }
        ensures does { Does (λ start. at_step start (min target self.now.budget)) self.now.input.now machine.old
            machine.new trail.old trail.new (O.held output.old) (O.held output.new) (E.held errors.old)
            (E.held errors.new) (is_err result) }
        ensures stays { OnOk result (StaysOn self.now.input.now machine.old machine.new trail.old trail.new) }
    {
        done(go_to(
            machine,
            trail,
            target.min(self.budget),
            self.input,
            output,
            errors,
        ))
    }

    /// Where a machine is that met nothing: `End` where it has ended, stands at the start or has spent the budget, and
    /// else `Slice`.
    pub fn unmet(&self, machine: &Machine) -> Reached
        ensures unmet { result ≡ unmet self.now.budget machine.now.parts }
        ensures met { MeetsStop machine.now result }
    {
        if machine.ending().is_some() || machine.steps() >= self.budget || machine.steps() == 0 {
            Reached::End
        } else {
            Reached::Slice
        }
    }

    /// Counts the stop at a break or watch that the machine meets. None where it is passed.
    fn stop(&mut self, machine: &Machine) -> Option<Reached>
        ensures input { self.new.input.now ≡ self.old.input.now }
        ensures slice { self.new.slice ≡ self.old.slice }
        ensures budget { self.new.budget ≡ self.old.budget }
        ensures stops { result ≡ (met_first self.old.points machine.now.parts machine.now.accesses).reached }
        ensures points { self.new.points ≡ (met_first self.old.points machine.now.parts machine.now.accesses).points }
        ensures met { IfSome result (MeetsStop machine.now) }
    {
        match self.points.first_met(machine) {
            None => Some(Reached::Aim),
            Some(place) => {
                let point = point_at(self.points.items(), place);
                if self.points.stops(place) {
                    Some(Reached::Stop(point))
                } else {
                    None
                }
            }
        }
    }

    /// Whether nothing is sought.
    fn is_free(&self, aim: &Aim) -> bool
        ensures aim { OnTrue result (aim.now ≡ Aim.Stops) }
        ensures none { OnTrue result (self.now.points.items ≡ []) }
    {
        matches!(aim, Aim::Stops) && self.points.items().is_empty()
    }

    /// Goes on to the limit, or to the end.
    fn run_free<O: Sink, E: Sink>(
        &self,
        limit: u64,
        machine: &mut Machine,
        trail: &mut Trail,
        output: &mut O,
        errors: &mut E,
    ) -> Result<Reached, Broken>
        requires walks { CanWalk self.now.input.now machine.old trail.old }
        ensures does { Does (λ start c. walked c (limit - c.state.parts.steps)) self.now.input.now machine.old
            machine.new trail.old trail.new (O.held output.old) (O.held output.new) (E.held errors.old)
            (E.held errors.new) (is_err result) }
        ensures reached { IfOk result (λ reached. reached ≡ unmet self.now.budget machine.new.parts) }
        ensures stays { OnOk result (StaysOn self.now.input.now machine.old machine.new trail.old trail.new) }
        ensures met { IfOk result (MeetsStop machine.new) }
    {
        done(move_to(machine, trail, limit, self.input, output, errors))?;
        Ok(self.unmet(machine))
    }

    /// Goes on to a stop, or to an aim, by at least a step for each that is passed, and by at most a slice of steps.
    /// Err says which stream failed.
    pub fn seek<O: Sink, E: Sink>(
        &mut self,
        aim: Aim,
        machine: &mut Machine,
        trail: &mut Trail,
        output: &mut O,
        errors: &mut E,
    ) -> Result<Reached, Broken>
        requires walks { CanWalk self.old.input.now machine.old trail.old }
        ensures does { Does (λ start c. (moved_on aim self.old.slice self.old.budget self.old.points c).course)
            self.old.input.now machine.old machine.new trail.old trail.new (O.held output.old) (O.held output.new)
            (E.held errors.old) (E.held errors.new) (is_err result) }
        ensures points { OnOk result ((start : State) (c : Course) → IsWalk start self.old.input.now c machine.old
            trail.old → self.new.points ≡ (moved_on aim self.old.slice self.old.budget self.old.points c).points) }
        ensures reached { IfOk result (λ reached. (start : State) (c : Course) → IsWalk start self.old.input.now c
            machine.old trail.old → reached ≡ (moved_on aim self.old.slice self.old.budget self.old.points c).reached) }
        ensures stays { OnOk result (StaysOn self.old.input.now machine.old machine.new trail.old trail.new) }
        ensures input { self.new.input.now ≡ self.old.input.now }
        ensures met { IfOk result (MeetsStop machine.new) }
    {
        let limit = self.limit(machine);
        if self.is_free(&aim) {
            return self.run_free(limit, machine, trail, output, errors);
        }
        'seek: loop {
            match self.seek_once(&aim, limit, machine, trail, output, errors)? {
                Some(reached) => return Ok(reached),
                None => {}
            }
        }
    }

    /// Goes on to the next machine that meets a break, a watch or an aim, and counts the stop. None where it is passed.
    fn seek_once<O: Sink, E: Sink>(
        &mut self,
        aim: &Aim,
        limit: u64,
        machine: &mut Machine,
        trail: &mut Trail,
        output: &mut O,
        errors: &mut E,
    ) -> Result<Option<Reached>, Broken>
        requires walks { CanWalk self.old.input.now machine.old trail.old }
        ensures does { Does (λ start. next_met aim.now limit self.old.points) self.old.input.now machine.old
            machine.new trail.old trail.new (O.held output.old) (O.held output.new) (E.held errors.old)
            (E.held errors.new) (is_err result) }
        ensures on { IfOk result (λ reached. (start : State) (c : Course) → IsWalk start self.old.input.now c
            machine.old trail.old → (let there = next_met aim.now limit self.old.points c in seek_until aim.now
            self.old.budget limit self.old.points c ≡ stop_or reached self.new.points there (λ left. seek_until aim.now
            self.old.budget limit left there))) }
        ensures further { IfOk result (λ reached. reached ≡ None → machine.old.parts.steps < min
            machine.new.parts.steps limit) }
        ensures budget { self.new.budget ≡ self.old.budget }
        ensures stays { OnOk result (StaysOn self.old.input.now machine.old machine.new trail.old trail.new) }
        ensures input { self.new.input.now ≡ self.old.input.now }
        ensures met { IfOk result (λ reached. IfSome reached (MeetsStop machine.new)) }
    {
        let goal = Goal {
            points: &self.points,
            aim: *aim,
        };
        let found = forward(&goal, machine, trail, limit, self.input, output, errors);
        done(found.end)?;
        if found.met {
            Ok(self.stop(machine))
        } else {
            Ok(Some(self.unmet(machine)))
        }
    }

    /// Goes back to a stop, or to an aim, by at most a slice of steps.
    pub fn seek_back(&mut self, aim: Aim, machine: &mut Machine, trail: &mut Trail) -> Reached
        requires walks { CanWalk self.old.input.now machine.old trail.old }
        ensures does { (held errs : Option (List ℕ)) → Does (λ start c. (moved_back aim self.old.slice self.old.budget
            self.old.points start c).course) self.old.input.now machine.old machine.new trail.old trail.new held held
            errs errs false }
        ensures points { (start : State) (c : Course) → IsWalk start self.old.input.now c machine.old trail.old →
            self.new.points ≡ (moved_back aim self.old.slice self.old.budget self.old.points start c).points }
        ensures reached { (start : State) (c : Course) → IsWalk start self.old.input.now c machine.old trail.old →
            result ≡ (moved_back aim self.old.slice self.old.budget self.old.points start c).reached }
        ensures stays { StaysOn self.old.input.now machine.old machine.new trail.old trail.new }
        ensures input { self.new.input.now ≡ self.old.input.now }
        ensures met { MeetsStop machine.new result }
    {
        let least = machine.steps().saturating_sub(self.slice);
        'seek: loop {
            match self.seek_back_once(&aim, least, machine, trail) {
                Some(reached) => return reached,
                None => {}
            }
        }
    }

    /// Goes back to the last machine before this one that meets a break, a watch or an aim, from the one behind `least`
    /// steps on, and counts the stop; or else to that one. None where a stop is passed.
    fn seek_back_once(
        &mut self,
        aim: &Aim,
        least: u64,
        machine: &mut Machine,
        trail: &mut Trail,
    ) -> Option<Reached>
        requires walks { CanWalk self.old.input.now machine.old trail.old }
        ensures does { (held errs : Option (List ℕ)) → Does (λ start. met_before aim.now start (min least
            machine.old.parts.steps) self.old.points) self.old.input.now machine.old machine.new trail.old trail.new
            held held errs errs false }
        ensures back { (start : State) (c : Course) → IsWalk start self.old.input.now c machine.old trail.old →
            (let behind = min least machine.old.parts.steps in let there = met_before aim.now start behind
            self.old.points c in back_from aim.now self.old.budget start behind self.old.points c ≡ stop_or result
            self.new.points there (λ left. back_from aim.now self.old.budget start behind left there)) }
        ensures further { result ≡ None → machines_before machine.new.parts < machines_before machine.old.parts }
        ensures behind { result ≡ None → min least machine.old.parts.steps ≤ machine.new.parts.steps }
        ensures budget { self.new.budget ≡ self.old.budget }
        ensures stays { StaysOn self.old.input.now machine.old machine.new trail.old trail.new }
        ensures input { self.new.input.now ≡ self.old.input.now }
        ensures met { IfSome result (MeetsStop machine.new) }
    {
        let goal = Goal {
            points: &self.points,
            aim: *aim,
        };
        let behind = least.min(machine.steps());
        if backward(&goal, machine, trail, behind, self.input) {
            self.stop(machine)
        } else {
            Some(self.unmet(machine))
        }
    }

    /// The function of the place where a machine stands, from one address up to another: that of the symbol that
    /// reaches it, or the instruction alone.
    pub fn function(&self, machine: &Machine) -> (u64, u64) {
        let pc = machine.core().pc();
        match symbol_at(self.symbols, pc) {
            Some(symbol) if symbol.size > 0 => (
                symbol.address,
                symbol.address.saturating_add(symbol.size),
            ),
            _ => (pc, pc.saturating_add(4)),
        }
    }

    /// What `finish` seeks: the machine behind the return of the function where a machine stands.
    pub fn behind_return(&self, machine: &Machine) -> Aim {
        let (start, behind) = self.function(machine);
        Aim::Return(machine.core().x_sp(Reg::at(31, 0)), start, behind)
    }

    /// What `reverse-finish` seeks: the machine before the call of the function where a machine stands.
    pub fn before_call(&self, machine: &Machine) -> Aim {
        let (start, behind) = self.function(machine);
        Aim::Call(machine.core().x_sp(Reg::at(31, 0)), start, behind)
    }
}

/// The number of steps of the machine so many machines before one.
pub fn steps_before(machine: &Machine, count: u64) -> u64
    ensures { result ≡ machines_before machine.now.parts - count }
{
    machines_before(machine).saturating_sub(count)
}
