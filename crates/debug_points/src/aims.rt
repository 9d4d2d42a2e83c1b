//! What commands seek.
ghost use Rattle.std.specs.Prelude.{◌≡◌, ℕ, Bool, List};
ghost use Rattle.emu_model.specs.State.{Parts};
ghost use Rattle.debug_points.specs.Points.{aim_meets, goal_meets, is_inside, is_outside};

use crate::points::{Points, are_touched};
use debug_values::{is_call, is_return, word_at};
use debug_walk::Test;
use debug_words::WatchKind;
use emu_bits::Reg;
use emu_machine::Machine;

/// What a command seeks beside the stops.
#[derive(Clone, Copy)]
pub enum Aim {
    /// Nothing.
    Stops,
    /// A place.
    At(u64),
    /// A place, with the stack no deeper than this.
    Above(u64, u64),
    /// What stands behind a return from the function from one address up to another, by the depth of its stack.
    Return(u64, u64, u64),
    /// What stands before a call of it.
    Call(u64, u64, u64),
    /// What stands behind a write to so many bytes from an address on.
    Write(u64, u64),
    /// A place outside of those from one address up to another; or also, where that is told, a call.
    Outside(u64, u64, bool),
}

/// What a walk seeks: a stop, or its aim.
#[derive(Drop)]
pub struct Goal<'a> {
    pub points: &'a Points,
    pub aim: Aim,
}

/// Whether an address stands from one up to another.
fn is_inside(start: u64, behind: u64, pc: u64) -> bool
    ensures { result ≡ is_inside start behind pc }
{
    start <= pc && pc < behind
}

/// Whether the stack is less deep than it was, or as deep with the place outside of a function.
fn is_outside(sp: u64, start: u64, behind: u64, machine: &Machine) -> bool
    ensures { result ≡ is_outside sp start behind machine.now.parts }
{
    let now = machine.core().x_sp(Reg::at(31, 0));
    sp <= now && (sp < now || !is_inside(start, behind, machine.core().pc()))
}

impl Aim {
    /// Whether a machine behind a step of the instruction at an address meets it.
    pub fn is_met(self, from: u64, machine: &Machine) -> bool
        ensures { result ≡ aim_meets self from machine.now.parts machine.now.accesses }
    {
        let pc = machine.core().pc();
        match self {
            Aim::Stops => false,
            Aim::At(address) => pc == address,
            Aim::Above(address, sp) => pc == address && sp <= machine.core().x_sp(Reg::at(31, 0)),
            Aim::Return(sp, start, behind) => is_return(word_at(machine.mem(), from))
                && is_outside(sp, start, behind, machine),
            Aim::Call(sp, start, behind) => is_call(word_at(machine.mem(), pc))
                && is_outside(sp, start, behind, machine),
            Aim::Write(address, count) => are_touched(
                WatchKind::Writes,
                address,
                count,
                machine.accesses(),
            ),
            Aim::Outside(start, behind, calls) => !is_inside(start, behind, pc)
                || (calls && is_call(word_at(machine.mem(), pc))),
        }
    }
}

impl<'a> Test for Goal<'a> {
    ghost use Rattle.debug_points.specs.Points.{goal_meets};

    ghost meets = { λ g. goal_meets g.points.now.items g.aim };

    fn is_met(&self, from: u64, machine: &Machine) -> bool
        ensures { result ≡ goal_meets self.now.points.now.items self.now.aim from machine.now.parts
            machine.now.accesses }
    {
        machine.ending().is_none()
            && (self.points.are_met(machine) || self.aim.is_met(from, machine))
    }
}
