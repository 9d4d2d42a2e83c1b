//! The breaks and the watches of a session.
ghost use Rattle.std.specs.Prelude.{◌≡◌, ◌<◌, ◌||◌, true, nat_eq, position, IfSome};
ghost use Rattle.std.specs.List.{list_any};
ghost use Rattle.std.specs.Bool.{OnTrue};
ghost use Rattle.dbg_model.specs.Session.{break_met, is_touched, no_points, point_met, shares, with_point};
ghost use Rattle.dbg_model.specs.Commands.{is_break, is_watch};
ghost use Rattle.dbg_core.specs.Ends.{TakesPoint};
ghost use Rattle.dbg_core.specs.Stops.{first_met, spent_met};

use arrayvec::ArrayVec;
use dbg_model::{Command, Stop as Met, Watch};
use emu_machine::Machine;
use guest_mem::Access;
use std::marker::Model;

/// The most breaks, and the most watches.
const MOST: usize = 64;

/// What stops `go`.
#[derive(Clone, Copy, Debug, PartialEq, Eq)]
pub enum Stop {
    /// The machine has ended.
    Ended,
    /// The last step touched the watch of this number, counted from 0.
    Watch(u32),
    /// The program counter stands on a break.
    Break,
    /// The budget of steps is spent.
    Spent,
}

/// The breaks and the watches so far. Contracts see them in the order in which they were added.
#[derive(Drop)]
pub struct Points {
    breaks: ArrayVec<u64, MOST>,
    watches: ArrayVec<Watch, MOST>,
}

impl Model for Points {
    ghost use Rattle.dbg_model.specs.Session.{Points as AddedPoints};

    ghost Value = { AddedPoints };

    ghost view = { λ m. record { breaks = m.breaks.items; watches = m.watches.items } };
}

/// Whether an access shares a byte with a watch.
fn shares(watch: &Watch, access: &Access) -> bool
    ensures { result ≡ shares watch.now access.now }
{
    let first = u128::from(access.address);
    let watched = u128::from(watch.address);
    first < watched + u128::from(watch.count) && watched < first + u128::from(access.bytes)
}

/// Whether any of these accesses shares a byte with a watch.
fn is_touched(accesses: &[Access], watch: &Watch) -> bool
    ensures { result ≡ is_touched accesses.now watch.now }
{
    accesses.iter().any(|access| shares(watch, access))
}

impl Points {
    /// None.
    pub fn new() -> Points
        ensures { result ≡ no_points }
    {
        Points {
            breaks: ArrayVec::new(),
            watches: ArrayVec::new(),
        }
    }

    /// Whether there is neither a break nor a watch.
    pub fn is_empty(&self) -> bool
        ensures none { OnTrue result (self.now ≡ no_points) }
        ensures some { self.now ≡ no_points → result ≡ true }
    {
        self.breaks.is_empty() && self.watches.is_empty()
    }

    /// Adds the break or the watch of a command, which is one of the two. Fewer than 64 of its kind were added before.
    pub fn add(&mut self, command: &Command)
        requires point { (is_break command.now || is_watch command.now) ≡ true }
        requires room { TakesPoint self.old command.now }
        ensures { self.new ≡ with_point command.now self.old }
    {
        self.add_if(command);
    }

    /// Adds the break or the watch of a command, if it is one.
    pub fn add_if(&mut self, command: &Command)
        requires { TakesPoint self.old command.now }
        ensures { self.new ≡ with_point command.now self.old }
    {
        match command {
            Command::Break(address) => self.breaks.push(*address),
            Command::Watch(address, count) => self.watches.push(Watch {
                address: *address,
                count: *count,
            }),
            _ => {}
        }
    }

    /// The least of the watches that these accesses touch.
    fn touched(&self, accesses: &[Access]) -> Option<usize>
        ensures first { result ≡ position (is_touched accesses.now) self.now.watches }
        ensures within { IfSome result (λ k. k < 64) }
    {
        self.watches
            .iter()
            .position(|watch| is_touched(accesses, watch))
    }

    /// Whether a break stands at an address.
    fn has_break(&self, pc: u64) -> bool
        ensures { result ≡ list_any (λ address. nat_eq address pc) self.now.breaks }
    {
        self.breaks.iter().any(|address| *address == pc)
    }

    /// A break, where one stands at an address.
    fn break_met(&self, pc: u64) -> Option<Met>
        ensures { result ≡ break_met self.now pc }
    {
        if self.has_break(pc) {
            Some(Met::AtBreak)
        } else {
            None
        }
    }

    /// What stops a machine that has taken a step: the least watch that the step touched, else a break. None where
    /// there is neither, or the machine has ended.
    pub(crate) fn point_met(&self, machine: &Machine) -> Option<Met>
        ensures { result ≡ point_met self.now machine.now.accesses machine.now.parts }
    {
        if machine.ending().is_some() {
            return None;
        }
        match self.touched(machine.accesses()) {
            Some(number) => Some(Met::AtWatch(number as u32)),
            None => self.break_met(machine.core().pc()),
        }
    }

    /// The first of the tests of `go` that holds of a machine behind a step. None exactly where none holds.
    pub fn met(&self, machine: &Machine, budget: u64) -> Option<Stop>
        ensures { result ≡ first_met self.now budget machine.now.accesses machine.now.parts }
    {
        if machine.ending().is_some() {
            return Some(Stop::Ended);
        }
        match self.point_met(machine) {
            Some(Met::AtWatch(number)) => Some(Stop::Watch(number)),
            Some(Met::AtBreak) => Some(Stop::Break),
            None => spent(machine.steps(), budget),
        }
    }
}

/// Whether so many steps are those of a budget, or more.
fn spent(steps: u64, budget: u64) -> Option<Stop>
    ensures { result ≡ spent_met steps budget }
{
    if budget <= steps {
        Some(Stop::Spent)
    } else {
        None
    }
}
