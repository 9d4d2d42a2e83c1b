//! The breaks and watches of a session.
ghost use Rattle.std.specs.Prelude.{◌≡◌, ◌<◌, ◌-◌, ◌^◌, false, nat_eq, not, filter, length, map, slice_get, IfSome};
ghost use Rattle.std.specs.Prelude.{OnOk, OnErr};
ghost use Rattle.std.specs.List.{list_any};
ghost use Rattle.debug_points.specs.declared.points.Point.{Point};
ghost use Rattle.debug_points.specs.Points.{
  behind_met,
  changed,
  first_met,
  holds_if,
  ignoring,
  is_chosen,
  is_of_kind,
  met_again,
  no_points,
  point_meets,
  touches,
  what_meets,
  with_enabled,
  with_ignored,
  with_point,
};

use debug_places::Condition;
use debug_values::holds;
use debug_words::{Change, WatchKind};
use emu_machine::Machine;
use guest_mem::Access;
use std::alloc::{AllocError, Global};
use std::marker::Model;

/// What stops the machine.
#[derive(Clone, Copy)]
pub enum What {
    /// The program counter stands at an address, and the condition holds.
    Break(u64, Option<Condition>),
    /// An access shares a byte with so many bytes from an address on.
    Watch(WatchKind, u64, u64),
}

/// A break or watch.
#[derive(Clone, Copy)]
pub struct Point {
    /// Its number, from 1.
    pub number: u64,
    pub what: What,
    /// It is deleted when it has stopped the machine.
    pub once: bool,
    pub enabled: bool,
    /// So many stops are passed.
    pub ignored: u64,
    /// How often it was met.
    pub hits: u64,
}

/// The breaks and watches in the order in which they were added.
#[derive(Drop)]
pub struct Points {
    items: Vec<Point>,
    next: u64,
}

impl Model for Points {
    ghost use Rattle.debug_points.specs.Points.{Points as AddedPoints};

    ghost Value = { AddedPoints };

    ghost view = { λ p. record { items = p.items.items; next = p.next } };
}

/// Whether a watch of a kind is for an access.
fn is_of_kind(kind: WatchKind, write: bool) -> bool
    ensures { result ≡ is_of_kind kind write }
{
    match kind {
        WatchKind::Writes => write,
        WatchKind::Reads => !write,
        WatchKind::Both => true,
    }
}

/// Whether an access shares a byte with so many bytes from an address on, and is of a kind.
fn touches(kind: WatchKind, address: u64, count: u64, access: &Access) -> bool
    ensures { result ≡ touches kind address count access.now }
{
    let first = u128::from(access.address);
    let watched = u128::from(address);
    is_of_kind(kind, access.write)
        && first < watched + u128::from(count)
        && watched < first + u128::from(access.bytes)
}

/// Whether one of these accesses does.
pub fn are_touched(kind: WatchKind, address: u64, count: u64, made: &[Access]) -> bool
    ensures { result ≡ list_any (touches kind address count) made.now }
{
    made.iter()
        .any(|access| touches(kind, address, count, access))
}

/// Whether a condition holds, if there is one.
fn holds_if(machine: &Machine, condition: Option<Condition>) -> bool
    ensures { result ≡ holds_if machine.now.parts condition }
{
    match condition {
        None => true,
        Some(condition) => holds(machine, condition),
    }
}

impl Point {
    /// Whether a machine meets it.
    fn is_met(&self, machine: &Machine) -> bool
        ensures { result ≡ point_meets machine.now.parts machine.now.accesses self.now }
    {
        self.enabled
            && match self.what {
                What::Break(address, condition) => machine.core().pc() == address
                    && holds_if(machine, condition),
                What::Watch(kind, address, count) => are_touched(
                    kind,
                    address,
                    count,
                    machine.accesses(),
                ),
            }
    }

    /// Whether it is the one of a number, if a number is told.
    fn is_chosen(&self, number: Option<u64>) -> bool
        ensures { result ≡ is_chosen number self.now }
    {
        match number {
            None => true,
            Some(number) => self.number == number,
        }
    }
}

/// A break or watch that stops the machine or not, where it is the one of a number, or all are meant.
fn with_enabled(point: Point, enabled: bool, number: Option<u64>) -> Point
    ensures { result ≡ with_enabled enabled number point }
{
    if point.is_chosen(number) {
        Point { enabled, ..point }
    } else {
        point
    }
}

/// The one of a number passes so many stops.
fn with_ignored(point: Point, number: u64, count: u64) -> Point
    ensures { result ≡ with_ignored number count point }
{
    if point.number == number {
        Point {
            ignored: count,
            ..point
        }
    } else {
        point
    }
}

/// One that was met once more, which has one stop less to pass.
fn met_again(point: &Point) -> Point
    ensures { result ≡ met_again point.now }
{
    Point {
        number: point.number,
        what: point.what,
        once: point.once,
        enabled: point.enabled,
        ignored: point.ignored.saturating_sub(1),
        hits: point.hits.saturating_add(1),
    }
}

/// Deletes the one of a number, or all.
fn keep_others(points: &mut Vec<Point>, number: Option<u64>)
    ensures { points.new.items ≡ filter (λ p. not (is_chosen number p)) points.old.items }
{
    points.retain(|point| !point.is_chosen(number));
}

impl Points {
    /// None.
    pub fn new(alloc: Global) -> Points
        ensures { result ≡ no_points }
    {
        Points {
            items: Vec::new(alloc),
            next: 1,
        }
    }

    /// All of them.
    pub fn items(&self) -> &[Point]
        ensures { result.now ≡ self.now.items }
    {
        self.items.as_slice()
    }

    /// Whether a machine meets one.
    pub fn are_met(&self, machine: &Machine) -> bool
        ensures { result ≡ list_any (point_meets machine.now.parts machine.now.accesses) self.now.items }
    {
        self.items.iter().any(|point| point.is_met(machine))
    }

    /// The place of the first that a machine meets.
    pub fn first_met(&self, machine: &Machine) -> Option<usize>
        ensures first { result ≡ first_met self.now.items machine.now.parts machine.now.accesses }
        ensures within { IfSome result (λ k. k < length self.now.items) }
    {
        self.items.iter().position(|point| point.is_met(machine))
    }

    /// Whether no number is left for one more.
    pub fn is_full(&self) -> bool
        ensures full { result ≡ nat_eq self.now.next (2 ^ 64 - 1) }
        ensures room { result ≡ false → self.now.next < 2 ^ 64 - 1 }
    {
        self.next == u64::MAX
    }

    /// Adds one, and gives its number. Err is want of memory.
    pub fn add(&mut self, what: What, once: bool) -> Result<u64, AllocError>
        requires { self.old.next < 2 ^ 64 - 1 }
        ensures added { OnOk result (self.new ≡ with_point what once self.old) }
        ensures kept { OnErr result (self.new ≡ self.old) }
    {
        let number = self.next;
        self.items.push(Point {
            number,
            what,
            once,
            enabled: true,
            ignored: 0,
            hits: 0,
        })?;
        self.next = number + 1;
        Ok(number)
    }

    /// Whether there is one of a number.
    pub fn has(&self, number: u64) -> bool
        ensures { result ≡ list_any (λ p. nat_eq p.number number) self.now.items }
    {
        self.items.iter().any(|point| point.number == number)
    }

    /// Changes the one of a number, or all.
    pub fn change(&mut self, change: Change, number: Option<u64>)
        ensures { self.new ≡ changed change number self.old }
    {
        match change {
            Change::Delete => keep_others(&mut self.items, number),
            Change::Disable => self.set_enabled(number, false),
            Change::Enable => self.set_enabled(number, true),
        }
    }

    /// Makes the one of a number, or all, stop the machine or not.
    fn set_enabled(&mut self, number: Option<u64>, enabled: bool)
        ensures items { self.new.items ≡ map (with_enabled enabled number) self.old.items }
        ensures next { self.new.next ≡ self.old.next }
    {
        'points: for k in 0..self.items.len() {
            self.items[k] = with_enabled(self.items[k], enabled, number);
        }
    }

    /// Lets the one of a number pass so many stops.
    pub fn ignore(&mut self, number: u64, count: u64)
        ensures { self.new ≡ ignoring number count self.old }
    {
        'points: for k in 0..self.items.len() {
            self.items[k] = with_ignored(self.items[k], number, count);
        }
    }

    /// Counts that the one at a place was met, and says whether the machine stops there. One that stops only once is
    /// deleted where it does.
    pub fn stops(&mut self, place: usize) -> bool
        requires { place < length self.old.items }
        ensures stops { (p : Point) → slice_get self.old.items place ≡ Some p → result ≡ nat_eq p.ignored 0 }
        ensures behind { (p : Point) → slice_get self.old.items place ≡ Some p →
            self.new ≡ behind_met place p self.old }
    {
        let point = self.items[place];
        self.items[place] = met_again(&point);
        if point.ignored > 0 {
            return false;
        }
        if point.once {
            self.change(Change::Delete, Some(point.number));
        }
        true
    }
}
