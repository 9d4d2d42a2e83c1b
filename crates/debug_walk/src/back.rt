//! Back to the last machine that meets a test.
ghost use Rattle.std.specs.Prelude.{◌≡◌, ◌≤◌, ◌<◌, ◌+◌, ◌-◌, ◌^◌, ℕ, List, [], Option, Some, None, IfSome, true, false};
ghost use Rattle.std.specs.Prelude.{is_some, nat_eq, nat_le, ◌&&◌, if◌then◌else◌};
ghost use Rattle.emu_model.specs.State.{State};
ghost use Rattle.emu_run.specs.Run.{goes_on, until_end};
ghost use Rattle.emu_run.specs.Step.{accesses};
ghost use Rattle.emu_machine.specs.Machines.{has_ended};
ghost use Rattle.dbg_model.specs.Session.{Course, stepped, walked};
ghost use Rattle.dbg_back.specs.Walks.{CanWalk, Does, IsWalk};
ghost use Rattle.debug_walk.specs.Walks.{at_step, first_asked, last_met, machines_before, made_before, sought_back};
ghost use Rattle.debug_walk.specs.Walks.{unasked};

use crate::steps::{go_to, one_step};
use crate::test::Test;
use dbg_back::{Dropped, Trail, is_below, restore_before};
use emu_machine::{Ended, Machine};

/// How many machines of the run stand before one, 2^64 - 1 at most: one that a trap ended stands behind the one that
/// has counted as many steps.
pub fn machines_before(machine: &Machine) -> u64
    ensures { result ≡ machines_before machine.now.parts }
{
    match machine.ending() {
        Some(Ended::Trap(_)) => machine.steps().saturating_add(1),
        _ => machine.steps(),
    }
}

/// Takes one step that was taken before, and gives the address of its instruction.
fn step_again(machine: &mut Machine, trail: &mut Trail, input: &[u8]) -> u64
    requires walks { CanWalk input.now machine.old trail.old }
    requires going { has_ended machine.old ≡ false }
    requires room { machine.old.parts.steps < 2 ^ 64 - 1 }
    ensures walks { (start : State) (c : Course) → IsWalk start input.now c machine.old trail.old → IsWalk start
        input.now (stepped c) machine.new trail.new }
    ensures accesses { machine.new.accesses ≡ accesses machine.old.parts }
    ensures further { has_ended machine.new ≡ false → machine.old.parts.steps < machine.new.parts.steps }
    ensures from { result ≡ machine.old.parts.core.pc }
{
    let from = machine.core().pc();
    one_step(machine, trail, input, &mut Dropped, &mut Dropped);
    from
}

/// What is found at a machine itself: where it has counted no step, and such a machine is asked, it may meet the test.
fn found_here<T: Test>(test: &T, machine: &Machine, least: u64) -> Option<u64>
    ensures { result ≡ (if nat_eq machine.now.parts.steps 0 && (nat_eq least 0 && T.meets test.now
        machine.now.parts.core.pc machine.now.parts machine.now.accesses) then Some 0 else None) }
{
    if machine.steps() == 0 && least == 0 && test.is_met(machine.core().pc(), machine) {
        Some(0)
    } else {
        None
    }
}

/// What is found behind a step of the instruction at an address: the machine, if it is asked and meets the test, or
/// what was found before.
fn found_behind<T: Test>(
    test: &T,
    from: u64,
    machine: &Machine,
    least: u64,
    before: Option<u64>,
) -> Option<u64>
    ensures { result ≡ (if nat_le least machine.now.parts.steps && T.meets test.now from machine.now.parts
        machine.now.accesses then Some machine.now.parts.steps else before) }
{
    if least <= machine.steps() && test.is_met(from, machine) {
        Some(machine.steps())
    } else {
        before
    }
}

/// Up to which machine none is asked yet, where those behind a mark were.
fn unasked(mark: u64) -> u64
    requires { mark < 2 ^ 64 - 1 }
    ensures { result ≡ unasked mark }
{
    if mark == 0 { 0 } else { mark + 1 }
}

/// Goes on from a mark to a machine behind `last` steps, and says which of the machines that it passes, from the one
/// behind `least` steps on, met the test last. The mark's own machine is asked only where no step led to it.
fn last_between<T: Test>(
    test: &T,
    machine: &mut Machine,
    trail: &mut Trail,
    least: u64,
    last: u64,
    input: &[u8],
) -> Option<u64>
    requires walks { CanWalk input.now machine.old trail.old }
    requires going { has_ended machine.old ≡ false }
    requires none { machine.old.accesses ≡ [] }
    ensures walks { (start : State) (c : Course) → IsWalk start input.now c machine.old trail.old → IsWalk start
        input.now (walked c (last - c.state.parts.steps)) machine.new trail.new }
    ensures found { (start : State) (c : Course) → IsWalk start input.now c machine.old trail.old →
        machine.old.parts.steps ≤ last → goes_on (until_end start last) ≡ true → result ≡ last_met
        (T.meets test.now) start (first_asked least machine.old.parts.steps) (last + 1) }
{
    let mut found = found_here(test, machine, least);
    'walk: while is_below(machine, last) {
        let from = step_again(machine, trail, input);
        found = found_behind(test, from, machine, least, found);
    }
    found
}

/// Goes back to where k steps are counted, by a step where one leads there.
fn arrive(machine: &mut Machine, trail: &mut Trail, k: u64, input: &[u8])
    requires walks { CanWalk input.now machine.old trail.old }
    requires within { k ≤ machine.old.parts.steps }
    ensures walks { (start : State) (c : Course) → IsWalk start input.now c machine.old trail.old → IsWalk start
        input.now (at_step start k c) machine.new trail.new }
    ensures accesses { (start : State) (c : Course) → IsWalk start input.now c machine.old trail.old →
        machine.new.accesses ≡ made_before start k }
{
    if k == 0 {
        restore_before(machine, trail, 0);
        return;
    }
    go_to(machine, trail, k - 1, input, &mut Dropped, &mut Dropped);
    step_again(machine, trail, input);
}

/// Goes back to the last machine before this one, from the one behind `least` steps on, that meets the test, or else to
/// that one. Whether one met it.
pub fn backward<T: Test>(
    test: &T,
    machine: &mut Machine,
    trail: &mut Trail,
    least: u64,
    input: &[u8],
) -> bool
    requires walks { CanWalk input.now machine.old trail.old }
    requires within { least ≤ machine.old.parts.steps }
    ensures does { (held errs : Option (List ℕ)) → Does (λ start. sought_back (T.meets test.now) start least) input.now
        machine.old machine.new trail.old trail.new held held errs errs false }
    ensures met { (start : State) (c : Course) → IsWalk start input.now c machine.old trail.old → result ≡ is_some
        (last_met (T.meets test.now) start least (machines_before c.state.parts)) }
    ensures accesses { result ≡ true → (start : State) (c : Course) → IsWalk start input.now c machine.old trail.old →
        IfSome (last_met (T.meets test.now) start least (machines_before c.state.parts)) (λ k. machine.new.accesses ≡
        made_before start k) }
{
    let mut end = machines_before(machine);
    'marks: while least < end {
        let last = end - 1;
        let target = last.saturating_sub(1);
        restore_before(machine, trail, target);
        let mark = machine.steps();
        match last_between(test, machine, trail, least, last, input) {
            Some(k) => {
                arrive(machine, trail, k, input);
                return true;
            }
            None => end = unasked(mark),
        }
    }
    go_to(machine, trail, least, input, &mut Dropped, &mut Dropped);
    false
}
