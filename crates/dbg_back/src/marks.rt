//! The marks of a machine in a session: which are none, which are dropped, and to which one goes back.
ghost use Rattle.std.specs.Prelude.{◌≡◌, ◌≢◌, ◌≤◌, ◌<◌, ◌+◌, ℕ};
ghost use Rattle.std.specs.Prelude.{length as len, get_or, is_some, true, false, None, IfSome};
ghost use Rattle.std.specs.Bool.{OnTrue};

use crate::trail::Trail;
use emu_machine::Machine;

/// How many marks a machine has.
const MARKS: u32 = 16;

/// Whether there are frames enough, so that the machine can be marked.
fn has_room(machine: &Machine) -> bool
    ensures { OnTrue result (machine.now.parts.memory.limit ≤ machine.now.spare) }
{
    machine.limit() <= machine.spare()
}

/// The least mark behind the first that is none.
fn unset_mark(machine: &Machine) -> Option<u32>
    requires { len machine.now.marks ≡ 16 }
    ensures first { IfSome result (λ k. 1 ≤ k) }
    ensures index { IfSome result (λ k. k < 16) }
    ensures none { IfSome result (λ k. is_some (get_or machine.now.marks k None) ≡ false) }
{
    let pages = machine.mem().pages();
    'marks: for k in 1..MARKS {
        if !pages.is_marked(k) {
            return Some(k);
        }
    }
    None
}

/// A mark behind the first that is none, where the machine can be marked as it is. None where there aren't frames
/// enough, or all marks are used.
fn usable_mark(machine: &Machine) -> Option<u32>
    requires { len machine.now.marks ≡ 16 }
    ensures first { IfSome result (λ k. 1 ≤ k) }
    ensures index { IfSome result (λ k. k < 16) }
    ensures none { IfSome result (λ k. is_some (get_or machine.now.marks k None) ≡ false) }
    ensures room { IfSome result (λ k. machine.now.parts.memory.limit ≤ machine.now.spare) }
{
    if !has_room(machine) {
        return None;
    }
    unset_mark(machine)
}

/// Drops the marks from `first` on up to `end`.
fn drop_between(machine: &mut Machine, first: u32, end: u32)
    requires count { len machine.old.marks ≡ 16 }
    requires within { end ≤ 16 }
    ensures parts { machine.new.parts ≡ machine.old.parts }
    ensures count { len machine.new.marks ≡ 16 }
    ensures dropped { (k : ℕ) → first ≤ k → k < end → get_or machine.new.marks k None ≡ None }
    ensures below { (k : ℕ) → k < first → get_or machine.new.marks k None ≡ get_or
        machine.old.marks k None }
    ensures above { (k : ℕ) → end ≤ k → get_or machine.new.marks k None ≡ get_or
        machine.old.marks k None }
    ensures saved { machine.new.saved ≡ machine.old.saved }
    ensures failed { machine.new.failed ≡ machine.old.failed }
{
    'marks: for k in first..end {
        machine.drop_mark(k);
    }
}

/// Drops all marks but the first and another.
pub fn drop_marks(machine: &mut Machine, but: u32)
    requires count { len machine.old.marks ≡ 16 }
    requires within { but < 16 }
    ensures parts { machine.new.parts ≡ machine.old.parts }
    ensures count { len machine.new.marks ≡ 16 }
    ensures first { get_or machine.new.marks 0 None ≡ get_or machine.old.marks 0
        None }
    ensures other { get_or machine.new.marks but None ≡ get_or machine.old.marks
        but None }
    ensures kept { (k : ℕ) → is_some (get_or machine.new.marks k None) ≡ true → get_or
        machine.new.marks k None ≡ get_or machine.old.marks k None }
    ensures dropped { (k : ℕ) → k ≢ 0 → k ≢ but → get_or machine.new.marks k None ≡ None }
    ensures saved { machine.new.saved ≡ machine.old.saved }
    ensures failed { machine.new.failed ≡ machine.old.failed }
{
    drop_between(machine, 1, but);
    drop_between(machine, but + 1, MARKS);
}

/// A mark behind the first that is none, where the machine can be marked as it is. Where there aren't frames enough, or
/// all marks are used, all but the first are dropped.
pub fn free_mark(machine: &mut Machine) -> u32
    requires { len machine.old.marks ≡ 16 }
    ensures first { 1 ≤ result }
    ensures index { result < 16 }
    ensures parts { machine.new.parts ≡ machine.old.parts }
    ensures count { len machine.new.marks ≡ 16 }
    ensures none { get_or machine.new.marks result None ≡ None }
    ensures room { machine.new.parts.memory.limit ≤ machine.new.spare }
    ensures start { get_or machine.new.marks 0 None ≡ get_or machine.old.marks 0
        None }
    ensures kept { (k : ℕ) → is_some (get_or machine.new.marks k None) ≡ true → get_or
        machine.new.marks k None ≡ get_or machine.old.marks k None }
    ensures saved { machine.new.saved ≡ machine.old.saved }
    ensures failed { machine.new.failed ≡ machine.old.failed }
{
    match usable_mark(machine) {
        Some(k) => k,
        None => {
            drop_marks(machine, 0);
            let _spare = machine.spare();
            1
        }
    }
}

/// The one of a mark and the nearest before it that is nearest before `target`.
fn nearer(machine: &Machine, trail: &Trail, target: u64, k: u32, nearest: u32) -> u32
    requires count { len machine.now.marks ≡ 16 }
    requires index { k < 16 }
    requires nearest { nearest < 16 }
    requires set { is_some (get_or machine.now.marks nearest None) ≡ true }
    requires before { get_or trail.now.steps nearest 0 ≤ target }
    ensures index { result < 16 }
    ensures set { is_some (get_or machine.now.marks result None) ≡ true }
    ensures before { get_or trail.now.steps result 0 ≤ target }
{
    if !machine.mem().pages().is_marked(k) {
        return nearest;
    }
    let steps = trail.steps[k as usize];
    if steps > target || steps < trail.steps[nearest as usize] {
        return nearest;
    }
    k
}

/// The mark of the greatest number of steps up to `target`. The first mark is of none.
pub fn nearest_mark(machine: &Machine, trail: &Trail, target: u64) -> u32
    requires count { len machine.now.marks ≡ 16 }
    requires first { is_some (get_or machine.now.marks 0 None) ≡ true }
    requires start { get_or trail.now.steps 0 0 ≡ 0 }
    ensures index { result < 16 }
    ensures set { is_some (get_or machine.now.marks result None) ≡ true }
    ensures before { get_or trail.now.steps result 0 ≤ target }
{
    let mut nearest = 0;
    'marks: for k in 1..MARKS {
        nearest = nearer(machine, trail, target, k, nearest);
    }
    nearest
}
