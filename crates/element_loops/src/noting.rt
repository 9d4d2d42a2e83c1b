//! The log of elements that are one behind the other.
ghost use Rattle.std.specs.Prelude.{◌≡◌, ◌≤◌, ◌<◌, ◌+◌, ◌*◌, ◌++◌, []};
ghost use Rattle.arrayvec.specs.ArrayVec.{array_vec_len};
ghost use Rattle.emu_model.specs.Access.{address};
ghost use Rattle.emu_model.specs.Elements.{accesses_of};
ghost use Rattle.emu_model.specs.Lists.{each};
ghost use Rattle.sve_effects.specs.VectorElements.{elements_below, elements_of};
ghost use Rattle.element_loops.specs.Layouts.{IsPlan, layout_of};
ghost use Rattle.element_loops.specs.Runs.{IsFront, IsLine};

use crate::place::{is_on, most_elements, position};
use crate::plan::Plan;
use crate::run::{Run, idle_lanes};
use guest_mem::{Access, AccessLog};
use vec_regs::VecRegs;

/// Notes the elements of one lane, the first of which is at an address.
fn note_lane(plan: &Plan, log: &mut AccessLog, at: u64, write: bool)
    requires some { 1 ≤ plan.now.registers }
    requires room { array_vec_len log.old + plan.now.registers ≤ 1024 }
    ensures items { log.new.items ≡ log.old.items ++ each plan.now.registers
        (λ i. record { address = address (at + i * plan.now.bytes); bytes = plan.now.bytes; write = write }) }
    ensures len { array_vec_len log.new ≡ array_vec_len log.old + plan.now.registers }
{
    if plan.registers == 1 {
        log.push(Access {
            address: at,
            bytes: plan.bytes,
            write,
        });
    } else {
        log.push_run(at, plan.bytes, plan.registers, write);
    }
}

/// Notes the elements of lane k, the first of which is at an address, if it has some, and answers how many lanes are
/// done: where it has none, all of those that are seen at once to have none.
fn note_next(
    plan: &Plan,
    vec: &VecRegs,
    run: &Run,
    log: &mut AccessLog,
    k: u32,
    at: u64,
    write: bool,
) -> u32
    requires plan { IsPlan plan.now vec.now }
    requires run { IsLine run.now.base run.now.pg run.now.whole plan.now vec.now }
    requires within { k < plan.now.lanes }
    requires noted { log.old.items ≡ accesses_of write (elements_below (layout_of plan.now vec.now) k) }
    requires count { array_vec_len log.old ≤ k * plan.now.registers }
    requires at { at ≡ address (run.now.base + k * plan.now.registers * plan.now.bytes) }
    ensures some { 1 ≤ result }
    ensures few { k + result ≤ plan.now.lanes }
    ensures noted { log.new.items ≡ accesses_of write (elements_below (layout_of plan.now vec.now) (k + result)) }
    ensures count { array_vec_len log.new ≤ (k + result) * plan.now.registers }
{
    let _room = position(plan, vec, k, 0);
    if is_on(plan, vec, k) {
        note_lane(plan, log, at, write);
        return 1;
    }
    idle_lanes(plan, vec, run, k)
}

/// Notes the elements of the lanes from the front on that are on, one after the other; `at` is where the first of these
/// lanes is.
fn note_some(plan: &Plan, vec: &VecRegs, run: &Run, log: &mut AccessLog, at: u64, write: bool)
    requires plan { IsPlan plan.now vec.now }
    requires run { IsLine run.now.base run.now.pg run.now.whole plan.now vec.now }
    requires within { run.now.front ≤ plan.now.lanes }
    requires noted { log.old.items ≡ accesses_of write (elements_below (layout_of plan.now vec.now) run.now.front) }
    requires count { array_vec_len log.old ≤ run.now.front * plan.now.registers }
    requires at { at ≡ address (run.now.base + run.now.front * plan.now.registers * plan.now.bytes) }
    ensures { log.new.items ≡ accesses_of write (elements_of (layout_of plan.now vec.now)) }
{
    let _length = vec.length();
    let step = plan.registers * plan.bytes;
    let mut at = at;
    let mut k = run.front;
    while k < plan.lanes {
        let d = note_next(plan, vec, run, log, k, at, write);
        k += d;
        at = at.wrapping_add(u64::from(d * step));
    }
}

/// Notes the elements.
pub(crate) fn note(plan: &Plan, vec: &VecRegs, run: &Run, log: &mut AccessLog, write: bool)
    requires plan { IsPlan plan.now vec.now }
    requires run { IsLine run.now.base run.now.pg run.now.whole plan.now vec.now }
    requires front { IsFront run.now.front plan.now vec.now }
    requires empty { log.old.items ≡ [] }
    ensures { log.new.items ≡ accesses_of write (elements_of (layout_of plan.now vec.now)) }
{
    let _most = most_elements(plan, vec);
    let count = run.front * plan.registers;
    log.push_run(run.base, plan.bytes, count, write);
    let at = run.base.wrapping_add(u64::from(count * plan.bytes));
    note_some(plan, vec, run, log, at, write);
}
