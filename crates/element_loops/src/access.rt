//! Loads and stores by a plan: the test of SP, the elements one after the other, and what a load leaves.
ghost use Rattle.std.specs.Prelude.{◌≡◌, ◌≤◌, ◌*◌, [], true};
ghost use Rattle.sve_effects.specs.VectorElements.{elements_of};
ghost use Rattle.sve_effects.specs.VectorLoadStore.{tests_sp};
ghost use Rattle.element_loops.specs.Layouts.{IsPlan, layout_of};
ghost use Rattle.element_loops.specs.Planned.{load_by, loaded_by, store_by};
ghost use Rattle.emu_model.specs.declared.access.Kind.{Kind};
ghost use Rattle.emu_model.specs.Elements.{reach};
ghost use Rattle.emu_model.specs.State.{Core as CoreState};
ghost use Rattle.sve_effects.specs.VectorLoadStore.{loaded_to};

use crate::loading::load_values;
use crate::place::{is_on, most_elements};
use crate::plan::Plan;
use crate::run::load_run;
use crate::storing::{store_lanes, store_values};
use crate::values::write;
use core_regs::{Core, Effect};
use guest_mem::element_access::test_sp;
use guest_mem::{AccessLog, Mem};
use vec_regs::VecRegs;

/// Whether a lane has an element.
fn has_element(plan: &Plan, vec: &VecRegs) -> bool
    requires { IsPlan plan.now vec.now }
    ensures { result ≡ tests_sp true (elements_of (layout_of plan.now vec.now)) }
{
    for k in 0..plan.lanes {
        if is_on(plan, vec, k) {
            return true;
        }
    }
    false
}

/// Whether SP is tested: it is the base, and a lane has an element.
pub fn tests_sp(plan: &Plan, vec: &VecRegs) -> bool
    requires { IsPlan plan.now vec.now }
    ensures { result ≡ tests_sp plan.now.has_sp_base (elements_of (layout_of plan.now vec.now)) }
{
    plan.has_sp_base && has_element(plan, vec)
}

/// Loads all elements one by one, at most N, and then writes the registers. It isn't inlined, so that its buffers take
/// no time where they aren't used.
#[inline(never)]
fn load_buffered<const N: usize>(
    plan: &Plan,
    vec: &mut VecRegs,
    mem: &mut Mem,
    log: &mut AccessLog,
) -> Effect
    requires most { N ≤ 1024 }
    requires plan { IsPlan plan.now vec.old }
    requires room { plan.now.lanes * plan.now.registers ≤ N }
    requires empty { log.old.items ≡ [] }
    ensures done { let l = layout_of plan.now vec.old in let m = mem.old.memory in (c : CoreState) → loaded_to
        (reach m Kind.Read (elements_of l)) (loaded_by plan.now.target plan.now.is_signed l m vec.old) c vec.old m
        ≡ record { core = c; vectors = vec.new; memory = mem.new.memory; accesses = log.new.items; effect = result } }
    ensures marks { mem.new.marks ≡ mem.old.marks }
{
    match load_values::<N>(plan, vec, mem, log) {
        Ok(values) => {
            write(vec, plan, values.as_slice());
            Effect::Next
        }
        Err(trap) => Effect::Trap(trap),
    }
}

/// Loads all elements one by one and then writes the registers. A buffer of 64 elements serves gathers, and everything
/// at 128 bits.
fn load_elements(plan: &Plan, vec: &mut VecRegs, mem: &mut Mem, log: &mut AccessLog) -> Effect
    requires plan { IsPlan plan.now vec.old }
    requires empty { log.old.items ≡ [] }
    ensures done { let l = layout_of plan.now vec.old in let m = mem.old.memory in (c : CoreState) → loaded_to
        (reach m Kind.Read (elements_of l)) (loaded_by plan.now.target plan.now.is_signed l m vec.old) c vec.old m
        ≡ record { core = c; vectors = vec.new; memory = mem.new.memory; accesses = log.new.items; effect = result } }
    ensures marks { mem.new.marks ≡ mem.old.marks }
{
    if most_elements(plan, vec) <= 64 {
        load_buffered::<64>(plan, vec, mem, log)
    } else {
        load_buffered::<1024>(plan, vec, mem, log)
    }
}

/// Loads all elements and then writes the registers, and says how the step goes on. The elements that were loaded are
/// logged in order. A trap changes no register.
pub fn load(
    plan: &Plan,
    core: &Core,
    vec: &mut VecRegs,
    mem: &mut Mem,
    log: &mut AccessLog,
) -> Effect
    requires plan { IsPlan plan.now vec.old }
    requires empty { log.old.items ≡ [] }
    ensures done { let m = mem.new.memory in load_by plan.now core.now vec.old mem.old.memory
        ≡ record { core = core.now; vectors = vec.new; memory = m; accesses = log.new.items; effect = result } }
    ensures marks { mem.new.marks ≡ mem.old.marks }
{
    if let Err(trap) = test_sp(core, tests_sp(plan, vec)) {
        return Effect::Trap(trap);
    }
    if load_run(plan, vec, mem, log) {
        return Effect::Next;
    }
    load_elements(plan, vec, mem, log)
}

/// Stores all elements in order, and says how the step goes on. The elements that were stored are logged in order. A
/// trap has stored and logged the elements before the one that was refused.
pub fn store(plan: &Plan, core: &Core, vec: &VecRegs, mem: &mut Mem, log: &mut AccessLog) -> Effect
    requires plan { IsPlan plan.now vec.now }
    requires empty { log.old.items ≡ [] }
    ensures done { let m = mem.new.memory in store_by plan.now core.now vec.now mem.old.memory
        ≡ record { core = core.now; vectors = vec.now; memory = m; accesses = log.new.items; effect = result } }
    ensures marks { mem.new.marks ≡ mem.old.marks }
{
    if let Err(trap) = test_sp(core, tests_sp(plan, vec)) {
        return Effect::Trap(trap);
    }
    match store_values(plan, vec, mem, log) {
        Ok(()) => Effect::Next,
        Err(trap) => Effect::Trap(trap),
    }
}

/// As `load` does, but element by element whatever the plan is: for plans that have a loop of their own elsewhere,
/// which doesn't take this one. It isn't inlined, and `load` keeps the one caller that it is compiled into.
#[inline(never)]
pub fn load_each(
    plan: &Plan,
    core: &Core,
    vec: &mut VecRegs,
    mem: &mut Mem,
    log: &mut AccessLog,
) -> Effect
    requires plan { IsPlan plan.now vec.old }
    requires empty { log.old.items ≡ [] }
    ensures done { let m = mem.new.memory in load_by plan.now core.now vec.old mem.old.memory
        ≡ record { core = core.now; vectors = vec.new; memory = m; accesses = log.new.items; effect = result } }
    ensures marks { mem.new.marks ≡ mem.old.marks }
{
    if let Err(trap) = test_sp(core, tests_sp(plan, vec)) {
        return Effect::Trap(trap);
    }
    load_elements(plan, vec, mem, log)
}

/// As `store` does, but element by element whatever the plan is.
#[inline(never)]
pub fn store_each(
    plan: &Plan,
    core: &Core,
    vec: &VecRegs,
    mem: &mut Mem,
    log: &mut AccessLog,
) -> Effect
    requires plan { IsPlan plan.now vec.now }
    requires empty { log.old.items ≡ [] }
    ensures done { let m = mem.new.memory in store_by plan.now core.now vec.now mem.old.memory
        ≡ record { core = core.now; vectors = vec.now; memory = m; accesses = log.new.items; effect = result } }
    ensures marks { mem.new.marks ≡ mem.old.marks }
{
    if let Err(trap) = test_sp(core, tests_sp(plan, vec)) {
        return Effect::Trap(trap);
    }
    match store_lanes(plan, vec, mem, log) {
        Ok(()) => Effect::Next,
        Err(trap) => Effect::Trap(trap),
    }
}
