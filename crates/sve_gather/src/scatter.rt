//! Scatters.
ghost use Rattle.std.specs.Prelude.{◌≡◌, ◌≤◌, ◌<◌, ◌+◌, [], MatchResult};
ghost use Rattle.arrayvec.specs.ArrayVec.{array_vec_len};
ghost use Rattle.emu_model.specs.Access.{Memory};
ghost use Rattle.sve_effects.specs.VectorElements.{elements_below, elements_of};
ghost use Rattle.guest_mem.specs.ReachLaws.{AreStored, StopsStore};
ghost use Rattle.element_loops.specs.Layouts.{IsPlan, layout_of};
ghost use Rattle.element_loops.specs.Planned.{store_by, stored_by};
ghost use Rattle.sve_gather.specs.Gathers.{IsGather};
ghost use Rattle.sve_gather.specs.Indexing.{IsIndex, IsIndexed};

use crate::base::test_base;
use crate::indexed::{Index, address, index_of, is_indexed, is_on};
use core_regs::{Core, Effect, Trap};
use element_loops::Plan;
use element_loops::place::{position, register_at};
use guest_mem::element_access::store_here;
use guest_mem::{AccessLog, Mem};
use vec_regs::VecRegs;

/// Stores the element of a lane of E bits, which has N bytes, if the lane has one.
#[inline(always)]
fn store_lane<const E: u32, const N: u32>(
    plan: &Plan,
    index: &Index,
    vec: &VecRegs,
    mem: &mut Mem,
    log: &mut AccessLog,
    k: u32,
) -> Result<(), Trap>
    requires plan { IsPlan plan.now vec.now }
    requires gather { IsGather plan.now }
    requires index { IsIndex index.now plan.now }
    requires bits { E ≡ plan.now.bits }
    requires bytes { N ≡ plan.now.bytes }
    requires within { k < plan.now.lanes }
    requires count { array_vec_len log.old ≤ k }
    ensures count { array_vec_len log.new ≤ k + 1 }
    // whatever the memory was before the first store
    ensures stored { (m : Memory) → let l = layout_of plan.now vec.now in
        AreStored (stored_by plan.now.target l vec.now) m (elements_below l k) mem.old.memory log.old.items
        → MatchResult result
        (λ x. AreStored (stored_by plan.now.target l vec.now) m (elements_below l (k + 1)) mem.new.memory log.new.items)
        (λ trap. StopsStore (stored_by plan.now.target l vec.now) m (elements_of l) mem.new.memory log.new.items trap) }
    ensures marks { mem.new.marks ≡ mem.old.marks }
{
    let _room = position(plan, vec, k, 0);
    if !is_on(plan, index, vec, E, k) {
        return Ok(());
    }
    let at = address(plan, index, vec, E, k);
    let v = vec.lane(register_at(plan, 0), E, k);
    match store_here(mem, log, u128::from(v), at, N) {
        Ok(()) => Ok(()),
        Err(trap) => Err(trap),
    }
}

/// Stores all elements in order, N bytes each of lanes of E bits, or stops at the first that is refused. It isn't
/// inlined, so that its loop has the processor's registers to itself.
#[inline(never)]
fn store_lanes<const E: u32, const N: u32>(
    plan: &Plan,
    vec: &VecRegs,
    mem: &mut Mem,
    log: &mut AccessLog,
) -> Result<(), Trap>
    requires plan { IsPlan plan.now vec.now }
    requires gather { IsGather plan.now }
    requires indexed { IsIndexed plan.now }
    requires bits { E ≡ plan.now.bits }
    requires bytes { N ≡ plan.now.bytes }
    requires empty { log.old.items ≡ [] }
    ensures stored { let l = layout_of plan.now vec.now in let m = mem.old.memory in MatchResult result
        (λ x. AreStored (stored_by plan.now.target l vec.now) m (elements_of l) mem.new.memory log.new.items)
        (λ trap. StopsStore (stored_by plan.now.target l vec.now) m (elements_of l) mem.new.memory log.new.items trap) }
    ensures marks { mem.new.marks ≡ mem.old.marks }
{
    let plan = *plan;
    let index = index_of(&plan);
    for k in 0..plan.lanes {
        store_lane::<E, N>(&plan, &index, vec, mem, log, k)?;
    }
    Ok(())
}

/// The same, with the sizes of lanes and elements told apart.
fn store_all(plan: &Plan, vec: &VecRegs, mem: &mut Mem, log: &mut AccessLog) -> Result<(), Trap>
    requires plan { IsPlan plan.now vec.now }
    requires gather { IsGather plan.now }
    requires indexed { IsIndexed plan.now }
    requires empty { log.old.items ≡ [] }
    ensures stored { let l = layout_of plan.now vec.now in let m = mem.old.memory in MatchResult result
        (λ x. AreStored (stored_by plan.now.target l vec.now) m (elements_of l) mem.new.memory log.new.items)
        (λ trap. StopsStore (stored_by plan.now.target l vec.now) m (elements_of l) mem.new.memory log.new.items trap) }
    ensures marks { mem.new.marks ≡ mem.old.marks }
{
    if plan.bits == 64 {
        match plan.bytes {
            1 => store_lanes::<64, 1>(plan, vec, mem, log),
            2 => store_lanes::<64, 2>(plan, vec, mem, log),
            4 => store_lanes::<64, 4>(plan, vec, mem, log),
            _ => store_lanes::<64, 8>(plan, vec, mem, log),
        }
    } else {
        match plan.bytes {
            1 => store_lanes::<32, 1>(plan, vec, mem, log),
            2 => store_lanes::<32, 2>(plan, vec, mem, log),
            _ => store_lanes::<32, 4>(plan, vec, mem, log),
        }
    }
}

/// Stores all elements in order, and says how the step goes on. The elements that were stored are logged in order. A
/// trap has stored and logged the elements before the one that was refused.
pub fn store(plan: &Plan, core: &Core, vec: &VecRegs, mem: &mut Mem, log: &mut AccessLog) -> Effect
    requires plan { IsPlan plan.now vec.now }
    requires gather { IsGather plan.now }
    requires empty { log.old.items ≡ [] }
    ensures done { let m = mem.new.memory in store_by plan.now core.now vec.now mem.old.memory
        ≡ record { core = core.now; vectors = vec.now; memory = m; accesses = log.new.items; effect = result } }
    ensures marks { mem.new.marks ≡ mem.old.marks }
{
    if !is_indexed(plan) {
        return element_loops::store_each(plan, core, vec, mem, log);
    }
    if let Err(trap) = test_base(plan, core, vec) {
        return Effect::Trap(trap);
    }
    match store_all(plan, vec, mem, log) {
        Ok(()) => Effect::Next,
        Err(trap) => Effect::Trap(trap),
    }
}
