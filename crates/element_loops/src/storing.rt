//! The loop of a store over its elements.
ghost use Rattle.std.specs.Prelude.{
  ◌≡◌,
  ◌≤◌,
  ◌<◌,
  ◌+◌,
  ◌*◌,
  ◌/◌,
  ◌^◌,
  ℕ,
  [],
  MatchResult,
  Bool,
  false,
  true,
  get_or,
  if◌then◌else◌,
};
ghost use Rattle.arrayvec.specs.ArrayVec.{array_vec_len};
ghost use Rattle.emu_bits.specs.Fields.{bit};
ghost use Rattle.emu_bits.specs.Operations.{number_of_bits};
ghost use Rattle.emu_model.specs.Access.{Memory};
ghost use Rattle.emu_model.specs.Lanes.{read_p};
ghost use Rattle.sve_effects.specs.VectorElements.{elements_below, elements_of};
ghost use Rattle.guest_mem.specs.ReachLaws.{AreStored, StopsStore};
ghost use Rattle.element_loops.specs.Layouts.{IsPlan, layout_of};
ghost use Rattle.element_loops.specs.Planned.{stored_by};
ghost use Rattle.element_loops.specs.SoFar.{element_of_lane};

use crate::line_store::store_line;
use crate::place::{address, is_on, position, register_at};
use crate::plan::{Plan, Target};
use crate::run::run_of;
use crate::run_store::store_run;
use core_regs::Trap;
use emu_bits::Pred;
use guest_mem::element_access::store;
use guest_mem::{AccessLog, Mem};
use vec_regs::VecRegs;

/// 2^j where a bit is set, and else 0.
fn weight(is_set: bool, j: u32) -> u64
    requires { j < 64 }
    ensures value { result ≡ bit is_set * 2 ^ j }
    ensures small { result ≤ 2 ^ j }
{
    if is_set { 1u64 << j } else { 0 }
}

/// Bits 8 * k to 8 * k + 7 of a predicate, the first the lowest.
fn predicate_byte(vec: &VecRegs, pt: Pred, k: u32) -> u64
    requires { k < vec.now.bits / 64 }
    ensures { result ≡ number_of_bits 8 (λ j. bit (get_or (read_p vec.now pt) (8 * k + j) false)) }
{
    let _length = vec.length();
    let mut v = 0;
    for j in 0..8 {
        v += weight(vec.p_bit(pt, 8 * k + j), j);
    }
    v
}

/// The number whose low bytes are stored of a lane and the j-th register.
pub(crate) fn stored_value(plan: &Plan, vec: &VecRegs, k: u32, j: u32) -> u64
    requires plan { IsPlan plan.now vec.now }
    requires lane { k < plan.now.lanes }
    requires register { j < plan.now.registers }
    ensures { let l = layout_of plan.now vec.now in result
        ≡ stored_by plan.now.target l vec.now (element_of_lane l k j) }
{
    match plan.target {
        Target::Predicate(pt) => {
            let _number = pt.get();
            predicate_byte(vec, pt, k)
        }
        _ => vec.lane(register_at(plan, j), plan.bits, k),
    }
}

/// Stores the elements of a lane that has some.
fn store_lane(
    plan: &Plan,
    vec: &VecRegs,
    mem: &mut Mem,
    log: &mut AccessLog,
    k: u32,
) -> Result<(), Trap>
    requires plan { IsPlan plan.now vec.now }
    requires within { k < plan.now.lanes }
    requires on { let l = layout_of plan.now vec.now in l.is_on k ≡ true }
    requires count { array_vec_len log.old ≤ k * plan.now.registers }
    // whatever the memory was before the first store
    ensures stored { (m : Memory) → let l = layout_of plan.now vec.now in
        AreStored (stored_by plan.now.target l vec.now) m (elements_below l k) mem.old.memory log.old.items
        → MatchResult result
        (λ x. AreStored (stored_by plan.now.target l vec.now) m (elements_below l (k + 1)) mem.new.memory log.new.items)
        (λ trap. StopsStore (stored_by plan.now.target l vec.now) m (elements_of l) mem.new.memory log.new.items trap) }
    ensures marks { mem.new.marks ≡ mem.old.marks }
{
    for j in 0..plan.registers {
        let _room = position(plan, vec, k, j);
        let at = address(plan, vec, k, j);
        let v = stored_value(plan, vec, k, j);
        match store(mem, log, u128::from(v), at, plan.bytes) {
            Ok(()) => {}
            Err(trap) => return Err(trap),
        }
    }
    Ok(())
}

/// Stores the elements of a lane, if it has some.
pub(crate) fn put_lane(
    plan: &Plan,
    vec: &VecRegs,
    mem: &mut Mem,
    log: &mut AccessLog,
    k: u32,
) -> Result<(), Trap>
    requires plan { IsPlan plan.now vec.now }
    requires within { k < plan.now.lanes }
    requires count { array_vec_len log.old ≤ k * plan.now.registers }
    // whatever the memory was before the first store
    ensures stored { (m : Memory) → let l = layout_of plan.now vec.now in
        AreStored (stored_by plan.now.target l vec.now) m (elements_below l k) mem.old.memory log.old.items
        → MatchResult result
        (λ x. AreStored (stored_by plan.now.target l vec.now) m (elements_below l (k + 1)) mem.new.memory log.new.items)
        (λ trap. StopsStore (stored_by plan.now.target l vec.now) m (elements_of l) mem.new.memory log.new.items trap) }
    ensures marks { mem.new.marks ≡ mem.old.marks }
{
    if is_on(plan, vec, k) {
        return store_lane(plan, vec, mem, log, k);
    }
    Ok(())
}

/// Stores all elements one by one, or stops at the first that is refused.
pub(crate) fn store_lanes(
    plan: &Plan,
    vec: &VecRegs,
    mem: &mut Mem,
    log: &mut AccessLog,
) -> Result<(), Trap>
    requires plan { IsPlan plan.now vec.now }
    requires empty { log.old.items ≡ [] }
    ensures stored { let l = layout_of plan.now vec.now in let m = mem.old.memory in MatchResult result
        (λ x. AreStored (stored_by plan.now.target l vec.now) m (elements_of l) mem.new.memory log.new.items)
        (λ trap. StopsStore (stored_by plan.now.target l vec.now) m (elements_of l) mem.new.memory log.new.items trap) }
    ensures marks { mem.new.marks ≡ mem.old.marks }
{
    for k in 0..plan.lanes {
        put_lane(plan, vec, mem, log, k)?;
    }
    Ok(())
}

/// Stores all elements in order, or stops at the first that is refused.
pub(crate) fn store_values(
    plan: &Plan,
    vec: &VecRegs,
    mem: &mut Mem,
    log: &mut AccessLog,
) -> Result<(), Trap>
    requires plan { IsPlan plan.now vec.now }
    requires empty { log.old.items ≡ [] }
    ensures stored { let l = layout_of plan.now vec.now in let m = mem.old.memory in MatchResult result
        (λ x. AreStored (stored_by plan.now.target l vec.now) m (elements_of l) mem.new.memory log.new.items)
        (λ trap. StopsStore (stored_by plan.now.target l vec.now) m (elements_of l) mem.new.memory log.new.items trap) }
    ensures marks { mem.new.marks ≡ mem.old.marks }
{
    match run_of(plan, vec) {
        Some(run) => store_run(plan, vec, mem, log, &run),
        None => {
            if store_line(plan, vec, mem, log) {
                return Ok(());
            }
            store_lanes(plan, vec, mem, log)
        }
    }
}
