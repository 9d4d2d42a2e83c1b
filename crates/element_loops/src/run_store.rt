//! Stores of runs.
ghost use Rattle.std.specs.Prelude.{◌≡◌, ◌≤◌, ◌<◌, ◌+◌, ◌*◌, ◌/◌, ◌%◌, ℕ, [], IfOk, MatchResult, true, get_or, length};
ghost use Rattle.arrayvec.specs.ArrayVec.{array_vec_len};
ghost use Rattle.emu_model.specs.Access.{Memory, address, page_size};
ghost use Rattle.emu_model.specs.Lanes.{read_z};
ghost use Rattle.sve_effects.specs.VectorElements.{elements_below, elements_of};
ghost use Rattle.guest_mem.specs.ReachLaws.{AreStored, StopsStore};
ghost use Rattle.element_loops.specs.Layouts.{IsPlan, layout_of};
ghost use Rattle.element_loops.specs.Planned.{stored_by};
ghost use Rattle.element_loops.specs.Runs.{IsFront, IsRun};

use crate::border::put_bytes;
use crate::place::{is_on, register_at};
use crate::plan::Plan;
use crate::run::{Run, idle_lanes};
use crate::storing::put_lane;
use active_lanes::active_from;
use core_regs::Trap;
use emu_bits::Reg;
use emu_model::PAGE_SIZE;
use guest_mem::{AccessLog, Mem};
use vec_regs::VecRegs;

/// Puts the bytes of a register into a buffer, which has 256 places.
pub fn put_register(vec: &VecRegs, r: Reg, bytes: &mut [u8])
    requires { length bytes.old ≡ 256 }
    ensures bytes { (j : ℕ) → j < vec.now.bits / 8 → get_or bytes.new j 0 ≡ get_or (read_z vec.now r) j 0 }
    ensures count { length bytes.new ≡ 256 }
    ensures whole { length (read_z vec.now r) ≡ vec.now.bits / 8 }
{
    let words = vec.z_words(r);
    for i in 0..vec.length().bits() as usize / 64 {
        bytes[8 * i..8 * i + 8].copy_from_slice(&words[i].to_le_bytes());
    }
}

/// Stores d lanes of a register from lane k on, all of which are on, where they fit their page and it may be written,
/// and answers how many were stored.
fn put_lanes(
    plan: &Plan,
    vec: &VecRegs,
    mem: &mut Mem,
    log: &mut AccessLog,
    run: &Run,
    bytes: &[u8],
    k: u32,
    d: u32,
) -> u32
    requires plan { IsPlan plan.now vec.now }
    requires run { IsRun run.now.base run.now.pg run.now.whole plan.now vec.now }
    requires within { k + d ≤ plan.now.lanes }
    requires fits { address (run.now.base + k * plan.now.bytes) % page_size + d * plan.now.bytes ≤ page_size }
    requires on { (i : ℕ) → k ≤ i → i < k + d → let l = layout_of plan.now vec.now in l.is_on i ≡ true }
    requires bytes { (j : ℕ) → j < vec.now.bits / 8
        → get_or bytes.now j 0 ≡ get_or (read_z vec.now ((plan.now.register + 0) % 32)) j 0 }
    requires whole { length (read_z vec.now ((plan.now.register + 0) % 32)) ≡ vec.now.bits / 8 }
    requires long { length bytes.now ≡ 256 }
    requires count { array_vec_len log.old ≤ k }
    ensures few { k + result ≤ plan.now.lanes }
    ensures count { array_vec_len log.new ≤ k + result }
    // whatever the memory was before the first store
    ensures stored { (m : Memory) → let l = layout_of plan.now vec.now in
        AreStored (stored_by plan.now.target l vec.now) m (elements_below l k) mem.old.memory log.old.items
        → AreStored (stored_by plan.now.target l vec.now) m (elements_below l (k + result)) mem.new.memory
        log.new.items }
    ensures marks { mem.new.marks ≡ mem.old.marks }
{
    let _length = vec.length();
    let from = (k * plan.bytes) as usize;
    let to = from + (d * plan.bytes) as usize;
    let at = run.base.wrapping_add(u64::from(k * plan.bytes));
    if put_bytes(mem, at, &bytes[from..to]) {
        log.push_run(at, plan.bytes, d, true);
        return d;
    }
    0
}

/// How many of so many lanes, of n bytes each, from an address on end in its page.
fn lanes_in_page(at: u64, n: u32, lanes: u32) -> u32
    requires some { 1 ≤ n }
    requires most { n ≤ 8 }
    requires lanes { lanes ≤ 256 }
    ensures few { result ≤ lanes }
    ensures fits { at % page_size + result * n ≤ page_size }
{
    if at % PAGE_SIZE + u64::from(lanes * n) <= PAGE_SIZE {
        return lanes;
    }
    (((PAGE_SIZE - at % PAGE_SIZE) / u64::from(n)) as u32).min(lanes)
}

/// How many of at most so many lanes from lane k on have an element, before the first that may have none.
fn lanes_on(plan: &Plan, vec: &VecRegs, run: &Run, k: u32, most: u32) -> u32
    requires plan { IsPlan plan.now vec.now }
    requires run { IsRun run.now.base run.now.pg run.now.whole plan.now vec.now }
    requires front { IsFront run.now.front plan.now vec.now }
    requires lane { k < plan.now.lanes }
    requires within { k + most ≤ plan.now.lanes }
    ensures on { (i : ℕ) → k ≤ i → i < k + result → let l = layout_of plan.now vec.now in l.is_on i ≡ true }
    ensures few { result ≤ most }
{
    let _length = vec.length();
    let pg = run.pg;
    if k < run.front {
        return most.min(run.front - k);
    }
    active_from(vec, pg, plan.bits, k, most)
}

/// Stores the lanes of a register from lane k on up to the first that isn't on, as far as they are in one page, where
/// it may be written, and answers how many were stored.
fn put_some(
    plan: &Plan,
    vec: &VecRegs,
    mem: &mut Mem,
    log: &mut AccessLog,
    run: &Run,
    bytes: &[u8],
    k: u32,
) -> u32
    requires plan { IsPlan plan.now vec.now }
    requires run { IsRun run.now.base run.now.pg run.now.whole plan.now vec.now }
    requires front { IsFront run.now.front plan.now vec.now }
    requires within { k < plan.now.lanes }
    requires bytes { (j : ℕ) → j < vec.now.bits / 8
        → get_or bytes.now j 0 ≡ get_or (read_z vec.now ((plan.now.register + 0) % 32)) j 0 }
    requires whole { length (read_z vec.now ((plan.now.register + 0) % 32)) ≡ vec.now.bits / 8 }
    requires long { length bytes.now ≡ 256 }
    requires count { array_vec_len log.old ≤ k }
    ensures few { k + result ≤ plan.now.lanes }
    ensures count { array_vec_len log.new ≤ k + result }
    // whatever the memory was before the first store
    ensures stored { (m : Memory) → let l = layout_of plan.now vec.now in
        AreStored (stored_by plan.now.target l vec.now) m (elements_below l k) mem.old.memory log.old.items
        → AreStored (stored_by plan.now.target l vec.now) m (elements_below l (k + result)) mem.new.memory
        log.new.items }
    ensures marks { mem.new.marks ≡ mem.old.marks }
{
    let _length = vec.length();
    let at = run.base.wrapping_add(u64::from(k * plan.bytes));
    let room = lanes_in_page(at, plan.bytes, plan.lanes - k);
    let d = lanes_on(plan, vec, run, k, room);
    if d == 0 {
        return 0;
    }
    put_lanes(plan, vec, mem, log, run, bytes, k, d)
}

/// Stores as many lanes from lane k on as `put_some` does, or else lane k by itself, which may be off, and answers how
/// many lanes are done.
fn put_next(
    plan: &Plan,
    vec: &VecRegs,
    mem: &mut Mem,
    log: &mut AccessLog,
    run: &Run,
    bytes: &[u8],
    k: u32,
) -> Result<u32, Trap>
    requires plan { IsPlan plan.now vec.now }
    requires run { IsRun run.now.base run.now.pg run.now.whole plan.now vec.now }
    requires front { IsFront run.now.front plan.now vec.now }
    requires within { k < plan.now.lanes }
    requires bytes { (j : ℕ) → j < vec.now.bits / 8
        → get_or bytes.now j 0 ≡ get_or (read_z vec.now ((plan.now.register + 0) % 32)) j 0 }
    requires whole { length (read_z vec.now ((plan.now.register + 0) % 32)) ≡ vec.now.bits / 8 }
    requires long { length bytes.now ≡ 256 }
    requires count { array_vec_len log.old ≤ k }
    ensures some { IfOk result (λ d. 1 ≤ d) }
    ensures few { IfOk result (λ d. k + d ≤ plan.now.lanes) }
    // whatever the memory was before the first store
    ensures stored { (m : Memory) → let l = layout_of plan.now vec.now in
        AreStored (stored_by plan.now.target l vec.now) m (elements_below l k) mem.old.memory log.old.items
        → MatchResult result
        (λ d. AreStored (stored_by plan.now.target l vec.now) m (elements_below l (k + d)) mem.new.memory log.new.items)
        (λ trap. StopsStore (stored_by plan.now.target l vec.now) m (elements_of l) mem.new.memory log.new.items trap) }
    ensures marks { mem.new.marks ≡ mem.old.marks }
{
    if !is_on(plan, vec, k) {
        return Ok(idle_lanes(plan, vec, run, k));
    }
    let lanes = put_some(plan, vec, mem, log, run, bytes, k);
    if lanes > 0 {
        return Ok(lanes);
    }
    match put_lane(plan, vec, mem, log, k) {
        Ok(()) => Ok(1),
        Err(trap) => Err(trap),
    }
}

/// Stores a run.
pub(crate) fn store_run(
    plan: &Plan,
    vec: &VecRegs,
    mem: &mut Mem,
    log: &mut AccessLog,
    run: &Run,
) -> Result<(), Trap>
    requires plan { IsPlan plan.now vec.now }
    requires run { IsRun run.now.base run.now.pg run.now.whole plan.now vec.now }
    requires front { IsFront run.now.front plan.now vec.now }
    requires empty { log.old.items ≡ [] }
    ensures stored { let l = layout_of plan.now vec.now in let m = mem.old.memory in MatchResult result
        (λ x. AreStored (stored_by plan.now.target l vec.now) m (elements_of l) mem.new.memory log.new.items)
        (λ trap. StopsStore (stored_by plan.now.target l vec.now) m (elements_of l) mem.new.memory log.new.items trap) }
    ensures marks { mem.new.marks ≡ mem.old.marks }
{
    let _length = vec.length();
    let mut bytes = [0u8; 256];
    put_register(vec, register_at(plan, 0), &mut bytes);
    let mut k = 0;
    while k < plan.lanes {
        match put_next(plan, vec, mem, log, run, &bytes, k) {
            Ok(lanes) => k += lanes,
            Err(trap) => return Err(trap),
        }
    }
    Ok(())
}
