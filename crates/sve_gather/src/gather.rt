//! Gathers.
ghost use Rattle.std.specs.Prelude.{
  ℕ,
  ◌≡◌,
  ◌≤◌,
  ◌<◌,
  ◌+◌,
  ◌*◌,
  ◌/◌,
  ◌++◌,
  ◌∷◌,
  [],
  ⊤,
  MatchResult,
  None,
  Some,
  false,
  true,
};
ghost use Rattle.arrayvec.specs.ArrayVec.{array_vec_len};
ghost use Rattle.emu_model.specs.Access.{Memory, refused, value};
ghost use Rattle.emu_model.specs.Elements.{reach};
ghost use Rattle.emu_model.specs.State.{Core as CoreState};
ghost use Rattle.emu_model.specs.declared.access.Kind.{Kind};
ghost use Rattle.emu_model.specs.declared.trap.TrapKind.{TrapKind};
ghost use Rattle.sve_effects.specs.VectorElements.{elements_below, elements_of};
ghost use Rattle.sve_effects.specs.VectorLoadStore.{loaded_to};
ghost use Rattle.guest_mem.specs.ReachLaws.{AreLoaded, StopsLoad};
ghost use Rattle.element_loops.specs.Layouts.{IsPlan, layout_of};
ghost use Rattle.element_loops.specs.Planned.{load_by, loaded_by};
ghost use Rattle.vec_regs.specs.Words.{AreZeroFrom};
ghost use Rattle.sve_gather.specs.Indexing.{IsIndex, IsIndexed};
ghost use Rattle.sve_gather.specs.Gathers.{AreWords, IsGather, lane_value, word_of_lanes};

use crate::base::test_base;
use crate::in_page;
use crate::indexed::{Index, address, index_of, is_indexed, is_on};
use core_regs::{Core, Effect, Trap};
use element_loops::Plan;
use element_loops::place::{position, register_at};
use guest_mem::element_access::load_here;
use guest_mem::{AccessLog, Mem};
use vec_regs::{VecRegs, extended};

/// The little-endian number of n bytes, n at most 8, and logs the access. A trap logs nothing.
#[inline(always)]
fn load_number(mem: &mut Mem, log: &mut AccessLog, at: u64, n: u32) -> Result<u64, Trap>
    requires some { 1 ≤ n }
    requires most { n ≤ 8 }
    requires room { array_vec_len log.old < 1024 }
    ensures result { MatchResult result
        (λ v. (refused mem.old.memory at n Kind.Read ≡ None) × (v ≡ value mem.old.memory at n))
        (λ trap. (trap.kind ≡ TrapKind.Read) × (refused mem.old.memory at n Kind.Read ≡ Some trap.address)) }
    ensures memory { mem.new ≡ mem.old }
    ensures log { MatchResult result
        (λ v. log.new.items ≡ log.old.items ++ record { address = at; bytes = n; write = false } ∷ [])
        (λ trap. log.new.items ≡ log.old.items) }
{
    let v = load_here(mem, log, at, n)?;
    Ok(v as u64)
}

/// Loads the element of a lane of E bits, which has N bytes, and extends it to the lane: 0 where the lane has none.
#[inline(always)]
fn load_lane<const E: u32, const N: u32>(
    plan: &Plan,
    index: &Index,
    vec: &VecRegs,
    mem: &mut Mem,
    log: &mut AccessLog,
    k: u32,
) -> Result<u64, Trap>
    requires plan { IsPlan plan.now vec.now }
    requires one { plan.now.registers ≡ 1 }
    requires index { IsIndex index.now plan.now }
    requires bits { E ≡ plan.now.bits }
    requires bytes { N ≡ plan.now.bytes }
    requires within { k < plan.now.lanes }
    requires loaded { AreLoaded mem.old.memory (elements_below (layout_of plan.now vec.now) k) log.old.items }
    ensures loaded { let l = layout_of plan.now vec.now in MatchResult result
        (λ v. AreLoaded mem.old.memory (elements_below l (k + 1)) log.new.items)
        (λ trap. StopsLoad mem.old.memory (elements_of l) log.new.items trap) }
    ensures value { MatchResult result (λ v. v ≡ lane_value plan.now vec.now mem.old.memory k) (λ trap. ⊤) }
    ensures memory { mem.new ≡ mem.old }
{
    let _room = position(plan, vec, k, 0);
    if !is_on(plan, index, vec, E, k) {
        return Ok(0);
    }
    let at = address(plan, index, vec, E, k);
    match load_number(mem, log, at, N) {
        Ok(v) => Ok(extended(plan.is_signed, E, N, v)),
        Err(trap) => Err(trap),
    }
}

/// The word of a lane of 64 bits.
#[inline(always)]
pub(crate) fn one_lane(lane: u64) -> u64
    // whatever function gives the lanes
    ensures { (f : ℕ → ℕ) (i : ℕ) → lane ≡ f i → result ≡ word_of_lanes 64 f i }
{
    lane
}

/// The word of two lanes of 32 bits, the first the lower.
#[inline(always)]
pub(crate) fn two_lanes(low: u64, high: u64) -> u64
    // whatever function gives the lanes
    ensures { (f : ℕ → ℕ) (i : ℕ) → low ≡ f (2 * i) → high ≡ f (2 * i + 1) → result ≡ word_of_lanes 32 f i }
{
    low % 0x1_0000_0000 + high % 0x1_0000_0000 * 0x1_0000_0000
}

/// Loads the elements of the lanes of word i of the register, of E bits, N bytes each.
#[inline(always)]
fn load_word<const E: u32, const N: u32>(
    plan: &Plan,
    index: &Index,
    vec: &VecRegs,
    mem: &mut Mem,
    log: &mut AccessLog,
    i: u32,
) -> Result<u64, Trap>
    requires plan { IsPlan plan.now vec.now }
    requires gather { IsGather plan.now }
    requires index { IsIndex index.now plan.now }
    requires bits { E ≡ plan.now.bits }
    requires bytes { N ≡ plan.now.bytes }
    requires within { i < vec.now.bits / 64 }
    requires loaded { AreLoaded mem.old.memory
        (elements_below (layout_of plan.now vec.now) (i * (64 / plan.now.bits))) log.old.items }
    ensures loaded { let l = layout_of plan.now vec.now in MatchResult result
        (λ word. AreLoaded mem.old.memory (elements_below l ((i + 1) * (64 / plan.now.bits))) log.new.items)
        (λ trap. StopsLoad mem.old.memory (elements_of l) log.new.items trap) }
    ensures word { MatchResult result
        (λ word. word ≡ word_of_lanes plan.now.bits (lane_value plan.now vec.now mem.old.memory) i) (λ trap. ⊤) }
    ensures memory { mem.new ≡ mem.old }
{
    let _length = vec.length();
    if E == 64 {
        let word = load_lane::<E, N>(plan, index, vec, mem, log, i)?;
        return Ok(one_lane(word));
    }
    let low = load_lane::<E, N>(plan, index, vec, mem, log, 2 * i)?;
    let high = load_lane::<E, N>(plan, index, vec, mem, log, 2 * i + 1)?;
    Ok(two_lanes(low, high))
}

/// Loads all elements in order, N bytes each for lanes of E bits, and makes the words of the register, or stops at the
/// first that is refused.
#[inline(always)]
fn load_words<const E: u32, const N: u32>(
    plan: &Plan,
    vec: &VecRegs,
    mem: &mut Mem,
    log: &mut AccessLog,
    words: &mut [u64; 32],
) -> Result<(), Trap>
    requires plan { IsPlan plan.now vec.now }
    requires gather { IsGather plan.now }
    requires indexed { IsIndexed plan.now }
    requires bits { E ≡ plan.now.bits }
    requires bytes { N ≡ plan.now.bytes }
    requires zero { AreWords plan.now vec.now mem.old.memory 0 words.old }
    requires empty { log.old.items ≡ [] }
    ensures loaded { let l = layout_of plan.now vec.now in MatchResult result
        (λ x. AreLoaded mem.old.memory (elements_of l) log.new.items)
        (λ trap. StopsLoad mem.old.memory (elements_of l) log.new.items trap) }
    ensures words { MatchResult result (λ x. AreWords plan.now vec.now mem.old.memory (vec.now.bits / 64) words.new)
        (λ trap. ⊤) }
    ensures memory { mem.new ≡ mem.old }
{
    let plan = *plan;
    let index = index_of(&plan);
    for i in 0..vec.length().bits() / 64 {
        words[i as usize] = load_word::<E, N>(&plan, &index, vec, mem, log, i)?;
    }
    Ok(())
}

/// Writes the words of the register.
#[inline(always)]
pub(crate) fn write(plan: &Plan, vec: &mut VecRegs, words: &[u64; 32])
    requires plan { IsPlan plan.now vec.old }
    requires gather { IsGather plan.now }
    requires above { AreZeroFrom (vec.old.bits / 64) words.now }
    // whatever the memory was that they were loaded from
    ensures { (m : Memory) → AreWords plan.now vec.old m (vec.old.bits / 64) words.now
        → vec.new ≡ loaded_by plan.now.target plan.now.is_signed (layout_of plan.now vec.old) m vec.old }
{
    let _length = vec.length();
    vec.set_z_words(register_at(plan, 0), words);
}

/// Writes the two words of a register of 128 bits.
#[inline(always)]
pub(crate) fn write_pair(plan: &Plan, vec: &mut VecRegs, low: u64, high: u64)
    requires plan { IsPlan plan.now vec.old }
    requires gather { IsGather plan.now }
    requires short { vec.old.bits ≡ 128 }
    // whatever the memory was that they were loaded from
    ensures { (m : Memory) → low ≡ word_of_lanes plan.now.bits (lane_value plan.now vec.old m) 0
        → high ≡ word_of_lanes plan.now.bits (lane_value plan.now vec.old m) 1
        → vec.new ≡ loaded_by plan.now.target plan.now.is_signed (layout_of plan.now vec.old) m vec.old }
{
    let _length = vec.length();
    let register = register_at(plan, 0);
    let _words = vec.z_words(register);
    vec.set_z_pair(register, 0, [low, high]);
}

/// Loads the elements in order, N bytes each for lanes of E bits, wherever they are, and then writes the register, or
/// stops at the first that is refused.
#[inline(never)]
fn load_long<const E: u32, const N: u32>(
    plan: &Plan,
    vec: &mut VecRegs,
    mem: &mut Mem,
    log: &mut AccessLog,
) -> Result<(), Trap>
    requires plan { IsPlan plan.now vec.old }
    requires gather { IsGather plan.now }
    requires indexed { IsIndexed plan.now }
    requires bits { E ≡ plan.now.bits }
    requires bytes { N ≡ plan.now.bytes }
    requires empty { log.old.items ≡ [] }
    ensures loaded { let l = layout_of plan.now vec.old in MatchResult result
        (λ x. AreLoaded mem.old.memory (elements_of l) log.new.items)
        (λ trap. StopsLoad mem.old.memory (elements_of l) log.new.items trap) }
    ensures registers { let l = layout_of plan.now vec.old in MatchResult result
        (λ x. vec.new ≡ loaded_by plan.now.target plan.now.is_signed l mem.old.memory vec.old)
        (λ trap. vec.new ≡ vec.old) }
    ensures memory { mem.new ≡ mem.old }
{
    let mut words = [0u64; 32];
    match load_words::<E, N>(plan, vec, mem, log, &mut words) {
        Ok(()) => {
            write(plan, vec, &words);
            Ok(())
        }
        Err(trap) => Err(trap),
    }
}

/// The same, by the bytes of one page where all elements are in it. It isn't inlined, so that its loop has the processor's registers to itself.
#[inline(never)]
fn load_register<const E: u32, const N: u32>(
    plan: &Plan,
    vec: &mut VecRegs,
    mem: &mut Mem,
    log: &mut AccessLog,
) -> Result<(), Trap>
    requires plan { IsPlan plan.now vec.old }
    requires gather { IsGather plan.now }
    requires indexed { IsIndexed plan.now }
    requires bits { E ≡ plan.now.bits }
    requires bytes { N ≡ plan.now.bytes }
    requires empty { log.old.items ≡ [] }
    ensures loaded { let l = layout_of plan.now vec.old in MatchResult result
        (λ x. AreLoaded mem.old.memory (elements_of l) log.new.items)
        (λ trap. StopsLoad mem.old.memory (elements_of l) log.new.items trap) }
    ensures registers { let l = layout_of plan.now vec.old in MatchResult result
        (λ x. vec.new ≡ loaded_by plan.now.target plan.now.is_signed l mem.old.memory vec.old)
        (λ trap. vec.new ≡ vec.old) }
    ensures memory { mem.new ≡ mem.old }
{
    let is_done = if vec.length().bits() == 128 {
        in_page::load_short::<E, N>(plan, vec, mem, log)
    } else {
        in_page::load_long::<E, N>(plan, vec, mem, log)
    };
    if is_done {
        return Ok(());
    }
    log.clear();
    load_long::<E, N>(plan, vec, mem, log)
}

/// The same, with the sizes of lanes and elements told apart.
#[inline(always)]
fn load_all(plan: &Plan, vec: &mut VecRegs, mem: &mut Mem, log: &mut AccessLog) -> Result<(), Trap>
    requires plan { IsPlan plan.now vec.old }
    requires gather { IsGather plan.now }
    requires indexed { IsIndexed plan.now }
    requires empty { log.old.items ≡ [] }
    ensures loaded { let l = layout_of plan.now vec.old in MatchResult result
        (λ x. AreLoaded mem.old.memory (elements_of l) log.new.items)
        (λ trap. StopsLoad mem.old.memory (elements_of l) log.new.items trap) }
    ensures registers { let l = layout_of plan.now vec.old in MatchResult result
        (λ x. vec.new ≡ loaded_by plan.now.target plan.now.is_signed l mem.old.memory vec.old)
        (λ trap. vec.new ≡ vec.old) }
    ensures memory { mem.new ≡ mem.old }
{
    if plan.bits == 64 {
        match plan.bytes {
            1 => load_register::<64, 1>(plan, vec, mem, log),
            2 => load_register::<64, 2>(plan, vec, mem, log),
            4 => load_register::<64, 4>(plan, vec, mem, log),
            _ => load_register::<64, 8>(plan, vec, mem, log),
        }
    } else {
        match plan.bytes {
            1 => load_register::<32, 1>(plan, vec, mem, log),
            2 => load_register::<32, 2>(plan, vec, mem, log),
            _ => load_register::<32, 4>(plan, vec, mem, log),
        }
    }
}

/// The same, and says how the step goes on.
#[inline(always)]
fn load_indexed(plan: &Plan, vec: &mut VecRegs, mem: &mut Mem, log: &mut AccessLog) -> Effect
    requires plan { IsPlan plan.now vec.old }
    requires gather { IsGather plan.now }
    requires indexed { IsIndexed plan.now }
    requires empty { log.old.items ≡ [] }
    ensures done { let l = layout_of plan.now vec.old in let m = mem.old.memory in (c : CoreState) → loaded_to
        (reach m Kind.Read (elements_of l)) (loaded_by plan.now.target plan.now.is_signed l m vec.old) c vec.old m
        ≡ record { core = c; vectors = vec.new; memory = mem.new.memory; accesses = log.new.items; effect = result } }
    ensures marks { mem.new.marks ≡ mem.old.marks }
{
    match load_all(plan, vec, mem, log) {
        Ok(()) => Effect::Next,
        Err(trap) => Effect::Trap(trap),
    }
}

/// Loads all elements and then writes the register, and says how the step goes on. The elements that were loaded are
/// logged in order. A trap changes no register.
#[inline(always)]
pub fn load(
    plan: &Plan,
    core: &Core,
    vec: &mut VecRegs,
    mem: &mut Mem,
    log: &mut AccessLog,
) -> Effect
    requires plan { IsPlan plan.now vec.old }
    requires gather { IsGather plan.now }
    requires empty { log.old.items ≡ [] }
    ensures done { let m = mem.new.memory in load_by plan.now core.now vec.old mem.old.memory
        ≡ record { core = core.now; vectors = vec.new; memory = m; accesses = log.new.items; effect = result } }
    ensures marks { mem.new.marks ≡ mem.old.marks }
{
    if !is_indexed(plan) {
        return element_loops::load_each(plan, core, vec, mem, log);
    }
    if let Err(trap) = test_base(plan, core, vec) {
        return Effect::Trap(trap);
    }
    load_indexed(plan, vec, mem, log)
}

/// Loads all elements and then writes the register, where none of them is refused, and says whether it did. Else
/// nothing is changed.
pub fn load_unrefused(plan: &Plan, vec: &mut VecRegs, mem: &mut Mem, log: &mut AccessLog) -> bool
    requires plan { IsPlan plan.now vec.old }
    requires gather { IsGather plan.now }
    requires empty { log.old.items ≡ [] }
    ensures loaded { result ≡ true → AreLoaded mem.old.memory (elements_of (layout_of plan.now vec.old)) log.new.items }
    ensures registers { result ≡ true
        → vec.new ≡ loaded_by plan.now.target plan.now.is_signed (layout_of plan.now vec.old) mem.old.memory vec.old }
    ensures kept { result ≡ false → vec.new ≡ vec.old }
    ensures unlogged { result ≡ false → log.new.items ≡ [] }
    ensures memory { mem.new ≡ mem.old }
{
    if !is_indexed(plan) {
        return false;
    }
    match load_all(plan, vec, mem, log) {
        Ok(()) => true,
        Err(_) => {
            log.clear();
            false
        }
    }
}
