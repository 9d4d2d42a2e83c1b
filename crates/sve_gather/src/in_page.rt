//! Gathers whose elements are all in one page: they are read where it lies.
ghost use Rattle.std.specs.Prelude.{
  ◌≡◌,
  ◌≤◌,
  ◌<◌,
  ◌+◌,
  ◌*◌,
  ◌/◌,
  ◌++◌,
  ◌∷◌,
  [],
  ⊤,
  MatchOption,
  None,
  false,
  true,
  length,
};
ghost use Rattle.arrayvec.specs.ArrayVec.{array_vec_len};
ghost use Rattle.byteorder.specs.Endian.{little_number};
ghost use Rattle.emu_model.specs.Access.{Memory, page_size, refused, value};
ghost use Rattle.emu_model.specs.declared.access.Kind.{Kind};
ghost use Rattle.sve_effects.specs.VectorElements.{elements_below, elements_of};
ghost use Rattle.guest_mem.specs.ReachLaws.{AreLoaded};
ghost use Rattle.element_loops.specs.Layouts.{IsPlan, layout_of};
ghost use Rattle.element_loops.specs.Planned.{loaded_by};
ghost use Rattle.sve_gather.specs.Indexing.{IsIndex, IsIndexed};
ghost use Rattle.sve_gather.specs.Gathers.{AreWords, IsGather, lane_value, word_of_lanes};
ghost use Rattle.sve_gather.specs.InPage.{IsPage};

use crate::gather::{one_lane, two_lanes, write, write_pair};
use crate::indexed::{Index, address, index_of, is_on};
use byteorder::{ByteOrder, LittleEndian};
use element_loops::Plan;
use element_loops::place::position;
use emu_model::{PAGE_BYTES, PAGE_SIZE};
use guest_mem::{Access, AccessLog, Kind, Mem};
use vec_regs::{VecRegs, extended};

/// The little-endian number of the first n bytes, n at most 8.
#[inline(always)]
fn number(bytes: &[u8], n: u32) -> u64
    requires some { 1 ≤ n }
    requires most { n ≤ 8 }
    requires room { n ≤ length bytes.now }
    ensures { result ≡ little_number n bytes.now }
{
    match n {
        1 => u64::from(bytes[0]),
        2 => u64::from(LittleEndian::read_u16(bytes)),
        4 => u64::from(LittleEndian::read_u32(bytes)),
        8 => LittleEndian::read_u64(bytes),
        _ => LittleEndian::read_uint(bytes, n as usize),
    }
}

/// The little-endian number of n bytes at an address, n at most 8, where all of them are in the page that has these
/// bytes, and logs the access. Else none, and nothing is logged.
#[inline(always)]
fn number_in_page(bytes: &[u8], page: u64, log: &mut AccessLog, at: u64, n: u32) -> Option<u64>
    requires some { 1 ≤ n }
    requires most { n ≤ 8 }
    requires whole { length bytes.now ≡ page_size }
    requires room { array_vec_len log.old < 1024 }
    // whatever memory has the page
    ensures value { (m : Memory) → IsPage m page bytes.now → MatchOption result ⊤
        (λ v. (refused m at n Kind.Read ≡ None) × (v ≡ value m at n)) }
    ensures log { MatchOption result (log.new.items ≡ log.old.items)
        (λ v. log.new.items ≡ log.old.items ++ record { address = at; bytes = n; write = false } ∷ []) }
{
    let place = at % PAGE_SIZE;
    if at / PAGE_SIZE != page {
        return None;
    }
    if place + u64::from(n) > PAGE_SIZE {
        return None;
    }
    let v = number(&bytes[place as usize..], n);
    log.push(Access {
        address: at,
        bytes: n,
        write: false,
    });
    Some(v)
}

/// The element of a lane of E bits, which has N bytes, extended to the lane: 0 where the lane has none. None where the
/// element isn't in the page.
#[inline(always)]
fn lane_in_page<const E: u32, const N: u32>(
    plan: &Plan,
    index: &Index,
    vec: &VecRegs,
    bytes: &[u8],
    page: u64,
    log: &mut AccessLog,
    k: u32,
) -> Option<u64>
    requires plan { IsPlan plan.now vec.now }
    requires one { plan.now.registers ≡ 1 }
    requires index { IsIndex index.now plan.now }
    requires bits { E ≡ plan.now.bits }
    requires size { N ≡ plan.now.bytes }
    requires most { N ≤ 8 }
    requires whole { length bytes.now ≡ page_size }
    requires within { k < plan.now.lanes }
    requires room { length log.old.items ≤ k }
    // whatever memory has the page
    ensures loaded { (m : Memory) → IsPage m page bytes.now
        → AreLoaded m (elements_below (layout_of plan.now vec.now) k) log.old.items → MatchOption result ⊤
        (λ v. AreLoaded m (elements_below (layout_of plan.now vec.now) (k + 1)) log.new.items) }
    ensures value { (m : Memory) → IsPage m page bytes.now
        → MatchOption result ⊤ (λ v. v ≡ lane_value plan.now vec.now m k) }
    ensures room { length log.new.items ≤ k + 1 }
{
    let _room = position(plan, vec, k, 0);
    if !is_on(plan, index, vec, E, k) {
        return Some(0);
    }
    let at = address(plan, index, vec, E, k);
    match number_in_page(bytes, page, log, at, N) {
        Some(v) => Some(extended(plan.is_signed, E, N, v)),
        None => None,
    }
}

/// The elements of the lanes of word i of the register, of E bits, N bytes each. None where one isn't in the page.
#[inline(always)]
fn word_in_page<const E: u32, const N: u32>(
    plan: &Plan,
    index: &Index,
    vec: &VecRegs,
    bytes: &[u8],
    page: u64,
    log: &mut AccessLog,
    i: u32,
) -> Option<u64>
    requires plan { IsPlan plan.now vec.now }
    requires gather { IsGather plan.now }
    requires index { IsIndex index.now plan.now }
    requires bits { E ≡ plan.now.bits }
    requires size { N ≡ plan.now.bytes }
    requires most { N ≤ 8 }
    requires whole { length bytes.now ≡ page_size }
    requires within { i < vec.now.bits / 64 }
    requires room { length log.old.items ≤ i * (64 / plan.now.bits) }
    // whatever memory has the page
    ensures loaded { (m : Memory) → IsPage m page bytes.now
        → AreLoaded m (elements_below (layout_of plan.now vec.now) (i * (64 / plan.now.bits))) log.old.items
        → MatchOption result ⊤ (λ word.
        AreLoaded m (elements_below (layout_of plan.now vec.now) ((i + 1) * (64 / plan.now.bits))) log.new.items) }
    ensures word { (m : Memory) → IsPage m page bytes.now → MatchOption result ⊤
        (λ word. word ≡ word_of_lanes plan.now.bits (lane_value plan.now vec.now m) i) }
    ensures room { length log.new.items ≤ (i + 1) * (64 / plan.now.bits) }
{
    let _length = vec.length();
    if E == 64 {
        return match lane_in_page::<E, N>(plan, index, vec, bytes, page, log, i) {
            Some(word) => Some(one_lane(word)),
            None => None,
        };
    }
    let Some(low) = lane_in_page::<E, N>(plan, index, vec, bytes, page, log, 2 * i) else {
        return None;
    };
    let Some(high) = lane_in_page::<E, N>(plan, index, vec, bytes, page, log, 2 * i + 1) else {
        return None;
    };
    Some(two_lanes(low, high))
}

/// Makes the words of the register, and says whether all elements are in the page.
#[inline(always)]
fn words_in_page<const E: u32, const N: u32>(
    plan: &Plan,
    index: &Index,
    vec: &VecRegs,
    bytes: &[u8],
    page: u64,
    log: &mut AccessLog,
    words: &mut [u64; 32],
) -> bool
    requires plan { IsPlan plan.now vec.now }
    requires gather { IsGather plan.now }
    requires index { IsIndex index.now plan.now }
    requires bits { E ≡ plan.now.bits }
    requires size { N ≡ plan.now.bytes }
    requires most { N ≤ 8 }
    requires whole { length bytes.now ≡ page_size }
    requires zero { (m : Memory) → AreWords plan.now vec.now m 0 words.old }
    requires empty { log.old.items ≡ [] }
    // whatever memory has the page
    ensures loaded { result ≡ true → (m : Memory) → IsPage m page bytes.now
        → AreLoaded m (elements_of (layout_of plan.now vec.now)) log.new.items }
    ensures words { result ≡ true → (m : Memory) → IsPage m page bytes.now
        → AreWords plan.now vec.now m (vec.now.bits / 64) words.new }
{
    for i in 0..vec.length().bits() / 64 {
        match word_in_page::<E, N>(plan, index, vec, bytes, page, log, i) {
            Some(word) => {
                words[i as usize] = word;
            }
            None => return false,
        }
    }
    true
}

/// Writes a register of 128 bits, and says whether all elements are in the page. Else no register is changed.
#[inline(always)]
fn pair_in_page<const E: u32, const N: u32>(
    plan: &Plan,
    index: &Index,
    vec: &mut VecRegs,
    bytes: &[u8],
    page: u64,
    log: &mut AccessLog,
) -> bool
    requires plan { IsPlan plan.now vec.old }
    requires gather { IsGather plan.now }
    requires short { vec.old.bits ≡ 128 }
    requires index { IsIndex index.now plan.now }
    requires bits { E ≡ plan.now.bits }
    requires size { N ≡ plan.now.bytes }
    requires most { N ≤ 8 }
    requires whole { length bytes.now ≡ page_size }
    requires empty { log.old.items ≡ [] }
    // whatever memory has the page
    ensures loaded { result ≡ true → (m : Memory) → IsPage m page bytes.now
        → AreLoaded m (elements_of (layout_of plan.now vec.old)) log.new.items }
    ensures registers { result ≡ true → (m : Memory) → IsPage m page bytes.now
        → vec.new ≡ loaded_by plan.now.target plan.now.is_signed (layout_of plan.now vec.old) m vec.old }
    ensures kept { result ≡ false → vec.new ≡ vec.old }
{
    let _length = vec.length();
    let Some(low) = word_in_page::<E, N>(plan, index, vec, bytes, page, log, 0) else {
        return false;
    };
    let Some(high) = word_in_page::<E, N>(plan, index, vec, bytes, page, log, 1) else {
        return false;
    };
    write_pair(plan, vec, low, high);
    true
}

/// Loads the elements of a register of 128 bits in order, N bytes each for lanes of E bits, and writes it, where all are
/// in the page of the first lane's address, and says whether it did. Else no register is changed.
#[inline(always)]
pub(crate) fn load_short<const E: u32, const N: u32>(
    plan: &Plan,
    vec: &mut VecRegs,
    mem: &mut Mem,
    log: &mut AccessLog,
) -> bool
    requires plan { IsPlan plan.now vec.old }
    requires gather { IsGather plan.now }
    requires indexed { IsIndexed plan.now }
    requires short { vec.old.bits ≡ 128 }
    requires bits { E ≡ plan.now.bits }
    requires size { N ≡ plan.now.bytes }
    requires most { N ≤ 8 }
    requires empty { log.old.items ≡ [] }
    ensures loaded { result ≡ true
        → AreLoaded mem.old.memory (elements_of (layout_of plan.now vec.old)) log.new.items }
    ensures registers { result ≡ true → vec.new
        ≡ loaded_by plan.now.target plan.now.is_signed (layout_of plan.now vec.old) mem.old.memory vec.old }
    ensures kept { result ≡ false → vec.new ≡ vec.old }
    ensures memory { mem.new ≡ mem.old }
{
    let _length = vec.length();
    let index = index_of(plan);
    let page = address(plan, &index, vec, E, 0) / PAGE_SIZE;
    match mem.slice_at(page * PAGE_SIZE, PAGE_BYTES, Kind::Read) {
        Some(bytes) => pair_in_page::<E, N>(plan, &index, vec, bytes, page, log),
        None => false,
    }
}

/// The same of a register of any length. It isn't inlined, so that its loop has the processor's registers to itself.
#[inline(never)]
pub(crate) fn load_long<const E: u32, const N: u32>(
    plan: &Plan,
    vec: &mut VecRegs,
    mem: &mut Mem,
    log: &mut AccessLog,
) -> bool
    requires plan { IsPlan plan.now vec.old }
    requires gather { IsGather plan.now }
    requires indexed { IsIndexed plan.now }
    requires bits { E ≡ plan.now.bits }
    requires size { N ≡ plan.now.bytes }
    requires most { N ≤ 8 }
    requires empty { log.old.items ≡ [] }
    ensures loaded { result ≡ true
        → AreLoaded mem.old.memory (elements_of (layout_of plan.now vec.old)) log.new.items }
    ensures registers { result ≡ true → vec.new
        ≡ loaded_by plan.now.target plan.now.is_signed (layout_of plan.now vec.old) mem.old.memory vec.old }
    ensures kept { result ≡ false → vec.new ≡ vec.old }
    ensures memory { mem.new ≡ mem.old }
{
    let _length = vec.length();
    let plan = *plan;
    let index = index_of(&plan);
    let page = address(&plan, &index, vec, E, 0) / PAGE_SIZE;
    let mut words = [0u64; 32];
    let is_done = match mem.slice_at(page * PAGE_SIZE, PAGE_BYTES, Kind::Read) {
        Some(bytes) => words_in_page::<E, N>(&plan, &index, vec, bytes, page, log, &mut words),
        None => false,
    };
    if is_done {
        write(&plan, vec, &words);
    }
    is_done
}
