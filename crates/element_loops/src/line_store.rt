//! Stores of elements that are one behind the other and aren't lanes as they are: narrowed ones, and those of
//! structures.
ghost use Rattle.std.specs.Prelude.{◌≡◌, ◌≤◌, ◌<◌, ◌+◌, ◌*◌, ℕ, [], true, false, take, get_or, length};
ghost use Rattle.std.specs.Int.{bytes_low_first};
ghost use Rattle.sve_effects.specs.VectorElements.{elements_of};
ghost use Rattle.guest_mem.specs.ReachLaws.{AreStored};
ghost use Rattle.element_loops.specs.Layouts.{IsPlan, layout_of};
ghost use Rattle.element_loops.specs.Planned.{stored_by};
ghost use Rattle.element_loops.specs.Runs.{AreFilled, IsLine, stored_in_turn};
ghost use Rattle.element_loops.specs.declared.plan.Target.{Target};

use crate::border::put_over;
use crate::line::total_bytes;
use crate::place::{most_elements, position, register_at};
use crate::plan::{Plan, Target};
use crate::predicates::put_bits;
use crate::run::{Run, line_of};
use guest_mem::{AccessLog, Mem};
use vec_regs::VecRegs;

/// Puts the low n bytes of a number at a place of a buffer. The size is a constant where it is called.
#[inline(always)]
fn put_low(bytes: &mut [u8], at: usize, n: u32, v: u64)
    requires most { n ≤ 8 }
    requires room { at + n ≤ length bytes.old }
    ensures here { (t : ℕ) → t < n → get_or bytes.new (at + t) 0 ≡ get_or (take n (bytes_low_first 0 8 v)) t 0 }
    ensures before { (i : ℕ) → i < at → get_or bytes.new i 0 ≡ get_or bytes.old i 0 }
    ensures long { length bytes.new ≡ length bytes.old }
{
    let number = v.to_le_bytes();
    bytes[at..at + n as usize].copy_from_slice(&number[..n as usize]);
}

/// The same of any size.
fn put_number(bytes: &mut [u8], at: usize, n: u32, v: u64)
    requires most { n ≤ 8 }
    requires room { at + n ≤ length bytes.old }
    ensures here { (t : ℕ) → t < n → get_or bytes.new (at + t) 0 ≡ get_or (take n (bytes_low_first 0 8 v)) t 0 }
    ensures before { (i : ℕ) → i < at → get_or bytes.new i 0 ≡ get_or bytes.old i 0 }
    ensures long { length bytes.new ≡ length bytes.old }
{
    match n {
        1 => put_low(bytes, at, 1, v),
        2 => put_low(bytes, at, 2, v),
        4 => put_low(bytes, at, 4, v),
        8 => put_low(bytes, at, 8, v),
        _ => put_low(bytes, at, n, v),
    }
}

/// Puts the elements of a lane of e bits at their places of a buffer. The size is a constant where it is called.
#[inline(always)]
fn fill_lane(plan: &Plan, vec: &VecRegs, bytes: &mut [u8], e: u32, k: u32)
    requires plan { IsPlan plan.now vec.now }
    requires target { plan.now.target ≡ Target.Registers }
    requires size { e ≡ plan.now.bits }
    requires lane { k < plan.now.lanes }
    requires room { plan.now.lanes * plan.now.registers * plan.now.bytes ≤ length bytes.old }
    ensures filled { let f = stored_by plan.now.target (layout_of plan.now vec.now) vec.now in
        AreFilled plan.now.bytes (stored_in_turn f plan.now vec.now) (k * plan.now.registers) bytes.old
        → AreFilled plan.now.bytes (stored_in_turn f plan.now vec.now) ((k + 1) * plan.now.registers) bytes.new }
    ensures long { length bytes.new ≡ length bytes.old }
{
    for j in 0..plan.registers {
        let at = position(plan, vec, k, j) * plan.bytes;
        let v = vec.lane(register_at(plan, j), e, k);
        put_number(bytes, at as usize, plan.bytes, v);
    }
}

/// Puts the elements of all lanes, of e bits, at their places of a buffer.
#[inline(always)]
fn fill_each(plan: &Plan, vec: &VecRegs, bytes: &mut [u8], e: u32)
    requires plan { IsPlan plan.now vec.now }
    requires target { plan.now.target ≡ Target.Registers }
    requires size { e ≡ plan.now.bits }
    requires room { plan.now.lanes * plan.now.registers * plan.now.bytes ≤ length bytes.old }
    ensures filled { let f = stored_by plan.now.target (layout_of plan.now vec.now) vec.now in
        AreFilled plan.now.bytes (stored_in_turn f plan.now vec.now) (plan.now.lanes * plan.now.registers) bytes.new }
    ensures long { length bytes.new ≡ length bytes.old }
{
    for k in 0..plan.lanes {
        fill_lane(plan, vec, bytes, e, k);
    }
}

/// The same, with the sizes of lanes told apart.
fn fill(plan: &Plan, vec: &VecRegs, bytes: &mut [u8])
    requires plan { IsPlan plan.now vec.now }
    requires target { plan.now.target ≡ Target.Registers }
    requires room { plan.now.lanes * plan.now.registers * plan.now.bytes ≤ length bytes.old }
    ensures filled { let f = stored_by plan.now.target (layout_of plan.now vec.now) vec.now in
        AreFilled plan.now.bytes (stored_in_turn f plan.now vec.now) (plan.now.lanes * plan.now.registers) bytes.new }
    ensures long { length bytes.new ≡ length bytes.old }
{
    match plan.bits {
        8 => fill_each(plan, vec, bytes, 8),
        16 => fill_each(plan, vec, bytes, 16),
        32 => fill_each(plan, vec, bytes, 32),
        _ => fill_each(plan, vec, bytes, plan.bits),
    }
}

/// Whether all lanes have an element.
fn are_all_on(plan: &Plan, vec: &VecRegs, line: &Run) -> bool
    requires plan { IsPlan plan.now vec.now }
    requires line { IsLine line.now.base line.now.pg line.now.whole plan.now vec.now }
    ensures { result ≡ true → (k : ℕ) → k < plan.now.lanes → let l = layout_of plan.now vec.now in l.is_on k ≡ true }
{
    line.whole == vec.length().bits() / 64
}

/// Stores the elements of all lanes at once, where all are on and they are in pages that may be written, and says
/// whether it did. Else nothing is changed. It isn't inlined, so that its buffer takes no time where it isn't used.
#[inline(never)]
fn store_all(plan: &Plan, vec: &VecRegs, mem: &mut Mem, log: &mut AccessLog, line: &Run) -> bool
    requires plan { IsPlan plan.now vec.now }
    requires line { IsLine line.now.base line.now.pg line.now.whole plan.now vec.now }
    requires target { plan.now.target ≡ Target.Registers }
    requires empty { log.old.items ≡ [] }
    ensures stored { result ≡ true → let l = layout_of plan.now vec.now in
        AreStored (stored_by plan.now.target l vec.now) mem.old.memory (elements_of l) mem.new.memory log.new.items }
    ensures kept { result ≡ false → mem.new.memory ≡ mem.old.memory }
    ensures unlogged { result ≡ false → log.new ≡ log.old }
    ensures marks { mem.new.marks ≡ mem.old.marks }
{
    let total = total_bytes(plan, vec);
    if total > 1024 || !are_all_on(plan, vec, line) {
        return false;
    }
    let mut bytes = [0u8; 1024];
    fill(plan, vec, &mut bytes);
    if put_over(mem, line.base, &bytes[..total]) {
        log.push_run(line.base, plan.bytes, most_elements(plan, vec), true);
        return true;
    }
    false
}

/// The same, if the elements are one behind the other.
fn store_registers(plan: &Plan, vec: &VecRegs, mem: &mut Mem, log: &mut AccessLog) -> bool
    requires plan { IsPlan plan.now vec.now }
    requires empty { log.old.items ≡ [] }
    ensures stored { result ≡ true → let l = layout_of plan.now vec.now in
        AreStored (stored_by plan.now.target l vec.now) mem.old.memory (elements_of l) mem.new.memory log.new.items }
    ensures kept { result ≡ false → mem.new.memory ≡ mem.old.memory }
    ensures unlogged { result ≡ false → log.new ≡ log.old }
    ensures marks { mem.new.marks ≡ mem.old.marks }
{
    match line_of(plan, vec) {
        Some(line) => store_all(plan, vec, mem, log, &line),
        None => false,
    }
}

/// The same of registers or of a predicate.
pub(crate) fn store_line(plan: &Plan, vec: &VecRegs, mem: &mut Mem, log: &mut AccessLog) -> bool
    requires plan { IsPlan plan.now vec.now }
    requires empty { log.old.items ≡ [] }
    ensures stored { result ≡ true → let l = layout_of plan.now vec.now in
        AreStored (stored_by plan.now.target l vec.now) mem.old.memory (elements_of l) mem.new.memory log.new.items }
    ensures kept { result ≡ false → mem.new.memory ≡ mem.old.memory }
    ensures unlogged { result ≡ false → log.new ≡ log.old }
    ensures marks { mem.new.marks ≡ mem.old.marks }
{
    match plan.target {
        Target::Predicate(pt) => put_bits(plan, vec, mem, log, pt),
        _ => store_registers(plan, vec, mem, log),
    }
}
