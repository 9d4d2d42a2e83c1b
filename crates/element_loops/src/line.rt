//! Loads of elements that are one behind the other: lanes as they are, extended ones, and those of structures.
ghost use Rattle.std.specs.Prelude.{◌≡◌, ◌≤◌, ◌<◌, ◌+◌, ◌*◌, ◌/◌, ◌%◌, ℕ, [], true, false, length, if◌then◌else◌};
ghost use Rattle.emu_model.specs.Elements.{accesses_of};
ghost use Rattle.emu_model.specs.Lanes.{with_lanes};
ghost use Rattle.sve_effects.specs.VectorElements.{elements_of};
ghost use Rattle.guest_mem.specs.ReachLaws.{AreLoaded};
ghost use Rattle.active_lanes.specs.Placed.{lane_at};
ghost use Rattle.element_loops.specs.Layouts.{IsPlan, layout_of};
ghost use Rattle.element_loops.specs.Planned.{loaded_by};
ghost use Rattle.active_lanes.specs.Kept.{is_kept};
ghost use Rattle.element_loops.specs.Runs.{IsFront, IsLine, lane_in};
ghost use Rattle.element_loops.specs.Values.{with_taken};
ghost use Rattle.element_loops.specs.declared.plan.Target.{Target};

use crate::border::joined;
use crate::noting::note;
use crate::place::register_at;
use crate::plan::Plan;
use crate::run::Run;
use active_lanes::{keep_active, put_words, set_copied, set_words};
use emu_bits::{Pred, Reg};
use guest_mem::{AccessLog, Kind, Mem};
use vec_regs::VecRegs;

/// Writes a register whose lane k is made of the element at place `at + k * step` among bytes, or 0 where the lane
/// isn't kept.
fn set_made(
    plan: &Plan,
    vec: &mut VecRegs,
    bytes: &[u8],
    pg: Pred,
    whole: u32,
    at: usize,
    step: usize,
    zd: Reg,
)
    requires plan { IsPlan plan.now vec.old }
    requires few { whole ≤ vec.old.bits / 64 }
    requires room { (k : ℕ) → k < vec.old.bits / plan.now.bits → at + k * step + plan.now.bytes ≤ length bytes.now }
    // whatever function gives the lanes
    ensures { (f : ℕ → ℕ)
        → ((k : ℕ) → k < vec.old.bits / plan.now.bits → f k ≡ (if is_kept whole pg plan.now.bits vec.old k
        then lane_at plan.now.is_signed plan.now.bits plan.now.bytes bytes.now at step k else 0))
        → vec.new ≡ with_lanes plan.now.bits f zd vec.old }
{
    let count = vec.length().bits() / 64;
    let mut words = [0; 32];
    put_words(
        plan.bits,
        plan.bytes,
        plan.is_signed,
        bytes,
        at,
        step,
        count as usize,
        &mut words,
    );
    keep_active(vec, pg, plan.bits, whole, count, &mut words);
    set_words(vec, zd, &words);
}

/// Whether lanes have elements as they stand, one behind the other.
fn are_copied(plan: &Plan, step: usize) -> bool
    requires { plan.now.bytes ≤ 8 }
    ensures unsigned { result ≡ true → plan.now.is_signed ≡ false }
    ensures same { result ≡ true → plan.now.bits ≡ 8 * plan.now.bytes }
    ensures next { result ≡ true → step ≡ plan.now.bytes }
{
    !plan.is_signed && plan.bits == 8 * plan.bytes && step == plan.bytes as usize
}

/// Writes a register whose lane k is the element at place `at + k * step` among bytes, or 0 where the lane isn't kept.
pub(crate) fn set_placed(
    plan: &Plan,
    vec: &mut VecRegs,
    bytes: &[u8],
    pg: Pred,
    whole: u32,
    at: usize,
    step: usize,
    zd: Reg,
)
    requires plan { IsPlan plan.now vec.old }
    requires few { whole ≤ vec.old.bits / 64 }
    requires room { (k : ℕ) → k < vec.old.bits / plan.now.bits → at + k * step + plan.now.bytes ≤ length bytes.now }
    // whatever function gives the lanes
    ensures { (f : ℕ → ℕ)
        → ((k : ℕ) → k < vec.old.bits / plan.now.bits → f k ≡ (if is_kept whole pg plan.now.bits vec.old k
        then lane_at plan.now.is_signed plan.now.bits plan.now.bytes bytes.now at step k else 0))
        → vec.new ≡ with_lanes plan.now.bits f zd vec.old }
{
    let _length = vec.length();
    if are_copied(plan, step) {
        set_copied(vec, zd, plan.bits, pg, whole, bytes, at);
    } else {
        set_made(plan, vec, bytes, pg, whole, at, step, zd);
    }
}

/// Writes the j-th register from the bytes of all elements.
fn set_register(plan: &Plan, vec: &mut VecRegs, bytes: &[u8], line: &Run, j: u32)
    requires plan { IsPlan plan.now vec.old }
    requires lanes { plan.now.lanes ≡ vec.old.bits / plan.now.bits }
    requires register { j < plan.now.registers }
    requires room { plan.now.lanes * plan.now.registers * plan.now.bytes ≤ length bytes.now }
    requires few { line.now.whole ≤ vec.old.bits / 64 }
    // whatever function gives the lanes
    ensures { (f : ℕ → ℕ)
        → ((k : ℕ) → k < plan.now.lanes → f k ≡ lane_in bytes.now plan.now line.now.pg line.now.whole vec.old j k)
        → vec.new ≡ with_lanes plan.now.bits f ((plan.now.register + j) % 32) vec.old }
{
    let pg = line.pg;
    let at = (j * plan.bytes) as usize;
    let step = (plan.registers * plan.bytes) as usize;
    set_placed(
        plan,
        vec,
        bytes,
        pg,
        line.whole,
        at,
        step,
        register_at(plan, j),
    );
}

/// Writes all registers from the bytes of all elements.
fn set_registers(plan: &Plan, vec: &mut VecRegs, bytes: &[u8], line: &Run)
    requires plan { IsPlan plan.now vec.old }
    requires target { plan.now.target ≡ Target.Registers }
    requires room { plan.now.lanes * plan.now.registers * plan.now.bytes ≤ length bytes.now }
    requires few { line.now.whole ≤ vec.old.bits / 64 }
    // whatever function gives the lanes
    ensures { (f : ℕ → ℕ → ℕ) → ((j k : ℕ) → j < plan.now.registers → k < plan.now.lanes
        → f j k ≡ lane_in bytes.now plan.now line.now.pg line.now.whole vec.old j k)
        → vec.new ≡ with_taken plan.now.bits f plan.now.register plan.now.registers vec.old }
{
    for j in 0..plan.registers {
        set_register(plan, vec, bytes, line, j);
    }
}

/// The bytes of the elements of all lanes.
pub(crate) fn total_bytes(plan: &Plan, vec: &VecRegs) -> usize
    requires { IsPlan plan.now vec.now }
    ensures { result ≡ plan.now.lanes * plan.now.registers * plan.now.bytes }
{
    let _length = vec.length();
    (plan.lanes * plan.registers * plan.bytes) as usize
}

/// Loads the elements from bytes that are theirs, and writes the registers.
fn take_bytes(plan: &Plan, vec: &mut VecRegs, bytes: &[u8], log: &mut AccessLog, line: &Run)
    requires plan { IsPlan plan.now vec.old }
    requires line { IsLine line.now.base line.now.pg line.now.whole plan.now vec.old }
    requires front { IsFront line.now.front plan.now vec.old }
    requires target { plan.now.target ≡ Target.Registers }
    requires room { plan.now.lanes * plan.now.registers * plan.now.bytes ≤ length bytes.now }
    requires empty { log.old.items ≡ [] }
    ensures logged { log.new.items ≡ accesses_of false (elements_of (layout_of plan.now vec.old)) }
    // whatever function gives the lanes
    ensures registers { (f : ℕ → ℕ → ℕ) → ((j k : ℕ) → j < plan.now.registers → k < plan.now.lanes
        → f j k ≡ lane_in bytes.now plan.now line.now.pg line.now.whole vec.old j k)
        → vec.new ≡ with_taken plan.now.bits f plan.now.register plan.now.registers vec.old }
{
    let _length = vec.length();
    note(plan, vec, line, log, false);
    set_registers(plan, vec, bytes, line);
}

/// Loads the elements that end in the next page, and writes the registers, where both pages may be read, and says
/// whether it did. Else nothing is changed. It isn't inlined, so that its buffer takes no time where it isn't used.
#[inline(never)]
fn take_across(
    plan: &Plan,
    vec: &mut VecRegs,
    mem: &mut Mem,
    log: &mut AccessLog,
    line: &Run,
) -> bool
    requires plan { IsPlan plan.now vec.old }
    requires line { IsLine line.now.base line.now.pg line.now.whole plan.now vec.old }
    requires front { IsFront line.now.front plan.now vec.old }
    requires target { plan.now.target ≡ Target.Registers }
    requires empty { log.old.items ≡ [] }
    ensures loaded { result ≡ true → AreLoaded mem.old.memory (elements_of (layout_of plan.now vec.old)) log.new.items }
    ensures registers { result ≡ true
        → vec.new ≡ loaded_by plan.now.target plan.now.is_signed (layout_of plan.now vec.old) mem.old.memory vec.old }
    ensures kept { result ≡ false → vec.new ≡ vec.old }
    ensures unlogged { result ≡ false → log.new ≡ log.old }
    ensures memory { mem.new ≡ mem.old }
{
    let total = total_bytes(plan, vec);
    if total > 1024 {
        return false;
    }
    let mut bytes = [0u8; 1024];
    if !joined(mem, line.base, total, &mut bytes) {
        return false;
    }
    take_bytes(plan, vec, &bytes[..total], log, line);
    true
}

/// Loads the elements and writes the registers, where the elements of all lanes are in pages that may be read, and says
/// whether it did. Else nothing is changed.
pub(crate) fn take_line(
    plan: &Plan,
    vec: &mut VecRegs,
    mem: &mut Mem,
    log: &mut AccessLog,
    line: &Run,
) -> bool
    requires plan { IsPlan plan.now vec.old }
    requires line { IsLine line.now.base line.now.pg line.now.whole plan.now vec.old }
    requires front { IsFront line.now.front plan.now vec.old }
    requires target { plan.now.target ≡ Target.Registers }
    requires empty { log.old.items ≡ [] }
    ensures loaded { result ≡ true → AreLoaded mem.old.memory (elements_of (layout_of plan.now vec.old)) log.new.items }
    ensures registers { result ≡ true
        → vec.new ≡ loaded_by plan.now.target plan.now.is_signed (layout_of plan.now vec.old) mem.old.memory vec.old }
    ensures kept { result ≡ false → vec.new ≡ vec.old }
    ensures unlogged { result ≡ false → log.new ≡ log.old }
    ensures memory { mem.new ≡ mem.old }
{
    let total = total_bytes(plan, vec);
    match mem.slice_at(line.base, total, Kind::Read) {
        Some(bytes) if bytes.len() == total => {
            take_bytes(plan, vec, bytes, log, line);
            true
        }
        _ => take_across(plan, vec, mem, log, line),
    }
}
