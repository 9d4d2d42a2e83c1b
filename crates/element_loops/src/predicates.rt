//! Loads and stores of predicates, all of their bytes at once.
ghost use Rattle.std.specs.Prelude.{◌≡◌, ◌≤◌, ◌<◌, ◌*◌, ◌/◌, ◌%◌, ◌^◌, ℕ, [], IfSome, true, false, get_or, nat_eq};
ghost use Rattle.vec_regs.specs.Words.{bit_of, byte_of};
ghost use Rattle.sve_effects.specs.VectorElements.{elements_of};
ghost use Rattle.guest_mem.specs.ReachLaws.{AreLoaded, AreStored};
ghost use Rattle.element_loops.specs.Layouts.{IsPlan, layout_of};
ghost use Rattle.element_loops.specs.Planned.{loaded_by, stored_by};
ghost use Rattle.element_loops.specs.Runs.{IsLine};
ghost use Rattle.element_loops.specs.declared.plan.Target.{Target};

use crate::border::{joined, put_over};
use crate::plan::Plan;
use crate::run::{Run, base_of};
use active_lanes::put_words;
use emu_bits::Pred;
use guest_mem::{AccessLog, Mem};
use vec_regs::VecRegs;

/// The bytes of a predicate, if they are one behind the other.
fn line_of_bytes(plan: &Plan, vec: &VecRegs, pt: Pred) -> Option<Run>
    requires plan { IsPlan plan.now vec.now }
    requires target { plan.now.target ≡ Target.Predicate pt }
    ensures { IfSome result (λ run. IsLine run.base run.pg run.whole plan.now vec.now) }
{
    let whole = vec.length().bits() / 64;
    let base = base_of(plan)?;
    Some(Run {
        base,
        pg: pt,
        whole,
        front: plan.lanes,
    })
}

/// The bits of 32 bytes, eight of each.
fn bits_of_bytes(bytes: &[u8; 32]) -> [u64; 4]
    ensures { (j : ℕ) → j < 256 → bit_of result j ≡ nat_eq (get_or bytes.now (j / 8) 0 / 2 ^ (j % 8) % 2) 1 }
{
    let mut words = [0; 4];
    put_words(8, 1, false, bytes, 0, 1, 4, &mut words);
    words
}

/// Loads the bytes and writes the predicate, where they may be read, and says whether it did. Else nothing is changed.
fn take_line(
    plan: &Plan,
    vec: &mut VecRegs,
    mem: &mut Mem,
    log: &mut AccessLog,
    line: &Run,
    pt: Pred,
) -> bool
    requires plan { IsPlan plan.now vec.old }
    requires target { plan.now.target ≡ Target.Predicate pt }
    requires line { IsLine line.now.base line.now.pg line.now.whole plan.now vec.old }
    requires empty { log.old.items ≡ [] }
    ensures loaded { result ≡ true → AreLoaded mem.old.memory (elements_of (layout_of plan.now vec.old)) log.new.items }
    ensures registers { result ≡ true
        → vec.new ≡ loaded_by plan.now.target plan.now.is_signed (layout_of plan.now vec.old) mem.old.memory vec.old }
    ensures kept { result ≡ false → vec.new ≡ vec.old }
    ensures unlogged { result ≡ false → log.new ≡ log.old }
    ensures memory { mem.new ≡ mem.old }
{
    let total = vec.length().bits() / 64;
    let mut bytes = [0u8; 32];
    if !joined(mem, line.base, total as usize, &mut bytes) {
        return false;
    }
    log.push_run(line.base, 1, total, false);
    vec.set_p_words(pt, &bits_of_bytes(&bytes));
    true
}

/// The same, if the bytes are one behind the other.
pub(crate) fn take_bits(
    plan: &Plan,
    vec: &mut VecRegs,
    mem: &mut Mem,
    log: &mut AccessLog,
    pt: Pred,
) -> bool
    requires plan { IsPlan plan.now vec.old }
    requires target { plan.now.target ≡ Target.Predicate pt }
    requires empty { log.old.items ≡ [] }
    ensures loaded { result ≡ true → AreLoaded mem.old.memory (elements_of (layout_of plan.now vec.old)) log.new.items }
    ensures registers { result ≡ true
        → vec.new ≡ loaded_by plan.now.target plan.now.is_signed (layout_of plan.now vec.old) mem.old.memory vec.old }
    ensures kept { result ≡ false → vec.new ≡ vec.old }
    ensures unlogged { result ≡ false → log.new ≡ log.old }
    ensures memory { mem.new ≡ mem.old }
{
    match line_of_bytes(plan, vec, pt) {
        Some(line) => take_line(plan, vec, mem, log, &line, pt),
        None => false,
    }
}

/// The bytes of four words.
fn bytes_of_words(words: &[u64; 4]) -> [u8; 32]
    ensures { (k : ℕ) → k < 32 → get_or result k 0 ≡ byte_of 8 words.now k }
{
    let mut bytes = [0u8; 32];
    for i in 0..4 {
        bytes[8 * i..8 * i + 8].copy_from_slice(&words[i].to_le_bytes());
    }
    bytes
}

/// Stores the bytes, where they may be written, and says whether it did. Else nothing is changed.
fn put_line(
    plan: &Plan,
    vec: &VecRegs,
    mem: &mut Mem,
    log: &mut AccessLog,
    line: &Run,
    pt: Pred,
) -> bool
    requires plan { IsPlan plan.now vec.now }
    requires target { plan.now.target ≡ Target.Predicate pt }
    requires line { IsLine line.now.base line.now.pg line.now.whole plan.now vec.now }
    requires empty { log.old.items ≡ [] }
    ensures stored { result ≡ true → let l = layout_of plan.now vec.now in
        AreStored (stored_by plan.now.target l vec.now) mem.old.memory (elements_of l) mem.new.memory log.new.items }
    ensures kept { result ≡ false → mem.new.memory ≡ mem.old.memory }
    ensures unlogged { result ≡ false → log.new ≡ log.old }
    ensures marks { mem.new.marks ≡ mem.old.marks }
{
    let _number = pt.get();
    let total = vec.length().bits() / 64;
    let bytes = bytes_of_words(vec.p_words(pt));
    if put_over(mem, line.base, &bytes[..total as usize]) {
        log.push_run(line.base, 1, total, true);
        return true;
    }
    false
}

/// The same, if the bytes are one behind the other.
pub(crate) fn put_bits(
    plan: &Plan,
    vec: &VecRegs,
    mem: &mut Mem,
    log: &mut AccessLog,
    pt: Pred,
) -> bool
    requires plan { IsPlan plan.now vec.now }
    requires target { plan.now.target ≡ Target.Predicate pt }
    requires empty { log.old.items ≡ [] }
    ensures stored { result ≡ true → let l = layout_of plan.now vec.now in
        AreStored (stored_by plan.now.target l vec.now) mem.old.memory (elements_of l) mem.new.memory log.new.items }
    ensures kept { result ≡ false → mem.new.memory ≡ mem.old.memory }
    ensures unlogged { result ≡ false → log.new ≡ log.old }
    ensures marks { mem.new.marks ≡ mem.old.marks }
{
    match line_of_bytes(plan, vec, pt) {
        Some(line) => put_line(plan, vec, mem, log, &line, pt),
        None => false,
    }
}
