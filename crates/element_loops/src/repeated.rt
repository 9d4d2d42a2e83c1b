//! Loads of one element for all active lanes, and of 128 bits again and again.
ghost use Rattle.std.specs.Prelude.{◌≡◌, ◌≤◌, ◌<◌, ◌*◌, ◌/◌, ◌%◌, ℕ, [], Some, IfSome, true, false, length, get_or};
ghost use Rattle.vec_regs.specs.Words.{byte_of};
ghost use Rattle.sve_effects.specs.VectorElements.{elements_of};
ghost use Rattle.guest_mem.specs.ReachLaws.{AreLoaded};
ghost use Rattle.element_loops.specs.Layouts.{IsPlan, IsReplicated, layout_of};
ghost use Rattle.element_loops.specs.Planned.{loaded_by};
ghost use Rattle.element_loops.specs.Runs.{IsFront, IsLine};
ghost use Rattle.element_loops.specs.declared.plan.OnLanes.{OnLanes};
ghost use Rattle.element_loops.specs.declared.plan.Target.{Target};

use crate::line::{set_placed, total_bytes};
use crate::noting::note;
use crate::place::address;
use crate::plan::Plan;
use crate::run::{Run, base_of, predicate};
use crate::values::only_lane;
use active_lanes::{front_lanes, keep_active, put_words, words_of_lanes};
use emu_bits::Pred;
use guest_mem::{Access, AccessLog, Kind, Mem};
use vec_regs::VecRegs;

/// Loads the one element, which lane k has, and writes it to each active lane, where it is in a page that may be read,
/// and says whether it did. Else nothing is changed.
fn take_found(
    plan: &Plan,
    vec: &mut VecRegs,
    mem: &mut Mem,
    log: &mut AccessLog,
    pg: Pred,
    k: u32,
) -> bool
    requires plan { IsPlan plan.now vec.old }
    requires target { plan.now.target ≡ Target.Replicated pg }
    requires replicated { IsReplicated pg plan.now vec.old }
    requires found { plan.now.on ≡ OnLanes.Only (Some k) }
    requires within { k < plan.now.lanes }
    requires empty { log.old.items ≡ [] }
    ensures loaded { result ≡ true → AreLoaded mem.old.memory (elements_of (layout_of plan.now vec.old)) log.new.items }
    ensures registers { result ≡ true
        → vec.new ≡ loaded_by plan.now.target plan.now.is_signed (layout_of plan.now vec.old) mem.old.memory vec.old }
    ensures kept { result ≡ false → vec.new ≡ vec.old }
    ensures unlogged { result ≡ false → log.new ≡ log.old }
    ensures memory { mem.new ≡ mem.old }
{
    let _length = vec.length();
    let at = address(plan, vec, k, 0);
    let n = plan.bytes as usize;
    match mem.slice_at(at, n, Kind::Read) {
        Some(bytes) if bytes.len() == n => {
            log.push(Access {
                address: at,
                bytes: plan.bytes,
                write: false,
            });
            let front = front_lanes(vec, pg, plan.bits);
            let whole = words_of_lanes(plan.bits, front);
            set_placed(plan, vec, bytes, pg, whole, 0, 0, plan.register);
            true
        }
        _ => false,
    }
}

/// The same, if a lane has the element.
pub(crate) fn take_one(
    plan: &Plan,
    vec: &mut VecRegs,
    mem: &mut Mem,
    log: &mut AccessLog,
    pg: Pred,
) -> bool
    requires plan { IsPlan plan.now vec.old }
    requires target { plan.now.target ≡ Target.Replicated pg }
    requires empty { log.old.items ≡ [] }
    ensures loaded { result ≡ true → AreLoaded mem.old.memory (elements_of (layout_of plan.now vec.old)) log.new.items }
    ensures registers { result ≡ true
        → vec.new ≡ loaded_by plan.now.target plan.now.is_signed (layout_of plan.now vec.old) mem.old.memory vec.old }
    ensures kept { result ≡ false → vec.new ≡ vec.old }
    ensures unlogged { result ≡ false → log.new ≡ log.old }
    ensures memory { mem.new ≡ mem.old }
{
    match only_lane(plan) {
        Some(k) => take_found(plan, vec, mem, log, pg, k),
        None => false,
    }
}

/// Makes the first `count` words repeat the first two.
fn repeat_first(words: &mut [u64], count: usize)
    requires some { 2 ≤ count }
    requires long { count ≤ length words.old }
    ensures bytes { (j : ℕ) → j < 8 * count → byte_of 8 words.new j ≡ byte_of 8 words.old (j % 16) }
    ensures above { (k : ℕ) → count ≤ k → get_or words.new k 0 ≡ get_or words.old k 0 }
    ensures length { length words.new ≡ length words.old }
{
    for i in 2..count {
        words[i] = words[i - 2];
    }
}

/// Where 128 bits of elements begin, and the predicate of their lanes.
fn quad_of(plan: &Plan, vec: &VecRegs) -> Option<Run>
    requires { IsPlan plan.now vec.now }
    ensures line { IfSome result (λ run. IsLine run.base run.pg run.whole plan.now vec.now) }
    ensures none { IfSome result (λ run. run.whole ≡ 0) }
    ensures front { IfSome result (λ run. IsFront run.front plan.now vec.now) }
{
    let base = base_of(plan)?;
    let pg = predicate(plan.on)?;
    let front = front_lanes(vec, pg, plan.bits).min(plan.lanes);
    Some(Run {
        base,
        pg,
        whole: 0,
        front,
    })
}

/// Loads 128 bits of elements and writes them again and again, where they are in a page that may be read, and says
/// whether it did. Else nothing is changed.
fn take_first(
    plan: &Plan,
    vec: &mut VecRegs,
    mem: &mut Mem,
    log: &mut AccessLog,
    line: &Run,
) -> bool
    requires plan { IsPlan plan.now vec.old }
    requires target { plan.now.target ≡ Target.Repeated }
    requires line { IsLine line.now.base line.now.pg line.now.whole plan.now vec.old }
    requires none { line.now.whole ≡ 0 }
    requires front { IsFront line.now.front plan.now vec.old }
    requires empty { log.old.items ≡ [] }
    ensures loaded { result ≡ true → AreLoaded mem.old.memory (elements_of (layout_of plan.now vec.old)) log.new.items }
    ensures registers { result ≡ true
        → vec.new ≡ loaded_by plan.now.target plan.now.is_signed (layout_of plan.now vec.old) mem.old.memory vec.old }
    ensures kept { result ≡ false → vec.new ≡ vec.old }
    ensures unlogged { result ≡ false → log.new ≡ log.old }
    ensures memory { mem.new ≡ mem.old }
{
    let count = vec.length().bits() / 64;
    let total = total_bytes(plan, vec);
    match mem.slice_at(line.base, total, Kind::Read) {
        Some(bytes) if bytes.len() == total => {
            let mut words = [0; 32];
            note(plan, vec, line, log, false);
            put_words(
                plan.bits,
                plan.bytes,
                plan.is_signed,
                bytes,
                0,
                plan.bytes as usize,
                2,
                &mut words,
            );
            keep_active(vec, line.pg, plan.bits, 0, 2, &mut words);
            repeat_first(&mut words, count as usize);
            vec.set_z_words(plan.register, &words);
            true
        }
        _ => false,
    }
}

/// The same, if the elements are one behind the other.
pub(crate) fn take_quad(plan: &Plan, vec: &mut VecRegs, mem: &mut Mem, log: &mut AccessLog) -> bool
    requires plan { IsPlan plan.now vec.old }
    requires target { plan.now.target ≡ Target.Repeated }
    requires empty { log.old.items ≡ [] }
    ensures loaded { result ≡ true → AreLoaded mem.old.memory (elements_of (layout_of plan.now vec.old)) log.new.items }
    ensures registers { result ≡ true
        → vec.new ≡ loaded_by plan.now.target plan.now.is_signed (layout_of plan.now vec.old) mem.old.memory vec.old }
    ensures kept { result ≡ false → vec.new ≡ vec.old }
    ensures unlogged { result ≡ false → log.new ≡ log.old }
    ensures memory { mem.new ≡ mem.old }
{
    match quad_of(plan, vec) {
        Some(line) => take_first(plan, vec, mem, log, &line),
        None => false,
    }
}
