//! Elements that are one behind the other, by a plan.
ghost use Rattle.std.specs.Prelude.{◌≡◌, ◌≤◌, ◌<◌, ◌+◌, ◌/◌, ℕ, [], IfSome, true, false};
ghost use Rattle.sve_effects.specs.VectorElements.{elements_of};
ghost use Rattle.guest_mem.specs.ReachLaws.{AreLoaded};
ghost use Rattle.element_loops.specs.Layouts.{IsPlan, layout_of};
ghost use Rattle.element_loops.specs.Planned.{loaded_by};
ghost use Rattle.element_loops.specs.Runs.{ArePlaced, IsFront, IsLine, IsRun};
ghost use Rattle.element_loops.specs.declared.plan.OnLanes.{OnLanes};
ghost use Rattle.element_loops.specs.declared.plan.Target.{Target};

use crate::line::take_line;
use crate::plan::{OnLanes, Places, Plan, Target};
use crate::predicates::take_bits;
use crate::repeated::{take_one, take_quad};
use active_lanes::{front_lanes, idle_from, words_of_lanes};
use emu_bits::Pred;
use guest_mem::{AccessLog, Mem};
use vec_regs::VecRegs;

/// Where elements begin, how many lanes have one, before the first that may not, how many words have one in all of
/// their lanes, before the first that may not, and the predicate of the lanes behind these words.
#[derive(Clone, Copy)]
pub struct Run {
    pub base: u64,
    pub pg: Pred,
    pub whole: u32,
    pub front: u32,
}

/// The predicate of the lanes, if they are those that are active.
pub(crate) fn predicate(on: OnLanes) -> Option<Pred>
    ensures { IfSome result (λ pg. on ≡ OnLanes.Active pg) }
{
    match on {
        OnLanes::Active(pg) => Some(pg),
        _ => None,
    }
}

/// Whether all lanes have an element.
fn is_all(on: OnLanes) -> bool
    ensures { result ≡ true → on ≡ OnLanes.All }
{
    matches!(on, OnLanes::All)
}

/// Where elements begin that are one behind the other.
pub(crate) fn base_of(plan: &Plan) -> Option<u64>
    ensures { IfSome result (λ base. ArePlaced base plan.now) }
{
    match plan.places {
        Places::Consecutive(base) => Some(base),
        Places::Bytes(base) if plan.registers == 1 && plan.bytes == 1 => Some(base),
        _ => None,
    }
}

/// Whether lanes of Z registers are loaded or stored.
fn is_registers(target: Target) -> bool
    ensures { result ≡ true → target ≡ Target.Registers }
{
    matches!(target, Target::Registers)
}

/// Where the elements of a plan of registers begin, and which lanes have some, if they are one behind the other.
pub(crate) fn line_of(plan: &Plan, vec: &VecRegs) -> Option<Run>
    requires { IsPlan plan.now vec.now }
    ensures line { IfSome result (λ run. IsLine run.base run.pg run.whole plan.now vec.now) }
    ensures front { IfSome result (λ run. IsFront run.front plan.now vec.now) }
    ensures target { IfSome result (λ run. plan.now.target ≡ Target.Registers) }
{
    if !is_registers(plan.target) {
        return None;
    }
    let words = vec.length().bits() / 64;
    let base = base_of(plan)?;
    if is_all(plan.on) {
        return Some(Run {
            base,
            pg: Pred::at(0, 0),
            whole: words,
            front: plan.lanes,
        });
    }
    let pg = predicate(plan.on)?;
    let front = front_lanes(vec, pg, plan.bits);
    let whole = words_of_lanes(plan.bits, front);
    Some(Run {
        base,
        pg,
        whole,
        front,
    })
}

/// How many lanes from lane k on, which has no element, have none, as far as it is seen at once.
pub(crate) fn idle_lanes(plan: &Plan, vec: &VecRegs, run: &Run, k: u32) -> u32
    requires plan { IsPlan plan.now vec.now }
    requires run { IsLine run.now.base run.now.pg run.now.whole plan.now vec.now }
    requires within { k < plan.now.lanes }
    requires off { let l = layout_of plan.now vec.now in l.is_on k ≡ false }
    ensures off { let l = layout_of plan.now vec.now in (i : ℕ) → k ≤ i → i < k + result → l.is_on i ≡ false }
    ensures some { 1 ≤ result }
    ensures few { k + result ≤ plan.now.lanes }
{
    let pg = run.pg;
    idle_from(vec, pg, plan.bits, k, plan.lanes - k)
}

/// The run of a plan, if it is one.
pub(crate) fn run_of(plan: &Plan, vec: &VecRegs) -> Option<Run>
    requires { IsPlan plan.now vec.now }
    ensures run { IfSome result (λ run. IsRun run.base run.pg run.whole plan.now vec.now) }
    ensures front { IfSome result (λ run. IsFront run.front plan.now vec.now) }
{
    if plan.registers != 1 || plan.is_signed || plan.bits != 8 * plan.bytes {
        return None;
    }
    line_of(plan, vec)
}

/// Loads elements of registers that are one behind the other, and says whether it did. Else nothing is changed.
fn load_registers(plan: &Plan, vec: &mut VecRegs, mem: &mut Mem, log: &mut AccessLog) -> bool
    requires plan { IsPlan plan.now vec.old }
    requires empty { log.old.items ≡ [] }
    ensures loaded { result ≡ true → AreLoaded mem.old.memory (elements_of (layout_of plan.now vec.old)) log.new.items }
    ensures registers { result ≡ true
        → vec.new ≡ loaded_by plan.now.target plan.now.is_signed (layout_of plan.now vec.old) mem.old.memory vec.old }
    ensures kept { result ≡ false → vec.new ≡ vec.old }
    ensures unlogged { result ≡ false → log.new ≡ log.old }
    ensures memory { mem.new ≡ mem.old }
{
    match line_of(plan, vec) {
        Some(line) => take_line(plan, vec, mem, log, &line),
        None => false,
    }
}

/// Loads elements that are one behind the other, or the one element, and writes the registers, where all of the
/// elements may be read and nothing is in the way, and says whether it did. Else nothing is changed.
pub fn load_run(plan: &Plan, vec: &mut VecRegs, mem: &mut Mem, log: &mut AccessLog) -> bool
    requires plan { IsPlan plan.now vec.old }
    requires empty { log.old.items ≡ [] }
    ensures loaded { result ≡ true → AreLoaded mem.old.memory (elements_of (layout_of plan.now vec.old)) log.new.items }
    ensures registers { result ≡ true
        → vec.new ≡ loaded_by plan.now.target plan.now.is_signed (layout_of plan.now vec.old) mem.old.memory vec.old }
    ensures kept { result ≡ false → vec.new ≡ vec.old }
    ensures unlogged { result ≡ false → log.new ≡ log.old }
    ensures memory { mem.new ≡ mem.old }
{
    match plan.target {
        Target::Registers => load_registers(plan, vec, mem, log),
        Target::Repeated => take_quad(plan, vec, mem, log),
        Target::Replicated(pg) => take_one(plan, vec, mem, log, pg),
        Target::Predicate(pt) => take_bits(plan, vec, mem, log, pt),
    }
}
