//! SVE gathers and scatters; and first-faulting gathers: their elements, and the load where no element is refused.
//!
//! A gather or a scatter goes over its lanes in one pass: the words of a register are made as the elements come. Loads
//! of which no element is refused, first-faulting and non-faulting ones, are done so too (`unrefused`).
#![tactic(auto)]

mod base;
mod gather;
mod in_page;
mod indexed;
mod plans;
mod scatter;
pub mod unrefused;

ghost use Rattle.std.specs.Prelude.{◌≡◌, ◌||◌, [], true, false};
ghost use Rattle.emu_model.specs.declared.trap.Effect.{Effect};
ghost use Rattle.sve_effects.specs.Effects.{
  first_fault,
  layout,
  vector_elements,
  vector_load,
  vector_store,
  is_gather,
  is_scatter,
  loads_signed,
};
ghost use Rattle.sve_effects.specs.Rows.{performed};
ghost use Rattle.element_loops.specs.Listed.{listed};
ghost use Rattle.sve_gather.specs.Plans.{is_first_gather};

use core_regs::{Core, Effect};
use guest_mem::{AccessLog, ElementList, Mem};
use sve_effects::{Group, group_of};
use sve_insn::Sve;
use vec_regs::VecRegs;

/// Does a gather or a scatter, and says how the step goes on. The elements that were loaded or stored are logged in
/// order. A gather that traps has changed no register; a scatter that traps has stored and logged the elements before
/// the one that was refused.
#[inline(always)]
#[tactic(auto, using(crate::proofs::InGroup::gather_done, crate::proofs::InGroup::gather_own, crate::proofs::InGroup::scatter_done, crate::proofs::InGroup::scatter_own))]
pub fn exec(
    core: &mut Core,
    vec: &mut VecRegs,
    mem: &mut Mem,
    log: &mut AccessLog,
    i: &Sve,
) -> Effect
    requires own { (is_gather i.now || is_scatter i.now) ≡ true }
    requires empty { log.old.items ≡ [] }
    ensures done { let m = mem.new.memory in performed i.now core.old vec.old mem.old.memory
        ≡ record { core = core.new; vectors = vec.new; memory = m; accesses = log.new.items; effect = result } }
    ensures marks { mem.new.marks ≡ mem.old.marks }
{
    match group_of(i.form()) {
        Group::Gathers => load(core, vec, mem, log, i),
        Group::Scatters => store(core, vec, mem, log, i),
        Group::Lanes
        | Group::Permutes
        | Group::Counts
        | Group::Folds
        | Group::Predicates
        | Group::Loads
        | Group::Stores
        | Group::FirstFaults => unreachable!(),
    }
}

/// Does a gather, and says how the step goes on. The elements that were loaded are logged in order. A trap changes no
/// register.
#[inline(never)]
#[tactic(auto, using(crate::specs::PlanLaws::gather_planned, crate::specs::PlanLaws::gathers))]
fn load(core: &Core, vec: &mut VecRegs, mem: &mut Mem, log: &mut AccessLog, i: &Sve) -> Effect
    requires own { is_gather i.now ≡ true }
    requires empty { log.old.items ≡ [] }
    ensures done { let m = mem.new.memory in vector_load i.now core.now vec.old mem.old.memory
        ≡ record { core = core.now; vectors = vec.new; memory = m; accesses = log.new.items; effect = result } }
    ensures marks { mem.new.marks ≡ mem.old.marks }
{
    let plan = plans::plan(core, vec, i);
    gather::load(&plan, core, vec, mem, log)
}

/// Does a scatter, and says how the step goes on. The elements that were stored are logged in order; one that traps has
/// stored and logged the elements before the one that was refused.
#[inline(never)]
#[tactic(auto, using(crate::specs::PlanLaws::scatter_planned, crate::specs::PlanLaws::scatters))]
fn store(core: &Core, vec: &VecRegs, mem: &mut Mem, log: &mut AccessLog, i: &Sve) -> Effect
    requires own { is_scatter i.now ≡ true }
    requires empty { log.old.items ≡ [] }
    ensures done { let m = mem.new.memory in vector_store i.now core.now vec.now mem.old.memory
        ≡ record { core = core.now; vectors = vec.now; memory = m; accesses = log.new.items; effect = result } }
    ensures marks { mem.new.marks ≡ mem.old.marks }
{
    let plan = plans::plan_apart(core, vec, i);
    scatter::store(&plan, core, vec, mem, log)
}

/// The elements of a first-faulting gather: the lanes and addresses of its active lanes, in order.
#[tactic(auto, using(crate::specs::PlanLaws::first_gathers, crate::specs::PlanLaws::first_planned, crate::specs::PlanLaws::first_signed, crate::specs::PlanLaws::first_bytes, crate::specs::PlanLaws::first_single))]
pub fn elements(core: &Core, vec: &VecRegs, i: &Sve) -> ElementList
    requires { is_first_gather i.now ≡ true }
    ensures elements { let l = layout i.now core.now vec.now in listed l.register result
        ≡ vector_elements i.now core.now vec.now }
    ensures bytes { let l = layout i.now core.now vec.now in result.bytes ≡ l.bytes }
    ensures is_signed { result.signed ≡ loads_signed i.now }
{
    element_loops::elements(&plans::plan_apart(core, vec, i), vec)
}

/// Does a first-faulting gather where FFR is all ones and it can be seen that no element is refused, and says whether
/// it did. Else nothing is changed.
#[tactic(auto, using(crate::specs::PlanLaws::first_gathers))]
pub fn load_unrefused(
    core: &Core,
    vec: &mut VecRegs,
    mem: &mut Mem,
    log: &mut AccessLog,
    i: &Sve,
) -> bool
    requires own { is_first_gather i.now ≡ true }
    requires empty { log.old.items ≡ [] }
    ensures loaded { result ≡ true → first_fault i.now core.now vec.old mem.old.memory ≡ record {
      core = core.now;
      vectors = vec.new;
      memory = mem.new.memory;
      accesses = log.new.items;
      effect = Effect.Next;
    } }
    ensures kept { result ≡ false → vec.new ≡ vec.old }
    ensures unlogged { result ≡ false → log.new.items ≡ [] }
    ensures memory { mem.new ≡ mem.old }
{
    let plan = plans::plan_apart(core, vec, i);
    crate::unrefused::load_gather(&plan, core, vec, mem, log)
}
