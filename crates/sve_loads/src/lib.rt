//! SVE loads and stores of consecutive elements: contiguous ones, of structures, of whole registers, replicated and
//! repeated; and contiguous first-faulting and non-faulting loads: their elements, and the load where no element is
//! refused.
#![tactic(auto)]

mod at_once;
mod bases;
mod by_row;
mod plans;
mod rows;
mod shape;

ghost use Rattle.std.specs.Prelude.{◌≡◌, ◌||◌, [], true, false};
ghost use Rattle.emu_model.specs.declared.trap.Effect.{Effect};
ghost use Rattle.sve_effects.specs.Effects.{
  first_fault,
  layout,
  vector_elements,
  vector_load,
  vector_store,
  is_contiguous_load,
  is_contiguous_store,
  loads_signed,
};
ghost use Rattle.sve_effects.specs.Rows.{performed};
ghost use Rattle.element_loops.specs.Listed.{listed};
ghost use Rattle.sve_loads.specs.Plans.{is_first_contiguous};

use core_regs::{Core, Effect};
use guest_mem::{AccessLog, ElementList, Mem};
use sve_effects::{Group, group_of};
use sve_insn::Sve;
use vec_regs::VecRegs;

/// Does a load or a store, and says how the step goes on. The elements that were loaded or stored are logged in order.
/// A load that traps has changed no register; a store that traps has stored and logged the elements before the one that
/// was refused.
#[inline(always)]
pub fn exec(
    core: &mut Core,
    vec: &mut VecRegs,
    mem: &mut Mem,
    log: &mut AccessLog,
    i: &Sve,
) -> Effect
    requires own { (is_contiguous_load i.now || is_contiguous_store i.now) ≡ true }
    requires empty { log.old.items ≡ [] }
    ensures done { let m = mem.new.memory in performed i.now core.old vec.old mem.old.memory
        ≡ record { core = core.new; vectors = vec.new; memory = m; accesses = log.new.items; effect = result } }
    ensures marks { mem.new.marks ≡ mem.old.marks }
{
    if by_row::perform(core, vec, mem, log, i) {
        return Effect::Next;
    }
    by_plan(core, vec, mem, log, i)
}

/// Does a load or a store element by element, or by what the elements have in common.
#[inline(always)]
#[tactic(auto, using(crate::proofs::InGroup::load_done, crate::proofs::InGroup::load_own, crate::proofs::InGroup::store_done, crate::proofs::InGroup::store_own))]
fn by_plan(core: &Core, vec: &mut VecRegs, mem: &mut Mem, log: &mut AccessLog, i: &Sve) -> Effect
    requires own { (is_contiguous_load i.now || is_contiguous_store i.now) ≡ true }
    requires empty { log.old.items ≡ [] }
    ensures done { let m = mem.new.memory in performed i.now core.now vec.old mem.old.memory
        ≡ record { core = core.now; vectors = vec.new; memory = m; accesses = log.new.items; effect = result } }
    ensures marks { mem.new.marks ≡ mem.old.marks }
{
    match group_of(i.form()) {
        Group::Loads => load(core, vec, mem, log, i),
        Group::Stores => store(core, vec, mem, log, i),
        Group::Lanes
        | Group::Permutes
        | Group::Counts
        | Group::Folds
        | Group::Predicates
        | Group::Gathers
        | Group::Scatters
        | Group::FirstFaults => unreachable!(),
    }
}

/// Does a load by its plan, and says how the step goes on. The elements that were loaded are logged in order. A trap
/// changes no register. It isn't inlined, so that what is done at once has no frame of its size.
#[inline(never)]
#[tactic(auto, using(crate::specs::PlanLaws::load_planned))]
fn load(core: &Core, vec: &mut VecRegs, mem: &mut Mem, log: &mut AccessLog, i: &Sve) -> Effect
    requires own { is_contiguous_load i.now ≡ true }
    requires empty { log.old.items ≡ [] }
    ensures done { let m = mem.new.memory in vector_load i.now core.now vec.old mem.old.memory
        ≡ record { core = core.now; vectors = vec.new; memory = m; accesses = log.new.items; effect = result } }
    ensures marks { mem.new.marks ≡ mem.old.marks }
{
    let plan = rows::load_plan(core, vec, i);
    element_loops::load(&plan, core, vec, mem, log)
}

/// Does a store by its plan, and says how the step goes on. The elements that were stored are logged in order; a store
/// that traps has stored and logged the elements before the one that was refused. It isn't inlined either.
#[inline(never)]
#[tactic(auto, using(crate::specs::PlanLaws::store_planned))]
fn store(core: &Core, vec: &VecRegs, mem: &mut Mem, log: &mut AccessLog, i: &Sve) -> Effect
    requires own { is_contiguous_store i.now ≡ true }
    requires empty { log.old.items ≡ [] }
    ensures done { let m = mem.new.memory in vector_store i.now core.now vec.now mem.old.memory
        ≡ record { core = core.now; vectors = vec.now; memory = m; accesses = log.new.items; effect = result } }
    ensures marks { mem.new.marks ≡ mem.old.marks }
{
    let plan = rows::store_plan(core, vec, i);
    element_loops::store(&plan, core, vec, mem, log)
}

/// The elements of a contiguous first-faulting or non-faulting load: the lanes and addresses of its active lanes, in
/// order.
#[tactic(auto, using(crate::specs::PlanLaws::first_planned, crate::specs::PlanLaws::first_signed, crate::specs::PlanLaws::first_bytes))]
pub fn elements(core: &Core, vec: &VecRegs, i: &Sve) -> ElementList
    requires { is_first_contiguous i.now ≡ true }
    ensures elements { let l = layout i.now core.now vec.now in listed l.register result
        ≡ vector_elements i.now core.now vec.now }
    ensures bytes { let l = layout i.now core.now vec.now in result.bytes ≡ l.bytes }
    ensures is_signed { result.signed ≡ loads_signed i.now }
{
    element_loops::elements(&rows::first_plan(core, vec, i), vec)
}

/// Does a contiguous first-faulting or non-faulting load where FFR is all ones and it can be seen that no element is
/// refused, and says whether it did. Else nothing is changed.
pub fn load_unrefused(
    core: &Core,
    vec: &mut VecRegs,
    mem: &mut Mem,
    log: &mut AccessLog,
    i: &Sve,
) -> bool
    requires own { is_first_contiguous i.now ≡ true }
    requires empty { log.old.items ≡ [] }
    ensures loaded { result ≡ true → first_fault i.now core.now vec.old mem.old.memory ≡ record {
      core = core.now;
      vectors = vec.new;
      memory = mem.new.memory;
      accesses = log.new.items;
      effect = Effect.Next;
    } }
    ensures kept { result ≡ false → vec.new ≡ vec.old }
    ensures unlogged { result ≡ false → log.new.items ≡ [] }
    ensures memory { mem.new ≡ mem.old }
{
    let plan = rows::first_plan(core, vec, i);
    sve_gather::unrefused::load(&plan, core, vec, mem, log)
}
