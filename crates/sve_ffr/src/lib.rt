//! SVE first-faulting and non-faulting loads.
#![tactic(auto)]

mod ffr;
mod first_fault_load;
mod load;
mod taking;

ghost use Rattle.std.specs.Prelude.{◌≡◌, [], true};
ghost use Rattle.sve_effects.specs.Effects.{first_fault_of, layout, vector_elements, is_first_fault, loads_signed};
ghost use Rattle.element_loops.specs.Listed.{listed};
ghost use Rattle.sve_ffr.specs.Taking.{lane_numbers};

use core_regs::{Core, Effect};
use guest_mem::{AccessLog, ElementList, Mem};
use sve_effects::{Group, group_of};
use sve_insn::Sve;
use vec_regs::VecRegs;

/// Whether an instruction is in a row of this crate: a first-faulting or non-faulting load, a gather among them.
pub fn is_own(i: &Sve) -> bool
    ensures { result ≡ is_first_fault i.now }
{
    matches!(group_of(i.form()), Group::FirstFaults)
}

/// Does a first-faulting or non-faulting load of the elements of a list, and says how the step goes on. The lanes of
/// the list have to be the active lanes of the row in order, and its bytes and its sign have to be the row's. The
/// elements that were loaded are logged in order. A trap changes no register. It comes where SP is the base, isn't a
/// multiple of 16 and a lane is active; else where the element of the first active lane is refused, unless the load is
/// non-faulting.
pub fn exec(
    core: &mut Core,
    vec: &mut VecRegs,
    mem: &mut Mem,
    log: &mut AccessLog,
    i: &Sve,
    list: &ElementList,
) -> Effect
    requires own { is_first_fault i.now ≡ true }
    requires lanes { let l = layout i.now core.old vec.old in lane_numbers (listed l.register list.now)
        ≡ lane_numbers (vector_elements i.now core.old vec.old) }
    requires bytes { let l = layout i.now core.old vec.old in list.now.bytes ≡ l.bytes }
    requires is_signed { list.now.signed ≡ loads_signed i.now }
    requires empty { log.old.items ≡ [] }
    ensures done { let l = layout i.now core.old vec.old in let m = mem.new.memory in
        first_fault_of i.now (listed l.register list.now) core.old vec.old mem.old.memory
        ≡ record { core = core.new; vectors = vec.new; memory = m; accesses = log.new.items; effect = result } }
    ensures marks { mem.new.marks ≡ mem.old.marks }
{
    let row = first_fault_load::first_fault_load_of(i);
    load::first_fault(core, vec, mem, log, &row, list)
}
