//! First-faulting and non-faulting loads of which no element is refused, by a plan: then each is the plain load.
ghost use Rattle.std.specs.Prelude.{◌≡◌, ◌<◌, ◌/◌, ◌%◌, ◌&&◌, ℕ, Bool, [], true, false, get_or, nat_eq, not};
ghost use Rattle.emu_model.specs.declared.trap.Effect.{Effect};
ghost use Rattle.element_loops.specs.declared.plan.Target.{Target};
ghost use Rattle.element_loops.specs.Layouts.{IsPlan};
ghost use Rattle.sve_gather.specs.Gathers.{IsGather};
ghost use Rattle.sve_gather.specs.FirstFaultPlan.{first_fault_by};

use crate::gather::load_unrefused;
use core_regs::Core;
use element_loops::{Plan, load_run};
use guest_mem::element_access::test_sp;
use guest_mem::{AccessLog, Mem};
use vec_regs::VecRegs;

/// Whether all bits of FFR are 1.
fn is_all_true(vec: &VecRegs) -> bool
    ensures { result ≡ true → (j : ℕ) → j < vec.now.bits / 8 → get_or vec.now.ffr j false ≡ true }
{
    let words = vec.ffr_words();
    let bytes = vec.length().bits() / 64;
    let whole = bytes / 8;
    for w in 0..whole {
        if words[w as usize] != u64::MAX {
            return false;
        }
    }
    for i in 8 * whole..bytes {
        if (words[i as usize / 8] >> (8 * (i % 8))) % 256 != 255 {
            return false;
        }
    }
    true
}

/// Whether nothing but a refused element is in the way of the plain load: FFR is all ones, and a base that is SP is a
/// multiple of 16.
fn is_plain(plan: &Plan, core: &Core, vec: &VecRegs) -> bool
    ensures aligned { result ≡ true → (plan.now.has_sp_base && not (nat_eq (core.now.sp % 16) 0)) ≡ false }
    ensures full { result ≡ true → (j : ℕ) → j < vec.now.bits / 8 → get_or vec.now.ffr j false ≡ true }
{
    if let Err(_) = test_sp(core, plan.has_sp_base) {
        return false;
    }
    is_all_true(vec)
}

/// Does the load of a plan of one register as a first-faulting or non-faulting load does it, where FFR is all ones and
/// it can be seen that no element is refused, and says whether it did: FFR stays as it is. Else nothing is changed.
pub fn load(plan: &Plan, core: &Core, vec: &mut VecRegs, mem: &mut Mem, log: &mut AccessLog) -> bool
    requires plan { IsPlan plan.now vec.old }
    requires target { plan.now.target ≡ Target.Registers }
    requires one { plan.now.registers ≡ 1 }
    requires empty { log.old.items ≡ [] }
    // a first-faulting load, and a non-faulting one
    ensures loaded { result ≡ true → (is_non_fault : Bool)
        → first_fault_by is_non_fault plan.now core.now vec.old mem.old.memory ≡ record {
          core = core.now;
          vectors = vec.new;
          memory = mem.new.memory;
          accesses = log.new.items;
          effect = Effect.Next;
        } }
    ensures kept { result ≡ false → vec.new ≡ vec.old }
    ensures unlogged { result ≡ false → log.new.items ≡ [] }
    ensures memory { mem.new ≡ mem.old }
{
    let _number = plan.register.get();
    let _length = vec.length();
    if !is_plain(plan, core, vec) {
        return false;
    }
    load_run(plan, vec, mem, log)
}

/// The same of the plan of a gather.
pub fn load_gather(
    plan: &Plan,
    core: &Core,
    vec: &mut VecRegs,
    mem: &mut Mem,
    log: &mut AccessLog,
) -> bool
    requires plan { IsPlan plan.now vec.old }
    requires gather { IsGather plan.now }
    requires empty { log.old.items ≡ [] }
    // a first-faulting load, and a non-faulting one
    ensures loaded { result ≡ true → (is_non_fault : Bool)
        → first_fault_by is_non_fault plan.now core.now vec.old mem.old.memory ≡ record {
          core = core.now;
          vectors = vec.new;
          memory = mem.new.memory;
          accesses = log.new.items;
          effect = Effect.Next;
        } }
    ensures kept { result ≡ false → vec.new ≡ vec.old }
    ensures unlogged { result ≡ false → log.new.items ≡ [] }
    ensures memory { mem.new ≡ mem.old }
{
    let _number = plan.register.get();
    let _length = vec.length();
    if !is_plain(plan, core, vec) {
        return false;
    }
    load_unrefused(plan, vec, mem, log)
}
