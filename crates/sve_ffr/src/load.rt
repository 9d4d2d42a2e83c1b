//! The load of the elements of a list.
ghost use Rattle.std.specs.Prelude.{◌≡◌, ◌≤◌, ◌<◌, ◌/◌, ℕ, [], Option, None, Some, MatchResult, true, if◌then◌else◌};
ghost use Rattle.arrayvec.specs.ArrayVec.{array_vec_len};
ghost use Rattle.emu_model.specs.declared.trap.Effect.{Effect};
ghost use Rattle.emu_model.specs.declared.trap.TrapKind.{TrapKind};
ghost use Rattle.emu_model.specs.State.{Core as CoreState};
ghost use Rattle.emu_model.specs.LaneSizes.{IsLaneSize};
ghost use Rattle.sve_effects.specs.FirstFault.{first_refused};
ghost use Rattle.sve_effects.specs.FirstFaultParts.{first_fault_loaded};
ghost use Rattle.sve_effects.specs.VectorLoadStore.{tests_sp};
ghost use Rattle.element_loops.specs.Listed.{listed};
ghost use Rattle.sve_ffr.specs.Rows.{first_fault_by};
ghost use Rattle.sve_ffr.specs.Taking.{AreFrom, lane_numbers};

use crate::ffr::{clear, first_cleared, write};
use crate::first_fault_load::FirstFaultLoad;
use crate::taking::take;
use core_regs::{Core, Effect, Trap, TrapKind};
use guest_mem::element_access::test_sp;
use guest_mem::{AccessLog, ElementList, Kind, Mem};
use vec_regs::VecRegs;

/// Whether a list has an element.
fn has_element(list: &ElementList) -> bool
    // of whatever register the elements are
    ensures value { (r : ℕ) → result ≡ tests_sp true (listed r list.now) }
    ensures within { result ≡ true → 0 < array_vec_len list.now.lanes }
{
    list.lanes.len() > 0
}

/// Whether SP is tested: it is the base, and there is an element.
fn tests_sp(row: &FirstFaultLoad, list: &ElementList) -> bool
    ensures { result ≡ tests_sp row.now.has_sp_base (listed row.now.register list.now) }
{
    row.has_sp_base && has_element(list)
}

/// Tests the element of the first active lane, unless no element traps.
fn test_first(mem: &mut Mem, row: &FirstFaultLoad, list: &ElementList) -> Result<(), Trap>
    requires some { 1 ≤ list.now.bytes }
    requires most { list.now.bytes ≤ 8 }
    ensures result { let denied : Option ℕ = if row.now.is_non_fault then None
        else first_refused mem.old.memory (listed row.now.register list.now) in
        MatchResult result (λ x. denied ≡ None) (λ trap. (denied ≡ Some trap.address) × (trap.kind ≡ TrapKind.Read)) }
    ensures memory { mem.new ≡ mem.old }
{
    if row.is_non_fault || !has_element(list) {
        return Ok(());
    }
    match mem.load(list.lanes[0].1, list.bytes, Kind::Read) {
        Ok(_) => Ok(()),
        Err(denied) => Err(Trap {
            kind: TrapKind::Read,
            address: denied.address,
        }),
    }
}

/// Loads the elements of a list that aren't refused, and writes FFR and the register.
fn load(
    vec: &mut VecRegs,
    mem: &mut Mem,
    log: &mut AccessLog,
    row: &FirstFaultLoad,
    list: &ElementList,
)
    requires size { IsLaneSize row.now.bits }
    requires some { 1 ≤ list.now.bytes }
    requires most { list.now.bytes ≤ 8 }
    requires lanes { AreFrom 0 (vec.old.bits / row.now.bits) (lane_numbers (listed row.now.register list.now)) }
    requires empty { log.old.items ≡ [] }
    ensures done { let m = mem.new.memory in (c : CoreState) → first_fault_loaded list.now.signed
        row.now.bits row.now.register (listed row.now.register list.now) c vec.old mem.old.memory
        ≡ record { core = c; vectors = vec.new; memory = m; accesses = log.new.items; effect = Effect.Next } }
    ensures marks { mem.new.marks ≡ mem.old.marks }
{
    let lanes = vec.length().bits() / row.bits;
    let taken = take(mem, log, list, row.bits, lanes);
    clear(vec, row.bits, taken.suppressed);
    let end = first_cleared(vec, row.bits);
    write(vec, row.bits, row.register, &taken.values, end);
}

/// Does a row's load of the elements of a list.
pub(crate) fn first_fault(
    core: &Core,
    vec: &mut VecRegs,
    mem: &mut Mem,
    log: &mut AccessLog,
    row: &FirstFaultLoad,
    list: &ElementList,
) -> Effect
    requires size { IsLaneSize row.now.bits }
    requires some { 1 ≤ list.now.bytes }
    requires most { list.now.bytes ≤ 8 }
    requires lanes { AreFrom 0 (vec.old.bits / row.now.bits) (lane_numbers (listed row.now.register list.now)) }
    requires empty { log.old.items ≡ [] }
    ensures done { let m = mem.new.memory in first_fault_by row.now list.now.signed
        (listed row.now.register list.now) core.now vec.old mem.old.memory
        ≡ record { core = core.now; vectors = vec.new; memory = m; accesses = log.new.items; effect = result } }
    ensures marks { mem.new.marks ≡ mem.old.marks }
{
    if let Err(trap) = test_sp(core, tests_sp(row, list)) {
        return Effect::Trap(trap);
    }
    if let Err(trap) = test_first(mem, row, list) {
        return Effect::Trap(trap);
    }
    load(vec, mem, log, row, list);
    Effect::Next
}
