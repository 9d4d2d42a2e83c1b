//! Exclusive and ordered accesses, at multiples of their size. Each step is done as a whole, so the order asks for
//! nothing.
ghost use Rattle.std.specs.Prelude.{◌≡◌, ◌∷◌, ◌^◌, [], if◌then◌else◌};
ghost use Rattle.a64_insn.specs.declared.form.A64Form.{A64Form};
ghost use Rattle.emu_model.specs.State.{read_x_sp};
ghost use Rattle.a64_effects.specs.Groups.{load_store};
ghost use Rattle.a64_effects.specs.LoadStore as table;
ghost use Rattle.a64_effects.specs.LoadStore.{transferred_by};
ghost use Rattle.a64_effects.specs.Operations as rows;
ghost use Rattle.a64_effects.specs.declared.transfer.Transfer.{Transfer as Moved};
ghost use Rattle.a64_flow.specs.Ends.{ended};

use crate::alignment::test_multiple;
use crate::elements::single;
use crate::fields::{is_kept, ordered_transfer};
use crate::numbers::bytes_of;
use a64_effects::Transfer;
use a64_insn::OrderedOp;
use core_regs::{Core, Trap};
use emu_bits::{Reg, U};
use guest_mem::element_access::test_sp;
use guest_mem::{AccessLog, Mem};
use vec_regs::VecRegs;

/// `stxr`, `stlxr`: stores where the exclusive monitor keeps this address and size, and Ws is 0, else 1. The monitor is
/// empty then.
pub(crate) fn store_exclusive(
    core: &mut Core,
    vec: &mut VecRegs,
    mem: &mut Mem,
    log: &mut AccessLog,
    size: U<2>,
    rs: Reg,
    rn: Reg,
    rt: Reg,
) -> Result<(), Trap>
    requires { log.old.items ≡ [] }
    ensures done { transferred_by (rows.at_multiple Moved.Store
        (if table.is_kept core.old.monitor (read_x_sp core.old rn) (2 ^ size) then rt ∷ [] else []) core.old size rn
        (table.after_exclusive rs (table.is_kept core.old.monitor (read_x_sp core.old rn) (2 ^ size))))
        core.old vec.old mem.old.memory
        ≡ ended result core.new vec.new mem.new.memory log.new.items }
    ensures marks { mem.new.marks ≡ mem.old.marks }
{
    test_sp(core, rn.get() == 31)?;
    let (address, n) = (core.x_sp(rn), bytes_of(size));
    test_multiple(address, n)?;
    let kept = is_kept(core.monitor(), address, n);
    if kept {
        single(core, vec, mem, log, Transfer::Store, rt, address, n)?;
    }
    core.set_x(rs, 32, u64::from(!kept));
    core.set_monitor(None);
    Ok(())
}

/// `ldxr`, `ldaxr`: loads, and sets the exclusive monitor.
pub(crate) fn load_exclusive(
    core: &mut Core,
    vec: &mut VecRegs,
    mem: &mut Mem,
    log: &mut AccessLog,
    size: U<2>,
    rn: Reg,
    rt: Reg,
) -> Result<(), Trap>
    requires { log.old.items ≡ [] }
    ensures done { transferred_by (rows.at_multiple Moved.Load (rt ∷ []) core.old size rn
        (table.keeping (read_x_sp core.old rn) (2 ^ size))) core.old vec.old mem.old.memory
        ≡ ended result core.new vec.new mem.new.memory log.new.items }
    ensures marks { mem.new.marks ≡ mem.old.marks }
{
    test_sp(core, rn.get() == 31)?;
    let (address, n) = (core.x_sp(rn), bytes_of(size));
    test_multiple(address, n)?;
    single(core, vec, mem, log, Transfer::Load, rt, address, n)?;
    core.set_monitor(Some((address, n)));
    Ok(())
}

/// `stlr`, `ldar`
pub(crate) fn ordered(
    core: &mut Core,
    vec: &mut VecRegs,
    mem: &mut Mem,
    log: &mut AccessLog,
    op: OrderedOp,
    size: U<2>,
    rn: Reg,
    rt: Reg,
) -> Result<(), Trap>
    requires { log.old.items ≡ [] }
    ensures done { load_store (A64Form.Ordered op size rn rt) core.old vec.old mem.old.memory
        ≡ ended result core.new vec.new mem.new.memory log.new.items }
    ensures marks { mem.new.marks ≡ mem.old.marks }
{
    test_sp(core, rn.get() == 31)?;
    let (address, n) = (core.x_sp(rn), bytes_of(size));
    test_multiple(address, n)?;
    single(core, vec, mem, log, ordered_transfer(op), rt, address, n)
}
