//! One register at an address: from a base, which may be written back, or near PC.
ghost use Rattle.std.specs.Prelude.{◌≡◌, []};
ghost use Rattle.a64_insn.specs.declared.form.A64Form.{A64Form};
ghost use Rattle.a64_effects.specs.Groups.{load_store};
ghost use Rattle.a64_effects.specs.LoadStore.{transferred_by};
ghost use Rattle.a64_effects.specs.Operations as rows;
ghost use Rattle.a64_flow.specs.Ends.{behind, ended};

use crate::elements::single;
use crate::fields::{access_bytes, has_sp, literal_bytes, literal_transfer, transfer};
use crate::numbers::target;
use crate::unrefused::moved;
use core_regs::{Core, Trap};
use emu_bits::{Reg, U};
use guest_mem::element_access::test_sp;
use guest_mem::{AccessLog, Mem};
use vec_regs::VecRegs;

/// One register, or none for a prefetch, at an address from a base, by V, size and opc. The base is then `back`, if that
/// is there. Each form has it for itself: what its address leaves open isn't kept beside it.
#[inline(always)]
pub(crate) fn single_at(
    core: &mut Core,
    vec: &mut VecRegs,
    mem: &mut Mem,
    log: &mut AccessLog,
    v: bool,
    size: U<2>,
    opc: U<2>,
    rn: Reg,
    rt: Reg,
    address: u64,
    back: Option<u64>,
) -> Result<(), Trap>
    requires { log.old.items ≡ [] }
    ensures done { transferred_by (rows.one_transfer v size opc rn rt address (behind rn back)) core.old vec.old
        mem.old.memory ≡ ended result core.new vec.new mem.new.memory log.new.items }
    ensures marks { mem.new.marks ≡ mem.old.marks }
{
    if moved(core, vec, mem, log, v, size, opc, rn, rt, address) {
        write_back(core, rn, back);
        return Ok(());
    }
    let t = transfer(v, size, opc);
    let n = access_bytes(v, size, opc);
    test_sp(core, has_sp(t, rn))?;
    single(core, vec, mem, log, t, rt, address, n)?;
    write_back(core, rn, back);
    Ok(())
}

/// Writes an address back to the base, if there is one.
#[inline(always)]
fn write_back(core: &mut Core, rn: Reg, back: Option<u64>)
    ensures { core.new ≡ behind rn back core.old }
{
    if let Some(address) = back {
        core.set_x_sp(rn, 64, address);
    }
}

/// At `target`: imm19 is signed and counts words from PC on.
pub(crate) fn ls_literal(
    core: &mut Core,
    vec: &mut VecRegs,
    mem: &mut Mem,
    log: &mut AccessLog,
    opc: U<2>,
    v: bool,
    imm19: U<19>,
    rt: Reg,
) -> Result<(), Trap>
    requires { log.old.items ≡ [] }
    ensures done { load_store (A64Form.LsLiteral opc v imm19 rt) core.old vec.old mem.old.memory
        ≡ ended result core.new vec.new mem.new.memory log.new.items }
    ensures marks { mem.new.marks ≡ mem.old.marks }
{
    let (t, n) = (literal_transfer(v, opc), literal_bytes(v, opc));
    let address = target(core, imm19.get(), 19);
    single(core, vec, mem, log, t, rt, address, n)
}
