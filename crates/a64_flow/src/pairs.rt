//! Pairs of registers.
ghost use Rattle.std.specs.Prelude.{◌≡◌, [], Bool};
ghost use Rattle.a64_insn.specs.declared.form.A64Form.{A64Form};
ghost use Rattle.a64_effects.specs.Groups.{load_store};
ghost use Rattle.a64_flow.specs.Ends.{ended};

use crate::elements::couple;
use crate::fields::{pair_bytes, pair_transfer, writes_back};
use crate::numbers::pair_near;
use core_regs::{Core, Trap};
use emu_bits::{Reg, U};
use guest_mem::element_access::test_sp;
use guest_mem::{AccessLog, Mem};
use vec_regs::VecRegs;

/// Two registers, at imm7 accesses from the base, or post-indexed at the base itself.
pub(crate) fn pair(
    core: &mut Core,
    vec: &mut VecRegs,
    mem: &mut Mem,
    log: &mut AccessLog,
    opc: U<2>,
    v: bool,
    mode: U<2>,
    l: bool,
    imm7: U<7>,
    rt2: Reg,
    rn: Reg,
    rt: Reg,
) -> Result<(), Trap>
    requires { log.old.items ≡ [] }
    ensures done { load_store (A64Form.Pair opc v mode l imm7 rt2 rn rt) core.old vec.old mem.old.memory
        ≡ ended result core.new vec.new mem.new.memory log.new.items }
    ensures marks { mem.new.marks ≡ mem.old.marks }
{
    test_sp(core, rn.get() == 31)?;
    let (t, n) = (pair_transfer(v, opc, l), pair_bytes(v, opc, l));
    let next = pair_near(core, rn, n, imm7);
    let address = if mode.get() == 1 { core.x_sp(rn) } else { next };
    couple(core, vec, mem, log, t, rt, rt2, address, n)?;
    if writes_back(mode) {
        core.set_x_sp(rn, 64, next);
    }
    Ok(())
}
