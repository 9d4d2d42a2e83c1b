//! A copy of the scalar registers, with which a context starts.
ghost use Rattle.std.specs.Prelude.{◌≡◌};

use core_regs::Core;
use emu_bits::Reg;

/// The same scalar registers once more.
pub fn copy_core(core: &Core) -> Core
    ensures { result ≡ core.now }
{
    let pc = core.pc();
    let mut copy = Core::new();
    for number in 0..31u32 {
        let r = Reg::at(number, 0);
        copy.set_x(r, 64, core.x(r));
    }
    let sp = Reg::at(31, 0);
    copy.set_x_sp(sp, 64, core.x_sp(sp));
    copy.set_pc(pc);
    copy.set_flags(core.flags());
    copy.set_tpidr(core.tpidr());
    copy.set_monitor(core.monitor());
    copy
}
