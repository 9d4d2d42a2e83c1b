//! Registers at a width of 32 or 64 bits.
ghost use Rattle.std.specs.Prelude.{◌≡◌, ◌<◌, ◌^◌, ◌⊎◌};
ghost use Rattle.emu_model.specs.State.{with_x};
ghost use Rattle.a64_effects.specs.Scalar as scalar;

use a64_operations::numbers::low;
use a64_operations::operands;
use core_regs::{Core, Source};
use emu_bits::Reg;

/// The low w bits of a register. Register 31 reads 0.
pub(crate) fn operand(w: u32, core: &Core, r: Reg) -> u64
    requires { (w ≡ 32) ⊎ (w ≡ 64) }
    ensures value { result ≡ scalar.operand w core.now r }
    ensures small { result < 2 ^ w }
{
    operands::operand(w, core, Source::of(r))
}

/// Writes a number modulo 2^w to a register. Register 31 isn't written.
pub(crate) fn write(core: &mut Core, w: u32, rd: Reg, v: u128)
    requires { (w ≡ 32) ⊎ (w ≡ 64) }
    ensures { core.new ≡ with_x core.old rd w v }
{
    core.set_x(rd, w, low(w, v));
}
