//! Operands of 64 or 32 bits, and results.
ghost use Rattle.std.specs.Prelude.{◌≡◌, ◌<◌, ◌+◌, ◌*◌, ◌%◌, ◌^◌, ◌⊎◌};
ghost use Rattle.emu_bits.specs.Numbers as numbers;
ghost use Rattle.emu_bits.specs.Numbers.{extended};
ghost use Rattle.emu_bits.specs.Operations as bits;
ghost use Rattle.emu_model.specs.State.{read_x};
ghost use Rattle.a64_effects.specs.Scalar as table;
ghost use Rattle.a64_operations.specs.Meaning as ready;

use core_regs::{Core, RegOrSp, Source};
use emu_bits::U;

/// The bits of a register: 64 where sf is set, else 32.
#[inline(always)]
pub fn width_of(sf: bool) -> u32
    ensures value { result ≡ numbers.width_of sf }
    ensures width { (result ≡ 32) ⊎ (result ≡ 64) }
{
    if sf { 64 } else { 32 }
}

/// A number modulo 2^w, with no mask to be made.
#[inline(always)]
fn word(v: u64, w: u32) -> u64
    requires { (w ≡ 32) ⊎ (w ≡ 64) }
    ensures value { result ≡ v % 2 ^ w }
    ensures small { result < 2 ^ w }
{
    if w == 32 { v % 0x1_0000_0000 } else { v }
}

/// The low w bits of a register. Register 31 reads 0.
#[inline(always)]
pub fn operand(w: u32, core: &Core, r: Source) -> u64
    requires { (w ≡ 32) ⊎ (w ≡ 64) }
    ensures value { result ≡ table.operand w core.now r }
    ensures small { result < 2 ^ w }
{
    word(core.source(r), w)
}

/// The low w bits of a register. Register 31 reads SP.
#[inline(always)]
pub fn operand_sp(w: u32, core: &Core, r: RegOrSp) -> u64
    requires { (w ≡ 32) ⊎ (w ≡ 64) }
    ensures value { result ≡ table.operand_sp w core.now r }
    ensures small { result < 2 ^ w }
{
    word(core.reg_or_sp(r), w)
}

/// The low w bits of a register, moved left.
#[inline(always)]
pub fn moved_left(w: u32, core: &Core, r: Source, amount: U<6>) -> u64
    requires { (w ≡ 32) ⊎ (w ≡ 64) }
    ensures value { result ≡ bits.lsl w (table.operand w core.now r) amount }
    ensures small { result < 2 ^ w }
{
    word(operand(w, core, r) << amount.get(), w)
}

/// The 64 bits as they are.
#[inline(always)]
pub fn uxtx(core: &Core, r: Source) -> u64
    ensures { result ≡ extended 3 (read_x core.now r) }
{
    core.source(r)
}

/// The low 32 bits with zeros above.
#[inline(always)]
pub fn uxtw(core: &Core, r: Source) -> u64
    ensures { result ≡ extended 2 (read_x core.now r) }
{
    core.source(r) % 0x1_0000_0000
}

/// The low 32 bits with copies of their sign above.
#[inline(always)]
pub fn sxtw(core: &Core, r: Source) -> u64
    ensures { result ≡ extended 6 (read_x core.now r) }
{
    ((core.source(r) << 32).cast_signed() >> 32).cast_unsigned()
}

/// The number of two halves.
#[inline(always)]
pub fn joined(low: u32, high: u32) -> u64
    ensures { result ≡ ready.joined low high }
{
    low as u64 + ((high as u64) << 32)
}
