//! Where consecutive elements begin.
ghost use Rattle.std.specs.Prelude.{◌≡◌, ◌≤◌, ◌<◌, ◌+◌, ◌*◌, pos, ◌+ℤ◌};
ghost use Rattle.emu_bits.specs.Numbers.{signed, unsigned_int};
ghost use Rattle.sve_effects.specs.VectorElements.{base_and_count, base_and_register};

use core_regs::Core;
use element_loops::sizes::scaled;
use emu_bits::{Reg, U};

/// An address moved by a signed number, modulo 2^64.
fn moved(address: u64, by: i64) -> u64
    ensures { result ≡ unsigned_int (pos address +ℤ by) 64 }
{
    address.wrapping_add_signed(by)
}

/// A signed number of four bits.
fn four_bits(imm4: U<4>) -> i64
    ensures { result ≡ signed imm4 4 }
{
    i64::from((imm4.get() + 8) % 16) - 8
}

/// A signed number of nine bits.
fn nine_bits(imm9: u32) -> i64
    requires { imm9 < 512 }
    ensures { result ≡ signed imm9 9 }
{
    i64::from((imm9 + 256) % 512) - 256
}

/// A base register and a signed immediate that counts n bytes.
pub(crate) fn near(core: &Core, rn: Reg, imm4: U<4>, n: u32) -> u64
    requires { n ≤ 8192 }
    ensures { result ≡ base_and_count core.now rn (signed imm4 4) n }
{
    let by = four_bits(imm4) * i64::from(n);
    moved(core.x_sp(rn), by)
}

/// The same with an immediate in two parts.
pub(crate) fn near_whole(core: &Core, rn: Reg, imm9h: U<6>, imm9l: U<3>, n: u32) -> u64
    requires { n ≤ 8192 }
    ensures { result ≡ base_and_count core.now rn (signed (imm9h * 8 + imm9l) 9) n }
{
    let imm9 = imm9h.get() * 8 + imm9l.get();
    let by = nine_bits(imm9) * i64::from(n);
    moved(core.x_sp(rn), by)
}

/// A base register and an unsigned immediate that counts n bytes.
pub(crate) fn behind(core: &Core, rn: Reg, imm6: U<6>, n: u32) -> u64
    requires { n ≤ 8192 }
    ensures { result ≡ base_and_count core.now rn (pos imm6) n }
{
    core.x_sp(rn)
        .wrapping_add(u64::from(imm6.get()) * u64::from(n))
}

/// A base register and a register that counts n bytes.
pub(crate) fn at_register(core: &Core, rn: Reg, rm: Reg, n: u32) -> u64
    ensures { result ≡ base_and_register core.now rn rm n }
{
    scaled(core.x_sp(rn), core.x(rm), n)
}
