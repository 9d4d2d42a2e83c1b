//! Sizes and addresses.
ghost use Rattle.std.specs.Prelude.{◌≡◌, ◌≤◌, ◌+◌, ◌*◌, ◌^◌};
ghost use Rattle.emu_model.specs.Access.{address};
ghost use Rattle.emu_model.specs.State.{read_x_sp};
ghost use Rattle.a64_effects.specs.Flow.{branch_target, moved_address};
ghost use Rattle.a64_effects.specs.LoadStore as table;
ghost use Rattle.emu_bits.specs.Numbers.{extended};
ghost use Rattle.vec_regs.specs.Packed.{IsLowSize};

use core_regs::Core;
use emu_bits::{Reg, U, extended, sext};

/// The bytes of an access: 1, 2, 4 or 8.
pub(crate) fn bytes_of(size: U<2>) -> u32
    ensures value { result ≡ 2 ^ size }
    ensures some { 1 ≤ result }
    ensures most { result ≤ 8 }
    ensures size { IsLowSize (8 * result) }
{
    match size.get() {
        0 => 1,
        1 => 2,
        2 => 4,
        _ => 8,
    }
}

/// A base register and an offset in bytes, signed.
pub(crate) fn near(core: &Core, rn: Reg, imm9: U<9>) -> u64
    ensures { result ≡ table.base_and_imm9 core.now rn imm9 }
{
    offset(core.x_sp(rn), sext(imm9.get() as u64, 9))
}

/// A base register and an offset in accesses of n bytes.
pub(crate) fn scaled_near(core: &Core, rn: Reg, n: u32, imm12: U<12>) -> u64
    requires { n ≤ 16 }
    ensures { result ≡ address (read_x_sp core.now rn + n * imm12) }
{
    core.x_sp(rn).wrapping_add(u64::from(n * imm12.get()))
}

/// An index register, extended. `lsl` takes it as it is, as most indices are.
fn index(ext: U<3>, v: u64) -> u64
    ensures { result ≡ extended ext v }
{
    if ext.get() == 3 { v } else { extended(ext, v) }
}

/// A base register and an extended register, times the bytes of the access where `scaled`.
pub(crate) fn indexed(core: &Core, rn: Reg, rm: Reg, ext: U<3>, scaled: bool, n: u32) -> u64
    requires { n ≤ 16 }
    ensures { result ≡ table.indexed core.now rn rm ext scaled n }
{
    let times = if scaled { n } else { 1 };
    let by = index(ext, core.x(rm)) as u128 * times as u128;
    ((core.x_sp(rn) as u128 + by) % 0x1_0000_0000_0000_0000) as u64
}

/// A base register and an offset in accesses, signed.
pub(crate) fn pair_near(core: &Core, rn: Reg, n: u32, imm7: U<7>) -> u64
    requires { n ≤ 16 }
    ensures { result ≡ table.pair_near core.now rn n imm7 }
{
    offset(core.x_sp(rn), n as i64 * sext(imm7.get() as u64, 7))
}

/// An address moved by a signed number, modulo 2^64.
fn offset(address: u64, by: i64) -> u64
    ensures { result ≡ moved_address address by }
{
    address.wrapping_add_signed(by)
}

/// PC plus four times a signed field of n bits.
pub(crate) fn target(core: &Core, imm: u32, n: u32) -> u64
    requires some { 1 ≤ n }
    requires most { n ≤ 32 }
    ensures { result ≡ branch_target core.now n imm }
{
    offset(core.pc(), 4 * sext(imm as u64, n))
}
