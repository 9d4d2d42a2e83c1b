//! Fields of registers, quotients, and addresses of pages.
ghost use Rattle.std.specs.Prelude.{◌≡◌, ◌<◌, ◌≤◌, ◌+◌, ◌^◌, ◌⊎◌};
ghost use Rattle.emu_bits.specs.Operations as bits;
ghost use Rattle.a64_insn.specs.declared.ops.AdrOp.{AdrOp};
ghost use Rattle.a64_effects.specs.Scalar as table;

use core_regs::Core;
use emu_bits::U;

/// The 16 bits from a place on replaced.
#[inline(always)]
pub fn with_halfword(old: u64, place: u32, imm: u16) -> u64
    requires { place ≤ 48 }
    ensures { result ≡ bits.replaced old place 16 imm }
{
    let field = (old >> place) % 0x1_0000;
    old - (field << place) + ((imm as u64) << place)
}

/// To the right, with copies of the top bit above.
#[inline(always)]
pub fn signed_right(w: u32, v: u64, amount: U<6>) -> u64
    requires width { (w ≡ 32) ⊎ (w ≡ 64) }
    requires within { v < 2 ^ w }
    ensures value { result ≡ bits.asr w v amount }
    ensures small { result < 2 ^ w }
{
    if w == 32 {
        ((v << 32).cast_signed() >> 32 >> amount.get()).cast_unsigned() % 0x1_0000_0000
    } else {
        (v.cast_signed() >> amount.get()).cast_unsigned()
    }
}

/// 0 where the second is 0.
#[inline(always)]
pub fn quotient(a: u64, b: u64) -> u64
    ensures { result ≡ bits.unsigned_quotient a b }
{
    if b == 0 { 0 } else { a / b }
}

/// So many pages of 4,096 bytes from that of PC.
#[inline(always)]
pub fn page_target(core: &Core, by: i32) -> u64
    ensures { result ≡ table.adr_target AdrOp.Adrp core.now.pc by }
{
    (core.pc() / 4096 * 4096).wrapping_add_signed(4096 * by as i64)
}
