//! Functions of one lane: extensions, counts of bits, and parts in reverse order.
ghost use Rattle.std.specs.Prelude.{◌≡◌, ◌<◌, ◌≤◌, ◌^◌};
ghost use Rattle.emu_bits.specs.Operations as bits;
ghost use Rattle.sve_effects.specs.Lane as table;
ghost use Rattle.emu_model.specs.LaneSizes.{IsLaneSize};

use crate::numbers::{complement, difference};
use emu_bits::{low_bits, sext, sign_extended};
use sve_insn::UnaryOp;

/// The low n bits, with zeros above.
fn zero_extended(e: u32, n: u32, a: u64) -> u64
    requires size { IsLaneSize e }
    requires within { n ≤ 64 }
    ensures value { result ≡ table.zero_extended e n a }
    ensures small { result < 2 ^ e }
{
    low_bits(low_bits(a, n), e)
}

/// The leading zeros.
fn leading_zeros(e: u32, a: u64) -> u32
    requires size { IsLaneSize e }
    requires within { a < 2 ^ e }
    ensures value { result ≡ bits.leading_zeros e a }
    ensures most { result ≤ 64 }
{
    match e {
        8 => (a as u8).leading_zeros(),
        16 => (a as u16).leading_zeros(),
        32 => (a as u32).leading_zeros(),
        _ => a.leading_zeros(),
    }
}

/// The leading copies of the top bit after it.
fn leading_copies(e: u32, a: u64) -> u32
    requires size { IsLaneSize e }
    requires within { a < 2 ^ e }
    ensures value { result ≡ bits.leading_copies e a }
    ensures most { result ≤ 64 }
{
    let same = if a < 1 << (e - 1) {
        a
    } else {
        complement(e, a)
    };
    leading_zeros(e, same).saturating_sub(1)
}

/// The bytes in reverse order.
fn reversed_bytes(e: u32, a: u64) -> u64
    requires size { IsLaneSize e }
    requires within { a < 2 ^ e }
    ensures value { result ≡ table.reversed_parts 8 e a }
    ensures small { result < 2 ^ e }
{
    match e {
        8 => a,
        16 => (a as u16).swap_bytes() as u64,
        32 => (a as u32).swap_bytes() as u64,
        _ => a.swap_bytes(),
    }
}

/// The parts of 16 bits in reverse order.
fn reversed_halfwords(e: u32, a: u64) -> u64
    requires size { IsLaneSize e }
    requires within { a < 2 ^ e }
    ensures value { result ≡ table.reversed_parts 16 e a }
    ensures small { result < 2 ^ e }
{
    match e {
        8 => 0,
        16 => a,
        32 => (a % 0x1_0000) * 0x1_0000 + a / 0x1_0000,
        _ => {
            (a % 0x1_0000) * 0x1_0000_0000_0000
                + (a / 0x1_0000 % 0x1_0000) * 0x1_0000_0000
                + (a / 0x1_0000_0000 % 0x1_0000) * 0x1_0000
                + a / 0x1_0000_0000_0000
        }
    }
}

/// The parts of 32 bits in reverse order.
fn reversed_words(e: u32, a: u64) -> u64
    requires size { IsLaneSize e }
    requires within { a < 2 ^ e }
    ensures value { result ≡ table.reversed_parts 32 e a }
    ensures small { result < 2 ^ e }
{
    match e {
        8 | 16 => 0,
        32 => a,
        _ => (a % 0x1_0000_0000) * 0x1_0000_0000 + a / 0x1_0000_0000,
    }
}

/// The bits in reverse order.
#[tactic(auto, using(emu_bits::specs::Reversal::reversed))]
fn reversed_bits(e: u32, a: u64) -> u64
    requires size { IsLaneSize e }
    requires within { a < 2 ^ e }
    ensures value { result ≡ bits.reversed_bits e a }
    ensures small { result < 2 ^ e }
{
    match e {
        8 => (a as u8).reverse_bits() as u64,
        16 => (a as u16).reverse_bits() as u64,
        32 => (a as u32).reverse_bits() as u64,
        _ => a.reverse_bits(),
    }
}

/// A function of one lane, by its name: the definition of the name. An extension or a reversal takes parts shorter than
/// the lane.
pub fn unary(op: UnaryOp, e: u32, a: u64) -> u64
    requires size { IsLaneSize e }
    requires within { a < 2 ^ e }
    ensures value { result ≡ table.unary_lane op e a }
    ensures small { result < 2 ^ e }
{
    match op {
        UnaryOp::Sxtb => sign_extended(a, 8, e),
        UnaryOp::Uxtb => zero_extended(e, 8, a),
        UnaryOp::Sxth => sign_extended(a, 16, e),
        UnaryOp::Uxth => zero_extended(e, 16, a),
        UnaryOp::Sxtw => sign_extended(a, 32, e),
        UnaryOp::Uxtw => zero_extended(e, 32, a),
        UnaryOp::Abs => low_bits(sext(a, e).unsigned_abs(), e),
        UnaryOp::Neg => difference(e, 0, a as u128),
        UnaryOp::Cls => leading_copies(e, a) as u64,
        UnaryOp::Clz => leading_zeros(e, a) as u64,
        UnaryOp::Cnt => a.count_ones() as u64,
        UnaryOp::Cnot => u64::from(a == 0),
        UnaryOp::Not => complement(e, a),
        UnaryOp::Revb => reversed_bytes(e, a),
        UnaryOp::Revh => reversed_halfwords(e, a),
        UnaryOp::Revw => reversed_words(e, a),
        UnaryOp::Rbit => reversed_bits(e, a),
    }
}
