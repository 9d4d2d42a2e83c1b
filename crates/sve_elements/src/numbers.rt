//! Whole numbers modulo 2^e, and saturated to e bits.
ghost use Rattle.std.specs.Prelude.{◌≡◌, ◌<◌, ◌≤◌, ◌%◌, ◌^◌, ◌+◌, ◌*◌, pos, ◌+ℤ◌, ◌-ℤ◌, ◌*ℤ◌, unsigned_abs};
ghost use Rattle.std.specs.Int.{int_shr};
ghost use Rattle.emu_bits.specs.Numbers.{signed, unsigned_int};
ghost use Rattle.emu_bits.specs.Operations as bits;
ghost use Rattle.sve_effects.specs.Lane as table;
ghost use Rattle.emu_model.specs.LaneSizes.{IsLaneSize};

use emu_bits::numbers::power;
use emu_bits::{low_bits, sext};

/// The low e bits of a number of 128 bits.
pub fn low(e: u32, v: u128) -> u64
    requires { IsLaneSize e }
    ensures value { result ≡ v % 2 ^ e }
    ensures small { result < 2 ^ e }
{
    match e {
        8 => (v & 0xFF) as u64,
        16 => (v & 0xFFFF) as u64,
        32 => (v & 0xFFFF_FFFF) as u64,
        _ => (v & 0xFFFF_FFFF_FFFF_FFFF) as u64,
    }
}

/// The low e bits of a number, read as signed.
pub fn signed(e: u32, a: u64) -> i128
    requires { IsLaneSize e }
    ensures value { result ≡ signed a e }
    ensures magnitude { unsigned_abs result ≤ 2 ^ 63 }
{
    sext(a, e) as i128
}

/// A number, read as unsigned.
pub fn unsigned(a: u64) -> i128
    ensures value { result ≡ pos a }
    ensures magnitude { unsigned_abs result ≤ 2 ^ 64 }
{
    a as i128
}

/// A signed number modulo 2^e.
pub fn narrowed(e: u32, z: i64) -> u64
    requires { IsLaneSize e }
    ensures value { result ≡ unsigned_int z e }
    ensures small { result < 2 ^ e }
{
    low_bits(z.cast_unsigned(), e)
}

/// The same of a number of 128 bits.
pub fn wrapped(e: u32, z: i128) -> u64
    requires { IsLaneSize e }
    ensures value { result ≡ unsigned_int z e }
    ensures small { result < 2 ^ e }
{
    low(e, z.cast_unsigned())
}

/// NOT of e bits.
pub fn complement(e: u32, a: u64) -> u64
    requires size { IsLaneSize e }
    requires within { a < 2 ^ e }
    ensures value { result ≡ bits.complement e a }
    ensures small { result < 2 ^ e }
{
    match e {
        8 => 0xFF - a,
        16 => 0xFFFF - a,
        32 => 0xFFFF_FFFF - a,
        _ => 0xFFFF_FFFF_FFFF_FFFF - a,
    }
}

/// A difference modulo 2^e.
#[tactic(auto, using(crate::proofs::Differences::difference_is))]
pub fn difference(e: u32, a: u64, b: u128) -> u64
    requires { IsLaneSize e }
    ensures value { result ≡ unsigned_int (pos a -ℤ pos b) e }
    ensures small { result < 2 ^ e }
{
    low(e, a as u128 + complement(e, low(e, b)) as u128 + 1)
}

/// The sum of two numbers of up to 64 bits and a sign.
pub fn exact_sum(x: i128, y: i128) -> i128
    requires first { unsigned_abs x ≤ 2 ^ 64 }
    requires second { unsigned_abs y ≤ 2 ^ 64 }
    ensures value { result ≡ x +ℤ y }
    ensures magnitude { unsigned_abs result ≤ unsigned_abs x + unsigned_abs y }
{
    x + y
}

/// The difference of two numbers of up to 64 bits and a sign.
pub fn exact_difference(x: i128, y: i128) -> i128
    requires first { unsigned_abs x ≤ 2 ^ 64 }
    requires second { unsigned_abs y ≤ 2 ^ 64 }
    ensures { result ≡ x -ℤ y }
{
    x - y
}

/// The product of two signed numbers of 64 bits.
#[tactic(auto, using(crate::proofs::Magnitudes::magnitudes))]
pub fn exact_product(x: i64, y: i64) -> i128
    ensures value { result ≡ x *ℤ y }
    ensures magnitude { unsigned_abs result ≡ unsigned_abs x * unsigned_abs y }
{
    x as i128 * y as i128
}

/// A number shifted to the right: rounded down.
pub fn scaled_down(x: i128, k: u32) -> i128
    requires { k < 128 }
    ensures { result ≡ int_shr x k }
{
    x >> k
}

/// The nearest signed number of e bits.
pub fn saturated_signed(e: u32, z: i128) -> u64
    requires { IsLaneSize e }
    ensures value { result ≡ table.saturated_signed e z }
    ensures small { result < 2 ^ e }
{
    let half = power(e - 1) as i128;
    if z < -half {
        wrapped(e, -half)
    } else if half - 1 < z {
        wrapped(e, half - 1)
    } else {
        wrapped(e, z)
    }
}

/// The nearest unsigned number of e bits.
pub fn saturated_unsigned(e: u32, z: i128) -> u64
    requires { IsLaneSize e }
    ensures value { result ≡ table.saturated_unsigned e z }
    ensures small { result < 2 ^ e }
{
    let greatest = low(e, u128::MAX) as i128;
    if z < 0 {
        0
    } else if greatest < z {
        wrapped(e, greatest)
    } else {
        wrapped(e, z)
    }
}
