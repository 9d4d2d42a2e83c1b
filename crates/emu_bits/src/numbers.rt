//! Numbers of so many bits, read as signed and extended, and sums with their flags.
ghost use Rattle.std.specs.Prelude.{◌≡◌, ◌-◌, ◌<◌, ◌≤◌, ◌^◌, ◌⊎◌, pos, ◌+ℤ◌};
ghost use Rattle.emu_bits.specs.Numbers.{
  unsigned,
  signed,
  sign_extended,
  extended_bits,
  extended,
  sum_of,
  flags_of_sum,
  is_out_of_range,
};
ghost use Rattle.emu_bits.specs.Fields.{bit};

use crate::fields::U;
use crate::flags::Flags;

/// The low n bits of a number, up to 64 of them.
#[tactic(auto, using(crate::proofs::Signs::masked))]
pub fn low_bits(v: u64, n: u32) -> u64
    requires { n ≤ 64 }
    ensures value { result ≡ unsigned v n }
    ensures small { result < 2 ^ n }
{
    if n == 64 { v } else { v & (power(n) - 1) }
}

/// The low n bits of a number, 1 to 64 of them, read as a signed number.
pub fn sext(v: u64, n: u32) -> i64
    requires some { 1 ≤ n }
    requires within { n ≤ 64 }
    ensures { result ≡ signed v n }
{
    let half = power(n - 1);
    let low = low_bits(v, n);
    if low < half {
        low as i64
    } else {
        -1 - (half + (half - 1) - low) as i64
    }
}

/// The low n bits of a number, 1 to 64 of them, extended by their sign to w bits.
pub fn sign_extended(v: u64, n: u32, w: u32) -> u64
    requires some { 1 ≤ n }
    requires within { n ≤ 64 }
    requires width { w ≤ 64 }
    ensures value { result ≡ sign_extended w n v }
    ensures small { result < 2 ^ w }
{
    low_bits(sext(v, n).cast_unsigned(), w)
}

/// The low 8, 16, 32 or 64 bits of a number, extended to 64 bits: 0 uxtb, 1 uxth, 2 uxtw, 3 uxtx, 4 sxtb, 5 sxth, 6
/// sxtw, 7 sxtx.
pub fn extended(ext: U<3>, v: u64) -> u64
    ensures { result ≡ extended ext v }
{
    let ext = ext.get();
    let n = extended_bits(ext);
    if ext < 4 {
        low_bits(v, n)
    } else {
        sign_extended(v, n, 64)
    }
}

/// The bits that an extension takes.
fn extended_bits(ext: u32) -> u32
    ensures value { result ≡ extended_bits ext }
    ensures some { 8 ≤ result }
    ensures most { result ≤ 64 }
{
    match ext % 4 {
        0 => 8,
        1 => 16,
        2 => 32,
        _ => 64,
    }
}

/// The sum of two numbers and a carry at a width of 32 or 64 bits, with its flags: the top bit, whether the sum is 0,
/// whether the unsigned sum doesn't fit, and whether the signed sum doesn't.
pub fn add_flags(a: u64, b: u64, carry: bool, width: u32) -> (u64, Flags)
    requires width { (width ≡ 32) ⊎ (width ≡ 64) }
    requires first { a < 2 ^ width }
    requires second { b < 2 ^ width }
    ensures sum { result.0 ≡ sum_of width a b carry }
    ensures flags { result.1 ≡ flags_of_sum width a b carry }
{
    let limit = limit(width);
    let sum = u128::from(a) + u128::from(b) + u128::from(carry);
    let low = (sum % limit) as u64;
    let flags = Flags {
        n: low >= power(width - 1),
        z: low == 0,
        c: sum >= limit,
        v: is_overflow(a, b, carry, width, low),
    };
    (low, flags)
}

/// Whether a signed sum doesn't fit: both numbers have a sign that the sum modulo 2^width hasn't.
fn is_overflow(a: u64, b: u64, carry: bool, width: u32, sum: u64) -> bool
    requires width { (width ≡ 32) ⊎ (width ≡ 64) }
    requires first { a < 2 ^ width }
    requires second { b < 2 ^ width }
    requires sum { sum ≡ sum_of width a b carry }
    ensures { result ≡ is_out_of_range width (signed a width +ℤ signed b width +ℤ pos (bit carry)) }
{
    let half = power(width - 1);
    if a < half {
        b < half && sum >= half
    } else {
        b >= half && sum < half
    }
}

/// The first number that doesn't fit a width of 32 or 64 bits.
fn limit(width: u32) -> u128
    requires { (width ≡ 32) ⊎ (width ≡ 64) }
    ensures { result ≡ 2 ^ width }
{
    if width == 32 {
        0x1_0000_0000
    } else {
        0x1_0000_0000_0000_0000
    }
}

/// A power of two.
pub fn power(log: u32) -> u64
    requires { log < 64 }
    ensures value { result ≡ 2 ^ log }
    ensures some { 0 < result }
{
    1u64 << log
}
