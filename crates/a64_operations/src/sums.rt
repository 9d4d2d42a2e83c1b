//! Sums of 32 or 64 bits with their flags, by arithmetic of 64 bits.
ghost use Rattle.std.specs.Prelude.{◌≡◌, ◌<◌, ◌+◌, ◌-◌, ◌^◌, ◌⊎◌, nat_le, pos, ◌+ℤ◌};
ghost use Rattle.emu_bits.specs.Fields.{bit};
ghost use Rattle.emu_bits.specs.Operations.{flags_of_result};
ghost use Rattle.emu_bits.specs.Numbers.{flags_of_sum, is_out_of_range, signed, sum_of};

use emu_bits::Flags;

/// The least number of w bits whose top bit is 1.
#[inline(always)]
fn half(w: u32) -> u64
    requires { (w ≡ 32) ⊎ (w ≡ 64) }
    ensures { result ≡ 2 ^ (w - 1) }
{
    if w == 32 {
        0x8000_0000
    } else {
        0x8000_0000_0000_0000
    }
}

/// The sum, and whether it doesn't fit w bits.
#[inline(always)]
fn carried(a: u64, b: u64, carry: bool, w: u32) -> (u64, bool)
    requires width { (w ≡ 32) ⊎ (w ≡ 64) }
    requires first { a < 2 ^ w }
    requires second { b < 2 ^ w }
    ensures sum { result.0 ≡ sum_of w a b carry }
    ensures carry { result.1 ≡ nat_le (2 ^ w) (a + b + bit carry) }
{
    if w == 32 {
        let sum = a + b + u64::from(carry);
        return (sum % 0x1_0000_0000, sum >= 0x1_0000_0000);
    }
    let (part, first) = a.overflowing_add(b);
    let (sum, second) = part.overflowing_add(u64::from(carry));
    (sum, first || second)
}

/// Whether the signed sum doesn't fit: both numbers have a sign that the sum hasn't.
#[inline(always)]
fn is_overflow(a: u64, b: u64, carry: bool, w: u32, sum: u64) -> bool
    requires width { (w ≡ 32) ⊎ (w ≡ 64) }
    requires first { a < 2 ^ w }
    requires second { b < 2 ^ w }
    requires sum { sum ≡ sum_of w a b carry }
    ensures { result ≡ is_out_of_range w (signed a w +ℤ signed b w +ℤ pos (bit carry)) }
{
    let half = half(w);
    let (first, second, both) = (a >= half, b >= half, sum >= half);
    first == second && both != first
}

/// The sum of two numbers and a carry, with its flags: the top bit, whether the sum is 0, whether the unsigned sum
/// doesn't fit, and whether the signed sum doesn't.
#[inline(always)]
pub fn add_flags(a: u64, b: u64, carry: bool, w: u32) -> (u64, Flags)
    requires width { (w ≡ 32) ⊎ (w ≡ 64) }
    requires first { a < 2 ^ w }
    requires second { b < 2 ^ w }
    ensures sum { result.0 ≡ sum_of w a b carry }
    ensures flags { result.1 ≡ flags_of_sum w a b carry }
{
    let (sum, c) = carried(a, b, carry, w);
    let flags = Flags {
        n: sum >= half(w),
        z: sum == 0,
        c,
        v: is_overflow(a, b, carry, w, sum),
    };
    (sum, flags)
}

/// N and Z of a result of w bits, C and V clear.
#[inline(always)]
pub fn flags_of_result(w: u32, v: u64) -> Flags
    requires { (w ≡ 32) ⊎ (w ≡ 64) }
    ensures { result ≡ flags_of_result w v }
{
    Flags {
        n: v >= half(w),
        z: v == 0,
        c: false,
        v: false,
    }
}
