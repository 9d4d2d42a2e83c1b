//! Numbers of w bits, 32 or 64, and signed readings of them, by exact arithmetic at 128 bits.
ghost use Rattle.std.specs.Prelude.{◌≡◌, ◌<◌, ◌%◌, ◌^◌, ◌*ℤ◌, ◌⊎◌};
ghost use Rattle.std.specs.Int.{int_shr};
ghost use Rattle.emu_bits.specs.Numbers.{unsigned_int, quotient};
ghost use Rattle.emu_bits.specs.Operations as bits;

/// A number modulo 2^w.
pub fn low(w: u32, v: u128) -> u64
    requires { (w ≡ 32) ⊎ (w ≡ 64) }
    ensures value { result ≡ v % 2 ^ w }
    ensures small { result < 2 ^ w }
{
    if w == 32 {
        (v & 0xFFFF_FFFF) as u64
    } else {
        (v & 0xFFFF_FFFF_FFFF_FFFF) as u64
    }
}

/// NOT of w bits.
pub fn complement(w: u32, a: u64) -> u64
    requires width { (w ≡ 32) ⊎ (w ≡ 64) }
    requires within { a < 2 ^ w }
    ensures value { result ≡ bits.complement w a }
    ensures small { result < 2 ^ w }
{
    if w == 32 {
        0xFFFF_FFFF - a
    } else {
        0xFFFF_FFFF_FFFF_FFFF - a
    }
}

/// a less b, modulo 2^w.
pub fn difference(w: u32, a: u64, b: u128) -> u64
    requires width { (w ≡ 32) ⊎ (w ≡ 64) }
    ensures { result ≡ bits.difference w a b }
{
    low(w, a as u128 + complement(w, low(w, b)) as u128 + 1)
}

/// A whole number modulo 2^w.
pub fn wrapped(w: u32, z: i128) -> u64
    requires { (w ≡ 32) ⊎ (w ≡ 64) }
    ensures value { result ≡ unsigned_int z w }
    ensures small { result < 2 ^ w }
{
    low(w, z.cast_unsigned())
}

pub fn product(x: i64, y: i64) -> i128
    ensures { result ≡ x *ℤ y }
{
    x as i128 * y as i128
}

/// The quotient towards zero, and 0 where the second is 0.
pub fn quotient(x: i64, y: i64) -> i128
    ensures { result ≡ quotient x y }
{
    if y == 0 { 0 } else { x as i128 / y as i128 }
}

/// Rounded down.
pub fn scaled_down(x: i128, k: u32) -> i128
    requires { k < 128 }
    ensures { result ≡ int_shr x k }
{
    x >> k
}
