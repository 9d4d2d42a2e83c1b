//! Shifts and rotations of operands of w bits.
ghost use Rattle.std.specs.Prelude.{◌≡◌, ◌<◌, ◌^◌, ◌⊎◌};
ghost use Rattle.emu_bits.specs.Operations as table;

use crate::numbers::{low, scaled_down, wrapped};
use emu_bits::{U, sext};

/// To the left.
pub fn lsl(w: u32, a: u64, k: u32) -> u64
    requires width { (w ≡ 32) ⊎ (w ≡ 64) }
    requires amount { k < 64 }
    ensures value { result ≡ table.lsl w a k }
    ensures small { result < 2 ^ w }
{
    low(w, (a as u128) << k)
}

/// To the right, with zeros above.
pub fn lsr(w: u32, a: u64, k: u32) -> u64
    requires amount { k < 64 }
    requires within { a < 2 ^ w }
    ensures value { result ≡ table.lsr a k }
    ensures small { result < 2 ^ w }
{
    a >> k
}

/// To the right, with copies of the top bit above.
pub fn asr(w: u32, a: u64, k: u32) -> u64
    requires width { (w ≡ 32) ⊎ (w ≡ 64) }
    requires amount { k < 64 }
    ensures value { result ≡ table.asr w a k }
    ensures small { result < 2 ^ w }
{
    wrapped(w, scaled_down(sext(a, w) as i128, k))
}

/// The w bits from place s on of `high` followed by `low`.
pub fn extracted(w: u32, upper: u64, lower: u64, s: u32) -> u64
    requires width { (w ≡ 32) ⊎ (w ≡ 64) }
    requires place { s < 64 }
    requires within { lower < 2 ^ w }
    ensures value { result ≡ table.extracted w upper lower s }
    ensures small { result < 2 ^ w }
{
    low(w, (((upper as u128) << w) + lower as u128) >> s)
}

/// Rotated to the right.
pub fn ror(w: u32, a: u64, k: u32) -> u64
    requires width { (w ≡ 32) ⊎ (w ≡ 64) }
    requires within { a < 2 ^ w }
    ensures value { result ≡ table.ror w a k }
    ensures small { result < 2 ^ w }
{
    extracted(w, a, a, k % w)
}

/// The shift of a field: 0 lsl, 1 lsr, 2 asr, 3 ror.
pub fn shifted(w: u32, shift: U<2>, a: u64, amount: U<6>) -> u64
    requires width { (w ≡ 32) ⊎ (w ≡ 64) }
    requires within { a < 2 ^ w }
    ensures value { result ≡ table.shifted w shift a amount }
    ensures small { result < 2 ^ w }
{
    let k = amount.get();
    match shift.get() {
        0 => lsl(w, a, k),
        1 => lsr(w, a, k),
        2 => asr(w, a, k),
        _ => ror(w, a, k),
    }
}
