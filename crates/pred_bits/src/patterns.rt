//! How many lanes a pattern names.
ghost use Rattle.std.specs.Prelude.{◌≡◌, ◌≤◌};
ghost use Rattle.lane_model.specs.Pattern as model;

use emu_bits::U;

/// The greatest power of two up to a number.
#[inline(always)]
fn greatest_power(n: u32) -> u32
    requires { 1 ≤ n }
    ensures value { result ≡ model.greatest_power n }
    ensures within { result ≤ n }
{
    1u32 << (31 - n.leading_zeros())
}

/// That many, or none where there are fewer.
#[inline(always)]
fn so_many(count: u32, n: u32) -> u32
    ensures value { result ≡ model.so_many count n }
    ensures within { result ≤ n }
{
    if count <= n { count } else { 0 }
}

/// How many of at least one lane a pattern names: pow2, vl1 to vl256, mul4, mul3 and all; the others name none.
#[inline(always)]
pub fn pattern_count(pattern: U<5>, lanes: u32) -> u32
    requires { 1 ≤ lanes }
    ensures value { result ≡ model.pattern_count pattern lanes }
    ensures within { result ≤ lanes }
{
    match pattern.get() {
        0 => greatest_power(lanes),
        1..=8 => so_many(pattern.get(), lanes),
        9 => so_many(16, lanes),
        10 => so_many(32, lanes),
        11 => so_many(64, lanes),
        12 => so_many(128, lanes),
        13 => so_many(256, lanes),
        29 => lanes / 4 * 4,
        30 => lanes / 3 * 3,
        31 => lanes,
        _ => 0,
    }
}
