//! Parts of numbers.
ghost use Rattle.std.specs.Prelude.{◌≡◌, ◌<◌, ◌≤◌, ◌+◌, ◌*◌, ◌%◌, ◌^◌};
ghost use Rattle.emu_model.specs.LaneSizes.{IsLaneSize};
ghost use Rattle.vec_regs.specs.Packed.{put, IsLowSize};

/// The low e bits of a word.
pub fn low_lane(e: u32, word: u64) -> u64
    requires { IsLaneSize e }
    ensures value { result ≡ word % 2 ^ e }
    ensures small { result < 2 ^ e }
{
    match e {
        8 => word % 0x100,
        16 => word % 0x1_0000,
        32 => word % 0x1_0000_0000,
        _ => word,
    }
}

/// 2^e
pub fn modulus(e: u32) -> u128
    requires { IsLaneSize e }
    ensures value { result ≡ 2 ^ e }
    ensures small { result ≤ 2 ^ 64 }
{
    match e {
        8 => 0x100,
        16 => 0x1_0000,
        32 => 0x1_0000_0000,
        _ => 0x1_0000_0000_0000_0000,
    }
}

/// The low `bits` bits of a number of 128 bits.
pub fn low_part(bits: u32, v: u128) -> u128
    requires { IsLowSize bits }
    ensures { result ≡ v % 2 ^ bits }
{
    match bits {
        8 => v % 0x100,
        16 => v % 0x1_0000,
        32 => v % 0x1_0000_0000,
        64 => v % 0x1_0000_0000_0000_0000,
        _ => v,
    }
}

/// The number of two words, the first the lower.
pub fn joined(first: u64, second: u64) -> u128
    ensures { result ≡ first + 2 ^ 64 * second }
{
    first as u128 + 0x1_0000_0000_0000_0000 * second as u128
}

/// A word with v in the place of its b bits from `at` on.
pub fn put(word: u64, at: u32, b: u32, v: u64) -> u64
    requires within { at + b ≤ 64 }
    requires part { (0 < b) × (b ≤ 32) }
    requires value { v < 2 ^ b }
    ensures { result ≡ put word at b v }
{
    let above = word >> at >> b << b;
    (above + v << at) + word % (1u64 << at)
}
