//! Words of elements that are as large as their lanes.
ghost use Rattle.std.specs.Prelude.{◌≡◌, ◌≤◌, ◌<◌, ◌+◌, ◌*◌, ◌/◌, ◌%◌, ◌^◌, ℕ, false, length, get_or};
ghost use Rattle.emu_model.specs.Lanes.{byte_in};
ghost use Rattle.emu_model.specs.LaneSizes.{IsLaneSize};
ghost use Rattle.vec_regs.specs.Words.{byte_of};
ghost use Rattle.active_lanes.specs.Placed.{lane_at};

use crate::lanes::put_each;
use byteorder::{ByteOrder, LittleEndian};

/// Makes the first `count` words of a register of elements that stand one behind the other: the bytes as they are.
pub(crate) fn copy_words(e: u32, n: u32, bytes: &[u8], at: usize, count: usize, words: &mut [u64])
    requires size { IsLaneSize e }
    requires same { e ≡ 8 * n }
    requires few { count ≤ 32 }
    requires long { count ≤ length words.old }
    requires room { (k : ℕ) → k < count * (64 / e) → at + k * n + n ≤ length bytes.now }
    ensures bytes { (j : ℕ) → j < 8 * count
        → byte_of 8 words.new j ≡ byte_in (e / 8) (lane_at false e n bytes.now at n) j }
    ensures above { (k : ℕ) → count ≤ k → get_or words.new k 0 ≡ get_or words.old k 0 }
    ensures length { length words.new ≡ length words.old }
{
    for i in 0..count {
        words[i] = LittleEndian::read_u64(&bytes[at + 8 * i..at + 8 * i + 8]);
    }
}

/// The same of elements that stand apart.
pub(crate) fn put_apart(
    e: u32,
    n: u32,
    bytes: &[u8],
    at: usize,
    step: usize,
    count: usize,
    words: &mut [u64],
)
    requires size { IsLaneSize e }
    requires same { e ≡ 8 * n }
    requires few { count ≤ 32 }
    requires long { count ≤ length words.old }
    requires room { (k : ℕ) → k < count * (64 / e) → at + k * step + n ≤ length bytes.now }
    ensures bytes { (j : ℕ) → j < 8 * count
        → byte_of 8 words.new j ≡ byte_in (e / 8) (lane_at false e n bytes.now at step) j }
    ensures above { (k : ℕ) → count ≤ k → get_or words.new k 0 ≡ get_or words.old k 0 }
    ensures length { length words.new ≡ length words.old }
{
    match n {
        1 => put_each(8, 1, false, bytes, at, step, count, words),
        2 => put_each(16, 2, false, bytes, at, step, count, words),
        4 => put_each(32, 4, false, bytes, at, step, count, words),
        _ => put_each(64, 8, false, bytes, at, step, count, words),
    }
}
