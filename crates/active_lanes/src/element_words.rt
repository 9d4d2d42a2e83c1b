//! The words of registers that elements in memory make: lanes whose elements stand at equal distances among bytes, one
//! behind the other, every second, every third or every fourth.
ghost use Rattle.std.specs.Prelude.{◌≡◌, ◌≤◌, ◌<◌, ◌+◌, ◌*◌, ◌/◌, ℕ, length, get_or};
ghost use Rattle.emu_model.specs.Lanes.{byte_in};
ghost use Rattle.emu_model.specs.LaneSizes.{IsLaneSize};
ghost use Rattle.vec_regs.specs.Words.{byte_of};
ghost use Rattle.active_lanes.specs.Placed.{lane_at};

use crate::lanes::put_extended;
use crate::whole::{copy_words, put_apart};

/// Makes the first `count` words of a register: lane k, of e bits, is the element of n bytes at place `at + k * step`,
/// little-endian and extended to the lane by its sign or by zeros.
pub fn put_words(
    e: u32,
    n: u32,
    is_signed: bool,
    bytes: &[u8],
    at: usize,
    step: usize,
    count: usize,
    words: &mut [u64],
)
    requires size { IsLaneSize e }
    requires some { 1 ≤ n }
    requires most { n ≤ 8 }
    requires few { count ≤ 32 }
    requires long { count ≤ length words.old }
    requires room { (k : ℕ) → k < count * (64 / e) → at + k * step + n ≤ length bytes.now }
    ensures bytes { (j : ℕ) → j < 8 * count
        → byte_of 8 words.new j ≡ byte_in (e / 8) (lane_at is_signed e n bytes.now at step) j }
    ensures above { (k : ℕ) → count ≤ k → get_or words.new k 0 ≡ get_or words.old k 0 }
    ensures length { length words.new ≡ length words.old }
{
    if is_signed || e != 8 * n {
        put_extended(e, n, is_signed, bytes, at, step, count, words);
    } else if step == n as usize {
        copy_words(e, n, bytes, at, count, words);
    } else {
        put_apart(e, n, bytes, at, step, count, words);
    }
}
