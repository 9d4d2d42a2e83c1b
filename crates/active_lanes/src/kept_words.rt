//! The words of a register that keeps its active lanes.
ghost use Rattle.std.specs.Prelude.{◌≡◌, ◌≤◌, ◌<◌, ◌+◌, ◌*◌, ◌/◌, ◌%◌, ◌^◌, ℕ, length, get_or, if◌then◌else◌};
ghost use Rattle.emu_model.specs.LaneSizes.{IsLaneSize};
ghost use Rattle.vec_regs.specs.Words.{byte_of};
ghost use Rattle.active_lanes.specs.Kept.{is_kept, kept};

use crate::fields::{field, is_whole};
use emu_bits::Pred;
use vec_regs::VecRegs;

/// Byte t of a word, and 0 in a lane that is off.
fn kept_byte(w: u32, field: u64, word: u64, t: u32) -> u64
    requires some { 1 ≤ w }
    requires place { t < 8 }
    ensures value { result ≡ kept w field word t }
    ensures small { result < 256 }
{
    if (field >> (t / w * w)) % 2 == 1 {
        (word >> (8 * t)) % 256
    } else {
        0
    }
}

/// A word with zeros in the lanes of w bytes that are off. The size is a constant where it is called.
#[inline(always)]
fn masked(w: u32, field: u64, word: u64) -> u64
    requires { 1 ≤ w }
    ensures { (t : ℕ) → t < 8 → result / 2 ^ (8 * t) % 256 ≡ kept w field word t }
{
    let mut so_far: u64 = 0;
    for t in (0..8).rev() {
        so_far = so_far * 256 + kept_byte(w, field, word, t);
    }
    so_far
}

/// The same of lanes of e bits.
fn masked_lanes(e: u32, field: u64, word: u64) -> u64
    requires size { IsLaneSize e }
    ensures { (t : ℕ) → t < 8 → result / 2 ^ (8 * t) % 256 ≡ kept (e / 8) field word t }
{
    match e {
        8 => masked(1, field, word),
        16 => masked(2, field, word),
        32 => masked(4, field, word),
        _ => masked(8, field, word),
    }
}

/// The same, at once where all lanes are on or off.
pub(crate) fn kept_word(e: u32, field: u64, word: u64) -> u64
    requires size { IsLaneSize e }
    ensures { (t : ℕ) → t < 8 → result / 2 ^ (8 * t) % 256 ≡ kept (e / 8) field word t }
{
    if is_whole(e, field) {
        return word;
    }
    if field == 0 {
        return 0;
    }
    masked_lanes(e, field, word)
}

/// Puts zeros in the lanes of the first `count` words that aren't active, behind the first `whole` words, which stay as
/// they are.
pub fn keep_active(vec: &VecRegs, pg: Pred, e: u32, whole: u32, count: u32, words: &mut [u64])
    requires size { IsLaneSize e }
    requires within { whole ≤ count }
    requires few { count ≤ vec.now.bits / 64 }
    requires long { count ≤ length words.old }
    ensures bytes { (j : ℕ) → j < 8 * count → byte_of 8 words.new j
        ≡ (if is_kept whole pg e vec.now (j / (e / 8)) then byte_of 8 words.old j else 0) }
    ensures above { (k : ℕ) → count ≤ k → get_or words.new k 0 ≡ get_or words.old k 0 }
    ensures length { length words.new ≡ length words.old }
{
    for i in whole..count {
        let word = words[i as usize];
        words[i as usize] = kept_word(e, field(vec, pg, i), word);
    }
}
