//! Lanes packed into words.
ghost use Rattle.std.specs.Prelude.{◌≡◌, ℕ, ◌<◌, ◌≤◌, ◌*◌, ◌/◌, length, get_or, false};
ghost use Rattle.emu_model.specs.Lanes.{field_bit};
ghost use Rattle.emu_model.specs.LaneSizes.{IsLaneSize};
ghost use Rattle.vec_regs.specs.Packed as model;
ghost use Rattle.vec_regs.specs.Packed.{packed};
ghost use Rattle.vec_regs.specs.Words.{bit_of, AreClearFrom, AreZeroFrom};

use crate::numbers::{modulus, put};

/// Lanes of e bits packed into one word, the first the lowest.
fn word_of(e: u32, lanes: &[u64]) -> u64
    requires size { IsLaneSize e }
    requires few { length lanes.now * e ≤ 64 }
    ensures { result ≡ packed e lanes.now }
{
    let m = modulus(e);
    let mut so_far: u64 = 0;
    for j in (0..lanes.len()).rev() {
        so_far = (so_far as u128 * m + lanes[j] as u128 % m) as u64;
    }
    so_far
}

/// Lanes of e bits packed into the words of a register, and zeros above.
pub fn pack(e: u32, lanes: &[u64]) -> [u64; 32]
    requires size { IsLaneSize e }
    requires few { length lanes.now / (64 / e) ≤ 32 }
    ensures words { (k : ℕ) → k < length lanes.now / (64 / e) → get_or result k 0 ≡ model.word_of e lanes.now k }
    ensures above { AreZeroFrom (length lanes.now / (64 / e)) result }
{
    let count = 64 / e as usize;
    let mut words = [0; 32];
    for i in 0..lanes.len() / count {
        words[i] = word_of(e, &lanes[i * count..i * count + count]);
    }
    words
}

/// Flags as the lowest bits of fields of e / 8 bits, and zeros above.
pub fn pack_fields(e: u32, flags: &[bool]) -> [u64; 4]
    requires size { IsLaneSize e }
    requires few { length flags.now * (e / 8) ≤ 256 }
    ensures fields { (i : ℕ) → i < length flags.now * (e / 8)
        → bit_of result i ≡ field_bit (e / 8) (λ k. get_or flags.now k false) i }
    ensures above { AreClearFrom (length flags.now * (e / 8)) result }
{
    let w = e as usize / 8;
    let mut words = [0; 4];
    for k in 0..flags.len() {
        let at = k * w;
        words[at / 64] = put(words[at / 64], (at % 64) as u32, 1, u64::from(flags[k]));
    }
    words
}
