//! The loops over the words of registers: 128 bits at a time, of which a vector length is always a multiple.
//!
//! Where each lane stands on its own 128 bits of the registers alone, the destination is written in place, though it
//! may be a source; else its words are made first and then written.
ghost use Rattle.std.specs.Prelude.{◌≡◌, ◌<◌, ◌≤◌, ◌+◌, ◌*◌, ◌/◌, ◌%◌, ◌^◌, ℕ, List, map, get_or};
ghost use Rattle.emu_model.specs.Lists.{each};
ghost use Rattle.emu_model.specs.State.{Vectors};
ghost use Rattle.register_lanes.specs.Parts.{SamePart};
ghost use Rattle.register_lanes.specs.Written.{written};
ghost use Rattle.sve_effects.specs.LaneLoop as model;
ghost use Rattle.emu_model.specs.Lanes.{read_z};
ghost use Rattle.emu_model.specs.LaneSizes.{IsLaneSize};
ghost use Rattle.vec_regs.specs.Packed.{packed};
ghost use Rattle.vec_regs.specs.Words.{AreZeroFrom, bytes_of};

use crate::sources::{Merged, Zeroed};
use emu_bits::{Pred, Reg};
use lane_pack::Quad;
use vec_regs::VecRegs;

/// Gives lanes, each by its number alone.
pub trait Gives {
    /// The number of lane k of e bits.
    ghost value: { Self → ℕ → Vectors → ℕ → ℕ };
}

/// Gives the lanes of 128 bits at a time.
pub trait Chunks<T: Quad<W>, const W: usize>: Gives {
    /// W lanes from lane i * W on.
    fn chunk(&self, vec: &VecRegs, i: u32) -> [T; W]
        requires within { i < vec.now.bits / 128 }
        requires width { W ≤ 16 }
        ensures { (j : ℕ) → j < W
            → get_or (map T.number result) j 0 ≡ Self.value self.now T.BITS vec.now (i * W + j) % 2 ^ T.BITS };
}

/// Gives lanes each of which stands on the same 128 bits of the registers alone, and on the predicates.
pub trait Local: Gives {
    ghost local: { (s : Self) (e i k : ℕ) (v w : Vectors) → IsLaneSize e → k * e / 128 ≡ i → SamePart i v w
        → Self.value s e v k ≡ Self.value s e w k };
}

/// Writes each lane of a register. Where 128 bits have few lanes, and there are four times 128 bits or a multiple, four
/// parts are written in a row: the bits of a predicate for them are one word, and what each part takes of it is known.
#[inline(always)]
fn fill_in_place<T: Quad<W>, L: Local + Chunks<T, W>, const W: usize>(
    vec: &mut VecRegs,
    zd: Reg,
    lanes: &L,
)
    ensures { vec.new ≡ model.every_lane T.BITS (L.Gives.value lanes.now T.BITS vec.old) zd vec.old }
{
    let count = vec.length().bits() / 128;
    if count % 4 == 0 && W <= 4 {
        fill_by_fours(vec, zd, lanes);
    } else {
        fill_one_by_one(vec, zd, lanes);
    }
}

/// Writes each lane of a register, 128 bits after 128 bits.
#[inline(always)]
fn fill_one_by_one<T: Quad<W>, L: Local + Chunks<T, W>, const W: usize>(
    vec: &mut VecRegs,
    zd: Reg,
    lanes: &L,
)
    ensures { vec.new ≡ model.every_lane T.BITS (L.Gives.value lanes.now T.BITS vec.old) zd vec.old }
{
    let count = vec.length().bits() / 128;
    let _words = vec.z_words(zd);
    for i in 0..count {
        put_part(vec, zd, lanes, i);
    }
}

/// Writes each lane of a register, 512 bits after 512 bits.
#[inline(always)]
fn fill_by_fours<T: Quad<W>, L: Local + Chunks<T, W>, const W: usize>(
    vec: &mut VecRegs,
    zd: Reg,
    lanes: &L,
)
    requires { vec.old.bits / 128 % 4 ≡ 0 }
    ensures { vec.new ≡ model.every_lane T.BITS (L.Gives.value lanes.now T.BITS vec.old) zd vec.old }
{
    let count = vec.length().bits() / 128;
    let _words = vec.z_words(zd);
    for n in 0..count / 4 {
        put_part(vec, zd, lanes, 4 * n);
        put_part(vec, zd, lanes, 4 * n + 1);
        put_part(vec, zd, lanes, 4 * n + 2);
        put_part(vec, zd, lanes, 4 * n + 3);
    }
}

/// Writes part i of a register of which those below are written: W lanes, of its 128 bits from 128 * i on.
#[inline(always)]
fn put_part<T: Quad<W>, L: Local + Chunks<T, W>, const W: usize>(
    vec: &mut VecRegs,
    zd: Reg,
    lanes: &L,
    i: u32,
)
    requires { i < vec.old.bits / 128 }
    // whatever the registers were before the first part
    ensures { (v : Vectors) (words : List ℕ) → read_z v zd ≡ bytes_of (v.bits / 8) words
        → vec.old ≡ written T.BITS (L.Gives.value lanes.now T.BITS v) i zd v
        → vec.new ≡ written T.BITS (L.Gives.value lanes.now T.BITS v) (i + 1) zd v }
{
    let _length = vec.length();
    let pair = T::packed(lanes.chunk(vec, i));
    vec.set_z_pair(zd, i, pair);
}

/// The words of a register whose lanes are given, over zeros.
#[inline(always)]
fn fill<T: Quad<W>, L: Chunks<T, W>, const W: usize>(
    vec: &VecRegs,
    lanes: &L,
    words: &mut [u64; 32],
)
    requires { (k : ℕ) → get_or words.old k 0 ≡ 0 }
    ensures words { (i : ℕ) → i < vec.now.bits / 64 → get_or words.new i 0
        ≡ packed T.BITS (each (64 / T.BITS) (λ j. L.value lanes.now T.BITS vec.now (i * (64 / T.BITS) + j))) }
    ensures above { AreZeroFrom (vec.now.bits / 64) words.new }
{
    let length = vec.length();
    for i in 0..length.bits() / 128 {
        let pair = T::packed(lanes.chunk(vec, i));
        words[2 * i as usize] = pair[0];
        words[2 * i as usize + 1] = pair[1];
    }
}

/// The words of a register whose lanes of e bits are given.
#[inline(always)]
fn register_of<L: Chunks<u8, 16> + Chunks<u16, 8> + Chunks<u32, 4> + Chunks<u64, 2>>(
    vec: &VecRegs,
    e: u32,
    lanes: &L,
    words: &mut [u64; 32],
)
    requires size { IsLaneSize e }
    requires zeros { (k : ℕ) → get_or words.old k 0 ≡ 0 }
    ensures words { (i : ℕ) → i < vec.now.bits / 64
        → get_or words.new i 0 ≡ packed e (each (64 / e) (λ j. L.Gives.value lanes.now e vec.now (i * (64 / e) + j))) }
    ensures above { AreZeroFrom (vec.now.bits / 64) words.new }
{
    match e {
        8 => fill::<u8, L, 16>(vec, lanes, words),
        16 => fill::<u16, L, 8>(vec, lanes, words),
        32 => fill::<u32, L, 4>(vec, lanes, words),
        _ => fill::<u64, L, 2>(vec, lanes, words),
    }
}

/// Writes each lane of e bits of register zd, of 8, 16, 32 or 64 bits.
#[inline(always)]
pub fn plain<L: Local + Chunks<u8, 16> + Chunks<u16, 8> + Chunks<u32, 4> + Chunks<u64, 2>>(
    vec: &mut VecRegs,
    e: u32,
    zd: Reg,
    lanes: &L,
)
    requires { IsLaneSize e }
    ensures { vec.new ≡ model.every_lane e (L.Gives.value lanes.now e vec.old) zd vec.old }
{
    match e {
        8 => fill_in_place::<u8, L, 16>(vec, zd, lanes),
        16 => fill_in_place::<u16, L, 8>(vec, zd, lanes),
        32 => fill_in_place::<u32, L, 4>(vec, zd, lanes),
        _ => fill_in_place::<u64, L, 2>(vec, zd, lanes),
    }
}

/// The same of lanes that may stand on any others, as those of a permutation do.
#[inline(always)]
pub fn permuted<L: Chunks<u8, 16> + Chunks<u16, 8> + Chunks<u32, 4> + Chunks<u64, 2>>(
    vec: &mut VecRegs,
    e: u32,
    zd: Reg,
    lanes: &L,
)
    requires { IsLaneSize e }
    ensures { vec.new ≡ model.every_lane e (L.Gives.value lanes.now e vec.old) zd vec.old }
{
    let _length = vec.length();
    let mut words = [0; 32];
    register_of(vec, e, lanes, &mut words);
    vec.set_z_words(zd, &words);
}

/// Writes the active lanes of e bits, and the others keep their value.
#[inline(always)]
pub fn merging<L: Local + Chunks<u8, 16> + Chunks<u16, 8> + Chunks<u32, 4> + Chunks<u64, 2> + Drop>(
    vec: &mut VecRegs,
    e: u32,
    pg: Pred,
    zd: Reg,
    lanes: L,
)
    requires { IsLaneSize e }
    ensures { vec.new ≡ model.merging e pg (L.Gives.value lanes e vec.old) zd vec.old }
{
    plain(vec, e, zd, &Merged { pg, zd, lanes });
}

/// Writes the active lanes of e bits, and the others are 0.
#[inline(always)]
pub fn zeroing<L: Local + Chunks<u8, 16> + Chunks<u16, 8> + Chunks<u32, 4> + Chunks<u64, 2> + Drop>(
    vec: &mut VecRegs,
    e: u32,
    pg: Pred,
    zd: Reg,
    lanes: L,
)
    requires { IsLaneSize e }
    ensures { vec.new ≡ model.zeroing e pg (L.Gives.value lanes e vec.old) zd vec.old }
{
    plain(vec, e, zd, &Zeroed { pg, lanes });
}
