//! Lanes of a register that the lanes of another number.
ghost use Rattle.std.specs.Prelude.{◌≡◌, ◌<◌, ◌≤◌, ◌+◌, ◌*◌, ◌/◌, ◌%◌, ◌^◌, ℕ, map, get_or, length};
ghost use Rattle.emu_model.specs.Lists.{each};
ghost use Rattle.lane_permute.specs.Slices.{number_at};
ghost use Rattle.sve_effects.specs.LaneLoop.{lane_of};
ghost use Rattle.sve_effects.specs.Permute.{taken, indexed_place};
ghost use Rattle.sve_effects.specs.PermuteRows as model;
ghost use Rattle.emu_model.specs.LaneSizes.{IsLaneSize};
ghost use Rattle.vec_regs.specs.Packed.{packed};
ghost use Rattle.vec_regs.specs.Words.{AreZeroFrom};

use crate::slices::lanes_in;
use emu_bits::Reg;
use lane_pack::Quad;
use lane_permute::chosen;
use register_lanes::{Chunks, LaneOf};
use vec_regs::VecRegs;

/// Writes the lanes of zn that the lanes of zm number to zd, and 0 where there is none.
pub(crate) fn table(vec: &mut VecRegs, e: u32, zm: Reg, zn: Reg, zd: Reg)
    requires { IsLaneSize e }
    ensures { vec.new
        ≡ model.with_places e (λ k. indexed_place (lane_of e vec.old zm k) (vec.old.bits / e)) zn zn 0 zd vec.old }
{
    match e {
        8 => looked_up::<u8, 16, 256>(vec, zm, zn, zd),
        16 => looked_up::<u16, 8, 128>(vec, zm, zn, zd),
        32 => looked_up::<u32, 4, 64>(vec, zm, zn, zd),
        _ => looked_up::<u64, 2, 32>(vec, zm, zn, zd),
    }
}

/// The same of lanes of one type, of which 2,048 bits have N.
fn looked_up<T: Quad<W>, const W: usize, const N: usize>(
    vec: &mut VecRegs,
    zm: Reg,
    zn: Reg,
    zd: Reg,
)
    requires whole { N * T.BITS ≡ 2048 }
    requires few { N ≤ 256 }
    requires width { W ≤ 16 }
    ensures { vec.new ≡ model.with_places T.BITS
        (λ k. indexed_place (lane_of T.BITS vec.old zm k) (vec.old.bits / T.BITS)) zn zn 0 zd vec.old }
{
    let _length = vec.length();
    let mut words = [0; 32];
    fill::<T, W, N>(vec, zm, zn, &mut words);
    vec.set_z_words(zd, &words);
}

/// The words of these lanes, over zeros.
#[inline(always)]
fn fill<T: Quad<W>, const W: usize, const N: usize>(
    vec: &VecRegs,
    zm: Reg,
    zn: Reg,
    words: &mut [u64; 32],
)
    requires whole { N * T.BITS ≡ 2048 }
    requires few { N ≤ 256 }
    requires width { W ≤ 16 }
    requires zeros { (k : ℕ) → get_or words.old k 0 ≡ 0 }
    ensures words { (i : ℕ) → i < vec.now.bits / 64 → get_or words.new i 0
        ≡ packed T.BITS (each (64 / T.BITS) (λ j. taken (lane_of T.BITS vec.now zn) (lane_of T.BITS vec.now zn) 0 0
        (indexed_place (lane_of T.BITS vec.now zm (i * (64 / T.BITS) + j)) (vec.now.bits / T.BITS)))) }
    ensures above { AreZeroFrom (vec.now.bits / 64) words.new }
{
    let _length = vec.length();
    let lanes: [T; N] = lanes_in(vec, zn);
    for i in 0..vec.length().bits() / 128 {
        let pair = T::packed(chosen_quad(vec, &lanes, zm, i));
        words[2 * i as usize] = pair[0];
        words[2 * i as usize + 1] = pair[1];
    }
}

/// The lanes that 128 bits of zm number.
#[inline(always)]
fn chosen_quad<T: Quad<W>, const W: usize>(vec: &VecRegs, lanes: &[T], zm: Reg, i: u32) -> [T; W]
    requires within { i < vec.now.bits / 128 }
    requires width { W ≤ 16 }
    ensures { (j : ℕ) → j < W → number_at T.number result j ≡ taken (number_at T.number lanes.now)
        (number_at T.number lanes.now) 0 0 (indexed_place (lane_of T.BITS vec.now zm (i * W + j)) (length lanes.now)) }
{
    let _length = vec.length();
    let _words = vec.z_words(zm);
    let at: [T; W] = LaneOf { r: zm }.chunk(vec, i);
    let mut out = at;
    chosen(lanes, &at, &mut out);
    out
}
