//! Reductions: folds over the active lanes of a register, 128 bits at a time.
ghost use Rattle.std.specs.Prelude.{◌≡◌, ◌<◌, ◌+◌, ◌*◌, ◌/◌, ◌^◌, ℕ, map, get_or, length, true, false, if◌then◌else◌};
ghost use Rattle.sve_effects.specs.LaneLoop.{folding, is_active, lane_of};
ghost use Rattle.emu_model.specs.LaneSizes.{IsLaneSize};

use emu_bits::{Pred, Reg};
use lane_kernels::{FoldOp, LaneWiseFold};
use lane_pack::Quad;
use register_lanes::{Chunks, LaneOf, Number, part_of};
use std::simd::Simd;
use vec_regs::VecRegs;

/// A fold whose start stands for the lanes that aren't active: a step by it changes neither itself nor what a step
/// made.
pub trait Reduction: LaneWiseFold {
    /// The start, of the bits of a lane.
    ghost start: { Self → ℕ → ℕ };

    /// The start for lanes of e bits.
    fn start_of(&self, e: u32) -> u64
        requires { IsLaneSize e }
        ensures { result ≡ start self.now e };

    /// The start is a lane.
    ghost start_small: { (s : Self) (e : ℕ) → IsLaneSize e → start s e < 2 ^ e };

    /// A step by it leaves itself as it is.
    ghost start_kept: { (s : Self) (e : ℕ) → IsLaneSize e → Self.step s e (start s e) (start s e) ≡ start s e };

    /// And what a step made.
    ghost step_kept: { (s : Self) (e n a : ℕ) → IsLaneSize e
        → Self.step s e (Self.step s e n a) (start s e) ≡ Self.step s e n a };
}

/// The lanes of 128 bits of zn, with the start in place of those that aren't active.
#[inline(always)]
fn active_or_start<T: Quad<W>, F: Reduction, const W: usize>(
    vec: &VecRegs,
    op: &F,
    pg: Pred,
    zn: Reg,
    i: u32,
) -> [T; W]
    requires { i < vec.now.bits / 128 }
    ensures lanes { (j : ℕ) → j < W → get_or (map T.number result) j 0 ≡ (if is_active T.BITS vec.now pg (i * W + j)
        then lane_of T.BITS vec.now zn (i * W + j) else F.Reduction.start op.now T.BITS) }
    ensures count { length result ≡ W }
{
    let _length = vec.length();
    let _words = vec.z_words(zn);
    let new: [T; W] = LaneOf { r: zn }.chunk(vec, i);
    let start = op.start_of(T::BITS);
    let old: [T; W] = Number { n: start }.chunk(vec, i);
    T::merged(part_of(vec, pg, i), new, old)
}

/// All lanes of 128 bits.
#[inline(always)]
fn all_lanes<const W: usize>() -> [bool; W]
    ensures flags { (j : ℕ) → j < W → get_or result j false ≡ true }
    ensures count { length result ≡ W }
{
    [true; W]
}

/// What the active lanes of zn make of the start, in order.
#[inline(always)]
fn fold_lanes<T: Quad<W>, F: Reduction, const W: usize>(
    vec: &VecRegs,
    op: &F,
    pg: Pred,
    zn: Reg,
) -> u64
    ensures { result
        ≡ folding T.BITS pg (F.LaneWiseFold.step op.now T.BITS) (F.Reduction.start op.now T.BITS) zn vec.now }
{
    let _length = vec.length();
    let mut so_far = op.start_of(T::BITS);
    for i in 0..vec.length().bits() / 128 {
        let lanes: [T; W] = active_or_start(vec, op, pg, zn, i);
        let all = all_lanes::<W>();
        so_far = FoldOp::<T, W>::chunk(op, so_far, all, Simd::from_array(lanes));
    }
    so_far
}

/// What the active lanes of e bits of zn make of the start, in order.
pub fn fold_active<F: Reduction>(vec: &VecRegs, op: &F, e: u32, pg: Pred, zn: Reg) -> u64
    requires { IsLaneSize e }
    ensures { result ≡ folding e pg (F.LaneWiseFold.step op.now e) (F.Reduction.start op.now e) zn vec.now }
{
    match e {
        8 => fold_lanes::<u8, F, 16>(vec, op, pg, zn),
        16 => fold_lanes::<u16, F, 8>(vec, op, pg, zn),
        32 => fold_lanes::<u32, F, 4>(vec, op, pg, zn),
        _ => fold_lanes::<u64, F, 2>(vec, op, pg, zn),
    }
}
