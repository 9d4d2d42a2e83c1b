//! Operations of lanes of registers, and of lanes and a number.
//!
//! What is never inlined has a frame of its own for each operation: those that take many registers of the host keep
//! them from the others, and most take so few that none is saved.
ghost use Rattle.std.specs.Prelude.{◌≡◌, ◌<◌, ◌/◌, ◌%◌, ℕ};
ghost use Rattle.std.proofs.Common.{ap₂};
ghost use Rattle.register_lanes.specs.Parts.{same_lane, same_covering};
ghost use Rattle.sve_effects.specs.LaneLoop as model;
ghost use Rattle.sve_effects.specs.LaneLoop.{covering_lane, lane_of};
ghost use Rattle.sve_effects.specs.VectorData.{indexed_lane};
ghost use Rattle.sve_data.specs.SameLanes.{same_indexed};
ghost use Rattle.emu_model.specs.LaneSizes.{IsLaneSize};

use emu_bits::{Pred, Reg};
use lane_kernels::{LaneWise1, LaneWise2, LaneWise3, Op3};
use lane_ops::WithNumber;
use lane_pack::Quad;
use register_lanes::{Chunks, Gives, LaneOf, Local, Map1, Map2, Number, Updated, merging, plain};
use std::simd::Simd;
use vec_regs::VecRegs;

/// Writes what an operation makes of the lanes of zn and zm.
#[inline(always)]
pub fn plain_two<F: LaneWise2 + Drop>(vec: &mut VecRegs, e: u32, zd: Reg, zn: Reg, zm: Reg, op: F)
    requires { IsLaneSize e }
    ensures { vec.new
        ≡ model.every_lane e (λ k. F.entry op e (lane_of e vec.old zn k) (lane_of e vec.old zm k)) zd vec.old }
{
    plain(vec, e, zd, &Map2 { op, zn, zm });
}

/// The same in a frame of its own.
#[inline(never)]
pub fn plain_two_apart<F: LaneWise2 + Drop>(
    vec: &mut VecRegs,
    e: u32,
    zd: Reg,
    zn: Reg,
    zm: Reg,
    op: F,
)
    requires { IsLaneSize e }
    ensures { vec.new
        ≡ model.every_lane e (λ k. F.entry op e (lane_of e vec.old zn k) (lane_of e vec.old zm k)) zd vec.old }
{
    plain_two(vec, e, zd, zn, zm, op);
}

/// What an operation makes of the lanes of zdn and zm, in the active lanes of zdn; the others keep their value.
#[inline(never)]
pub fn merging_two<F: LaneWise2 + Drop>(
    vec: &mut VecRegs,
    e: u32,
    pg: Pred,
    zdn: Reg,
    zm: Reg,
    op: F,
)
    requires { IsLaneSize e }
    ensures { vec.new ≡ model.merging e pg
        (λ k. F.entry op e (lane_of e vec.old zdn k) (lane_of e vec.old zm k)) zdn vec.old }
{
    let zn = zdn;
    merging(vec, e, pg, zdn, Map2 { op, zn, zm });
}

/// What an operation makes of the lanes of zd, zn and zm, in the active lanes of zd; the others keep their value.
#[inline(never)]
pub fn merging_three<F: LaneWise3 + Drop>(
    vec: &mut VecRegs,
    e: u32,
    pg: Pred,
    zd: Reg,
    zn: Reg,
    zm: Reg,
    op: F,
)
    requires { IsLaneSize e }
    ensures { vec.new ≡ model.merging e pg
        (λ k. F.entry op e (lane_of e vec.old zd k) (lane_of e vec.old zn k) (lane_of e vec.old zm k)) zd vec.old }
{
    let lanes = Updated { op, pg, zd, zn, zm };
    plain(vec, e, zd, &lanes);
}

/// Writes what an operation makes of the lanes of zn and the 64-bit lanes of zm that cover them.
#[inline(always)]
pub fn plain_covered<F: LaneWise2 + Copy>(
    vec: &mut VecRegs,
    e: u32,
    zd: Reg,
    zn: Reg,
    zm: Reg,
    op: F,
)
    requires { IsLaneSize e }
    ensures { vec.new
        ≡ model.every_lane e (λ k. F.entry op e (lane_of e vec.old zn k) (covering_lane e vec.old zm k)) zd vec.old }
{
    plain(vec, e, zd, &Covered { op, zn, zm });
}

/// The same of zdn in its active lanes; the others keep their value.
#[inline(never)]
pub fn merging_covered<F: LaneWise2 + Copy>(
    vec: &mut VecRegs,
    e: u32,
    pg: Pred,
    zdn: Reg,
    zm: Reg,
    op: F,
)
    requires { IsLaneSize e }
    ensures { vec.new ≡ model.merging e pg
        (λ k. F.entry op e (lane_of e vec.old zdn k) (covering_lane e vec.old zm k)) zdn vec.old }
{
    let zn = zdn;
    merging(vec, e, pg, zdn, Covered { op, zn, zm });
}

/// Writes what an operation makes of the lanes of zda and zn and of lane i of each 128 bits of zm.
#[inline(always)]
pub fn plain_indexed<F: LaneWise3 + Drop>(
    vec: &mut VecRegs,
    e: u32,
    zda: Reg,
    zn: Reg,
    zm: Reg,
    i: u32,
    op: F,
)
    requires size { IsLaneSize e }
    requires within { i < 128 / e }
    ensures { vec.new ≡ model.every_lane e (λ k. F.entry op e (lane_of e vec.old zda k) (lane_of e vec.old zn k)
        (lane_of e vec.old zm (indexed_lane e i k))) zda vec.old }
{
    let za = zda;
    plain(vec, e, zda, &Indexed { op, i, za, zn, zm });
}

/// Writes what an operation makes of the lanes of zn and a number.
#[inline(never)]
pub fn plain_number<F: LaneWise2 + Drop>(vec: &mut VecRegs, e: u32, zd: Reg, zn: Reg, n: u64, op: F)
    requires { IsLaneSize e }
    ensures { vec.new ≡ model.every_lane e (λ k. F.entry op e (lane_of e vec.old zn k) n) zd vec.old }
{
    let op = WithNumber { op, n };
    plain(vec, e, zd, &Map1 { op, zn });
}

/// The same of zdn in its active lanes; the others keep their value.
#[inline(never)]
pub fn merging_number<F: LaneWise2 + Drop>(
    vec: &mut VecRegs,
    e: u32,
    pg: Pred,
    zdn: Reg,
    n: u64,
    op: F,
)
    requires { IsLaneSize e }
    ensures { vec.new ≡ model.merging e pg (λ k. F.entry op e (lane_of e vec.old zdn k) n) zdn vec.old }
{
    let op = WithNumber { op, n };
    merging(vec, e, pg, zdn, Map1 { op, zn: zdn });
}

/// Writes what an operation makes of the active lanes of zn; the others keep their value.
#[inline(never)]
pub fn merging_one<F: LaneWise1 + Drop>(
    vec: &mut VecRegs,
    e: u32,
    pg: Pred,
    zd: Reg,
    zn: Reg,
    op: F,
)
    requires { IsLaneSize e }
    ensures { vec.new ≡ model.merging e pg (λ k. F.entry op e (lane_of e vec.old zn k)) zd vec.old }
{
    merging(vec, e, pg, zd, Map1 { op, zn });
}

/// An operation of a lane of zn and the 64-bit lane of zm that covers it, as a shift by wider lanes is.
#[derive(Drop)]
pub struct Covered<F> {
    pub op: F,
    pub zn: Reg,
    pub zm: Reg,
}

impl<F: LaneWise2> Gives for Covered<F> {
    ghost value = { λ s e v k. F.entry s.op e (lane_of e v s.zn k) (covering_lane e v s.zm k) };
}

impl<F: LaneWise2> Local for Covered<F> {
    ghost local = { λ s e i k v w size at same. ap₂ (F.entry s.op e) (same_lane e i k s.zn v w size at same)
        (same_covering e i k s.zm v w at same) };
}

impl<T: Quad<W>, F: LaneWise2 + Copy, const W: usize> Chunks<T, W> for Covered<F> {
    /// 128 bits have two such numbers: the lower half of the lanes takes the first, the upper half the second.
    #[inline(always)]
    fn chunk(&self, vec: &VecRegs, i: u32) -> [T; W] {
        let _length = vec.length();
        let zn = self.zn;
        let first = vec.lane(self.zm, 64, 2 * i);
        let second = vec.lane(self.zm, 64, 2 * i + 1);
        let op = WithNumber {
            op: self.op,
            n: first,
        };
        let lower: [T; W] = Map1 { op, zn }.chunk(vec, i);
        let op = WithNumber {
            op: self.op,
            n: second,
        };
        let upper: [T; W] = Map1 { op, zn }.chunk(vec, i);
        T::merged(0x00FF, lower, upper)
    }
}

/// An operation of a lane of za, a lane of zn and lane i of zm of the same 128 bits; i is taken modulo the number of
/// their lanes.
#[derive(Drop)]
pub struct Indexed<F> {
    pub op: F,
    pub i: u32,
    pub za: Reg,
    pub zn: Reg,
    pub zm: Reg,
}

impl<F: LaneWise3> Gives for Indexed<F> {
    ghost value = { λ s e v k. F.entry s.op e (lane_of e v s.za k) (lane_of e v s.zn k)
        (lane_of e v s.zm (indexed_lane e (s.i % (128 / e)) k)) };
}

impl<F: LaneWise3> Local for Indexed<F> {
    ghost local = { λ s e i k v w size at same. ap₂ (λ (f : ℕ → ℕ) (z : ℕ). f z)
        (ap₂ (F.entry s.op e) (same_lane e i k s.za v w size at same) (same_lane e i k s.zn v w size at same))
        (same_indexed e i k s.zm s.i v w size at same) };
}

impl<T: Quad<W>, F: LaneWise3, const W: usize> Chunks<T, W> for Indexed<F> {
    #[inline(always)]
    fn chunk(&self, vec: &VecRegs, i: u32) -> [T; W] {
        let _length = vec.length();
        let _first = vec.z_words(self.za);
        let _second = vec.z_words(self.zn);
        let a: [T; W] = LaneOf { r: self.za }.chunk(vec, i);
        let b: [T; W] = LaneOf { r: self.zn }.chunk(vec, i);
        let width = W as u32;
        let n = vec.lane(self.zm, T::BITS, i * width + self.i % width);
        let c: [T; W] = Number { n }.chunk(vec, i);
        let made = Op3::<T, W>::chunk(
            &self.op,
            Simd::from_array(a),
            Simd::from_array(b),
            Simd::from_array(c),
        );
        made.to_array()
    }
}
