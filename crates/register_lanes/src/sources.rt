//! What gives the lanes of a register 128 bits at a time: registers, operations of their lanes, and choices by a
//! predicate.
ghost use Rattle.std.specs.Prelude.{◌≡◌, ◌<◌, ◌≤◌, ◌+◌, ◌*◌, ◌/◌, ◌%◌, ◌^◌, ℕ, map, get_or, if◌then◌else◌, refl};
ghost use Rattle.std.proofs.Common.{ap, ap₂};
ghost use Rattle.std.specs.Prelude.{[], ◌∷◌};
ghost use Rattle.std.specs.Simd.Lanes.{digits_l, number_l};
ghost use Rattle.register_lanes.specs.Parts.{same_lane, same_active, same_choice};
ghost use Rattle.lane_pack.specs.Bits.{is_set};
ghost use Rattle.sve_effects.specs.LaneLoop.{is_active, lane_of};
ghost use Rattle.emu_model.specs.LaneSizes.{IsLaneSize};

use crate::loops::{Chunks, Gives, Local};
use emu_bits::{Pred, Reg};
use lane_kernels::{LaneWise1, LaneWise2, LaneWise3, Op1, Op2, Op3};
use lane_pack::Quad;
use std::simd::Simd;
use vec_regs::VecRegs;

/// The lanes of a register.
#[derive(Clone, Copy)]
pub struct LaneOf {
    pub r: Reg,
}

impl Gives for LaneOf {
    ghost value = { λ s e v k. lane_of e v s.r k };
}

impl Local for LaneOf {
    ghost local = { λ s e i k v w size at same. same_lane e i k s.r v w size at same };
}

impl<T: Quad<W>, const W: usize> Chunks<T, W> for LaneOf {
    #[inline(always)]
    fn chunk(&self, vec: &VecRegs, i: u32) -> [T; W] {
        let _length = vec.length();
        let words = vec.z_words(self.r);
        let pair = pair_of(words, i);
        lanes_of(pair[0], pair[1])
    }
}

/// The two words of part i of a register, its 128 bits from 128 * i on, by one load of both.
#[inline(always)]
fn pair_of(words: &[u64; 32], i: u32) -> [u64; 2]
    requires { i < 16 }
    ensures low { get_or result 0 0 ≡ get_or words.now (2 * i) 0 }
    ensures high { get_or result 1 0 ≡ get_or words.now (2 * i + 1) 0 }
{
    Simd::<u64, 2>::from_slice(&words[2 * i as usize..]).to_array()
}

/// The lanes of two words, the first the lower.
#[inline(always)]
fn lanes_of<T: Quad<W>, const W: usize>(low: u64, high: u64) -> [T; W]
    ensures lanes { map T.number result ≡ digits_l (2 ^ T.BITS) W (number_l (2 ^ 64) (low ∷ high ∷ [])) }
    ensures first { low < 2 ^ 64 }
    ensures second { high < 2 ^ 64 }
{
    T::unpacked([low, high])
}

/// One number for all lanes.
#[derive(Clone, Copy)]
pub struct Number {
    pub n: u64,
}

impl Gives for Number {
    ghost value = { λ s e v k. s.n };
}

impl Local for Number {
    ghost local = { λ s e i k v w size at same. refl };
}

impl<T: Quad<W>, const W: usize> Chunks<T, W> for Number {
    #[inline(always)]
    fn chunk(&self, _vec: &VecRegs, _i: u32) -> [T; W] {
        let lane = T::from_u64(self.n);
        Simd::splat(lane).to_array()
    }
}

/// An operation of the lanes of a register.
#[derive(Drop)]
pub struct Map1<F> {
    pub op: F,
    pub zn: Reg,
}

impl<F: LaneWise1> Gives for Map1<F> {
    ghost value = { λ s e v k. F.entry s.op e (lane_of e v s.zn k) };
}

impl<F: LaneWise1> Local for Map1<F> {
    ghost local = { λ s e i k v w size at same. ap (F.entry s.op e) (same_lane e i k s.zn v w size at same) };
}

impl<T: Quad<W>, F: LaneWise1, const W: usize> Chunks<T, W> for Map1<F> {
    #[inline(always)]
    fn chunk(&self, vec: &VecRegs, i: u32) -> [T; W] {
        let _length = vec.length();
        let _first = vec.z_words(self.zn);
        let a: [T; W] = LaneOf { r: self.zn }.chunk(vec, i);
        let made = Op1::<T, W>::chunk(&self.op, Simd::from_array(a));
        made.to_array()
    }
}

/// An operation of the lanes of two registers.
#[derive(Drop)]
pub struct Map2<F> {
    pub op: F,
    pub zn: Reg,
    pub zm: Reg,
}

impl<F: LaneWise2> Gives for Map2<F> {
    ghost value = { λ s e v k. F.entry s.op e (lane_of e v s.zn k) (lane_of e v s.zm k) };
}

impl<F: LaneWise2> Local for Map2<F> {
    ghost local = { λ s e i k v w size at same. ap₂ (F.entry s.op e) (same_lane e i k s.zn v w size at same)
        (same_lane e i k s.zm v w size at same) };
}

impl<T: Quad<W>, F: LaneWise2, const W: usize> Chunks<T, W> for Map2<F> {
    #[inline(always)]
    fn chunk(&self, vec: &VecRegs, i: u32) -> [T; W] {
        let _length = vec.length();
        let _first = vec.z_words(self.zn);
        let _second = vec.z_words(self.zm);
        let a: [T; W] = LaneOf { r: self.zn }.chunk(vec, i);
        let b: [T; W] = LaneOf { r: self.zm }.chunk(vec, i);
        let made = Op2::<T, W>::chunk(&self.op, Simd::from_array(a), Simd::from_array(b));
        made.to_array()
    }
}

/// An operation of the lanes of three registers.
#[derive(Drop)]
pub struct Map3<F> {
    pub op: F,
    pub za: Reg,
    pub zn: Reg,
    pub zm: Reg,
}

impl<F: LaneWise3> Gives for Map3<F> {
    ghost value = { λ s e v k. F.entry s.op e (lane_of e v s.za k) (lane_of e v s.zn k) (lane_of e v s.zm k) };
}

impl<F: LaneWise3> Local for Map3<F> {
    ghost local = { λ s e i k v w size at same. ap₂ (λ (f : ℕ → ℕ) (z : ℕ). f z)
        (ap₂ (F.entry s.op e) (same_lane e i k s.za v w size at same) (same_lane e i k s.zn v w size at same))
        (same_lane e i k s.zm v w size at same) };
}

impl<T: Quad<W>, F: LaneWise3, const W: usize> Chunks<T, W> for Map3<F> {
    #[inline(always)]
    fn chunk(&self, vec: &VecRegs, i: u32) -> [T; W] {
        let _length = vec.length();
        let _first = vec.z_words(self.za);
        let _second = vec.z_words(self.zn);
        let _third = vec.z_words(self.zm);
        let a: [T; W] = LaneOf { r: self.za }.chunk(vec, i);
        let b: [T; W] = LaneOf { r: self.zn }.chunk(vec, i);
        let c: [T; W] = LaneOf { r: self.zm }.chunk(vec, i);
        let made = Op3::<T, W>::chunk(
            &self.op,
            Simd::from_array(a),
            Simd::from_array(b),
            Simd::from_array(c),
        );
        made.to_array()
    }
}

/// The lanes of zn where active, else of zm.
#[derive(Clone, Copy)]
pub struct Select {
    pub pg: Pred,
    pub zn: Reg,
    pub zm: Reg,
}

impl Gives for Select {
    ghost value = { λ s e v k. if is_active e v s.pg k then lane_of e v s.zn k else lane_of e v s.zm k };
}

impl Local for Select {
    ghost local = { λ s e i k v w size at same. same_choice (is_active e v s.pg k)
        (is_active e w s.pg k) (lane_of e v s.zn k) (lane_of e v s.zm k) (lane_of e w s.zn k)
        (lane_of e w s.zm k) (same_active e i k s.pg v w same) (same_lane e i k s.zn v w size at same)
        (same_lane e i k s.zm v w size at same) };
}

impl<T: Quad<W>, const W: usize> Chunks<T, W> for Select {
    #[inline(always)]
    fn chunk(&self, vec: &VecRegs, i: u32) -> [T; W] {
        let new: [T; W] = LaneOf { r: self.zn }.chunk(vec, i);
        let old: [T; W] = LaneOf { r: self.zm }.chunk(vec, i);
        T::merged(part_of(vec, self.pg, i), new, old)
    }
}

/// The active lanes of others; an inactive lane is that of zd.
#[derive(Drop)]
pub struct Merged<L> {
    pub pg: Pred,
    pub zd: Reg,
    pub lanes: L,
}

impl<L: Gives> Gives for Merged<L> {
    ghost value = { λ s e v k. if is_active e v s.pg k then L.value s.lanes e v k else lane_of e v s.zd k };
}

impl<L: Local> Local for Merged<L> {
    ghost local = { λ s e i k v w size at same. same_choice (is_active e v s.pg k) (is_active e w s.pg k)
        (L.Gives.value s.lanes e v k) (lane_of e v s.zd k) (L.Gives.value s.lanes e w k)
        (lane_of e w s.zd k) (same_active e i k s.pg v w same) (L.local s.lanes e i k v w size at same)
        (same_lane e i k s.zd v w size at same) };
}

impl<T: Quad<W>, L: Chunks<T, W>, const W: usize> Chunks<T, W> for Merged<L> {
    #[inline(always)]
    fn chunk(&self, vec: &VecRegs, i: u32) -> [T; W] {
        let new: [T; W] = self.lanes.chunk(vec, i);
        let old: [T; W] = LaneOf { r: self.zd }.chunk(vec, i);
        T::merged(part_of(vec, self.pg, i), new, old)
    }
}

/// An operation of the lanes of three registers, the first the destination, in its active lanes; the others are kept.
#[derive(Drop)]
pub struct Updated<F> {
    pub op: F,
    pub pg: Pred,
    pub zd: Reg,
    pub zn: Reg,
    pub zm: Reg,
}

impl<F: LaneWise3> Gives for Updated<F> {
    ghost value = { λ s e v k. if is_active e v s.pg k
        then F.entry s.op e (lane_of e v s.zd k) (lane_of e v s.zn k) (lane_of e v s.zm k) else lane_of e v s.zd k };
}

impl<F: LaneWise3> Local for Updated<F> {
    ghost local = { λ s e i k v w size at same. same_choice (is_active e v s.pg k) (is_active e w s.pg k)
        (F.entry s.op e (lane_of e v s.zd k) (lane_of e v s.zn k) (lane_of e v s.zm k)) (lane_of e v s.zd k)
        (F.entry s.op e (lane_of e w s.zd k) (lane_of e w s.zn k) (lane_of e w s.zm k))
        (lane_of e w s.zd k) (same_active e i k s.pg v w same) (ap₂ (λ (f : ℕ → ℕ) (z : ℕ). f z)
        (ap₂ (F.entry s.op e) (same_lane e i k s.zd v w size at same) (same_lane e i k s.zn v w size at same))
        (same_lane e i k s.zm v w size at same))
        (same_lane e i k s.zd v w size at same) };
}

impl<T: Quad<W>, F: LaneWise3, const W: usize> Chunks<T, W> for Updated<F> {
    /// The destination is read once, as an operand and for the lanes that are kept.
    #[inline(always)]
    fn chunk(&self, vec: &VecRegs, i: u32) -> [T; W] {
        let _length = vec.length();
        let _first = vec.z_words(self.zd);
        let _second = vec.z_words(self.zn);
        let _third = vec.z_words(self.zm);
        let a: [T; W] = LaneOf { r: self.zd }.chunk(vec, i);
        let b: [T; W] = LaneOf { r: self.zn }.chunk(vec, i);
        let c: [T; W] = LaneOf { r: self.zm }.chunk(vec, i);
        let made = Op3::<T, W>::chunk(
            &self.op,
            Simd::from_array(a),
            Simd::from_array(b),
            Simd::from_array(c),
        );
        T::merged(part_of(vec, self.pg, i), made.to_array(), a)
    }
}

/// The active lanes of others; an inactive lane is 0.
#[derive(Drop)]
pub struct Zeroed<L> {
    pub pg: Pred,
    pub lanes: L,
}

impl<L: Gives> Gives for Zeroed<L> {
    ghost value = { λ s e v k. if is_active e v s.pg k then L.value s.lanes e v k else 0 };
}

impl<L: Local> Local for Zeroed<L> {
    ghost local = { λ s e i k v w size at same. same_choice (is_active e v s.pg k) (is_active e w s.pg k)
        (L.Gives.value s.lanes e v k) 0 (L.Gives.value s.lanes e w k) 0 (same_active e i k s.pg v w same)
        (L.local s.lanes e i k v w size at same) refl };
}

impl<T: Quad<W>, L: Chunks<T, W>, const W: usize> Chunks<T, W> for Zeroed<L> {
    #[inline(always)]
    fn chunk(&self, vec: &VecRegs, i: u32) -> [T; W] {
        let new: [T; W] = self.lanes.chunk(vec, i);
        let old: [T; W] = Number { n: 0 }.chunk(vec, i);
        T::merged(part_of(vec, self.pg, i), new, old)
    }
}

/// The bits of a predicate for 128 bits of a register.
#[inline(always)]
pub fn part_of(vec: &VecRegs, pg: Pred, i: u32) -> u16
    requires { i < vec.now.bits / 128 }
    // whatever the lanes of 128 bits
    ensures { (e w j : ℕ) → IsLaneSize e → w * e ≡ 128 → j < w
        → is_set result (j * (e / 8)) ≡ is_active e vec.now pg (i * w + j) }
{
    let _length = vec.length();
    let words = vec.p_words(pg);
    ((words[i as usize / 4] >> (16 * (i % 4))) % 0x1_0000) as u16
}
