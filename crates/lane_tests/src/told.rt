//! Tests of the lanes of registers, 128 bits at a time, and the words of a predicate that they make.
ghost use Rattle.std.specs.Prelude.{
  ◌≡◌,
  ◌<◌,
  ◌≤◌,
  ◌+◌,
  ◌*◌,
  ◌/◌,
  ◌%◌,
  ◌^◌,
  ◌&&◌,
  ℕ,
  Bool,
  not,
  nat_eq,
  nat_lt,
  map,
  get_or,
  length,
  false,
};
ghost use Rattle.std.specs.Prelude.{[], ◌∷◌};
ghost use Rattle.std.specs.Simd.Lanes.{digits_l, number_l, mask_l};
ghost use Rattle.emu_bits.specs.Fields.{bit};
ghost use Rattle.emu_model.specs.State.{Vectors};
ghost use Rattle.lane_pack.specs.Bits.{is_set};
ghost use Rattle.sve_effects.specs.Lane.{extended_by};
ghost use Rattle.sve_effects.specs.LaneLoop.{lane_of, covering_lane};
ghost use Rattle.emu_model.specs.Lanes.{field_bit};
ghost use Rattle.emu_model.specs.LaneSizes.{IsLaneSize};
ghost use Rattle.vec_regs.specs.Words.{bit_of};

use emu_bits::{Reg, sign_extended};
use lane_kernels::{LaneWiseTest2, Test2};
use lane_pack::{Lane, Quad};
use register_lanes::{Chunks, LaneOf, Number};
use std::simd::Simd;
use std::simd::prelude::*;
use vec_regs::VecRegs;

/// Tells of lanes, each by its number alone.
pub trait Tells {
    /// The answer of lane k of e bits.
    ghost answer: { Self → ℕ → Vectors → ℕ → Bool };
}

/// Tells of the lanes of 128 bits at a time.
pub trait ToldChunks<T: Quad<W>, const W: usize>: Tells {
    /// W answers from lane i * W on.
    fn told(&self, vec: &VecRegs, i: u32) -> [bool; W]
        requires within { i < vec.now.bits / 128 }
        requires width { W ≤ 16 }
        ensures { (j : ℕ) → j < W → get_or result j false ≡ Self.answer self.now T.BITS vec.now (i * W + j) };
}

/// A test of the lanes of two registers.
#[derive(Drop)]
pub struct Compared<F> {
    pub op: F,
    pub zn: Reg,
    pub zm: Reg,
}

impl<F: LaneWiseTest2> Tells for Compared<F> {
    ghost answer = { λ s e v k. F.entry s.op e (lane_of e v s.zn k) (lane_of e v s.zm k) };
}

impl<T: Quad<W>, F: LaneWiseTest2, const W: usize> ToldChunks<T, W> for Compared<F> {
    #[inline(always)]
    fn told(&self, vec: &VecRegs, i: u32) -> [bool; W] {
        let _length = vec.length();
        let _first = vec.z_words(self.zn);
        let _second = vec.z_words(self.zm);
        let a: [T; W] = LaneOf { r: self.zn }.chunk(vec, i);
        let b: [T; W] = LaneOf { r: self.zm }.chunk(vec, i);
        Test2::<T, W>::chunk(&self.op, Simd::from_array(a), Simd::from_array(b))
    }
}

/// A test of the lanes of a register and a number, modulo 2^e.
#[derive(Drop)]
pub struct ComparedNumber<F> {
    pub op: F,
    pub zn: Reg,
    pub n: u64,
}

impl<F: LaneWiseTest2> Tells for ComparedNumber<F> {
    ghost answer = { λ s e v k. F.entry s.op e (lane_of e v s.zn k) (s.n % 2 ^ e) };
}

impl<T: Quad<W>, F: LaneWiseTest2, const W: usize> ToldChunks<T, W> for ComparedNumber<F> {
    #[inline(always)]
    fn told(&self, vec: &VecRegs, i: u32) -> [bool; W] {
        let _length = vec.length();
        let _first = vec.z_words(self.zn);
        let a: [T; W] = LaneOf { r: self.zn }.chunk(vec, i);
        let b: [T; W] = Number { n: self.n }.chunk(vec, i);
        Test2::<T, W>::chunk(&self.op, Simd::from_array(a), Simd::from_array(b))
    }
}

/// A test, at 64 bits, of the lanes of a register, extended by their sign or by zeros, and of the 64-bit lanes that
/// cover them.
#[derive(Drop)]
pub struct ComparedWide<F> {
    pub op: F,
    pub zn: Reg,
    pub zm: Reg,
    pub signed: bool,
}

impl<F: LaneWiseTest2> Tells for ComparedWide<F> {
    ghost answer = { λ s e v k. F.entry s.op 64 (extended_by s.signed 64 e (lane_of e v s.zn k))
        (covering_lane e v s.zm k) };
}

impl<T: Quad<W>, F: LaneWiseTest2, const W: usize> ToldChunks<T, W> for ComparedWide<F> {
    #[inline(always)]
    fn told(&self, vec: &VecRegs, i: u32) -> [bool; W] {
        let _length = vec.length();
        let _first = vec.z_words(self.zn);
        let _second = vec.z_words(self.zm);
        let a: [T; W] = LaneOf { r: self.zn }.chunk(vec, i);
        let b: [u64; 2] = LaneOf { r: self.zm }.chunk(vec, i);
        let mut told = [false; W];
        each_wide(&self.op, self.signed, &a, b, &mut told);
        told
    }
}

/// A lane extended to 64 bits, by its sign or by zeros.
#[inline(always)]
fn extended<T: Lane>(signed: bool, a: T) -> u64
    ensures { result ≡ extended_by signed 64 T.BITS (T.number a) }
{
    if signed {
        sign_extended(a.to_u64(), T::BITS, 64)
    } else {
        a.to_u64()
    }
}

/// The test of each lane of 128 bits, extended, and the 64-bit lane that covers it.
#[inline(always)]
fn each_wide<T: Lane, F: LaneWiseTest2>(
    op: &F,
    signed: bool,
    a: &[T],
    b: [u64; 2],
    told: &mut [bool],
)
    requires told { length told.old ≡ length a.now }
    requires width { length a.now * T.BITS ≡ 128 }
    ensures count { length told.new ≡ length told.old }
    ensures told { (j : ℕ) → j < length a.now → get_or told.new j false ≡ F.entry op.now 64
        (extended_by signed 64 T.BITS (get_or (map T.number a.now) j 0)) (get_or b (j * T.BITS / 64) 0) }
{
    for j in 0..a.len() {
        told[j] = op.one(extended(signed, a[j]), b[j * T::BITS as usize / 64]);
    }
}

/// Lanes that are 1 where told, else 0.
#[inline(always)]
fn ones_where<T: Lane>(told: &[bool], lanes: &mut [T])
    requires { length lanes.old ≡ length told.now }
    ensures count { length lanes.new ≡ length lanes.old }
    ensures lanes { (j : ℕ) → j < length told.now
        → get_or (map T.number lanes.new) j 0 ≡ bit (get_or told.now j false) % 2 ^ T.BITS }
{
    for j in 0..told.len() {
        lanes[j] = T::from_u64(u64::from(told[j]));
    }
}

/// Which of 16 bytes are not 0, by a bit each.
#[inline(always)]
fn mask_of(bytes: Simd<u8, 16>) -> u64
    ensures value { result ≡ mask_l (map (λ x. not (nat_eq x 0)) bytes) }
    ensures small { result < 2 ^ 16 }
{
    bytes.simd_ne(Simd::splat(0)).to_bitmask()
}

/// Which of the 16 bytes of two words are not 0, by a bit each.
#[inline(always)]
fn bytes_set(low: u64, high: u64) -> u16
    ensures { (s : ℕ) → s < 16
        → is_set result s ≡ not (nat_eq (get_or (low ∷ high ∷ []) (s / 8) 0 / 2 ^ (8 * (s % 8)) % 256) 0) }
{
    mask_of(Simd::from_array([low, high]).to_le_bytes()) as u16
}

/// The bits of a predicate for 128 bits of a register: the lowest bit of a lane's field is 1 where told, and all others
/// are 0.
#[inline(always)]
fn part_told<T: Quad<W>, const W: usize>(told: [bool; W]) -> u16
    ensures { (s : ℕ) → s < 16 → is_set result s ≡ field_bit (T.BITS / 8) (λ j. get_or told.entry j false) s }
{
    let mut lanes = Simd::splat(T::from_u64(0)).to_array();
    ones_where(&told, &mut lanes);
    let pair = T::packed(lanes);
    bytes_set(pair[0], pair[1])
}

/// Parts of 16 bits as the words of a predicate.
#[inline(always)]
fn joined(parts: [u16; 16]) -> [u64; 4]
    ensures { result ≡ digits_l (2 ^ 64) 4 (number_l (2 ^ 16) parts) }
{
    Simd::<u64, 4>::from_le_bytes(Simd::from_array(parts).to_le_bytes()).to_array()
}

/// The words of a predicate whose lanes are told.
#[inline(always)]
fn words_told<T: Quad<W>, L: ToldChunks<T, W>, const W: usize>(vec: &VecRegs, lanes: &L) -> [u64; 4]
    ensures { (b : ℕ) → bit_of result b
        ≡ (nat_lt b (vec.now.bits / 8) && field_bit (T.BITS / 8) (L.Tells.answer lanes.now T.BITS vec.now) b) }
{
    let _length = vec.length();
    let mut parts = [0u16; 16];
    for i in 0..vec.length().bits() / 128 {
        parts[i as usize] = part_told::<T, W>(lanes.told(vec, i));
    }
    joined(parts)
}

/// The words of a predicate whose lanes of e bits are told, of 8, 16, 32 or 64 bits: the lowest bit of a lane's field
/// is 1 where told, and all others are 0.
#[inline(always)]
pub fn told<L: ToldChunks<u8, 16> + ToldChunks<u16, 8> + ToldChunks<u32, 4> + ToldChunks<u64, 2>>(
    vec: &VecRegs,
    e: u32,
    lanes: &L,
) -> [u64; 4]
    requires { IsLaneSize e }
    ensures { (b : ℕ)
        → bit_of result b ≡ (nat_lt b (vec.now.bits / 8) && field_bit (e / 8) (L.Tells.answer lanes.now e vec.now) b) }
{
    match e {
        8 => words_told::<u8, L, 16>(vec, lanes),
        16 => words_told::<u16, L, 8>(vec, lanes),
        32 => words_told::<u32, L, 4>(vec, lanes),
        _ => words_told::<u64, L, 2>(vec, lanes),
    }
}
