//! Permutes of which 128 bits of each source, or of both, make 128 bits of the result.
ghost use Rattle.std.specs.Prelude.{
  ◌≡◌,
  ◌<◌,
  ◌≤◌,
  ◌+◌,
  ◌*◌,
  ◌/◌,
  ◌%◌,
  ◌^◌,
  ℕ,
  map,
  get_or,
  nat_eq,
  nat_lt,
  if◌then◌else◌,
};
ghost use Rattle.emu_bits.specs.Fields.{bit};
ghost use Rattle.sve_effects.specs.LaneLoop.{lane_of};
ghost use Rattle.sve_effects.specs.Permute.{
  taken,
  concatenated,
  zip_place,
  uzp_place,
  trn_place,
  rev_place,
  insr_place,
  ext_place,
};

use emu_bits::Reg;
use lane_pack::{Lane, Quad};
use lane_permute::{insr, rev, trn, uzp, window, zip};
use register_lanes::{Chunks, Gives, LaneOf, Number};
use vec_regs::VecRegs;

/// The lanes of two registers in turn: of their low halves, or of their high halves where `second` is true.
#[derive(Clone, Copy)]
pub(crate) struct Zipped {
    pub(crate) second: bool,
    pub(crate) zn: Reg,
    pub(crate) zm: Reg,
}

impl Gives for Zipped {
    ghost value = { λ s e v k. taken (lane_of e v s.zn) (lane_of e v s.zm) 0 0 (zip_place s.second (v.bits / e) k) };
}

impl<T: Quad<W>, const W: usize> Chunks<T, W> for Zipped {
    #[inline(always)]
    fn chunk(&self, vec: &VecRegs, i: u32) -> [T; W] {
        let half = half_of(self.second, vec.length().bits() / 128, i);
        let a: [T; W] = LaneOf { r: self.zn }.chunk(vec, half / 2);
        let b: [T; W] = LaneOf { r: self.zm }.chunk(vec, half / 2);
        let mut out = a;
        zip(&a, &b, half % 2 == 1, &mut out);
        out
    }
}

/// The even lanes of two registers one after the other, or the odd lanes where `second` is true.
#[derive(Clone, Copy)]
pub(crate) struct Unzipped {
    pub(crate) second: bool,
    pub(crate) zn: Reg,
    pub(crate) zm: Reg,
}

impl Gives for Unzipped {
    ghost value = { λ s e v k. taken (lane_of e v s.zn) (lane_of e v s.zm) 0 0 (uzp_place s.second (v.bits / e) k) };
}

impl<T: Quad<W>, const W: usize> Chunks<T, W> for Unzipped {
    #[inline(always)]
    fn chunk(&self, vec: &VecRegs, i: u32) -> [T; W] {
        let _length = vec.length();
        let a: [T; W] = joined_quad(vec, self.zn, self.zm, 2 * i);
        let b: [T; W] = joined_quad(vec, self.zn, self.zm, 2 * i + 1);
        let mut out = a;
        uzp(&a, &b, self.second, &mut out);
        out
    }
}

/// The even lanes of two registers in turn, or the odd lanes where `second` is true.
#[derive(Clone, Copy)]
pub(crate) struct Transposed {
    pub(crate) second: bool,
    pub(crate) zn: Reg,
    pub(crate) zm: Reg,
}

impl Gives for Transposed {
    ghost value = { λ s e v k. taken (lane_of e v s.zn) (lane_of e v s.zm) 0 0 (trn_place s.second k) };
}

impl<T: Quad<W>, const W: usize> Chunks<T, W> for Transposed {
    #[inline(always)]
    fn chunk(&self, vec: &VecRegs, i: u32) -> [T; W] {
        let a: [T; W] = LaneOf { r: self.zn }.chunk(vec, i);
        let b: [T; W] = LaneOf { r: self.zm }.chunk(vec, i);
        let mut out = a;
        trn(&a, &b, self.second, &mut out);
        out
    }
}

/// The lanes of a register in reverse order.
#[derive(Clone, Copy)]
pub(crate) struct Reversed {
    pub(crate) zn: Reg,
}

impl Gives for Reversed {
    ghost value = { λ s e v k. taken (lane_of e v s.zn) (lane_of e v s.zn) 0 0 (rev_place (v.bits / e) k) };
}

impl<T: Quad<W>, const W: usize> Chunks<T, W> for Reversed {
    #[inline(always)]
    fn chunk(&self, vec: &VecRegs, i: u32) -> [T; W] {
        let a: [T; W] = LaneOf { r: self.zn }.chunk(vec, vec.length().bits() / 128 - 1 - i);
        let mut out = a;
        rev(&a, &mut out);
        out
    }
}

/// The lanes of a register moved up by one, and a scalar below them.
#[derive(Clone, Copy)]
pub(crate) struct Inserted {
    pub(crate) scalar: u64,
    pub(crate) zn: Reg,
}

impl Gives for Inserted {
    ghost value = { λ s e v k. taken (lane_of e v s.zn) (lane_of e v s.zn) s.scalar 0 (insr_place k) };
}

impl<T: Quad<W>, const W: usize> Chunks<T, W> for Inserted {
    #[inline(always)]
    fn chunk(&self, vec: &VecRegs, i: u32) -> [T; W] {
        let _length = vec.length();
        let a: [T; W] = LaneOf { r: self.zn }.chunk(vec, i);
        let low: T = lane_below(vec, self.scalar, self.zn, i * W as u32);
        let mut out = a;
        insr(&a, low, &mut out);
        out
    }
}

/// The lanes from lane `from` on of two registers one after the other; from lane 0 on where there is no such lane.
#[derive(Clone, Copy)]
pub(crate) struct Extracted {
    pub(crate) from: u32,
    pub(crate) zn: Reg,
    pub(crate) zm: Reg,
}

impl Gives for Extracted {
    ghost value = { λ s e v k. taken (lane_of e v s.zn) (lane_of e v s.zm) 0 0 (ext_place s.from (v.bits / e) k) };
}

impl<T: Quad<W>, const W: usize> Chunks<T, W> for Extracted {
    #[inline(always)]
    fn chunk(&self, vec: &VecRegs, i: u32) -> [T; W] {
        let start = start_of(self.from, vec.length().bits() / T::BITS);
        let at = i + start / W as u32;
        let a: [T; W] = joined_quad(vec, self.zn, self.zm, at);
        let b: [T; W] = joined_quad(vec, self.zn, self.zm, at + 1);
        window(&a, &b, start as usize % W)
    }
}

/// Two numbers in turn.
#[derive(Clone, Copy)]
pub(crate) struct Turns {
    pub(crate) low: u64,
    pub(crate) high: u64,
}

impl Gives for Turns {
    ghost value = { λ s e v k. if nat_eq (k % 2) 0 then s.low else s.high };
}

impl<T: Quad<W>, const W: usize> Chunks<T, W> for Turns {
    #[inline(always)]
    fn chunk(&self, vec: &VecRegs, i: u32) -> [T; W] {
        let a: [T; W] = Number { n: self.low }.chunk(vec, i);
        let b: [T; W] = Number { n: self.high }.chunk(vec, i);
        let mut out = a;
        zip(&a, &b, false, &mut out);
        out
    }
}

/// The 64 bits of each source that 128 bits of lanes in turn come from: of the low half of the source, or of its high
/// half.
#[inline(always)]
fn half_of(second: bool, quads: u32, i: u32) -> u32
    requires within { i < quads }
    requires most { quads ≤ 16 }
    ensures value { result ≡ bit second * quads + i }
    ensures within { result / 2 < quads }
{
    if second { quads + i } else { i }
}

/// A number of a lane of n, or 0 where there is no such lane.
#[inline(always)]
fn start_of(from: u32, n: u32) -> u32
    requires { 0 < n }
    ensures value { result ≡ (if nat_lt from n then from else 0) }
    ensures within { result < n }
{
    if from < n { from } else { 0 }
}

/// The lanes of 128 bits of two registers one after the other.
#[inline(always)]
fn joined_quad<T: Quad<W>, const W: usize>(vec: &VecRegs, zn: Reg, zm: Reg, at: u32) -> [T; W]
    requires within { at < 2 * (vec.now.bits / 128) }
    requires width { W ≤ 16 }
    ensures { (t : ℕ) → t < W → get_or (map T.number result) t 0 ≡ taken (lane_of T.BITS vec.now zn)
        (lane_of T.BITS vec.now zm) 0 0 (concatenated (vec.now.bits / T.BITS) (at * W + t)) % 2 ^ T.BITS }
{
    let quads = vec.length().bits() / 128;
    if at < quads {
        LaneOf { r: zn }.chunk(vec, at)
    } else {
        LaneOf { r: zm }.chunk(vec, at - quads)
    }
}

/// The lane below lane k of a register, or a scalar below lane 0.
#[inline(always)]
fn lane_below<T: Lane>(vec: &VecRegs, scalar: u64, zn: Reg, k: u32) -> T
    requires { k < vec.now.bits / T.BITS }
    ensures { T.number result
        ≡ taken (lane_of T.BITS vec.now zn) (lane_of T.BITS vec.now zn) scalar 0 (insr_place k) % 2 ^ T.BITS }
{
    T::from_u64(if k == 0 {
        scalar
    } else {
        vec.lane(zn, T::BITS, k - 1)
    })
}
