//! Operations that take a chunk lane by lane, each a function of the numbers of lanes.
ghost use Rattle.std.specs.Prelude.{◌≡◌, ◌<◌, ◌≤◌, ◌%◌, ◌^◌, ◌++◌, ℕ, Bool, map, take, drop, length};
ghost use Rattle.std.specs.Simd.Lanes.{zip2};
ghost use Rattle.lane_kernels.specs.Chunks.{taken, zip3};

use crate::kernels::{FoldOp, Op1, Op2, Op3, Test2};
use lane_pack::Lane;
use std::simd::Simd;

/// An operation on one lane of any width.
pub trait LaneWise1 {
    /// The number that it makes, of the bits of a lane and its number.
    ghost entry: { Self → ℕ → ℕ → ℕ };

    /// The lane of that number, modulo 2^BITS.
    fn one<T: Lane>(&self, a: T) -> T
        ensures { T.number result ≡ entry self.now T.BITS (T.number a) % 2 ^ T.BITS };
}

/// An operation on two lanes of any width.
pub trait LaneWise2 {
    /// The number that it makes, of the bits of a lane and two numbers.
    ghost entry: { Self → ℕ → ℕ → ℕ → ℕ };

    /// The lane of that number, modulo 2^BITS.
    fn one<T: Lane>(&self, a: T, b: T) -> T
        ensures { T.number result ≡ entry self.now T.BITS (T.number a) (T.number b) % 2 ^ T.BITS };

    /// The same of a lane and any number, as an immediate or the amount of a shift is.
    fn with_number<T: Lane>(&self, a: T, n: u64) -> T
        ensures { T.number result ≡ entry self.now T.BITS (T.number a) n % 2 ^ T.BITS };
}

/// An operation on three lanes of any width.
pub trait LaneWise3 {
    /// The number that it makes, of the bits of a lane and three numbers.
    ghost entry: { Self → ℕ → ℕ → ℕ → ℕ → ℕ };

    /// The lane of that number, modulo 2^BITS.
    fn one<T: Lane>(&self, a: T, b: T, c: T) -> T
        ensures { T.number result ≡ entry self.now T.BITS (T.number a) (T.number b) (T.number c) % 2 ^ T.BITS };
}

/// A step of a fold over lanes of any width.
pub trait LaneWiseFold {
    /// The next value, of the bits of a lane, the value so far and the lane's number.
    ghost step: { Self → ℕ → ℕ → ℕ → ℕ };

    fn one<T: Lane>(&self, so_far: u64, a: T) -> u64
        ensures { result ≡ step self.now T.BITS so_far (T.number a) };
}

/// What an operation makes of one lane.
#[inline(always)]
fn one1<T: Lane, F: LaneWise1>(op: &F, a: T) -> T
    ensures { result ≡ T.of_number (F.entry op.now T.BITS (T.number a)) }
{
    op.one(a)
}

/// What an operation makes of two lanes.
#[inline(always)]
fn one2<T: Lane, F: LaneWise2>(op: &F, a: T, b: T) -> T
    ensures { result ≡ T.of_number (F.entry op.now T.BITS (T.number a) (T.number b)) }
{
    op.one(a, b)
}

/// What an operation makes of three lanes.
#[inline(always)]
fn one3<T: Lane, F: LaneWise3>(op: &F, a: T, b: T, c: T) -> T
    ensures { result ≡ T.of_number (F.entry op.now T.BITS (T.number a) (T.number b) (T.number c)) }
{
    op.one(a, b, c)
}

impl<T: Lane, F: LaneWise1, const W: usize> Op1<T, W> for F {
    ghost of = { λ s a. T.of_number (F.entry s T.BITS (T.number a)) };

    #[inline(always)]
    fn lane(&self, a: T) -> T {
        one1(self, a)
    }

    #[inline(always)]
    fn chunk(&self, a: Simd<T, W>) -> Simd<T, W>
        requires { (0 < W) × (W ≤ 64) }
        ensures { result ≡ map (λ a. T.of_number (F.entry self.now T.BITS (T.number a))) a }
    {
        let a = a.to_array();
        let mut out = a;
        each1(self, &a, &mut out);
        Simd::from_array(out)
    }
}

#[inline(always)]
fn each1<T: Lane, F: LaneWise1>(op: &F, a: &[T], out: &mut [T])
    requires { length out.old ≡ length a.now }
    ensures { out.new ≡ map (λ a. T.of_number (F.entry op.now T.BITS (T.number a))) a.now }
{
    for k in 0..a.len() {
        out[k] = one1(op, a[k]);
    }
}

impl<T: Lane, F: LaneWise2, const W: usize> Op2<T, W> for F {
    ghost of = { λ s a b. T.of_number (F.entry s T.BITS (T.number a) (T.number b)) };

    #[inline(always)]
    fn lane(&self, a: T, b: T) -> T {
        one2(self, a, b)
    }

    #[inline(always)]
    fn chunk(&self, a: Simd<T, W>, b: Simd<T, W>) -> Simd<T, W>
        requires { (0 < W) × (W ≤ 64) }
        ensures { result ≡ zip2 (λ a b. T.of_number (F.entry self.now T.BITS (T.number a) (T.number b))) a b }
    {
        let a = a.to_array();
        let b = b.to_array();
        let mut out = a;
        each2(self, &a, &b, &mut out);
        Simd::from_array(out)
    }
}

#[inline(always)]
fn each2<T: Lane, F: LaneWise2>(op: &F, a: &[T], b: &[T], out: &mut [T])
    requires second { length b.now ≡ length a.now }
    requires out { length out.old ≡ length a.now }
    ensures { out.new ≡ zip2 (λ a b. T.of_number (F.entry op.now T.BITS (T.number a) (T.number b))) a.now b.now }
{
    for k in 0..a.len() {
        out[k] = one2(op, a[k], b[k]);
    }
}

impl<T: Lane, F: LaneWise3, const W: usize> Op3<T, W> for F {
    ghost of = { λ s a b c. T.of_number (F.entry s T.BITS (T.number a) (T.number b) (T.number c)) };

    #[inline(always)]
    fn lane(&self, a: T, b: T, c: T) -> T {
        one3(self, a, b, c)
    }

    #[inline(always)]
    fn chunk(&self, a: Simd<T, W>, b: Simd<T, W>, c: Simd<T, W>) -> Simd<T, W>
        requires { (0 < W) × (W ≤ 64) }
        ensures { result
            ≡ zip3 (λ a b c. T.of_number (F.entry self.now T.BITS (T.number a) (T.number b) (T.number c))) a b c }
    {
        let a = a.to_array();
        let b = b.to_array();
        let c = c.to_array();
        let mut out = a;
        each3(self, &a, &b, &c, &mut out);
        Simd::from_array(out)
    }
}

#[inline(always)]
fn each3<T: Lane, F: LaneWise3>(op: &F, a: &[T], b: &[T], c: &[T], out: &mut [T])
    requires second { length b.now ≡ length a.now }
    requires third { length c.now ≡ length a.now }
    requires out { length out.old ≡ length a.now }
    ensures { out.new
        ≡ zip3 (λ a b c. T.of_number (F.entry op.now T.BITS (T.number a) (T.number b) (T.number c))) a.now b.now c.now }
{
    for k in 0..a.len() {
        out[k] = one3(op, a[k], b[k], c[k]);
    }
}

impl<T: Lane, F: LaneWiseFold, const W: usize> FoldOp<T, W> for F {
    ghost takes = { λ s n a. F.step s T.BITS n (T.number a) };

    #[inline(always)]
    fn lane(&self, so_far: u64, a: T) -> u64 {
        self.one(so_far, a)
    }

    #[inline(always)]
    fn chunk(&self, so_far: u64, mask: [bool; W], a: Simd<T, W>) -> u64
        requires { (0 < W) × (W ≤ 64) }
        ensures { result ≡ taken (λ n a. F.step self.now T.BITS n (T.number a)) so_far mask.entry a }
    {
        let a = a.to_array();
        each_taken(self, so_far, &mask, &a)
    }
}

#[inline(always)]
fn each_taken<T: Lane, F: LaneWiseFold>(op: &F, start: u64, mask: &[bool], a: &[T]) -> u64
    requires { length mask.now ≡ length a.now }
    ensures { result ≡ taken (λ n a. F.step op.now T.BITS n (T.number a)) start mask.now a.now }
{
    let mut so_far = start;
    for k in 0..a.len() {
        let lane = a[k];
        if mask[k] {
            so_far = op.one(so_far, lane);
        }
    }
    so_far
}

/// A test of two lanes of any width.
pub trait LaneWiseTest2 {
    /// The answer, of the bits of a lane and two numbers.
    ghost entry: { Self → ℕ → ℕ → ℕ → Bool };

    fn one<T: Lane>(&self, a: T, b: T) -> bool
        ensures { result ≡ entry self.now T.BITS (T.number a) (T.number b) };
}

impl<T: Lane, F: LaneWiseTest2, const W: usize> Test2<T, W> for F {
    ghost tells = { λ s a b. F.entry s T.BITS (T.number a) (T.number b) };

    #[inline(always)]
    fn lane(&self, a: T, b: T) -> bool {
        self.one(a, b)
    }

    #[inline(always)]
    fn chunk(&self, a: Simd<T, W>, b: Simd<T, W>) -> [bool; W]
        requires { (0 < W) × (W ≤ 64) }
        ensures { result ≡ zip2 (λ a b. F.entry self.now T.BITS (T.number a) (T.number b)) a b }
    {
        let a = a.to_array();
        let b = b.to_array();
        let mut out = [false; W];
        each_tested(self, &a, &b, &mut out);
        out
    }
}

#[inline(always)]
fn each_tested<T: Lane, F: LaneWiseTest2>(op: &F, a: &[T], b: &[T], out: &mut [bool])
    requires second { length b.now ≡ length a.now }
    requires out { length out.old ≡ length a.now }
    ensures { out.new ≡ zip2 (λ a b. F.entry op.now T.BITS (T.number a) (T.number b)) a.now b.now }
{
    for k in 0..a.len() {
        out[k] = op.one(a[k], b[k]);
    }
}
