//! Kernels over slices of lanes, with lawful operations that count their calls.
ghost use Rattle.std.specs.Prelude.{◌≡◌, ◌<◌, ◌≤◌, ◌+◌, ◌*◌, ◌++◌, ◌%◌, ◌^◌, map, nat_eq, take, drop, length};
ghost use Rattle.std.specs.Simd.Lanes.{zip2};
ghost use Rattle.lane_kernels.specs.Chunks.{zip3};

use lane_kernels::{LaneWiseFold, Op1, Op2, Op3, Test2, compare, fold, map1, map2, map3, select};
use lane_pack::Lane;
use std::cell::Cell;
use std::simd::Simd;

/// Calls of the lane function, and of the chunk function.
#[derive(Drop)]
struct Counted {
    lanes: Cell<u32>,
    chunks: Cell<u32>,
}

impl Counted {
    fn new() -> Counted {
        Counted {
            lanes: Cell::new(0),
            chunks: Cell::new(0),
        }
    }

    fn count_lane(&self) {
        self.lanes.set(self.lanes.get().wrapping_add(1));
    }

    fn count_chunk(&self) {
        self.chunks.set(self.chunks.get().wrapping_add(1));
    }

    /// The calls of the chunk function, and of the lane function.
    fn calls(&self) -> (u32, u32) {
        (self.chunks.get(), self.lanes.get())
    }
}

impl<const W: usize> Op1<u8, W> for Counted {
    ghost of = { λ _ a. (a + 1) % 2 ^ 8 };

    fn lane(&self, a: u8) -> u8 {
        self.count_lane();
        a.wrapping_add(1)
    }

    fn chunk(&self, a: Simd<u8, W>) -> Simd<u8, W>
        requires { (0 < W) × (W ≤ 64) }
        ensures { result ≡ map (λ x. (x + 1) % 2 ^ 8) a.entry }
    {
        self.count_chunk();
        a + Simd::splat(1)
    }
}

impl<const W: usize> Op2<u8, W> for Counted {
    ghost of = { λ _ a b. (a + b) % 2 ^ 8 };

    fn lane(&self, a: u8, b: u8) -> u8 {
        self.count_lane();
        a.wrapping_add(b)
    }

    fn chunk(&self, a: Simd<u8, W>, b: Simd<u8, W>) -> Simd<u8, W>
        ensures { result ≡ zip2 (λ x y. (x + y) % 2 ^ 8) a.entry b.entry }
    {
        self.count_chunk();
        a + b
    }
}

impl<const W: usize> Op3<u8, W> for Counted {
    ghost of = { λ _ a b c. ((a + b) % 2 ^ 8 + c) % 2 ^ 8 };

    fn lane(&self, a: u8, b: u8, c: u8) -> u8 {
        self.count_lane();
        a.wrapping_add(b).wrapping_add(c)
    }

    fn chunk(&self, a: Simd<u8, W>, b: Simd<u8, W>, c: Simd<u8, W>) -> Simd<u8, W>
        ensures { result ≡ zip3 (λ x y z. ((x + y) % 2 ^ 8 + z) % 2 ^ 8) a.entry b.entry c.entry }
    {
        self.count_chunk();
        a + b + c
    }
}

/// Whether the bytes of two lists are equal, one by one.
fn each_equal(a: &[u8], b: &[u8], out: &mut [bool])
    requires second { length b.now ≡ length a.now }
    requires out { length out.old ≡ length a.now }
    ensures { out.new ≡ zip2 nat_eq a.now b.now }
{
    for k in 0..a.len() {
        out[k] = a[k] == b[k];
    }
}

impl<const W: usize> Test2<u8, W> for Counted {
    ghost tells = { λ _ a b. nat_eq a b };

    fn lane(&self, a: u8, b: u8) -> bool {
        self.count_lane();
        a == b
    }

    fn chunk(&self, a: Simd<u8, W>, b: Simd<u8, W>) -> [bool; W]
        requires { (0 < W) × (W ≤ 64) }
        ensures { result ≡ zip2 nat_eq a.entry b.entry }
    {
        self.count_chunk();
        let a = a.to_array();
        let b = b.to_array();
        let mut out = [false; W];
        each_equal(&a, &b, &mut out);
        out
    }
}

/// Twice what it had and a lane, so that the order of lanes shows.
#[derive(Drop)]
struct Doubled;

impl LaneWiseFold for Doubled {
    ghost step = { λ _ e n a. (n * 2 % 2 ^ 64 + a) % 2 ^ 64 };

    fn one<T: Lane>(&self, so_far: u64, a: T) -> u64 {
        so_far.wrapping_mul(2).wrapping_add(a.to_u64())
    }
}

/// Two chunks and a lane of the first operand.
const A: [u8; 65] = [255; 65];

/// Two chunks and a lane of the other operands.
const B: [u8; 65] = [2; 65];

/// What an operation on one operand makes, and its calls.
fn mapped_one() -> ([u8; 65], (u32, u32)) {
    let mut out = [0; 65];
    let counted = Counted::new();
    map1::<u8, Counted, 32>(&counted, &A, &mut out);
    (out, counted.calls())
}

/// The same on two operands.
fn mapped_two() -> ([u8; 65], (u32, u32)) {
    let mut out = [0; 65];
    let counted = Counted::new();
    map2::<u8, Counted, 32>(&counted, &A, &B, &mut out);
    (out, counted.calls())
}

/// The same on three operands.
fn mapped_three() -> ([u8; 65], (u32, u32)) {
    let mut out = [0; 65];
    let counted = Counted::new();
    map3::<u8, Counted, 32>(&counted, &A, &B, &B, &mut out);
    (out, counted.calls())
}

/// What a test of two operands tells, and its calls.
fn compared() -> ([bool; 65], (u32, u32)) {
    let mut told = [false; 65];
    let counted = Counted::new();
    compare::<u8, Counted, 32>(&counted, &A, &A, &mut told);
    (told, counted.calls())
}

/// A mask of one lane of each chunk and of the lane behind them.
fn one_of_each() -> [bool; 65] {
    let mut mask = [false; 65];
    mask[0] = true;
    mask[33] = true;
    mask[64] = true;
    mask
}

/// Lanes of which the first is another than the rest.
fn folded_lanes() -> [u8; 65] {
    let mut lanes = B;
    lanes[0] = 255;
    lanes
}

/// The first operand where the mask is true, else the second.
fn selected() -> [u8; 65] {
    let mut out = [0; 65];
    select::<u8, 32>(&one_of_each(), &A, &B, &mut out);
    out
}

#[test]
fn two_chunks_and_a_lane(rt: HostRuntime) {
    assert_eq!(rt; mapped_one(), ([0; 65], (2, 1)));
    assert_eq!(rt; mapped_two(), ([1; 65], (2, 1)));
    assert_eq!(rt; mapped_three(), ([3; 65], (2, 1)));
    assert_eq!(rt; compared(), ([true; 65], (2, 1)));
    let mut picked = B;
    picked[0] = 255;
    picked[33] = 255;
    picked[64] = 255;
    assert_eq!(rt; selected(), picked);
    // ((1 * 2 + 255) * 2 + 2) * 2 + 2
    assert_eq!(rt;
        fold::<u8, Doubled, 32>(&Doubled, &one_of_each(), &folded_lanes(), 1),
        1034
    );
}

#[test]
fn no_lanes_no_calls(rt: HostRuntime) {
    let none = Counted::new();
    let mut out = [0u8; 0];
    let mut told = [false; 0];
    map1::<u8, Counted, 32>(&none, &[], &mut out);
    map2::<u8, Counted, 32>(&none, &[], &[], &mut out);
    map3::<u8, Counted, 32>(&none, &[], &[], &[], &mut out);
    compare::<u8, Counted, 32>(&none, &[], &[], &mut told);
    select::<u8, 32>(&[], &[], &[], &mut out);
    assert_eq!(rt; none.calls(), (0, 0));
    assert_eq!(rt; fold::<u8, Doubled, 32>(&Doubled, &[], &[], 7), 7);
}
