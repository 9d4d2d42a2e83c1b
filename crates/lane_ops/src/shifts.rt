//! Shifts of lanes by any unsigned amount.
ghost use Rattle.std.specs.Prelude.{◌≡◌, ◌<◌, ◌%◌, ◌^◌};
ghost use Rattle.emu_bits.specs.Operations.{lsl, lsr, asr};
ghost use Rattle.sve_effects.specs.declared.lane_functions.LaneOp.{LaneOp};
ghost use Rattle.sve_effects.specs.Lane.{lane_op};
ghost use Rattle.emu_model.specs.LaneSizes.{IsLaneSize};

use lane_kernels::LaneWise2;
use lane_pack::Lane;
use sve_elements::{LaneOp, apply};

/// A lane of e bits shifted to the left by fewer.
#[inline(always)]
fn shifted_left(e: u32, a: u64, n: u64) -> u64
    requires size { IsLaneSize e }
    requires lane { a < 2 ^ e }
    requires near { n < e }
    ensures { result ≡ lsl e a n }
{
    match e {
        8 => u64::from((a as u8) << n),
        16 => u64::from((a as u16) << n),
        32 => u64::from((a as u32) << n),
        _ => a << n,
    }
}

/// A lane of e bits shifted to the right by fewer, with zeros above.
#[inline(always)]
fn shifted_right(e: u32, a: u64, n: u64) -> u64
    requires size { IsLaneSize e }
    requires lane { a < 2 ^ e }
    requires near { n < e }
    ensures { result ≡ lsr a n }
{
    match e {
        8 => u64::from((a as u8) >> n),
        16 => u64::from((a as u16) >> n),
        32 => u64::from((a as u32) >> n),
        _ => a >> n,
    }
}

/// A lane of e bits shifted to the right by fewer, with copies of the top bit above.
#[inline(always)]
fn shifted_signed(e: u32, a: u64, n: u64) -> u64
    requires size { IsLaneSize e }
    requires lane { a < 2 ^ e }
    requires near { n < e }
    ensures { result ≡ asr e a n }
{
    match e {
        8 => u64::from(((a as u8).cast_signed() >> n).cast_unsigned()),
        16 => u64::from(((a as u16).cast_signed() >> n).cast_unsigned()),
        32 => u64::from(((a as u32).cast_signed() >> n).cast_unsigned()),
        _ => (a.cast_signed() >> n).cast_unsigned(),
    }
}

/// A lane shifted to the right by any amount, with copies of the top bit above.
#[inline(always)]
fn right_signed<T: Lane>(a: T, n: u64) -> T
    ensures { T.number result ≡ lane_op LaneOp.Asr T.BITS (T.number a) n % 2 ^ T.BITS }
{
    let most = u64::from(T::BITS - 1);
    T::from_u64(shifted_signed(T::BITS, a.to_u64(), n.min(most)))
}

/// A lane shifted to the right by any amount, with zeros above.
#[inline(always)]
fn right<T: Lane>(a: T, n: u64) -> T
    ensures { T.number result ≡ lane_op LaneOp.Lsr T.BITS (T.number a) n % 2 ^ T.BITS }
{
    let lane = a.to_u64();
    if n < u64::from(T::BITS) {
        T::from_u64(shifted_right(T::BITS, lane, n))
    } else {
        T::from_u64(0)
    }
}

/// A lane shifted to the left by any amount.
#[inline(always)]
fn left<T: Lane>(a: T, n: u64) -> T
    ensures { T.number result ≡ lane_op LaneOp.Lsl T.BITS (T.number a) n % 2 ^ T.BITS }
{
    let lane = a.to_u64();
    if n < u64::from(T::BITS) {
        T::from_u64(shifted_left(T::BITS, lane, n))
    } else {
        T::from_u64(0)
    }
}

/// The first shifted to the right, with copies of the top bit above, by the second.
#[derive(Clone, Copy)]
pub struct Asr;

impl LaneWise2 for Asr {
    ghost entry = { λ _ e a b. lane_op LaneOp.Asr e a b };

    #[inline(always)]
    fn one<T: Lane>(&self, a: T, b: T) -> T {
        right_signed(a, b.to_u64())
    }

    #[inline(always)]
    fn with_number<T: Lane>(&self, a: T, n: u64) -> T {
        right_signed(a, n)
    }
}

/// The first shifted to the right, with zeros above, by the second.
#[derive(Clone, Copy)]
pub struct Lsr;

impl LaneWise2 for Lsr {
    ghost entry = { λ _ e a b. lane_op LaneOp.Lsr e a b };

    #[inline(always)]
    fn one<T: Lane>(&self, a: T, b: T) -> T {
        right(a, b.to_u64())
    }

    #[inline(always)]
    fn with_number<T: Lane>(&self, a: T, n: u64) -> T {
        right(a, n)
    }
}

/// The first shifted to the left, by the second.
#[derive(Clone, Copy)]
pub struct Lsl;

impl LaneWise2 for Lsl {
    ghost entry = { λ _ e a b. lane_op LaneOp.Lsl e a b };

    #[inline(always)]
    fn one<T: Lane>(&self, a: T, b: T) -> T {
        left(a, b.to_u64())
    }

    #[inline(always)]
    fn with_number<T: Lane>(&self, a: T, n: u64) -> T {
        left(a, n)
    }
}

/// The second shifted to the right, with copies of the top bit above, by the first.
#[derive(Clone, Copy)]
pub struct Asrr;

impl LaneWise2 for Asrr {
    ghost entry = { λ _ e a b. lane_op LaneOp.Asr e b a };

    #[inline(always)]
    fn one<T: Lane>(&self, a: T, b: T) -> T {
        Asr.one(b, a)
    }

    #[inline(always)]
    fn with_number<T: Lane>(&self, a: T, n: u64) -> T {
        T::from_u64(apply(LaneOp::Asr, T::BITS, n, a.to_u64()))
    }
}

/// The second shifted to the right, with zeros above, by the first.
#[derive(Clone, Copy)]
pub struct Lsrr;

impl LaneWise2 for Lsrr {
    ghost entry = { λ _ e a b. lane_op LaneOp.Lsr e b a };

    #[inline(always)]
    fn one<T: Lane>(&self, a: T, b: T) -> T {
        Lsr.one(b, a)
    }

    #[inline(always)]
    fn with_number<T: Lane>(&self, a: T, n: u64) -> T {
        T::from_u64(apply(LaneOp::Lsr, T::BITS, n, a.to_u64()))
    }
}

/// The second shifted to the left, by the first.
#[derive(Clone, Copy)]
pub struct Lslr;

impl LaneWise2 for Lslr {
    ghost entry = { λ _ e a b. lane_op LaneOp.Lsl e b a };

    #[inline(always)]
    fn one<T: Lane>(&self, a: T, b: T) -> T {
        Lsl.one(b, a)
    }

    #[inline(always)]
    fn with_number<T: Lane>(&self, a: T, n: u64) -> T {
        T::from_u64(apply(LaneOp::Lsl, T::BITS, n, a.to_u64()))
    }
}

/// The signed quotient by a power of two, towards zero.
#[derive(Clone, Copy)]
pub struct Asrd;

impl LaneWise2 for Asrd {
    ghost entry = { λ _ e a b. lane_op LaneOp.Asrd e a b };

    #[inline(always)]
    fn one<T: Lane>(&self, a: T, b: T) -> T {
        self.with_number(a, b.to_u64())
    }

    #[inline(always)]
    fn with_number<T: Lane>(&self, a: T, n: u64) -> T {
        T::from_u64(apply(LaneOp::Asrd, T::BITS, a.to_u64(), n))
    }
}
