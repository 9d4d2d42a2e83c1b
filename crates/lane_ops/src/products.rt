//! Products and quotients of two lanes.
ghost use Rattle.sve_effects.specs.declared.lane_functions.LaneOp.{LaneOp};
ghost use Rattle.sve_effects.specs.Lane.{lane_op};

use lane_kernels::LaneWise2;
use lane_pack::Lane;
use sve_elements::{LaneOp, apply};

/// The product's lower half.
#[derive(Clone, Copy)]
pub struct Mul;

impl LaneWise2 for Mul {
    ghost entry = { λ _ e a b. lane_op LaneOp.Mul e a b };

    #[inline(always)]
    fn one<T: Lane>(&self, a: T, b: T) -> T {
        a.mul_mod(b)
    }

    #[inline(always)]
    fn with_number<T: Lane>(&self, a: T, n: u64) -> T {
        T::from_u64(apply(LaneOp::Mul, T::BITS, a.to_u64(), n))
    }
}

/// The signed product's upper half.
#[derive(Clone, Copy)]
pub struct Smulh;

impl LaneWise2 for Smulh {
    ghost entry = { λ _ e a b. lane_op LaneOp.Smulh e a b };

    #[inline(always)]
    fn one<T: Lane>(&self, a: T, b: T) -> T {
        self.with_number(a, b.to_u64())
    }

    #[inline(always)]
    fn with_number<T: Lane>(&self, a: T, n: u64) -> T {
        T::from_u64(apply(LaneOp::Smulh, T::BITS, a.to_u64(), n))
    }
}

/// The unsigned product's upper half.
#[derive(Clone, Copy)]
pub struct Umulh;

impl LaneWise2 for Umulh {
    ghost entry = { λ _ e a b. lane_op LaneOp.Umulh e a b };

    #[inline(always)]
    fn one<T: Lane>(&self, a: T, b: T) -> T {
        self.with_number(a, b.to_u64())
    }

    #[inline(always)]
    fn with_number<T: Lane>(&self, a: T, n: u64) -> T {
        T::from_u64(apply(LaneOp::Umulh, T::BITS, a.to_u64(), n))
    }
}

/// The signed quotient of the first by the second, towards zero, and 0 where the second is 0.
#[derive(Clone, Copy)]
pub struct Sdiv;

impl LaneWise2 for Sdiv {
    ghost entry = { λ _ e a b. lane_op LaneOp.Sdiv e a b };

    #[inline(always)]
    fn one<T: Lane>(&self, a: T, b: T) -> T {
        self.with_number(a, b.to_u64())
    }

    #[inline(always)]
    fn with_number<T: Lane>(&self, a: T, n: u64) -> T {
        T::from_u64(apply(LaneOp::Sdiv, T::BITS, a.to_u64(), n))
    }
}

/// The unsigned quotient of the first by the second, and 0 where the second is 0.
#[derive(Clone, Copy)]
pub struct Udiv;

impl LaneWise2 for Udiv {
    ghost entry = { λ _ e a b. lane_op LaneOp.Udiv e a b };

    #[inline(always)]
    fn one<T: Lane>(&self, a: T, b: T) -> T {
        self.with_number(a, b.to_u64())
    }

    #[inline(always)]
    fn with_number<T: Lane>(&self, a: T, n: u64) -> T {
        T::from_u64(apply(LaneOp::Udiv, T::BITS, a.to_u64(), n))
    }
}

/// The signed quotient of the second by the first, towards zero, and 0 where the first is 0.
#[derive(Clone, Copy)]
pub struct Sdivr;

impl LaneWise2 for Sdivr {
    ghost entry = { λ _ e a b. lane_op LaneOp.Sdiv e b a };

    #[inline(always)]
    fn one<T: Lane>(&self, a: T, b: T) -> T {
        Sdiv.one(b, a)
    }

    #[inline(always)]
    fn with_number<T: Lane>(&self, a: T, n: u64) -> T {
        T::from_u64(apply(LaneOp::Sdiv, T::BITS, n, a.to_u64()))
    }
}

/// The unsigned quotient of the second by the first, and 0 where the first is 0.
#[derive(Clone, Copy)]
pub struct Udivr;

impl LaneWise2 for Udivr {
    ghost entry = { λ _ e a b. lane_op LaneOp.Udiv e b a };

    #[inline(always)]
    fn one<T: Lane>(&self, a: T, b: T) -> T {
        Udiv.one(b, a)
    }

    #[inline(always)]
    fn with_number<T: Lane>(&self, a: T, n: u64) -> T {
        T::from_u64(apply(LaneOp::Udiv, T::BITS, n, a.to_u64()))
    }
}
