//! Sums, differences, and the greater and the smaller of two lanes.
ghost use Rattle.sve_effects.specs.declared.lane_functions.LaneOp.{LaneOp};
ghost use Rattle.sve_effects.specs.Lane.{lane_op};

use crate::order::signed_less;
use lane_kernels::LaneWise2;
use lane_pack::Lane;
use sve_elements::{LaneOp, apply};

/// The sum.
#[derive(Clone, Copy)]
pub struct Add;

impl LaneWise2 for Add {
    ghost entry = { λ _ e a b. lane_op LaneOp.Add e a b };

    #[inline(always)]
    fn one<T: Lane>(&self, a: T, b: T) -> T {
        a.add_mod(b)
    }

    #[inline(always)]
    fn with_number<T: Lane>(&self, a: T, n: u64) -> T {
        T::from_u64(apply(LaneOp::Add, T::BITS, a.to_u64(), n))
    }
}

/// The difference.
#[derive(Clone, Copy)]
pub struct Sub;

impl LaneWise2 for Sub {
    ghost entry = { λ _ e a b. lane_op LaneOp.Sub e a b };

    #[inline(always)]
    fn one<T: Lane>(&self, a: T, b: T) -> T {
        self.with_number(a, b.to_u64())
    }

    #[inline(always)]
    fn with_number<T: Lane>(&self, a: T, n: u64) -> T {
        T::from_u64(apply(LaneOp::Sub, T::BITS, a.to_u64(), n))
    }
}

/// The second less the first.
#[derive(Clone, Copy)]
pub struct Subr;

impl LaneWise2 for Subr {
    ghost entry = { λ _ e a b. lane_op LaneOp.Sub e b a };

    #[inline(always)]
    fn one<T: Lane>(&self, a: T, b: T) -> T {
        Sub.one(b, a)
    }

    #[inline(always)]
    fn with_number<T: Lane>(&self, a: T, n: u64) -> T {
        T::from_u64(apply(LaneOp::Sub, T::BITS, n, a.to_u64()))
    }
}

/// The greater signed number.
#[derive(Clone, Copy)]
pub struct Smax;

impl LaneWise2 for Smax {
    ghost entry = { λ _ e a b. lane_op LaneOp.Smax e a b };

    #[inline(always)]
    fn one<T: Lane>(&self, a: T, b: T) -> T {
        let _first = a.to_u64();
        let _second = b.to_u64();
        if signed_less(a, b) { b } else { a }
    }

    #[inline(always)]
    fn with_number<T: Lane>(&self, a: T, n: u64) -> T {
        self.one(a, T::from_u64(n))
    }
}

/// The greater unsigned number.
#[derive(Clone, Copy)]
pub struct Umax;

impl LaneWise2 for Umax {
    ghost entry = { λ _ e a b. lane_op LaneOp.Umax e a b };

    #[inline(always)]
    fn one<T: Lane>(&self, a: T, b: T) -> T {
        T::from_u64(apply(LaneOp::Umax, T::BITS, a.to_u64(), b.to_u64()))
    }

    #[inline(always)]
    fn with_number<T: Lane>(&self, a: T, n: u64) -> T {
        let _lane = a.to_u64();
        let b = T::from_u64(n);
        if b.to_u64() == n { self.one(a, b) } else { b }
    }
}

/// The smaller signed number.
#[derive(Clone, Copy)]
pub struct Smin;

impl LaneWise2 for Smin {
    ghost entry = { λ _ e a b. lane_op LaneOp.Smin e a b };

    #[inline(always)]
    fn one<T: Lane>(&self, a: T, b: T) -> T {
        let _first = a.to_u64();
        let _second = b.to_u64();
        if signed_less(a, b) { a } else { b }
    }

    #[inline(always)]
    fn with_number<T: Lane>(&self, a: T, n: u64) -> T {
        self.one(a, T::from_u64(n))
    }
}

/// The smaller unsigned number.
#[derive(Clone, Copy)]
pub struct Umin;

impl LaneWise2 for Umin {
    ghost entry = { λ _ e a b. lane_op LaneOp.Umin e a b };

    #[inline(always)]
    fn one<T: Lane>(&self, a: T, b: T) -> T {
        T::from_u64(apply(LaneOp::Umin, T::BITS, a.to_u64(), b.to_u64()))
    }

    #[inline(always)]
    fn with_number<T: Lane>(&self, a: T, n: u64) -> T {
        let _lane = a.to_u64();
        let b = T::from_u64(n);
        if b.to_u64() == n { self.one(a, b) } else { a }
    }
}

/// The greater signed number less the smaller.
#[derive(Clone, Copy)]
pub struct Sabd;

impl LaneWise2 for Sabd {
    ghost entry = { λ _ e a b. lane_op LaneOp.Sabd e a b };

    #[inline(always)]
    fn one<T: Lane>(&self, a: T, b: T) -> T {
        let _first = a.to_u64();
        let _second = b.to_u64();
        if signed_less(a, b) {
            b.sub_mod(a)
        } else {
            a.sub_mod(b)
        }
    }

    #[inline(always)]
    fn with_number<T: Lane>(&self, a: T, n: u64) -> T {
        T::from_u64(apply(LaneOp::Sabd, T::BITS, a.to_u64(), n))
    }
}

/// The greater unsigned number less the smaller.
#[derive(Clone, Copy)]
pub struct Uabd;

impl LaneWise2 for Uabd {
    ghost entry = { λ _ e a b. lane_op LaneOp.Uabd e a b };

    #[inline(always)]
    fn one<T: Lane>(&self, a: T, b: T) -> T {
        self.with_number(a, b.to_u64())
    }

    #[inline(always)]
    fn with_number<T: Lane>(&self, a: T, n: u64) -> T {
        T::from_u64(apply(LaneOp::Uabd, T::BITS, a.to_u64(), n))
    }
}
