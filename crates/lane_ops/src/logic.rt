//! Logical operations of two lanes.
ghost use Rattle.sve_effects.specs.declared.lane_functions.LaneOp.{LaneOp};
ghost use Rattle.sve_effects.specs.Lane.{lane_op};

use lane_kernels::LaneWise2;
use lane_pack::Lane;
use sve_elements::{LaneOp, apply};

/// OR of the bits.
#[derive(Clone, Copy)]
pub struct Orr;

impl LaneWise2 for Orr {
    ghost entry = { λ _ e a b. lane_op LaneOp.Orr e a b };

    #[inline(always)]
    fn one<T: Lane>(&self, a: T, b: T) -> T {
        self.with_number(a, b.to_u64())
    }

    #[inline(always)]
    fn with_number<T: Lane>(&self, a: T, n: u64) -> T {
        T::from_u64(apply(LaneOp::Orr, T::BITS, a.to_u64(), n))
    }
}

/// Exclusive OR of the bits.
#[derive(Clone, Copy)]
pub struct Eor;

impl LaneWise2 for Eor {
    ghost entry = { λ _ e a b. lane_op LaneOp.Eor e a b };

    #[inline(always)]
    fn one<T: Lane>(&self, a: T, b: T) -> T {
        self.with_number(a, b.to_u64())
    }

    #[inline(always)]
    fn with_number<T: Lane>(&self, a: T, n: u64) -> T {
        T::from_u64(apply(LaneOp::Eor, T::BITS, a.to_u64(), n))
    }
}

/// AND of the bits.
#[derive(Clone, Copy)]
pub struct And;

impl LaneWise2 for And {
    ghost entry = { λ _ e a b. lane_op LaneOp.And e a b };

    #[inline(always)]
    fn one<T: Lane>(&self, a: T, b: T) -> T {
        self.with_number(a, b.to_u64())
    }

    #[inline(always)]
    fn with_number<T: Lane>(&self, a: T, n: u64) -> T {
        T::from_u64(apply(LaneOp::And, T::BITS, a.to_u64(), n))
    }
}

/// The first AND NOT the second.
#[derive(Clone, Copy)]
pub struct Bic;

impl LaneWise2 for Bic {
    ghost entry = { λ _ e a b. lane_op LaneOp.Bic e a b };

    #[inline(always)]
    fn one<T: Lane>(&self, a: T, b: T) -> T {
        self.with_number(a, b.to_u64())
    }

    #[inline(always)]
    fn with_number<T: Lane>(&self, a: T, n: u64) -> T {
        T::from_u64(apply(LaneOp::Bic, T::BITS, a.to_u64(), n))
    }
}
