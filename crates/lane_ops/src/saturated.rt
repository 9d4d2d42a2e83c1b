//! Sums and differences saturated to the bits of a lane.
ghost use Rattle.sve_effects.specs.declared.lane_functions.LaneOp.{LaneOp};
ghost use Rattle.sve_effects.specs.Lane.{lane_op};

use lane_kernels::LaneWise2;
use lane_pack::Lane;
use sve_elements::{LaneOp, apply};

/// The signed sum, saturated.
#[derive(Clone, Copy)]
pub struct Sqadd;

impl LaneWise2 for Sqadd {
    ghost entry = { λ _ e a b. lane_op LaneOp.Sqadd e a b };

    #[inline(always)]
    fn one<T: Lane>(&self, a: T, b: T) -> T {
        self.with_number(a, b.to_u64())
    }

    #[inline(always)]
    fn with_number<T: Lane>(&self, a: T, n: u64) -> T {
        T::from_u64(apply(LaneOp::Sqadd, T::BITS, a.to_u64(), n))
    }
}

/// The unsigned sum, saturated.
#[derive(Clone, Copy)]
pub struct Uqadd;

impl LaneWise2 for Uqadd {
    ghost entry = { λ _ e a b. lane_op LaneOp.Uqadd e a b };

    #[inline(always)]
    fn one<T: Lane>(&self, a: T, b: T) -> T {
        self.with_number(a, b.to_u64())
    }

    #[inline(always)]
    fn with_number<T: Lane>(&self, a: T, n: u64) -> T {
        T::from_u64(apply(LaneOp::Uqadd, T::BITS, a.to_u64(), n))
    }
}

/// The signed difference, saturated.
#[derive(Clone, Copy)]
pub struct Sqsub;

impl LaneWise2 for Sqsub {
    ghost entry = { λ _ e a b. lane_op LaneOp.Sqsub e a b };

    #[inline(always)]
    fn one<T: Lane>(&self, a: T, b: T) -> T {
        self.with_number(a, b.to_u64())
    }

    #[inline(always)]
    fn with_number<T: Lane>(&self, a: T, n: u64) -> T {
        T::from_u64(apply(LaneOp::Sqsub, T::BITS, a.to_u64(), n))
    }
}

/// The unsigned difference, saturated.
#[derive(Clone, Copy)]
pub struct Uqsub;

impl LaneWise2 for Uqsub {
    ghost entry = { λ _ e a b. lane_op LaneOp.Uqsub e a b };

    #[inline(always)]
    fn one<T: Lane>(&self, a: T, b: T) -> T {
        self.with_number(a, b.to_u64())
    }

    #[inline(always)]
    fn with_number<T: Lane>(&self, a: T, n: u64) -> T {
        T::from_u64(apply(LaneOp::Uqsub, T::BITS, a.to_u64(), n))
    }
}

/// A signed lane plus an unsigned amount, saturated as a signed number.
#[derive(Clone, Copy)]
pub struct SqaddAmount;

impl LaneWise2 for SqaddAmount {
    ghost entry = { λ _ e a b. lane_op LaneOp.SqaddAmount e a b };

    #[inline(always)]
    fn one<T: Lane>(&self, a: T, b: T) -> T {
        self.with_number(a, b.to_u64())
    }

    #[inline(always)]
    fn with_number<T: Lane>(&self, a: T, n: u64) -> T {
        T::from_u64(apply(LaneOp::SqaddAmount, T::BITS, a.to_u64(), n))
    }
}

/// A signed lane less an unsigned amount, saturated as a signed number.
#[derive(Clone, Copy)]
pub struct SqsubAmount;

impl LaneWise2 for SqsubAmount {
    ghost entry = { λ _ e a b. lane_op LaneOp.SqsubAmount e a b };

    #[inline(always)]
    fn one<T: Lane>(&self, a: T, b: T) -> T {
        self.with_number(a, b.to_u64())
    }

    #[inline(always)]
    fn with_number<T: Lane>(&self, a: T, n: u64) -> T {
        T::from_u64(apply(LaneOp::SqsubAmount, T::BITS, a.to_u64(), n))
    }
}
