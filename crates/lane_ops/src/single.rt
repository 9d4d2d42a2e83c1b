//! Functions of one lane: extensions, counts of bits, and parts in reverse order.
ghost use Rattle.sve_insn.specs.declared.ops.UnaryOp.{UnaryOp};
ghost use Rattle.sve_effects.specs.Lane as table;

use crate::sums::Sabd;
use lane_kernels::{LaneWise1, LaneWise2};
use lane_pack::Lane;
use sve_elements::unary;
use sve_insn::UnaryOp;

/// The low 8 bits, extended by their sign.
#[derive(Clone, Copy)]
pub struct Sxtb;

impl LaneWise1 for Sxtb {
    ghost entry = { λ _ e a. table.unary_lane UnaryOp.Sxtb e a };

    #[inline(always)]
    fn one<T: Lane>(&self, a: T) -> T {
        T::from_u64(unary(UnaryOp::Sxtb, T::BITS, a.to_u64()))
    }
}

/// The low 8 bits, with zeros above.
#[derive(Clone, Copy)]
pub struct Uxtb;

impl LaneWise1 for Uxtb {
    ghost entry = { λ _ e a. table.unary_lane UnaryOp.Uxtb e a };

    #[inline(always)]
    fn one<T: Lane>(&self, a: T) -> T {
        T::from_u64(unary(UnaryOp::Uxtb, T::BITS, a.to_u64()))
    }
}

/// The low 16 bits, extended by their sign.
#[derive(Clone, Copy)]
pub struct Sxth;

impl LaneWise1 for Sxth {
    ghost entry = { λ _ e a. table.unary_lane UnaryOp.Sxth e a };

    #[inline(always)]
    fn one<T: Lane>(&self, a: T) -> T {
        T::from_u64(unary(UnaryOp::Sxth, T::BITS, a.to_u64()))
    }
}

/// The low 16 bits, with zeros above.
#[derive(Clone, Copy)]
pub struct Uxth;

impl LaneWise1 for Uxth {
    ghost entry = { λ _ e a. table.unary_lane UnaryOp.Uxth e a };

    #[inline(always)]
    fn one<T: Lane>(&self, a: T) -> T {
        T::from_u64(unary(UnaryOp::Uxth, T::BITS, a.to_u64()))
    }
}

/// The low 32 bits, extended by their sign.
#[derive(Clone, Copy)]
pub struct Sxtw;

impl LaneWise1 for Sxtw {
    ghost entry = { λ _ e a. table.unary_lane UnaryOp.Sxtw e a };

    #[inline(always)]
    fn one<T: Lane>(&self, a: T) -> T {
        T::from_u64(unary(UnaryOp::Sxtw, T::BITS, a.to_u64()))
    }
}

/// The low 32 bits, with zeros above.
#[derive(Clone, Copy)]
pub struct Uxtw;

impl LaneWise1 for Uxtw {
    ghost entry = { λ _ e a. table.unary_lane UnaryOp.Uxtw e a };

    #[inline(always)]
    fn one<T: Lane>(&self, a: T) -> T {
        T::from_u64(unary(UnaryOp::Uxtw, T::BITS, a.to_u64()))
    }
}

/// The magnitude of the signed number: its distance from 0.
#[derive(Clone, Copy)]
pub struct Abs;

impl LaneWise1 for Abs {
    ghost entry = { λ _ e a. table.unary_lane UnaryOp.Abs e a };

    #[inline(always)]
    fn one<T: Lane>(&self, a: T) -> T {
        Sabd.one(a, T::from_u64(0))
    }
}

/// The number with the other sign.
#[derive(Clone, Copy)]
pub struct Neg;

impl LaneWise1 for Neg {
    ghost entry = { λ _ e a. table.unary_lane UnaryOp.Neg e a };

    #[inline(always)]
    fn one<T: Lane>(&self, a: T) -> T {
        T::from_u64(unary(UnaryOp::Neg, T::BITS, a.to_u64()))
    }
}

/// The leading copies of the top bit after it.
#[derive(Clone, Copy)]
pub struct Cls;

impl LaneWise1 for Cls {
    ghost entry = { λ _ e a. table.unary_lane UnaryOp.Cls e a };

    #[inline(always)]
    fn one<T: Lane>(&self, a: T) -> T {
        T::from_u64(unary(UnaryOp::Cls, T::BITS, a.to_u64()))
    }
}

/// The leading zeros.
#[derive(Clone, Copy)]
pub struct Clz;

impl LaneWise1 for Clz {
    ghost entry = { λ _ e a. table.unary_lane UnaryOp.Clz e a };

    #[inline(always)]
    fn one<T: Lane>(&self, a: T) -> T {
        T::from_u64(unary(UnaryOp::Clz, T::BITS, a.to_u64()))
    }
}

/// The ones.
#[derive(Clone, Copy)]
pub struct Cnt;

impl LaneWise1 for Cnt {
    ghost entry = { λ _ e a. table.unary_lane UnaryOp.Cnt e a };

    #[inline(always)]
    fn one<T: Lane>(&self, a: T) -> T {
        T::from_u64(unary(UnaryOp::Cnt, T::BITS, a.to_u64()))
    }
}

/// 1 where the lane is 0, and else 0.
#[derive(Clone, Copy)]
pub struct Cnot;

impl LaneWise1 for Cnot {
    ghost entry = { λ _ e a. table.unary_lane UnaryOp.Cnot e a };

    #[inline(always)]
    fn one<T: Lane>(&self, a: T) -> T {
        T::from_u64(unary(UnaryOp::Cnot, T::BITS, a.to_u64()))
    }
}

/// NOT of the bits.
#[derive(Clone, Copy)]
pub struct Not;

impl LaneWise1 for Not {
    ghost entry = { λ _ e a. table.unary_lane UnaryOp.Not e a };

    #[inline(always)]
    fn one<T: Lane>(&self, a: T) -> T {
        T::from_u64(unary(UnaryOp::Not, T::BITS, a.to_u64()))
    }
}

/// The bytes in reverse order.
#[derive(Clone, Copy)]
pub struct Revb;

impl LaneWise1 for Revb {
    ghost entry = { λ _ e a. table.unary_lane UnaryOp.Revb e a };

    #[inline(always)]
    fn one<T: Lane>(&self, a: T) -> T {
        T::from_u64(unary(UnaryOp::Revb, T::BITS, a.to_u64()))
    }
}

/// The parts of 16 bits in reverse order.
#[derive(Clone, Copy)]
pub struct Revh;

impl LaneWise1 for Revh {
    ghost entry = { λ _ e a. table.unary_lane UnaryOp.Revh e a };

    #[inline(always)]
    fn one<T: Lane>(&self, a: T) -> T {
        T::from_u64(unary(UnaryOp::Revh, T::BITS, a.to_u64()))
    }
}

/// The parts of 32 bits in reverse order.
#[derive(Clone, Copy)]
pub struct Revw;

impl LaneWise1 for Revw {
    ghost entry = { λ _ e a. table.unary_lane UnaryOp.Revw e a };

    #[inline(always)]
    fn one<T: Lane>(&self, a: T) -> T {
        T::from_u64(unary(UnaryOp::Revw, T::BITS, a.to_u64()))
    }
}

/// The bits in reverse order.
#[derive(Clone, Copy)]
pub struct Rbit;

impl LaneWise1 for Rbit {
    ghost entry = { λ _ e a. table.unary_lane UnaryOp.Rbit e a };

    #[inline(always)]
    fn one<T: Lane>(&self, a: T) -> T {
        T::from_u64(unary(UnaryOp::Rbit, T::BITS, a.to_u64()))
    }
}
