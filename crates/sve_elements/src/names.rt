//! Functions of two lanes, by name.
ghost use Rattle.std.specs.Prelude.{◌≡◌, ◌<◌, ◌^◌};
ghost use Rattle.sve_effects.specs.Lane.{lane_op};
ghost use Rattle.emu_model.specs.LaneSizes.{IsLaneSize};

use crate::logic::{and, bic, eor, orr};
use crate::products::{mul, sdiv, smulh, udiv, umulh};
use crate::shifts::{asr, asrd, lsl, lsr};
use crate::sums::{
    add, sabd, smax, smin, sqadd, sqadd_amount, sqsub, sqsub_amount, sub, uabd, umax, umin, uqadd,
    uqsub,
};
use sve_effects::LaneOp;

/// A function of two lanes of e bits, by its name: the definition of the name. The second may be any number, as the
/// amount of a shift is.
pub fn apply(op: LaneOp, e: u32, a: u64, b: u64) -> u64
    requires { IsLaneSize e }
    ensures value { result ≡ lane_op op e a b }
    ensures small { result < 2 ^ e }
{
    match op {
        LaneOp::Add => add(e, a, b),
        LaneOp::Sub => sub(e, a, b),
        LaneOp::Smax => smax(e, a, b),
        LaneOp::Umax => umax(e, a, b),
        LaneOp::Smin => smin(e, a, b),
        LaneOp::Umin => umin(e, a, b),
        LaneOp::Sabd => sabd(e, a, b),
        LaneOp::Uabd => uabd(e, a, b),
        LaneOp::Mul => mul(e, a, b),
        LaneOp::Smulh => smulh(e, a, b),
        LaneOp::Umulh => umulh(e, a, b),
        LaneOp::Sdiv => sdiv(e, a, b),
        LaneOp::Udiv => udiv(e, a, b),
        LaneOp::Orr => orr(e, a, b),
        LaneOp::Eor => eor(e, a, b),
        LaneOp::And => and(e, a, b),
        LaneOp::Bic => bic(e, a, b),
        LaneOp::Asr => asr(e, a, b),
        LaneOp::Lsr => lsr(e, a, b),
        LaneOp::Lsl => lsl(e, a, b),
        LaneOp::Asrd => asrd(e, a, b),
        LaneOp::Sqadd => sqadd(e, a, b),
        LaneOp::Uqadd => uqadd(e, a, b),
        LaneOp::Sqsub => sqsub(e, a, b),
        LaneOp::Uqsub => uqsub(e, a, b),
        LaneOp::SqaddAmount => sqadd_amount(e, a, b),
        LaneOp::SqsubAmount => sqsub_amount(e, a, b),
    }
}
