//! Sums, differences, and the greater and the smaller of two lanes.
ghost use Rattle.std.specs.Prelude.{◌≡◌, ◌<◌, ◌^◌};
ghost use Rattle.sve_effects.specs.declared.lane_functions.LaneOp.{LaneOp};
ghost use Rattle.sve_effects.specs.Lane.{lane_op};
ghost use Rattle.emu_model.specs.LaneSizes.{IsLaneSize};

use crate::numbers::{
    difference, exact_difference, exact_sum, low, narrowed, saturated_signed, saturated_unsigned,
    signed, unsigned,
};
use emu_bits::{low_bits, sext};

/// The sum.
pub fn add(e: u32, a: u64, b: u64) -> u64
    requires { IsLaneSize e }
    ensures value { result ≡ lane_op LaneOp.Add e a b }
    ensures small { result < 2 ^ e }
{
    low(e, a as u128 + b as u128)
}

/// The difference.
pub fn sub(e: u32, a: u64, b: u64) -> u64
    requires { IsLaneSize e }
    ensures value { result ≡ lane_op LaneOp.Sub e a b }
    ensures small { result < 2 ^ e }
{
    difference(e, a, b as u128)
}

/// The greater signed number.
pub fn smax(e: u32, a: u64, b: u64) -> u64
    requires { IsLaneSize e }
    ensures value { result ≡ lane_op LaneOp.Smax e a b }
    ensures small { result < 2 ^ e }
{
    narrowed(e, sext(a, e).max(sext(b, e)))
}

/// The greater unsigned number.
pub fn umax(e: u32, a: u64, b: u64) -> u64
    requires { IsLaneSize e }
    ensures value { result ≡ lane_op LaneOp.Umax e a b }
    ensures small { result < 2 ^ e }
{
    low_bits(a.max(b), e)
}

/// The smaller signed number.
pub fn smin(e: u32, a: u64, b: u64) -> u64
    requires { IsLaneSize e }
    ensures value { result ≡ lane_op LaneOp.Smin e a b }
    ensures small { result < 2 ^ e }
{
    narrowed(e, sext(a, e).min(sext(b, e)))
}

/// The smaller unsigned number.
pub fn umin(e: u32, a: u64, b: u64) -> u64
    requires { IsLaneSize e }
    ensures value { result ≡ lane_op LaneOp.Umin e a b }
    ensures small { result < 2 ^ e }
{
    low_bits(a.min(b), e)
}

/// The greater signed number less the smaller.
pub fn sabd(e: u32, a: u64, b: u64) -> u64
    requires { IsLaneSize e }
    ensures value { result ≡ lane_op LaneOp.Sabd e a b }
    ensures small { result < 2 ^ e }
{
    low_bits(sext(a, e).abs_diff(sext(b, e)), e)
}

/// The greater unsigned number less the smaller.
pub fn uabd(e: u32, a: u64, b: u64) -> u64
    requires { IsLaneSize e }
    ensures value { result ≡ lane_op LaneOp.Uabd e a b }
    ensures small { result < 2 ^ e }
{
    low_bits(a.abs_diff(b), e)
}

/// The signed sum, saturated.
pub fn sqadd(e: u32, a: u64, b: u64) -> u64
    requires { IsLaneSize e }
    ensures value { result ≡ lane_op LaneOp.Sqadd e a b }
    ensures small { result < 2 ^ e }
{
    saturated_signed(e, exact_sum(signed(e, a), signed(e, b)))
}

/// The unsigned sum, saturated.
pub fn uqadd(e: u32, a: u64, b: u64) -> u64
    requires { IsLaneSize e }
    ensures value { result ≡ lane_op LaneOp.Uqadd e a b }
    ensures small { result < 2 ^ e }
{
    saturated_unsigned(e, exact_sum(unsigned(a), unsigned(b)))
}

/// The signed difference, saturated.
pub fn sqsub(e: u32, a: u64, b: u64) -> u64
    requires { IsLaneSize e }
    ensures value { result ≡ lane_op LaneOp.Sqsub e a b }
    ensures small { result < 2 ^ e }
{
    saturated_signed(e, exact_difference(signed(e, a), signed(e, b)))
}

/// The unsigned difference, saturated.
pub fn uqsub(e: u32, a: u64, b: u64) -> u64
    requires { IsLaneSize e }
    ensures value { result ≡ lane_op LaneOp.Uqsub e a b }
    ensures small { result < 2 ^ e }
{
    saturated_unsigned(e, exact_difference(unsigned(a), unsigned(b)))
}

/// A signed lane plus an unsigned amount, saturated as a signed number.
pub fn sqadd_amount(e: u32, a: u64, b: u64) -> u64
    requires { IsLaneSize e }
    ensures value { result ≡ lane_op LaneOp.SqaddAmount e a b }
    ensures small { result < 2 ^ e }
{
    saturated_signed(e, exact_sum(signed(e, a), unsigned(b)))
}

/// A signed lane less an unsigned amount, saturated as a signed number.
pub fn sqsub_amount(e: u32, a: u64, b: u64) -> u64
    requires { IsLaneSize e }
    ensures value { result ≡ lane_op LaneOp.SqsubAmount e a b }
    ensures small { result < 2 ^ e }
{
    saturated_signed(e, exact_difference(signed(e, a), unsigned(b)))
}
