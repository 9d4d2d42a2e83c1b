//! Shifts of lanes by any unsigned amount.
ghost use Rattle.std.specs.Prelude.{◌≡◌, ◌<◌, ◌/◌, ◌^◌, pos};
ghost use Rattle.std.specs.Int.{int_shr};
ghost use Rattle.emu_bits.specs.Numbers.{quotient};
ghost use Rattle.sve_effects.specs.declared.lane_functions.LaneOp.{LaneOp};
ghost use Rattle.sve_effects.specs.Lane.{lane_op};
ghost use Rattle.emu_model.specs.LaneSizes.{IsLaneSize};

use crate::numbers::{low, narrowed, unsigned, wrapped};
use emu_bits::{low_bits, sext};

/// A signed number shifted to the right by less than 64.
fn shifted_near(x: i64, b: u64) -> i64
    requires { b < 64 }
    ensures { result ≡ int_shr x b }
{
    x >> b
}

/// A signed number shifted to the right.
fn shifted_signed(x: i64, b: u64) -> i64
    ensures { result ≡ int_shr x b }
{
    shifted_near(x, b.min(63))
}

/// An unsigned number shifted to the right.
#[tactic(auto, using(crate::proofs::FarShifts::word_left))]
fn shifted(a: u64, b: u64) -> u64
    ensures { result ≡ a / 2 ^ b }
{
    if b < 64 { a >> b } else { 0 }
}

/// A signed number divided by 2^b, towards zero.
fn divided(x: i64, b: u64) -> i128
    ensures { result ≡ quotient x (pos (2 ^ b)) }
{
    let magnitude = unsigned(shifted(x.unsigned_abs(), b));
    if x < 0 { -magnitude } else { magnitude }
}

/// To the right, with copies of the top bit above: from e on they are all of the lane.
pub fn asr(e: u32, a: u64, b: u64) -> u64
    requires { IsLaneSize e }
    ensures value { result ≡ lane_op LaneOp.Asr e a b }
    ensures small { result < 2 ^ e }
{
    narrowed(e, shifted_signed(sext(a, e), b))
}

/// To the right, with zeros above.
pub fn lsr(e: u32, a: u64, b: u64) -> u64
    requires { IsLaneSize e }
    ensures value { result ≡ lane_op LaneOp.Lsr e a b }
    ensures small { result < 2 ^ e }
{
    low_bits(shifted(a, b), e)
}

/// To the left: from e on all bits are 0.
#[tactic(auto, using(crate::proofs::FarShifts::none_low))]
pub fn lsl(e: u32, a: u64, b: u64) -> u64
    requires { IsLaneSize e }
    ensures value { result ≡ lane_op LaneOp.Lsl e a b }
    ensures small { result < 2 ^ e }
{
    if b < 64 { low(e, (a as u128) << b) } else { 0 }
}

/// The signed quotient by 2^b, towards zero.
pub fn asrd(e: u32, a: u64, b: u64) -> u64
    requires { IsLaneSize e }
    ensures value { result ≡ lane_op LaneOp.Asrd e a b }
    ensures small { result < 2 ^ e }
{
    wrapped(e, divided(sext(a, e), b))
}
