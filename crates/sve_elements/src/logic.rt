//! Logical operations of two lanes.
ghost use Rattle.std.specs.Prelude.{◌≡◌, ◌<◌, ◌^◌};
ghost use Rattle.sve_effects.specs.declared.lane_functions.LaneOp.{LaneOp};
ghost use Rattle.sve_effects.specs.Lane.{lane_op};
ghost use Rattle.emu_model.specs.LaneSizes.{IsLaneSize};

use crate::numbers::complement;
use emu_bits::low_bits;

/// OR of the bits.
pub fn orr(e: u32, a: u64, b: u64) -> u64
    requires { IsLaneSize e }
    ensures value { result ≡ lane_op LaneOp.Orr e a b }
    ensures small { result < 2 ^ e }
{
    low_bits(a | b, e)
}

/// Exclusive OR of the bits.
pub fn eor(e: u32, a: u64, b: u64) -> u64
    requires { IsLaneSize e }
    ensures value { result ≡ lane_op LaneOp.Eor e a b }
    ensures small { result < 2 ^ e }
{
    low_bits(a ^ b, e)
}

/// AND of the bits.
pub fn and(e: u32, a: u64, b: u64) -> u64
    requires { IsLaneSize e }
    ensures value { result ≡ lane_op LaneOp.And e a b }
    ensures small { result < 2 ^ e }
{
    low_bits(a & b, e)
}

/// The first AND NOT the second.
pub fn bic(e: u32, a: u64, b: u64) -> u64
    requires { IsLaneSize e }
    ensures value { result ≡ lane_op LaneOp.Bic e a b }
    ensures small { result < 2 ^ e }
{
    low_bits(a & complement(e, low_bits(b, e)), e)
}
