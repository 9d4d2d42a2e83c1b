//! Products, quotients, products added and subtracted, and dot products.
ghost use Rattle.std.specs.Prelude.{◌≡◌, ◌<◌, ◌≤◌, ◌^◌, unsigned_abs};
ghost use Rattle.sve_effects.specs.declared.lane_functions.LaneOp.{LaneOp};
ghost use Rattle.sve_effects.specs.Lane as table;
ghost use Rattle.sve_effects.specs.Lane.{lane_op};
ghost use Rattle.emu_model.specs.LaneSizes.{IsLaneSize};
ghost use Rattle.emu_bits.specs.Numbers.{quotient};

use crate::numbers::{difference, exact_product, exact_sum, low, scaled_down, unsigned, wrapped};
use emu_bits::{low_bits, sext};

/// The product's lower half.
pub fn mul(e: u32, a: u64, b: u64) -> u64
    requires { IsLaneSize e }
    ensures value { result ≡ lane_op LaneOp.Mul e a b }
    ensures small { result < 2 ^ e }
{
    low(e, a as u128 * b as u128)
}

/// The signed product's upper half.
pub fn smulh(e: u32, a: u64, b: u64) -> u64
    requires { IsLaneSize e }
    ensures value { result ≡ lane_op LaneOp.Smulh e a b }
    ensures small { result < 2 ^ e }
{
    wrapped(e, scaled_down(exact_product(sext(a, e), sext(b, e)), e))
}

/// The unsigned product's upper half.
pub fn umulh(e: u32, a: u64, b: u64) -> u64
    requires { IsLaneSize e }
    ensures value { result ≡ lane_op LaneOp.Umulh e a b }
    ensures small { result < 2 ^ e }
{
    low(e, a as u128 * b as u128 >> e)
}

/// The quotient of two signed numbers, towards zero, and 0 where the second is 0.
fn quotient(x: i64, y: i64) -> i128
    ensures { result ≡ quotient x y }
{
    if y == 0 {
        0
    } else if y == -1 {
        -(x as i128)
    } else {
        (x / y) as i128
    }
}

/// The signed quotient, towards zero, and 0 where the second is 0; the least number by -1 is itself.
pub fn sdiv(e: u32, a: u64, b: u64) -> u64
    requires { IsLaneSize e }
    ensures value { result ≡ lane_op LaneOp.Sdiv e a b }
    ensures small { result < 2 ^ e }
{
    wrapped(e, quotient(sext(a, e), sext(b, e)))
}

/// The unsigned quotient, and 0 where the second is 0.
pub fn udiv(e: u32, a: u64, b: u64) -> u64
    requires { IsLaneSize e }
    ensures value { result ≡ lane_op LaneOp.Udiv e a b }
    ensures small { result < 2 ^ e }
{
    if b == 0 { 0 } else { low_bits(a / b, e) }
}

/// c + a·b
pub fn multiply_add(e: u32, c: u64, a: u64, b: u64) -> u64
    requires { IsLaneSize e }
    ensures value { result ≡ table.multiply_add e c a b }
    ensures small { result < 2 ^ e }
{
    low(e, c as u128 + a as u128 * b as u128)
}

/// c - a·b
pub fn multiply_subtract(e: u32, c: u64, a: u64, b: u64) -> u64
    requires { IsLaneSize e }
    ensures value { result ≡ table.multiply_subtract e c a b }
    ensures small { result < 2 ^ e }
{
    difference(e, c, a as u128 * b as u128)
}

/// Quarter j of a lane, signed or unsigned.
fn quarter(is_signed: bool, e: u32, a: u64, j: u32) -> i64
    requires size { IsLaneSize e }
    requires place { j < 4 }
    ensures value { result ≡ table.quarter is_signed e a j }
    ensures small { unsigned_abs result < 2 ^ 16 }
{
    let n = e / 4;
    let part = low_bits(a >> (n * j), n);
    if is_signed {
        sext(part, n)
    } else {
        part as i64
    }
}

/// The product of two quarters.
#[tactic(auto, using(crate::proofs::Magnitudes::small_product))]
fn quarter_product(is_signed: bool, e: u32, a: u64, b: u64, j: u32) -> i128
    requires size { IsLaneSize e }
    requires place { j < 4 }
    ensures value { result ≡ table.quarter_product is_signed e a b j }
    ensures small { unsigned_abs result ≤ 2 ^ 32 }
{
    exact_product(quarter(is_signed, e, a, j), quarter(is_signed, e, b, j))
}

/// c plus the sum of the products of the four quarters of a and b, which are signed or unsigned.
pub fn dot_product(is_signed: bool, e: u32, c: u64, a: u64, b: u64) -> u64
    requires { IsLaneSize e }
    ensures value { result ≡ table.dot_product is_signed e c a b }
    ensures small { result < 2 ^ e }
{
    let one = quarter_product(is_signed, e, a, b, 0);
    let two = exact_sum(one, quarter_product(is_signed, e, a, b, 1));
    let three = exact_sum(two, quarter_product(is_signed, e, a, b, 2));
    let four = exact_sum(three, quarter_product(is_signed, e, a, b, 3));
    wrapped(e, exact_sum(unsigned(c), four))
}
