//! Whether conditions hold.
ghost use Rattle.std.specs.Prelude.{◌≡◌};
ghost use Rattle.debug_values.specs.Values.{compares, holds, operand_value};

use crate::registers::{lane_value, register_value};
use debug_places::{Compare, Condition, Operand};
use emu_machine::Machine;

/// The value of an operand.
fn operand_value(machine: &Machine, operand: Operand) -> u64
    ensures { result ≡ operand_value machine.now.parts operand }
{
    match operand {
        Operand::Number(n) => n,
        Operand::Value(register) => register_value(machine, register),
        Operand::LaneOf(lane) => lane_value(machine.vec(), lane),
    }
}

/// How two numbers compare.
fn compares(compare: Compare, a: u64, b: u64) -> bool
    ensures { result ≡ compares compare a b }
{
    match compare {
        Compare::Equal => a == b,
        Compare::Unequal => a != b,
        Compare::Below => a < b,
        Compare::AtMost => a <= b,
        Compare::Above => a > b,
        Compare::AtLeast => a >= b,
    }
}

/// Whether a condition holds of a machine.
pub fn holds(machine: &Machine, condition: Condition) -> bool
    ensures { result ≡ holds machine.now.parts condition }
{
    let left = operand_value(machine, condition.left);
    let right = operand_value(machine, condition.right);
    compares(condition.compare, left, right)
}
