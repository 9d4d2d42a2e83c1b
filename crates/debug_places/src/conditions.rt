//! Conditions of breaks.
ghost use Rattle.std.specs.Prelude.{◌≡◌};
ghost use Rattle.debug_places.specs.Conditions.{compare_of, condition_by, number_operand, operand_of};

use debug_names::{Lane, Register, lane_of, register_of};
use line_words::number_of_word;

/// What a condition compares.
#[derive(Clone, Copy)]
pub enum Operand {
    Number(u64),
    Value(Register),
    LaneOf(Lane),
}

/// How two numbers without a sign compare.
#[derive(Clone, Copy)]
pub enum Compare {
    Equal,
    Unequal,
    Below,
    AtMost,
    Above,
    AtLeast,
}

/// A condition.
#[derive(Clone, Copy)]
pub struct Condition {
    pub left: Operand,
    pub compare: Compare,
    pub right: Operand,
}

/// How a word compares.
fn compare_of(word: &str) -> Option<Compare>
    ensures { result ≡ compare_of word.now }
{
    match word {
        "==" => Some(Compare::Equal),
        "!=" => Some(Compare::Unequal),
        "<" => Some(Compare::Below),
        "<=" => Some(Compare::AtMost),
        ">" => Some(Compare::Above),
        ">=" => Some(Compare::AtLeast),
        _ => None,
    }
}

/// A number as an operand.
fn number_operand(number: Option<u64>) -> Option<Operand>
    ensures { result ≡ number_operand number }
{
    match number {
        None => None,
        Some(n) => Some(Operand::Number(n)),
    }
}

/// The operand that a word is.
fn operand_of(word: &str) -> Option<Operand>
    ensures { result ≡ operand_of word.now }
{
    match lane_of(word) {
        Some(lane) => Some(Operand::LaneOf(lane)),
        None => match register_of(word) {
            Some(register) => Some(Operand::Value(register)),
            None => number_operand(number_of_word(word)),
        },
    }
}

/// The condition that three words are.
pub fn condition_of(left: &str, compare: &str, right: &str) -> Option<Condition>
    ensures { result ≡ condition_by (operand_of left.now) (compare_of compare.now) (operand_of right.now) }
{
    match (operand_of(left), compare_of(compare), operand_of(right)) {
        (Some(left), Some(compare), Some(right)) => Some(Condition {
            left,
            compare,
            right,
        }),
        _ => None,
    }
}
