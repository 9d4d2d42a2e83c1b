//! What is made of numbers, words of instructions, conditions and scalar registers.
//!
//! A line is `NAME NUMBER .. = ANSWER`. Numbers are hexadecimal, but those that are read as signed, which are decimal;
//! NZCV are four binary digits. Where there is no answer, it is `none`:
//!
//! - `bitmask N IMMR IMMS WIDTH = VALUE` and `fields VALUE WIDTH = N IMMR IMMS`, of a bitmask immediate;
//! - `sum A B CARRY WIDTH = SUM NZCV`;
//! - `signed V BITS = DECIMAL`, `low V BITS = VALUE` and `extended V BITS WIDTH = VALUE`;
//! - `number V = V`, a number of 12 bits, and so `predicate` and `low-predicate`, the number of a register;
//! - `word WORD FLAG NUMBER REGISTER = WORD NUMBER NUMBER`: a flag put in at place 31, a number of 16 bits at place 5
//!   and a register at place 0; and the number read back twice, as bits 20 to 5 and as a number of 16 bits;
//! - `lanes BITS SIZE = COUNT`, of a vector length and a size of lanes in bits;
//! - `lane BITS A B = SUM DIFFERENCE PRODUCT`, of two numbers modulo the width of a lane;
//! - `condition NUMBER = MASK MASK`: bit k is whether the condition of a number holds where NZCV are k, of the flags
//!   and of the registers;
//! - `register NUMBER WIDE NARROW = X SP X X`: what x0 to x31 are read as at first, where 31 is zero and where it is
//!   SP, then behind a write of 64 bits and one of 32 bits;
//! - `stack V = X SP SP`: register 31 behind a write of 64 bits to SP, as zero and as SP, and behind one of 32 bits;
//! - `scalars PC TPIDR ADDRESS BYTES = PC TPIDR ADDRESS BYTES MONITOR NZCV`: what was written, with the monitor's
//!   address and size; then the monitor emptied, and the flags that weren't written.
use crate::{bits, scalars};
use lane_pack::Lane;

/// A number of hexadecimal digits.
fn hexadecimal(word: &str) -> Option<u64> {
    u64::from_str_radix(word, 16).ok()
}

/// Up to four numbers, with a space between them; 0 for one that isn't there, and for one that is none, where the flag
/// that is lent says that not all is well.
fn numbers_of(text: &str, is_well: &mut bool) -> [u64; 4] {
    let mut numbers = [0; 4];
    let mut words = text.split(' ');
    for place in numbers.iter_mut() {
        if let Some(word) = words.next() {
            match hexadecimal(word) {
                Some(number) => *place = number,
                None => *is_well = false,
            }
        }
    }
    numbers
}

/// Whether an answer is just these numbers, with a space between them.
pub fn are_numbers(answer: &str, found: &[u64]) -> bool {
    let mut words = answer.split(' ');
    for number in found {
        match words.next() {
            Some(word) if hexadecimal(word) == Some(*number) => {}
            _ => return false,
        }
    }
    words.next().is_none()
}

/// Whether an answer is this number, or `none` where there is none.
pub fn is_number(answer: &str, found: Option<u64>) -> bool {
    match found {
        Some(number) => hexadecimal(answer) == Some(number),
        None => answer == "none",
    }
}

/// Whether an answer is the sum, the difference and the product of the lanes of two numbers.
fn lane<T: Lane>(a: u64, b: u64, answer: &str) -> bool {
    let (a, b) = (T::from_u64(a), T::from_u64(b));
    let (sum, difference) = (a.add_mod(b).to_u64(), a.sub_mod(b).to_u64());
    are_numbers(answer, &[sum, difference, a.mul_mod(b).to_u64()])
}

/// The same of lanes of so many bits.
fn lanes(numbers: [u64; 4], answer: &str) -> bool {
    let [width, a, b, _] = numbers;
    match width {
        8 => lane::<u8>(a, b, answer),
        16 => lane::<u16>(a, b, answer),
        32 => lane::<u32>(a, b, answer),
        64 => lane::<u64>(a, b, answer),
        _ => false,
    }
}

/// Whether an answer is what is made of the numbers; false where a name or a number is none of a case.
fn is_answer(name: &str, numbers: [u64; 4], answer: &str) -> bool {
    match name {
        "register" => scalars::register(numbers, answer),
        "stack" => scalars::stack(numbers, answer),
        "scalars" => scalars::scalars(numbers, answer),
        "lane" => lanes(numbers, answer),
        "condition" => scalars::condition(numbers, answer),
        _ => bits::is_answer(name, numbers, answer),
    }
}

/// Whether a line of what is asked has this answer; false where it is no case.
pub fn agrees(asked: &str, answer: &str) -> bool {
    let (name, words) = asked.split_once(' ').unwrap_or((asked, ""));
    let mut is_well = true;
    let numbers = numbers_of(words, &mut is_well);
    is_well && is_answer(name, numbers, answer)
}
