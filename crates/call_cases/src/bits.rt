//! Bitmask immediates, sums, readings of numbers, and the fields of words.
use crate::numbers::{are_numbers, is_number};
use crate::scalars::nzcv;
use emu_bits::{
    Esize, Pred, PredLow, Reg, U, Word, add_flags, bitmask, bitmask_fields, bits, low_bits, sext,
    sign_extended,
};
use emu_model::Length;

/// Whether an answer is what the calls of this file make of numbers; false where a name or a number is none of a case.
pub fn is_answer(name: &str, numbers: [u64; 4], answer: &str) -> bool {
    match name {
        "bitmask" => mask(numbers, answer),
        "fields" => fields(numbers, answer),
        "sum" => sum(numbers, answer),
        "signed" | "low" | "extended" => reading(name, numbers, answer),
        "word" => word(numbers, answer),
        "lanes" => lanes(numbers, answer),
        _ => number(name, low(numbers[0]), answer),
    }
}

/// The low 32 bits of a number.
pub fn low(number: u64) -> u32 {
    (number % (1 << 32)) as u32
}

fn mask(numbers: [u64; 4], answer: &str) -> bool {
    let n = numbers[0] != 0;
    let (immr, imms) = (low(numbers[1]), low(numbers[2]));
    if immr >= 64 || imms >= 64 {
        return false;
    }
    let found = match numbers[3] {
        64 => bitmask(n, immr, imms, 64),
        32 => bitmask(n, immr, imms, 32),
        _ => return false,
    };
    is_number(answer, found)
}

fn fields(numbers: [u64; 4], answer: &str) -> bool {
    let found = match numbers[1] {
        64 => bitmask_fields(numbers[0], 64),
        32 => bitmask_fields(numbers[0], 32),
        _ => return false,
    };
    match found {
        Some((n, immr, imms)) => {
            are_numbers(answer, &[u64::from(n), u64::from(immr), u64::from(imms)])
        }
        None => is_number(answer, None),
    }
}

fn sum(numbers: [u64; 4], answer: &str) -> bool {
    let [a, b, carry, width] = numbers;
    let carry = carry != 0;
    let (sum, flags) = match width {
        64 => add_flags(a, b, carry, 64),
        32 if a <= 0xFFFF_FFFF && b <= 0xFFFF_FFFF => add_flags(a, b, carry, 32),
        _ => return false,
    };
    are_numbers(answer, &[sum, nzcv(flags)])
}

/// A number read as signed, its low bits, or its extension by its sign.
fn reading(name: &str, numbers: [u64; 4], answer: &str) -> bool {
    let v = numbers[0];
    let (count, width) = (low(numbers[1]), low(numbers[2]));
    if count > 64 || width > 64 {
        return false;
    }
    if name == "low" {
        return is_number(answer, Some(low_bits(v, count)));
    }
    if count == 0 {
        return false;
    }
    if name == "signed" {
        return answer.parse::<i64>().ok() == Some(sext(v, count));
    }
    is_number(answer, Some(sign_extended(v, count, width)))
}

fn number(name: &str, v: u32, answer: &str) -> bool {
    let found = match name {
        "number" => twelve_bits(v),
        "predicate" => predicate(v),
        "low-predicate" => low_predicate(v),
        _ => return false,
    };
    is_number(answer, found)
}

/// A number of 12 bits, where it is one.
fn twelve_bits(v: u32) -> Option<u64> {
    match U::<12>::new(v) {
        Some(found) => Some(u64::from(found.get())),
        None => None,
    }
}

/// The number of a predicate, where it is one.
fn predicate(v: u32) -> Option<u64> {
    match Pred::new(v) {
        Some(found) => Some(u64::from(found.get())),
        None => None,
    }
}

/// The number of a low predicate, where it is one.
fn low_predicate(v: u32) -> Option<u64> {
    match PredLow::new(v) {
        Some(found) => Some(u64::from(found.get())),
        None => None,
    }
}

fn word(numbers: [u64; 4], answer: &str) -> bool {
    let begun = Word {
        bits: low(numbers[0]),
    };
    let (Some(number), Some(register)) = (U::<16>::new(low(numbers[2])), Reg::new(low(numbers[3])))
    else {
        return false;
    };
    let word = begun
        .flag(numbers[1] != 0, 31)
        .number(number, 5)
        .reg(register, 0)
        .bits;
    let (read, number) = (bits(word, 20, 5), U::<16>::at(word, 5).get());
    are_numbers(
        answer,
        &[u64::from(word), u64::from(read), u64::from(number)],
    )
}

fn lanes(numbers: [u64; 4], answer: &str) -> bool {
    let size = match numbers[1] {
        8 => Esize::B,
        16 => Esize::H,
        32 => Esize::S,
        64 => Esize::D,
        _ => return false,
    };
    match Length::of_bits(low(numbers[0])) {
        Some(length) => is_number(answer, Some(u64::from(length.lanes(size)))),
        None => false,
    }
}
