//! The items of a line: numbers, text, and how a call ends. Where one isn't in the form of a case, it is 0, and the
//! flag that is lent says that not all is well.
use line_words::number_of_word;
use linux_calls::CallEnd;
use std::alloc::Global;

/// The value of the first item of a name.
pub fn find<'a>(line: &'a str, name: &str) -> Option<&'a str> {
    for item in line.split(' ') {
        let (found, value) = item.split_once('=').unwrap_or((item, ""));
        if found == name {
            return Some(value);
        }
    }
    None
}

/// The number of the first item of a name, or another where there is none.
pub fn find_number(line: &str, name: &str, other: u64, is_well: &mut bool) -> u64 {
    match find(line, name) {
        Some(text) => number(text, is_well),
        None => other,
    }
}

/// The same below 2^32.
pub fn find_small(line: &str, name: &str, other: u32, is_well: &mut bool) -> u32 {
    let found = find_number(line, name, u64::from(other), is_well);
    small(found, is_well)
}

/// A number that is below 2^32.
pub fn small(number: u64, is_well: &mut bool) -> u32 {
    if number < 1 << 32 {
        return number as u32;
    }
    *is_well = false;
    0
}

/// A number, decimal or behind `0x` hexadecimal; behind a `-` it is taken from 2^64.
pub fn number(text: &str, is_well: &mut bool) -> u64 {
    match text.strip_prefix("-") {
        Some(digits) => 0u64.wrapping_sub(number_above(digits, is_well)),
        None => number_above(text, is_well),
    }
}

/// The same of a word with no `-` before it.
fn number_above(word: &str, is_well: &mut bool) -> u64 {
    match number_of_word(word) {
        Some(number) => number,
        None => {
            *is_well = false;
            0
        }
    }
}

/// Whether text is this number.
pub fn is_number(text: &str, wanted: u64) -> bool {
    let mut is_well = true;
    number(text, &mut is_well) == wanted && is_well
}

/// Seven numbers, with `,` between them; 0 for one that isn't there.
pub fn numbers(text: &str, is_well: &mut bool) -> [u64; 7] {
    let mut found = [0; 7];
    let mut parts = text.split(',');
    for place in found.iter_mut() {
        if let Some(part) = parts.next() {
            *place = number(part, is_well);
        }
    }
    found
}

/// Whether text has just these numbers, with `,` between them.
pub fn are_numbers(text: &str, wanted: &[u64]) -> bool {
    let mut parts = text.split(',');
    for value in wanted {
        match parts.next() {
            Some(part) if is_number(part, *value) => {}
            _ => return false,
        }
    }
    parts.next().is_none()
}

/// An address, and what stands behind the `:` behind it.
pub fn at<'a>(value: &'a str, is_well: &mut bool) -> (u64, &'a str) {
    let (address, rest) = value.split_once(':').unwrap_or((value, ""));
    (number(address, is_well), rest)
}

/// The byte that stands for a byte of text: `.` for 0.
pub fn byte_of(letter: u8) -> u8 {
    if letter == b'.' { 0 } else { letter }
}

/// The bytes of text. It isn't well where memory is wanting.
pub fn bytes_of(alloc: Global, text: &str, is_well: &mut bool) -> Vec<u8> {
    let mut bytes = Vec::new(alloc);
    for letter in text.as_bytes() {
        *is_well = *is_well && bytes.push(byte_of(*letter)).is_ok();
    }
    bytes
}

/// Whether bytes are those of text.
pub fn are_text(bytes: &[u8], text: &str) -> bool {
    let letters = text.as_bytes();
    let mut same = letters.len() == bytes.len();
    for k in 0..letters.len() {
        same = same && k < bytes.len() && bytes[k] == byte_of(letters[k]);
    }
    same
}

/// How a call ends, and x0 behind one that returns.
pub fn end_of(text: &str, is_well: &mut bool) -> (CallEnd, u64) {
    match text {
        "read-fault" => (CallEnd::ReadFault, 0),
        "write-fault" => (CallEnd::WriteFault, 0),
        "errors-fault" => (CallEnd::ErrorsFault, 0),
        _ => match text.strip_prefix("exit/") {
            Some(code) => (CallEnd::Exit(code_of(code, is_well)), 0),
            None => (CallEnd::Returned, number(text, is_well)),
        },
    }
}

/// The code of a program that ends.
fn code_of(text: &str, is_well: &mut bool) -> u8 {
    let code = number_above(text, is_well);
    if code < 256 {
        return code as u8;
    }
    *is_well = false;
    0
}
