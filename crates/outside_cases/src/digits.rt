//! The numbers that a case has in its items. Where one isn't in the form of a case, it is 0, and the flag that is lent
//! says that not all is well.
ghost use Rattle.std.specs.Prelude.{◌≤◌, ◌<◌, ◌+◌, ◌*◌, length};

/// A number of hexadecimal digits.
pub fn number(digits: &str, is_well: &mut bool) -> u64 {
    match u64::from_str_radix(digits, 16) {
        Ok(number) => number,
        Err(_) => {
            *is_well = false;
            0
        }
    }
}

/// A decimal number below 2^32.
pub fn small(digits: &str, is_well: &mut bool) -> u32 {
    match u32::from_str_radix(digits, 10) {
        Ok(number) => number,
        Err(_) => {
            *is_well = false;
            0
        }
    }
}

/// The letter of a register's name and the number behind it, which is 100 or more where it has not one or two digits.
pub fn letter_and_number(name: &[u8]) -> (u8, u32) {
    match *name {
        [letter, ones] => (letter, decimal_digit(ones)),
        [letter, tens, ones] => (letter, decimal_digit(tens) * 10 + decimal_digit(ones)),
        _ => (0, 100),
    }
}

/// The number of a decimal digit, or 100.
fn decimal_digit(c: u8) -> u32
    ensures { result ≤ 100 }
{
    match c {
        b'0'..=b'9' => u32::from(c - b'0'),
        _ => 100,
    }
}

/// How many pairs of digits there are, fewer than the bytes of sixteen pages.
pub fn count_of(digits: &[u8], is_well: &mut bool) -> u32
    ensures pairs { result * 2 ≤ length digits.now }
    ensures few { result < 65536 }
{
    let count = digits.len() / 2;
    if digits.len() % 2 == 0 && count < 65_536 {
        count as u32
    } else {
        *is_well = false;
        0
    }
}

/// The byte of the pair of hexadecimal digits at a place.
pub fn byte_at(digits: &[u8], place: u32, is_well: &mut bool) -> u8
    requires { place * 2 + 2 ≤ length digits.now }
{
    let first = place as usize * 2;
    digit(digits[first], is_well) << 4 | digit(digits[first + 1], is_well)
}

/// The number of a hexadecimal digit.
fn digit(c: u8, is_well: &mut bool) -> u8 {
    match c {
        b'0'..=b'9' => c - b'0',
        b'a'..=b'f' => c - b'a' + 10,
        _ => {
            *is_well = false;
            0
        }
    }
}
