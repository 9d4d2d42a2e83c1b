//! Numbers in the notations of a person's session.
ghost use Rattle.std.specs.Prelude.{◌≡◌, ◌≤◌, ◌<◌, ◌^◌, ◌++◌, ◌∷◌, [], string_bytes, OnOk};
ghost use Rattle.std.specs.Fmt.{decimal};
ghost use Rattle.emu_run.specs.Text.{hex, hex_digit};
ghost use Rattle.debug_texts.specs.Numbers.{bit_digit, bits_text, character, character_text, hex_text, number_text};
ghost use Rattle.debug_texts.specs.Numbers.{signed_text};

use debug_places::Notation;
use std::alloc::AllocError;
use std::fmt::Write;

/// Appends a number in hexadecimal digits behind `0x`.
pub fn push_hex(text: &mut String, n: u64) -> Result<(), AllocError>
    ensures { OnOk result (string_bytes text.new ≡ string_bytes text.old ++ hex_text n) }
{
    text.push_str("0x")?;
    write!(text, "{n:x}")
}

/// Appends a number in decimal digits.
pub fn push_decimal(text: &mut String, n: u64) -> Result<(), AllocError>
    ensures { OnOk result (string_bytes text.new ≡ string_bytes text.old ++ decimal n) }
{
    write!(text, "{n}")
}

/// A hexadecimal digit.
fn hex_digit(digit: u8) -> char
    requires { digit < 16 }
    ensures value { result ≡ hex_digit digit }
    ensures small { result < 128 }
{
    if digit < 10 {
        char::from(b'0' + digit)
    } else {
        char::from(b'a' + (digit - 10))
    }
}

/// Appends so many hexadecimal digits, the highest first.
pub fn push_digits(text: &mut String, v: u64, count: u32) -> Result<(), AllocError>
    requires { count ≤ 16 }
    ensures { OnOk result (string_bytes text.new ≡ string_bytes text.old ++ hex count v) }
{
    'digits: for k in 0..count {
        let digit = (v >> (4 * (count - 1 - k))) % 16;
        text.push(hex_digit(digit as u8))?;
    }
    Ok(())
}

/// Bit k of a number, as a digit.
fn bit_digit(v: u64, k: u32) -> &'static str
    requires { k < 64 }
    ensures { result.now ≡ bit_digit v k }
{
    if (v >> k) % 2 == 1 { "1" } else { "0" }
}

/// Appends so many bits, the highest first.
fn push_bits(text: &mut String, bits: u32, v: u64) -> Result<(), AllocError>
    requires { bits ≤ 64 }
    ensures { OnOk result (string_bytes text.new ≡ string_bytes text.old ++ bits_text bits v) }
{
    'bits: for k in 0..bits {
        text.push_str(bit_digit(v, bits - 1 - k))?;
    }
    Ok(())
}

/// Appends a number of so many bits as one with a sign.
fn push_signed(text: &mut String, bits: u32, v: u64) -> Result<(), AllocError>
    requires least { 1 ≤ bits }
    requires most { bits ≤ 64 }
    requires fits { v < 2 ^ bits }
    ensures { OnOk result (string_bytes text.new ≡ string_bytes text.old ++ signed_text bits v) }
{
    let half = 1u128 << (bits - 1);
    if u128::from(v) < half {
        return push_decimal(text, v);
    }
    text.push_str("-")?;
    push_decimal(text, (2 * half - u128::from(v)) as u64)
}

/// A character that can be shown, and a dot for any other.
pub fn character(v: u8) -> char
    ensures { result ≡ character v }
{
    if 32 <= v && v < 127 {
        char::from(v)
    } else {
        '.'
    }
}

/// Appends the character of the lowest byte, and the number.
fn push_character(text: &mut String, v: u64) -> Result<(), AllocError>
    ensures { OnOk result (string_bytes text.new ≡ string_bytes text.old ++ character_text v) }
{
    text.push_str("'")?;
    text.push(character((v % 256) as u8))?;
    text.push_str("' ")?;
    push_decimal(text, v)
}

/// Appends a number of so many bits in a notation.
pub fn push_number(
    text: &mut String,
    notation: Notation,
    bits: u32,
    v: u64,
) -> Result<(), AllocError>
    requires least { 1 ≤ bits }
    requires most { bits ≤ 64 }
    requires fits { v < 2 ^ bits }
    ensures { OnOk result (string_bytes text.new ≡ string_bytes text.old ++ number_text notation bits v) }
{
    match notation {
        Notation::Hexadecimal | Notation::Text | Notation::Instruction => push_hex(text, v),
        Notation::Signed => push_signed(text, bits, v),
        Notation::Unsigned => push_decimal(text, v),
        Notation::Binary => push_bits(text, bits, v),
        Notation::Character => push_character(text, v),
    }
}
