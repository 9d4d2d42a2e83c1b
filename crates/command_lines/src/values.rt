//! The values of options, and words that are numbers.
ghost use Rattle.std.specs.Prelude.{◌≡◌};
ghost use Rattle.std.specs.List.{list_all};
ghost use Rattle.command_model.specs.declared.command_line.OptionName.TheVariants.{Vl, Budget, Pages};
ghost use Rattle.command_model.specs.CommandLine.{decimal_of_word, is_decimal, is_decimal_digit};
ghost use Rattle.command_lines.specs.Scan.{checked_word};

use command_model::WordsWhy;
use emu_model::{Length, MOST_MAPPED_PAGES};

/// Whether each byte is a decimal digit.
fn are_digits(bytes: &[u8]) -> bool
    ensures { result ≡ list_all is_decimal_digit bytes.now }
{
    bytes.iter().all(|c| 48 <= *c && *c <= 57)
}

/// Whether the bytes are decimal digits without a leading zero, or `0`.
fn is_decimal(bytes: &[u8]) -> bool
    ensures { result ≡ is_decimal bytes.now }
{
    if bytes.is_empty() || !are_digits(bytes) {
        return false;
    }
    if bytes.len() == 1 {
        return true;
    }
    bytes[0] != 48
}

/// The number that a word writes. None exactly where it isn't a number of at most 2^64 - 1.
pub fn decimal_of_word(word: &str) -> Option<u64>
    ensures { result ≡ decimal_of_word word.now }
{
    if !is_decimal(word.as_bytes()) {
        return None;
    }
    match word.parse::<u64>() {
        Ok(number) => Some(number),
        Err(_) => None,
    }
}

/// The value of `--vl`, in bits: BadNumber where the word isn't a number, BadLength where it isn't a vector length.
pub fn length_of_word(word: &str) -> Result<Length, WordsWhy>
    ensures { result ≡ checked_word Vl word.now }
{
    let Some(bits) = decimal_of_word(word) else {
        return Err(WordsWhy::BadNumber);
    };
    let Ok(bits) = u32::try_from(bits) else {
        return Err(WordsWhy::BadLength);
    };
    match Length::of_bits(bits) {
        Some(length) => Ok(length),
        None => Err(WordsWhy::BadLength),
    }
}

/// The value of `--budget`, in steps: BadNumber where the word isn't a number.
pub fn budget_of_word(word: &str) -> Result<u64, WordsWhy>
    ensures { result ≡ checked_word Budget word.now }
{
    decimal_of_word(word).ok_or(WordsWhy::BadNumber)
}

/// The value of `--pages`: BadNumber where the word isn't a number, OutOfRange where it isn't from 1 to 1,048,576.
pub fn pages_of_word(word: &str) -> Result<u32, WordsWhy>
    ensures { result ≡ checked_word Pages word.now }
{
    let Some(pages) = decimal_of_word(word) else {
        return Err(WordsWhy::BadNumber);
    };
    if pages < 1 || MOST_MAPPED_PAGES < pages {
        return Err(WordsWhy::OutOfRange);
    }
    Ok(pages as u32)
}
