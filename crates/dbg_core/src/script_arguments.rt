//! The words of a line as arguments of its command.
ghost use Rattle.std.specs.Prelude.{◌≡◌, map};
ghost use Rattle.dbg_model.specs.Script.{number_argument, in_range, number_within, size_argument, size_of_word};

use dbg_model::ScriptWhy;
use emu_bits::Esize;
use line_words::number_of_word;

/// A number in a range, or OutOfRange.
fn in_range(least: u64, most: u64, n: u64) -> Result<u64, ScriptWhy>
    ensures { result ≡ in_range least most n }
{
    if least <= n && n <= most {
        Ok(n)
    } else {
        Err(ScriptWhy::OutOfRange)
    }
}

/// A word as a number in a range.
fn number_within(least: u64, most: u64, word: &str) -> Result<u64, ScriptWhy>
    ensures { result ≡ number_within least most word.now }
{
    match number_of_word(word) {
        None => Err(ScriptWhy::BadNumber),
        Some(n) => in_range(least, most, n),
    }
}

/// The word at a place as a number in a range: MissingWord, then BadNumber, then OutOfRange.
pub fn argument(words: &[&str], place: usize, least: u64, most: u64) -> Result<u64, ScriptWhy>
    ensures { result ≡ number_argument (map (λ word. word.now) words.now) place least most }
{
    match words.get(place) {
        None => Err(ScriptWhy::MissingWord),
        Some(word) => number_within(least, most, word),
    }
}

/// The size of lanes that a letter names, or OutOfRange.
fn size_of_word(word: &str) -> Result<Esize, ScriptWhy>
    ensures { result ≡ size_of_word word.now }
{
    if word == "b" {
        Ok(Esize::B)
    } else if word == "h" {
        Ok(Esize::H)
    } else if word == "s" {
        Ok(Esize::S)
    } else if word == "d" {
        Ok(Esize::D)
    } else {
        Err(ScriptWhy::OutOfRange)
    }
}

/// The word at a place as the size of lanes: MissingWord, then OutOfRange.
pub fn size_argument(words: &[&str], place: usize) -> Result<Esize, ScriptWhy>
    ensures { result ≡ size_argument (map (λ word. word.now) words.now) place }
{
    match words.get(place) {
        None => Err(ScriptWhy::MissingWord),
        Some(word) => size_of_word(word),
    }
}
