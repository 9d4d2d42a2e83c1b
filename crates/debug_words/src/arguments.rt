//! The words of a line as arguments of its command.
ghost use Rattle.std.specs.Prelude.{◌≡◌, ◌<◌, ◌+◌, map, length, [], Ok, IfOk};
ghost use Rattle.debug_words.specs.Commands.{
  condition_at,
  has_word,
  number_at,
  number_if,
  number_in,
  number_or,
  or_refused,
  place_at,
  some_condition,
  some_number,
  three_words,
  whole,
  word_at,
};

use crate::commands::Command;
use debug_places::{Condition, Place, Refusal, Why, condition_of, place_of, refuse};
use elf_symbols::Symbol;
use line_words::number_of_word;
use source_lines::Row;

/// The word at a place, and none where there is no such word.
pub fn word_at<'a>(words: &[&'a str], place: usize) -> &'a str
    ensures { result.now ≡ word_at (map (λ word. word.now) words.now) place }
{
    if place < words.len() {
        words[place]
    } else {
        ""
    }
}

/// Whether there is a word at a place.
pub fn has_word(words: &[&str], place: usize) -> bool
    ensures { result ≡ has_word (map (λ word. word.now) words.now) place }
{
    place < words.len()
}

/// A command of so many words, or ExtraWord where there are more.
pub fn whole(words: &[&str], count: usize, command: Command) -> Result<Command, Refusal>
    ensures { result ≡ whole (map (λ word. word.now) words.now) count command }
{
    if count < words.len() {
        return Err(refuse(Why::ExtraWord, count));
    }
    Ok(command)
}

/// A number in a range, or the refusal of the word at a place.
pub fn number_in(place: usize, least: u64, most: u64, number: Option<u64>) -> Result<u64, Refusal>
    ensures { result ≡ number_in place least most number }
{
    match number {
        None => Err(refuse(Why::BadNumber, place)),
        Some(n) => {
            if least <= n && n <= most {
                Ok(n)
            } else {
                Err(refuse(Why::OutOfRange, place))
            }
        }
    }
}

/// The word at a place as a number in a range.
pub fn number_at(words: &[&str], place: usize, least: u64, most: u64) -> Result<u64, Refusal>
    ensures { result ≡ number_at (map (λ word. word.now) words.now) place least most }
{
    if has_word(words, place) {
        number_in(place, least, most, number_of_word(word_at(words, place)))
    } else {
        Err(refuse(Why::MissingWord, place))
    }
}

/// The same, or another number where there is no such word.
pub fn number_or(
    words: &[&str],
    place: usize,
    or: u64,
    least: u64,
    most: u64,
) -> Result<u64, Refusal>
    ensures { result ≡ number_or (map (λ word. word.now) words.now) place or least most }
{
    if has_word(words, place) {
        number_at(words, place, least, most)
    } else {
        Ok(or)
    }
}

/// A number that there is.
fn some_number(number: Result<u64, Refusal>) -> Result<Option<u64>, Refusal>
    ensures { result ≡ some_number number }
{
    match number {
        Ok(n) => Ok(Some(n)),
        Err(refusal) => Err(refusal),
    }
}

/// The word at a place as a number from 1 on, where there is one.
pub fn number_if(words: &[&str], place: usize) -> Result<Option<u64>, Refusal>
    ensures { result ≡ number_if (map (λ word. word.now) words.now) place }
{
    if has_word(words, place) {
        some_number(number_at(words, place, 1, u64::MAX))
    } else {
        Ok(None)
    }
}

/// A place, or the refusal of the word at a place of the line.
fn or_refused(place: usize, read: Result<Place, Why>) -> Result<Place, Refusal>
    ensures { result ≡ or_refused place read }
{
    match read {
        Ok(value) => Ok(value),
        Err(why) => Err(refuse(why, place)),
    }
}

/// The word at a place of the line as a place.
pub fn place_at(
    symbols: &[Symbol<'_>],
    rows: &[Row<'_>],
    words: &[&str],
    place: usize,
) -> Result<Place, Refusal>
    ensures { result ≡ place_at symbols.now rows.now (map (λ word. word.now) words.now) place }
{
    if has_word(words, place) {
        or_refused(place, place_of(symbols, rows, word_at(words, place)))
    } else {
        Err(refuse(Why::MissingWord, place))
    }
}

/// A condition, or the refusal of the word at a place.
fn some_condition(place: usize, condition: Option<Condition>) -> Result<Option<Condition>, Refusal>
    ensures { result ≡ some_condition place condition }
{
    match condition {
        None => Err(refuse(Why::BadCondition, place)),
        Some(condition) => Ok(Some(condition)),
    }
}

/// The condition that the three words from a place on are.
fn three_words(words: &[&str], place: usize) -> Result<Option<Condition>, Refusal>
    requires { place < 8 }
    ensures { result ≡ three_words (map (λ word. word.now) words.now) place }
{
    if has_word(words, place + 2) {
        let left = word_at(words, place);
        let compare = word_at(words, place + 1);
        let right = word_at(words, place + 2);
        some_condition(place, condition_of(left, compare, right))
    } else {
        Err(refuse(Why::MissingWord, words.len()))
    }
}

/// The condition behind `if` at a place, where there are such words.
pub fn condition_at(words: &[&str], place: usize) -> Result<Option<Condition>, Refusal>
    requires { place < 7 }
    ensures { result ≡ condition_at (map (λ word. word.now) words.now) place }
{
    if !has_word(words, place) {
        return Ok(None);
    }
    if word_at(words, place) == "if" {
        three_words(words, place + 1)
    } else {
        Err(refuse(Why::UnknownWord, place))
    }
}
