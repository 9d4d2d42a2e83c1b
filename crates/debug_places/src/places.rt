//! Addresses as a person writes them.
ghost use Rattle.std.specs.Prelude.{◌≡◌};
ghost use Rattle.std.specs.Option.{option_map};
ghost use Rattle.line_words.specs.Lines.{number_of_word};
ghost use Rattle.line_words.specs.Refusals.{and_then};
ghost use Rattle.debug_places.specs.Places.{
  address_in,
  address_or,
  base_of,
  is_other,
  line_address,
  minus_by,
  one_address,
  other_address_of,
  place_of,
  placed_alone,
  plus_by,
  register_or,
  taken_away,
  with_offset,
};
ghost use Rattle.debug_names.specs.Registers.{cut, seen_parts};

use crate::refusals::Why;
use debug_names::{Register, register_of};
use elf_symbols::{Symbol, address_of};
use line_words::number_of_word;
use source_lines::{Row, address_of_line};

/// What a place begins with: an address, or the value of a register.
#[derive(Clone, Copy)]
pub enum Base {
    At(u64),
    Of(Register),
}

/// A place: what is added to its base, modulo 2^64.
#[derive(Clone, Copy)]
pub struct Place {
    pub base: Base,
    pub plus: u64,
}

/// A word cut at its first plus.
fn cut_at_plus(word: &str) -> Option<(&str, &str)>
    ensures { seen_parts result ≡ cut 43 word.now }
{
    word.split_once('+')
}

/// A word cut at its first minus.
fn cut_at_minus(word: &str) -> Option<(&str, &str)>
    ensures { seen_parts result ≡ cut 45 word.now }
{
    word.split_once('-')
}

/// Whether a symbol has a name, but another address.
fn is_other(symbol: &Symbol<'_>, name: &[u8], first: u64) -> bool
    ensures { result ≡ is_other name.now first symbol.now }
{
    symbol.name == name && symbol.address != first
}

/// The address of the first of some symbols that has a name, but another address.
fn other_address_of(symbols: &[Symbol<'_>], name: &[u8], first: u64) -> Option<u64>
    ensures { result ≡ other_address_of name.now first symbols.now }
{
    for symbol in symbols {
        if is_other(symbol, name, first) {
            return Some(symbol.address);
        }
    }
    None
}

/// The one address of a name, or that there are two.
fn one_address(first: u64, other: Option<u64>) -> Result<Base, Why>
    ensures { result ≡ one_address first other }
{
    match other {
        None => Ok(Base::At(first)),
        Some(other) => Err(Why::TwoSymbols(first, other)),
    }
}

/// A number as an address, or a refusal.
fn address_or(why: Why, number: Option<u64>) -> Result<Base, Why>
    ensures { result ≡ address_or why number }
{
    match number {
        None => Err(why),
        Some(address) => Ok(Base::At(address)),
    }
}

/// A symbol's address, or else a number.
fn symbol_base(symbols: &[Symbol<'_>], name: &str) -> Result<Base, Why>
    ensures { result ≡ register_or symbols.now name.now None }
{
    match address_of(symbols, name.as_bytes()) {
        None => address_or(Why::UnknownPlace, number_of_word(name)),
        Some(first) => one_address(first, other_address_of(symbols, name.as_bytes(), first)),
    }
}

/// What a place begins with.
fn base_of(symbols: &[Symbol<'_>], word: &str) -> Result<Base, Why>
    ensures { result ≡ base_of symbols.now word.now }
{
    match word.strip_prefix("*") {
        Some(digits) => address_or(Why::BadNumber, number_of_word(digits)),
        None => match register_of(word) {
            Some(register) => Ok(Base::Of(register)),
            None => symbol_base(symbols, word),
        },
    }
}

/// A base with what is added.
fn with_offset(base: Base, plus: Option<u64>) -> Result<Place, Why>
    ensures { result ≡ with_offset base plus }
{
    match plus {
        None => Err(Why::BadNumber),
        Some(plus) => Ok(Place { base, plus }),
    }
}

/// What is added where so much is taken away.
fn taken_away(n: u64) -> u64
    ensures { result ≡ taken_away n }
{
    0u64.wrapping_sub(n)
}

/// The place of a base alone.
fn plain_place(base: Result<Base, Why>) -> Result<Place, Why>
    ensures { result ≡ and_then base placed_alone }
{
    match base {
        Err(why) => Err(why),
        Ok(base) => Ok(Place { base, plus: 0 }),
    }
}

/// The place of a base with what is added.
fn place_with(base: Result<Base, Why>, plus: Option<u64>) -> Result<Place, Why>
    ensures { result ≡ and_then base (λ b. with_offset b plus) }
{
    match base {
        Err(why) => Err(why),
        Ok(base) => with_offset(base, plus),
    }
}

/// The number that is added where a word tells what is taken away.
fn number_taken_away(digits: &str) -> Option<u64>
    ensures { result ≡ option_map taken_away (number_of_word digits.now) }
{
    match number_of_word(digits) {
        None => None,
        Some(n) => Some(taken_away(n)),
    }
}

/// The place of a word that has no plus.
fn place_without_plus(symbols: &[Symbol<'_>], word: &str) -> Result<Place, Why>
    ensures { result ≡ minus_by symbols.now word.now (cut 45 word.now) }
{
    match cut_at_minus(word) {
        None => plain_place(base_of(symbols, word)),
        Some((name, digits)) => place_with(base_of(symbols, name), number_taken_away(digits)),
    }
}

/// A word cut at its first colon.
fn cut_at_colon(word: &str) -> Option<(&str, &str)>
    ensures { seen_parts result ≡ cut 58 word.now }
{
    word.split_once(':')
}

/// The address of the first row of a line of a file, where the line's number is told.
fn address_in(rows: &[Row<'_>], file: &str, line: Option<u64>) -> Option<u64>
    ensures { result ≡ address_in rows.now file.now line }
{
    match line {
        None => None,
        Some(line) => address_of_line(rows, file, line),
    }
}

/// The address of the line that a word names.
fn line_address(rows: &[Row<'_>], word: &str) -> Option<u64>
    ensures { result ≡ line_address rows.now word.now }
{
    match cut_at_colon(word) {
        None => None,
        Some((file, digits)) => address_in(rows, file, number_of_word(digits)),
    }
}

/// The place of a word that names no line.
fn place_without_line(symbols: &[Symbol<'_>], word: &str) -> Result<Place, Why>
    ensures { result ≡ plus_by symbols.now word.now (cut 43 word.now) }
{
    match cut_at_plus(word) {
        None => place_without_plus(symbols, word),
        Some((name, digits)) => place_with(base_of(symbols, name), number_of_word(digits)),
    }
}

/// The place that a word is: that of the line that it names, where the rows have it; or else the refusal of what stands
/// before the sign, and then of the number behind it.
pub fn place_of(symbols: &[Symbol<'_>], rows: &[Row<'_>], word: &str) -> Result<Place, Why>
    ensures { result ≡ place_of symbols.now rows.now word.now }
{
    match line_address(rows, word) {
        None => place_without_line(symbols, word),
        Some(address) => Ok(Place {
            base: Base::At(address),
            plus: 0,
        }),
    }
}
