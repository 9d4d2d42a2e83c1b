//! The steps that the options ask for, by the symbols of a file.
ghost use Rattle.std.specs.Prelude.{◌≡◌, ◌<◌, ◌-◌, map, string_bytes, IfSome};
ghost use Rattle.std.specs.List.{find};
ghost use Rattle.elf_symbols.specs.Lookup.{has_name};
ghost use Rattle.trace_options.specs.Places.{
  address_at,
  address_named,
  call_at,
  known_address,
  known_number,
  next_above,
  number_at,
  range_at,
  range_of,
  window_of,
};

use crate::options::{Given, TraceFault, TraceWhy, fault};
use crate::window::{Range, Window};
use crate::word::word;
use elf_symbols::{Symbol, address_of};
use line_words::number_of_word;

/// A number from `least` on, or the refusal of the word at a place.
fn known_number(number: Option<u64>, least: u64, place: usize) -> Result<u64, TraceFault>
    ensures { result ≡ known_number place least number }
{
    match number {
        Some(number) if least <= number => Ok(number),
        _ => Err(fault(TraceWhy::BadNumber, place)),
    }
}

/// The number that the word at a place writes, from `least` on, or another where there is no place.
fn number_at(words: &[String], place: Option<usize>, least: u64, or: u64) -> Result<u64, TraceFault>
    ensures { result ≡ number_at (map string_bytes words.now) place least or }
{
    match place {
        None => Ok(or),
        Some(place) => known_number(number_of_word(word(words, place)), least, place),
    }
}

/// The address that a word names: that of the first symbol of its name, or else the number behind `0x`.
fn address_named(symbols: &[Symbol<'_>], word: &str) -> Option<u64>
    ensures { result ≡ address_named symbols.now word.now }
{
    match address_of(symbols, word.as_bytes()) {
        Some(address) => Some(address),
        None if word.starts_with("0x") => number_of_word(word),
        None => None,
    }
}

/// An address, or the refusal of the word at a place.
fn known_address(address: Option<u64>, place: usize) -> Result<Option<u64>, TraceFault>
    ensures { result ≡ known_address place address }
{
    match address {
        None => Err(fault(TraceWhy::UnknownPlace, place)),
        Some(address) => Ok(Some(address)),
    }
}

/// The address that the word at a place names, if there is one.
fn address_at(
    symbols: &[Symbol<'_>],
    words: &[String],
    place: Option<usize>,
) -> Result<Option<u64>, TraceFault>
    ensures { result ≡ address_at symbols.now (map string_bytes words.now) place }
{
    match place {
        None => Ok(None),
        Some(place) => known_address(address_named(symbols, word(words, place)), place),
    }
}

/// Which arrival is the first step, by the address of the first step, if there is one.
fn call_at(words: &[String], place: Option<usize>, from: Option<u64>) -> Result<u64, TraceFault>
    ensures { result ≡ call_at (map string_bytes words.now) place from }
{
    match place {
        Some(place) if from.is_none() => Err(fault(TraceWhy::CallAlone, place)),
        place => number_at(words, place, 1, 1),
    }
}

/// The address of the first of some symbols above an address.
fn next_above(symbols: &[Symbol<'_>], address: u64) -> Option<u64>
    ensures value { result ≡ next_above address symbols.now }
    ensures above { IfSome result (λ next. address < next) }
{
    for symbol in symbols {
        if address < symbol.address {
            return Some(symbol.address);
        }
    }
    None
}

/// The range of a symbol: its size, or where the file tells none, up to the next symbol.
fn range_of(symbols: &[Symbol<'_>], symbol: &Symbol<'_>) -> Range
    ensures { result ≡ range_of symbols.now symbol.now }
{
    let start = symbol.address;
    if symbol.size != 0 {
        return Range {
            start,
            size: symbol.size,
        };
    }
    match next_above(symbols, start) {
        None => Range {
            start,
            size: u64::MAX - start,
        },
        Some(next) => Range {
            start,
            size: next - start,
        },
    }
}

/// The first of some symbols that has a name.
fn symbol_named<'a>(symbols: &[Symbol<'a>], name: &[u8]) -> Option<Symbol<'a>>
    ensures { result ≡ find (has_name name.now) symbols.now }
{
    for symbol in symbols {
        if symbol.name == name {
            return Some(*symbol);
        }
    }
    None
}

/// The range of the symbol that the word at a place names, if there is one.
fn range_at(
    symbols: &[Symbol<'_>],
    words: &[String],
    place: Option<usize>,
) -> Result<Option<Range>, TraceFault>
    ensures { result ≡ range_at symbols.now (map string_bytes words.now) place }
{
    match place {
        None => Ok(None),
        Some(place) => match symbol_named(symbols, word(words, place).as_bytes()) {
            None => Err(fault(TraceWhy::UnknownSymbol, place)),
            Some(symbol) => Ok(Some(range_of(symbols, &symbol))),
        },
    }
}

/// The steps that the options ask for, by the symbols of a file in order, or the first refusal.
pub fn window_of(
    symbols: &[Symbol<'_>],
    words: &[String],
    given: &Given,
) -> Result<Window, TraceFault>
    ensures { result ≡ window_of symbols.now (map string_bytes words.now) given.now }
{
    let from = address_at(symbols, words, given.from)?;
    let call = call_at(words, given.call, from)?;
    let until = address_at(symbols, words, given.until)?;
    let within = range_at(symbols, words, given.range)?;
    let after = number_at(words, given.after, 0, 0)?;
    let steps = number_at(words, given.steps, 1, u64::MAX)?;
    Ok(Window {
        after,
        from,
        call,
        steps,
        until,
        within,
    })
}
