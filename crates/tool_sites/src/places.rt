//! Addresses as places by symbols.
ghost use Rattle.std.specs.Prelude.{◌≡◌, [], string_bytes, IfOk, if◌then◌else◌};
ghost use Rattle.std.specs.List.{list_all};
ghost use Rattle.tool_sites.specs.Beside.{end_place};
ghost use Rattle.tool_sites.specs.Sites.{is_shown, nameless, place_by, place_of, shown_name};

use elf_symbols::{Symbol, symbol_at};
use std::alloc::{AllocError, Global};
use std::str;
use tool_texts::Place;

/// Whether bytes have no control character of ASCII.
fn are_shown(bytes: &[u8]) -> bool
    ensures { result ≡ list_all is_shown bytes.now }
{
    bytes.iter().all(|c| 32 <= *c && *c != 127)
}

/// A name as it is shown: empty where it isn't text, or has control characters.
#[tactic(auto, using(crate::proofs::Names::name_steps))]
fn shown_text(name: &[u8]) -> &str
    ensures { result.now ≡ shown_name name.now }
{
    match str::from_utf8(name) {
        Err(_) => "",
        Ok(text) => text_or_none(text, are_shown(name)),
    }
}

/// A text where it is shown, else an empty one.
fn text_or_none(text: &str, shown: bool) -> &str
    ensures { result.now ≡ (if shown then text.now else []) }
{
    if shown { text } else { "" }
}

/// The same as a string. Err is want of memory.
fn shown_name(alloc: Global, name: &[u8]) -> Result<String, AllocError>
    ensures { IfOk result (λ text. string_bytes text ≡ shown_name name.now) }
{
    String::from_str(alloc, shown_text(name))
}

/// What is farther away isn't told: 1 MiB.
pub const NEAR: u64 = 1_048_576;

/// The place of an address without a symbol.
fn nameless(alloc: Global, address: u64) -> Place
    ensures { result ≡ nameless address }
{
    Place::new(address, String::new(alloc), 0)
}

/// The place of an address by a symbol at it or below it. Err is want of memory.
fn place_by(alloc: Global, address: u64, symbol: Option<Symbol<'_>>) -> Result<Place, AllocError>
    ensures { IfOk result (λ place. place ≡ place_by address symbol.entry) }
{
    match symbol {
        Some(symbol) if address.saturating_sub(symbol.address) < NEAR => {
            let name = shown_name(alloc, symbol.name)?;
            Ok(Place::new(address, name, address.saturating_sub(symbol.address)))
        }
        _ => Ok(nameless(alloc, address)),
    }
}

/// The place of an address, by the symbol that reaches it. Err is want of memory.
pub fn place_of(alloc: Global, symbols: &[Symbol<'_>], address: u64) -> Result<Place, AllocError>
    ensures { IfOk result (λ place. place ≡ place_of symbols.now address) }
{
    place_by(alloc, address, symbol_at(symbols, address))
}

/// The place of an address by the end of a symbol, where there is one. Err is want of memory.
pub fn end_place(
    alloc: Global,
    address: u64,
    symbol: Option<Symbol<'_>>,
) -> Result<Place, AllocError>
    ensures { IfOk result (λ place. place ≡ end_place address symbol.entry) }
{
    match symbol {
        None => Ok(nameless(alloc, address)),
        Some(symbol) => Ok(Place::new(address, shown_name(alloc, symbol.name)?, 0)),
    }
}
