//! Look-ups among symbols, by an address and by a name.
ghost use Rattle.std.specs.Prelude.{◌≡◌, Some, filter, IfOk, if◌then◌else◌};
ghost use Rattle.elf_symbols.specs.Lookup.{reaches, last_reaching, has_name, address_of};

use crate::{OutOfMemory, Symbol};
use std::alloc::Global;

/// Whether an address is at a symbol or above it, and within its size, if it has one.
#[tactic(auto, unfolding(crate::specs::Lookup::reaches))]
fn reaches(symbol: &Symbol<'_>, address: u64) -> bool
    ensures { result ≡ reaches address symbol.now }
{
    symbol.address <= address && (symbol.size == 0 || address - symbol.address < symbol.size)
}

/// A symbol that reaches an address, or else what was found before it.
fn or_before<'a>(found: Option<Symbol<'a>>, symbol: &Symbol<'a>, address: u64) -> Option<Symbol<'a>>
    ensures { result ≡ (if reaches address symbol.now then Some symbol.now else found.entry) }
{
    if reaches(symbol, address) {
        Some(*symbol)
    } else {
        found
    }
}

/// The last of some symbols that reaches an address, which is at it or above it, and within its size, if it has one.
/// Among the symbols of `symbols` it is the nearest one.
#[tactic(auto, using(crate::proofs::Lookups::lookup_steps))]
pub fn symbol_at<'a>(symbols: &[Symbol<'a>], address: u64) -> Option<Symbol<'a>>
    ensures { result ≡ last_reaching address symbols.now }
{
    let mut found = None;
    for symbol in symbols {
        found = or_before(found, symbol, address);
    }
    found
}

/// Whether a symbol has a name.
fn has_name(symbol: &Symbol<'_>, name: &[u8]) -> bool
    ensures { result ≡ has_name name.now symbol.now }
{
    symbol.name == name
}

/// The address of the first of some symbols that has a name.
pub fn address_of(symbols: &[Symbol<'_>], name: &[u8]) -> Option<u64>
    ensures { result ≡ address_of name.now symbols.now }
{
    for symbol in symbols {
        if has_name(symbol, name) {
            return Some(symbol.address);
        }
    }
    None
}

/// All of some symbols that have a name, in their order. Err is want of memory.
pub fn symbols_named<'a>(
    alloc: Global,
    symbols: &[Symbol<'a>],
    name: &[u8],
) -> Result<Vec<Symbol<'a>>, OutOfMemory>
    ensures { IfOk result (λ found. found.items ≡ filter (has_name name.now) symbols.now) }
{
    let mut found = Vec::new(alloc);
    for symbol in symbols {
        if has_name(symbol, name) {
            found.push(*symbol)?;
        }
    }
    Ok(found)
}
