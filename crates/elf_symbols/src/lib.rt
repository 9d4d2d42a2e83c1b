//! The symbols of an ELF file: its functions, data objects and labels, by address.
#![tactic(auto)]

mod entries;
mod fields;
mod lookup;
mod order;
mod sections;

ghost use Rattle.std.specs.Prelude.{◌≡◌, filter, map, IfOk};
ghost use Rattle.std.specs.List.Sorted.{IsPermutation};
ghost use Rattle.elf_symbols.specs.Order.{AreInOrder, stands_with};
ghost use Rattle.elf_symbols.specs.declared.Symbol.{Symbol};
ghost use Rattle.elf_symbols.specs.Symbols.{symbols, seen};

use crate::entries::read_symbols;
use crate::order::sort;
pub use lookup::{address_of, symbol_at, symbols_named};
use std::alloc::{AllocError, Global};

/// Want of memory.
pub type OutOfMemory = AllocError;

/// What a symbol is of, ELF64_ST_TYPE of its st_info.
#[derive(Clone, Copy, Debug, PartialEq, Eq)]
pub enum SymbolKind {
    /// A function, STT_FUNC.
    Function,
    /// A data object, STT_OBJECT.
    Object,
    /// A place of no type, STT_NOTYPE: a label of assembled code, or one that the linker made.
    Label,
}

/// A symbol that is defined in a section and has a name.
#[derive(Clone, Copy, Debug)]
pub struct Symbol<'a> {
    /// Its address, st_value.
    pub address: u64,
    /// Its size in bytes, st_size, or 0 where the file doesn't tell it.
    pub size: u64,
    /// What it is of.
    pub kind: SymbolKind,
    /// Its name: some bytes, none of them 0.
    pub name: &'a [u8],
}

/// The symbols of an ELF64 little-endian file: those of its first SHT_SYMTAB section that are of a function, an object
/// or no type, are defined in a section and have a name, but for the mapping symbols `$x` and `$d`. They are sorted by
/// address, those of one address by size, and those of one size too are in the table's order. Of a file without a table, or with one that is cut or lies outside, they
/// are those that can be read. Err is want of memory.
pub fn symbols<'a>(alloc: Global, file: &'a [u8]) -> Result<Vec<Symbol<'a>>, OutOfMemory>
    ensures same { IfOk result (λ found. IsPermutation (symbols file.now) (map seen found.items)) }
    ensures sorted { IfOk result (λ found. AreInOrder found.items) }
    ensures stable { IfOk result (λ found. (x : Symbol) → filter (stands_with x) (map seen found.items) ≡ filter (stands_with x) (symbols file.now)) }
{
    let mut found = read_symbols(alloc, file)?;
    sort(&mut found)?;
    Ok(found)
}
