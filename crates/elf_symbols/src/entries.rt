//! The entries of a symbol table, and the symbols that they make.
ghost use Rattle.std.specs.Prelude.{◌≡◌, ◌+◌, ◌*◌, ◌<◌, ◌≤◌, drop, length, map, IfOk, IfSome, OnOk, ◌++◌};
ghost use Rattle.std.specs.Option.{option_to_list};
ghost use Rattle.std.specs.List.{position};
ghost use Rattle.elf_symbols.specs.Symbols.{
  entry_at,
  entry_count,
  kind_of,
  is_defined,
  is_mapping,
  is_telling,
  is_zero,
  up_to_zero,
  symbol_of,
  symbols,
  first_symbols,
  seen,
};
ghost use Rattle.elf_symbols.specs.Read.{seen_section, seen_entry, seen_name, seen_symbol};

use crate::fields::{byte, doubleword, halfword, word};
use crate::sections::{Section, entries_within, names, symbol_table};
use crate::{OutOfMemory, Symbol, SymbolKind};
use std::alloc::Global;

/// An entry of a symbol table.
#[derive(Clone, Copy, Debug)]
pub struct Entry {
    /// st_name.
    pub name: u32,
    /// st_info.
    pub info: u8,
    /// st_shndx.
    pub section: u16,
    /// st_value.
    pub value: u64,
    /// st_size.
    pub size: u64,
}

/// The bytes of an entry.
const ENTRY_SIZE: usize = 24;
/// SHN_UNDEF.
const UNDEFINED: u16 = 0;
/// SHN_LORESERVE.
const RESERVED: u16 = 0xFF00;
/// SHN_XINDEX.
const EXTENDED: u16 = 0xFFFF;

/// What the symbol of an st_info is of, if it is of a function, an object or no type.
#[tactic(auto, unfolding(crate::specs::Symbols::kind_of))]
fn kind_of(info: u8) -> Option<SymbolKind>
    ensures { result ≡ kind_of info }
{
    match info % 16 {
        0 => Some(SymbolKind::Label),
        1 => Some(SymbolKind::Object),
        2 => Some(SymbolKind::Function),
        _ => None,
    }
}

/// Whether an st_shndx tells a section.
#[tactic(auto, unfolding(crate::specs::Symbols::is_defined))]
fn is_defined(index: u16) -> bool
    ensures { result ≡ is_defined index }
{
    index != UNDEFINED && (index < RESERVED || index == EXTENDED)
}

/// Whether a name is that of a mapping symbol.
#[tactic(auto, unfolding(crate::specs::Symbols::is_mapping))]
fn is_mapping(name: &[u8]) -> bool
    ensures { result ≡ is_mapping name.now }
{
    let marks = name.len() >= 2 && name[0] == b'$' && (name[1] == b'x' || name[1] == b'd');
    marks && (name.len() == 2 || name[2] == b'.')
}

/// Whether a name tells a symbol of a kind.
#[tactic(auto, unfolding(crate::specs::Symbols::is_telling))]
fn is_telling(kind: SymbolKind, name: &[u8]) -> bool
    ensures { result ≡ is_telling kind name.now }
{
    match kind {
        SymbolKind::Function | SymbolKind::Object => !name.is_empty(),
        SymbolKind::Label => !name.is_empty() && !is_mapping(name),
    }
}

/// The place of the first zero byte.
fn place_of_zero(bytes: &[u8]) -> Option<usize>
    ensures place { result ≡ position is_zero bytes.now }
    ensures within { IfSome result (λ place. place < length bytes.now) }
{
    bytes.iter().position(|b| *b == 0)
}

/// The bytes up to a zero byte, if there is one.
#[tactic(auto, unfolding(crate::specs::Symbols::up_to_zero))]
fn up_to_zero(bytes: &[u8]) -> Option<&[u8]>
    ensures { seen_name result ≡ up_to_zero bytes.now }
{
    match place_of_zero(bytes) {
        Some(place) => Some(&bytes[..place]),
        None => None,
    }
}

/// The bytes from an offset on, none where it lies behind them.
fn rest_from(bytes: &[u8], offset: u32) -> &[u8]
    ensures { result.now ≡ drop offset bytes.now }
{
    let start = offset as usize;
    if start < bytes.len() {
        &bytes[start..]
    } else {
        &[]
    }
}

impl Entry {
    /// The entry at an offset in a file.
    fn at(file: &[u8], at: usize) -> Entry
        requires { at + 24 ≤ length file.now }
        ensures { seen_entry result ≡ entry_at file.now at }
    {
        Entry {
            name: word(file, at),
            info: byte(file, at + 4),
            section: halfword(file, at + 6),
            value: doubleword(file, at + 8),
            size: doubleword(file, at + 16),
        }
    }

    /// The symbol of an entry, by the bytes of the string table.
    #[tactic(auto, unfolding(crate::specs::Symbols::symbol_of))]
    fn symbol<'a>(self, strings: &'a [u8]) -> Option<Symbol<'a>>
        ensures { seen_symbol result ≡ symbol_of strings.now (seen_entry self) }
    {
        if !is_defined(self.section) {
            return None;
        }
        let behind = rest_from(strings, self.name);
        match (kind_of(self.info), up_to_zero(behind)) {
            (Some(kind), Some(name)) if is_telling(kind, name) => {
                Some(Symbol {
                    address: self.value,
                    size: self.size,
                    kind,
                    name,
                })
            }
            _ => None,
        }
    }
}

/// How many whole entries of a symbol table lie in a file.
#[tactic(auto, unfolding(crate::specs::Symbols::entry_count))]
fn entry_count(file: &[u8], table: Section) -> usize
    ensures value { result ≡ entry_count file.now (seen_section table) }
    ensures within { 0 < result → table.offset + 24 * result ≤ length file.now }
{
    if table.entry_size == ENTRY_SIZE as u64 {
        entries_within(
            file,
            table.offset,
            ENTRY_SIZE,
            table.size / ENTRY_SIZE as u64,
        )
    } else {
        0
    }
}

/// Appends a symbol, if there is one. Err is want of memory.
fn push_some<'a>(found: &mut Vec<Symbol<'a>>, symbol: Option<Symbol<'a>>) -> Result<(), OutOfMemory>
    ensures { OnOk result (found.new.items ≡ found.old.items ++ option_to_list symbol.entry) }
{
    match symbol {
        Some(symbol) => {
            found.push(symbol)?;
            Ok(())
        }
        None => Ok(()),
    }
}

/// The symbols of a symbol table, in its order. Err is want of memory.
#[tactic(auto, using(crate::proofs::Steps::symbol_steps))]
fn table_symbols<'a>(
    alloc: Global,
    file: &'a [u8],
    table: Section,
) -> Result<Vec<Symbol<'a>>, OutOfMemory>
    ensures { IfOk result (λ found. map seen found.items ≡ first_symbols file.now (seen_section table) (entry_count file.now (seen_section table))) }
{
    let strings = names(file, table);
    let mut found = Vec::new(alloc);
    for index in 0..entry_count(file, table) {
        let entry = Entry::at(file, table.offset as usize + ENTRY_SIZE * index);
        push_some(&mut found, entry.symbol(strings))?;
    }
    Ok(found)
}

/// The symbols of a file, in the order of its table. Err is want of memory.
pub fn read_symbols<'a>(alloc: Global, file: &'a [u8]) -> Result<Vec<Symbol<'a>>, OutOfMemory>
    ensures { IfOk result (λ found. map seen found.items ≡ symbols file.now) }
{
    match symbol_table(file) {
        Some(table) => table_symbols(alloc, file, table),
        None => Ok(Vec::new(alloc)),
    }
}
