//! The order of symbols: by address, and of one address by size.
ghost use Rattle.std.specs.Prelude.{◌≡◌, filter, OnOk};
ghost use Rattle.std.specs.Ordering.{nat_cmp};
ghost use Rattle.std.specs.List.Sorted.{IsPermutation, IsSortedByKey, IsStableByKey};
ghost use Rattle.elf_symbols.specs.Order.{AreInOrder, address_key, size_key, is_beside};
ghost use Rattle.elf_symbols.specs.declared.Symbol.{Symbol};

use crate::{OutOfMemory, Symbol};

/// Sorts symbols by size. Those of one size keep their order.
fn sort_by_size(symbols: &mut Vec<Symbol<'_>>) -> Result<(), OutOfMemory>
    ensures permutation { IsPermutation symbols.old.items symbols.new.items }
    ensures sorted { OnOk result (IsSortedByKey size_key nat_cmp symbols.new.items) }
    ensures stable { OnOk result (IsStableByKey size_key nat_cmp symbols.old.items symbols.new.items) }
{
    symbols.sort_by_key(|symbol| symbol.size)?;
    Ok(())
}

/// Sorts symbols by address. Those of one address keep their order.
fn sort_by_address(symbols: &mut Vec<Symbol<'_>>) -> Result<(), OutOfMemory>
    ensures permutation { IsPermutation symbols.old.items symbols.new.items }
    ensures sorted { OnOk result (IsSortedByKey address_key nat_cmp symbols.new.items) }
    ensures stable { OnOk result (IsStableByKey address_key nat_cmp symbols.old.items symbols.new.items) }
{
    symbols.sort_by_key(|symbol| symbol.address)?;
    Ok(())
}

/// Sorts symbols by address, and those of one address by size. Err is want of memory.
pub fn sort(symbols: &mut Vec<Symbol<'_>>) -> Result<(), OutOfMemory>
    ensures permutation { OnOk result (IsPermutation symbols.old.items symbols.new.items) }
    ensures sorted { OnOk result (AreInOrder symbols.new.items) }
    ensures stable { OnOk result ((x : Symbol) → filter (is_beside x) symbols.new.items ≡ filter (is_beside x) symbols.old.items) }
{
    sort_by_size(symbols)?;
    sort_by_address(symbols)?;
    Ok(())
}
