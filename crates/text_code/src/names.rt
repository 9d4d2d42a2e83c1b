//! Names found in an index.
ghost use Rattle.std.specs.Prelude.{◌≡◌, true};
ghost use Rattle.text_model.specs.Statement.{lowered};
ghost use Rattle.text_code.specs.Names.{names_of, spots_named, is_searchable};
ghost use Rattle.text_code.specs.Parts.{all_named, are_found, or_spots};

use crate::patterns::{Name, Names, Spot};
use crate::token_words::{lower, order};

/// Where the patterns of a name in lower case stand; nowhere where there is no such name.
fn spots_of_lower(names: &'static [Name], name: &[u8]) -> &'static [Spot]
    requires { is_searchable (names_of names.now) ≡ true }
    ensures { result.now ≡ spots_named (names_of names.now) name.now }
{
    match names.binary_search_by(|n| order(n.name, name)) {
        Ok(at) => names[at].spots,
        Err(_) => &[],
    }
}

/// Where the patterns of a name stand, whatever the case of its letters; nowhere where there is no such name.
fn spots_of(names: &'static [Name], name: &str) -> &'static [Spot]
    requires { is_searchable (names_of names.now) ≡ true }
    ensures { result.now ≡ spots_named (names_of names.now) (lowered name.now) }
{
    match lower(name.as_bytes()) {
        Some(lower) => spots_of_lower(names, &lower),
        None => &[],
    }
}

/// Some spots, or else others.
fn or_spots(spots: &'static [Spot], others: &'static [Spot]) -> &'static [Spot]
    ensures { result.now ≡ or_spots spots.now others.now }
{
    if spots.is_empty() { others } else { spots }
}

/// Where the patterns of a name stand in an index in three parts, whatever the case of its letters.
pub fn spots_in(names: Names, name: &str) -> &'static [Spot]
    requires first { is_searchable (names_of names.first.now) ≡ true }
    requires second { is_searchable (names_of names.second.now) ≡ true }
    requires third { is_searchable (names_of names.third.now) ≡ true }
    requires found { are_found (all_named names) ≡ true }
    ensures { result.now ≡ spots_named (all_named names) (lowered name.now) }
{
    let first = spots_of(names.first, name);
    let second = spots_of(names.second, name);
    let third = spots_of(names.third, name);
    let rest = or_spots(second, third);
    or_spots(first, rest)
}
