//! What a token is: a register, or another word of the dictionary.
ghost use Rattle.std.specs.Prelude.{◌≡◌, ◌<◌, length, None, Some, MatchOption, ◌==◌, ◌&&◌, nat_lt};
ghost use Rattle.std.specs.Cmp.Lexicographic.{slice_cmp};
ghost use Rattle.std.specs.Ordering.{nat_cmp};
ghost use Rattle.std.specs.Str.{bytes_eq};
ghost use Rattle.text_model.specs.Statement.{lowered};
ghost use Rattle.text_model.specs.Words.{Numbered, numbered, register_in, dictionary, word_in, register, classed};
ghost use Rattle.text_code.specs.Tables.{families_of};

use crate::dictionary::{Family, other_words, register_families};
use arrayvec::ArrayVec;
use std::cmp::Ordering;
use text_model::{Class, Item};

/// No word has more bytes.
const LONGEST: usize = 12;

/// A token in lower case; none where it is longer than any word.
pub fn lower(token: &[u8]) -> Option<ArrayVec<u8, LONGEST>>
    ensures { MatchOption result (12 < length token.now) (λ l. l.items ≡ lowered token.now) }
{
    if token.len() > LONGEST {
        return None;
    }
    let mut lower = ArrayVec::new();
    for c in token {
        lower.push(c.to_ascii_lowercase());
    }
    Some(lower)
}

/// The number that one or two digits without a leading zero are, and what stands behind them.
fn numbered(bytes: &[u8]) -> Option<(u8, &[u8])>
    ensures { MatchOption result (numbered bytes.now ≡ None)
        (λ r. numbered bytes.now ≡ Some (record { value = r.0; rest = r.1.now })) }
{
    match bytes {
        [c, d, rest @ ..] if c.is_ascii_digit() && d.is_ascii_digit() && *c != b'0' => {
            Some(((c - b'0') * 10 + (d - b'0'), rest))
        }
        [c, rest @ ..] if c.is_ascii_digit() => Some((c - b'0', rest)),
        _ => None,
    }
}

/// Whether a family has a register of this letter, number and suffix.
fn is_of(family: &Family, letter: u8, number: u8, suffix: &[u8]) -> bool
    ensures { result ≡ (letter == family.now.letter
        && (bytes_eq suffix.now family.now.suffix.now && nat_lt number family.now.count)) }
{
    letter == family.letter && suffix == family.suffix.as_bytes() && number < family.count
}

/// The register of this letter, number and suffix.
fn register_among(families: &[Family], letter: u8, number: u8, suffix: &[u8]) -> Option<Item>
    ensures { result ≡ register_in (families_of families.now) letter (record { value = number; rest = suffix.now }) }
{
    for family in families {
        if is_of(family, letter, number, suffix) {
            return Some(Item {
                class: family.class,
                value: i128::from(number),
            });
        }
    }
    None
}

/// The register that a token is.
fn register(token: &[u8]) -> Option<Item>
    ensures { result ≡ register token.now }
{
    let (letter, behind) = token.split_first()?;
    let (number, suffix) = numbered(behind)?;
    register_among(register_families(), *letter, number, suffix)
}

/// How a text stands to a token in the order of their bytes.
pub fn order(text: &str, token: &[u8]) -> Ordering
    ensures { result ≡ slice_cmp nat_cmp text.now token.now }
{
    text.as_bytes().cmp(token)
}

/// The word that a token is.
fn word(token: &[u8]) -> Item
    ensures { result ≡ word_in dictionary token.now }
{
    let words = other_words();
    match words.binary_search_by(|w| order(w.text, token)) {
        Ok(at) => Item {
            class: words[at].class,
            value: i128::from(words[at].value),
        },
        Err(_) => Item {
            class: Class::Unknown,
            value: 0,
        },
    }
}

/// What a token is: a register or another word, whatever the case of its letters.
pub fn item_of_word(token: &[u8]) -> Item
    ensures { result ≡ classed (lowered token.now) }
{
    let Some(lower) = lower(token) else {
        return Item {
            class: Class::Unknown,
            value: 0,
        };
    };
    match register(&lower) {
        Some(register) => register,
        None => word(&lower),
    }
}
