//! The items of a statement.
ghost use Rattle.std.specs.Prelude.{◌≡◌, ◌<◌, ◌==◌, ◌&&◌, not, ◌∷◌, [], false, drop, length, IfSome, MatchOption};
ghost use Rattle.std.specs.Str.{IsCharBoundary};
ghost use Rattle.asm_tokens.specs.Tokens.{tokens, is_word_byte, dot};
ghost use Rattle.text_model.specs.Statement.{items_from, items_of, is_label, ends_in_label};
ghost use Rattle.text_model.specs.declared.classes.Class.TheVariants.{Number};
ghost use Rattle.text_model.specs.Words.{item};
ghost use Rattle.text_code.specs.Places.{IsLastLabel};

use crate::filling::MOST;
use crate::token_words::item_of_word;
use arrayvec::ArrayVec;
use asm_tokens::{next_token, number};
use text_model::{Class, Item};

/// Where a token stands.
pub use asm_tokens::Token;

/// A number as an item.
fn item_of_number(value: i128) -> Item
    ensures { result ≡ item Number value }
{
    Item {
        class: Class::Number,
        value,
    }
}

/// The item that a statement goes on with at a place, and the place behind it; none where no token is left.
fn next_item(rest: &str, at: usize) -> Option<(Item, usize)>
    requires { IsCharBoundary rest.now at }
    ensures item { MatchOption result (tokens (drop at rest.now) ≡ [])
        (λ r. items_from 0 (tokens (drop at rest.now)) ≡ r.0 ∷ items_from 0 (tokens (drop r.1 rest.now))) }
    ensures cut { IfSome result (λ r. IsCharBoundary rest.now r.1) }
    ensures behind { IfSome result (λ r. at < r.1) }
{
    let token = next_token(rest, at)?;
    match number(rest, at) {
        Some((value, to)) => Some((item_of_number(value), to)),
        None => Some((
            item_of_word(&rest.as_bytes()[token.from..token.to]),
            token.to,
        )),
    }
}

/// The items of a statement behind its name; none where there are more than any instruction's text has.
pub fn items(rest: &str) -> Option<ArrayVec<Item, MOST>>
    ensures { MatchOption result (24 < length (items_of (tokens rest.now)))
        (λ is. is.items ≡ items_of (tokens rest.now)) }
{
    let mut items = ArrayVec::new();
    let mut at = 0;
    while let Some((item, to)) = next_item(rest, at) {
        if items.is_full() {
            return None;
        }
        items.push(item);
        at = to;
    }
    Some(items)
}

/// Whether a byte may stand in a label.
fn is_label_byte(c: u8) -> bool
    ensures { result ≡ (is_word_byte c && not (c == dot)) }
{
    (c.is_ascii_alphanumeric() || c == b'_' || c == b'.') && c != b'.'
}

/// Whether a token is a label: letters, digits and `_`, not beginning with a digit.
fn is_label(token: &[u8]) -> bool
    ensures { result ≡ is_label token.now }
{
    match token {
        [first, ..] => { !first.is_ascii_digit() && token.iter().all(|c| is_label_byte(*c)) }
        [] => false,
    }
}

/// The last token of a statement, if it is a label.
pub fn last_label(rest: &str) -> Option<Token>
    ensures { MatchOption result (ends_in_label (tokens rest.now) ≡ false) (λ t. IsLastLabel rest.now t.from t.to) }
{
    let mut last = next_token(rest, 0)?;
    while let Some(token) = next_token(rest, last.to) {
        last = token;
    }
    if is_label(&rest.as_bytes()[last.from..last.to]) {
        Some(last)
    } else {
        None
    }
}
