//! Tokens of words.
ghost use Rattle.std.specs.Prelude.{◌≡◌, ℕ, ◌<◌, ◌≤◌, true, ◌∷◌, ◌++◌, length};
ghost use Rattle.text_model.specs.Words.{dictionary, two_digits, spelled_word, spelled};
ghost use Rattle.text_print.specs.ByClass.{
  family_at,
  spelled_by,
  is_short_register,
  word_at,
  spelled_at,
  is_short_word,
};

use crate::by_class::{family_place, word_place};
use crate::numerals::{Piece, push_ascii};
use text_code::dictionary::{Family, Word, other_words, register_families};
use text_model::Class;

/// The register of a number: its family's letter, the number, the suffix.
fn register(family: &Family, number: u8) -> Piece
    requires ascii { family.now.letter < 128 }
    requires small { number < 100 }
    requires short { length family.now.suffix.now ≤ 17 }
    ensures { result.bytes ≡ family.now.letter ∷ (two_digits number ++ family.now.suffix.now) }
{
    let mut piece = Piece::new();
    push_ascii(&mut piece, family.letter);
    if number >= 10 {
        push_ascii(&mut piece, b'0' + number / 10);
    }
    push_ascii(&mut piece, b'0' + number % 10);
    piece.push_str(family.suffix);
    piece
}

/// A short text as a token.
fn short(text: &str) -> Piece
    requires { length text.now ≤ 20 }
    ensures { result.bytes ≡ text.now }
{
    let mut piece = Piece::new();
    piece.push_str(text);
    piece
}

/// The family of a class's registers; none where it has no registers.
fn family_of(class: Class) -> Option<&'static Family>
    ensures spelled { (v : ℕ) → spelled class v ≡ spelled_by (family_at result) class v }
    ensures short { is_short_register (family_at result) ≡ true }
{
    register_families().get(family_place(class))
}

/// The only word that can be that of a class and a value, which is no register.
fn word_of(class: Class, value: u128) -> Option<&'static Word>
    ensures spelled { spelled_word dictionary class value ≡ spelled_at (word_at result) class value }
    ensures short { is_short_word (word_at result) ≡ true }
{
    other_words().get(word_place(class, value))
}

/// The word of a class and a value, which is no register; an empty one where there is none.
fn word(class: Class, value: u128) -> Piece
    ensures { result.bytes ≡ spelled_word dictionary class value }
{
    match word_of(class, value) {
        Some(word) => {
            if class.number() == word.class.number() && value == u128::from(word.value) {
                short(word.text)
            } else {
                Piece::new()
            }
        }
        None => Piece::new(),
    }
}

/// The word of a class and a value; an empty one where there is none.
pub fn spelled(class: Class, value: u128) -> Piece
    ensures { result.bytes ≡ spelled class value }
{
    match family_of(class) {
        Some(family) => {
            if value < u128::from(family.count) {
                register(family, value as u8)
            } else {
                word(class, value)
            }
        }
        None => word(class, value),
    }
}
