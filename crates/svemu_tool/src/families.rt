//! The families of words.
ghost use Rattle.std.specs.Prelude.{◌≡◌, string_bytes, OnOk};
ghost use Rattle.tool_texts.specs.Explanations.{family_line};
ghost use Rattle.word_families.specs.Families.{first_family};
ghost use Rattle.word_families.specs.Texts.{name_of};

use std::alloc::AllocError;
use tool_texts::push_family_line;
use word_families::{GROUPS, family_name, family_of};

/// The word that a text writes: hexadecimal digits, behind `0x` or without it. None where it isn't one of 32 bits.
pub fn word_of(text: &str) -> Option<u32> {
    let digits = match text.strip_prefix("0x") {
        Some(digits) => digits,
        None => text,
    };
    match u32::from_str_radix(digits, 16) {
        Ok(word) => Some(word),
        Err(_) => None,
    }
}

/// Appends the line of a word and its family. Err is want of memory.
pub fn push_family(text: &mut String, word: u32) -> Result<(), AllocError>
    ensures { OnOk result (string_bytes text.new
        ≡ family_line (string_bytes text.old) word (name_of (first_family word GROUPS))) }
{
    push_family_line(text, word, family_name(family_of(word)))
}
