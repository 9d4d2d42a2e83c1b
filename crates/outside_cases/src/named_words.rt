//! A word with the name of its form, against the instruction that it is.
use crate::names::form_name;
use insn_decode::{Insn, again, decode, encode};

/// Whether the word of a line is an instruction of the form that the line names, and that instruction's word; or is in
/// no row, as the line says.
pub fn line_agrees(line: &str) -> bool {
    let mut columns = line.split('\t');
    let (Some(digits), Some(form)) = (columns.next(), columns.next()) else {
        return false;
    };
    match u32::from_str_radix(digits, 16) {
        Ok(word) => word_agrees(word, form),
        Err(_) => false,
    }
}

/// The same of a word and the form that is named for it.
fn word_agrees(word: u32, form: &str) -> bool {
    match decode(word) {
        Some(insn) => form_name(&insn) == form && encode(&insn) == word && is_again(&insn, word),
        None => form == "-",
    }
}

/// Whether the instruction that an instruction is again has this word.
fn is_again(insn: &Insn, word: u32) -> bool {
    match again(insn) {
        Some(same) => encode(&same) == word,
        None => false,
    }
}
