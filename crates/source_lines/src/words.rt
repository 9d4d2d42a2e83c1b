//! The words of a line as a row.
ghost use Rattle.std.specs.Prelude.{◌≡◌, ◌≤◌, length, map};
ghost use Rattle.source_lines.specs.Tables.{address, numbered, place_of, row_of, seen_place_read, seen_read};

use crate::rows::{Row, SourcePlace, TableWhy};
use line_words::{number_of_word, text_at};

/// The address that a word writes, or BadAddress.
fn address(word: &str) -> Result<u64, TableWhy>
    ensures { result ≡ address word.now }
{
    match number_of_word(word) {
        None => Err(TableWhy::BadAddress),
        Some(number) => Ok(number),
    }
}

/// A line of a file by the word that tells its number, or BadLine.
fn numbered<'a>(file: &'a str, number: Option<u64>) -> Result<Option<SourcePlace<'a>>, TableWhy>
    ensures { seen_place_read result ≡ numbered file.now number }
{
    match number {
        Some(line) if line >= 1 => Ok(Some(SourcePlace { file, line })),
        _ => Err(TableWhy::BadLine),
    }
}

/// What the words behind an address say of the line: `-` that none is known, or else a file and the line's number.
fn place_of<'a>(words: &[&'a str]) -> Result<Option<SourcePlace<'a>>, TableWhy>
    requires { 2 ≤ length words.now }
    ensures { seen_place_read result ≡ place_of (map (λ word. word.now) words.now) }
{
    let file = text_at(words, 1);
    if file == "-" {
        return if words.len() > 2 {
            Err(TableWhy::ExtraWord)
        } else {
            Ok(None)
        };
    }
    if words.len() < 3 {
        return Err(TableWhy::MissingWord);
    }
    if words.len() > 3 {
        return Err(TableWhy::ExtraWord);
    }
    numbered(file, number_of_word(text_at(words, 2)))
}

/// The row that a line's words are, or its first refusal: MissingWord where there are fewer than two words, BadAddress,
/// then ExtraWord behind `-`, and else MissingWord, ExtraWord and BadLine.
pub fn row_of<'a>(words: &[&'a str]) -> Result<Row<'a>, TableWhy>
    ensures { seen_read result ≡ row_of (map (λ word. word.now) words.now) }
{
    if words.len() < 2 {
        return Err(TableWhy::MissingWord);
    }
    let address = address(text_at(words, 0))?;
    let place = place_of(words)?;
    Ok(Row { address, place })
}
