//! The lines of a program's source as text.
ghost use Rattle.std.specs.Prelude.{◌≡◌, ◌∷◌, [], ◌++◌, map, string_bytes, IfOk, OnOk};
ghost use Rattle.line_words.specs.Lines.{lines};
ghost use Rattle.source_lines.specs.Tables.{seen_line};
ghost use Rattle.source_lines.specs.Texts.{
  file_listing,
  is_listed,
  is_named,
  is_numbered,
  line_name,
  line_text,
  listed_text,
  listing,
  listing_in,
  mark,
  numbered_from,
  numbered_text,
  seen_numbered,
  source_text,
  text_behind,
  text_of,
};

use crate::lookup::place_at;
use crate::rows::{Row, SourcePlace};
use line_words::{lines, text_at};
use std::alloc::{AllocError, Global};
use std::fmt::Write;

/// A line of a file of the source, and its number, counted from 1.
#[derive(Clone, Copy)]
pub struct NumberedLine<'a> {
    pub number: u64,
    pub text: &'a str,
}

/// A file of the source: its name in the table, and its lines.
#[derive(Drop)]
pub struct SourceFile<'a> {
    pub name: &'a str,
    pub lines: Vec<NumberedLine<'a>>,
}

/// How many lines a listing has at most.
const LISTED: u64 = 10;

/// Appends a line with its number. Err is want of memory.
fn push_numbered<'a>(
    numbered: &mut Vec<NumberedLine<'a>>,
    number: u64,
    text: &'a str,
) -> Result<(), AllocError>
    ensures { OnOk result (map seen_numbered numbered.new.items
        ≡ map seen_numbered numbered.old.items ++ (record { number = number; text = text.now }) ∷ []) }
{
    numbered.push(NumberedLine { number, text })?;
    Ok(())
}

/// The lines of a text with their numbers. Err is want of memory.
pub fn numbered_lines(alloc: Global, text: &str) -> Result<Vec<NumberedLine<'_>>, AllocError>
    ensures { IfOk result (λ numbered. map seen_numbered numbered.items ≡ numbered_from 1 (lines text.now)) }
{
    let found = lines(alloc, text)?;
    let mut numbered = Vec::new(alloc);
    for place in 0..found.len() {
        push_numbered(&mut numbered, place as u64 + 1, text_at(&found, place))?;
    }
    Ok(numbered)
}

/// Whether a line has a number.
fn is_numbered(line: &NumberedLine<'_>, number: u64) -> bool
    ensures { result ≡ is_numbered number line.now }
{
    line.number == number
}

/// The text of the line of a number among some, and none where there is no such line.
fn numbered_text<'a>(lines: &[NumberedLine<'a>], number: u64) -> &'a str
    ensures { result.now ≡ numbered_text number lines.now }
{
    for line in lines {
        if is_numbered(line, number) {
            return line.text;
        }
    }
    ""
}

/// Whether a file has a name.
fn is_named(file: &SourceFile<'_>, name: &str) -> bool
    ensures { result ≡ is_named name.now file.now }
{
    file.name == name
}

/// The text of a line of a file, and none where it isn't there.
fn line_text<'a>(files: &[SourceFile<'a>], place: SourcePlace<'_>) -> &'a str
    ensures { result.now ≡ line_text files.now (seen_line place.entry) }
{
    for file in files {
        if is_named(file, place.file) {
            return numbered_text(&file.lines, place.line);
        }
    }
    ""
}

/// Appends the file of a line and its number.
pub fn push_line_name(text: &mut String, place: SourcePlace<'_>) -> Result<(), AllocError>
    ensures { OnOk result (string_bytes text.new ≡ string_bytes text.old ++ line_name (seen_line place.entry)) }
{
    text.push_str(place.file)?;
    text.push_str(":")?;
    write!(text, "{}", place.line)
}

/// Appends the text of a line behind its name.
fn push_text_behind(text: &mut String, line: &str) -> Result<(), AllocError>
    ensures { OnOk result (string_bytes text.new ≡ string_bytes text.old ++ text_behind line.now) }
{
    if line.is_empty() {
        return text.push_str("\n");
    }
    text.push_str("  ")?;
    text.push_str(line)?;
    text.push_str("\n")
}

/// Appends a line of the source: its file, its number and its text.
fn push_line(
    text: &mut String,
    files: &[SourceFile<'_>],
    place: SourcePlace<'_>,
) -> Result<(), AllocError>
    ensures { OnOk result
        (string_bytes text.new ≡ string_bytes text.old ++ text_of files.now (seen_line place.entry)) }
{
    text.push_str("  ")?;
    push_line_name(text, place)?;
    push_text_behind(text, line_text(files, place))
}

/// Appends the line of the source that the code at an address is of; nothing where none is known.
pub fn push_source(
    text: &mut String,
    rows: &[Row<'_>],
    files: &[SourceFile<'_>],
    address: u64,
) -> Result<(), AllocError>
    ensures { OnOk result
        (string_bytes text.new ≡ string_bytes text.old ++ source_text files.now rows.now address) }
{
    match place_at(rows, address) {
        None => Ok(()),
        Some(place) => push_line(text, files, place),
    }
}

/// Whether a number stands among the ten from one on.
fn is_listed(first: u64, number: u64) -> bool
    ensures { result ≡ is_listed first number }
{
    first <= number && number - first < LISTED
}

/// What stands before a listed line: a mark where it is the one of a number.
fn mark(here: u64, number: u64) -> &'static str
    ensures { result.now ≡ mark here number }
{
    if here == number { "=> " } else { "   " }
}

/// Appends a line where it is listed.
fn push_listed(
    text: &mut String,
    first: u64,
    here: u64,
    line: &NumberedLine<'_>,
) -> Result<(), AllocError>
    ensures { OnOk result (string_bytes text.new ≡ string_bytes text.old ++ listed_text first here line.now) }
{
    if !is_listed(first, line.number) {
        return Ok(());
    }
    text.push_str(mark(here, line.number))?;
    write!(text, "{}", line.number)?;
    push_text_behind(text, line.text)
}

/// Appends those of some lines that are listed.
fn push_among(
    text: &mut String,
    lines: &[NumberedLine<'_>],
    first: u64,
    here: u64,
) -> Result<(), AllocError>
    ensures { OnOk result (string_bytes text.new ≡ string_bytes text.old ++ listing_in first here lines.now) }
{
    for line in lines {
        push_listed(text, first, here, line)?;
    }
    Ok(())
}

/// Appends those lines of a file that are listed, where it has a name.
fn push_file(
    text: &mut String,
    file: &SourceFile<'_>,
    name: &str,
    first: u64,
    here: u64,
) -> Result<(), AllocError>
    ensures { OnOk result
        (string_bytes text.new ≡ string_bytes text.old ++ file_listing name.now first here file.now) }
{
    if is_named(file, name) {
        push_among(text, &file.lines, first, here)
    } else {
        Ok(())
    }
}

/// Appends the ten lines of the file of a name from one on, with a mark before the one that is here; nothing where the
/// file or they aren't there.
pub fn push_listing(
    text: &mut String,
    files: &[SourceFile<'_>],
    name: &str,
    first: u64,
    here: u64,
) -> Result<(), AllocError>
    ensures { OnOk result
        (string_bytes text.new ≡ string_bytes text.old ++ listing files.now name.now first here) }
{
    for file in files {
        push_file(text, file, name, first, here)?;
    }
    Ok(())
}
