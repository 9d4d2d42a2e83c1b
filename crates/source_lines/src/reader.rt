//! A table line by line.
ghost use Rattle.std.specs.Prelude.{◌≡◌, ◌≤◌, [], ◌∷◌, ◌++◌, OnOk, MatchResult, Ok, length, map};
ghost use Rattle.line_words.specs.Reading.{IsErrorOf, Leaves};
ghost use Rattle.line_words.specs.Refusals.{at_line, read_lines};
ghost use Rattle.source_lines.specs.Errors.{fault_in};
ghost use Rattle.source_lines.specs.Tables.{fault_at, has_no_row, is_below_last, read_line, seen, table};

use crate::rows::{Row, TableFault, TableWhy};
use crate::words::row_of;
use line_words::{is_comment, lines, text_at, words};
use std::alloc::{AllocError, Global};
use thiserror::Error;

/// The greatest number of lines.
const MOST_LINES: usize = 1_000_000;

/// Why there is no table: it is refused, or memory is wanting.
#[derive(Clone, Copy, Debug, Error)]
pub enum TableError {
    #[error("{0}")]
    Refused(TableFault),
    #[error("out of memory")]
    OutOfMemory,
}

impl From<AllocError> for TableError {
    ghost use Rattle.source_lines.specs.declared.reader.TableError.TheVariants.{OutOfMemory};

    ghost from_gives = { λ _ e. e ≡ OutOfMemory };

    fn from(_: AllocError) -> TableError {
        TableError::OutOfMemory
    }
}

/// A refusal in a line.
fn refused(why: TableWhy, number: usize) -> TableError
    requires { number ≤ 1000001 }
    ensures { result ≡ TableError.Refused (record { line = number; why = why }) }
{
    TableError::Refused(TableFault {
        line: number as u32,
        why,
    })
}

/// Whether a line is skipped: it is empty, or a comment.
fn is_skipped(line: &str) -> bool
    ensures { result ≡ has_no_row line.now }
{
    line.is_empty() || is_comment(line)
}

/// Whether an address is below that of the last of some rows.
fn is_below_last(rows: &[Row<'_>], address: u64) -> bool
    ensures { result ≡ is_below_last (map seen rows.now) address }
{
    if rows.is_empty() {
        return false;
    }
    address < rows[rows.len() - 1].address
}

/// Appends a row. Err is want of memory.
fn push<'a>(rows: &mut Vec<Row<'a>>, row: Row<'a>) -> Result<(), AllocError>
    ensures { OnOk result (map seen rows.new.items ≡ map seen rows.old.items ++ seen row.entry ∷ []) }
{
    rows.push(row)?;
    Ok(())
}

/// Reads a line behind those before it.
fn read_line<'a>(
    alloc: Global,
    rows: &mut Vec<Row<'a>>,
    line: &'a str,
    number: usize,
) -> Result<(), TableError>
    requires { number ≤ 1000001 }
    ensures { Leaves fault_in (at_line fault_at number (read_line (map seen rows.old.items) line.now))
        (map seen rows.new.items) result }
{
    if is_skipped(line) {
        return Ok(());
    }
    let found = words(alloc, line)?;
    let row = match row_of(&found) {
        Ok(row) => row,
        Err(why) => return Err(refused(why, number)),
    };
    if is_below_last(rows, row.address) {
        return Err(refused(TableWhy::OutOfOrder, number));
    }
    push(rows, row)?;
    Ok(())
}

/// Reads the lines one after the other behind the rows before them.
fn read_lines<'a>(
    alloc: Global,
    lines: &[&'a str],
    rows: &mut Vec<Row<'a>>,
) -> Result<(), TableError>
    requires { length lines.now ≤ 1000000 }
    ensures { Leaves fault_in (read_lines fault_at read_line (map seen rows.old.items) 1
        (map (λ line. line.now) lines.now)) (map seen rows.new.items) result }
{
    for place in 0..lines.len() {
        read_line(alloc, rows, text_at(lines, place), place + 1)?;
    }
    Ok(())
}

/// Reads a table: a row in each line, but for empty lines and lines that begin with `#`. The addresses don't fall.
///
/// The refusal is the first: TooManyLines, with line 1,000,001, where there are more than 1,000,000 lines; then line by
/// line MissingWord, BadAddress, MissingWord, ExtraWord, BadLine and OutOfOrder. OutOfMemory is want of memory.
pub fn read_table(alloc: Global, text: &str) -> Result<Vec<Row<'_>>, TableError>
    ensures { MatchResult result (λ rows. table text.now ≡ Ok (map seen rows.items))
        (λ error. IsErrorOf (table text.now) (fault_in error)) }
{
    let found = lines(alloc, text)?;
    if found.len() > MOST_LINES {
        return Err(refused(TableWhy::TooManyLines, MOST_LINES + 1));
    }
    let mut rows = Vec::new(alloc);
    match read_lines(alloc, &found, &mut rows) {
        Ok(()) => Ok(rows),
        Err(error) => Err(error),
    }
}
