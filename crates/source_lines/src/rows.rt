//! The rows of a table of lines, and why a table is refused.
ghost use Rattle.std.specs.Prelude.{◌≡◌};

use thiserror::Error;

/// A line of a file, counted from 1.
#[derive(Clone, Copy)]
pub struct SourcePlace<'a> {
    pub file: &'a str,
    pub line: u64,
}

/// A row: the code from an address on, up to that of the next row, is of a line; or of none that is known.
#[derive(Clone, Copy)]
pub struct Row<'a> {
    pub address: u64,
    pub place: Option<SourcePlace<'a>>,
}

/// Why a table is refused.
#[derive(Clone, Copy, Debug, Error)]
pub enum TableWhy {
    #[error("more than 1,000,000 lines")]
    TooManyLines,
    #[error("a word is missing")]
    MissingWord,
    #[error("not an address of at most 2^64 - 1")]
    BadAddress,
    #[error("not a line's number of at most 2^64 - 1, from 1 on")]
    BadLine,
    #[error("a word too many")]
    ExtraWord,
    #[error("an address below that of the row before")]
    OutOfOrder,
}

/// A refused table: why, and the line of its text, counted from 1. Where there are too many lines it is 1,000,001.
#[derive(Clone, Copy, Debug, Error)]
#[error("{why} at line {line}")]
pub struct TableFault {
    pub line: u32,
    pub why: TableWhy,
}
