//! The lines of counts.
ghost use Rattle.std.specs.Prelude.{◌≡◌, ◌<◌, ◌≤◌, ◌*◌, ◌/◌, ◌++◌, ◌^◌, ℕ, true, string_bytes, OnOk};
ghost use Rattle.word_counts.specs.Counts.{count_at};
ghost use Rattle.word_counts.specs.Lines.{count_lines, counts_text, hex_digits, is_unmet, lines_from, word_line};

use crate::table::WordCounts;
use std::alloc::AllocError;

/// How many pages there are: their words have addresses below 2^64.
const PAGES: u64 = 4_503_599_627_370_496;

/// Appends the last hexadecimal digits of a number, so many. Err is want of memory.
fn push_hex(text: &mut String, count: u32, n: u64) -> Result<(), AllocError>
    ensures { OnOk result (string_bytes text.new ≡ string_bytes text.old ++ hex_digits count n) }
{
    if count == 0 {
        return Ok(());
    }
    push_hex(text, count - 1, n / 16)?;
    let digit = n % 16;
    write!(text, "{digit:x}")
}

/// Whether no table has counted a word.
fn is_unmet(tables: &[WordCounts], word: u64) -> bool
    ensures { result ≡ is_unmet count_at tables.now word }
{
    tables.iter().all(|table| table.count(word) == 0)
}

/// Appends the counts of a word. Err is want of memory.
fn push_counts(text: &mut String, tables: &[WordCounts], word: u64) -> Result<(), AllocError>
    ensures { OnOk result (string_bytes text.new ≡ string_bytes text.old ++ counts_text count_at tables.now word) }
{
    for table in tables {
        let count = table.count(word);
        text.push_str(" ")?;
        write!(text, "{count}")?;
    }
    Ok(())
}

/// Appends the line of a word, where some run executed it. Err is want of memory.
fn push_word(text: &mut String, tables: &[WordCounts], word: u64) -> Result<(), AllocError>
    requires { word < 2 ^ 62 }
    ensures { OnOk result (string_bytes text.new ≡ string_bytes text.old ++ word_line count_at tables.now word) }
{
    if is_unmet(tables, word) {
        return Ok(());
    }
    push_hex(text, 16, 4 * word)?;
    push_counts(text, tables, word)?;
    text.push_str("\n")
}

/// Appends the lines of the words of a page. Err is want of memory.
fn push_page(text: &mut String, tables: &[WordCounts], page: u64) -> Result<(), AllocError>
    requires { page < 2 ^ 52 }
    ensures { OnOk result (string_bytes text.new
        ≡ string_bytes text.old ++ lines_from count_at tables.now (1024 * page) 1024) }
{
    let first = 1024 * page;
    for word in first..first + 1024 {
        push_word(text, tables, word)?;
    }
    Ok(())
}

/// The least page from one on that some table has counts of, and the number of all pages where there is none: no word
/// of the pages before it was executed.
fn next_page(tables: &[WordCounts], from: u64) -> u64
    requires { from ≤ 2 ^ 52 }
    ensures from { from ≤ result }
    ensures most { result ≤ 2 ^ 52 }
    ensures unmet { (word : ℕ) → from ≤ word / 1024 → word / 1024 < result
        → is_unmet count_at tables.now word ≡ true }
{
    let mut least = PAGES;
    for table in tables {
        least = table.least_page(from, least);
    }
    least
}

/// Appends the lines of counts: of each word that some of these tables has counted its address and its count in each of
/// them, in order of addresses. Err is want of memory.
pub fn push_lines(text: &mut String, tables: &[WordCounts]) -> Result<(), AllocError>
    ensures { OnOk result (string_bytes text.new ≡ string_bytes text.old ++ count_lines count_at tables.now) }
{
    // the first page of which nothing was told
    let mut next = 0;
    'pages: while next < PAGES {
        let page = next_page(tables, next);
        if page == PAGES {
            return Ok(());
        }
        push_page(text, tables, page)?;
        next = page + 1;
    }
    Ok(())
}
