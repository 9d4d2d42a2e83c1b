//! Files that have to be texts.
ghost use Rattle.std.specs.Prelude.{◌≡◌, ◌≤◌, ◌+◌, count_by, length, take};
ghost use Rattle.line_words.specs.Lines.{is_newline};
ghost use Rattle.command_lines.specs.Outcome.{file_limit};

/// The line of a place among the bytes of a file, counted from 1.
pub fn line_of_place(bytes: &[u8], place: usize) -> u32
    requires within { place ≤ length bytes.now }
    requires few { length bytes.now ≤ file_limit }
    ensures { result ≡ 1 + count_by is_newline (take place bytes.now) }
{
    1 + count_newlines(&bytes[..place]) as u32
}

/// How many lines end among some bytes.
fn count_newlines(bytes: &[u8]) -> usize
    ensures count { result ≡ count_by is_newline bytes.now }
    ensures few { result ≤ length bytes.now }
{
    bytes.iter().filter(|byte| **byte == b'\n').count()
}
