//! The lines of a text and the words of a line.
ghost use Rattle.std.specs.Prelude.{◌≡◌, ◌<◌, [], get_or, length, map, IfOk};
ghost use Rattle.std.specs.List.{slice_split};
ghost use Rattle.line_words.specs.Lines.{is_comment, is_newline, is_space, lines, words};

use std::alloc::{AllocError, Global};

/// What stands between newlines. Err is want of memory.
fn parts(alloc: Global, text: &str) -> Result<Vec<&str>, AllocError>
    ensures { IfOk result (λ parts. map (λ part. part.now) parts.items ≡ slice_split is_newline text.now) }
{
    text.split('\n').collect(alloc)
}

/// The lines of a text. Err is want of memory.
pub fn lines(alloc: Global, text: &str) -> Result<Vec<&str>, AllocError>
    ensures { IfOk result (λ found. map (λ line. line.now) found.items ≡ lines text.now) }
{
    let mut found = parts(alloc, text)?;
    let behind = found.last().is_none_or(|part| part.is_empty());
    if behind {
        found.pop();
    }
    Ok(found)
}

/// What stands between spaces. Err is want of memory.
fn pieces(alloc: Global, line: &str) -> Result<Vec<&str>, AllocError>
    ensures { IfOk result (λ pieces. map (λ piece. piece.now) pieces.items ≡ slice_split is_space line.now) }
{
    line.split(' ').collect(alloc)
}

/// The words of a line. Err is want of memory.
pub fn words(alloc: Global, line: &str) -> Result<Vec<&str>, AllocError>
    ensures { IfOk result (λ found. map (λ word. word.now) found.items ≡ words line.now) }
{
    let pieces = pieces(alloc, line)?;
    let mut found = Vec::new(alloc);
    for piece in &pieces {
        if !piece.is_empty() {
            found.push(*piece)?;
        }
    }
    Ok(found)
}

/// The text at a place of lines, or of words.
pub fn text_at<'a>(texts: &[&'a str], place: usize) -> &'a str
    requires { place < length texts.now }
    ensures { result.now ≡ get_or (map (λ text. text.now) texts.now) place [] }
{
    texts[place]
}

/// Whether a line is a comment: its first byte is `#`.
pub fn is_comment(line: &str) -> bool
    ensures { result ≡ is_comment line.now }
{
    line.as_bytes().first() == Some(&b'#')
}
