//! The lines of a text.
ghost use Rattle.std.specs.Prelude.{◌≡◌, ◌+◌, ◌<◌, ◌≤◌, drop, length};
ghost use Rattle.std.specs.List.{prefix_len};
ghost use Rattle.std.specs.Str.{IsCharBoundary};
ghost use Rattle.asm_image.specs.TextLines.{IsLine, in_line, start_behind};
ghost use Rattle.listing_model.specs.Lines.{lines_of};

/// How many lines a text has.
pub fn count_lines(text: &str) -> usize
    ensures { result ≡ length (lines_of text.now) }
{
    let bytes = text.as_bytes();
    let mut count = 0;
    let mut is_open = false;
    for c in bytes {
        if !is_open {
            count += 1;
        }
        is_open = *c != b'\n';
    }
    count
}

/// Where the next newline stands from a place on, or the bytes end.
fn newline_from(bytes: &[u8], at: usize) -> usize
    requires { at ≤ length bytes.now }
    ensures end { result ≡ at + prefix_len in_line (drop at bytes.now) }
    ensures within { result ≤ length bytes.now }
{
    let mut to = at;
    while to < bytes.len() && bytes[to] != b'\n' {
        to += 1;
    }
    to
}

/// Where the line that begins at a place ends: before its newline, or with the text.
pub fn line_end(text: &str, at: usize) -> usize
    requires within { at < length text.now }
    requires cut { IsCharBoundary text.now at }
    ensures line { IsLine text.now at result }
{
    newline_from(text.as_bytes(), at)
}

/// Where the next line begins behind one that ends at a place.
pub fn next_start(text: &str, end: usize) -> usize
    ensures { result ≡ start_behind text.now end }
{
    if end < text.len() { end + 1 } else { end }
}
