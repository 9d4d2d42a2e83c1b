//! Runs of bytes in a text.
ghost use Rattle.std.specs.Prelude.{◌≡◌, ◌+◌, ◌<◌, ◌≤◌, false, drop, length};
ghost use Rattle.std.specs.List.{prefix_len};
ghost use Rattle.asm_tokens.specs.Kinds.{is_of};
ghost use Rattle.asm_tokens.specs.Tokens.{begins_comment, piece_length, string_length};

/// A kind of bytes.
#[derive(Clone, Copy)]
pub enum Kind {
    /// A letter, a digit, `_` or `.`.
    Word,
    /// A space or a tab.
    Blank,
    /// A further byte of a character.
    Continuation,
}

/// Whether a byte is of a kind.
fn is_kind(kind: Kind, c: u8) -> bool
    ensures { result ≡ is_of kind c }
{
    match kind {
        Kind::Word => c.is_ascii_alphanumeric() || c == b'_' || c == b'.',
        Kind::Blank => c == b' ' || c == b'\t',
        Kind::Continuation => c >= 128 && c < 192,
    }
}

/// Where the bytes of a kind end that stand at a place.
#[inline]
pub fn run_end(kind: Kind, bytes: &[u8], at: usize) -> usize
    requires { at ≤ length bytes.now }
    ensures end { result ≡ at + prefix_len (is_of kind) (drop at bytes.now) }
    ensures within { result ≤ length bytes.now }
{
    let mut to = at;
    while to < bytes.len() && is_kind(kind, bytes[to]) {
        to += 1;
    }
    to
}

/// Where the string ends whose opening quote stands before a place.
#[tactic(auto, using(crate::proofs::Strings::steps))]
fn string_end(bytes: &[u8], at: usize) -> usize
    requires { at ≤ length bytes.now }
    ensures end { result ≡ at + string_length false (drop at bytes.now) }
    ensures within { result ≤ length bytes.now }
{
    let mut escaped = false;
    let mut to = at;
    while to < bytes.len() {
        let c = bytes[to];
        if escaped {
            escaped = false;
        } else if c == b'"' {
            return to + 1;
        } else {
            escaped = c == b'\\';
        }
        to += 1;
    }
    to
}

/// Where the token ends, or the blank, that begins at a place.
pub fn piece_end(bytes: &[u8], at: usize) -> usize
    requires { at < length bytes.now }
    ensures end { result ≡ at + piece_length (drop at bytes.now) }
    ensures within { result ≤ length bytes.now }
{
    let first = bytes[at];
    if is_kind(Kind::Word, first) {
        run_end(Kind::Word, bytes, at + 1)
    } else if first == b'"' {
        string_end(bytes, at + 1)
    } else if is_kind(Kind::Blank, first) {
        at + 1
    } else {
        run_end(Kind::Continuation, bytes, at + 1)
    }
}

/// Whether a comment begins at a place.
pub fn is_comment(bytes: &[u8], at: usize) -> bool
    requires { at ≤ length bytes.now }
    ensures { result ≡ begins_comment (drop at bytes.now) }
{
    bytes[at..].starts_with(b"//")
}
