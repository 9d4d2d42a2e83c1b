//! Where spaces stand between tokens.
ghost use Rattle.std.specs.Prelude.{◌≡◌};
ghost use Rattle.asm_tokens.specs.Tokens.{is_word_byte};
ghost use Rattle.text_print.specs.Edges.{edge_of, has_gap};

/// What a token is, as far as the spaces beside it go.
#[derive(Clone, Copy)]
pub struct Edge {
    /// `,`.
    pub comma: bool,
    /// `/`.
    pub slash: bool,
    /// A word or a number.
    pub word: bool,
    /// `#` or `{`.
    pub opens: bool,
}

/// Whether words are made of a character.
fn is_word_byte(c: u8) -> bool
    ensures { result ≡ is_word_byte c }
{
    c.is_ascii_alphanumeric() || c == b'_' || c == b'.'
}

/// The edge of a token.
pub fn edge_of(token: &str) -> Edge
    ensures { result ≡ edge_of token.now }
{
    match token.as_bytes() {
        [] => Edge {
            comma: false,
            slash: false,
            word: false,
            opens: false,
        },
        [c, rest @ ..] => {
            let alone = rest.is_empty();
            Edge {
                comma: *c == b',' && alone,
                slash: *c == b'/' && alone,
                word: is_word_byte(*c),
                opens: (*c == b'#' && alone) || (*c == b'{' && alone),
            }
        }
    }
}

/// Whether a space stands between a token and the next.
pub fn has_gap(token: Edge, next: Edge) -> bool
    ensures { result ≡ has_gap token next }
{
    token.comma || (token.word && (next.word || next.opens)) || (token.slash && next.slash)
}
