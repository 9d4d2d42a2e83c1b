//! Tokens of a text.
ghost use Rattle.std.specs.Prelude.{◌≡◌, [], drop, MatchOption, IfSome};
ghost use Rattle.std.specs.Str.{IsCharBoundary};
ghost use Rattle.asm_tokens.specs.Places.{IsToken};
ghost use Rattle.asm_tokens.specs.Tokens.{tokens};

use crate::scan::{Kind, is_comment, piece_end, run_end};

/// Where a token stands: from a byte to before another.
#[derive(Clone, Copy, Debug, PartialEq, Eq)]
pub struct Token {
    pub from: usize,
    pub to: usize,
}

/// The first token of a text from a place on. There is none where only spaces, tabs and a comment are left.
pub fn next_token(text: &str, at: usize) -> Option<Token>
    requires { IsCharBoundary text.now at }
    ensures token { MatchOption result (tokens (drop at text.now) ≡ []) (λ t. IsToken text.now at t.from t.to) }
    ensures cut { IfSome result (λ t. IsCharBoundary text.now t.from × IsCharBoundary text.now t.to) }
{
    let bytes = text.as_bytes();
    let from = run_end(Kind::Blank, bytes, at);
    if from == bytes.len() || is_comment(bytes, from) {
        return None;
    }
    Some(Token {
        from,
        to: piece_end(bytes, from),
    })
}
