//! Numbers of a text.
ghost use Rattle.std.specs.Prelude.{
  ◌≡◌,
  ◌<◌,
  ◌≤◌,
  ◌-◌,
  ◌^◌,
  ◌≤ℤ◌,
  pos,
  ℕ,
  None,
  drop,
  length,
  min,
  option_map,
  IfSome,
  MatchOption,
};
ghost use Rattle.std.specs.Str.{IsCharBoundary};
ghost use Rattle.asm_tokens.specs.Layout.{is_sign};
ghost use Rattle.asm_tokens.specs.Numbers.{digits_in, number_of, numeral, signed_number, unsigned_number};
ghost use Rattle.asm_tokens.specs.Places.{IsNumber};
ghost use Rattle.asm_tokens.specs.Tokens.{tokens};

use crate::token::next_token;

/// The largest magnitude that is told from larger ones.
const MOST: u128 = (1 << 127) - 1;

/// The number that some digits write in a base, and at most `MOST`; there is none where they aren't one digit or more.
fn digits(bytes: &[u8], base: u32) -> Option<u128>
    requires small { base ≤ 36 }
    requires some { 2 ≤ base }
    ensures { result ≡ option_map (λ n. min n (2 ^ 127 - 1)) (digits_in base bytes.now) }
{
    if bytes.is_empty() {
        return None;
    }
    let mut value = 0u128;
    for c in bytes {
        let digit = char::from(*c).to_digit(base)?;
        value = value
            .saturating_mul(u128::from(base))
            .saturating_add(u128::from(digit))
            .min(MOST);
    }
    Some(value)
}

/// The number that a token writes, in decimal, or in hexadecimal behind `0x`.
fn magnitude(token: &[u8]) -> Option<u128>
    ensures number { result ≡ option_map (λ n. min n (2 ^ 127 - 1)) (numeral token.now) }
    ensures small { IfSome result (λ n. n < 2 ^ 127) }
{
    match token {
        [b'0', b'x' | b'X', ..] => digits(&token[2..], 16),
        _ => digits(token, 10),
    }
}

/// Whether a token is this one character.
fn is_mark(mark: u8, token: &[u8]) -> bool
    ensures { result ≡ is_sign mark token.now }
{
    match token {
        [c] => *c == mark,
        _ => false,
    }
}

/// The number without signs that begins with the next token, and the place behind it.
fn unsigned(text: &str, at: usize) -> Option<(u128, usize)>
    requires { IsCharBoundary text.now at }
    ensures number { MatchOption result (unsigned_number (tokens (drop at text.now)) ≡ None)
        (λ r. IsNumber (unsigned_number (tokens (drop at text.now))) text.now at (pos r.0) r.1) }
    ensures cut { IfSome result (λ r. IsCharBoundary text.now r.1) }
    ensures small { IfSome result (λ r. r.0 < 2 ^ 127) }
{
    let token = next_token(text, at)?;
    let value = magnitude(&text.as_bytes()[token.from..token.to])?;
    Some((value, token.to))
}

/// The number that begins with the next token, with its `-`, and the place behind it.
fn signed(text: &str, at: usize) -> Option<(i128, usize)>
    requires { IsCharBoundary text.now at }
    ensures number { MatchOption result (signed_number (tokens (drop at text.now)) ≡ None)
        (λ r. IsNumber (signed_number (tokens (drop at text.now))) text.now at r.0 r.1) }
    ensures cut { IfSome result (λ r. IsCharBoundary text.now r.1) }
{
    let token = next_token(text, at)?;
    if is_mark(b'-', &text.as_bytes()[token.from..token.to]) {
        let (value, to) = unsigned(text, token.to)?;
        Some((-(value as i128), to))
    } else {
        let (value, to) = unsigned(text, at)?;
        Some((value as i128, to))
    }
}

/// The number that begins with the next token, with its `#` and `-`, and the place behind it. A magnitude over
/// 2^127 - 1 counts as that.
pub fn number(text: &str, at: usize) -> Option<(i128, usize)>
    requires { IsCharBoundary text.now at }
    ensures number { MatchOption result (number_of (tokens (drop at text.now)) ≡ None)
        (λ r. IsNumber (number_of (tokens (drop at text.now))) text.now at r.0 r.1) }
    ensures cut { IfSome result (λ r. IsCharBoundary text.now r.1) }
{
    let token = next_token(text, at)?;
    if is_mark(b'#', &text.as_bytes()[token.from..token.to]) {
        signed(text, token.to)
    } else {
        signed(text, at)
    }
}
