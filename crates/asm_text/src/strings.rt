//! Strings.
ghost use Rattle.std.specs.Prelude.{◌≡◌, ◌+◌, ◌<◌, ◌≤◌, None, false, drop, length, ok_or, IfErr, IfOk, IfSome, string_bytes};
ghost use Rattle.std.specs.List.{prefix_len};
ghost use Rattle.std.specs.Str.{IsCharBoundary};
ghost use Rattle.listing_model.specs.Directives as directives;
ghost use Rattle.listing_model.specs.Faults.{Answers, refusal};
ghost use Rattle.listing_model.specs.declared.fault.ListingWhy.TheVariants as ListingWhy;
ghost use Rattle.asm_text.specs.Plain.{is_plain, AddsPart};
ghost use Rattle.asm_tokens.specs.Tokens.{tokens};

use crate::arguments::is_over;
use asm_tokens::{AsmFault, Name, next_token};
use std::alloc::Global;

/// Where the bytes end that stand for themselves, at a place of a string.
fn plain_end(bytes: &[u8], at: usize) -> usize
    requires { at ≤ length bytes.now }
    ensures end { result ≡ at + prefix_len is_plain (drop at bytes.now) }
    ensures within { result ≤ length bytes.now }
{
    let mut to = at;
    while to < bytes.len() && bytes[to] != b'"' && bytes[to] != b'\\' {
        to += 1;
    }
    to
}

/// The character that stands for one behind a backslash.
fn escape(c: u8) -> Option<u8>
    ensures { result ≡ directives.escape c }
{
    match c {
        b'n' => Some(b'\n'),
        b'0' => Some(0),
        b'\\' => Some(b'\\'),
        b'"' => Some(b'"'),
        _ => None,
    }
}

/// Adds what stands for itself at a place of a string, and the escape behind it. The place where the string goes on, if
/// it does.
fn add_part(token: &str, at: usize, out: &mut String) -> Result<Option<usize>, AsmFault>
    requires { IsCharBoundary token.now at }
    ensures part { IfOk result (AddsPart token.now at (string_bytes out.old) (string_bytes out.new)) }
    ensures refused { IfErr result (λ e. IfSome (refusal e)
        (λ why. (why ≡ ListingWhy.BadOperands) × (directives.contents false (drop at token.now) ≡ None))) }
{
    let bytes = token.as_bytes();
    let end = plain_end(bytes, at);
    out.push_str(&token[at..end])?;
    if end == bytes.len() {
        return Err(AsmFault::BadOperands);
    }
    if bytes[end] == b'"' {
        return Ok(None);
    }
    if end + 1 == bytes.len() {
        return Err(AsmFault::BadOperands);
    }
    match escape(bytes[end + 1]) {
        None => Err(AsmFault::BadOperands),
        Some(c) => {
            out.push(char::from(c))?;
            Ok(Some(end + 2))
        }
    }
}

/// The text of a string.
fn string_text(alloc: Global, token: &str) -> Result<Name, AsmFault>
    ensures { Answers result (ok_or (directives.string_text token.now) ListingWhy.BadOperands) }
{
    if !token.starts_with('"') {
        return Err(AsmFault::BadOperands);
    }
    let mut text = String::new(alloc);
    let mut at = 1;
    while let Some(next) = add_part(token, at, &mut text)? {
        at = next;
    }
    Ok(Name { text })
}

/// The text of the string that the tokens from a place on are.
pub fn one_string(alloc: Global, text: &str, at: usize) -> Result<Name, AsmFault>
    requires { IsCharBoundary text.now at }
    ensures { Answers result (directives.one_string (tokens (drop at text.now))) }
{
    let token = next_token(text, at).ok_or(AsmFault::BadOperands)?;
    if !is_over(text, token.to) {
        return Err(AsmFault::BadOperands);
    }
    string_text(alloc, &text[token.from..token.to])
}
