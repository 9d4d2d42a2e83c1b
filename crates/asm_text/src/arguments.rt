//! Arguments that stand alone.
ghost use Rattle.std.specs.Prelude.{◌≡◌, ◌≢◌, ◌↔◌, ◌^◌, [], Err, IsTrue, drop};
ghost use Rattle.std.specs.Str.{IsCharBoundary};
ghost use Rattle.listing_model.specs.Directives as directives;
ghost use Rattle.listing_model.specs.Faults.{Answers};
ghost use Rattle.asm_tokens.specs.Tokens.{tokens};

use crate::names::is_label;
use asm_tokens::{AsmFault, Name, next_token, number};
use std::alloc::Global;

/// Whether no token is left from a place on.
pub fn is_over(text: &str, at: usize) -> bool
    requires { IsCharBoundary text.now at }
    ensures { IsTrue result ↔ (tokens (drop at text.now) ≡ []) }
{
    next_token(text, at).is_none()
}

/// The number that the tokens from a place on write, all of them.
pub fn whole_number(text: &str, at: usize) -> Option<i128>
    requires { IsCharBoundary text.now at }
    ensures { result ≡ directives.whole_number (tokens (drop at text.now)) }
{
    let (value, to) = number(text, at)?;
    if is_over(text, to) { Some(value) } else { None }
}

/// The number that the tokens from a place on write, no less than 0 and below 2^64.
pub fn one_natural(text: &str, at: usize) -> Result<u64, AsmFault>
    requires { IsCharBoundary text.now at }
    ensures read { Answers result
        (directives.one_natural (2 ^ 64) (directives.whole_number (tokens (drop at text.now)))) }
    ensures wanting { result ≢ Err AsmFault.OutOfMemory }
{
    let value = whole_number(text, at).ok_or(AsmFault::BadOperands)?;
    u64::try_from(value).map_err(|_| AsmFault::OutOfRange)
}

/// The number that the tokens from a place on write, a power of two up to 4,096.
pub fn one_alignment(text: &str, at: usize) -> Result<u32, AsmFault>
    requires { IsCharBoundary text.now at }
    ensures read { Answers result
        (directives.alignment (directives.one_natural (2 ^ 32) (directives.whole_number (tokens (drop at text.now))))) }
    ensures wanting { result ≢ Err AsmFault.OutOfMemory }
{
    let value = whole_number(text, at).ok_or(AsmFault::BadOperands)?;
    match u32::try_from(value) {
        Ok(n) if n > 0 && 4096 % n == 0 => Ok(n),
        _ => Err(AsmFault::OutOfRange),
    }
}

/// The label that the tokens from a place on name.
pub fn one_label(alloc: Global, text: &str, at: usize) -> Result<Name, AsmFault>
    requires { IsCharBoundary text.now at }
    ensures { Answers result (directives.one_label (tokens (drop at text.now))) }
{
    let token = next_token(text, at).ok_or(AsmFault::BadOperands)?;
    let name = &text[token.from..token.to];
    if !is_label(name) || !is_over(text, token.to) {
        return Err(AsmFault::BadOperands);
    }
    Ok(Name::of(alloc, name)?)
}
