//! Lists of numbers and labels, read argument by argument.
ghost use Rattle.std.specs.Prelude.{◌≡◌, ◌*◌, ◌≤◌, None, drop, negsuc, pos, IfErr, IfOk, IfSome, MatchOption, OnOk};
ghost use Rattle.std.specs.Str.{IsCharBoundary};
ghost use Rattle.asm_text.specs.Leading.{leading, leading_label, is_comma, part_of};
ghost use Rattle.asm_text.specs.Stored.{argument_of, MayBeCut, IsLabel, IsLeading, IsPart, Adds, Keeps};
ghost use Rattle.listing_model.specs.Directives as directives;
ghost use Rattle.listing_model.specs.Faults.{Answers, refusal};
ghost use Rattle.listing_model.specs.declared.fault.ListingWhy.TheVariants as ListingWhy;
ghost use Rattle.asm_tokens.specs.Tokens.{tokens};

use crate::names::is_label;
use crate::numbers::{Argument, Numbers};
use asm_tokens::{AsmFault, Name, OutOfMemory, Target, Values, next_token, number};
use std::alloc::{AllocError, Global};

/// The label that the tokens from a place on begin with, and the place behind it.
fn leading_label(text: &str, at: usize) -> Option<(Argument, usize)>
    requires { IsCharBoundary text.now at }
    ensures found { MatchOption result (leading_label (tokens (drop at text.now)) ≡ None)
        (λ r. IsLabel text.now at (argument_of text.now r.0) r.1) }
    ensures cut { IfSome result (λ r. IsCharBoundary text.now r.1) }
    ensures label_cut { IfSome result (λ r. MayBeCut text.now r.0) }
{
    let token = next_token(text, at)?;
    if is_label(&text[token.from..token.to]) {
        Some((Argument::Label(token), token.to))
    } else {
        None
    }
}

/// The argument that the tokens from a place on begin with, and the place behind it.
fn leading_argument(text: &str, at: usize, labels: bool) -> Option<(Argument, usize)>
    requires { IsCharBoundary text.now at }
    ensures found { MatchOption result (leading labels (tokens (drop at text.now)) ≡ None)
        (λ r. IsLeading labels text.now at (argument_of text.now r.0) r.1) }
    ensures cut { IfSome result (λ r. IsCharBoundary text.now r.1) }
    ensures label_cut { IfSome result (λ r. MayBeCut text.now r.0) }
{
    match number(text, at) {
        Some((value, to)) => Some((Argument::Number(value), to)),
        None => {
            if labels {
                leading_label(text, at)
            } else {
                None
            }
        }
    }
}

/// Whether a token is a comma.
fn is_a_comma(token: &str) -> bool
    ensures { result ≡ is_comma token.now }
{
    match token.as_bytes() {
        [c] => *c == b',',
        _ => false,
    }
}

/// The argument that stands from a place on before the first comma, and the place behind the comma, if there is one.
fn one_argument(text: &str, at: usize, labels: bool) -> Option<(Argument, Option<usize>)>
    requires { IsCharBoundary text.now at }
    ensures found { MatchOption result (directives.argument labels (part_of (tokens (drop at text.now))) ≡ None)
        (λ r. IsPart labels text.now at (argument_of text.now r.0) r.1) }
    ensures label_cut { IfSome result (λ r. MayBeCut text.now r.0) }
{
    match leading_argument(text, at, labels) {
        None => None,
        Some((argument, to)) => {
            match next_token(text, to) {
                None => Some((argument, None)),
                Some(token) => {
                    if is_a_comma(&text[token.from..token.to]) {
                        Some((argument, Some(token.to)))
                    } else {
                        None
                    }
                }
            }
        }
    }
}

/// A number that is no less than 0 as it is stored in so many bits, where it fits.
fn stored_natural(bits: u32, n: u128) -> Option<u64>
    requires { bits ≤ 64 }
    ensures { result ≡ directives.stored_number bits (pos n) }
{
    let limit = 1u128 << bits;
    if n < limit { Some(n as u64) } else { None }
}

/// The number -1 - n as it is stored in so many bits, where it fits.
fn stored_negative(bits: u32, n: u128) -> Option<u64>
    requires some { 1 ≤ bits }
    requires few { bits ≤ 64 }
    ensures { result ≡ directives.stored_number bits (negsuc n) }
{
    let half = 1u128 << (bits - 1);
    if n < half {
        Some((2 * half - 1 - n) as u64)
    } else {
        None
    }
}

/// A number as it is stored in so many bytes, where it fits.
fn stored_number(size: u32, value: i128) -> Option<u64>
    requires some { 1 ≤ size }
    requires few { size ≤ 8 }
    ensures { result ≡ directives.stored_number (8 * size) value }
{
    if value < 0 {
        stored_negative(8 * size, (-1 - value) as u128)
    } else {
        stored_natural(8 * size, value as u128)
    }
}

/// What is stored of an argument in so many bytes, where it fits.
fn stored(
    alloc: Global,
    text: &str,
    argument: Argument,
    size: u32,
) -> Result<Option<Target>, OutOfMemory>
    requires cut { MayBeCut text.now argument }
    requires some { 1 ≤ size }
    requires few { size ≤ 8 }
    ensures { IfOk result (λ t. t ≡ directives.target_in (8 * size) (argument_of text.now argument)) }
{
    match argument {
        Argument::Number(x) => Ok(stored_number(size, x).map(Target::Address)),
        Argument::Label(token) => Ok(Some(Target::Label(Name::of(
            alloc,
            &text[token.from..token.to],
        )?))),
    }
}

/// Adds what is stored of an argument, or notes that it doesn't fit.
fn keep(numbers: &mut Numbers, target: Option<Target>) -> Result<(), OutOfMemory>
    ensures { OnOk result (Keeps target numbers.old numbers.new) }
{
    match target {
        Some(target) => numbers.items.push(target).map_err(|_| AllocError),
        None => {
            numbers.fit = false;
            Ok(())
        }
    }
}

/// Reads the argument at a place and adds what is stored of it. The place where the list goes on, if it does.
fn add_argument(
    alloc: Global,
    text: &str,
    at: usize,
    size: u32,
    labels: bool,
    numbers: &mut Numbers,
) -> Result<Option<usize>, AsmFault>
    requires at { IsCharBoundary text.now at }
    requires some { 1 ≤ size }
    requires few { size ≤ 8 }
    ensures added { IfOk result (Adds labels size text.now at numbers.old numbers.new) }
    ensures refused { IfErr result (λ e. IfSome (refusal e) (λ why. (why ≡ ListingWhy.BadOperands)
        × (directives.argument labels (part_of (tokens (drop at text.now))) ≡ None))) }
{
    match one_argument(text, at, labels) {
        None => Err(AsmFault::BadOperands),
        Some((argument, next)) => {
            keep(numbers, stored(alloc, text, argument, size)?)?;
            Ok(next)
        }
    }
}

/// The numbers, of so many bytes each, that the tokens from a place on are.
pub fn numbers(
    alloc: Global,
    text: &str,
    at: usize,
    size: u32,
    labels: bool,
) -> Result<Values, AsmFault>
    requires at { IsCharBoundary text.now at }
    requires some { 1 ≤ size }
    requires few { size ≤ 8 }
    ensures { Answers result (directives.numbers size (directives.arguments labels (tokens (drop at text.now)))) }
{
    let mut numbers = Numbers {
        items: Vec::new(alloc),
        fit: true,
    };
    let mut at = at;
    loop {
        match add_argument(alloc, text, at, size, labels, &mut numbers) {
            Ok(Some(next)) => at = next,
            Ok(None) => break,
            Err(fault) => return Err(fault),
        }
    }
    if numbers.fit {
        Ok(Values {
            items: numbers.items,
        })
    } else {
        Err(AsmFault::OutOfRange)
    }
}
