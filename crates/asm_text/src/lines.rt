//! Whole lines.
ghost use Rattle.std.specs.Prelude.{◌≡◌, drop, Err, IfOk, IfSome};
ghost use Rattle.std.specs.Str.{IsCharBoundary};
ghost use Rattle.asm_text.specs.Aimable.{IsAimable};
ghost use Rattle.asm_text.specs.Colons.{IsColon};
ghost use Rattle.asm_text.specs.Wanting.{IsBodyCopied, IsLineCopied};
ghost use Rattle.listing_model.specs.Faults.{Answers};
ghost use Rattle.listing_model.specs.LineOf.{body_of, line_of, colon};
ghost use Rattle.asm_tokens.specs.Layout.{is_sign};
ghost use Rattle.asm_tokens.specs.Tokens.{tokens};

use crate::directives::read_directive;
use crate::instructions::Instructions;
use crate::names::{directive_named, is_label};
use asm_tokens::{AsmFault, Name, next_token};
use listing_model::{Body, Line};
use std::alloc::Global;

/// The statement from a place on.
fn read_body<T: Instructions>(
    alloc: Global,
    text: &str,
    at: usize,
) -> Result<Body<T::Insn>, AsmFault>
    requires { IsCharBoundary text.now at }
    ensures read { Answers result (body_of T.statements (tokens (drop at text.now))) }
    ensures target { IfOk result (λ b. IsAimable T.has_target b) }
    ensures wanting { result ≡ Err AsmFault.OutOfMemory → IsBodyCopied T.statements (tokens (drop at text.now)) }
{
    let Some(token) = next_token(text, at) else {
        return Ok(Body::Nothing);
    };
    let name = &text[token.from..token.to];
    if let Some(directive) = directive_named(name) {
        return Ok(Body::Directive(read_directive(alloc, directive, text, token.to)?));
    }
    let (insn, target) = T::read(alloc, name, &text[token.to..])?;
    match target {
        None => Ok(Body::Plain(insn)),
        Some(target) => Ok(Body::Aimed(insn, target)),
    }
}

/// The place behind a colon that is the next token from a place on.
fn behind_colon(text: &str, at: usize) -> Option<usize>
    requires { IsCharBoundary text.now at }
    ensures colon { IsColon text.now at result }
    ensures cut { IfSome result (IsCharBoundary text.now) }
{
    let token = next_token(text, at)?;
    if is_a_colon(&text[token.from..token.to]) {
        Some(token.to)
    } else {
        None
    }
}

/// Whether a token is a colon.
fn is_a_colon(token: &str) -> bool
    ensures { result ≡ is_sign colon token.now }
{
    match token.as_bytes() {
        [c] => *c == b':',
        _ => false,
    }
}

/// What a line says, or why it is refused. Where an instruction has a target, its text has one. Memory is wanting only
/// for a label, a list of numbers, a string, an entry, or a label that the statement ends in.
pub fn read_line<T: Instructions>(alloc: Global, text: &str) -> Result<Line<T::Insn>, AsmFault>
    ensures read { Answers result (line_of T.statements text.now) }
    ensures target { IfOk result (λ l. IsAimable T.has_target l.body) }
    ensures wanting { result ≡ Err AsmFault.OutOfMemory → IsLineCopied T.statements (tokens text.now) }
{
    if text.len() > 256 {
        return Err(AsmFault::LongLine);
    }
    let Some(token) = next_token(text, 0) else {
        return Ok(Line {
            label: None,
            body: Body::Nothing,
        });
    };
    let Some(at) = behind_colon(text, token.to) else {
        return Ok(Line {
            label: None,
            body: read_body::<T>(alloc, text, 0)?,
        });
    };
    let name = &text[token.from..token.to];
    if !is_label(name) {
        return Err(AsmFault::BadLabel);
    }
    let label = Name::of(alloc, name)?;
    Ok(Line {
        label: Some(label),
        body: read_body::<T>(alloc, text, at)?,
    })
}
