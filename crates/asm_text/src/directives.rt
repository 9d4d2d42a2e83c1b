//! Directives.
ghost use Rattle.std.specs.Prelude.{◌≡◌, ◌≢◌, Err, drop, true};
ghost use Rattle.std.specs.Str.{IsCharBoundary};
ghost use Rattle.asm_text.specs.Wanting.{is_copied};
ghost use Rattle.listing_model.specs.Directives.{no_argument, directive_of};
ghost use Rattle.listing_model.specs.Faults.{Answers};
ghost use Rattle.asm_tokens.specs.Tokens.{tokens};

use crate::arguments::{is_over, one_alignment, one_label, one_natural};
use crate::lists::numbers;
use crate::strings::one_string;
use asm_tokens::AsmFault;
use listing_model::{Directive, DirectiveName};
use std::alloc::Global;

/// A directive without arguments, where no token is left from a place on.
fn alone(directive: Directive, text: &str, at: usize) -> Result<Directive, AsmFault>
    requires { IsCharBoundary text.now at }
    ensures read { Answers result (no_argument directive (tokens (drop at text.now))) }
    ensures wanting { result ≢ Err AsmFault.OutOfMemory }
{
    if is_over(text, at) {
        Ok(directive)
    } else {
        Err(AsmFault::BadOperands)
    }
}

/// The directive of a name and of the tokens from a place on. Memory is wanting only for a list, a string or an entry.
pub fn read_directive(
    alloc: Global,
    name: DirectiveName,
    text: &str,
    at: usize,
) -> Result<Directive, AsmFault>
    requires { IsCharBoundary text.now at }
    ensures read { Answers result (directive_of name (tokens (drop at text.now))) }
    ensures wanting { result ≡ Err AsmFault.OutOfMemory → is_copied name ≡ true }
{
    match name {
        DirectiveName::Code => alone(Directive::Code, text, at),
        DirectiveName::Data => alone(Directive::Data, text, at),
        DirectiveName::Byte => Ok(Directive::Numbers(1, numbers(alloc, text, at, 1, false)?)),
        DirectiveName::Half => Ok(Directive::Numbers(2, numbers(alloc, text, at, 2, false)?)),
        DirectiveName::Word => Ok(Directive::Numbers(4, numbers(alloc, text, at, 4, false)?)),
        DirectiveName::Quad => Ok(Directive::Numbers(8, numbers(alloc, text, at, 8, true)?)),
        DirectiveName::Ascii => Ok(Directive::Ascii(one_string(alloc, text, at)?)),
        DirectiveName::Zero => Ok(Directive::Zero(one_natural(text, at)?)),
        DirectiveName::Align => Ok(Directive::Align(one_alignment(text, at)?)),
        DirectiveName::Bss => Ok(Directive::Bss(one_natural(text, at)?)),
        DirectiveName::Entry => Ok(Directive::Entry(one_label(alloc, text, at)?)),
    }
}
