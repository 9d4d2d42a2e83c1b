//! What the statements of both tables say, the texts of their instructions, and what a disassembly is: definitions.
//!
//! The lines of a listing, read from their text: labels and directives, and the statements of instructions by any
//! reader of them (`read_line`), or by that of both tables; and instructions aimed at addresses.
#![tactic(auto)]

mod aiming;
mod arguments;
mod both_tables;
mod directives;
mod instructions;
mod lines;
mod lists;
mod names;
mod numbers;
mod strings;

ghost use Rattle.std.specs.Prelude.{◌≡◌, Err, IfOk, IfSome, List, true, ℕ};
ghost use Rattle.asm_text.specs.Aimable.{IsAimable};
ghost use Rattle.asm_text.specs.Wanting.{IsLineCopied};
ghost use Rattle.asm_text.specs.Canonical.{HasCanonical};
ghost use Rattle.emu_run.specs.declared.insn.Insn.{Insn};
ghost use Rattle.asm_text.specs.Statements.{aimed_at, reads, statements};
ghost use Rattle.asm_text.specs.Targets.{HasTarget};
ghost use Rattle.asm_text.specs.Canonical.{is_canonical};
ghost use Rattle.listing_model.specs.Faults.{Answers};
ghost use Rattle.listing_model.specs.LineOf.{line_of};
ghost use Rattle.asm_tokens.specs.Tokens.{tokens};

pub use aiming::aim;
use asm_tokens::AsmFault;
pub use both_tables::Tables;
use insn_decode::Insn;
pub use instructions::Instructions;
pub use lines::read_line;
pub use listing_model::Directive;
use std::alloc::Global;

/// A line of a listing.
pub type Line = listing_model::Line<Insn>;

/// What stands on a line behind its label.
pub type Body = listing_model::Body<Insn>;

/// What a line of a listing says: its label, and an instruction or a directive. Or the first of these refusals:
/// LongLine over 256 bytes, BadLabel, UnknownName, BadOperands, OutOfRange; or OutOfMemory, only for a label, a list of
/// numbers, a string, an entry, or a label that the statement ends in. Each instruction that is read is canonical, and
/// where it has a target, its text has one.
pub fn parse_line(alloc: Global, text: &str) -> Result<Line, AsmFault>
    ensures read { Answers result (line_of statements text.now) }
    ensures target { IfOk result (λ l. IsAimable HasTarget l.body) }
    ensures canonical { IfOk result (λ l. HasCanonical l.body) }
    ensures wanting { result ≡ Err AsmFault.OutOfMemory → IsLineCopied statements (tokens text.now) }
{
    read_line::<Tables>(alloc, text)
}

/// Whatever is read is canonical: each instruction that the definitions read in a statement, by its name and the tokens
/// behind it; that of a line; and one that they aim at an address.
pub fn what_is_read_is_canonical()
    ensures statements { (name : List ℕ) (behind : List (List ℕ))
        → IfOk (reads name behind) (λ said. is_canonical said.0 ≡ true) }
    ensures lines { (text : List ℕ) → IfOk (line_of statements text) (λ line. HasCanonical line.body) }
    ensures aimed { (i : Insn) (pc target : ℕ) → IfSome (aimed_at i pc target) (λ j. is_canonical j ≡ true) }
{}
