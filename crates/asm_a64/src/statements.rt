//! Statements read as A64 instructions.
ghost use Rattle.std.specs.Prelude.{◌≡◌, ◌⊎◌, true, Some, Err, IfOk, IfErr};
ghost use Rattle.emu_bits.specs.Rows.{instruction};
ghost use Rattle.a64_insn.specs.Table.{a64_table};
ghost use Rattle.asm_a64.specs.Law.{in_table};
ghost use Rattle.asm_tokens.specs.declared.fault.AsmFault.TheVariants.{OutOfMemory};
ghost use Rattle.text_code.specs.Reads.{aim_of, IsCut};
ghost use Rattle.asm_a64.specs.Lines.{destination_of, EndsInLabel, GoesToLabel, IsLabel, IsRead, IsRefused};

use crate::A64Texts;
use a64_insn::A64;
use a64_rows::decode_a64;
use asm_tokens::{AsmFault, Name, Target};
use std::alloc::Global;
use text_code::{Aim, Found, fault, read};

/// An instruction of a statement, its target's bits 0, and the target.
#[derive(Drop)]
pub struct A64Line {
    pub insn: A64,
    pub target: Option<Target>,
}

/// The target of a statement, where a label stands in this text.
fn target_of(alloc: Global, rest: &str, aim: Option<Aim>) -> Result<Option<Target>, AsmFault>
    requires { IsCut rest.now aim }
    ensures target { IfOk result (λ t. destination_of t ≡ aim_of rest.now aim) }
    ensures memory { IfErr result (λ e. e ≡ OutOfMemory) }
    ensures wanting { result ≡ Err OutOfMemory → IsLabel (aim_of rest.now aim) }
{
    match aim {
        None => Ok(None),
        Some(Aim::Address(address)) => Ok(Some(Target::Address(address))),
        Some(Aim::Label(token)) => {
            let name = Name::of(alloc, &rest[token.from..token.to])?;
            Ok(Some(Target::Label(name)))
        }
    }
}

/// The line of what was found in a text.
fn line_of(alloc: Global, rest: &str, found: Found) -> Result<A64Line, AsmFault>
    requires held { in_table found.word ≡ true }
    requires cut { IsCut rest.now found.target }
    ensures insn { IfOk result (λ l. instruction a64_table found.word ≡ Some l.insn) }
    ensures target { IfOk result (λ l. destination_of l.target ≡ aim_of rest.now found.target) }
    ensures memory { IfErr result (λ e. e ≡ OutOfMemory) }
    ensures wanting { result ≡ Err OutOfMemory → GoesToLabel found.word (aim_of rest.now found.target) }
{
    let Some(insn) = decode_a64(found.word) else {
        return Err(AsmFault::OutOfRange);
    };
    match target_of(alloc, rest, found.target) {
        Ok(target) => Ok(A64Line { insn, target }),
        Err(fault) => Err(fault),
    }
}

/// The instruction of a statement, by its name and what stands behind it. Its refusals are those of the patterns of the
/// A64 lines, or that memory was wanting for a label; so that comes only of a statement that is read as an instruction
/// which goes to a label.
pub fn read_a64(alloc: Global, name: &str, rest: &str) -> Result<A64Line, AsmFault>
    ensures read { IfOk result (λ l. IsRead name.now rest.now l) }
    ensures refused { IfErr result (λ e. e ≡ OutOfMemory ⊎ IsRefused name.now rest.now e) }
    ensures wanting { result ≡ Err OutOfMemory → EndsInLabel name.now rest.now }
{
    match read(&A64Texts, name, rest) {
        Ok(found) => line_of(alloc, rest, found),
        Err(refusal) => Err(fault(refusal)),
    }
}
