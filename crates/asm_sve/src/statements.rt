//! Statements read as SVE instructions.
ghost use Rattle.std.specs.Prelude.{IfOk, IfErr};
ghost use Rattle.asm_sve.specs.Lines.{IsRead, IsRefused};

use crate::SveTexts;
use asm_tokens::AsmFault;
use sve_insn::Sve;
use sve_rows::decode_sve;
use text_code::{fault, read};

/// The instruction of a statement, by its name and what stands behind it. Its refusals are those of the patterns of the
/// SVE lines; it takes no memory.
pub fn read_sve(name: &str, rest: &str) -> Result<Sve, AsmFault>
    ensures read { IfOk result (λ i. IsRead name.now rest.now i) }
    ensures refused { IfErr result (λ e. IsRefused name.now rest.now e) }
{
    let found = match read(&SveTexts, name, rest) {
        Ok(found) => found,
        Err(refusal) => return Err(fault(refusal)),
    };
    match decode_sve(found.word) {
        Some(insn) => Ok(insn),
        None => Err(AsmFault::OutOfRange),
    }
}
