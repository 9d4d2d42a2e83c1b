//! Both tables as one reader of instructions.
ghost use Rattle.std.specs.Prelude.{◌≡◌, ◌≢◌};
ghost use Rattle.asm_text.specs.Statements.{statements};
ghost use Rattle.asm_text.specs.Targets.{HasTarget};
ghost use Rattle.text_code.specs.Faults.{fault_of};
ghost use Rattle.text_model.specs.Reading.{later_refusal};
ghost use Rattle.text_model.specs.declared.slots.Refusal.{Refusal};

use crate::Instructions;
use crate::aiming::aim;
use asm_a64::read_a64;
use asm_sve::read_sve;
use asm_tokens::{AsmFault, Target};
use insn_decode::{Insn, encode};
use std::alloc::Global;

/// The instructions of both tables.
pub struct Tables;

/// The refusal that stands later in the order in which causes are looked for.
fn later(a: AsmFault, b: AsmFault) -> AsmFault
    ensures later { (x y : Refusal) → a ≡ fault_of x → b ≡ fault_of y → result ≡ fault_of (later_refusal x y) }
    ensures refusal { result ≢ AsmFault.OutOfMemory }
{
    match (a, b) {
        (AsmFault::OutOfRange, _) | (_, AsmFault::OutOfRange) => AsmFault::OutOfRange,
        (AsmFault::BadOperands, _) | (_, AsmFault::BadOperands) => AsmFault::BadOperands,
        _ => AsmFault::UnknownName,
    }
}

impl Instructions for Tables {
    type Insn = Insn;

    ghost statements = { statements };

    ghost has_target = { HasTarget };

    fn read(alloc: Global, name: &str, rest: &str) -> Result<(Insn, Option<Target>), AsmFault> {
        match read_a64(alloc, name, rest) {
            Ok(line) => Ok((Insn::A64(line.insn), line.target)),
            Err(AsmFault::OutOfMemory) => Err(AsmFault::OutOfMemory),
            Err(base) => match read_sve(name, rest) {
                Ok(insn) => Ok((Insn::Sve(insn), None)),
                Err(vector) => Err(later(base, vector)),
            },
        }
    }

    fn aim(insn: &Insn, pc: u64, target: u64) -> Option<Insn> {
        aim(insn, pc, target)
    }

    fn word(insn: &Insn) -> u32 {
        encode(insn)
    }
}
