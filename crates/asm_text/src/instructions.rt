//! How instructions are read, aimed and written.
use asm_tokens::{AsmFault, Target};
use std::alloc::Global;

/// How the instructions of some tables are read, aimed and written.
pub trait Instructions {
    ghost use Rattle.std.specs.Prelude.{◌≡◌, Err, IfOk, IsSome};
    ghost use Rattle.asm_text.specs.Wanting.{SaysLabel};
    ghost use Rattle.listing_model.specs.Faults.{Answers};
    ghost use Rattle.listing_model.specs.Statements.{Statements};
    ghost use Rattle.asm_tokens.specs.Tokens.{tokens};

    /// An instruction.
    type Insn: Drop;

    /// What these say.
    ghost statements: { Statements Self.Insn };

    /// Its text has a target.
    ghost has_target: { Self.Insn → Type 0 };

    /// The instruction of a name and of the text behind it, and its target where it has one; or UnknownName,
    /// BadOperands or OutOfRange. Memory is wanting only for a label that the statement ends in.
    fn read(alloc: Global, name: &str, rest: &str) -> Result<(Self::Insn, Option<Target>), AsmFault>
        ensures read { Answers result (statements.reads name.now (tokens rest.now)) }
        ensures target { IfOk result (λ r. IsSome r.1 → has_target r.0) }
        ensures wanting { result ≡ Err AsmFault.OutOfMemory → SaysLabel (statements.reads name.now (tokens rest.now)) };

    /// The instruction at an address, aimed at another; none where it doesn't reach that far.
    fn aim(insn: &Self::Insn, pc: u64, target: u64) -> Option<Self::Insn>
        requires { has_target insn.now }
        ensures { result ≡ statements.aimed insn.now pc target };

    /// Its word.
    fn word(insn: &Self::Insn) -> u32
        ensures { result ≡ statements.word insn.now };
}
