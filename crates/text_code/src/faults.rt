//! Refusals as faults of a line.
ghost use Rattle.std.specs.Prelude.{◌≡◌};
ghost use Rattle.text_code.specs.Faults.{fault_of};

use asm_tokens::AsmFault;
use text_model::Refusal;

/// A refusal as the fault of a line.
pub fn fault(refusal: Refusal) -> AsmFault
    ensures { result ≡ fault_of refusal }
{
    match refusal {
        Refusal::UnknownName => AsmFault::UnknownName,
        Refusal::BadOperands => AsmFault::BadOperands,
        Refusal::OutOfRange => AsmFault::OutOfRange,
    }
}
