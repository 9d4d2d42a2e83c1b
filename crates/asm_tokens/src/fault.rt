//! Why a line is refused.
use std::alloc::AllocError;
use thiserror::Error;

/// Why a line of a listing is refused, in the order in which the causes are looked for; or that memory was wanting.
#[derive(Clone, Copy, Debug, PartialEq, Eq, Error)]
pub enum AsmFault {
    #[error("more than 256 bytes")]
    LongLine,
    #[error("a label that isn't a name")]
    BadLabel,
    #[error("no instruction or directive of this name")]
    UnknownName,
    #[error("operands that this name doesn't take")]
    BadOperands,
    #[error("a number or a register out of range")]
    OutOfRange,
    #[error("out of memory")]
    OutOfMemory,
}

impl From<AllocError> for AsmFault {
    ghost use Rattle.std.specs.Prelude.{◌≡◌};
    ghost use Rattle.asm_tokens.specs.declared.fault.AsmFault.TheVariants.{OutOfMemory};

    ghost from_gives = { λ _ e. e ≡ OutOfMemory };

    fn from(_e: AllocError) -> AsmFault {
        AsmFault::OutOfMemory
    }
}
