//! Why a listing is refused.
use thiserror::Error;

/// Why a listing is refused, in the order in which the causes are looked for.
#[derive(Clone, Copy, Debug, PartialEq, Eq, Error)]
pub enum ListingWhy {
    #[error("not UTF-8")]
    NotUtf8,
    #[error("more than 1,000,000 lines")]
    TooManyLines,
    #[error("more than 256 bytes")]
    LongLine,
    #[error("a label that isn't a name")]
    BadLabel,
    #[error("no instruction or directive of this name")]
    UnknownName,
    #[error("operands that this name doesn't take")]
    BadOperands,
    #[error("a number or a register out of range")]
    OutOfRange,
    #[error("a second entry")]
    SecondEntry,
    #[error("a label that stands before")]
    LabelTwice,
    #[error("an instruction in the data")]
    InstructionInData,
    #[error("an instruction at a place that isn't a multiple of 4")]
    Misaligned,
    #[error("more code, data or memory than a program may have")]
    TooLarge,
    #[error("a label that stands nowhere")]
    UnknownLabel,
    #[error("a target that the instruction doesn't reach")]
    TooFar,
    #[error("no code")]
    NoCode,
}

/// Why a listing is refused, and at which line, counted from 1.
#[derive(Clone, Copy, Debug, PartialEq, Eq, Error)]
#[error("line {line}: {why}")]
pub struct ListingFault {
    pub line: u32,
    pub why: ListingWhy,
}
