//! Why a line is no command.
ghost use Rattle.std.specs.Prelude.{◌≡◌};

/// Why a line is no command.
#[derive(Clone, Copy)]
pub enum Why {
    /// The first word names no command.
    UnknownCommand,
    /// What stands behind a slash is no format of the command.
    BadFormat,
    MissingWord,
    ExtraWord,
    /// It isn't a number of at most 2^64 - 1.
    BadNumber,
    OutOfRange,
    /// It is no symbol, register or number.
    UnknownPlace,
    /// Two symbols of the name stand at these addresses.
    TwoSymbols(u64, u64),
    UnknownRegister,
    /// It isn't one of the words that can stand there.
    UnknownWord,
    BadCondition,
}

/// A refused line: why, and the place of the word, counted from 0. Where a word is missing it is the number of words.
#[derive(Clone, Copy)]
pub struct Refusal {
    pub why: Why,
    pub place: usize,
}

/// A refusal of the word at a place.
pub fn refuse(why: Why, place: usize) -> Refusal
    ensures { result ≡ record { why = why; place = place } }
{
    Refusal { why, place }
}
