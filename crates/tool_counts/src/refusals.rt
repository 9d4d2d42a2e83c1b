//! What is said of a line that is refused: which text stands for which refusal no contract says.
ghost use Rattle.io_gate.specs.Streams.{Rose};
ghost use Rattle.tool_refusals.specs.Endings.{IsSaid};

use command_lines::{Ending, WordsFault, WordsWhy};
use io_gate::Sink;
use std::alloc::Global;
use tool_refusals::say_word;

/// What is said of a word of a line, or of what the line has not.
fn said_of_words(why: WordsWhy) -> &'static str {
    match why {
        WordsWhy::TooManyWords => "has more than 300 words",
        WordsWhy::WordsTooLong => "has more than 32,768 bytes",
        WordsWhy::ZeroByte => "has a word with a byte 0",
        WordsWhy::NoCommand | WordsWhy::UnknownCommand => "has no command",
        WordsWhy::UnknownOption => "is no option of count: see svemu-tool --help",
        WordsWhy::Repeated => "is given twice",
        WordsWhy::MissingValue => "is an option without a value",
        WordsWhy::BadNumber => "is no number of at most 2^64 - 1",
        WordsWhy::BadLength => "is no vector length: all, or a multiple of 128 from 128 to 2048",
        WordsWhy::OutOfRange => "is no number from 1 to 1048576",
        WordsWhy::ExtraWord => "is a word too many: arguments of the program stand behind --",
        WordsWhy::MissingWord => "names no program",
        WordsWhy::MissingLength => "has no --vl: a vector length in bits, or all",
        WordsWhy::MissingBudget => "has no --budget, the greatest number of steps",
    }
}

/// Refuses the words of a line.
pub fn refuse_words<E: Sink>(
    alloc: Global,
    words: &[String],
    fault: &WordsFault,
    errors: &mut E,
) -> Ending
    ensures { IsSaid (Ending.WordsRefused fault.now) result (Rose (E.faults errors.old) (E.faults errors.new)) }
{
    say_word(
        alloc,
        words,
        fault.place as usize,
        said_of_words(fault.why),
        Ending::WordsRefused(*fault),
        errors,
    )
}
