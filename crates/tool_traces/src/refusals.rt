//! What is said of a line that is refused: which text stands for which refusal no contract says.
ghost use Rattle.std.specs.Prelude.{◌≡◌};
ghost use Rattle.io_gate.specs.Streams.{Rose};
ghost use Rattle.tool_refusals.specs.Endings.{IsSaid};
ghost use Rattle.tool_traces.specs.Endings.{option_fault, other_command};

use command_lines::{Ending, WordsFault, WordsWhy};
use io_gate::Sink;
use std::alloc::Global;
use tool_refusals::say_word;
use trace_options::{TraceFault, TraceWhy};

/// What is said of a word of a line, or of what the line has not.
fn said_of_words(why: WordsWhy) -> &'static str {
    match why {
        WordsWhy::TooManyWords => "has more than 300 words",
        WordsWhy::WordsTooLong => "has more than 32,768 bytes",
        WordsWhy::ZeroByte => "has a word with a byte 0",
        WordsWhy::NoCommand | WordsWhy::UnknownCommand => "has no command",
        WordsWhy::UnknownOption => "is no option of trace: see svemu-tool --help",
        WordsWhy::Repeated => "is given twice",
        WordsWhy::MissingValue => "is an option without a value",
        WordsWhy::BadNumber => "is no number of at most 2^64 - 1",
        WordsWhy::BadLength => "is no vector length: a multiple of 128 from 128 to 2048",
        WordsWhy::OutOfRange => "is no number from 1 to 1048576",
        WordsWhy::ExtraWord => "is a word too many: arguments of the program stand behind --",
        WordsWhy::MissingWord => "names no program",
        WordsWhy::MissingLength => "has no --vl: a vector length in bits",
        WordsWhy::MissingBudget => "has no --budget, the greatest number of steps",
    }
}

/// What is said of an option that `run` hasn't.
fn said_of_option(why: TraceWhy) -> &'static str {
    match why {
        TraceWhy::Repeated => "is given twice",
        TraceWhy::MissingValue => "is an option without a value",
        TraceWhy::BadNumber => "is no number of at most 2^64 - 1; --call and --steps count from 1",
        TraceWhy::UnknownPlace => "is no symbol of the program, and no address as 0x400100",
        TraceWhy::UnknownSymbol => "is no symbol of the program",
        TraceWhy::UnknownGroup =>
            "has a name that is none of x, sp, nzcv, tpidr, vl, z, p, ffr, memory",
        TraceWhy::CallAlone => "counts arrivals at no place: --call needs --from",
    }
}

/// Refuses the words of a run.
pub fn refuse_words<E: Sink>(
    alloc: Global,
    words: &[String],
    fault: &WordsFault,
    errors: &mut E,
) -> Ending
    ensures { IsSaid (Ending.WordsRefused fault.now) result (Rose (E.faults errors.old) (E.faults errors.new)) }
{
    say_word(
        alloc,
        words,
        fault.place as usize,
        said_of_words(fault.why),
        Ending::WordsRefused(*fault),
        errors,
    )
}

/// The refusal of a line that has the same status.
fn status_fault(fault: &TraceFault) -> WordsFault
    ensures { result ≡ option_fault fault.now }
{
    WordsFault {
        why: WordsWhy::UnknownOption,
        place: fault.place.min(300) as u32,
    }
}

/// Refuses an option that `run` hasn't.
pub fn refuse_option<E: Sink>(
    alloc: Global,
    words: &[String],
    fault: &TraceFault,
    errors: &mut E,
) -> Ending
    ensures { IsSaid (Ending.WordsRefused (option_fault fault.now)) result
        (Rose (E.faults errors.old) (E.faults errors.new)) }
{
    say_word(
        alloc,
        words,
        fault.place,
        said_of_option(fault.why),
        Ending::WordsRefused(status_fault(fault)),
        errors,
    )
}

/// Refuses the line of a command that runs no program at one length.
pub fn refuse_other<E: Sink>(alloc: Global, words: &[String], errors: &mut E) -> Ending
    ensures { IsSaid (Ending.WordsRefused other_command) result (Rose (E.faults errors.old) (E.faults errors.new)) }
{
    let fault = WordsFault {
        why: WordsWhy::UnknownCommand,
        place: 0,
    };
    refuse_words(alloc, words, &fault, errors)
}
