//! What is said of what is refused or failed: which line stands for which refusal no contract says.
ghost use Rattle.std.specs.Prelude.{◌≡◌, ◌⊎◌, true};
ghost use Rattle.command_lines.specs.Outcome.{file_limit};
ghost use Rattle.io_gate.specs.Streams.{Rose};
ghost use Rattle.tool_refusals.specs.Endings.{IsSaid};
ghost use Rattle.debug_options.specs.Endings.{is_refused};

use crate::options::is_own;
use command_lines::{Ending, WordsFault, WordsWhy};
use io_gate::Sink;
use source_lines::TableFault;
use std::alloc::{AllocError, Global};
use std::fmt::Write;
use tool_refusals::{say, say_word};

/// The most bytes of a file.
pub const FILE_LIMIT: u64 = 67_108_864;

/// What is said of a word of a line, or of what the line has not.
fn said_of_words(why: WordsWhy) -> &'static str {
    match why {
        WordsWhy::TooManyWords => "has more than 300 words",
        WordsWhy::WordsTooLong => "has more than 32,768 bytes",
        WordsWhy::ZeroByte => "has a word with a byte 0",
        WordsWhy::NoCommand | WordsWhy::UnknownCommand => "has no command",
        WordsWhy::UnknownOption => "is no option of debug: see svemu-tool --help",
        WordsWhy::Repeated => "is given twice",
        WordsWhy::MissingValue => "is an option without a value",
        WordsWhy::BadNumber => "is no number of at most 2^64 - 1",
        WordsWhy::BadLength => "is no vector length: a multiple of 128 from 128 to 2048",
        WordsWhy::OutOfRange => "is no number from 1 to 1048576",
        WordsWhy::ExtraWord => "is a word too many: arguments of the program stand behind --",
        WordsWhy::MissingWord => "names no program",
        WordsWhy::MissingLength => "has no --vl: a vector length in bits",
        WordsWhy::MissingBudget => "has no --budget, the greatest number of steps",
    }
}

/// What is said of the word at a place. An option of the debugger's own stands there only where it is given twice, or
/// has no value.
fn said_of_word(words: &[String], place: usize, why: WordsWhy) -> &'static str {
    let unknown = matches!(why, WordsWhy::UnknownOption);
    if !unknown || words.len() <= place || !is_own(words[place].as_str()) {
        return said_of_words(why);
    }
    said_of_words(if words.len() - place > 1 {
        WordsWhy::Repeated
    } else {
        WordsWhy::MissingValue
    })
}

/// Refuses the words of a run.
pub fn refuse_words<E: Sink>(
    alloc: Global,
    words: &[String],
    fault: &WordsFault,
    errors: &mut E,
) -> Ending
    ensures kind { is_refused result ≡ true }
    ensures said { IsSaid (Ending.WordsRefused fault.now) result (Rose (E.faults errors.old) (E.faults errors.new)) }
{
    let place = fault.place as usize;
    let said = said_of_word(words, place, fault.why);
    say_word(
        alloc,
        words,
        place,
        said,
        Ending::WordsRefused(*fault),
        errors,
    )
}

/// Says that a file of a name can't be read.
pub fn miss_file<E: Sink>(alloc: Global, name: &str, errors: &mut E) -> Ending
    ensures kind { is_refused result ≡ true }
    ensures said { IsSaid Ending.FileFault result (Rose (E.faults errors.old) (E.faults errors.new)) }
{
    let said = "isn't there, or can't be read";
    say(alloc, name, said, Ending::FileFault, errors)
}

/// Refuses a file of a name that is too long.
pub fn refuse_long_file<E: Sink>(alloc: Global, name: &str, errors: &mut E) -> Ending
    ensures kind { is_refused result ≡ true }
    ensures said { IsSaid (Ending.TooLong file_limit) result (Rose (E.faults errors.old) (E.faults errors.new)) }
{
    let said = "has more than 67,108,864 bytes";
    say(alloc, name, said, Ending::TooLong(FILE_LIMIT), errors)
}

/// What is said of a table of lines. Err is want of memory.
fn said_of_table(alloc: Global, fault: &TableFault) -> Result<String, AllocError> {
    let mut text = String::new(alloc);
    text.push_str("is no table of lines: ")?;
    write!(text, "{fault}")?;
    Ok(text)
}

/// Refuses a file of a name as a table of lines, unless memory is wanting for what is said of it.
pub fn refuse_table<E: Sink>(
    alloc: Global,
    name: &str,
    fault: &TableFault,
    errors: &mut E,
) -> Ending
    ensures kind { is_refused result ≡ true }
    ensures said { (result ≡ Ending.OutOfMemory) ⊎
        IsSaid Ending.FileFault result (Rose (E.faults errors.old) (E.faults errors.new)) }
{
    match said_of_table(alloc, fault) {
        Err(_) => Ending::OutOfMemory,
        Ok(said) => say(alloc, name, said.as_str(), Ending::FileFault, errors),
    }
}
