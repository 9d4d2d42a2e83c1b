//! The command line: its words, or why they are refused.
ghost use Rattle.std.specs.Prelude.{◌≡◌, ◌≤◌, map, length, string_bytes, IfOk};
ghost use Rattle.emu_system.specs.Arguments.{most_arguments};
ghost use Rattle.command_model.specs.CommandLine.{line};
ghost use Rattle.command_lines.specs.Scan.{scanned_line};
ghost use Rattle.command_lines.specs.LineLimits.{HasArguments, HasLimit, HasPlaces};

use crate::command_words::word;
use crate::scan::{fault, line_of, read_words};
use command_model::{Command, Line, WordsFault, WordsWhy};
use emu_system::{MOST_ARGUMENTS, first_too_long, first_with_zero};

/// The command that the words after the program's name say, or the first refusal and its place.
pub fn line_of_words(words: &[String]) -> Result<Line, WordsFault>
    ensures line { result ≡ line (map string_bytes words.now) }
    ensures places { IfOk result (λ line. HasPlaces line (length words.now)) }
    ensures arguments { IfOk result (HasArguments (map string_bytes words.now)) }
    ensures limit { IfOk result HasLimit }
{
    if words.len() > MOST_ARGUMENTS {
        return Err(fault(WordsWhy::TooManyWords, MOST_ARGUMENTS));
    }
    if let Some(place) = first_too_long(words) {
        return Err(fault(WordsWhy::WordsTooLong, place));
    }
    if let Some(place) = first_with_zero(words) {
        return Err(fault(WordsWhy::ZeroByte, place));
    }
    command_of_words(words)
}

/// The command that words say of which none is refused by itself.
fn command_of_words(words: &[String]) -> Result<Line, WordsFault>
    requires { length words.now ≤ most_arguments }
    ensures { result ≡ scanned_line (map string_bytes words.now) }
{
    if words.is_empty() {
        return Err(fault(WordsWhy::NoCommand, 0));
    }
    let Some(command) = Command::of(word(words, 0)) else {
        return Err(fault(WordsWhy::UnknownCommand, 0));
    };
    let seen = read_words(command, words)?;
    line_of(command, words.len(), &seen)
}
