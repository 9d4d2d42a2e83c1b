//! A script line by line.
ghost use Rattle.std.specs.Prelude.{◌≡◌, ◌≤◌, MatchResult, length, map};
ghost use Rattle.dbg_model.specs.Commands.{is_break, is_watch};
ghost use Rattle.dbg_model.specs.Script.{fault_at, has_no_command, is_full, read_line, script};
ghost use Rattle.dbg_core.specs.Errors.{fault_in};
ghost use Rattle.line_words.specs.Lines.{words};
ghost use Rattle.line_words.specs.Reading.{IsErrorOf, Leaves};
ghost use Rattle.line_words.specs.Refusals.{at_line, read_lines};

use crate::script_commands::command_of;
use dbg_model::{Command, Script, ScriptFault, ScriptWhy};
use std::alloc::{AllocError, Global};
use thiserror::Error;

/// The greatest number of lines.
const MOST_LINES: usize = 10_000;

/// The greatest number of breaks, and of watches.
const MOST_MARKS: usize = 64;

/// Why there is no script: it is refused, or memory is wanting.
#[derive(Clone, Copy, Debug, PartialEq, Eq, Error)]
pub enum ScriptError {
    #[error("{0}")]
    Refused(ScriptFault),
    #[error("out of memory")]
    OutOfMemory,
}

impl From<AllocError> for ScriptError {
    ghost use Rattle.dbg_core.specs.declared.script_reader.ScriptError.TheVariants.{OutOfMemory};

    ghost from_gives = { λ _ e. e ≡ OutOfMemory };

    fn from(_: AllocError) -> ScriptError {
        ScriptError::OutOfMemory
    }
}

/// A refusal in a line.
fn refused(why: ScriptWhy, number: usize) -> ScriptError
    requires { number ≤ 10001 }
    ensures { result ≡ ScriptError.Refused (record { line = number; why = why }) }
{
    ScriptError::Refused(ScriptFault {
        line: number as u32,
        why,
    })
}

/// Whether a script holds as many breaks, or as many watches, as it may.
fn is_full(script: &Script, command: &Command) -> bool
    ensures { result ≡ is_full script.now command.now }
{
    let commands = script.commands();
    match command {
        Command::Break(_) => commands.iter().filter(|c| is_break(c)).count() >= MOST_MARKS,
        Command::Watch(_, _) => commands.iter().filter(|c| is_watch(c)).count() >= MOST_MARKS,
        _ => false,
    }
}

/// Whether a command adds a break.
fn is_break(command: &Command) -> bool
    ensures { result ≡ is_break command.now }
{
    matches!(command, Command::Break(_))
}

/// Whether a command adds a watch.
fn is_watch(command: &Command) -> bool
    ensures { result ≡ is_watch command.now }
{
    matches!(command, Command::Watch(_, _))
}

/// Whether a line, which has these words, is skipped: it is a comment, or has no word.
fn is_skipped(line: &str, found: &[&str]) -> bool
    requires { map (λ word. word.now) found.now ≡ words line.now }
    ensures { result ≡ has_no_command line.now }
{
    line_words::is_comment(line) || found.is_empty()
}

/// Reads a line behind those before it.
fn read_line(
    alloc: Global,
    script: &mut Script,
    line: &str,
    number: usize,
) -> Result<(), ScriptError>
    requires { number ≤ 10001 }
    ensures { Leaves fault_in (at_line fault_at number (read_line script.old line.now)) script.new result }
{
    let words = line_words::words(alloc, line)?;
    if is_skipped(line, &words) {
        return Ok(());
    }
    let command = match command_of(&words) {
        Ok(command) => command,
        Err(why) => return Err(refused(why, number)),
    };
    if is_full(script, &command) {
        return Err(refused(ScriptWhy::TooMany, number));
    }
    script.push(command)?;
    Ok(())
}

/// Reads the lines one after the other behind the commands before them.
fn read_lines(alloc: Global, lines: &[&str], script: &mut Script) -> Result<(), ScriptError>
    requires { length lines.now ≤ 10000 }
    ensures { Leaves fault_in (read_lines fault_at read_line script.old 1 (map (λ line. line.now) lines.now))
        script.new result }
{
    for place in 0..lines.len() {
        read_line(alloc, script, line_words::text_at(lines, place), place + 1)?;
    }
    Ok(())
}

/// Reads a script: one command in each line, but for lines without a word and lines that begin with `#`.
///
/// The refusal is the first: TooManyLines, with line 10,001, where there are more than 10,000 lines; then line by line
/// UnknownCommand, for each argument MissingWord, BadNumber and OutOfRange, then ExtraWord and TooMany. OutOfMemory is
/// want of memory. NotUtf8 isn't answered, since a text is UTF-8.
pub fn read_script(alloc: Global, text: &str) -> Result<Script, ScriptError>
    ensures { MatchResult result (λ read. script text.now ≡ Ok read)
        (λ error. IsErrorOf (script text.now) (fault_in error)) }
{
    let lines = line_words::lines(alloc, text)?;
    if lines.len() > MOST_LINES {
        return Err(refused(ScriptWhy::TooManyLines, MOST_LINES + 1));
    }
    let mut script = Script::new(alloc);
    match read_lines(alloc, &lines, &mut script) {
        Ok(()) => Ok(script),
        Err(error) => Err(error),
    }
}
