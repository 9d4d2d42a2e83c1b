//! The lines of a session, one after the other.
ghost use Rattle.std.specs.Prelude.{◌≡◌, OnOk};
ghost use Rattle.dbg_back.specs.Walks.{CanWalk};
ghost use Rattle.debug_walk.specs.Walks.{StaysOn};

use crate::lines::next_line;
use debug_commands::obey;
use debug_moves::{Broken, Session};
use debug_places::Refusal;
use debug_reports::{put, put_where};
use debug_shows::push_refusal;
use debug_walk::Trail;
use debug_words::{Command, command_of, cut_words};
use emu_machine::Machine;
use io_gate::{Images, ImagesError, Sink, SliceSource, Source};
use std::alloc::{AllocError, Global};

/// The most bytes of a file of commands.
const MOST_COMMANDS: usize = 16_777_216;

/// What a session does behind a line.
#[derive(Clone, Copy)]
enum Then {
    /// The next line.
    Next,
    /// The lines of the file that the line names.
    File,
    End,
}

/// The words of a line, without a comma at the end of one, those of a condition cut at its comparison. Err is want of
/// memory.
fn words_of(alloc: Global, line: &str) -> Result<Vec<&str>, AllocError> {
    let mut words = line_words::words(alloc, line)?;
    'words: for k in 0..words.len() {
        words[k] = words[k].strip_suffix(",").unwrap_or(words[k]);
    }
    cut_words(alloc, &words)
}

/// Puts why a line is no command.
fn refuse<O: Sink>(
    alloc: Global,
    words: &[&str],
    refusal: &Refusal,
    output: &mut O,
) -> Result<(), Broken> {
    let mut text = String::new(alloc);
    push_refusal(&mut text, words, refusal)?;
    put(text.as_str(), output)
}

/// Obeys a line, or says why it is no command.
fn obey_line<O: Sink, E: Sink>(
    alloc: Global,
    session: &mut Session,
    line: &str,
    machine: &mut Machine,
    trail: &mut Trail,
    output: &mut O,
    errors: &mut E,
) -> Result<Then, Broken>
    requires walks { CanWalk session.old.input.now machine.old trail.old }
    ensures stays { OnOk result (StaysOn session.old.input.now machine.old machine.new trail.old trail.new) }
    ensures input { session.new.input.now ≡ session.old.input.now }
{
    let words = words_of(alloc, line)?;
    if words.is_empty() || line_words::is_comment(line) {
        return Ok(Then::Next);
    }
    match command_of(session.symbols, session.rows, &words) {
        Err(refusal) => {
            refuse(alloc, &words, &refusal, output)?;
            Ok(Then::Next)
        }
        Ok(Command::Source) => Ok(Then::File),
        Ok(command) => {
            let goes_on = obey(
                alloc, session, &words, command, machine, trail, output, errors,
            )?;
            Ok(if goes_on { Then::Next } else { Then::End })
        }
    }
}

/// Obeys the lines of a source one after the other, each but one that names a file. False where one ends the session.
fn obey_lines<C: Source, O: Sink, E: Sink>(
    alloc: Global,
    session: &mut Session,
    commands: &mut C,
    machine: &mut Machine,
    trail: &mut Trail,
    output: &mut O,
    errors: &mut E,
) -> Result<bool, Broken>
    requires walks { CanWalk session.old.input.now machine.old trail.old }
    ensures stays { OnOk result (StaysOn session.old.input.now machine.old machine.new trail.old trail.new) }
    ensures input { session.new.input.now ≡ session.old.input.now }
{
    'lines: for _ in 0..u64::MAX {
        let Some(line) = next_line(alloc, commands)? else {
            return Ok(true);
        };
        let line = line.as_str();
        match obey_line(alloc, session, line, machine, trail, output, errors)? {
            Then::Next => {}
            Then::File => put("a file of commands names no other\n", output)?,
            Then::End => return Ok(false),
        }
    }
    Ok(true)
}

/// The bytes of the file that the second word of a line names, or what is put where it can't be read.
fn commands_of<F: Images>(
    alloc: Global,
    line: &str,
    files: &mut F,
) -> Result<Result<Vec<u8>, &'static str>, Broken> {
    let words = line_words::words(alloc, line)?;
    let name = if words.len() > 1 { words[1] } else { "" };
    match files.read_whole(alloc, name, MOST_COMMANDS) {
        Ok(bytes) => Ok(Ok(bytes)),
        Err(ImagesError::OutOfMemory) => Err(Broken::OutOfMemory),
        Err(ImagesError::TooLong) => Ok(Err("the file has more than 16,777,216 bytes\n")),
        Err(_) => Ok(Err("the file isn't there, or can't be read\n")),
    }
}

/// Obeys the lines of the file that the second word of a line names. False where one ends the session.
fn obey_file<F: Images, O: Sink, E: Sink>(
    alloc: Global,
    session: &mut Session,
    line: &str,
    machine: &mut Machine,
    trail: &mut Trail,
    files: &mut F,
    output: &mut O,
    errors: &mut E,
) -> Result<bool, Broken>
    requires walks { CanWalk session.old.input.now machine.old trail.old }
    ensures stays { OnOk result (StaysOn session.old.input.now machine.old machine.new trail.old trail.new) }
    ensures input { session.new.input.now ≡ session.old.input.now }
{
    match commands_of(alloc, line, files)? {
        Err(said) => {
            put(said, output)?;
            Ok(true)
        }
        Ok(bytes) => {
            let mut lines = SliceSource::new(&bytes);
            obey_lines(alloc, session, &mut lines, machine, trail, output, errors)
        }
    }
}

/// Obeys a line, and the lines of the file that it names. False where one ends the session.
fn obey_all<F: Images, O: Sink, E: Sink>(
    alloc: Global,
    session: &mut Session,
    line: &str,
    machine: &mut Machine,
    trail: &mut Trail,
    files: &mut F,
    output: &mut O,
    errors: &mut E,
) -> Result<bool, Broken>
    requires walks { CanWalk session.old.input.now machine.old trail.old }
    ensures stays { OnOk result (StaysOn session.old.input.now machine.old machine.new trail.old trail.new) }
    ensures input { session.new.input.now ≡ session.old.input.now }
{
    match obey_line(alloc, session, line, machine, trail, output, errors)? {
        Then::Next => Ok(true),
        Then::End => Ok(false),
        Then::File => obey_file(alloc, session, line, machine, trail, files, output, errors),
    }
}

/// Shows the prompt, where one is shown, and takes the next line.
fn ask<C: Source, O: Sink>(
    alloc: Global,
    session: &Session,
    commands: &mut C,
    output: &mut O,
) -> Result<Option<String>, Broken> {
    if session.prompted {
        put("(svemu) ", output)?;
    }
    let line = next_line(alloc, commands)?;
    if line.is_none() && session.prompted {
        put("\n", output)?;
    }
    Ok(line)
}

/// Obeys the lines of a source until one ends the session or none is left. An empty line repeats the last one that
/// wasn't empty.
pub fn talk<F: Images, C: Source, O: Sink, E: Sink>(
    alloc: Global,
    session: &mut Session,
    machine: &mut Machine,
    trail: &mut Trail,
    files: &mut F,
    commands: &mut C,
    output: &mut O,
    errors: &mut E,
) -> Result<(), Broken>
    requires walks { CanWalk session.old.input.now machine.old trail.old }
    ensures stays { OnOk result (StaysOn session.old.input.now machine.old machine.new trail.old trail.new) }
{
    put_where(alloc, session, machine, output)?;
    let mut last = String::new(alloc);
    'lines: for _ in 0..u64::MAX {
        match ask(alloc, session, commands, output)? {
            None => return Ok(()),
            Some(line) => {
                if !line.is_empty() {
                    last = line;
                }
            }
        }
        if !obey_all(
            alloc,
            session,
            last.as_str(),
            machine,
            trail,
            files,
            output,
            errors,
        )? {
            return Ok(());
        }
    }
    Ok(())
}
