//! The whole command.
ghost use Rattle.std.specs.Prelude.{◌≡◌, ◌<◌, ◌≤◌, false, true, is_some, length, map, string_bytes};
ghost use Rattle.std.specs.Prelude.{IfErr, IfOk, OnErr};
ghost use Rattle.std.specs.List.{count_by};
ghost use Rattle.emu_model.specs.Access.{most_mapped_pages};
ghost use Rattle.elf_image.specs.Images.{seen_image};
ghost use Rattle.elf_image.specs.Loadable.{IsLoadable};
ghost use Rattle.emu_machine.specs.Machines.{has_ended};
ghost use Rattle.emu_system.specs.ArgumentLimits.{AreArguments};
ghost use Rattle.command_lines.specs.LineLimits.{HasArguments, HasLimit, HasPlaces};
ghost use Rattle.command_lines.specs.Outcome.{program_arguments};
ghost use Rattle.debug_options.specs.Endings.{is_refused};
ghost use Rattle.tool_debug.specs.Endings.{EndsSo, is_session_end, may_end};

use crate::talk::talk;
use command_lines::{Ending, Line, line_of_words, word};
use debug_moves::{Broken, Session};
use debug_options::{
    FILE_LIMIT, Given, miss_file, read_sources, refuse_long_file, refuse_table, refuse_words,
    run_words, seen_sources,
};
use debug_points::Points;
use debug_walk::Trail;
use elf_image::{Image, read};
use elf_symbols::symbols;
use emu_machine::Machine;
use emu_model::Length;
use io_gate::{Images, ImagesError, Sink, SliceSource, Source};
use source_lines::{Row, SourceFile, TableError, read_table};
use std::alloc::Global;
use tool_refusals::{arguments, refuse_image};

/// How many steps a command goes at most.
const SLICE: u64 = 100_000_000;

/// The run that a line says: the places of the words that name the file and the first argument, or the number of words;
/// the vector length, the greatest number of steps, and the greatest number of mapped pages.
#[derive(Clone, Copy)]
struct Program {
    file: usize,
    args: usize,
    length: Length,
    budget: u64,
    pages: u32,
}

/// What a session is over beside its program: the lines and files of its source, the program's input, the commands
/// where a file has them, and whether a prompt is shown before each line.
#[derive(Drop)]
struct Ask<'rows, 'table, 'sources, 'texts, 'input, 'script> {
    rows: &'rows [Row<'table>],
    sources: &'sources [SourceFile<'texts>],
    input: &'input [u8],
    script: Option<&'script [u8]>,
    prompted: bool,
}

/// How a session that was broken off ends.
fn ending_of(talked: Result<(), Broken>) -> Ending
    ensures { is_session_end result ≡ true }
{
    match talked {
        Ok(()) => Ending::Done,
        Err(Broken::OutOfMemory) => Ending::OutOfMemory,
        Err(Broken::Input) => Ending::ReadFault,
        Err(Broken::Output) => Ending::WriteFault,
        Err(Broken::Errors) => Ending::ErrorsFault,
    }
}

/// A session over a machine.
fn debug_machine<F: Images, C: Source, O: Sink, E: Sink>(
    alloc: Global,
    session: &mut Session,
    machine: &mut Machine,
    script: Option<&[u8]>,
    files: &mut F,
    commands: &mut C,
    output: &mut O,
    errors: &mut E,
) -> Ending
    requires marks { length machine.old.marks ≡ 16 }
    requires places { length machine.old.saved ≡ 16 }
    requires none { count_by is_some machine.old.marks ≡ 0 }
    requires steps { machine.old.parts.steps ≡ 0 }
    requires going { has_ended machine.old ≡ false }
    ensures { is_session_end result ≡ true }
{
    let mut trail = Trail::begin(machine);
    let talked = match script {
        Some(bytes) => {
            let mut lines = SliceSource::new(bytes);
            talk(
                alloc, session, machine, &mut trail, files, &mut lines, output, errors,
            )
        }
        None => talk(
            alloc, session, machine, &mut trail, files, commands, output, errors,
        ),
    };
    ending_of(talked)
}

/// A session over an image.
fn debug_image<F: Images, C: Source, O: Sink, E: Sink>(
    alloc: Global,
    bytes: &[u8],
    image: &Image,
    args: &[String],
    program: &Program,
    asked: &Ask,
    files: &mut F,
    commands: &mut C,
    output: &mut O,
    errors: &mut E,
) -> Ending
    requires loadable { IsLoadable bytes.now program.now.pages (seen_image image.now) }
    requires arguments { AreArguments (map string_bytes args.now) }
    requires pages { program.now.pages ≤ most_mapped_pages }
    ensures { is_session_end result ≡ true }
{
    let Ok(symbols) = symbols(alloc, bytes) else {
        return Ending::OutOfMemory;
    };
    let (length, pages) = (program.length, program.pages);
    let Ok(mut machine) = Machine::open_marked(alloc, bytes, image, args, length, pages) else {
        return Ending::OutOfMemory;
    };
    let mut session = Session {
        symbols: &symbols,
        rows: asked.rows,
        sources: asked.sources,
        input: asked.input,
        budget: program.budget,
        slice: SLICE,
        points: Points::new(alloc),
        prompted: asked.prompted,
        listed: None,
    };
    debug_machine(
        alloc,
        &mut session,
        &mut machine,
        asked.script,
        files,
        commands,
        output,
        errors,
    )
}

/// A session over the program of a file's bytes, or its refusal.
fn debug_bytes<F: Images, C: Source, O: Sink, E: Sink>(
    alloc: Global,
    bytes: &[u8],
    same: &[String],
    program: &Program,
    asked: &Ask,
    files: &mut F,
    commands: &mut C,
    output: &mut O,
    errors: &mut E,
) -> Ending
    requires file { program.now.file < program.now.args }
    requires args { program.now.args ≤ length same.now }
    requires arguments { AreArguments (program_arguments
        (map string_bytes same.now) program.now.file program.now.args) }
    requires pages { program.now.pages ≤ most_mapped_pages }
    ensures { EndsSo result (commands.new ≡ commands.old) (output.new ≡ output.old) }
{
    match read(bytes, program.pages) {
        Err(fault) => refuse_image(alloc, word(same, program.file), bytes, fault, errors),
        Ok(image) => match arguments(alloc, same, program.file, program.args) {
            Err(_) => Ending::OutOfMemory,
            Ok(args) => debug_image(
                alloc, bytes, &image, &args, program, asked, files, commands, output, errors,
            ),
        },
    }
}

/// The bytes of a file, or what its refusal ends with.
fn file_bytes<F: Images, E: Sink>(
    alloc: Global,
    name: &str,
    limit: u64,
    files: &mut F,
    errors: &mut E,
) -> Result<Vec<u8>, Ending>
    ensures { IfErr result (λ ending. is_refused ending ≡ true) }
{
    match files.read_whole(alloc, name, limit as usize) {
        Ok(bytes) => Ok(bytes),
        Err(ImagesError::Failed) | Err(ImagesError::Missing) => Err(miss_file(alloc, name, errors)),
        Err(ImagesError::TooLong) => Err(refuse_long_file(alloc, name, errors)),
        Err(ImagesError::OutOfMemory) => Err(Ending::OutOfMemory),
    }
}

/// The bytes of the file that the word at a place names; none where there is no place.
fn bytes_at<F: Images, E: Sink>(
    alloc: Global,
    words: &[String],
    place: Option<usize>,
    limit: u64,
    files: &mut F,
    errors: &mut E,
) -> Result<Vec<u8>, Ending>
    ensures { IfErr result (λ ending. is_refused ending ≡ true) }
{
    match place {
        Some(place) if place < words.len() => file_bytes(
            alloc,
            word(words, place),
            limit,
            files,
            errors,
        ),
        _ => Ok(Vec::new(alloc)),
    }
}

/// The text of the table of lines that a line names; none where it names none.
fn table_text<F: Images, E: Sink>(
    alloc: Global,
    words: &[String],
    given: &Given,
    files: &mut F,
    errors: &mut E,
) -> Result<String, Ending>
    ensures { IfErr result (λ ending. is_refused ending ≡ true) }
{
    let bytes = bytes_at(alloc, words, given.lines, FILE_LIMIT, files, errors)?;
    match String::from_utf8_lossy(alloc, &bytes) {
        Ok(text) => Ok(text),
        Err(_) => Err(Ending::OutOfMemory),
    }
}

/// The rows of the table of lines, or what its refusal ends with.
fn rows_of<'a, E: Sink>(
    alloc: Global,
    words: &[String],
    given: &Given,
    text: &'a str,
    errors: &mut E,
) -> Result<Vec<Row<'a>>, Ending>
    ensures { IfErr result (λ ending. is_refused ending ≡ true) }
{
    let place = given.lines.unwrap_or(0);
    match read_table(alloc, text) {
        Ok(rows) => Ok(rows),
        Err(TableError::OutOfMemory) => Err(Ending::OutOfMemory),
        Err(TableError::Refused(fault)) => {
            let name = if place < words.len() {
                word(words, place)
            } else {
                ""
            };
            Err(refuse_table(alloc, name, &fault, errors))
        }
    }
}

/// The commands of a file, where a line names one.
fn script_of<'a>(given: &Given, script: &'a [u8]) -> Option<&'a [u8]> {
    if given.script.is_some() {
        Some(script)
    } else {
        None
    }
}

/// A session over a program whose files were read.
fn debug_read<F: Images, C: Source, O: Sink, E: Sink>(
    alloc: Global,
    bytes: &[u8],
    rows: &[Row<'_>],
    sources: &[SourceFile<'_>],
    input: &[u8],
    script: &[u8],
    same: &[String],
    given: &Given,
    program: &Program,
    prompted: bool,
    files: &mut F,
    commands: &mut C,
    output: &mut O,
    errors: &mut E,
) -> Ending
    requires file { program.now.file < program.now.args }
    requires args { program.now.args ≤ length same.now }
    requires arguments { AreArguments (program_arguments
        (map string_bytes same.now) program.now.file program.now.args) }
    requires pages { program.now.pages ≤ most_mapped_pages }
    ensures { EndsSo result (commands.new ≡ commands.old) (output.new ≡ output.old) }
{
    let script = script_of(given, script);
    let asked = Ask {
        rows,
        sources,
        input,
        script,
        prompted: prompted && given.script.is_none(),
    };
    debug_bytes(
        alloc, bytes, same, program, &asked, files, commands, output, errors,
    )
}

/// A session over a program, whose files are read first.
fn debug_files<F: Images, C: Source, O: Sink, E: Sink>(
    alloc: Global,
    words: &[String],
    same: &[String],
    given: &Given,
    program: &Program,
    prompted: bool,
    files: &mut F,
    commands: &mut C,
    output: &mut O,
    errors: &mut E,
) -> Result<Ending, Ending>
    requires file { program.now.file < program.now.args }
    requires args { program.now.args ≤ length same.now }
    requires arguments { AreArguments (program_arguments
        (map string_bytes same.now) program.now.file program.now.args) }
    requires pages { program.now.pages ≤ most_mapped_pages }
    ensures ends { IfOk result (λ ending. EndsSo ending (commands.new ≡ commands.old) (output.new ≡ output.old)) }
    ensures refused { IfErr result (λ ending. is_refused ending ≡ true) }
    ensures untaken { OnErr result (commands.new ≡ commands.old) }
    ensures unwritten { OnErr result (output.new ≡ output.old) }
{
    let bytes = file_bytes(alloc, word(same, program.file), FILE_LIMIT, files, errors)?;
    let input = bytes_at(alloc, words, given.input, FILE_LIMIT, files, errors)?;
    let script = bytes_at(alloc, words, given.script, FILE_LIMIT, files, errors)?;
    let table = table_text(alloc, words, given, files, errors)?;
    let rows = rows_of(alloc, words, given, table.as_str(), errors)?;
    let read = read_sources(alloc, &rows, files)?;
    let sources = seen_sources(alloc, &read)?;
    Ok(debug_read(
        alloc, &bytes, &rows, &sources, &input, &script, same, given, program, prompted, files,
        commands, output, errors,
    ))
}

/// A session over what an accepted line runs. The words that `run_words` gives make no line of another kind.
fn debug_line<F: Images, C: Source, O: Sink, E: Sink>(
    alloc: Global,
    words: &[String],
    same: &[String],
    given: &Given,
    line: &Line,
    prompted: bool,
    files: &mut F,
    commands: &mut C,
    output: &mut O,
    errors: &mut E,
) -> Ending
    requires places { HasPlaces line.now (length same.now) }
    requires arguments { HasArguments (map string_bytes same.now) line.now }
    requires limit { HasLimit line.now }
    ensures { EndsSo result (commands.new ≡ commands.old) (output.new ≡ output.old) }
{
    match *line {
        Line::Run {
            file,
            args,
            length,
            budget,
            pages,
        } => {
            let program = Program {
                file,
                args,
                length,
                budget,
                pages,
            };
            match debug_files(
                alloc, words, same, given, &program, prompted, files, commands, output, errors,
            ) {
                Ok(ending) => ending,
                Err(ending) => ending,
            }
        }
        _ => Ending::OutOfMemory,
    }
}

/// A session of a person over what words of `svemu-tool` say whose first is `debug`: the lines of `commands`, or those
/// of the file that `--script` names, are obeyed one after the other, each before the next is read. The program's input
/// is the file that `--input` names, and the lines of its source are those of the table that `--lines` names. What the
/// program writes, and what is shown, goes to `output`.
///
/// The ending is Done where the session was ended by a command, or no line was left.
pub fn debug_program<F: Images, C: Source, O: Sink, E: Sink>(
    alloc: Global,
    words: &[String],
    prompted: bool,
    files: &mut F,
    commands: &mut C,
    output: &mut O,
    errors: &mut E,
) -> Ending
    ensures kind { may_end result ≡ true }
    ensures untaken { is_session_end result ≡ false → commands.new ≡ commands.old }
    ensures unwritten { is_session_end result ≡ false → output.new ≡ output.old }
{
    let Ok((same, given)) = run_words(alloc, words) else {
        return Ending::OutOfMemory;
    };
    let read = line_of_words(&same);
    match &read {
        Err(fault) => refuse_words(alloc, &same, fault, errors),
        Ok(line) => debug_line(
            alloc, words, &same, &given, line, prompted, files, commands, output, errors,
        ),
    }
}
