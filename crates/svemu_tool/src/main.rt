//! svemu-tool: runs a static AArch64 program with the Scalable Vector Extension as `svemu` does, and says in a line for
//! a person why one didn't come to its exit; and says the families of words that are no instruction of `svemu`'s table.
#![tactic(auto)]

mod families;
mod texts;

ghost use Rattle.std.specs.Prelude.{length};
ghost use Rattle.tool_lines.specs.ToolLine.{HasRunPlaces};

use crate::families::{push_family, word_of};
use crate::texts::{USAGE, VERSION};
use io_gate::{FileImages, StdSink, StdSource, put_all};
use std::alloc::{AllocError, Global};
use std::io::{IsTerminal, Write};
use std::process::ExitCode;
use std::{env, fs};
use tool_counts::count_program;
use tool_debug::debug_program;
use tool_lines::{RunLine, ToolFault, ToolLine, Variables, counted_words, tool_line};
use tool_run::{file_text, line_text, run_program};
use tool_traces::trace_program;

/// The status where a word of the command line isn't text, or where the words can't be had.
const WORDS_UNREADABLE: u8 = 118;
/// The status where there is no memory.
const OUT_OF_MEMORY: u8 = 120;
/// The status of a refused line.
const REFUSED: u8 = 121;
/// The status where the input failed.
const READ_FAULT: u8 = 124;
/// The status where an output failed.
const WRITE_FAULT: u8 = 125;

/// The words after the program's name.
fn words_after_name(alloc: Global, all: env::Args) -> Result<Vec<String>, AllocError> {
    let mut words = Vec::new(alloc);
    for word in all.skip(1) {
        words.push(word)?;
    }
    Ok(words)
}

/// The value of a variable of the environment; empty where it isn't set.
fn variable(rt: &HostRuntime, name: &str) -> String {
    match env::var(rt, name) {
        Ok(value) => value,
        Err(_) => String::new(rt.alloc()),
    }
}

/// Writes a text to the output, and gives the status.
fn write_text(rt: &HostRuntime, text: &str) -> u8 {
    let mut output = StdSink::new(rt.stdout());
    match put_all(&mut output, text.as_bytes()) {
        Ok(()) => 0,
        Err(_) => write_error(
            rt,
            "svemu: the standard output can't be written\n",
            WRITE_FAULT,
        ),
    }
}

/// Writes a line to the errors, and gives the status.
fn write_error(rt: &HostRuntime, text: &str, status: u8) -> u8 {
    let mut errors = StdSink::new(rt.stderr());
    match put_all(&mut errors, text.as_bytes()) {
        Ok(()) => status,
        Err(_) => WRITE_FAULT,
    }
}

/// Says the refusal of a line.
fn refuse(rt: &HostRuntime, words: &[String], fault: &ToolFault) -> u8 {
    match line_text(rt.alloc(), words, fault) {
        Ok(text) => write_error(rt, text.as_str(), REFUSED),
        Err(_) => OUT_OF_MEMORY,
    }
}

/// Runs a program, whose report goes to a writer where the line names a file for it; None where that failed.
fn run_with<W: Write + Drop>(
    rt: &HostRuntime,
    words: &[String],
    line: &RunLine,
    report: W,
) -> Option<u8>
    requires { HasRunPlaces (length words.now) line.now }
{
    let variables = Variables {
        length: variable(rt, "SVEMU_VL"),
        budget: variable(rt, "SVEMU_BUDGET"),
        pages: variable(rt, "SVEMU_PAGES"),
    };
    let mut files = FileImages::new(rt);
    let mut input = StdSource::new(rt.stdin());
    let mut output = StdSink::new(rt.stdout());
    let mut errors = StdSink::new(rt.stderr());
    let mut registers = StdSink::new(report);
    let told = run_program(
        rt.alloc(),
        words,
        line,
        &variables,
        &mut files,
        &mut input,
        &mut output,
        &mut errors,
        &mut registers,
    );
    if told.report_failed {
        None
    } else {
        Some(told.ending.status())
    }
}

/// Says that a file can't be written, by its name.
fn unwritten(rt: &HostRuntime, name: &str) -> u8 {
    match file_text(rt.alloc(), name, "can't be written") {
        Ok(text) => write_error(rt, text.as_str(), WRITE_FAULT),
        Err(_) => OUT_OF_MEMORY,
    }
}

/// Runs a program, and writes its report to a file of this name.
fn run_reported(rt: &HostRuntime, words: &[String], line: &RunLine, name: &str) -> u8
    requires { HasRunPlaces (length words.now) line.now }
{
    let Ok(file) = fs::create(rt, name) else {
        return unwritten(rt, name);
    };
    match run_with(rt, words, line, file) {
        Some(status) => status,
        None => unwritten(rt, name),
    }
}

/// Runs a program.
fn run(rt: &HostRuntime, words: &[String], line: &RunLine) -> u8
    requires { HasRunPlaces (length words.now) line.now }
{
    match line.registers {
        Some(place) => run_reported(rt, words, line, words[place].as_str()),
        None => run_with(rt, words, line, rt.stderr()).unwrap_or(WRITE_FAULT),
    }
}

/// Counts the words of a program: the line without its command is that of `svemu`.
fn count(rt: &HostRuntime, words: &[String]) -> u8 {
    // a line of this command has its name
    if words.len() < 1 {
        return REFUSED;
    }
    let Ok(same) = counted_words(rt.alloc(), words) else {
        return OUT_OF_MEMORY;
    };
    let mut files = FileImages::new(rt);
    let mut input = StdSource::new(rt.stdin());
    let mut output = StdSink::new(rt.stdout());
    let mut errors = StdSink::new(rt.stderr());
    count_program(
        rt.alloc(),
        &same,
        &mut files,
        &mut input,
        &mut output,
        &mut errors,
    )
    .status()
}

/// Tells the steps of a run.
fn trace(rt: &HostRuntime, words: &[String]) -> u8 {
    let mut files = FileImages::new(rt);
    let mut input = StdSource::new(rt.stdin());
    let mut output = StdSink::new(rt.stdout());
    let mut errors = StdSink::new(rt.stderr());
    trace_program(
        rt.alloc(),
        words,
        &mut files,
        &mut input,
        &mut output,
        &mut errors,
    )
    .status()
}

/// A session of a person.
fn debug(rt: &HostRuntime, words: &[String]) -> u8 {
    let prompted = rt.stdin().is_terminal();
    let mut files = FileImages::new(rt);
    let mut commands = StdSource::new(rt.stdin());
    let mut output = StdSink::new(rt.stdout());
    let mut errors = StdSink::new(rt.stderr());
    debug_program(
        rt.alloc(),
        words,
        prompted,
        &mut files,
        &mut commands,
        &mut output,
        &mut errors,
    )
    .status()
}

/// Writes the family of a word that a text gives.
fn write_family(rt: &HostRuntime, text: &str) -> u8 {
    let Some(word) = word_of(text) else {
        return write_error(
            rt,
            "svemu: family: a word that isn't one, as 0x1e222820\n",
            REFUSED,
        );
    };
    let mut line = String::new(rt.alloc());
    match push_family(&mut line, word) {
        Ok(()) => write_text(rt, line.as_str()),
        Err(_) => OUT_OF_MEMORY,
    }
}

/// Writes the families of the words behind the command's name.
fn families_of_words(rt: &HostRuntime, words: &[String]) -> u8 {
    let mut status = 0;
    for word in words.iter().skip(1) {
        if status == 0 {
            status = write_family(rt, word.as_str());
        }
    }
    status
}

/// Writes the families of the words in the lines of the input.
fn families_of_input(rt: &HostRuntime) -> u8 {
    let mut status = 0;
    for line in rt.lines(rt.alloc()) {
        if status == 0 {
            status = match line {
                Ok(line) => write_family(rt, line.as_str()),
                Err(_) => READ_FAULT,
            };
        }
    }
    status
}

/// Does what the words of the command line say, and gives the status.
fn obey(rt: &HostRuntime, words: &[String]) -> u8 {
    match tool_line(words) {
        Ok(ToolLine::Run(line)) => run(rt, words, &line),
        Ok(ToolLine::Count) => count(rt, words),
        Ok(ToolLine::Trace) => trace(rt, words),
        Ok(ToolLine::Debug) => debug(rt, words),
        Ok(ToolLine::Help) => write_text(rt, USAGE),
        Ok(ToolLine::Version) => write_text(rt, VERSION),
        Ok(ToolLine::Family) if words.len() > 1 => families_of_words(rt, words),
        Ok(ToolLine::Family) => families_of_input(rt),
        Err(fault) => refuse(rt, words, &fault),
    }
}

fn main(rt: HostRuntime) -> ExitCode {
    let all = match env::args(&rt) {
        Ok(all) => all,
        Err(_) => {
            let text = "svemu: a word of the command line isn't text\n";
            return ExitCode::from(write_error(&rt, text, WORDS_UNREADABLE));
        }
    };
    match words_after_name(rt.alloc(), all) {
        Ok(words) => ExitCode::from(obey(&rt, &words)),
        Err(_) => {
            let text = "svemu: the memory isn't enough\n";
            ExitCode::from(write_error(&rt, text, OUT_OF_MEMORY))
        }
    }
}
