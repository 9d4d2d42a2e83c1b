//! svemu: runs a static AArch64 program with the Scalable Vector Extension at a chosen vector length, by itself, in a
//! debugger or with its threads under a schedule, or at each length; makes executables of listings, shows the
//! instructions of executables, and runs a load program that it makes.
#![tactic(auto)]

ghost use Rattle.std.specs.Prelude.{◌≡◌, ◌≢◌};

pub use command_lines::{Ending, Line, WordsFault, WordsWhy, line_of_words};
pub use command_model::{OutOfMemory, load_listing};
use io_gate::{FileImages, StdSink, StdSource};
use std::alloc::{AllocError, Global};
use std::env;
use std::io::ErrorKind;
use std::process::ExitCode;
pub use svemu_call::{status_of, svemu};

/// The status where a word of the command line isn't text, or where the words can't be had.
const WORDS_UNREADABLE: u8 = 118;

/// The status where there is no memory.
const OUT_OF_MEMORY: u8 = 120;

/// The status where the words of the command line can't be had, by the kind of the error.
fn status_without_words(kind: ErrorKind) -> u8
    ensures wanting { kind ≡ ErrorKind.OutOfMemory → result ≡ 120 }
    ensures unreadable { kind ≢ ErrorKind.OutOfMemory → result ≡ 118 }
{
    match kind {
        ErrorKind::OutOfMemory => OUT_OF_MEMORY,
        _ => WORDS_UNREADABLE,
    }
}

/// The words after the program's name.
fn words_after_name(alloc: Global, all: env::Args) -> Result<Vec<String>, AllocError> {
    let mut words = Vec::new(alloc);
    for word in all.skip(1) {
        words.push(word)?;
    }
    Ok(words)
}

fn main(rt: HostRuntime) -> ExitCode {
    let all = match env::args(&rt) {
        Ok(all) => all,
        Err(error) => return ExitCode::from(status_without_words(error.kind())),
    };
    let Ok(words) = words_after_name(rt.alloc(), all) else {
        return ExitCode::from(status_without_words(ErrorKind::OutOfMemory));
    };
    let mut files = FileImages::new(&rt);
    let mut input = StdSource::new(rt.stdin());
    let mut output = StdSink::new(rt.stdout());
    let mut errors = StdSink::new(rt.stderr());
    ExitCode::from(status_of(
        rt.alloc(),
        &words,
        &mut files,
        &mut input,
        &mut output,
        &mut errors,
    ))
}
