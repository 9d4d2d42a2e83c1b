//! How a command ended, and what is said of it.
ghost use Rattle.std.specs.Prelude.{◌≡◌, [], string_bytes, true, false, IfErr, IfOk};
ghost use Rattle.commands.specs.Promises.{is_failure};

use crate::refusals::file_text;
use command_lines::Ending;
use std::alloc::{AllocError, Global};

/// How a command ended, and what is said of it behind the program's errors: a line or two, or nothing.
#[derive(Drop)]
pub struct Told {
    pub ending: Ending,
    pub said: String,
    /// The report of the run was wanted, and couldn't be put whole.
    pub report_failed: bool,
}

/// An ending of which nothing is said.
pub fn silent(alloc: Global, ending: Ending) -> Told
    ensures ending { result.ending ≡ ending }
    ensures said { string_bytes result.said ≡ [] }
    ensures report { result.report_failed ≡ false }
{
    Told {
        ending,
        said: String::new(alloc),
        report_failed: false,
    }
}

/// An ending with what is said of it; nothing is said where memory is wanting for that.
pub fn with_text(alloc: Global, ending: Ending, said: Result<String, AllocError>) -> Told
    ensures ending { result.ending ≡ ending }
    ensures report { result.report_failed ≡ false }
{
    match said {
        Ok(said) => Told {
            ending,
            said,
            report_failed: false,
        },
        Err(_) => silent(alloc, ending),
    }
}

/// An ending with the text of it, or the want of memory for that; and whether the report couldn't be put.
pub fn with_explanation(
    alloc: Global,
    ending: Ending,
    said: Result<String, AllocError>,
    report_failed: bool,
) -> Told
    ensures said { IfOk said (λ text. (result.ending ≡ ending) × (string_bytes result.said ≡ string_bytes text)) }
    ensures wanting { IfErr said (λ _. (result.ending ≡ Ending.OutOfMemory) × (string_bytes result.said ≡ [])) }
    ensures report { result.report_failed ≡ report_failed }
{
    match said {
        Ok(said) => Told {
            ending,
            said,
            report_failed,
        },
        Err(_) => Told {
            ending: Ending::OutOfMemory,
            said: String::new(alloc),
            report_failed,
        },
    }
}

/// The same, with nothing said where it is to be quiet.
pub fn hushed(alloc: Global, told: Told, quiet: bool) -> Told
    ensures ending { result.ending ≡ told.ending }
    ensures quiet { quiet ≡ true → string_bytes result.said ≡ [] }
    ensures aloud { quiet ≡ false → string_bytes result.said ≡ string_bytes told.said }
    ensures report { result.report_failed ≡ told.report_failed }
{
    if quiet {
        Told {
            said: String::new(alloc),
            ..told
        }
    } else {
        told
    }
}

/// A text, or what was said before where memory is wanting for it.
fn text_or(text: Result<String, AllocError>, said: String) -> String {
    match text {
        Ok(text) => text,
        Err(_) => said,
    }
}

/// What is said of an ending, or in its place a line where the input, the output or memory failed.
fn failure_text(alloc: Global, ending: Ending, said: String) -> String
    ensures { is_failure ending ≡ false → string_bytes result ≡ string_bytes said }
{
    match ending {
        Ending::ReadFault => text_or(file_text(alloc, "the input", "can't be read"), said),
        Ending::WriteFault => text_or(file_text(alloc, "the output", "can't be written"), said),
        Ending::OutOfMemory => text_or(file_text(alloc, "the memory", "isn't enough"), said),
        _ => said,
    }
}

/// The same, with a line where the input, the output or memory failed. Nothing is said where memory is wanting for
/// that.
pub fn with_failure(alloc: Global, told: Told) -> Told
    ensures ending { result.ending ≡ told.ending }
    ensures said { is_failure told.ending ≡ false → string_bytes result.said ≡ string_bytes told.said }
    ensures report { result.report_failed ≡ told.report_failed }
{
    let Told {
        ending,
        said,
        report_failed,
    } = told;
    Told {
        ending,
        said: failure_text(alloc, ending, said),
        report_failed,
    }
}
