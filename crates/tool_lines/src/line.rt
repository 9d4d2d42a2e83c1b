//! The words of the command line as a command with the places of its values.
ghost use Rattle.std.specs.Prelude.{◌≡◌, ◌≤◌, drop, map, length, string_bytes, IfOk};
ghost use Rattle.tool_lines.specs.ToolLine.{
  at_end,
  is_option,
  line_of_command,
  nothing_seen,
  option_of,
  option_text,
  read_option,
  read_word,
  read_words,
  tool_line,
  with_place,
  HasPlaces,
};

use crate::words::word;
use thiserror::Error;

/// An option of `run`.
#[derive(Clone, Copy)]
pub enum ToolOption {
    /// `--vl N`: the vector length in bits.
    Vl,
    /// `--budget B`: the greatest number of steps.
    Budget,
    /// `--pages P`: the greatest number of mapped pages.
    Pages,
    /// `--registers FILE`: the file that the report of the run is written to.
    Registers,
    /// `--threads SCHEDULE`: the schedule under which the program's threads run.
    Threads,
    /// `--quiet`: no explanation behind the program's errors.
    Quiet,
    /// `--help`.
    Help,
}

/// A run: the place of the word that names the program, behind which its arguments stand, and those of the values of
/// options, the last where one is given twice. Places are counted from 0.
#[derive(Clone, Copy)]
pub struct RunLine {
    pub program: usize,
    pub length: Option<usize>,
    pub budget: Option<usize>,
    pub pages: Option<usize>,
    pub registers: Option<usize>,
    pub threads: Option<usize>,
    pub quiet: bool,
}

/// A command with the places of its values.
#[derive(Clone, Copy)]
pub enum ToolLine {
    /// Says how the program is used.
    Help,
    /// Says which version the program is.
    Version,
    /// Says the families of words: those behind the command, or where there are none those of the input.
    Family,
    /// Runs a program.
    Run(RunLine),
    /// Counts how often each word of a program is executed.
    Count,
    /// Tells the steps of a run.
    Trace,
    /// A session of a person over a run.
    Debug,
}

/// Why a command line is refused.
#[derive(Clone, Copy, Debug, Error)]
pub enum ToolWhy {
    #[error("no command")]
    NoCommand,
    #[error("not the name of a command")]
    UnknownCommand,
    #[error("not an option of the command")]
    UnknownOption,
    #[error("an option without a value")]
    MissingValue,
    #[error("no program is named")]
    NoProgram,
}

/// A refused command line: why, and the place of the word, from 0. Where a word is missing it is the number of words.
#[derive(Clone, Copy, Debug, Error)]
#[error("{why} at word {place}")]
pub struct ToolFault {
    pub why: ToolWhy,
    pub place: usize,
}

/// What the words so far said.
#[derive(Clone, Copy)]
pub struct SeenWords {
    /// The place of the program's word.
    pub program: Option<usize>,
    pub length: Option<usize>,
    pub budget: Option<usize>,
    pub pages: Option<usize>,
    pub registers: Option<usize>,
    pub threads: Option<usize>,
    pub quiet: bool,
    /// `--help` was given.
    pub help: bool,
    /// The option whose value is the next word.
    pub awaited: Option<ToolOption>,
    /// `--` was given, behind which no option stands.
    pub plain: bool,
}

impl ToolOption {
    /// The option's name with its two dashes.
    pub fn text(self) -> &'static str
        ensures { result.now ≡ option_text self }
    {
        match self {
            ToolOption::Vl => "--vl",
            ToolOption::Budget => "--budget",
            ToolOption::Pages => "--pages",
            ToolOption::Registers => "--registers",
            ToolOption::Threads => "--threads",
            ToolOption::Quiet => "--quiet",
            ToolOption::Help => "--help",
        }
    }
}

/// The option that a word gives. None exactly where there is none.
fn option_of(word: &str) -> Option<ToolOption>
    ensures { result ≡ option_of word.now }
{
    match word {
        "--vl" => Some(ToolOption::Vl),
        "--budget" => Some(ToolOption::Budget),
        "--pages" => Some(ToolOption::Pages),
        "--registers" => Some(ToolOption::Registers),
        "--threads" => Some(ToolOption::Threads),
        "--quiet" => Some(ToolOption::Quiet),
        "--help" => Some(ToolOption::Help),
        _ => None,
    }
}

/// Whether a word has the form of an option.
pub(crate) fn is_option(word: &str) -> bool
    ensures { result ≡ is_option word.now }
{
    word.starts_with("--")
}

/// A refusal at a place.
fn fault(why: ToolWhy, place: usize) -> ToolFault
    ensures { result ≡ record { why = why; place = place } }
{
    ToolFault { why, place }
}

/// Before any word was read.
fn nothing_seen() -> SeenWords
    ensures { result ≡ nothing_seen }
{
    SeenWords {
        program: None,
        length: None,
        budget: None,
        pages: None,
        registers: None,
        threads: None,
        quiet: false,
        help: false,
        awaited: None,
        plain: false,
    }
}

impl SeenWords {
    /// With the place of an option's value.
    fn with_place(self, option: ToolOption, place: usize) -> SeenWords
        ensures { result ≡ with_place option place self }
    {
        let seen = SeenWords {
            awaited: None,
            ..self
        };
        match option {
            ToolOption::Vl => SeenWords {
                length: Some(place),
                ..seen
            },
            ToolOption::Budget => SeenWords {
                budget: Some(place),
                ..seen
            },
            ToolOption::Pages => SeenWords {
                pages: Some(place),
                ..seen
            },
            ToolOption::Registers => SeenWords {
                registers: Some(place),
                ..seen
            },
            ToolOption::Threads => SeenWords {
                threads: Some(place),
                ..seen
            },
            ToolOption::Quiet | ToolOption::Help => seen,
        }
    }

    /// With an option, or its refusal.
    fn read_option(self, place: usize, option: Option<ToolOption>) -> Result<SeenWords, ToolFault>
        ensures { result ≡ read_option self place option }
    {
        match option {
            None => Err(fault(ToolWhy::UnknownOption, place)),
            Some(ToolOption::Quiet) => Ok(SeenWords {
                quiet: true,
                ..self
            }),
            Some(ToolOption::Help) => Ok(SeenWords { help: true, ..self }),
            Some(option) => Ok(SeenWords {
                awaited: Some(option),
                ..self
            }),
        }
    }

    /// With one word more.
    fn read_word(self, place: usize, word: &str) -> Result<SeenWords, ToolFault>
        ensures { result ≡ read_word self place word.now }
    {
        if self.program.is_some() {
            return Ok(self);
        }
        if let Some(option) = self.awaited {
            return Ok(self.with_place(option, place));
        }
        if self.plain || !is_option(word) {
            return Ok(SeenWords {
                program: Some(place),
                ..self
            });
        }
        if word == "--" {
            return Ok(SeenWords {
                plain: true,
                ..self
            });
        }
        self.read_option(place, option_of(word))
    }
}

/// What the words behind the command's name say.
fn read_words(words: &[String]) -> Result<SeenWords, ToolFault>
    ensures { result ≡ read_words nothing_seen 1 (drop 1 (map string_bytes words.now)) }
{
    let mut seen = nothing_seen();
    for place in 1..words.len() {
        seen = seen.read_word(place, word(words, place))?;
    }
    Ok(seen)
}

/// The command that so many words say.
fn at_end(seen: SeenWords, count: usize) -> Result<ToolLine, ToolFault>
    requires { 1 ≤ count }
    ensures { result ≡ at_end seen count }
{
    if seen.help {
        return Ok(ToolLine::Help);
    }
    if seen.awaited.is_some() {
        return Err(fault(ToolWhy::MissingValue, count - 1));
    }
    match seen.program {
        None => Err(fault(ToolWhy::NoProgram, count)),
        Some(program) => Ok(ToolLine::Run(RunLine {
            program,
            length: seen.length,
            budget: seen.budget,
            pages: seen.pages,
            registers: seen.registers,
            threads: seen.threads,
            quiet: seen.quiet,
        })),
    }
}

/// The command that the words after the program's name say, or the first refusal and its place.
pub fn tool_line(words: &[String]) -> Result<ToolLine, ToolFault>
    ensures line { result ≡ tool_line (map string_bytes words.now) }
    ensures places { IfOk result (HasPlaces (length words.now)) }
{
    line_of_words(words)
}

/// The command that words say whose first one names it.
fn line_of_command(words: &[String], name: &str) -> Result<ToolLine, ToolFault>
    requires { 1 ≤ length words.now }
    ensures { result ≡ line_of_command (map string_bytes words.now) name.now }
{
    if name == "--help" {
        return Ok(ToolLine::Help);
    }
    if name == "--version" {
        return Ok(ToolLine::Version);
    }
    if name == "family" {
        return Ok(ToolLine::Family);
    }
    if name == "count" {
        return Ok(ToolLine::Count);
    }
    if name == "trace" {
        return Ok(ToolLine::Trace);
    }
    if name == "debug" {
        return Ok(ToolLine::Debug);
    }
    if name == "run" {
        return at_end(read_words(words)?, words.len());
    }
    Err(fault(ToolWhy::UnknownCommand, 0))
}

/// The same, without what the places are held to.
fn line_of_words(words: &[String]) -> Result<ToolLine, ToolFault>
    ensures { result ≡ tool_line (map string_bytes words.now) }
{
    if words.is_empty() {
        return Err(fault(ToolWhy::NoCommand, 0));
    }
    line_of_command(words, word(words, 0))
}
