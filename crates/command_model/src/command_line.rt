//! The command line as a command with its values.
ghost use Rattle.std.specs.Prelude.{◌≡◌, ◌≤◌, length};
ghost use Rattle.command_model.specs.CommandLine.{named_command, option_text, usage_of};

use emu_model::Length;
use thiserror::Error;

/// Why a command line is refused.
#[derive(Clone, Copy, Debug, PartialEq, Eq, Error)]
pub enum WordsWhy {
    #[error("more than 300 words")]
    TooManyWords,
    #[error("more than 32,768 bytes up to this word")]
    WordsTooLong,
    #[error("a byte 0")]
    ZeroByte,
    #[error("no command")]
    NoCommand,
    #[error("not the name of a command")]
    UnknownCommand,
    #[error("not an option of the command")]
    UnknownOption,
    #[error("an option given before")]
    Repeated,
    #[error("an option without a value")]
    MissingValue,
    #[error("not a number of at most 2^64 - 1")]
    BadNumber,
    #[error("not a vector length")]
    BadLength,
    #[error("a number outside of the option's range")]
    OutOfRange,
    #[error("a word too many")]
    ExtraWord,
    #[error("a file's name or a number is missing")]
    MissingWord,
    #[error("--vl is missing")]
    MissingLength,
    #[error("--budget is missing")]
    MissingBudget,
}

/// A refused command line: why, and the place of the word, from 0. Where a word is missing it is the number of words,
/// and where there are too many the greatest number of them.
#[derive(Clone, Copy, Debug, PartialEq, Eq, Error)]
#[error("{why} at word {place}")]
pub struct WordsFault {
    pub why: WordsWhy,
    pub place: u32,
}

/// A command with its values. Places are those of words, from 0.
#[derive(Clone, Copy, Debug, PartialEq, Eq)]
pub enum Line {
    /// Runs the program in the file that the word at `file` names.
    Run {
        file: usize,
        /// The place of the program's first argument, or the number of words.
        args: usize,
        length: Length,
        /// The greatest number of steps.
        budget: u64,
        /// The greatest number of mapped pages.
        pages: u32,
    },
    /// Makes an executable of the listing in the file that the word at `listing` names.
    Asm {
        listing: usize,
    },
    /// Writes the instructions of the program in the file that the word at `file` names.
    Dis {
        file: usize,
    },
    /// Runs a debugger session of the script in the file that the word at `script` names, over a program as `Run` runs
    /// it.
    Dbg {
        file: usize,
        script: usize,
        /// The place of the program's first argument behind its name, or the number of words.
        args: usize,
        length: Length,
        /// The greatest number of steps.
        budget: u64,
        /// The greatest number of mapped pages.
        pages: u32,
    },
    /// Runs the load program that a number makes at each vector length, and writes a line on each.
    Load {
        number: u64,
    },
    /// Runs the program in the file that the word at `file` names at each vector length, and writes a line on each.
    Sweep {
        file: usize,
        /// The place of the program's first argument, or the number of words.
        args: usize,
        /// The greatest number of steps at each length.
        budget: u64,
        /// The greatest number of mapped pages at each length.
        pages: u32,
    },
    /// Runs the contexts of a program, as `Run` runs it, under the schedule in the file that the word at `schedule`
    /// names.
    Threads {
        file: usize,
        schedule: usize,
        /// The place of the program's first argument behind its name, or the number of words.
        args: usize,
        length: Length,
        /// The greatest number of steps of all contexts together.
        budget: u64,
        /// The greatest number of mapped pages.
        pages: u32,
    },
}

/// The commands by their names.
#[derive(Clone, Copy, Debug, PartialEq, Eq)]
pub enum Command {
    /// `run FILE --vl N --budget B [--pages P] [-- ARG ..]`
    Run,
    /// `asm LISTING`
    Asm,
    /// `dis FILE`
    Dis,
    /// `dbg FILE SCRIPT --vl N --budget B [--pages P] [-- ARG ..]`
    Dbg,
    /// `load N`
    Load,
    /// `sweep FILE --budget B [--pages P] [-- ARG ..]`
    Sweep,
    /// `threads FILE SCHEDULE --vl N --budget B [--pages P] [-- ARG ..]`
    Threads,
}

/// The options of commands. Each has a value.
#[derive(Clone, Copy, Debug, PartialEq, Eq)]
pub enum OptionName {
    /// `--vl`, the vector length in bits.
    Vl,
    /// `--budget`, the greatest number of steps.
    Budget,
    /// `--pages`, the greatest number of mapped pages.
    Pages,
}

/// The options of the commands that run a machine.
const MACHINE_OPTIONS: [OptionName; 3] = [OptionName::Vl, OptionName::Budget, OptionName::Pages];

/// The options of the command that runs a machine at each length.
const SWEEP_OPTIONS: [OptionName; 2] = [OptionName::Budget, OptionName::Pages];

impl Command {
    /// The command of a name. None exactly where there is none.
    pub fn of(word: &str) -> Option<Command>
        ensures { result ≡ named_command word.now }
    {
        match word {
            "run" => Some(Command::Run),
            "asm" => Some(Command::Asm),
            "dis" => Some(Command::Dis),
            "dbg" => Some(Command::Dbg),
            "load" => Some(Command::Load),
            "sweep" => Some(Command::Sweep),
            "threads" => Some(Command::Threads),
            _ => None,
        }
    }

    /// The options that the command has.
    pub fn options(self) -> &'static [OptionName]
        ensures { result.now ≡ (usage_of self).options }
    {
        match self {
            Command::Run | Command::Dbg | Command::Threads => &MACHINE_OPTIONS,
            Command::Sweep => &SWEEP_OPTIONS,
            Command::Asm | Command::Dis | Command::Load => &[],
        }
    }

    /// How many plain words the command has: those that are no option, no option's value and no argument.
    pub fn plain_words(self) -> usize
        ensures count { result ≡ (usage_of self).words }
        ensures few { result ≤ 2 }
    {
        match self {
            Command::Run | Command::Asm | Command::Dis | Command::Load | Command::Sweep => 1,
            Command::Dbg | Command::Threads => 2,
        }
    }

    /// Whether the words behind `--` are the arguments of a program.
    pub fn takes_arguments(self) -> bool
        ensures { result ≡ (usage_of self).arguments }
    {
        match self {
            Command::Run | Command::Dbg | Command::Sweep | Command::Threads => true,
            Command::Asm | Command::Dis | Command::Load => false,
        }
    }

    /// Whether a plain word of the command is a number, and not the name of a file.
    pub fn takes_number(self) -> bool
        ensures { result ≡ (usage_of self).number }
    {
        match self {
            Command::Load => true,
            Command::Run | Command::Asm | Command::Dis | Command::Dbg => false,
            Command::Sweep | Command::Threads => false,
        }
    }
}

impl OptionName {
    /// The word that gives the option.
    pub fn text(self) -> &'static str
        ensures { result.now ≡ option_text self }
    {
        match self {
            OptionName::Vl => "--vl",
            OptionName::Budget => "--budget",
            OptionName::Pages => "--pages",
        }
    }
}
