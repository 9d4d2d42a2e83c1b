//! The words behind a command's name, read one after the other.
ghost use Rattle.std.specs.Prelude.{
  ◌≡◌,
  ◌≤◌,
  ◌&&◌,
  ℕ,
  codes,
  drop,
  map,
  length,
  string_bytes,
  is_some,
  slice_get,
  MatchResult,
  Some,
  None,
  Err,
};
ghost use Rattle.std.specs.Str.{bytes_eq};
ghost use Rattle.emu_system.specs.Arguments.{most_arguments};
ghost use Rattle.command_model.specs.CommandLine.{option_of, usage_of};
ghost use Rattle.command_lines.specs.Scan.{
  ReadsAs,
  checked_word,
  end_of,
  given,
  is_option,
  line_said,
  nothing_seen,
  read_item,
  read_option,
  read_plain,
  read_value,
  read_word,
  read_words,
  refusal_at,
  with_machine,
};

use crate::command_words::word;
use crate::values::{budget_of_word, decimal_of_word, length_of_word, pages_of_word};
use arrayvec::ArrayVec;
use command_model::{Command, Line, OptionName, WordsFault, WordsWhy};
use emu_model::Length;
use std::marker::Model;

/// The most plain words that a command has.
const MOST_PLAIN: usize = 2;

/// The greatest number of mapped pages where no option says it.
const DEFAULT_PAGES: u32 = 16_384;

/// What the words so far said.
#[derive(Drop)]
pub struct Seen {
    /// The places of the plain words.
    plain: ArrayVec<usize, MOST_PLAIN>,
    /// The number of a plain word that is a number.
    number: Option<u64>,
    length: Option<Length>,
    budget: Option<u64>,
    pages: Option<u32>,
    /// The option whose value is the next word.
    awaited: Option<OptionName>,
    /// The place behind `--`.
    args: Option<usize>,
}

impl Model for Seen {
    ghost use Rattle.command_lines.specs.Scan.{Seen};

    ghost Value = { Seen };

    ghost view = { λ s. record {
      plain_places = s.plain.items;
      number = s.number;
      vl = s.length;
      budget = s.budget;
      pages = s.pages;
      awaited = s.awaited;
      args = s.args;
    } };
}

/// A refusal at a place.
pub fn fault(why: WordsWhy, place: usize) -> WordsFault
    requires { place ≤ most_arguments }
    ensures { result ≡ record { why = why; place = place } }
{
    WordsFault {
        why,
        place: place as u32,
    }
}

/// A value, or its refusal at a place.
fn placed<T>(value: Result<T, WordsWhy>, place: usize) -> Result<T, WordsFault>
    requires { place ≤ most_arguments }
    ensures { MatchResult value (λ v. result ≡ Ok v) (λ why. result ≡ refusal_at why place) }
{
    value.map_err(|why| fault(why, place))
}

/// Whether a word is `--`, and the command knows it.
fn begins_arguments(command: Command, word: &str) -> bool
    ensures { result ≡ ((usage_of command).arguments && bytes_eq word.now (codes "--")) }
{
    command.takes_arguments() && word == "--"
}

/// Whether a word has the form of an option.
fn is_option(word: &str) -> bool
    ensures { result ≡ is_option word.now }
{
    word.starts_with("--")
}

/// The option of a command that a word gives. None exactly where there is none.
fn option_of(command: Command, word: &str) -> Option<OptionName>
    ensures { result ≡ option_of command word.now }
{
    command
        .options()
        .iter()
        .copied()
        .find(|option| option.text() == word)
}

impl Seen {
    /// Before any word was read.
    pub fn nothing() -> Seen
        ensures { result ≡ nothing_seen }
    {
        Seen {
            plain: ArrayVec::new(),
            number: None,
            length: None,
            budget: None,
            pages: None,
            awaited: None,
            args: None,
        }
    }

    /// Whether an option has its value.
    fn has(&self, option: OptionName) -> bool
        ensures { result ≡ is_some (given option self.now) }
    {
        match option {
            OptionName::Vl => self.length.is_some(),
            OptionName::Budget => self.budget.is_some(),
            OptionName::Pages => self.pages.is_some(),
        }
    }

    /// Reads a word as the value of an option.
    fn read_value(&mut self, place: usize, option: OptionName, word: &str) -> Result<(), WordsFault>
        requires { place ≤ most_arguments }
        ensures { ReadsAs (read_value self.old place option (checked_word option word.now)) self.new result }
    {
        match option {
            OptionName::Vl => self.length = Some(placed(length_of_word(word), place)?),
            OptionName::Budget => self.budget = Some(placed(budget_of_word(word), place)?),
            OptionName::Pages => self.pages = Some(placed(pages_of_word(word), place)?),
        }
        self.awaited = None;
        Ok(())
    }

    /// Reads a word in the form of an option.
    fn read_option(&mut self, command: Command, place: usize, word: &str) -> Result<(), WordsFault>
        requires { place ≤ most_arguments }
        ensures { ReadsAs (read_option self.old place (option_of command word.now)) self.new result }
    {
        let Some(option) = option_of(command, word) else {
            return Err(fault(WordsWhy::UnknownOption, place));
        };
        if self.has(option) {
            return Err(fault(WordsWhy::Repeated, place));
        }
        self.awaited = Some(option);
        Ok(())
    }

    /// Reads a plain word.
    fn read_plain(&mut self, command: Command, place: usize, word: &str) -> Result<(), WordsFault>
        requires { place ≤ most_arguments }
        ensures { ReadsAs (read_plain command self.old place word.now) self.new result }
    {
        if self.plain.len() >= command.plain_words() {
            return Err(fault(WordsWhy::ExtraWord, place));
        }
        if command.takes_number() {
            let Some(number) = decimal_of_word(word) else {
                return Err(fault(WordsWhy::BadNumber, place));
            };
            self.number = Some(number);
        }
        self.plain.push(place);
        Ok(())
    }

    /// Reads `--`, an option or a plain word.
    fn read_item(&mut self, command: Command, place: usize, word: &str) -> Result<(), WordsFault>
        requires { place ≤ most_arguments }
        ensures { ReadsAs (read_item command self.old place word.now) self.new result }
    {
        if begins_arguments(command, word) {
            self.args = Some(place + 1);
            return Ok(());
        }
        if is_option(word) {
            self.read_option(command, place, word)
        } else {
            self.read_plain(command, place, word)
        }
    }

    /// Reads any word: behind `--` an argument, behind an option its value.
    fn read_word(&mut self, command: Command, place: usize, word: &str) -> Result<(), WordsFault>
        requires { place ≤ most_arguments }
        ensures { ReadsAs (read_word command self.old place word.now) self.new result }
    {
        if self.args.is_some() {
            return Ok(());
        }
        match self.awaited {
            Some(option) => self.read_value(place, option, word),
            None => self.read_item(command, place, word),
        }
    }
}

/// What the words behind the command's name say.
pub fn read_words(command: Command, words: &[String]) -> Result<Seen, WordsFault>
    requires { length words.now ≤ most_arguments }
    ensures { result ≡ read_words command nothing_seen 1 (drop 1 (map string_bytes words.now)) }
{
    let mut seen = Seen::nothing();
    for place in 1..words.len() {
        seen.read_word(command, place, word(words, place))?;
    }
    Ok(seen)
}

/// The place of a plain word, which is counted from 0. Err is that it is missing.
fn plain_word(seen: &Seen, k: usize, count: usize) -> Result<usize, WordsFault>
    requires { count ≤ most_arguments }
    ensures { MatchResult result (λ place. slice_get seen.now.plain_places k ≡ Some place)
        (λ fault. (slice_get seen.now.plain_places k ≡ None)
        × (fault ≡ record { why = WordsWhy.MissingWord; place = count })) }
{
    match seen.plain.get(k) {
        Some(place) => Ok(*place),
        None => Err(fault(WordsWhy::MissingWord, count)),
    }
}

/// The vector length and the budget of a machine. Err is that one is missing.
fn length_and_budget(seen: &Seen, count: usize) -> Result<(Length, u64), WordsFault>
    requires { count ≤ most_arguments }
    ensures { MatchResult result (λ said. (seen.now.vl ≡ Some said.0) × (seen.now.budget ≡ Some said.1))
        (λ fault. (line : ℕ → ℕ → Line) → with_machine count seen.now.vl seen.now.budget line ≡ Err fault) }
{
    let Some(length) = seen.length else {
        return Err(fault(WordsWhy::MissingLength, count));
    };
    let Some(budget) = seen.budget else {
        return Err(fault(WordsWhy::MissingBudget, count));
    };
    Ok((length, budget))
}

/// The run that so many words say.
fn run_of(count: usize, seen: &Seen) -> Result<Line, WordsFault>
    requires { count ≤ most_arguments }
    ensures { result ≡ line_said Command.Run count seen.now }
{
    let file = plain_word(seen, 0, count)?;
    let (length, budget) = length_and_budget(seen, count)?;
    Ok(Line::Run {
        file,
        args: seen.args.unwrap_or(count),
        length,
        budget,
        pages: seen.pages.unwrap_or(DEFAULT_PAGES),
    })
}

/// The session that so many words say.
fn session_of(count: usize, seen: &Seen) -> Result<Line, WordsFault>
    requires { count ≤ most_arguments }
    ensures { result ≡ line_said Command.Dbg count seen.now }
{
    let file = plain_word(seen, 0, count)?;
    let script = plain_word(seen, 1, count)?;
    let (length, budget) = length_and_budget(seen, count)?;
    Ok(Line::Dbg {
        file,
        script,
        args: seen.args.unwrap_or(count),
        length,
        budget,
        pages: seen.pages.unwrap_or(DEFAULT_PAGES),
    })
}

/// The run of contexts under a schedule that so many words say.
fn threads_of(count: usize, seen: &Seen) -> Result<Line, WordsFault>
    requires { count ≤ most_arguments }
    ensures { result ≡ line_said Command.Threads count seen.now }
{
    let file = plain_word(seen, 0, count)?;
    let schedule = plain_word(seen, 1, count)?;
    let (length, budget) = length_and_budget(seen, count)?;
    Ok(Line::Threads {
        file,
        schedule,
        args: seen.args.unwrap_or(count),
        length,
        budget,
        pages: seen.pages.unwrap_or(DEFAULT_PAGES),
    })
}

/// The sweep that so many words say.
fn sweep_of(count: usize, seen: &Seen) -> Result<Line, WordsFault>
    requires { count ≤ most_arguments }
    ensures { result ≡ line_said Command.Sweep count seen.now }
{
    let file = plain_word(seen, 0, count)?;
    let Some(budget) = seen.budget else {
        return Err(fault(WordsWhy::MissingBudget, count));
    };
    Ok(Line::Sweep {
        file,
        args: seen.args.unwrap_or(count),
        budget,
        pages: seen.pages.unwrap_or(DEFAULT_PAGES),
    })
}

/// The line that so many words say.
pub fn line_of(command: Command, count: usize, seen: &Seen) -> Result<Line, WordsFault>
    requires few { count ≤ most_arguments }
    requires some { 1 ≤ count }
    ensures { result ≡ end_of command count seen.now }
{
    if seen.awaited.is_some() {
        return Err(fault(WordsWhy::MissingValue, count - 1));
    }
    match command {
        Command::Run => run_of(count, seen),
        Command::Asm => {
            let listing = plain_word(seen, 0, count)?;
            Ok(Line::Asm { listing })
        }
        Command::Dis => {
            let file = plain_word(seen, 0, count)?;
            Ok(Line::Dis { file })
        }
        Command::Dbg => session_of(count, seen),
        Command::Load => {
            let Some(number) = seen.number else {
                return Err(fault(WordsWhy::MissingWord, count));
            };
            Ok(Line::Load { number })
        }
        Command::Sweep => sweep_of(count, seen),
        Command::Threads => threads_of(count, seen),
    }
}
