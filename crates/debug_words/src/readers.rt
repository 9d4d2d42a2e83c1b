//! The command that a line's words are.
ghost use Rattle.std.specs.Prelude.{◌≡◌, ◌≤◌, ◌<◌, ◌+◌, map, length};
ghost use Rattle.debug_places.specs.Formats.{plain_format};
ghost use Rattle.debug_words.specs.Commands.{
  break_of,
  command_of,
  counted,
  disassemble_of,
  examine_of,
  extent_of,
  find_among,
  find_of,
  find_or_refuse,
  first_no_register,
  first_no_value,
  first_unknown,
  goto_of,
  help_of,
  help_with,
  ignore_of,
  info_by,
  info_named,
  info_of,
  is_line,
  is_points,
  is_quoted,
  is_registers,
  is_symbol,
  is_value,
  lanes_among,
  lanes_by,
  lanes_known,
  lanes_of,
  lanes_plain,
  lanes_sized,
  last_word,
  last_write_of,
  length_by,
  line_of,
  list_of,
  numbered,
  or_no_register,
  or_no_value,
  or_unknown,
  print_by,
  print_of,
  read,
  registers_among,
  registers_known,
  registers_of,
  set_of,
  slice_of,
  source_of,
  symbol_of,
  takes_format,
  until_of,
  upto_by,
  watch_of,
  with_both,
  with_format,
  with_verb,
};
ghost use Rattle.debug_names.specs.Registers.{cut, seen_parts};

use crate::arguments::{
    condition_at, has_word, number_at, number_if, number_in, number_or, place_at, whole, word_at,
};
use crate::commands::{Change, Command, Extent, Move, WatchKind};
use debug_names::{Thing, Verb, begins, register_of, size_of_letter, thing_of, vector_of, verb_of};
use debug_places::{Format, Place, Refusal, Why, format_of, plain_format, refuse};
use elf_symbols::Symbol;
use emu_bits::Esize;
use line_words::number_of_word;
use source_lines::Row;

/// The most bytes of a watch.
const MOST_BYTES: u64 = 4096;

/// The most bytes of a search, and the most values that it is for.
const MOST_LENGTH: u64 = 67_108_864;

const MOST_VALUES: usize = 16;

/// The most registers whose lanes are shown at once.
const MOST_COLUMNS: usize = 8;

fn break_of(
    symbols: &[Symbol<'_>],
    rows: &[Row<'_>],
    words: &[&str],
    once: bool,
) -> Result<Command, Refusal>
    ensures { result ≡ break_of symbols.now rows.now (map (λ word. word.now) words.now) once }
{
    let place = place_at(symbols, rows, words, 1)?;
    let condition = condition_at(words, 2)?;
    whole(words, 6, Command::Break(place, condition, once))
}

fn watch_of(
    symbols: &[Symbol<'_>],
    rows: &[Row<'_>],
    words: &[&str],
    kind: WatchKind,
) -> Result<Command, Refusal>
    ensures { result ≡ watch_of symbols.now rows.now (map (λ word. word.now) words.now) kind }
{
    let place = place_at(symbols, rows, words, 1)?;
    let count = number_at(words, 2, 1, MOST_BYTES)?;
    whole(words, 3, Command::Watch(kind, place, count))
}

fn last_write_of(
    symbols: &[Symbol<'_>],
    rows: &[Row<'_>],
    words: &[&str],
) -> Result<Command, Refusal>
    ensures { result ≡ last_write_of symbols.now rows.now (map (λ word. word.now) words.now) }
{
    let place = place_at(symbols, rows, words, 1)?;
    let count = number_at(words, 2, 1, MOST_BYTES)?;
    whole(words, 3, Command::LastWrite(place, count))
}

fn ignore_of(words: &[&str]) -> Result<Command, Refusal>
    ensures { result ≡ ignore_of (map (λ word. word.now) words.now) }
{
    let number = number_at(words, 1, 1, u64::MAX)?;
    let count = number_at(words, 2, 0, u64::MAX)?;
    whole(words, 3, Command::Ignore(number, count))
}

fn goto_of(words: &[&str]) -> Result<Command, Refusal>
    ensures { result ≡ goto_of (map (λ word. word.now) words.now) }
{
    let steps = number_at(words, 1, 0, u64::MAX)?;
    whole(words, 2, Command::Goto(steps))
}

fn disassemble_of(
    symbols: &[Symbol<'_>],
    rows: &[Row<'_>],
    words: &[&str],
) -> Result<Command, Refusal>
    ensures { result ≡ disassemble_of symbols.now rows.now (map (λ word. word.now) words.now) }
{
    if !has_word(words, 1) {
        return Ok(Command::Disassemble(None));
    }
    let place = place_at(symbols, rows, words, 1)?;
    whole(words, 2, Command::Disassemble(Some(place)))
}

/// A place, or else that of a word that names no scalar register.
fn or_no_register(words: &[&str], place: usize, first: Option<usize>) -> Option<usize>
    ensures { result ≡ or_no_register (map (λ word. word.now) words.now) place first }
{
    match first {
        Some(first) => Some(first),
        None => {
            if register_of(word_at(words, place)).is_none() {
                Some(place)
            } else {
                None
            }
        }
    }
}

/// The place of the first of so many words behind `info registers` that names no scalar register.
#[tactic(auto, unfolding(crate::specs::Commands::first_no_register))]
fn first_no_register(words: &[&str], count: usize) -> Option<usize>
    requires { count + 1 < length words.now }
    ensures { result ≡ first_no_register (map (λ word. word.now) words.now) count }
{
    let mut first = None;
    'words: for k in 0..count {
        first = or_no_register(words, k + 2, first);
    }
    first
}

/// So many registers, of which each is one.
fn registers_among(words: &[&str], count: usize) -> Result<Command, Refusal>
    requires { count + 1 < length words.now }
    ensures { result ≡ registers_among (map (λ word. word.now) words.now) count }
{
    match first_no_register(words, count) {
        Some(place) => Err(refuse(Why::UnknownRegister, place)),
        None => Ok(Command::InfoRegisters(count)),
    }
}

fn registers_of(words: &[&str]) -> Result<Command, Refusal>
    ensures { result ≡ registers_of (map (λ word. word.now) words.now) }
{
    if 2 < words.len() {
        return registers_among(words, words.len() - 2);
    }
    Ok(Command::InfoRegisters(0))
}

fn symbol_of(symbols: &[Symbol<'_>], rows: &[Row<'_>], words: &[&str]) -> Result<Command, Refusal>
    ensures { result ≡ symbol_of symbols.now rows.now (map (λ word. word.now) words.now) }
{
    let place = place_at(symbols, rows, words, 2)?;
    whole(words, 3, Command::InfoSymbol(place))
}

fn line_of(symbols: &[Symbol<'_>], rows: &[Row<'_>], words: &[&str]) -> Result<Command, Refusal>
    ensures { result ≡ line_of symbols.now rows.now (map (λ word. word.now) words.now) }
{
    if !has_word(words, 2) {
        return Ok(Command::InfoLine(None));
    }
    let place = place_at(symbols, rows, words, 2)?;
    whole(words, 3, Command::InfoLine(Some(place)))
}

/// By which of four names a word begins.
fn info_by(
    symbols: &[Symbol<'_>],
    rows: &[Row<'_>],
    words: &[&str],
    points: bool,
    registers: bool,
    symbol: bool,
    line: bool,
) -> Result<Command, Refusal>
    ensures { result ≡ info_by symbols.now rows.now (map (λ word. word.now) words.now) points registers symbol line }
{
    if points {
        whole(words, 2, Command::InfoPoints)
    } else if registers {
        registers_of(words)
    } else if symbol {
        symbol_of(symbols, rows, words)
    } else if line {
        line_of(symbols, rows, words)
    } else {
        Err(refuse(Why::UnknownWord, 1))
    }
}

fn info_named(
    symbols: &[Symbol<'_>],
    rows: &[Row<'_>],
    words: &[&str],
    name: &str,
) -> Result<Command, Refusal>
    ensures { result ≡ info_named symbols.now rows.now (map (λ word. word.now) words.now) name.now }
{
    info_by(
        symbols,
        rows,
        words,
        is_points(name),
        is_registers(name),
        is_symbol(name),
        is_line(name),
    )
}

/// Whether a word stands for `breakpoints`.
fn is_points(name: &str) -> bool
    ensures { result ≡ is_points name.now }
{
    begins("breakpoints", name)
}

/// Whether a word stands for `registers`.
fn is_registers(name: &str) -> bool
    ensures { result ≡ is_registers name.now }
{
    begins("registers", name)
}

/// Whether a word stands for `symbol`.
fn is_symbol(name: &str) -> bool
    ensures { result ≡ is_symbol name.now }
{
    begins("symbol", name)
}

/// Whether a word stands for `line`.
fn is_line(name: &str) -> bool
    ensures { result ≡ is_line name.now }
{
    begins("line", name)
}

fn info_of(symbols: &[Symbol<'_>], rows: &[Row<'_>], words: &[&str]) -> Result<Command, Refusal>
    ensures { result ≡ info_of symbols.now rows.now (map (λ word. word.now) words.now) }
{
    if has_word(words, 1) {
        info_named(symbols, rows, words, word_at(words, 1))
    } else {
        Err(refuse(Why::MissingWord, 1))
    }
}

fn print_by(
    symbols: &[Symbol<'_>],
    rows: &[Row<'_>],
    words: &[&str],
    format: Format,
    thing: Option<Thing>,
) -> Result<Command, Refusal>
    ensures { result ≡ print_by symbols.now rows.now (map (λ word. word.now) words.now) format thing }
{
    match thing {
        Some(thing) => whole(words, 2, Command::Print(format, thing)),
        None => {
            let place = place_at(symbols, rows, words, 1)?;
            whole(words, 2, Command::PrintPlace(format, place))
        }
    }
}

fn print_of(
    symbols: &[Symbol<'_>],
    rows: &[Row<'_>],
    words: &[&str],
    format: Format,
) -> Result<Command, Refusal>
    ensures { result ≡ print_of symbols.now rows.now (map (λ word. word.now) words.now) format }
{
    if has_word(words, 1) {
        print_by(symbols, rows, words, format, thing_of(word_at(words, 1)))
    } else {
        Err(refuse(Why::MissingWord, 1))
    }
}

fn examine_of(
    symbols: &[Symbol<'_>],
    rows: &[Row<'_>],
    words: &[&str],
    format: Format,
) -> Result<Command, Refusal>
    ensures { result ≡ examine_of symbols.now rows.now (map (λ word. word.now) words.now) format }
{
    let place = place_at(symbols, rows, words, 1)?;
    whole(words, 2, Command::Examine(format, place))
}

/// The extent of so many bytes.
fn length_of(number: Result<u64, Refusal>) -> Result<Extent, Refusal>
    ensures { result ≡ length_by number }
{
    match number {
        Ok(n) => Ok(Extent::Length(n)),
        Err(refusal) => Err(refusal),
    }
}

/// The extent up to a place.
fn upto(place: Result<Place, Refusal>) -> Result<Extent, Refusal>
    ensures { result ≡ upto_by place }
{
    match place {
        Ok(place) => Ok(Extent::Upto(place)),
        Err(refusal) => Err(refusal),
    }
}

fn extent_of(symbols: &[Symbol<'_>], rows: &[Row<'_>], words: &[&str]) -> Result<Extent, Refusal>
    ensures { result ≡ extent_of symbols.now rows.now (map (λ word. word.now) words.now) }
{
    match word_at(words, 2).strip_prefix("+") {
        Some(digits) => length_of(number_in(2, 1, MOST_LENGTH, number_of_word(digits))),
        None => upto(place_at(symbols, rows, words, 2)),
    }
}

/// Whether a word begins a text in quotes.
fn is_quoted(word: &str) -> bool
    ensures { result ≡ is_quoted word.now }
{
    word.as_bytes().starts_with(b"\"")
}

/// Whether the word at a place is a text in quotes or a place.
fn is_value(symbols: &[Symbol<'_>], rows: &[Row<'_>], words: &[&str], place: usize) -> bool
    ensures { result ≡ is_value symbols.now rows.now (map (λ word. word.now) words.now) place }
{
    is_quoted(word_at(words, place)) || place_at(symbols, rows, words, place).is_ok()
}

/// A place, or else this one where its word is no value.
fn or_no_value(
    symbols: &[Symbol<'_>],
    rows: &[Row<'_>],
    words: &[&str],
    place: usize,
    first: Option<usize>,
) -> Option<usize>
    ensures { result ≡ or_no_value symbols.now rows.now (map (λ word. word.now) words.now) place first }
{
    match first {
        Some(first) => Some(first),
        None => {
            if is_value(symbols, rows, words, place) {
                None
            } else {
                Some(place)
            }
        }
    }
}

/// The place of the first of so many words behind the extent that is no value.
#[tactic(auto, unfolding(crate::specs::Commands::first_no_value))]
fn first_no_value(
    symbols: &[Symbol<'_>],
    rows: &[Row<'_>],
    words: &[&str],
    count: usize,
) -> Option<usize>
    requires { count ≤ 16 }
    ensures { result ≡ first_no_value symbols.now rows.now (map (λ word. word.now) words.now) count }
{
    let mut first = None;
    'values: for k in 0..count {
        first = or_no_value(symbols, rows, words, k + 3, first);
    }
    first
}

/// A search, or the refusal of the word at a place.
fn find_or_refuse(
    symbols: &[Symbol<'_>],
    rows: &[Row<'_>],
    words: &[&str],
    place: usize,
    found: Command,
) -> Result<Command, Refusal>
    ensures { result ≡ find_or_refuse symbols.now rows.now (map (λ word. word.now) words.now) place found }
{
    match place_at(symbols, rows, words, place) {
        Err(refusal) => Err(refusal),
        Ok(_) => Ok(found),
    }
}

/// A search for so many values, of which each is one.
fn find_among(
    symbols: &[Symbol<'_>],
    rows: &[Row<'_>],
    words: &[&str],
    count: usize,
    found: Command,
) -> Result<Command, Refusal>
    ensures { result ≡ find_among symbols.now rows.now (map (λ word. word.now) words.now) count found }
{
    if count == 0 {
        return Err(refuse(Why::MissingWord, 3));
    }
    if MOST_VALUES < count {
        return Err(refuse(Why::ExtraWord, 19));
    }
    match first_no_value(symbols, rows, words, count) {
        Some(place) => find_or_refuse(symbols, rows, words, place, found),
        None => Ok(found),
    }
}

fn find_of(
    symbols: &[Symbol<'_>],
    rows: &[Row<'_>],
    words: &[&str],
    format: Format,
) -> Result<Command, Refusal>
    ensures { result ≡ find_of symbols.now rows.now (map (λ word. word.now) words.now) format }
{
    let count = words.len().saturating_sub(3);
    let start = place_at(symbols, rows, words, 1)?;
    let extent = extent_of(symbols, rows, words)?;
    find_among(
        symbols,
        rows,
        words,
        count,
        Command::Find(format, start, extent, count),
    )
}

fn list_of(symbols: &[Symbol<'_>], rows: &[Row<'_>], words: &[&str]) -> Result<Command, Refusal>
    ensures { result ≡ list_of symbols.now rows.now (map (λ word. word.now) words.now) }
{
    if !has_word(words, 1) {
        return Ok(Command::List(None));
    }
    let place = place_at(symbols, rows, words, 1)?;
    whole(words, 2, Command::List(Some(place)))
}

fn source_of(words: &[&str]) -> Result<Command, Refusal>
    ensures { result ≡ source_of (map (λ word. word.now) words.now) }
{
    if has_word(words, 1) {
        whole(words, 2, Command::Source)
    } else {
        Err(refuse(Why::MissingWord, 1))
    }
}

/// A place, or else that of a word that names no vector register.
fn or_unknown(words: &[&str], place: usize, first: Option<usize>) -> Option<usize>
    ensures { result ≡ or_unknown (map (λ word. word.now) words.now) place first }
{
    match first {
        Some(first) => Some(first),
        None => {
            if vector_of(word_at(words, place)).is_none() {
                Some(place)
            } else {
                None
            }
        }
    }
}

/// The place of the first of so many words behind the first that names no vector register.
#[tactic(auto, unfolding(crate::specs::Commands::first_unknown))]
fn first_unknown(words: &[&str], count: usize) -> Option<usize>
    requires { count < length words.now }
    ensures { result ≡ first_unknown (map (λ word. word.now) words.now) count }
{
    let mut first = None;
    'words: for k in 0..count {
        first = or_unknown(words, k + 1, first);
    }
    first
}

fn lanes_among(words: &[&str], count: usize, size: Option<Esize>) -> Result<Command, Refusal>
    requires { count < length words.now }
    ensures { result ≡ lanes_among (map (λ word. word.now) words.now) count size }
{
    if count == 0 {
        return Err(refuse(Why::MissingWord, 1));
    }
    if MOST_COLUMNS < count {
        return Err(refuse(Why::ExtraWord, 9));
    }
    match first_unknown(words, count) {
        Some(place) => Err(refuse(Why::UnknownRegister, place)),
        None => Ok(Command::Lanes(count, size)),
    }
}

fn lanes_sized(words: &[&str], size: Option<Esize>) -> Result<Command, Refusal>
    requires { 0 < length words.now }
    ensures { result ≡ lanes_sized (map (λ word. word.now) words.now) size }
{
    match size {
        None => Err(refuse(Why::UnknownWord, words.len() - 1)),
        Some(size) => lanes_among(words, words.len().saturating_sub(2), Some(size)),
    }
}

fn lanes_plain(words: &[&str]) -> Result<Command, Refusal>
    requires { 0 < length words.now }
    ensures { result ≡ lanes_plain (map (λ word. word.now) words.now) }
{
    lanes_among(words, words.len() - 1, None)
}

fn last_word<'a>(words: &[&'a str]) -> &'a str
    requires { 0 < length words.now }
    ensures { result.now ≡ last_word (map (λ word. word.now) words.now) }
{
    word_at(words, words.len() - 1)
}

fn lanes_by(words: &[&str], last: &str) -> Result<Command, Refusal>
    requires { 0 < length words.now }
    ensures { result ≡ lanes_by (map (λ word. word.now) words.now) last.now }
{
    match last.strip_prefix(".") {
        Some(letter) => lanes_sized(words, size_of_letter(letter)),
        None => lanes_plain(words),
    }
}

fn lanes_of(words: &[&str]) -> Result<Command, Refusal>
    requires { 0 < length words.now }
    ensures { result ≡ lanes_of (map (λ word. word.now) words.now) }
{
    lanes_by(words, last_word(words))
}

fn slice_of(words: &[&str]) -> Result<Command, Refusal>
    ensures { result ≡ slice_of (map (λ word. word.now) words.now) }
{
    let steps = number_at(words, 2, 1, u64::MAX)?;
    whole(words, 3, Command::Slice(steps))
}

fn set_of(words: &[&str]) -> Result<Command, Refusal>
    ensures { result ≡ set_of (map (λ word. word.now) words.now) }
{
    if !has_word(words, 1) {
        return Err(refuse(Why::MissingWord, 1));
    }
    if word_at(words, 1) == "slice" {
        slice_of(words)
    } else {
        Err(refuse(Why::UnknownWord, 1))
    }
}

fn help_with(words: &[&str], verb: Option<Verb>) -> Result<Command, Refusal>
    ensures { result ≡ help_with (map (λ word. word.now) words.now) verb }
{
    match verb {
        None => Err(refuse(Why::UnknownCommand, 1)),
        Some(verb) => whole(words, 2, Command::Help(Some(verb))),
    }
}

fn help_of(words: &[&str]) -> Result<Command, Refusal>
    ensures { result ≡ help_of (map (λ word. word.now) words.now) }
{
    if has_word(words, 1) {
        help_with(words, verb_of(word_at(words, 1)))
    } else {
        Ok(Command::Help(None))
    }
}

/// A command that goes on or back so often, once where that isn't told.
fn counted(words: &[&str], way: Move) -> Result<Command, Refusal>
    ensures { result ≡ counted (map (λ word. word.now) words.now) way }
{
    let count = number_or(words, 1, 1, 1, u64::MAX)?;
    whole(words, 2, Command::Go(way, count))
}

/// A command that changes a break or watch, or all.
fn numbered(words: &[&str], change: Change) -> Result<Command, Refusal>
    ensures { result ≡ numbered (map (λ word. word.now) words.now) change }
{
    let number = number_if(words, 1)?;
    whole(words, 2, Command::Change(change, number))
}

/// `until`, `advance`.
fn until_of(symbols: &[Symbol<'_>], rows: &[Row<'_>], words: &[&str]) -> Result<Command, Refusal>
    ensures { result ≡ until_of symbols.now rows.now (map (λ word. word.now) words.now) }
{
    let place = place_at(symbols, rows, words, 1)?;
    whole(words, 2, Command::Until(place))
}

/// The words of a command by its name.
fn read(
    symbols: &[Symbol<'_>],
    rows: &[Row<'_>],
    words: &[&str],
    format: Format,
    verb: Verb,
) -> Result<Command, Refusal>
    requires { 0 < length words.now }
    ensures { result ≡ read symbols.now rows.now (map (λ word. word.now) words.now) format verb }
{
    match verb {
        Verb::Break => break_of(symbols, rows, words, false),
        Verb::BreakOnce => break_of(symbols, rows, words, true),
        Verb::Backtrace => whole(words, 1, Command::Backtrace),
        Verb::Delete => numbered(words, Change::Delete),
        Verb::Disassemble => disassemble_of(symbols, rows, words),
        Verb::Disable => numbered(words, Change::Disable),
        Verb::Enable => numbered(words, Change::Enable),
        Verb::Ignore => ignore_of(words),
        Verb::Info => info_of(symbols, rows, words),
        Verb::Watch => watch_of(symbols, rows, words, WatchKind::Writes),
        Verb::WatchReads => watch_of(symbols, rows, words, WatchKind::Reads),
        Verb::WatchBoth => watch_of(symbols, rows, words, WatchKind::Both),
        Verb::Run => whole(words, 1, Command::Run),
        Verb::Start => whole(words, 1, Command::Goto(0)),
        Verb::Continue => counted(words, Move::Continue),
        Verb::Step => counted(words, Move::Step),
        Verb::Next => counted(words, Move::Next),
        Verb::StepLine => counted(words, Move::StepLine),
        Verb::NextLine => counted(words, Move::NextLine),
        Verb::StepBack => counted(words, Move::StepBack),
        Verb::NextBack => counted(words, Move::NextBack),
        Verb::ContinueBack => counted(words, Move::ContinueBack),
        Verb::Finish => whole(words, 1, Command::Finish),
        Verb::Until | Verb::Advance => until_of(symbols, rows, words),
        Verb::FinishBack => whole(words, 1, Command::FinishBack),
        Verb::Goto => goto_of(words),
        Verb::LastWrite => last_write_of(symbols, rows, words),
        Verb::Print => print_of(symbols, rows, words, format),
        Verb::Examine => examine_of(symbols, rows, words, format),
        Verb::Find => find_of(symbols, rows, words, format),
        Verb::Where => whole(words, 1, Command::Where),
        Verb::When => whole(words, 1, Command::When),
        Verb::Lanes => lanes_of(words),
        Verb::Listing => list_of(symbols, rows, words),
        Verb::Set => set_of(words),
        Verb::Source => source_of(words),
        Verb::Help => help_of(words),
        Verb::Quit => whole(words, 1, Command::Quit),
    }
}

/// Whether a format may stand behind a name.
fn takes_format(verb: Verb) -> bool
    ensures { result ≡ takes_format verb }
{
    matches!(verb, Verb::Print | Verb::Examine | Verb::Find)
}

/// A word cut at its first slash.
fn cut_at_slash(word: &str) -> Option<(&str, &str)>
    ensures { seen_parts result ≡ cut 47 word.now }
{
    word.split_once('/')
}

/// The command of words whose first has a name and a format.
fn with_format(
    symbols: &[Symbol<'_>],
    rows: &[Row<'_>],
    words: &[&str],
    verb: Verb,
    format: Option<Format>,
) -> Result<Command, Refusal>
    requires { 0 < length words.now }
    ensures { result ≡ with_format symbols.now rows.now (map (λ word. word.now) words.now) verb format }
{
    match format {
        Some(format) if takes_format(verb) => read(symbols, rows, words, format, verb),
        _ => Err(refuse(Why::BadFormat, 0)),
    }
}

/// The command that a line's words are, of which there is at least one, by the symbols of a program: the refusal of its
/// name, then of its format, and then of its words one after the other.
pub fn command_of(
    symbols: &[Symbol<'_>],
    rows: &[Row<'_>],
    words: &[&str],
) -> Result<Command, Refusal>
    requires { 0 < length words.now }
    ensures { result ≡ command_of symbols.now rows.now (map (λ word. word.now) words.now) }
{
    let head = word_at(words, 0);
    match cut_at_slash(head) {
        None => match verb_of(head) {
            None => Err(refuse(Why::UnknownCommand, 0)),
            Some(verb) => read(symbols, rows, words, plain_format(), verb),
        },
        Some((name, letters)) => match verb_of(name) {
            None => Err(refuse(Why::UnknownCommand, 0)),
            Some(verb) => with_format(symbols, rows, words, verb, format_of(letters)),
        },
    }
}
