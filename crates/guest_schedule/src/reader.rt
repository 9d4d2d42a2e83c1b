//! A schedule line by line.
ghost use Rattle.std.specs.Prelude.{◌≡◌, ◌≤◌, [], ◌∷◌, ◌++◌, ◌≢◌, OnErr, OnOk, MatchResult, IsTrue, Ok, Err, length, map, true};
ghost use Rattle.std.specs.List.{list_all};
ghost use Rattle.line_words.specs.Reading.{IsErrorOf, Leaves};
ghost use Rattle.line_words.specs.Refusals.{at_line, read_lines};
ghost use Rattle.guest_schedule.specs.Errors.{fault_in};
ghost use Rattle.guest_schedule.specs.Schedule.{fault_at, has_no_turn, read_line, schedule, some_turns};
ghost use Rattle.guest_schedule.specs.Turns.{has_steps};

use crate::arguments::turn_of;
use crate::schedule::{Schedule, ScheduleFault, ScheduleWhy};
use line_words::{is_comment, lines, text_at, words};
use std::alloc::{AllocError, Global};
use thiserror::Error;

/// The greatest number of lines.
const MOST_LINES: usize = 100_000;

/// Why there is no schedule: it is refused, or memory is wanting.
#[derive(Clone, Copy, Debug, PartialEq, Eq, Error)]
pub enum ScheduleError {
    #[error("{0}")]
    Refused(ScheduleFault),
    #[error("out of memory")]
    OutOfMemory,
}

impl From<AllocError> for ScheduleError {
    ghost use Rattle.guest_schedule.specs.declared.reader.ScheduleError.TheVariants.{OutOfMemory};

    ghost from_gives = { λ _ e. e ≡ OutOfMemory };

    fn from(_: AllocError) -> ScheduleError {
        ScheduleError::OutOfMemory
    }
}

/// A refusal in a line.
fn refused(why: ScheduleWhy, number: usize) -> ScheduleError
    requires { number ≤ 100001 }
    ensures { result ≡ ScheduleError.Refused (record { line = number; why = why }) }
{
    ScheduleError::Refused(ScheduleFault {
        line: number as u32,
        why,
    })
}

/// Appends a turn. Err is want of memory, and leaves the turns as they were.
fn push(turns: &mut Vec<(u64, u64)>, turn: (u64, u64)) -> Result<(), AllocError>
    ensures appended { OnOk result (turns.new.items ≡ turns.old.items ++ turn ∷ []) }
    ensures kept { OnErr result (turns.new.items ≡ turns.old.items) }
{
    turns.push(turn)?;
    Ok(())
}

/// Whether a line is skipped: it is empty, or a comment.
fn is_skipped(line: &str) -> bool
    ensures { result ≡ has_no_turn line.now }
{
    line.is_empty() || is_comment(line)
}

/// Reads a line behind those before it. A line that is skipped wants no memory.
fn read_line(
    alloc: Global,
    turns: &mut Vec<(u64, u64)>,
    line: &str,
    number: usize,
) -> Result<(), ScheduleError>
    requires number { number ≤ 100001 }
    requires steps { IsTrue (list_all has_steps turns.old.items) }
    ensures read { Leaves fault_in (at_line fault_at number (read_line turns.old.items line.now))
        turns.new.items result }
    ensures steps { IsTrue (list_all has_steps turns.new.items) }
    ensures skipped { has_no_turn line.now ≡ true → result ≡ Ok tt }
{
    if is_skipped(line) {
        return Ok(());
    }
    let found = words(alloc, line)?;
    let turn = match turn_of(&found) {
        Ok(turn) => turn,
        Err(why) => return Err(refused(why, number)),
    };
    push(turns, turn)?;
    Ok(())
}

/// Reads the lines one after the other behind the turns before them.
fn read_lines(
    alloc: Global,
    lines: &[&str],
    turns: &mut Vec<(u64, u64)>,
) -> Result<(), ScheduleError>
    requires count { length lines.now ≤ 100000 }
    requires steps { IsTrue (list_all has_steps turns.old.items) }
    ensures read { Leaves fault_in (read_lines fault_at read_line turns.old.items 1 (map (λ line. line.now) lines.now))
        turns.new.items result }
    ensures steps { IsTrue (list_all has_steps turns.new.items) }
{
    for place in 0..lines.len() {
        read_line(alloc, turns, text_at(lines, place), place + 1)?;
    }
    Ok(())
}

/// The schedule of the turns of all lines; there is at least one.
fn some_turns(turns: Vec<(u64, u64)>) -> Result<Schedule, ScheduleError>
    requires { IsTrue (list_all has_steps turns.items) }
    ensures turns { MatchResult result (λ read. some_turns turns.items ≡ Ok read)
        (λ error. IsErrorOf (some_turns turns.items) (fault_in error)) }
    ensures memory { result ≢ Err ScheduleError.OutOfMemory }
{
    if turns.is_empty() {
        return Err(refused(ScheduleWhy::NoTurn, 0));
    }
    Ok(Schedule::of(turns))
}

/// Reads a schedule: one turn in each line, but for empty lines and lines that begin with `#`. A line of spaces isn't
/// empty: its words are missing.
///
/// The refusal is the first: TooManyLines, with line 100,001, where there are more than 100,000 lines; then line by
/// line MissingWord, BadNumber, OutOfRange and ExtraWord; last NoTurn, with line 0, where there is no turn. OutOfMemory
/// is want of memory. NotUtf8 isn't answered, since a text is UTF-8.
pub fn read_schedule(alloc: Global, text: &str) -> Result<Schedule, ScheduleError>
    ensures { MatchResult result (λ read. schedule text.now ≡ Ok read)
        (λ error. IsErrorOf (schedule text.now) (fault_in error)) }
{
    let found = lines(alloc, text)?;
    if found.len() > MOST_LINES {
        return Err(refused(ScheduleWhy::TooManyLines, MOST_LINES + 1));
    }
    let mut turns = Vec::new(alloc);
    match read_lines(alloc, &found, &mut turns) {
        Ok(()) => some_turns(turns),
        Err(error) => Err(error),
    }
}
