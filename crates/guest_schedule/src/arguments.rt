//! The words of a line as a turn.
ghost use Rattle.std.specs.Prelude.{◌≡◌, ◌≤◌, map, IfOk};
ghost use Rattle.guest_schedule.specs.Schedule.{schedule_number, turn, turn_of};

use crate::schedule::ScheduleWhy;
use line_words::{number_of_word, text_at};

/// The number that a word writes, or BadNumber.
fn number(word: &str) -> Result<u64, ScheduleWhy>
    ensures { result ≡ schedule_number word.now }
{
    match number_of_word(word) {
        None => Err(ScheduleWhy::BadNumber),
        Some(number) => Ok(number),
    }
}

/// The turn of a line of so many words: OutOfRange where it has no step, then ExtraWord where there are more than two
/// words.
fn turn(count: usize, place: u64, steps: u64) -> Result<(u64, u64), ScheduleWhy>
    ensures turn { result ≡ turn count place steps }
    ensures steps { IfOk result (λ turn. 1 ≤ turn.1) }
{
    if steps == 0 {
        return Err(ScheduleWhy::OutOfRange);
    }
    if count > 2 {
        return Err(ScheduleWhy::ExtraWord);
    }
    Ok((place, steps))
}

/// The turn that a line's words are, or its first refusal: MissingWord where there are fewer than two words, BadNumber
/// where one of the first two is no number, then OutOfRange and ExtraWord.
pub fn turn_of(words: &[&str]) -> Result<(u64, u64), ScheduleWhy>
    ensures turn { result ≡ turn_of (map (λ word. word.now) words.now) }
    ensures steps { IfOk result (λ turn. 1 ≤ turn.1) }
{
    if words.len() < 2 {
        return Err(ScheduleWhy::MissingWord);
    }
    let place = number(text_at(words, 0))?;
    let steps = number(text_at(words, 1))?;
    turn(words.len(), place, steps)
}
