//! Schedules: their turns, or why each is refused and at which line.
//!
//! A line is `ANSWER:SCHEDULE`. The answer is the list of the turns, or the refusal, ` at ` and its line. The schedule
//! has `|` for each newline in it; `@COUNT` at its front stands for so many empty lines.
use guest_schedule::{ScheduleError, read_schedule};
use std::alloc::{AllocError, Global};

/// Appends the empty lines that a count names.
fn push_lines(text: &mut String, count: &str) -> Result<(), AllocError> {
    for _ in 0..count.parse::<u32>().unwrap_or(0) {
        text.push('\n')?;
    }
    Ok(())
}

/// The schedule that is written so.
fn schedule_of(alloc: Global, line: &str) -> Result<String, AllocError> {
    let mut text = String::new(alloc);
    let mut rest = line;
    if let Some(counted) = line.strip_prefix("@") {
        let (count, behind) = counted.split_once('|').unwrap_or((counted, ""));
        push_lines(&mut text, count)?;
        rest = behind;
    }
    for letter in rest.chars() {
        text.push(if letter == '|' { '\n' } else { letter })?;
    }
    Ok(text)
}

/// What a text is as a schedule, as a line has it.
fn answer_to(alloc: Global, text: &str) -> Result<String, AllocError> {
    match read_schedule(alloc, text) {
        Ok(schedule) => format!(in alloc; "{:?}", schedule.turns()),
        Err(ScheduleError::Refused(fault)) => {
            format!(in alloc; "{:?} at {}", fault.why, fault.line)
        }
        Err(ScheduleError::OutOfMemory) => Err(AllocError),
    }
}

/// Whether the schedule of a line has the line's answer; false where memory is wanting.
pub fn agrees(alloc: Global, line: &str) -> bool {
    let (answer, schedule) = line.split_once(':').unwrap_or((line, ""));
    let Ok(text) = schedule_of(alloc, schedule) else {
        return false;
    };
    match answer_to(alloc, text.as_str()) {
        Ok(found) => found.as_str() == answer,
        Err(_) => false,
    }
}
