//! The lines of a run that stopped by itself: at a word, at a jump, or when its steps were spent.
ghost use Rattle.std.specs.Prelude.{◌≡◌, string_bytes, OnOk};
ghost use Rattle.tool_texts.specs.Explanations.{
  at_stop_line,
  call_hint,
  jump_line,
  spent_line,
  stuck_line,
  then_caller,
  then_end,
  then_jump,
  then_spent,
  then_where,
  undefined_line,
};

use crate::pieces::{Place, push_count, push_place, push_short, push_steps, push_word};
use std::alloc::AllocError;

/// Where a run stopped: the program counter's place, the place in X30, which is that of a caller where its address
/// isn't 0, and the number of steps.
#[derive(Drop)]
pub struct Stop {
    pub place: Place,
    pub caller: Place,
    pub steps: u64,
}

/// Appends ` (called from main+0x30)`; nothing where the address is 0.
fn push_caller(text: &mut String, caller: &Place) -> Result<(), AllocError>
    ensures { OnOk result (string_bytes text.new ≡ then_caller (string_bytes text.old) caller.now) }
{
    if caller.address() == 0 {
        return Ok(());
    }
    text.push_str(" (called from ")?;
    push_short(text, caller)?;
    text.push_str(")")
}

/// Appends the caller and the number of steps.
fn push_end(text: &mut String, stop: &Stop) -> Result<(), AllocError>
    ensures { OnOk result (string_bytes text.new ≡ then_end (string_bytes text.old) stop.now) }
{
    push_caller(text, &stop.caller)?;
    push_steps(text, stop.steps)
}

/// Appends ` at 0x400184, dot_product+0x14`, the caller and the number of steps.
pub(crate) fn push_where(text: &mut String, stop: &Stop) -> Result<(), AllocError>
    ensures { OnOk result (string_bytes text.new ≡ then_where (string_bytes text.old) stop.now) }
{
    text.push_str(" at ")?;
    push_place(text, &stop.place)?;
    push_end(text, stop)
}

/// Appends the line of a run that came to a word which is no instruction: the name of its family, and what to do.
pub fn push_undefined(
    text: &mut String,
    stop: &Stop,
    word: u32,
    family: &str,
    advice: &str,
) -> Result<(), AllocError>
    ensures { OnOk result
        (string_bytes text.new ≡ undefined_line (string_bytes text.old) stop.now word family.now advice.now) }
{
    text.push_str("svemu: undefined word ")?;
    push_word(text, word)?;
    text.push_str(" (")?;
    text.push_str(family)?;
    text.push_str(": ")?;
    text.push_str(advice)?;
    text.push_str(")")?;
    push_where(text, stop)
}

/// Appends the line of a run that stopped at an instruction for a reason.
pub fn push_at_stop(text: &mut String, stop: &Stop, reason: &str) -> Result<(), AllocError>
    ensures { OnOk result (string_bytes text.new ≡ at_stop_line (string_bytes text.old) stop.now reason.now) }
{
    text.push_str("svemu: ")?;
    text.push_str(reason)?;
    push_where(text, stop)
}

/// Appends where a jump went that is no multiple of 4.
fn push_jump_place(text: &mut String, place: &Place) -> Result<(), AllocError>
    ensures { OnOk result (string_bytes text.new ≡ then_jump (string_bytes text.old) place.now) }
{
    text.push_str("svemu: a jump to ")?;
    push_place(text, place)?;
    text.push_str(", which is no multiple of 4")
}

/// Appends the line of a run whose program counter is no multiple of 4.
pub fn push_jump(text: &mut String, stop: &Stop) -> Result<(), AllocError>
    ensures { OnOk result (string_bytes text.new ≡ jump_line (string_bytes text.old) stop.now) }
{
    push_jump_place(text, &stop.place)?;
    push_end(text, stop)
}

/// Appends how many steps are, as `21 steps are`, and of one `1 step is`.
fn push_spent_steps(text: &mut String, steps: u64) -> Result<(), AllocError>
    ensures { OnOk result (string_bytes text.new ≡ then_spent (string_bytes text.old) steps) }
{
    push_count(text, steps, "step")?;
    if steps == 1 {
        return text.push_str(" is");
    }
    text.push_str(" are")
}

/// Appends the line of a run whose steps are spent.
pub fn push_spent(text: &mut String, stop: &Stop) -> Result<(), AllocError>
    ensures { OnOk result (string_bytes text.new ≡ spent_line (string_bytes text.old) stop.now) }
{
    text.push_str("svemu: ")?;
    push_spent_steps(text, stop.steps)?;
    text.push_str(" spent in ")?;
    push_short(text, &stop.place)?;
    text.push_str(" (SVEMU_BUDGET gives more)\n")
}

/// Appends the line of a run of which no thread is ready.
pub fn push_stuck(text: &mut String, steps: u64) -> Result<(), AllocError>
    ensures { OnOk result (string_bytes text.new ≡ stuck_line (string_bytes text.old) steps) }
{
    text.push_str("svemu: no thread is ready, since each waits for another")?;
    push_steps(text, steps)
}

/// Appends the line of a program that made a call which only programs with threads make, by the call's name.
pub fn push_call_hint(text: &mut String, call: &str) -> Result<(), AllocError>
    ensures { OnOk result (string_bytes text.new ≡ call_hint (string_bytes text.old) call.now) }
{
    text.push_str("svemu: x8 names the call ")?;
    text.push_str(call)?;
    text.push_str(", which is refused here: --threads SCHEDULE runs a program with threads\n")
}
