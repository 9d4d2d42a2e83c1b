//! How a run stopped, and the line that says so.
ghost use Rattle.std.specs.Prelude.{◌≡◌, ◌≤◌, ◌+◌, ◌++◌, length, IfSome, OnOk, Some};
ghost use Rattle.io_gate.specs.Pieces.{PutsAll};
ghost use Rattle.io_gate.specs.Streams.{HasCause};
ghost use Rattle.emu_run.specs.Reports.{after_steps};
ghost use Rattle.tool_counts.specs.Counted.{ended_text, head_text, stop_line, stop_lines};

use emu_machine::Ended;
use emu_model::Length;
use emu_report::{Text, push_exit, push_spent, push_trap};
use io_gate::{Failed, Sink};

/// How a run ended, by an exit or a trap, or with its steps spent; where its program counter stood, and its steps.
#[derive(Clone, Copy, Debug, PartialEq, Eq)]
pub struct Stopped {
    pub length: Length,
    pub ended: Option<Ended>,
    pub pc: u64,
    pub steps: u64,
}

/// Appends how a run ended.
fn push_ended(text: &mut Text, ended: Option<Ended>, pc: u64)
    requires { length text.old + 60 ≤ 2048 }
    ensures text { text.new ≡ text.old ++ ended_text ended pc }
    ensures len { length text.new ≤ length text.old + 60 }
{
    match ended {
        None => push_spent(text),
        Some(Ended::Exit(code)) => push_exit(text, code),
        Some(Ended::Trap(trap)) => push_trap(text, &trap, pc),
    }
}

/// Appends the number of steps, and ends the line.
fn push_steps(text: &mut Text, steps: u64)
    requires { length text.old + 34 ≤ 2048 }
    ensures { text.new ≡ text.old ++ after_steps steps }
{
    text.push(b" after ");
    text.push_decimal(steps);
    text.push(b" steps\n");
}

/// Appends a vector length.
fn push_head(text: &mut Text, bits: u32)
    requires { length text.old + 30 ≤ 2048 }
    ensures text { text.new ≡ text.old ++ head_text bits }
    ensures len { length text.new ≤ length text.old + 30 }
{
    text.push(b"vl ");
    text.push_decimal(u64::from(bits));
    text.push(b" ");
}

/// The line of a run that has stopped, behind its vector length where that is to be told.
fn line_of(headed: bool, stopped: &Stopped) -> Text
    ensures { result ≡ stop_line headed stopped.now }
{
    let mut text = Text::new();
    if headed {
        push_head(&mut text, stopped.length.bits());
        push_ended(&mut text, stopped.ended, stopped.pc);
        push_steps(&mut text, stopped.steps);
        return text;
    }
    push_ended(&mut text, stopped.ended, stopped.pc);
    push_steps(&mut text, stopped.steps);
    text
}

/// Puts the line of a run that has stopped.
fn put_stopped<O: Sink>(headed: bool, stopped: &Stopped, output: &mut O) -> Result<(), Failed>
    ensures bytes { PutsAll (O.held output.old) (O.held output.new) (stop_line headed stopped.now) result }
    ensures cause { HasCause (O.faults output.old) (O.faults output.new) result }
{
    line_of(headed, stopped).put(output)
}

/// Puts the line of each run.
pub fn put_stops<O: Sink>(headed: bool, stops: &[Stopped], output: &mut O) -> Result<(), Failed>
    ensures bytes { OnOk result (IfSome (O.held output.old)
        (λ had. O.held output.new ≡ Some (had ++ stop_lines headed stops.now))) }
    ensures cause { HasCause (O.faults output.old) (O.faults output.new) result }
{
    'stops: for stopped in stops {
        put_stopped(headed, stopped, output)?;
    }
    Ok(())
}
