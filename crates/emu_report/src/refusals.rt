//! The line of a refusal.
ghost use Rattle.std.specs.Prelude.{◌≡◌, ◌≤◌, ◌+◌, ◌++◌, length};
ghost use Rattle.io_gate.specs.Streams.{HasCause};
ghost use Rattle.io_gate.specs.Pieces.{PutsAll};
ghost use Rattle.emu_run.specs.Text.{newline};
ghost use Rattle.command_model.specs.Refusals.{
  at_line,
  at_place,
  image_line,
  listing_line,
  schedule_line,
  script_line,
  too_long_line,
  words_line,
};
ghost use Rattle.emu_report.specs.FaultNames.{at_index};

use crate::names::{fault_index, fault_name, listing_name, schedule_name, script_name, words_name};
use crate::text::Text;
use command_model::WordsFault;
use dbg_model::ScriptFault;
use emu_system::ElfFault;
use guest_schedule::ScheduleFault;
use io_gate::{Failed, Sink};
use listing_model::ListingFault;

/// Puts the line of a refused command line, as `refused words BadLength at 3`.
pub fn put_words_refusal<S: Sink>(f: &WordsFault, sink: &mut S) -> Result<(), Failed>
    ensures bytes { PutsAll (S.held sink.old) (S.held sink.new) (words_line f.now) result }
    ensures cause { HasCause (S.faults sink.old) (S.faults sink.new) result }
{
    let mut text = Text::new();
    text.push(b"refused words ");
    text.push(words_name(f.why).as_bytes());
    push_place(&mut text, u64::from(f.place));
    text.push(b"\n");
    text.put(sink)
}

/// Puts the line of a refused image, as `refused image TooShort` or `refused image Interpreter at 3`.
pub fn put_image_refusal<S: Sink>(f: &ElfFault, sink: &mut S) -> Result<(), Failed>
    ensures bytes { PutsAll (S.held sink.old) (S.held sink.new) (image_line f.now) result }
    ensures cause { HasCause (S.faults sink.old) (S.faults sink.new) result }
{
    let mut text = Text::new();
    text.push(b"refused image ");
    text.push(fault_name(*f).as_bytes());
    push_index(&mut text, fault_index(*f));
    text.push(b"\n");
    text.put(sink)
}

/// Puts the line of a refused listing, as `refused listing BadOperands at line 2`.
pub fn put_listing_refusal<S: Sink>(f: &ListingFault, sink: &mut S) -> Result<(), Failed>
    ensures bytes { PutsAll (S.held sink.old) (S.held sink.new) (listing_line f.now) result }
    ensures cause { HasCause (S.faults sink.old) (S.faults sink.new) result }
{
    let mut text = Text::new();
    text.push(b"refused listing ");
    text.push(listing_name(f.why).as_bytes());
    push_line_number(&mut text, f.line);
    text.put(sink)
}

/// Puts the line of a refused script, as `refused script MissingWord at line 7`.
pub fn put_script_refusal<S: Sink>(f: &ScriptFault, sink: &mut S) -> Result<(), Failed>
    ensures bytes { PutsAll (S.held sink.old) (S.held sink.new) (script_line f.now) result }
    ensures cause { HasCause (S.faults sink.old) (S.faults sink.new) result }
{
    let mut text = Text::new();
    text.push(b"refused script ");
    text.push(script_name(f.why).as_bytes());
    push_line_number(&mut text, f.line);
    text.put(sink)
}

/// Puts the line of a refused schedule, as `refused schedule NoTurn at line 0`.
pub fn put_schedule_refusal<S: Sink>(f: &ScheduleFault, sink: &mut S) -> Result<(), Failed>
    ensures bytes { PutsAll (S.held sink.old) (S.held sink.new) (schedule_line f.now) result }
    ensures cause { HasCause (S.faults sink.old) (S.faults sink.new) result }
{
    let mut text = Text::new();
    text.push(b"refused schedule ");
    text.push(schedule_name(f.why).as_bytes());
    push_line_number(&mut text, f.line);
    text.put(sink)
}

/// Puts the line of a file that is longer than `limit` bytes, as `too long 67108864`.
pub fn put_too_long<S: Sink>(limit: u64, sink: &mut S) -> Result<(), Failed>
    ensures bytes { PutsAll (S.held sink.old) (S.held sink.new) (too_long_line limit) result }
    ensures cause { HasCause (S.faults sink.old) (S.faults sink.new) result }
{
    let mut text = Text::new();
    text.push(b"too long ");
    text.push_decimal(limit);
    text.push(b"\n");
    text.put(sink)
}

/// Appends ` at N`.
fn push_place(text: &mut Text, place: u64)
    requires { length text.old + 24 ≤ 2048 }
    ensures text { text.new ≡ text.old ++ at_place place }
    ensures len { length text.new ≤ length text.old + 24 }
{
    text.push(b" at ");
    text.push_decimal(place);
}

/// Appends ` at N` where there is a number.
fn push_index(text: &mut Text, index: Option<u16>)
    requires { length text.old + 24 ≤ 2048 }
    ensures text { text.new ≡ text.old ++ at_index index }
    ensures len { length text.new ≤ length text.old + 24 }
{
    if let Some(index) = index {
        push_place(text, u64::from(index));
    }
}

/// Appends ` at line N` and a newline.
fn push_line_number(text: &mut Text, line: u32)
    requires { length text.old + 30 ≤ 2048 }
    ensures { text.new ≡ text.old ++ at_line line ++ newline }
{
    text.push(b" at line ");
    text.push_decimal(u64::from(line));
    text.push(b"\n");
}
