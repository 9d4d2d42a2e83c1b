//! The line of a run.
ghost use Rattle.std.specs.Prelude.{◌≡◌, ◌≤◌, ◌+◌, ◌++◌, length, nat_eq, Some, None};
ghost use Rattle.std.specs.List.{common_prefix_len};
ghost use Rattle.io_gate.specs.Streams.{HasCause};
ghost use Rattle.io_gate.specs.Pieces.{PutsAll};
ghost use Rattle.emu_run.specs.Reports.{ending_text};
ghost use Rattle.command_model.specs.Sweep.{part_text, run_head, run_line};

use emu_machine::{Ended, Machine};
use emu_report::{Text, push_exit, push_spent, push_trap};
use io_gate::{Failed, Sink};

/// Appends how a machine that has stopped ended.
fn push_ending(machine: &Machine, text: &mut Text)
    requires { length text.old + 60 ≤ 2048 }
    ensures text { text.new ≡ text.old ++ ending_text machine.now.parts machine.now.parts.ended }
    ensures len { length text.new ≤ length text.old + 60 }
{
    match machine.ending() {
        None => push_spent(text),
        Some(Ended::Exit(code)) => push_exit(text, code),
        Some(Ended::Trap(trap)) => push_trap(text, &trap, machine.core().pc()),
    }
}

/// Appends the head of a line: the vector length in bits, how a machine that has stopped ended, and its steps.
pub fn push_head(bits: u32, machine: &Machine, text: &mut Text)
    requires { length text.old + 150 ≤ 2048 }
    ensures text { text.new ≡ text.old ++ run_head bits machine.now.parts }
    ensures len { length text.new ≤ length text.old + 150 }
{
    text.push(b"vl ");
    text.push_decimal(u64::from(bits));
    text.push(b" ");
    push_ending(machine, text);
    text.push(b" after ");
    text.push_decimal(machine.steps());
    text.push(b" steps ");
}

/// How many bytes two outputs share from their first on.
fn shared(first: &[u8], output: &[u8]) -> usize
    ensures { result ≡ common_prefix_len nat_eq first.now output.now }
{
    let most = first.len().min(output.len());
    'bytes: for at in 0..most {
        if first[at] != output[at] {
            return at;
        }
    }
    most
}

/// Appends whether an output is the first one, or where it parts from it.
fn push_part(first: &[u8], output: &[u8], text: &mut Text)
    requires { length text.old + 40 ≤ 2048 }
    ensures text { text.new ≡ text.old ++ part_text first.now output.now }
    ensures len { length text.new ≤ length text.old + 40 }
{
    if first == output {
        text.push(b"same");
    } else {
        text.push(b"parts at ");
        text.push_decimal(shared(first, output) as u64);
    }
}

/// Puts the line of a machine that has stopped, at a vector length of so many bits, beside the output at 128 bits.
pub fn put_run_line<O: Sink>(
    bits: u32,
    first: &[u8],
    machine: &Machine,
    written: &[u8],
    errors: usize,
    output: &mut O,
) -> Result<(), Failed>
    ensures bytes { PutsAll (O.held output.old) (O.held output.new)
        (run_line bits first.now machine.now.parts written.now errors) result }
    ensures cause { HasCause (O.faults output.old) (O.faults output.new) result }
{
    let mut text = Text::new();
    push_head(bits, machine, &mut text);
    text.push(b"out ");
    text.push_decimal(written.len() as u64);
    text.push(b" err ");
    text.push_decimal(errors as u64);
    text.push(b" ");
    push_part(first, written, &mut text);
    text.push(b"\n");
    text.put(output)
}
