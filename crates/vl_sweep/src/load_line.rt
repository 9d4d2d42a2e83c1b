//! The line of a run of a load program.
ghost use Rattle.std.specs.Prelude.{◌≡◌, ◌++◌, OnOk};
ghost use Rattle.emu_run.specs.Text.{hex};
ghost use Rattle.command_model.specs.Load.{bytes_text, run_line};

use crate::line::push_head;
use emu_machine::Machine;
use emu_report::Text;
use io_gate::{Failed, MemSink, Sink};

/// Appends a text.
fn push_text(text: &Text, lines: &mut MemSink) -> Result<(), Failed>
    ensures { OnOk result (lines.new.held ≡ lines.old.held ++ text.now) }
{
    text.put(lines)
}

/// Appends the two hexadecimal digits of a byte.
fn push_byte(byte: u8, lines: &mut MemSink) -> Result<(), Failed>
    ensures { OnOk result (lines.new.held ≡ lines.old.held ++ hex 2 byte) }
{
    let mut text = Text::new();
    text.push_hex(u64::from(byte), 2);
    push_text(&text, lines)
}

/// Appends the two hexadecimal digits of each byte.
fn push_digits(bytes: &[u8], lines: &mut MemSink) -> Result<(), Failed>
    ensures { OnOk result (lines.new.held ≡ lines.old.held ++ bytes_text bytes.now) }
{
    'digits: for at in 0..bytes.len() {
        push_byte(bytes[at], lines)?;
    }
    Ok(())
}

/// Appends the line of a machine that has stopped, at a vector length of so many bits, which wrote this output.
pub fn push_run_line(
    bits: u32,
    machine: &Machine,
    output: &[u8],
    lines: &mut MemSink,
) -> Result<(), Failed>
    ensures { OnOk result (lines.new.held ≡ lines.old.held ++ run_line bits machine.now.parts output.now) }
{
    let mut head = Text::new();
    push_head(bits, machine, &mut head);
    head.push(b"output ");
    push_text(&head, lines)?;
    push_digits(output, lines)?;
    let mut end = Text::new();
    end.push(b"\n");
    push_text(&end, lines)
}
