//! What stands at the head of a step's line.
ghost use Rattle.std.specs.Prelude.{◌≡◌, ◌≤◌, ◌<◌, ◌+◌, ◌++◌, length};
ghost use Rattle.io_gate.specs.Pieces.{PutsAll};
ghost use Rattle.io_gate.specs.Streams.{HasCause};
ghost use Rattle.asm_text.specs.Disassembly.{word_text};
ghost use Rattle.emu_model.specs.Access.{byte_at, value};
ghost use Rattle.emu_run.specs.Step.{decode as instruction_of};
ghost use Rattle.emu_run.specs.Text.{newline};
ghost use Rattle.trace_lines.specs.Lines.{head_text};

use arrayvec::ArrayString;
use dis_text::print;
use emu_report::Text;
use guest_mem::Mem;
use insn_decode::decode;
use io_gate::{Failed, Sink};

/// The byte at an address, and 0 where its page isn't mapped.
fn byte_at(mem: &Mem, address: u64) -> u8
    ensures { result ≡ byte_at mem.now.memory address }
{
    mem.peek(address).unwrap_or(0)
}

/// The little-endian word at an address, whatever the rights of its pages are.
pub fn word_at(mem: &Mem, address: u64) -> u32
    ensures { result ≡ value mem.now.memory address 4 }
{
    let first = u32::from(byte_at(mem, address));
    let second = u32::from(byte_at(mem, address.wrapping_add(1)));
    let third = u32::from(byte_at(mem, address.wrapping_add(2)));
    let fourth = u32::from(byte_at(mem, address.wrapping_add(3)));
    first + 256 * (second + 256 * (third + 256 * fourth))
}

/// Appends the text of a word at pc: its instruction's, or a directive's where it is in no row of a table.
fn push_word_text(text: &mut Text, word: u32, pc: u64)
    requires { length text.old + 96 ≤ 2048 }
    ensures text { text.new ≡ text.old ++ word_text word pc (instruction_of word) }
    ensures len { length text.new ≤ length text.old + 96 }
{
    match decode(word) {
        Some(insn) => {
            let mut line = ArrayString::new();
            print(&insn, pc, &mut line);
            text.push(line.as_str().as_bytes());
        }
        None => {
            text.push(b".word 0x");
            text.push_hex(u64::from(word), 8);
        }
    }
}

/// Puts the number of a step, its address, its word and the word's text.
pub fn put_head<S: Sink>(steps: u64, pc: u64, word: u32, sink: &mut S) -> Result<(), Failed>
    ensures bytes { PutsAll (S.held sink.old) (S.held sink.new) (head_text steps pc word) result }
    ensures cause { HasCause (S.faults sink.old) (S.faults sink.new) result }
{
    let mut text = Text::new();
    text.push_decimal(steps);
    text.push(b" ");
    text.push_hex(pc, 16);
    text.push(b" ");
    text.push_hex(u64::from(word), 8);
    text.push(b" ");
    push_word_text(&mut text, word, pc);
    text.put(sink)
}

/// Ends a line.
pub fn put_end<S: Sink>(sink: &mut S) -> Result<(), Failed>
    ensures bytes { PutsAll (S.held sink.old) (S.held sink.new) newline result }
    ensures cause { HasCause (S.faults sink.old) (S.faults sink.new) result }
{
    let mut text = Text::new();
    text.push(b"\n");
    text.put(sink)
}
