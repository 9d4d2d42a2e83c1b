//! The calls that led to where a machine stands, by the frame records of the Arm procedure call standard: X29 is the
//! address of a record, which has the address of the one before it and then the address that the function returns to.
ghost use Rattle.std.specs.Prelude.{◌≡◌, ◌++◌, string_bytes, OnOk};
ghost use Rattle.debug_shows.specs.Frames.{
  backtrace_text,
  end_text,
  frame_text,
  frames,
  is_followed,
  is_mapped,
  link_text,
  most_frames,
  return_address,
  why_text,
};

use crate::places::push_place;
use crate::values::value_at;
use debug_texts::{push_decimal, push_hex};
use elf_symbols::Symbol;
use emu_bits::Reg;
use emu_machine::Machine;
use guest_mem::Mem;
use std::alloc::AllocError;

/// The most records that are followed.
const MOST_FRAMES: u64 = 63;

/// The address that the function of a record returns to.
fn return_address(mem: &Mem, frame: u64) -> u64
    ensures { result ≡ return_address mem.now.memory frame }
{
    value_at(mem, frame.wrapping_add(8), 8)
}

/// Appends a call's number and place.
fn push_frame(
    text: &mut String,
    symbols: &[Symbol<'_>],
    number: u64,
    address: u64,
) -> Result<(), AllocError>
    ensures { OnOk result (string_bytes text.new ≡ string_bytes text.old ++ frame_text symbols.now number address) }
{
    text.push_str("#")?;
    push_decimal(text, number)?;
    text.push_str("  ")?;
    push_place(text, symbols, address)?;
    text.push_str("\n")
}

/// Whether a record stands in mapped memory.
fn is_mapped(mem: &Mem, frame: u64) -> bool
    ensures { result ≡ is_mapped mem.now.memory frame }
{
    mem.peek(frame).is_some() && mem.peek(frame.wrapping_add(15)).is_some()
}

/// Why the chain ends at a record that isn't followed.
fn why_text(mem: &Mem, before: u64, frame: u64) -> &'static str
    ensures { result.now ≡ why_text mem.now.memory before frame }
{
    if frame % 8 != 0 {
        "the chain breaks: no frame record stands at "
    } else if !is_mapped(mem, frame) {
        "the chain breaks: nothing is mapped at "
    } else if before < frame {
        "and more calls by the record at "
    } else {
        "the chain breaks: it goes down to "
    }
}

/// Appends why the chain ends at a record; nothing where it ends as it should.
fn push_end(text: &mut String, mem: &Mem, before: u64, frame: u64) -> Result<(), AllocError>
    ensures { OnOk result (string_bytes text.new ≡ string_bytes text.old ++ end_text mem.now.memory before frame) }
{
    if frame == 0 {
        return Ok(());
    }
    text.push_str(why_text(mem, before, frame))?;
    push_hex(text, frame)?;
    text.push_str("\n")
}

/// Whether a record is followed.
fn is_followed(mem: &Mem, frame: u64, before: u64) -> bool
    ensures { result ≡ is_followed mem.now.memory before frame }
{
    frame != 0 && frame % 8 == 0 && is_mapped(mem, frame) && before < frame
}

/// Appends the address in X30, where the first record has another: the present function may have made no record yet.
fn push_link(
    text: &mut String,
    symbols: &[Symbol<'_>],
    mem: &Mem,
    link: u64,
    frame: u64,
) -> Result<(), AllocError>
    ensures { OnOk result
        (string_bytes text.new ≡ string_bytes text.old ++ link_text symbols.now mem.now.memory link frame) }
{
    if link == 0 || link == return_address(mem, frame) {
        return Ok(());
    }
    text.push_str("x30 ")?;
    push_place(text, symbols, link)?;
    text.push_str("\n")
}

/// Appends the calls by the records from one on, and where their chain breaks.
fn push_frames(
    text: &mut String,
    symbols: &[Symbol<'_>],
    mem: &Mem,
    first: u64,
) -> Result<(), AllocError>
    ensures { OnOk result
        (string_bytes text.new ≡ string_bytes text.old ++ frames symbols.now mem.now.memory 1 0 first most_frames) }
{
    let mut frame = first;
    let mut before = 0;
    'frames: for done in 0..MOST_FRAMES {
        let followed = is_followed(mem, frame, before);
        if !followed {
            return push_end(text, mem, before, frame);
        }
        push_frame(text, symbols, done + 1, return_address(mem, frame))?;
        before = frame;
        frame = value_at(mem, frame, 8);
    }
    push_end(text, mem, before, frame)
}

/// Appends the calls that led to where a machine stands, and where the chain of their records breaks.
pub fn push_backtrace(
    text: &mut String,
    symbols: &[Symbol<'_>],
    machine: &Machine,
) -> Result<(), AllocError>
    ensures { OnOk result
        (string_bytes text.new ≡ string_bytes text.old ++ backtrace_text symbols.now machine.now.parts) }
{
    let (core, mem) = (machine.core(), machine.mem());
    let frame = core.x(Reg::at(29, 0));
    push_frame(text, symbols, 0, core.pc())?;
    push_link(text, symbols, mem, core.x(Reg::at(30, 0)), frame)?;
    push_frames(text, symbols, mem, frame)
}
