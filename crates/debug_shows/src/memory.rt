//! Memory as `x` shows it, and the instructions of a function.
ghost use Rattle.std.specs.Prelude.{◌≡◌, ◌≤◌, ◌++◌, string_bytes, IfOk, OnOk};
ghost use Rattle.debug_shows.specs.Memory.{
  behind_characters,
  break_text,
  characters,
  disassembly_text,
  head_text,
  in_line,
  line_text,
  lines_from,
  mark,
  memory_text,
  most_characters,
  one_text,
  one_value,
  plain_instructions,
  reached_text,
  text_by,
  texts,
  unit_or,
  value_text,
  values_text,
};

use crate::places::{push_instruction, push_place, push_shown};
use crate::values::{byte_at, value_at};
use debug_places::{Format, Notation};
use debug_texts::push_number;
use elf_symbols::{Symbol, symbol_at};
use emu_machine::Machine;
use guest_mem::Mem;
use std::alloc::AllocError;

/// The most characters of a text.
const MOST_TEXT: u64 = 4096;

/// How many instructions are shown of a function at most.
const MOST_INSTRUCTIONS: u64 = 400;

/// How many instructions are shown where no symbol with a size reaches the place.
fn plain_instructions() -> u32
    ensures { result ≡ plain_instructions }
{
    10
}

/// Appends a value of memory, or what stands for one that isn't mapped.
fn push_value(
    text: &mut String,
    mem: &Mem,
    notation: Notation,
    unit: u32,
    address: u64,
) -> Result<(), AllocError>
    requires least { 1 ≤ unit }
    requires most { unit ≤ 8 }
    ensures { OnOk result
        (string_bytes text.new ≡ string_bytes text.old ++ value_text mem.now.memory notation unit address) }
{
    text.push_str(" ")?;
    match mem.peek(address) {
        None => text.push_str("--"),
        Some(_) => push_number(text, notation, 8 * unit, value_at(mem, address, unit)),
    }
}

/// How many values stand in a line.
fn in_line(unit: u32) -> u32
    requires least { 1 ≤ unit }
    requires most { unit ≤ 8 }
    ensures value { result ≡ in_line unit }
    ensures some { 1 ≤ result }
{
    (16 / unit).min(8)
}

/// What stands before the lines behind the first.
fn break_text(k: u32) -> &'static str
    ensures { result.now ≡ break_text k }
{
    if k == 0 { "" } else { "\n" }
}

/// Appends the place of value k, where it is the first of a line.
fn push_head(
    text: &mut String,
    symbols: &[Symbol<'_>],
    unit: u32,
    k: u32,
    address: u64,
) -> Result<(), AllocError>
    requires least { 1 ≤ unit }
    requires most { unit ≤ 8 }
    ensures { OnOk result
        (string_bytes text.new ≡ string_bytes text.old ++ head_text symbols.now unit k address) }
{
    if k % in_line(unit) != 0 {
        return Ok(());
    }
    text.push_str(break_text(k))?;
    push_place(text, symbols, address)?;
    text.push_str(":")
}

/// Appends value k from an address on.
fn push_one(
    text: &mut String,
    symbols: &[Symbol<'_>],
    mem: &Mem,
    notation: Notation,
    unit: u32,
    address: u64,
    k: u32,
) -> Result<(), AllocError>
    requires least { 1 ≤ unit }
    requires most { unit ≤ 8 }
    ensures { OnOk result
        (string_bytes text.new ≡ string_bytes text.old
        ++ one_value symbols.now mem.now.memory notation unit address k) }
{
    let here = address.wrapping_add(u64::from(k) * u64::from(unit));
    push_head(text, symbols, unit, k, here)?;
    push_value(text, mem, notation, unit, here)
}

/// Appends values of memory, up to 16 bytes or 8 values a line.
fn push_values(
    text: &mut String,
    symbols: &[Symbol<'_>],
    mem: &Mem,
    notation: Notation,
    unit: u32,
    count: u32,
    address: u64,
) -> Result<(), AllocError>
    requires least { 1 ≤ unit }
    requires most { unit ≤ 8 }
    ensures { OnOk result
        (string_bytes text.new ≡ string_bytes text.old
        ++ values_text symbols.now mem.now.memory notation unit count address) }
{
    'values: for k in 0..count {
        push_one(text, symbols, mem, notation, unit, address, k)?;
    }
    text.push_str("\n")
}

/// Appends the characters from an address on, up to a zero byte or one that isn't mapped, and gives the address behind
/// them.
fn push_characters(text: &mut String, mem: &Mem, address: u64) -> Result<u64, AllocError>
    ensures text { OnOk result
        (string_bytes text.new ≡ string_bytes text.old ++ characters mem.now.memory address most_characters) }
    ensures behind { IfOk result (λ at. at ≡ behind_characters mem.now.memory address most_characters) }
{
    let mut at = address;
    'characters: for done in 0..MOST_TEXT {
        let byte = byte_at(mem, at);
        if byte == 0 {
            return Ok(at.wrapping_add(1));
        }
        push_shown(text, byte)?;
        at = at.wrapping_add(1);
    }
    Ok(at)
}

/// Appends a text of memory behind its place, and gives the address behind it.
fn push_one_text(
    text: &mut String,
    symbols: &[Symbol<'_>],
    mem: &Mem,
    address: u64,
) -> Result<u64, AllocError>
    ensures text { OnOk result
        (string_bytes text.new ≡ string_bytes text.old ++ one_text symbols.now mem.now.memory address) }
    ensures behind { IfOk result (λ at. at ≡ behind_characters mem.now.memory address most_characters) }
{
    push_place(text, symbols, address)?;
    text.push_str(": \"")?;
    let behind = push_characters(text, mem, address)?;
    text.push_str("\"\n")?;
    Ok(behind)
}

/// Appends so many texts of memory.
fn push_texts(
    text: &mut String,
    symbols: &[Symbol<'_>],
    mem: &Mem,
    count: u32,
    address: u64,
) -> Result<(), AllocError>
    ensures { OnOk result
        (string_bytes text.new ≡ string_bytes text.old ++ texts symbols.now mem.now.memory address count) }
{
    let mut at = address;
    'texts: for done in 0..count {
        let behind = push_one_text(text, symbols, mem, at)?;
        at = behind;
    }
    Ok(())
}

/// What stands before an instruction: a mark where the machine stands on it.
fn mark(pc: u64, address: u64) -> &'static str
    ensures { result.now ≡ mark pc address }
{
    if pc == address { "=> " } else { "   " }
}

/// Appends an instruction, with a mark where the machine stands on it.
fn push_line(
    text: &mut String,
    symbols: &[Symbol<'_>],
    mem: &Mem,
    pc: u64,
    address: u64,
) -> Result<(), AllocError>
    ensures { OnOk result
        (string_bytes text.new ≡ string_bytes text.old ++ line_text symbols.now mem.now.memory pc address) }
{
    text.push_str(mark(pc, address))?;
    push_place(text, symbols, address)?;
    text.push_str("  ")?;
    push_instruction(text, mem, address)?;
    text.push_str("\n")
}

/// Appends so many instructions.
fn push_lines(
    text: &mut String,
    symbols: &[Symbol<'_>],
    mem: &Mem,
    pc: u64,
    count: u32,
    address: u64,
) -> Result<(), AllocError>
    ensures { OnOk result
        (string_bytes text.new ≡ string_bytes text.old ++ lines_from symbols.now mem.now.memory pc count address) }
{
    'lines: for k in 0..count {
        let here = address.wrapping_add(4 * u64::from(k));
        push_line(text, symbols, mem, pc, here)?;
    }
    Ok(())
}

/// How many bytes a value has: as asked, 1 to 8, or so many.
fn unit_or(plain: u32, unit: Option<u32>) -> u32
    requires least { 1 ≤ plain }
    requires most { plain ≤ 8 }
    ensures value { result ≡ unit_or plain unit }
    ensures least { 1 ≤ result }
    ensures most { result ≤ 8 }
{
    match unit {
        None => plain,
        Some(asked) => asked.max(1).min(8),
    }
}

/// Appends memory in a notation.
fn push_by(
    text: &mut String,
    symbols: &[Symbol<'_>],
    mem: &Mem,
    pc: u64,
    notation: Notation,
    count: u32,
    unit: Option<u32>,
    address: u64,
) -> Result<(), AllocError>
    ensures { OnOk result
        (string_bytes text.new ≡ string_bytes text.old
        ++ text_by symbols.now mem.now.memory pc notation count unit address) }
{
    match notation {
        Notation::Text => push_texts(text, symbols, mem, count, address),
        Notation::Instruction => push_lines(text, symbols, mem, pc, count, address),
        Notation::Character => push_values(
            text,
            symbols,
            mem,
            Notation::Character,
            unit_or(1, unit),
            count,
            address,
        ),
        Notation::Hexadecimal => push_values(
            text,
            symbols,
            mem,
            Notation::Hexadecimal,
            unit_or(4, unit),
            count,
            address,
        ),
        Notation::Signed => push_values(
            text,
            symbols,
            mem,
            Notation::Signed,
            unit_or(4, unit),
            count,
            address,
        ),
        Notation::Unsigned => push_values(
            text,
            symbols,
            mem,
            Notation::Unsigned,
            unit_or(4, unit),
            count,
            address,
        ),
        Notation::Binary => push_values(
            text,
            symbols,
            mem,
            Notation::Binary,
            unit_or(4, unit),
            count,
            address,
        ),
    }
}

/// Appends memory from an address on as a format asks for it: words in hexadecimal, one of them, where it doesn't.
pub fn push_memory(
    text: &mut String,
    symbols: &[Symbol<'_>],
    format: Format,
    address: u64,
    machine: &Machine,
) -> Result<(), AllocError>
    ensures { OnOk result
        (string_bytes text.new ≡ string_bytes text.old ++ memory_text symbols.now format machine.now.parts address) }
{
    push_by(
        text,
        symbols,
        machine.mem(),
        machine.core().pc(),
        format.notation.unwrap_or(Notation::Hexadecimal),
        format.count.max(1),
        format.unit,
        address,
    )
}

/// Appends the instructions of a function that a symbol reaches over, or some from an address on where it has no size.
fn push_function(
    text: &mut String,
    symbols: &[Symbol<'_>],
    mem: &Mem,
    pc: u64,
    address: u64,
    symbol: &Symbol<'_>,
) -> Result<(), AllocError>
    ensures { OnOk result (string_bytes text.new ≡ string_bytes text.old ++
        reached_text symbols.now mem.now.memory pc address symbol.now) }
{
    if symbol.size < 4 {
        return push_lines(text, symbols, mem, pc, plain_instructions(), address);
    }
    let count = (symbol.size / 4).min(MOST_INSTRUCTIONS);
    push_lines(text, symbols, mem, pc, count as u32, symbol.address)
}

/// Appends the instructions of the function of an address, or some from it on where no symbol with a size reaches it.
pub fn push_disassembly(
    text: &mut String,
    symbols: &[Symbol<'_>],
    address: u64,
    machine: &Machine,
) -> Result<(), AllocError>
    ensures { OnOk result
        (string_bytes text.new ≡ string_bytes text.old ++ disassembly_text symbols.now machine.now.parts address) }
{
    let (mem, pc) = (machine.mem(), machine.core().pc());
    match symbol_at(symbols, address) {
        Some(symbol) => push_function(text, symbols, mem, pc, address, &symbol),
        None => push_lines(text, symbols, mem, pc, plain_instructions(), address),
    }
}
