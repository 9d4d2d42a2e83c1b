//! Where a machine stands.
ghost use Rattle.std.specs.Prelude.{◌≡◌, ◌++◌, ◌∷◌, [], codes, string_bytes, OnOk};
ghost use Rattle.asm_text.specs.Disassembly.{word_text};
ghost use Rattle.asm_text.specs.Texts.{text as text_of};
ghost use Rattle.emu_run.specs.Step.{decode as instruction_of};
ghost use Rattle.emu_run.specs.Text.{hex};
ghost use Rattle.debug_texts.specs.Numbers.{character};
ghost use Rattle.debug_shows.specs.Places.{
  instruction_text,
  is_told,
  offset_text,
  place_text,
  reached_name,
  symbol_name,
  where_text,
};

use arrayvec::ArrayString;
use debug_texts::{character, push_decimal, push_digits, push_hex};
use debug_values::word_at;
use dis_text::print;
use elf_symbols::{Symbol, symbol_at};
use emu_machine::Machine;
use guest_mem::Mem;
use insn_decode::{Insn, decode};
use std::alloc::AllocError;

/// How many bytes behind a symbol whose size isn't known it is told.
const MOST_BEHIND: u64 = 65_536;

/// Appends how far an address stands behind a symbol's.
fn push_offset(text: &mut String, n: u64) -> Result<(), AllocError>
    ensures { OnOk result (string_bytes text.new ≡ string_bytes text.old ++ offset_text n) }
{
    if n == 0 {
        return Ok(());
    }
    text.push_str("+")?;
    push_decimal(text, n)
}

/// Appends the character of a byte.
pub fn push_shown(text: &mut String, byte: u8) -> Result<(), AllocError>
    ensures { OnOk result (string_bytes text.new ≡ string_bytes text.old ++ character byte ∷ []) }
{
    text.push(character(byte))
}

/// Appends the name of a symbol, each byte by its character.
fn push_symbol(text: &mut String, name: &[u8]) -> Result<(), AllocError>
    ensures { OnOk result (string_bytes text.new ≡ string_bytes text.old ++ symbol_name name.now) }
{
    'bytes: for byte in name {
        push_shown(text, *byte)?;
    }
    Ok(())
}

/// Appends an address, and its place by the symbol that reaches it.
pub fn push_place(text: &mut String, symbols: &[Symbol<'_>], address: u64) -> Result<(), AllocError>
    ensures { OnOk result (string_bytes text.new ≡ string_bytes text.old ++ place_text symbols.now address) }
{
    push_hex(text, address)?;
    match symbol_at(symbols, address) {
        Some(symbol) if is_told(&symbol, address) => push_reached(text, &symbol, address),
        Some(_) | None => Ok(()),
    }
}

/// Whether an address is told by a symbol that reaches it: by one whose size isn't known if it is near.
fn is_told(symbol: &Symbol<'_>, address: u64) -> bool
    ensures { result ≡ is_told address symbol.now }
{
    symbol.size > 0 || address.saturating_sub(symbol.address) < MOST_BEHIND
}

/// Appends the place of an address by the symbol that reaches it.
fn push_reached(text: &mut String, symbol: &Symbol<'_>, address: u64) -> Result<(), AllocError>
    ensures { OnOk result (string_bytes text.new ≡ string_bytes text.old ++ reached_name address symbol.now) }
{
    text.push_str(" <")?;
    push_symbol(text, symbol.name)?;
    push_offset(text, address.saturating_sub(symbol.address))?;
    text.push_str(">")
}

/// Appends the text of a word that is no instruction.
fn push_plain(text: &mut String, word: u32) -> Result<(), AllocError>
    ensures { OnOk result (string_bytes text.new ≡ string_bytes text.old ++ (codes ".word 0x" ++ hex 8 word)) }
{
    text.push_str(".word 0x")?;
    push_digits(text, u64::from(word), 8)
}

/// Appends the text of an instruction at an address.
fn push_text(text: &mut String, insn: &Insn, pc: u64) -> Result<(), AllocError>
    ensures { OnOk result (string_bytes text.new ≡ string_bytes text.old ++ text_of insn.now pc) }
{
    let mut line = ArrayString::new();
    print(insn, pc, &mut line);
    text.push_str(line.as_str())
}

/// Appends the text of a word at an address.
fn push_word(text: &mut String, word: u32, pc: u64) -> Result<(), AllocError>
    ensures { OnOk result
        (string_bytes text.new ≡ string_bytes text.old ++ word_text word pc (instruction_of word)) }
{
    match decode(word) {
        Some(insn) => push_text(text, &insn, pc),
        None => push_plain(text, word),
    }
}

/// Appends the instruction at an address.
pub fn push_instruction(text: &mut String, mem: &Mem, pc: u64) -> Result<(), AllocError>
    ensures { OnOk result (string_bytes text.new ≡ string_bytes text.old ++ instruction_text mem.now.memory pc) }
{
    push_word(text, word_at(mem, pc), pc)
}

/// Appends where a machine stands.
pub fn push_where(
    text: &mut String,
    symbols: &[Symbol<'_>],
    machine: &Machine,
) -> Result<(), AllocError>
    ensures { OnOk result (string_bytes text.new ≡ string_bytes text.old ++ where_text symbols.now machine.now.parts) }
{
    let pc = machine.core().pc();
    text.push_str("step ")?;
    push_decimal(text, machine.steps())?;
    text.push_str("  ")?;
    push_place(text, symbols, pc)?;
    text.push_str("  ")?;
    push_instruction(text, machine.mem(), pc)?;
    text.push_str("\n")
}
