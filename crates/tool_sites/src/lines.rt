//! The line that tells where and why a run stopped.
ghost use Rattle.std.specs.Prelude.{◌≡◌, [], string_bytes, IfOk};
ghost use Rattle.tool_texts.specs.Explanations.{access_line, at_stop_line, jump_line, spent_line};
ghost use Rattle.tool_sites.specs.Beside.{near_of};
ghost use Rattle.tool_sites.specs.Explanation as texts;
ghost use Rattle.tool_sites.specs.Sites.{place_of, stop_of};
ghost use Rattle.tool_sites.specs.Words.{word_at};

use crate::beside::{beside_of, near_of};
use crate::places::place_of;
use crate::words::word_at;
use elf_symbols::Symbol;
use emu_bits::Reg;
use emu_machine::Machine;
use emu_model::{Ended, Trap, TrapKind};
use emu_system::Segment;
use std::alloc::{AllocError, Global};
use tool_texts::{
    Beside, Stop, push_access, push_at_stop, push_call, push_jump, push_spent, push_undefined,
};
use word_families::{advice, family_name, family_of};

/// Where a machine stopped. Err is want of memory.
fn stop_of(alloc: Global, machine: &Machine, symbols: &[Symbol<'_>]) -> Result<Stop, AllocError>
    ensures { IfOk result (λ stop. stop ≡ stop_of symbols.now machine.now.parts) }
{
    let core = machine.core();
    Ok(Stop {
        place: place_of(alloc, symbols, core.pc())?,
        caller: place_of(alloc, symbols, core.x(Reg::at(30, 0)))?,
        steps: machine.steps(),
    })
}

/// The line of a word that is no instruction. Err is want of memory.
fn undefined_text(
    alloc: Global,
    machine: &Machine,
    symbols: &[Symbol<'_>],
) -> Result<String, AllocError>
    ensures { IfOk result (λ text. string_bytes text ≡ texts.undefined_text symbols.now machine.now.parts
        (word_at machine.now.parts.memory machine.now.parts.core.pc)) }
{
    let mut text = String::new(alloc);
    let stop = stop_of(alloc, machine, symbols)?;
    let word = word_at(machine.mem(), machine.core().pc());
    let family = family_of(word);
    push_undefined(&mut text, &stop, word, family_name(family), advice(family))?;
    Ok(text)
}

/// The line of a stop at an instruction, for a reason. Err is want of memory.
fn reason_text(
    alloc: Global,
    machine: &Machine,
    symbols: &[Symbol<'_>],
    reason: &str,
) -> Result<String, AllocError>
    ensures { IfOk result (λ text. string_bytes text
        ≡ at_stop_line [] (stop_of symbols.now machine.now.parts) reason.now) }
{
    let mut text = String::new(alloc);
    let stop = stop_of(alloc, machine, symbols)?;
    push_at_stop(&mut text, &stop, reason)?;
    Ok(text)
}

/// The line of a program counter that is no multiple of 4. Err is want of memory.
fn jump_text(alloc: Global, machine: &Machine, symbols: &[Symbol<'_>]) -> Result<String, AllocError>
    ensures { IfOk result (λ text. string_bytes text ≡ jump_line [] (stop_of symbols.now machine.now.parts)) }
{
    let mut text = String::new(alloc);
    let stop = stop_of(alloc, machine, symbols)?;
    push_jump(&mut text, &stop)?;
    Ok(text)
}

/// The line of steps that are spent. Err is want of memory.
fn spent_text(
    alloc: Global,
    machine: &Machine,
    symbols: &[Symbol<'_>],
) -> Result<String, AllocError>
    ensures { IfOk result (λ text. string_bytes text ≡ spent_line [] (stop_of symbols.now machine.now.parts)) }
{
    let mut text = String::new(alloc);
    let stop = stop_of(alloc, machine, symbols)?;
    push_spent(&mut text, &stop)?;
    Ok(text)
}

/// The line of an access, with what is next to its address. Err is want of memory.
fn line_of_access(
    alloc: Global,
    machine: &Machine,
    symbols: &[Symbol<'_>],
    access: &str,
    address: u64,
    beside: Beside,
) -> Result<String, AllocError>
    ensures { IfOk result (λ text. string_bytes text ≡ access_line [] (stop_of symbols.now machine.now.parts)
        access.now (place_of symbols.now address) beside (near_of symbols.now address)) }
{
    let mut text = String::new(alloc);
    let stop = stop_of(alloc, machine, symbols)?;
    let place = place_of(alloc, symbols, address)?;
    let near = near_of(alloc, symbols, address)?;
    push_access(&mut text, &stop, access, &place, beside, &near)?;
    Ok(text)
}

/// The line of an access that was refused. Err is want of memory.
fn access_text(
    alloc: Global,
    machine: &Machine,
    symbols: &[Symbol<'_>],
    segments: &[Segment],
    access: &str,
    address: u64,
) -> Result<String, AllocError>
    ensures { IfOk result (λ text. string_bytes text
        ≡ texts.access_text symbols.now segments.now machine.now.parts access.now address) }
{
    let beside = beside_of(symbols, segments, machine.mem(), address);
    line_of_access(alloc, machine, symbols, access, address, beside)
}

/// The line of an access to an address that isn't a multiple of its size. Err is want of memory.
fn unaligned_text(
    alloc: Global,
    machine: &Machine,
    symbols: &[Symbol<'_>],
    address: u64,
) -> Result<String, AllocError>
    ensures { IfOk result (λ text. string_bytes text
        ≡ texts.unaligned_text symbols.now machine.now.parts address) }
{
    let access = "exclusive, ordered or atomic access to";
    line_of_access(alloc, machine, symbols, access, address, Beside::Unaligned)
}

/// The line of an instruction that can't be fetched. Err is want of memory.
fn fetch_text(
    alloc: Global,
    machine: &Machine,
    symbols: &[Symbol<'_>],
    segments: &[Segment],
    address: u64,
) -> Result<String, AllocError>
    ensures { IfOk result (λ text. string_bytes text
        ≡ texts.fetch_text symbols.now segments.now machine.now.parts address) }
{
    let mut text = String::new(alloc);
    let stop = stop_of(alloc, machine, symbols)?;
    let near = near_of(alloc, symbols, address)?;
    let beside = beside_of(symbols, segments, machine.mem(), address);
    push_call(&mut text, &stop, beside, &near)?;
    Ok(text)
}

/// The line of a trap. Err is want of memory.
fn trap_text(
    alloc: Global,
    machine: &Machine,
    symbols: &[Symbol<'_>],
    segments: &[Segment],
    trap: Trap,
) -> Result<String, AllocError>
    ensures { IfOk result (λ text. string_bytes text
        ≡ texts.trap_text symbols.now segments.now machine.now.parts trap.address trap.kind) }
{
    let address = trap.address;
    match trap.kind {
        TrapKind::Undefined => undefined_text(alloc, machine, symbols),
        TrapKind::Halt => reason_text(alloc, machine, symbols, "the instruction HLT"),
        TrapKind::Break => reason_text(
            alloc,
            machine,
            symbols,
            "the instruction BRK (a trap that the program has in itself)",
        ),
        TrapKind::PcAlign => jump_text(alloc, machine, symbols),
        TrapKind::SpAlign => reason_text(
            alloc,
            machine,
            symbols,
            "an access by SP, which is no multiple of 16,",
        ),
        TrapKind::AccessAlign => unaligned_text(alloc, machine, symbols, address),
        TrapKind::Fetch => fetch_text(alloc, machine, symbols, segments, address),
        TrapKind::Read => access_text(alloc, machine, symbols, segments, "read from", address),
        TrapKind::Write => access_text(alloc, machine, symbols, segments, "write to", address),
    }
}

/// What is said of a machine that stopped, by the symbols of its file and the segments of its image: one line, and
/// nothing of an exit. Err is want of memory.
pub fn explain(
    alloc: Global,
    machine: &Machine,
    symbols: &[Symbol<'_>],
    segments: &[Segment],
) -> Result<String, AllocError>
    ensures { IfOk result (λ text. string_bytes text
        ≡ texts.explanation symbols.now segments.now machine.now.parts) }
{
    match machine.ending() {
        None => spent_text(alloc, machine, symbols),
        Some(Ended::Exit(_)) => Ok(String::new(alloc)),
        Some(Ended::Trap(trap)) => trap_text(alloc, machine, symbols, segments, trap),
    }
}
