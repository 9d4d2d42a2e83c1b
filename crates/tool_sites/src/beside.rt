//! What is next to an address that was refused.
ghost use Rattle.std.specs.Prelude.{◌≡◌, ◌≤◌, Some, IfOk, if◌then◌else◌};
ghost use Rattle.tool_sites.specs.Beside as model;

use crate::guards::beside_guards;
use crate::nearby::{behind_page, beside_mapping, follows, least_above, least_below};
use crate::places::{NEAR, end_place};
use elf_symbols::Symbol;
use emu_model::PAGE_SIZE;
use emu_system::Segment;
use guest_mem::Mem;
use std::alloc::{AllocError, Global};
use tool_texts::{Beside, Place};

/// The address behind the stack's highest byte.
const STACK_TOP: u64 = 0x7FFF_FFFF_F000;

/// The address of the stack's lowest byte.
const STACK_LOW: u64 = 0x7FFF_FFEF_F000;

/// The address behind a segment's last byte, where it isn't above another one; else 0.
fn end_by(address: u64, segment: &Segment) -> u64
    ensures { result ≡ model.end_by address segment.now }
{
    let end = segment.address.saturating_add(segment.memory_size);
    if end <= address { end } else { 0 }
}

/// The greatest end of a segment that isn't above an address, and 0 where all are.
fn end_below(address: u64, segments: &[Segment]) -> u64
    ensures { result ≡ model.end_below address segments.now }
{
    let mut highest = 0;
    for segment in segments {
        highest = end_by(address, segment).max(highest);
    }
    highest
}

/// The address of a segment that is above another one; else the greatest number.
fn start_by(address: u64, segment: &Segment) -> u64
    ensures { result ≡ model.start_by address segment.now }
{
    if address < segment.address {
        segment.address
    } else {
        u64::MAX
    }
}

/// The least address of a segment that is above an address; else the greatest number.
#[tactic(auto, using(crate::proofs::Endings::start_least))]
fn start_above(address: u64, segments: &[Segment]) -> u64
    ensures { result ≡ model.start_above address segments.now }
{
    let mut lowest = u64::MAX;
    for segment in segments {
        lowest = start_by(address, segment).min(lowest);
    }
    lowest
}

/// Whether a symbol with a size ends at an address or below it.
#[tactic(auto, unfolding(crate::specs::Beside::ends_by))]
fn ends_by(symbol: &Symbol<'_>, address: u64) -> bool
    ensures { result ≡ model.ends_by address symbol.now }
{
    0 < symbol.size && symbol.address <= address && symbol.size <= address - symbol.address
}

/// A symbol that ends so, or else what was found before it.
fn or_before<'a>(found: Option<Symbol<'a>>, symbol: &Symbol<'a>, address: u64) -> Option<Symbol<'a>>
    ensures { result ≡ (if model.ends_by address symbol.now then Some symbol.now else found.entry) }
{
    if ends_by(symbol, address) {
        Some(*symbol)
    } else {
        found
    }
}

/// The last of some symbols that ends at an address or below it.
#[tactic(auto, using(crate::proofs::Endings::ending_steps))]
fn last_ending<'a>(symbols: &[Symbol<'a>], address: u64) -> Option<Symbol<'a>>
    ensures { result ≡ model.last_ending address symbols.now }
{
    let mut found = None;
    for symbol in symbols {
        found = or_before(found, symbol, address);
    }
    found
}

/// How far an address is behind the last byte of a symbol; 0 where there is none.
fn behind_by(address: u64, symbol: Option<Symbol<'_>>) -> u64
    ensures { result ≡ model.behind_by address symbol.entry }
{
    match symbol {
        None => 0,
        Some(symbol) => address
            .saturating_sub(symbol.address)
            .saturating_sub(symbol.size.saturating_sub(1)),
    }
}

/// Behind a segment, so far: by the symbol that ends last below it, where that is near.
fn behind_segment(symbols: &[Symbol<'_>], address: u64, count: u64) -> Beside
    ensures { result ≡ model.behind_segment symbols.now address count }
{
    let behind = behind_by(address, last_ending(symbols, address));
    if 0 < behind && behind <= NEAR {
        Beside::BehindSymbol(behind)
    } else {
        Beside::BehindSegment(count)
    }
}

/// Next to a segment, or else to other pages, by the numbers of pages to those below and above, which are 0 where none
/// is near.
fn beside_segments(
    symbols: &[Symbol<'_>],
    segments: &[Segment],
    address: u64,
    below: u64,
    above: u64,
) -> Beside
    requires below { below ≤ 256 }
    requires above { above ≤ 256 }
    ensures { result ≡ model.beside_segments symbols.now segments.now address below above }
{
    let end = end_below(address, segments);
    let start = start_above(address, segments);
    if 0 < end && address.saturating_sub(end) < NEAR {
        return behind_segment(symbols, address, address.saturating_sub(end) + 1);
    }
    if start.saturating_sub(address) <= NEAR {
        Beside::BelowSegment(start.saturating_sub(address))
    } else {
        beside_mapping(address, below, above)
    }
}

/// Whether the nearest page below an address, so many pages away, is one that the break gave.
fn is_break(segments: &[Segment], memory: &Mem, address: u64, below: u64) -> bool
    requires { below ≤ 256 }
    ensures { result ≡ model.is_break segments.now memory.now.memory address below }
{
    let end = end_below(address, segments);
    0 < below
        && start_above(address, segments) == u64::MAX
        && follows(memory, end, address.saturating_sub(PAGE_SIZE * below))
}

/// Next to the break, or else to other pages.
fn beside_break(
    symbols: &[Symbol<'_>],
    segments: &[Segment],
    memory: &Mem,
    address: u64,
    below: u64,
    above: u64,
) -> Beside
    requires below { below ≤ 256 }
    requires above { above ≤ 256 }
    ensures { result ≡ model.beside_break symbols.now segments.now memory.now.memory address below above }
{
    if is_break(segments, memory, address, below) {
        Beside::BehindBreak(behind_page(address, below))
    } else {
        beside_segments(symbols, segments, address, below, above)
    }
}

/// Next to the stack, or else to other pages.
fn beside_stack(symbols: &[Symbol<'_>], segments: &[Segment], memory: &Mem, address: u64) -> Beside
    ensures { result ≡ model.beside_stack symbols.now segments.now memory.now.memory address }
{
    if address < STACK_LOW && STACK_LOW - address <= NEAR {
        return Beside::BelowStack(STACK_LOW - address);
    }
    if STACK_TOP <= address && address - STACK_TOP < NEAR {
        return Beside::BehindStack(address - STACK_TOP + 1);
    }
    let below = least_below(memory, address);
    let above = least_above(memory, address);
    beside_break(symbols, segments, memory, address, below, above)
}

/// Next to a guarded buffer, or else to pages.
fn beside_unmapped(
    symbols: &[Symbol<'_>],
    segments: &[Segment],
    memory: &Mem,
    address: u64,
) -> Beside
    ensures { result ≡ model.beside_unmapped symbols.now segments.now memory.now.memory address }
{
    match beside_guards(symbols, memory, address) {
        Some(beside) => beside,
        None => beside_stack(symbols, segments, memory, address),
    }
}

/// What is next to an address whose access was refused.
pub fn beside_of(symbols: &[Symbol<'_>], segments: &[Segment], memory: &Mem, address: u64) -> Beside
    ensures { result ≡ model.beside symbols.now segments.now memory.now.memory address }
{
    if address < PAGE_SIZE {
        return Beside::Null;
    }
    if memory.peek(address).is_some() {
        return Beside::Unallowed;
    }
    beside_unmapped(symbols, segments, memory, address)
}

/// The place of an address by the symbol that is nearest below it. Err is want of memory.
pub fn near_of(alloc: Global, symbols: &[Symbol<'_>], address: u64) -> Result<Place, AllocError>
    ensures { IfOk result (λ place. place ≡ model.near_of symbols.now address) }
{
    end_place(alloc, address, last_ending(symbols, address))
}
