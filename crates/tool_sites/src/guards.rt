//! Guarded buffers, by the table that a program keeps of them.
ghost use Rattle.std.specs.Prelude.{◌≡◌, ◌<◌};
ghost use Rattle.tool_sites.specs.Guards as model;

use crate::words::doubleword_at;
use elf_symbols::{Symbol, address_of};
use guest_mem::Mem;
use tool_texts::Beside;

/// A buffer: the address of its first byte, which is 0 where there is none, and its number of bytes.
#[derive(Clone, Copy)]
pub struct Buffer {
    pub begin: u64,
    pub count: u64,
}

/// The number of its entries.
const ENTRIES: u64 = 256;

/// A buffer that is farther away isn't told, in bytes.
const NEAR_BUFFER: u64 = 8192;

/// An entry of the table at an address.
fn buffer_at(memory: &Mem, table: u64, k: u64) -> Buffer
    requires { k < 256 }
    ensures { result ≡ model.buffer_at memory.now.memory table k }
{
    Buffer {
        begin: doubleword_at(memory, table.wrapping_add(16 * k)),
        count: doubleword_at(memory, table.wrapping_add(16 * k + 8)),
    }
}

/// How far an address is below the first byte of a buffer, or behind its last one, in bytes.
fn away(address: u64, buffer: Buffer) -> u64
    ensures { result ≡ model.away address buffer }
{
    let end = buffer.begin.saturating_add(buffer.count);
    if buffer.begin == 0 {
        return u64::MAX;
    }
    if address < buffer.begin {
        return buffer.begin - address;
    }
    if end <= address {
        address.saturating_sub(end.saturating_sub(1))
    } else {
        u64::MAX
    }
}

/// The second of two buffers where it is nearer to an address, else the first.
fn nearer(address: u64, buffer: Buffer, other: Buffer) -> Buffer
    ensures { result ≡ model.nearer address buffer other }
{
    if away(address, other) < away(address, buffer) {
        other
    } else {
        buffer
    }
}

/// The buffer of a table that is nearest to an address.
#[tactic(auto, using(crate::proofs::Steps::buffer_steps))]
fn nearest(memory: &Mem, table: u64, address: u64) -> Buffer
    ensures { result ≡ model.nearest memory.now.memory table address 256 }
{
    let mut found = Buffer { begin: 0, count: 0 };
    for k in 0..ENTRIES {
        found = nearer(address, found, buffer_at(memory, table, k));
    }
    found
}

/// How an address lies to a buffer, where that is near.
fn beside_buffer(address: u64, buffer: Buffer) -> Option<Beside>
    ensures { result ≡ model.beside_buffer address buffer }
{
    let count = away(address, buffer);
    if NEAR_BUFFER < count {
        return None;
    }
    if address < buffer.begin {
        Some(Beside::BelowBuffer(count, buffer.count))
    } else {
        Some(Beside::BehindBuffer(count, buffer.count))
    }
}

/// How an address lies to the nearest of a program's guarded buffers. None where none is near.
pub fn beside_guards(symbols: &[Symbol<'_>], memory: &Mem, address: u64) -> Option<Beside>
    ensures { result ≡ model.beside_guards symbols.now memory.now.memory address }
{
    match address_of(symbols, "guarded_buffers".as_bytes()) {
        None => None,
        Some(table) => beside_buffer(address, nearest(memory, table, address)),
    }
}
