//! What is found in memory.

use crate::shows::put;
use debug_moves::{Broken, Session};
use debug_places::{Format, place_of};
use debug_shows::push_place;
use debug_texts::push_decimal;
use debug_values::address_of;
use debug_words::Extent;
use emu_machine::Machine;
use io_gate::Sink;
use memory_finds::next_found;
use std::alloc::{AllocError, Global};

/// The most bytes of a search.
const MOST_LENGTH: u64 = 67_108_864;

/// How many places are put where no count is told.
const PLAIN_COUNT: u32 = 100;

/// Appends so many bytes of a number, the lowest first. Err is want of memory.
fn push_number_bytes(bytes: &mut Vec<u8>, number: u64, count: u32) -> Result<(), AllocError> {
    let mut left = number;
    'bytes: for _ in 0..count {
        bytes.push((left % 256) as u8)?;
        left /= 256;
    }
    Ok(())
}

/// Appends the bytes of a text in quotes, the last of which may be wanting. Err is want of memory.
fn push_quoted_bytes(bytes: &mut Vec<u8>, word: &str) -> Result<(), AllocError> {
    let text = word.strip_prefix("\"").unwrap_or(word);
    let text = text.strip_suffix("\"").unwrap_or(text);
    for byte in text.as_bytes() {
        bytes.push(*byte)?;
    }
    Ok(())
}

/// Appends the bytes of a value: of a text in quotes its own, and of a place so many of its address.
fn push_value_bytes(
    bytes: &mut Vec<u8>,
    session: &Session,
    word: &str,
    count: u32,
    machine: &Machine,
) -> Result<(), AllocError> {
    if word.starts_with("\"") {
        return push_quoted_bytes(bytes, word);
    }
    match place_of(session.symbols, session.rows, word) {
        Err(_) => Ok(()),
        Ok(place) => push_number_bytes(bytes, address_of(machine, place), count),
    }
}

/// The bytes of so many values, the words behind the extent. Err is want of memory.
fn sought_bytes(
    alloc: Global,
    session: &Session,
    words: &[&str],
    count: usize,
    unit: u32,
    machine: &Machine,
) -> Result<Vec<u8>, AllocError> {
    let mut bytes = Vec::new(alloc);
    'values: for k in 3..words.len() {
        if k < count.saturating_add(3) {
            push_value_bytes(&mut bytes, session, words[k], unit, machine)?;
        }
    }
    Ok(bytes)
}

/// How many bytes a search reaches over from an address on, modulo 2^64.
fn length_of(extent: Extent, first: u64, machine: &Machine) -> u64 {
    match extent {
        Extent::Length(length) => length,
        Extent::Upto(place) => address_of(machine, place)
            .wrapping_sub(first)
            .saturating_add(1),
    }
}

/// Appends where bytes stand within so many from an address on, at most so many places, and how many they are. Err is
/// want of memory.
fn push_found(
    text: &mut String,
    session: &Session,
    bytes: &[u8],
    first: u64,
    length: u64,
    most: u32,
    machine: &Machine,
) -> Result<(), AllocError> {
    let mut at = first;
    let mut left = length.saturating_add(1).saturating_sub(bytes.len() as u64);
    let mut found = 0u64;
    'found: for _ in 0..most {
        match next_found(machine.mem(), at, left, bytes) {
            None => break 'found,
            Some(address) => {
                push_place(text, session.symbols, address)?;
                text.push_str("\n")?;
                found = found.saturating_add(1);
                left = left
                    .saturating_sub(address.wrapping_sub(at))
                    .saturating_sub(1);
                at = address.wrapping_add(1);
            }
        }
    }
    if found == 0 {
        return text.push_str("pattern not found\n");
    }
    push_decimal(text, found)?;
    text.push_str(if found == 1 {
        " pattern found\n"
    } else {
        " patterns found\n"
    })
}

/// Puts where values stand in memory one behind the other, from a place on.
pub fn put_found<O: Sink>(
    alloc: Global,
    session: &Session,
    words: &[&str],
    format: Format,
    first: u64,
    extent: Extent,
    count: usize,
    machine: &Machine,
    output: &mut O,
) -> Result<(), Broken> {
    let length = length_of(extent, first, machine);
    if MOST_LENGTH < length {
        return put(
            "the end stands before the start, or more than 67,108,864 bytes behind it\n",
            output,
        );
    }
    let unit = format.unit.unwrap_or(4);
    let bytes = sought_bytes(alloc, session, words, count, unit, machine)?;
    let most = if format.count == 0 {
        PLAIN_COUNT
    } else {
        format.count
    };
    let mut text = String::new(alloc);
    push_found(&mut text, session, &bytes, first, length, most, machine)?;
    put(text.as_str(), output)
}
