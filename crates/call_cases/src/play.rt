//! A case: its memory and its streams, and the items of its line one after the other.
ghost use Rattle.std.specs.Prelude.{◌≤◌, IsTrue};
ghost use Rattle.emu_model.specs.SoundState.{IsSoundBreak};

use crate::items::{
    are_text, at, byte_of, bytes_of, end_of, find, find_number, find_small, is_number, number,
    numbers,
};
use crate::registers::{General, MONITOR, are_same, core_of, distinct, is_core, vectors_of};
use emu_model::{Break, Length, PAGE_BYTES, PAGE_SIZE};
use guest_mem::Mem;
use guest_pages::{MapFault, Pages, Rights};
use io_gate::{MemSink, MemSource};
use linux_calls::{CallEnd, call};
use std::alloc::Global;

/// The numbers of the pages of code and of data, and of the first of the 256 pages of the stack.
const CODE: u64 = 0x400;

const DATA: u64 = 0x401;

const STACK: u64 = 0x7_FFFF_FEFF;

/// The number of prctl, which alone may change the vector length.
const PRCTL: u64 = 167;

/// The lengths, the memory, the break and the streams of a case.
#[derive(Drop)]
struct Play {
    /// The starting vector length, and the present one.
    most: Length,
    length: Length,
    memory: Mem,
    brk: Break,
    input: MemSource,
    output: MemSink,
    errors: MemSink,
    /// Whether a call has ended the program.
    has_ended: bool,
}

/// The first item of a case that isn't as the line has it, or the line where an item isn't in its form or memory is
/// wanting.
pub fn difference(alloc: Global, line: &str) -> Option<&str> {
    let mut is_well = true;
    let Some(mut play) = Play::of(alloc, line, &mut is_well) else {
        return Some(line);
    };
    if !is_well {
        return Some(line);
    }
    for item in line.split(' ') {
        if !play.meets(item) {
            return Some(item);
        }
    }
    None
}

/// Whether a line has data.
fn has_data(line: &str) -> bool {
    find(line, "data").is_some() || find(line, "entry").is_some()
}

/// Maps the pages of a case.
fn map_all(pages: &mut Pages, has_data: bool) -> Result<(), MapFault> {
    let code = Rights {
        r: true,
        w: false,
        x: true,
    };
    let data = Rights {
        r: true,
        w: true,
        x: false,
    };
    pages.map(CODE, 1, code)?;
    if has_data {
        pages.map(DATA, 1, data)?;
    }
    pages.map(STACK, 256, data)
}

/// Puts bytes at an address in the page of data. It isn't well where they don't lie within it.
fn put(pages: &mut Pages, address: u64, bytes: &[u8], is_well: &mut bool) {
    let place = (address % PAGE_SIZE) as usize;
    if address / PAGE_SIZE == DATA && bytes.len() <= PAGE_BYTES - place {
        pages.write(DATA, place, bytes);
    } else {
        *is_well = false;
    }
}

/// Puts `ADDRESS:TEXT` into the page of data.
fn put_data(alloc: Global, pages: &mut Pages, value: &str, is_well: &mut bool) {
    let (address, text) = at(value, is_well);
    let bytes = bytes_of(alloc, text, is_well);
    put(pages, address, &bytes, is_well);
}

/// Puts `ADDRESS:BASE,LENGTH` into the page of data.
fn put_entry(pages: &mut Pages, value: &str, is_well: &mut bool) {
    let (address, entry) = at(value, is_well);
    let [base, length, ..] = numbers(entry, is_well);
    put(pages, address, &base.to_le_bytes(), is_well);
    put(
        pages,
        address.wrapping_add(8),
        &length.to_le_bytes(),
        is_well,
    );
}

/// Puts the bytes that a line has.
fn put_all(alloc: Global, pages: &mut Pages, line: &str, is_well: &mut bool) {
    for item in line.split(' ') {
        if let Some(value) = item.strip_prefix("data=") {
            put_data(alloc, pages, value, is_well);
        } else if let Some(value) = item.strip_prefix("entry=") {
            put_entry(pages, value, is_well);
        }
    }
}

/// The memory of a case. None where the host has none for it.
fn memory_of(alloc: Global, line: &str, is_well: &mut bool) -> Option<Mem> {
    let limit = find_small(line, "pages", 16_384, is_well);
    match Pages::new(alloc, limit) {
        Ok(mut pages) => {
            *is_well = *is_well && map_all(&mut pages, has_data(line)).is_ok();
            put_all(alloc, &mut pages, line, is_well);
            Some(Mem::new(pages))
        }
        Err(_) => None,
    }
}

/// The most bytes that a stream moves by one take or put.
fn portion_of(line: &str, is_well: &mut bool) -> usize
    ensures { 1 ≤ result }
{
    let most = find_number(line, "portion", 4096, is_well);
    if most > 0 {
        return most as usize;
    }
    *is_well = false;
    1
}

/// The numbers of the takes and puts of a case that fail.
fn failing(alloc: Global, line: &str, is_well: &mut bool) -> Vec<u64> {
    let mut fails = Vec::new(alloc);
    if let Some(text) = find(line, "fail") {
        let number = number(text, is_well);
        *is_well = *is_well && fails.push(number).is_ok();
    }
    fails
}

/// The input of a case.
fn source_of(alloc: Global, line: &str, is_well: &mut bool) -> MemSource {
    let most = portion_of(line, is_well);
    let bytes = bytes_of(alloc, find(line, "input").unwrap_or(""), is_well);
    MemSource::new(bytes, most, failing(alloc, line, is_well))
}

/// A sink of a case.
fn sink_of(alloc: Global, line: &str, is_well: &mut bool) -> MemSink {
    let most = portion_of(line, is_well);
    MemSink::new(alloc, most, failing(alloc, line, is_well))
}

/// Whether a break is one that a call may be made with.
fn is_sound(brk: Break) -> bool
    ensures { IsTrue result → IsSoundBreak brk }
{
    brk.start != 0
        && brk.start.is_multiple_of(PAGE_SIZE)
        && brk.start <= brk.now
        && brk.now <= 0x7F00_0000_0000
}

/// x0 to x30 before a call, with its number and its arguments, which are 0 where they aren't given.
fn general_of(text: &str, is_well: &mut bool) -> General {
    let [name, x0, x1, x2, x3, x4, x5] = numbers(text, is_well);
    let mut general = distinct();
    general[..6].copy_from_slice(&[x0, x1, x2, x3, x4, x5]);
    general[8] = name;
    general
}

impl Play {
    /// A case before its first call. None where its length is none, or there is no memory for it.
    fn of(alloc: Global, line: &str, is_well: &mut bool) -> Option<Play> {
        let bits = find_small(line, "vl", 128, is_well);
        let memory = memory_of(alloc, line, is_well);
        let input = source_of(alloc, line, is_well);
        let output = sink_of(alloc, line, is_well);
        let errors = sink_of(alloc, line, is_well);
        let start = if has_data(line) { 0x40_2000 } else { 0x40_1000 };
        match (Length::of_bits(bits), memory) {
            (Some(length), Some(memory)) => Some(Play {
                most: length,
                length,
                memory,
                brk: Break { start, now: start },
                input,
                output,
                errors,
                has_ended: false,
            }),
            _ => None,
        }
    }

    /// Whether an item is in its form and as the line has it.
    fn meets(&mut self, item: &str) -> bool {
        let (name, value) = item.split_once('=').unwrap_or((item, ""));
        match name {
            "call" => self.calls(value),
            "vl" | "pages" | "input" | "portion" | "fail" | "data" | "entry" => true,
            _ => self.has(name, value),
        }
    }

    /// Makes a call, and whether it ends so. It doesn't where it isn't in its form, or the program has ended before.
    fn calls(&mut self, value: &str) -> bool {
        let (numbers, end) = value.split_once(':').unwrap_or((value, ""));
        let mut is_well = true;
        let general = general_of(numbers, &mut is_well);
        let (end, answer) = end_of(end, &mut is_well);
        if !is_well || self.has_ended || !is_sound(self.brk) {
            return false;
        }
        self.ends(&general, end, answer)
    }

    /// Makes a call with these registers, and whether it ends so, and x0 is this answer where it returns.
    fn ends(&mut self, general: &General, end: CallEnd, answer: u64) -> bool
        requires { IsSoundBreak self.old.brk }
    {
        let mut core = core_of(general);
        let mut vec = vectors_of(self.most, self.length, false);
        let found = call(
            &mut core,
            &mut vec,
            &mut self.memory,
            &mut self.brk,
            &mut self.input,
            &mut self.output,
            &mut self.errors,
        );
        let returned = found == CallEnd::Returned;
        self.has_ended = !returned;
        let (x0, monitor) = if returned {
            (answer, None)
        } else {
            (general[0], MONITOR)
        };
        if returned && general[8] == PRCTL {
            self.length = vec.length();
        }
        let wanted = vectors_of(self.most, self.length, returned);
        found == end && is_core(&core, general, x0, monitor) && are_same(&vec, &wanted)
    }

    /// Whether the memory and the streams are so.
    fn has(&self, name: &str, value: &str) -> bool {
        match name {
            "mapped" => is_number(value, u64::from(self.memory.pages().mapped())),
            "length" => is_number(value, u64::from(self.length.bits())),
            "output" => are_text(self.output.kept(), value),
            "errors" => are_text(self.errors.kept(), value),
            _ => self.has_at(name, value),
        }
    }

    /// Whether the memory at an address, or its page, is so.
    fn has_at(&self, name: &str, value: &str) -> bool {
        let mut is_well = true;
        let (address, rest) = at(value, &mut is_well);
        let is_so = match name {
            "memory" => self.has_bytes(address, rest),
            "page" => self.has_rights(address, rest),
            _ => false,
        };
        is_well && is_so
    }

    /// Whether the bytes from an address on are those of text.
    fn has_bytes(&self, address: u64, text: &str) -> bool {
        let mut same = true;
        for (k, letter) in (0u64..).zip(text.as_bytes()) {
            let byte = self.memory.peek(address.wrapping_add(k));
            same = same && byte == Some(byte_of(*letter));
        }
        same
    }

    /// Whether the page of an address has the rights of these letters, or isn't mapped for `none`.
    fn has_rights(&self, address: u64, letters: &str) -> bool {
        match self.memory.pages().find(address / PAGE_SIZE) {
            None => letters == "none",
            Some((rights, _)) => {
                let wanted = Rights {
                    r: letters.contains('r'),
                    w: letters.contains('w'),
                    x: letters.contains('x'),
                };
                letters != "none" && rights == wanted
            }
        }
    }
}
