//! The commands, and the lines that say them.
ghost use Rattle.std.specs.Prelude.{◌≤◌, ◌+◌, ◌^◌, ◌↔◌, IsTrue};
ghost use Rattle.emu_model.specs.Access.{page_size};

use emu_model::{PAGE_BYTES, Rights};

/// A command, with pages and places that it may name.
#[derive(Clone, Copy)]
pub enum Command {
    Map(u64, u64, Rights),
    Unmap(u64, u64),
    Protect(u64, u64, Rights),
    /// Replaces bytes of a page from a place on: so many, the first of which is this one.
    Write(u64, usize, usize, u8),
    Store(u64, usize, usize, u8),
    /// Replaces a byte of a page by one, through the bytes of the page that are lent.
    Lend(u64, usize, u8),
    /// Replaces bytes as `Write` does, through those bytes of the page that are lent.
    Part(u64, usize, usize, u8),
    Find(u64),
    Seek(u64),
    Free(u64, u64),
    Mapped,
}

/// The rights of a number: 4 for r, 2 for w and 1 for x.
fn rights_of(number: u64) -> Rights {
    Rights {
        r: number & 4 != 0,
        w: number & 2 != 0,
        x: number & 1 != 0,
    }
}

/// The first word of a line, and the four behind it: their numbers, and the third of them as it stands.
#[derive(Clone, Copy)]
pub struct Words<'a> {
    pub name: &'a str,
    pub numbers: [u64; 4],
    pub third: &'a str,
}

/// The words of a line, empty where they aren't there.
pub fn words_of(line: &str) -> Words<'_> {
    let mut words = line.split(' ');
    let name = words.next().unwrap_or("");
    let first = number(words.next().unwrap_or(""));
    let second = number(words.next().unwrap_or(""));
    let third = words.next().unwrap_or("");
    let last = number(words.next().unwrap_or(""));
    Words {
        name,
        numbers: [first, second, number(third), last],
        third,
    }
}

/// The number that a word says, decimal or hexadecimal behind `0x`; 0 where it is none.
fn number(word: &str) -> u64 {
    let found = match word.strip_prefix("0x") {
        Some(digits) => u64::from_str_radix(digits, 16),
        None => u64::from_str_radix(word, 10),
    };
    found.unwrap_or(0)
}

/// The command of a line.
pub fn command_of(words: &Words) -> Option<Command> {
    let [a, b, c, d] = words.numbers;
    match words.name {
        "map" => Some(Command::Map(a, b, rights_of(c))),
        "unmap" => Some(Command::Unmap(a, b)),
        "protect" => Some(Command::Protect(a, b, rights_of(c))),
        "write" => Some(Command::Write(a, b as usize, c as usize, (d % 256) as u8)),
        "store" => Some(Command::Store(a, b as usize, c as usize, (d % 256) as u8)),
        "lend" => Some(Command::Lend(a, b as usize, (c % 256) as u8)),
        "part" => Some(Command::Part(a, b as usize, c as usize, (d % 256) as u8)),
        "find" => Some(Command::Find(a)),
        "seek" => Some(Command::Seek(a)),
        "free" => Some(Command::Free(a, b)),
        "mapped" => Some(Command::Mapped),
        _ => None,
    }
}

/// The number of pages of the address space of 48 bits, halved.
const END: u64 = 1 << 35;

/// Whether `count` pages from page `first` on end within the address space.
pub fn are_pages(first: u64, count: u64) -> bool
    ensures { IsTrue result ↔ first + count ≤ 2 ^ 35 }
{
    first <= END && count <= END - first
}

/// Whether `count` bytes from place `at` on end within a page.
pub fn are_places(at: usize, count: usize) -> bool
    ensures { IsTrue result ↔ at + count ≤ page_size }
{
    at <= PAGE_BYTES && count <= PAGE_BYTES - at
}

/// Bytes that follow one another, modulo 256.
pub fn row_from(first: u8) -> [u8; PAGE_BYTES] {
    let mut row = [0u8; PAGE_BYTES];
    for (place, byte) in row.iter_mut().enumerate() {
        *byte = first.wrapping_add((place % 256) as u8);
    }
    row
}
