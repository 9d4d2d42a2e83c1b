//! Memory over the mapped pages: loads, stores and slices, which may go across pages.
use crate::commands::Words;
use guest_mem::{Denied, Kind, Mem};

/// What a line about memory answers.
#[derive(Clone, Copy, Debug)]
pub enum Reply {
    /// A little-endian number.
    Loaded(u64),
    Stored,
    /// The address of the first byte that may not be accessed so.
    Denied(u64, Kind),
    /// A byte, where its page is mapped.
    Peeked(Option<u8>),
    /// How many bytes a slice has, where its page may be accessed.
    Slice(Option<usize>),
    /// No call may be made with these numbers.
    OutOfRange,
}

/// The kind of access of a word.
fn kind_of(word: &str) -> Kind {
    match word {
        "fetch" => Kind::Fetch,
        "write" => Kind::Write,
        _ => Kind::Read,
    }
}

fn denied(denied: Denied) -> Reply {
    Reply::Denied(denied.address, denied.kind)
}

/// Loads a number of so many bytes, of which the low 64 bits are answered.
fn load(memory: &mut Mem, address: u64, count: u64, kind: Kind) -> Reply {
    if count < 1 || count > 16 {
        return Reply::OutOfRange;
    }
    match memory.load(address, count as u32, kind) {
        Ok(value) => Reply::Loaded((value % (1 << 64)) as u64),
        Err(fault) => denied(fault),
    }
}

/// Stores a number in so many bytes.
fn put(memory: &mut Mem, address: u64, count: u64, value: u64) -> Reply {
    if count < 1 || count > 16 {
        return Reply::OutOfRange;
    }
    match memory.store(address, count as u32, u128::from(value)) {
        Ok(()) => Reply::Stored,
        Err(fault) => denied(fault),
    }
}

/// Fills a slice that is lent for writing.
fn fill(memory: &mut Mem, address: u64, most: u64, byte: u64) -> Reply {
    Reply::Slice(match memory.slice_mut_at(address, most as usize) {
        None => None,
        Some(bytes) => {
            bytes.fill((byte % 256) as u8);
            Some(bytes.len())
        }
    })
}

/// How many bytes there are in a slice that is lent for reading or fetching.
fn slice(memory: &mut Mem, address: u64, most: u64, kind: Kind) -> Reply {
    Reply::Slice(match memory.slice_at(address, most as usize, kind) {
        None => None,
        Some(bytes) => Some(bytes.len()),
    })
}

/// What a line about memory answers, or none where it isn't one.
pub fn reply_of(memory: &mut Mem, words: &Words) -> Option<Reply> {
    let [address, count, last, _] = words.numbers;
    match words.name {
        "load" => Some(load(memory, address, count, kind_of(words.third))),
        "put" => Some(put(memory, address, count, last)),
        "peek" => Some(Reply::Peeked(memory.peek(address))),
        "slice" => Some(slice(memory, address, count, kind_of(words.third))),
        "fill" => Some(fill(memory, address, count, last)),
        _ => None,
    }
}
