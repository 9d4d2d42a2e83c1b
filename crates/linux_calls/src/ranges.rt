//! Ranges of the guest's bytes: whether they have a right, and the bytes that go from there to a sink and from a source
//! there.
ghost use Rattle.std.specs.Prelude.{◌≡◌, ◌<◌, ◌≤◌, min, length, None, is_none, true, IfOk, IfSome};
ghost use Rattle.io_gate.specs.Streams.{HasCause, TakesSome};
ghost use Rattle.io_gate.specs.Pieces.{PutsAll};
ghost use Rattle.emu_model.specs.Access.{allowed, refused};
ghost use Rattle.emu_model.specs.Pages.{bytes_at, with_bytes};
ghost use Rattle.emu_model.specs.SoundState.{AreBytes};
ghost use Rattle.guest_mem.specs.Slices.{to_page_end};
ghost use Rattle.linux_calls.specs.Taken.{Took};

use emu_model::Kind;
use guest_mem::Mem;
use io_gate::{Failed, Sink, Source, put_all};

/// Whether each of `count` bytes from an address on has a right.
pub fn is_allowed(mem: &mut Mem, address: u64, count: usize, kind: Kind) -> bool
    requires { count ≤ 0x7FFFF000 }
    ensures answer { result ≡ is_none (refused mem.old.memory address count kind) }
    ensures unchanged { mem.new ≡ mem.old }
{
    let mut at: usize = 0;
    while at < count {
        match mem.slice_at(address.wrapping_add(at as u64), count - at, kind) {
            None => return false,
            Some(piece) => at += piece.len(),
        }
    }
    true
}

/// Puts `count` bytes from an address on, piece by piece as they stand in the pages.
pub fn put_range<S: Sink>(
    mem: &mut Mem,
    address: u64,
    count: usize,
    sink: &mut S,
) -> Result<(), Failed>
    requires few { count ≤ 0x7FFFF000 }
    requires readable { refused mem.old.memory address count Kind.Read ≡ None }
    ensures bytes { PutsAll (S.held sink.old) (S.held sink.new) (bytes_at mem.old.memory address count) result }
    ensures cause { HasCause (S.faults sink.old) (S.faults sink.new) result }
    ensures unchanged { mem.new ≡ mem.old }
{
    let mut at: usize = 0;
    while at < count {
        match mem.slice_at(address.wrapping_add(at as u64), count - at, Kind::Read) {
            None => return Ok(()),
            Some(piece) => {
                put_all(sink, piece)?;
                at += piece.len();
            }
        }
    }
    Ok(())
}

/// The same slice; its clause says that each of its values is a byte.
fn told_bytes(bytes: &[u8]) -> &[u8]
    ensures same { result.now ≡ bytes.now }
    ensures bytes { AreBytes bytes.now }
{
    bytes
}

/// Takes bytes to an address, by one call: at most `most`, and not beyond the end of its page.
fn take_piece<S: Source>(
    mem: &mut Mem,
    address: u64,
    most: usize,
    source: &mut S,
) -> Result<usize, Failed>
    requires some { 0 < most }
    requires writable { allowed mem.old.memory Kind.Write address ≡ true }
    ensures took { Took (to_page_end address most) (with_bytes mem.old.memory address) mem.new.memory
        (S.left source.old) (S.left source.new) result }
    ensures some { TakesSome (S.left source.old) result }
    ensures marks { mem.new.marks ≡ mem.old.marks }
    ensures cause { HasCause (S.faults source.old) (S.faults source.new) result }
{
    let mut spare = 0;
    let piece = mem.writable(address, most, &mut spare);
    let taken = source.take(piece);
    // for its clause
    let _bytes = told_bytes(piece);
    taken
}

/// Takes bytes to an address, by as many calls as it takes, until there are `count` or nothing is left.
pub fn take_range<S: Source>(
    mem: &mut Mem,
    address: u64,
    count: usize,
    source: &mut S,
) -> Result<usize, Failed>
    requires few { count ≤ 0x7FFFF000 }
    requires writable { refused mem.old.memory address count Kind.Write ≡ None }
    ensures took { Took count (with_bytes mem.old.memory address) mem.new.memory
        (S.left source.old) (S.left source.new) result }
    ensures all { IfOk result (λ n. IfSome (S.left source.old) (λ bytes. n ≡ min count (length bytes))) }
    ensures marks { mem.new.marks ≡ mem.old.marks }
    ensures cause { HasCause (S.faults source.old) (S.faults source.new) result }
{
    let mut at: usize = 0;
    while at < count {
        let n = take_piece(mem, address.wrapping_add(at as u64), count - at, source)?;
        if n == 0 {
            return Ok(at);
        }
        at += n;
    }
    Ok(at)
}
