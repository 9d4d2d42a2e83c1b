//! Lists of ranges of the guest's bytes, and the bytes that go from there to a sink and from a source there.
ghost use Rattle.std.specs.Prelude.{◌≡◌, ◌≤◌, min, length, not, false, IfOk, IfSome};
ghost use Rattle.std.specs.List.{list_any};
ghost use Rattle.io_gate.specs.Streams.{HasCause};
ghost use Rattle.io_gate.specs.Pieces.{PutsAll};
ghost use Rattle.emu_system.specs.SystemCall.{with_ranges, range_bytes, is_denied, total};
ghost use Rattle.linux_calls.specs.Taken.{Took};

use crate::ranges::{is_allowed, put_range, take_range};
use emu_model::Kind;
use emu_system::Range;
use guest_mem::Mem;
use io_gate::{Failed, Sink, Source};

/// Whether each byte of each range has a right.
pub fn are_allowed(mem: &mut Mem, ranges: &[Range], kind: Kind) -> bool
    requires { total ranges.now ≤ 0x7FFFF000 }
    ensures answer { result ≡ not (list_any (is_denied mem.old.memory kind) ranges.now) }
    ensures unchanged { mem.new ≡ mem.old }
{
    for range in ranges {
        if !is_allowed(mem, range.address, range.length as usize, kind) {
            return false;
        }
    }
    true
}

/// Puts the bytes of ranges one after the other.
pub fn put_ranges<S: Sink>(mem: &mut Mem, ranges: &[Range], sink: &mut S) -> Result<(), Failed>
    requires few { total ranges.now ≤ 0x7FFFF000 }
    requires readable { list_any (is_denied mem.old.memory Kind.Read) ranges.now ≡ false }
    ensures bytes { PutsAll (S.held sink.old) (S.held sink.new) (range_bytes mem.old.memory ranges.now) result }
    ensures cause { HasCause (S.faults sink.old) (S.faults sink.new) result }
    ensures unchanged { mem.new ≡ mem.old }
{
    for range in ranges {
        put_range(mem, range.address, range.length as usize, sink)?;
    }
    Ok(())
}

/// Takes bytes to ranges one after the other, until they are full or nothing is left, and answers how many there were.
pub fn take_ranges<S: Source>(
    mem: &mut Mem,
    ranges: &[Range],
    source: &mut S,
) -> Result<u64, Failed>
    requires few { total ranges.now ≤ 0x7FFFF000 }
    requires writable { list_any (is_denied mem.old.memory Kind.Write) ranges.now ≡ false }
    ensures took { Took (total ranges.now) (with_ranges mem.old.memory ranges.now) mem.new.memory (S.left source.old)
        (S.left source.new) result }
    ensures all { IfOk result (λ n. IfSome (S.left source.old) (λ bytes. n ≡ min (total ranges.now) (length bytes))) }
    ensures marks { mem.new.marks ≡ mem.old.marks }
    ensures cause { HasCause (S.faults source.old) (S.faults source.new) result }
{
    let mut count = 0;
    for range in ranges {
        let n = take_range(mem, range.address, range.length as usize, source)? as u64;
        count += n;
        if n < range.length {
            return Ok(count);
        }
    }
    Ok(count)
}
