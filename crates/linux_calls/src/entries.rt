//! The ranges whose addresses and lengths stand in the guest's memory.
ghost use Rattle.std.specs.Prelude.{◌≡◌, ◌≤◌, ◌*◌, [], List, IfErr, OnOk, None, length};
ghost use Rattle.std.specs.List.{list_any};
ghost use Rattle.emu_model.specs.Access.{refused, value};
ghost use Rattle.emu_system.specs.SystemCall as model;
ghost use Rattle.linux_calls.specs.Granted.{AreGranted};

use crate::arguments::argument;
use crate::buffer::MOST_BYTES;
use crate::moves::are_allowed;
use crate::ranges::is_allowed;
use arrayvec::ArrayVec;
use core_regs::Core;
use emu_model::Kind;
use emu_system::{Errno, Range};
use guest_mem::Mem;

/// The most ranges of one call.
pub const MOST_RANGES: usize = 1024;

/// The ranges of one call.
pub type Ranges = ArrayVec<Range, MOST_RANGES>;

/// The ranges (file, address, count) of a call that needs a right to their bytes, as they stand there, each cut to the
/// most bytes of one call.
pub fn read_vector(core: &Core, mem: &mut Mem, kind: Kind, ranges: &mut Ranges) -> Result<(), Errno>
    requires { ranges.old.items ≡ [] }
    ensures refused { IfErr result (λ error. (moves : List Range → model.Action)
        → model.with_vector kind moves core.now mem.old.memory ≡ model.fails error) }
    ensures ranges { OnOk result ((moves : List Range → model.Action)
        → model.with_vector kind moves core.now mem.old.memory ≡ moves ranges.new.items) }
    ensures granted { OnOk result (AreGranted mem.old.memory kind ranges.new.items) }
    ensures unchanged { mem.new ≡ mem.old }
{
    let count = argument(core, 2);
    if count > MOST_RANGES as u64 {
        return Err(Errno::EINVAL);
    }
    let at = argument(core, 1);
    if !is_allowed(mem, at, 16 * count as usize, Kind::Read) {
        return Err(Errno::EFAULT);
    }
    read_entries(mem, at, count as usize, ranges);
    cut_entries(mem, kind, ranges)
}

/// Appends `count` entries from an address on: an address and a length in 8 bytes each.
fn read_entries(mem: &mut Mem, at: u64, count: usize, ranges: &mut Ranges)
    requires few { count ≤ 1024 }
    requires none { ranges.old.items ≡ [] }
    requires readable { refused mem.old.memory at (16 * count) Kind.Read ≡ None }
    ensures entries { ranges.new.items ≡ model.entries mem.old.memory at count }
    ensures unchanged { mem.new ≡ mem.old }
{
    for k in 0..count {
        let entry = at.wrapping_add(16 * k as u64);
        let address = load(mem, entry);
        let length = load(mem, entry.wrapping_add(8));
        ranges.push(Range { address, length });
    }
}

/// The number in 8 bytes that may be read.
fn load(mem: &mut Mem, address: u64) -> u64
    requires { refused mem.old.memory address 8 Kind.Read ≡ None }
    ensures value { result ≡ value mem.old.memory address 8 }
    ensures unchanged { mem.new ≡ mem.old }
{
    match mem.load(address, 8, Kind::Read) {
        Ok(value) => value as u64,
        Err(_) => unreachable!(),
    }
}

/// Cuts ranges to the most bytes of one call, and tests them.
fn cut_entries(mem: &mut Mem, kind: Kind, ranges: &mut Ranges) -> Result<(), Errno>
    ensures refused { IfErr result (λ error. (moves : List Range → model.Action)
        → model.with_entries kind moves ranges.old.items mem.old.memory ≡ model.fails error) }
    ensures ranges { OnOk result ((moves : List Range → model.Action)
        → model.with_entries kind moves ranges.old.items mem.old.memory ≡ moves ranges.new.items) }
    ensures granted { OnOk result (AreGranted mem.old.memory kind ranges.new.items) }
    ensures unchanged { mem.new ≡ mem.old }
{
    if is_any_too_long(ranges.as_slice()) {
        return Err(Errno::EINVAL);
    }
    cut(ranges.as_mut_slice());
    if !are_allowed(mem, ranges.as_slice(), kind) {
        return Err(Errno::EFAULT);
    }
    Ok(())
}

/// Whether a range has 2^63 bytes or more.
fn is_any_too_long(ranges: &[Range]) -> bool
    ensures { result ≡ list_any model.is_too_long ranges.now }
{
    ranges.iter().any(|range| range.length >= 1 << 63)
}

/// Cuts each length, in order, to what those before it leave of the most bytes of one call.
fn cut(ranges: &mut [Range])
    ensures cut { ranges.new ≡ model.cut_to model.most_bytes ranges.old }
    ensures few { model.total ranges.new ≤ model.most_bytes }
{
    let mut left = MOST_BYTES;
    for range in ranges.iter_mut() {
        range.length = range.length.min(left);
        left -= range.length;
    }
}
