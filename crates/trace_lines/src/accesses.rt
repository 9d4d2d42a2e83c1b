//! The elements that a step loaded and stored.
ghost use Rattle.std.specs.Prelude.{◌≡◌, ◌≤◌, ◌+◌, ◌*◌, ◌++◌, length, if◌then◌else◌, [], OnOk};
ghost use Rattle.io_gate.specs.Pieces.{PutsAll};
ghost use Rattle.io_gate.specs.Streams.{HasCause};
ghost use Rattle.trace_lines.specs.Lines.{access_text, access_texts, byte_text, kind_text, value_text, HasGained};

use emu_report::Text;
use guest_mem::{Access, Mem};
use io_gate::{Failed, Sink};

/// The most bytes of an access that are told; an element has no more than 16.
const TOLD: u32 = 64;

/// Appends two digits of a byte, or what stands for one that isn't mapped.
fn push_byte(text: &mut Text, byte: Option<u8>)
    requires { length text.old + 2 ≤ 2048 }
    ensures text { text.new ≡ text.old ++ byte_text byte }
    ensures len { length text.new ≡ length text.old + 2 }
{
    match byte {
        None => text.push(b"--"),
        Some(byte) => text.push_hex(u64::from(byte), 2),
    }
}

/// Appends the bytes from an address on, the last first.
fn push_value(text: &mut Text, mem: &Mem, address: u64, count: u32)
    requires { length text.old + 2 * count ≤ 2048 }
    ensures { text.new ≡ text.old ++ value_text mem.now.memory address count }
{
    if count == 0 {
        return;
    }
    push_byte(text, mem.peek(address.wrapping_add(u64::from(count - 1))));
    push_value(text, mem, address, count - 1);
}

/// What an access is called.
fn kind_text(write: bool) -> &'static str
    ensures text { result.now ≡ kind_text write }
    ensures short { length result.now ≤ 10 }
{
    if write { " | store " } else { " | load " }
}

/// The memory that has the value of an element: that before the step where it was loaded, and behind it where it was
/// stored.
fn memory_of<'a>(write: bool, old: &'a Mem, new: &'a Mem) -> &'a Mem
    ensures { result.now.memory ≡ (if write then new.now.memory else old.now.memory) }
{
    if write { new } else { old }
}

/// Puts an element that was loaded or stored, with its value: that in memory before the step where it was loaded, and
/// behind it where it was stored.
fn put_access<S: Sink>(access: &Access, old: &Mem, new: &Mem, sink: &mut S) -> Result<(), Failed>
    ensures bytes { PutsAll (S.held sink.old) (S.held sink.new)
        (access_text old.now.memory new.now.memory access.now) result }
    ensures cause { HasCause (S.faults sink.old) (S.faults sink.new) result }
{
    let mut text = Text::new();
    text.push(kind_text(access.write).as_bytes());
    text.push_hex(access.address, 16);
    text.push(b" ");
    text.push_decimal(u64::from(access.bytes));
    text.push(b" ");
    let mem = memory_of(access.write, old, new);
    push_value(&mut text, mem, access.address, TOLD.min(access.bytes));
    text.put(sink)
}

/// Puts the elements that were loaded and stored, in order, where they are told.
pub fn put_accesses<S: Sink>(
    told: bool,
    accesses: &[Access],
    old: &Mem,
    new: &Mem,
    sink: &mut S,
) -> Result<(), Failed>
    ensures bytes { OnOk result (HasGained (S.held sink.old) (S.held sink.new)
        (if told then access_texts old.now.memory new.now.memory accesses.now else [])) }
    ensures cause { HasCause (S.faults sink.old) (S.faults sink.new) result }
{
    if !told {
        return Ok(());
    }
    'accesses: for access in accesses {
        put_access(access, old, new, sink)?;
    }
    Ok(())
}
