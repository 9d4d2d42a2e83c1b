//! The lines of a debugger: where it stopped, one vector register, the lanes of a register, and memory.
ghost use Rattle.std.specs.Prelude.{◌≡◌, ◌<◌, ◌≤◌, ◌+◌, ◌*◌, ◌/◌, ◌^◌, ◌++◌, length};
ghost use Rattle.io_gate.specs.Streams.{HasCause};
ghost use Rattle.io_gate.specs.Pieces.{PutsAll};
ghost use Rattle.emu_bits.specs.Flags.{size_of};
ghost use Rattle.emu_model.specs.Pages.{peeked};
ghost use Rattle.emu_model.specs.Lanes.{read_z};
ghost use Rattle.emu_run.specs.Text.{hex, space};
ghost use Rattle.emu_run.specs.Registers.{lines_of};
ghost use Rattle.dbg_model.specs.Session.{
  behind_steps,
  break_line,
  byte_text,
  lane_text,
  lanes_line,
  length_line,
  memory_line,
  memory_lines,
  p_line,
  size_letter,
  step_line,
  watch_line,
  z_line,
};

use crate::endings::push_address;
use crate::registers::{Kind, push_name, put_line};
use crate::text::Text;
use emu_bits::{Esize, Pred, Reg};
use guest_mem::Mem;
use io_gate::{Failed, Sink};
use vec_regs::VecRegs;

/// The bytes of memory in a line.
const BYTES_IN_LINE: u64 = 16;

/// Puts the line of a machine that took steps, as `step after 1 steps at 0x0000000000400004`.
pub fn put_step<S: Sink>(steps: u64, pc: u64, sink: &mut S) -> Result<(), Failed>
    ensures bytes { PutsAll (S.held sink.old) (S.held sink.new) (step_line steps pc) result }
    ensures cause { HasCause (S.faults sink.old) (S.faults sink.new) result }
{
    let mut text = Text::new();
    text.push(b"step");
    push_behind_steps(&mut text, steps, pc);
    text.put(sink)
}

/// Puts the line of a machine that stopped at a watch, as `watch 0 after 2 steps at 0x0000000000400008`.
pub fn put_watch<S: Sink>(number: u64, steps: u64, pc: u64, sink: &mut S) -> Result<(), Failed>
    ensures bytes { PutsAll (S.held sink.old) (S.held sink.new) (watch_line number steps pc) result }
    ensures cause { HasCause (S.faults sink.old) (S.faults sink.new) result }
{
    let mut text = Text::new();
    text.push(b"watch ");
    text.push_decimal(number);
    push_behind_steps(&mut text, steps, pc);
    text.put(sink)
}

/// Puts the line of a machine that stopped at a break, as `break after 2 steps at 0x0000000000400008`.
pub fn put_break<S: Sink>(steps: u64, pc: u64, sink: &mut S) -> Result<(), Failed>
    ensures bytes { PutsAll (S.held sink.old) (S.held sink.new) (break_line steps pc) result }
    ensures cause { HasCause (S.faults sink.old) (S.faults sink.new) result }
{
    let mut text = Text::new();
    text.push(b"break");
    push_behind_steps(&mut text, steps, pc);
    text.put(sink)
}

/// Puts the line of the present and the starting vector length in bits, as `vl 128 of 256`.
pub fn put_length<S: Sink>(vec: &VecRegs, sink: &mut S) -> Result<(), Failed>
    ensures bytes { PutsAll (S.held sink.old) (S.held sink.new) (length_line vec.now) result }
    ensures cause { HasCause (S.faults sink.old) (S.faults sink.new) result }
{
    let mut text = Text::new();
    text.push(b"vl ");
    text.push_decimal(u64::from(vec.length().bits()));
    text.push(b" of ");
    text.push_decimal(u64::from(vec.most().bits()));
    text.push(b"\n");
    text.put(sink)
}

/// Puts the line of a Z register, as in the lines of all registers.
pub fn put_zreg<S: Sink>(k: Reg, vec: &VecRegs, sink: &mut S) -> Result<(), Failed>
    ensures bytes { PutsAll (S.held sink.old) (S.held sink.new) (z_line vec.now k) result }
    ensures cause { HasCause (S.faults sink.old) (S.faults sink.new) result }
{
    put_line(Kind::Z, k.get(), vec, sink)
}

/// Puts the line of a predicate register, as in the lines of all registers.
pub fn put_preg<S: Sink>(k: Pred, vec: &VecRegs, sink: &mut S) -> Result<(), Failed>
    ensures bytes { PutsAll (S.held sink.old) (S.held sink.new) (p_line vec.now k) result }
    ensures cause { HasCause (S.faults sink.old) (S.faults sink.new) result }
{
    put_line(Kind::P, k.get(), vec, sink)
}

/// Puts the lanes of a Z register in hexadecimal, lane 0 first, as `z1.s 00000000 00000040 00000080 000000c0`.
pub fn put_lanes<S: Sink>(k: Reg, size: Esize, vec: &VecRegs, sink: &mut S) -> Result<(), Failed>
    ensures bytes { PutsAll (S.held sink.old) (S.held sink.new) (lanes_line vec.now k size) result }
    ensures cause { HasCause (S.faults sink.old) (S.faults sink.new) result }
{
    let mut text = Text::new();
    push_name(&mut text, b"z", k.get());
    text.push(b".");
    text.push(size_letter(size).as_bytes());
    push_lanes(&mut text, k, size, vec);
    text.push(b"\n");
    text.put(sink)
}

/// Puts `count` bytes of memory from an address on in lines of 16 bytes, of which the last may be shorter, as
/// `0x0000000000400000: e0 00 80 d2`. A byte whose page isn't mapped is `--`.
pub fn put_memory<S: Sink>(address: u64, count: u64, mem: &Mem, sink: &mut S) -> Result<(), Failed>
    requires { address + count ≤ 2 ^ 63 }
    ensures bytes { PutsAll (S.held sink.old) (S.held sink.new) (memory_lines mem.now.memory address count) result }
    ensures cause { HasCause (S.faults sink.old) (S.faults sink.new) result }
{
    let lines = (count + 15) / BYTES_IN_LINE;
    'lines: for k in 0..lines {
        let place = BYTES_IN_LINE * k;
        put_memory_line(address + place, BYTES_IN_LINE.min(count - place), mem, sink)?;
    }
    Ok(())
}

/// Puts one line of at most 16 bytes.
fn put_memory_line<S: Sink>(address: u64, count: u64, mem: &Mem, sink: &mut S) -> Result<(), Failed>
    requires few { count ≤ 16 }
    requires within { address + count ≤ 2 ^ 63 }
    ensures bytes { PutsAll (S.held sink.old) (S.held sink.new) (memory_line mem.now.memory address count) result }
    ensures cause { HasCause (S.faults sink.old) (S.faults sink.new) result }
{
    let mut text = Text::new();
    push_address(&mut text, address);
    text.push(b":");
    push_bytes(&mut text, address, count, mem);
    text.push(b"\n");
    text.put(sink)
}

/// Appends the bytes of a line.
fn push_bytes(text: &mut Text, address: u64, count: u64, mem: &Mem)
    requires few { count ≤ 16 }
    requires within { address + count ≤ 2 ^ 63 }
    requires room { length text.old ≤ 100 }
    ensures text { text.new ≡ text.old ++ lines_of count (λ k. byte_text (peeked mem.now.memory (address + k))) }
    ensures len { length text.new ≤ length text.old + 48 }
{
    'bytes: for k in 0..count {
        push_byte(text, mem.peek(address + k));
    }
}

/// Appends a byte, or what stands for one that isn't mapped.
fn push_byte(text: &mut Text, byte: Option<u8>)
    requires { length text.old ≤ 200 }
    ensures text { text.new ≡ text.old ++ byte_text byte }
    ensures len { length text.new ≡ length text.old + 3 }
{
    match byte {
        None => text.push(b" --"),
        Some(byte) => push_digits(text, u64::from(byte), 2),
    }
}

/// Appends the lanes of a Z register.
fn push_lanes(text: &mut Text, k: Reg, size: Esize, vec: &VecRegs)
    requires { length text.old ≤ 100 }
    ensures text { text.new
        ≡ text.old ++ lines_of (vec.now.bits / size_of size) (lane_text (size_of size) (read_z vec.now k)) }
    ensures len { length text.new ≤ length text.old + 768 }
{
    let bits = size.bits();
    let count = vec.length().bits() / bits;
    'lanes: for lane in 0..count {
        push_digits(text, vec.lane(k, bits, lane), bits / 4);
    }
}

/// Appends a space and so many hexadecimal digits of a number.
fn push_digits(text: &mut Text, v: u64, digits: u32)
    requires few { digits ≤ 16 }
    requires room { length text.old ≤ 1000 }
    ensures text { text.new ≡ text.old ++ (space ++ hex digits v) }
    ensures len { length text.new ≡ length text.old + digits + 1 }
{
    text.push(b" ");
    text.push_hex(v, digits);
}

/// Appends ` after N steps at 0xPC` and a newline.
fn push_behind_steps(text: &mut Text, steps: u64, pc: u64)
    requires { length text.old ≤ 100 }
    ensures { text.new ≡ text.old ++ behind_steps steps pc }
{
    text.push(b" after ");
    text.push_decimal(steps);
    text.push(b" steps at ");
    push_address(text, pc);
    text.push(b"\n");
}

/// The letter of a lane's size.
fn size_letter(size: Esize) -> &'static str
    ensures letter { result.now ≡ size_letter size }
    ensures short { length result.now ≡ 1 }
{
    match size {
        Esize::B => "b",
        Esize::H => "h",
        Esize::S => "s",
        Esize::D => "d",
    }
}
