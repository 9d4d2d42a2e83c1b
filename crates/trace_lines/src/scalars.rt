//! The scalar registers that a step changed.
ghost use Rattle.std.specs.Prelude.{◌≡◌, ◌≤◌, ◌<◌, ◌+◌, length, if◌then◌else◌, [], OnOk};
ghost use Rattle.io_gate.specs.Pieces.{PutsAll};
ghost use Rattle.io_gate.specs.Streams.{HasCause};
ghost use Rattle.emu_bits.specs.Fields.{bit};
ghost use Rattle.emu_run.specs.Registers.{lines_of};
ghost use Rattle.trace_lines.specs.Lines.{
  flag_number,
  flags_change,
  length_change,
  scalar_changes,
  word_change,
  x_change,
  HasGained,
};

use core_regs::Core;
use emu_bits::{Flags, Reg};
use emu_report::Text;
use io_gate::{Failed, Sink};
use trace_options::Shown;

/// Puts `xK`, where it has changed.
fn put_x<S: Sink>(k: u32, old: &Core, new: &Core, sink: &mut S) -> Result<(), Failed>
    requires { k < 31 }
    ensures bytes { PutsAll (S.held sink.old) (S.held sink.new) (x_change old.now new.now k) result }
    ensures cause { HasCause (S.faults sink.old) (S.faults sink.new) result }
{
    let value = new.x(Reg::at(k, 0));
    if old.x(Reg::at(k, 0)) == value {
        return Ok(());
    }
    let mut text = Text::new();
    text.push(b" | x");
    text.push_decimal(u64::from(k));
    text.push(b" ");
    text.push_hex(value, 16);
    text.put(sink)
}

/// Puts those of `x0` to `x30` that have changed, where they are told.
fn put_xs<S: Sink>(told: bool, old: &Core, new: &Core, sink: &mut S) -> Result<(), Failed>
    ensures bytes { OnOk result (HasGained (S.held sink.old) (S.held sink.new)
        (if told then lines_of 31 (x_change old.now new.now) else [])) }
    ensures cause { HasCause (S.faults sink.old) (S.faults sink.new) result }
{
    if !told {
        return Ok(());
    }
    'registers: for k in 0..31 {
        put_x(k, old, new, sink)?;
    }
    Ok(())
}

/// Puts a register of 64 bits with a name of at most 16 bytes, where it is told and has changed.
fn put_word<S: Sink>(
    told: bool,
    name: &[u8],
    old: u64,
    new: u64,
    sink: &mut S,
) -> Result<(), Failed>
    requires { length name.now ≤ 16 }
    ensures bytes { PutsAll (S.held sink.old) (S.held sink.new)
        (if told then word_change name.now old new else []) result }
    ensures cause { HasCause (S.faults sink.old) (S.faults sink.new) result }
{
    if !told || old == new {
        return Ok(());
    }
    let mut text = Text::new();
    text.push(b" | ");
    text.push(name);
    text.push(b" ");
    text.push_hex(new, 16);
    text.put(sink)
}

/// A flag as a digit.
fn digit(set: bool) -> u8
    ensures value { result ≡ bit set }
    ensures small { result ≤ 1 }
{
    if set { 1 } else { 0 }
}

/// The condition flags as a number of four bits, N the highest.
fn flag_number(flags: Flags) -> u8
    ensures { result ≡ flag_number flags }
{
    8 * digit(flags.n) + 4 * digit(flags.z) + 2 * digit(flags.c) + digit(flags.v)
}

/// Puts the condition flags, where they are told and have changed.
fn put_flags<S: Sink>(told: bool, old: Flags, new: Flags, sink: &mut S) -> Result<(), Failed>
    ensures bytes { PutsAll (S.held sink.old) (S.held sink.new)
        (if told then flags_change old new else []) result }
    ensures cause { HasCause (S.faults sink.old) (S.faults sink.new) result }
{
    if !told || flag_number(old) == flag_number(new) {
        return Ok(());
    }
    let mut text = Text::new();
    text.push(b" | nzcv ");
    text.push(&[
        b'0' + digit(new.n),
        b'0' + digit(new.z),
        b'0' + digit(new.c),
        b'0' + digit(new.v),
    ]);
    text.put(sink)
}

/// Puts the vector length in bits, where it is told and has changed.
pub fn put_length<S: Sink>(told: bool, old: u32, new: u32, sink: &mut S) -> Result<(), Failed>
    ensures bytes { PutsAll (S.held sink.old) (S.held sink.new)
        (if told then length_change old new else []) result }
    ensures cause { HasCause (S.faults sink.old) (S.faults sink.new) result }
{
    if !told || old == new {
        return Ok(());
    }
    let mut text = Text::new();
    text.push(b" | vl ");
    text.push_decimal(u64::from(new));
    text.put(sink)
}

/// Puts the scalar registers that have changed, but for PC.
pub fn put_scalars<S: Sink>(
    shown: &Shown,
    old: &Core,
    new: &Core,
    sink: &mut S,
) -> Result<(), Failed>
    ensures bytes { OnOk result (HasGained (S.held sink.old) (S.held sink.new)
        (scalar_changes shown.now old.now new.now)) }
    ensures cause { HasCause (S.faults sink.old) (S.faults sink.new) result }
{
    put_xs(shown.x, old, new, sink)?;
    put_word(
        shown.sp,
        b"sp",
        old.x_sp(Reg::at(31, 0)),
        new.x_sp(Reg::at(31, 0)),
        sink,
    )?;
    put_flags(shown.nzcv, old.flags(), new.flags(), sink)?;
    put_word(shown.tpidr, b"tpidr", old.tpidr(), new.tpidr(), sink)?;
    Ok(())
}
