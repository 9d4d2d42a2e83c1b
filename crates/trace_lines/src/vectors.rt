//! The vector registers that a step changed.
ghost use Rattle.std.specs.Prelude.{◌≡◌, ◌≤◌, ◌<◌, ◌/◌, if◌then◌else◌, [], OnOk};
ghost use Rattle.io_gate.specs.Pieces.{PutsAll};
ghost use Rattle.io_gate.specs.Streams.{HasCause};
ghost use Rattle.emu_model.specs.Lanes.{read_p, read_z};
ghost use Rattle.emu_bits.specs.Fields.{bit};
ghost use Rattle.emu_run.specs.Registers.{lines_of};
ghost use Rattle.trace_lines.specs.Lines.{
  ffr_change,
  is_same_ffr,
  is_same_p,
  is_same_z,
  p_change,
  same_bits,
  same_bytes,
  vector_changes,
  z_change,
  HasGained,
};

use crate::scalars::put_length;
use emu_bits::{Pred, Reg};
use emu_report::Text;
use io_gate::{Failed, Sink};
use trace_options::Shown;
use vec_regs::VecRegs;

/// Whether the first bytes of a Z register, so many, are the same.
fn same_bytes(r: Reg, count: u32, old: &VecRegs, new: &VecRegs) -> bool
    requires old { count ≤ old.now.bits / 8 }
    requires new { count ≤ new.now.bits / 8 }
    ensures { result ≡ same_bytes count (read_z old.now r) (read_z new.now r) }
{
    if count == 0 {
        return true;
    }
    let k = count - 1;
    old.z_byte(r, k) == new.z_byte(r, k) && same_bytes(r, k, old, new)
}

/// Whether the first bits of a predicate register, so many, are the same.
fn same_bits(r: Pred, count: u32, old: &VecRegs, new: &VecRegs) -> bool
    requires old { count ≤ old.now.bits / 8 }
    requires new { count ≤ new.now.bits / 8 }
    ensures { result ≡ same_bits count (read_p old.now r) (read_p new.now r) }
{
    if count == 0 {
        return true;
    }
    let k = count - 1;
    digit(old.p_bit(r, k)) == digit(new.p_bit(r, k)) && same_bits(r, k, old, new)
}

/// Whether the first bits of FFR, so many, are the same.
fn same_ffr_bits(count: u32, old: &VecRegs, new: &VecRegs) -> bool
    requires old { count ≤ old.now.bits / 8 }
    requires new { count ≤ new.now.bits / 8 }
    ensures { result ≡ same_bits count old.now.ffr new.now.ffr }
{
    if count == 0 {
        return true;
    }
    let k = count - 1;
    digit(old.ffr_bit(k)) == digit(new.ffr_bit(k)) && same_ffr_bits(k, old, new)
}

/// A bit as a digit.
fn digit(set: bool) -> u8
    ensures { result ≡ bit set }
{
    if set { 1 } else { 0 }
}

/// Whether a Z register and the vector length are the same.
fn is_same_z(r: Reg, old: &VecRegs, new: &VecRegs) -> bool
    ensures { result ≡ is_same_z old.now new.now r }
{
    let bits = new.length().bits();
    old.length().bits() == bits && same_bytes(r, bits / 8, old, new)
}

/// Whether a predicate register and the vector length are the same.
fn is_same_p(r: Pred, old: &VecRegs, new: &VecRegs) -> bool
    ensures { result ≡ is_same_p old.now new.now r }
{
    let bits = new.length().bits();
    old.length().bits() == bits && same_bits(r, bits / 8, old, new)
}

/// Whether FFR and the vector length are the same.
fn is_same_ffr(old: &VecRegs, new: &VecRegs) -> bool
    ensures { result ≡ is_same_ffr old.now new.now }
{
    let bits = new.length().bits();
    old.length().bits() == bits && same_ffr_bits(bits / 8, old, new)
}

/// Puts `zK`, where it has changed.
fn put_z<S: Sink>(k: u32, old: &VecRegs, new: &VecRegs, sink: &mut S) -> Result<(), Failed>
    requires { k < 32 }
    ensures bytes { PutsAll (S.held sink.old) (S.held sink.new) (z_change old.now new.now k) result }
    ensures cause { HasCause (S.faults sink.old) (S.faults sink.new) result }
{
    let r = Reg::at(k, 0);
    if is_same_z(r, old, new) {
        return Ok(());
    }
    let bits = new.length().bits();
    let mut text = Text::new();
    text.push(b" | z");
    text.push_decimal(u64::from(k));
    text.push(b" ");
    text.push_words(new.z_words(r), bits / 4);
    text.put(sink)
}

/// Puts `pK`, where it has changed.
fn put_p<S: Sink>(k: u32, old: &VecRegs, new: &VecRegs, sink: &mut S) -> Result<(), Failed>
    requires { k < 16 }
    ensures bytes { PutsAll (S.held sink.old) (S.held sink.new) (p_change old.now new.now k) result }
    ensures cause { HasCause (S.faults sink.old) (S.faults sink.new) result }
{
    let r = Pred::at(k, 0);
    if is_same_p(r, old, new) {
        return Ok(());
    }
    let bits = new.length().bits();
    let mut text = Text::new();
    text.push(b" | p");
    text.push_decimal(u64::from(k));
    text.push(b" ");
    text.push_words(new.p_words(r), bits / 32);
    text.put(sink)
}

/// Puts those of `z0` to `z31` that have changed, where they are told.
fn put_zs<S: Sink>(told: bool, old: &VecRegs, new: &VecRegs, sink: &mut S) -> Result<(), Failed>
    ensures bytes { OnOk result (HasGained (S.held sink.old) (S.held sink.new)
        (if told then lines_of 32 (z_change old.now new.now) else [])) }
    ensures cause { HasCause (S.faults sink.old) (S.faults sink.new) result }
{
    if !told {
        return Ok(());
    }
    'registers: for k in 0..32 {
        put_z(k, old, new, sink)?;
    }
    Ok(())
}

/// Puts those of `p0` to `p15` that have changed, where they are told.
fn put_ps<S: Sink>(told: bool, old: &VecRegs, new: &VecRegs, sink: &mut S) -> Result<(), Failed>
    ensures bytes { OnOk result (HasGained (S.held sink.old) (S.held sink.new)
        (if told then lines_of 16 (p_change old.now new.now) else [])) }
    ensures cause { HasCause (S.faults sink.old) (S.faults sink.new) result }
{
    if !told {
        return Ok(());
    }
    'registers: for k in 0..16 {
        put_p(k, old, new, sink)?;
    }
    Ok(())
}

/// Puts FFR, where it is told and has changed.
fn put_ffr<S: Sink>(told: bool, old: &VecRegs, new: &VecRegs, sink: &mut S) -> Result<(), Failed>
    ensures bytes { PutsAll (S.held sink.old) (S.held sink.new)
        (if told then ffr_change old.now new.now else []) result }
    ensures cause { HasCause (S.faults sink.old) (S.faults sink.new) result }
{
    if !told || is_same_ffr(old, new) {
        return Ok(());
    }
    let bits = new.length().bits();
    let mut text = Text::new();
    text.push(b" | ffr ");
    text.push_words(new.ffr_words(), bits / 32);
    text.put(sink)
}

/// Puts the vector length and the vector registers that have changed.
pub fn put_vectors<S: Sink>(
    shown: &Shown,
    old: &VecRegs,
    new: &VecRegs,
    sink: &mut S,
) -> Result<(), Failed>
    ensures bytes { OnOk result (HasGained (S.held sink.old) (S.held sink.new)
        (vector_changes shown.now old.now new.now)) }
    ensures cause { HasCause (S.faults sink.old) (S.faults sink.new) result }
{
    put_length(shown.vl, old.length().bits(), new.length().bits(), sink)?;
    put_zs(shown.z, old, new, sink)?;
    put_ps(shown.p, old, new, sink)?;
    put_ffr(shown.ffr, old, new, sink)?;
    Ok(())
}
