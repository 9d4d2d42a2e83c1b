//! The lines of the registers.
ghost use Rattle.std.specs.Prelude.{◌≡◌, ◌<◌, ◌≤◌, ◌+◌, ◌*◌, ◌++◌, length, codes, get_or};
ghost use Rattle.std.specs.Fmt.{decimal};
ghost use Rattle.command_model.specs.WorldReports.{context_lines, thread_line};
ghost use Rattle.emu_bits.specs.Fields.{bit};
ghost use Rattle.emu_run.specs.Text.{hex, space, newline};
ghost use Rattle.emu_run.specs.Registers.{
  bit_digits,
  flag_digits,
  lines_of,
  numbered,
  register_line,
  scalar_lines,
  vector_lines,
  word_line,
};
ghost use Rattle.io_gate.specs.Streams.{HasCause};
ghost use Rattle.io_gate.specs.Pieces.{PutsAll};
ghost use Rattle.emu_report.specs.VectorLines.{count_of, line_of};
ghost use Rattle.emu_report.specs.WordDigits.{word_digits};

use crate::text::Text;
use core_regs::Core;
use emu_bits::{Flags, Pred, Reg};
use io_gate::{Failed, Sink};
use vec_regs::VecRegs;

/// A kind of numbered vector registers.
#[derive(Clone, Copy)]
pub(crate) enum Kind {
    Z,
    P,
}

/// Puts the lines of all registers: `x0` to `x30`, `sp`, `pc`, `nzcv`, `tpidr`, `vl`, `z0` to `z31`, `p0` to `p15` and
/// `ffr`.
///
/// A vector register has two hexadecimal digits a byte, and a predicate and FFR one for each four bits, the most
/// significant first.
pub fn put_registers<S: Sink>(core: &Core, vec: &VecRegs, sink: &mut S) -> Result<(), Failed>
    ensures bytes { PutsAll (S.held sink.old) (S.held sink.new)
        (scalar_lines core.now vec.now.bits ++ vector_lines vec.now) result }
    ensures cause { HasCause (S.faults sink.old) (S.faults sink.new) result }
{
    put_scalars(core, vec, sink)?;
    put_vectors(vec, sink)
}

/// Puts the lines of all registers of context `k`, behind one of its number, as `thread 1`.
pub fn put_context<S: Sink>(k: u32, core: &Core, vec: &VecRegs, sink: &mut S) -> Result<(), Failed>
    ensures bytes { PutsAll (S.held sink.old) (S.held sink.new) (context_lines k core.now vec.now) result }
    ensures cause { HasCause (S.faults sink.old) (S.faults sink.new) result }
{
    put_thread(k, sink)?;
    put_registers(core, vec, sink)
}

/// Puts the line of a context's number.
fn put_thread<S: Sink>(k: u32, sink: &mut S) -> Result<(), Failed>
    ensures bytes { PutsAll (S.held sink.old) (S.held sink.new) (thread_line k) result }
    ensures cause { HasCause (S.faults sink.old) (S.faults sink.new) result }
{
    let mut text = Text::new();
    push_name(&mut text, b"thread ", k);
    text.push(b"\n");
    text.put(sink)
}

/// Puts the lines of the scalar registers: `x0` to `x30`, `sp`, `pc`, `nzcv`, `tpidr`, and of the vector length in
/// bits, `vl`.
pub fn put_scalars<S: Sink>(core: &Core, vec: &VecRegs, sink: &mut S) -> Result<(), Failed>
    ensures bytes { PutsAll (S.held sink.old) (S.held sink.new) (scalar_lines core.now vec.now.bits) result }
    ensures cause { HasCause (S.faults sink.old) (S.faults sink.new) result }
{
    let mut text = Text::new();
    push_x_lines(&mut text, core);
    push_word_line(&mut text, b"sp", core.x_sp(Reg::at(31, 0)));
    push_word_line(&mut text, b"pc", core.pc());
    push_flags_line(&mut text, core.flags());
    push_word_line(&mut text, b"tpidr", core.tpidr());
    push_length_line(&mut text, vec.length().bits());
    text.put(sink)
}

/// Puts the lines of `z0` to `z31`, `p0` to `p15` and `ffr`, a line at a time.
fn put_vectors<S: Sink>(vec: &VecRegs, sink: &mut S) -> Result<(), Failed>
    ensures bytes { PutsAll (S.held sink.old) (S.held sink.new) (vector_lines vec.now) result }
    ensures cause { HasCause (S.faults sink.old) (S.faults sink.new) result }
{
    put_lines(Kind::Z, 32, vec, sink)?;
    put_lines(Kind::P, 16, vec, sink)?;
    put_ffr(vec, sink)
}

/// Puts the lines of registers 0 to `count` - 1 of a kind.
fn put_lines<S: Sink>(kind: Kind, count: u32, vec: &VecRegs, sink: &mut S) -> Result<(), Failed>
    requires { count ≤ count_of kind }
    ensures bytes { PutsAll (S.held sink.old) (S.held sink.new) (lines_of count (line_of vec.now kind)) result }
    ensures cause { HasCause (S.faults sink.old) (S.faults sink.new) result }
{
    'registers: for k in 0..count {
        put_line(kind, k, vec, sink)?;
    }
    Ok(())
}

/// Puts the line of register `k` of a kind.
pub(crate) fn put_line<S: Sink>(
    kind: Kind,
    k: u32,
    vec: &VecRegs,
    sink: &mut S,
) -> Result<(), Failed>
    requires { k < count_of kind }
    ensures bytes { PutsAll (S.held sink.old) (S.held sink.new) (line_of vec.now kind k) result }
    ensures cause { HasCause (S.faults sink.old) (S.faults sink.new) result }
{
    let mut text = Text::new();
    push_line(&mut text, kind, k, vec);
    text.put(sink)
}

/// Appends the line of register `k` of a kind.
fn push_line(text: &mut Text, kind: Kind, k: u32, vec: &VecRegs)
    requires which { k < count_of kind }
    requires room { length text.old + 600 ≤ 2048 }
    ensures { text.new ≡ text.old ++ line_of vec.now kind k }
{
    let bits = vec.length().bits();
    match kind {
        Kind::Z => {
            push_name(text, b"z", k);
            push_value(text, vec.z_words(Reg::at(k, 0)), bits / 4);
        }
        Kind::P => {
            push_name(text, b"p", k);
            push_value(text, vec.p_words(Pred::at(k, 0)), bits / 32);
        }
    }
}

/// Puts the line of FFR.
pub fn put_ffr<S: Sink>(vec: &VecRegs, sink: &mut S) -> Result<(), Failed>
    ensures bytes { PutsAll (S.held sink.old) (S.held sink.new)
        (register_line (codes "ffr") (bit_digits vec.now.ffr)) result }
    ensures cause { HasCause (S.faults sink.old) (S.faults sink.new) result }
{
    let bits = vec.length().bits();
    let mut text = Text::new();
    text.push(b"ffr");
    push_value(&mut text, vec.ffr_words(), bits / 32);
    text.put(sink)
}

/// Appends the lines of `x0` to `x30`.
fn push_x_lines(text: &mut Text, core: &Core)
    requires { length text.old ≤ 500 }
    ensures text { text.new ≡ text.old ++ lines_of 31
        (λ k. word_line (numbered (codes "x") k) (get_or core.now.x k 0)) }
    ensures len { length text.new ≤ length text.old + 1209 }
{
    'registers: for k in 0..31 {
        push_name(text, b"x", k);
        push_word(text, core.x(Reg::at(k, 0)));
    }
}

/// Appends the line of a register of 64 bits.
fn push_word_line(text: &mut Text, name: &[u8], v: u64)
    requires { length text.old + length name.now + 18 ≤ 2048 }
    ensures text { text.new ≡ text.old ++ word_line name.now v }
    ensures len { length text.new ≡ length text.old + length name.now + 18 }
{
    text.push(name);
    push_word(text, v);
}

/// Appends the line of the condition flags.
fn push_flags_line(text: &mut Text, flags: Flags)
    requires { length text.old + 10 ≤ 2048 }
    ensures text { text.new ≡ text.old ++ register_line (codes "nzcv") (flag_digits flags) }
    ensures len { length text.new ≡ length text.old + 10 }
{
    text.push(b"nzcv ");
    text.push(&[
        flag_digit(flags.n),
        flag_digit(flags.z),
        flag_digit(flags.c),
        flag_digit(flags.v),
    ]);
    text.push(b"\n");
}

/// Appends the line of the vector length in bits.
fn push_length_line(text: &mut Text, bits: u32)
    requires { length text.old + 24 ≤ 2048 }
    ensures { text.new ≡ text.old ++ register_line (codes "vl") (decimal bits) }
{
    text.push(b"vl ");
    text.push_decimal(u64::from(bits));
    text.push(b"\n");
}

/// Appends the name of register `k` of a kind.
pub(crate) fn push_name(text: &mut Text, kind: &[u8], k: u32)
    requires { length text.old + length kind.now + 20 ≤ 2048 }
    ensures text { text.new ≡ text.old ++ numbered kind.now k }
    ensures len { length text.new ≤ length text.old + length kind.now + 20 }
{
    text.push(kind);
    text.push_decimal(u64::from(k));
}

/// Appends a value of 64 bits, which ends its line.
fn push_word(text: &mut Text, v: u64)
    requires { length text.old + 18 ≤ 2048 }
    ensures text { text.new ≡ text.old ++ (space ++ hex 16 v ++ newline) }
    ensures len { length text.new ≡ length text.old + 18 }
{
    text.push(b" ");
    text.push_hex(v, 16);
    text.push(b"\n");
}

/// Appends a value of so many digits, given by its words, the lowest first. It ends its line.
fn push_value(text: &mut Text, words: &[u64], digits: u32)
    requires within { digits ≤ 16 * length words.now }
    requires room { length text.old + digits + 2 ≤ 2048 }
    ensures { text.new ≡ text.old ++ (space ++ word_digits digits words.now ++ newline) }
{
    text.push(b" ");
    text.push_words(words, digits);
    text.push(b"\n");
}

/// The binary digit of a flag.
fn flag_digit(set: bool) -> u8
    ensures { result ≡ 48 + bit set }
{
    if set { b'1' } else { b'0' }
}
