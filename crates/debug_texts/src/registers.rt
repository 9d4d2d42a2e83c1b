//! Registers and lanes as `print` shows them.
ghost use Rattle.std.specs.Prelude.{◌≡◌, ◌≤◌, ◌<◌, ◌^◌, ◌/◌, ◌++◌, string_bytes, codes, OnOk};
ghost use Rattle.std.specs.Fmt.{decimal};
ghost use Rattle.emu_model.specs.Lanes.{read_p};
ghost use Rattle.debug_names.specs.Registers.{register_bits};
ghost use Rattle.dbg_model.specs.Session.{size_letter};
ghost use Rattle.debug_texts.specs.Registers.{
  ffr_text,
  flag_digit,
  flags_text,
  general_name,
  lane_name,
  lanes_shown,
  noted,
  p_text,
  register_line,
  register_name,
  size_text,
  vector_name,
  z_text,
};

use crate::numbers::{push_decimal, push_hex, push_number};
use debug_names::{Lane, Register};
use debug_places::Notation;
use emu_bits::{Esize, Pred, Reg};
use std::alloc::AllocError;
use vec_regs::VecRegs;

/// The letter of a size.
fn letter_of(size: Esize) -> &'static str
    ensures { result.now ≡ size_letter size }
{
    match size {
        Esize::B => "b",
        Esize::H => "h",
        Esize::S => "s",
        Esize::D => "d",
    }
}

/// Appends the letter of a size behind a dot.
fn push_size(text: &mut String, size: Esize) -> Result<(), AllocError>
    ensures { OnOk result (string_bytes text.new ≡ string_bytes text.old ++ size_text size) }
{
    text.push_str(".")?;
    text.push_str(letter_of(size))
}

/// Appends a letter and a number.
fn push_numbered(text: &mut String, letter: &str, k: u32) -> Result<(), AllocError>
    ensures { OnOk result (string_bytes text.new ≡ string_bytes text.old ++ (letter.now ++ decimal k)) }
{
    text.push_str(letter)?;
    push_decimal(text, u64::from(k))
}

/// Appends the name of a general-purpose register; that of register 31, which reads as 0, has no number.
fn push_general(text: &mut String, letter: &str, r: Reg) -> Result<(), AllocError>
    ensures { OnOk result (string_bytes text.new ≡ string_bytes text.old ++ general_name letter.now r) }
{
    if r.get() != 31 {
        return push_numbered(text, letter, r.get());
    }
    text.push_str(letter)?;
    text.push_str("zr")
}

/// Appends the name of a scalar register.
pub fn push_name(text: &mut String, register: &Register) -> Result<(), AllocError>
    ensures { OnOk result (string_bytes text.new ≡ string_bytes text.old ++ register_name register.now) }
{
    match *register {
        Register::X(r) => push_general(text, "x", r),
        Register::W(r) => push_general(text, "w", r),
        Register::Sp => text.push_str("sp"),
        Register::Pc => text.push_str("pc"),
        Register::Nzcv => text.push_str("nzcv"),
        Register::Tpidr => text.push_str("tpidr"),
        Register::Vl => text.push_str("vl"),
    }
}

/// Appends a number in a notation, or in hexadecimal and decimal.
pub fn push_noted(
    text: &mut String,
    notation: Option<Notation>,
    bits: u32,
    v: u64,
) -> Result<(), AllocError>
    requires least { 1 ≤ bits }
    requires most { bits ≤ 64 }
    requires fits { v < 2 ^ bits }
    ensures { OnOk result (string_bytes text.new ≡ string_bytes text.old ++ noted notation bits v) }
{
    match notation {
        Some(notation) => push_number(text, notation, bits, v),
        None => {
            push_hex(text, v)?;
            text.push_str(" ")?;
            push_decimal(text, v)
        }
    }
}

/// Appends a scalar register with its value.
pub fn push_register(
    text: &mut String,
    notation: Option<Notation>,
    register: &Register,
    v: u64,
) -> Result<(), AllocError>
    requires { v < 2 ^ register_bits register.now }
    ensures { OnOk result (string_bytes text.new ≡ string_bytes text.old ++ register_line notation register.now v) }
{
    push_name(text, register)?;
    text.push_str(" = ")?;
    push_noted(text, notation, register.bits(), v)?;
    text.push_str("\n")
}

/// Appends the name of a vector register, as `z3.s`.
fn push_vector_name(text: &mut String, letter: &str, k: u32, size: Esize) -> Result<(), AllocError>
    ensures { OnOk result (string_bytes text.new ≡ string_bytes text.old ++ vector_name letter.now k size) }
{
    push_numbered(text, letter, k)?;
    push_size(text, size)
}

/// Appends the name of a Z register, as `z3.s`.
pub fn push_z_name(text: &mut String, k: Reg, size: Esize) -> Result<(), AllocError>
    ensures { OnOk result (string_bytes text.new ≡ string_bytes text.old ++ vector_name (codes "z") k size) }
{
    push_vector_name(text, "z", k.get(), size)
}

/// Appends the name of a predicate, as `p1.h`.
pub fn push_p_name(text: &mut String, k: Pred, size: Esize) -> Result<(), AllocError>
    ensures { OnOk result (string_bytes text.new ≡ string_bytes text.old ++ vector_name (codes "p") k size) }
{
    push_vector_name(text, "p", k.get(), size)
}

/// Appends the name of FFR, as `ffr.b`.
pub fn push_ffr_name(text: &mut String, size: Esize) -> Result<(), AllocError>
    ensures { OnOk result (string_bytes text.new ≡ string_bytes text.old ++ (codes "ffr" ++ size_text size)) }
{
    text.push_str("ffr")?;
    push_size(text, size)
}

/// Appends the name of a lane, as `z3.s[2]`.
pub fn push_lane_name(text: &mut String, lane: &Lane) -> Result<(), AllocError>
    ensures { OnOk result (string_bytes text.new ≡ string_bytes text.old ++ lane_name lane.now) }
{
    push_z_name(text, lane.register, lane.size)?;
    text.push_str("[")?;
    push_decimal(text, lane.index)?;
    text.push_str("]")
}

/// Appends the lanes of a Z register, lane 0 first.
fn push_numbers(
    text: &mut String,
    notation: Notation,
    vec: &VecRegs,
    k: Reg,
    size: Esize,
) -> Result<(), AllocError>
    ensures { OnOk result (string_bytes text.new ≡ string_bytes text.old ++ lanes_shown notation vec.now k size) }
{
    let bits = size.bits();
    'lanes: for i in 0..vec.length().lanes(size) {
        text.push_str(" ")?;
        push_number(text, notation, bits, vec.lane(k, bits, i))?;
    }
    Ok(())
}

/// A flag as a digit behind a space.
fn flag_digit(flag: bool) -> &'static str
    ensures { result.now ≡ flag_digit flag }
{
    if flag { " 1" } else { " 0" }
}

/// Appends the flags of the lanes of a predicate, lane 0 first.
fn push_flags(text: &mut String, vec: &VecRegs, k: Pred, size: Esize) -> Result<(), AllocError>
    ensures { OnOk result (string_bytes text.new ≡ string_bytes text.old ++
        flags_text (read_p vec.now k) vec.now.bits size) }
{
    'lanes: for i in 0..vec.length().lanes(size) {
        text.push_str(flag_digit(vec.p_bit(k, i * (size.bits() / 8))))?;
    }
    Ok(())
}

/// Appends the flags of the lanes of FFR, lane 0 first.
fn push_ffr_flags(text: &mut String, vec: &VecRegs, size: Esize) -> Result<(), AllocError>
    ensures { OnOk result (string_bytes text.new ≡ string_bytes text.old ++ flags_text vec.now.ffr vec.now.bits size) }
{
    'lanes: for i in 0..vec.length().lanes(size) {
        text.push_str(flag_digit(vec.ffr_bit(i * (size.bits() / 8))))?;
    }
    Ok(())
}

/// Appends a Z register by its lanes: unsigned decimal numbers where no notation is asked for.
pub fn push_z(
    text: &mut String,
    notation: Option<Notation>,
    vec: &VecRegs,
    k: Reg,
    size: Esize,
) -> Result<(), AllocError>
    ensures { OnOk result (string_bytes text.new ≡ string_bytes text.old ++ z_text notation vec.now k size) }
{
    push_z_name(text, k, size)?;
    text.push_str(" =")?;
    push_numbers(text, notation.unwrap_or(Notation::Unsigned), vec, k, size)?;
    text.push_str("\n")
}

/// Appends a predicate by the flags of its lanes.
pub fn push_p(text: &mut String, vec: &VecRegs, k: Pred, size: Esize) -> Result<(), AllocError>
    ensures { OnOk result (string_bytes text.new ≡ string_bytes text.old ++ p_text vec.now k size) }
{
    push_p_name(text, k, size)?;
    text.push_str(" =")?;
    push_flags(text, vec, k, size)?;
    text.push_str("\n")
}

/// Appends FFR by the flags of its lanes.
pub fn push_ffr(text: &mut String, vec: &VecRegs, size: Esize) -> Result<(), AllocError>
    ensures { OnOk result (string_bytes text.new ≡ string_bytes text.old ++ ffr_text vec.now size) }
{
    push_ffr_name(text, size)?;
    text.push_str(" =")?;
    push_ffr_flags(text, vec, size)?;
    text.push_str("\n")
}
