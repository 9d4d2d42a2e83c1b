//! Bits and bytes in another order, and counts of leading bits.
ghost use Rattle.std.specs.Prelude.{◌≡◌, ◌<◌, ◌^◌, ◌⊎◌};
ghost use Rattle.a64_insn.specs.declared.form.A64Form.{A64Form};
ghost use Rattle.a64_effects.specs.Groups.{after_data};
ghost use Rattle.a64_effects.specs.Scalar as table;
ghost use Rattle.emu_bits.specs.Operations as bits;

use crate::registers::operand;
use a64_insn::{OneSourceOp, RevOp};
use a64_operations::numbers::complement;
use a64_operations::operands::width_of;
use core_regs::Core;
use emu_bits::Reg;

#[tactic(auto, using(emu_bits::specs::Reversal::reversed))]
fn reversed_bits(w: u32, a: u64) -> u64
    requires width { (w ≡ 32) ⊎ (w ≡ 64) }
    requires within { a < 2 ^ w }
    ensures { result ≡ bits.reversed_bits w a }
{
    if w == 32 {
        (a as u32).reverse_bits() as u64
    } else {
        a.reverse_bits()
    }
}

/// Bytes reversed in each 16 bits.
fn reversed_16(a: u64) -> u64
    ensures { result ≡ bits.reversed_bytes 2 8 a }
{
    let [a, b, c, d, e, f, g, h] = a.to_le_bytes();
    u64::from_le_bytes([b, a, d, c, f, e, h, g])
}

/// Bytes reversed in each 16 of 32 bits.
fn reversed_16_of_32(a: u64) -> u64
    requires { a < 2 ^ 32 }
    ensures { result ≡ bits.reversed_bytes 2 4 a }
{
    let [a, b, c, d] = (a as u32).to_le_bytes();
    u32::from_le_bytes([b, a, d, c]) as u64
}

/// Bytes reversed in each 32 bits.
fn reversed_32(a: u64) -> u64
    ensures { result ≡ bits.reversed_bytes 4 8 a }
{
    let [a, b, c, d, e, f, g, h] = a.to_le_bytes();
    u64::from_le_bytes([d, c, b, a, h, g, f, e])
}

/// Four bytes reversed.
fn reversed_of_32(a: u64) -> u64
    requires { a < 2 ^ 32 }
    ensures { result ≡ bits.reversed_bytes 4 4 a }
{
    (a as u32).swap_bytes() as u64
}

/// Eight bytes reversed.
fn reversed_64(a: u64) -> u64
    ensures { result ≡ bits.reversed_bytes 8 8 a }
{
    a.swap_bytes()
}

fn leading_zeros(w: u32, a: u64) -> u32
    requires width { (w ≡ 32) ⊎ (w ≡ 64) }
    requires within { a < 2 ^ w }
    ensures { result ≡ bits.leading_zeros w a }
{
    if w == 32 {
        (a as u32).leading_zeros()
    } else {
        a.leading_zeros()
    }
}

/// The leading copies of the top bit after it.
fn leading_copies(w: u32, a: u64) -> u32
    requires width { (w ≡ 32) ⊎ (w ≡ 64) }
    requires within { a < 2 ^ w }
    ensures { result ≡ bits.leading_copies w a }
{
    let top = if w == 32 {
        0x8000_0000
    } else {
        0x8000_0000_0000_0000
    };
    let same = if a >= top { complement(w, a) } else { a };
    leading_zeros(w, same).saturating_sub(1)
}

fn of_one(op: OneSourceOp, w: u32, a: u64) -> u64
    requires width { (w ≡ 32) ⊎ (w ≡ 64) }
    requires within { a < 2 ^ w }
    ensures { result ≡ table.of_one_source op w a }
{
    match op {
        OneSourceOp::Rbit => reversed_bits(w, a),
        OneSourceOp::Rev16 => {
            if w == 32 {
                reversed_16_of_32(a)
            } else {
                reversed_16(a)
            }
        }
        OneSourceOp::Clz => leading_zeros(w, a) as u64,
        OneSourceOp::Cls => leading_copies(w, a) as u64,
    }
}

pub(crate) fn one_source(core: &mut Core, op: OneSourceOp, sf: bool, rn: Reg, rd: Reg)
    ensures { core.new ≡ after_data (A64Form.OneSource op sf rn rd) core.old }
{
    let w = width_of(sf);
    let v = of_one(op, w, operand(w, core, rn));
    core.set_x(rd, w, v);
}

pub(crate) fn rev(core: &mut Core, op: RevOp, rn: Reg, rd: Reg)
    ensures { core.new ≡ after_data (A64Form.Rev op rn rd) core.old }
{
    match op {
        RevOp::RevW => {
            let v = reversed_of_32(operand(32, core, rn));
            core.set_x(rd, 32, v);
        }
        RevOp::RevX => {
            let v = reversed_64(operand(64, core, rn));
            core.set_x(rd, 64, v);
        }
        RevOp::Rev32 => {
            let v = reversed_32(operand(64, core, rn));
            core.set_x(rd, 64, v);
        }
    }
}
