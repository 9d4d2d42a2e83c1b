//! Products, quotients, and shifts by a register.
ghost use Rattle.std.specs.Prelude.{◌≡◌, ◌<◌, ◌^◌, ◌⊎◌};
ghost use Rattle.a64_insn.specs.declared.form.A64Form.{A64Form};
ghost use Rattle.emu_model.specs.State.{with_x};
ghost use Rattle.a64_effects.specs.Groups.{after_data};
ghost use Rattle.a64_effects.specs.Scalar as table;
ghost use Rattle.emu_bits.specs.Operations as bits;

use crate::registers::{operand, write};
use a64_insn::{MulHighOp, MulLongOp, TwoSourceOp};
use a64_operations::fields;
use a64_operations::numbers::{difference, product, quotient, scaled_down, wrapped};
use a64_operations::operands::width_of;
use a64_operations::shifts::{asr, lsl, lsr, ror};
use core_regs::Core;
use emu_bits::{Reg, sext};

/// The 64-bit product of two 32-bit numbers, signed.
fn signed_product(a: u64, b: u64) -> u64
    ensures { result ≡ bits.signed_product a b }
{
    wrapped(64, product(sext(a, 32), sext(b, 32)))
}

pub(crate) fn mul_long(core: &mut Core, op: MulLongOp, rm: Reg, ra: Reg, rn: Reg, rd: Reg)
    ensures { core.new ≡ after_data (A64Form.MulLong op rm ra rn rd) core.old }
{
    let x = operand(64, core, ra);
    let (a, b) = (operand(32, core, rn), operand(32, core, rm));
    let v = match op {
        MulLongOp::Smaddl => x as u128 + signed_product(a, b) as u128,
        MulLongOp::Smsubl => difference(64, x, signed_product(a, b) as u128) as u128,
        MulLongOp::Umaddl => x as u128 + a as u128 * b as u128,
        MulLongOp::Umsubl => difference(64, x, a as u128 * b as u128) as u128,
    };
    write(core, 64, rd, v);
}

/// The upper 64 bits of a product, unsigned.
fn upper_product(a: u64, b: u64) -> u64
    ensures { result ≡ bits.upper_product a b }
{
    ((a as u128 * b as u128) >> 64) as u64
}

/// The upper 64 bits of a product, signed.
fn signed_upper_product(a: u64, b: u64) -> u64
    ensures { result ≡ bits.signed_upper_product a b }
{
    wrapped(64, scaled_down(product(sext(a, 64), sext(b, 64)), 64))
}

pub(crate) fn mul_high(core: &mut Core, op: MulHighOp, rm: Reg, rn: Reg, rd: Reg)
    ensures { core.new ≡ after_data (A64Form.MulHigh op rm rn rd) core.old }
{
    let (a, b) = (operand(64, core, rn), operand(64, core, rm));
    let v = match op {
        MulHighOp::Smulh => signed_upper_product(a, b),
        MulHighOp::Umulh => upper_product(a, b),
    };
    core.set_x(rd, 64, v);
}

/// The quotient towards zero, and 0 where the second is 0.
fn signed_quotient(w: u32, a: u64, b: u64) -> u64
    requires { (w ≡ 32) ⊎ (w ≡ 64) }
    ensures { result ≡ bits.signed_quotient w a b }
{
    wrapped(w, quotient(sext(a, w), sext(b, w)))
}

/// Quotients, and shifts by b mod w.
fn of_two(op: TwoSourceOp, w: u32, a: u64, b: u64) -> u64
    requires width { (w ≡ 32) ⊎ (w ≡ 64) }
    requires first { a < 2 ^ w }
    requires second { b < 2 ^ w }
    ensures { result ≡ table.of_two_sources op w a b }
{
    let k = (b % w as u64) as u32;
    match op {
        TwoSourceOp::Udiv => fields::quotient(a, b),
        TwoSourceOp::Sdiv => signed_quotient(w, a, b),
        TwoSourceOp::Lslv => lsl(w, a, k),
        TwoSourceOp::Lsrv => lsr(w, a, k),
        TwoSourceOp::Asrv => asr(w, a, k),
        TwoSourceOp::Rorv => ror(w, a, k),
    }
}

/// Rd is the quotient of two registers, or the first moved by the second.
pub(crate) fn quotient_or_shift(core: &mut Core, op: TwoSourceOp, w: u32, rm: Reg, rn: Reg, rd: Reg)
    requires { (w ≡ 32) ⊎ (w ≡ 64) }
    ensures { core.new ≡ with_x core.old rd w
        (table.of_two_sources op w (table.operand w core.old rn) (table.operand w core.old rm)) }
{
    let v = of_two(op, w, operand(w, core, rn), operand(w, core, rm));
    core.set_x(rd, w, v);
}
