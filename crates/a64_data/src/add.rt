//! Sums and differences.
ghost use Rattle.std.specs.Prelude.{◌≡◌, ◌<◌, ◌^◌, ◌⊎◌};
ghost use Rattle.a64_insn.specs.declared.form.A64Form.{A64Form};
ghost use Rattle.emu_bits.specs.Numbers.{extended};
ghost use Rattle.emu_bits.specs.Operations as bits;
ghost use Rattle.emu_model.specs.State.{read_x};
ghost use Rattle.a64_effects.specs.Groups.{after_data};
ghost use Rattle.a64_effects.specs.Scalar as table;

use crate::registers::operand;
use a64_insn::{AddCarryOp, AddOp};
use a64_operations::numbers::complement;
use a64_operations::operands::{operand_sp, width_of};
use a64_operations::results::{carried_sum, sum, sum_sp};
use a64_operations::shifts::{lsl, shifted};
use core_regs::{Core, RegOrSp, Target};
use emu_bits::{Reg, U, extended};

/// Rd is a sum or a difference, with its flags in the forms with s. Rd 31 isn't written.
fn add(core: &mut Core, op: AddOp, w: u32, rd: Reg, a: u64, b: u64)
    requires width { (w ≡ 32) ⊎ (w ≡ 64) }
    requires first { a < 2 ^ w }
    requires second { b < 2 ^ w }
    ensures { core.new ≡ table.after_add op w rd a b core.old }
{
    let d = Target::of(rd);
    match op {
        AddOp::Add => sum(core, false, false, w, d, a, b),
        AddOp::Sub => sum(core, false, true, w, d, a, b),
        AddOp::Adds => sum(core, true, false, w, d, a, b),
        AddOp::Subs => sum(core, true, true, w, d, a, b),
    };
}

/// The same, where Rd 31 is SP but in the forms with s.
fn add_sp(core: &mut Core, op: AddOp, w: u32, rd: Reg, a: u64, b: u64)
    requires width { (w ≡ 32) ⊎ (w ≡ 64) }
    requires first { a < 2 ^ w }
    requires second { b < 2 ^ w }
    ensures { core.new ≡ table.after_add_sp op w rd a b core.old }
{
    let d = RegOrSp::of(rd);
    match op {
        AddOp::Add => {
            sum_sp(core, false, w, d, a, b);
        }
        AddOp::Sub => {
            sum_sp(core, true, w, d, a, b);
        }
        AddOp::Adds | AddOp::Subs => add(core, op, w, rd, a, b),
    }
}

/// Rd is the sum of two registers, the second of which is shifted, or their difference.
pub(crate) fn add_shifted(
    core: &mut Core,
    op: AddOp,
    w: u32,
    shift: U<2>,
    rm: Reg,
    amount: U<6>,
    rn: Reg,
    rd: Reg,
)
    requires { (w ≡ 32) ⊎ (w ≡ 64) }
    ensures { core.new ≡ table.after_add op w rd (table.operand w core.old rn)
        (bits.shifted w shift (table.operand w core.old rm) amount) core.old }
{
    let a = operand(w, core, rn);
    let b = shifted(w, shift, operand(w, core, rm), amount);
    add(core, op, w, rd, a, b);
}

/// The same, where the second is extended and moved left. Register 31 is SP, but for Rd in the forms with s.
pub(crate) fn add_extended(
    core: &mut Core,
    op: AddOp,
    w: u32,
    rm: Reg,
    ext: U<3>,
    a: U<3>,
    rn: Reg,
    rd: Reg,
)
    requires { (w ≡ 32) ⊎ (w ≡ 64) }
    ensures { core.new ≡ table.after_add_sp op w rd (table.operand_sp w core.old rn)
        (bits.lsl w (extended ext (read_x core.old rm)) a) core.old }
{
    let first = operand_sp(w, core, RegOrSp::of(rn));
    let second = lsl(w, extended(ext, core.x(rm)), a.get());
    add_sp(core, op, w, rd, first, second);
}

pub(crate) fn add_carry(core: &mut Core, op: AddCarryOp, sf: bool, rm: Reg, rn: Reg, rd: Reg)
    ensures { core.new ≡ after_data (A64Form.AddCarry op sf rm rn rd) core.old }
{
    let w = width_of(sf);
    let (a, b, d) = (operand(w, core, rn), operand(w, core, rm), Target::of(rd));
    let carry = core.flags().c;
    match op {
        AddCarryOp::Adc => carried_sum(core, false, w, d, a, b, carry),
        AddCarryOp::Adcs => carried_sum(core, true, w, d, a, b, carry),
        AddCarryOp::Sbc => carried_sum(core, false, w, d, a, complement(w, b), carry),
        AddCarryOp::Sbcs => carried_sum(core, true, w, d, a, complement(w, b), carry),
    };
}
