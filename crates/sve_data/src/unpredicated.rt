//! Operations of all lanes of two registers, and shifts of all lanes by an immediate.
ghost use Rattle.std.specs.Prelude.{◌≡◌, true};
ghost use Rattle.sve_insn.specs.declared.form.SveForm.{SveForm};
ghost use Rattle.sve_effects.specs.Effects as effects;

use crate::fields::{shift_amount, shift_bits, tsz_of};
use crate::names::shift_lane_op;
use crate::operations::{plain_covered, plain_number, plain_two, plain_two_apart};
use core_regs::Core;
use emu_bits::{Reg, U};
use lane_ops::{Add, And, Asr, Bic, Eor, Lsl, Lsr, Orr, Sqadd, Sqsub, Sub, Uqadd, Uqsub};
use sve_effects::lane_bits;
use sve_insn::{LogicZOp, PlainOp, ShiftOp};
use vec_regs::VecRegs;

/// `add`, `sub`, `sqadd`, `uqadd`, `sqsub`, `uqsub` of all lanes of two vectors.
#[inline(never)]
pub(crate) fn sum(
    core: &Core,
    vec: &mut VecRegs,
    op: PlainOp,
    size: U<2>,
    zm: Reg,
    zn: Reg,
    zd: Reg,
)
    ensures { vec.new ≡ effects.vector_data (SveForm.Plain op size zm zn zd) core.now vec.old }
{
    match op {
        PlainOp::Add => plain_two(vec, lane_bits(size), zd, zn, zm, Add),
        PlainOp::Sub => plain_two(vec, lane_bits(size), zd, zn, zm, Sub),
        PlainOp::Sqadd => plain_two_apart(vec, lane_bits(size), zd, zn, zm, Sqadd),
        PlainOp::Uqadd => plain_two_apart(vec, lane_bits(size), zd, zn, zm, Uqadd),
        PlainOp::Sqsub => plain_two_apart(vec, lane_bits(size), zd, zn, zm, Sqsub),
        PlainOp::Uqsub => plain_two_apart(vec, lane_bits(size), zd, zn, zm, Uqsub),
    }
}

/// `and`, `orr`, `eor`, `bic` of two vectors.
#[inline(never)]
pub(crate) fn logic(core: &Core, vec: &mut VecRegs, op: LogicZOp, zm: Reg, zn: Reg, zd: Reg)
    ensures { vec.new ≡ effects.vector_data (SveForm.LogicZ op zm zn zd) core.now vec.old }
{
    match op {
        LogicZOp::And => plain_two(vec, 64, zd, zn, zm, And),
        LogicZOp::Orr => plain_two(vec, 64, zd, zn, zm, Orr),
        LogicZOp::Eor => plain_two(vec, 64, zd, zn, zm, Eor),
        LogicZOp::Bic => plain_two(vec, 64, zd, zn, zm, Bic),
    }
}

/// `asr`, `lsr`, `lsl` of all lanes by the 64-bit lane of zm that covers each.
#[inline(never)]
pub(crate) fn shift_wide(
    core: &Core,
    vec: &mut VecRegs,
    op: ShiftOp,
    size: U<2>,
    zm: Reg,
    zn: Reg,
    zd: Reg,
)
    ensures { vec.new ≡ effects.vector_data (SveForm.PlainWide op size zm zn zd) core.now vec.old }
{
    let e = lane_bits(size);
    match op {
        ShiftOp::Asr => plain_covered(vec, e, zd, zn, zm, Asr),
        ShiftOp::Lsr => plain_covered(vec, e, zd, zn, zm, Lsr),
        ShiftOp::Lsl => plain_covered(vec, e, zd, zn, zm, Lsl),
    }
}

/// `asr`, `lsr`, `lsl` of all lanes by an immediate. The highest set bit of tszh:tszl gives the size of lanes.
#[inline(never)]
pub(crate) fn shift_imm(
    core: &Core,
    vec: &mut VecRegs,
    op: ShiftOp,
    tszh: U<2>,
    tszl: U<2>,
    imm3: U<3>,
    zn: Reg,
    zd: Reg,
)
    ensures { vec.new ≡ effects.vector_data (SveForm.PlainShift op tszh tszl imm3 zn zd) core.now vec.old }
{
    let tsz = tsz_of(tszh, tszl);
    let e = shift_bits(tsz);
    let n = shift_amount(shift_lane_op(op), tsz, imm3);
    match op {
        ShiftOp::Asr => plain_number(vec, e, zd, zn, n, Asr),
        ShiftOp::Lsr => plain_number(vec, e, zd, zn, n, Lsr),
        ShiftOp::Lsl => plain_number(vec, e, zd, zn, n, Lsl),
    }
}
