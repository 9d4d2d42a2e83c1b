//! Operations whose inactive lanes keep the destination's value.
ghost use Rattle.std.specs.Prelude.{◌≡◌, true};
ghost use Rattle.sve_insn.specs.declared.form.SveForm.{SveForm};
ghost use Rattle.sve_effects.specs.Effects as effects;

use crate::fields::{shift_amount, shift_bits, tsz_of};
use crate::names::shift_imm_lane_op;
use crate::operations::{merging_covered, merging_number, merging_one, merging_two};
use core_regs::Core;
use emu_bits::{PredLow, Reg, U};
use lane_ops::{
    Abs, Add, And, Asr, Asrd, Asrr, Bic, Cls, Clz, Cnot, Cnt, Eor, Lsl, Lslr, Lsr, Lsrr, Mul, Neg,
    Not, Orr, Rbit, Revb, Revh, Revw, Sabd, Sdiv, Sdivr, Smax, Smin, Smulh, Sub, Subr, Sxtb, Sxth,
    Sxtw, Uabd, Udiv, Udivr, Umax, Umin, Umulh, Uxtb, Uxth, Uxtw,
};
use sve_effects::lane_bits;
use sve_insn::{BinaryOp, ShiftImmOp, ShiftOp, UnaryOp};
use vec_regs::VecRegs;

/// `add`, `sub`, `smax` and the other operations of two vectors under a predicate: active lanes of zdn have the
/// result of their old value and the lane of zm, the others keep theirs. Lanes have 8, 16, 32 or 64 bits, by `size`.
#[inline(never)]
pub(crate) fn binary(
    core: &Core,
    vec: &mut VecRegs,
    op: BinaryOp,
    size: U<2>,
    pg: PredLow,
    zm: Reg,
    zdn: Reg,
)
    ensures { vec.new ≡ effects.vector_data (SveForm.Binary op size pg zm zdn) core.now vec.old }
{
    let e = lane_bits(size);
    let pg = pg.register();
    match op {
        BinaryOp::Add => merging_two(vec, e, pg, zdn, zm, Add),
        BinaryOp::Sub => merging_two(vec, e, pg, zdn, zm, Sub),
        BinaryOp::Smax => merging_two(vec, e, pg, zdn, zm, Smax),
        BinaryOp::Umax => merging_two(vec, e, pg, zdn, zm, Umax),
        BinaryOp::Smin => merging_two(vec, e, pg, zdn, zm, Smin),
        BinaryOp::Umin => merging_two(vec, e, pg, zdn, zm, Umin),
        BinaryOp::Sabd => merging_two(vec, e, pg, zdn, zm, Sabd),
        BinaryOp::Uabd => merging_two(vec, e, pg, zdn, zm, Uabd),
        BinaryOp::Mul => merging_two(vec, e, pg, zdn, zm, Mul),
        BinaryOp::Smulh => merging_two(vec, e, pg, zdn, zm, Smulh),
        BinaryOp::Umulh => merging_two(vec, e, pg, zdn, zm, Umulh),
        BinaryOp::Sdiv => merging_two(vec, e, pg, zdn, zm, Sdiv),
        BinaryOp::Udiv => merging_two(vec, e, pg, zdn, zm, Udiv),
        BinaryOp::Orr => merging_two(vec, e, pg, zdn, zm, Orr),
        BinaryOp::Eor => merging_two(vec, e, pg, zdn, zm, Eor),
        BinaryOp::And => merging_two(vec, e, pg, zdn, zm, And),
        BinaryOp::Bic => merging_two(vec, e, pg, zdn, zm, Bic),
        BinaryOp::Asr => merging_two(vec, e, pg, zdn, zm, Asr),
        BinaryOp::Lsr => merging_two(vec, e, pg, zdn, zm, Lsr),
        BinaryOp::Lsl => merging_two(vec, e, pg, zdn, zm, Lsl),
        BinaryOp::Subr => merging_two(vec, e, pg, zdn, zm, Subr),
        BinaryOp::Sdivr => merging_two(vec, e, pg, zdn, zm, Sdivr),
        BinaryOp::Udivr => merging_two(vec, e, pg, zdn, zm, Udivr),
        BinaryOp::Asrr => merging_two(vec, e, pg, zdn, zm, Asrr),
        BinaryOp::Lsrr => merging_two(vec, e, pg, zdn, zm, Lsrr),
        BinaryOp::Lslr => merging_two(vec, e, pg, zdn, zm, Lslr),
    }
}

/// `asr`, `lsr`, `lsl` of active lanes by the 64-bit lane of zm that covers each; the others keep their value.
#[inline(never)]
pub(crate) fn binary_wide(
    core: &Core,
    vec: &mut VecRegs,
    op: ShiftOp,
    size: U<2>,
    pg: PredLow,
    zm: Reg,
    zdn: Reg,
)
    ensures { vec.new ≡ effects.vector_data (SveForm.BinaryWide op size pg zm zdn) core.now vec.old }
{
    let e = lane_bits(size);
    let pg = pg.register();
    match op {
        ShiftOp::Asr => merging_covered(vec, e, pg, zdn, zm, Asr),
        ShiftOp::Lsr => merging_covered(vec, e, pg, zdn, zm, Lsr),
        ShiftOp::Lsl => merging_covered(vec, e, pg, zdn, zm, Lsl),
    }
}

/// `asr`, `lsr`, `lsl`, `asrd` of active lanes by an immediate; the others keep their value. The highest set bit of
/// tszh:tszl gives the size of lanes.
#[inline(never)]
pub(crate) fn shift_imm(
    core: &Core,
    vec: &mut VecRegs,
    op: ShiftImmOp,
    tszh: U<2>,
    pg: PredLow,
    tszl: U<2>,
    imm3: U<3>,
    zdn: Reg,
)
    ensures { vec.new ≡ effects.vector_data (SveForm.ShiftImm op tszh pg tszl imm3 zdn) core.now vec.old }
{
    let tsz = tsz_of(tszh, tszl);
    let e = shift_bits(tsz);
    let n = shift_amount(shift_imm_lane_op(op), tsz, imm3);
    let pg = pg.register();
    match op {
        ShiftImmOp::Asr => merging_number(vec, e, pg, zdn, n, Asr),
        ShiftImmOp::Lsr => merging_number(vec, e, pg, zdn, n, Lsr),
        ShiftImmOp::Lsl => merging_number(vec, e, pg, zdn, n, Lsl),
        ShiftImmOp::Asrd => merging_number(vec, e, pg, zdn, n, Asrd),
    }
}

/// `sxtb`, `abs`, `clz`, `revb` and the other operations of one vector under a predicate: active lanes of zd have the
/// result, the others keep their value.
#[inline(never)]
pub(crate) fn unary(
    core: &Core,
    vec: &mut VecRegs,
    op: UnaryOp,
    size: U<2>,
    pg: PredLow,
    zn: Reg,
    zd: Reg,
)
    ensures { vec.new ≡ effects.vector_data (SveForm.Unary op size pg zn zd) core.now vec.old }
{
    let e = lane_bits(size);
    let pg = pg.register();
    match op {
        UnaryOp::Sxtb => merging_one(vec, e, pg, zd, zn, Sxtb),
        UnaryOp::Uxtb => merging_one(vec, e, pg, zd, zn, Uxtb),
        UnaryOp::Sxth => merging_one(vec, e, pg, zd, zn, Sxth),
        UnaryOp::Uxth => merging_one(vec, e, pg, zd, zn, Uxth),
        UnaryOp::Sxtw => merging_one(vec, e, pg, zd, zn, Sxtw),
        UnaryOp::Uxtw => merging_one(vec, e, pg, zd, zn, Uxtw),
        UnaryOp::Abs => merging_one(vec, e, pg, zd, zn, Abs),
        UnaryOp::Neg => merging_one(vec, e, pg, zd, zn, Neg),
        UnaryOp::Cls => merging_one(vec, e, pg, zd, zn, Cls),
        UnaryOp::Clz => merging_one(vec, e, pg, zd, zn, Clz),
        UnaryOp::Cnt => merging_one(vec, e, pg, zd, zn, Cnt),
        UnaryOp::Cnot => merging_one(vec, e, pg, zd, zn, Cnot),
        UnaryOp::Not => merging_one(vec, e, pg, zd, zn, Not),
        UnaryOp::Revb => merging_one(vec, e, pg, zd, zn, Revb),
        UnaryOp::Revh => merging_one(vec, e, pg, zd, zn, Revh),
        UnaryOp::Revw => merging_one(vec, e, pg, zd, zn, Revw),
        UnaryOp::Rbit => merging_one(vec, e, pg, zd, zn, Rbit),
    }
}
