//! Operations of all lanes and an immediate.
ghost use Rattle.std.specs.Prelude.{◌≡◌, true};
ghost use Rattle.sve_insn.specs.declared.form.SveForm.{SveForm};
ghost use Rattle.sve_effects.specs.Effects as effects;

use crate::fields::{lane_immediate, wide_unsigned};
use crate::operations::plain_number;
use core_regs::Core;
use emu_bits::{Reg, U};
use lane_ops::{
    Add, And, Eor, Mul, Orr, Smax, Smin, SqaddAmount, SqsubAmount, Sub, Subr, Umax, Umin, Uqadd,
    Uqsub,
};
use register_lanes::{Number, plain};
use sve_effects::lane_bits;
use sve_insn::{BitmaskZOp, MinMaxImmOp, WideImmOp};
use vec_regs::VecRegs;

/// `add`, `sub`, `subr`, `sqadd`, `uqadd`, `sqsub`, `uqsub` of all lanes and an unsigned immediate of 8 bits, which
/// `sh` shifts by 8.
#[inline(never)]
pub(crate) fn wide_imm(
    core: &Core,
    vec: &mut VecRegs,
    op: WideImmOp,
    size: U<2>,
    sh: bool,
    imm8: U<8>,
    zdn: Reg,
)
    ensures { vec.new ≡ effects.vector_data (SveForm.WideImm op size sh imm8 zdn) core.now vec.old }
{
    let e = lane_bits(size);
    let n = wide_unsigned(sh, imm8);
    match op {
        WideImmOp::Add => plain_number(vec, e, zdn, zdn, n, Add),
        WideImmOp::Sub => plain_number(vec, e, zdn, zdn, n, Sub),
        WideImmOp::Subr => plain_number(vec, e, zdn, zdn, n, Subr),
        WideImmOp::Sqadd => plain_number(vec, e, zdn, zdn, n, SqaddAmount),
        WideImmOp::Uqadd => plain_number(vec, e, zdn, zdn, n, Uqadd),
        WideImmOp::Sqsub => plain_number(vec, e, zdn, zdn, n, SqsubAmount),
        WideImmOp::Uqsub => plain_number(vec, e, zdn, zdn, n, Uqsub),
    }
}

/// `smax`, `smin`, `mul`, `umax`, `umin` of all lanes and an immediate of 8 bits.
#[inline(never)]
pub(crate) fn min_max_imm(
    core: &Core,
    vec: &mut VecRegs,
    op: MinMaxImmOp,
    size: U<2>,
    imm8: U<8>,
    zdn: Reg,
)
    ensures { vec.new ≡ effects.vector_data (SveForm.MinMaxImm op size imm8 zdn) core.now vec.old }
{
    let e = lane_bits(size);
    let signed = lane_immediate(true, e, imm8);
    let unsigned = lane_immediate(false, e, imm8);
    match op {
        MinMaxImmOp::Smax => plain_number(vec, e, zdn, zdn, signed, Smax),
        MinMaxImmOp::Smin => plain_number(vec, e, zdn, zdn, signed, Smin),
        MinMaxImmOp::Mul => plain_number(vec, e, zdn, zdn, signed, Mul),
        MinMaxImmOp::Umax => plain_number(vec, e, zdn, zdn, unsigned, Umax),
        MinMaxImmOp::Umin => plain_number(vec, e, zdn, zdn, unsigned, Umin),
    }
}

/// `orr`, `eor`, `and` of a vector and a bitmask immediate of 64 bits; `dupm`, which puts it into each lane.
#[inline(never)]
pub(crate) fn bitmask(
    core: &Core,
    vec: &mut VecRegs,
    op: BitmaskZOp,
    n: bool,
    immr: U<6>,
    imms: U<6>,
    zdn: Reg,
)
    ensures { vec.new ≡ effects.vector_data (SveForm.BitmaskZ op n immr imms zdn) core.now vec.old }
{
    let n = emu_bits::bitmask(n, immr.get(), imms.get(), 64).unwrap_or(0);
    match op {
        BitmaskZOp::Orr => plain_number(vec, 64, zdn, zdn, n, Orr),
        BitmaskZOp::Eor => plain_number(vec, 64, zdn, zdn, n, Eor),
        BitmaskZOp::And => plain_number(vec, 64, zdn, zdn, n, And),
        BitmaskZOp::Dupm => plain(vec, 64, zdn, &Number { n }),
    }
}
