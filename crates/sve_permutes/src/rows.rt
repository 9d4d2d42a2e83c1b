//! The permutes that leave the general registers as they are.
ghost use Rattle.std.specs.Prelude.{◌≡◌, ◌<◌, ◌/◌, ◌^◌, true};
ghost use Rattle.sve_insn.specs.declared.form.SveForm.{SveForm};
ghost use Rattle.sve_insn.specs.Conditions.{is_no_byte};
ghost use Rattle.sve_effects.specs.LaneLoop.{lane_of};
ghost use Rattle.sve_effects.specs.Permute.{zip_place, uzp_place, trn_place};
ghost use Rattle.sve_effects.specs.PermuteRows as model;
ghost use Rattle.sve_effects.specs.Effects as effects;
ghost use Rattle.emu_model.specs.LaneSizes.{IsLaneSize};

use crate::chunks::{Extracted, Inserted, Reversed, Transposed, Unzipped, Zipped};
use crate::slices::widened_lanes;
use crate::table_lookup::table;
use crate::{active, moves};
use core_regs::Core;
use emu_bits::{Pred, PredLow, Reg, U};
use register_lanes::permuted;
use sve_effects::lane_bits;
use sve_insn::{CopyRegOp, InsertOp, InterleaveOp, UnpackOp, UnpackPOp};
use vec_regs::VecRegs;

/// `dup` of a general register, or of SP.
#[inline(never)]
pub(crate) fn dup_reg(core: &Core, vec: &mut VecRegs, size: U<2>, rn: Reg, zd: Reg)
    ensures { vec.new ≡ (effects.across (SveForm.DupReg size rn zd) core.now vec.old).vectors }
{
    moves::filled(vec, lane_bits(size), core.x_sp(rn), zd);
}

/// `insr`: lanes move up by one, and lane 0 is the source, a general or a vector register as `op` says.
#[inline(never)]
pub(crate) fn insert(core: &Core, vec: &mut VecRegs, op: InsertOp, size: U<2>, src: Reg, zdn: Reg)
    ensures { vec.new ≡ (effects.across (SveForm.Insert op size src zdn) core.now vec.old).vectors }
{
    let e = lane_bits(size);
    let scalar = insert_scalar(core, vec, op, e, src);
    permuted(vec, e, zdn, &Inserted { scalar, zn: zdn });
}

/// `rev` of the lanes of a vector.
#[inline(never)]
pub(crate) fn rev_z(core: &Core, vec: &mut VecRegs, size: U<2>, zn: Reg, zd: Reg)
    ensures { vec.new ≡ (effects.across (SveForm.RevZ size zn zd) core.now vec.old).vectors }
{
    permuted(vec, lane_bits(size), zd, &Reversed { zn });
}

/// `sunpklo`, `sunpkhi`, `uunpklo`, `uunpkhi`: lanes of half the size, extended; none has 8 bits.
#[tactic(auto, unfolding(sve_insn::specs::Conditions::is_no_byte))]
#[inline(never)]
pub(crate) fn unpack(core: &Core, vec: &mut VecRegs, op: UnpackOp, size: U<2>, zn: Reg, zd: Reg)
    requires { is_no_byte size ≡ true }
    ensures { vec.new ≡ (effects.across (SveForm.Unpack op size zn zd) core.now vec.old).vectors }
{
    match size.get() {
        0 => {}
        1 => widened_lanes::<u16, u8, 128, 256>(vec, op, zn, zd),
        2 => widened_lanes::<u32, u16, 64, 128>(vec, op, zn, zd),
        _ => widened_lanes::<u64, u32, 32, 64>(vec, op, zn, zd),
    }
}

/// `tbl`: the lanes of zn that the lanes of zm number, 0 where there is none.
#[inline(never)]
pub(crate) fn lookup(core: &Core, vec: &mut VecRegs, size: U<2>, zm: Reg, zn: Reg, zd: Reg)
    ensures { vec.new ≡ (effects.across (SveForm.Table size zm zn zd) core.now vec.old).vectors }
{
    table(vec, lane_bits(size), zm, zn, zd);
}

/// `zip1`, `zip2`, `uzp1`, `uzp2`, `trn1`, `trn2` of two vectors.
#[inline(never)]
pub(crate) fn interleave(
    core: &Core,
    vec: &mut VecRegs,
    op: InterleaveOp,
    size: U<2>,
    zm: Reg,
    zn: Reg,
    zd: Reg,
)
    ensures { vec.new ≡ (effects.across (SveForm.Interleave op size zm zn zd) core.now vec.old).vectors }
{
    let e = lane_bits(size);
    match op {
        InterleaveOp::Zip1 => zip(vec, false, e, zn, zm, zd),
        InterleaveOp::Zip2 => zip(vec, true, e, zn, zm, zd),
        InterleaveOp::Uzp1 => unzip(vec, false, e, zn, zm, zd),
        InterleaveOp::Uzp2 => unzip(vec, true, e, zn, zm, zd),
        InterleaveOp::Trn1 => transpose(vec, false, e, zn, zm, zd),
        InterleaveOp::Trn2 => transpose(vec, true, e, zn, zm, zd),
    }
}

/// Writes the lanes of two registers in turn: of their low halves, or of their high halves where `second` is true.
#[inline(always)]
fn zip(vec: &mut VecRegs, second: bool, e: u32, zn: Reg, zm: Reg, zd: Reg)
    requires { IsLaneSize e }
    ensures { vec.new ≡ model.with_places e (zip_place second (vec.old.bits / e)) zn zm 0 zd vec.old }
{
    permuted(vec, e, zd, &Zipped { second, zn, zm });
}

/// Writes the even lanes of two registers one after the other, or the odd lanes where `second` is true.
#[inline(always)]
fn unzip(vec: &mut VecRegs, second: bool, e: u32, zn: Reg, zm: Reg, zd: Reg)
    requires { IsLaneSize e }
    ensures { vec.new ≡ model.with_places e (uzp_place second (vec.old.bits / e)) zn zm 0 zd vec.old }
{
    permuted(vec, e, zd, &Unzipped { second, zn, zm });
}

/// Writes the even lanes of two registers in turn, or the odd lanes where `second` is true.
#[inline(always)]
fn transpose(vec: &mut VecRegs, second: bool, e: u32, zn: Reg, zm: Reg, zd: Reg)
    requires { IsLaneSize e }
    ensures { vec.new ≡ model.with_places e (trn_place second) zn zm 0 zd vec.old }
{
    permuted(vec, e, zd, &Transposed { second, zn, zm });
}

/// `zip1`, `zip2`, `uzp1`, `uzp2`, `trn1`, `trn2` of two predicates.
#[inline(never)]
pub(crate) fn interleave_p(
    core: &Core,
    vec: &mut VecRegs,
    op: InterleaveOp,
    size: U<2>,
    pm: Pred,
    pn: Pred,
    pd: Pred,
)
    ensures { vec.new ≡ (effects.across (SveForm.InterleaveP op size pm pn pd) core.now vec.old).vectors }
{
    pred_permutes::interleaved(vec, op, lane_bits(size), pn, pm, pd);
}

/// `punpklo`, `punpkhi`: the bits of the low or the high half, each to an even place.
#[inline(never)]
pub(crate) fn unpack_p(core: &Core, vec: &mut VecRegs, op: UnpackPOp, pn: Pred, pd: Pred)
    ensures { vec.new ≡ (effects.across (SveForm.UnpackP op pn pd) core.now vec.old).vectors }
{
    pred_permutes::unpacked(vec, op, pn, pd);
}

/// `rev` of the fields of a predicate.
#[inline(never)]
pub(crate) fn rev_p(core: &Core, vec: &mut VecRegs, size: U<2>, pn: Pred, pd: Pred)
    ensures { vec.new ≡ (effects.across (SveForm.RevP size pn pd) core.now vec.old).vectors }
{
    pred_permutes::reversed(vec, lane_bits(size), pn, pd);
}

/// `compact`: the active lanes, one behind the other from lane 0 on, and zeros above; of 32 and 64 bits.
#[inline(never)]
pub(crate) fn compact(core: &Core, vec: &mut VecRegs, size: U<2>, pg: PredLow, zn: Reg, zd: Reg)
    ensures { vec.new ≡ (effects.across (SveForm.Compact size pg zn zd) core.now vec.old).vectors }
{
    active::compacted(vec, lane_bits(size), pg.register(), zn, zd);
}

/// `splice`: the lanes of zdn from the first to the last active one, and behind them those of zm from lane 0 on.
#[inline(never)]
pub(crate) fn splice(core: &Core, vec: &mut VecRegs, size: U<2>, pg: PredLow, zm: Reg, zdn: Reg)
    ensures { vec.new ≡ (effects.across (SveForm.Splice size pg zm zdn) core.now vec.old).vectors }
{
    active::spliced(vec, lane_bits(size), pg.register(), zm, zdn);
}

/// `ext`: the bytes of zdn from a place on, and behind them those of zm.
#[inline(never)]
pub(crate) fn ext(core: &Core, vec: &mut VecRegs, imm8h: U<5>, imm8l: U<3>, zm: Reg, zdn: Reg)
    ensures { vec.new ≡ (effects.across (SveForm.Ext imm8h imm8l zm zdn) core.now vec.old).vectors }
{
    let from = imm8h.get() * 8 + imm8l.get();
    permuted(vec, 8, zdn, &Extracted { from, zn: zdn, zm });
}

/// `cpy` of a register to active lanes; the others keep their value.
#[inline(never)]
pub(crate) fn copy_reg(
    core: &Core,
    vec: &mut VecRegs,
    op: CopyRegOp,
    size: U<2>,
    pg: PredLow,
    rn: Reg,
    zd: Reg,
)
    ensures { vec.new ≡ (effects.across (SveForm.CopyReg op size pg rn zd) core.now vec.old).vectors }
{
    let e = lane_bits(size);
    let scalar = copy_scalar(core, vec, op, e, rn);
    moves::copied(vec, e, pg.register(), scalar, zd);
}

/// The scalar that is inserted.
fn insert_scalar(core: &Core, vec: &VecRegs, op: InsertOp, e: u32, src: Reg) -> u64
    requires { IsLaneSize e }
    ensures { result ≡ model.inserted_scalar op e src core.now vec.now }
{
    match op {
        InsertOp::InsrR => core.x(src),
        InsertOp::InsrV => low_lane(vec, e, src),
    }
}

/// The scalar that is copied.
fn copy_scalar(core: &Core, vec: &VecRegs, op: CopyRegOp, e: u32, rn: Reg) -> u64
    requires { IsLaneSize e }
    ensures { result ≡ model.copied_scalar op e rn core.now vec.now }
{
    match op {
        CopyRegOp::CpyR => core.x_sp(rn),
        CopyRegOp::CpyV => low_lane(vec, e, rn),
    }
}

/// The lowest lane of e bits.
pub(crate) fn low_lane(vec: &VecRegs, e: u32, r: Reg) -> u64
    requires { IsLaneSize e }
    ensures value { result ≡ lane_of e vec.now r 0 }
    ensures small { result < 2 ^ e }
{
    let _length = vec.length();
    vec.lane(r, e, 0)
}
