//! Products added to lanes or subtracted from them.
ghost use Rattle.std.specs.Prelude.{◌≡◌, ◌/◌, ◌%◌, ◌<◌, ◌^◌, true};
ghost use Rattle.sve_insn.specs.declared.form.SveForm.{SveForm};
ghost use Rattle.emu_model.specs.LaneSizes.{IsLaneSize};
ghost use Rattle.sve_effects.specs.VectorData as table;
ghost use Rattle.sve_effects.specs.Effects as effects;

use crate::names::dot_indexed_signed;
use crate::operations::{merging_three, plain_indexed};
use core_regs::Core;
use emu_bits::{PredLow, Reg, U};
use lane_ops::{Mad, Mla, Mls, Msb, Sdot, Udot};
use register_lanes::{Map3, plain};
use sve_effects::lane_bits;
use sve_insn::{DotIndexedOp, DotOp, MulAddDOp, MulAddZOp};
use vec_regs::VecRegs;

/// `mla`, `mls`: where active, the product of zn and zm is added to zda, or subtracted from it.
#[inline(never)]
pub(crate) fn mul_add_z(
    core: &Core,
    vec: &mut VecRegs,
    op: MulAddZOp,
    size: U<2>,
    zm: Reg,
    pg: PredLow,
    zn: Reg,
    zda: Reg,
)
    ensures { vec.new ≡ effects.vector_data (SveForm.MulAddZ op size zm pg zn zda) core.now vec.old }
{
    let e = lane_bits(size);
    let pg = pg.register();
    match op {
        MulAddZOp::Mla => merging_three(vec, e, pg, zda, zn, zm, Mla),
        MulAddZOp::Mls => merging_three(vec, e, pg, zda, zn, zm, Mls),
    }
}

/// `mad`, `msb`: where active, the product of zdn and zm is added to za, or subtracted from it.
#[inline(never)]
pub(crate) fn mul_add_d(
    core: &Core,
    vec: &mut VecRegs,
    op: MulAddDOp,
    size: U<2>,
    zm: Reg,
    pg: PredLow,
    za: Reg,
    zdn: Reg,
)
    ensures { vec.new ≡ effects.vector_data (SveForm.MulAddD op size zm pg za zdn) core.now vec.old }
{
    let e = lane_bits(size);
    let pg = pg.register();
    match op {
        MulAddDOp::Mad => merging_three(vec, e, pg, zdn, zm, za, Mad),
        MulAddDOp::Msb => merging_three(vec, e, pg, zdn, zm, za, Msb),
    }
}

/// `sdot`, `udot`: the sum of the products of the four quarters of lanes of 32 or 64 bits, added to zda.
#[inline(never)]
pub(crate) fn dot(core: &Core, vec: &mut VecRegs, op: DotOp, size: U<2>, zm: Reg, zn: Reg, zda: Reg)
    ensures { vec.new ≡ effects.vector_data (SveForm.Dot op size zm zn zda) core.now vec.old }
{
    let e = lane_bits(size);
    let za = zda;
    match op {
        DotOp::Sdot => {
            let op = Sdot;
            plain(vec, e, zda, &Map3 { op, za, zn, zm });
        }
        DotOp::Udot => {
            let op = Udot;
            plain(vec, e, zda, &Map3 { op, za, zn, zm });
        }
    }
}

/// `sdot`, `udot` with the quarters of one lane of the same 128 bits of zm, which `i_zm` names with its register.
#[inline(never)]
pub(crate) fn dot_indexed(
    core: &Core,
    vec: &mut VecRegs,
    op: DotIndexedOp,
    i_zm: U<5>,
    zn: Reg,
    zda: Reg,
)
    ensures { vec.new ≡ effects.vector_data (SveForm.DotIndexed op i_zm zn zda) core.now vec.old }
{
    let n = i_zm.get();
    let is_signed = dot_indexed_signed(op);
    match op {
        DotIndexedOp::SdotS | DotIndexedOp::UdotS => {
            dot_with_lane(vec, is_signed, 32, n / 8, Reg::at(n % 8, 0), zn, zda)
        }
        DotIndexedOp::SdotD | DotIndexedOp::UdotD => {
            dot_with_lane(vec, is_signed, 64, n / 16, Reg::at(n % 16, 0), zn, zda)
        }
    }
}

/// Dot products with lane i of each 128 bits of zm.
fn dot_with_lane(vec: &mut VecRegs, is_signed: bool, e: u32, i: u32, zm: Reg, zn: Reg, zda: Reg)
    requires size { IsLaneSize e }
    requires within { i < 128 / e }
    ensures { vec.new ≡ table.dot_indexed_lanes is_signed e i zm zn zda vec.old }
{
    if is_signed {
        plain_indexed(vec, e, zda, zn, zm, i, Sdot);
    } else {
        plain_indexed(vec, e, zda, zn, zm, i, Udot);
    }
}
