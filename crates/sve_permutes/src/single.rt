//! Single lanes, named by the last active one.
ghost use Rattle.std.specs.Prelude.{◌≡◌, ◌<◌, ◌/◌, IfSome};
ghost use Rattle.sve_insn.specs.declared.form.SveForm.{SveForm};
ghost use Rattle.sve_effects.specs.LaneLoop.{lane_of};
ghost use Rattle.sve_effects.specs.Permute as model;
ghost use Rattle.sve_effects.specs.PermuteRows as table;
ghost use Rattle.sve_effects.specs.Effects as effects;
ghost use Rattle.emu_model.specs.Lanes.{with_low};
ghost use Rattle.emu_model.specs.LaneSizes.{IsLaneSize};

use crate::active::{lane_by_last, last_active};
use crate::moves::filled;
use crate::rows::low_lane;
use core_regs::Core;
use emu_bits::{Pred, PredLow, Reg, U, low_bits};
use sve_effects::lane_bits;
use sve_insn::{CondLastOp, LastOp};
use vec_regs::VecRegs;

/// `lasta`, `lastb`: the lane behind the last active one, or that one, to a general register, or to the low bits of a
/// vector register with zeros above.
#[inline(never)]
pub(crate) fn last(
    core: &mut Core,
    vec: &mut VecRegs,
    op: LastOp,
    size: U<2>,
    pg: PredLow,
    zn: Reg,
    rd: Reg,
)
    ensures core { core.new ≡ (effects.across (SveForm.Last op size pg zn rd) core.old vec.old).core }
    ensures vectors { vec.new ≡ (effects.across (SveForm.Last op size pg zn rd) core.old vec.old).vectors }
{
    let e = lane_bits(size);
    let pg = pg.register();
    match op {
        LastOp::LastaR => core.set_x(rd, 64, last_value(vec, e, true, pg, zn)),
        LastOp::LastbR => core.set_x(rd, 64, last_value(vec, e, false, pg, zn)),
        LastOp::LastaV => {
            let x = last_value(vec, e, true, pg, zn);
            set_low_lane(vec, e, rd, x);
        }
        LastOp::LastbV => {
            let x = last_value(vec, e, false, pg, zn);
            set_low_lane(vec, e, rd, x);
        }
    }
}

/// `clasta`, `clastb`: the same where a lane is active; else the destination is kept.
#[inline(never)]
pub(crate) fn cond_last(
    core: &mut Core,
    vec: &mut VecRegs,
    op: CondLastOp,
    size: U<2>,
    pg: PredLow,
    zm: Reg,
    zdn: Reg,
)
    ensures core { core.new ≡ (effects.across (SveForm.CondLast op size pg zm zdn) core.old vec.old).core }
    ensures vectors { vec.new ≡ (effects.across (SveForm.CondLast op size pg zm zdn) core.old vec.old).vectors }
{
    let e = lane_bits(size);
    let pg = pg.register();
    match op {
        CondLastOp::ClastaR => to_general(core, vec, true, e, pg, zm, zdn),
        CondLastOp::ClastbR => to_general(core, vec, false, e, pg, zm, zdn),
        CondLastOp::ClastaV => to_low_lane(core, vec, true, e, pg, zm, zdn),
        CondLastOp::ClastbV => to_low_lane(core, vec, false, e, pg, zm, zdn),
        CondLastOp::ClastaZ => to_all_lanes(core, vec, true, e, pg, zm, zdn),
        CondLastOp::ClastbZ => to_all_lanes(core, vec, false, e, pg, zm, zdn),
    }
}

/// To a general register, which else has its own low e bits.
fn to_general(core: &mut Core, vec: &VecRegs, after: bool, e: u32, pg: Pred, zm: Reg, rdn: Reg)
    requires { IsLaneSize e }
    ensures core { core.new ≡ (table.cond_last_x after e pg zm rdn core.old vec.now).core }
    ensures vectors { vec.now ≡ (table.cond_last_x after e pg zm rdn core.old vec.now).vectors }
{
    let other = low_bits(core.x(rdn), e);
    core.set_x(rdn, 64, last_value_or(vec, other, after, e, pg, zm));
}

/// To the low lane of a vector register, which else keeps it; the lanes above are 0.
fn to_low_lane(core: &Core, vec: &mut VecRegs, after: bool, e: u32, pg: Pred, zm: Reg, vdn: Reg)
    requires { IsLaneSize e }
    ensures { vec.new ≡ (table.cond_last_low after e pg zm vdn core.now vec.old).vectors }
{
    let other = low_lane(vec, e, vdn);
    let x = last_value_or(vec, other, after, e, pg, zm);
    set_low_lane(vec, e, vdn, x);
}

/// To all lanes of a vector register, which else stays.
fn to_all_lanes(core: &Core, vec: &mut VecRegs, after: bool, e: u32, pg: Pred, zm: Reg, zdn: Reg)
    requires { IsLaneSize e }
    ensures { vec.new ≡ (table.cond_last_lanes after e pg zm zdn core.now vec.old).vectors }
{
    let found = last_active(vec, e, pg);
    if found.is_some() {
        let x = lane_named(vec, e, after, found, zm);
        filled(vec, e, x, zdn);
    }
}

/// The lane that the last active one names.
fn last_value(vec: &VecRegs, e: u32, after: bool, pg: Pred, zn: Reg) -> u64
    requires { IsLaneSize e }
    ensures { result ≡ table.last_value after e pg zn vec.now }
{
    lane_named(vec, e, after, last_active(vec, e, pg), zn)
}

/// The same where a lane is active, else another number.
fn last_value_or(vec: &VecRegs, other: u64, after: bool, e: u32, pg: Pred, zn: Reg) -> u64
    requires { IsLaneSize e }
    ensures { result ≡ table.last_value_or other after e pg zn vec.now }
{
    let found = last_active(vec, e, pg);
    if found.is_some() {
        lane_named(vec, e, after, found, zn)
    } else {
        other
    }
}

/// The lane that a last active one names, or the lack of one.
fn lane_named(vec: &VecRegs, e: u32, after: bool, found: Option<u32>, zn: Reg) -> u64
    requires size { IsLaneSize e }
    requires within { IfSome found (λ k. k < vec.now.bits / e) }
    ensures { result ≡ lane_of e vec.now zn (model.lane_by_last after (vec.now.bits / e) found) }
{
    let n = vec.length().bits() / e;
    vec.lane(zn, e, lane_by_last(after, n, found))
}

/// Writes the low e bits of a vector register, and zeros above.
pub(crate) fn set_low_lane(vec: &mut VecRegs, e: u32, r: Reg, x: u64)
    requires { IsLaneSize e }
    ensures { vec.new ≡ with_low e x r vec.old }
{
    vec.set_low(r, e, u128::from(x));
}
