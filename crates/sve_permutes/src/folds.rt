//! Folds over the active lanes of a register.
ghost use Rattle.std.specs.Prelude.{◌≡◌};
ghost use Rattle.sve_insn.specs.declared.form.SveForm.{SveForm};
ghost use Rattle.sve_effects.specs.LaneLoop.{folding};
ghost use Rattle.sve_effects.specs.Fold as table;
ghost use Rattle.sve_effects.specs.Effects as effects;
ghost use Rattle.emu_model.specs.LaneSizes.{IsLaneSize};

use crate::single::set_low_lane;
use core_regs::Core;
use emu_bits::{Pred, PredLow, Reg, U};
use lane_tests::{Andv, Eorv, Orv, Saddv, Smaxv, Sminv, Uaddv, Umaxv, Uminv, fold_active};
use sve_effects::lane_bits;
use sve_insn::ReduceOp;
use vec_regs::VecRegs;

/// `saddv`, `uaddv`, `smaxv` and the other folds of active lanes to one number, in the low bits of vd with zeros
/// above.
#[inline(never)]
pub(crate) fn reduce(
    core: &Core,
    vec: &mut VecRegs,
    op: ReduceOp,
    size: U<2>,
    pg: PredLow,
    zn: Reg,
    vd: Reg,
)
    ensures { vec.new ≡ (effects.across (SveForm.Reduce op size pg zn vd) core.now vec.old).vectors }
{
    let e = lane_bits(size);
    let x = folded(vec, op, e, pg.register(), zn);
    set_low_lane(vec, bits(op, e), vd, x);
}

/// The fold of the active lanes, in the order of lanes.
fn folded(vec: &VecRegs, op: ReduceOp, e: u32, pg: Pred, zn: Reg) -> u64
    requires { IsLaneSize e }
    ensures { result ≡ folding e pg (table.reduce_step op e) (table.reduce_start op e) zn vec.now }
{
    match op {
        ReduceOp::Saddv => fold_active(vec, &Saddv, e, pg, zn),
        ReduceOp::Uaddv => fold_active(vec, &Uaddv, e, pg, zn),
        ReduceOp::Smaxv => fold_active(vec, &Smaxv, e, pg, zn),
        ReduceOp::Umaxv => fold_active(vec, &Umaxv, e, pg, zn),
        ReduceOp::Sminv => fold_active(vec, &Sminv, e, pg, zn),
        ReduceOp::Uminv => fold_active(vec, &Uminv, e, pg, zn),
        ReduceOp::Orv => fold_active(vec, &Orv, e, pg, zn),
        ReduceOp::Eorv => fold_active(vec, &Eorv, e, pg, zn),
        ReduceOp::Andv => fold_active(vec, &Andv, e, pg, zn),
    }
}

/// The bits of the result.
fn bits(op: ReduceOp, e: u32) -> u32
    requires { IsLaneSize e }
    ensures value { result ≡ table.reduce_bits op e }
    ensures size { IsLaneSize result }
{
    match op {
        ReduceOp::Saddv | ReduceOp::Uaddv => 64,
        _ => e,
    }
}
