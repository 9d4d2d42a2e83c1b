//! A number in the lanes of a register, in all of them or in the active ones.
ghost use Rattle.std.specs.Prelude.{◌≡◌, ◌/◌};
ghost use Rattle.sve_effects.specs.LaneLoop.{lane_of, is_active};
ghost use Rattle.sve_effects.specs.Permute.{taken, indexed_place, copy_place};
ghost use Rattle.sve_effects.specs.PermuteRows as model;
ghost use Rattle.emu_model.specs.Lanes.{with_lanes};
ghost use Rattle.emu_model.specs.LaneSizes.{IsLaneSize};

use emu_bits::{Pred, Reg};
use register_lanes::{Number, merging, plain};
use vec_regs::VecRegs;

/// Writes a number to each lane of e bits of zd.
pub(crate) fn filled(vec: &mut VecRegs, e: u32, x: u64, zd: Reg)
    requires { IsLaneSize e }
    ensures { vec.new ≡ with_lanes e (λ k. x) zd vec.old }
{
    plain(vec, e, zd, &Number { n: x });
}

/// Lane i of zn, or 0 where there is none.
pub(crate) fn indexed(vec: &VecRegs, e: u32, zn: Reg, i: u64) -> u64
    requires { IsLaneSize e }
    ensures { result ≡ taken (lane_of e vec.now zn) (lane_of e vec.now zn) 0 0 (indexed_place i (vec.now.bits / e)) }
{
    if i < u64::from(vec.length().bits() / e) {
        vec.lane(zn, e, i as u32)
    } else {
        0
    }
}

/// Writes a scalar to the active lanes of zd.
#[tactic(auto, using(crate::proofs::CopiedLanes::copied_is))]
pub(crate) fn copied(vec: &mut VecRegs, e: u32, pg: Pred, scalar: u64, zd: Reg)
    requires { IsLaneSize e }
    ensures { vec.new ≡ model.with_places e (copy_place (is_active e vec.old pg)) zd zd scalar zd vec.old }
{
    merging(vec, e, pg, zd, Number { n: scalar });
}
