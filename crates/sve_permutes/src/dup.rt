//! A lane of a register in each lane of another.
ghost use Rattle.std.specs.Prelude.{◌≡◌, ◌<◌, ◌≤◌, ◌≢◌, ◌+◌, ◌*◌, ◌/◌, ◌%◌, ◌^◌, if◌then◌else◌, nat_eq};
ghost use Rattle.sve_insn.specs.declared.form.SveForm.{SveForm};
ghost use Rattle.sve_effects.specs.LaneLoop.{lane_of};
ghost use Rattle.sve_effects.specs.Permute.{taken, indexed_place};
ghost use Rattle.sve_effects.specs.PermuteRows as table;
ghost use Rattle.sve_effects.specs.Effects as effects;
ghost use Rattle.emu_model.specs.Lanes.{with_lanes};
ghost use Rattle.emu_model.specs.LaneSizes.{IsLaneSize};

use crate::chunks::Turns;
use crate::moves::{filled, indexed};
use core_regs::Core;
use emu_bits::{Reg, U};
use register_lanes::permuted;
use vec_regs::VecRegs;

/// Does a dup of a lane of 8 to 128 bits.
#[inline(never)]
pub(crate) fn dup_lane(core: &Core, vec: &mut VecRegs, imm2: U<2>, tsz: U<5>, zn: Reg, zd: Reg)
    ensures { vec.new ≡ (effects.across (SveForm.DupLane imm2 tsz zn zd) core.now vec.old).vectors }
{
    let p = lowest_bit(tsz.get());
    let i = (imm2.get() * 32 + tsz.get()) >> (p + 1);
    match p {
        0 => dup(vec, 8, i, zn, zd),
        1 => dup(vec, 16, i, zn, zd),
        2 => dup(vec, 32, i, zn, zd),
        3 => dup(vec, 64, i, zn, zd),
        _ => dup_quad(vec, i, zn, zd),
    }
}

/// The place of the lowest set bit of tsz.
fn lowest_bit(tsz: u32) -> u32
    ensures value { result ≡ table.lowest_bit tsz }
    ensures small { result ≤ 4 }
{
    if tsz % 2 == 1 {
        0
    } else if tsz / 2 % 2 == 1 {
        1
    } else if tsz / 4 % 2 == 1 {
        2
    } else if tsz / 8 % 2 == 1 {
        3
    } else {
        4
    }
}

/// Lane i of 8 to 64 bits in each lane, or 0.
fn dup(vec: &mut VecRegs, e: u32, i: u32, zn: Reg, zd: Reg)
    requires { IsLaneSize e }
    ensures { vec.new ≡ table.with_places e (λ k. indexed_place i (vec.old.bits / e)) zn zn 0 zd vec.old }
{
    let x = indexed(vec, e, zn, u64::from(i));
    filled(vec, e, x, zd);
}

/// Lane i of 128 bits in each lane, or 0: two lanes of 64 bits in turn.
#[tactic(auto, using(crate::proofs::Quads::quad_rules))]
fn dup_quad(vec: &mut VecRegs, i: u32, zn: Reg, zd: Reg)
    ensures { vec.new ≡ table.with_places 128 (λ k. indexed_place i (vec.old.bits / 128)) zn zn 0 zd vec.old }
{
    if i < vec.length().bits() / 128 {
        let low = vec.lane(zn, 64, 2 * i);
        let high = vec.lane(zn, 64, 2 * i + 1);
        in_turn(vec, low, high, zd);
    } else {
        in_turn(vec, 0, 0, zd);
    }
}

/// Writes two numbers in turn to the lanes of 64 bits.
fn in_turn(vec: &mut VecRegs, low: u64, high: u64, zd: Reg)
    ensures { vec.new ≡ with_lanes 64 (λ k. if nat_eq (k % 2) 0 then low else high) zd vec.old }
{
    permuted(vec, 64, zd, &Turns { low, high });
}
