//! Copies of lanes and of immediates.
ghost use Rattle.std.specs.Prelude.{◌≡◌, true};
ghost use Rattle.sve_insn.specs.declared.form.SveForm.{SveForm};
ghost use Rattle.sve_effects.specs.VectorData as table;
ghost use Rattle.sve_effects.specs.Effects as effects;
ghost use Rattle.emu_model.specs.LaneSizes.{IsLaneSize};

use crate::fields::wide_signed;
use core_regs::Core;
use emu_bits::{Pred, PredLow, Reg, U};
use register_lanes::{Chunks, LaneOf, Local, Number, Select, merging, plain, zeroing};
use sve_effects::lane_bits;
use sve_insn::Sve;
use vec_regs::VecRegs;

/// Writes the active lanes; the others keep their value where `merges` is set (/m), else they are 0 (/z).
fn copied<L: Local + Chunks<u8, 16> + Chunks<u16, 8> + Chunks<u32, 4> + Chunks<u64, 2> + Drop>(
    vec: &mut VecRegs,
    merges: bool,
    e: u32,
    pg: Pred,
    zd: Reg,
    lanes: L,
)
    requires { IsLaneSize e }
    ensures { vec.new ≡ table.merging_or_zeroing merges e pg (L.Gives.value lanes e vec.old) zd vec.old }
{
    if merges {
        merging(vec, e, pg, zd, lanes);
    } else {
        zeroing(vec, e, pg, zd, lanes);
    }
}

/// `dup` of a signed immediate of 8 bits, which `sh` shifts by 8.
#[inline(never)]
pub(crate) fn dup_imm(core: &Core, vec: &mut VecRegs, size: U<2>, sh: bool, imm8: U<8>, zd: Reg)
    ensures { vec.new ≡ effects.vector_data (SveForm.DupImm size sh imm8 zd) core.now vec.old }
{
    let e = lane_bits(size);
    let n = wide_signed(e, sh, imm8);
    plain(vec, e, zd, &Number { n });
}

/// `cpy` of a signed immediate to active lanes; the others are kept where `m` is set (/m), else 0.
#[inline(never)]
pub(crate) fn copy_imm(
    core: &Core,
    vec: &mut VecRegs,
    size: U<2>,
    pg: Pred,
    m: bool,
    sh: bool,
    imm8: U<8>,
    zd: Reg,
)
    ensures { vec.new ≡ effects.vector_data (SveForm.CopyImm size pg m sh imm8 zd) core.now vec.old }
{
    let e = lane_bits(size);
    let n = wide_signed(e, sh, imm8);
    copied(vec, m, e, pg, zd, Number { n });
}

/// `movprfx` under a predicate: active lanes are copied; the others are kept where `m` is set (/m), else 0.
#[inline(never)]
pub(crate) fn prefix_p(
    core: &Core,
    vec: &mut VecRegs,
    size: U<2>,
    m: bool,
    pg: PredLow,
    zn: Reg,
    zd: Reg,
)
    ensures { vec.new ≡ effects.vector_data (SveForm.PrefixP size m pg zn zd) core.now vec.old }
{
    let lanes = LaneOf { r: zn };
    copied(vec, m, lane_bits(size), pg.register(), zd, lanes);
}

/// `movprfx` of a whole vector.
#[inline(never)]
pub(crate) fn prefix(core: &Core, vec: &mut VecRegs, zn: Reg, zd: Reg)
    ensures { vec.new ≡ effects.vector_data (SveForm.Prefix zn zd) core.now vec.old }
{
    plain(vec, 64, zd, &LaneOf { r: zn });
}

/// `sel`: lanes of zn where active, else of zm.
#[inline(never)]
pub(crate) fn select(
    core: &Core,
    vec: &mut VecRegs,
    size: U<2>,
    zm: Reg,
    pg: Pred,
    zn: Reg,
    zd: Reg,
)
    ensures { vec.new ≡ effects.vector_data (SveForm.SelectZ size zm pg zn zd) core.now vec.old }
{
    let lanes = Select { pg, zn, zm };
    plain(vec, lane_bits(size), zd, &lanes);
}
