//! Counts of lanes, and multiples of the vector length.
ghost use Rattle.std.specs.Prelude.{◌≡◌, ◌≤◌, ◌⊎◌, true};
ghost use Rattle.sve_insn.specs.declared.form.SveForm.{SveForm};
ghost use Rattle.sve_effects.specs.Counts as table;
ghost use Rattle.sve_effects.specs.Lane.{lane_op};
ghost use Rattle.sve_effects.specs.Effects as effects;
ghost use Rattle.sve_effects.specs.LaneLoop as loops;
ghost use Rattle.sve_effects.specs.LaneLoop.{lane_of};
ghost use Rattle.emu_model.specs.LaneSizes.{IsLaneSize};

use core_regs::Core;
use emu_bits::{Reg, U, low_bits, sext, sign_extended};
use lane_kernels::LaneWise2;
use lane_ops::{Add, SqaddAmount, SqsubAmount, Sub, Uqadd, Uqsub, WithNumber};
use pred_bits::pattern_count;
use register_lanes::{Map1, plain};
use sve_effects::{LaneOp, lane_bits};
use sve_elements::apply;
use sve_insn::{AddLengthOp, IncOp, SatOp};
use vec_regs::VecRegs;

/// The pattern of all lanes.
const ALL_LANES: u32 = 31;

/// `cntb`, `cnth`, `cntw`, `cntd`: imm4 + 1 times the lanes that a pattern names.
#[inline(never)]
pub(crate) fn count(core: &mut Core, vec: &VecRegs, size: U<2>, imm4: U<4>, pattern: U<5>, rd: Reg)
    ensures core { core.new ≡ (effects.across (SveForm.Count size imm4 pattern rd) core.old vec.now).core }
    ensures vectors { vec.now ≡ (effects.across (SveForm.Count size imm4 pattern rd) core.old vec.now).vectors }
{
    if pattern.get() == ALL_LANES {
        core.set_x(rd, 64, count_of_all(vec, size, imm4, pattern));
    } else {
        count_by_pattern(core, vec, size, imm4, pattern, rd);
    }
}

/// The same by any pattern. In code of its own, since few instructions name another one than that of all lanes.
#[inline(never)]
fn count_by_pattern(core: &mut Core, vec: &VecRegs, size: U<2>, imm4: U<4>, pattern: U<5>, rd: Reg)
    ensures core { core.new ≡ (effects.across (SveForm.Count size imm4 pattern rd) core.old vec.now).core }
    ensures vectors { vec.now ≡ (effects.across (SveForm.Count size imm4 pattern rd) core.old vec.now).vectors }
{
    core.set_x(rd, 64, count_of(vec, size, imm4, pattern));
}

/// `incb`, `decb` and those of `h`, `w`, `d`: that number added to a general register, or subtracted from it.
#[inline(never)]
pub(crate) fn inc_x(
    core: &mut Core,
    vec: &VecRegs,
    op: IncOp,
    size: U<2>,
    imm4: U<4>,
    pattern: U<5>,
    rdn: Reg,
)
    ensures core { core.new ≡ (effects.across (SveForm.IncX op size imm4 pattern rdn) core.old vec.now).core }
    ensures vectors { vec.now ≡ (effects.across (SveForm.IncX op size imm4 pattern rdn) core.old vec.now).vectors }
{
    if pattern.get() == ALL_LANES {
        let count = count_of_all(vec, size, imm4, pattern);
        core.set_x(rdn, 64, inc_counted(op, core.x(rdn), count));
    } else {
        inc_by_pattern(core, vec, op, size, imm4, pattern, rdn);
    }
}

/// The same by any pattern, in code of its own.
#[inline(never)]
fn inc_by_pattern(
    core: &mut Core,
    vec: &VecRegs,
    op: IncOp,
    size: U<2>,
    imm4: U<4>,
    pattern: U<5>,
    rdn: Reg,
)
    ensures core { core.new ≡ (effects.across (SveForm.IncX op size imm4 pattern rdn) core.old vec.now).core }
    ensures vectors { vec.now ≡ (effects.across (SveForm.IncX op size imm4 pattern rdn) core.old vec.now).vectors }
{
    let count = count_of(vec, size, imm4, pattern);
    core.set_x(rdn, 64, inc_counted(op, core.x(rdn), count));
}

/// `inch`, `dech` and those of `w`, `d`: that number added to each lane of a vector, or subtracted from it.
#[inline(never)]
pub(crate) fn inc_z(
    core: &Core,
    vec: &mut VecRegs,
    op: IncOp,
    size: U<2>,
    imm4: U<4>,
    pattern: U<5>,
    zdn: Reg,
)
    ensures { vec.new ≡ (effects.across (SveForm.IncZ op size imm4 pattern zdn) core.now vec.old).vectors }
{
    let e = lane_bits(size);
    let count = count_of(vec, size, imm4, pattern);
    match op {
        IncOp::Inc => counted_lanes(vec, e, zdn, count, Add),
        IncOp::Dec => counted_lanes(vec, e, zdn, count, Sub),
    }
}

/// `sqincb`, `uqincb`, `sqdecb`, `uqdecb` and those of `h`, `w`, `d` of a general register, saturating at 64 bits, or
/// at 32 where `sf` is not set.
#[inline(never)]
pub(crate) fn sat_x(
    core: &mut Core,
    vec: &VecRegs,
    op: SatOp,
    size: U<2>,
    sf: bool,
    imm4: U<4>,
    pattern: U<5>,
    rdn: Reg,
)
    ensures core { core.new ≡ (effects.across (SveForm.SatX op size sf imm4 pattern rdn) core.old vec.now).core }
    ensures vectors { vec.now ≡ (effects.across (SveForm.SatX op size sf imm4 pattern rdn) core.old vec.now).vectors }
{
    let count = count_of(vec, size, imm4, pattern);
    let w = if sf { 64 } else { 32 };
    core.set_x(rdn, 64, sat_counted(op, w, core.x(rdn), count));
}

/// `sqinch`, `uqinch`, `sqdech`, `uqdech` and those of `w`, `d` of each lane of a vector, saturating.
#[inline(never)]
pub(crate) fn sat_z(
    core: &Core,
    vec: &mut VecRegs,
    op: SatOp,
    size: U<2>,
    imm4: U<4>,
    pattern: U<5>,
    zdn: Reg,
)
    ensures { vec.new ≡ (effects.across (SveForm.SatZ op size imm4 pattern zdn) core.now vec.old).vectors }
{
    let e = lane_bits(size);
    let count = count_of(vec, size, imm4, pattern);
    match op {
        SatOp::Sqinc => counted_lanes(vec, e, zdn, count, SqaddAmount),
        SatOp::Uqinc => counted_lanes(vec, e, zdn, count, Uqadd),
        SatOp::Sqdec => counted_lanes(vec, e, zdn, count, SqsubAmount),
        SatOp::Uqdec => counted_lanes(vec, e, zdn, count, Uqsub),
    }
}

/// `addvl`, `addpl`: a register and the signed imm6 times the bytes of a vector register, or of a predicate register.
#[inline(never)]
pub(crate) fn add_length(
    core: &mut Core,
    vec: &VecRegs,
    op: AddLengthOp,
    rn: Reg,
    imm6: U<6>,
    rd: Reg,
)
    ensures core { core.new ≡ (effects.across (SveForm.AddLength op rn imm6 rd) core.old vec.now).core }
    ensures vectors { vec.now ≡ (effects.across (SveForm.AddLength op rn imm6 rd) core.old vec.now).vectors }
{
    let by = multiple(imm6, length_of(vec, op));
    core.set_x_sp(rd, 64, core.x_sp(rn).wrapping_add_signed(by));
}

/// `rdvl`: the signed imm6 times the bytes of a vector register.
#[inline(never)]
pub(crate) fn read_length(core: &mut Core, vec: &VecRegs, imm6: U<6>, rd: Reg)
    ensures core { core.new ≡ (effects.across (SveForm.ReadLength imm6 rd) core.old vec.now).core }
    ensures vectors { vec.now ≡ (effects.across (SveForm.ReadLength imm6 rd) core.old vec.now).vectors }
{
    let by = multiple(imm6, length_of(vec, AddLengthOp::Addvl));
    core.set_x(rd, 64, low_bits(by.cast_unsigned(), 64));
}

/// The lanes that a pattern names, imm4 + 1 times.
#[tactic(auto, using(crate::proofs::SomeLanes::some_lanes))]
fn count_of(vec: &VecRegs, size: U<2>, imm4: U<4>, pattern: U<5>) -> u64
    ensures { result ≡ table.count_of size imm4 pattern vec.now }
{
    let n = vec.length().bits() / lane_bits(size);
    u64::from(pattern_count(pattern, n)) * u64::from(imm4.get() + 1)
}

/// The same of the pattern of all lanes.
#[inline(always)]
fn count_of_all(vec: &VecRegs, size: U<2>, imm4: U<4>, pattern: U<5>) -> u64
    requires { pattern ≡ 31 }
    ensures { result ≡ table.count_of size imm4 pattern vec.now }
{
    let n = vec.length().bits() / lane_bits(size);
    u64::from(n) * u64::from(imm4.get() + 1)
}

/// Writes what an operation makes of each lane of zdn and a count to it.
#[inline(always)]
fn counted_lanes<F: LaneWise2 + Drop>(vec: &mut VecRegs, e: u32, zdn: Reg, count: u64, op: F)
    requires { IsLaneSize e }
    ensures { vec.new ≡ loops.every_lane e (λ k. F.entry op e (lane_of e vec.old zdn k) count) zdn vec.old }
{
    let op = WithNumber { op, n: count };
    plain(vec, e, zdn, &Map1 { op, zn: zdn });
}

/// A number of 64 bits with a count added or subtracted.
#[inline(always)]
fn inc_counted(op: IncOp, x: u64, count: u64) -> u64
    ensures { result ≡ lane_op (table.inc_lane_op op) 64 x count }
{
    match op {
        IncOp::Inc => x.wrapping_add(count),
        IncOp::Dec => x.wrapping_sub(count),
    }
}

/// The low w bits of a number and a count, saturating, and extended to 64 bits.
fn sat_counted(op: SatOp, w: u32, x: u64, count: u64) -> u64
    requires { (w ≡ 32) ⊎ (w ≡ 64) }
    ensures { result ≡ table.sat_counted op w x count }
{
    let result = apply(sat_lane_op(op), w, low_bits(x, w), count);
    if saturates_signed(op) {
        sign_extended(result, w, 64)
    } else {
        result
    }
}

/// The signed imm6 times a number of bytes.
fn multiple(imm6: U<6>, bytes: u32) -> i64
    requires { bytes ≤ 256 }
    ensures { result ≡ table.multiple imm6 bytes }
{
    sext(u64::from(imm6.get()), 6) * bytes as i64
}

/// The bytes of a Z register, or of a predicate.
fn length_of(vec: &VecRegs, op: AddLengthOp) -> u32
    ensures value { result ≡ table.length_of op vec.now }
    ensures small { result ≤ 256 }
{
    match op {
        AddLengthOp::Addvl => vec.length().bits() / 8,
        AddLengthOp::Addpl => vec.length().bits() / 64,
    }
}

fn sat_lane_op(op: SatOp) -> LaneOp
    ensures { result ≡ (table.saturating op).0 }
{
    match op {
        SatOp::Sqinc => LaneOp::SqaddAmount,
        SatOp::Uqinc => LaneOp::Uqadd,
        SatOp::Sqdec => LaneOp::SqsubAmount,
        SatOp::Uqdec => LaneOp::Uqsub,
    }
}

fn saturates_signed(op: SatOp) -> bool
    ensures { result ≡ (table.saturating op).1 }
{
    matches!(op, SatOp::Sqinc | SatOp::Sqdec)
}
