//! Predicates lane by lane: the next lane, patterns, loops and counts.
ghost use Rattle.std.specs.Prelude.{◌≡◌, ◌⊎◌, ◌≤◌, ◌/◌, true, length};
ghost use Rattle.emu_bits.specs.Numbers.{width_of};
ghost use Rattle.emu_model.specs.State.{read_x};
ghost use Rattle.sve_effects.specs.Lane.{lane_op};
ghost use Rattle.sve_effects.specs.Effects.{predicate};
ghost use Rattle.sve_effects.specs.LaneLoop.{lane_bits, lane_of};
ghost use Rattle.sve_effects.specs.PredicateRows.{
  predicate_bits,
  set_lanes_of,
  ptrue_flags,
  ones,
  while_of,
  while_result,
  counted_by,
  terminates,
  termination_flags,
};
ghost use Rattle.sve_effects.specs.Pattern.{pattern_count};
ghost use Rattle.sve_effects.specs.Predicate.{only_next, lanes_below, pred_test};
ghost use Rattle.sve_insn.specs.declared.form.SveForm.TheVariants as form;
ghost use Rattle.sve_pred.specs.Patterns as model;
ghost use Rattle.emu_model.specs.Lanes.{read_p, with_p, with_lanes};
ghost use Rattle.emu_model.specs.LaneSizes.{IsLaneSize};

use crate::registers::{bits, esize, read, set_test_lanes, write};
use core_regs::Core;
use emu_bits::{Flags, Pred, Reg, U, low_bits};
use lane_kernels::LaneWise2;
use lane_ops::{Add, Sub, WithNumber};
use pred_bits::{
    PredBits, WhileTest, all_lanes, first_lanes, next_tested, pattern_count, while_tested,
};
use register_lanes::{Map1, plain};
use sve_elements::{LaneOp, apply};
use sve_insn::{CtermOp, IncPOp, PtrueOp, WhileOp};
use vec_regs::VecRegs;

/// The pattern of all lanes.
const ALL_LANES: u32 = 31;

/// The result of `pnext`, and its flags.
#[inline(always)]
#[tactic(auto, using(crate::proofs::Lengths::lengths))]
fn next_bits(vec: &VecRegs, size: U<2>, pg: Pred, pdn: Pred) -> (PredBits, Flags)
    ensures value { result.0
        ≡ only_next (lane_bits size) (predicate_bits vec.now) (read_p vec.now pg) (read_p vec.now pdn) }
    ensures length { length result.0 ≡ predicate_bits vec.now }
    ensures flags { result.1 ≡ pred_test (lane_bits size) (predicate_bits vec.now) (read_p vec.now pg)
        (only_next (lane_bits size) (predicate_bits vec.now) (read_p vec.now pg) (read_p vec.now pdn)) }
{
    let _length = vec.length().bits();
    next_tested(&read(vec, pg), &read(vec, pdn), esize(size))
}

/// `pnext`.
#[inline(never)]
pub fn next_lane(core: &mut Core, vec: &mut VecRegs, size: U<2>, pg: Pred, pdn: Pred)
    ensures registers { core.new ≡ (predicate (form.Next size pg pdn) core.old vec.old).core }
    ensures vectors { vec.new ≡ (predicate (form.Next size pg pdn) core.old vec.old).vectors }
{
    let (lane, flags) = next_bits(vec, size, pg, pdn);
    core.set_flags(flags);
    write(vec, pdn, &lane);
}

/// `cntp`.
#[inline(never)]
pub fn count_p(core: &mut Core, vec: &VecRegs, size: U<2>, pg: Pred, pn: Pred, rd: Reg)
    ensures { core.new ≡ (predicate (form.CountP size pg pn rd) core.old vec.now).core }
{
    let n = pred_bits::count(&read(vec, pg), &read(vec, pn), esize(size));
    core.set_x(rd, 64, n as u64);
}

/// Whether the flags are set.
#[inline(always)]
fn ptrue_flags(op: PtrueOp) -> bool
    ensures { result ≡ ptrue_flags op }
{
    match op {
        PtrueOp::Ptrue => false,
        PtrueOp::Ptrues => true,
    }
}

/// The result of `ptrue`.
#[inline(always)]
#[tactic(auto, using(crate::proofs::Lengths::lengths))]
fn ptrue_bits(vec: &VecRegs, size: U<2>, pattern: U<5>) -> PredBits
    ensures value { result ≡ lanes_below (lane_bits size) (predicate_bits vec.now)
        (pattern_count pattern (vec.now.bits / lane_bits size)) }
    ensures length { length result ≡ predicate_bits vec.now }
{
    let e = esize(size);
    first_lanes(pattern_count(pattern, vec.length().lanes(e)), e, bits(vec))
}

/// Writes the lanes of a pattern, with the flags of their test. In code of its own, since few instructions set flags.
#[inline(never)]
fn put_pattern_tested(core: &mut Core, vec: &mut VecRegs, size: U<2>, pattern: U<5>, pd: Pred)
    ensures registers { core.new ≡ (model.put_pattern true (lane_bits size) pattern pd core.old vec.old).core }
    ensures vectors { vec.new ≡ (model.put_pattern true (lane_bits size) pattern pd core.old vec.old).vectors }
{
    let bits = ptrue_bits(vec, size, pattern);
    set_test_lanes(core, &bits, &bits, size);
    write(vec, pd, &bits);
}

/// Writes the lanes of a pattern. In code of its own, since few instructions name another pattern than that of all
/// lanes.
#[inline(never)]
fn put_pattern_counted(vec: &mut VecRegs, size: U<2>, pattern: U<5>, pd: Pred)
    ensures { vec.new ≡ with_p vec.old pd (lanes_below (lane_bits size) (predicate_bits vec.old)
        (pattern_count pattern (vec.old.bits / lane_bits size))) }
{
    let bits = ptrue_bits(vec, size, pattern);
    write(vec, pd, &bits);
}

/// The result of `ptrue` by the pattern of all lanes.
#[inline(always)]
#[tactic(auto, using(crate::proofs::Lengths::lengths))]
fn all_bits(vec: &VecRegs, size: U<2>, pattern: U<5>) -> PredBits
    requires { pattern ≡ 31 }
    ensures value { result ≡ lanes_below (lane_bits size) (predicate_bits vec.now)
        (pattern_count pattern (vec.now.bits / lane_bits size)) }
    ensures length { length result ≡ predicate_bits vec.now }
{
    let _length = vec.length().bits();
    all_lanes(esize(size), bits(vec))
}

/// Writes the lanes of a pattern, with the flags of their test, if they are set.
#[inline(always)]
fn put_pattern(core: &mut Core, vec: &mut VecRegs, sets: bool, size: U<2>, pattern: U<5>, pd: Pred)
    ensures registers { core.new ≡ (model.put_pattern sets (lane_bits size) pattern pd core.old vec.old).core }
    ensures vectors { vec.new ≡ (model.put_pattern sets (lane_bits size) pattern pd core.old vec.old).vectors }
{
    if sets {
        put_pattern_tested(core, vec, size, pattern, pd);
    } else if pattern.get() == ALL_LANES {
        let bits = all_bits(vec, size, pattern);
        write(vec, pd, &bits);
    } else {
        put_pattern_counted(vec, size, pattern, pd);
    }
}

/// `ptrue`, `ptrues`.
#[inline(never)]
pub fn ptrue(core: &mut Core, vec: &mut VecRegs, op: PtrueOp, size: U<2>, pattern: U<5>, pd: Pred)
    ensures registers { core.new ≡ (predicate (form.Ptrue op size pattern pd) core.old vec.old).core }
    ensures vectors { vec.new ≡ (predicate (form.Ptrue op size pattern pd) core.old vec.old).vectors }
{
    put_pattern(core, vec, ptrue_flags(op), size, pattern, pd);
}

/// How many lanes of a predicate are set.
#[inline(always)]
fn set_lanes(vec: &VecRegs, size: U<2>, pm: Pred) -> u64
    ensures { result ≡ set_lanes_of (lane_bits size) pm vec.now }
{
    let bits = read(vec, pm);
    pred_bits::count(&bits, &bits, esize(size)) as u64
}

/// Whether a count is added or subtracted.
fn counted_by(op: IncPOp) -> LaneOp
    ensures { result ≡ counted_by op }
{
    match op {
        IncPOp::Incp => LaneOp::Add,
        IncPOp::Decp => LaneOp::Sub,
    }
}

/// `incp`, `decp` of a general register.
#[inline(never)]
pub fn inc_p(core: &mut Core, vec: &VecRegs, op: IncPOp, size: U<2>, pm: Pred, rdn: Reg)
    ensures { core.new ≡ (predicate (form.IncP op size pm rdn) core.old vec.now).core }
{
    let n = set_lanes(vec, size, pm);
    let sum = apply(counted_by(op), 64, core.x(rdn), n);
    core.set_x(rdn, 64, sum);
}

/// Writes what an operation makes of each lane of a Z register and a number to it.
#[inline(always)]
fn counted_lanes<F: LaneWise2 + Drop>(vec: &mut VecRegs, op: F, e: u32, n: u64, zdn: Reg)
    requires { IsLaneSize e }
    ensures { vec.new ≡ with_lanes e (λ k. F.entry op e (lane_of e vec.old zdn k) n) zdn vec.old }
{
    let op = WithNumber { op, n };
    plain(vec, e, zdn, &Map1 { op, zn: zdn });
}

/// `incp`, `decp` of a Z register.
#[inline(never)]
pub fn inc_p_z(vec: &mut VecRegs, op: IncPOp, size: U<2>, pm: Pred, zdn: Reg)
    ensures { vec.new ≡ with_lanes (lane_bits size) (λ k. lane_op (counted_by op) (lane_bits size)
        (lane_of (lane_bits size) vec.old zdn k) (set_lanes_of (lane_bits size) pm vec.old)) zdn vec.old }
{
    let e = esize(size).bits();
    let n = set_lanes(vec, size, pm);
    match op {
        IncPOp::Incp => counted_lanes(vec, Add, e, n, zdn),
        IncPOp::Decp => counted_lanes(vec, Sub, e, n, zdn),
    }
}

/// The width of the registers: 64 bits where sf is 1, else 32.
#[inline(always)]
fn width(sf: bool) -> u32
    ensures value { result ≡ width_of sf }
    ensures either { (result ≡ 32) ⊎ (result ≡ 64) }
{
    if sf { 64 } else { 32 }
}

/// The condition of a name.
#[inline(always)]
fn condition(op: WhileOp) -> WhileTest
    ensures { result ≡ while_of op }
{
    match op {
        WhileOp::Whilelt => WhileTest::Lt,
        WhileOp::Whilele => WhileTest::Le,
        WhileOp::Whilelo => WhileTest::Lo,
        WhileOp::Whilels => WhileTest::Ls,
    }
}

/// The result of a loop, and its flags: those of the test of all lanes.
#[inline(always)]
#[tactic(auto, using(crate::proofs::Lengths::lengths))]
fn looped(
    core: &Core,
    vec: &VecRegs,
    op: WhileOp,
    size: U<2>,
    rm: Reg,
    sf: bool,
    rn: Reg,
) -> (PredBits, Flags)
    ensures value { result.0 ≡ while_result op (lane_bits size) sf rn rm core.now vec.now }
    ensures length { length result.0 ≡ predicate_bits vec.now }
    ensures flags { result.1 ≡ pred_test (lane_bits size) (predicate_bits vec.now) (ones (predicate_bits vec.now))
        (while_result op (lane_bits size) sf rn rm core.now vec.now) }
{
    let _length = vec.length().bits();
    while_tested(
        condition(op),
        core.x(rn),
        core.x(rm),
        width(sf),
        esize(size),
        bits(vec),
    )
}

/// `whilelt`, `whilele`, `whilelo`, `whilels`: the flags are by the test of all bits.
#[inline(never)]
pub fn while_lanes(
    core: &mut Core,
    vec: &mut VecRegs,
    op: WhileOp,
    size: U<2>,
    rm: Reg,
    sf: bool,
    rn: Reg,
    pd: Pred,
)
    ensures registers { core.new ≡ (predicate (form.While op size rm sf rn pd) core.old vec.old).core }
    ensures vectors { vec.new ≡ (predicate (form.While op size rm sf rn pd) core.old vec.old).vectors }
{
    let (set, flags) = looped(core, vec, op, size, rm, sf, rn);
    core.set_flags(flags);
    write(vec, pd, &set);
}

/// Whether a loop ends.
fn terminates(op: CtermOp, width: u32, a: u64, b: u64) -> bool
    requires { width ≤ 64 }
    ensures { result ≡ terminates op width a b }
{
    let same = low_bits(a, width) == low_bits(b, width);
    match op {
        CtermOp::Ctermeq => same,
        CtermOp::Ctermne => !same,
    }
}

/// `ctermeq`, `ctermne`.
#[inline(never)]
pub fn cterm(core: &mut Core, op: CtermOp, sf: bool, rm: Reg, rn: Reg)
    ensures { core.new ≡ record core.old {
      flags = termination_flags (terminates op (width_of sf) (read_x core.old rn) (read_x core.old rm)) core.old.flags;
    } }
{
    let ends = terminates(op, width(sf), core.x(rn), core.x(rm));
    let flags = core.flags();
    core.set_flags(Flags {
        n: ends,
        z: flags.z,
        c: flags.c,
        v: !ends && !flags.c,
    });
}
