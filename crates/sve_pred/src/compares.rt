//! Compares of lanes into predicates.
ghost use Rattle.std.specs.Prelude.{◌≡◌, ◌<◌, ◌^◌, true, length};
ghost use Rattle.emu_bits.specs.Flags.{size_of};
ghost use Rattle.emu_bits.specs.Numbers.{sign_extended};
ghost use Rattle.sve_effects.specs.LaneLoop.{lane_bits};
ghost use Rattle.sve_effects.specs.Effects.{predicate};
ghost use Rattle.sve_effects.specs.PredicateRows as table;
ghost use Rattle.sve_effects.specs.PredicateRows.{predicate_bits, with_compared};
ghost use Rattle.sve_effects.specs.PredicateRows.{vector_test, wide_test, unsigned_test, signed_test};
ghost use Rattle.sve_insn.specs.declared.form.SveForm.TheVariants as form;
ghost use Rattle.sve_pred.specs.Compares as model;
ghost use Rattle.sve_pred.specs.declared.compares.Operand.TheVariants as second;
ghost use Rattle.emu_model.specs.LaneSizes.{IsLaneSize};

use crate::registers::{bits, esize, read, set_test_lanes, write};
use core_regs::Core;
use emu_bits::{Esize, Pred, PredLow, Reg, U, sign_extended};
use lane_kernels::LaneWiseTest2;
use lane_tests::told::{Compared, ComparedNumber, ComparedWide, told};
use pred_bits::{LogicOp, PredBits};
use sve_effects::lane_bits;
use sve_elements::LaneTest;
use sve_insn::{CmpSImmOp, CmpUImmOp, CmpVecOp, CmpWideOp};
use vec_regs::VecRegs;

/// The test of a name, of two lanes.
#[inline(always)]
fn vector_test(op: CmpVecOp) -> LaneTest
    ensures { result ≡ vector_test op }
{
    match op {
        CmpVecOp::Cmphs => LaneTest::Hs,
        CmpVecOp::Cmphi => LaneTest::Hi,
        CmpVecOp::Cmpge => LaneTest::Ge,
        CmpVecOp::Cmpgt => LaneTest::Gt,
        CmpVecOp::Cmpeq => LaneTest::Eq,
        CmpVecOp::Cmpne => LaneTest::Ne,
    }
}

/// The test of a name, of a lane and a 64-bit lane.
#[inline(always)]
fn wide_test(op: CmpWideOp) -> LaneTest
    ensures { result ≡ wide_test op }
{
    match op {
        CmpWideOp::Cmpeq => LaneTest::Eq,
        CmpWideOp::Cmpne => LaneTest::Ne,
        CmpWideOp::Cmpge => LaneTest::Ge,
        CmpWideOp::Cmpgt => LaneTest::Gt,
        CmpWideOp::Cmplt => LaneTest::Lt,
        CmpWideOp::Cmple => LaneTest::Le,
        CmpWideOp::Cmphs => LaneTest::Hs,
        CmpWideOp::Cmphi => LaneTest::Hi,
        CmpWideOp::Cmplo => LaneTest::Lo,
        CmpWideOp::Cmpls => LaneTest::Ls,
    }
}

/// The test of a name, of a lane and an unsigned immediate.
#[inline(always)]
fn unsigned_test(op: CmpUImmOp) -> LaneTest
    ensures { result ≡ unsigned_test op }
{
    match op {
        CmpUImmOp::Cmphs => LaneTest::Hs,
        CmpUImmOp::Cmphi => LaneTest::Hi,
        CmpUImmOp::Cmplo => LaneTest::Lo,
        CmpUImmOp::Cmpls => LaneTest::Ls,
    }
}

/// The test of a name, of a lane and a signed immediate.
#[inline(always)]
fn signed_test(op: CmpSImmOp) -> LaneTest
    ensures { result ≡ signed_test op }
{
    match op {
        CmpSImmOp::Cmpge => LaneTest::Ge,
        CmpSImmOp::Cmpgt => LaneTest::Gt,
        CmpSImmOp::Cmplt => LaneTest::Lt,
        CmpSImmOp::Cmple => LaneTest::Le,
        CmpSImmOp::Cmpeq => LaneTest::Eq,
        CmpSImmOp::Cmpne => LaneTest::Ne,
    }
}

/// The second operand of a compare.
#[derive(Clone, Copy)]
enum Operand {
    /// The same lane of a register.
    Lane(Reg),
    /// The 64-bit lane of a register that covers the lane.
    Covering(Reg),
    /// A number.
    Number(u64),
}

/// The words of a predicate that has the lanes of which a test of two registers' lanes tells.
#[inline(always)]
fn lanes_told<F: LaneWiseTest2 + Drop>(vec: &VecRegs, e: u32, op: F, zn: Reg, zm: Reg) -> [u64; 4]
    requires { IsLaneSize e }
    ensures { model.IsToldBy (F.entry op) true e vec.now zn (second.Lane zm) result }
{
    told(vec, e, &Compared { op, zn, zm })
}

/// The same of a test with 64-bit lanes, where lanes are extended by their sign or by zeros.
#[inline(always)]
fn covering_told<F: LaneWiseTest2 + Drop>(
    vec: &VecRegs,
    e: u32,
    op: F,
    zn: Reg,
    zm: Reg,
    signed: bool,
) -> [u64; 4]
    requires { IsLaneSize e }
    ensures { model.IsToldBy (F.entry op) signed e vec.now zn (second.Covering zm) result }
{
    let wide = ComparedWide { op, zn, zm, signed };
    told(vec, e, &wide)
}

/// The same of a test with a number.
#[inline(always)]
fn number_told<F: LaneWiseTest2 + Drop>(vec: &VecRegs, e: u32, op: F, zn: Reg, n: u64) -> [u64; 4]
    requires { IsLaneSize e }
    ensures { model.IsToldBy (F.entry op) true e vec.now zn (second.Number n) result }
{
    told(vec, e, &ComparedNumber { op, zn, n })
}

/// The words of a predicate that has the lanes of which a compare of two registers' lanes tells.
#[inline(always)]
fn vectors_told(vec: &VecRegs, op: CmpVecOp, e: u32, zn: Reg, zm: Reg) -> [u64; 4]
    requires { IsLaneSize e }
    ensures { model.IsTold e (vector_test op) vec.now zn (second.Lane zm) result }
{
    match op {
        CmpVecOp::Cmphs => lanes_told(vec, e, lane_tests::Hs, zn, zm),
        CmpVecOp::Cmphi => lanes_told(vec, e, lane_tests::Hi, zn, zm),
        CmpVecOp::Cmpge => lanes_told(vec, e, lane_tests::Ge, zn, zm),
        CmpVecOp::Cmpgt => lanes_told(vec, e, lane_tests::Gt, zn, zm),
        CmpVecOp::Cmpeq => lanes_told(vec, e, lane_tests::Eq, zn, zm),
        CmpVecOp::Cmpne => lanes_told(vec, e, lane_tests::Ne, zn, zm),
    }
}

/// The words of a predicate that has the lanes of which a compare with 64-bit lanes tells.
#[inline(always)]
fn wide_told(vec: &VecRegs, op: CmpWideOp, e: u32, zn: Reg, zm: Reg) -> [u64; 4]
    requires { IsLaneSize e }
    ensures { model.IsTold e (wide_test op) vec.now zn (second.Covering zm) result }
{
    match op {
        CmpWideOp::Cmpeq => covering_told(vec, e, lane_tests::Eq, zn, zm, true),
        CmpWideOp::Cmpne => covering_told(vec, e, lane_tests::Ne, zn, zm, true),
        CmpWideOp::Cmpge => covering_told(vec, e, lane_tests::Ge, zn, zm, true),
        CmpWideOp::Cmpgt => covering_told(vec, e, lane_tests::Gt, zn, zm, true),
        CmpWideOp::Cmplt => covering_told(vec, e, lane_tests::Lt, zn, zm, true),
        CmpWideOp::Cmple => covering_told(vec, e, lane_tests::Le, zn, zm, true),
        CmpWideOp::Cmphs => covering_told(vec, e, lane_tests::Hs, zn, zm, false),
        CmpWideOp::Cmphi => covering_told(vec, e, lane_tests::Hi, zn, zm, false),
        CmpWideOp::Cmplo => covering_told(vec, e, lane_tests::Lo, zn, zm, false),
        CmpWideOp::Cmpls => covering_told(vec, e, lane_tests::Ls, zn, zm, false),
    }
}

/// The words of a predicate that has the lanes of which a compare with an unsigned immediate tells.
#[inline(always)]
fn unsigned_told(vec: &VecRegs, op: CmpUImmOp, e: u32, zn: Reg, n: u64) -> [u64; 4]
    requires { IsLaneSize e }
    ensures { model.IsTold e (unsigned_test op) vec.now zn (second.Number n) result }
{
    match op {
        CmpUImmOp::Cmphs => number_told(vec, e, lane_tests::Hs, zn, n),
        CmpUImmOp::Cmphi => number_told(vec, e, lane_tests::Hi, zn, n),
        CmpUImmOp::Cmplo => number_told(vec, e, lane_tests::Lo, zn, n),
        CmpUImmOp::Cmpls => number_told(vec, e, lane_tests::Ls, zn, n),
    }
}

/// The words of a predicate that has the lanes of which a compare with a signed immediate tells.
#[inline(always)]
fn signed_told(vec: &VecRegs, op: CmpSImmOp, e: u32, zn: Reg, n: u64) -> [u64; 4]
    requires { IsLaneSize e }
    ensures { model.IsTold e (signed_test op) vec.now zn (second.Number n) result }
{
    match op {
        CmpSImmOp::Cmpge => number_told(vec, e, lane_tests::Ge, zn, n),
        CmpSImmOp::Cmpgt => number_told(vec, e, lane_tests::Gt, zn, n),
        CmpSImmOp::Cmplt => number_told(vec, e, lane_tests::Lt, zn, n),
        CmpSImmOp::Cmple => number_told(vec, e, lane_tests::Le, zn, n),
        CmpSImmOp::Cmpeq => number_told(vec, e, lane_tests::Eq, zn, n),
        CmpSImmOp::Cmpne => number_told(vec, e, lane_tests::Ne, zn, n),
    }
}

/// The active lanes whose compare holds.
#[inline(always)]
fn compared(
    vec: &VecRegs,
    test: LaneTest,
    e: Esize,
    pg: Pred,
    zn: Reg,
    operand: &Operand,
    words: &[u64; 4],
) -> PredBits
    requires fits { model.IsOfLane (size_of e) operand.now }
    requires told { model.IsTold (size_of e) test vec.now zn operand.now words.now }
    ensures { result ≡ table.compared (size_of e) pg (model.answer test (size_of e) vec.now zn operand.now) vec.now }
{
    let _length = vec.length().bits();
    let told = PredBits::of_words(bits(vec), words);
    pred_bits::logic(LogicOp::And, &read(vec, pg), &told, &told)
}

/// The same, with the size of lanes that a field names.
#[inline(always)]
#[tactic(auto, using(crate::proofs::Lengths::lengths))]
fn compared_lanes(
    vec: &VecRegs,
    test: LaneTest,
    size: U<2>,
    pg: Pred,
    zn: Reg,
    operand: &Operand,
    words: &[u64; 4],
) -> PredBits
    requires fits { model.IsOfLane (lane_bits size) operand.now }
    requires told { model.IsTold (lane_bits size) test vec.now zn operand.now words.now }
    ensures value { result
        ≡ table.compared (lane_bits size) pg (model.answer test (lane_bits size) vec.now zn operand.now) vec.now }
    ensures length { length result ≡ predicate_bits vec.now }
{
    compared(vec, test, esize(size), pg, zn, operand, words)
}

/// Writes the active lanes whose compare holds, and sets the flags by the predicate test of them.
#[inline(always)]
fn compare(
    core: &mut Core,
    vec: &mut VecRegs,
    test: LaneTest,
    size: U<2>,
    pg: Pred,
    zn: Reg,
    operand: &Operand,
    words: &[u64; 4],
    pd: Pred,
)
    requires fits { model.IsOfLane (lane_bits size) operand.now }
    requires told { model.IsTold (lane_bits size) test vec.old zn operand.now words.now }
    ensures registers { core.new ≡ (with_compared (lane_bits size) pg pd
        (model.answer test (lane_bits size) vec.old zn operand.now) core.old vec.old).core }
    ensures vectors { vec.new ≡ (with_compared (lane_bits size) pg pd
        (model.answer test (lane_bits size) vec.old zn operand.now) core.old vec.old).vectors }
{
    let bits = compared_lanes(vec, test, size, pg, zn, operand, words);
    set_test_lanes(core, &read(vec, pg), &bits, size);
    write(vec, pd, &bits);
}

/// Compares of two registers' lanes.
#[inline(never)]
pub fn vectors(
    core: &mut Core,
    vec: &mut VecRegs,
    op: CmpVecOp,
    size: U<2>,
    zm: Reg,
    pg: PredLow,
    zn: Reg,
    pd: Pred,
)
    ensures registers { core.new ≡ (predicate (form.CmpVec op size zm pg zn pd) core.old vec.old).core }
    ensures vectors { vec.new ≡ (predicate (form.CmpVec op size zm pg zn pd) core.old vec.old).vectors }
{
    let words = vectors_told(vec, op, lane_bits(size), zn, zm);
    compare(
        core,
        vec,
        vector_test(op),
        size,
        pg.register(),
        zn,
        &Operand::Lane(zm),
        &words,
        pd,
    );
}

/// Compares with the 64-bit lanes of a register.
#[inline(never)]
pub fn wide(
    core: &mut Core,
    vec: &mut VecRegs,
    op: CmpWideOp,
    size: U<2>,
    zm: Reg,
    pg: PredLow,
    zn: Reg,
    pd: Pred,
)
    ensures registers { core.new ≡ (predicate (form.CmpWide op size zm pg zn pd) core.old vec.old).core }
    ensures vectors { vec.new ≡ (predicate (form.CmpWide op size zm pg zn pd) core.old vec.old).vectors }
{
    let words = wide_told(vec, op, lane_bits(size), zn, zm);
    compare(
        core,
        vec,
        wide_test(op),
        size,
        pg.register(),
        zn,
        &Operand::Covering(zm),
        &words,
        pd,
    );
}

/// An unsigned immediate.
#[inline(always)]
fn unsigned_immediate(imm7: U<7>) -> u64
    ensures value { result ≡ imm7 }
    ensures small { result < 2 ^ 7 }
{
    imm7.get() as u64
}

/// Compares with an unsigned immediate.
#[inline(never)]
pub fn unsigned(
    core: &mut Core,
    vec: &mut VecRegs,
    op: CmpUImmOp,
    size: U<2>,
    imm7: U<7>,
    pg: PredLow,
    zn: Reg,
    pd: Pred,
)
    ensures registers { core.new ≡ (predicate (form.CmpUImm op size imm7 pg zn pd) core.old vec.old).core }
    ensures vectors { vec.new ≡ (predicate (form.CmpUImm op size imm7 pg zn pd) core.old vec.old).vectors }
{
    let n = unsigned_immediate(imm7);
    let words = unsigned_told(vec, op, lane_bits(size), zn, n);
    compare(
        core,
        vec,
        unsigned_test(op),
        size,
        pg.register(),
        zn,
        &Operand::Number(n),
        &words,
        pd,
    );
}

/// A signed immediate, extended to a lane.
#[inline(always)]
fn immediate(size: U<2>, imm5: U<5>) -> u64
    ensures value { result ≡ sign_extended (lane_bits size) 5 imm5 }
    ensures small { result < 2 ^ lane_bits size }
{
    sign_extended(imm5.get() as u64, 5, esize(size).bits())
}

/// Compares with a signed immediate.
#[inline(never)]
pub fn signed(
    core: &mut Core,
    vec: &mut VecRegs,
    op: CmpSImmOp,
    size: U<2>,
    imm5: U<5>,
    pg: PredLow,
    zn: Reg,
    pd: Pred,
)
    ensures registers { core.new ≡ (predicate (form.CmpSImm op size imm5 pg zn pd) core.old vec.old).core }
    ensures vectors { vec.new ≡ (predicate (form.CmpSImm op size imm5 pg zn pd) core.old vec.old).vectors }
{
    let n = immediate(size, imm5);
    let words = signed_told(vec, op, lane_bits(size), zn, n);
    compare(
        core,
        vec,
        signed_test(op),
        size,
        pg.register(),
        zn,
        &Operand::Number(n),
        &words,
        pd,
    );
}
