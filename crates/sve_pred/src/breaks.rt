//! Logical operations and breaks of predicates.
ghost use Rattle.std.specs.Prelude.{◌≡◌, true, length};
ghost use Rattle.lane_model.specs.declared.predicates.LogicOp.{LogicOp};
ghost use Rattle.sve_effects.specs.Predicate as model;
ghost use Rattle.sve_effects.specs.PredicateRows.{predicate_bits, logic_of, break_after, pair_after};
ghost use Rattle.sve_effects.specs.Effects.{predicate};
ghost use Rattle.sve_insn.specs.declared.form.SveForm.TheVariants as form;
ghost use Rattle.emu_model.specs.Lanes.{read_p, with_p};

use crate::registers::{put, read, test_all_bits, write};
use core_regs::Core;
use emu_bits::Pred;
use pred_bits::{LogicOp, PredBits, brk, brkn, brkp};
use sve_insn::{BreakOp, BreakPairOp, LogicPOp};
use vec_regs::VecRegs;

/// The operation of a name.
#[inline(always)]
fn operation(op: LogicPOp) -> LogicOp
    ensures { result ≡ logic_of op }
{
    match op {
        LogicPOp::And => LogicOp::And,
        LogicPOp::Bic => LogicOp::Bic,
        LogicPOp::Eor => LogicOp::Eor,
        LogicPOp::Orr => LogicOp::Orr,
        LogicPOp::Orn => LogicOp::Orn,
        LogicPOp::Nor => LogicOp::Nor,
        LogicPOp::Nand => LogicOp::Nand,
    }
}

/// The result of a logical operation.
#[inline(always)]
#[tactic(auto, using(crate::proofs::Lengths::length_given))]
fn logic_bits(vec: &VecRegs, op: LogicPOp, pm: Pred, pg: Pred, pn: Pred) -> PredBits
    ensures value { result ≡ model.logic (logic_of op) (predicate_bits vec.now)
        (read_p vec.now pg) (read_p vec.now pn) (read_p vec.now pm) }
    ensures length { length result ≡ predicate_bits vec.now }
{
    pred_bits::logic(
        operation(op),
        &read(vec, pg),
        &read(vec, pn),
        &read(vec, pm),
    )
}

/// `and`, `bic`, `eor`, `orr`, `orn`, `nor`, `nand` under a predicate.
#[inline(never)]
pub fn logic(
    core: &mut Core,
    vec: &mut VecRegs,
    op: LogicPOp,
    s: bool,
    pm: Pred,
    pg: Pred,
    pn: Pred,
    pd: Pred,
)
    ensures registers { core.new ≡ (predicate (form.LogicP op s pm pg pn pd) core.old vec.old).core }
    ensures vectors { vec.new ≡ (predicate (form.LogicP op s pm pg pn pd) core.old vec.old).vectors }
{
    let bits = logic_bits(vec, op, pm, pg, pn);
    put(core, vec, s, pg, pd, &bits);
}

/// `sel`.
#[tactic(auto, using(crate::proofs::Lengths::length_given))]
#[inline(never)]
pub fn select(vec: &mut VecRegs, pm: Pred, pg: Pred, pn: Pred, pd: Pred)
    ensures { vec.new ≡ with_p vec.old pd
        (model.logic LogicOp.Sel (predicate_bits vec.old) (read_p vec.old pg) (read_p vec.old pn) (read_p vec.old pm)) }
{
    let bits = pred_bits::logic(LogicOp::Sel, &read(vec, pg), &read(vec, pn), &read(vec, pm));
    write(vec, pd, &bits);
}

/// Whether the break counts the first set bit itself.
#[inline(always)]
fn break_after(op: BreakOp) -> bool
    ensures { result ≡ break_after op }
{
    match op {
        BreakOp::Brka => true,
        BreakOp::Brkb => false,
    }
}

/// The result of `brka` and `brkb`.
#[inline(always)]
#[tactic(auto, using(crate::proofs::Lengths::length_given))]
fn broken_bits(vec: &VecRegs, op: BreakOp, pg: Pred, pn: Pred, m: bool, pd: Pred) -> PredBits
    ensures value { result ≡ model.broken (break_after op) m (predicate_bits vec.now)
        (read_p vec.now pg) (read_p vec.now pn) (read_p vec.now pd) }
    ensures length { length result ≡ predicate_bits vec.now }
{
    brk(
        break_after(op),
        m,
        &read(vec, pg),
        &read(vec, pn),
        &read(vec, pd),
    )
}

/// `brka`, `brkb`.
#[inline(never)]
pub fn break_first(
    core: &mut Core,
    vec: &mut VecRegs,
    op: BreakOp,
    s: bool,
    pg: Pred,
    pn: Pred,
    m: bool,
    pd: Pred,
)
    ensures registers { core.new ≡ (predicate (form.Break op s pg pn m pd) core.old vec.old).core }
    ensures vectors { vec.new ≡ (predicate (form.Break op s pg pn m pd) core.old vec.old).vectors }
{
    let bits = broken_bits(vec, op, pg, pn, m, pd);
    put(core, vec, s, pg, pd, &bits);
}

/// Whether the break of a pair counts the first set bit itself.
#[inline(always)]
fn pair_after(op: BreakPairOp) -> bool
    ensures { result ≡ pair_after op }
{
    match op {
        BreakPairOp::Brkpa => true,
        BreakPairOp::Brkpb => false,
    }
}

/// The result of `brkpa` and `brkpb`.
#[inline(always)]
#[tactic(auto, using(crate::proofs::Lengths::length_given))]
fn pair_bits(vec: &VecRegs, op: BreakPairOp, pm: Pred, pg: Pred, pn: Pred) -> PredBits
    ensures value { result ≡ model.broken_pair (pair_after op) (predicate_bits vec.now)
        (read_p vec.now pg) (read_p vec.now pn) (read_p vec.now pm) }
    ensures length { length result ≡ predicate_bits vec.now }
{
    brkp(
        pair_after(op),
        &read(vec, pg),
        &read(vec, pn),
        &read(vec, pm),
    )
}

/// `brkpa`, `brkpb`.
#[inline(never)]
pub fn break_pair(
    core: &mut Core,
    vec: &mut VecRegs,
    op: BreakPairOp,
    s: bool,
    pm: Pred,
    pg: Pred,
    pn: Pred,
    pd: Pred,
)
    ensures registers { core.new ≡ (predicate (form.BreakPair op s pm pg pn pd) core.old vec.old).core }
    ensures vectors { vec.new ≡ (predicate (form.BreakPair op s pm pg pn pd) core.old vec.old).vectors }
{
    let bits = pair_bits(vec, op, pm, pg, pn);
    put(core, vec, s, pg, pd, &bits);
}

/// `brkn`: its flags are by the test of all bits.
#[tactic(auto, using(crate::proofs::Lengths::length_given))]
#[inline(never)]
pub fn break_next(core: &mut Core, vec: &mut VecRegs, s: bool, pg: Pred, pn: Pred, pdm: Pred)
    ensures registers { core.new ≡ (predicate (form.BreakNext s pg pn pdm) core.old vec.old).core }
    ensures vectors { vec.new ≡ (predicate (form.BreakNext s pg pn pdm) core.old vec.old).vectors }
{
    let _length = vec.length().bits();
    let result = brkn(&read(vec, pg), &read(vec, pn), &read(vec, pdm));
    test_all_bits(core, s, &result);
    write(vec, pdm, &result);
}
