//! Single predicates: tests, the first active bit, no bit, and FFR.
ghost use Rattle.std.specs.Prelude.{◌≡◌, replicate, true, false, length};
ghost use Rattle.lane_model.specs.declared.predicates.LogicOp.{LogicOp};
ghost use Rattle.sve_effects.specs.Predicate as model;
ghost use Rattle.sve_effects.specs.PredicateRows.{predicate_bits, after_test, read_ffr_flags, written_ffr};
ghost use Rattle.sve_effects.specs.Effects.{predicate};
ghost use Rattle.sve_insn.specs.declared.form.SveForm.TheVariants as form;
ghost use Rattle.emu_model.specs.Lanes.{read_p, with_p, with_ffr};

use crate::registers::{bits, put, read, read_ffr, set_test, write, write_ffr};
use core_regs::Core;
use emu_bits::{Esize, Pred};
use pred_bits::{LogicOp, PredBits, ones};
use sve_insn::{ReadFfrOp, WriteFfrOp};
use vec_regs::VecRegs;

/// `ptest`.
#[inline(never)]
pub fn ptest(core: &mut Core, vec: &VecRegs, pg: Pred, pn: Pred)
    ensures { core.new ≡ after_test true 8 (predicate_bits vec.now) (read_p vec.now pg) (read_p vec.now pn) core.old }
{
    set_test(core, &read(vec, pg), &read(vec, pn), Esize::B);
}

/// `pfirst`.
#[tactic(auto, using(crate::proofs::Lengths::length_given))]
#[inline(never)]
pub fn first(core: &mut Core, vec: &mut VecRegs, pg: Pred, pdn: Pred)
    ensures registers { core.new ≡ (predicate (form.First pg pdn) core.old vec.old).core }
    ensures vectors { vec.new ≡ (predicate (form.First pg pdn) core.old vec.old).vectors }
{
    let g = read(vec, pg);
    let bits = pred_bits::first(&g, &read(vec, pdn));
    set_test(core, &g, &bits, Esize::B);
    write(vec, pdn, &bits);
}

/// `pfalse`.
#[inline(never)]
pub fn pfalse(vec: &mut VecRegs, pd: Pred)
    ensures { vec.new ≡ with_p vec.old pd (replicate (predicate_bits vec.old) false) }
{
    let none = PredBits::new(bits(vec));
    write(vec, pd, &none);
}

/// Whether the flags are set.
#[inline(always)]
fn read_ffr_flags(op: ReadFfrOp) -> bool
    ensures { result ≡ read_ffr_flags op }
{
    match op {
        ReadFfrOp::Rdffr => false,
        ReadFfrOp::Rdffrs => true,
    }
}

/// The result of `rdffr` and `rdffrs` under a predicate.
#[inline(always)]
#[tactic(auto, using(crate::proofs::Lengths::length_given))]
fn ffr_bits(vec: &VecRegs, pg: Pred) -> PredBits
    ensures value { result ≡ model.logic LogicOp.And (predicate_bits vec.now)
        (read_p vec.now pg) vec.now.ffr vec.now.ffr }
    ensures length { length result ≡ predicate_bits vec.now }
{
    let ffr = read_ffr(vec);
    pred_bits::logic(LogicOp::And, &read(vec, pg), &ffr, &ffr)
}

/// `rdffr`, `rdffrs` under a predicate.
#[inline(never)]
pub fn ffr_under(core: &mut Core, vec: &mut VecRegs, op: ReadFfrOp, pg: Pred, pd: Pred)
    ensures registers { core.new ≡ (predicate (form.ReadFfr op pg pd) core.old vec.old).core }
    ensures vectors { vec.new ≡ (predicate (form.ReadFfr op pg pd) core.old vec.old).vectors }
{
    let bits = ffr_bits(vec, pg);
    put(core, vec, read_ffr_flags(op), pg, pd, &bits);
}

/// `rdffr`.
#[inline(never)]
pub fn ffr_all(vec: &mut VecRegs, pd: Pred)
    ensures { vec.new ≡ with_p vec.old pd vec.old.ffr }
{
    let bits = read_ffr(vec);
    write(vec, pd, &bits);
}

/// What is written to FFR.
#[tactic(auto, using(crate::proofs::Lengths::length_given, pred_bits::proofs::Bytes::each_again))]
fn written_ffr(vec: &VecRegs, op: WriteFfrOp, pn: Pred) -> PredBits
    ensures value { result ≡ written_ffr op pn vec.now }
    ensures length { length result ≡ predicate_bits vec.now }
{
    match op {
        WriteFfrOp::Setffr => ones(bits(vec)),
        WriteFfrOp::Wrffr => read(vec, pn),
    }
}

/// `setffr`, `wrffr`.
#[inline(never)]
pub fn ffr_written(vec: &mut VecRegs, op: WriteFfrOp, pn: Pred)
    ensures { vec.new ≡ with_ffr vec.old (written_ffr op pn vec.old) }
{
    let bits = written_ffr(vec, op, pn);
    write_ffr(vec, &bits);
}
