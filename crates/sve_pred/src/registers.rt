//! Predicate registers as predicates, and results written to them.
ghost use Rattle.std.specs.Prelude.{◌≡◌, ◌≤◌, true, length};
ghost use Rattle.emu_bits.specs.Flags.{size_of};
ghost use Rattle.sve_effects.specs.LaneLoop.{lane_bits};
ghost use Rattle.sve_effects.specs.PredicateRows.{predicate_bits, after_test, with_result, ones};
ghost use Rattle.emu_model.specs.Lanes.{read_p, with_p, with_ffr};

use core_regs::Core;
use emu_bits::{Esize, Pred, U};
use pred_bits::{PredBits, pred_test, test_all};
use vec_regs::VecRegs;

/// The bits of a predicate.
#[inline(always)]
pub fn bits(vec: &VecRegs) -> u32
    ensures value { result ≡ predicate_bits vec.now }
    ensures few { result ≤ 256 }
{
    vec.length().bits() / 8
}

/// A predicate register.
#[inline(always)]
#[tactic(auto, using(crate::proofs::Lengths::length_given))]
pub fn read(vec: &VecRegs, r: Pred) -> PredBits
    ensures value { result ≡ read_p vec.now r }
    ensures length { length result ≡ predicate_bits vec.now }
{
    PredBits::of_words(bits(vec), vec.p_words(r))
}

/// FFR.
#[inline(always)]
#[tactic(auto, using(crate::proofs::Lengths::length_given))]
pub fn read_ffr(vec: &VecRegs) -> PredBits
    ensures value { result ≡ vec.now.ffr }
    ensures length { length result ≡ predicate_bits vec.now }
{
    PredBits::of_words(bits(vec), vec.ffr_words())
}

/// Writes a predicate register.
#[inline(always)]
pub fn write(vec: &mut VecRegs, pd: Pred, outcome: &PredBits)
    requires { length outcome.now ≡ predicate_bits vec.old }
    ensures { vec.new ≡ with_p vec.old pd outcome.now }
{
    vec.set_p_words(pd, outcome.words());
}

/// Writes FFR.
#[inline(always)]
pub fn write_ffr(vec: &mut VecRegs, outcome: &PredBits)
    requires { length outcome.now ≡ predicate_bits vec.old }
    ensures { vec.new ≡ with_ffr vec.old outcome.now }
{
    vec.set_ffr_words(outcome.words());
}

/// Sets the flags of the predicate test.
#[inline(always)]
pub fn set_test(core: &mut Core, g: &PredBits, outcome: &PredBits, e: Esize)
    requires { length outcome.now ≡ length g.now }
    ensures { core.new ≡ after_test true (size_of e) (length g.now) g.now outcome.now core.old }
{
    core.set_flags(pred_test(g, outcome, e));
}

/// Sets the flags of the predicate test of a result under pg, and writes it. In code of its own, so that the rows that
/// seldom set flags read pg where they need it alone.
#[inline(never)]
fn put_tested(core: &mut Core, vec: &mut VecRegs, pg: Pred, pd: Pred, outcome: &PredBits)
    requires { length outcome.now ≡ predicate_bits vec.old }
    ensures registers { core.new ≡ (with_result true 8 (read_p vec.old pg) pd outcome.now core.old vec.old).core }
    ensures vectors { vec.new ≡ (with_result true 8 (read_p vec.old pg) pd outcome.now core.old vec.old).vectors }
{
    set_test(core, &read(vec, pg), outcome, Esize::B);
    write(vec, pd, outcome);
}

/// Writes a result, with the flags of its predicate test under pg, if they are set.
#[inline(always)]
pub fn put(core: &mut Core, vec: &mut VecRegs, sets: bool, pg: Pred, pd: Pred, outcome: &PredBits)
    requires { length outcome.now ≡ predicate_bits vec.old }
    ensures registers { core.new ≡ (with_result sets 8 (read_p vec.old pg) pd outcome.now core.old vec.old).core }
    ensures vectors { vec.new ≡ (with_result sets 8 (read_p vec.old pg) pd outcome.now core.old vec.old).vectors }
{
    if sets {
        put_tested(core, vec, pg, pd, outcome);
    } else {
        write(vec, pd, outcome);
    }
}

/// Sets the flags of the predicate test of all bits, of which there are eight at least, if they are set.
#[inline(always)]
pub fn test_all_bits(core: &mut Core, sets: bool, outcome: &PredBits)
    requires { 8 ≤ length outcome.now }
    ensures { core.new ≡ after_test sets 8 (length outcome.now) (ones (length outcome.now)) outcome.now core.old }
{
    if sets {
        core.set_flags(test_all(outcome, Esize::B));
    }
}

/// The size of lanes that a field names.
#[inline(always)]
pub fn esize(size: U<2>) -> Esize
    ensures { size_of result ≡ lane_bits size }
{
    match size.get() {
        0 => Esize::B,
        1 => Esize::H,
        2 => Esize::S,
        _ => Esize::D,
    }
}

/// Sets the flags of the predicate test of lanes of the size that a field names.
#[inline(always)]
pub fn set_test_lanes(core: &mut Core, g: &PredBits, outcome: &PredBits, size: U<2>)
    requires { length outcome.now ≡ length g.now }
    ensures { core.new ≡ after_test true (lane_bits size) (length g.now) g.now outcome.now core.old }
{
    set_test(core, g, outcome, esize(size));
}
