//! The instructions on predicates: compares, logical operations, breaks, first and next lanes, loops, counts, and FFR.
#![tactic(auto)]

mod breaks;
mod by_form;
mod compares;
mod lanes;
mod registers;
mod single;

ghost use Rattle.std.specs.Prelude.{◌≡◌, true};
ghost use Rattle.emu_model.specs.declared.trap.Effect.{Effect};
ghost use Rattle.sve_effects.specs.Effects.{is_predicate, predicate};

use core_regs::{Core, Effect};
use sve_insn::Sve;
use vec_regs::VecRegs;

/// Does an instruction of the rows on predicates: a predicate, FFR, a general register, the lanes of a Z register or
/// the flags change; the step goes on behind the instruction.
#[inline(always)]
pub fn exec(core: &mut Core, vec: &mut VecRegs, i: &Sve) -> Effect
    requires { is_predicate i.now ≡ true }
    ensures registers { core.new ≡ (predicate i.now core.old vec.old).core }
    ensures vectors { vec.new ≡ (predicate i.now core.old vec.old).vectors }
    ensures effect { result ≡ Effect.Next }
{
    by_form::exec(core, vec, i);
    Effect::Next
}
