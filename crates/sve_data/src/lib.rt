//! What the SVE data rows do: those that work lane by lane, and folds, counts and permutes.
#![tactic(auto)]

mod by_lane;
mod copies;
mod fields;
mod immediates;
mod index;
mod lanes;
mod merging;
mod names;
mod operations;
mod products;
mod unpredicated;

ghost use Rattle.std.specs.Prelude.{◌≡◌, true};
ghost use Rattle.emu_model.specs.declared.trap.Effect.{Effect};
ghost use Rattle.sve_effects.specs.Effects.{is_data, after_data};

use core_regs::{Core, Effect};
use sve_effects::{Group, group_of};
use sve_insn::Sve;
use vec_regs::VecRegs;

/// Does an instruction of the data rows: it writes its destination, a vector register of VL bits, a predicate or a
/// general register, and nothing else. The step goes on behind the instruction.
#[inline(always)]
pub fn exec(core: &mut Core, vec: &mut VecRegs, i: &Sve) -> Effect
    requires { is_data i.now ≡ true }
    ensures registers { core.new ≡ (after_data i.now core.old vec.old).core }
    ensures vectors { vec.new ≡ (after_data i.now core.old vec.old).vectors }
    ensures effect { result ≡ Effect.Next }
{
    match group_of(i.form()) {
        Group::Lanes => by_lane::exec(core, vec, i),
        Group::Permutes | Group::Counts | Group::Folds => sve_permutes::exec(core, vec, i),
        Group::Predicates
        | Group::Loads
        | Group::Stores
        | Group::Gathers
        | Group::Scatters
        | Group::FirstFaults => {}
    }
    Effect::Next
}
