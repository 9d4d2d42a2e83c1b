//! Branches, the system's rows, and loads and stores.
#![tactic(auto)]

mod alignment;
mod at_once;
mod atomic;
mod elements;
mod exclusive;
mod fields;
mod moves;
mod numbers;
mod pairs;
mod rows;
mod singles;
mod system;
mod unrefused;

ghost use Rattle.std.specs.Prelude.{◌≡◌, ◌||◌, [], true};
ghost use Rattle.a64_effects.specs.Groups.{is_flow, is_load_store};
ghost use Rattle.a64_effects.specs.Effects.{performed};
ghost use Rattle.a64_operations.specs.Groups.{has_operation};
ghost use Rattle.emu_model.specs.Access.{Memory};
ghost use Rattle.emu_model.specs.Done.{quietly};
ghost use Rattle.emu_model.specs.State.{Vectors};

use a64_insn::{A64, A64Form};
use a64_perform::perform_form;
pub use at_once::tried;
use core_regs::{Core, Effect};
use guest_mem::{AccessLog, Mem};
use vec_regs::VecRegs;

/// Does an instruction of the branch and system rows, or a load or store of general or vector registers, and says how
/// the step goes on. The elements that were loaded or stored are logged in order. A trap changes no register; a store
/// that traps has stored and logged the elements before the one that was refused.
pub fn exec(
    core: &mut Core,
    vec: &mut VecRegs,
    mem: &mut Mem,
    log: &mut AccessLog,
    i: &A64,
) -> Effect
    requires own { (is_flow i.now || is_load_store i.now) ≡ true }
    requires empty { log.old.items ≡ [] }
    ensures done { performed i.now core.old vec.old mem.old.memory
        ≡ record {
          core = core.new;
          vectors = vec.new;
          memory = mem.new.memory;
          accesses = log.new.items;
          effect = result;
        } }
    ensures marks { mem.new.marks ≡ mem.old.marks }
{
    match *i.form() {
        A64Form::Except { op, imm16 } => system::except(core, op, imm16),
        A64Form::Barrier { op, .. } => system::barrier(core, op),
        A64Form::ReadSys { op, rt } => system::read_sys(core, op, rt),
        A64Form::WriteSys { op, rt } => system::write_sys(core, op, rt),
        A64Form::Branch { .. } => by_operation(core, i),
        A64Form::BranchCond { .. } => by_operation(core, i),
        A64Form::Compare { .. } => by_operation(core, i),
        A64Form::Test { .. } => by_operation(core, i),
        A64Form::BranchReg { .. } => by_operation(core, i),
        A64Form::Hint { .. } => by_operation(core, i),
        _ => match rows::access(core, vec, mem, log, i) {
            Ok(()) => Effect::Next,
            Err(trap) => Effect::Trap(trap),
        },
    }
}

/// A branch or a hint, by its operation. The form is copied for it, so that no other one has to lie in memory.
#[inline(always)]
fn by_operation(core: &mut Core, i: &A64) -> Effect
    requires { has_operation i.now ≡ true }
    ensures { (v : Vectors) → (m : Memory) → performed i.now core.old v m ≡ quietly core.new v m result }
{
    let form = *i.form();
    match perform_form(core, &form) {
        Some(effect) => effect,
        None => unreachable!(),
    }
}
