//! What an instruction does to the registers and to memory, by the group that its row is of.
//!
//! This is the one place that chooses the crate of a row: the machine does its instructions by it, and so do the
//! programs of cases.
#![tactic(auto)]

ghost use Rattle.std.specs.Prelude.{◌≡◌, ◌||◌, [], true, false};
ghost use Rattle.emu_model.specs.declared.trap.Effect.{Effect};
ghost use Rattle.emu_run.specs.Step.{performed};
ghost use Rattle.a64_effects.specs.Effects as a64;
ghost use Rattle.sve_effects.specs.Rows as sve;
ghost use Rattle.sve_effects.specs.Effects.{
  group_of,
  after_data,
  is_data,
  is_predicate,
  layout,
  vector_elements,
  first_fault,
  is_first_fault,
  loads_signed,
};
ghost use Rattle.sve_effects.specs.declared.groups.Group.TheVariants as Group;
ghost use Rattle.sve_loads.specs.Plans.{is_first_contiguous};
ghost use Rattle.element_loops.specs.Listed.{listed};

use a64_effects::Group as A64Group;
use a64_insn::A64;
use core_regs::{Core, Effect};
use emu_run::Insn;
use guest_mem::{AccessLog, ElementList, Mem};
use sve_effects::Group;
use sve_insn::{Sve, SveForm};
use vec_regs::VecRegs;

/// Does an instruction, logs the elements that it loads or stores, and says what it leaves to the step: to go on, to
/// branch, to make a call, or to trap.
#[inline(always)]
pub fn perform(
    core: &mut Core,
    vec: &mut VecRegs,
    memory: &mut Mem,
    log: &mut AccessLog,
    insn: &Insn,
) -> Effect
    requires { log.old.items ≡ [] }
    ensures done { performed insn.now core.old vec.old memory.old.memory ≡ record {
      core = core.new;
      vectors = vec.new;
      memory = memory.new.memory;
      accesses = log.new.items;
      effect = result;
    } }
    ensures marks { memory.new.marks ≡ memory.old.marks }
{
    match insn {
        Insn::A64(insn) => perform_a64(core, vec, memory, log, insn),
        Insn::Sve(insn) => perform_sve(core, vec, memory, log, insn),
    }
}

/// Does an A64 instruction, logs the elements that it loads or stores, and says what it leaves to the step.
#[inline(always)]
#[tactic(auto, using(crate::proofs::A64Groups::scalar_done, crate::proofs::A64Groups::bit_move_done))]
pub fn perform_a64(
    core: &mut Core,
    vec: &mut VecRegs,
    memory: &mut Mem,
    log: &mut AccessLog,
    insn: &A64,
) -> Effect
    requires { log.old.items ≡ [] }
    ensures done { a64.performed insn.now core.old vec.old memory.old.memory ≡ record {
      core = core.new;
      vectors = vec.new;
      memory = memory.new.memory;
      accesses = log.new.items;
      effect = result;
    } }
    ensures marks { memory.new.marks ≡ memory.old.marks }
{
    match a64_effects::group_of(insn.form()) {
        A64Group::Data => a64_data::exec(core, insn),
        A64Group::Flow | A64Group::Accesses => a64_flow::exec(core, vec, memory, log, insn),
        A64Group::BitMoves => bit_moves::exec(core, vec, insn),
    }
}

/// The same of an SVE instruction.
#[inline(always)]
#[tactic(auto, using(crate::proofs::InGroup::registers_own, crate::proofs::InGroup::registers_done, crate::proofs::InGroup::memory_own))]
pub fn perform_sve(
    core: &mut Core,
    vec: &mut VecRegs,
    memory: &mut Mem,
    log: &mut AccessLog,
    insn: &Sve,
) -> Effect
    requires { log.old.items ≡ [] }
    ensures done { sve.performed insn.now core.old vec.old memory.old.memory ≡ record {
      core = core.new;
      vectors = vec.new;
      memory = memory.new.memory;
      accesses = log.new.items;
      effect = result;
    } }
    ensures marks { memory.new.marks ≡ memory.old.marks }
{
    match sve_effects::group_of(insn.form()) {
        Group::Lanes | Group::Permutes | Group::Counts | Group::Folds | Group::Predicates => {
            // its effect is this one, so that none is read back
            on_registers(core, vec, insn);
            Effect::Next
        }
        Group::Loads | Group::Stores | Group::Gathers | Group::Scatters | Group::FirstFaults => {
            in_memory(core, vec, memory, log, insn)
        }
    }
}

/// Does an SVE instruction that reaches memory. An arm for each of the forms that loops are made of leads to the
/// function of its row by one jump.
#[inline(always)]
#[tactic(auto, using(crate::proofs::InGroup::registers_own, crate::proofs::InGroup::load_own, crate::proofs::InGroup::store_own, crate::proofs::InGroup::gather_own, crate::proofs::InGroup::scatter_own, crate::proofs::InGroup::first_fault_own, crate::proofs::InGroup::first_fault_done))]
fn in_memory(
    core: &mut Core,
    vec: &mut VecRegs,
    memory: &mut Mem,
    log: &mut AccessLog,
    insn: &Sve,
) -> Effect
    requires own { (is_data insn.now || is_predicate insn.now) ≡ false }
    requires empty { log.old.items ≡ [] }
    ensures done { sve.performed insn.now core.old vec.old memory.old.memory ≡ record {
      core = core.new;
      vectors = vec.new;
      memory = memory.new.memory;
      accesses = log.new.items;
      effect = result;
    } }
    ensures marks { memory.new.marks ≡ memory.old.marks }
{
    match *insn.form() {
        SveForm::LoadImm { .. } => sve_loads::exec(core, vec, memory, log, insn),
        SveForm::LoadReg { .. } => sve_loads::exec(core, vec, memory, log, insn),
        SveForm::LoadZ { .. } => sve_loads::exec(core, vec, memory, log, insn),
        SveForm::StoreImm { .. } => sve_loads::exec(core, vec, memory, log, insn),
        SveForm::StoreReg { .. } => sve_loads::exec(core, vec, memory, log, insn),
        SveForm::StoreZ { .. } => sve_loads::exec(core, vec, memory, log, insn),
        // apart, so that each crate goes by the group that is known here
        _ => match sve_effects::group_of(insn.form()) {
            Group::Loads => sve_loads::exec(core, vec, memory, log, insn),
            Group::Stores => sve_loads::exec(core, vec, memory, log, insn),
            Group::Gathers => sve_gather::exec(core, vec, memory, log, insn),
            Group::Scatters => sve_gather::exec(core, vec, memory, log, insn),
            Group::FirstFaults => load_first_fault(core, vec, memory, log, insn),
            Group::Lanes | Group::Permutes | Group::Counts | Group::Folds | Group::Predicates => {
                unreachable!()
            }
        },
    }
}

/// Does an SVE instruction that reaches no memory. An arm for each form leads to the function of its row by one jump,
/// with nothing kept in a frame. It isn't inlined, so that no form is in the code of its callers.
#[inline(never)]
#[tactic(auto, using(crate::proofs::InGroup::gathers_reach))]
fn on_registers(core: &mut Core, vec: &mut VecRegs, insn: &Sve)
    requires { (is_data insn.now || is_predicate insn.now) ≡ true }
    ensures core { core.new ≡ (after_data insn.now core.old vec.old).core }
    ensures vectors { vec.new ≡ (after_data insn.now core.old vec.old).vectors }
{
    let _next = match *insn.form() {
        SveForm::Binary { .. } => sve_data::exec(core, vec, insn),
        SveForm::BinaryWide { .. } => sve_data::exec(core, vec, insn),
        SveForm::ShiftImm { .. } => sve_data::exec(core, vec, insn),
        SveForm::Unary { .. } => sve_data::exec(core, vec, insn),
        SveForm::MulAddZ { .. } => sve_data::exec(core, vec, insn),
        SveForm::MulAddD { .. } => sve_data::exec(core, vec, insn),
        SveForm::Plain { .. } => sve_data::exec(core, vec, insn),
        SveForm::LogicZ { .. } => sve_data::exec(core, vec, insn),
        SveForm::PlainWide { .. } => sve_data::exec(core, vec, insn),
        SveForm::PlainShift { .. } => sve_data::exec(core, vec, insn),
        SveForm::Index { .. } => sve_data::exec(core, vec, insn),
        SveForm::Dot { .. } => sve_data::exec(core, vec, insn),
        SveForm::DotIndexed { .. } => sve_data::exec(core, vec, insn),
        SveForm::WideImm { .. } => sve_data::exec(core, vec, insn),
        SveForm::MinMaxImm { .. } => sve_data::exec(core, vec, insn),
        SveForm::DupImm { .. } => sve_data::exec(core, vec, insn),
        SveForm::BitmaskZ { .. } => sve_data::exec(core, vec, insn),
        SveForm::CopyImm { .. } => sve_data::exec(core, vec, insn),
        SveForm::PrefixP { .. } => sve_data::exec(core, vec, insn),
        SveForm::Prefix { .. } => sve_data::exec(core, vec, insn),
        SveForm::SelectZ { .. } => sve_data::exec(core, vec, insn),
        SveForm::Reduce { .. } => sve_data::exec(core, vec, insn),
        SveForm::Count { .. } => sve_data::exec(core, vec, insn),
        SveForm::IncX { .. } => sve_data::exec(core, vec, insn),
        SveForm::IncZ { .. } => sve_data::exec(core, vec, insn),
        SveForm::SatX { .. } => sve_data::exec(core, vec, insn),
        SveForm::SatZ { .. } => sve_data::exec(core, vec, insn),
        SveForm::AddLength { .. } => sve_data::exec(core, vec, insn),
        SveForm::ReadLength { .. } => sve_data::exec(core, vec, insn),
        SveForm::DupReg { .. } => sve_data::exec(core, vec, insn),
        SveForm::DupLane { .. } => sve_data::exec(core, vec, insn),
        SveForm::Insert { .. } => sve_data::exec(core, vec, insn),
        SveForm::RevZ { .. } => sve_data::exec(core, vec, insn),
        SveForm::Unpack { .. } => sve_data::exec(core, vec, insn),
        SveForm::Table { .. } => sve_data::exec(core, vec, insn),
        SveForm::Interleave { .. } => sve_data::exec(core, vec, insn),
        SveForm::InterleaveP { .. } => sve_data::exec(core, vec, insn),
        SveForm::UnpackP { .. } => sve_data::exec(core, vec, insn),
        SveForm::RevP { .. } => sve_data::exec(core, vec, insn),
        SveForm::Compact { .. } => sve_data::exec(core, vec, insn),
        SveForm::Splice { .. } => sve_data::exec(core, vec, insn),
        SveForm::Ext { .. } => sve_data::exec(core, vec, insn),
        SveForm::CopyReg { .. } => sve_data::exec(core, vec, insn),
        SveForm::Last { .. } => sve_data::exec(core, vec, insn),
        SveForm::CondLast { .. } => sve_data::exec(core, vec, insn),
        SveForm::CmpVec { .. } => sve_pred::exec(core, vec, insn),
        SveForm::CmpWide { .. } => sve_pred::exec(core, vec, insn),
        SveForm::CmpUImm { .. } => sve_pred::exec(core, vec, insn),
        SveForm::CmpSImm { .. } => sve_pred::exec(core, vec, insn),
        SveForm::LogicP { .. } => sve_pred::exec(core, vec, insn),
        SveForm::SelectP { .. } => sve_pred::exec(core, vec, insn),
        SveForm::Break { .. } => sve_pred::exec(core, vec, insn),
        SveForm::BreakPair { .. } => sve_pred::exec(core, vec, insn),
        SveForm::BreakNext { .. } => sve_pred::exec(core, vec, insn),
        SveForm::Ptest { .. } => sve_pred::exec(core, vec, insn),
        SveForm::First { .. } => sve_pred::exec(core, vec, insn),
        SveForm::Next { .. } => sve_pred::exec(core, vec, insn),
        SveForm::Ptrue { .. } => sve_pred::exec(core, vec, insn),
        SveForm::Pfalse { .. } => sve_pred::exec(core, vec, insn),
        SveForm::ReadFfr { .. } => sve_pred::exec(core, vec, insn),
        SveForm::ReadFfrAll { .. } => sve_pred::exec(core, vec, insn),
        SveForm::WriteFfr { .. } => sve_pred::exec(core, vec, insn),
        SveForm::CountP { .. } => sve_pred::exec(core, vec, insn),
        SveForm::IncP { .. } => sve_pred::exec(core, vec, insn),
        SveForm::IncPZ { .. } => sve_pred::exec(core, vec, insn),
        SveForm::While { .. } => sve_pred::exec(core, vec, insn),
        SveForm::Cterm { .. } => sve_pred::exec(core, vec, insn),
        SveForm::LoadImm { .. } => unreachable!(),
        SveForm::LoadReg { .. } => unreachable!(),
        SveForm::LoadFf { .. } => unreachable!(),
        SveForm::LoadNf { .. } => unreachable!(),
        SveForm::LoadNtImm { .. } => unreachable!(),
        SveForm::LoadNtReg { .. } => unreachable!(),
        SveForm::LoadQuadImm { .. } => unreachable!(),
        SveForm::LoadQuadReg { .. } => unreachable!(),
        SveForm::LoadManyImm { .. } => unreachable!(),
        SveForm::LoadManyReg { .. } => unreachable!(),
        SveForm::LoadOne { .. } => unreachable!(),
        SveForm::LoadZ { .. } => unreachable!(),
        SveForm::LoadP { .. } => unreachable!(),
        SveForm::StoreImm { .. } => unreachable!(),
        SveForm::StoreReg { .. } => unreachable!(),
        SveForm::StoreNtImm { .. } => unreachable!(),
        SveForm::StoreNtReg { .. } => unreachable!(),
        SveForm::StoreManyImm { .. } => unreachable!(),
        SveForm::StoreManyReg { .. } => unreachable!(),
        SveForm::StoreZ { .. } => unreachable!(),
        SveForm::StoreP { .. } => unreachable!(),
        SveForm::GatherSx { .. } => unreachable!(),
        SveForm::GatherSxScaled { .. } => unreachable!(),
        SveForm::GatherDx { .. } => unreachable!(),
        SveForm::GatherDxScaled { .. } => unreachable!(),
        SveForm::GatherD { .. } => unreachable!(),
        SveForm::GatherDScaled { .. } => unreachable!(),
        SveForm::GatherSv { .. } => unreachable!(),
        SveForm::GatherDv { .. } => unreachable!(),
        SveForm::ScatterSx { .. } => unreachable!(),
        SveForm::ScatterSxScaled { .. } => unreachable!(),
        SveForm::ScatterDx { .. } => unreachable!(),
        SveForm::ScatterDxScaled { .. } => unreachable!(),
        SveForm::ScatterD { .. } => unreachable!(),
        SveForm::ScatterDScaled { .. } => unreachable!(),
        SveForm::ScatterSv { .. } => unreachable!(),
        SveForm::ScatterDv { .. } => unreachable!(),
    };
}

/// Does a first-faulting or non-faulting load.
#[inline(never)]
fn load_first_fault(
    core: &mut Core,
    vec: &mut VecRegs,
    memory: &mut Mem,
    log: &mut AccessLog,
    insn: &Sve,
) -> Effect
    requires own { is_first_fault insn.now ≡ true }
    requires empty { log.old.items ≡ [] }
    ensures done { first_fault insn.now core.old vec.old memory.old.memory ≡ record {
      core = core.new;
      vectors = vec.new;
      memory = memory.new.memory;
      accesses = log.new.items;
      effect = result;
    } }
    ensures marks { memory.new.marks ≡ memory.old.marks }
{
    if load_unrefused(core, vec, memory, log, insn) {
        return Effect::Next;
    }
    load_listed(core, vec, memory, log, insn)
}

/// Does a first-faulting or non-faulting load at once, where FFR is all ones and it can be seen that no element is
/// refused, and says whether it did. Else nothing is changed.
#[tactic(auto, using(crate::proofs::Gathered::others_are_gathered))]
fn load_unrefused(
    core: &Core,
    vec: &mut VecRegs,
    memory: &mut Mem,
    log: &mut AccessLog,
    insn: &Sve,
) -> bool
    requires own { is_first_fault insn.now ≡ true }
    requires empty { log.old.items ≡ [] }
    ensures loaded { result ≡ true → first_fault insn.now core.now vec.old memory.old.memory ≡ record {
      core = core.now;
      vectors = vec.new;
      memory = memory.new.memory;
      accesses = log.new.items;
      effect = Effect.Next;
    } }
    ensures kept { result ≡ false → vec.new ≡ vec.old }
    ensures unlogged { result ≡ false → log.new.items ≡ [] }
    ensures memory { memory.new ≡ memory.old }
{
    if is_first_contiguous(insn) {
        sve_loads::load_unrefused(core, vec, memory, log, insn)
    } else {
        sve_gather::load_unrefused(core, vec, memory, log, insn)
    }
}

/// Does a first-faulting or non-faulting load element by element. It isn't inlined, so that its buffers take no time
/// where they aren't used.
#[inline(never)]
pub fn load_listed(
    core: &mut Core,
    vec: &mut VecRegs,
    memory: &mut Mem,
    log: &mut AccessLog,
    insn: &Sve,
) -> Effect
    requires own { is_first_fault insn.now ≡ true }
    requires empty { log.old.items ≡ [] }
    ensures done { first_fault insn.now core.old vec.old memory.old.memory ≡ record {
      core = core.new;
      vectors = vec.new;
      memory = memory.new.memory;
      accesses = log.new.items;
      effect = result;
    } }
    ensures marks { memory.new.marks ≡ memory.old.marks }
{
    let list = elements_of(core, vec, insn);
    sve_ffr::exec(core, vec, memory, log, insn, &list)
}

/// The elements of a first-faulting or non-faulting load, contiguous or gathered.
#[tactic(auto, using(crate::proofs::Gathered::others_are_gathered))]
fn elements_of(core: &Core, vec: &VecRegs, insn: &Sve) -> ElementList
    requires { is_first_fault insn.now ≡ true }
    ensures elements { listed (layout insn.now core.now vec.now).register result
        ≡ vector_elements insn.now core.now vec.now }
    ensures bytes { result.bytes ≡ (layout insn.now core.now vec.now).bytes }
    ensures is_signed { result.signed ≡ loads_signed insn.now }
{
    if is_first_contiguous(insn) {
        sve_loads::elements(core, vec, insn)
    } else {
        sve_gather::elements(core, vec, insn)
    }
}

/// Whether an instruction is a contiguous first-faulting or non-faulting load.
fn is_first_contiguous(insn: &Sve) -> bool
    ensures { result ≡ is_first_contiguous insn.now }
{
    matches!(
        *insn.form(),
        SveForm::LoadFf { .. } | SveForm::LoadNf { .. }
    )
}
