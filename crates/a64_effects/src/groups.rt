//! The groups of the rows, and the one that a row belongs to.
ghost use Rattle.std.specs.Prelude.{◌≡◌};
ghost use Rattle.a64_effects.specs.Groups as model;

use a64_insn::A64Form;

/// A group of rows, by what A64 instructions work on.
#[derive(Clone, Copy)]
pub enum Group {
    /// What works on the scalar registers and the flags alone.
    Data,
    /// Branches, exceptions and the system's rows.
    Flow,
    /// Loads and stores.
    Accesses,
    /// Copies of bits between general and vector registers, and immediates to vector registers.
    BitMoves,
}

/// The group that a form's row belongs to.
#[inline(always)]
pub fn group_of(form: &A64Form) -> Group
    ensures { result ≡ model.group_of form.now }
{
    match *form {
        A64Form::Adr { .. }
        | A64Form::AddImm { .. }
        | A64Form::LogicImm { .. }
        | A64Form::MoveWide { .. }
        | A64Form::Bitfield { .. }
        | A64Form::Extract { .. }
        | A64Form::LogicReg { .. }
        | A64Form::AddReg { .. }
        | A64Form::AddExt { .. }
        | A64Form::AddCarry { .. }
        | A64Form::CondReg { .. }
        | A64Form::CondImm { .. }
        | A64Form::Select { .. }
        | A64Form::MulAdd { .. }
        | A64Form::MulLong { .. }
        | A64Form::MulHigh { .. }
        | A64Form::TwoSource { .. }
        | A64Form::OneSource { .. }
        | A64Form::Rev { .. } => Group::Data,
        A64Form::Branch { .. }
        | A64Form::BranchCond { .. }
        | A64Form::Compare { .. }
        | A64Form::Test { .. }
        | A64Form::BranchReg { .. }
        | A64Form::Except { .. }
        | A64Form::Hint { .. }
        | A64Form::Barrier { .. }
        | A64Form::ReadSys { .. }
        | A64Form::WriteSys { .. } => Group::Flow,
        A64Form::LsUnsigned { .. }
        | A64Form::LsUnscaled { .. }
        | A64Form::LsPost { .. }
        | A64Form::LsPre { .. }
        | A64Form::LsReg { .. }
        | A64Form::LsLiteral { .. }
        | A64Form::Pair { .. }
        | A64Form::StoreEx { .. }
        | A64Form::LoadEx { .. }
        | A64Form::Ordered { .. }
        | A64Form::Atomic { .. }
        | A64Form::CompareSwap { .. } => Group::Accesses,
        A64Form::FMove { .. } | A64Form::MoveImm { .. } => Group::BitMoves,
    }
}
