//! The groups of rows, and the one that a row is of.
ghost use Rattle.std.specs.Prelude.{◌≡◌};
ghost use Rattle.sve_effects.specs.Effects as model;

use sve_insn::SveForm;

/// A group of rows of SVE instructions.
#[derive(Clone, Copy)]
pub enum Group {
    /// Vector registers lane by lane.
    Lanes,
    /// Permutes of lanes, and of the lanes of predicates.
    Permutes,
    /// Counts of lanes, and multiples of the vector length.
    Counts,
    /// Folds of the active lanes of a register to one number.
    Folds,
    /// Compares into predicates, and what works on predicates and FFR.
    Predicates,
    /// Loads of consecutive elements.
    Loads,
    /// Stores of consecutive elements.
    Stores,
    /// Loads of elements that stand apart.
    Gathers,
    /// Stores of elements that stand apart.
    Scatters,
    /// First-faulting and non-faulting loads.
    FirstFaults,
}

/// The group of a gather.
#[inline(always)]
fn by_fault(ff: bool) -> Group
    ensures { result ≡ model.by_fault ff }
{
    if ff {
        Group::FirstFaults
    } else {
        Group::Gathers
    }
}

/// The group that a form's row is of.
#[inline(always)]
pub fn group_of(form: &SveForm) -> Group
    ensures { result ≡ model.group_of form.now }
{
    match *form {
        SveForm::Binary { .. }
        | SveForm::BinaryWide { .. }
        | SveForm::ShiftImm { .. }
        | SveForm::Unary { .. }
        | SveForm::MulAddZ { .. }
        | SveForm::MulAddD { .. }
        | SveForm::Plain { .. }
        | SveForm::LogicZ { .. }
        | SveForm::PlainWide { .. }
        | SveForm::PlainShift { .. }
        | SveForm::Index { .. }
        | SveForm::Dot { .. }
        | SveForm::DotIndexed { .. }
        | SveForm::WideImm { .. }
        | SveForm::MinMaxImm { .. }
        | SveForm::DupImm { .. }
        | SveForm::BitmaskZ { .. }
        | SveForm::CopyImm { .. }
        | SveForm::PrefixP { .. }
        | SveForm::Prefix { .. }
        | SveForm::SelectZ { .. } => Group::Lanes,
        SveForm::Reduce { .. } => Group::Folds,
        SveForm::Count { .. }
        | SveForm::IncX { .. }
        | SveForm::IncZ { .. }
        | SveForm::SatX { .. }
        | SveForm::SatZ { .. }
        | SveForm::AddLength { .. }
        | SveForm::ReadLength { .. } => Group::Counts,
        SveForm::DupReg { .. }
        | SveForm::DupLane { .. }
        | SveForm::Insert { .. }
        | SveForm::RevZ { .. }
        | SveForm::Unpack { .. }
        | SveForm::Table { .. }
        | SveForm::Interleave { .. }
        | SveForm::InterleaveP { .. }
        | SveForm::UnpackP { .. }
        | SveForm::RevP { .. }
        | SveForm::Compact { .. }
        | SveForm::Splice { .. }
        | SveForm::Ext { .. }
        | SveForm::CopyReg { .. }
        | SveForm::Last { .. }
        | SveForm::CondLast { .. } => Group::Permutes,
        SveForm::CmpVec { .. }
        | SveForm::CmpWide { .. }
        | SveForm::CmpUImm { .. }
        | SveForm::CmpSImm { .. }
        | SveForm::LogicP { .. }
        | SveForm::SelectP { .. }
        | SveForm::Break { .. }
        | SveForm::BreakPair { .. }
        | SveForm::BreakNext { .. }
        | SveForm::Ptest { .. }
        | SveForm::First { .. }
        | SveForm::Next { .. }
        | SveForm::Ptrue { .. }
        | SveForm::Pfalse { .. }
        | SveForm::ReadFfr { .. }
        | SveForm::ReadFfrAll { .. }
        | SveForm::WriteFfr { .. }
        | SveForm::CountP { .. }
        | SveForm::IncP { .. }
        | SveForm::IncPZ { .. }
        | SveForm::While { .. }
        | SveForm::Cterm { .. } => Group::Predicates,
        SveForm::LoadImm { .. }
        | SveForm::LoadReg { .. }
        | SveForm::LoadNtImm { .. }
        | SveForm::LoadNtReg { .. }
        | SveForm::LoadQuadImm { .. }
        | SveForm::LoadQuadReg { .. }
        | SveForm::LoadManyImm { .. }
        | SveForm::LoadManyReg { .. }
        | SveForm::LoadOne { .. }
        | SveForm::LoadZ { .. }
        | SveForm::LoadP { .. } => Group::Loads,
        SveForm::LoadFf { .. } | SveForm::LoadNf { .. } => Group::FirstFaults,
        SveForm::StoreImm { .. }
        | SveForm::StoreReg { .. }
        | SveForm::StoreNtImm { .. }
        | SveForm::StoreNtReg { .. }
        | SveForm::StoreManyImm { .. }
        | SveForm::StoreManyReg { .. }
        | SveForm::StoreZ { .. }
        | SveForm::StoreP { .. } => Group::Stores,
        SveForm::GatherSx { ff, .. }
        | SveForm::GatherSxScaled { ff, .. }
        | SveForm::GatherDx { ff, .. }
        | SveForm::GatherDxScaled { ff, .. }
        | SveForm::GatherD { ff, .. }
        | SveForm::GatherDScaled { ff, .. }
        | SveForm::GatherSv { ff, .. }
        | SveForm::GatherDv { ff, .. } => by_fault(ff),
        SveForm::ScatterSx { .. }
        | SveForm::ScatterSxScaled { .. }
        | SveForm::ScatterDx { .. }
        | SveForm::ScatterDxScaled { .. }
        | SveForm::ScatterD { .. }
        | SveForm::ScatterDScaled { .. }
        | SveForm::ScatterSv { .. }
        | SveForm::ScatterDv { .. } => Group::Scatters,
    }
}
