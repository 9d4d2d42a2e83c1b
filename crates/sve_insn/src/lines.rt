//! The lines of the table, and their places in it by name.
ghost use Rattle.std.specs.Prelude.{◌≡◌};
ghost use Rattle.sve_insn.specs.Rows.{line_number};

use crate::form::SveForm;

/// The lines, in the table's order.
#[derive(Clone, Copy)]
pub enum SveLine {
    LoadZ,
    LoadP,
    StoreZ,
    GatherSx,
    GatherSxScaled,
    StoreReg,
    LoadImm,
    LoadReg,
    LoadFf,
    LoadNf,
    LoadNtImm,
    LoadNtReg,
    LoadQuadImm,
    LoadQuadReg,
    LoadManyImm,
    LoadManyReg,
    LoadOne,
    StoreImm,
    StoreNtImm,
    StoreNtReg,
    StoreManyImm,
    StoreManyReg,
    StoreP,
    GatherDx,
    GatherDxScaled,
    GatherD,
    GatherDScaled,
    GatherSv,
    GatherDv,
    ScatterSx,
    ScatterSxScaled,
    ScatterDx,
    ScatterDxScaled,
    ScatterD,
    ScatterDScaled,
    ScatterSv,
    ScatterDv,
    Binary,
    BinaryWide,
    ShiftImm,
    Unary,
    MulAddZ,
    MulAddD,
    Plain,
    LogicZ,
    PlainWide,
    PlainShift,
    Index,
    PrefixP,
    Prefix,
    Dot,
    DotIndexed,
    Reduce,
    Count,
    IncX,
    IncZ,
    SatX,
    SatZ,
    AddLength,
    ReadLength,
    BitmaskZ,
    CopyImm,
    SelectZ,
    DupReg,
    DupLane,
    Insert,
    RevZ,
    Unpack,
    Table,
    Interleave,
    InterleaveP,
    UnpackP,
    RevP,
    Compact,
    Splice,
    Ext,
    CopyReg,
    Last,
    CondLast,
    CmpVec,
    CmpWide,
    CmpUImm,
    CmpSImm,
    LogicP,
    SelectP,
    Break,
    BreakPair,
    BreakNext,
    Ptest,
    First,
    Next,
    Ptrue,
    Pfalse,
    ReadFfr,
    ReadFfrAll,
    WriteFfr,
    CountP,
    IncP,
    IncPZ,
    While,
    Cterm,
    WideImm,
    MinMaxImm,
    DupImm,
}

pub const LOAD_Z: u8 = SveLine::LoadZ as u8;

pub const LOAD_P: u8 = SveLine::LoadP as u8;

pub const STORE_Z: u8 = SveLine::StoreZ as u8;

pub const GATHER_SX: u8 = SveLine::GatherSx as u8;

pub const GATHER_SX_SCALED: u8 = SveLine::GatherSxScaled as u8;

pub const STORE_REG: u8 = SveLine::StoreReg as u8;

pub const LOAD_IMM: u8 = SveLine::LoadImm as u8;

pub const LOAD_REG: u8 = SveLine::LoadReg as u8;

pub const LOAD_FF: u8 = SveLine::LoadFf as u8;

pub const LOAD_NF: u8 = SveLine::LoadNf as u8;

pub const LOAD_NT_IMM: u8 = SveLine::LoadNtImm as u8;

pub const LOAD_NT_REG: u8 = SveLine::LoadNtReg as u8;

pub const LOAD_QUAD_IMM: u8 = SveLine::LoadQuadImm as u8;

pub const LOAD_QUAD_REG: u8 = SveLine::LoadQuadReg as u8;

pub const LOAD_MANY_IMM: u8 = SveLine::LoadManyImm as u8;

pub const LOAD_MANY_REG: u8 = SveLine::LoadManyReg as u8;

pub const LOAD_ONE: u8 = SveLine::LoadOne as u8;

pub const STORE_IMM: u8 = SveLine::StoreImm as u8;

pub const STORE_NT_IMM: u8 = SveLine::StoreNtImm as u8;

pub const STORE_NT_REG: u8 = SveLine::StoreNtReg as u8;

pub const STORE_MANY_IMM: u8 = SveLine::StoreManyImm as u8;

pub const STORE_MANY_REG: u8 = SveLine::StoreManyReg as u8;

pub const STORE_P: u8 = SveLine::StoreP as u8;

pub const GATHER_DX: u8 = SveLine::GatherDx as u8;

pub const GATHER_DX_SCALED: u8 = SveLine::GatherDxScaled as u8;

pub const GATHER_D: u8 = SveLine::GatherD as u8;

pub const GATHER_D_SCALED: u8 = SveLine::GatherDScaled as u8;

pub const GATHER_SV: u8 = SveLine::GatherSv as u8;

pub const GATHER_DV: u8 = SveLine::GatherDv as u8;

pub const SCATTER_SX: u8 = SveLine::ScatterSx as u8;

pub const SCATTER_SX_SCALED: u8 = SveLine::ScatterSxScaled as u8;

pub const SCATTER_DX: u8 = SveLine::ScatterDx as u8;

pub const SCATTER_DX_SCALED: u8 = SveLine::ScatterDxScaled as u8;

pub const SCATTER_D: u8 = SveLine::ScatterD as u8;

pub const SCATTER_D_SCALED: u8 = SveLine::ScatterDScaled as u8;

pub const SCATTER_SV: u8 = SveLine::ScatterSv as u8;

pub const SCATTER_DV: u8 = SveLine::ScatterDv as u8;

pub const BINARY: u8 = SveLine::Binary as u8;

pub const BINARY_WIDE: u8 = SveLine::BinaryWide as u8;

pub const SHIFT_IMM: u8 = SveLine::ShiftImm as u8;

pub const UNARY: u8 = SveLine::Unary as u8;

pub const MUL_ADD_Z: u8 = SveLine::MulAddZ as u8;

pub const MUL_ADD_D: u8 = SveLine::MulAddD as u8;

pub const PLAIN: u8 = SveLine::Plain as u8;

pub const LOGIC_Z: u8 = SveLine::LogicZ as u8;

pub const PLAIN_WIDE: u8 = SveLine::PlainWide as u8;

pub const PLAIN_SHIFT: u8 = SveLine::PlainShift as u8;

pub const INDEX: u8 = SveLine::Index as u8;

pub const PREFIX_P: u8 = SveLine::PrefixP as u8;

pub const PREFIX: u8 = SveLine::Prefix as u8;

pub const DOT: u8 = SveLine::Dot as u8;

pub const DOT_INDEXED: u8 = SveLine::DotIndexed as u8;

pub const REDUCE: u8 = SveLine::Reduce as u8;

pub const COUNT: u8 = SveLine::Count as u8;

pub const INC_X: u8 = SveLine::IncX as u8;

pub const INC_Z: u8 = SveLine::IncZ as u8;

pub const SAT_X: u8 = SveLine::SatX as u8;

pub const SAT_Z: u8 = SveLine::SatZ as u8;

pub const ADD_LENGTH: u8 = SveLine::AddLength as u8;

pub const READ_LENGTH: u8 = SveLine::ReadLength as u8;

pub const BITMASK_Z: u8 = SveLine::BitmaskZ as u8;

pub const COPY_IMM: u8 = SveLine::CopyImm as u8;

pub const SELECT_Z: u8 = SveLine::SelectZ as u8;

pub const DUP_REG: u8 = SveLine::DupReg as u8;

pub const DUP_LANE: u8 = SveLine::DupLane as u8;

pub const INSERT: u8 = SveLine::Insert as u8;

pub const REV_Z: u8 = SveLine::RevZ as u8;

pub const UNPACK: u8 = SveLine::Unpack as u8;

pub const TABLE: u8 = SveLine::Table as u8;

pub const INTERLEAVE: u8 = SveLine::Interleave as u8;

pub const INTERLEAVE_P: u8 = SveLine::InterleaveP as u8;

pub const UNPACK_P: u8 = SveLine::UnpackP as u8;

pub const REV_P: u8 = SveLine::RevP as u8;

pub const COMPACT: u8 = SveLine::Compact as u8;

pub const SPLICE: u8 = SveLine::Splice as u8;

pub const EXT: u8 = SveLine::Ext as u8;

pub const COPY_REG: u8 = SveLine::CopyReg as u8;

pub const LAST: u8 = SveLine::Last as u8;

pub const COND_LAST: u8 = SveLine::CondLast as u8;

pub const CMP_VEC: u8 = SveLine::CmpVec as u8;

pub const CMP_WIDE: u8 = SveLine::CmpWide as u8;

pub const CMP_U_IMM: u8 = SveLine::CmpUImm as u8;

pub const CMP_S_IMM: u8 = SveLine::CmpSImm as u8;

pub const LOGIC_P: u8 = SveLine::LogicP as u8;

pub const SELECT_P: u8 = SveLine::SelectP as u8;

pub const BREAK: u8 = SveLine::Break as u8;

pub const BREAK_PAIR: u8 = SveLine::BreakPair as u8;

pub const BREAK_NEXT: u8 = SveLine::BreakNext as u8;

pub const PTEST: u8 = SveLine::Ptest as u8;

pub const FIRST: u8 = SveLine::First as u8;

pub const NEXT: u8 = SveLine::Next as u8;

pub const PTRUE: u8 = SveLine::Ptrue as u8;

pub const PFALSE: u8 = SveLine::Pfalse as u8;

pub const READ_FFR: u8 = SveLine::ReadFfr as u8;

pub const READ_FFR_ALL: u8 = SveLine::ReadFfrAll as u8;

pub const WRITE_FFR: u8 = SveLine::WriteFfr as u8;

pub const COUNT_P: u8 = SveLine::CountP as u8;

pub const INC_P: u8 = SveLine::IncP as u8;

pub const INC_PZ: u8 = SveLine::IncPZ as u8;

pub const WHILE: u8 = SveLine::While as u8;

pub const CTERM: u8 = SveLine::Cterm as u8;

pub const WIDE_IMM: u8 = SveLine::WideImm as u8;

pub const MIN_MAX_IMM: u8 = SveLine::MinMaxImm as u8;

pub const DUP_IMM: u8 = SveLine::DupImm as u8;

/// How many lines there are.
pub const LINES: u8 = DUP_IMM + 1;

/// The place of a form's line in the table.
pub fn line_number(form: &SveForm) -> u8
    ensures { result ≡ line_number form.now }
{
    match form {
        SveForm::LoadZ { .. } => LOAD_Z,
        SveForm::LoadP { .. } => LOAD_P,
        SveForm::StoreZ { .. } => STORE_Z,
        SveForm::GatherSx { .. } => GATHER_SX,
        SveForm::GatherSxScaled { .. } => GATHER_SX_SCALED,
        SveForm::StoreReg { .. } => STORE_REG,
        SveForm::LoadImm { .. } => LOAD_IMM,
        SveForm::LoadReg { .. } => LOAD_REG,
        SveForm::LoadFf { .. } => LOAD_FF,
        SveForm::LoadNf { .. } => LOAD_NF,
        SveForm::LoadNtImm { .. } => LOAD_NT_IMM,
        SveForm::LoadNtReg { .. } => LOAD_NT_REG,
        SveForm::LoadQuadImm { .. } => LOAD_QUAD_IMM,
        SveForm::LoadQuadReg { .. } => LOAD_QUAD_REG,
        SveForm::LoadManyImm { .. } => LOAD_MANY_IMM,
        SveForm::LoadManyReg { .. } => LOAD_MANY_REG,
        SveForm::LoadOne { .. } => LOAD_ONE,
        SveForm::StoreImm { .. } => STORE_IMM,
        SveForm::StoreNtImm { .. } => STORE_NT_IMM,
        SveForm::StoreNtReg { .. } => STORE_NT_REG,
        SveForm::StoreManyImm { .. } => STORE_MANY_IMM,
        SveForm::StoreManyReg { .. } => STORE_MANY_REG,
        SveForm::StoreP { .. } => STORE_P,
        SveForm::GatherDx { .. } => GATHER_DX,
        SveForm::GatherDxScaled { .. } => GATHER_DX_SCALED,
        SveForm::GatherD { .. } => GATHER_D,
        SveForm::GatherDScaled { .. } => GATHER_D_SCALED,
        SveForm::GatherSv { .. } => GATHER_SV,
        SveForm::GatherDv { .. } => GATHER_DV,
        SveForm::ScatterSx { .. } => SCATTER_SX,
        SveForm::ScatterSxScaled { .. } => SCATTER_SX_SCALED,
        SveForm::ScatterDx { .. } => SCATTER_DX,
        SveForm::ScatterDxScaled { .. } => SCATTER_DX_SCALED,
        SveForm::ScatterD { .. } => SCATTER_D,
        SveForm::ScatterDScaled { .. } => SCATTER_D_SCALED,
        SveForm::ScatterSv { .. } => SCATTER_SV,
        SveForm::ScatterDv { .. } => SCATTER_DV,
        SveForm::Binary { .. } => BINARY,
        SveForm::BinaryWide { .. } => BINARY_WIDE,
        SveForm::ShiftImm { .. } => SHIFT_IMM,
        SveForm::Unary { .. } => UNARY,
        SveForm::MulAddZ { .. } => MUL_ADD_Z,
        SveForm::MulAddD { .. } => MUL_ADD_D,
        SveForm::Plain { .. } => PLAIN,
        SveForm::LogicZ { .. } => LOGIC_Z,
        SveForm::PlainWide { .. } => PLAIN_WIDE,
        SveForm::PlainShift { .. } => PLAIN_SHIFT,
        SveForm::Index { .. } => INDEX,
        SveForm::PrefixP { .. } => PREFIX_P,
        SveForm::Prefix { .. } => PREFIX,
        SveForm::Dot { .. } => DOT,
        SveForm::DotIndexed { .. } => DOT_INDEXED,
        SveForm::Reduce { .. } => REDUCE,
        SveForm::Count { .. } => COUNT,
        SveForm::IncX { .. } => INC_X,
        SveForm::IncZ { .. } => INC_Z,
        SveForm::SatX { .. } => SAT_X,
        SveForm::SatZ { .. } => SAT_Z,
        SveForm::AddLength { .. } => ADD_LENGTH,
        SveForm::ReadLength { .. } => READ_LENGTH,
        SveForm::BitmaskZ { .. } => BITMASK_Z,
        SveForm::CopyImm { .. } => COPY_IMM,
        SveForm::SelectZ { .. } => SELECT_Z,
        SveForm::DupReg { .. } => DUP_REG,
        SveForm::DupLane { .. } => DUP_LANE,
        SveForm::Insert { .. } => INSERT,
        SveForm::RevZ { .. } => REV_Z,
        SveForm::Unpack { .. } => UNPACK,
        SveForm::Table { .. } => TABLE,
        SveForm::Interleave { .. } => INTERLEAVE,
        SveForm::InterleaveP { .. } => INTERLEAVE_P,
        SveForm::UnpackP { .. } => UNPACK_P,
        SveForm::RevP { .. } => REV_P,
        SveForm::Compact { .. } => COMPACT,
        SveForm::Splice { .. } => SPLICE,
        SveForm::Ext { .. } => EXT,
        SveForm::CopyReg { .. } => COPY_REG,
        SveForm::Last { .. } => LAST,
        SveForm::CondLast { .. } => COND_LAST,
        SveForm::CmpVec { .. } => CMP_VEC,
        SveForm::CmpWide { .. } => CMP_WIDE,
        SveForm::CmpUImm { .. } => CMP_U_IMM,
        SveForm::CmpSImm { .. } => CMP_S_IMM,
        SveForm::LogicP { .. } => LOGIC_P,
        SveForm::SelectP { .. } => SELECT_P,
        SveForm::Break { .. } => BREAK,
        SveForm::BreakPair { .. } => BREAK_PAIR,
        SveForm::BreakNext { .. } => BREAK_NEXT,
        SveForm::Ptest { .. } => PTEST,
        SveForm::First { .. } => FIRST,
        SveForm::Next { .. } => NEXT,
        SveForm::Ptrue { .. } => PTRUE,
        SveForm::Pfalse { .. } => PFALSE,
        SveForm::ReadFfr { .. } => READ_FFR,
        SveForm::ReadFfrAll { .. } => READ_FFR_ALL,
        SveForm::WriteFfr { .. } => WRITE_FFR,
        SveForm::CountP { .. } => COUNT_P,
        SveForm::IncP { .. } => INC_P,
        SveForm::IncPZ { .. } => INC_PZ,
        SveForm::While { .. } => WHILE,
        SveForm::Cterm { .. } => CTERM,
        SveForm::WideImm { .. } => WIDE_IMM,
        SveForm::MinMaxImm { .. } => MIN_MAX_IMM,
        SveForm::DupImm { .. } => DUP_IMM,
    }
}
