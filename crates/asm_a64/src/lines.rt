//! The lines of patterns, and their numbers by name.

/// The lines of patterns: those of the instruction table in its order, where offsets in registers have six, and behind
/// them that of other names.
#[derive(Clone, Copy)]
pub enum TextLine {
    Adr,
    AddImm,
    LogicImm,
    MoveWide,
    Bitfield,
    Extract,
    LogicReg,
    AddReg,
    AddExt,
    AddCarry,
    CondReg,
    CondImm,
    Select,
    MulAdd,
    MulLong,
    MulHigh,
    TwoSource,
    OneSource,
    Rev,
    Branch,
    BranchCond,
    Compare,
    Test,
    BranchReg,
    Except,
    Hint,
    Barrier,
    ReadSys,
    WriteSys,
    LsUnsigned,
    LsUnscaled,
    LsPost,
    LsPre,
    LsRegWord,
    LsRegWordScaled,
    LsRegShift,
    LsRegShiftScaled,
    LsRegSigned,
    LsRegSignedScaled,
    LsLiteral,
    Pair,
    StoreEx,
    LoadEx,
    Ordered,
    Atomic,
    CompareSwap,
    FMove,
    MoveImm,
    Aliases,
}

pub const ADR: u8 = TextLine::Adr as u8;

pub const ADD_IMM: u8 = TextLine::AddImm as u8;

pub const LOGIC_IMM: u8 = TextLine::LogicImm as u8;

pub const MOVE_WIDE: u8 = TextLine::MoveWide as u8;

pub const BITFIELD: u8 = TextLine::Bitfield as u8;

pub const EXTRACT: u8 = TextLine::Extract as u8;

pub const LOGIC_REG: u8 = TextLine::LogicReg as u8;

pub const ADD_REG: u8 = TextLine::AddReg as u8;

pub const ADD_EXT: u8 = TextLine::AddExt as u8;

pub const ADD_CARRY: u8 = TextLine::AddCarry as u8;

pub const COND_REG: u8 = TextLine::CondReg as u8;

pub const COND_IMM: u8 = TextLine::CondImm as u8;

pub const SELECT: u8 = TextLine::Select as u8;

pub const MUL_ADD: u8 = TextLine::MulAdd as u8;

pub const MUL_LONG: u8 = TextLine::MulLong as u8;

pub const MUL_HIGH: u8 = TextLine::MulHigh as u8;

pub const TWO_SOURCE: u8 = TextLine::TwoSource as u8;

pub const ONE_SOURCE: u8 = TextLine::OneSource as u8;

pub const REV: u8 = TextLine::Rev as u8;

pub const BRANCH: u8 = TextLine::Branch as u8;

pub const BRANCH_COND: u8 = TextLine::BranchCond as u8;

pub const COMPARE: u8 = TextLine::Compare as u8;

pub const TEST: u8 = TextLine::Test as u8;

pub const BRANCH_REG: u8 = TextLine::BranchReg as u8;

pub const EXCEPT: u8 = TextLine::Except as u8;

pub const HINT: u8 = TextLine::Hint as u8;

pub const BARRIER: u8 = TextLine::Barrier as u8;

pub const READ_SYS: u8 = TextLine::ReadSys as u8;

pub const WRITE_SYS: u8 = TextLine::WriteSys as u8;

pub const LS_UNSIGNED: u8 = TextLine::LsUnsigned as u8;

pub const LS_UNSCALED: u8 = TextLine::LsUnscaled as u8;

pub const LS_POST: u8 = TextLine::LsPost as u8;

pub const LS_PRE: u8 = TextLine::LsPre as u8;

pub const LS_REG_WORD: u8 = TextLine::LsRegWord as u8;

pub const LS_REG_WORD_SCALED: u8 = TextLine::LsRegWordScaled as u8;

pub const LS_REG_SHIFT: u8 = TextLine::LsRegShift as u8;

pub const LS_REG_SHIFT_SCALED: u8 = TextLine::LsRegShiftScaled as u8;

pub const LS_REG_SIGNED: u8 = TextLine::LsRegSigned as u8;

pub const LS_REG_SIGNED_SCALED: u8 = TextLine::LsRegSignedScaled as u8;

pub const LS_LITERAL: u8 = TextLine::LsLiteral as u8;

pub const PAIR: u8 = TextLine::Pair as u8;

pub const STORE_EX: u8 = TextLine::StoreEx as u8;

pub const LOAD_EX: u8 = TextLine::LoadEx as u8;

pub const ORDERED: u8 = TextLine::Ordered as u8;

pub const ATOMIC: u8 = TextLine::Atomic as u8;

pub const COMPARE_SWAP: u8 = TextLine::CompareSwap as u8;

pub const F_MOVE: u8 = TextLine::FMove as u8;

pub const MOVE_IMM: u8 = TextLine::MoveImm as u8;

pub const ALIASES: u8 = TextLine::Aliases as u8;
