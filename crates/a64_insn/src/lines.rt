//! The lines of the table, and their numbers by name.
ghost use Rattle.std.specs.Prelude.{◌≡◌, ◌<◌};
ghost use Rattle.a64_insn.specs.Rows.{line_number};
ghost use Rattle.a64_insn.specs.declared.lines.TheConstants as line;

use crate::form::A64Form;

/// The lines, in the table's order.
#[derive(Clone, Copy)]
pub enum A64Line {
    Adr,
    AddImm,
    LogicImm,
    MoveWide,
    Bitfield,
    Extract,
    LogicReg,
    AddReg,
    AddExt,
    AddCarry,
    CondReg,
    CondImm,
    Select,
    MulAdd,
    MulLong,
    MulHigh,
    TwoSource,
    OneSource,
    Rev,
    Branch,
    BranchCond,
    Compare,
    Test,
    BranchReg,
    Except,
    Hint,
    Barrier,
    ReadSys,
    WriteSys,
    LsUnsigned,
    LsUnscaled,
    LsPost,
    LsPre,
    LsReg,
    LsLiteral,
    Pair,
    StoreEx,
    LoadEx,
    Ordered,
    Atomic,
    CompareSwap,
    FMove,
    MoveImm,
}

pub const ADR: u8 = A64Line::Adr as u8;

pub const ADD_IMM: u8 = A64Line::AddImm as u8;

pub const LOGIC_IMM: u8 = A64Line::LogicImm as u8;

pub const MOVE_WIDE: u8 = A64Line::MoveWide as u8;

pub const BITFIELD: u8 = A64Line::Bitfield as u8;

pub const EXTRACT: u8 = A64Line::Extract as u8;

pub const LOGIC_REG: u8 = A64Line::LogicReg as u8;

pub const ADD_REG: u8 = A64Line::AddReg as u8;

pub const ADD_EXT: u8 = A64Line::AddExt as u8;

pub const ADD_CARRY: u8 = A64Line::AddCarry as u8;

pub const COND_REG: u8 = A64Line::CondReg as u8;

pub const COND_IMM: u8 = A64Line::CondImm as u8;

pub const SELECT: u8 = A64Line::Select as u8;

pub const MUL_ADD: u8 = A64Line::MulAdd as u8;

pub const MUL_LONG: u8 = A64Line::MulLong as u8;

pub const MUL_HIGH: u8 = A64Line::MulHigh as u8;

pub const TWO_SOURCE: u8 = A64Line::TwoSource as u8;

pub const ONE_SOURCE: u8 = A64Line::OneSource as u8;

pub const REV: u8 = A64Line::Rev as u8;

pub const BRANCH: u8 = A64Line::Branch as u8;

pub const BRANCH_COND: u8 = A64Line::BranchCond as u8;

pub const COMPARE: u8 = A64Line::Compare as u8;

pub const TEST: u8 = A64Line::Test as u8;

pub const BRANCH_REG: u8 = A64Line::BranchReg as u8;

pub const EXCEPT: u8 = A64Line::Except as u8;

pub const HINT: u8 = A64Line::Hint as u8;

pub const BARRIER: u8 = A64Line::Barrier as u8;

pub const READ_SYS: u8 = A64Line::ReadSys as u8;

pub const WRITE_SYS: u8 = A64Line::WriteSys as u8;

pub const LS_UNSIGNED: u8 = A64Line::LsUnsigned as u8;

pub const LS_UNSCALED: u8 = A64Line::LsUnscaled as u8;

pub const LS_POST: u8 = A64Line::LsPost as u8;

pub const LS_PRE: u8 = A64Line::LsPre as u8;

pub const LS_REG: u8 = A64Line::LsReg as u8;

pub const LS_LITERAL: u8 = A64Line::LsLiteral as u8;

pub const PAIR: u8 = A64Line::Pair as u8;

pub const STORE_EX: u8 = A64Line::StoreEx as u8;

pub const LOAD_EX: u8 = A64Line::LoadEx as u8;

pub const ORDERED: u8 = A64Line::Ordered as u8;

pub const ATOMIC: u8 = A64Line::Atomic as u8;

pub const COMPARE_SWAP: u8 = A64Line::CompareSwap as u8;

pub const F_MOVE: u8 = A64Line::FMove as u8;

pub const MOVE_IMM: u8 = A64Line::MoveImm as u8;

/// How many there are.
pub const LINES: u8 = MOVE_IMM + 1;

/// The number of the line of a form, by the lines' names.
macro_rules! number_of {
    ($form:ident: $($line:ident)*) => {
        match $form {
            $(A64Form::$line { .. } => A64Line::$line as u8),*
        }
    };
}

/// The number of a form's line.
pub fn line_number(form: &A64Form) -> u8
    ensures number { result ≡ line_number form.now }
    ensures small { result < line.LINES }
{
    number_of!(form:
        Adr AddImm LogicImm MoveWide Bitfield Extract LogicReg AddReg AddExt AddCarry CondReg
        CondImm Select MulAdd MulLong MulHigh TwoSource OneSource Rev Branch BranchCond Compare Test
        BranchReg Except Hint Barrier ReadSys WriteSys LsUnsigned LsUnscaled LsPost LsPre LsReg
        LsLiteral Pair StoreEx LoadEx Ordered Atomic CompareSwap FMove MoveImm
    )
}
