//! The names of branches, exceptions and system with their base words, which have all fields 0.
ghost use Rattle.std.specs.Prelude.{◌≡◌, ◌<◌, Some, None, MatchOption, get_or, length};
ghost use Rattle.emu_bits.specs.Rows.{number_of};
ghost use Rattle.a64_insn.specs.Flow.{branch, compare, test_branch, branch_reg, except, barrier, read_sys, write_sys};
ghost use Rattle.a64_insn.specs.Numbers.{
  barrier_number,
  branch_number,
  branch_reg_number,
  compare_number,
  except_number,
  read_sys_number,
  test_number,
  write_sys_number,
};

use crate::ops::{
    BarrierOp, BranchOp, BranchRegOp, CompareOp, ExceptOp, ReadSysOp, TestOp, WriteSysOp,
};
use emu_bits::Word;

/// The name that has this base word in the line of `Branch`.
#[tactic(auto, unfolding(crate::specs::Flow::branch))]
pub fn branch_op(word: u32) -> Option<BranchOp>
    ensures { MatchOption result (number_of word branch.words ≡ None)
        (λ op. number_of word branch.words ≡ Some (branch_number op)) }
{
    match word {
        0x1400_0000 => Some(BranchOp::B),
        0x9400_0000 => Some(BranchOp::Bl),
        _ => None,
    }
}

/// A name's base word in the line of `Branch`.
#[tactic(auto, unfolding(crate::specs::Flow::branch))]
pub fn branch_word(op: BranchOp) -> Word
    ensures bits { result.bits ≡ get_or branch.words (branch_number op) 0 }
    ensures numbered { branch_number op < length branch.words }
{
    let bits = match op {
        BranchOp::B => 0x1400_0000,
        BranchOp::Bl => 0x9400_0000,
    };
    Word { bits }
}

/// The name that has this base word in the line of `Compare`.
#[tactic(auto, unfolding(crate::specs::Flow::compare))]
pub fn compare_op(word: u32) -> Option<CompareOp>
    ensures { MatchOption result (number_of word compare.words ≡ None)
        (λ op. number_of word compare.words ≡ Some (compare_number op)) }
{
    match word {
        0x3400_0000 => Some(CompareOp::Cbz),
        0x3500_0000 => Some(CompareOp::Cbnz),
        _ => None,
    }
}

/// A name's base word in the line of `Compare`.
#[tactic(auto, unfolding(crate::specs::Flow::compare))]
pub fn compare_word(op: CompareOp) -> Word
    ensures bits { result.bits ≡ get_or compare.words (compare_number op) 0 }
    ensures numbered { compare_number op < length compare.words }
{
    let bits = match op {
        CompareOp::Cbz => 0x3400_0000,
        CompareOp::Cbnz => 0x3500_0000,
    };
    Word { bits }
}

/// The name that has this base word in the line of `Test`.
#[tactic(auto, unfolding(crate::specs::Flow::test_branch))]
pub fn test_op(word: u32) -> Option<TestOp>
    ensures { MatchOption result (number_of word test_branch.words ≡ None)
        (λ op. number_of word test_branch.words ≡ Some (test_number op)) }
{
    match word {
        0x3600_0000 => Some(TestOp::Tbz),
        0x3700_0000 => Some(TestOp::Tbnz),
        _ => None,
    }
}

/// A name's base word in the line of `Test`.
#[tactic(auto, unfolding(crate::specs::Flow::test_branch))]
pub fn test_word(op: TestOp) -> Word
    ensures bits { result.bits ≡ get_or test_branch.words (test_number op) 0 }
    ensures numbered { test_number op < length test_branch.words }
{
    let bits = match op {
        TestOp::Tbz => 0x3600_0000,
        TestOp::Tbnz => 0x3700_0000,
    };
    Word { bits }
}

/// The name that has this base word in the line of `BranchReg`.
#[tactic(auto, unfolding(crate::specs::Flow::branch_reg))]
pub fn branch_reg_op(word: u32) -> Option<BranchRegOp>
    ensures { MatchOption result (number_of word branch_reg.words ≡ None)
        (λ op. number_of word branch_reg.words ≡ Some (branch_reg_number op)) }
{
    match word {
        0xd61f_0000 => Some(BranchRegOp::Br),
        0xd63f_0000 => Some(BranchRegOp::Blr),
        0xd65f_0000 => Some(BranchRegOp::Ret),
        _ => None,
    }
}

/// A name's base word in the line of `BranchReg`.
#[tactic(auto, unfolding(crate::specs::Flow::branch_reg))]
pub fn branch_reg_word(op: BranchRegOp) -> Word
    ensures bits { result.bits ≡ get_or branch_reg.words (branch_reg_number op) 0 }
    ensures numbered { branch_reg_number op < length branch_reg.words }
{
    let bits = match op {
        BranchRegOp::Br => 0xd61f_0000,
        BranchRegOp::Blr => 0xd63f_0000,
        BranchRegOp::Ret => 0xd65f_0000,
    };
    Word { bits }
}

/// The name that has this base word in the line of `Except`.
#[tactic(auto, unfolding(crate::specs::Flow::except))]
pub fn except_op(word: u32) -> Option<ExceptOp>
    ensures { MatchOption result (number_of word except.words ≡ None)
        (λ op. number_of word except.words ≡ Some (except_number op)) }
{
    match word {
        0xd400_0001 => Some(ExceptOp::Svc),
        0xd420_0000 => Some(ExceptOp::Brk),
        0xd440_0000 => Some(ExceptOp::Hlt),
        _ => None,
    }
}

/// A name's base word in the line of `Except`.
#[tactic(auto, unfolding(crate::specs::Flow::except))]
pub fn except_word(op: ExceptOp) -> Word
    ensures bits { result.bits ≡ get_or except.words (except_number op) 0 }
    ensures numbered { except_number op < length except.words }
{
    let bits = match op {
        ExceptOp::Svc => 0xd400_0001,
        ExceptOp::Brk => 0xd420_0000,
        ExceptOp::Hlt => 0xd440_0000,
    };
    Word { bits }
}

/// The name that has this base word in the line of `Barrier`.
#[tactic(auto, unfolding(crate::specs::Flow::barrier))]
pub fn barrier_op(word: u32) -> Option<BarrierOp>
    ensures { MatchOption result (number_of word barrier.words ≡ None)
        (λ op. number_of word barrier.words ≡ Some (barrier_number op)) }
{
    match word {
        0xd503_305f => Some(BarrierOp::Clrex),
        0xd503_309f => Some(BarrierOp::Dsb),
        0xd503_30bf => Some(BarrierOp::Dmb),
        0xd503_30df => Some(BarrierOp::Isb),
        _ => None,
    }
}

/// A name's base word in the line of `Barrier`.
#[tactic(auto, unfolding(crate::specs::Flow::barrier))]
pub fn barrier_word(op: BarrierOp) -> Word
    ensures bits { result.bits ≡ get_or barrier.words (barrier_number op) 0 }
    ensures numbered { barrier_number op < length barrier.words }
{
    let bits = match op {
        BarrierOp::Clrex => 0xd503_305f,
        BarrierOp::Dsb => 0xd503_309f,
        BarrierOp::Dmb => 0xd503_30bf,
        BarrierOp::Isb => 0xd503_30df,
    };
    Word { bits }
}

/// The name that has this base word in the line of `ReadSys`.
#[tactic(auto, unfolding(crate::specs::Flow::read_sys))]
pub fn read_sys_op(word: u32) -> Option<ReadSysOp>
    ensures { MatchOption result (number_of word read_sys.words ≡ None)
        (λ op. number_of word read_sys.words ≡ Some (read_sys_number op)) }
{
    match word {
        0xd53b_d040 => Some(ReadSysOp::Tpidr),
        0xd53b_4200 => Some(ReadSysOp::Nzcv),
        0xd53b_00e0 => Some(ReadSysOp::Dczid),
        _ => None,
    }
}

/// A name's base word in the line of `ReadSys`.
#[tactic(auto, unfolding(crate::specs::Flow::read_sys))]
pub fn read_sys_word(op: ReadSysOp) -> Word
    ensures bits { result.bits ≡ get_or read_sys.words (read_sys_number op) 0 }
    ensures numbered { read_sys_number op < length read_sys.words }
{
    let bits = match op {
        ReadSysOp::Tpidr => 0xd53b_d040,
        ReadSysOp::Nzcv => 0xd53b_4200,
        ReadSysOp::Dczid => 0xd53b_00e0,
    };
    Word { bits }
}

/// The name that has this base word in the line of `WriteSys`.
#[tactic(auto, unfolding(crate::specs::Flow::write_sys))]
pub fn write_sys_op(word: u32) -> Option<WriteSysOp>
    ensures { MatchOption result (number_of word write_sys.words ≡ None)
        (λ op. number_of word write_sys.words ≡ Some (write_sys_number op)) }
{
    match word {
        0xd51b_d040 => Some(WriteSysOp::Tpidr),
        0xd51b_4200 => Some(WriteSysOp::Nzcv),
        _ => None,
    }
}

/// A name's base word in the line of `WriteSys`.
#[tactic(auto, unfolding(crate::specs::Flow::write_sys))]
pub fn write_sys_word(op: WriteSysOp) -> Word
    ensures bits { result.bits ≡ get_or write_sys.words (write_sys_number op) 0 }
    ensures numbered { write_sys_number op < length write_sys.words }
{
    let bits = match op {
        WriteSysOp::Tpidr => 0xd51b_d040,
        WriteSysOp::Nzcv => 0xd51b_4200,
    };
    Word { bits }
}
