//! Words of branches, exceptions and system, read and made.
ghost use Rattle.std.specs.Prelude.{◌≡◌};
ghost use Rattle.emu_bits.specs.Rows.{encode, row_in};
ghost use Rattle.emu_bits.specs.RowLaws.{IsShape};
ghost use Rattle.a64_insn.specs.declared.form.A64Form.TheVariants.{
  Branch,
  BranchCond,
  Compare,
  Test,
  BranchReg,
  Except,
  Hint,
  Barrier,
  ReadSys,
  WriteSys,
};
ghost use Rattle.a64_insn.specs.Flow.{
  branch,
  branch_cond,
  compare,
  test_branch,
  branch_reg,
  except,
  hint,
  barrier,
  read_sys,
  write_sys,
};
ghost use Rattle.a64_insn.specs.Rows.{row_of};
ghost use Rattle.a64_rows_memory.specs.Seen.{seen};

use a64_insn::flow_words::{
    barrier_op, barrier_word, branch_op, branch_reg_op, branch_reg_word, branch_word, compare_op,
    compare_word, except_op, except_word, read_sys_op, read_sys_word, test_op, test_word,
    write_sys_op, write_sys_word,
};
use a64_insn::{
    A64, A64Form, BarrierOp, BranchOp, BranchRegOp, CompareOp, ExceptOp, ReadSysOp, TestOp,
    WriteSysOp,
};
use emu_bits::{Reg, U, Word, flag};

/// The instruction of `Branch` that a word is.
#[tactic(auto, unfolding(a64_insn::specs::Flow::branch))]
pub fn branch(w: u32) -> Option<A64>
    ensures { seen result ≡ row_in branch w }
{
    let op = branch_op(w & 0xfc00_0000)?;
    A64::new(A64Form::Branch {
        op,
        imm26: U::at(w, 0),
    })
}

/// The word of `Branch` with these fields.
#[tactic(auto, unfolding(a64_insn::specs::Flow::branch))]
pub fn branch_bits(op: BranchOp, imm26: U<26>) -> u32
    ensures table { result ≡ encode (row_of (Branch op imm26)) }
    ensures shape { IsShape (row_of (Branch op imm26)) }
{
    branch_word(op).number(imm26, 0).bits
}

/// The instruction of `BranchCond` that a word is.
#[tactic(auto, unfolding(a64_insn::specs::Flow::branch_cond))]
pub fn branch_cond(w: u32) -> Option<A64>
    ensures { seen result ≡ row_in branch_cond w }
{
    if w & 0xff00_0010 != 0x5400_0000 {
        return None;
    }
    A64::new(A64Form::BranchCond {
        imm19: U::at(w, 5),
        cond: U::at(w, 0),
    })
}

/// The word of `BranchCond` with these fields.
#[tactic(auto, unfolding(a64_insn::specs::Flow::branch_cond))]
pub fn branch_cond_bits(imm19: U<19>, cond: U<4>) -> u32
    ensures table { result ≡ encode (row_of (BranchCond imm19 cond)) }
    ensures shape { IsShape (row_of (BranchCond imm19 cond)) }
{
    Word { bits: 0x5400_0000 }
        .number(imm19, 5)
        .number(cond, 0)
        .bits
}

/// The instruction of `Compare` that a word is.
#[tactic(auto, unfolding(a64_insn::specs::Flow::compare))]
pub fn compare(w: u32) -> Option<A64>
    ensures { seen result ≡ row_in compare w }
{
    let op = compare_op(w & 0x7f00_0000)?;
    A64::new(A64Form::Compare {
        op,
        sf: flag(w, 31),
        imm19: U::at(w, 5),
        rt: Reg::at(w, 0),
    })
}

/// The word of `Compare` with these fields.
#[tactic(auto, unfolding(a64_insn::specs::Flow::compare))]
pub fn compare_bits(op: CompareOp, sf: bool, imm19: U<19>, rt: Reg) -> u32
    ensures table { result ≡ encode (row_of (Compare op sf imm19 rt)) }
    ensures shape { IsShape (row_of (Compare op sf imm19 rt)) }
{
    compare_word(op)
        .flag(sf, 31)
        .number(imm19, 5)
        .reg(rt, 0)
        .bits
}

/// The instruction of `Test` that a word is.
#[tactic(auto, unfolding(a64_insn::specs::Flow::test_branch))]
pub fn test_branch(w: u32) -> Option<A64>
    ensures { seen result ≡ row_in test_branch w }
{
    let op = test_op(w & 0x7f00_0000)?;
    A64::new(A64Form::Test {
        op,
        b5: flag(w, 31),
        b40: U::at(w, 19),
        imm14: U::at(w, 5),
        rt: Reg::at(w, 0),
    })
}

/// The word of `Test` with these fields.
#[tactic(auto, unfolding(a64_insn::specs::Flow::test_branch))]
pub fn test_bits(op: TestOp, b5: bool, b40: U<5>, imm14: U<14>, rt: Reg) -> u32
    ensures table { result ≡ encode (row_of (Test op b5 b40 imm14 rt)) }
    ensures shape { IsShape (row_of (Test op b5 b40 imm14 rt)) }
{
    test_word(op)
        .flag(b5, 31)
        .number(b40, 19)
        .number(imm14, 5)
        .reg(rt, 0)
        .bits
}

/// The instruction of `BranchReg` that a word is.
#[tactic(auto, unfolding(a64_insn::specs::Flow::branch_reg))]
pub fn branch_reg(w: u32) -> Option<A64>
    ensures { seen result ≡ row_in branch_reg w }
{
    let op = branch_reg_op(w & 0xffff_fc1f)?;
    A64::new(A64Form::BranchReg {
        op,
        rn: Reg::at(w, 5),
    })
}

/// The word of `BranchReg` with these fields.
#[tactic(auto, unfolding(a64_insn::specs::Flow::branch_reg))]
pub fn branch_reg_bits(op: BranchRegOp, rn: Reg) -> u32
    ensures table { result ≡ encode (row_of (BranchReg op rn)) }
    ensures shape { IsShape (row_of (BranchReg op rn)) }
{
    branch_reg_word(op).reg(rn, 5).bits
}

/// The instruction of `Except` that a word is.
#[tactic(auto, unfolding(a64_insn::specs::Flow::except))]
pub fn except(w: u32) -> Option<A64>
    ensures { seen result ≡ row_in except w }
{
    let op = except_op(w & 0xffe0_001f)?;
    A64::new(A64Form::Except {
        op,
        imm16: U::at(w, 5),
    })
}

/// The word of `Except` with these fields.
#[tactic(auto, unfolding(a64_insn::specs::Flow::except))]
pub fn except_bits(op: ExceptOp, imm16: U<16>) -> u32
    ensures table { result ≡ encode (row_of (Except op imm16)) }
    ensures shape { IsShape (row_of (Except op imm16)) }
{
    except_word(op).number(imm16, 5).bits
}

/// The instruction of `Hint` that a word is.
#[tactic(auto, unfolding(a64_insn::specs::Flow::hint))]
pub fn hint(w: u32) -> Option<A64>
    ensures { seen result ≡ row_in hint w }
{
    if w & 0xffff_f01f != 0xd503_201f {
        return None;
    }
    A64::new(A64Form::Hint { n: U::at(w, 5) })
}

/// The word of `Hint` with these fields.
#[tactic(auto, unfolding(a64_insn::specs::Flow::hint))]
pub fn hint_bits(n: U<7>) -> u32
    ensures table { result ≡ encode (row_of (Hint n)) }
    ensures shape { IsShape (row_of (Hint n)) }
{
    Word { bits: 0xd503_201f }.number(n, 5).bits
}

/// The instruction of `Barrier` that a word is.
#[tactic(auto, unfolding(a64_insn::specs::Flow::barrier))]
pub fn barrier(w: u32) -> Option<A64>
    ensures { seen result ≡ row_in barrier w }
{
    let op = barrier_op(w & 0xffff_f0ff)?;
    A64::new(A64Form::Barrier { op, n: U::at(w, 8) })
}

/// The word of `Barrier` with these fields.
#[tactic(auto, unfolding(a64_insn::specs::Flow::barrier))]
pub fn barrier_bits(op: BarrierOp, n: U<4>) -> u32
    ensures table { result ≡ encode (row_of (Barrier op n)) }
    ensures shape { IsShape (row_of (Barrier op n)) }
{
    barrier_word(op).number(n, 8).bits
}

/// The instruction of `ReadSys` that a word is.
#[tactic(auto, unfolding(a64_insn::specs::Flow::read_sys))]
pub fn read_sys(w: u32) -> Option<A64>
    ensures { seen result ≡ row_in read_sys w }
{
    let op = read_sys_op(w & 0xffff_ffe0)?;
    A64::new(A64Form::ReadSys {
        op,
        rt: Reg::at(w, 0),
    })
}

/// The word of `ReadSys` with these fields.
#[tactic(auto, unfolding(a64_insn::specs::Flow::read_sys))]
pub fn read_sys_bits(op: ReadSysOp, rt: Reg) -> u32
    ensures table { result ≡ encode (row_of (ReadSys op rt)) }
    ensures shape { IsShape (row_of (ReadSys op rt)) }
{
    read_sys_word(op).reg(rt, 0).bits
}

/// The instruction of `WriteSys` that a word is.
#[tactic(auto, unfolding(a64_insn::specs::Flow::write_sys))]
pub fn write_sys(w: u32) -> Option<A64>
    ensures { seen result ≡ row_in write_sys w }
{
    let op = write_sys_op(w & 0xffff_ffe0)?;
    A64::new(A64Form::WriteSys {
        op,
        rt: Reg::at(w, 0),
    })
}

/// The word of `WriteSys` with these fields.
#[tactic(auto, unfolding(a64_insn::specs::Flow::write_sys))]
pub fn write_sys_bits(op: WriteSysOp, rt: Reg) -> u32
    ensures table { result ≡ encode (row_of (WriteSys op rt)) }
    ensures shape { IsShape (row_of (WriteSys op rt)) }
{
    write_sys_word(op).reg(rt, 0).bits
}
