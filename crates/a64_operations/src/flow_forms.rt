//! The operations of the branches.
ghost use Rattle.std.specs.Prelude.{◌≡◌, ◌≤◌, true};
ghost use Rattle.emu_bits.specs.Numbers.{signed};
ghost use Rattle.a64_insn.specs.declared.form.A64Form.{A64Form};
ghost use Rattle.a64_operations.specs.Groups.{is_on_registers};
ghost use Rattle.a64_operations.specs.Prepared.{IsOf};

use crate::operation::Operation;
use a64_insn::{BranchOp, BranchRegOp, CompareOp, TestOp};
use core_regs::Source;
use emu_bits::{Cond, Reg, U, sext};

/// A signed field of n bits.
pub(crate) fn distance(imm: u32, n: u32) -> i32
    requires some { 1 ≤ n }
    requires most { n ≤ 26 }
    ensures { result ≡ signed imm n }
{
    sext(imm as u64, n) as i32
}

pub(crate) fn branch(op: BranchOp, imm26: U<26>) -> Operation
    ensures answers { is_on_registers result ≡ true }
    ensures done { IsOf result (A64Form.Branch op imm26) }
{
    let by = 4 * distance(imm26.get(), 26);
    match op {
        BranchOp::B => Operation::B { by },
        BranchOp::Bl => Operation::Bl { by },
    }
}

pub(crate) fn branch_cond(imm19: U<19>, cond: U<4>) -> Operation
    ensures answers { is_on_registers result ≡ true }
    ensures done { IsOf result (A64Form.BranchCond imm19 cond) }
{
    let by = 4 * distance(imm19.get(), 19);
    let cond = Cond::of_number(cond);
    match cond {
        Cond::Eq => Operation::BEq { by },
        Cond::Ne => Operation::BNe { by },
        Cond::Cs => Operation::BCs { by },
        Cond::Cc => Operation::BCc { by },
        Cond::Mi => Operation::BMi { by },
        Cond::Hi => Operation::BHi { by },
        Cond::Ls => Operation::BLs { by },
        Cond::Ge => Operation::BGe { by },
        Cond::Lt => Operation::BLt { by },
        Cond::Gt => Operation::BGt { by },
        Cond::Le => Operation::BLe { by },
        Cond::Al | Cond::Nv => Operation::B { by },
        Cond::Pl | Cond::Vs | Cond::Vc => Operation::BCond { cond, by },
    }
}

pub(crate) fn compare(op: CompareOp, sf: bool, imm19: U<19>, rt: Reg) -> Operation
    ensures answers { is_on_registers result ≡ true }
    ensures done { IsOf result (A64Form.Compare op sf imm19 rt) }
{
    let (t, by) = (Source::of(rt), 4 * distance(imm19.get(), 19));
    match (op, sf) {
        (CompareOp::Cbz, true) => Operation::CbzX { t, by },
        (CompareOp::Cbz, false) => Operation::CbzW { t, by },
        (CompareOp::Cbnz, true) => Operation::CbnzX { t, by },
        (CompareOp::Cbnz, false) => Operation::CbnzW { t, by },
    }
}

pub(crate) fn test(op: TestOp, b5: bool, b40: U<5>, imm14: U<14>, rt: Reg) -> Operation
    ensures answers { is_on_registers result ≡ true }
    ensures done { IsOf result (A64Form.Test op b5 b40 imm14 rt) }
{
    let (t, by) = (Source::of(rt), 4 * distance(imm14.get(), 14));
    let place = U::at(32 * u32::from(b5) + b40.get(), 0);
    match op {
        TestOp::Tbz => Operation::Tbz { t, place, by },
        TestOp::Tbnz => Operation::Tbnz { t, place, by },
    }
}

pub(crate) fn branch_reg(op: BranchRegOp, rn: Reg) -> Operation
    ensures answers { is_on_registers result ≡ true }
    ensures done { IsOf result (A64Form.BranchReg op rn) }
{
    let n = Source::of(rn);
    match op {
        BranchRegOp::Br | BranchRegOp::Ret => Operation::Br { n },
        BranchRegOp::Blr => Operation::Blr { n },
    }
}
