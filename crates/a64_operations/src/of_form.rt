//! The operation of a form.
ghost use Rattle.std.specs.Prelude.{◌≡◌, true};
ghost use Rattle.a64_operations.specs.Groups.{has_operation, is_on_registers};
ghost use Rattle.a64_operations.specs.Prepared.{IsOf};

use crate::data_forms::{
    add_ext, add_imm, add_reg, adr, bitfield, logic_imm, logic_reg, move_wide, mul_add, select,
    two_source,
};
use crate::flow_forms::{branch, branch_cond, branch_reg, compare, test};
use crate::memory_forms::{offset, pair, post, pre, register, unsigned};
use crate::operation::Operation;
use a64_insn::A64Form;

/// What a form does, or that it is done by its form. `Site` names the place of the call: each has the function for
/// itself, so that it is compiled into what reads the word.
pub fn operation_of<Site>(form: &A64Form) -> Operation
    ensures answers { has_operation form.now ≡ true → is_on_registers result ≡ true }
    ensures done { IsOf result form.now }
{
    match *form {
        A64Form::Hint { .. } => Operation::Nothing,
        A64Form::Adr {
            op,
            immlo,
            immhi,
            rd,
        } => adr(op, immlo, immhi, rd),
        A64Form::AddImm {
            op,
            sf,
            sh,
            imm12,
            rn,
            rd,
        } => add_imm(op, sf, sh, imm12, rn, rd),
        A64Form::LogicImm {
            op,
            sf,
            n,
            immr,
            imms,
            rn,
            rd,
        } => logic_imm(op, sf, n, immr, imms, rn, rd),
        A64Form::MoveWide {
            op,
            sf,
            hw,
            imm16,
            rd,
        } => move_wide(op, sf, hw, imm16, rd),
        A64Form::Bitfield {
            op,
            sf,
            n,
            r,
            s,
            rn,
            rd,
        } => bitfield(op, sf, n, r, s, rn, rd),
        A64Form::LogicReg {
            op,
            sf,
            shift,
            rm,
            amount,
            rn,
            rd,
        } => logic_reg(op, sf, shift, rm, amount, rn, rd),
        A64Form::AddReg {
            op,
            sf,
            shift,
            rm,
            amount,
            rn,
            rd,
        } => add_reg(op, sf, shift, rm, amount, rn, rd),
        A64Form::AddExt {
            op,
            sf,
            rm,
            ext,
            a,
            rn,
            rd,
        } => add_ext(op, sf, rm, ext, a, rn, rd),
        A64Form::Select {
            op,
            sf,
            rm,
            cond,
            rn,
            rd,
        } => select(op, sf, rm, cond, rn, rd),
        A64Form::MulAdd {
            op,
            sf,
            rm,
            ra,
            rn,
            rd,
        } => mul_add(op, sf, rm, ra, rn, rd),
        A64Form::TwoSource { op, sf, rm, rn, rd } => two_source(op, sf, rm, rn, rd),
        A64Form::Branch { op, imm26 } => branch(op, imm26),
        A64Form::BranchCond { imm19, cond } => branch_cond(imm19, cond),
        A64Form::Compare { op, sf, imm19, rt } => compare(op, sf, imm19, rt),
        A64Form::Test {
            op,
            b5,
            b40,
            imm14,
            rt,
        } => test(op, b5, b40, imm14, rt),
        A64Form::BranchReg { op, rn } => branch_reg(op, rn),
        A64Form::LsUnsigned {
            size,
            v: false,
            opc,
            imm12,
            rn,
            rt,
        } => unsigned(size, opc, imm12, rn, rt),
        A64Form::LsUnscaled {
            size,
            v: false,
            opc,
            imm9,
            rn,
            rt,
        } => offset(size, opc, imm9, rn, rt),
        A64Form::LsPost {
            size,
            v: false,
            opc,
            imm9,
            rn,
            rt,
        } => post(size, opc, imm9, rn, rt),
        A64Form::LsPre {
            size,
            v: false,
            opc,
            imm9,
            rn,
            rt,
        } => pre(size, opc, imm9, rn, rt),
        A64Form::LsReg {
            size,
            v: false,
            opc,
            rm,
            ext,
            s,
            rn,
            rt,
        } => register(size, opc, rm, ext, s, rn, rt),
        A64Form::Pair {
            opc,
            v: false,
            mode,
            l,
            imm7,
            rt2,
            rn,
            rt,
        } => pair(opc, mode, l, imm7, rt2, rn, rt),
        _ => Operation::ByForm,
    }
}
