//! The word of each form, by groups of the table's lines.
ghost use Rattle.std.specs.Prelude.{MatchOption};
ghost use Rattle.a64_insn.specs.declared.lines.TheConstants as line;
ghost use Rattle.a64_rows.specs.Lines.{IsOutside, IsWordOf};

use crate::bit_moves::{f_move_bits, move_imm_bits};
use crate::data::{
    add_carry_bits, add_ext_bits, add_imm_bits, add_reg_bits, adr_bits, bitfield_bits,
    cond_imm_bits, cond_reg_bits, extract_bits, logic_imm_bits, logic_reg_bits, move_wide_bits,
    mul_add_bits, mul_high_bits, mul_long_bits, one_source_bits, rev_bits, select_bits,
    two_source_bits,
};
use crate::flow::{
    barrier_bits, branch_bits, branch_cond_bits, branch_reg_bits, compare_bits, except_bits,
    hint_bits, read_sys_bits, test_bits, write_sys_bits,
};
use a64_insn::A64Form;
use a64_rows_memory::loads_and_stores::{
    atomic_bits, compare_swap_bits, load_ex_bits, ls_literal_bits, ls_post_bits, ls_pre_bits,
    ls_reg_bits, ls_unscaled_bits, ls_unsigned_bits, ordered_bits, pair_bits, store_ex_bits,
};

/// The word of a form.
#[tactic(auto, using(crate::proofs::Laws::is_listed))]
pub fn word_of(form: &A64Form) -> u32
    ensures { IsWordOf form.now result }
{
    if let Some(w) = immediate_word(*form) {
        return w;
    }
    if let Some(w) = moved_word(*form) {
        return w;
    }
    if let Some(w) = register_word(*form) {
        return w;
    }
    if let Some(w) = conditional_word(*form) {
        return w;
    }
    if let Some(w) = product_word(*form) {
        return w;
    }
    if let Some(w) = flow_word(*form) {
        return w;
    }
    if let Some(w) = offset_access_word(*form) {
        return w;
    }
    if let Some(w) = other_access_word(*form) {
        return w;
    }
    if let Some(w) = atomic_access_word(*form) {
        return w;
    }
    let Some(w) = bit_move_word(*form) else {
        unreachable!()
    };
    w
}

/// The word of an address, or a sum or a logical operation with an immediate; none of another form.
fn immediate_word(form: A64Form) -> Option<u32>
    ensures { MatchOption result (IsOutside line.ADR line.LOGIC_IMM form) (λ w. IsWordOf form w) }
{
    match form {
        A64Form::Adr {
            op,
            immlo,
            immhi,
            rd,
        } => Some(adr_bits(op, immlo, immhi, rd)),
        A64Form::AddImm {
            op,
            sf,
            sh,
            imm12,
            rn,
            rd,
        } => Some(add_imm_bits(op, sf, sh, imm12, rn, rd)),
        A64Form::LogicImm {
            op,
            sf,
            n,
            immr,
            imms,
            rn,
            rd,
        } => Some(logic_imm_bits(op, sf, n, immr, imms, rn, rd)),
        _ => None,
    }
}

/// The word of a move of an immediate or a bitfield, or an extraction; none of another form.
fn moved_word(form: A64Form) -> Option<u32>
    ensures { MatchOption result (IsOutside line.MOVE_WIDE line.EXTRACT form) (λ w. IsWordOf form w) }
{
    match form {
        A64Form::MoveWide {
            op,
            sf,
            hw,
            imm16,
            rd,
        } => Some(move_wide_bits(op, sf, hw, imm16, rd)),
        A64Form::Bitfield {
            op,
            sf,
            n,
            r,
            s,
            rn,
            rd,
        } => Some(bitfield_bits(op, sf, n, r, s, rn, rd)),
        A64Form::Extract {
            sf,
            n,
            rm,
            s,
            rn,
            rd,
        } => Some(extract_bits(sf, n, rm, s, rn, rd)),
        _ => None,
    }
}

/// The word of a logical operation or a sum of registers; none of another form.
fn register_word(form: A64Form) -> Option<u32>
    ensures { MatchOption result (IsOutside line.LOGIC_REG line.ADD_CARRY form) (λ w. IsWordOf form w) }
{
    match form {
        A64Form::LogicReg {
            op,
            sf,
            shift,
            rm,
            amount,
            rn,
            rd,
        } => Some(logic_reg_bits(op, sf, shift, rm, amount, rn, rd)),
        A64Form::AddReg {
            op,
            sf,
            shift,
            rm,
            amount,
            rn,
            rd,
        } => Some(add_reg_bits(op, sf, shift, rm, amount, rn, rd)),
        A64Form::AddExt {
            op,
            sf,
            rm,
            ext,
            a,
            rn,
            rd,
        } => Some(add_ext_bits(op, sf, rm, ext, a, rn, rd)),
        A64Form::AddCarry { op, sf, rm, rn, rd } => Some(add_carry_bits(op, sf, rm, rn, rd)),
        _ => None,
    }
}

/// The word of a comparison or a selection under a condition; none of another form.
fn conditional_word(form: A64Form) -> Option<u32>
    ensures { MatchOption result (IsOutside line.COND_REG line.SELECT form) (λ w. IsWordOf form w) }
{
    match form {
        A64Form::CondReg {
            op,
            sf,
            rm,
            cond,
            rn,
            f,
        } => Some(cond_reg_bits(op, sf, rm, cond, rn, f)),
        A64Form::CondImm {
            op,
            sf,
            i,
            cond,
            rn,
            f,
        } => Some(cond_imm_bits(op, sf, i, cond, rn, f)),
        A64Form::Select {
            op,
            sf,
            rm,
            cond,
            rn,
            rd,
        } => Some(select_bits(op, sf, rm, cond, rn, rd)),
        _ => None,
    }
}

/// The word of a product, or an operation on two registers or on one; none of another form.
fn product_word(form: A64Form) -> Option<u32>
    ensures { MatchOption result (IsOutside line.MUL_ADD line.REV form) (λ w. IsWordOf form w) }
{
    match form {
        A64Form::MulAdd {
            op,
            sf,
            rm,
            ra,
            rn,
            rd,
        } => Some(mul_add_bits(op, sf, rm, ra, rn, rd)),
        A64Form::MulLong { op, rm, ra, rn, rd } => Some(mul_long_bits(op, rm, ra, rn, rd)),
        A64Form::MulHigh { op, rm, rn, rd } => Some(mul_high_bits(op, rm, rn, rd)),
        A64Form::TwoSource { op, sf, rm, rn, rd } => Some(two_source_bits(op, sf, rm, rn, rd)),
        A64Form::OneSource { op, sf, rn, rd } => Some(one_source_bits(op, sf, rn, rd)),
        A64Form::Rev { op, rn, rd } => Some(rev_bits(op, rn, rd)),
        _ => None,
    }
}

/// The word of a branch, an exception or a system instruction; none of another form.
fn flow_word(form: A64Form) -> Option<u32>
    ensures { MatchOption result (IsOutside line.BRANCH line.WRITE_SYS form) (λ w. IsWordOf form w) }
{
    match form {
        A64Form::Branch { op, imm26 } => Some(branch_bits(op, imm26)),
        A64Form::BranchCond { imm19, cond } => Some(branch_cond_bits(imm19, cond)),
        A64Form::Compare { op, sf, imm19, rt } => Some(compare_bits(op, sf, imm19, rt)),
        A64Form::Test {
            op,
            b5,
            b40,
            imm14,
            rt,
        } => Some(test_bits(op, b5, b40, imm14, rt)),
        A64Form::BranchReg { op, rn } => Some(branch_reg_bits(op, rn)),
        A64Form::Except { op, imm16 } => Some(except_bits(op, imm16)),
        A64Form::Hint { n } => Some(hint_bits(n)),
        A64Form::Barrier { op, n } => Some(barrier_bits(op, n)),
        A64Form::ReadSys { op, rt } => Some(read_sys_bits(op, rt)),
        A64Form::WriteSys { op, rt } => Some(write_sys_bits(op, rt)),
        _ => None,
    }
}

/// The word of a load or store at an immediate offset; none of another form.
fn offset_access_word(form: A64Form) -> Option<u32>
    ensures { MatchOption result (IsOutside line.LS_UNSIGNED line.LS_PRE form) (λ w. IsWordOf form w) }
{
    match form {
        A64Form::LsUnsigned {
            size,
            v,
            opc,
            imm12,
            rn,
            rt,
        } => Some(ls_unsigned_bits(size, v, opc, imm12, rn, rt)),
        A64Form::LsUnscaled {
            size,
            v,
            opc,
            imm9,
            rn,
            rt,
        } => Some(ls_unscaled_bits(size, v, opc, imm9, rn, rt)),
        A64Form::LsPost {
            size,
            v,
            opc,
            imm9,
            rn,
            rt,
        } => Some(ls_post_bits(size, v, opc, imm9, rn, rt)),
        A64Form::LsPre {
            size,
            v,
            opc,
            imm9,
            rn,
            rt,
        } => Some(ls_pre_bits(size, v, opc, imm9, rn, rt)),
        _ => None,
    }
}

/// The word of a load or store at another place, of a pair, or exclusive or ordered; none of another form.
fn other_access_word(form: A64Form) -> Option<u32>
    ensures { MatchOption result (IsOutside line.LS_REG line.ORDERED form) (λ w. IsWordOf form w) }
{
    match form {
        A64Form::LsReg {
            size,
            v,
            opc,
            rm,
            ext,
            s,
            rn,
            rt,
        } => Some(ls_reg_bits(size, v, opc, rm, ext, s, rn, rt)),
        A64Form::LsLiteral { opc, v, imm19, rt } => Some(ls_literal_bits(opc, v, imm19, rt)),
        A64Form::Pair {
            opc,
            v,
            mode,
            l,
            imm7,
            rt2,
            rn,
            rt,
        } => Some(pair_bits(opc, v, mode, l, imm7, rt2, rn, rt)),
        A64Form::StoreEx {
            op,
            size,
            rs,
            rn,
            rt,
        } => Some(store_ex_bits(op, size, rs, rn, rt)),
        A64Form::LoadEx { op, size, rn, rt } => Some(load_ex_bits(op, size, rn, rt)),
        A64Form::Ordered { op, size, rn, rt } => Some(ordered_bits(op, size, rn, rt)),
        _ => None,
    }
}

/// The word of a load and store as one step; none of another form.
fn atomic_access_word(form: A64Form) -> Option<u32>
    ensures { MatchOption result (IsOutside line.ATOMIC line.COMPARE_SWAP form) (λ w. IsWordOf form w) }
{
    match form {
        A64Form::Atomic {
            op,
            size,
            acquires,
            releases,
            rs,
            rn,
            rt,
        } => Some(atomic_bits(op, size, acquires, releases, rs, rn, rt)),
        A64Form::CompareSwap {
            size,
            acquires,
            releases,
            rs,
            rn,
            rt,
        } => Some(compare_swap_bits(size, acquires, releases, rs, rn, rt)),
        _ => None,
    }
}

/// The word of a bit move; none of another form.
fn bit_move_word(form: A64Form) -> Option<u32>
    ensures { MatchOption result (IsOutside line.F_MOVE line.MOVE_IMM form) (λ w. IsWordOf form w) }
{
    match form {
        A64Form::FMove { op, rn, rd } => Some(f_move_bits(op, rn, rd)),
        A64Form::MoveImm {
            q,
            op,
            abc,
            cmode,
            defgh,
            rd,
        } => Some(move_imm_bits(q, op, abc, cmode, defgh, rd)),
        _ => None,
    }
}
