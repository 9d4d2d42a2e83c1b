//! The word of each form, by groups of the table's lines.
ghost use Rattle.std.specs.Prelude.{MatchOption};
ghost use Rattle.sve_insn.specs.declared.lines.TheConstants.{
  BREAK_NEXT,
  CMP_S_IMM,
  CMP_VEC,
  COUNT_P,
  CTERM,
  DUP_IMM,
  LOGIC_P,
  PTEST,
  WIDE_IMM,
  WRITE_FFR,
};
ghost use Rattle.sve_insn.specs.Lines.{IsOutside, IsWordOf};

use crate::compares::{
    cmp_s_imm_bits, cmp_u_imm_bits, cmp_vec_bits, cmp_wide_bits, cterm_bits, while_compare_bits,
};
use crate::counts::{count_p_bits, inc_p_bits, inc_p_z_bits};
use crate::immediates::{dup_imm_bits, min_max_imm_bits, wide_imm_bits};
use crate::predicates::{
    break_first_bits, break_next_bits, break_pair_bits, first_active_bits, logic_p_bits,
    next_active_bits, pfalse_bits, ptest_bits, ptrue_bits, read_ffr_all_bits, read_ffr_bits,
    select_p_bits, write_ffr_bits,
};
use sve_insn::SveForm;

/// The word of a compare, an operation on predicates, a count of them or an operation with an immediate; none of
/// another form.
pub fn predicate_word(form: &SveForm) -> Option<u32>
    ensures { MatchOption result (IsOutside CMP_VEC DUP_IMM form.now) (λ w. IsWordOf form.now w) }
{
    if let Some(w) = compare_word(*form) {
        return Some(w);
    }
    if let Some(w) = logic_or_break_word(*form) {
        return Some(w);
    }
    if let Some(w) = single_predicate_word(*form) {
        return Some(w);
    }
    if let Some(w) = predicate_count_word(*form) {
        return Some(w);
    }
    immediate_word(*form)
}

/// The word of a compare of vectors; none of another form.
fn compare_word(form: SveForm) -> Option<u32>
    ensures { MatchOption result (IsOutside CMP_VEC CMP_S_IMM form) (λ w. IsWordOf form w) }
{
    match form {
        SveForm::CmpVec {
            op,
            size,
            zm,
            pg,
            zn,
            pd,
        } => Some(cmp_vec_bits(op, size, zm, pg, zn, pd)),
        SveForm::CmpWide {
            op,
            size,
            zm,
            pg,
            zn,
            pd,
        } => Some(cmp_wide_bits(op, size, zm, pg, zn, pd)),
        SveForm::CmpUImm {
            op,
            size,
            imm7,
            pg,
            zn,
            pd,
        } => Some(cmp_u_imm_bits(op, size, imm7, pg, zn, pd)),
        SveForm::CmpSImm {
            op,
            size,
            imm5,
            pg,
            zn,
            pd,
        } => Some(cmp_s_imm_bits(op, size, imm5, pg, zn, pd)),
        _ => None,
    }
}

/// The word of a logical operation or a break; none of another form.
fn logic_or_break_word(form: SveForm) -> Option<u32>
    ensures { MatchOption result (IsOutside LOGIC_P BREAK_NEXT form) (λ w. IsWordOf form w) }
{
    match form {
        SveForm::LogicP {
            op,
            s,
            pm,
            pg,
            pn,
            pd,
        } => Some(logic_p_bits(op, s, pm, pg, pn, pd)),
        SveForm::SelectP { pm, pg, pn, pd } => Some(select_p_bits(pm, pg, pn, pd)),
        SveForm::Break {
            op,
            s,
            pg,
            pn,
            m,
            pd,
        } => Some(break_first_bits(op, s, pg, pn, m, pd)),
        SveForm::BreakPair {
            op,
            s,
            pm,
            pg,
            pn,
            pd,
        } => Some(break_pair_bits(op, s, pm, pg, pn, pd)),
        SveForm::BreakNext { s, pg, pn, pdm } => Some(break_next_bits(s, pg, pn, pdm)),
        _ => None,
    }
}

/// The word of an operation on one predicate or FFR; none of another form.
fn single_predicate_word(form: SveForm) -> Option<u32>
    ensures { MatchOption result (IsOutside PTEST WRITE_FFR form) (λ w. IsWordOf form w) }
{
    match form {
        SveForm::Ptest { pg, pn } => Some(ptest_bits(pg, pn)),
        SveForm::First { pg, pdn } => Some(first_active_bits(pg, pdn)),
        SveForm::Next { size, pg, pdn } => Some(next_active_bits(size, pg, pdn)),
        SveForm::Ptrue {
            op,
            size,
            pattern,
            pd,
        } => Some(ptrue_bits(op, size, pattern, pd)),
        SveForm::Pfalse { pd } => Some(pfalse_bits(pd)),
        SveForm::ReadFfr { op, pg, pd } => Some(read_ffr_bits(op, pg, pd)),
        SveForm::ReadFfrAll { pd } => Some(read_ffr_all_bits(pd)),
        SveForm::WriteFfr { op, pn } => Some(write_ffr_bits(op, pn)),
        _ => None,
    }
}

/// The word of a count of predicates, or of a compare of general registers; none of another form.
fn predicate_count_word(form: SveForm) -> Option<u32>
    ensures { MatchOption result (IsOutside COUNT_P CTERM form) (λ w. IsWordOf form w) }
{
    match form {
        SveForm::CountP { size, pg, pn, rd } => Some(count_p_bits(size, pg, pn, rd)),
        SveForm::IncP { op, size, pm, rdn } => Some(inc_p_bits(op, size, pm, rdn)),
        SveForm::IncPZ { op, size, pm, zdn } => Some(inc_p_z_bits(op, size, pm, zdn)),
        SveForm::While {
            op,
            size,
            rm,
            sf,
            rn,
            pd,
        } => Some(while_compare_bits(op, size, rm, sf, rn, pd)),
        SveForm::Cterm { op, sf, rm, rn } => Some(cterm_bits(op, sf, rm, rn)),
        _ => None,
    }
}

/// The word of an operation with an immediate; none of another form.
fn immediate_word(form: SveForm) -> Option<u32>
    ensures { MatchOption result (IsOutside WIDE_IMM DUP_IMM form) (λ w. IsWordOf form w) }
{
    match form {
        SveForm::WideImm {
            op,
            size,
            sh,
            imm8,
            zdn,
        } => Some(wide_imm_bits(op, size, sh, imm8, zdn)),
        SveForm::MinMaxImm {
            op,
            size,
            imm8,
            zdn,
        } => Some(min_max_imm_bits(op, size, imm8, zdn)),
        SveForm::DupImm { size, sh, imm8, zd } => Some(dup_imm_bits(size, sh, imm8, zd)),
        _ => None,
    }
}
