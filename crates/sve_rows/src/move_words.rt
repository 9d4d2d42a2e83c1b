//! The word of each form of a move, by groups of the table's lines.
ghost use Rattle.std.specs.Prelude.{MatchOption};
ghost use Rattle.sve_insn.specs.declared.lines.TheConstants.{
  BITMASK_Z,
  COMPACT,
  COND_LAST,
  DUP_REG,
  INTERLEAVE,
  REV_P,
  SELECT_Z,
  TABLE,
};
ghost use Rattle.sve_insn.specs.Lines.{IsOutside, IsWordOf};

use crate::immediates::{bitmask_z_bits, copy_imm_bits};
use crate::permutes::{
    compact_bits, cond_last_bits, copy_reg_bits, dup_lane_bits, dup_reg_bits, ext_bits,
    insert_scalar_bits, interleave_bits, interleave_p_bits, last_active_bits, rev_p_bits,
    rev_z_bits, select_z_bits, splice_bits, table_lookup_bits, unpack_bits, unpack_p_bits,
};
use sve_insn::SveForm;

/// The word of a move of lanes or of an immediate; none of another form.
pub fn move_word(form: &SveForm) -> Option<u32>
    ensures { MatchOption result (IsOutside BITMASK_Z COND_LAST form.now) (λ w. IsWordOf form.now w) }
{
    if let Some(w) = immediate_or_select_word(form) {
        return Some(w);
    }
    if let Some(w) = lane_move_word(form) {
        return Some(w);
    }
    if let Some(w) = interleaving_word(form) {
        return Some(w);
    }
    active_lane_word(form)
}

/// The word of an immediate or a selection; none of another form.
fn immediate_or_select_word(form: &SveForm) -> Option<u32>
    ensures { MatchOption result (IsOutside BITMASK_Z SELECT_Z form.now) (λ w. IsWordOf form.now w) }
{
    match *form {
        SveForm::BitmaskZ {
            op,
            n,
            immr,
            imms,
            zdn,
        } => Some(bitmask_z_bits(op, n, immr, imms, zdn)),
        SveForm::CopyImm {
            size,
            pg,
            m,
            sh,
            imm8,
            zd,
        } => Some(copy_imm_bits(size, pg, m, sh, imm8, zd)),
        SveForm::SelectZ {
            size,
            zm,
            pg,
            zn,
            zd,
        } => Some(select_z_bits(size, zm, pg, zn, zd)),
        _ => None,
    }
}

/// The word of a move of lanes without a predicate; none of another form.
fn lane_move_word(form: &SveForm) -> Option<u32>
    ensures { MatchOption result (IsOutside DUP_REG TABLE form.now) (λ w. IsWordOf form.now w) }
{
    match *form {
        SveForm::DupReg { size, rn, zd } => Some(dup_reg_bits(size, rn, zd)),
        SveForm::DupLane { imm2, tsz, zn, zd } => Some(dup_lane_bits(imm2, tsz, zn, zd)),
        SveForm::Insert { op, size, src, zdn } => Some(insert_scalar_bits(op, size, src, zdn)),
        SveForm::RevZ { size, zn, zd } => Some(rev_z_bits(size, zn, zd)),
        SveForm::Unpack { op, size, zn, zd } => Some(unpack_bits(op, size, zn, zd)),
        SveForm::Table { size, zm, zn, zd } => Some(table_lookup_bits(size, zm, zn, zd)),
        _ => None,
    }
}

/// The word of an interleaving, or of a move within a predicate; none of another form.
fn interleaving_word(form: &SveForm) -> Option<u32>
    ensures { MatchOption result (IsOutside INTERLEAVE REV_P form.now) (λ w. IsWordOf form.now w) }
{
    match *form {
        SveForm::Interleave {
            op,
            size,
            zm,
            zn,
            zd,
        } => Some(interleave_bits(op, size, zm, zn, zd)),
        SveForm::InterleaveP {
            op,
            size,
            pm,
            pn,
            pd,
        } => Some(interleave_p_bits(op, size, pm, pn, pd)),
        SveForm::UnpackP { op, pn, pd } => Some(unpack_p_bits(op, pn, pd)),
        SveForm::RevP { size, pn, pd } => Some(rev_p_bits(size, pn, pd)),
        _ => None,
    }
}

/// The word of a move of the lanes that a predicate selects, or of an extraction; none of another form.
fn active_lane_word(form: &SveForm) -> Option<u32>
    ensures { MatchOption result (IsOutside COMPACT COND_LAST form.now) (λ w. IsWordOf form.now w) }
{
    match *form {
        SveForm::Compact { size, pg, zn, zd } => Some(compact_bits(size, pg, zn, zd)),
        SveForm::Splice { size, pg, zm, zdn } => Some(splice_bits(size, pg, zm, zdn)),
        SveForm::Ext {
            imm8h,
            imm8l,
            zm,
            zdn,
        } => Some(ext_bits(imm8h, imm8l, zm, zdn)),
        SveForm::CopyReg {
            op,
            size,
            pg,
            rn,
            zd,
        } => Some(copy_reg_bits(op, size, pg, rn, zd)),
        SveForm::Last {
            op,
            size,
            pg,
            zn,
            rd,
        } => Some(last_active_bits(op, size, pg, zn, rd)),
        SveForm::CondLast {
            op,
            size,
            pg,
            zm,
            zdn,
        } => Some(cond_last_bits(op, size, pg, zm, zdn)),
        _ => None,
    }
}
