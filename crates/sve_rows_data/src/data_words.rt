//! The word of each form, by groups of the table's lines.
ghost use Rattle.std.specs.Prelude.{MatchOption};
ghost use Rattle.sve_insn.specs.declared.lines.TheConstants.{
  BINARY,
  DOT_INDEXED,
  INC_Z,
  INDEX,
  MUL_ADD_D,
  MUL_ADD_Z,
  PLAIN,
  PREFIX_P,
  READ_LENGTH,
  REDUCE,
  SAT_X,
  UNARY,
};
ghost use Rattle.sve_insn.specs.Lines.{IsOutside, IsWordOf};

use crate::folds::{
    add_length_bits, count_elements_bits, inc_x_bits, inc_z_bits, read_length_bits, reduce_bits,
    sat_x_bits, sat_z_bits,
};
use crate::lanes::{
    binary_bits, binary_wide_bits, dot_bits, dot_indexed_bits, index_z_bits, logic_z_bits,
    mul_add_d_bits, mul_add_z_bits, plain_bits, plain_shift_bits, plain_wide_bits, prefix_bits,
    prefix_p_bits, shift_imm_bits, unary_bits,
};
use sve_insn::SveForm;

/// The word of an operation lane by lane, a fold or a count; none of another form.
pub fn data_word(form: &SveForm) -> Option<u32>
    ensures { MatchOption result (IsOutside BINARY READ_LENGTH form.now) (λ w. IsWordOf form.now w) }
{
    if let Some(w) = merging_word(*form) {
        return Some(w);
    }
    if let Some(w) = product_word(*form) {
        return Some(w);
    }
    if let Some(w) = unpredicated_word(*form) {
        return Some(w);
    }
    if let Some(w) = copy_or_dot_word(*form) {
        return Some(w);
    }
    if let Some(w) = fold_or_count_word(*form) {
        return Some(w);
    }
    saturating_or_length_word(*form)
}

/// The word of an operation under a predicate; none of another form.
fn merging_word(form: SveForm) -> Option<u32>
    ensures { MatchOption result (IsOutside BINARY UNARY form) (λ w. IsWordOf form w) }
{
    match form {
        SveForm::Binary {
            op,
            size,
            pg,
            zm,
            zdn,
        } => Some(binary_bits(op, size, pg, zm, zdn)),
        SveForm::BinaryWide {
            op,
            size,
            pg,
            zm,
            zdn,
        } => Some(binary_wide_bits(op, size, pg, zm, zdn)),
        SveForm::ShiftImm {
            op,
            tszh,
            pg,
            tszl,
            imm3,
            zdn,
        } => Some(shift_imm_bits(op, tszh, pg, tszl, imm3, zdn)),
        SveForm::Unary {
            op,
            size,
            pg,
            zn,
            zd,
        } => Some(unary_bits(op, size, pg, zn, zd)),
        _ => None,
    }
}

/// The word of a product with a sum; none of another form.
fn product_word(form: SveForm) -> Option<u32>
    ensures { MatchOption result (IsOutside MUL_ADD_Z MUL_ADD_D form) (λ w. IsWordOf form w) }
{
    match form {
        SveForm::MulAddZ {
            op,
            size,
            zm,
            pg,
            zn,
            zda,
        } => Some(mul_add_z_bits(op, size, zm, pg, zn, zda)),
        SveForm::MulAddD {
            op,
            size,
            zm,
            pg,
            za,
            zdn,
        } => Some(mul_add_d_bits(op, size, zm, pg, za, zdn)),
        _ => None,
    }
}

/// The word of an operation without a predicate, or of a series; none of another form.
fn unpredicated_word(form: SveForm) -> Option<u32>
    ensures { MatchOption result (IsOutside PLAIN INDEX form) (λ w. IsWordOf form w) }
{
    match form {
        SveForm::Plain {
            op,
            size,
            zm,
            zn,
            zd,
        } => Some(plain_bits(op, size, zm, zn, zd)),
        SveForm::LogicZ { op, zm, zn, zd } => Some(logic_z_bits(op, zm, zn, zd)),
        SveForm::PlainWide {
            op,
            size,
            zm,
            zn,
            zd,
        } => Some(plain_wide_bits(op, size, zm, zn, zd)),
        SveForm::PlainShift {
            op,
            tszh,
            tszl,
            imm3,
            zn,
            zd,
        } => Some(plain_shift_bits(op, tszh, tszl, imm3, zn, zd)),
        SveForm::Index { op, size, y, x, zd } => Some(index_z_bits(op, size, y, x, zd)),
        _ => None,
    }
}

/// The word of a copy or a dot product; none of another form.
fn copy_or_dot_word(form: SveForm) -> Option<u32>
    ensures { MatchOption result (IsOutside PREFIX_P DOT_INDEXED form) (λ w. IsWordOf form w) }
{
    match form {
        SveForm::PrefixP {
            size,
            m,
            pg,
            zn,
            zd,
        } => Some(prefix_p_bits(size, m, pg, zn, zd)),
        SveForm::Prefix { zn, zd } => Some(prefix_bits(zn, zd)),
        SveForm::Dot {
            op,
            size,
            zm,
            zn,
            zda,
        } => Some(dot_bits(op, size, zm, zn, zda)),
        SveForm::DotIndexed { op, i_zm, zn, zda } => Some(dot_indexed_bits(op, i_zm, zn, zda)),
        _ => None,
    }
}

/// The word of a fold, or of a count that is not saturated; none of another form.
fn fold_or_count_word(form: SveForm) -> Option<u32>
    ensures { MatchOption result (IsOutside REDUCE INC_Z form) (λ w. IsWordOf form w) }
{
    match form {
        SveForm::Reduce {
            op,
            size,
            pg,
            zn,
            vd,
        } => Some(reduce_bits(op, size, pg, zn, vd)),
        SveForm::Count {
            size,
            imm4,
            pattern,
            rd,
        } => Some(count_elements_bits(size, imm4, pattern, rd)),
        SveForm::IncX {
            op,
            size,
            imm4,
            pattern,
            rdn,
        } => Some(inc_x_bits(op, size, imm4, pattern, rdn)),
        SveForm::IncZ {
            op,
            size,
            imm4,
            pattern,
            zdn,
        } => Some(inc_z_bits(op, size, imm4, pattern, zdn)),
        _ => None,
    }
}

/// The word of a saturating count or a vector length; none of another form.
fn saturating_or_length_word(form: SveForm) -> Option<u32>
    ensures { MatchOption result (IsOutside SAT_X READ_LENGTH form) (λ w. IsWordOf form w) }
{
    match form {
        SveForm::SatX {
            op,
            size,
            sf,
            imm4,
            pattern,
            rdn,
        } => Some(sat_x_bits(op, size, sf, imm4, pattern, rdn)),
        SveForm::SatZ {
            op,
            size,
            imm4,
            pattern,
            zdn,
        } => Some(sat_z_bits(op, size, imm4, pattern, zdn)),
        SveForm::AddLength { op, rn, imm6, rd } => Some(add_length_bits(op, rn, imm6, rd)),
        SveForm::ReadLength { imm6, rd } => Some(read_length_bits(imm6, rd)),
        _ => None,
    }
}
