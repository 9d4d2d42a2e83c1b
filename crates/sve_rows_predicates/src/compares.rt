//! Words of compares, read and made.
ghost use Rattle.std.specs.Prelude.{◌≡◌};
ghost use Rattle.emu_bits.specs.Rows.{encode, row_in};
ghost use Rattle.emu_bits.specs.RowLaws.{IsShape};
ghost use Rattle.sve_insn.specs.declared.form.SveForm.TheVariants.{CmpVec, CmpWide, CmpUImm, CmpSImm, While, Cterm};
ghost use Rattle.sve_insn.specs.Predicates.{cmp_vec, cmp_wide, cmp_u_imm, cmp_s_imm, while_compare, cterm};
ghost use Rattle.sve_insn.specs.Rows.{row_of};
ghost use Rattle.sve_insn.specs.Seen.{seen};

use crate::base_words::{
    cmp_s_imm_op, cmp_s_imm_word, cmp_u_imm_op, cmp_u_imm_word, cmp_vec_op, cmp_vec_word,
    cmp_wide_op, cmp_wide_word, cterm_op, cterm_word, while_compare_op, while_compare_word,
};
use emu_bits::{Pred, PredLow, Reg, U, flag};
use sve_insn::{CmpSImmOp, CmpUImmOp, CmpVecOp, CmpWideOp, CtermOp, Sve, SveForm, WhileOp};

/// The instruction of `CmpVec` that a word is.
#[tactic(auto, unfolding(sve_insn::specs::Predicates::cmp_vec))]
#[inline(always)]
pub fn cmp_vec(w: u32) -> Option<Sve>
    ensures { seen result ≡ row_in cmp_vec w }
{
    let op = cmp_vec_op(w & 0xff20_e010)?;
    Sve::new(SveForm::CmpVec {
        op,
        size: U::at(w, 22),
        zm: Reg::at(w, 16),
        pg: PredLow::at(w, 10),
        zn: Reg::at(w, 5),
        pd: Pred::at(w, 0),
    })
}

/// The word of `CmpVec` with these fields.
#[tactic(auto, unfolding(sve_insn::specs::Predicates::cmp_vec))]
pub fn cmp_vec_bits(op: CmpVecOp, size: U<2>, zm: Reg, pg: PredLow, zn: Reg, pd: Pred) -> u32
    ensures table { result ≡ encode (row_of (CmpVec op size zm pg zn pd)) }
    ensures shape { IsShape (row_of (CmpVec op size zm pg zn pd)) }
{
    cmp_vec_word(op)
        .number(size, 22)
        .reg(zm, 16)
        .pred_low(pg, 10)
        .reg(zn, 5)
        .pred(pd, 0)
        .bits
}

/// The instruction of `CmpWide` that a word is.
#[tactic(auto, unfolding(sve_insn::specs::Predicates::cmp_wide))]
#[inline(always)]
pub fn cmp_wide(w: u32) -> Option<Sve>
    ensures { seen result ≡ row_in cmp_wide w }
{
    let op = cmp_wide_op(w & 0xff20_e010)?;
    Sve::new(SveForm::CmpWide {
        op,
        size: U::at(w, 22),
        zm: Reg::at(w, 16),
        pg: PredLow::at(w, 10),
        zn: Reg::at(w, 5),
        pd: Pred::at(w, 0),
    })
}

/// The word of `CmpWide` with these fields.
#[tactic(auto, unfolding(sve_insn::specs::Predicates::cmp_wide))]
pub fn cmp_wide_bits(op: CmpWideOp, size: U<2>, zm: Reg, pg: PredLow, zn: Reg, pd: Pred) -> u32
    ensures table { result ≡ encode (row_of (CmpWide op size zm pg zn pd)) }
    ensures shape { IsShape (row_of (CmpWide op size zm pg zn pd)) }
{
    cmp_wide_word(op)
        .number(size, 22)
        .reg(zm, 16)
        .pred_low(pg, 10)
        .reg(zn, 5)
        .pred(pd, 0)
        .bits
}

/// The instruction of `CmpUImm` that a word is.
#[tactic(auto, unfolding(sve_insn::specs::Predicates::cmp_u_imm))]
#[inline(always)]
pub fn cmp_u_imm(w: u32) -> Option<Sve>
    ensures { seen result ≡ row_in cmp_u_imm w }
{
    let op = cmp_u_imm_op(w & 0xff20_2010)?;
    Sve::new(SveForm::CmpUImm {
        op,
        size: U::at(w, 22),
        imm7: U::at(w, 14),
        pg: PredLow::at(w, 10),
        zn: Reg::at(w, 5),
        pd: Pred::at(w, 0),
    })
}

/// The word of `CmpUImm` with these fields.
#[tactic(auto, unfolding(sve_insn::specs::Predicates::cmp_u_imm))]
pub fn cmp_u_imm_bits(op: CmpUImmOp, size: U<2>, imm7: U<7>, pg: PredLow, zn: Reg, pd: Pred) -> u32
    ensures table { result ≡ encode (row_of (CmpUImm op size imm7 pg zn pd)) }
    ensures shape { IsShape (row_of (CmpUImm op size imm7 pg zn pd)) }
{
    cmp_u_imm_word(op)
        .number(size, 22)
        .number(imm7, 14)
        .pred_low(pg, 10)
        .reg(zn, 5)
        .pred(pd, 0)
        .bits
}

/// The instruction of `CmpSImm` that a word is.
#[tactic(auto, unfolding(sve_insn::specs::Predicates::cmp_s_imm))]
#[inline(always)]
pub fn cmp_s_imm(w: u32) -> Option<Sve>
    ensures { seen result ≡ row_in cmp_s_imm w }
{
    let op = cmp_s_imm_op(w & 0xff20_e010)?;
    Sve::new(SveForm::CmpSImm {
        op,
        size: U::at(w, 22),
        imm5: U::at(w, 16),
        pg: PredLow::at(w, 10),
        zn: Reg::at(w, 5),
        pd: Pred::at(w, 0),
    })
}

/// The word of `CmpSImm` with these fields.
#[tactic(auto, unfolding(sve_insn::specs::Predicates::cmp_s_imm))]
pub fn cmp_s_imm_bits(op: CmpSImmOp, size: U<2>, imm5: U<5>, pg: PredLow, zn: Reg, pd: Pred) -> u32
    ensures table { result ≡ encode (row_of (CmpSImm op size imm5 pg zn pd)) }
    ensures shape { IsShape (row_of (CmpSImm op size imm5 pg zn pd)) }
{
    cmp_s_imm_word(op)
        .number(size, 22)
        .number(imm5, 16)
        .pred_low(pg, 10)
        .reg(zn, 5)
        .pred(pd, 0)
        .bits
}

/// The instruction of `While` that a word is.
#[tactic(auto, unfolding(sve_insn::specs::Predicates::while_compare))]
#[inline(always)]
pub fn while_compare(w: u32) -> Option<Sve>
    ensures { seen result ≡ row_in while_compare w }
{
    let op = while_compare_op(w & 0xff20_ec10)?;
    Sve::new(SveForm::While {
        op,
        size: U::at(w, 22),
        rm: Reg::at(w, 16),
        sf: flag(w, 12),
        rn: Reg::at(w, 5),
        pd: Pred::at(w, 0),
    })
}

/// The word of `While` with these fields.
#[tactic(auto, unfolding(sve_insn::specs::Predicates::while_compare))]
pub fn while_compare_bits(op: WhileOp, size: U<2>, rm: Reg, sf: bool, rn: Reg, pd: Pred) -> u32
    ensures table { result ≡ encode (row_of (While op size rm sf rn pd)) }
    ensures shape { IsShape (row_of (While op size rm sf rn pd)) }
{
    while_compare_word(op)
        .number(size, 22)
        .reg(rm, 16)
        .flag(sf, 12)
        .reg(rn, 5)
        .pred(pd, 0)
        .bits
}

/// The instruction of `Cterm` that a word is.
#[tactic(auto, unfolding(sve_insn::specs::Predicates::cterm))]
#[inline(always)]
pub fn cterm(w: u32) -> Option<Sve>
    ensures { seen result ≡ row_in cterm w }
{
    let op = cterm_op(w & 0xffa0_fc1f)?;
    Sve::new(SveForm::Cterm {
        op,
        sf: flag(w, 22),
        rm: Reg::at(w, 16),
        rn: Reg::at(w, 5),
    })
}

/// The word of `Cterm` with these fields.
#[tactic(auto, unfolding(sve_insn::specs::Predicates::cterm))]
pub fn cterm_bits(op: CtermOp, sf: bool, rm: Reg, rn: Reg) -> u32
    ensures table { result ≡ encode (row_of (Cterm op sf rm rn)) }
    ensures shape { IsShape (row_of (Cterm op sf rm rn)) }
{
    cterm_word(op).flag(sf, 22).reg(rm, 16).reg(rn, 5).bits
}
