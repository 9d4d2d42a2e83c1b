//! Words of operations with an immediate, read and made.
ghost use Rattle.std.specs.Prelude.{◌≡◌};
ghost use Rattle.emu_bits.specs.Rows.{encode, row_in};
ghost use Rattle.emu_bits.specs.RowLaws.{IsShape};
ghost use Rattle.sve_insn.specs.declared.form.SveForm.TheVariants.{WideImm, MinMaxImm, DupImm};
ghost use Rattle.sve_insn.specs.Lanes.{wide_imm, min_max_imm, dup_imm};
ghost use Rattle.sve_insn.specs.Rows.{row_of};
ghost use Rattle.sve_insn.specs.Seen.{seen};

use emu_bits::{Reg, U, Word, flag};
use sve_insn::lane_words::{min_max_imm_op, min_max_imm_word, wide_imm_op, wide_imm_word};
use sve_insn::{MinMaxImmOp, Sve, SveForm, WideImmOp};

/// The instruction of `WideImm` that a word is.
#[tactic(auto, unfolding(sve_insn::specs::Lanes::wide_imm))]
#[inline(always)]
pub fn wide_imm(w: u32) -> Option<Sve>
    ensures { seen result ≡ row_in wide_imm w }
{
    let op = wide_imm_op(w & 0xff3f_c000)?;
    Sve::new(SveForm::WideImm {
        op,
        size: U::at(w, 22),
        sh: flag(w, 13),
        imm8: U::at(w, 5),
        zdn: Reg::at(w, 0),
    })
}

/// The word of `WideImm` with these fields.
#[tactic(auto, unfolding(sve_insn::specs::Lanes::wide_imm))]
pub fn wide_imm_bits(op: WideImmOp, size: U<2>, sh: bool, imm8: U<8>, zdn: Reg) -> u32
    ensures table { result ≡ encode (row_of (WideImm op size sh imm8 zdn)) }
    ensures shape { IsShape (row_of (WideImm op size sh imm8 zdn)) }
{
    wide_imm_word(op)
        .number(size, 22)
        .flag(sh, 13)
        .number(imm8, 5)
        .reg(zdn, 0)
        .bits
}

/// The instruction of `MinMaxImm` that a word is.
#[tactic(auto, unfolding(sve_insn::specs::Lanes::min_max_imm))]
#[inline(always)]
pub fn min_max_imm(w: u32) -> Option<Sve>
    ensures { seen result ≡ row_in min_max_imm w }
{
    let op = min_max_imm_op(w & 0xff3f_e000)?;
    Sve::new(SveForm::MinMaxImm {
        op,
        size: U::at(w, 22),
        imm8: U::at(w, 5),
        zdn: Reg::at(w, 0),
    })
}

/// The word of `MinMaxImm` with these fields.
#[tactic(auto, unfolding(sve_insn::specs::Lanes::min_max_imm))]
pub fn min_max_imm_bits(op: MinMaxImmOp, size: U<2>, imm8: U<8>, zdn: Reg) -> u32
    ensures table { result ≡ encode (row_of (MinMaxImm op size imm8 zdn)) }
    ensures shape { IsShape (row_of (MinMaxImm op size imm8 zdn)) }
{
    min_max_imm_word(op)
        .number(size, 22)
        .number(imm8, 5)
        .reg(zdn, 0)
        .bits
}

/// The instruction of `DupImm` that a word is.
#[tactic(auto, unfolding(sve_insn::specs::Lanes::dup_imm))]
#[inline(always)]
pub fn dup_imm(w: u32) -> Option<Sve>
    ensures { seen result ≡ row_in dup_imm w }
{
    if w & 0xff3f_c000 != 0x2538_c000 {
        return None;
    }
    Sve::new(SveForm::DupImm {
        size: U::at(w, 22),
        sh: flag(w, 13),
        imm8: U::at(w, 5),
        zd: Reg::at(w, 0),
    })
}

/// The word of `DupImm` with these fields.
#[tactic(auto, unfolding(sve_insn::specs::Lanes::dup_imm))]
pub fn dup_imm_bits(size: U<2>, sh: bool, imm8: U<8>, zd: Reg) -> u32
    ensures table { result ≡ encode (row_of (DupImm size sh imm8 zd)) }
    ensures shape { IsShape (row_of (DupImm size sh imm8 zd)) }
{
    Word { bits: 0x2538_c000 }
        .number(size, 22)
        .flag(sh, 13)
        .number(imm8, 5)
        .reg(zd, 0)
        .bits
}
