//! Words of contiguous stores and of stores of whole registers, read and made.
ghost use Rattle.std.specs.Prelude.{◌≡◌};
ghost use Rattle.emu_bits.specs.Rows.{encode, row_in};
ghost use Rattle.emu_bits.specs.RowLaws.{IsShape};
ghost use Rattle.sve_insn.specs.declared.form.SveForm.TheVariants.{
  StoreZ,
  StoreReg,
  StoreImm,
  StoreNtImm,
  StoreNtReg,
  StoreManyImm,
  StoreManyReg,
  StoreP,
};
ghost use Rattle.sve_insn.specs.Memory.{
  store_z,
  store_reg,
  store_imm,
  store_nt_imm,
  store_nt_reg,
  store_many_imm,
  store_many_reg,
  store_p,
};
ghost use Rattle.sve_insn.specs.Rows.{row_of};
ghost use Rattle.sve_insn.specs.Seen.{seen};

use emu_bits::{Pred, PredLow, Reg, U, Word};
use sve_insn::memory_words::{
    store_many_imm_op, store_many_imm_word, store_many_reg_op, store_many_reg_word,
};
use sve_insn::{StoreManyOp, Sve, SveForm};

/// The instruction of `StoreZ` that a word is.
#[tactic(auto, unfolding(sve_insn::specs::Memory::store_z))]
#[inline(always)]
pub fn store_z(w: u32) -> Option<Sve>
    ensures { seen result ≡ row_in store_z w }
{
    if w & 0xffc0_e000 != 0xe580_4000 {
        return None;
    }
    Sve::new(SveForm::StoreZ {
        imm9h: U::at(w, 16),
        imm9l: U::at(w, 10),
        rn: Reg::at(w, 5),
        zt: Reg::at(w, 0),
    })
}

/// The word of `StoreZ` with these fields.
#[tactic(auto, unfolding(sve_insn::specs::Memory::store_z))]
pub fn store_z_bits(imm9h: U<6>, imm9l: U<3>, rn: Reg, zt: Reg) -> u32
    ensures table { result ≡ encode (row_of (StoreZ imm9h imm9l rn zt)) }
    ensures shape { IsShape (row_of (StoreZ imm9h imm9l rn zt)) }
{
    Word { bits: 0xe580_4000 }
        .number(imm9h, 16)
        .number(imm9l, 10)
        .reg(rn, 5)
        .reg(zt, 0)
        .bits
}

/// The instruction of `StoreReg` that a word is.
#[tactic(auto, unfolding(sve_insn::specs::Memory::store_reg))]
#[inline(always)]
pub fn store_reg(w: u32) -> Option<Sve>
    ensures { seen result ≡ row_in store_reg w }
{
    if w & 0xfe00_e000 != 0xe400_4000 {
        return None;
    }
    Sve::new(SveForm::StoreReg {
        msz: U::at(w, 23),
        size: U::at(w, 21),
        rm: Reg::at(w, 16),
        pg: PredLow::at(w, 10),
        rn: Reg::at(w, 5),
        zt: Reg::at(w, 0),
    })
}

/// The word of `StoreReg` with these fields.
#[tactic(auto, unfolding(sve_insn::specs::Memory::store_reg))]
pub fn store_reg_bits(msz: U<2>, size: U<2>, rm: Reg, pg: PredLow, rn: Reg, zt: Reg) -> u32
    ensures table { result ≡ encode (row_of (StoreReg msz size rm pg rn zt)) }
    ensures shape { IsShape (row_of (StoreReg msz size rm pg rn zt)) }
{
    Word { bits: 0xe400_4000 }
        .number(msz, 23)
        .number(size, 21)
        .reg(rm, 16)
        .pred_low(pg, 10)
        .reg(rn, 5)
        .reg(zt, 0)
        .bits
}

/// The instruction of `StoreImm` that a word is.
#[tactic(auto, unfolding(sve_insn::specs::Memory::store_imm))]
#[inline(always)]
pub fn store_imm(w: u32) -> Option<Sve>
    ensures { seen result ≡ row_in store_imm w }
{
    if w & 0xfe10_e000 != 0xe400_e000 {
        return None;
    }
    Sve::new(SveForm::StoreImm {
        msz: U::at(w, 23),
        size: U::at(w, 21),
        imm4: U::at(w, 16),
        pg: PredLow::at(w, 10),
        rn: Reg::at(w, 5),
        zt: Reg::at(w, 0),
    })
}

/// The word of `StoreImm` with these fields.
#[tactic(auto, unfolding(sve_insn::specs::Memory::store_imm))]
pub fn store_imm_bits(msz: U<2>, size: U<2>, imm4: U<4>, pg: PredLow, rn: Reg, zt: Reg) -> u32
    ensures table { result ≡ encode (row_of (StoreImm msz size imm4 pg rn zt)) }
    ensures shape { IsShape (row_of (StoreImm msz size imm4 pg rn zt)) }
{
    Word { bits: 0xe400_e000 }
        .number(msz, 23)
        .number(size, 21)
        .number(imm4, 16)
        .pred_low(pg, 10)
        .reg(rn, 5)
        .reg(zt, 0)
        .bits
}

/// The instruction of `StoreNtImm` that a word is.
#[tactic(auto, unfolding(sve_insn::specs::Memory::store_nt_imm))]
#[inline(always)]
pub fn store_nt_imm(w: u32) -> Option<Sve>
    ensures { seen result ≡ row_in store_nt_imm w }
{
    if w & 0xfe70_e000 != 0xe410_e000 {
        return None;
    }
    Sve::new(SveForm::StoreNtImm {
        msz: U::at(w, 23),
        imm4: U::at(w, 16),
        pg: PredLow::at(w, 10),
        rn: Reg::at(w, 5),
        zt: Reg::at(w, 0),
    })
}

/// The word of `StoreNtImm` with these fields.
#[tactic(auto, unfolding(sve_insn::specs::Memory::store_nt_imm))]
pub fn store_nt_imm_bits(msz: U<2>, imm4: U<4>, pg: PredLow, rn: Reg, zt: Reg) -> u32
    ensures table { result ≡ encode (row_of (StoreNtImm msz imm4 pg rn zt)) }
    ensures shape { IsShape (row_of (StoreNtImm msz imm4 pg rn zt)) }
{
    Word { bits: 0xe410_e000 }
        .number(msz, 23)
        .number(imm4, 16)
        .pred_low(pg, 10)
        .reg(rn, 5)
        .reg(zt, 0)
        .bits
}

/// The instruction of `StoreNtReg` that a word is.
#[tactic(auto, unfolding(sve_insn::specs::Memory::store_nt_reg))]
#[inline(always)]
pub fn store_nt_reg(w: u32) -> Option<Sve>
    ensures { seen result ≡ row_in store_nt_reg w }
{
    if w & 0xfe60_e000 != 0xe400_6000 {
        return None;
    }
    Sve::new(SveForm::StoreNtReg {
        msz: U::at(w, 23),
        rm: Reg::at(w, 16),
        pg: PredLow::at(w, 10),
        rn: Reg::at(w, 5),
        zt: Reg::at(w, 0),
    })
}

/// The word of `StoreNtReg` with these fields.
#[tactic(auto, unfolding(sve_insn::specs::Memory::store_nt_reg))]
pub fn store_nt_reg_bits(msz: U<2>, rm: Reg, pg: PredLow, rn: Reg, zt: Reg) -> u32
    ensures table { result ≡ encode (row_of (StoreNtReg msz rm pg rn zt)) }
    ensures shape { IsShape (row_of (StoreNtReg msz rm pg rn zt)) }
{
    Word { bits: 0xe400_6000 }
        .number(msz, 23)
        .reg(rm, 16)
        .pred_low(pg, 10)
        .reg(rn, 5)
        .reg(zt, 0)
        .bits
}

/// The instruction of `StoreManyImm` that a word is.
#[tactic(auto, unfolding(sve_insn::specs::Memory::store_many_imm))]
#[inline(always)]
pub fn store_many_imm(w: u32) -> Option<Sve>
    ensures { seen result ≡ row_in store_many_imm w }
{
    let op = store_many_imm_op(w & 0xfe70_e000)?;
    Sve::new(SveForm::StoreManyImm {
        op,
        msz: U::at(w, 23),
        imm4: U::at(w, 16),
        pg: PredLow::at(w, 10),
        rn: Reg::at(w, 5),
        zt: Reg::at(w, 0),
    })
}

/// The word of `StoreManyImm` with these fields.
#[tactic(auto, unfolding(sve_insn::specs::Memory::store_many_imm))]
pub fn store_many_imm_bits(
    op: StoreManyOp,
    msz: U<2>,
    imm4: U<4>,
    pg: PredLow,
    rn: Reg,
    zt: Reg,
) -> u32
    ensures table { result ≡ encode (row_of (StoreManyImm op msz imm4 pg rn zt)) }
    ensures shape { IsShape (row_of (StoreManyImm op msz imm4 pg rn zt)) }
{
    store_many_imm_word(op)
        .number(msz, 23)
        .number(imm4, 16)
        .pred_low(pg, 10)
        .reg(rn, 5)
        .reg(zt, 0)
        .bits
}

/// The instruction of `StoreManyReg` that a word is.
#[tactic(auto, unfolding(sve_insn::specs::Memory::store_many_reg))]
#[inline(always)]
pub fn store_many_reg(w: u32) -> Option<Sve>
    ensures { seen result ≡ row_in store_many_reg w }
{
    let op = store_many_reg_op(w & 0xfe60_e000)?;
    Sve::new(SveForm::StoreManyReg {
        op,
        msz: U::at(w, 23),
        rm: Reg::at(w, 16),
        pg: PredLow::at(w, 10),
        rn: Reg::at(w, 5),
        zt: Reg::at(w, 0),
    })
}

/// The word of `StoreManyReg` with these fields.
#[tactic(auto, unfolding(sve_insn::specs::Memory::store_many_reg))]
pub fn store_many_reg_bits(
    op: StoreManyOp,
    msz: U<2>,
    rm: Reg,
    pg: PredLow,
    rn: Reg,
    zt: Reg,
) -> u32
    ensures table { result ≡ encode (row_of (StoreManyReg op msz rm pg rn zt)) }
    ensures shape { IsShape (row_of (StoreManyReg op msz rm pg rn zt)) }
{
    store_many_reg_word(op)
        .number(msz, 23)
        .reg(rm, 16)
        .pred_low(pg, 10)
        .reg(rn, 5)
        .reg(zt, 0)
        .bits
}

/// The instruction of `StoreP` that a word is.
#[tactic(auto, unfolding(sve_insn::specs::Memory::store_p))]
#[inline(always)]
pub fn store_p(w: u32) -> Option<Sve>
    ensures { seen result ≡ row_in store_p w }
{
    if w & 0xffc0_e010 != 0xe580_0000 {
        return None;
    }
    Sve::new(SveForm::StoreP {
        imm9h: U::at(w, 16),
        imm9l: U::at(w, 10),
        rn: Reg::at(w, 5),
        pt: Pred::at(w, 0),
    })
}

/// The word of `StoreP` with these fields.
#[tactic(auto, unfolding(sve_insn::specs::Memory::store_p))]
pub fn store_p_bits(imm9h: U<6>, imm9l: U<3>, rn: Reg, pt: Pred) -> u32
    ensures table { result ≡ encode (row_of (StoreP imm9h imm9l rn pt)) }
    ensures shape { IsShape (row_of (StoreP imm9h imm9l rn pt)) }
{
    Word { bits: 0xe580_0000 }
        .number(imm9h, 16)
        .number(imm9l, 10)
        .reg(rn, 5)
        .pred(pt, 0)
        .bits
}
