//! Words of contiguous loads and of loads of whole registers, read and made.
ghost use Rattle.std.specs.Prelude.{◌≡◌};
ghost use Rattle.emu_bits.specs.Rows.{encode, row_in};
ghost use Rattle.emu_bits.specs.RowLaws.{IsShape};
ghost use Rattle.sve_insn.specs.declared.form.SveForm.TheVariants.{
  LoadZ,
  LoadP,
  LoadImm,
  LoadReg,
  LoadFf,
  LoadNf,
  LoadNtImm,
  LoadNtReg,
  LoadQuadImm,
  LoadQuadReg,
  LoadManyImm,
  LoadManyReg,
  LoadOne,
};
ghost use Rattle.sve_insn.specs.Memory.{
  load_z,
  load_p,
  load_imm,
  load_reg,
  load_ff,
  load_nf,
  load_nt_imm,
  load_nt_reg,
  load_quad_imm,
  load_quad_reg,
  load_many_imm,
  load_many_reg,
  load_one,
};
ghost use Rattle.sve_insn.specs.Rows.{row_of};
ghost use Rattle.sve_insn.specs.Seen.{seen};

use emu_bits::{Pred, PredLow, Reg, U, Word};
use sve_insn::memory_words::{
    load_many_imm_op, load_many_imm_word, load_many_reg_op, load_many_reg_word,
};
use sve_insn::{LoadManyOp, Sve, SveForm};

/// The instruction of `LoadZ` that a word is.
#[tactic(auto, unfolding(sve_insn::specs::Memory::load_z))]
#[inline(always)]
pub fn load_z(w: u32) -> Option<Sve>
    ensures { seen result ≡ row_in load_z w }
{
    if w & 0xffc0_e000 != 0x8580_4000 {
        return None;
    }
    Sve::new(SveForm::LoadZ {
        imm9h: U::at(w, 16),
        imm9l: U::at(w, 10),
        rn: Reg::at(w, 5),
        zt: Reg::at(w, 0),
    })
}

/// The word of `LoadZ` with these fields.
#[tactic(auto, unfolding(sve_insn::specs::Memory::load_z))]
pub fn load_z_bits(imm9h: U<6>, imm9l: U<3>, rn: Reg, zt: Reg) -> u32
    ensures table { result ≡ encode (row_of (LoadZ imm9h imm9l rn zt)) }
    ensures shape { IsShape (row_of (LoadZ imm9h imm9l rn zt)) }
{
    Word { bits: 0x8580_4000 }
        .number(imm9h, 16)
        .number(imm9l, 10)
        .reg(rn, 5)
        .reg(zt, 0)
        .bits
}

/// The instruction of `LoadP` that a word is.
#[tactic(auto, unfolding(sve_insn::specs::Memory::load_p))]
#[inline(always)]
pub fn load_p(w: u32) -> Option<Sve>
    ensures { seen result ≡ row_in load_p w }
{
    if w & 0xffc0_e010 != 0x8580_0000 {
        return None;
    }
    Sve::new(SveForm::LoadP {
        imm9h: U::at(w, 16),
        imm9l: U::at(w, 10),
        rn: Reg::at(w, 5),
        pt: Pred::at(w, 0),
    })
}

/// The word of `LoadP` with these fields.
#[tactic(auto, unfolding(sve_insn::specs::Memory::load_p))]
pub fn load_p_bits(imm9h: U<6>, imm9l: U<3>, rn: Reg, pt: Pred) -> u32
    ensures table { result ≡ encode (row_of (LoadP imm9h imm9l rn pt)) }
    ensures shape { IsShape (row_of (LoadP imm9h imm9l rn pt)) }
{
    Word { bits: 0x8580_0000 }
        .number(imm9h, 16)
        .number(imm9l, 10)
        .reg(rn, 5)
        .pred(pt, 0)
        .bits
}

/// The instruction of `LoadImm` that a word is.
#[tactic(auto, unfolding(sve_insn::specs::Memory::load_imm))]
#[inline(always)]
pub fn load_imm(w: u32) -> Option<Sve>
    ensures { seen result ≡ row_in load_imm w }
{
    if w & 0xfe10_e000 != 0xa400_a000 {
        return None;
    }
    Sve::new(SveForm::LoadImm {
        dtype: U::at(w, 21),
        imm4: U::at(w, 16),
        pg: PredLow::at(w, 10),
        rn: Reg::at(w, 5),
        zt: Reg::at(w, 0),
    })
}

/// The word of `LoadImm` with these fields.
#[tactic(auto, unfolding(sve_insn::specs::Memory::load_imm))]
pub fn load_imm_bits(dtype: U<4>, imm4: U<4>, pg: PredLow, rn: Reg, zt: Reg) -> u32
    ensures table { result ≡ encode (row_of (LoadImm dtype imm4 pg rn zt)) }
    ensures shape { IsShape (row_of (LoadImm dtype imm4 pg rn zt)) }
{
    Word { bits: 0xa400_a000 }
        .number(dtype, 21)
        .number(imm4, 16)
        .pred_low(pg, 10)
        .reg(rn, 5)
        .reg(zt, 0)
        .bits
}

/// The instruction of `LoadReg` that a word is.
#[tactic(auto, unfolding(sve_insn::specs::Memory::load_reg))]
#[inline(always)]
pub fn load_reg(w: u32) -> Option<Sve>
    ensures { seen result ≡ row_in load_reg w }
{
    if w & 0xfe00_e000 != 0xa400_4000 {
        return None;
    }
    Sve::new(SveForm::LoadReg {
        dtype: U::at(w, 21),
        rm: Reg::at(w, 16),
        pg: PredLow::at(w, 10),
        rn: Reg::at(w, 5),
        zt: Reg::at(w, 0),
    })
}

/// The word of `LoadReg` with these fields.
#[tactic(auto, unfolding(sve_insn::specs::Memory::load_reg))]
pub fn load_reg_bits(dtype: U<4>, rm: Reg, pg: PredLow, rn: Reg, zt: Reg) -> u32
    ensures table { result ≡ encode (row_of (LoadReg dtype rm pg rn zt)) }
    ensures shape { IsShape (row_of (LoadReg dtype rm pg rn zt)) }
{
    Word { bits: 0xa400_4000 }
        .number(dtype, 21)
        .reg(rm, 16)
        .pred_low(pg, 10)
        .reg(rn, 5)
        .reg(zt, 0)
        .bits
}

/// The instruction of `LoadFf` that a word is.
#[tactic(auto, unfolding(sve_insn::specs::Memory::load_ff))]
#[inline(always)]
pub fn load_ff(w: u32) -> Option<Sve>
    ensures { seen result ≡ row_in load_ff w }
{
    if w & 0xfe00_e000 != 0xa400_6000 {
        return None;
    }
    Sve::new(SveForm::LoadFf {
        dtype: U::at(w, 21),
        rm: Reg::at(w, 16),
        pg: PredLow::at(w, 10),
        rn: Reg::at(w, 5),
        zt: Reg::at(w, 0),
    })
}

/// The word of `LoadFf` with these fields.
#[tactic(auto, unfolding(sve_insn::specs::Memory::load_ff))]
pub fn load_ff_bits(dtype: U<4>, rm: Reg, pg: PredLow, rn: Reg, zt: Reg) -> u32
    ensures table { result ≡ encode (row_of (LoadFf dtype rm pg rn zt)) }
    ensures shape { IsShape (row_of (LoadFf dtype rm pg rn zt)) }
{
    Word { bits: 0xa400_6000 }
        .number(dtype, 21)
        .reg(rm, 16)
        .pred_low(pg, 10)
        .reg(rn, 5)
        .reg(zt, 0)
        .bits
}

/// The instruction of `LoadNf` that a word is.
#[tactic(auto, unfolding(sve_insn::specs::Memory::load_nf))]
#[inline(always)]
pub fn load_nf(w: u32) -> Option<Sve>
    ensures { seen result ≡ row_in load_nf w }
{
    if w & 0xfe10_e000 != 0xa410_a000 {
        return None;
    }
    Sve::new(SveForm::LoadNf {
        dtype: U::at(w, 21),
        imm4: U::at(w, 16),
        pg: PredLow::at(w, 10),
        rn: Reg::at(w, 5),
        zt: Reg::at(w, 0),
    })
}

/// The word of `LoadNf` with these fields.
#[tactic(auto, unfolding(sve_insn::specs::Memory::load_nf))]
pub fn load_nf_bits(dtype: U<4>, imm4: U<4>, pg: PredLow, rn: Reg, zt: Reg) -> u32
    ensures table { result ≡ encode (row_of (LoadNf dtype imm4 pg rn zt)) }
    ensures shape { IsShape (row_of (LoadNf dtype imm4 pg rn zt)) }
{
    Word { bits: 0xa410_a000 }
        .number(dtype, 21)
        .number(imm4, 16)
        .pred_low(pg, 10)
        .reg(rn, 5)
        .reg(zt, 0)
        .bits
}

/// The instruction of `LoadNtImm` that a word is.
#[tactic(auto, unfolding(sve_insn::specs::Memory::load_nt_imm))]
#[inline(always)]
pub fn load_nt_imm(w: u32) -> Option<Sve>
    ensures { seen result ≡ row_in load_nt_imm w }
{
    if w & 0xfe70_e000 != 0xa400_e000 {
        return None;
    }
    Sve::new(SveForm::LoadNtImm {
        msz: U::at(w, 23),
        imm4: U::at(w, 16),
        pg: PredLow::at(w, 10),
        rn: Reg::at(w, 5),
        zt: Reg::at(w, 0),
    })
}

/// The word of `LoadNtImm` with these fields.
#[tactic(auto, unfolding(sve_insn::specs::Memory::load_nt_imm))]
pub fn load_nt_imm_bits(msz: U<2>, imm4: U<4>, pg: PredLow, rn: Reg, zt: Reg) -> u32
    ensures table { result ≡ encode (row_of (LoadNtImm msz imm4 pg rn zt)) }
    ensures shape { IsShape (row_of (LoadNtImm msz imm4 pg rn zt)) }
{
    Word { bits: 0xa400_e000 }
        .number(msz, 23)
        .number(imm4, 16)
        .pred_low(pg, 10)
        .reg(rn, 5)
        .reg(zt, 0)
        .bits
}

/// The instruction of `LoadNtReg` that a word is.
#[tactic(auto, unfolding(sve_insn::specs::Memory::load_nt_reg))]
#[inline(always)]
pub fn load_nt_reg(w: u32) -> Option<Sve>
    ensures { seen result ≡ row_in load_nt_reg w }
{
    if w & 0xfe60_e000 != 0xa400_c000 {
        return None;
    }
    Sve::new(SveForm::LoadNtReg {
        msz: U::at(w, 23),
        rm: Reg::at(w, 16),
        pg: PredLow::at(w, 10),
        rn: Reg::at(w, 5),
        zt: Reg::at(w, 0),
    })
}

/// The word of `LoadNtReg` with these fields.
#[tactic(auto, unfolding(sve_insn::specs::Memory::load_nt_reg))]
pub fn load_nt_reg_bits(msz: U<2>, rm: Reg, pg: PredLow, rn: Reg, zt: Reg) -> u32
    ensures table { result ≡ encode (row_of (LoadNtReg msz rm pg rn zt)) }
    ensures shape { IsShape (row_of (LoadNtReg msz rm pg rn zt)) }
{
    Word { bits: 0xa400_c000 }
        .number(msz, 23)
        .reg(rm, 16)
        .pred_low(pg, 10)
        .reg(rn, 5)
        .reg(zt, 0)
        .bits
}

/// The instruction of `LoadQuadImm` that a word is.
#[tactic(auto, unfolding(sve_insn::specs::Memory::load_quad_imm))]
#[inline(always)]
pub fn load_quad_imm(w: u32) -> Option<Sve>
    ensures { seen result ≡ row_in load_quad_imm w }
{
    if w & 0xfe70_e000 != 0xa400_2000 {
        return None;
    }
    Sve::new(SveForm::LoadQuadImm {
        msz: U::at(w, 23),
        imm4: U::at(w, 16),
        pg: PredLow::at(w, 10),
        rn: Reg::at(w, 5),
        zt: Reg::at(w, 0),
    })
}

/// The word of `LoadQuadImm` with these fields.
#[tactic(auto, unfolding(sve_insn::specs::Memory::load_quad_imm))]
pub fn load_quad_imm_bits(msz: U<2>, imm4: U<4>, pg: PredLow, rn: Reg, zt: Reg) -> u32
    ensures table { result ≡ encode (row_of (LoadQuadImm msz imm4 pg rn zt)) }
    ensures shape { IsShape (row_of (LoadQuadImm msz imm4 pg rn zt)) }
{
    Word { bits: 0xa400_2000 }
        .number(msz, 23)
        .number(imm4, 16)
        .pred_low(pg, 10)
        .reg(rn, 5)
        .reg(zt, 0)
        .bits
}

/// The instruction of `LoadQuadReg` that a word is.
#[tactic(auto, unfolding(sve_insn::specs::Memory::load_quad_reg))]
#[inline(always)]
pub fn load_quad_reg(w: u32) -> Option<Sve>
    ensures { seen result ≡ row_in load_quad_reg w }
{
    if w & 0xfe60_e000 != 0xa400_0000 {
        return None;
    }
    Sve::new(SveForm::LoadQuadReg {
        msz: U::at(w, 23),
        rm: Reg::at(w, 16),
        pg: PredLow::at(w, 10),
        rn: Reg::at(w, 5),
        zt: Reg::at(w, 0),
    })
}

/// The word of `LoadQuadReg` with these fields.
#[tactic(auto, unfolding(sve_insn::specs::Memory::load_quad_reg))]
pub fn load_quad_reg_bits(msz: U<2>, rm: Reg, pg: PredLow, rn: Reg, zt: Reg) -> u32
    ensures table { result ≡ encode (row_of (LoadQuadReg msz rm pg rn zt)) }
    ensures shape { IsShape (row_of (LoadQuadReg msz rm pg rn zt)) }
{
    Word { bits: 0xa400_0000 }
        .number(msz, 23)
        .reg(rm, 16)
        .pred_low(pg, 10)
        .reg(rn, 5)
        .reg(zt, 0)
        .bits
}

/// The instruction of `LoadManyImm` that a word is.
#[tactic(auto, unfolding(sve_insn::specs::Memory::load_many_imm))]
#[inline(always)]
pub fn load_many_imm(w: u32) -> Option<Sve>
    ensures { seen result ≡ row_in load_many_imm w }
{
    let op = load_many_imm_op(w & 0xfe70_e000)?;
    Sve::new(SveForm::LoadManyImm {
        op,
        msz: U::at(w, 23),
        imm4: U::at(w, 16),
        pg: PredLow::at(w, 10),
        rn: Reg::at(w, 5),
        zt: Reg::at(w, 0),
    })
}

/// The word of `LoadManyImm` with these fields.
#[tactic(auto, unfolding(sve_insn::specs::Memory::load_many_imm))]
pub fn load_many_imm_bits(
    op: LoadManyOp,
    msz: U<2>,
    imm4: U<4>,
    pg: PredLow,
    rn: Reg,
    zt: Reg,
) -> u32
    ensures table { result ≡ encode (row_of (LoadManyImm op msz imm4 pg rn zt)) }
    ensures shape { IsShape (row_of (LoadManyImm op msz imm4 pg rn zt)) }
{
    load_many_imm_word(op)
        .number(msz, 23)
        .number(imm4, 16)
        .pred_low(pg, 10)
        .reg(rn, 5)
        .reg(zt, 0)
        .bits
}

/// The instruction of `LoadManyReg` that a word is.
#[tactic(auto, unfolding(sve_insn::specs::Memory::load_many_reg))]
#[inline(always)]
pub fn load_many_reg(w: u32) -> Option<Sve>
    ensures { seen result ≡ row_in load_many_reg w }
{
    let op = load_many_reg_op(w & 0xfe60_e000)?;
    Sve::new(SveForm::LoadManyReg {
        op,
        msz: U::at(w, 23),
        rm: Reg::at(w, 16),
        pg: PredLow::at(w, 10),
        rn: Reg::at(w, 5),
        zt: Reg::at(w, 0),
    })
}

/// The word of `LoadManyReg` with these fields.
#[tactic(auto, unfolding(sve_insn::specs::Memory::load_many_reg))]
pub fn load_many_reg_bits(op: LoadManyOp, msz: U<2>, rm: Reg, pg: PredLow, rn: Reg, zt: Reg) -> u32
    ensures table { result ≡ encode (row_of (LoadManyReg op msz rm pg rn zt)) }
    ensures shape { IsShape (row_of (LoadManyReg op msz rm pg rn zt)) }
{
    load_many_reg_word(op)
        .number(msz, 23)
        .reg(rm, 16)
        .pred_low(pg, 10)
        .reg(rn, 5)
        .reg(zt, 0)
        .bits
}

/// The instruction of `LoadOne` that a word is.
#[tactic(auto, unfolding(sve_insn::specs::Memory::load_one))]
#[inline(always)]
pub fn load_one(w: u32) -> Option<Sve>
    ensures { seen result ≡ row_in load_one w }
{
    if w & 0xfe40_8000 != 0x8440_8000 {
        return None;
    }
    Sve::new(SveForm::LoadOne {
        dtypeh: U::at(w, 23),
        imm6: U::at(w, 16),
        dtypel: U::at(w, 13),
        pg: PredLow::at(w, 10),
        rn: Reg::at(w, 5),
        zt: Reg::at(w, 0),
    })
}

/// The word of `LoadOne` with these fields.
#[tactic(auto, unfolding(sve_insn::specs::Memory::load_one))]
pub fn load_one_bits(dtypeh: U<2>, imm6: U<6>, dtypel: U<2>, pg: PredLow, rn: Reg, zt: Reg) -> u32
    ensures table { result ≡ encode (row_of (LoadOne dtypeh imm6 dtypel pg rn zt)) }
    ensures shape { IsShape (row_of (LoadOne dtypeh imm6 dtypel pg rn zt)) }
{
    Word { bits: 0x8440_8000 }
        .number(dtypeh, 23)
        .number(imm6, 16)
        .number(dtypel, 13)
        .pred_low(pg, 10)
        .reg(rn, 5)
        .reg(zt, 0)
        .bits
}
