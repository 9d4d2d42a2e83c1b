//! Words of gathers, read and made.
ghost use Rattle.std.specs.Prelude.{◌≡◌};
ghost use Rattle.emu_bits.specs.Rows.{encode, row_in};
ghost use Rattle.emu_bits.specs.RowLaws.{IsShape};
ghost use Rattle.sve_insn.specs.declared.form.SveForm.TheVariants.{
  GatherSx,
  GatherSxScaled,
  GatherDx,
  GatherDxScaled,
  GatherD,
  GatherDScaled,
  GatherSv,
  GatherDv,
};
ghost use Rattle.sve_insn.specs.Memory.{
  gather_sx,
  gather_sx_scaled,
  gather_dx,
  gather_dx_scaled,
  gather_d,
  gather_d_scaled,
  gather_sv,
  gather_dv,
};
ghost use Rattle.sve_insn.specs.Rows.{row_of};
ghost use Rattle.sve_insn.specs.Seen.{seen};

use emu_bits::{PredLow, Reg, U, Word, flag};
use sve_insn::{Sve, SveForm};

/// The instruction of `GatherSx` that a word is.
#[tactic(auto, unfolding(sve_insn::specs::Memory::gather_sx))]
#[inline(always)]
pub fn gather_sx(w: u32) -> Option<Sve>
    ensures { seen result ≡ row_in gather_sx w }
{
    if w & 0xfe20_8000 != 0x8400_0000 {
        return None;
    }
    Sve::new(SveForm::GatherSx {
        msz: U::at(w, 23),
        xs: flag(w, 22),
        zm: Reg::at(w, 16),
        u: flag(w, 14),
        ff: flag(w, 13),
        pg: PredLow::at(w, 10),
        rn: Reg::at(w, 5),
        zt: Reg::at(w, 0),
    })
}

/// The word of `GatherSx` with these fields.
#[tactic(auto, unfolding(sve_insn::specs::Memory::gather_sx))]
pub fn gather_sx_bits(
    msz: U<2>,
    xs: bool,
    zm: Reg,
    u: bool,
    ff: bool,
    pg: PredLow,
    rn: Reg,
    zt: Reg,
) -> u32
    ensures table { result ≡ encode (row_of (GatherSx msz xs zm u ff pg rn zt)) }
    ensures shape { IsShape (row_of (GatherSx msz xs zm u ff pg rn zt)) }
{
    Word { bits: 0x8400_0000 }
        .number(msz, 23)
        .flag(xs, 22)
        .reg(zm, 16)
        .flag(u, 14)
        .flag(ff, 13)
        .pred_low(pg, 10)
        .reg(rn, 5)
        .reg(zt, 0)
        .bits
}

/// The instruction of `GatherSxScaled` that a word is.
#[tactic(auto, unfolding(sve_insn::specs::Memory::gather_sx_scaled))]
#[inline(always)]
pub fn gather_sx_scaled(w: u32) -> Option<Sve>
    ensures { seen result ≡ row_in gather_sx_scaled w }
{
    if w & 0xfe20_8000 != 0x8420_0000 {
        return None;
    }
    Sve::new(SveForm::GatherSxScaled {
        msz: U::at(w, 23),
        xs: flag(w, 22),
        zm: Reg::at(w, 16),
        u: flag(w, 14),
        ff: flag(w, 13),
        pg: PredLow::at(w, 10),
        rn: Reg::at(w, 5),
        zt: Reg::at(w, 0),
    })
}

/// The word of `GatherSxScaled` with these fields.
#[tactic(auto, unfolding(sve_insn::specs::Memory::gather_sx_scaled))]
pub fn gather_sx_scaled_bits(
    msz: U<2>,
    xs: bool,
    zm: Reg,
    u: bool,
    ff: bool,
    pg: PredLow,
    rn: Reg,
    zt: Reg,
) -> u32
    ensures table { result ≡ encode (row_of (GatherSxScaled msz xs zm u ff pg rn zt)) }
    ensures shape { IsShape (row_of (GatherSxScaled msz xs zm u ff pg rn zt)) }
{
    Word { bits: 0x8420_0000 }
        .number(msz, 23)
        .flag(xs, 22)
        .reg(zm, 16)
        .flag(u, 14)
        .flag(ff, 13)
        .pred_low(pg, 10)
        .reg(rn, 5)
        .reg(zt, 0)
        .bits
}

/// The instruction of `GatherDx` that a word is.
#[tactic(auto, unfolding(sve_insn::specs::Memory::gather_dx))]
#[inline(always)]
pub fn gather_dx(w: u32) -> Option<Sve>
    ensures { seen result ≡ row_in gather_dx w }
{
    if w & 0xfe20_8000 != 0xc400_0000 {
        return None;
    }
    Sve::new(SveForm::GatherDx {
        msz: U::at(w, 23),
        xs: flag(w, 22),
        zm: Reg::at(w, 16),
        u: flag(w, 14),
        ff: flag(w, 13),
        pg: PredLow::at(w, 10),
        rn: Reg::at(w, 5),
        zt: Reg::at(w, 0),
    })
}

/// The word of `GatherDx` with these fields.
#[tactic(auto, unfolding(sve_insn::specs::Memory::gather_dx))]
pub fn gather_dx_bits(
    msz: U<2>,
    xs: bool,
    zm: Reg,
    u: bool,
    ff: bool,
    pg: PredLow,
    rn: Reg,
    zt: Reg,
) -> u32
    ensures table { result ≡ encode (row_of (GatherDx msz xs zm u ff pg rn zt)) }
    ensures shape { IsShape (row_of (GatherDx msz xs zm u ff pg rn zt)) }
{
    Word { bits: 0xc400_0000 }
        .number(msz, 23)
        .flag(xs, 22)
        .reg(zm, 16)
        .flag(u, 14)
        .flag(ff, 13)
        .pred_low(pg, 10)
        .reg(rn, 5)
        .reg(zt, 0)
        .bits
}

/// The instruction of `GatherDxScaled` that a word is.
#[tactic(auto, unfolding(sve_insn::specs::Memory::gather_dx_scaled))]
#[inline(always)]
pub fn gather_dx_scaled(w: u32) -> Option<Sve>
    ensures { seen result ≡ row_in gather_dx_scaled w }
{
    if w & 0xfe20_8000 != 0xc420_0000 {
        return None;
    }
    Sve::new(SveForm::GatherDxScaled {
        msz: U::at(w, 23),
        xs: flag(w, 22),
        zm: Reg::at(w, 16),
        u: flag(w, 14),
        ff: flag(w, 13),
        pg: PredLow::at(w, 10),
        rn: Reg::at(w, 5),
        zt: Reg::at(w, 0),
    })
}

/// The word of `GatherDxScaled` with these fields.
#[tactic(auto, unfolding(sve_insn::specs::Memory::gather_dx_scaled))]
pub fn gather_dx_scaled_bits(
    msz: U<2>,
    xs: bool,
    zm: Reg,
    u: bool,
    ff: bool,
    pg: PredLow,
    rn: Reg,
    zt: Reg,
) -> u32
    ensures table { result ≡ encode (row_of (GatherDxScaled msz xs zm u ff pg rn zt)) }
    ensures shape { IsShape (row_of (GatherDxScaled msz xs zm u ff pg rn zt)) }
{
    Word { bits: 0xc420_0000 }
        .number(msz, 23)
        .flag(xs, 22)
        .reg(zm, 16)
        .flag(u, 14)
        .flag(ff, 13)
        .pred_low(pg, 10)
        .reg(rn, 5)
        .reg(zt, 0)
        .bits
}

/// The instruction of `GatherD` that a word is.
#[tactic(auto, unfolding(sve_insn::specs::Memory::gather_d))]
#[inline(always)]
pub fn gather_d(w: u32) -> Option<Sve>
    ensures { seen result ≡ row_in gather_d w }
{
    if w & 0xfe60_8000 != 0xc440_8000 {
        return None;
    }
    Sve::new(SveForm::GatherD {
        msz: U::at(w, 23),
        zm: Reg::at(w, 16),
        u: flag(w, 14),
        ff: flag(w, 13),
        pg: PredLow::at(w, 10),
        rn: Reg::at(w, 5),
        zt: Reg::at(w, 0),
    })
}

/// The word of `GatherD` with these fields.
#[tactic(auto, unfolding(sve_insn::specs::Memory::gather_d))]
pub fn gather_d_bits(msz: U<2>, zm: Reg, u: bool, ff: bool, pg: PredLow, rn: Reg, zt: Reg) -> u32
    ensures table { result ≡ encode (row_of (GatherD msz zm u ff pg rn zt)) }
    ensures shape { IsShape (row_of (GatherD msz zm u ff pg rn zt)) }
{
    Word { bits: 0xc440_8000 }
        .number(msz, 23)
        .reg(zm, 16)
        .flag(u, 14)
        .flag(ff, 13)
        .pred_low(pg, 10)
        .reg(rn, 5)
        .reg(zt, 0)
        .bits
}

/// The instruction of `GatherDScaled` that a word is.
#[tactic(auto, unfolding(sve_insn::specs::Memory::gather_d_scaled))]
#[inline(always)]
pub fn gather_d_scaled(w: u32) -> Option<Sve>
    ensures { seen result ≡ row_in gather_d_scaled w }
{
    if w & 0xfe60_8000 != 0xc460_8000 {
        return None;
    }
    Sve::new(SveForm::GatherDScaled {
        msz: U::at(w, 23),
        zm: Reg::at(w, 16),
        u: flag(w, 14),
        ff: flag(w, 13),
        pg: PredLow::at(w, 10),
        rn: Reg::at(w, 5),
        zt: Reg::at(w, 0),
    })
}

/// The word of `GatherDScaled` with these fields.
#[tactic(auto, unfolding(sve_insn::specs::Memory::gather_d_scaled))]
pub fn gather_d_scaled_bits(
    msz: U<2>,
    zm: Reg,
    u: bool,
    ff: bool,
    pg: PredLow,
    rn: Reg,
    zt: Reg,
) -> u32
    ensures table { result ≡ encode (row_of (GatherDScaled msz zm u ff pg rn zt)) }
    ensures shape { IsShape (row_of (GatherDScaled msz zm u ff pg rn zt)) }
{
    Word { bits: 0xc460_8000 }
        .number(msz, 23)
        .reg(zm, 16)
        .flag(u, 14)
        .flag(ff, 13)
        .pred_low(pg, 10)
        .reg(rn, 5)
        .reg(zt, 0)
        .bits
}

/// The instruction of `GatherSv` that a word is.
#[tactic(auto, unfolding(sve_insn::specs::Memory::gather_sv))]
#[inline(always)]
pub fn gather_sv(w: u32) -> Option<Sve>
    ensures { seen result ≡ row_in gather_sv w }
{
    if w & 0xfe60_8000 != 0x8420_8000 {
        return None;
    }
    Sve::new(SveForm::GatherSv {
        msz: U::at(w, 23),
        imm5: U::at(w, 16),
        u: flag(w, 14),
        ff: flag(w, 13),
        pg: PredLow::at(w, 10),
        zn: Reg::at(w, 5),
        zt: Reg::at(w, 0),
    })
}

/// The word of `GatherSv` with these fields.
#[tactic(auto, unfolding(sve_insn::specs::Memory::gather_sv))]
pub fn gather_sv_bits(
    msz: U<2>,
    imm5: U<5>,
    u: bool,
    ff: bool,
    pg: PredLow,
    zn: Reg,
    zt: Reg,
) -> u32
    ensures table { result ≡ encode (row_of (GatherSv msz imm5 u ff pg zn zt)) }
    ensures shape { IsShape (row_of (GatherSv msz imm5 u ff pg zn zt)) }
{
    Word { bits: 0x8420_8000 }
        .number(msz, 23)
        .number(imm5, 16)
        .flag(u, 14)
        .flag(ff, 13)
        .pred_low(pg, 10)
        .reg(zn, 5)
        .reg(zt, 0)
        .bits
}

/// The instruction of `GatherDv` that a word is.
#[tactic(auto, unfolding(sve_insn::specs::Memory::gather_dv))]
#[inline(always)]
pub fn gather_dv(w: u32) -> Option<Sve>
    ensures { seen result ≡ row_in gather_dv w }
{
    if w & 0xfe60_8000 != 0xc420_8000 {
        return None;
    }
    Sve::new(SveForm::GatherDv {
        msz: U::at(w, 23),
        imm5: U::at(w, 16),
        u: flag(w, 14),
        ff: flag(w, 13),
        pg: PredLow::at(w, 10),
        zn: Reg::at(w, 5),
        zt: Reg::at(w, 0),
    })
}

/// The word of `GatherDv` with these fields.
#[tactic(auto, unfolding(sve_insn::specs::Memory::gather_dv))]
pub fn gather_dv_bits(
    msz: U<2>,
    imm5: U<5>,
    u: bool,
    ff: bool,
    pg: PredLow,
    zn: Reg,
    zt: Reg,
) -> u32
    ensures table { result ≡ encode (row_of (GatherDv msz imm5 u ff pg zn zt)) }
    ensures shape { IsShape (row_of (GatherDv msz imm5 u ff pg zn zt)) }
{
    Word { bits: 0xc420_8000 }
        .number(msz, 23)
        .number(imm5, 16)
        .flag(u, 14)
        .flag(ff, 13)
        .pred_low(pg, 10)
        .reg(zn, 5)
        .reg(zt, 0)
        .bits
}
