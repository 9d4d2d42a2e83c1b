//! Words of scatters, read and made.
ghost use Rattle.std.specs.Prelude.{◌≡◌};
ghost use Rattle.emu_bits.specs.Rows.{encode, row_in};
ghost use Rattle.emu_bits.specs.RowLaws.{IsShape};
ghost use Rattle.sve_insn.specs.declared.form.SveForm.TheVariants.{
  ScatterSx,
  ScatterSxScaled,
  ScatterDx,
  ScatterDxScaled,
  ScatterD,
  ScatterDScaled,
  ScatterSv,
  ScatterDv,
};
ghost use Rattle.sve_insn.specs.Memory.{
  scatter_sx,
  scatter_sx_scaled,
  scatter_dx,
  scatter_dx_scaled,
  scatter_d,
  scatter_d_scaled,
  scatter_sv,
  scatter_dv,
};
ghost use Rattle.sve_insn.specs.Rows.{row_of};
ghost use Rattle.sve_insn.specs.Seen.{seen};

use emu_bits::{PredLow, Reg, U, Word, flag};
use sve_insn::{Sve, SveForm};

/// The instruction of `ScatterSx` that a word is.
#[tactic(auto, unfolding(sve_insn::specs::Memory::scatter_sx))]
#[inline(always)]
pub fn scatter_sx(w: u32) -> Option<Sve>
    ensures { seen result ≡ row_in scatter_sx w }
{
    if w & 0xfe60_a000 != 0xe440_8000 {
        return None;
    }
    Sve::new(SveForm::ScatterSx {
        msz: U::at(w, 23),
        zm: Reg::at(w, 16),
        xs: flag(w, 14),
        pg: PredLow::at(w, 10),
        rn: Reg::at(w, 5),
        zt: Reg::at(w, 0),
    })
}

/// The word of `ScatterSx` with these fields.
#[tactic(auto, unfolding(sve_insn::specs::Memory::scatter_sx))]
pub fn scatter_sx_bits(msz: U<2>, zm: Reg, xs: bool, pg: PredLow, rn: Reg, zt: Reg) -> u32
    ensures table { result ≡ encode (row_of (ScatterSx msz zm xs pg rn zt)) }
    ensures shape { IsShape (row_of (ScatterSx msz zm xs pg rn zt)) }
{
    Word { bits: 0xe440_8000 }
        .number(msz, 23)
        .reg(zm, 16)
        .flag(xs, 14)
        .pred_low(pg, 10)
        .reg(rn, 5)
        .reg(zt, 0)
        .bits
}

/// The instruction of `ScatterSxScaled` that a word is.
#[tactic(auto, unfolding(sve_insn::specs::Memory::scatter_sx_scaled))]
#[inline(always)]
pub fn scatter_sx_scaled(w: u32) -> Option<Sve>
    ensures { seen result ≡ row_in scatter_sx_scaled w }
{
    if w & 0xfe60_a000 != 0xe460_8000 {
        return None;
    }
    Sve::new(SveForm::ScatterSxScaled {
        msz: U::at(w, 23),
        zm: Reg::at(w, 16),
        xs: flag(w, 14),
        pg: PredLow::at(w, 10),
        rn: Reg::at(w, 5),
        zt: Reg::at(w, 0),
    })
}

/// The word of `ScatterSxScaled` with these fields.
#[tactic(auto, unfolding(sve_insn::specs::Memory::scatter_sx_scaled))]
pub fn scatter_sx_scaled_bits(msz: U<2>, zm: Reg, xs: bool, pg: PredLow, rn: Reg, zt: Reg) -> u32
    ensures table { result ≡ encode (row_of (ScatterSxScaled msz zm xs pg rn zt)) }
    ensures shape { IsShape (row_of (ScatterSxScaled msz zm xs pg rn zt)) }
{
    Word { bits: 0xe460_8000 }
        .number(msz, 23)
        .reg(zm, 16)
        .flag(xs, 14)
        .pred_low(pg, 10)
        .reg(rn, 5)
        .reg(zt, 0)
        .bits
}

/// The instruction of `ScatterDx` that a word is.
#[tactic(auto, unfolding(sve_insn::specs::Memory::scatter_dx))]
#[inline(always)]
pub fn scatter_dx(w: u32) -> Option<Sve>
    ensures { seen result ≡ row_in scatter_dx w }
{
    if w & 0xfe60_a000 != 0xe400_8000 {
        return None;
    }
    Sve::new(SveForm::ScatterDx {
        msz: U::at(w, 23),
        zm: Reg::at(w, 16),
        xs: flag(w, 14),
        pg: PredLow::at(w, 10),
        rn: Reg::at(w, 5),
        zt: Reg::at(w, 0),
    })
}

/// The word of `ScatterDx` with these fields.
#[tactic(auto, unfolding(sve_insn::specs::Memory::scatter_dx))]
pub fn scatter_dx_bits(msz: U<2>, zm: Reg, xs: bool, pg: PredLow, rn: Reg, zt: Reg) -> u32
    ensures table { result ≡ encode (row_of (ScatterDx msz zm xs pg rn zt)) }
    ensures shape { IsShape (row_of (ScatterDx msz zm xs pg rn zt)) }
{
    Word { bits: 0xe400_8000 }
        .number(msz, 23)
        .reg(zm, 16)
        .flag(xs, 14)
        .pred_low(pg, 10)
        .reg(rn, 5)
        .reg(zt, 0)
        .bits
}

/// The instruction of `ScatterDxScaled` that a word is.
#[tactic(auto, unfolding(sve_insn::specs::Memory::scatter_dx_scaled))]
#[inline(always)]
pub fn scatter_dx_scaled(w: u32) -> Option<Sve>
    ensures { seen result ≡ row_in scatter_dx_scaled w }
{
    if w & 0xfe60_a000 != 0xe420_8000 {
        return None;
    }
    Sve::new(SveForm::ScatterDxScaled {
        msz: U::at(w, 23),
        zm: Reg::at(w, 16),
        xs: flag(w, 14),
        pg: PredLow::at(w, 10),
        rn: Reg::at(w, 5),
        zt: Reg::at(w, 0),
    })
}

/// The word of `ScatterDxScaled` with these fields.
#[tactic(auto, unfolding(sve_insn::specs::Memory::scatter_dx_scaled))]
pub fn scatter_dx_scaled_bits(msz: U<2>, zm: Reg, xs: bool, pg: PredLow, rn: Reg, zt: Reg) -> u32
    ensures table { result ≡ encode (row_of (ScatterDxScaled msz zm xs pg rn zt)) }
    ensures shape { IsShape (row_of (ScatterDxScaled msz zm xs pg rn zt)) }
{
    Word { bits: 0xe420_8000 }
        .number(msz, 23)
        .reg(zm, 16)
        .flag(xs, 14)
        .pred_low(pg, 10)
        .reg(rn, 5)
        .reg(zt, 0)
        .bits
}

/// The instruction of `ScatterD` that a word is.
#[tactic(auto, unfolding(sve_insn::specs::Memory::scatter_d))]
#[inline(always)]
pub fn scatter_d(w: u32) -> Option<Sve>
    ensures { seen result ≡ row_in scatter_d w }
{
    if w & 0xfe60_e000 != 0xe400_a000 {
        return None;
    }
    Sve::new(SveForm::ScatterD {
        msz: U::at(w, 23),
        zm: Reg::at(w, 16),
        pg: PredLow::at(w, 10),
        rn: Reg::at(w, 5),
        zt: Reg::at(w, 0),
    })
}

/// The word of `ScatterD` with these fields.
#[tactic(auto, unfolding(sve_insn::specs::Memory::scatter_d))]
pub fn scatter_d_bits(msz: U<2>, zm: Reg, pg: PredLow, rn: Reg, zt: Reg) -> u32
    ensures table { result ≡ encode (row_of (ScatterD msz zm pg rn zt)) }
    ensures shape { IsShape (row_of (ScatterD msz zm pg rn zt)) }
{
    Word { bits: 0xe400_a000 }
        .number(msz, 23)
        .reg(zm, 16)
        .pred_low(pg, 10)
        .reg(rn, 5)
        .reg(zt, 0)
        .bits
}

/// The instruction of `ScatterDScaled` that a word is.
#[tactic(auto, unfolding(sve_insn::specs::Memory::scatter_d_scaled))]
#[inline(always)]
pub fn scatter_d_scaled(w: u32) -> Option<Sve>
    ensures { seen result ≡ row_in scatter_d_scaled w }
{
    if w & 0xfe60_e000 != 0xe420_a000 {
        return None;
    }
    Sve::new(SveForm::ScatterDScaled {
        msz: U::at(w, 23),
        zm: Reg::at(w, 16),
        pg: PredLow::at(w, 10),
        rn: Reg::at(w, 5),
        zt: Reg::at(w, 0),
    })
}

/// The word of `ScatterDScaled` with these fields.
#[tactic(auto, unfolding(sve_insn::specs::Memory::scatter_d_scaled))]
pub fn scatter_d_scaled_bits(msz: U<2>, zm: Reg, pg: PredLow, rn: Reg, zt: Reg) -> u32
    ensures table { result ≡ encode (row_of (ScatterDScaled msz zm pg rn zt)) }
    ensures shape { IsShape (row_of (ScatterDScaled msz zm pg rn zt)) }
{
    Word { bits: 0xe420_a000 }
        .number(msz, 23)
        .reg(zm, 16)
        .pred_low(pg, 10)
        .reg(rn, 5)
        .reg(zt, 0)
        .bits
}

/// The instruction of `ScatterSv` that a word is.
#[tactic(auto, unfolding(sve_insn::specs::Memory::scatter_sv))]
#[inline(always)]
pub fn scatter_sv(w: u32) -> Option<Sve>
    ensures { seen result ≡ row_in scatter_sv w }
{
    if w & 0xfe60_e000 != 0xe460_a000 {
        return None;
    }
    Sve::new(SveForm::ScatterSv {
        msz: U::at(w, 23),
        imm5: U::at(w, 16),
        pg: PredLow::at(w, 10),
        zn: Reg::at(w, 5),
        zt: Reg::at(w, 0),
    })
}

/// The word of `ScatterSv` with these fields.
#[tactic(auto, unfolding(sve_insn::specs::Memory::scatter_sv))]
pub fn scatter_sv_bits(msz: U<2>, imm5: U<5>, pg: PredLow, zn: Reg, zt: Reg) -> u32
    ensures table { result ≡ encode (row_of (ScatterSv msz imm5 pg zn zt)) }
    ensures shape { IsShape (row_of (ScatterSv msz imm5 pg zn zt)) }
{
    Word { bits: 0xe460_a000 }
        .number(msz, 23)
        .number(imm5, 16)
        .pred_low(pg, 10)
        .reg(zn, 5)
        .reg(zt, 0)
        .bits
}

/// The instruction of `ScatterDv` that a word is.
#[tactic(auto, unfolding(sve_insn::specs::Memory::scatter_dv))]
#[inline(always)]
pub fn scatter_dv(w: u32) -> Option<Sve>
    ensures { seen result ≡ row_in scatter_dv w }
{
    if w & 0xfe60_e000 != 0xe440_a000 {
        return None;
    }
    Sve::new(SveForm::ScatterDv {
        msz: U::at(w, 23),
        imm5: U::at(w, 16),
        pg: PredLow::at(w, 10),
        zn: Reg::at(w, 5),
        zt: Reg::at(w, 0),
    })
}

/// The word of `ScatterDv` with these fields.
#[tactic(auto, unfolding(sve_insn::specs::Memory::scatter_dv))]
pub fn scatter_dv_bits(msz: U<2>, imm5: U<5>, pg: PredLow, zn: Reg, zt: Reg) -> u32
    ensures table { result ≡ encode (row_of (ScatterDv msz imm5 pg zn zt)) }
    ensures shape { IsShape (row_of (ScatterDv msz imm5 pg zn zt)) }
{
    Word { bits: 0xe440_a000 }
        .number(msz, 23)
        .number(imm5, 16)
        .pred_low(pg, 10)
        .reg(zn, 5)
        .reg(zt, 0)
        .bits
}
