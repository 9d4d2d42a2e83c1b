//! Words of bitmask immediates and of copied immediates, read and made.
ghost use Rattle.std.specs.Prelude.{◌≡◌};
ghost use Rattle.emu_bits.specs.Rows.{encode, row_in};
ghost use Rattle.emu_bits.specs.RowLaws.{IsShape};
ghost use Rattle.sve_insn.specs.declared.form.SveForm.TheVariants.{BitmaskZ, CopyImm};
ghost use Rattle.sve_insn.specs.Lanes.{bitmask_z, copy_imm};
ghost use Rattle.sve_insn.specs.Rows.{row_of};
ghost use Rattle.sve_insn.specs.Seen.{seen};

use emu_bits::{Pred, Reg, U, Word, flag};
use sve_insn::lane_words::{bitmask_z_op, bitmask_z_word};
use sve_insn::{BitmaskZOp, Sve, SveForm};

/// The instruction of `BitmaskZ` that a word is.
#[tactic(auto, unfolding(sve_insn::specs::Lanes::bitmask_z))]
#[inline(always)]
pub fn bitmask_z(w: u32) -> Option<Sve>
    ensures { seen result ≡ row_in bitmask_z w }
{
    let op = bitmask_z_op(w & 0xfffc_0000)?;
    Sve::new(SveForm::BitmaskZ {
        op,
        n: flag(w, 17),
        immr: U::at(w, 11),
        imms: U::at(w, 5),
        zdn: Reg::at(w, 0),
    })
}

/// The word of `BitmaskZ` with these fields.
#[tactic(auto, unfolding(sve_insn::specs::Lanes::bitmask_z))]
pub fn bitmask_z_bits(op: BitmaskZOp, n: bool, immr: U<6>, imms: U<6>, zdn: Reg) -> u32
    ensures table { result ≡ encode (row_of (BitmaskZ op n immr imms zdn)) }
    ensures shape { IsShape (row_of (BitmaskZ op n immr imms zdn)) }
{
    bitmask_z_word(op)
        .flag(n, 17)
        .number(immr, 11)
        .number(imms, 5)
        .reg(zdn, 0)
        .bits
}

/// The instruction of `CopyImm` that a word is.
#[tactic(auto, unfolding(sve_insn::specs::Lanes::copy_imm))]
#[inline(always)]
pub fn copy_imm(w: u32) -> Option<Sve>
    ensures { seen result ≡ row_in copy_imm w }
{
    if w & 0xff30_8000 != 0x0510_0000 {
        return None;
    }
    Sve::new(SveForm::CopyImm {
        size: U::at(w, 22),
        pg: Pred::at(w, 16),
        m: flag(w, 14),
        sh: flag(w, 13),
        imm8: U::at(w, 5),
        zd: Reg::at(w, 0),
    })
}

/// The word of `CopyImm` with these fields.
#[tactic(auto, unfolding(sve_insn::specs::Lanes::copy_imm))]
pub fn copy_imm_bits(size: U<2>, pg: Pred, m: bool, sh: bool, imm8: U<8>, zd: Reg) -> u32
    ensures table { result ≡ encode (row_of (CopyImm size pg m sh imm8 zd)) }
    ensures shape { IsShape (row_of (CopyImm size pg m sh imm8 zd)) }
{
    Word { bits: 0x0510_0000 }
        .number(size, 22)
        .pred(pg, 16)
        .flag(m, 14)
        .flag(sh, 13)
        .number(imm8, 5)
        .reg(zd, 0)
        .bits
}
