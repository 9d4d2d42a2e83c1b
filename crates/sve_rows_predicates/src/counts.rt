//! Words of counts of predicates, read and made.
ghost use Rattle.std.specs.Prelude.{◌≡◌};
ghost use Rattle.emu_bits.specs.Rows.{encode, row_in};
ghost use Rattle.emu_bits.specs.RowLaws.{IsShape};
ghost use Rattle.sve_insn.specs.declared.form.SveForm.TheVariants.{CountP, IncP, IncPZ};
ghost use Rattle.sve_insn.specs.Predicates.{count_p, inc_p, inc_p_z};
ghost use Rattle.sve_insn.specs.Rows.{row_of};
ghost use Rattle.sve_insn.specs.Seen.{seen};

use crate::base_words::{inc_p_op, inc_p_word, inc_p_z_op, inc_p_z_word};
use emu_bits::{Pred, Reg, U, Word};
use sve_insn::{IncPOp, Sve, SveForm};

/// The instruction of `CountP` that a word is.
#[tactic(auto, unfolding(sve_insn::specs::Predicates::count_p))]
#[inline(always)]
pub fn count_p(w: u32) -> Option<Sve>
    ensures { seen result ≡ row_in count_p w }
{
    if w & 0xff3f_c200 != 0x2520_8000 {
        return None;
    }
    Sve::new(SveForm::CountP {
        size: U::at(w, 22),
        pg: Pred::at(w, 10),
        pn: Pred::at(w, 5),
        rd: Reg::at(w, 0),
    })
}

/// The word of `CountP` with these fields.
#[tactic(auto, unfolding(sve_insn::specs::Predicates::count_p))]
pub fn count_p_bits(size: U<2>, pg: Pred, pn: Pred, rd: Reg) -> u32
    ensures table { result ≡ encode (row_of (CountP size pg pn rd)) }
    ensures shape { IsShape (row_of (CountP size pg pn rd)) }
{
    Word { bits: 0x2520_8000 }
        .number(size, 22)
        .pred(pg, 10)
        .pred(pn, 5)
        .reg(rd, 0)
        .bits
}

/// The instruction of `IncP` that a word is.
#[tactic(auto, unfolding(sve_insn::specs::Predicates::inc_p))]
#[inline(always)]
pub fn inc_p(w: u32) -> Option<Sve>
    ensures { seen result ≡ row_in inc_p w }
{
    let op = inc_p_op(w & 0xff3f_fe00)?;
    Sve::new(SveForm::IncP {
        op,
        size: U::at(w, 22),
        pm: Pred::at(w, 5),
        rdn: Reg::at(w, 0),
    })
}

/// The word of `IncP` with these fields.
#[tactic(auto, unfolding(sve_insn::specs::Predicates::inc_p))]
pub fn inc_p_bits(op: IncPOp, size: U<2>, pm: Pred, rdn: Reg) -> u32
    ensures table { result ≡ encode (row_of (IncP op size pm rdn)) }
    ensures shape { IsShape (row_of (IncP op size pm rdn)) }
{
    inc_p_word(op).number(size, 22).pred(pm, 5).reg(rdn, 0).bits
}

/// The instruction of `IncPZ` that a word is.
#[tactic(auto, unfolding(sve_insn::specs::Predicates::inc_p_z))]
#[inline(always)]
pub fn inc_p_z(w: u32) -> Option<Sve>
    ensures { seen result ≡ row_in inc_p_z w }
{
    let op = inc_p_z_op(w & 0xff3f_fe00)?;
    Sve::new(SveForm::IncPZ {
        op,
        size: U::at(w, 22),
        pm: Pred::at(w, 5),
        zdn: Reg::at(w, 0),
    })
}

/// The word of `IncPZ` with these fields.
#[tactic(auto, unfolding(sve_insn::specs::Predicates::inc_p_z))]
pub fn inc_p_z_bits(op: IncPOp, size: U<2>, pm: Pred, zdn: Reg) -> u32
    ensures table { result ≡ encode (row_of (IncPZ op size pm zdn)) }
    ensures shape { IsShape (row_of (IncPZ op size pm zdn)) }
{
    inc_p_z_word(op)
        .number(size, 22)
        .pred(pm, 5)
        .reg(zdn, 0)
        .bits
}
