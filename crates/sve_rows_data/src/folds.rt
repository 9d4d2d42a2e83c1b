//! Words of folds and counts, read and made.
ghost use Rattle.std.specs.Prelude.{◌≡◌};
ghost use Rattle.emu_bits.specs.Rows.{encode, row_in};
ghost use Rattle.emu_bits.specs.RowLaws.{IsShape};
ghost use Rattle.sve_insn.specs.declared.form.SveForm.TheVariants.{
  Reduce,
  Count,
  IncX,
  IncZ,
  SatX,
  SatZ,
  AddLength,
  ReadLength,
};
ghost use Rattle.sve_insn.specs.Folds.{reduce, count_elements, inc_x, inc_z, sat_x, sat_z, add_length, read_length};
ghost use Rattle.sve_insn.specs.Rows.{row_of};
ghost use Rattle.sve_insn.specs.Seen.{seen};

use emu_bits::{PredLow, Reg, U, Word, flag};
use sve_insn::fold_words::{
    add_length_op, add_length_word, inc_x_op, inc_x_word, inc_z_op, inc_z_word, reduce_op,
    reduce_word, sat_x_op, sat_x_word, sat_z_op, sat_z_word,
};
use sve_insn::{AddLengthOp, IncOp, ReduceOp, SatOp, Sve, SveForm};

/// The instruction of `Reduce` that a word is.
#[tactic(auto, unfolding(sve_insn::specs::Folds::reduce))]
#[inline(always)]
pub fn reduce(w: u32) -> Option<Sve>
    ensures { seen result ≡ row_in reduce w }
{
    let op = reduce_op(w & 0xff3f_e000)?;
    Sve::new(SveForm::Reduce {
        op,
        size: U::at(w, 22),
        pg: PredLow::at(w, 10),
        zn: Reg::at(w, 5),
        vd: Reg::at(w, 0),
    })
}

/// The word of `Reduce` with these fields.
#[tactic(auto, unfolding(sve_insn::specs::Folds::reduce))]
pub fn reduce_bits(op: ReduceOp, size: U<2>, pg: PredLow, zn: Reg, vd: Reg) -> u32
    ensures table { result ≡ encode (row_of (Reduce op size pg zn vd)) }
    ensures shape { IsShape (row_of (Reduce op size pg zn vd)) }
{
    reduce_word(op)
        .number(size, 22)
        .pred_low(pg, 10)
        .reg(zn, 5)
        .reg(vd, 0)
        .bits
}

/// The instruction of `Count` that a word is.
#[tactic(auto, unfolding(sve_insn::specs::Folds::count_elements))]
#[inline(always)]
pub fn count_elements(w: u32) -> Option<Sve>
    ensures { seen result ≡ row_in count_elements w }
{
    if w & 0xff30_fc00 != 0x0420_e000 {
        return None;
    }
    Sve::new(SveForm::Count {
        size: U::at(w, 22),
        imm4: U::at(w, 16),
        pattern: U::at(w, 5),
        rd: Reg::at(w, 0),
    })
}

/// The word of `Count` with these fields.
#[tactic(auto, unfolding(sve_insn::specs::Folds::count_elements))]
pub fn count_elements_bits(size: U<2>, imm4: U<4>, pattern: U<5>, rd: Reg) -> u32
    ensures table { result ≡ encode (row_of (Count size imm4 pattern rd)) }
    ensures shape { IsShape (row_of (Count size imm4 pattern rd)) }
{
    Word { bits: 0x0420_e000 }
        .number(size, 22)
        .number(imm4, 16)
        .number(pattern, 5)
        .reg(rd, 0)
        .bits
}

/// The instruction of `IncX` that a word is.
#[tactic(auto, unfolding(sve_insn::specs::Folds::inc_x))]
#[inline(always)]
pub fn inc_x(w: u32) -> Option<Sve>
    ensures { seen result ≡ row_in inc_x w }
{
    let op = inc_x_op(w & 0xff30_fc00)?;
    Sve::new(SveForm::IncX {
        op,
        size: U::at(w, 22),
        imm4: U::at(w, 16),
        pattern: U::at(w, 5),
        rdn: Reg::at(w, 0),
    })
}

/// The word of `IncX` with these fields.
#[tactic(auto, unfolding(sve_insn::specs::Folds::inc_x))]
pub fn inc_x_bits(op: IncOp, size: U<2>, imm4: U<4>, pattern: U<5>, rdn: Reg) -> u32
    ensures table { result ≡ encode (row_of (IncX op size imm4 pattern rdn)) }
    ensures shape { IsShape (row_of (IncX op size imm4 pattern rdn)) }
{
    inc_x_word(op)
        .number(size, 22)
        .number(imm4, 16)
        .number(pattern, 5)
        .reg(rdn, 0)
        .bits
}

/// The instruction of `IncZ` that a word is.
#[tactic(auto, unfolding(sve_insn::specs::Folds::inc_z))]
#[inline(always)]
pub fn inc_z(w: u32) -> Option<Sve>
    ensures { seen result ≡ row_in inc_z w }
{
    let op = inc_z_op(w & 0xff30_fc00)?;
    Sve::new(SveForm::IncZ {
        op,
        size: U::at(w, 22),
        imm4: U::at(w, 16),
        pattern: U::at(w, 5),
        zdn: Reg::at(w, 0),
    })
}

/// The word of `IncZ` with these fields.
#[tactic(auto, unfolding(sve_insn::specs::Folds::inc_z))]
pub fn inc_z_bits(op: IncOp, size: U<2>, imm4: U<4>, pattern: U<5>, zdn: Reg) -> u32
    ensures table { result ≡ encode (row_of (IncZ op size imm4 pattern zdn)) }
    ensures shape { IsShape (row_of (IncZ op size imm4 pattern zdn)) }
{
    inc_z_word(op)
        .number(size, 22)
        .number(imm4, 16)
        .number(pattern, 5)
        .reg(zdn, 0)
        .bits
}

/// The instruction of `SatX` that a word is.
#[tactic(auto, unfolding(sve_insn::specs::Folds::sat_x))]
#[inline(always)]
pub fn sat_x(w: u32) -> Option<Sve>
    ensures { seen result ≡ row_in sat_x w }
{
    let op = sat_x_op(w & 0xff20_fc00)?;
    Sve::new(SveForm::SatX {
        op,
        size: U::at(w, 22),
        sf: flag(w, 20),
        imm4: U::at(w, 16),
        pattern: U::at(w, 5),
        rdn: Reg::at(w, 0),
    })
}

/// The word of `SatX` with these fields.
#[tactic(auto, unfolding(sve_insn::specs::Folds::sat_x))]
pub fn sat_x_bits(op: SatOp, size: U<2>, sf: bool, imm4: U<4>, pattern: U<5>, rdn: Reg) -> u32
    ensures table { result ≡ encode (row_of (SatX op size sf imm4 pattern rdn)) }
    ensures shape { IsShape (row_of (SatX op size sf imm4 pattern rdn)) }
{
    sat_x_word(op)
        .number(size, 22)
        .flag(sf, 20)
        .number(imm4, 16)
        .number(pattern, 5)
        .reg(rdn, 0)
        .bits
}

/// The instruction of `SatZ` that a word is.
#[tactic(auto, unfolding(sve_insn::specs::Folds::sat_z))]
#[inline(always)]
pub fn sat_z(w: u32) -> Option<Sve>
    ensures { seen result ≡ row_in sat_z w }
{
    let op = sat_z_op(w & 0xff30_fc00)?;
    Sve::new(SveForm::SatZ {
        op,
        size: U::at(w, 22),
        imm4: U::at(w, 16),
        pattern: U::at(w, 5),
        zdn: Reg::at(w, 0),
    })
}

/// The word of `SatZ` with these fields.
#[tactic(auto, unfolding(sve_insn::specs::Folds::sat_z))]
pub fn sat_z_bits(op: SatOp, size: U<2>, imm4: U<4>, pattern: U<5>, zdn: Reg) -> u32
    ensures table { result ≡ encode (row_of (SatZ op size imm4 pattern zdn)) }
    ensures shape { IsShape (row_of (SatZ op size imm4 pattern zdn)) }
{
    sat_z_word(op)
        .number(size, 22)
        .number(imm4, 16)
        .number(pattern, 5)
        .reg(zdn, 0)
        .bits
}

/// The instruction of `AddLength` that a word is.
#[tactic(auto, unfolding(sve_insn::specs::Folds::add_length))]
#[inline(always)]
pub fn add_length(w: u32) -> Option<Sve>
    ensures { seen result ≡ row_in add_length w }
{
    let op = add_length_op(w & 0xffe0_f800)?;
    Sve::new(SveForm::AddLength {
        op,
        rn: Reg::at(w, 16),
        imm6: U::at(w, 5),
        rd: Reg::at(w, 0),
    })
}

/// The word of `AddLength` with these fields.
#[tactic(auto, unfolding(sve_insn::specs::Folds::add_length))]
pub fn add_length_bits(op: AddLengthOp, rn: Reg, imm6: U<6>, rd: Reg) -> u32
    ensures table { result ≡ encode (row_of (AddLength op rn imm6 rd)) }
    ensures shape { IsShape (row_of (AddLength op rn imm6 rd)) }
{
    add_length_word(op)
        .reg(rn, 16)
        .number(imm6, 5)
        .reg(rd, 0)
        .bits
}

/// The instruction of `ReadLength` that a word is.
#[tactic(auto, unfolding(sve_insn::specs::Folds::read_length))]
#[inline(always)]
pub fn read_length(w: u32) -> Option<Sve>
    ensures { seen result ≡ row_in read_length w }
{
    if w & 0xffff_f800 != 0x04bf_5000 {
        return None;
    }
    Sve::new(SveForm::ReadLength {
        imm6: U::at(w, 5),
        rd: Reg::at(w, 0),
    })
}

/// The word of `ReadLength` with these fields.
#[tactic(auto, unfolding(sve_insn::specs::Folds::read_length))]
pub fn read_length_bits(imm6: U<6>, rd: Reg) -> u32
    ensures table { result ≡ encode (row_of (ReadLength imm6 rd)) }
    ensures shape { IsShape (row_of (ReadLength imm6 rd)) }
{
    Word { bits: 0x04bf_5000 }.number(imm6, 5).reg(rd, 0).bits
}
