//! Words of operations lane by lane, read and made.
ghost use Rattle.std.specs.Prelude.{◌≡◌};
ghost use Rattle.emu_bits.specs.Rows.{encode, row_in};
ghost use Rattle.emu_bits.specs.RowLaws.{IsShape};
ghost use Rattle.sve_insn.specs.declared.form.SveForm.TheVariants.{
  Binary,
  BinaryWide,
  ShiftImm,
  Unary,
  MulAddZ,
  MulAddD,
  Plain,
  LogicZ,
  PlainWide,
  PlainShift,
  Index,
  PrefixP,
  Prefix,
  Dot,
  DotIndexed,
};
ghost use Rattle.sve_insn.specs.Lanes.{
  binary,
  binary_wide,
  shift_imm,
  unary,
  mul_add_z,
  mul_add_d,
  plain,
  logic_z,
  plain_wide,
  plain_shift,
  index_z,
  prefix_p,
  prefix,
  dot,
  dot_indexed,
};
ghost use Rattle.sve_insn.specs.Rows.{row_of};
ghost use Rattle.sve_insn.specs.Seen.{seen};

use emu_bits::{PredLow, Reg, U, Word, flag};
use sve_insn::lane_words::{
    binary_op, binary_wide_op, binary_wide_word, binary_word, dot_indexed_op, dot_indexed_word,
    dot_op, dot_word, index_z_op, index_z_word, logic_z_op, logic_z_word, mul_add_d_op,
    mul_add_d_word, mul_add_z_op, mul_add_z_word, plain_op, plain_shift_op, plain_shift_word,
    plain_wide_op, plain_wide_word, plain_word, shift_imm_op, shift_imm_word, unary_op, unary_word,
};
use sve_insn::{
    BinaryOp, DotIndexedOp, DotOp, IndexOp, LogicZOp, MulAddDOp, MulAddZOp, PlainOp, ShiftImmOp,
    ShiftOp, Sve, SveForm, UnaryOp,
};

/// The instruction of `Binary` that a word is.
#[tactic(auto, unfolding(sve_insn::specs::Lanes::binary))]
#[inline(always)]
pub fn binary(w: u32) -> Option<Sve>
    ensures { seen result ≡ row_in binary w }
{
    let op = binary_op(w & 0xff3f_e000)?;
    Sve::new(SveForm::Binary {
        op,
        size: U::at(w, 22),
        pg: PredLow::at(w, 10),
        zm: Reg::at(w, 5),
        zdn: Reg::at(w, 0),
    })
}

/// The word of `Binary` with these fields.
#[tactic(auto, unfolding(sve_insn::specs::Lanes::binary))]
pub fn binary_bits(op: BinaryOp, size: U<2>, pg: PredLow, zm: Reg, zdn: Reg) -> u32
    ensures table { result ≡ encode (row_of (Binary op size pg zm zdn)) }
    ensures shape { IsShape (row_of (Binary op size pg zm zdn)) }
{
    binary_word(op)
        .number(size, 22)
        .pred_low(pg, 10)
        .reg(zm, 5)
        .reg(zdn, 0)
        .bits
}

/// The instruction of `BinaryWide` that a word is.
#[tactic(auto, unfolding(sve_insn::specs::Lanes::binary_wide))]
#[inline(always)]
pub fn binary_wide(w: u32) -> Option<Sve>
    ensures { seen result ≡ row_in binary_wide w }
{
    let op = binary_wide_op(w & 0xff3f_e000)?;
    Sve::new(SveForm::BinaryWide {
        op,
        size: U::at(w, 22),
        pg: PredLow::at(w, 10),
        zm: Reg::at(w, 5),
        zdn: Reg::at(w, 0),
    })
}

/// The word of `BinaryWide` with these fields.
#[tactic(auto, unfolding(sve_insn::specs::Lanes::binary_wide))]
pub fn binary_wide_bits(op: ShiftOp, size: U<2>, pg: PredLow, zm: Reg, zdn: Reg) -> u32
    ensures table { result ≡ encode (row_of (BinaryWide op size pg zm zdn)) }
    ensures shape { IsShape (row_of (BinaryWide op size pg zm zdn)) }
{
    binary_wide_word(op)
        .number(size, 22)
        .pred_low(pg, 10)
        .reg(zm, 5)
        .reg(zdn, 0)
        .bits
}

/// The instruction of `ShiftImm` that a word is.
#[tactic(auto, unfolding(sve_insn::specs::Lanes::shift_imm))]
#[inline(always)]
pub fn shift_imm(w: u32) -> Option<Sve>
    ensures { seen result ≡ row_in shift_imm w }
{
    let op = shift_imm_op(w & 0xff3f_e000)?;
    Sve::new(SveForm::ShiftImm {
        op,
        tszh: U::at(w, 22),
        pg: PredLow::at(w, 10),
        tszl: U::at(w, 8),
        imm3: U::at(w, 5),
        zdn: Reg::at(w, 0),
    })
}

/// The word of `ShiftImm` with these fields.
#[tactic(auto, unfolding(sve_insn::specs::Lanes::shift_imm))]
pub fn shift_imm_bits(
    op: ShiftImmOp,
    tszh: U<2>,
    pg: PredLow,
    tszl: U<2>,
    imm3: U<3>,
    zdn: Reg,
) -> u32
    ensures table { result ≡ encode (row_of (ShiftImm op tszh pg tszl imm3 zdn)) }
    ensures shape { IsShape (row_of (ShiftImm op tszh pg tszl imm3 zdn)) }
{
    shift_imm_word(op)
        .number(tszh, 22)
        .pred_low(pg, 10)
        .number(tszl, 8)
        .number(imm3, 5)
        .reg(zdn, 0)
        .bits
}

/// The instruction of `Unary` that a word is.
#[tactic(auto, unfolding(sve_insn::specs::Lanes::unary))]
#[inline(always)]
pub fn unary(w: u32) -> Option<Sve>
    ensures { seen result ≡ row_in unary w }
{
    let op = unary_op(w & 0xff3f_e000)?;
    Sve::new(SveForm::Unary {
        op,
        size: U::at(w, 22),
        pg: PredLow::at(w, 10),
        zn: Reg::at(w, 5),
        zd: Reg::at(w, 0),
    })
}

/// The word of `Unary` with these fields.
#[tactic(auto, unfolding(sve_insn::specs::Lanes::unary))]
pub fn unary_bits(op: UnaryOp, size: U<2>, pg: PredLow, zn: Reg, zd: Reg) -> u32
    ensures table { result ≡ encode (row_of (Unary op size pg zn zd)) }
    ensures shape { IsShape (row_of (Unary op size pg zn zd)) }
{
    unary_word(op)
        .number(size, 22)
        .pred_low(pg, 10)
        .reg(zn, 5)
        .reg(zd, 0)
        .bits
}

/// The instruction of `MulAddZ` that a word is.
#[tactic(auto, unfolding(sve_insn::specs::Lanes::mul_add_z))]
#[inline(always)]
pub fn mul_add_z(w: u32) -> Option<Sve>
    ensures { seen result ≡ row_in mul_add_z w }
{
    let op = mul_add_z_op(w & 0xff20_e000)?;
    Sve::new(SveForm::MulAddZ {
        op,
        size: U::at(w, 22),
        zm: Reg::at(w, 16),
        pg: PredLow::at(w, 10),
        zn: Reg::at(w, 5),
        zda: Reg::at(w, 0),
    })
}

/// The word of `MulAddZ` with these fields.
#[tactic(auto, unfolding(sve_insn::specs::Lanes::mul_add_z))]
pub fn mul_add_z_bits(op: MulAddZOp, size: U<2>, zm: Reg, pg: PredLow, zn: Reg, zda: Reg) -> u32
    ensures table { result ≡ encode (row_of (MulAddZ op size zm pg zn zda)) }
    ensures shape { IsShape (row_of (MulAddZ op size zm pg zn zda)) }
{
    mul_add_z_word(op)
        .number(size, 22)
        .reg(zm, 16)
        .pred_low(pg, 10)
        .reg(zn, 5)
        .reg(zda, 0)
        .bits
}

/// The instruction of `MulAddD` that a word is.
#[tactic(auto, unfolding(sve_insn::specs::Lanes::mul_add_d))]
#[inline(always)]
pub fn mul_add_d(w: u32) -> Option<Sve>
    ensures { seen result ≡ row_in mul_add_d w }
{
    let op = mul_add_d_op(w & 0xff20_e000)?;
    Sve::new(SveForm::MulAddD {
        op,
        size: U::at(w, 22),
        zm: Reg::at(w, 16),
        pg: PredLow::at(w, 10),
        za: Reg::at(w, 5),
        zdn: Reg::at(w, 0),
    })
}

/// The word of `MulAddD` with these fields.
#[tactic(auto, unfolding(sve_insn::specs::Lanes::mul_add_d))]
pub fn mul_add_d_bits(op: MulAddDOp, size: U<2>, zm: Reg, pg: PredLow, za: Reg, zdn: Reg) -> u32
    ensures table { result ≡ encode (row_of (MulAddD op size zm pg za zdn)) }
    ensures shape { IsShape (row_of (MulAddD op size zm pg za zdn)) }
{
    mul_add_d_word(op)
        .number(size, 22)
        .reg(zm, 16)
        .pred_low(pg, 10)
        .reg(za, 5)
        .reg(zdn, 0)
        .bits
}

/// The instruction of `Plain` that a word is.
#[tactic(auto, unfolding(sve_insn::specs::Lanes::plain))]
#[inline(always)]
pub fn plain(w: u32) -> Option<Sve>
    ensures { seen result ≡ row_in plain w }
{
    let op = plain_op(w & 0xff20_fc00)?;
    Sve::new(SveForm::Plain {
        op,
        size: U::at(w, 22),
        zm: Reg::at(w, 16),
        zn: Reg::at(w, 5),
        zd: Reg::at(w, 0),
    })
}

/// The word of `Plain` with these fields.
#[tactic(auto, unfolding(sve_insn::specs::Lanes::plain))]
pub fn plain_bits(op: PlainOp, size: U<2>, zm: Reg, zn: Reg, zd: Reg) -> u32
    ensures table { result ≡ encode (row_of (Plain op size zm zn zd)) }
    ensures shape { IsShape (row_of (Plain op size zm zn zd)) }
{
    plain_word(op)
        .number(size, 22)
        .reg(zm, 16)
        .reg(zn, 5)
        .reg(zd, 0)
        .bits
}

/// The instruction of `LogicZ` that a word is.
#[tactic(auto, unfolding(sve_insn::specs::Lanes::logic_z))]
#[inline(always)]
pub fn logic_z(w: u32) -> Option<Sve>
    ensures { seen result ≡ row_in logic_z w }
{
    let op = logic_z_op(w & 0xffe0_fc00)?;
    Sve::new(SveForm::LogicZ {
        op,
        zm: Reg::at(w, 16),
        zn: Reg::at(w, 5),
        zd: Reg::at(w, 0),
    })
}

/// The word of `LogicZ` with these fields.
#[tactic(auto, unfolding(sve_insn::specs::Lanes::logic_z))]
pub fn logic_z_bits(op: LogicZOp, zm: Reg, zn: Reg, zd: Reg) -> u32
    ensures table { result ≡ encode (row_of (LogicZ op zm zn zd)) }
    ensures shape { IsShape (row_of (LogicZ op zm zn zd)) }
{
    logic_z_word(op).reg(zm, 16).reg(zn, 5).reg(zd, 0).bits
}

/// The instruction of `PlainWide` that a word is.
#[tactic(auto, unfolding(sve_insn::specs::Lanes::plain_wide))]
#[inline(always)]
pub fn plain_wide(w: u32) -> Option<Sve>
    ensures { seen result ≡ row_in plain_wide w }
{
    let op = plain_wide_op(w & 0xff20_fc00)?;
    Sve::new(SveForm::PlainWide {
        op,
        size: U::at(w, 22),
        zm: Reg::at(w, 16),
        zn: Reg::at(w, 5),
        zd: Reg::at(w, 0),
    })
}

/// The word of `PlainWide` with these fields.
#[tactic(auto, unfolding(sve_insn::specs::Lanes::plain_wide))]
pub fn plain_wide_bits(op: ShiftOp, size: U<2>, zm: Reg, zn: Reg, zd: Reg) -> u32
    ensures table { result ≡ encode (row_of (PlainWide op size zm zn zd)) }
    ensures shape { IsShape (row_of (PlainWide op size zm zn zd)) }
{
    plain_wide_word(op)
        .number(size, 22)
        .reg(zm, 16)
        .reg(zn, 5)
        .reg(zd, 0)
        .bits
}

/// The instruction of `PlainShift` that a word is.
#[tactic(auto, unfolding(sve_insn::specs::Lanes::plain_shift))]
#[inline(always)]
pub fn plain_shift(w: u32) -> Option<Sve>
    ensures { seen result ≡ row_in plain_shift w }
{
    let op = plain_shift_op(w & 0xff20_fc00)?;
    Sve::new(SveForm::PlainShift {
        op,
        tszh: U::at(w, 22),
        tszl: U::at(w, 19),
        imm3: U::at(w, 16),
        zn: Reg::at(w, 5),
        zd: Reg::at(w, 0),
    })
}

/// The word of `PlainShift` with these fields.
#[tactic(auto, unfolding(sve_insn::specs::Lanes::plain_shift))]
pub fn plain_shift_bits(op: ShiftOp, tszh: U<2>, tszl: U<2>, imm3: U<3>, zn: Reg, zd: Reg) -> u32
    ensures table { result ≡ encode (row_of (PlainShift op tszh tszl imm3 zn zd)) }
    ensures shape { IsShape (row_of (PlainShift op tszh tszl imm3 zn zd)) }
{
    plain_shift_word(op)
        .number(tszh, 22)
        .number(tszl, 19)
        .number(imm3, 16)
        .reg(zn, 5)
        .reg(zd, 0)
        .bits
}

/// The instruction of `Index` that a word is.
#[tactic(auto, unfolding(sve_insn::specs::Lanes::index_z))]
#[inline(always)]
pub fn index_z(w: u32) -> Option<Sve>
    ensures { seen result ≡ row_in index_z w }
{
    let op = index_z_op(w & 0xff20_fc00)?;
    Sve::new(SveForm::Index {
        op,
        size: U::at(w, 22),
        y: U::at(w, 16),
        x: U::at(w, 5),
        zd: Reg::at(w, 0),
    })
}

/// The word of `Index` with these fields.
#[tactic(auto, unfolding(sve_insn::specs::Lanes::index_z))]
pub fn index_z_bits(op: IndexOp, size: U<2>, y: U<5>, x: U<5>, zd: Reg) -> u32
    ensures table { result ≡ encode (row_of (Index op size y x zd)) }
    ensures shape { IsShape (row_of (Index op size y x zd)) }
{
    index_z_word(op)
        .number(size, 22)
        .number(y, 16)
        .number(x, 5)
        .reg(zd, 0)
        .bits
}

/// The instruction of `PrefixP` that a word is.
#[tactic(auto, unfolding(sve_insn::specs::Lanes::prefix_p))]
#[inline(always)]
pub fn prefix_p(w: u32) -> Option<Sve>
    ensures { seen result ≡ row_in prefix_p w }
{
    if w & 0xff3e_e000 != 0x0410_2000 {
        return None;
    }
    Sve::new(SveForm::PrefixP {
        size: U::at(w, 22),
        m: flag(w, 16),
        pg: PredLow::at(w, 10),
        zn: Reg::at(w, 5),
        zd: Reg::at(w, 0),
    })
}

/// The word of `PrefixP` with these fields.
#[tactic(auto, unfolding(sve_insn::specs::Lanes::prefix_p))]
pub fn prefix_p_bits(size: U<2>, m: bool, pg: PredLow, zn: Reg, zd: Reg) -> u32
    ensures table { result ≡ encode (row_of (PrefixP size m pg zn zd)) }
    ensures shape { IsShape (row_of (PrefixP size m pg zn zd)) }
{
    Word { bits: 0x0410_2000 }
        .number(size, 22)
        .flag(m, 16)
        .pred_low(pg, 10)
        .reg(zn, 5)
        .reg(zd, 0)
        .bits
}

/// The instruction of `Prefix` that a word is.
#[tactic(auto, unfolding(sve_insn::specs::Lanes::prefix))]
#[inline(always)]
pub fn prefix(w: u32) -> Option<Sve>
    ensures { seen result ≡ row_in prefix w }
{
    if w & 0xffff_fc00 != 0x0420_bc00 {
        return None;
    }
    Sve::new(SveForm::Prefix {
        zn: Reg::at(w, 5),
        zd: Reg::at(w, 0),
    })
}

/// The word of `Prefix` with these fields.
#[tactic(auto, unfolding(sve_insn::specs::Lanes::prefix))]
pub fn prefix_bits(zn: Reg, zd: Reg) -> u32
    ensures table { result ≡ encode (row_of (Prefix zn zd)) }
    ensures shape { IsShape (row_of (Prefix zn zd)) }
{
    Word { bits: 0x0420_bc00 }.reg(zn, 5).reg(zd, 0).bits
}

/// The instruction of `Dot` that a word is.
#[tactic(auto, unfolding(sve_insn::specs::Lanes::dot))]
#[inline(always)]
pub fn dot(w: u32) -> Option<Sve>
    ensures { seen result ≡ row_in dot w }
{
    let op = dot_op(w & 0xff20_fc00)?;
    Sve::new(SveForm::Dot {
        op,
        size: U::at(w, 22),
        zm: Reg::at(w, 16),
        zn: Reg::at(w, 5),
        zda: Reg::at(w, 0),
    })
}

/// The word of `Dot` with these fields.
#[tactic(auto, unfolding(sve_insn::specs::Lanes::dot))]
pub fn dot_bits(op: DotOp, size: U<2>, zm: Reg, zn: Reg, zda: Reg) -> u32
    ensures table { result ≡ encode (row_of (Dot op size zm zn zda)) }
    ensures shape { IsShape (row_of (Dot op size zm zn zda)) }
{
    dot_word(op)
        .number(size, 22)
        .reg(zm, 16)
        .reg(zn, 5)
        .reg(zda, 0)
        .bits
}

/// The instruction of `DotIndexed` that a word is.
#[tactic(auto, unfolding(sve_insn::specs::Lanes::dot_indexed))]
#[inline(always)]
pub fn dot_indexed(w: u32) -> Option<Sve>
    ensures { seen result ≡ row_in dot_indexed w }
{
    let op = dot_indexed_op(w & 0xffe0_fc00)?;
    Sve::new(SveForm::DotIndexed {
        op,
        i_zm: U::at(w, 16),
        zn: Reg::at(w, 5),
        zda: Reg::at(w, 0),
    })
}

/// The word of `DotIndexed` with these fields.
#[tactic(auto, unfolding(sve_insn::specs::Lanes::dot_indexed))]
pub fn dot_indexed_bits(op: DotIndexedOp, i_zm: U<5>, zn: Reg, zda: Reg) -> u32
    ensures table { result ≡ encode (row_of (DotIndexed op i_zm zn zda)) }
    ensures shape { IsShape (row_of (DotIndexed op i_zm zn zda)) }
{
    dot_indexed_word(op)
        .number(i_zm, 16)
        .reg(zn, 5)
        .reg(zda, 0)
        .bits
}
