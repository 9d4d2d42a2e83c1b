//! Words of permutes and selections of lanes, read and made.
ghost use Rattle.std.specs.Prelude.{◌≡◌};
ghost use Rattle.emu_bits.specs.Rows.{encode, row_in};
ghost use Rattle.emu_bits.specs.RowLaws.{IsShape};
ghost use Rattle.sve_insn.specs.declared.form.SveForm.TheVariants.{
  SelectZ,
  DupReg,
  DupLane,
  Insert,
  RevZ,
  Unpack,
  Table,
  Interleave,
  InterleaveP,
  UnpackP,
  RevP,
  Compact,
  Splice,
  Ext,
  CopyReg,
  Last,
  CondLast,
};
ghost use Rattle.sve_insn.specs.Lanes.{select_z};
ghost use Rattle.sve_insn.specs.Folds.{
  dup_reg,
  dup_lane,
  insert_scalar,
  rev_z,
  unpack,
  table_lookup,
  interleave,
  interleave_p,
  unpack_p,
  rev_p,
  compact,
  splice,
  ext,
  copy_reg,
  last_active,
  cond_last,
};
ghost use Rattle.sve_insn.specs.Rows.{row_of};
ghost use Rattle.sve_insn.specs.Seen.{seen};

use emu_bits::{Pred, PredLow, Reg, U, Word};
use sve_insn::fold_words::{
    cond_last_op, cond_last_word, copy_reg_op, copy_reg_word, insert_scalar_op, insert_scalar_word,
    interleave_op, interleave_p_op, interleave_p_word, interleave_word, last_active_op,
    last_active_word, unpack_op, unpack_p_op, unpack_p_word, unpack_word,
};
use sve_insn::{
    CondLastOp, CopyRegOp, InsertOp, InterleaveOp, LastOp, Sve, SveForm, UnpackOp, UnpackPOp,
};

/// The instruction of `SelectZ` that a word is.
#[tactic(auto, unfolding(sve_insn::specs::Lanes::select_z))]
#[inline(always)]
pub fn select_z(w: u32) -> Option<Sve>
    ensures { seen result ≡ row_in select_z w }
{
    if w & 0xff20_c000 != 0x0520_c000 {
        return None;
    }
    Sve::new(SveForm::SelectZ {
        size: U::at(w, 22),
        zm: Reg::at(w, 16),
        pg: Pred::at(w, 10),
        zn: Reg::at(w, 5),
        zd: Reg::at(w, 0),
    })
}

/// The word of `SelectZ` with these fields.
#[tactic(auto, unfolding(sve_insn::specs::Lanes::select_z))]
pub fn select_z_bits(size: U<2>, zm: Reg, pg: Pred, zn: Reg, zd: Reg) -> u32
    ensures table { result ≡ encode (row_of (SelectZ size zm pg zn zd)) }
    ensures shape { IsShape (row_of (SelectZ size zm pg zn zd)) }
{
    Word { bits: 0x0520_c000 }
        .number(size, 22)
        .reg(zm, 16)
        .pred(pg, 10)
        .reg(zn, 5)
        .reg(zd, 0)
        .bits
}

/// The instruction of `DupReg` that a word is.
#[tactic(auto, unfolding(sve_insn::specs::Folds::dup_reg))]
#[inline(always)]
pub fn dup_reg(w: u32) -> Option<Sve>
    ensures { seen result ≡ row_in dup_reg w }
{
    if w & 0xff3f_fc00 != 0x0520_3800 {
        return None;
    }
    Sve::new(SveForm::DupReg {
        size: U::at(w, 22),
        rn: Reg::at(w, 5),
        zd: Reg::at(w, 0),
    })
}

/// The word of `DupReg` with these fields.
#[tactic(auto, unfolding(sve_insn::specs::Folds::dup_reg))]
pub fn dup_reg_bits(size: U<2>, rn: Reg, zd: Reg) -> u32
    ensures table { result ≡ encode (row_of (DupReg size rn zd)) }
    ensures shape { IsShape (row_of (DupReg size rn zd)) }
{
    Word { bits: 0x0520_3800 }
        .number(size, 22)
        .reg(rn, 5)
        .reg(zd, 0)
        .bits
}

/// The instruction of `DupLane` that a word is.
#[tactic(auto, unfolding(sve_insn::specs::Folds::dup_lane))]
#[inline(always)]
pub fn dup_lane(w: u32) -> Option<Sve>
    ensures { seen result ≡ row_in dup_lane w }
{
    if w & 0xff20_fc00 != 0x0520_2000 {
        return None;
    }
    Sve::new(SveForm::DupLane {
        imm2: U::at(w, 22),
        tsz: U::at(w, 16),
        zn: Reg::at(w, 5),
        zd: Reg::at(w, 0),
    })
}

/// The word of `DupLane` with these fields.
#[tactic(auto, unfolding(sve_insn::specs::Folds::dup_lane))]
pub fn dup_lane_bits(imm2: U<2>, tsz: U<5>, zn: Reg, zd: Reg) -> u32
    ensures table { result ≡ encode (row_of (DupLane imm2 tsz zn zd)) }
    ensures shape { IsShape (row_of (DupLane imm2 tsz zn zd)) }
{
    Word { bits: 0x0520_2000 }
        .number(imm2, 22)
        .number(tsz, 16)
        .reg(zn, 5)
        .reg(zd, 0)
        .bits
}

/// The instruction of `Insert` that a word is.
#[tactic(auto, unfolding(sve_insn::specs::Folds::insert_scalar))]
#[inline(always)]
pub fn insert_scalar(w: u32) -> Option<Sve>
    ensures { seen result ≡ row_in insert_scalar w }
{
    let op = insert_scalar_op(w & 0xff3f_fc00)?;
    Sve::new(SveForm::Insert {
        op,
        size: U::at(w, 22),
        src: Reg::at(w, 5),
        zdn: Reg::at(w, 0),
    })
}

/// The word of `Insert` with these fields.
#[tactic(auto, unfolding(sve_insn::specs::Folds::insert_scalar))]
pub fn insert_scalar_bits(op: InsertOp, size: U<2>, src: Reg, zdn: Reg) -> u32
    ensures table { result ≡ encode (row_of (Insert op size src zdn)) }
    ensures shape { IsShape (row_of (Insert op size src zdn)) }
{
    insert_scalar_word(op)
        .number(size, 22)
        .reg(src, 5)
        .reg(zdn, 0)
        .bits
}

/// The instruction of `RevZ` that a word is.
#[tactic(auto, unfolding(sve_insn::specs::Folds::rev_z))]
#[inline(always)]
pub fn rev_z(w: u32) -> Option<Sve>
    ensures { seen result ≡ row_in rev_z w }
{
    if w & 0xff3f_fc00 != 0x0538_3800 {
        return None;
    }
    Sve::new(SveForm::RevZ {
        size: U::at(w, 22),
        zn: Reg::at(w, 5),
        zd: Reg::at(w, 0),
    })
}

/// The word of `RevZ` with these fields.
#[tactic(auto, unfolding(sve_insn::specs::Folds::rev_z))]
pub fn rev_z_bits(size: U<2>, zn: Reg, zd: Reg) -> u32
    ensures table { result ≡ encode (row_of (RevZ size zn zd)) }
    ensures shape { IsShape (row_of (RevZ size zn zd)) }
{
    Word { bits: 0x0538_3800 }
        .number(size, 22)
        .reg(zn, 5)
        .reg(zd, 0)
        .bits
}

/// The instruction of `Unpack` that a word is.
#[tactic(auto, unfolding(sve_insn::specs::Folds::unpack))]
#[inline(always)]
pub fn unpack(w: u32) -> Option<Sve>
    ensures { seen result ≡ row_in unpack w }
{
    let op = unpack_op(w & 0xff3f_fc00)?;
    Sve::new(SveForm::Unpack {
        op,
        size: U::at(w, 22),
        zn: Reg::at(w, 5),
        zd: Reg::at(w, 0),
    })
}

/// The word of `Unpack` with these fields.
#[tactic(auto, unfolding(sve_insn::specs::Folds::unpack))]
pub fn unpack_bits(op: UnpackOp, size: U<2>, zn: Reg, zd: Reg) -> u32
    ensures table { result ≡ encode (row_of (Unpack op size zn zd)) }
    ensures shape { IsShape (row_of (Unpack op size zn zd)) }
{
    unpack_word(op).number(size, 22).reg(zn, 5).reg(zd, 0).bits
}

/// The instruction of `Table` that a word is.
#[tactic(auto, unfolding(sve_insn::specs::Folds::table_lookup))]
#[inline(always)]
pub fn table_lookup(w: u32) -> Option<Sve>
    ensures { seen result ≡ row_in table_lookup w }
{
    if w & 0xff20_fc00 != 0x0520_3000 {
        return None;
    }
    Sve::new(SveForm::Table {
        size: U::at(w, 22),
        zm: Reg::at(w, 16),
        zn: Reg::at(w, 5),
        zd: Reg::at(w, 0),
    })
}

/// The word of `Table` with these fields.
#[tactic(auto, unfolding(sve_insn::specs::Folds::table_lookup))]
pub fn table_lookup_bits(size: U<2>, zm: Reg, zn: Reg, zd: Reg) -> u32
    ensures table { result ≡ encode (row_of (Table size zm zn zd)) }
    ensures shape { IsShape (row_of (Table size zm zn zd)) }
{
    Word { bits: 0x0520_3000 }
        .number(size, 22)
        .reg(zm, 16)
        .reg(zn, 5)
        .reg(zd, 0)
        .bits
}

/// The instruction of `Interleave` that a word is.
#[tactic(auto, unfolding(sve_insn::specs::Folds::interleave))]
#[inline(always)]
pub fn interleave(w: u32) -> Option<Sve>
    ensures { seen result ≡ row_in interleave w }
{
    let op = interleave_op(w & 0xff20_fc00)?;
    Sve::new(SveForm::Interleave {
        op,
        size: U::at(w, 22),
        zm: Reg::at(w, 16),
        zn: Reg::at(w, 5),
        zd: Reg::at(w, 0),
    })
}

/// The word of `Interleave` with these fields.
#[tactic(auto, unfolding(sve_insn::specs::Folds::interleave))]
pub fn interleave_bits(op: InterleaveOp, size: U<2>, zm: Reg, zn: Reg, zd: Reg) -> u32
    ensures table { result ≡ encode (row_of (Interleave op size zm zn zd)) }
    ensures shape { IsShape (row_of (Interleave op size zm zn zd)) }
{
    interleave_word(op)
        .number(size, 22)
        .reg(zm, 16)
        .reg(zn, 5)
        .reg(zd, 0)
        .bits
}

/// The instruction of `InterleaveP` that a word is.
#[tactic(auto, unfolding(sve_insn::specs::Folds::interleave_p))]
#[inline(always)]
pub fn interleave_p(w: u32) -> Option<Sve>
    ensures { seen result ≡ row_in interleave_p w }
{
    let op = interleave_p_op(w & 0xff30_fe10)?;
    Sve::new(SveForm::InterleaveP {
        op,
        size: U::at(w, 22),
        pm: Pred::at(w, 16),
        pn: Pred::at(w, 5),
        pd: Pred::at(w, 0),
    })
}

/// The word of `InterleaveP` with these fields.
#[tactic(auto, unfolding(sve_insn::specs::Folds::interleave_p))]
pub fn interleave_p_bits(op: InterleaveOp, size: U<2>, pm: Pred, pn: Pred, pd: Pred) -> u32
    ensures table { result ≡ encode (row_of (InterleaveP op size pm pn pd)) }
    ensures shape { IsShape (row_of (InterleaveP op size pm pn pd)) }
{
    interleave_p_word(op)
        .number(size, 22)
        .pred(pm, 16)
        .pred(pn, 5)
        .pred(pd, 0)
        .bits
}

/// The instruction of `UnpackP` that a word is.
#[tactic(auto, unfolding(sve_insn::specs::Folds::unpack_p))]
#[inline(always)]
pub fn unpack_p(w: u32) -> Option<Sve>
    ensures { seen result ≡ row_in unpack_p w }
{
    let op = unpack_p_op(w & 0xffff_fe10)?;
    Sve::new(SveForm::UnpackP {
        op,
        pn: Pred::at(w, 5),
        pd: Pred::at(w, 0),
    })
}

/// The word of `UnpackP` with these fields.
#[tactic(auto, unfolding(sve_insn::specs::Folds::unpack_p))]
pub fn unpack_p_bits(op: UnpackPOp, pn: Pred, pd: Pred) -> u32
    ensures table { result ≡ encode (row_of (UnpackP op pn pd)) }
    ensures shape { IsShape (row_of (UnpackP op pn pd)) }
{
    unpack_p_word(op).pred(pn, 5).pred(pd, 0).bits
}

/// The instruction of `RevP` that a word is.
#[tactic(auto, unfolding(sve_insn::specs::Folds::rev_p))]
#[inline(always)]
pub fn rev_p(w: u32) -> Option<Sve>
    ensures { seen result ≡ row_in rev_p w }
{
    if w & 0xff3f_fe10 != 0x0534_4000 {
        return None;
    }
    Sve::new(SveForm::RevP {
        size: U::at(w, 22),
        pn: Pred::at(w, 5),
        pd: Pred::at(w, 0),
    })
}

/// The word of `RevP` with these fields.
#[tactic(auto, unfolding(sve_insn::specs::Folds::rev_p))]
pub fn rev_p_bits(size: U<2>, pn: Pred, pd: Pred) -> u32
    ensures table { result ≡ encode (row_of (RevP size pn pd)) }
    ensures shape { IsShape (row_of (RevP size pn pd)) }
{
    Word { bits: 0x0534_4000 }
        .number(size, 22)
        .pred(pn, 5)
        .pred(pd, 0)
        .bits
}

/// The instruction of `Compact` that a word is.
#[tactic(auto, unfolding(sve_insn::specs::Folds::compact))]
#[inline(always)]
pub fn compact(w: u32) -> Option<Sve>
    ensures { seen result ≡ row_in compact w }
{
    if w & 0xff3f_e000 != 0x0521_8000 {
        return None;
    }
    Sve::new(SveForm::Compact {
        size: U::at(w, 22),
        pg: PredLow::at(w, 10),
        zn: Reg::at(w, 5),
        zd: Reg::at(w, 0),
    })
}

/// The word of `Compact` with these fields.
#[tactic(auto, unfolding(sve_insn::specs::Folds::compact))]
pub fn compact_bits(size: U<2>, pg: PredLow, zn: Reg, zd: Reg) -> u32
    ensures table { result ≡ encode (row_of (Compact size pg zn zd)) }
    ensures shape { IsShape (row_of (Compact size pg zn zd)) }
{
    Word { bits: 0x0521_8000 }
        .number(size, 22)
        .pred_low(pg, 10)
        .reg(zn, 5)
        .reg(zd, 0)
        .bits
}

/// The instruction of `Splice` that a word is.
#[tactic(auto, unfolding(sve_insn::specs::Folds::splice))]
#[inline(always)]
pub fn splice(w: u32) -> Option<Sve>
    ensures { seen result ≡ row_in splice w }
{
    if w & 0xff3f_e000 != 0x052c_8000 {
        return None;
    }
    Sve::new(SveForm::Splice {
        size: U::at(w, 22),
        pg: PredLow::at(w, 10),
        zm: Reg::at(w, 5),
        zdn: Reg::at(w, 0),
    })
}

/// The word of `Splice` with these fields.
#[tactic(auto, unfolding(sve_insn::specs::Folds::splice))]
pub fn splice_bits(size: U<2>, pg: PredLow, zm: Reg, zdn: Reg) -> u32
    ensures table { result ≡ encode (row_of (Splice size pg zm zdn)) }
    ensures shape { IsShape (row_of (Splice size pg zm zdn)) }
{
    Word { bits: 0x052c_8000 }
        .number(size, 22)
        .pred_low(pg, 10)
        .reg(zm, 5)
        .reg(zdn, 0)
        .bits
}

/// The instruction of `Ext` that a word is.
#[tactic(auto, unfolding(sve_insn::specs::Folds::ext))]
#[inline(always)]
pub fn ext(w: u32) -> Option<Sve>
    ensures { seen result ≡ row_in ext w }
{
    if w & 0xffe0_e000 != 0x0520_0000 {
        return None;
    }
    Sve::new(SveForm::Ext {
        imm8h: U::at(w, 16),
        imm8l: U::at(w, 10),
        zm: Reg::at(w, 5),
        zdn: Reg::at(w, 0),
    })
}

/// The word of `Ext` with these fields.
#[tactic(auto, unfolding(sve_insn::specs::Folds::ext))]
pub fn ext_bits(imm8h: U<5>, imm8l: U<3>, zm: Reg, zdn: Reg) -> u32
    ensures table { result ≡ encode (row_of (Ext imm8h imm8l zm zdn)) }
    ensures shape { IsShape (row_of (Ext imm8h imm8l zm zdn)) }
{
    Word { bits: 0x0520_0000 }
        .number(imm8h, 16)
        .number(imm8l, 10)
        .reg(zm, 5)
        .reg(zdn, 0)
        .bits
}

/// The instruction of `CopyReg` that a word is.
#[tactic(auto, unfolding(sve_insn::specs::Folds::copy_reg))]
#[inline(always)]
pub fn copy_reg(w: u32) -> Option<Sve>
    ensures { seen result ≡ row_in copy_reg w }
{
    let op = copy_reg_op(w & 0xff3f_e000)?;
    Sve::new(SveForm::CopyReg {
        op,
        size: U::at(w, 22),
        pg: PredLow::at(w, 10),
        rn: Reg::at(w, 5),
        zd: Reg::at(w, 0),
    })
}

/// The word of `CopyReg` with these fields.
#[tactic(auto, unfolding(sve_insn::specs::Folds::copy_reg))]
pub fn copy_reg_bits(op: CopyRegOp, size: U<2>, pg: PredLow, rn: Reg, zd: Reg) -> u32
    ensures table { result ≡ encode (row_of (CopyReg op size pg rn zd)) }
    ensures shape { IsShape (row_of (CopyReg op size pg rn zd)) }
{
    copy_reg_word(op)
        .number(size, 22)
        .pred_low(pg, 10)
        .reg(rn, 5)
        .reg(zd, 0)
        .bits
}

/// The instruction of `Last` that a word is.
#[tactic(auto, unfolding(sve_insn::specs::Folds::last_active))]
#[inline(always)]
pub fn last_active(w: u32) -> Option<Sve>
    ensures { seen result ≡ row_in last_active w }
{
    let op = last_active_op(w & 0xff3f_e000)?;
    Sve::new(SveForm::Last {
        op,
        size: U::at(w, 22),
        pg: PredLow::at(w, 10),
        zn: Reg::at(w, 5),
        rd: Reg::at(w, 0),
    })
}

/// The word of `Last` with these fields.
#[tactic(auto, unfolding(sve_insn::specs::Folds::last_active))]
pub fn last_active_bits(op: LastOp, size: U<2>, pg: PredLow, zn: Reg, rd: Reg) -> u32
    ensures table { result ≡ encode (row_of (Last op size pg zn rd)) }
    ensures shape { IsShape (row_of (Last op size pg zn rd)) }
{
    last_active_word(op)
        .number(size, 22)
        .pred_low(pg, 10)
        .reg(zn, 5)
        .reg(rd, 0)
        .bits
}

/// The instruction of `CondLast` that a word is.
#[tactic(auto, unfolding(sve_insn::specs::Folds::cond_last))]
#[inline(always)]
pub fn cond_last(w: u32) -> Option<Sve>
    ensures { seen result ≡ row_in cond_last w }
{
    let op = cond_last_op(w & 0xff3f_e000)?;
    Sve::new(SveForm::CondLast {
        op,
        size: U::at(w, 22),
        pg: PredLow::at(w, 10),
        zm: Reg::at(w, 5),
        zdn: Reg::at(w, 0),
    })
}

/// The word of `CondLast` with these fields.
#[tactic(auto, unfolding(sve_insn::specs::Folds::cond_last))]
pub fn cond_last_bits(op: CondLastOp, size: U<2>, pg: PredLow, zm: Reg, zdn: Reg) -> u32
    ensures table { result ≡ encode (row_of (CondLast op size pg zm zdn)) }
    ensures shape { IsShape (row_of (CondLast op size pg zm zdn)) }
{
    cond_last_word(op)
        .number(size, 22)
        .pred_low(pg, 10)
        .reg(zm, 5)
        .reg(zdn, 0)
        .bits
}
