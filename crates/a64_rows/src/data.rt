//! Words of data processing, read and made.
ghost use Rattle.std.specs.Prelude.{◌≡◌};
ghost use Rattle.emu_bits.specs.Rows.{encode, row_in};
ghost use Rattle.emu_bits.specs.RowLaws.{IsShape};
ghost use Rattle.a64_insn.specs.declared.form.A64Form.TheVariants.{
  Adr,
  AddImm,
  LogicImm,
  MoveWide,
  Bitfield,
  Extract,
  LogicReg,
  AddReg,
  AddExt,
  AddCarry,
  CondReg,
  CondImm,
  Select,
  MulAdd,
  MulLong,
  MulHigh,
  TwoSource,
  OneSource,
  Rev,
};
ghost use Rattle.a64_insn.specs.Data.{
  adr,
  add_imm,
  logic_imm,
  move_wide,
  bitfield,
  extract,
  logic_reg,
  add_reg,
  add_ext,
  add_carry,
  cond_reg,
  cond_imm,
  select,
  mul_add,
  mul_long,
  mul_high,
  two_source,
  one_source,
  rev,
};
ghost use Rattle.a64_insn.specs.Rows.{row_of};
ghost use Rattle.a64_rows_memory.specs.Seen.{seen};

use a64_insn::data_words::{
    add_carry_op, add_carry_word, add_ext_op, add_ext_word, add_imm_op, add_imm_word, add_reg_op,
    add_reg_word, adr_op, adr_word, bitfield_op, bitfield_word, cond_imm_op, cond_imm_word,
    cond_reg_op, cond_reg_word, logic_imm_op, logic_imm_word, logic_reg_op, logic_reg_word,
    move_wide_op, move_wide_word, mul_add_op, mul_add_word, mul_high_op, mul_high_word,
    mul_long_op, mul_long_word, one_source_op, one_source_word, rev_op, rev_word, select_op,
    select_word, two_source_op, two_source_word,
};
use a64_insn::{
    A64, A64Form, AddCarryOp, AddOp, AdrOp, BitfieldOp, CondCompareOp, LogicImmOp, LogicRegOp,
    MoveWideOp, MulAddOp, MulHighOp, MulLongOp, OneSourceOp, RevOp, SelectOp, TwoSourceOp,
};
use emu_bits::{Reg, U, Word, flag};

/// The instruction of `Adr` that a word is.
#[tactic(auto, unfolding(a64_insn::specs::Data::adr))]
pub fn adr(w: u32) -> Option<A64>
    ensures { seen result ≡ row_in adr w }
{
    let op = adr_op(w & 0x9f00_0000)?;
    A64::new(A64Form::Adr {
        op,
        immlo: U::at(w, 29),
        immhi: U::at(w, 5),
        rd: Reg::at(w, 0),
    })
}

/// The word of `Adr` with these fields.
#[tactic(auto, unfolding(a64_insn::specs::Data::adr))]
pub fn adr_bits(op: AdrOp, immlo: U<2>, immhi: U<19>, rd: Reg) -> u32
    ensures table { result ≡ encode (row_of (Adr op immlo immhi rd)) }
    ensures shape { IsShape (row_of (Adr op immlo immhi rd)) }
{
    adr_word(op)
        .number(immlo, 29)
        .number(immhi, 5)
        .reg(rd, 0)
        .bits
}

/// The instruction of `AddImm` that a word is.
#[tactic(auto, unfolding(a64_insn::specs::Data::add_imm))]
pub fn add_imm(w: u32) -> Option<A64>
    ensures { seen result ≡ row_in add_imm w }
{
    let op = add_imm_op(w & 0x7f80_0000)?;
    A64::new(A64Form::AddImm {
        op,
        sf: flag(w, 31),
        sh: flag(w, 22),
        imm12: U::at(w, 10),
        rn: Reg::at(w, 5),
        rd: Reg::at(w, 0),
    })
}

/// The word of `AddImm` with these fields.
#[tactic(auto, unfolding(a64_insn::specs::Data::add_imm))]
pub fn add_imm_bits(op: AddOp, sf: bool, sh: bool, imm12: U<12>, rn: Reg, rd: Reg) -> u32
    ensures table { result ≡ encode (row_of (AddImm op sf sh imm12 rn rd)) }
    ensures shape { IsShape (row_of (AddImm op sf sh imm12 rn rd)) }
{
    add_imm_word(op)
        .flag(sf, 31)
        .flag(sh, 22)
        .number(imm12, 10)
        .reg(rn, 5)
        .reg(rd, 0)
        .bits
}

/// The instruction of `LogicImm` that a word is.
#[tactic(auto, unfolding(a64_insn::specs::Data::logic_imm))]
pub fn logic_imm(w: u32) -> Option<A64>
    ensures { seen result ≡ row_in logic_imm w }
{
    let op = logic_imm_op(w & 0x7f80_0000)?;
    A64::new(A64Form::LogicImm {
        op,
        sf: flag(w, 31),
        n: flag(w, 22),
        immr: U::at(w, 16),
        imms: U::at(w, 10),
        rn: Reg::at(w, 5),
        rd: Reg::at(w, 0),
    })
}

/// The word of `LogicImm` with these fields.
#[tactic(auto, unfolding(a64_insn::specs::Data::logic_imm))]
pub fn logic_imm_bits(
    op: LogicImmOp,
    sf: bool,
    n: bool,
    immr: U<6>,
    imms: U<6>,
    rn: Reg,
    rd: Reg,
) -> u32
    ensures table { result ≡ encode (row_of (LogicImm op sf n immr imms rn rd)) }
    ensures shape { IsShape (row_of (LogicImm op sf n immr imms rn rd)) }
{
    logic_imm_word(op)
        .flag(sf, 31)
        .flag(n, 22)
        .number(immr, 16)
        .number(imms, 10)
        .reg(rn, 5)
        .reg(rd, 0)
        .bits
}

/// The instruction of `MoveWide` that a word is.
#[tactic(auto, unfolding(a64_insn::specs::Data::move_wide))]
pub fn move_wide(w: u32) -> Option<A64>
    ensures { seen result ≡ row_in move_wide w }
{
    let op = move_wide_op(w & 0x7f80_0000)?;
    A64::new(A64Form::MoveWide {
        op,
        sf: flag(w, 31),
        hw: U::at(w, 21),
        imm16: U::at(w, 5),
        rd: Reg::at(w, 0),
    })
}

/// The word of `MoveWide` with these fields.
#[tactic(auto, unfolding(a64_insn::specs::Data::move_wide))]
pub fn move_wide_bits(op: MoveWideOp, sf: bool, hw: U<2>, imm16: U<16>, rd: Reg) -> u32
    ensures table { result ≡ encode (row_of (MoveWide op sf hw imm16 rd)) }
    ensures shape { IsShape (row_of (MoveWide op sf hw imm16 rd)) }
{
    move_wide_word(op)
        .flag(sf, 31)
        .number(hw, 21)
        .number(imm16, 5)
        .reg(rd, 0)
        .bits
}

/// The instruction of `Bitfield` that a word is.
#[tactic(auto, unfolding(a64_insn::specs::Data::bitfield))]
pub fn bitfield(w: u32) -> Option<A64>
    ensures { seen result ≡ row_in bitfield w }
{
    let op = bitfield_op(w & 0x7f80_0000)?;
    A64::new(A64Form::Bitfield {
        op,
        sf: flag(w, 31),
        n: flag(w, 22),
        r: U::at(w, 16),
        s: U::at(w, 10),
        rn: Reg::at(w, 5),
        rd: Reg::at(w, 0),
    })
}

/// The word of `Bitfield` with these fields.
#[tactic(auto, unfolding(a64_insn::specs::Data::bitfield))]
pub fn bitfield_bits(op: BitfieldOp, sf: bool, n: bool, r: U<6>, s: U<6>, rn: Reg, rd: Reg) -> u32
    ensures table { result ≡ encode (row_of (Bitfield op sf n r s rn rd)) }
    ensures shape { IsShape (row_of (Bitfield op sf n r s rn rd)) }
{
    bitfield_word(op)
        .flag(sf, 31)
        .flag(n, 22)
        .number(r, 16)
        .number(s, 10)
        .reg(rn, 5)
        .reg(rd, 0)
        .bits
}

/// The instruction of `Extract` that a word is.
#[tactic(auto, unfolding(a64_insn::specs::Data::extract))]
pub fn extract(w: u32) -> Option<A64>
    ensures { seen result ≡ row_in extract w }
{
    if w & 0x7fa0_0000 != 0x1380_0000 {
        return None;
    }
    A64::new(A64Form::Extract {
        sf: flag(w, 31),
        n: flag(w, 22),
        rm: Reg::at(w, 16),
        s: U::at(w, 10),
        rn: Reg::at(w, 5),
        rd: Reg::at(w, 0),
    })
}

/// The word of `Extract` with these fields.
#[tactic(auto, unfolding(a64_insn::specs::Data::extract))]
pub fn extract_bits(sf: bool, n: bool, rm: Reg, s: U<6>, rn: Reg, rd: Reg) -> u32
    ensures table { result ≡ encode (row_of (Extract sf n rm s rn rd)) }
    ensures shape { IsShape (row_of (Extract sf n rm s rn rd)) }
{
    Word { bits: 0x1380_0000 }
        .flag(sf, 31)
        .flag(n, 22)
        .reg(rm, 16)
        .number(s, 10)
        .reg(rn, 5)
        .reg(rd, 0)
        .bits
}

/// The instruction of `LogicReg` that a word is.
#[tactic(auto, unfolding(a64_insn::specs::Data::logic_reg))]
pub fn logic_reg(w: u32) -> Option<A64>
    ensures { seen result ≡ row_in logic_reg w }
{
    let op = logic_reg_op(w & 0x7f20_0000)?;
    A64::new(A64Form::LogicReg {
        op,
        sf: flag(w, 31),
        shift: U::at(w, 22),
        rm: Reg::at(w, 16),
        amount: U::at(w, 10),
        rn: Reg::at(w, 5),
        rd: Reg::at(w, 0),
    })
}

/// The word of `LogicReg` with these fields.
#[tactic(auto, unfolding(a64_insn::specs::Data::logic_reg))]
pub fn logic_reg_bits(
    op: LogicRegOp,
    sf: bool,
    shift: U<2>,
    rm: Reg,
    amount: U<6>,
    rn: Reg,
    rd: Reg,
) -> u32
    ensures table { result ≡ encode (row_of (LogicReg op sf shift rm amount rn rd)) }
    ensures shape { IsShape (row_of (LogicReg op sf shift rm amount rn rd)) }
{
    logic_reg_word(op)
        .flag(sf, 31)
        .number(shift, 22)
        .reg(rm, 16)
        .number(amount, 10)
        .reg(rn, 5)
        .reg(rd, 0)
        .bits
}

/// The instruction of `AddReg` that a word is.
#[tactic(auto, unfolding(a64_insn::specs::Data::add_reg))]
pub fn add_reg(w: u32) -> Option<A64>
    ensures { seen result ≡ row_in add_reg w }
{
    let op = add_reg_op(w & 0x7f20_0000)?;
    A64::new(A64Form::AddReg {
        op,
        sf: flag(w, 31),
        shift: U::at(w, 22),
        rm: Reg::at(w, 16),
        amount: U::at(w, 10),
        rn: Reg::at(w, 5),
        rd: Reg::at(w, 0),
    })
}

/// The word of `AddReg` with these fields.
#[tactic(auto, unfolding(a64_insn::specs::Data::add_reg))]
pub fn add_reg_bits(
    op: AddOp,
    sf: bool,
    shift: U<2>,
    rm: Reg,
    amount: U<6>,
    rn: Reg,
    rd: Reg,
) -> u32
    ensures table { result ≡ encode (row_of (AddReg op sf shift rm amount rn rd)) }
    ensures shape { IsShape (row_of (AddReg op sf shift rm amount rn rd)) }
{
    add_reg_word(op)
        .flag(sf, 31)
        .number(shift, 22)
        .reg(rm, 16)
        .number(amount, 10)
        .reg(rn, 5)
        .reg(rd, 0)
        .bits
}

/// The instruction of `AddExt` that a word is.
#[tactic(auto, unfolding(a64_insn::specs::Data::add_ext))]
pub fn add_ext(w: u32) -> Option<A64>
    ensures { seen result ≡ row_in add_ext w }
{
    let op = add_ext_op(w & 0x7fe0_0000)?;
    A64::new(A64Form::AddExt {
        op,
        sf: flag(w, 31),
        rm: Reg::at(w, 16),
        ext: U::at(w, 13),
        a: U::at(w, 10),
        rn: Reg::at(w, 5),
        rd: Reg::at(w, 0),
    })
}

/// The word of `AddExt` with these fields.
#[tactic(auto, unfolding(a64_insn::specs::Data::add_ext))]
pub fn add_ext_bits(op: AddOp, sf: bool, rm: Reg, ext: U<3>, a: U<3>, rn: Reg, rd: Reg) -> u32
    ensures table { result ≡ encode (row_of (AddExt op sf rm ext a rn rd)) }
    ensures shape { IsShape (row_of (AddExt op sf rm ext a rn rd)) }
{
    add_ext_word(op)
        .flag(sf, 31)
        .reg(rm, 16)
        .number(ext, 13)
        .number(a, 10)
        .reg(rn, 5)
        .reg(rd, 0)
        .bits
}

/// The instruction of `AddCarry` that a word is.
#[tactic(auto, unfolding(a64_insn::specs::Data::add_carry))]
pub fn add_carry(w: u32) -> Option<A64>
    ensures { seen result ≡ row_in add_carry w }
{
    let op = add_carry_op(w & 0x7fe0_fc00)?;
    A64::new(A64Form::AddCarry {
        op,
        sf: flag(w, 31),
        rm: Reg::at(w, 16),
        rn: Reg::at(w, 5),
        rd: Reg::at(w, 0),
    })
}

/// The word of `AddCarry` with these fields.
#[tactic(auto, unfolding(a64_insn::specs::Data::add_carry))]
pub fn add_carry_bits(op: AddCarryOp, sf: bool, rm: Reg, rn: Reg, rd: Reg) -> u32
    ensures table { result ≡ encode (row_of (AddCarry op sf rm rn rd)) }
    ensures shape { IsShape (row_of (AddCarry op sf rm rn rd)) }
{
    add_carry_word(op)
        .flag(sf, 31)
        .reg(rm, 16)
        .reg(rn, 5)
        .reg(rd, 0)
        .bits
}

/// The instruction of `CondReg` that a word is.
#[tactic(auto, unfolding(a64_insn::specs::Data::cond_reg))]
pub fn cond_reg(w: u32) -> Option<A64>
    ensures { seen result ≡ row_in cond_reg w }
{
    let op = cond_reg_op(w & 0x7fe0_0c10)?;
    A64::new(A64Form::CondReg {
        op,
        sf: flag(w, 31),
        rm: Reg::at(w, 16),
        cond: U::at(w, 12),
        rn: Reg::at(w, 5),
        f: U::at(w, 0),
    })
}

/// The word of `CondReg` with these fields.
#[tactic(auto, unfolding(a64_insn::specs::Data::cond_reg))]
pub fn cond_reg_bits(op: CondCompareOp, sf: bool, rm: Reg, cond: U<4>, rn: Reg, f: U<4>) -> u32
    ensures table { result ≡ encode (row_of (CondReg op sf rm cond rn f)) }
    ensures shape { IsShape (row_of (CondReg op sf rm cond rn f)) }
{
    cond_reg_word(op)
        .flag(sf, 31)
        .reg(rm, 16)
        .number(cond, 12)
        .reg(rn, 5)
        .number(f, 0)
        .bits
}

/// The instruction of `CondImm` that a word is.
#[tactic(auto, unfolding(a64_insn::specs::Data::cond_imm))]
pub fn cond_imm(w: u32) -> Option<A64>
    ensures { seen result ≡ row_in cond_imm w }
{
    let op = cond_imm_op(w & 0x7fe0_0c10)?;
    A64::new(A64Form::CondImm {
        op,
        sf: flag(w, 31),
        i: U::at(w, 16),
        cond: U::at(w, 12),
        rn: Reg::at(w, 5),
        f: U::at(w, 0),
    })
}

/// The word of `CondImm` with these fields.
#[tactic(auto, unfolding(a64_insn::specs::Data::cond_imm))]
pub fn cond_imm_bits(op: CondCompareOp, sf: bool, i: U<5>, cond: U<4>, rn: Reg, f: U<4>) -> u32
    ensures table { result ≡ encode (row_of (CondImm op sf i cond rn f)) }
    ensures shape { IsShape (row_of (CondImm op sf i cond rn f)) }
{
    cond_imm_word(op)
        .flag(sf, 31)
        .number(i, 16)
        .number(cond, 12)
        .reg(rn, 5)
        .number(f, 0)
        .bits
}

/// The instruction of `Select` that a word is.
#[tactic(auto, unfolding(a64_insn::specs::Data::select))]
pub fn select(w: u32) -> Option<A64>
    ensures { seen result ≡ row_in select w }
{
    let op = select_op(w & 0x7fe0_0c00)?;
    A64::new(A64Form::Select {
        op,
        sf: flag(w, 31),
        rm: Reg::at(w, 16),
        cond: U::at(w, 12),
        rn: Reg::at(w, 5),
        rd: Reg::at(w, 0),
    })
}

/// The word of `Select` with these fields.
#[tactic(auto, unfolding(a64_insn::specs::Data::select))]
pub fn select_bits(op: SelectOp, sf: bool, rm: Reg, cond: U<4>, rn: Reg, rd: Reg) -> u32
    ensures table { result ≡ encode (row_of (Select op sf rm cond rn rd)) }
    ensures shape { IsShape (row_of (Select op sf rm cond rn rd)) }
{
    select_word(op)
        .flag(sf, 31)
        .reg(rm, 16)
        .number(cond, 12)
        .reg(rn, 5)
        .reg(rd, 0)
        .bits
}

/// The instruction of `MulAdd` that a word is.
#[tactic(auto, unfolding(a64_insn::specs::Data::mul_add))]
pub fn mul_add(w: u32) -> Option<A64>
    ensures { seen result ≡ row_in mul_add w }
{
    let op = mul_add_op(w & 0x7fe0_8000)?;
    A64::new(A64Form::MulAdd {
        op,
        sf: flag(w, 31),
        rm: Reg::at(w, 16),
        ra: Reg::at(w, 10),
        rn: Reg::at(w, 5),
        rd: Reg::at(w, 0),
    })
}

/// The word of `MulAdd` with these fields.
#[tactic(auto, unfolding(a64_insn::specs::Data::mul_add))]
pub fn mul_add_bits(op: MulAddOp, sf: bool, rm: Reg, ra: Reg, rn: Reg, rd: Reg) -> u32
    ensures table { result ≡ encode (row_of (MulAdd op sf rm ra rn rd)) }
    ensures shape { IsShape (row_of (MulAdd op sf rm ra rn rd)) }
{
    mul_add_word(op)
        .flag(sf, 31)
        .reg(rm, 16)
        .reg(ra, 10)
        .reg(rn, 5)
        .reg(rd, 0)
        .bits
}

/// The instruction of `MulLong` that a word is.
#[tactic(auto, unfolding(a64_insn::specs::Data::mul_long))]
pub fn mul_long(w: u32) -> Option<A64>
    ensures { seen result ≡ row_in mul_long w }
{
    let op = mul_long_op(w & 0xffe0_8000)?;
    A64::new(A64Form::MulLong {
        op,
        rm: Reg::at(w, 16),
        ra: Reg::at(w, 10),
        rn: Reg::at(w, 5),
        rd: Reg::at(w, 0),
    })
}

/// The word of `MulLong` with these fields.
#[tactic(auto, unfolding(a64_insn::specs::Data::mul_long))]
pub fn mul_long_bits(op: MulLongOp, rm: Reg, ra: Reg, rn: Reg, rd: Reg) -> u32
    ensures table { result ≡ encode (row_of (MulLong op rm ra rn rd)) }
    ensures shape { IsShape (row_of (MulLong op rm ra rn rd)) }
{
    mul_long_word(op)
        .reg(rm, 16)
        .reg(ra, 10)
        .reg(rn, 5)
        .reg(rd, 0)
        .bits
}

/// The instruction of `MulHigh` that a word is.
#[tactic(auto, unfolding(a64_insn::specs::Data::mul_high))]
pub fn mul_high(w: u32) -> Option<A64>
    ensures { seen result ≡ row_in mul_high w }
{
    let op = mul_high_op(w & 0xffe0_fc00)?;
    A64::new(A64Form::MulHigh {
        op,
        rm: Reg::at(w, 16),
        rn: Reg::at(w, 5),
        rd: Reg::at(w, 0),
    })
}

/// The word of `MulHigh` with these fields.
#[tactic(auto, unfolding(a64_insn::specs::Data::mul_high))]
pub fn mul_high_bits(op: MulHighOp, rm: Reg, rn: Reg, rd: Reg) -> u32
    ensures table { result ≡ encode (row_of (MulHigh op rm rn rd)) }
    ensures shape { IsShape (row_of (MulHigh op rm rn rd)) }
{
    mul_high_word(op).reg(rm, 16).reg(rn, 5).reg(rd, 0).bits
}

/// The instruction of `TwoSource` that a word is.
#[tactic(auto, unfolding(a64_insn::specs::Data::two_source))]
pub fn two_source(w: u32) -> Option<A64>
    ensures { seen result ≡ row_in two_source w }
{
    let op = two_source_op(w & 0x7fe0_fc00)?;
    A64::new(A64Form::TwoSource {
        op,
        sf: flag(w, 31),
        rm: Reg::at(w, 16),
        rn: Reg::at(w, 5),
        rd: Reg::at(w, 0),
    })
}

/// The word of `TwoSource` with these fields.
#[tactic(auto, unfolding(a64_insn::specs::Data::two_source))]
pub fn two_source_bits(op: TwoSourceOp, sf: bool, rm: Reg, rn: Reg, rd: Reg) -> u32
    ensures table { result ≡ encode (row_of (TwoSource op sf rm rn rd)) }
    ensures shape { IsShape (row_of (TwoSource op sf rm rn rd)) }
{
    two_source_word(op)
        .flag(sf, 31)
        .reg(rm, 16)
        .reg(rn, 5)
        .reg(rd, 0)
        .bits
}

/// The instruction of `OneSource` that a word is.
#[tactic(auto, unfolding(a64_insn::specs::Data::one_source))]
pub fn one_source(w: u32) -> Option<A64>
    ensures { seen result ≡ row_in one_source w }
{
    let op = one_source_op(w & 0x7fff_fc00)?;
    A64::new(A64Form::OneSource {
        op,
        sf: flag(w, 31),
        rn: Reg::at(w, 5),
        rd: Reg::at(w, 0),
    })
}

/// The word of `OneSource` with these fields.
#[tactic(auto, unfolding(a64_insn::specs::Data::one_source))]
pub fn one_source_bits(op: OneSourceOp, sf: bool, rn: Reg, rd: Reg) -> u32
    ensures table { result ≡ encode (row_of (OneSource op sf rn rd)) }
    ensures shape { IsShape (row_of (OneSource op sf rn rd)) }
{
    one_source_word(op).flag(sf, 31).reg(rn, 5).reg(rd, 0).bits
}

/// The instruction of `Rev` that a word is.
#[tactic(auto, unfolding(a64_insn::specs::Data::rev))]
pub fn rev(w: u32) -> Option<A64>
    ensures { seen result ≡ row_in rev w }
{
    let op = rev_op(w & 0xffff_fc00)?;
    A64::new(A64Form::Rev {
        op,
        rn: Reg::at(w, 5),
        rd: Reg::at(w, 0),
    })
}

/// The word of `Rev` with these fields.
#[tactic(auto, unfolding(a64_insn::specs::Data::rev))]
pub fn rev_bits(op: RevOp, rn: Reg, rd: Reg) -> u32
    ensures table { result ≡ encode (row_of (Rev op rn rd)) }
    ensures shape { IsShape (row_of (Rev op rn rd)) }
{
    rev_word(op).reg(rn, 5).reg(rd, 0).bits
}
