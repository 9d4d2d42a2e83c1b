//! The names of data processing with their base words, which have all fields 0.
ghost use Rattle.std.specs.Prelude.{◌≡◌, ◌<◌, Some, None, MatchOption, get_or, length};
ghost use Rattle.emu_bits.specs.Rows.{number_of};
ghost use Rattle.a64_insn.specs.Data.{
  adr,
  add_imm,
  logic_imm,
  move_wide,
  bitfield,
  logic_reg,
  add_reg,
  add_ext,
  add_carry,
  cond_reg,
  cond_imm,
  select,
  mul_add,
  mul_long,
  mul_high,
  two_source,
  one_source,
  rev,
};
ghost use Rattle.a64_insn.specs.Numbers.{
  add_carry_number,
  add_number,
  adr_number,
  bitfield_number,
  cond_compare_number,
  logic_imm_number,
  logic_reg_number,
  move_wide_number,
  mul_add_number,
  mul_high_number,
  mul_long_number,
  one_source_number,
  rev_number,
  select_number,
  two_source_number,
};

use crate::ops::{
    AddCarryOp, AddOp, AdrOp, BitfieldOp, CondCompareOp, LogicImmOp, LogicRegOp, MoveWideOp,
    MulAddOp, MulHighOp, MulLongOp, OneSourceOp, RevOp, SelectOp, TwoSourceOp,
};
use emu_bits::Word;

/// The name that has this base word in the line of `Adr`.
#[tactic(auto, unfolding(crate::specs::Data::adr))]
pub fn adr_op(word: u32) -> Option<AdrOp>
    ensures { MatchOption result (number_of word adr.words ≡ None)
        (λ op. number_of word adr.words ≡ Some (adr_number op)) }
{
    match word {
        0x1000_0000 => Some(AdrOp::Adr),
        0x9000_0000 => Some(AdrOp::Adrp),
        _ => None,
    }
}

/// A name's base word in the line of `Adr`.
#[tactic(auto, unfolding(crate::specs::Data::adr))]
pub fn adr_word(op: AdrOp) -> Word
    ensures bits { result.bits ≡ get_or adr.words (adr_number op) 0 }
    ensures numbered { adr_number op < length adr.words }
{
    let bits = match op {
        AdrOp::Adr => 0x1000_0000,
        AdrOp::Adrp => 0x9000_0000,
    };
    Word { bits }
}

/// The name that has this base word in the line of `AddImm`.
#[tactic(auto, unfolding(crate::specs::Data::add_imm))]
pub fn add_imm_op(word: u32) -> Option<AddOp>
    ensures { MatchOption result (number_of word add_imm.words ≡ None)
        (λ op. number_of word add_imm.words ≡ Some (add_number op)) }
{
    match word {
        0x1100_0000 => Some(AddOp::Add),
        0x3100_0000 => Some(AddOp::Adds),
        0x5100_0000 => Some(AddOp::Sub),
        0x7100_0000 => Some(AddOp::Subs),
        _ => None,
    }
}

/// A name's base word in the line of `AddImm`.
#[tactic(auto, unfolding(crate::specs::Data::add_imm))]
pub fn add_imm_word(op: AddOp) -> Word
    ensures bits { result.bits ≡ get_or add_imm.words (add_number op) 0 }
    ensures numbered { add_number op < length add_imm.words }
{
    let bits = match op {
        AddOp::Add => 0x1100_0000,
        AddOp::Adds => 0x3100_0000,
        AddOp::Sub => 0x5100_0000,
        AddOp::Subs => 0x7100_0000,
    };
    Word { bits }
}

/// The name that has this base word in the line of `LogicImm`.
#[tactic(auto, unfolding(crate::specs::Data::logic_imm))]
pub fn logic_imm_op(word: u32) -> Option<LogicImmOp>
    ensures { MatchOption result (number_of word logic_imm.words ≡ None)
        (λ op. number_of word logic_imm.words ≡ Some (logic_imm_number op)) }
{
    match word {
        0x1200_0000 => Some(LogicImmOp::And),
        0x3200_0000 => Some(LogicImmOp::Orr),
        0x5200_0000 => Some(LogicImmOp::Eor),
        0x7200_0000 => Some(LogicImmOp::Ands),
        _ => None,
    }
}

/// A name's base word in the line of `LogicImm`.
#[tactic(auto, unfolding(crate::specs::Data::logic_imm))]
pub fn logic_imm_word(op: LogicImmOp) -> Word
    ensures bits { result.bits ≡ get_or logic_imm.words (logic_imm_number op) 0 }
    ensures numbered { logic_imm_number op < length logic_imm.words }
{
    let bits = match op {
        LogicImmOp::And => 0x1200_0000,
        LogicImmOp::Orr => 0x3200_0000,
        LogicImmOp::Eor => 0x5200_0000,
        LogicImmOp::Ands => 0x7200_0000,
    };
    Word { bits }
}

/// The name that has this base word in the line of `MoveWide`.
#[tactic(auto, unfolding(crate::specs::Data::move_wide))]
pub fn move_wide_op(word: u32) -> Option<MoveWideOp>
    ensures { MatchOption result (number_of word move_wide.words ≡ None)
        (λ op. number_of word move_wide.words ≡ Some (move_wide_number op)) }
{
    match word {
        0x1280_0000 => Some(MoveWideOp::Movn),
        0x5280_0000 => Some(MoveWideOp::Movz),
        0x7280_0000 => Some(MoveWideOp::Movk),
        _ => None,
    }
}

/// A name's base word in the line of `MoveWide`.
#[tactic(auto, unfolding(crate::specs::Data::move_wide))]
pub fn move_wide_word(op: MoveWideOp) -> Word
    ensures bits { result.bits ≡ get_or move_wide.words (move_wide_number op) 0 }
    ensures numbered { move_wide_number op < length move_wide.words }
{
    let bits = match op {
        MoveWideOp::Movn => 0x1280_0000,
        MoveWideOp::Movz => 0x5280_0000,
        MoveWideOp::Movk => 0x7280_0000,
    };
    Word { bits }
}

/// The name that has this base word in the line of `Bitfield`.
#[tactic(auto, unfolding(crate::specs::Data::bitfield))]
pub fn bitfield_op(word: u32) -> Option<BitfieldOp>
    ensures { MatchOption result (number_of word bitfield.words ≡ None)
        (λ op. number_of word bitfield.words ≡ Some (bitfield_number op)) }
{
    match word {
        0x1300_0000 => Some(BitfieldOp::Sbfm),
        0x3300_0000 => Some(BitfieldOp::Bfm),
        0x5300_0000 => Some(BitfieldOp::Ubfm),
        _ => None,
    }
}

/// A name's base word in the line of `Bitfield`.
#[tactic(auto, unfolding(crate::specs::Data::bitfield))]
pub fn bitfield_word(op: BitfieldOp) -> Word
    ensures bits { result.bits ≡ get_or bitfield.words (bitfield_number op) 0 }
    ensures numbered { bitfield_number op < length bitfield.words }
{
    let bits = match op {
        BitfieldOp::Sbfm => 0x1300_0000,
        BitfieldOp::Bfm => 0x3300_0000,
        BitfieldOp::Ubfm => 0x5300_0000,
    };
    Word { bits }
}

/// The name that has this base word in the line of `LogicReg`.
#[tactic(auto, unfolding(crate::specs::Data::logic_reg))]
pub fn logic_reg_op(word: u32) -> Option<LogicRegOp>
    ensures { MatchOption result (number_of word logic_reg.words ≡ None)
        (λ op. number_of word logic_reg.words ≡ Some (logic_reg_number op)) }
{
    match word {
        0x0a00_0000 => Some(LogicRegOp::And),
        0x0a20_0000 => Some(LogicRegOp::Bic),
        0x2a00_0000 => Some(LogicRegOp::Orr),
        0x2a20_0000 => Some(LogicRegOp::Orn),
        0x4a00_0000 => Some(LogicRegOp::Eor),
        0x4a20_0000 => Some(LogicRegOp::Eon),
        0x6a00_0000 => Some(LogicRegOp::Ands),
        0x6a20_0000 => Some(LogicRegOp::Bics),
        _ => None,
    }
}

/// A name's base word in the line of `LogicReg`.
#[tactic(auto, unfolding(crate::specs::Data::logic_reg))]
pub fn logic_reg_word(op: LogicRegOp) -> Word
    ensures bits { result.bits ≡ get_or logic_reg.words (logic_reg_number op) 0 }
    ensures numbered { logic_reg_number op < length logic_reg.words }
{
    let bits = match op {
        LogicRegOp::And => 0x0a00_0000,
        LogicRegOp::Bic => 0x0a20_0000,
        LogicRegOp::Orr => 0x2a00_0000,
        LogicRegOp::Orn => 0x2a20_0000,
        LogicRegOp::Eor => 0x4a00_0000,
        LogicRegOp::Eon => 0x4a20_0000,
        LogicRegOp::Ands => 0x6a00_0000,
        LogicRegOp::Bics => 0x6a20_0000,
    };
    Word { bits }
}

/// The name that has this base word in the line of `AddReg`.
#[tactic(auto, unfolding(crate::specs::Data::add_reg))]
pub fn add_reg_op(word: u32) -> Option<AddOp>
    ensures { MatchOption result (number_of word add_reg.words ≡ None)
        (λ op. number_of word add_reg.words ≡ Some (add_number op)) }
{
    match word {
        0x0b00_0000 => Some(AddOp::Add),
        0x2b00_0000 => Some(AddOp::Adds),
        0x4b00_0000 => Some(AddOp::Sub),
        0x6b00_0000 => Some(AddOp::Subs),
        _ => None,
    }
}

/// A name's base word in the line of `AddReg`.
#[tactic(auto, unfolding(crate::specs::Data::add_reg))]
pub fn add_reg_word(op: AddOp) -> Word
    ensures bits { result.bits ≡ get_or add_reg.words (add_number op) 0 }
    ensures numbered { add_number op < length add_reg.words }
{
    let bits = match op {
        AddOp::Add => 0x0b00_0000,
        AddOp::Adds => 0x2b00_0000,
        AddOp::Sub => 0x4b00_0000,
        AddOp::Subs => 0x6b00_0000,
    };
    Word { bits }
}

/// The name that has this base word in the line of `AddExt`.
#[tactic(auto, unfolding(crate::specs::Data::add_ext))]
pub fn add_ext_op(word: u32) -> Option<AddOp>
    ensures { MatchOption result (number_of word add_ext.words ≡ None)
        (λ op. number_of word add_ext.words ≡ Some (add_number op)) }
{
    match word {
        0x0b20_0000 => Some(AddOp::Add),
        0x2b20_0000 => Some(AddOp::Adds),
        0x4b20_0000 => Some(AddOp::Sub),
        0x6b20_0000 => Some(AddOp::Subs),
        _ => None,
    }
}

/// A name's base word in the line of `AddExt`.
#[tactic(auto, unfolding(crate::specs::Data::add_ext))]
pub fn add_ext_word(op: AddOp) -> Word
    ensures bits { result.bits ≡ get_or add_ext.words (add_number op) 0 }
    ensures numbered { add_number op < length add_ext.words }
{
    let bits = match op {
        AddOp::Add => 0x0b20_0000,
        AddOp::Adds => 0x2b20_0000,
        AddOp::Sub => 0x4b20_0000,
        AddOp::Subs => 0x6b20_0000,
    };
    Word { bits }
}

/// The name that has this base word in the line of `AddCarry`.
#[tactic(auto, unfolding(crate::specs::Data::add_carry))]
pub fn add_carry_op(word: u32) -> Option<AddCarryOp>
    ensures { MatchOption result (number_of word add_carry.words ≡ None)
        (λ op. number_of word add_carry.words ≡ Some (add_carry_number op)) }
{
    match word {
        0x1a00_0000 => Some(AddCarryOp::Adc),
        0x3a00_0000 => Some(AddCarryOp::Adcs),
        0x5a00_0000 => Some(AddCarryOp::Sbc),
        0x7a00_0000 => Some(AddCarryOp::Sbcs),
        _ => None,
    }
}

/// A name's base word in the line of `AddCarry`.
#[tactic(auto, unfolding(crate::specs::Data::add_carry))]
pub fn add_carry_word(op: AddCarryOp) -> Word
    ensures bits { result.bits ≡ get_or add_carry.words (add_carry_number op) 0 }
    ensures numbered { add_carry_number op < length add_carry.words }
{
    let bits = match op {
        AddCarryOp::Adc => 0x1a00_0000,
        AddCarryOp::Adcs => 0x3a00_0000,
        AddCarryOp::Sbc => 0x5a00_0000,
        AddCarryOp::Sbcs => 0x7a00_0000,
    };
    Word { bits }
}

/// The name that has this base word in the line of `CondReg`.
#[tactic(auto, unfolding(crate::specs::Data::cond_reg))]
pub fn cond_reg_op(word: u32) -> Option<CondCompareOp>
    ensures { MatchOption result (number_of word cond_reg.words ≡ None)
        (λ op. number_of word cond_reg.words ≡ Some (cond_compare_number op)) }
{
    match word {
        0x3a40_0000 => Some(CondCompareOp::Ccmn),
        0x7a40_0000 => Some(CondCompareOp::Ccmp),
        _ => None,
    }
}

/// A name's base word in the line of `CondReg`.
#[tactic(auto, unfolding(crate::specs::Data::cond_reg))]
pub fn cond_reg_word(op: CondCompareOp) -> Word
    ensures bits { result.bits ≡ get_or cond_reg.words (cond_compare_number op) 0 }
    ensures numbered { cond_compare_number op < length cond_reg.words }
{
    let bits = match op {
        CondCompareOp::Ccmn => 0x3a40_0000,
        CondCompareOp::Ccmp => 0x7a40_0000,
    };
    Word { bits }
}

/// The name that has this base word in the line of `CondImm`.
#[tactic(auto, unfolding(crate::specs::Data::cond_imm))]
pub fn cond_imm_op(word: u32) -> Option<CondCompareOp>
    ensures { MatchOption result (number_of word cond_imm.words ≡ None)
        (λ op. number_of word cond_imm.words ≡ Some (cond_compare_number op)) }
{
    match word {
        0x3a40_0800 => Some(CondCompareOp::Ccmn),
        0x7a40_0800 => Some(CondCompareOp::Ccmp),
        _ => None,
    }
}

/// A name's base word in the line of `CondImm`.
#[tactic(auto, unfolding(crate::specs::Data::cond_imm))]
pub fn cond_imm_word(op: CondCompareOp) -> Word
    ensures bits { result.bits ≡ get_or cond_imm.words (cond_compare_number op) 0 }
    ensures numbered { cond_compare_number op < length cond_imm.words }
{
    let bits = match op {
        CondCompareOp::Ccmn => 0x3a40_0800,
        CondCompareOp::Ccmp => 0x7a40_0800,
    };
    Word { bits }
}

/// The name that has this base word in the line of `Select`.
#[tactic(auto, unfolding(crate::specs::Data::select))]
pub fn select_op(word: u32) -> Option<SelectOp>
    ensures { MatchOption result (number_of word select.words ≡ None)
        (λ op. number_of word select.words ≡ Some (select_number op)) }
{
    match word {
        0x1a80_0000 => Some(SelectOp::Csel),
        0x1a80_0400 => Some(SelectOp::Csinc),
        0x5a80_0000 => Some(SelectOp::Csinv),
        0x5a80_0400 => Some(SelectOp::Csneg),
        _ => None,
    }
}

/// A name's base word in the line of `Select`.
#[tactic(auto, unfolding(crate::specs::Data::select))]
pub fn select_word(op: SelectOp) -> Word
    ensures bits { result.bits ≡ get_or select.words (select_number op) 0 }
    ensures numbered { select_number op < length select.words }
{
    let bits = match op {
        SelectOp::Csel => 0x1a80_0000,
        SelectOp::Csinc => 0x1a80_0400,
        SelectOp::Csinv => 0x5a80_0000,
        SelectOp::Csneg => 0x5a80_0400,
    };
    Word { bits }
}

/// The name that has this base word in the line of `MulAdd`.
#[tactic(auto, unfolding(crate::specs::Data::mul_add))]
pub fn mul_add_op(word: u32) -> Option<MulAddOp>
    ensures { MatchOption result (number_of word mul_add.words ≡ None)
        (λ op. number_of word mul_add.words ≡ Some (mul_add_number op)) }
{
    match word {
        0x1b00_0000 => Some(MulAddOp::Madd),
        0x1b00_8000 => Some(MulAddOp::Msub),
        _ => None,
    }
}

/// A name's base word in the line of `MulAdd`.
#[tactic(auto, unfolding(crate::specs::Data::mul_add))]
pub fn mul_add_word(op: MulAddOp) -> Word
    ensures bits { result.bits ≡ get_or mul_add.words (mul_add_number op) 0 }
    ensures numbered { mul_add_number op < length mul_add.words }
{
    let bits = match op {
        MulAddOp::Madd => 0x1b00_0000,
        MulAddOp::Msub => 0x1b00_8000,
    };
    Word { bits }
}

/// The name that has this base word in the line of `MulLong`.
#[tactic(auto, unfolding(crate::specs::Data::mul_long))]
pub fn mul_long_op(word: u32) -> Option<MulLongOp>
    ensures { MatchOption result (number_of word mul_long.words ≡ None)
        (λ op. number_of word mul_long.words ≡ Some (mul_long_number op)) }
{
    match word {
        0x9b20_0000 => Some(MulLongOp::Smaddl),
        0x9b20_8000 => Some(MulLongOp::Smsubl),
        0x9ba0_0000 => Some(MulLongOp::Umaddl),
        0x9ba0_8000 => Some(MulLongOp::Umsubl),
        _ => None,
    }
}

/// A name's base word in the line of `MulLong`.
#[tactic(auto, unfolding(crate::specs::Data::mul_long))]
pub fn mul_long_word(op: MulLongOp) -> Word
    ensures bits { result.bits ≡ get_or mul_long.words (mul_long_number op) 0 }
    ensures numbered { mul_long_number op < length mul_long.words }
{
    let bits = match op {
        MulLongOp::Smaddl => 0x9b20_0000,
        MulLongOp::Smsubl => 0x9b20_8000,
        MulLongOp::Umaddl => 0x9ba0_0000,
        MulLongOp::Umsubl => 0x9ba0_8000,
    };
    Word { bits }
}

/// The name that has this base word in the line of `MulHigh`.
#[tactic(auto, unfolding(crate::specs::Data::mul_high))]
pub fn mul_high_op(word: u32) -> Option<MulHighOp>
    ensures { MatchOption result (number_of word mul_high.words ≡ None)
        (λ op. number_of word mul_high.words ≡ Some (mul_high_number op)) }
{
    match word {
        0x9b40_7c00 => Some(MulHighOp::Smulh),
        0x9bc0_7c00 => Some(MulHighOp::Umulh),
        _ => None,
    }
}

/// A name's base word in the line of `MulHigh`.
#[tactic(auto, unfolding(crate::specs::Data::mul_high))]
pub fn mul_high_word(op: MulHighOp) -> Word
    ensures bits { result.bits ≡ get_or mul_high.words (mul_high_number op) 0 }
    ensures numbered { mul_high_number op < length mul_high.words }
{
    let bits = match op {
        MulHighOp::Smulh => 0x9b40_7c00,
        MulHighOp::Umulh => 0x9bc0_7c00,
    };
    Word { bits }
}

/// The name that has this base word in the line of `TwoSource`.
#[tactic(auto, unfolding(crate::specs::Data::two_source))]
pub fn two_source_op(word: u32) -> Option<TwoSourceOp>
    ensures { MatchOption result (number_of word two_source.words ≡ None)
        (λ op. number_of word two_source.words ≡ Some (two_source_number op)) }
{
    match word {
        0x1ac0_0800 => Some(TwoSourceOp::Udiv),
        0x1ac0_0c00 => Some(TwoSourceOp::Sdiv),
        0x1ac0_2000 => Some(TwoSourceOp::Lslv),
        0x1ac0_2400 => Some(TwoSourceOp::Lsrv),
        0x1ac0_2800 => Some(TwoSourceOp::Asrv),
        0x1ac0_2c00 => Some(TwoSourceOp::Rorv),
        _ => None,
    }
}

/// A name's base word in the line of `TwoSource`.
#[tactic(auto, unfolding(crate::specs::Data::two_source))]
pub fn two_source_word(op: TwoSourceOp) -> Word
    ensures bits { result.bits ≡ get_or two_source.words (two_source_number op) 0 }
    ensures numbered { two_source_number op < length two_source.words }
{
    let bits = match op {
        TwoSourceOp::Udiv => 0x1ac0_0800,
        TwoSourceOp::Sdiv => 0x1ac0_0c00,
        TwoSourceOp::Lslv => 0x1ac0_2000,
        TwoSourceOp::Lsrv => 0x1ac0_2400,
        TwoSourceOp::Asrv => 0x1ac0_2800,
        TwoSourceOp::Rorv => 0x1ac0_2c00,
    };
    Word { bits }
}

/// The name that has this base word in the line of `OneSource`.
#[tactic(auto, unfolding(crate::specs::Data::one_source))]
pub fn one_source_op(word: u32) -> Option<OneSourceOp>
    ensures { MatchOption result (number_of word one_source.words ≡ None)
        (λ op. number_of word one_source.words ≡ Some (one_source_number op)) }
{
    match word {
        0x5ac0_0000 => Some(OneSourceOp::Rbit),
        0x5ac0_0400 => Some(OneSourceOp::Rev16),
        0x5ac0_1000 => Some(OneSourceOp::Clz),
        0x5ac0_1400 => Some(OneSourceOp::Cls),
        _ => None,
    }
}

/// A name's base word in the line of `OneSource`.
#[tactic(auto, unfolding(crate::specs::Data::one_source))]
pub fn one_source_word(op: OneSourceOp) -> Word
    ensures bits { result.bits ≡ get_or one_source.words (one_source_number op) 0 }
    ensures numbered { one_source_number op < length one_source.words }
{
    let bits = match op {
        OneSourceOp::Rbit => 0x5ac0_0000,
        OneSourceOp::Rev16 => 0x5ac0_0400,
        OneSourceOp::Clz => 0x5ac0_1000,
        OneSourceOp::Cls => 0x5ac0_1400,
    };
    Word { bits }
}

/// The name that has this base word in the line of `Rev`.
#[tactic(auto, unfolding(crate::specs::Data::rev))]
pub fn rev_op(word: u32) -> Option<RevOp>
    ensures { MatchOption result (number_of word rev.words ≡ None)
        (λ op. number_of word rev.words ≡ Some (rev_number op)) }
{
    match word {
        0x5ac0_0800 => Some(RevOp::RevW),
        0xdac0_0c00 => Some(RevOp::RevX),
        0xdac0_0800 => Some(RevOp::Rev32),
        _ => None,
    }
}

/// A name's base word in the line of `Rev`.
#[tactic(auto, unfolding(crate::specs::Data::rev))]
pub fn rev_word(op: RevOp) -> Word
    ensures bits { result.bits ≡ get_or rev.words (rev_number op) 0 }
    ensures numbered { rev_number op < length rev.words }
{
    let bits = match op {
        RevOp::RevW => 0x5ac0_0800,
        RevOp::RevX => 0xdac0_0c00,
        RevOp::Rev32 => 0xdac0_0800,
    };
    Word { bits }
}
