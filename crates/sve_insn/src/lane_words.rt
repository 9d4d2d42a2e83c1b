//! The names of results lane by lane with their base words, which have all fields 0.
ghost use Rattle.std.specs.Prelude.{◌≡◌, ◌<◌, Some, None, MatchOption, get_or, length};
ghost use Rattle.emu_bits.specs.Rows.{number_of};
ghost use Rattle.sve_insn.specs.Lanes.{
  binary,
  binary_wide,
  shift_imm,
  unary,
  mul_add_z,
  mul_add_d,
  plain,
  logic_z,
  plain_wide,
  plain_shift,
  index_z,
  dot,
  dot_indexed,
  wide_imm,
  min_max_imm,
  bitmask_z,
};
ghost use Rattle.sve_insn.specs.Numbers.{
  binary_number,
  bitmask_z_number,
  dot_number,
  dot_indexed_number,
  index_number,
  logic_z_number,
  min_max_imm_number,
  mul_add_d_number,
  mul_add_z_number,
  plain_number,
  shift_number,
  shift_imm_number,
  unary_number,
  wide_imm_number,
};

use crate::ops::{
    BinaryOp, BitmaskZOp, DotIndexedOp, DotOp, IndexOp, LogicZOp, MinMaxImmOp, MulAddDOp,
    MulAddZOp, PlainOp, ShiftImmOp, ShiftOp, UnaryOp, WideImmOp,
};
use emu_bits::Word;

/// The name that has this base word in the line of `Binary`.
#[tactic(auto, unfolding(crate::specs::Lanes::binary))]
pub fn binary_op(word: u32) -> Option<BinaryOp>
    ensures { MatchOption result (number_of word binary.words ≡ None)
        (λ op. number_of word binary.words ≡ Some (binary_number op)) }
{
    match word {
        0x0400_0000 => Some(BinaryOp::Add),
        0x0401_0000 => Some(BinaryOp::Sub),
        0x0403_0000 => Some(BinaryOp::Subr),
        0x0408_0000 => Some(BinaryOp::Smax),
        0x0409_0000 => Some(BinaryOp::Umax),
        0x040a_0000 => Some(BinaryOp::Smin),
        0x040b_0000 => Some(BinaryOp::Umin),
        0x040c_0000 => Some(BinaryOp::Sabd),
        0x040d_0000 => Some(BinaryOp::Uabd),
        0x0410_0000 => Some(BinaryOp::Mul),
        0x0412_0000 => Some(BinaryOp::Smulh),
        0x0413_0000 => Some(BinaryOp::Umulh),
        0x0414_0000 => Some(BinaryOp::Sdiv),
        0x0415_0000 => Some(BinaryOp::Udiv),
        0x0416_0000 => Some(BinaryOp::Sdivr),
        0x0417_0000 => Some(BinaryOp::Udivr),
        0x0418_0000 => Some(BinaryOp::Orr),
        0x0419_0000 => Some(BinaryOp::Eor),
        0x041a_0000 => Some(BinaryOp::And),
        0x041b_0000 => Some(BinaryOp::Bic),
        0x0410_8000 => Some(BinaryOp::Asr),
        0x0411_8000 => Some(BinaryOp::Lsr),
        0x0413_8000 => Some(BinaryOp::Lsl),
        0x0414_8000 => Some(BinaryOp::Asrr),
        0x0415_8000 => Some(BinaryOp::Lsrr),
        0x0417_8000 => Some(BinaryOp::Lslr),
        _ => None,
    }
}

/// A name's base word in the line of `Binary`.
#[tactic(auto, unfolding(crate::specs::Lanes::binary))]
pub fn binary_word(op: BinaryOp) -> Word
    ensures bits { result.bits ≡ get_or binary.words (binary_number op) 0 }
    ensures numbered { binary_number op < length binary.words }
{
    let bits = match op {
        BinaryOp::Add => 0x0400_0000,
        BinaryOp::Sub => 0x0401_0000,
        BinaryOp::Subr => 0x0403_0000,
        BinaryOp::Smax => 0x0408_0000,
        BinaryOp::Umax => 0x0409_0000,
        BinaryOp::Smin => 0x040a_0000,
        BinaryOp::Umin => 0x040b_0000,
        BinaryOp::Sabd => 0x040c_0000,
        BinaryOp::Uabd => 0x040d_0000,
        BinaryOp::Mul => 0x0410_0000,
        BinaryOp::Smulh => 0x0412_0000,
        BinaryOp::Umulh => 0x0413_0000,
        BinaryOp::Sdiv => 0x0414_0000,
        BinaryOp::Udiv => 0x0415_0000,
        BinaryOp::Sdivr => 0x0416_0000,
        BinaryOp::Udivr => 0x0417_0000,
        BinaryOp::Orr => 0x0418_0000,
        BinaryOp::Eor => 0x0419_0000,
        BinaryOp::And => 0x041a_0000,
        BinaryOp::Bic => 0x041b_0000,
        BinaryOp::Asr => 0x0410_8000,
        BinaryOp::Lsr => 0x0411_8000,
        BinaryOp::Lsl => 0x0413_8000,
        BinaryOp::Asrr => 0x0414_8000,
        BinaryOp::Lsrr => 0x0415_8000,
        BinaryOp::Lslr => 0x0417_8000,
    };
    Word { bits }
}

/// The name that has this base word in the line of `BinaryWide`.
#[tactic(auto, unfolding(crate::specs::Lanes::binary_wide))]
pub fn binary_wide_op(word: u32) -> Option<ShiftOp>
    ensures { MatchOption result (number_of word binary_wide.words ≡ None)
        (λ op. number_of word binary_wide.words ≡ Some (shift_number op)) }
{
    match word {
        0x0418_8000 => Some(ShiftOp::Asr),
        0x0419_8000 => Some(ShiftOp::Lsr),
        0x041b_8000 => Some(ShiftOp::Lsl),
        _ => None,
    }
}

/// A name's base word in the line of `BinaryWide`.
#[tactic(auto, unfolding(crate::specs::Lanes::binary_wide))]
pub fn binary_wide_word(op: ShiftOp) -> Word
    ensures bits { result.bits ≡ get_or binary_wide.words (shift_number op) 0 }
    ensures numbered { shift_number op < length binary_wide.words }
{
    let bits = match op {
        ShiftOp::Asr => 0x0418_8000,
        ShiftOp::Lsr => 0x0419_8000,
        ShiftOp::Lsl => 0x041b_8000,
    };
    Word { bits }
}

/// The name that has this base word in the line of `ShiftImm`.
#[tactic(auto, unfolding(crate::specs::Lanes::shift_imm))]
pub fn shift_imm_op(word: u32) -> Option<ShiftImmOp>
    ensures { MatchOption result (number_of word shift_imm.words ≡ None)
        (λ op. number_of word shift_imm.words ≡ Some (shift_imm_number op)) }
{
    match word {
        0x0400_8000 => Some(ShiftImmOp::Asr),
        0x0401_8000 => Some(ShiftImmOp::Lsr),
        0x0403_8000 => Some(ShiftImmOp::Lsl),
        0x0404_8000 => Some(ShiftImmOp::Asrd),
        _ => None,
    }
}

/// A name's base word in the line of `ShiftImm`.
#[tactic(auto, unfolding(crate::specs::Lanes::shift_imm))]
pub fn shift_imm_word(op: ShiftImmOp) -> Word
    ensures bits { result.bits ≡ get_or shift_imm.words (shift_imm_number op) 0 }
    ensures numbered { shift_imm_number op < length shift_imm.words }
{
    let bits = match op {
        ShiftImmOp::Asr => 0x0400_8000,
        ShiftImmOp::Lsr => 0x0401_8000,
        ShiftImmOp::Lsl => 0x0403_8000,
        ShiftImmOp::Asrd => 0x0404_8000,
    };
    Word { bits }
}

/// The name that has this base word in the line of `Unary`.
#[tactic(auto, unfolding(crate::specs::Lanes::unary))]
pub fn unary_op(word: u32) -> Option<UnaryOp>
    ensures { MatchOption result (number_of word unary.words ≡ None)
        (λ op. number_of word unary.words ≡ Some (unary_number op)) }
{
    match word {
        0x0410_a000 => Some(UnaryOp::Sxtb),
        0x0411_a000 => Some(UnaryOp::Uxtb),
        0x0412_a000 => Some(UnaryOp::Sxth),
        0x0413_a000 => Some(UnaryOp::Uxth),
        0x0414_a000 => Some(UnaryOp::Sxtw),
        0x0415_a000 => Some(UnaryOp::Uxtw),
        0x0416_a000 => Some(UnaryOp::Abs),
        0x0417_a000 => Some(UnaryOp::Neg),
        0x0418_a000 => Some(UnaryOp::Cls),
        0x0419_a000 => Some(UnaryOp::Clz),
        0x041a_a000 => Some(UnaryOp::Cnt),
        0x041b_a000 => Some(UnaryOp::Cnot),
        0x041e_a000 => Some(UnaryOp::Not),
        0x0524_8000 => Some(UnaryOp::Revb),
        0x0525_8000 => Some(UnaryOp::Revh),
        0x0526_8000 => Some(UnaryOp::Revw),
        0x0527_8000 => Some(UnaryOp::Rbit),
        _ => None,
    }
}

/// A name's base word in the line of `Unary`.
#[tactic(auto, unfolding(crate::specs::Lanes::unary))]
pub fn unary_word(op: UnaryOp) -> Word
    ensures bits { result.bits ≡ get_or unary.words (unary_number op) 0 }
    ensures numbered { unary_number op < length unary.words }
{
    let bits = match op {
        UnaryOp::Sxtb => 0x0410_a000,
        UnaryOp::Uxtb => 0x0411_a000,
        UnaryOp::Sxth => 0x0412_a000,
        UnaryOp::Uxth => 0x0413_a000,
        UnaryOp::Sxtw => 0x0414_a000,
        UnaryOp::Uxtw => 0x0415_a000,
        UnaryOp::Abs => 0x0416_a000,
        UnaryOp::Neg => 0x0417_a000,
        UnaryOp::Cls => 0x0418_a000,
        UnaryOp::Clz => 0x0419_a000,
        UnaryOp::Cnt => 0x041a_a000,
        UnaryOp::Cnot => 0x041b_a000,
        UnaryOp::Not => 0x041e_a000,
        UnaryOp::Revb => 0x0524_8000,
        UnaryOp::Revh => 0x0525_8000,
        UnaryOp::Revw => 0x0526_8000,
        UnaryOp::Rbit => 0x0527_8000,
    };
    Word { bits }
}

/// The name that has this base word in the line of `MulAddZ`.
#[tactic(auto, unfolding(crate::specs::Lanes::mul_add_z))]
pub fn mul_add_z_op(word: u32) -> Option<MulAddZOp>
    ensures { MatchOption result (number_of word mul_add_z.words ≡ None)
        (λ op. number_of word mul_add_z.words ≡ Some (mul_add_z_number op)) }
{
    match word {
        0x0400_4000 => Some(MulAddZOp::Mla),
        0x0400_6000 => Some(MulAddZOp::Mls),
        _ => None,
    }
}

/// A name's base word in the line of `MulAddZ`.
#[tactic(auto, unfolding(crate::specs::Lanes::mul_add_z))]
pub fn mul_add_z_word(op: MulAddZOp) -> Word
    ensures bits { result.bits ≡ get_or mul_add_z.words (mul_add_z_number op) 0 }
    ensures numbered { mul_add_z_number op < length mul_add_z.words }
{
    let bits = match op {
        MulAddZOp::Mla => 0x0400_4000,
        MulAddZOp::Mls => 0x0400_6000,
    };
    Word { bits }
}

/// The name that has this base word in the line of `MulAddD`.
#[tactic(auto, unfolding(crate::specs::Lanes::mul_add_d))]
pub fn mul_add_d_op(word: u32) -> Option<MulAddDOp>
    ensures { MatchOption result (number_of word mul_add_d.words ≡ None)
        (λ op. number_of word mul_add_d.words ≡ Some (mul_add_d_number op)) }
{
    match word {
        0x0400_c000 => Some(MulAddDOp::Mad),
        0x0400_e000 => Some(MulAddDOp::Msb),
        _ => None,
    }
}

/// A name's base word in the line of `MulAddD`.
#[tactic(auto, unfolding(crate::specs::Lanes::mul_add_d))]
pub fn mul_add_d_word(op: MulAddDOp) -> Word
    ensures bits { result.bits ≡ get_or mul_add_d.words (mul_add_d_number op) 0 }
    ensures numbered { mul_add_d_number op < length mul_add_d.words }
{
    let bits = match op {
        MulAddDOp::Mad => 0x0400_c000,
        MulAddDOp::Msb => 0x0400_e000,
    };
    Word { bits }
}

/// The name that has this base word in the line of `Plain`.
#[tactic(auto, unfolding(crate::specs::Lanes::plain))]
pub fn plain_op(word: u32) -> Option<PlainOp>
    ensures { MatchOption result (number_of word plain.words ≡ None)
        (λ op. number_of word plain.words ≡ Some (plain_number op)) }
{
    match word {
        0x0420_0000 => Some(PlainOp::Add),
        0x0420_0400 => Some(PlainOp::Sub),
        0x0420_1000 => Some(PlainOp::Sqadd),
        0x0420_1400 => Some(PlainOp::Uqadd),
        0x0420_1800 => Some(PlainOp::Sqsub),
        0x0420_1c00 => Some(PlainOp::Uqsub),
        _ => None,
    }
}

/// A name's base word in the line of `Plain`.
#[tactic(auto, unfolding(crate::specs::Lanes::plain))]
pub fn plain_word(op: PlainOp) -> Word
    ensures bits { result.bits ≡ get_or plain.words (plain_number op) 0 }
    ensures numbered { plain_number op < length plain.words }
{
    let bits = match op {
        PlainOp::Add => 0x0420_0000,
        PlainOp::Sub => 0x0420_0400,
        PlainOp::Sqadd => 0x0420_1000,
        PlainOp::Uqadd => 0x0420_1400,
        PlainOp::Sqsub => 0x0420_1800,
        PlainOp::Uqsub => 0x0420_1c00,
    };
    Word { bits }
}

/// The name that has this base word in the line of `LogicZ`.
#[tactic(auto, unfolding(crate::specs::Lanes::logic_z))]
pub fn logic_z_op(word: u32) -> Option<LogicZOp>
    ensures { MatchOption result (number_of word logic_z.words ≡ None)
        (λ op. number_of word logic_z.words ≡ Some (logic_z_number op)) }
{
    match word {
        0x0420_3000 => Some(LogicZOp::And),
        0x0460_3000 => Some(LogicZOp::Orr),
        0x04a0_3000 => Some(LogicZOp::Eor),
        0x04e0_3000 => Some(LogicZOp::Bic),
        _ => None,
    }
}

/// A name's base word in the line of `LogicZ`.
#[tactic(auto, unfolding(crate::specs::Lanes::logic_z))]
pub fn logic_z_word(op: LogicZOp) -> Word
    ensures bits { result.bits ≡ get_or logic_z.words (logic_z_number op) 0 }
    ensures numbered { logic_z_number op < length logic_z.words }
{
    let bits = match op {
        LogicZOp::And => 0x0420_3000,
        LogicZOp::Orr => 0x0460_3000,
        LogicZOp::Eor => 0x04a0_3000,
        LogicZOp::Bic => 0x04e0_3000,
    };
    Word { bits }
}

/// The name that has this base word in the line of `PlainWide`.
#[tactic(auto, unfolding(crate::specs::Lanes::plain_wide))]
pub fn plain_wide_op(word: u32) -> Option<ShiftOp>
    ensures { MatchOption result (number_of word plain_wide.words ≡ None)
        (λ op. number_of word plain_wide.words ≡ Some (shift_number op)) }
{
    match word {
        0x0420_8000 => Some(ShiftOp::Asr),
        0x0420_8400 => Some(ShiftOp::Lsr),
        0x0420_8c00 => Some(ShiftOp::Lsl),
        _ => None,
    }
}

/// A name's base word in the line of `PlainWide`.
#[tactic(auto, unfolding(crate::specs::Lanes::plain_wide))]
pub fn plain_wide_word(op: ShiftOp) -> Word
    ensures bits { result.bits ≡ get_or plain_wide.words (shift_number op) 0 }
    ensures numbered { shift_number op < length plain_wide.words }
{
    let bits = match op {
        ShiftOp::Asr => 0x0420_8000,
        ShiftOp::Lsr => 0x0420_8400,
        ShiftOp::Lsl => 0x0420_8c00,
    };
    Word { bits }
}

/// The name that has this base word in the line of `PlainShift`.
#[tactic(auto, unfolding(crate::specs::Lanes::plain_shift))]
pub fn plain_shift_op(word: u32) -> Option<ShiftOp>
    ensures { MatchOption result (number_of word plain_shift.words ≡ None)
        (λ op. number_of word plain_shift.words ≡ Some (shift_number op)) }
{
    match word {
        0x0420_9000 => Some(ShiftOp::Asr),
        0x0420_9400 => Some(ShiftOp::Lsr),
        0x0420_9c00 => Some(ShiftOp::Lsl),
        _ => None,
    }
}

/// A name's base word in the line of `PlainShift`.
#[tactic(auto, unfolding(crate::specs::Lanes::plain_shift))]
pub fn plain_shift_word(op: ShiftOp) -> Word
    ensures bits { result.bits ≡ get_or plain_shift.words (shift_number op) 0 }
    ensures numbered { shift_number op < length plain_shift.words }
{
    let bits = match op {
        ShiftOp::Asr => 0x0420_9000,
        ShiftOp::Lsr => 0x0420_9400,
        ShiftOp::Lsl => 0x0420_9c00,
    };
    Word { bits }
}

/// The name that has this base word in the line of `Index`.
#[tactic(auto, unfolding(crate::specs::Lanes::index_z))]
pub fn index_z_op(word: u32) -> Option<IndexOp>
    ensures { MatchOption result (number_of word index_z.words ≡ None)
        (λ op. number_of word index_z.words ≡ Some (index_number op)) }
{
    match word {
        0x0420_4000 => Some(IndexOp::ImmImm),
        0x0420_4400 => Some(IndexOp::RegImm),
        0x0420_4800 => Some(IndexOp::ImmReg),
        0x0420_4c00 => Some(IndexOp::RegReg),
        _ => None,
    }
}

/// A name's base word in the line of `Index`.
#[tactic(auto, unfolding(crate::specs::Lanes::index_z))]
pub fn index_z_word(op: IndexOp) -> Word
    ensures bits { result.bits ≡ get_or index_z.words (index_number op) 0 }
    ensures numbered { index_number op < length index_z.words }
{
    let bits = match op {
        IndexOp::ImmImm => 0x0420_4000,
        IndexOp::RegImm => 0x0420_4400,
        IndexOp::ImmReg => 0x0420_4800,
        IndexOp::RegReg => 0x0420_4c00,
    };
    Word { bits }
}

/// The name that has this base word in the line of `Dot`.
#[tactic(auto, unfolding(crate::specs::Lanes::dot))]
pub fn dot_op(word: u32) -> Option<DotOp>
    ensures { MatchOption result (number_of word dot.words ≡ None)
        (λ op. number_of word dot.words ≡ Some (dot_number op)) }
{
    match word {
        0x4400_0000 => Some(DotOp::Sdot),
        0x4400_0400 => Some(DotOp::Udot),
        _ => None,
    }
}

/// A name's base word in the line of `Dot`.
#[tactic(auto, unfolding(crate::specs::Lanes::dot))]
pub fn dot_word(op: DotOp) -> Word
    ensures bits { result.bits ≡ get_or dot.words (dot_number op) 0 }
    ensures numbered { dot_number op < length dot.words }
{
    let bits = match op {
        DotOp::Sdot => 0x4400_0000,
        DotOp::Udot => 0x4400_0400,
    };
    Word { bits }
}

/// The name that has this base word in the line of `DotIndexed`.
#[tactic(auto, unfolding(crate::specs::Lanes::dot_indexed))]
pub fn dot_indexed_op(word: u32) -> Option<DotIndexedOp>
    ensures { MatchOption result (number_of word dot_indexed.words ≡ None)
        (λ op. number_of word dot_indexed.words ≡ Some (dot_indexed_number op)) }
{
    match word {
        0x44a0_0000 => Some(DotIndexedOp::SdotS),
        0x44a0_0400 => Some(DotIndexedOp::UdotS),
        0x44e0_0000 => Some(DotIndexedOp::SdotD),
        0x44e0_0400 => Some(DotIndexedOp::UdotD),
        _ => None,
    }
}

/// A name's base word in the line of `DotIndexed`.
#[tactic(auto, unfolding(crate::specs::Lanes::dot_indexed))]
pub fn dot_indexed_word(op: DotIndexedOp) -> Word
    ensures bits { result.bits ≡ get_or dot_indexed.words (dot_indexed_number op) 0 }
    ensures numbered { dot_indexed_number op < length dot_indexed.words }
{
    let bits = match op {
        DotIndexedOp::SdotS => 0x44a0_0000,
        DotIndexedOp::UdotS => 0x44a0_0400,
        DotIndexedOp::SdotD => 0x44e0_0000,
        DotIndexedOp::UdotD => 0x44e0_0400,
    };
    Word { bits }
}

/// The name that has this base word in the line of `WideImm`.
#[tactic(auto, unfolding(crate::specs::Lanes::wide_imm))]
pub fn wide_imm_op(word: u32) -> Option<WideImmOp>
    ensures { MatchOption result (number_of word wide_imm.words ≡ None)
        (λ op. number_of word wide_imm.words ≡ Some (wide_imm_number op)) }
{
    match word {
        0x2520_c000 => Some(WideImmOp::Add),
        0x2521_c000 => Some(WideImmOp::Sub),
        0x2523_c000 => Some(WideImmOp::Subr),
        0x2524_c000 => Some(WideImmOp::Sqadd),
        0x2525_c000 => Some(WideImmOp::Uqadd),
        0x2526_c000 => Some(WideImmOp::Sqsub),
        0x2527_c000 => Some(WideImmOp::Uqsub),
        _ => None,
    }
}

/// A name's base word in the line of `WideImm`.
#[tactic(auto, unfolding(crate::specs::Lanes::wide_imm))]
pub fn wide_imm_word(op: WideImmOp) -> Word
    ensures bits { result.bits ≡ get_or wide_imm.words (wide_imm_number op) 0 }
    ensures numbered { wide_imm_number op < length wide_imm.words }
{
    let bits = match op {
        WideImmOp::Add => 0x2520_c000,
        WideImmOp::Sub => 0x2521_c000,
        WideImmOp::Subr => 0x2523_c000,
        WideImmOp::Sqadd => 0x2524_c000,
        WideImmOp::Uqadd => 0x2525_c000,
        WideImmOp::Sqsub => 0x2526_c000,
        WideImmOp::Uqsub => 0x2527_c000,
    };
    Word { bits }
}

/// The name that has this base word in the line of `MinMaxImm`.
#[tactic(auto, unfolding(crate::specs::Lanes::min_max_imm))]
pub fn min_max_imm_op(word: u32) -> Option<MinMaxImmOp>
    ensures { MatchOption result (number_of word min_max_imm.words ≡ None)
        (λ op. number_of word min_max_imm.words ≡ Some (min_max_imm_number op)) }
{
    match word {
        0x2528_c000 => Some(MinMaxImmOp::Smax),
        0x252a_c000 => Some(MinMaxImmOp::Smin),
        0x2530_c000 => Some(MinMaxImmOp::Mul),
        0x2529_c000 => Some(MinMaxImmOp::Umax),
        0x252b_c000 => Some(MinMaxImmOp::Umin),
        _ => None,
    }
}

/// A name's base word in the line of `MinMaxImm`.
#[tactic(auto, unfolding(crate::specs::Lanes::min_max_imm))]
pub fn min_max_imm_word(op: MinMaxImmOp) -> Word
    ensures bits { result.bits ≡ get_or min_max_imm.words (min_max_imm_number op) 0 }
    ensures numbered { min_max_imm_number op < length min_max_imm.words }
{
    let bits = match op {
        MinMaxImmOp::Smax => 0x2528_c000,
        MinMaxImmOp::Smin => 0x252a_c000,
        MinMaxImmOp::Mul => 0x2530_c000,
        MinMaxImmOp::Umax => 0x2529_c000,
        MinMaxImmOp::Umin => 0x252b_c000,
    };
    Word { bits }
}

/// The name that has this base word in the line of `BitmaskZ`.
#[tactic(auto, unfolding(crate::specs::Lanes::bitmask_z))]
pub fn bitmask_z_op(word: u32) -> Option<BitmaskZOp>
    ensures { MatchOption result (number_of word bitmask_z.words ≡ None)
        (λ op. number_of word bitmask_z.words ≡ Some (bitmask_z_number op)) }
{
    match word {
        0x0500_0000 => Some(BitmaskZOp::Orr),
        0x0540_0000 => Some(BitmaskZOp::Eor),
        0x0580_0000 => Some(BitmaskZOp::And),
        0x05c0_0000 => Some(BitmaskZOp::Dupm),
        _ => None,
    }
}

/// A name's base word in the line of `BitmaskZ`.
#[tactic(auto, unfolding(crate::specs::Lanes::bitmask_z))]
pub fn bitmask_z_word(op: BitmaskZOp) -> Word
    ensures bits { result.bits ≡ get_or bitmask_z.words (bitmask_z_number op) 0 }
    ensures numbered { bitmask_z_number op < length bitmask_z.words }
{
    let bits = match op {
        BitmaskZOp::Orr => 0x0500_0000,
        BitmaskZOp::Eor => 0x0540_0000,
        BitmaskZOp::And => 0x0580_0000,
        BitmaskZOp::Dupm => 0x05c0_0000,
    };
    Word { bits }
}
