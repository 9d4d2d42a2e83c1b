//! The names of folds, counts and permutes with their base words, which have all fields 0.
ghost use Rattle.std.specs.Prelude.{◌≡◌, ◌<◌, Some, None, MatchOption, get_or, length};
ghost use Rattle.emu_bits.specs.Rows.{number_of};
ghost use Rattle.sve_insn.specs.Folds.{
  reduce,
  inc_x,
  inc_z,
  sat_x,
  sat_z,
  add_length,
  insert_scalar,
  unpack,
  interleave,
  interleave_p,
  unpack_p,
  copy_reg,
  last_active,
  cond_last,
};
ghost use Rattle.sve_insn.specs.Numbers.{
  add_length_number,
  cond_last_number,
  copy_reg_number,
  inc_number,
  insert_number,
  interleave_number,
  last_number,
  reduce_number,
  sat_number,
  unpack_number,
  unpack_p_number,
};

use crate::ops::{
    AddLengthOp, CondLastOp, CopyRegOp, IncOp, InsertOp, InterleaveOp, LastOp, ReduceOp, SatOp,
    UnpackOp, UnpackPOp,
};
use emu_bits::Word;

/// The name that has this base word in the line of `Reduce`.
#[tactic(auto, unfolding(crate::specs::Folds::reduce))]
pub fn reduce_op(word: u32) -> Option<ReduceOp>
    ensures { MatchOption result (number_of word reduce.words ≡ None)
        (λ op. number_of word reduce.words ≡ Some (reduce_number op)) }
{
    match word {
        0x0400_2000 => Some(ReduceOp::Saddv),
        0x0401_2000 => Some(ReduceOp::Uaddv),
        0x0408_2000 => Some(ReduceOp::Smaxv),
        0x0409_2000 => Some(ReduceOp::Umaxv),
        0x040a_2000 => Some(ReduceOp::Sminv),
        0x040b_2000 => Some(ReduceOp::Uminv),
        0x0418_2000 => Some(ReduceOp::Orv),
        0x0419_2000 => Some(ReduceOp::Eorv),
        0x041a_2000 => Some(ReduceOp::Andv),
        _ => None,
    }
}

/// A name's base word in the line of `Reduce`.
#[tactic(auto, unfolding(crate::specs::Folds::reduce))]
pub fn reduce_word(op: ReduceOp) -> Word
    ensures bits { result.bits ≡ get_or reduce.words (reduce_number op) 0 }
    ensures numbered { reduce_number op < length reduce.words }
{
    let bits = match op {
        ReduceOp::Saddv => 0x0400_2000,
        ReduceOp::Uaddv => 0x0401_2000,
        ReduceOp::Smaxv => 0x0408_2000,
        ReduceOp::Umaxv => 0x0409_2000,
        ReduceOp::Sminv => 0x040a_2000,
        ReduceOp::Uminv => 0x040b_2000,
        ReduceOp::Orv => 0x0418_2000,
        ReduceOp::Eorv => 0x0419_2000,
        ReduceOp::Andv => 0x041a_2000,
    };
    Word { bits }
}

/// The name that has this base word in the line of `IncX`.
#[tactic(auto, unfolding(crate::specs::Folds::inc_x))]
pub fn inc_x_op(word: u32) -> Option<IncOp>
    ensures { MatchOption result (number_of word inc_x.words ≡ None)
        (λ op. number_of word inc_x.words ≡ Some (inc_number op)) }
{
    match word {
        0x0430_e000 => Some(IncOp::Inc),
        0x0430_e400 => Some(IncOp::Dec),
        _ => None,
    }
}

/// A name's base word in the line of `IncX`.
#[tactic(auto, unfolding(crate::specs::Folds::inc_x))]
pub fn inc_x_word(op: IncOp) -> Word
    ensures bits { result.bits ≡ get_or inc_x.words (inc_number op) 0 }
    ensures numbered { inc_number op < length inc_x.words }
{
    let bits = match op {
        IncOp::Inc => 0x0430_e000,
        IncOp::Dec => 0x0430_e400,
    };
    Word { bits }
}

/// The name that has this base word in the line of `IncZ`.
#[tactic(auto, unfolding(crate::specs::Folds::inc_z))]
pub fn inc_z_op(word: u32) -> Option<IncOp>
    ensures { MatchOption result (number_of word inc_z.words ≡ None)
        (λ op. number_of word inc_z.words ≡ Some (inc_number op)) }
{
    match word {
        0x0430_c000 => Some(IncOp::Inc),
        0x0430_c400 => Some(IncOp::Dec),
        _ => None,
    }
}

/// A name's base word in the line of `IncZ`.
#[tactic(auto, unfolding(crate::specs::Folds::inc_z))]
pub fn inc_z_word(op: IncOp) -> Word
    ensures bits { result.bits ≡ get_or inc_z.words (inc_number op) 0 }
    ensures numbered { inc_number op < length inc_z.words }
{
    let bits = match op {
        IncOp::Inc => 0x0430_c000,
        IncOp::Dec => 0x0430_c400,
    };
    Word { bits }
}

/// The name that has this base word in the line of `SatX`.
#[tactic(auto, unfolding(crate::specs::Folds::sat_x))]
pub fn sat_x_op(word: u32) -> Option<SatOp>
    ensures { MatchOption result (number_of word sat_x.words ≡ None)
        (λ op. number_of word sat_x.words ≡ Some (sat_number op)) }
{
    match word {
        0x0420_f000 => Some(SatOp::Sqinc),
        0x0420_f400 => Some(SatOp::Uqinc),
        0x0420_f800 => Some(SatOp::Sqdec),
        0x0420_fc00 => Some(SatOp::Uqdec),
        _ => None,
    }
}

/// A name's base word in the line of `SatX`.
#[tactic(auto, unfolding(crate::specs::Folds::sat_x))]
pub fn sat_x_word(op: SatOp) -> Word
    ensures bits { result.bits ≡ get_or sat_x.words (sat_number op) 0 }
    ensures numbered { sat_number op < length sat_x.words }
{
    let bits = match op {
        SatOp::Sqinc => 0x0420_f000,
        SatOp::Uqinc => 0x0420_f400,
        SatOp::Sqdec => 0x0420_f800,
        SatOp::Uqdec => 0x0420_fc00,
    };
    Word { bits }
}

/// The name that has this base word in the line of `SatZ`.
#[tactic(auto, unfolding(crate::specs::Folds::sat_z))]
pub fn sat_z_op(word: u32) -> Option<SatOp>
    ensures { MatchOption result (number_of word sat_z.words ≡ None)
        (λ op. number_of word sat_z.words ≡ Some (sat_number op)) }
{
    match word {
        0x0420_c000 => Some(SatOp::Sqinc),
        0x0420_c400 => Some(SatOp::Uqinc),
        0x0420_c800 => Some(SatOp::Sqdec),
        0x0420_cc00 => Some(SatOp::Uqdec),
        _ => None,
    }
}

/// A name's base word in the line of `SatZ`.
#[tactic(auto, unfolding(crate::specs::Folds::sat_z))]
pub fn sat_z_word(op: SatOp) -> Word
    ensures bits { result.bits ≡ get_or sat_z.words (sat_number op) 0 }
    ensures numbered { sat_number op < length sat_z.words }
{
    let bits = match op {
        SatOp::Sqinc => 0x0420_c000,
        SatOp::Uqinc => 0x0420_c400,
        SatOp::Sqdec => 0x0420_c800,
        SatOp::Uqdec => 0x0420_cc00,
    };
    Word { bits }
}

/// The name that has this base word in the line of `AddLength`.
#[tactic(auto, unfolding(crate::specs::Folds::add_length))]
pub fn add_length_op(word: u32) -> Option<AddLengthOp>
    ensures { MatchOption result (number_of word add_length.words ≡ None)
        (λ op. number_of word add_length.words ≡ Some (add_length_number op)) }
{
    match word {
        0x0420_5000 => Some(AddLengthOp::Addvl),
        0x0460_5000 => Some(AddLengthOp::Addpl),
        _ => None,
    }
}

/// A name's base word in the line of `AddLength`.
#[tactic(auto, unfolding(crate::specs::Folds::add_length))]
pub fn add_length_word(op: AddLengthOp) -> Word
    ensures bits { result.bits ≡ get_or add_length.words (add_length_number op) 0 }
    ensures numbered { add_length_number op < length add_length.words }
{
    let bits = match op {
        AddLengthOp::Addvl => 0x0420_5000,
        AddLengthOp::Addpl => 0x0460_5000,
    };
    Word { bits }
}

/// The name that has this base word in the line of `Insert`.
#[tactic(auto, unfolding(crate::specs::Folds::insert_scalar))]
pub fn insert_scalar_op(word: u32) -> Option<InsertOp>
    ensures { MatchOption result (number_of word insert_scalar.words ≡ None)
        (λ op. number_of word insert_scalar.words ≡ Some (insert_number op)) }
{
    match word {
        0x0524_3800 => Some(InsertOp::InsrR),
        0x0534_3800 => Some(InsertOp::InsrV),
        _ => None,
    }
}

/// A name's base word in the line of `Insert`.
#[tactic(auto, unfolding(crate::specs::Folds::insert_scalar))]
pub fn insert_scalar_word(op: InsertOp) -> Word
    ensures bits { result.bits ≡ get_or insert_scalar.words (insert_number op) 0 }
    ensures numbered { insert_number op < length insert_scalar.words }
{
    let bits = match op {
        InsertOp::InsrR => 0x0524_3800,
        InsertOp::InsrV => 0x0534_3800,
    };
    Word { bits }
}

/// The name that has this base word in the line of `Unpack`.
#[tactic(auto, unfolding(crate::specs::Folds::unpack))]
pub fn unpack_op(word: u32) -> Option<UnpackOp>
    ensures { MatchOption result (number_of word unpack.words ≡ None)
        (λ op. number_of word unpack.words ≡ Some (unpack_number op)) }
{
    match word {
        0x0530_3800 => Some(UnpackOp::Sunpklo),
        0x0531_3800 => Some(UnpackOp::Sunpkhi),
        0x0532_3800 => Some(UnpackOp::Uunpklo),
        0x0533_3800 => Some(UnpackOp::Uunpkhi),
        _ => None,
    }
}

/// A name's base word in the line of `Unpack`.
#[tactic(auto, unfolding(crate::specs::Folds::unpack))]
pub fn unpack_word(op: UnpackOp) -> Word
    ensures bits { result.bits ≡ get_or unpack.words (unpack_number op) 0 }
    ensures numbered { unpack_number op < length unpack.words }
{
    let bits = match op {
        UnpackOp::Sunpklo => 0x0530_3800,
        UnpackOp::Sunpkhi => 0x0531_3800,
        UnpackOp::Uunpklo => 0x0532_3800,
        UnpackOp::Uunpkhi => 0x0533_3800,
    };
    Word { bits }
}

/// The name that has this base word in the line of `Interleave`.
#[tactic(auto, unfolding(crate::specs::Folds::interleave))]
pub fn interleave_op(word: u32) -> Option<InterleaveOp>
    ensures { MatchOption result (number_of word interleave.words ≡ None)
        (λ op. number_of word interleave.words ≡ Some (interleave_number op)) }
{
    match word {
        0x0520_6000 => Some(InterleaveOp::Zip1),
        0x0520_6400 => Some(InterleaveOp::Zip2),
        0x0520_6800 => Some(InterleaveOp::Uzp1),
        0x0520_6c00 => Some(InterleaveOp::Uzp2),
        0x0520_7000 => Some(InterleaveOp::Trn1),
        0x0520_7400 => Some(InterleaveOp::Trn2),
        _ => None,
    }
}

/// A name's base word in the line of `Interleave`.
#[tactic(auto, unfolding(crate::specs::Folds::interleave))]
pub fn interleave_word(op: InterleaveOp) -> Word
    ensures bits { result.bits ≡ get_or interleave.words (interleave_number op) 0 }
    ensures numbered { interleave_number op < length interleave.words }
{
    let bits = match op {
        InterleaveOp::Zip1 => 0x0520_6000,
        InterleaveOp::Zip2 => 0x0520_6400,
        InterleaveOp::Uzp1 => 0x0520_6800,
        InterleaveOp::Uzp2 => 0x0520_6c00,
        InterleaveOp::Trn1 => 0x0520_7000,
        InterleaveOp::Trn2 => 0x0520_7400,
    };
    Word { bits }
}

/// The name that has this base word in the line of `InterleaveP`.
#[tactic(auto, unfolding(crate::specs::Folds::interleave_p))]
pub fn interleave_p_op(word: u32) -> Option<InterleaveOp>
    ensures { MatchOption result (number_of word interleave_p.words ≡ None)
        (λ op. number_of word interleave_p.words ≡ Some (interleave_number op)) }
{
    match word {
        0x0520_4000 => Some(InterleaveOp::Zip1),
        0x0520_4400 => Some(InterleaveOp::Zip2),
        0x0520_4800 => Some(InterleaveOp::Uzp1),
        0x0520_4c00 => Some(InterleaveOp::Uzp2),
        0x0520_5000 => Some(InterleaveOp::Trn1),
        0x0520_5400 => Some(InterleaveOp::Trn2),
        _ => None,
    }
}

/// A name's base word in the line of `InterleaveP`.
#[tactic(auto, unfolding(crate::specs::Folds::interleave_p))]
pub fn interleave_p_word(op: InterleaveOp) -> Word
    ensures bits { result.bits ≡ get_or interleave_p.words (interleave_number op) 0 }
    ensures numbered { interleave_number op < length interleave_p.words }
{
    let bits = match op {
        InterleaveOp::Zip1 => 0x0520_4000,
        InterleaveOp::Zip2 => 0x0520_4400,
        InterleaveOp::Uzp1 => 0x0520_4800,
        InterleaveOp::Uzp2 => 0x0520_4c00,
        InterleaveOp::Trn1 => 0x0520_5000,
        InterleaveOp::Trn2 => 0x0520_5400,
    };
    Word { bits }
}

/// The name that has this base word in the line of `UnpackP`.
#[tactic(auto, unfolding(crate::specs::Folds::unpack_p))]
pub fn unpack_p_op(word: u32) -> Option<UnpackPOp>
    ensures { MatchOption result (number_of word unpack_p.words ≡ None)
        (λ op. number_of word unpack_p.words ≡ Some (unpack_p_number op)) }
{
    match word {
        0x0530_4000 => Some(UnpackPOp::Punpklo),
        0x0531_4000 => Some(UnpackPOp::Punpkhi),
        _ => None,
    }
}

/// A name's base word in the line of `UnpackP`.
#[tactic(auto, unfolding(crate::specs::Folds::unpack_p))]
pub fn unpack_p_word(op: UnpackPOp) -> Word
    ensures bits { result.bits ≡ get_or unpack_p.words (unpack_p_number op) 0 }
    ensures numbered { unpack_p_number op < length unpack_p.words }
{
    let bits = match op {
        UnpackPOp::Punpklo => 0x0530_4000,
        UnpackPOp::Punpkhi => 0x0531_4000,
    };
    Word { bits }
}

/// The name that has this base word in the line of `CopyReg`.
#[tactic(auto, unfolding(crate::specs::Folds::copy_reg))]
pub fn copy_reg_op(word: u32) -> Option<CopyRegOp>
    ensures { MatchOption result (number_of word copy_reg.words ≡ None)
        (λ op. number_of word copy_reg.words ≡ Some (copy_reg_number op)) }
{
    match word {
        0x0528_a000 => Some(CopyRegOp::CpyR),
        0x0520_8000 => Some(CopyRegOp::CpyV),
        _ => None,
    }
}

/// A name's base word in the line of `CopyReg`.
#[tactic(auto, unfolding(crate::specs::Folds::copy_reg))]
pub fn copy_reg_word(op: CopyRegOp) -> Word
    ensures bits { result.bits ≡ get_or copy_reg.words (copy_reg_number op) 0 }
    ensures numbered { copy_reg_number op < length copy_reg.words }
{
    let bits = match op {
        CopyRegOp::CpyR => 0x0528_a000,
        CopyRegOp::CpyV => 0x0520_8000,
    };
    Word { bits }
}

/// The name that has this base word in the line of `Last`.
#[tactic(auto, unfolding(crate::specs::Folds::last_active))]
pub fn last_active_op(word: u32) -> Option<LastOp>
    ensures { MatchOption result (number_of word last_active.words ≡ None)
        (λ op. number_of word last_active.words ≡ Some (last_number op)) }
{
    match word {
        0x0520_a000 => Some(LastOp::LastaR),
        0x0521_a000 => Some(LastOp::LastbR),
        0x0522_8000 => Some(LastOp::LastaV),
        0x0523_8000 => Some(LastOp::LastbV),
        _ => None,
    }
}

/// A name's base word in the line of `Last`.
#[tactic(auto, unfolding(crate::specs::Folds::last_active))]
pub fn last_active_word(op: LastOp) -> Word
    ensures bits { result.bits ≡ get_or last_active.words (last_number op) 0 }
    ensures numbered { last_number op < length last_active.words }
{
    let bits = match op {
        LastOp::LastaR => 0x0520_a000,
        LastOp::LastbR => 0x0521_a000,
        LastOp::LastaV => 0x0522_8000,
        LastOp::LastbV => 0x0523_8000,
    };
    Word { bits }
}

/// The name that has this base word in the line of `CondLast`.
#[tactic(auto, unfolding(crate::specs::Folds::cond_last))]
pub fn cond_last_op(word: u32) -> Option<CondLastOp>
    ensures { MatchOption result (number_of word cond_last.words ≡ None)
        (λ op. number_of word cond_last.words ≡ Some (cond_last_number op)) }
{
    match word {
        0x0530_a000 => Some(CondLastOp::ClastaR),
        0x0531_a000 => Some(CondLastOp::ClastbR),
        0x052a_8000 => Some(CondLastOp::ClastaV),
        0x052b_8000 => Some(CondLastOp::ClastbV),
        0x0528_8000 => Some(CondLastOp::ClastaZ),
        0x0529_8000 => Some(CondLastOp::ClastbZ),
        _ => None,
    }
}

/// A name's base word in the line of `CondLast`.
#[tactic(auto, unfolding(crate::specs::Folds::cond_last))]
pub fn cond_last_word(op: CondLastOp) -> Word
    ensures bits { result.bits ≡ get_or cond_last.words (cond_last_number op) 0 }
    ensures numbered { cond_last_number op < length cond_last.words }
{
    let bits = match op {
        CondLastOp::ClastaR => 0x0530_a000,
        CondLastOp::ClastbR => 0x0531_a000,
        CondLastOp::ClastaV => 0x052a_8000,
        CondLastOp::ClastbV => 0x052b_8000,
        CondLastOp::ClastaZ => 0x0528_8000,
        CondLastOp::ClastbZ => 0x0529_8000,
    };
    Word { bits }
}
