//! The names of predicates with their base words, which have all fields 0.
ghost use Rattle.std.specs.Prelude.{◌≡◌, ◌<◌, Some, None, MatchOption, get_or, length};
ghost use Rattle.emu_bits.specs.Rows.{number_of};
ghost use Rattle.sve_insn.specs.Predicates.{
  cmp_vec,
  cmp_wide,
  cmp_u_imm,
  cmp_s_imm,
  logic_p,
  break_first,
  break_pair,
  ptrue,
  read_ffr,
  write_ffr,
  inc_p,
  inc_p_z,
  while_compare,
  cterm,
};
ghost use Rattle.sve_insn.specs.Numbers.{
  break_number,
  break_pair_number,
  cmp_s_imm_number,
  cmp_u_imm_number,
  cmp_vec_number,
  cmp_wide_number,
  cterm_number,
  inc_p_number,
  logic_p_number,
  ptrue_number,
  read_ffr_number,
  while_number,
  write_ffr_number,
};

use emu_bits::Word;
use sve_insn::{
    BreakOp, BreakPairOp, CmpSImmOp, CmpUImmOp, CmpVecOp, CmpWideOp, CtermOp, IncPOp, LogicPOp,
    PtrueOp, ReadFfrOp, WhileOp, WriteFfrOp,
};

/// The name that has this base word in the line of `CmpVec`.
#[tactic(auto, unfolding(sve_insn::specs::Predicates::cmp_vec))]
pub(crate) fn cmp_vec_op(word: u32) -> Option<CmpVecOp>
    ensures { MatchOption result (number_of word cmp_vec.words ≡ None)
        (λ op. number_of word cmp_vec.words ≡ Some (cmp_vec_number op)) }
{
    match word {
        0x2400_0000 => Some(CmpVecOp::Cmphs),
        0x2400_0010 => Some(CmpVecOp::Cmphi),
        0x2400_8000 => Some(CmpVecOp::Cmpge),
        0x2400_8010 => Some(CmpVecOp::Cmpgt),
        0x2400_a000 => Some(CmpVecOp::Cmpeq),
        0x2400_a010 => Some(CmpVecOp::Cmpne),
        _ => None,
    }
}

/// A name's base word in the line of `CmpVec`.
#[tactic(auto, unfolding(sve_insn::specs::Predicates::cmp_vec))]
pub(crate) fn cmp_vec_word(op: CmpVecOp) -> Word
    ensures bits { result.bits ≡ get_or cmp_vec.words (cmp_vec_number op) 0 }
    ensures numbered { cmp_vec_number op < length cmp_vec.words }
{
    let bits = match op {
        CmpVecOp::Cmphs => 0x2400_0000,
        CmpVecOp::Cmphi => 0x2400_0010,
        CmpVecOp::Cmpge => 0x2400_8000,
        CmpVecOp::Cmpgt => 0x2400_8010,
        CmpVecOp::Cmpeq => 0x2400_a000,
        CmpVecOp::Cmpne => 0x2400_a010,
    };
    Word { bits }
}

/// The name that has this base word in the line of `CmpWide`.
#[tactic(auto, unfolding(sve_insn::specs::Predicates::cmp_wide))]
pub(crate) fn cmp_wide_op(word: u32) -> Option<CmpWideOp>
    ensures { MatchOption result (number_of word cmp_wide.words ≡ None)
        (λ op. number_of word cmp_wide.words ≡ Some (cmp_wide_number op)) }
{
    match word {
        0x2400_2000 => Some(CmpWideOp::Cmpeq),
        0x2400_2010 => Some(CmpWideOp::Cmpne),
        0x2400_4000 => Some(CmpWideOp::Cmpge),
        0x2400_4010 => Some(CmpWideOp::Cmpgt),
        0x2400_6000 => Some(CmpWideOp::Cmplt),
        0x2400_6010 => Some(CmpWideOp::Cmple),
        0x2400_c000 => Some(CmpWideOp::Cmphs),
        0x2400_c010 => Some(CmpWideOp::Cmphi),
        0x2400_e000 => Some(CmpWideOp::Cmplo),
        0x2400_e010 => Some(CmpWideOp::Cmpls),
        _ => None,
    }
}

/// A name's base word in the line of `CmpWide`.
#[tactic(auto, unfolding(sve_insn::specs::Predicates::cmp_wide))]
pub(crate) fn cmp_wide_word(op: CmpWideOp) -> Word
    ensures bits { result.bits ≡ get_or cmp_wide.words (cmp_wide_number op) 0 }
    ensures numbered { cmp_wide_number op < length cmp_wide.words }
{
    let bits = match op {
        CmpWideOp::Cmpeq => 0x2400_2000,
        CmpWideOp::Cmpne => 0x2400_2010,
        CmpWideOp::Cmpge => 0x2400_4000,
        CmpWideOp::Cmpgt => 0x2400_4010,
        CmpWideOp::Cmplt => 0x2400_6000,
        CmpWideOp::Cmple => 0x2400_6010,
        CmpWideOp::Cmphs => 0x2400_c000,
        CmpWideOp::Cmphi => 0x2400_c010,
        CmpWideOp::Cmplo => 0x2400_e000,
        CmpWideOp::Cmpls => 0x2400_e010,
    };
    Word { bits }
}

/// The name that has this base word in the line of `CmpUImm`.
#[tactic(auto, unfolding(sve_insn::specs::Predicates::cmp_u_imm))]
pub(crate) fn cmp_u_imm_op(word: u32) -> Option<CmpUImmOp>
    ensures { MatchOption result (number_of word cmp_u_imm.words ≡ None)
        (λ op. number_of word cmp_u_imm.words ≡ Some (cmp_u_imm_number op)) }
{
    match word {
        0x2420_0000 => Some(CmpUImmOp::Cmphs),
        0x2420_0010 => Some(CmpUImmOp::Cmphi),
        0x2420_2000 => Some(CmpUImmOp::Cmplo),
        0x2420_2010 => Some(CmpUImmOp::Cmpls),
        _ => None,
    }
}

/// A name's base word in the line of `CmpUImm`.
#[tactic(auto, unfolding(sve_insn::specs::Predicates::cmp_u_imm))]
pub(crate) fn cmp_u_imm_word(op: CmpUImmOp) -> Word
    ensures bits { result.bits ≡ get_or cmp_u_imm.words (cmp_u_imm_number op) 0 }
    ensures numbered { cmp_u_imm_number op < length cmp_u_imm.words }
{
    let bits = match op {
        CmpUImmOp::Cmphs => 0x2420_0000,
        CmpUImmOp::Cmphi => 0x2420_0010,
        CmpUImmOp::Cmplo => 0x2420_2000,
        CmpUImmOp::Cmpls => 0x2420_2010,
    };
    Word { bits }
}

/// The name that has this base word in the line of `CmpSImm`.
#[tactic(auto, unfolding(sve_insn::specs::Predicates::cmp_s_imm))]
pub(crate) fn cmp_s_imm_op(word: u32) -> Option<CmpSImmOp>
    ensures { MatchOption result (number_of word cmp_s_imm.words ≡ None)
        (λ op. number_of word cmp_s_imm.words ≡ Some (cmp_s_imm_number op)) }
{
    match word {
        0x2500_0000 => Some(CmpSImmOp::Cmpge),
        0x2500_0010 => Some(CmpSImmOp::Cmpgt),
        0x2500_2000 => Some(CmpSImmOp::Cmplt),
        0x2500_2010 => Some(CmpSImmOp::Cmple),
        0x2500_8000 => Some(CmpSImmOp::Cmpeq),
        0x2500_8010 => Some(CmpSImmOp::Cmpne),
        _ => None,
    }
}

/// A name's base word in the line of `CmpSImm`.
#[tactic(auto, unfolding(sve_insn::specs::Predicates::cmp_s_imm))]
pub(crate) fn cmp_s_imm_word(op: CmpSImmOp) -> Word
    ensures bits { result.bits ≡ get_or cmp_s_imm.words (cmp_s_imm_number op) 0 }
    ensures numbered { cmp_s_imm_number op < length cmp_s_imm.words }
{
    let bits = match op {
        CmpSImmOp::Cmpge => 0x2500_0000,
        CmpSImmOp::Cmpgt => 0x2500_0010,
        CmpSImmOp::Cmplt => 0x2500_2000,
        CmpSImmOp::Cmple => 0x2500_2010,
        CmpSImmOp::Cmpeq => 0x2500_8000,
        CmpSImmOp::Cmpne => 0x2500_8010,
    };
    Word { bits }
}

/// The name that has this base word in the line of `LogicP`.
#[tactic(auto, unfolding(sve_insn::specs::Predicates::logic_p))]
pub(crate) fn logic_p_op(word: u32) -> Option<LogicPOp>
    ensures { MatchOption result (number_of word logic_p.words ≡ None)
        (λ op. number_of word logic_p.words ≡ Some (logic_p_number op)) }
{
    match word {
        0x2500_4000 => Some(LogicPOp::And),
        0x2500_4010 => Some(LogicPOp::Bic),
        0x2500_4200 => Some(LogicPOp::Eor),
        0x2580_4000 => Some(LogicPOp::Orr),
        0x2580_4010 => Some(LogicPOp::Orn),
        0x2580_4200 => Some(LogicPOp::Nor),
        0x2580_4210 => Some(LogicPOp::Nand),
        _ => None,
    }
}

/// A name's base word in the line of `LogicP`.
#[tactic(auto, unfolding(sve_insn::specs::Predicates::logic_p))]
pub(crate) fn logic_p_word(op: LogicPOp) -> Word
    ensures bits { result.bits ≡ get_or logic_p.words (logic_p_number op) 0 }
    ensures numbered { logic_p_number op < length logic_p.words }
{
    let bits = match op {
        LogicPOp::And => 0x2500_4000,
        LogicPOp::Bic => 0x2500_4010,
        LogicPOp::Eor => 0x2500_4200,
        LogicPOp::Orr => 0x2580_4000,
        LogicPOp::Orn => 0x2580_4010,
        LogicPOp::Nor => 0x2580_4200,
        LogicPOp::Nand => 0x2580_4210,
    };
    Word { bits }
}

/// The name that has this base word in the line of `Break`.
#[tactic(auto, unfolding(sve_insn::specs::Predicates::break_first))]
pub(crate) fn break_first_op(word: u32) -> Option<BreakOp>
    ensures { MatchOption result (number_of word break_first.words ≡ None)
        (λ op. number_of word break_first.words ≡ Some (break_number op)) }
{
    match word {
        0x2510_4000 => Some(BreakOp::Brka),
        0x2590_4000 => Some(BreakOp::Brkb),
        _ => None,
    }
}

/// A name's base word in the line of `Break`.
#[tactic(auto, unfolding(sve_insn::specs::Predicates::break_first))]
pub(crate) fn break_first_word(op: BreakOp) -> Word
    ensures bits { result.bits ≡ get_or break_first.words (break_number op) 0 }
    ensures numbered { break_number op < length break_first.words }
{
    let bits = match op {
        BreakOp::Brka => 0x2510_4000,
        BreakOp::Brkb => 0x2590_4000,
    };
    Word { bits }
}

/// The name that has this base word in the line of `BreakPair`.
#[tactic(auto, unfolding(sve_insn::specs::Predicates::break_pair))]
pub(crate) fn break_pair_op(word: u32) -> Option<BreakPairOp>
    ensures { MatchOption result (number_of word break_pair.words ≡ None)
        (λ op. number_of word break_pair.words ≡ Some (break_pair_number op)) }
{
    match word {
        0x2500_c000 => Some(BreakPairOp::Brkpa),
        0x2500_c010 => Some(BreakPairOp::Brkpb),
        _ => None,
    }
}

/// A name's base word in the line of `BreakPair`.
#[tactic(auto, unfolding(sve_insn::specs::Predicates::break_pair))]
pub(crate) fn break_pair_word(op: BreakPairOp) -> Word
    ensures bits { result.bits ≡ get_or break_pair.words (break_pair_number op) 0 }
    ensures numbered { break_pair_number op < length break_pair.words }
{
    let bits = match op {
        BreakPairOp::Brkpa => 0x2500_c000,
        BreakPairOp::Brkpb => 0x2500_c010,
    };
    Word { bits }
}

/// The name that has this base word in the line of `Ptrue`.
#[tactic(auto, unfolding(sve_insn::specs::Predicates::ptrue))]
pub(crate) fn ptrue_op(word: u32) -> Option<PtrueOp>
    ensures { MatchOption result (number_of word ptrue.words ≡ None)
        (λ op. number_of word ptrue.words ≡ Some (ptrue_number op)) }
{
    match word {
        0x2518_e000 => Some(PtrueOp::Ptrue),
        0x2519_e000 => Some(PtrueOp::Ptrues),
        _ => None,
    }
}

/// A name's base word in the line of `Ptrue`.
#[tactic(auto, unfolding(sve_insn::specs::Predicates::ptrue))]
pub(crate) fn ptrue_word(op: PtrueOp) -> Word
    ensures bits { result.bits ≡ get_or ptrue.words (ptrue_number op) 0 }
    ensures numbered { ptrue_number op < length ptrue.words }
{
    let bits = match op {
        PtrueOp::Ptrue => 0x2518_e000,
        PtrueOp::Ptrues => 0x2519_e000,
    };
    Word { bits }
}

/// The name that has this base word in the line of `ReadFfr`.
#[tactic(auto, unfolding(sve_insn::specs::Predicates::read_ffr))]
pub(crate) fn read_ffr_op(word: u32) -> Option<ReadFfrOp>
    ensures { MatchOption result (number_of word read_ffr.words ≡ None)
        (λ op. number_of word read_ffr.words ≡ Some (read_ffr_number op)) }
{
    match word {
        0x2518_f000 => Some(ReadFfrOp::Rdffr),
        0x2558_f000 => Some(ReadFfrOp::Rdffrs),
        _ => None,
    }
}

/// A name's base word in the line of `ReadFfr`.
#[tactic(auto, unfolding(sve_insn::specs::Predicates::read_ffr))]
pub(crate) fn read_ffr_word(op: ReadFfrOp) -> Word
    ensures bits { result.bits ≡ get_or read_ffr.words (read_ffr_number op) 0 }
    ensures numbered { read_ffr_number op < length read_ffr.words }
{
    let bits = match op {
        ReadFfrOp::Rdffr => 0x2518_f000,
        ReadFfrOp::Rdffrs => 0x2558_f000,
    };
    Word { bits }
}

/// The name that has this base word in the line of `WriteFfr`.
#[tactic(auto, unfolding(sve_insn::specs::Predicates::write_ffr))]
pub(crate) fn write_ffr_op(word: u32) -> Option<WriteFfrOp>
    ensures { MatchOption result (number_of word write_ffr.words ≡ None)
        (λ op. number_of word write_ffr.words ≡ Some (write_ffr_number op)) }
{
    match word {
        0x252c_9000 => Some(WriteFfrOp::Setffr),
        0x2528_9000 => Some(WriteFfrOp::Wrffr),
        _ => None,
    }
}

/// A name's base word in the line of `WriteFfr`.
#[tactic(auto, unfolding(sve_insn::specs::Predicates::write_ffr))]
pub(crate) fn write_ffr_word(op: WriteFfrOp) -> Word
    ensures bits { result.bits ≡ get_or write_ffr.words (write_ffr_number op) 0 }
    ensures numbered { write_ffr_number op < length write_ffr.words }
{
    let bits = match op {
        WriteFfrOp::Setffr => 0x252c_9000,
        WriteFfrOp::Wrffr => 0x2528_9000,
    };
    Word { bits }
}

/// The name that has this base word in the line of `IncP`.
#[tactic(auto, unfolding(sve_insn::specs::Predicates::inc_p))]
pub(crate) fn inc_p_op(word: u32) -> Option<IncPOp>
    ensures { MatchOption result (number_of word inc_p.words ≡ None)
        (λ op. number_of word inc_p.words ≡ Some (inc_p_number op)) }
{
    match word {
        0x252c_8800 => Some(IncPOp::Incp),
        0x252d_8800 => Some(IncPOp::Decp),
        _ => None,
    }
}

/// A name's base word in the line of `IncP`.
#[tactic(auto, unfolding(sve_insn::specs::Predicates::inc_p))]
pub(crate) fn inc_p_word(op: IncPOp) -> Word
    ensures bits { result.bits ≡ get_or inc_p.words (inc_p_number op) 0 }
    ensures numbered { inc_p_number op < length inc_p.words }
{
    let bits = match op {
        IncPOp::Incp => 0x252c_8800,
        IncPOp::Decp => 0x252d_8800,
    };
    Word { bits }
}

/// The name that has this base word in the line of `IncPZ`.
#[tactic(auto, unfolding(sve_insn::specs::Predicates::inc_p_z))]
pub(crate) fn inc_p_z_op(word: u32) -> Option<IncPOp>
    ensures { MatchOption result (number_of word inc_p_z.words ≡ None)
        (λ op. number_of word inc_p_z.words ≡ Some (inc_p_number op)) }
{
    match word {
        0x252c_8000 => Some(IncPOp::Incp),
        0x252d_8000 => Some(IncPOp::Decp),
        _ => None,
    }
}

/// A name's base word in the line of `IncPZ`.
#[tactic(auto, unfolding(sve_insn::specs::Predicates::inc_p_z))]
pub(crate) fn inc_p_z_word(op: IncPOp) -> Word
    ensures bits { result.bits ≡ get_or inc_p_z.words (inc_p_number op) 0 }
    ensures numbered { inc_p_number op < length inc_p_z.words }
{
    let bits = match op {
        IncPOp::Incp => 0x252c_8000,
        IncPOp::Decp => 0x252d_8000,
    };
    Word { bits }
}

/// The name that has this base word in the line of `While`.
#[tactic(auto, unfolding(sve_insn::specs::Predicates::while_compare))]
pub(crate) fn while_compare_op(word: u32) -> Option<WhileOp>
    ensures { MatchOption result (number_of word while_compare.words ≡ None)
        (λ op. number_of word while_compare.words ≡ Some (while_number op)) }
{
    match word {
        0x2520_0400 => Some(WhileOp::Whilelt),
        0x2520_0410 => Some(WhileOp::Whilele),
        0x2520_0c00 => Some(WhileOp::Whilelo),
        0x2520_0c10 => Some(WhileOp::Whilels),
        _ => None,
    }
}

/// A name's base word in the line of `While`.
#[tactic(auto, unfolding(sve_insn::specs::Predicates::while_compare))]
pub(crate) fn while_compare_word(op: WhileOp) -> Word
    ensures bits { result.bits ≡ get_or while_compare.words (while_number op) 0 }
    ensures numbered { while_number op < length while_compare.words }
{
    let bits = match op {
        WhileOp::Whilelt => 0x2520_0400,
        WhileOp::Whilele => 0x2520_0410,
        WhileOp::Whilelo => 0x2520_0c00,
        WhileOp::Whilels => 0x2520_0c10,
    };
    Word { bits }
}

/// The name that has this base word in the line of `Cterm`.
#[tactic(auto, unfolding(sve_insn::specs::Predicates::cterm))]
pub(crate) fn cterm_op(word: u32) -> Option<CtermOp>
    ensures { MatchOption result (number_of word cterm.words ≡ None)
        (λ op. number_of word cterm.words ≡ Some (cterm_number op)) }
{
    match word {
        0x25a0_2000 => Some(CtermOp::Ctermeq),
        0x25a0_2010 => Some(CtermOp::Ctermne),
        _ => None,
    }
}

/// A name's base word in the line of `Cterm`.
#[tactic(auto, unfolding(sve_insn::specs::Predicates::cterm))]
pub(crate) fn cterm_word(op: CtermOp) -> Word
    ensures bits { result.bits ≡ get_or cterm.words (cterm_number op) 0 }
    ensures numbered { cterm_number op < length cterm.words }
{
    let bits = match op {
        CtermOp::Ctermeq => 0x25a0_2000,
        CtermOp::Ctermne => 0x25a0_2010,
    };
    Word { bits }
}
