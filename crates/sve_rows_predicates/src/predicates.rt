//! Words of operations on predicates, read and made.
ghost use Rattle.std.specs.Prelude.{◌≡◌};
ghost use Rattle.emu_bits.specs.Rows.{encode, row_in};
ghost use Rattle.emu_bits.specs.RowLaws.{IsShape};
ghost use Rattle.sve_insn.specs.declared.form.SveForm.TheVariants.{
  LogicP,
  SelectP,
  Break,
  BreakPair,
  BreakNext,
  Ptest,
  First,
  Next,
  Ptrue,
  Pfalse,
  ReadFfr,
  ReadFfrAll,
  WriteFfr,
};
ghost use Rattle.sve_insn.specs.Predicates.{
  logic_p,
  select_p,
  break_first,
  break_pair,
  break_next,
  ptest,
  first_active,
  next_active,
  ptrue,
  pfalse,
  read_ffr,
  read_ffr_all,
  write_ffr,
};
ghost use Rattle.sve_insn.specs.Rows.{row_of};
ghost use Rattle.sve_insn.specs.Seen.{seen};

use crate::base_words::{
    break_first_op, break_first_word, break_pair_op, break_pair_word, logic_p_op, logic_p_word,
    ptrue_op, ptrue_word, read_ffr_op, read_ffr_word, write_ffr_op, write_ffr_word,
};
use emu_bits::{Pred, U, Word, flag};
use sve_insn::{BreakOp, BreakPairOp, LogicPOp, PtrueOp, ReadFfrOp, Sve, SveForm, WriteFfrOp};

/// The instruction of `LogicP` that a word is.
#[tactic(auto, unfolding(sve_insn::specs::Predicates::logic_p))]
#[inline(always)]
pub fn logic_p(w: u32) -> Option<Sve>
    ensures { seen result ≡ row_in logic_p w }
{
    let op = logic_p_op(w & 0xffb0_c210)?;
    Sve::new(SveForm::LogicP {
        op,
        s: flag(w, 22),
        pm: Pred::at(w, 16),
        pg: Pred::at(w, 10),
        pn: Pred::at(w, 5),
        pd: Pred::at(w, 0),
    })
}

/// The word of `LogicP` with these fields.
#[tactic(auto, unfolding(sve_insn::specs::Predicates::logic_p))]
pub fn logic_p_bits(op: LogicPOp, s: bool, pm: Pred, pg: Pred, pn: Pred, pd: Pred) -> u32
    ensures table { result ≡ encode (row_of (LogicP op s pm pg pn pd)) }
    ensures shape { IsShape (row_of (LogicP op s pm pg pn pd)) }
{
    logic_p_word(op)
        .flag(s, 22)
        .pred(pm, 16)
        .pred(pg, 10)
        .pred(pn, 5)
        .pred(pd, 0)
        .bits
}

/// The instruction of `SelectP` that a word is.
#[tactic(auto, unfolding(sve_insn::specs::Predicates::select_p))]
#[inline(always)]
pub fn select_p(w: u32) -> Option<Sve>
    ensures { seen result ≡ row_in select_p w }
{
    if w & 0xfff0_c210 != 0x2500_4210 {
        return None;
    }
    Sve::new(SveForm::SelectP {
        pm: Pred::at(w, 16),
        pg: Pred::at(w, 10),
        pn: Pred::at(w, 5),
        pd: Pred::at(w, 0),
    })
}

/// The word of `SelectP` with these fields.
#[tactic(auto, unfolding(sve_insn::specs::Predicates::select_p))]
pub fn select_p_bits(pm: Pred, pg: Pred, pn: Pred, pd: Pred) -> u32
    ensures table { result ≡ encode (row_of (SelectP pm pg pn pd)) }
    ensures shape { IsShape (row_of (SelectP pm pg pn pd)) }
{
    Word { bits: 0x2500_4210 }
        .pred(pm, 16)
        .pred(pg, 10)
        .pred(pn, 5)
        .pred(pd, 0)
        .bits
}

/// The instruction of `Break` that a word is.
#[tactic(auto, unfolding(sve_insn::specs::Predicates::break_first))]
#[inline(always)]
pub fn break_first(w: u32) -> Option<Sve>
    ensures { seen result ≡ row_in break_first w }
{
    let op = break_first_op(w & 0xffbf_c200)?;
    Sve::new(SveForm::Break {
        op,
        s: flag(w, 22),
        pg: Pred::at(w, 10),
        pn: Pred::at(w, 5),
        m: flag(w, 4),
        pd: Pred::at(w, 0),
    })
}

/// The word of `Break` with these fields.
#[tactic(auto, unfolding(sve_insn::specs::Predicates::break_first))]
pub fn break_first_bits(op: BreakOp, s: bool, pg: Pred, pn: Pred, m: bool, pd: Pred) -> u32
    ensures table { result ≡ encode (row_of (Break op s pg pn m pd)) }
    ensures shape { IsShape (row_of (Break op s pg pn m pd)) }
{
    break_first_word(op)
        .flag(s, 22)
        .pred(pg, 10)
        .pred(pn, 5)
        .flag(m, 4)
        .pred(pd, 0)
        .bits
}

/// The instruction of `BreakPair` that a word is.
#[tactic(auto, unfolding(sve_insn::specs::Predicates::break_pair))]
#[inline(always)]
pub fn break_pair(w: u32) -> Option<Sve>
    ensures { seen result ≡ row_in break_pair w }
{
    let op = break_pair_op(w & 0xffb0_c210)?;
    Sve::new(SveForm::BreakPair {
        op,
        s: flag(w, 22),
        pm: Pred::at(w, 16),
        pg: Pred::at(w, 10),
        pn: Pred::at(w, 5),
        pd: Pred::at(w, 0),
    })
}

/// The word of `BreakPair` with these fields.
#[tactic(auto, unfolding(sve_insn::specs::Predicates::break_pair))]
pub fn break_pair_bits(op: BreakPairOp, s: bool, pm: Pred, pg: Pred, pn: Pred, pd: Pred) -> u32
    ensures table { result ≡ encode (row_of (BreakPair op s pm pg pn pd)) }
    ensures shape { IsShape (row_of (BreakPair op s pm pg pn pd)) }
{
    break_pair_word(op)
        .flag(s, 22)
        .pred(pm, 16)
        .pred(pg, 10)
        .pred(pn, 5)
        .pred(pd, 0)
        .bits
}

/// The instruction of `BreakNext` that a word is.
#[tactic(auto, unfolding(sve_insn::specs::Predicates::break_next))]
#[inline(always)]
pub fn break_next(w: u32) -> Option<Sve>
    ensures { seen result ≡ row_in break_next w }
{
    if w & 0xffbf_c210 != 0x2518_4000 {
        return None;
    }
    Sve::new(SveForm::BreakNext {
        s: flag(w, 22),
        pg: Pred::at(w, 10),
        pn: Pred::at(w, 5),
        pdm: Pred::at(w, 0),
    })
}

/// The word of `BreakNext` with these fields.
#[tactic(auto, unfolding(sve_insn::specs::Predicates::break_next))]
pub fn break_next_bits(s: bool, pg: Pred, pn: Pred, pdm: Pred) -> u32
    ensures table { result ≡ encode (row_of (BreakNext s pg pn pdm)) }
    ensures shape { IsShape (row_of (BreakNext s pg pn pdm)) }
{
    Word { bits: 0x2518_4000 }
        .flag(s, 22)
        .pred(pg, 10)
        .pred(pn, 5)
        .pred(pdm, 0)
        .bits
}

/// The instruction of `Ptest` that a word is.
#[tactic(auto, unfolding(sve_insn::specs::Predicates::ptest))]
#[inline(always)]
pub fn ptest(w: u32) -> Option<Sve>
    ensures { seen result ≡ row_in ptest w }
{
    if w & 0xffff_c21f != 0x2550_c000 {
        return None;
    }
    Sve::new(SveForm::Ptest {
        pg: Pred::at(w, 10),
        pn: Pred::at(w, 5),
    })
}

/// The word of `Ptest` with these fields.
#[tactic(auto, unfolding(sve_insn::specs::Predicates::ptest))]
pub fn ptest_bits(pg: Pred, pn: Pred) -> u32
    ensures table { result ≡ encode (row_of (Ptest pg pn)) }
    ensures shape { IsShape (row_of (Ptest pg pn)) }
{
    Word { bits: 0x2550_c000 }.pred(pg, 10).pred(pn, 5).bits
}

/// The instruction of `First` that a word is.
#[tactic(auto, unfolding(sve_insn::specs::Predicates::first_active))]
#[inline(always)]
pub fn first_active(w: u32) -> Option<Sve>
    ensures { seen result ≡ row_in first_active w }
{
    if w & 0xffff_fe10 != 0x2558_c000 {
        return None;
    }
    Sve::new(SveForm::First {
        pg: Pred::at(w, 5),
        pdn: Pred::at(w, 0),
    })
}

/// The word of `First` with these fields.
#[tactic(auto, unfolding(sve_insn::specs::Predicates::first_active))]
pub fn first_active_bits(pg: Pred, pdn: Pred) -> u32
    ensures table { result ≡ encode (row_of (First pg pdn)) }
    ensures shape { IsShape (row_of (First pg pdn)) }
{
    Word { bits: 0x2558_c000 }.pred(pg, 5).pred(pdn, 0).bits
}

/// The instruction of `Next` that a word is.
#[tactic(auto, unfolding(sve_insn::specs::Predicates::next_active))]
#[inline(always)]
pub fn next_active(w: u32) -> Option<Sve>
    ensures { seen result ≡ row_in next_active w }
{
    if w & 0xff3f_fe10 != 0x2519_c400 {
        return None;
    }
    Sve::new(SveForm::Next {
        size: U::at(w, 22),
        pg: Pred::at(w, 5),
        pdn: Pred::at(w, 0),
    })
}

/// The word of `Next` with these fields.
#[tactic(auto, unfolding(sve_insn::specs::Predicates::next_active))]
pub fn next_active_bits(size: U<2>, pg: Pred, pdn: Pred) -> u32
    ensures table { result ≡ encode (row_of (Next size pg pdn)) }
    ensures shape { IsShape (row_of (Next size pg pdn)) }
{
    Word { bits: 0x2519_c400 }
        .number(size, 22)
        .pred(pg, 5)
        .pred(pdn, 0)
        .bits
}

/// The instruction of `Ptrue` that a word is.
#[tactic(auto, unfolding(sve_insn::specs::Predicates::ptrue))]
#[inline(always)]
pub fn ptrue(w: u32) -> Option<Sve>
    ensures { seen result ≡ row_in ptrue w }
{
    let op = ptrue_op(w & 0xff3f_fc10)?;
    Sve::new(SveForm::Ptrue {
        op,
        size: U::at(w, 22),
        pattern: U::at(w, 5),
        pd: Pred::at(w, 0),
    })
}

/// The word of `Ptrue` with these fields.
#[tactic(auto, unfolding(sve_insn::specs::Predicates::ptrue))]
pub fn ptrue_bits(op: PtrueOp, size: U<2>, pattern: U<5>, pd: Pred) -> u32
    ensures table { result ≡ encode (row_of (Ptrue op size pattern pd)) }
    ensures shape { IsShape (row_of (Ptrue op size pattern pd)) }
{
    ptrue_word(op)
        .number(size, 22)
        .number(pattern, 5)
        .pred(pd, 0)
        .bits
}

/// The instruction of `Pfalse` that a word is.
#[tactic(auto, unfolding(sve_insn::specs::Predicates::pfalse))]
#[inline(always)]
pub fn pfalse(w: u32) -> Option<Sve>
    ensures { seen result ≡ row_in pfalse w }
{
    if w & 0xffff_fff0 != 0x2518_e400 {
        return None;
    }
    Sve::new(SveForm::Pfalse { pd: Pred::at(w, 0) })
}

/// The word of `Pfalse` with these fields.
#[tactic(auto, unfolding(sve_insn::specs::Predicates::pfalse))]
pub fn pfalse_bits(pd: Pred) -> u32
    ensures table { result ≡ encode (row_of (Pfalse pd)) }
    ensures shape { IsShape (row_of (Pfalse pd)) }
{
    Word { bits: 0x2518_e400 }.pred(pd, 0).bits
}

/// The instruction of `ReadFfr` that a word is.
#[tactic(auto, unfolding(sve_insn::specs::Predicates::read_ffr))]
#[inline(always)]
pub fn read_ffr(w: u32) -> Option<Sve>
    ensures { seen result ≡ row_in read_ffr w }
{
    let op = read_ffr_op(w & 0xffff_fe10)?;
    Sve::new(SveForm::ReadFfr {
        op,
        pg: Pred::at(w, 5),
        pd: Pred::at(w, 0),
    })
}

/// The word of `ReadFfr` with these fields.
#[tactic(auto, unfolding(sve_insn::specs::Predicates::read_ffr))]
pub fn read_ffr_bits(op: ReadFfrOp, pg: Pred, pd: Pred) -> u32
    ensures table { result ≡ encode (row_of (ReadFfr op pg pd)) }
    ensures shape { IsShape (row_of (ReadFfr op pg pd)) }
{
    read_ffr_word(op).pred(pg, 5).pred(pd, 0).bits
}

/// The instruction of `ReadFfrAll` that a word is.
#[tactic(auto, unfolding(sve_insn::specs::Predicates::read_ffr_all))]
#[inline(always)]
pub fn read_ffr_all(w: u32) -> Option<Sve>
    ensures { seen result ≡ row_in read_ffr_all w }
{
    if w & 0xffff_fff0 != 0x2519_f000 {
        return None;
    }
    Sve::new(SveForm::ReadFfrAll { pd: Pred::at(w, 0) })
}

/// The word of `ReadFfrAll` with these fields.
#[tactic(auto, unfolding(sve_insn::specs::Predicates::read_ffr_all))]
pub fn read_ffr_all_bits(pd: Pred) -> u32
    ensures table { result ≡ encode (row_of (ReadFfrAll pd)) }
    ensures shape { IsShape (row_of (ReadFfrAll pd)) }
{
    Word { bits: 0x2519_f000 }.pred(pd, 0).bits
}

/// The instruction of `WriteFfr` that a word is.
#[tactic(auto, unfolding(sve_insn::specs::Predicates::write_ffr))]
#[inline(always)]
pub fn write_ffr(w: u32) -> Option<Sve>
    ensures { seen result ≡ row_in write_ffr w }
{
    let op = write_ffr_op(w & 0xffff_fe1f)?;
    Sve::new(SveForm::WriteFfr {
        op,
        pn: Pred::at(w, 5),
    })
}

/// The word of `WriteFfr` with these fields.
#[tactic(auto, unfolding(sve_insn::specs::Predicates::write_ffr))]
pub fn write_ffr_bits(op: WriteFfrOp, pn: Pred) -> u32
    ensures table { result ≡ encode (row_of (WriteFfr op pn)) }
    ensures shape { IsShape (row_of (WriteFfr op pn)) }
{
    write_ffr_word(op).pred(pn, 5).bits
}
