//! The lines' conditions.
ghost use Rattle.std.specs.Prelude.{◌≡◌};
ghost use Rattle.emu_bits.specs.Fields.{bit};
ghost use Rattle.sve_insn.specs.Names.{binary_named, reduce_named, unary_named, write_ffr_named};
ghost use Rattle.sve_insn.specs.Numbers.{binary_number, reduce_number, unary_number, write_ffr_number};
ghost use Rattle.sve_insn.specs.Conditions.{
  is_no_byte,
  is_no_doubleword,
  is_word_or_doubleword,
  is_halfword_or_word,
  binary_holds_for,
  has_tsz,
  unary_least_size,
  unary_holds_for,
  shifts_no_byte,
  has_bitmask,
  reduce_holds_for,
  has_lane_size,
  break_first_holds_for,
  write_ffr_holds_for,
  is_register,
  fits_lane,
  store_reg_holds_for,
  extends_to_word,
  extends_to_doubleword,
  gather_word_holds_for,
  gather_scaled_word_holds_for,
  gather_scaled_doubleword_holds_for,
};
ghost use Rattle.sve_insn.specs.Rows.{meets_form};

use crate::form::SveForm;
use crate::ops::{BinaryOp, ReduceOp, UnaryOp, WriteFfrOp};
use emu_bits::{Pred, Reg, U, bitmask, condition_of};

/// Whether a form meets its line's condition. It is inlined where a form is made, so that just its own line's condition
/// is tested.
#[tactic(auto, unfolding(crate::specs::Opened::lines_open))]
#[inline(always)]
pub fn meets(form: &SveForm) -> bool
    ensures { result ≡ meets_form form.now }
{
    condition_of!(SveForm, form:
        Binary: { op, size, .. } => binary_holds(op, size);
        BinaryWide PlainWide CmpWide: { size, .. } => is_no_doubleword(size);
        ShiftImm PlainShift: { tszh, tszl, .. } => has_tsz(tszh, tszl);
        Unary: { op, size, .. } => unary_holds(op, size);
        Dot Compact: { size, .. } => is_word_or_doubleword(size);
        WideImm DupImm CopyImm: { size, sh, .. } => shifts_no_byte(size, sh);
        BitmaskZ: { n, immr, imms, .. } => has_bitmask(n, immr, imms);
        Reduce: { op, size, .. } => reduce_holds(op, size);
        IncZ SatZ Unpack IncPZ: { size, .. } => is_no_byte(size);
        DupLane: { tsz, .. } => has_lane_size(tsz);
        Break: { s, m, .. } => break_first_holds(s, m);
        WriteFfr: { op, pn } => write_ffr_holds(op, pn);
        LoadReg LoadNtReg LoadQuadReg LoadManyReg StoreNtReg StoreManyReg: { rm, .. } => is_register(rm);
        StoreImm: { msz, size, .. } => fits_lane(msz, size);
        StoreReg: { msz, size, rm, .. } => store_reg_holds(msz, size, rm);
        GatherSx GatherSv: { msz, u, .. } => gather_word_holds(msz, u);
        GatherSxScaled: { msz, u, .. } => gather_scaled_word_holds(msz, u);
        GatherDx GatherD GatherDv: { msz, u, .. } => extends_to_doubleword(msz, u);
        GatherDxScaled GatherDScaled: { msz, u, .. } => gather_scaled_doubleword_holds(msz, u);
        ScatterSx ScatterSv: { msz, .. } => is_no_doubleword(msz);
        ScatterSxScaled: { msz, .. } => is_halfword_or_word(msz);
        ScatterDxScaled ScatterDScaled: { msz, .. } => is_no_byte(msz);
    )
}

/// Whether lanes or elements of memory aren't bytes.
#[tactic(auto, unfolding(crate::specs::Conditions::is_no_byte))]
fn is_no_byte(size: U<2>) -> bool
    ensures { result ≡ is_no_byte size }
{
    size.get() != 0
}

/// Whether lanes or elements of memory don't have 64 bits.
#[tactic(auto, unfolding(crate::specs::Conditions::is_no_doubleword))]
fn is_no_doubleword(size: U<2>) -> bool
    ensures { result ≡ is_no_doubleword size }
{
    size.get() != 3
}

/// Whether lanes have 32 or 64 bits.
#[tactic(auto, unfolding(crate::specs::Conditions::is_word_or_doubleword))]
fn is_word_or_doubleword(size: U<2>) -> bool
    ensures { result ≡ is_word_or_doubleword size }
{
    size.get() >= 2
}

/// Whether elements of memory have 16 or 32 bits.
#[tactic(auto, unfolding(crate::specs::Conditions::is_halfword_or_word))]
fn is_halfword_or_word(size: U<2>) -> bool
    ensures { result ≡ is_halfword_or_word size }
{
    matches!(size.get(), 1 | 2)
}

#[tactic(auto, unfolding(crate::specs::Conditions::binary_holds_for))]
fn binary_holds(op: BinaryOp, size: U<2>) -> bool
    ensures { result ≡ binary_holds_for (binary_named (binary_number op)) size }
{
    is_word_or_doubleword(size)
        || !matches!(
            op,
            BinaryOp::Sdiv | BinaryOp::Udiv | BinaryOp::Sdivr | BinaryOp::Udivr
        )
}

/// Whether tszh:tszl gives a size of lanes.
#[tactic(auto, unfolding(crate::specs::Conditions::has_tsz))]
fn has_tsz(tszh: U<2>, tszl: U<2>) -> bool
    ensures { result ≡ has_tsz tszh tszl }
{
    tszh.get() != 0 || tszl.get() != 0
}

/// The least size of lanes: a part that is extended or reversed is shorter than the lane.
#[tactic(auto, unfolding(crate::specs::Conditions::unary_least_size))]
fn unary_least_size(op: UnaryOp) -> u32
    ensures { result ≡ unary_least_size (unary_named (unary_number op)) }
{
    match op {
        UnaryOp::Sxtb | UnaryOp::Uxtb | UnaryOp::Revb => 1,
        UnaryOp::Sxth | UnaryOp::Uxth | UnaryOp::Revh => 2,
        UnaryOp::Sxtw | UnaryOp::Uxtw | UnaryOp::Revw => 3,
        _ => 0,
    }
}

#[tactic(auto, unfolding(crate::specs::Conditions::unary_holds_for))]
fn unary_holds(op: UnaryOp, size: U<2>) -> bool
    ensures { result ≡ unary_holds_for (unary_named (unary_number op)) size }
{
    size.get() >= unary_least_size(op)
}

/// Whether an immediate isn't shifted by 8 in lanes of bytes.
#[tactic(auto, unfolding(crate::specs::Conditions::shifts_no_byte))]
fn shifts_no_byte(size: U<2>, sh: bool) -> bool
    ensures { result ≡ shifts_no_byte size (bit sh) }
{
    size.get() != 0 || !sh
}

/// Whether the fields of a bitmask immediate have a value of 64 bits.
#[tactic(auto, unfolding(crate::specs::Conditions::has_bitmask))]
fn has_bitmask(n: bool, immr: U<6>, imms: U<6>) -> bool
    ensures { result ≡ has_bitmask (bit n) immr imms }
{
    bitmask(n, immr.get(), imms.get(), 64).is_some()
}

#[tactic(auto, unfolding(crate::specs::Conditions::reduce_holds_for))]
fn reduce_holds(op: ReduceOp, size: U<2>) -> bool
    ensures { result ≡ reduce_holds_for (reduce_named (reduce_number op)) size }
{
    is_no_doubleword(size) || !matches!(op, ReduceOp::Saddv)
}

/// Whether a bit of tsz gives the size of lanes.
#[tactic(auto, unfolding(crate::specs::Conditions::has_lane_size))]
fn has_lane_size(tsz: U<5>) -> bool
    ensures { result ≡ has_lane_size tsz }
{
    tsz.get() != 0
}

#[tactic(auto, unfolding(crate::specs::Conditions::break_first_holds_for))]
fn break_first_holds(s: bool, m: bool) -> bool
    ensures { result ≡ break_first_holds_for (bit s) (bit m) }
{
    !s || !m
}

#[tactic(auto, unfolding(crate::specs::Conditions::write_ffr_holds_for))]
fn write_ffr_holds(op: WriteFfrOp, pn: Pred) -> bool
    ensures { result ≡ write_ffr_holds_for (write_ffr_named (write_ffr_number op)) pn }
{
    pn.get() == 0 || !matches!(op, WriteFfrOp::Setffr)
}

/// Whether an offset is in a register, whose number isn't 31.
#[tactic(auto, unfolding(crate::specs::Conditions::is_register))]
fn is_register(rm: Reg) -> bool
    ensures { result ≡ is_register rm }
{
    rm.get() != 31
}

/// Whether an element of memory isn't longer than a lane.
#[tactic(auto, unfolding(crate::specs::Conditions::fits_lane))]
fn fits_lane(msz: U<2>, size: U<2>) -> bool
    ensures { result ≡ fits_lane msz size }
{
    msz.get() <= size.get()
}

#[tactic(auto, unfolding(crate::specs::Conditions::store_reg_holds_for))]
fn store_reg_holds(msz: U<2>, size: U<2>, rm: Reg) -> bool
    ensures { result ≡ store_reg_holds_for msz size rm }
{
    fits_lane(msz, size) && is_register(rm)
}

/// Whether an element whose sign is extended to 32 bits is shorter.
#[tactic(auto, unfolding(crate::specs::Conditions::extends_to_word))]
fn extends_to_word(msz: U<2>, u: bool) -> bool
    ensures { result ≡ extends_to_word msz (bit u) }
{
    u || msz.get() < 2
}

/// Whether an element whose sign is extended to 64 bits is shorter.
#[tactic(auto, unfolding(crate::specs::Conditions::extends_to_doubleword))]
fn extends_to_doubleword(msz: U<2>, u: bool) -> bool
    ensures { result ≡ extends_to_doubleword msz (bit u) }
{
    u || msz.get() < 3
}

#[tactic(auto, unfolding(crate::specs::Conditions::gather_word_holds_for))]
fn gather_word_holds(msz: U<2>, u: bool) -> bool
    ensures { result ≡ gather_word_holds_for msz (bit u) }
{
    is_no_doubleword(msz) && extends_to_word(msz, u)
}

#[tactic(auto, unfolding(crate::specs::Conditions::gather_scaled_word_holds_for))]
fn gather_scaled_word_holds(msz: U<2>, u: bool) -> bool
    ensures { result ≡ gather_scaled_word_holds_for msz (bit u) }
{
    is_halfword_or_word(msz) && extends_to_word(msz, u)
}

#[tactic(auto, unfolding(crate::specs::Conditions::gather_scaled_doubleword_holds_for))]
fn gather_scaled_doubleword_holds(msz: U<2>, u: bool) -> bool
    ensures { result ≡ gather_scaled_doubleword_holds_for msz (bit u) }
{
    is_no_byte(msz) && extends_to_doubleword(msz, u)
}
