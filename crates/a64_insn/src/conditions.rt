//! The lines' conditions.
ghost use Rattle.std.specs.Prelude.{◌≡◌};
ghost use Rattle.emu_bits.specs.Fields.{bit};
ghost use Rattle.a64_insn.specs.Data.{
  has_bitmask,
  is_below_width,
  move_wide_holds_for,
  bitfield_holds_for,
  extract_holds_for,
  add_reg_holds_for,
  add_ext_holds_for,
};
ghost use Rattle.a64_insn.specs.Memory.{
  is_access,
  is_prefetch,
  is_not_base,
  keeps_base,
  writeback_holds_for,
  is_offset_extension,
  ls_reg_holds_for,
  ls_literal_holds_for,
  is_pair,
  loads_two,
  pair_keeps_base,
  pair_holds_for,
  store_ex_holds_for,
};
ghost use Rattle.a64_insn.specs.BitMoves.{move_imm_holds_for};
ghost use Rattle.a64_insn.specs.Rows.{meets_form};

use crate::form::A64Form;
use emu_bits::{Reg, U, bitmask, condition_of};

/// Whether a form meets its line's condition. It is inlined where a form is made, so that just its own line's condition
/// is tested.
#[tactic(auto, unfolding(crate::specs::Opened::lines_open))]
#[inline(always)]
pub fn meets(form: &A64Form) -> bool
    ensures { result ≡ meets_form form.now }
{
    condition_of!(A64Form, form:
        LogicImm: { sf, n, immr, imms, .. } => has_bitmask(sf, n, immr, imms);
        MoveWide: { sf, hw, .. } => move_wide_holds(sf, hw);
        Bitfield: { sf, n, r, s, .. } => bitfield_holds(sf, n, r, s);
        Extract: { sf, n, s, .. } => extract_holds(sf, n, s);
        LogicReg: { sf, amount, .. } => is_below_width(sf, amount);
        AddReg: { sf, shift, amount, .. } => add_reg_holds(sf, shift, amount);
        AddExt: { a, .. } => add_ext_holds(a);
        LsUnsigned LsUnscaled: { size, v, opc, .. } => is_access(size, v, opc);
        LsPost LsPre: { size, v, opc, rn, rt, .. } => writeback_holds(size, v, opc, rn, rt);
        LsReg: { size, v, opc, ext, .. } => ls_reg_holds(size, v, opc, ext);
        LsLiteral: { opc, v, .. } => ls_literal_holds(opc, v);
        Pair: { opc, v, mode, l, rt2, rn, rt, .. } => pair_holds(opc, v, mode, l, rt2, rn, rt);
        StoreEx: { rs, rn, rt, .. } => store_ex_holds(rs, rn, rt);
        MoveImm: { cmode, .. } => move_imm_holds(cmode);
    )
}

/// Whether a number is below the width of a register, 64 or 32 bits.
#[tactic(auto, unfolding(crate::specs::Data::is_below_width))]
fn is_below_width(sf: bool, v: U<6>) -> bool
    ensures { result ≡ is_below_width (bit sf) v }
{
    v.get() < if sf { 64 } else { 32 }
}

/// Whether the fields of a bitmask immediate have a value.
#[tactic(auto, unfolding(crate::specs::Data::has_bitmask))]
fn has_bitmask(sf: bool, n: bool, immr: U<6>, imms: U<6>) -> bool
    ensures { result ≡ has_bitmask (bit sf) (bit n) immr imms }
{
    bitmask(n, immr.get(), imms.get(), if sf { 64 } else { 32 }).is_some()
}

/// Whether there is a load or store of this size, register file and kind.
#[tactic(auto, unfolding(crate::specs::Memory::is_access))]
fn is_access(size: U<2>, v: bool, opc: U<2>) -> bool
    ensures { result ≡ is_access size (bit v) opc }
{
    if v {
        opc.get() < 2 || size.get() == 0
    } else {
        opc.get() < 3 || size.get() < 2
    }
}

#[tactic(auto, unfolding(crate::specs::Data::move_wide_holds_for))]
fn move_wide_holds(sf: bool, hw: U<2>) -> bool
    ensures { result ≡ move_wide_holds_for (bit sf) hw }
{
    sf || hw.get() < 2
}

#[tactic(auto, unfolding(crate::specs::Data::bitfield_holds_for))]
fn bitfield_holds(sf: bool, n: bool, r: U<6>, s: U<6>) -> bool
    ensures { result ≡ bitfield_holds_for (bit sf) (bit n) r s }
{
    n == sf && is_below_width(sf, r) && is_below_width(sf, s)
}

#[tactic(auto, unfolding(crate::specs::Data::extract_holds_for))]
fn extract_holds(sf: bool, n: bool, s: U<6>) -> bool
    ensures { result ≡ extract_holds_for (bit sf) (bit n) s }
{
    n == sf && is_below_width(sf, s)
}

#[tactic(auto, unfolding(crate::specs::Data::add_reg_holds_for))]
fn add_reg_holds(sf: bool, shift: U<2>, amount: U<6>) -> bool
    ensures { result ≡ add_reg_holds_for (bit sf) shift amount }
{
    shift.get() != 3 && is_below_width(sf, amount)
}

#[tactic(auto, unfolding(crate::specs::Data::add_ext_holds_for))]
fn add_ext_holds(a: U<3>) -> bool
    ensures { result ≡ add_ext_holds_for a }
{
    a.get() <= 4
}

/// Whether it is `prfm`.
#[tactic(auto, unfolding(crate::specs::Memory::is_prefetch))]
fn is_prefetch(size: U<2>, v: bool, opc: U<2>) -> bool
    ensures { result ≡ is_prefetch size (bit v) opc }
{
    size.get() == 3 && !v && opc.get() == 2
}

/// Whether a general register isn't the base register, whose number 31 is SP.
#[tactic(auto, unfolding(crate::specs::Memory::is_not_base))]
fn is_not_base(rn: Reg, r: Reg) -> bool
    ensures { result ≡ is_not_base rn r }
{
    rn.get() == 31 || r.get() != rn.get()
}

/// Whether a register that is loaded or stored isn't the base.
#[tactic(auto, unfolding(crate::specs::Memory::keeps_base))]
fn keeps_base(v: bool, rn: Reg, rt: Reg) -> bool
    ensures { result ≡ keeps_base (bit v) rn rt }
{
    v || is_not_base(rn, rt)
}

#[tactic(auto, unfolding(crate::specs::Memory::writeback_holds_for))]
fn writeback_holds(size: U<2>, v: bool, opc: U<2>, rn: Reg, rt: Reg) -> bool
    ensures { result ≡ writeback_holds_for size (bit v) opc rn rt }
{
    is_access(size, v, opc) && !is_prefetch(size, v, opc) && keeps_base(v, rn, rt)
}

/// Whether an extension is one of offsets: uxtw, lsl, sxtw or sxtx.
#[tactic(auto, unfolding(crate::specs::Memory::is_offset_extension))]
fn is_offset_extension(ext: U<3>) -> bool
    ensures { result ≡ is_offset_extension ext }
{
    matches!(ext.get(), 2 | 3 | 6 | 7)
}

#[tactic(auto, unfolding(crate::specs::Memory::ls_reg_holds_for))]
fn ls_reg_holds(size: U<2>, v: bool, opc: U<2>, ext: U<3>) -> bool
    ensures { result ≡ ls_reg_holds_for size (bit v) opc ext }
{
    is_access(size, v, opc) && is_offset_extension(ext)
}

#[tactic(auto, unfolding(crate::specs::Memory::ls_literal_holds_for))]
fn ls_literal_holds(opc: U<2>, v: bool) -> bool
    ensures { result ≡ ls_literal_holds_for opc (bit v) }
{
    !v || opc.get() < 3
}

/// Whether there is a pair of this size, register file, mode and direction.
#[tactic(auto, unfolding(crate::specs::Memory::is_pair))]
fn is_pair(opc: U<2>, v: bool, mode: U<2>, l: bool) -> bool
    ensures { result ≡ is_pair opc (bit v) mode (bit l) }
{
    opc.get() < 3 && (v || opc.get() != 1 || (l && mode.get() != 0))
}

/// Whether a load has two different registers.
#[tactic(auto, unfolding(crate::specs::Memory::loads_two))]
fn loads_two(l: bool, rt2: Reg, rt: Reg) -> bool
    ensures { result ≡ loads_two (bit l) rt2 rt }
{
    !l || rt.get() != rt2.get()
}

/// Whether neither register of a pair is the base that its mode writes back.
#[tactic(auto, unfolding(crate::specs::Memory::pair_keeps_base))]
fn pair_keeps_base(v: bool, mode: U<2>, rt2: Reg, rn: Reg, rt: Reg) -> bool
    ensures { result ≡ pair_keeps_base (bit v) mode rt2 rn rt }
{
    matches!(mode.get(), 0 | 2) || (keeps_base(v, rn, rt) && keeps_base(v, rn, rt2))
}

#[tactic(auto, unfolding(crate::specs::Memory::pair_holds_for))]
fn pair_holds(opc: U<2>, v: bool, mode: U<2>, l: bool, rt2: Reg, rn: Reg, rt: Reg) -> bool
    ensures { result ≡ pair_holds_for opc (bit v) mode (bit l) rt2 rn rt }
{
    is_pair(opc, v, mode, l) && loads_two(l, rt2, rt) && pair_keeps_base(v, mode, rt2, rn, rt)
}

#[tactic(auto, unfolding(crate::specs::Memory::store_ex_holds_for))]
fn store_ex_holds(rs: Reg, rn: Reg, rt: Reg) -> bool
    ensures { result ≡ store_ex_holds_for rs rn rt }
{
    rs.get() != rt.get() && is_not_base(rn, rs)
}

#[tactic(auto, unfolding(crate::specs::BitMoves::move_imm_holds_for))]
fn move_imm_holds(cmode: U<4>) -> bool
    ensures { result ≡ move_imm_holds_for cmode }
{
    matches!(cmode.get(), 0 | 2 | 4 | 6 | 8 | 10 | 12 | 13 | 14)
}
