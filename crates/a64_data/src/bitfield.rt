//! Fields moved within a register, and bits taken from two registers.
ghost use Rattle.std.specs.Prelude.{◌≡◌, ◌<◌, ◌≤◌, ◌+◌, ◌^◌, ◌⊎◌, true};
ghost use Rattle.a64_insn.specs.declared.form.A64Form.{A64Form};
ghost use Rattle.a64_insn.specs.Rows.{meets_form};
ghost use Rattle.emu_bits.specs.Fields.{field};
ghost use Rattle.a64_effects.specs.Groups.{after_data};
ghost use Rattle.a64_effects.specs.Scalar as table;
ghost use Rattle.emu_bits.specs.Operations as bits;

use crate::registers::{operand, write};
use a64_insn::BitfieldOp;
use a64_operations::operands::width_of;
use a64_operations::shifts::extracted;
use core_regs::Core;
use emu_bits::{Reg, U, low_bits, sign_extended};

/// The n bits from a place on, replaced.
fn replaced(a: u64, place: u32, n: u32, v: u64) -> u128
    requires place { place + n ≤ 64 }
    requires within { v < 2 ^ n }
    ensures { result ≡ bits.replaced a place n v }
{
    let below = low_bits(a, place) as u128;
    let above = place + n;
    below + ((v as u128) << place) + (a as u128 >> above << above)
}

/// The n bits from a place on, as a number.
fn field(a: u64, from: u32, n: u32) -> u64
    requires from { from < 64 }
    requires most { n ≤ 64 }
    ensures value { result ≡ field a from n }
    ensures small { result < 2 ^ n }
{
    low_bits(a >> from, n)
}

/// The moved field with the other bits: copies of its top bit above and 0 below, the old ones, or 0.
fn bitfield_moved(op: BitfieldOp, w: u32, place: u32, n: u32, v: u64, old: u64) -> u128
    requires width { (w ≡ 32) ⊎ (w ≡ 64) }
    requires some { 1 ≤ n }
    requires place { place + n ≤ 64 }
    requires within { v < 2 ^ n }
    ensures { result ≡ table.bitfield_moved op w place n v old }
{
    match op {
        BitfieldOp::Sbfm => (sign_extended(v, n, w) as u128) << place,
        BitfieldOp::Bfm => replaced(old, place, n, v),
        BitfieldOp::Ubfm => (v as u128) << place,
    }
}

/// A field of n bits within a register.
#[derive(Clone, Copy)]
struct Move {
    from: u32,
    n: u32,
    to: u32,
}

/// Rd, with n bits of Rn moved from a place to another.
fn move_field(core: &mut Core, op: BitfieldOp, w: u32, rn: Reg, rd: Reg, m: Move)
    requires width { (w ≡ 32) ⊎ (w ≡ 64) }
    requires from { m.from < 64 }
    requires some { 1 ≤ m.n }
    requires to { m.to + m.n ≤ 64 }
    ensures { core.new ≡ table.after_field op w rn rd m.from m.n m.to core.old }
{
    let v = field(operand(w, core, rn), m.from, m.n);
    let old = operand(w, core, rd);
    write(core, w, rd, bitfield_moved(op, w, m.to, m.n, v, old));
}

/// Where the bits come from, how many they are, and where they go.
fn places(w: u32, r: u32, s: u32) -> Move
    requires width { (w ≡ 32) ⊎ (w ≡ 64) }
    requires r { r < w }
    requires s { s < w }
    ensures from { result.from ≡ bits.field_from r s }
    ensures n { result.n ≡ bits.field_bits r s }
    ensures to { result.to ≡ bits.field_to w r s }
    ensures starts { result.from < 64 }
    ensures some { 1 ≤ result.n }
    ensures within { result.to + result.n ≤ 64 }
{
    if r <= s {
        Move {
            from: r,
            n: s - r + 1,
            to: 0,
        }
    } else {
        Move {
            from: 0,
            n: s + 1,
            to: w - r,
        }
    }
}

#[tactic(auto, using(crate::proofs::Conditions::bitfield_below))]
pub(crate) fn bitfield(
    core: &mut Core,
    op: BitfieldOp,
    sf: bool,
    n: bool,
    r: U<6>,
    s: U<6>,
    rn: Reg,
    rd: Reg,
)
    requires { meets_form (A64Form.Bitfield op sf n r s rn rd) ≡ true }
    ensures { core.new ≡ after_data (A64Form.Bitfield op sf n r s rn rd) core.old }
{
    let w = width_of(sf);
    move_field(core, op, w, rn, rd, places(w, r.get(), s.get()));
}

pub(crate) fn extract(core: &mut Core, sf: bool, n: bool, rm: Reg, s: U<6>, rn: Reg, rd: Reg)
    ensures { core.new ≡ after_data (A64Form.Extract sf n rm s rn rd) core.old }
{
    let w = width_of(sf);
    let v = extracted(w, operand(w, core, rn), operand(w, core, rm), s.get());
    core.set_x(rd, w, v);
}
