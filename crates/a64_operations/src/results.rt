//! What operations write to the scalar registers.
ghost use Rattle.std.specs.Prelude.{◌≡◌, ◌<◌, ◌^◌, ◌⊎◌, Some, if◌then◌else◌};
ghost use Rattle.emu_model.specs.declared.trap.Effect.{Effect};
ghost use Rattle.emu_bits.specs.Flags.{cond_holds};
ghost use Rattle.emu_bits.specs.Numbers.{sum_of};
ghost use Rattle.emu_model.specs.State.{with_x, with_x_sp};
ghost use Rattle.a64_effects.specs.Flow as flow;
ghost use Rattle.a64_effects.specs.Scalar as table;

use crate::numbers::complement;
use crate::operands::operand;
use crate::sums::{add_flags, flags_of_result};
use core_regs::{Core, Effect, RegOrSp, Source, Target};
use emu_bits::{Cond, Reg};

/// The second operand of a sum, or its complement in a difference.
#[inline(always)]
fn addend(minus: bool, w: u32, b: u64) -> u64
    requires width { (w ≡ 32) ⊎ (w ≡ 64) }
    requires within { b < 2 ^ w }
    ensures value { result ≡ table.addend minus w b }
    ensures small { result < 2 ^ w }
{
    if minus { complement(w, b) } else { b }
}

/// Rd is a sum, or a difference, and the flags are its, where they are set.
#[inline(always)]
pub fn sum(
    core: &mut Core,
    sets: bool,
    minus: bool,
    w: u32,
    d: Target,
    a: u64,
    b: u64,
) -> Option<Effect>
    requires width { (w ≡ 32) ⊎ (w ≡ 64) }
    requires first { a < 2 ^ w }
    requires second { b < 2 ^ w }
    ensures effect { result ≡ Some Effect.Next }
    ensures registers { core.new ≡ table.after_sum sets w d a (table.addend minus w b) minus core.old }
{
    carried_sum(core, sets, w, d, a, addend(minus, w, b), minus)
}

/// Rd is a sum with a carry, and the flags are its, where they are set.
#[inline(always)]
pub fn carried_sum(
    core: &mut Core,
    sets: bool,
    w: u32,
    d: Target,
    a: u64,
    b: u64,
    carry: bool,
) -> Option<Effect>
    requires width { (w ≡ 32) ⊎ (w ≡ 64) }
    requires first { a < 2 ^ w }
    requires second { b < 2 ^ w }
    ensures effect { result ≡ Some Effect.Next }
    ensures registers { core.new ≡ table.after_sum sets w d a b carry core.old }
{
    let (v, flags) = add_flags(a, b, carry, w);
    core.set_target(d, w, v);
    if sets {
        core.set_flags(flags);
    }
    Some(Effect::Next)
}

/// Rd, which may be SP, is a sum, or a difference.
#[inline(always)]
pub fn sum_sp(core: &mut Core, minus: bool, w: u32, d: RegOrSp, a: u64, b: u64) -> Option<Effect>
    requires width { (w ≡ 32) ⊎ (w ≡ 64) }
    requires first { a < 2 ^ w }
    requires second { b < 2 ^ w }
    ensures effect { result ≡ Some Effect.Next }
    ensures registers { core.new ≡ with_x_sp core.old d w (sum_of w a (table.addend minus w b) minus) }
{
    core.set_reg_or_sp(d, w, add_flags(a, addend(minus, w, b), minus, w).0);
    Some(Effect::Next)
}

/// Rd is a value, and N and Z are its, where the flags are set.
#[inline(always)]
pub fn logic(core: &mut Core, sets: bool, w: u32, d: Target, v: u64) -> Option<Effect>
    requires { (w ≡ 32) ⊎ (w ≡ 64) }
    ensures effect { result ≡ Some Effect.Next }
    ensures registers { core.new ≡ table.after_logic sets w d v core.old }
{
    core.set_target(d, w, v);
    if sets {
        core.set_flags(flags_of_result(w, v));
    }
    Some(Effect::Next)
}

/// Rn where a condition holds, else another number.
#[inline(always)]
pub fn select(
    core: &mut Core,
    w: u32,
    d: Target,
    cond: Cond,
    n: Source,
    other: u64,
) -> Option<Effect>
    requires { (w ≡ 32) ⊎ (w ≡ 64) }
    ensures effect { result ≡ Some Effect.Next }
    ensures registers { core.new
        ≡ with_x core.old d w (if cond_holds cond core.old.flags then table.operand w core.old n else other) }
{
    let v = if core.holds(cond) {
        operand(w, core, n)
    } else {
        other
    };
    core.set_target(d, w, v);
    Some(Effect::Next)
}

/// Rd is a value.
#[inline(always)]
pub fn write(core: &mut Core, w: u32, d: Target, v: u64) -> Option<Effect>
    requires { (w ≡ 32) ⊎ (w ≡ 64) }
    ensures effect { result ≡ Some Effect.Next }
    ensures registers { core.new ≡ with_x core.old d w v }
{
    core.set_target(d, w, v);
    Some(Effect::Next)
}

/// Rd, which may be SP, is a value.
#[inline(always)]
pub fn write_sp(core: &mut Core, w: u32, d: RegOrSp, v: u64) -> Option<Effect>
    requires { (w ≡ 32) ⊎ (w ≡ 64) }
    ensures effect { result ≡ Some Effect.Next }
    ensures registers { core.new ≡ with_x_sp core.old d w v }
{
    core.set_reg_or_sp(d, w, v);
    Some(Effect::Next)
}

/// So many bytes from PC.
#[inline(always)]
pub fn target(core: &Core, by: i32) -> u64
    ensures { result ≡ flow.moved_address core.now.pc by }
{
    core.pc().wrapping_add_signed(by as i64)
}

/// To the target.
#[inline(always)]
pub fn branch(core: &Core, by: i32) -> Option<Effect>
    ensures { result ≡ Some (Effect.Branch (flow.moved_address core.now.pc by)) }
{
    Some(Effect::Branch(target(core, by)))
}

/// To the target where the branch is taken, else on.
#[inline(always)]
pub fn branch_if(core: &Core, taken: bool, by: i32) -> Option<Effect>
    ensures { result ≡ Some (flow.branches_if taken (flow.moved_address core.now.pc by)) }
{
    if taken {
        Some(Effect::Branch(target(core, by)))
    } else {
        Some(Effect::Next)
    }
}

/// To an address. The address behind the instruction is written to x30.
#[inline(always)]
pub fn call(core: &mut Core, to: u64) -> Option<Effect>
    ensures effect { result ≡ Some (Effect.Branch to) }
    ensures registers { core.new ≡ flow.linked core.old }
{
    let behind = core.pc().wrapping_add(4);
    core.set_target(Target::of(Reg::at(30, 0)), 64, behind);
    Some(Effect::Branch(to))
}
