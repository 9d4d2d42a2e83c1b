//! Conditional compares.
ghost use Rattle.std.specs.Prelude.{◌≡◌, ◌<◌, ◌^◌, ◌⊎◌};
ghost use Rattle.a64_insn.specs.declared.form.A64Form.{A64Form};
ghost use Rattle.a64_effects.specs.Groups.{after_data};
ghost use Rattle.a64_effects.specs.Scalar as table;

use crate::registers::operand;
use a64_insn::CondCompareOp;
use a64_operations::numbers::complement;
use a64_operations::operands::width_of;
use a64_operations::sums::add_flags;
use core_regs::Core;
use emu_bits::{Cond, Flags, Reg, U};

/// The flags of a + b in ccmn, of a + NOT b + 1 in ccmp.
fn compared(op: CondCompareOp, w: u32, a: u64, b: u64) -> Flags
    requires width { (w ≡ 32) ⊎ (w ≡ 64) }
    requires first { a < 2 ^ w }
    requires second { b < 2 ^ w }
    ensures { result ≡ table.flags_of_compare op w a b }
{
    match op {
        CondCompareOp::Ccmn => add_flags(a, b, false, w).1,
        CondCompareOp::Ccmp => add_flags(a, complement(w, b), true, w).1,
    }
}

/// The flags of a compare where a condition holds, else f.
fn compare(core: &mut Core, op: CondCompareOp, w: u32, a: u64, b: u64, cond: U<4>, f: U<4>)
    requires width { (w ≡ 32) ⊎ (w ≡ 64) }
    requires first { a < 2 ^ w }
    requires second { b < 2 ^ w }
    ensures { core.new ≡ table.after_compare op w a b cond f core.old }
{
    let flags = if Cond::of_number(cond).holds(core.flags()) {
        compared(op, w, a, b)
    } else {
        Flags::of_number(f)
    };
    core.set_flags(flags);
}

pub(crate) fn cond_reg(
    core: &mut Core,
    op: CondCompareOp,
    sf: bool,
    rm: Reg,
    cond: U<4>,
    rn: Reg,
    f: U<4>,
)
    ensures { core.new ≡ after_data (A64Form.CondReg op sf rm cond rn f) core.old }
{
    let w = width_of(sf);
    let (a, b) = (operand(w, core, rn), operand(w, core, rm));
    compare(core, op, w, a, b, cond, f);
}

pub(crate) fn cond_imm(
    core: &mut Core,
    op: CondCompareOp,
    sf: bool,
    i: U<5>,
    cond: U<4>,
    rn: Reg,
    f: U<4>,
)
    ensures { core.new ≡ after_data (A64Form.CondImm op sf i cond rn f) core.old }
{
    let w = width_of(sf);
    let a = operand(w, core, rn);
    compare(core, op, w, a, i.get() as u64, cond, f);
}
