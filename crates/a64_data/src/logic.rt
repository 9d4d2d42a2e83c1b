//! Logical operations on two registers.
ghost use Rattle.std.specs.Prelude.{◌≡◌, ◌<◌, ◌^◌, ◌⊎◌};
ghost use Rattle.a64_insn.specs.declared.form.A64Form.{A64Form};
ghost use Rattle.a64_effects.specs.Groups.{after_data};
ghost use Rattle.a64_effects.specs.Scalar as table;

use crate::registers::operand;
use a64_insn::LogicRegOp;
use a64_operations::numbers::complement;
use a64_operations::operands::width_of;
use a64_operations::results::logic;
use a64_operations::shifts::shifted;
use core_regs::{Core, Target};
use emu_bits::{Reg, U};

/// The second of each pair takes the complement of b.
fn logic_of(core: &mut Core, op: LogicRegOp, w: u32, rd: Reg, a: u64, b: u64)
    requires width { (w ≡ 32) ⊎ (w ≡ 64) }
    requires second { b < 2 ^ w }
    ensures { core.new ≡ table.after_logic_reg op w rd a b core.old }
{
    let d = Target::of(rd);
    match op {
        LogicRegOp::And => logic(core, false, w, d, a & b),
        LogicRegOp::Bic => logic(core, false, w, d, a & complement(w, b)),
        LogicRegOp::Orr => logic(core, false, w, d, a | b),
        LogicRegOp::Orn => logic(core, false, w, d, a | complement(w, b)),
        LogicRegOp::Eor => logic(core, false, w, d, a ^ b),
        LogicRegOp::Eon => logic(core, false, w, d, a ^ complement(w, b)),
        LogicRegOp::Ands => logic(core, true, w, d, a & b),
        LogicRegOp::Bics => logic(core, true, w, d, a & complement(w, b)),
    };
}

pub(crate) fn logic_reg(
    core: &mut Core,
    op: LogicRegOp,
    sf: bool,
    shift: U<2>,
    rm: Reg,
    amount: U<6>,
    rn: Reg,
    rd: Reg,
)
    ensures { core.new ≡ after_data (A64Form.LogicReg op sf shift rm amount rn rd) core.old }
{
    let w = width_of(sf);
    let a = operand(w, core, rn);
    let b = shifted(w, shift, operand(w, core, rm), amount);
    logic_of(core, op, w, rd, a, b);
}
