//! Copies of bits between general and vector registers, and immediates to vector registers.
#![tactic(auto)]

mod immediates;

ghost use Rattle.std.specs.Prelude.{◌≡◌, true};
ghost use Rattle.emu_model.specs.declared.trap.Effect.{Effect};
ghost use Rattle.a64_insn.specs.BitMoves.{move_imm_holds_for};
ghost use Rattle.a64_effects.specs.BitMoves as table;
ghost use Rattle.a64_effects.specs.Groups.{bit_move, is_bit_move};

use a64_insn::{A64, A64Form, FMoveOp};
use core_regs::{Core, Effect};
use emu_bits::{Reg, U};
use vec_regs::VecRegs;

/// Does a bit move, and goes on behind it. Only Rd changes: a general register, or the low 32, 64 or 128 bits of a
/// vector register, whose bits above are 0.
#[tactic(auto, unfolding(a64_insn::specs::BitMoves::move_imm))]
pub fn exec(core: &mut Core, vec: &mut VecRegs, i: &A64) -> Effect
    requires { is_bit_move i.now ≡ true }
    ensures core { core.new ≡ (bit_move i.now core.old vec.old).core }
    ensures vectors { vec.new ≡ (bit_move i.now core.old vec.old).vectors }
    ensures effect { result ≡ Effect.Next }
{
    match *i.form() {
        A64Form::FMove { op, rn, rd } => copy(core, vec, op, rn, rd),
        A64Form::MoveImm {
            q,
            op,
            abc,
            cmode,
            defgh,
            rd,
        } => move_imm(vec, q, op, abc, cmode, defgh, rd),
        _ => {}
    }
    Effect::Next
}

/// A copy between a general and a vector register.
fn copy(core: &mut Core, vec: &mut VecRegs, op: FMoveOp, rn: Reg, rd: Reg)
    ensures core { core.new ≡ (table.after_fmov op rn rd core.old vec.old).core }
    ensures vectors { vec.new ≡ (table.after_fmov op rn rd core.old vec.old).vectors }
{
    let _length = vec.length();
    match op {
        FMoveOp::WdSn => core.set_x(rd, 32, vec.lane(rn, 32, 0)),
        FMoveOp::SdWn => vec.set_low(rd, 32, u128::from(core.x(rn))),
        FMoveOp::XdDn => core.set_x(rd, 64, vec.lane(rn, 64, 0)),
        FMoveOp::DdXn => vec.set_low(rd, 64, u128::from(core.x(rn))),
    }
}

/// An immediate to the low 128 or 64 bits of a vector register.
fn move_imm(vec: &mut VecRegs, q: bool, op: bool, abc: U<3>, cmode: U<4>, defgh: U<5>, rd: Reg)
    requires { move_imm_holds_for cmode ≡ true }
    ensures { vec.new ≡ table.with_immediate q (table.move_value op cmode (table.immediate abc defgh)) rd vec.old }
{
    let x = immediates::move_value(op, cmode, abc.get() * 32 + defgh.get());
    let twice = u128::from(x) * 0x1_0000_0000_0000_0001;
    vec.set_low(rd, if q { 128 } else { 64 }, twice);
}
