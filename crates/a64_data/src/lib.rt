//! What the A64 data rows do to the scalar registers.
#![tactic(auto)]

mod add;
mod bitfield;
mod bits;
mod conditional;
mod logic;
mod multiply;
mod registers;

ghost use Rattle.std.specs.Prelude.{◌≡◌, true};
ghost use Rattle.emu_model.specs.declared.trap.Effect.{Effect};
ghost use Rattle.a64_effects.specs.Groups.{is_data, after_data};
ghost use Rattle.a64_operations.specs.Groups.{has_operation};

use a64_insn::{A64, A64Form};
use a64_operations::operands::width_of;
use a64_perform::perform_form;
use core_regs::{Core, Effect};

/// Does an instruction of the data rows at 64 or 32 bits: sums, logical operations, moves, fields, shifts, products,
/// quotients, conditional compares and selects. Only Rd and the flags change; the step goes on behind the instruction.
pub fn exec(core: &mut Core, i: &A64) -> Effect
    requires { is_data i.now ≡ true }
    ensures registers { core.new ≡ after_data i.now core.old }
    ensures effect { result ≡ Effect.Next }
{
    match *i.form() {
        A64Form::AddReg {
            op,
            sf,
            shift,
            rm,
            amount,
            rn,
            rd,
        } => add::add_shifted(core, op, width_of(sf), shift, rm, amount, rn, rd),
        A64Form::AddExt {
            op,
            sf,
            rm,
            ext,
            a,
            rn,
            rd,
        } => add::add_extended(core, op, width_of(sf), rm, ext, a, rn, rd),
        A64Form::AddCarry { op, sf, rm, rn, rd } => add::add_carry(core, op, sf, rm, rn, rd),
        A64Form::LogicReg {
            op,
            sf,
            shift,
            rm,
            amount,
            rn,
            rd,
        } => logic::logic_reg(core, op, sf, shift, rm, amount, rn, rd),
        A64Form::Bitfield {
            op,
            sf,
            n,
            r,
            s,
            rn,
            rd,
        } => bitfield::bitfield(core, op, sf, n, r, s, rn, rd),
        A64Form::Extract {
            sf,
            n,
            rm,
            s,
            rn,
            rd,
        } => bitfield::extract(core, sf, n, rm, s, rn, rd),
        A64Form::CondReg {
            op,
            sf,
            rm,
            cond,
            rn,
            f,
        } => conditional::cond_reg(core, op, sf, rm, cond, rn, f),
        A64Form::CondImm {
            op,
            sf,
            i,
            cond,
            rn,
            f,
        } => conditional::cond_imm(core, op, sf, i, cond, rn, f),
        A64Form::MulLong { op, rm, ra, rn, rd } => multiply::mul_long(core, op, rm, ra, rn, rd),
        A64Form::MulHigh { op, rm, rn, rd } => multiply::mul_high(core, op, rm, rn, rd),
        A64Form::TwoSource { op, sf, rm, rn, rd } => {
            multiply::quotient_or_shift(core, op, width_of(sf), rm, rn, rd)
        }
        A64Form::OneSource { op, sf, rn, rd } => bits::one_source(core, op, sf, rn, rd),
        A64Form::Rev { op, rn, rd } => bits::rev(core, op, rn, rd),
        _ => return by_operation(core, i),
    }
    Effect::Next
}

/// The same of an instruction by its operation. The form is copied for it, so that no other one has to lie in memory.
#[inline(always)]
fn by_operation(core: &mut Core, i: &A64) -> Effect
    requires own { is_data i.now ≡ true }
    requires operation { has_operation i.now ≡ true }
    ensures registers { core.new ≡ after_data i.now core.old }
    ensures effect { result ≡ Effect.Next }
{
    let form = *i.form();
    match perform_form(core, &form) {
        Some(effect) => effect,
        None => unreachable!(),
    }
}
