//! What the SVE rows that work lane by lane do to the vector registers.
//!
//! A row reads the lanes of its operands, works each out by its function, and writes its destination once; how it goes
//! over the lanes stands in one place for all rows.

ghost use Rattle.std.specs.Prelude.{◌≡◌, true};
ghost use Rattle.sve_effects.specs.Effects.{is_vector_data, vector_data};

use crate::{copies, immediates, index, merging, products, unpredicated};
use core_regs::Core;
use sve_insn::{Sve, SveForm};
use vec_regs::VecRegs;

/// Does an instruction of the rows that work lane by lane: its destination has the lanes that the instruction makes of
/// its operands, and in the merging rows the inactive lanes keep their value. Lanes have 8, 16, 32 or 64 bits (the
/// manual's esize).
#[tactic(auto, unfolding(sve_insn::specs::Lanes::dot))]
#[inline(always)]
pub fn exec(core: &Core, vec: &mut VecRegs, i: &Sve)
    requires { is_vector_data i.now ≡ true }
    ensures { vec.new ≡ vector_data i.now core.now vec.old }
{
    match *i.form() {
        SveForm::Binary {
            op,
            size,
            pg,
            zm,
            zdn,
        } => merging::binary(core, vec, op, size, pg, zm, zdn),
        SveForm::BinaryWide {
            op,
            size,
            pg,
            zm,
            zdn,
        } => merging::binary_wide(core, vec, op, size, pg, zm, zdn),
        SveForm::ShiftImm {
            op,
            tszh,
            pg,
            tszl,
            imm3,
            zdn,
        } => merging::shift_imm(core, vec, op, tszh, pg, tszl, imm3, zdn),
        SveForm::Unary {
            op,
            size,
            pg,
            zn,
            zd,
        } => merging::unary(core, vec, op, size, pg, zn, zd),
        SveForm::MulAddZ {
            op,
            size,
            zm,
            pg,
            zn,
            zda,
        } => products::mul_add_z(core, vec, op, size, zm, pg, zn, zda),
        SveForm::MulAddD {
            op,
            size,
            zm,
            pg,
            za,
            zdn,
        } => products::mul_add_d(core, vec, op, size, zm, pg, za, zdn),
        SveForm::Plain {
            op,
            size,
            zm,
            zn,
            zd,
        } => unpredicated::sum(core, vec, op, size, zm, zn, zd),
        SveForm::LogicZ { op, zm, zn, zd } => unpredicated::logic(core, vec, op, zm, zn, zd),
        SveForm::PlainWide {
            op,
            size,
            zm,
            zn,
            zd,
        } => unpredicated::shift_wide(core, vec, op, size, zm, zn, zd),
        SveForm::PlainShift {
            op,
            tszh,
            tszl,
            imm3,
            zn,
            zd,
        } => unpredicated::shift_imm(core, vec, op, tszh, tszl, imm3, zn, zd),
        SveForm::Index { op, size, y, x, zd } => index::index(core, vec, op, size, y, x, zd),
        SveForm::Dot {
            op,
            size,
            zm,
            zn,
            zda,
        } => products::dot(core, vec, op, size, zm, zn, zda),
        SveForm::DotIndexed { op, i_zm, zn, zda } => products::dot_indexed(
            core, vec, op, i_zm, zn, zda,
        ),
        SveForm::WideImm {
            op,
            size,
            sh,
            imm8,
            zdn,
        } => immediates::wide_imm(core, vec, op, size, sh, imm8, zdn),
        SveForm::MinMaxImm {
            op,
            size,
            imm8,
            zdn,
        } => immediates::min_max_imm(core, vec, op, size, imm8, zdn),
        SveForm::DupImm { size, sh, imm8, zd } => copies::dup_imm(core, vec, size, sh, imm8, zd),
        SveForm::BitmaskZ {
            op,
            n,
            immr,
            imms,
            zdn,
        } => immediates::bitmask(core, vec, op, n, immr, imms, zdn),
        SveForm::CopyImm {
            size,
            pg,
            m,
            sh,
            imm8,
            zd,
        } => copies::copy_imm(core, vec, size, pg, m, sh, imm8, zd),
        SveForm::PrefixP {
            size,
            m,
            pg,
            zn,
            zd,
        } => copies::prefix_p(core, vec, size, m, pg, zn, zd),
        SveForm::Prefix { zn, zd } => copies::prefix(core, vec, zn, zd),
        SveForm::SelectZ {
            size,
            zm,
            pg,
            zn,
            zd,
        } => copies::select(core, vec, size, zm, pg, zn, zd),
        _ => {}
    }
}
