//! What the SVE rows that work across lanes do: permutes, counts of lanes, and folds over active lanes.
//!
//! A permute works out its whole result before it writes it, by the permutes of slices of `lane_permute`: 128 bits at a
//! time where 128 bits of each source make 128 bits of the result, and over whole registers where runs of lanes move.
#![tactic(auto)]

mod active;
mod chunks;
mod counts;
mod dup;
mod folds;
mod moves;
mod rows;
mod single;
mod slices;
mod table_lookup;

ghost use Rattle.std.specs.Prelude.{◌≡◌, true};
ghost use Rattle.sve_effects.specs.Effects.{is_across, across};

use core_regs::Core;
use sve_insn::{Sve, SveForm};
use vec_regs::VecRegs;

/// Does an instruction of the rows that work across lanes. It writes its destination, a vector register, a predicate or
/// a general register, and nothing else; lanes have 8, 16, 32 or 64 bits (the manual's esize), and those of a dup up
/// to 128.
#[tactic(auto, unfolding(sve_insn::specs::Folds::unpack))]
#[inline(always)]
pub fn exec(core: &mut Core, vec: &mut VecRegs, i: &Sve)
    requires { is_across i.now ≡ true }
    ensures core { core.new ≡ (across i.now core.old vec.old).core }
    ensures vectors { vec.new ≡ (across i.now core.old vec.old).vectors }
{
    match *i.form() {
        SveForm::Reduce {
            op,
            size,
            pg,
            zn,
            vd,
        } => folds::reduce(core, vec, op, size, pg, zn, vd),
        SveForm::Count {
            size,
            imm4,
            pattern,
            rd,
        } => counts::count(core, vec, size, imm4, pattern, rd),
        SveForm::IncX {
            op,
            size,
            imm4,
            pattern,
            rdn,
        } => counts::inc_x(core, vec, op, size, imm4, pattern, rdn),
        SveForm::IncZ {
            op,
            size,
            imm4,
            pattern,
            zdn,
        } => counts::inc_z(core, vec, op, size, imm4, pattern, zdn),
        SveForm::SatX {
            op,
            size,
            sf,
            imm4,
            pattern,
            rdn,
        } => counts::sat_x(core, vec, op, size, sf, imm4, pattern, rdn),
        SveForm::SatZ {
            op,
            size,
            imm4,
            pattern,
            zdn,
        } => counts::sat_z(core, vec, op, size, imm4, pattern, zdn),
        SveForm::AddLength { op, rn, imm6, rd } => counts::add_length(core, vec, op, rn, imm6, rd),
        SveForm::ReadLength { imm6, rd } => counts::read_length(core, vec, imm6, rd),
        SveForm::DupReg { size, rn, zd } => rows::dup_reg(core, vec, size, rn, zd),
        SveForm::DupLane { imm2, tsz, zn, zd } => dup::dup_lane(core, vec, imm2, tsz, zn, zd),
        SveForm::Insert { op, size, src, zdn } => rows::insert(core, vec, op, size, src, zdn),
        SveForm::RevZ { size, zn, zd } => rows::rev_z(core, vec, size, zn, zd),
        SveForm::Unpack { op, size, zn, zd } => rows::unpack(core, vec, op, size, zn, zd),
        SveForm::Table { size, zm, zn, zd } => rows::lookup(core, vec, size, zm, zn, zd),
        SveForm::Interleave {
            op,
            size,
            zm,
            zn,
            zd,
        } => rows::interleave(core, vec, op, size, zm, zn, zd),
        SveForm::InterleaveP {
            op,
            size,
            pm,
            pn,
            pd,
        } => rows::interleave_p(core, vec, op, size, pm, pn, pd),
        SveForm::UnpackP { op, pn, pd } => rows::unpack_p(core, vec, op, pn, pd),
        SveForm::RevP { size, pn, pd } => rows::rev_p(core, vec, size, pn, pd),
        SveForm::Compact { size, pg, zn, zd } => rows::compact(core, vec, size, pg, zn, zd),
        SveForm::Splice { size, pg, zm, zdn } => rows::splice(core, vec, size, pg, zm, zdn),
        SveForm::Ext {
            imm8h,
            imm8l,
            zm,
            zdn,
        } => rows::ext(core, vec, imm8h, imm8l, zm, zdn),
        SveForm::CopyReg {
            op,
            size,
            pg,
            rn,
            zd,
        } => rows::copy_reg(core, vec, op, size, pg, rn, zd),
        SveForm::Last {
            op,
            size,
            pg,
            zn,
            rd,
        } => single::last(core, vec, op, size, pg, zn, rd),
        SveForm::CondLast {
            op,
            size,
            pg,
            zm,
            zdn,
        } => single::cond_last(core, vec, op, size, pg, zm, zdn),
        _ => {}
    }
}
