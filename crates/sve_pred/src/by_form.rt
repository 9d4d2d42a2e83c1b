//! Which instruction on predicates a form is.
ghost use Rattle.std.specs.Prelude.{◌≡◌, true};
ghost use Rattle.sve_effects.specs.Effects.{is_predicate, predicate};

use crate::{breaks, compares, lanes, single};
use core_regs::Core;
use sve_insn::{Sve, SveForm};
use vec_regs::VecRegs;

/// Does an instruction of the rows on predicates, by the function of its form.
#[inline(always)]
pub fn exec(core: &mut Core, vec: &mut VecRegs, i: &Sve)
    requires { is_predicate i.now ≡ true }
    ensures registers { core.new ≡ (predicate i.now core.old vec.old).core }
    ensures vectors { vec.new ≡ (predicate i.now core.old vec.old).vectors }
{
    match *i.form() {
        SveForm::CmpVec {
            op,
            size,
            zm,
            pg,
            zn,
            pd,
        } => compares::vectors(core, vec, op, size, zm, pg, zn, pd),
        SveForm::CmpWide {
            op,
            size,
            zm,
            pg,
            zn,
            pd,
        } => compares::wide(core, vec, op, size, zm, pg, zn, pd),
        SveForm::CmpUImm {
            op,
            size,
            imm7,
            pg,
            zn,
            pd,
        } => compares::unsigned(core, vec, op, size, imm7, pg, zn, pd),
        SveForm::CmpSImm {
            op,
            size,
            imm5,
            pg,
            zn,
            pd,
        } => compares::signed(core, vec, op, size, imm5, pg, zn, pd),
        SveForm::LogicP {
            op,
            s,
            pm,
            pg,
            pn,
            pd,
        } => breaks::logic(core, vec, op, s, pm, pg, pn, pd),
        SveForm::SelectP { pm, pg, pn, pd } => breaks::select(vec, pm, pg, pn, pd),
        SveForm::Break {
            op,
            s,
            pg,
            pn,
            m,
            pd,
        } => breaks::break_first(core, vec, op, s, pg, pn, m, pd),
        SveForm::BreakPair {
            op,
            s,
            pm,
            pg,
            pn,
            pd,
        } => breaks::break_pair(core, vec, op, s, pm, pg, pn, pd),
        SveForm::BreakNext { s, pg, pn, pdm } => breaks::break_next(core, vec, s, pg, pn, pdm),
        SveForm::Ptest { pg, pn } => single::ptest(core, vec, pg, pn),
        SveForm::First { pg, pdn } => single::first(core, vec, pg, pdn),
        SveForm::Next { size, pg, pdn } => lanes::next_lane(core, vec, size, pg, pdn),
        SveForm::Ptrue {
            op,
            size,
            pattern,
            pd,
        } => lanes::ptrue(core, vec, op, size, pattern, pd),
        SveForm::Pfalse { pd } => single::pfalse(vec, pd),
        SveForm::ReadFfr { op, pg, pd } => single::ffr_under(core, vec, op, pg, pd),
        SveForm::ReadFfrAll { pd } => single::ffr_all(vec, pd),
        SveForm::WriteFfr { op, pn } => single::ffr_written(vec, op, pn),
        SveForm::CountP { size, pg, pn, rd } => lanes::count_p(core, vec, size, pg, pn, rd),
        SveForm::IncP { op, size, pm, rdn } => lanes::inc_p(core, vec, op, size, pm, rdn),
        SveForm::IncPZ { op, size, pm, zdn } => lanes::inc_p_z(vec, op, size, pm, zdn),
        SveForm::While {
            op,
            size,
            rm,
            sf,
            rn,
            pd,
        } => lanes::while_lanes(core, vec, op, size, rm, sf, rn, pd),
        SveForm::Cterm { op, sf, rm, rn } => lanes::cterm(core, op, sf, rm, rn),
        _ => {}
    }
}
