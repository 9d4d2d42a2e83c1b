//! The plans of gathers and scatters.
ghost use Rattle.std.specs.Prelude.{◌≡◌, ◌⊎◌, ◌*◌, ◌^◌, true};
ghost use Rattle.emu_model.specs.State.{read_x_sp};
ghost use Rattle.sve_gather.specs.Gathers.{IsGather};
ghost use Rattle.element_loops.specs.declared.plan.Places.{Places};
ghost use Rattle.element_loops.specs.Layouts.{IsPlan};
ghost use Rattle.sve_gather.specs.Plans as table;

use core_regs::Core;
use element_loops::sizes::{element_bytes, is_sp};
use element_loops::{OnLanes, Places, Plan, Target};
use emu_bits::{PredLow, Reg, U};
use sve_insn::{Sve, SveForm};
use vec_regs::VecRegs;

/// Elements at some places, for the active lanes of one register.
fn scattered(
    vec: &VecRegs,
    bits: u32,
    msz: U<2>,
    pg: PredLow,
    zt: Reg,
    places: Places,
    is_signed: bool,
    has_sp_base: bool,
) -> Plan
    requires { (bits ≡ 32) ⊎ (bits ≡ 64) }
    ensures plan { IsPlan result vec.now }
    ensures gather { IsGather result }
    ensures value { result ≡ table.scattered_plan bits (2 ^ msz) zt pg places is_signed has_sp_base vec.now }
{
    Plan {
        bits,
        bytes: element_bytes(msz),
        lanes: vec.length().bits() / bits,
        registers: 1,
        register: zt,
        on: OnLanes::Active(pg.register()),
        places,
        target: Target::Registers,
        is_signed,
        has_sp_base,
    }
}

/// A base register and the low 32 bits of the lanes of zm, times `scale` bytes.
fn words(core: &Core, rn: Reg, xs: bool, zm: Reg, scale: u32) -> Places
    ensures { result ≡ Places.Words (read_x_sp core.now rn) xs zm scale }
{
    Places::Words {
        base: core.x_sp(rn),
        is_signed: xs,
        zm,
        scale,
    }
}

/// A base register and the lanes of zm, times `scale` bytes.
fn offsets(core: &Core, rn: Reg, zm: Reg, scale: u32) -> Places
    ensures { result ≡ Places.Offsets (read_x_sp core.now rn) zm scale }
{
    Places::Offsets {
        base: core.x_sp(rn),
        zm,
        scale,
    }
}

/// The lanes of zn, and imm5 elements on.
fn vector(zn: Reg, imm5: U<5>, msz: U<2>) -> Places
    ensures { result ≡ Places.Vector zn (imm5 * 2 ^ msz) }
{
    Places::Vector {
        zn,
        offset: imm5.get() * element_bytes(msz),
    }
}

/// The plan of a gather or a scatter. It isn't inlined, so that nothing of it is where it isn't the most of the work.
#[inline(never)]
pub(crate) fn plan_apart(core: &Core, vec: &VecRegs, i: &Sve) -> Plan
    requires { table.has_gather_plan i.now ≡ true }
    ensures plan { IsPlan result vec.now }
    ensures gather { IsGather result }
    ensures value { result ≡ table.plan_of i.now core.now vec.now }
{
    plan(core, vec, i)
}

/// The plan of a gather or a scatter.
#[rattlefmt::skip]
#[inline(always)]
pub(crate) fn plan(core: &Core, vec: &VecRegs, i: &Sve) -> Plan
    requires { table.has_gather_plan i.now ≡ true }
    ensures plan { IsPlan result vec.now }
    ensures gather { IsGather result }
    ensures value { result ≡ table.plan_of i.now core.now vec.now }
{
    match *i.form() {
        SveForm::GatherSx { msz, xs, zm, u, pg, rn, zt, .. } =>
            scattered(vec, 32, msz, pg, zt, words(core, rn, xs, zm, 1), !u, is_sp(rn)),
        SveForm::GatherSxScaled { msz, xs, zm, u, pg, rn, zt, .. } =>
            scattered(vec, 32, msz, pg, zt, words(core, rn, xs, zm, element_bytes(msz)), !u, is_sp(rn)),
        SveForm::GatherDx { msz, xs, zm, u, pg, rn, zt, .. } =>
            scattered(vec, 64, msz, pg, zt, words(core, rn, xs, zm, 1), !u, is_sp(rn)),
        SveForm::GatherDxScaled { msz, xs, zm, u, pg, rn, zt, .. } =>
            scattered(vec, 64, msz, pg, zt, words(core, rn, xs, zm, element_bytes(msz)), !u, is_sp(rn)),
        SveForm::GatherD { msz, zm, u, pg, rn, zt, .. } =>
            scattered(vec, 64, msz, pg, zt, offsets(core, rn, zm, 1), !u, is_sp(rn)),
        SveForm::GatherDScaled { msz, zm, u, pg, rn, zt, .. } =>
            scattered(vec, 64, msz, pg, zt, offsets(core, rn, zm, element_bytes(msz)), !u, is_sp(rn)),
        SveForm::GatherSv { msz, imm5, u, pg, zn, zt, .. } =>
            scattered(vec, 32, msz, pg, zt, vector(zn, imm5, msz), !u, false),
        SveForm::GatherDv { msz, imm5, u, pg, zn, zt, .. } =>
            scattered(vec, 64, msz, pg, zt, vector(zn, imm5, msz), !u, false),
        SveForm::ScatterSx { msz, zm, xs, pg, rn, zt } =>
            scattered(vec, 32, msz, pg, zt, words(core, rn, xs, zm, 1), false, is_sp(rn)),
        SveForm::ScatterSxScaled { msz, zm, xs, pg, rn, zt } =>
            scattered(vec, 32, msz, pg, zt, words(core, rn, xs, zm, element_bytes(msz)), false, is_sp(rn)),
        SveForm::ScatterDx { msz, zm, xs, pg, rn, zt } =>
            scattered(vec, 64, msz, pg, zt, words(core, rn, xs, zm, 1), false, is_sp(rn)),
        SveForm::ScatterDxScaled { msz, zm, xs, pg, rn, zt } =>
            scattered(vec, 64, msz, pg, zt, words(core, rn, xs, zm, element_bytes(msz)), false, is_sp(rn)),
        SveForm::ScatterD { msz, zm, pg, rn, zt } =>
            scattered(vec, 64, msz, pg, zt, offsets(core, rn, zm, 1), false, is_sp(rn)),
        SveForm::ScatterDScaled { msz, zm, pg, rn, zt } =>
            scattered(vec, 64, msz, pg, zt, offsets(core, rn, zm, element_bytes(msz)), false, is_sp(rn)),
        SveForm::ScatterSv { msz, imm5, pg, zn, zt } =>
            scattered(vec, 32, msz, pg, zt, vector(zn, imm5, msz), false, false),
        SveForm::ScatterDv { msz, imm5, pg, zn, zt } =>
            scattered(vec, 64, msz, pg, zt, vector(zn, imm5, msz), false, false),
        _ => unreachable!(),
    }
}
