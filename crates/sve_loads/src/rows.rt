//! The plans of the rows.
ghost use Rattle.std.specs.Prelude.{◌≡◌, ◌≤◌, ◌+◌, ◌*◌, true};
ghost use Rattle.sve_effects.specs.VectorElements.{load_registers, store_registers};
ghost use Rattle.sve_effects.specs.Effects.{is_contiguous_load, is_contiguous_store};
ghost use Rattle.element_loops.specs.declared.plan.Target.{Target};
ghost use Rattle.element_loops.specs.Layouts.{IsPlan};
ghost use Rattle.sve_loads.specs.Plans as table;

use crate::bases::{at_register, near};
use crate::plans::{by_imm, by_register, repeated, replicated, whole_p, whole_z};
use crate::shape::{by_dtype, by_size};
use core_regs::Core;
use element_loops::Plan;
use emu_bits::{PredLow, Reg, U};
use sve_insn::{LoadManyOp, StoreManyOp, Sve, SveForm};
use vec_regs::VecRegs;

/// Two, three or four registers.
fn loaded_registers(op: LoadManyOp) -> u32
    ensures value { result ≡ load_registers op }
    ensures some { 1 ≤ result }
    ensures few { result ≤ 4 }
{
    match op {
        LoadManyOp::Ld2 => 2,
        LoadManyOp::Ld3 => 3,
        LoadManyOp::Ld4 => 4,
    }
}

/// Two, three or four registers.
fn stored_registers(op: StoreManyOp) -> u32
    ensures value { result ≡ store_registers op }
    ensures some { 1 ≤ result }
    ensures few { result ≤ 4 }
{
    match op {
        StoreManyOp::St2 => 2,
        StoreManyOp::St3 => 3,
        StoreManyOp::St4 => 4,
    }
}

/// `ld1rq` at an immediate.
fn quad_imm(
    core: &Core,
    vec: &VecRegs,
    msz: U<2>,
    imm4: U<4>,
    pg: PredLow,
    rn: Reg,
    zt: Reg,
) -> Plan
    ensures plan { IsPlan result vec.now }
    ensures value { result ≡ table.quad_imm_plan msz imm4 pg rn zt core.now vec.now }
{
    repeated(
        vec,
        by_size(msz, msz, 1),
        pg,
        rn,
        zt,
        near(core, rn, imm4, 16),
    )
}

/// `ld1rq` at a register.
fn quad_reg(core: &Core, vec: &VecRegs, msz: U<2>, rm: Reg, pg: PredLow, rn: Reg, zt: Reg) -> Plan
    ensures plan { IsPlan result vec.now }
    ensures value { result ≡ table.quad_reg_plan msz rm pg rn zt core.now vec.now }
{
    let shape = by_size(msz, msz, 1);
    let base = at_register(core, rn, rm, shape.bytes);
    repeated(vec, shape, pg, rn, zt, base)
}

/// `ld1r`.
fn one(
    core: &Core,
    vec: &VecRegs,
    dtypeh: U<2>,
    imm6: U<6>,
    dtypel: U<2>,
    pg: PredLow,
    rn: Reg,
    zt: Reg,
) -> Plan
    ensures plan { IsPlan result vec.now }
    ensures value { result ≡ table.one_plan (table.dtype_shape (dtypeh * 4 + dtypel)) zt pg rn imm6 core.now vec.now }
{
    let dtype = dtypeh.get() * 4 + dtypel.get();
    replicated(core, vec, by_dtype(dtype), pg, rn, imm6, zt)
}

/// The plan of a load.
#[rattlefmt::skip]
pub(crate) fn load_plan(core: &Core, vec: &VecRegs, i: &Sve) -> Plan
    requires { is_contiguous_load i.now ≡ true }
    ensures plan { IsPlan result vec.now }
    ensures value { result ≡ table.load_plan i.now core.now vec.now }
{
    match *i.form() {
        SveForm::LoadImm { dtype, imm4, pg, rn, zt } => by_imm(core, vec, by_dtype(dtype.get()), pg, rn, imm4, zt),
        SveForm::LoadReg { dtype, rm, pg, rn, zt } => by_register(core, vec, by_dtype(dtype.get()), pg, rn, rm, zt),
        SveForm::LoadNtImm { msz, imm4, pg, rn, zt } => by_imm(core, vec, by_size(msz, msz, 1), pg, rn, imm4, zt),
        SveForm::LoadNtReg { msz, rm, pg, rn, zt } => by_register(core, vec, by_size(msz, msz, 1), pg, rn, rm, zt),
        SveForm::LoadQuadImm { msz, imm4, pg, rn, zt } => quad_imm(core, vec, msz, imm4, pg, rn, zt),
        SveForm::LoadQuadReg { msz, rm, pg, rn, zt } => quad_reg(core, vec, msz, rm, pg, rn, zt),
        SveForm::LoadManyImm { op, msz, imm4, pg, rn, zt } =>
            by_imm(core, vec, by_size(msz, msz, loaded_registers(op)), pg, rn, imm4, zt),
        SveForm::LoadManyReg { op, msz, rm, pg, rn, zt } =>
            by_register(core, vec, by_size(msz, msz, loaded_registers(op)), pg, rn, rm, zt),
        SveForm::LoadOne { dtypeh, imm6, dtypel, pg, rn, zt } => one(core, vec, dtypeh, imm6, dtypel, pg, rn, zt),
        SveForm::LoadZ { imm9h, imm9l, rn, zt } => whole_z(core, vec, imm9h, imm9l, rn, zt),
        SveForm::LoadP { imm9h, imm9l, rn, pt } => whole_p(core, vec, imm9h, imm9l, rn, pt),
        _ => unreachable!(),
    }
}

/// The plan of a store.
#[rattlefmt::skip]
pub(crate) fn store_plan(core: &Core, vec: &VecRegs, i: &Sve) -> Plan
    requires { is_contiguous_store i.now ≡ true }
    ensures plan { IsPlan result vec.now }
    ensures value { result ≡ table.store_plan i.now core.now vec.now }
{
    match *i.form() {
        SveForm::StoreImm { msz, size, imm4, pg, rn, zt } => by_imm(core, vec, by_size(size, msz, 1), pg, rn, imm4, zt),
        SveForm::StoreReg { msz, size, rm, pg, rn, zt } =>
            by_register(core, vec, by_size(size, msz, 1), pg, rn, rm, zt),
        SveForm::StoreNtImm { msz, imm4, pg, rn, zt } => by_imm(core, vec, by_size(msz, msz, 1), pg, rn, imm4, zt),
        SveForm::StoreNtReg { msz, rm, pg, rn, zt } => by_register(core, vec, by_size(msz, msz, 1), pg, rn, rm, zt),
        SveForm::StoreManyImm { op, msz, imm4, pg, rn, zt } =>
            by_imm(core, vec, by_size(msz, msz, stored_registers(op)), pg, rn, imm4, zt),
        SveForm::StoreManyReg { op, msz, rm, pg, rn, zt } =>
            by_register(core, vec, by_size(msz, msz, stored_registers(op)), pg, rn, rm, zt),
        SveForm::StoreZ { imm9h, imm9l, rn, zt } => whole_z(core, vec, imm9h, imm9l, rn, zt),
        SveForm::StoreP { imm9h, imm9l, rn, pt } => whole_p(core, vec, imm9h, imm9l, rn, pt),
        _ => unreachable!(),
    }
}

/// The plan of a contiguous first-faulting or non-faulting load.
#[rattlefmt::skip]
pub(crate) fn first_plan(core: &Core, vec: &VecRegs, i: &Sve) -> Plan
    requires { table.is_first_contiguous i.now ≡ true }
    ensures plan { IsPlan result vec.now }
    ensures value { result ≡ table.first_plan i.now core.now vec.now }
    ensures one { result.registers ≡ 1 }
    ensures target { result.target ≡ Target.Registers }
{
    match *i.form() {
        SveForm::LoadFf { dtype, rm, pg, rn, zt } => by_register(core, vec, by_dtype(dtype.get()), pg, rn, rm, zt),
        SveForm::LoadNf { dtype, imm4, pg, rn, zt } => by_imm(core, vec, by_dtype(dtype.get()), pg, rn, imm4, zt),
        _ => unreachable!(),
    }
}
