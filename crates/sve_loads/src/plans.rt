//! Plans by how a row finds its elements.
ghost use Rattle.std.specs.Prelude.{◌≡◌, ◌<◌, ◌/◌, None, false};
ghost use Rattle.emu_model.specs.LaneSizes.{IsLaneSize};
ghost use Rattle.sve_effects.specs.LaneLoop.{is_active};
ghost use Rattle.sve_effects.specs.FirstLast.{first_where};
ghost use Rattle.element_loops.specs.Layouts.{IsPlan};
ghost use Rattle.sve_loads.specs.Plans as table;
ghost use Rattle.sve_loads.specs.Plans.{IsShape};

use crate::bases::{at_register, behind, near, near_whole};
use crate::shape::Shape;
use core_regs::Core;
use element_loops::sizes::is_sp;
use element_loops::{OnLanes, Places, Plan, Target};
use emu_bits::{Pred, PredLow, Reg, U};
use vec_regs::VecRegs;

/// Elements from a base on, for the active lanes.
pub(crate) fn consecutive(
    vec: &VecRegs,
    shape: Shape,
    pg: PredLow,
    rn: Reg,
    zt: Reg,
    base: u64,
) -> Plan
    requires { IsShape shape }
    ensures plan { IsPlan result vec.now }
    ensures value { result ≡ table.consecutive_plan shape zt pg rn base vec.now }
{
    Plan {
        bits: shape.bits,
        bytes: shape.bytes,
        lanes: vec.length().bits() / shape.bits,
        registers: shape.registers,
        register: zt,
        on: OnLanes::Active(pg.register()),
        places: Places::Consecutive(base),
        target: Target::Registers,
        is_signed: shape.is_signed,
        has_sp_base: is_sp(rn),
    }
}

/// The same from a base register and a signed immediate on, which counts the bytes of the elements of all lanes.
pub(crate) fn by_imm(
    core: &Core,
    vec: &VecRegs,
    shape: Shape,
    pg: PredLow,
    rn: Reg,
    imm4: U<4>,
    zt: Reg,
) -> Plan
    requires { IsShape shape }
    ensures plan { IsPlan result vec.now }
    ensures value { result ≡ table.imm_plan shape zt pg rn imm4 core.now vec.now }
{
    let lanes = vec.length().bits() / shape.bits;
    let base = near(core, rn, imm4, shape.registers * lanes * shape.bytes);
    consecutive(vec, shape, pg, rn, zt, base)
}

/// The same from a base register and a register on, which counts elements.
pub(crate) fn by_register(
    core: &Core,
    vec: &VecRegs,
    shape: Shape,
    pg: PredLow,
    rn: Reg,
    rm: Reg,
    zt: Reg,
) -> Plan
    requires { IsShape shape }
    ensures plan { IsPlan result vec.now }
    ensures value { result ≡ table.reg_plan shape zt pg rn rm core.now vec.now }
{
    let base = at_register(core, rn, rm, shape.bytes);
    consecutive(vec, shape, pg, rn, zt, base)
}

/// 128 bits of one register, again and again.
pub(crate) fn repeated(
    vec: &VecRegs,
    shape: Shape,
    pg: PredLow,
    rn: Reg,
    zt: Reg,
    base: u64,
) -> Plan
    requires shape { IsShape shape }
    requires one { shape.registers ≡ 1 }
    requires unsigned { shape.is_signed ≡ false }
    ensures plan { IsPlan result vec.now }
    ensures value { result ≡ table.repeated (table.consecutive_plan shape zt pg rn base vec.now) }
{
    let _length = vec.length();
    Plan {
        lanes: 128 / shape.bits,
        target: Target::Repeated,
        ..consecutive(vec, shape, pg, rn, zt, base)
    }
}

/// The first active lane, if there is one.
fn first_active(vec: &VecRegs, pg: Pred, e: u32) -> Option<u32>
    requires { IsLaneSize e }
    ensures { result ≡ first_where (vec.now.bits / e) (is_active e vec.now pg) }
{
    let lanes = vec.length().bits() / e;
    for k in 0..lanes {
        if vec.is_active(pg, e, k) {
            return Some(k);
        }
    }
    None
}

/// One element of one register, for all active lanes.
pub(crate) fn replicated(
    core: &Core,
    vec: &VecRegs,
    shape: Shape,
    pg: PredLow,
    rn: Reg,
    imm6: U<6>,
    zt: Reg,
) -> Plan
    requires shape { IsShape shape }
    requires one { shape.registers ≡ 1 }
    ensures plan { IsPlan result vec.now }
    ensures value { result ≡ table.one_plan shape zt pg rn imm6 core.now vec.now }
{
    let pg = pg.register();
    Plan {
        bits: shape.bits,
        bytes: shape.bytes,
        lanes: vec.length().bits() / shape.bits,
        registers: shape.registers,
        register: zt,
        on: OnLanes::Only(first_active(vec, pg, shape.bits)),
        places: Places::Single(behind(core, rn, imm6, shape.bytes)),
        target: Target::Replicated(pg),
        is_signed: shape.is_signed,
        has_sp_base: is_sp(rn),
    }
}

/// The bytes of a whole Z register.
pub(crate) fn whole_z(
    core: &Core,
    vec: &VecRegs,
    imm9h: U<6>,
    imm9l: U<3>,
    rn: Reg,
    zt: Reg,
) -> Plan
    ensures plan { IsPlan result vec.now }
    ensures value { result ≡ table.z_plan imm9h imm9l rn zt core.now vec.now }
{
    let bytes = vec.length().bits() / 8;
    Plan {
        bits: 8,
        bytes: 1,
        lanes: bytes,
        registers: 1,
        register: zt,
        on: OnLanes::All,
        places: Places::Bytes(near_whole(core, rn, imm9h, imm9l, bytes)),
        target: Target::Registers,
        is_signed: false,
        has_sp_base: is_sp(rn),
    }
}

/// The bytes of a whole predicate.
pub(crate) fn whole_p(
    core: &Core,
    vec: &VecRegs,
    imm9h: U<6>,
    imm9l: U<3>,
    rn: Reg,
    pt: Pred,
) -> Plan
    ensures plan { IsPlan result vec.now }
    ensures value { result ≡ table.p_plan imm9h imm9l rn pt core.now vec.now }
{
    let bytes = vec.length().bits() / 64;
    Plan {
        bits: 8,
        bytes: 1,
        lanes: bytes,
        registers: 1,
        register: Reg::at(pt.get(), 0),
        on: OnLanes::All,
        places: Places::Bytes(near_whole(core, rn, imm9h, imm9l, bytes)),
        target: Target::Predicate(pt),
        is_signed: false,
        has_sp_base: is_sp(rn),
    }
}
