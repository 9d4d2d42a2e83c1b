//! Rows whose elements fill the lanes of one register, done at once where the active lanes come before all others and
//! are in one page.
ghost use Rattle.std.specs.Prelude.{
  ℕ,
  ◌≡◌,
  ◌≢◌,
  ◌≤◌,
  ◌<◌,
  ◌/◌,
  ◌%◌,
  ◌*◌,
  ◌+◌,
  ◌^◌,
  ◌||◌,
  List,
  [],
  IfSome,
  None,
  true,
  false,
  nat_eq,
};
ghost use Rattle.emu_model.specs.declared.access.Kind.{Kind};
ghost use Rattle.emu_model.specs.Elements.{Element};
ghost use Rattle.emu_model.specs.LaneSizes.{IsLaneSize};
ghost use Rattle.emu_model.specs.declared.trap.Effect.{Effect};
ghost use Rattle.sve_effects.specs.VectorLoadStore.{is_misaligned};
ghost use Rattle.sve_effects.specs.Effects.{is_contiguous_load, is_contiguous_store};
ghost use Rattle.sve_effects.specs.Rows.{performed};
ghost use Rattle.contiguous_runs.specs.Leading.{AreLeading, HasGap};
ghost use Rattle.element_loops.specs.Planned.{load_by, store_by};
ghost use Rattle.sve_effects.specs.LaneLoop.{lane_bits};
ghost use Rattle.sve_effects.specs.VectorElements.{dtype_bits, dtype_bytes};
ghost use Rattle.sve_loads.specs.AtOnce.{IsAtOnce};
ghost use Rattle.sve_loads.specs.Plans as table;
ghost use Rattle.sve_loads.specs.Plans.{dtype_shape, filled_shape, size_shape};

use crate::bases::{at_register, near, near_whole};
use contiguous_runs::{leading_lanes, load_lanes, store_lanes};
use core_regs::Core;
use element_loops::sizes::is_sp;
use emu_bits::{PredLow, Reg, U};
use guest_mem::{AccessLog, Mem};
use sve_effects::lane_bits;
use sve_insn::{Sve, SveForm};
use vec_regs::VecRegs;

/// The bits of the lanes of a dtype whose elements fill them.
#[inline(always)]
fn filled_by_dtype(dtype: u32) -> Option<u32>
    requires { dtype < 16 }
    ensures size { IfSome result (λ e. IsLaneSize e) }
    ensures shape { IfSome result (λ e. dtype_shape dtype ≡ filled_shape e) }
    ensures other { result ≡ None → dtype_bits dtype ≢ 8 * dtype_bytes dtype }
{
    match dtype {
        0 => Some(8),
        5 => Some(16),
        10 => Some(32),
        15 => Some(64),
        _ => None,
    }
}

/// The bits of the lanes that elements of a size fill.
#[inline(always)]
fn filled_by(size: U<2>) -> u32
    ensures size { IsLaneSize result }
    ensures shape { size_shape size size 1 ≡ filled_shape result }
{
    lane_bits(size)
}

/// The bits of lanes of a size, where it is that of their elements.
#[inline(always)]
fn filled_by_size(size: U<2>, msz: U<2>) -> Option<u32>
    ensures size { IfSome result (λ e. IsLaneSize e) }
    ensures shape { IfSome result (λ e. size_shape size msz 1 ≡ filled_shape e) }
    ensures other { result ≡ None → lane_bits size ≢ 8 * 2 ^ msz }
{
    if size.get() == msz.get() {
        return Some(filled_by(size));
    }
    None
}

/// How many lanes are active, where these come before all others. None where an active lane is behind one that isn't.
#[inline(always)]
fn leading(vec: &VecRegs, pg: PredLow, e: u32) -> Option<u32>
    requires { IsLaneSize e }
    ensures few { IfSome result (λ n. n ≤ vec.now.bits / e) }
    ensures leading { IfSome result (λ n. AreLeading n e pg vec.now) }
    ensures gap { result ≡ None → HasGap e pg vec.now }
{
    leading_lanes(vec, pg.register(), e)
}

/// Whether a base register isn't SP, or SP is a multiple of 16.
#[inline(always)]
fn is_aligned(core: &Core, rn: Reg) -> bool
    ensures aligned { result ≡ true → (es : List Element) → is_misaligned (nat_eq rn 31) es core.now ≡ false }
    ensures not { result ≡ false → nat_eq rn 31 ≡ true }
    ensures sp { result ≡ false → core.now.sp % 16 ≢ 0 }
{
    if is_sp(rn) {
        core.x_sp(Reg::at(31, 0)) % 16 == 0
    } else {
        true
    }
}

/// Loads the first n lanes of a register, which alone are active, and which their elements fill, where they are in one
/// page that may be read, and says whether it did. Else nothing is changed.
#[inline(always)]
fn load_first(
    core: &Core,
    vec: &mut VecRegs,
    mem: &mut Mem,
    log: &mut AccessLog,
    e: u32,
    n: u32,
    pg: PredLow,
    rn: Reg,
    zt: Reg,
    base: u64,
) -> bool
    requires size { IsLaneSize e }
    requires few { n ≤ vec.old.bits / e }
    requires leading { AreLeading n e pg vec.old }
    requires empty { log.old.items ≡ [] }
    ensures loaded { result ≡ true → let p = table.consecutive_plan (filled_shape e) zt pg rn base vec.old in
        load_by p core.now vec.old mem.old.memory ≡ record {
          core = core.now;
          vectors = vec.new;
          memory = mem.new.memory;
          accesses = log.new.items;
          effect = Effect.Next;
        } }
    ensures at_once { (lanes start : ℕ) → let p = table.consecutive_plan (filled_shape e) zt pg rn base vec.old in
        IsAtOnce lanes start Kind.Read p core.now vec.old mem.old.memory → result ≡ true }
    ensures kept { result ≡ false → vec.new ≡ vec.old }
    ensures unlogged { result ≡ false → log.new ≡ log.old }
    ensures memory { mem.new ≡ mem.old }
{
    let _length = vec.length();
    let _number = zt.get();
    if !is_aligned(core, rn) {
        return false;
    }
    load_lanes(vec, mem, log, base, e / 8, n, zt)
}

/// Loads the active lanes of a register of lanes of e bits at an immediate.
#[inline(always)]
fn load_filled_imm(
    core: &Core,
    vec: &mut VecRegs,
    mem: &mut Mem,
    log: &mut AccessLog,
    e: u32,
    imm4: U<4>,
    pg: PredLow,
    rn: Reg,
    zt: Reg,
) -> bool
    requires size { IsLaneSize e }
    requires empty { log.old.items ≡ [] }
    ensures loaded { result ≡ true → let p = table.imm_plan (filled_shape e) zt pg rn imm4 core.now vec.old in
        load_by p core.now vec.old mem.old.memory ≡ record {
          core = core.now;
          vectors = vec.new;
          memory = mem.new.memory;
          accesses = log.new.items;
          effect = Effect.Next;
        } }
    ensures at_once { (n base : ℕ) → let p = table.imm_plan (filled_shape e) zt pg rn imm4 core.now vec.old in
        IsAtOnce n base Kind.Read p core.now vec.old mem.old.memory → result ≡ true }
    ensures kept { result ≡ false → vec.new ≡ vec.old }
    ensures unlogged { result ≡ false → log.new ≡ log.old }
    ensures memory { mem.new ≡ mem.old }
{
    match leading(vec, pg, e) {
        Some(n) => {
            let base = near(core, rn, imm4, vec.length().bits() / 8);
            load_first(core, vec, mem, log, e, n, pg, rn, zt, base)
        }
        None => false,
    }
}

/// `ld1` at an immediate.
#[inline(always)]
pub(crate) fn load_imm(
    core: &Core,
    vec: &mut VecRegs,
    mem: &mut Mem,
    log: &mut AccessLog,
    dtype: U<4>,
    imm4: U<4>,
    pg: PredLow,
    rn: Reg,
    zt: Reg,
) -> bool
    requires { log.old.items ≡ [] }
    ensures loaded { result ≡ true → let p = table.imm_plan (dtype_shape dtype) zt pg rn imm4 core.now vec.old in
        load_by p core.now vec.old mem.old.memory ≡ record {
          core = core.now;
          vectors = vec.new;
          memory = mem.new.memory;
          accesses = log.new.items;
          effect = Effect.Next;
        } }
    ensures at_once { (n base : ℕ) → let p = table.imm_plan (dtype_shape dtype) zt pg rn imm4 core.now vec.old in
        IsAtOnce n base Kind.Read p core.now vec.old mem.old.memory → result ≡ true }
    ensures kept { result ≡ false → vec.new ≡ vec.old }
    ensures unlogged { result ≡ false → log.new ≡ log.old }
    ensures memory { mem.new ≡ mem.old }
{
    match filled_by_dtype(dtype.get()) {
        Some(e) => load_filled_imm(core, vec, mem, log, e, imm4, pg, rn, zt),
        None => false,
    }
}

/// `ldnt1` at an immediate.
#[inline(never)]
fn load_nt_imm(
    core: &Core,
    vec: &mut VecRegs,
    mem: &mut Mem,
    log: &mut AccessLog,
    msz: U<2>,
    imm4: U<4>,
    pg: PredLow,
    rn: Reg,
    zt: Reg,
) -> bool
    requires { log.old.items ≡ [] }
    ensures loaded { result ≡ true → let p = table.imm_plan (size_shape msz msz 1) zt pg rn imm4 core.now vec.old in
        load_by p core.now vec.old mem.old.memory ≡ record {
          core = core.now;
          vectors = vec.new;
          memory = mem.new.memory;
          accesses = log.new.items;
          effect = Effect.Next;
        } }
    ensures at_once { (n base : ℕ) → let p = table.imm_plan (size_shape msz msz 1) zt pg rn imm4 core.now vec.old in
        IsAtOnce n base Kind.Read p core.now vec.old mem.old.memory → result ≡ true }
    ensures kept { result ≡ false → vec.new ≡ vec.old }
    ensures unlogged { result ≡ false → log.new ≡ log.old }
    ensures memory { mem.new ≡ mem.old }
{
    load_filled_imm(core, vec, mem, log, filled_by(msz), imm4, pg, rn, zt)
}

/// Loads the active lanes of a register of lanes of e bits at a register.
#[inline(always)]
fn load_filled_reg(
    core: &Core,
    vec: &mut VecRegs,
    mem: &mut Mem,
    log: &mut AccessLog,
    e: u32,
    rm: Reg,
    pg: PredLow,
    rn: Reg,
    zt: Reg,
) -> bool
    requires size { IsLaneSize e }
    requires empty { log.old.items ≡ [] }
    ensures loaded { result ≡ true → let p = table.reg_plan (filled_shape e) zt pg rn rm core.now vec.old in
        load_by p core.now vec.old mem.old.memory ≡ record {
          core = core.now;
          vectors = vec.new;
          memory = mem.new.memory;
          accesses = log.new.items;
          effect = Effect.Next;
        } }
    ensures at_once { (n base : ℕ) → let p = table.reg_plan (filled_shape e) zt pg rn rm core.now vec.old in
        IsAtOnce n base Kind.Read p core.now vec.old mem.old.memory → result ≡ true }
    ensures kept { result ≡ false → vec.new ≡ vec.old }
    ensures unlogged { result ≡ false → log.new ≡ log.old }
    ensures memory { mem.new ≡ mem.old }
{
    match leading(vec, pg, e) {
        Some(n) => {
            let base = at_register(core, rn, rm, e / 8);
            load_first(core, vec, mem, log, e, n, pg, rn, zt, base)
        }
        None => false,
    }
}

/// `ld1` at a register.
#[inline(always)]
pub(crate) fn load_reg(
    core: &Core,
    vec: &mut VecRegs,
    mem: &mut Mem,
    log: &mut AccessLog,
    dtype: U<4>,
    rm: Reg,
    pg: PredLow,
    rn: Reg,
    zt: Reg,
) -> bool
    requires { log.old.items ≡ [] }
    ensures loaded { result ≡ true → let p = table.reg_plan (dtype_shape dtype) zt pg rn rm core.now vec.old in
        load_by p core.now vec.old mem.old.memory ≡ record {
          core = core.now;
          vectors = vec.new;
          memory = mem.new.memory;
          accesses = log.new.items;
          effect = Effect.Next;
        } }
    ensures at_once { (n base : ℕ) → let p = table.reg_plan (dtype_shape dtype) zt pg rn rm core.now vec.old in
        IsAtOnce n base Kind.Read p core.now vec.old mem.old.memory → result ≡ true }
    ensures kept { result ≡ false → vec.new ≡ vec.old }
    ensures unlogged { result ≡ false → log.new ≡ log.old }
    ensures memory { mem.new ≡ mem.old }
{
    match filled_by_dtype(dtype.get()) {
        Some(e) => load_filled_reg(core, vec, mem, log, e, rm, pg, rn, zt),
        None => false,
    }
}

/// `ldnt1` at a register.
#[inline(never)]
fn load_nt_reg(
    core: &Core,
    vec: &mut VecRegs,
    mem: &mut Mem,
    log: &mut AccessLog,
    msz: U<2>,
    rm: Reg,
    pg: PredLow,
    rn: Reg,
    zt: Reg,
) -> bool
    requires { log.old.items ≡ [] }
    ensures loaded { result ≡ true → let p = table.reg_plan (size_shape msz msz 1) zt pg rn rm core.now vec.old in
        load_by p core.now vec.old mem.old.memory ≡ record {
          core = core.now;
          vectors = vec.new;
          memory = mem.new.memory;
          accesses = log.new.items;
          effect = Effect.Next;
        } }
    ensures at_once { (n base : ℕ) → let p = table.reg_plan (size_shape msz msz 1) zt pg rn rm core.now vec.old in
        IsAtOnce n base Kind.Read p core.now vec.old mem.old.memory → result ≡ true }
    ensures kept { result ≡ false → vec.new ≡ vec.old }
    ensures unlogged { result ≡ false → log.new ≡ log.old }
    ensures memory { mem.new ≡ mem.old }
{
    load_filled_reg(core, vec, mem, log, filled_by(msz), rm, pg, rn, zt)
}

/// `ldr` of a Z register.
#[inline(always)]
pub(crate) fn load_z(
    core: &Core,
    vec: &mut VecRegs,
    mem: &mut Mem,
    log: &mut AccessLog,
    imm9h: U<6>,
    imm9l: U<3>,
    rn: Reg,
    zt: Reg,
) -> bool
    requires { log.old.items ≡ [] }
    ensures loaded { result ≡ true → let p = table.z_plan imm9h imm9l rn zt core.now vec.old in
        load_by p core.now vec.old mem.old.memory ≡ record {
          core = core.now;
          vectors = vec.new;
          memory = mem.new.memory;
          accesses = log.new.items;
          effect = Effect.Next;
        } }
    ensures at_once { (n base : ℕ) → let p = table.z_plan imm9h imm9l rn zt core.now vec.old in
        IsAtOnce n base Kind.Read p core.now vec.old mem.old.memory → result ≡ true }
    ensures kept { result ≡ false → vec.new ≡ vec.old }
    ensures unlogged { result ≡ false → log.new ≡ log.old }
    ensures memory { mem.new ≡ mem.old }
{
    let _number = zt.get();
    if !is_aligned(core, rn) {
        return false;
    }
    let count = vec.length().bits() / 8;
    let base = near_whole(core, rn, imm9h, imm9l, count);
    load_lanes(vec, mem, log, base, 1, count, zt)
}

/// Stores the first n lanes of a register, which alone are active, and which their elements fill, where they are in one
/// page that may be written, and says whether it did. Else nothing is changed.
#[inline(always)]
fn store_first(
    core: &Core,
    vec: &VecRegs,
    mem: &mut Mem,
    log: &mut AccessLog,
    e: u32,
    n: u32,
    pg: PredLow,
    rn: Reg,
    zt: Reg,
    base: u64,
) -> bool
    requires size { IsLaneSize e }
    requires few { n ≤ vec.now.bits / e }
    requires leading { AreLeading n e pg vec.now }
    requires empty { log.old.items ≡ [] }
    ensures stored { result ≡ true → let p = table.consecutive_plan (filled_shape e) zt pg rn base vec.now in
        store_by p core.now vec.now mem.old.memory ≡ record {
          core = core.now;
          vectors = vec.now;
          memory = mem.new.memory;
          accesses = log.new.items;
          effect = Effect.Next;
        } }
    ensures at_once { (lanes start : ℕ) → let p = table.consecutive_plan (filled_shape e) zt pg rn base vec.now in
        IsAtOnce lanes start Kind.Write p core.now vec.now mem.old.memory → result ≡ true }
    ensures kept { result ≡ false → mem.new.memory ≡ mem.old.memory }
    ensures unlogged { result ≡ false → log.new ≡ log.old }
    ensures marks { mem.new.marks ≡ mem.old.marks }
{
    let _length = vec.length();
    let _number = zt.get();
    let _words = vec.z_words(zt);
    if !is_aligned(core, rn) {
        return false;
    }
    store_lanes(vec, mem, log, base, e / 8, n, zt)
}

/// Stores the active lanes of a register of lanes of e bits at an immediate.
#[inline(always)]
fn store_filled_imm(
    core: &Core,
    vec: &VecRegs,
    mem: &mut Mem,
    log: &mut AccessLog,
    e: u32,
    imm4: U<4>,
    pg: PredLow,
    rn: Reg,
    zt: Reg,
) -> bool
    requires size { IsLaneSize e }
    requires empty { log.old.items ≡ [] }
    ensures stored { result ≡ true → let p = table.imm_plan (filled_shape e) zt pg rn imm4 core.now vec.now in
        store_by p core.now vec.now mem.old.memory ≡ record {
          core = core.now;
          vectors = vec.now;
          memory = mem.new.memory;
          accesses = log.new.items;
          effect = Effect.Next;
        } }
    ensures at_once { (n base : ℕ) → let p = table.imm_plan (filled_shape e) zt pg rn imm4 core.now vec.now in
        IsAtOnce n base Kind.Write p core.now vec.now mem.old.memory → result ≡ true }
    ensures kept { result ≡ false → mem.new.memory ≡ mem.old.memory }
    ensures unlogged { result ≡ false → log.new ≡ log.old }
    ensures marks { mem.new.marks ≡ mem.old.marks }
{
    match leading(vec, pg, e) {
        Some(n) => {
            let base = near(core, rn, imm4, vec.length().bits() / 8);
            store_first(core, vec, mem, log, e, n, pg, rn, zt, base)
        }
        None => false,
    }
}

/// `st1` at an immediate.
#[inline(always)]
pub(crate) fn store_imm(
    core: &Core,
    vec: &VecRegs,
    mem: &mut Mem,
    log: &mut AccessLog,
    msz: U<2>,
    size: U<2>,
    imm4: U<4>,
    pg: PredLow,
    rn: Reg,
    zt: Reg,
) -> bool
    requires { log.old.items ≡ [] }
    ensures stored { result ≡ true → let p = table.imm_plan (size_shape size msz 1) zt pg rn imm4 core.now vec.now in
        store_by p core.now vec.now mem.old.memory ≡ record {
          core = core.now;
          vectors = vec.now;
          memory = mem.new.memory;
          accesses = log.new.items;
          effect = Effect.Next;
        } }
    ensures at_once { (n base : ℕ) → let p = table.imm_plan (size_shape size msz 1) zt pg rn imm4 core.now vec.now in
        IsAtOnce n base Kind.Write p core.now vec.now mem.old.memory → result ≡ true }
    ensures kept { result ≡ false → mem.new.memory ≡ mem.old.memory }
    ensures unlogged { result ≡ false → log.new ≡ log.old }
    ensures marks { mem.new.marks ≡ mem.old.marks }
{
    match filled_by_size(size, msz) {
        Some(e) => store_filled_imm(core, vec, mem, log, e, imm4, pg, rn, zt),
        None => false,
    }
}

/// `stnt1` at an immediate.
#[inline(never)]
fn store_nt_imm(
    core: &Core,
    vec: &VecRegs,
    mem: &mut Mem,
    log: &mut AccessLog,
    msz: U<2>,
    imm4: U<4>,
    pg: PredLow,
    rn: Reg,
    zt: Reg,
) -> bool
    requires { log.old.items ≡ [] }
    ensures stored { result ≡ true → let p = table.imm_plan (size_shape msz msz 1) zt pg rn imm4 core.now vec.now in
        store_by p core.now vec.now mem.old.memory ≡ record {
          core = core.now;
          vectors = vec.now;
          memory = mem.new.memory;
          accesses = log.new.items;
          effect = Effect.Next;
        } }
    ensures at_once { (n base : ℕ) → let p = table.imm_plan (size_shape msz msz 1) zt pg rn imm4 core.now vec.now in
        IsAtOnce n base Kind.Write p core.now vec.now mem.old.memory → result ≡ true }
    ensures kept { result ≡ false → mem.new.memory ≡ mem.old.memory }
    ensures unlogged { result ≡ false → log.new ≡ log.old }
    ensures marks { mem.new.marks ≡ mem.old.marks }
{
    store_filled_imm(core, vec, mem, log, filled_by(msz), imm4, pg, rn, zt)
}

/// Stores the active lanes of a register of lanes of e bits at a register.
#[inline(always)]
fn store_filled_reg(
    core: &Core,
    vec: &VecRegs,
    mem: &mut Mem,
    log: &mut AccessLog,
    e: u32,
    rm: Reg,
    pg: PredLow,
    rn: Reg,
    zt: Reg,
) -> bool
    requires size { IsLaneSize e }
    requires empty { log.old.items ≡ [] }
    ensures stored { result ≡ true → let p = table.reg_plan (filled_shape e) zt pg rn rm core.now vec.now in
        store_by p core.now vec.now mem.old.memory ≡ record {
          core = core.now;
          vectors = vec.now;
          memory = mem.new.memory;
          accesses = log.new.items;
          effect = Effect.Next;
        } }
    ensures at_once { (n base : ℕ) → let p = table.reg_plan (filled_shape e) zt pg rn rm core.now vec.now in
        IsAtOnce n base Kind.Write p core.now vec.now mem.old.memory → result ≡ true }
    ensures kept { result ≡ false → mem.new.memory ≡ mem.old.memory }
    ensures unlogged { result ≡ false → log.new ≡ log.old }
    ensures marks { mem.new.marks ≡ mem.old.marks }
{
    match leading(vec, pg, e) {
        Some(n) => {
            let base = at_register(core, rn, rm, e / 8);
            store_first(core, vec, mem, log, e, n, pg, rn, zt, base)
        }
        None => false,
    }
}

/// `st1` at a register.
#[inline(always)]
pub(crate) fn store_reg(
    core: &Core,
    vec: &VecRegs,
    mem: &mut Mem,
    log: &mut AccessLog,
    msz: U<2>,
    size: U<2>,
    rm: Reg,
    pg: PredLow,
    rn: Reg,
    zt: Reg,
) -> bool
    requires { log.old.items ≡ [] }
    ensures stored { result ≡ true → let p = table.reg_plan (size_shape size msz 1) zt pg rn rm core.now vec.now in
        store_by p core.now vec.now mem.old.memory ≡ record {
          core = core.now;
          vectors = vec.now;
          memory = mem.new.memory;
          accesses = log.new.items;
          effect = Effect.Next;
        } }
    ensures at_once { (n base : ℕ) → let p = table.reg_plan (size_shape size msz 1) zt pg rn rm core.now vec.now in
        IsAtOnce n base Kind.Write p core.now vec.now mem.old.memory → result ≡ true }
    ensures kept { result ≡ false → mem.new.memory ≡ mem.old.memory }
    ensures unlogged { result ≡ false → log.new ≡ log.old }
    ensures marks { mem.new.marks ≡ mem.old.marks }
{
    match filled_by_size(size, msz) {
        Some(e) => store_filled_reg(core, vec, mem, log, e, rm, pg, rn, zt),
        None => false,
    }
}

/// `stnt1` at a register.
#[inline(never)]
fn store_nt_reg(
    core: &Core,
    vec: &VecRegs,
    mem: &mut Mem,
    log: &mut AccessLog,
    msz: U<2>,
    rm: Reg,
    pg: PredLow,
    rn: Reg,
    zt: Reg,
) -> bool
    requires { log.old.items ≡ [] }
    ensures stored { result ≡ true → let p = table.reg_plan (size_shape msz msz 1) zt pg rn rm core.now vec.now in
        store_by p core.now vec.now mem.old.memory ≡ record {
          core = core.now;
          vectors = vec.now;
          memory = mem.new.memory;
          accesses = log.new.items;
          effect = Effect.Next;
        } }
    ensures at_once { (n base : ℕ) → let p = table.reg_plan (size_shape msz msz 1) zt pg rn rm core.now vec.now in
        IsAtOnce n base Kind.Write p core.now vec.now mem.old.memory → result ≡ true }
    ensures kept { result ≡ false → mem.new.memory ≡ mem.old.memory }
    ensures unlogged { result ≡ false → log.new ≡ log.old }
    ensures marks { mem.new.marks ≡ mem.old.marks }
{
    store_filled_reg(core, vec, mem, log, filled_by(msz), rm, pg, rn, zt)
}

/// `str` of a Z register.
#[inline(always)]
pub(crate) fn store_z(
    core: &Core,
    vec: &VecRegs,
    mem: &mut Mem,
    log: &mut AccessLog,
    imm9h: U<6>,
    imm9l: U<3>,
    rn: Reg,
    zt: Reg,
) -> bool
    requires { log.old.items ≡ [] }
    ensures stored { result ≡ true → let p = table.z_plan imm9h imm9l rn zt core.now vec.now in
        store_by p core.now vec.now mem.old.memory ≡ record {
          core = core.now;
          vectors = vec.now;
          memory = mem.new.memory;
          accesses = log.new.items;
          effect = Effect.Next;
        } }
    ensures at_once { (n base : ℕ) → let p = table.z_plan imm9h imm9l rn zt core.now vec.now in
        IsAtOnce n base Kind.Write p core.now vec.now mem.old.memory → result ≡ true }
    ensures kept { result ≡ false → mem.new.memory ≡ mem.old.memory }
    ensures unlogged { result ≡ false → log.new ≡ log.old }
    ensures marks { mem.new.marks ≡ mem.old.marks }
{
    let _number = zt.get();
    let _words = vec.z_words(zt);
    if !is_aligned(core, rn) {
        return false;
    }
    let count = vec.length().bits() / 8;
    let base = near_whole(core, rn, imm9h, imm9l, count);
    store_lanes(vec, mem, log, base, 1, count, zt)
}

/// Does a load or a store at once where its elements fill the first lanes of a register, which alone are active, and are
/// in one page that has the right; and says whether it did. Else nothing is changed.
#[rattlefmt::skip]
#[inline(never)]
pub(crate) fn by_form(core: &Core, vec: &mut VecRegs, mem: &mut Mem, log: &mut AccessLog, i: &Sve) -> bool
    requires own { (is_contiguous_load i.now || is_contiguous_store i.now) ≡ true }
    requires empty { log.old.items ≡ [] }
    ensures done { result ≡ true → performed i.now core.now vec.old mem.old.memory ≡ record {
      core = core.now;
      vectors = vec.new;
      memory = mem.new.memory;
      accesses = log.new.items;
      effect = Effect.Next;
    } }
    ensures loads { (n base : ℕ) → is_contiguous_load i.now ≡ true → let p = table.load_plan i.now core.now vec.old in
        IsAtOnce n base Kind.Read p core.now vec.old mem.old.memory → result ≡ true }
    ensures stores { (n base : ℕ) → is_contiguous_store i.now ≡ true → let p = table.store_plan i.now core.now vec.old in
        IsAtOnce n base Kind.Write p core.now vec.old mem.old.memory → result ≡ true }
    ensures kept { result ≡ false → vec.new ≡ vec.old }
    ensures unlogged { result ≡ false → log.new ≡ log.old }
    ensures memory { result ≡ false → mem.new.memory ≡ mem.old.memory }
    ensures marks { mem.new.marks ≡ mem.old.marks }
{
    match *i.form() {
        SveForm::LoadImm { dtype, imm4, pg, rn, zt } => load_imm(core, vec, mem, log, dtype, imm4, pg, rn, zt),
        SveForm::LoadReg { dtype, rm, pg, rn, zt } => load_reg(core, vec, mem, log, dtype, rm, pg, rn, zt),
        SveForm::LoadNtImm { msz, imm4, pg, rn, zt } => load_nt_imm(core, vec, mem, log, msz, imm4, pg, rn, zt),
        SveForm::LoadNtReg { msz, rm, pg, rn, zt } => load_nt_reg(core, vec, mem, log, msz, rm, pg, rn, zt),
        SveForm::LoadZ { imm9h, imm9l, rn, zt } => load_z(core, vec, mem, log, imm9h, imm9l, rn, zt),
        SveForm::StoreImm { msz, size, imm4, pg, rn, zt } => store_imm(core, vec, mem, log, msz, size, imm4, pg, rn, zt),
        SveForm::StoreReg { msz, size, rm, pg, rn, zt } => store_reg(core, vec, mem, log, msz, size, rm, pg, rn, zt),
        SveForm::StoreNtImm { msz, imm4, pg, rn, zt } => store_nt_imm(core, vec, mem, log, msz, imm4, pg, rn, zt),
        SveForm::StoreNtReg { msz, rm, pg, rn, zt } => store_nt_reg(core, vec, mem, log, msz, rm, pg, rn, zt),
        SveForm::StoreZ { imm9h, imm9l, rn, zt } => store_z(core, vec, mem, log, imm9h, imm9l, rn, zt),
        SveForm::LoadQuadImm { .. }
        | SveForm::LoadQuadReg { .. }
        | SveForm::LoadManyImm { .. }
        | SveForm::LoadManyReg { .. }
        | SveForm::LoadOne { .. }
        | SveForm::LoadP { .. }
        | SveForm::StoreManyImm { .. }
        | SveForm::StoreManyReg { .. }
        | SveForm::StoreP { .. } => false,
        _ => unreachable!(),
    }
}
