//! The elements of an access: each is loaded or stored as a whole, or refused, and what was done is logged.
ghost use Rattle.std.specs.Prelude.{◌≡◌, ◌≤◌, ◌<◌, ◌*◌, ◌^◌, ◌∷◌, []};
ghost use Rattle.emu_model.specs.State.{Core as CoreState};
ghost use Rattle.emu_model.specs.declared.access.Kind.{Kind};
ghost use Rattle.emu_model.specs.Elements.{reach};
ghost use Rattle.a64_effects.specs.LoadStore as table;
ghost use Rattle.a64_flow.specs.Ends.{followed_by, greatest_of};
ghost use Rattle.vec_regs.specs.Packed.{IsLowSize};

use crate::fields::is_vector;
use a64_effects::Transfer;
use core_regs::{Core, Trap};
use emu_bits::{Reg, sign_extended};
use guest_mem::element_access::{load_here, store_here};
use guest_mem::{AccessLog, Mem};
use vec_regs::VecRegs;

/// What a load of n bytes puts into its register.
fn loaded_value(t: Transfer, n: u32, v: u64) -> u64
    requires some { 1 ≤ n }
    requires most { n ≤ 8 }
    ensures { result ≡ table.loaded_value t n v }
{
    match t {
        Transfer::LoadSigned => sign_extended(v, 8 * n, 64),
        Transfer::LoadSigned32 => sign_extended(v, 8 * n, 32),
        _ => v,
    }
}

/// What a store takes an element's bytes from: a general register, or the low 128 bits of a vector register.
pub(crate) fn stored_value(core: &Core, vec: &VecRegs, t: Transfer, rt: Reg) -> u128
    ensures { result ≡ table.stored_value t core.now vec.now rt }
{
    if is_vector(t) {
        vec.low(rt)
    } else {
        core.x(rt) as u128
    }
}

/// Puts an element's bytes into its register: the low bytes of a vector register, or a general register, extended.
#[inline(always)]
pub(crate) fn put_loaded(core: &mut Core, vec: &mut VecRegs, t: Transfer, rt: Reg, n: u32, v: u128)
    requires some { 1 ≤ n }
    requires most { n ≤ greatest_of t }
    requires size { IsLowSize (8 * n) }
    requires small { v < 256 ^ n }
    ensures { table.with_element t rt n v (record { core = core.old; vectors = vec.old })
        ≡ record { core = core.new; vectors = vec.new } }
{
    if is_vector(t) {
        vec.set_low(rt, 8 * n, v);
    } else {
        core.set_x(rt, 64, loaded_value(t, n, v as u64));
    }
}

/// Stores one register.
#[inline(always)]
fn store_one(
    core: &Core,
    vec: &VecRegs,
    mem: &mut Mem,
    log: &mut AccessLog,
    t: Transfer,
    rt: Reg,
    address: u64,
    n: u32,
) -> Result<(), Trap>
    requires some { 1 ≤ n }
    requires most { n ≤ 16 }
    requires empty { log.old.items ≡ [] }
    ensures done { (after : CoreState → CoreState) → table.stored_to t
        (reach mem.old.memory Kind.Write (record { lane = 0; register = rt; address = address; bytes = n } ∷ [])) after
        core.now vec.now mem.old.memory ≡ followed_by after result core.now vec.now mem.new.memory log.new.items }
    ensures marks { mem.new.marks ≡ mem.old.marks }
{
    let v = stored_value(core, vec, t, rt);
    store_here(mem, log, v, address, n)
}

/// Loads one register.
#[inline(always)]
fn load_one(
    core: &mut Core,
    vec: &mut VecRegs,
    mem: &mut Mem,
    log: &mut AccessLog,
    t: Transfer,
    rt: Reg,
    address: u64,
    n: u32,
) -> Result<(), Trap>
    requires some { 1 ≤ n }
    requires most { n ≤ greatest_of t }
    requires size { IsLowSize (8 * n) }
    requires empty { log.old.items ≡ [] }
    ensures done { (after : CoreState → CoreState) → table.loaded_to t
        (reach mem.old.memory Kind.Read (record { lane = 0; register = rt; address = address; bytes = n } ∷ [])) after
        core.old vec.old mem.old.memory ≡ followed_by after result core.new vec.new mem.new.memory log.new.items }
    ensures marks { mem.new.marks ≡ mem.old.marks }
{
    let v = load_here(mem, log, address, n)?;
    put_loaded(core, vec, t, rt, n, v);
    Ok(())
}

/// Stores or loads one register, or none for a prefetch.
pub(crate) fn single(
    core: &mut Core,
    vec: &mut VecRegs,
    mem: &mut Mem,
    log: &mut AccessLog,
    t: Transfer,
    rt: Reg,
    address: u64,
    n: u32,
) -> Result<(), Trap>
    requires some { 1 ≤ n }
    requires most { n ≤ greatest_of t }
    requires size { IsLowSize (8 * n) }
    requires empty { log.old.items ≡ [] }
    ensures done { (after : CoreState → CoreState)
        → table.transferred t (table.elements_from (table.registers_of t rt) address n) after core.old vec.old mem.old.memory
        ≡ followed_by after result core.new vec.new mem.new.memory log.new.items }
    ensures marks { mem.new.marks ≡ mem.old.marks }
{
    match t {
        Transfer::Prefetch => Ok(()),
        Transfer::Store | Transfer::StoreVector => store_one(
            core, vec, mem, log, t, rt, address, n,
        ),
        Transfer::Load | Transfer::LoadSigned | Transfer::LoadSigned32 | Transfer::LoadVector =>
            load_one(core, vec, mem, log, t, rt, address, n),
    }
}

/// Stores two registers, one behind the other.
#[inline(always)]
#[tactic(auto, using(emu_model::specs::AccessLaws::refused_stored))]
fn store_couple(
    core: &Core,
    vec: &VecRegs,
    mem: &mut Mem,
    log: &mut AccessLog,
    t: Transfer,
    rt: Reg,
    rt2: Reg,
    address: u64,
    n: u32,
) -> Result<(), Trap>
    requires some { 1 ≤ n }
    requires most { n ≤ 16 }
    requires empty { log.old.items ≡ [] }
    ensures done { (after : CoreState → CoreState) → table.stored_to t
        (reach mem.old.memory Kind.Write (table.elements_from (rt ∷ rt2 ∷ []) address n)) after core.now vec.now
        mem.old.memory ≡ followed_by after result core.now vec.now mem.new.memory log.new.items }
    ensures marks { mem.new.marks ≡ mem.old.marks }
{
    let first = stored_value(core, vec, t, rt);
    let second = stored_value(core, vec, t, rt2);
    store_here(mem, log, first, address, n)?;
    store_here(mem, log, second, address.wrapping_add(n as u64), n)
}

/// Loads two registers, one behind the other, or none.
#[inline(always)]
fn load_couple(
    core: &mut Core,
    vec: &mut VecRegs,
    mem: &mut Mem,
    log: &mut AccessLog,
    t: Transfer,
    rt: Reg,
    rt2: Reg,
    address: u64,
    n: u32,
) -> Result<(), Trap>
    requires some { 1 ≤ n }
    requires most { n ≤ greatest_of t }
    requires size { IsLowSize (8 * n) }
    requires empty { log.old.items ≡ [] }
    ensures done { (after : CoreState → CoreState) → table.loaded_to t
        (reach mem.old.memory Kind.Read (table.elements_from (rt ∷ rt2 ∷ []) address n)) after core.old vec.old
        mem.old.memory ≡ followed_by after result core.new vec.new mem.new.memory log.new.items }
    ensures marks { mem.new.marks ≡ mem.old.marks }
{
    let first = load_here(mem, log, address, n)?;
    let second = load_here(mem, log, address.wrapping_add(n as u64), n)?;
    put_loaded(core, vec, t, rt, n, first);
    put_loaded(core, vec, t, rt2, n, second);
    Ok(())
}

/// Stores or loads two registers, one behind the other. A store that is refused at the second has stored the first; a
/// load that is refused changes neither. The arms of a store read alike: each is compiled for its own size of access.
pub(crate) fn couple(
    core: &mut Core,
    vec: &mut VecRegs,
    mem: &mut Mem,
    log: &mut AccessLog,
    t: Transfer,
    rt: Reg,
    rt2: Reg,
    address: u64,
    n: u32,
) -> Result<(), Trap>
    requires some { 1 ≤ n }
    requires most { n ≤ greatest_of t }
    requires size { IsLowSize (8 * n) }
    requires empty { log.old.items ≡ [] }
    ensures done { (after : CoreState → CoreState)
        → table.transferred t (table.elements_from (rt ∷ rt2 ∷ []) address n) after core.old vec.old mem.old.memory
        ≡ followed_by after result core.new vec.new mem.new.memory log.new.items }
    ensures marks { mem.new.marks ≡ mem.old.marks }
{
    match t {
        Transfer::Store | Transfer::StoreVector => match n {
            16 => store_couple(core, vec, mem, log, t, rt, rt2, address, n),
            8 => store_couple(core, vec, mem, log, t, rt, rt2, address, n),
            4 => store_couple(core, vec, mem, log, t, rt, rt2, address, n),
            _ => store_couple(core, vec, mem, log, t, rt, rt2, address, n),
        },
        _ => load_couple(core, vec, mem, log, t, rt, rt2, address, n),
    }
}
