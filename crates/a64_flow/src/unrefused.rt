//! Accesses of one register that no test refuses. Each answers whether it was done: an answer with a trap would lie in
//! memory, and take as long as the access.
ghost use Rattle.std.specs.Prelude.{◌≡◌, ◌≤◌, ◌*◌, ◌∷◌, [], false, true, nat_eq};
ghost use Rattle.emu_model.specs.State.{Core as CoreState};
ghost use Rattle.emu_model.specs.declared.access.Kind.{Kind};
ghost use Rattle.emu_model.specs.Elements.{reach};
ghost use Rattle.a64_effects.specs.LoadStore as table;
ghost use Rattle.a64_effects.specs.LoadStore.{transferred_by};
ghost use Rattle.a64_effects.specs.Operations.{one_transfer};
ghost use Rattle.a64_flow.specs.Ends.{done_with, greatest_of};
ghost use Rattle.vec_regs.specs.Packed.{IsLowSize};

use crate::elements::{put_loaded, stored_value};
use crate::fields::{access_bytes, transfer};
use a64_effects::Transfer;
use core_regs::Core;
use emu_bits::{Reg, U};
use guest_mem::element_access::{load_here, store_here};
use guest_mem::{AccessLog, Mem};
use vec_regs::VecRegs;

/// Loads or stores one register where no test refuses it, and answers whether it did. Else nothing is changed, and so it
/// is with a prefetch.
#[inline(always)]
pub(crate) fn moved(
    core: &mut Core,
    vec: &mut VecRegs,
    mem: &mut Mem,
    log: &mut AccessLog,
    v: bool,
    size: U<2>,
    opc: U<2>,
    rn: Reg,
    rt: Reg,
    address: u64,
) -> bool
    requires { log.old.items ≡ [] }
    ensures done { result ≡ true → (after : CoreState → CoreState)
        → transferred_by (one_transfer v size opc rn rt address after)
        core.old vec.old mem.old.memory
        ≡ done_with after core.new vec.new mem.new.memory log.new.items }
    ensures core { result ≡ false → core.new ≡ core.old }
    ensures vectors { result ≡ false → vec.new ≡ vec.old }
    ensures memory { result ≡ false → mem.new.memory ≡ mem.old.memory }
    ensures log { result ≡ false → log.new.items ≡ [] }
    ensures marks { mem.new.marks ≡ mem.old.marks }
{
    if is_misaligned(core, rn) {
        return false;
    }
    let n = access_bytes(v, size, opc);
    moved_from_base(
        core,
        vec,
        mem,
        log,
        transfer(v, size, opc),
        rn,
        rt,
        address,
        n,
    )
}

/// The same where the base may be used.
#[inline(always)]
fn moved_from_base(
    core: &mut Core,
    vec: &mut VecRegs,
    mem: &mut Mem,
    log: &mut AccessLog,
    t: Transfer,
    rn: Reg,
    rt: Reg,
    address: u64,
    n: u32,
) -> bool
    requires some { 1 ≤ n }
    requires most { n ≤ greatest_of t }
    requires size { IsLowSize (8 * n) }
    requires aligned { table.is_misaligned (nat_eq rn 31) core.old ≡ false }
    requires empty { log.old.items ≡ [] }
    ensures done { result ≡ true → (after : CoreState → CoreState)
        → table.tested (table.has_sp t rn) None core.old vec.old mem.old.memory
        (table.transferred t (table.elements_from (table.registers_of t rt) address n) after core.old vec.old mem.old.memory)
        ≡ done_with after core.new vec.new mem.new.memory log.new.items }
    ensures core { result ≡ false → core.new ≡ core.old }
    ensures vectors { result ≡ false → vec.new ≡ vec.old }
    ensures memory { result ≡ false → mem.new.memory ≡ mem.old.memory }
    ensures log { result ≡ false → log.new.items ≡ [] }
    ensures marks { mem.new.marks ≡ mem.old.marks }
{
    match t {
        Transfer::Load | Transfer::LoadSigned | Transfer::LoadSigned32 => loaded_general(
            core, vec, mem, log, t, rt, address, n,
        ),
        Transfer::Store | Transfer::StoreVector => stored_register(
            core, vec, mem, log, t, rt, address, n,
        ),
        Transfer::LoadVector => loaded_vector(core, vec, mem, log, t, rt, address, n),
        Transfer::Prefetch => false,
    }
}

/// Whether the base is SP, and SP isn't a multiple of 16.
#[inline(always)]
fn is_misaligned(core: &Core, rn: Reg) -> bool
    ensures { result ≡ table.is_misaligned (nat_eq rn 31) core.now }
{
    rn.get() == 31 && core.x_sp(rn) % 16 != 0
}

// In the next three functions the arms read alike: each is compiled for its own size of access, so that the move is one
// instruction of the host.

/// Loads a general register. The rows share it.
#[inline(never)]
fn loaded_general(
    core: &mut Core,
    vec: &mut VecRegs,
    mem: &mut Mem,
    log: &mut AccessLog,
    t: Transfer,
    rt: Reg,
    address: u64,
    n: u32,
) -> bool
    requires some { 1 ≤ n }
    requires most { n ≤ greatest_of t }
    requires size { IsLowSize (8 * n) }
    requires empty { log.old.items ≡ [] }
    ensures done { result ≡ true → (after : CoreState → CoreState)
        → table.loaded_to t
        (reach mem.old.memory Kind.Read (record { lane = 0; register = rt; address = address; bytes = n } ∷ []))
        after core.old vec.old mem.old.memory
        ≡ done_with after core.new vec.new mem.new.memory log.new.items }
    ensures core { result ≡ false → core.new ≡ core.old }
    ensures vectors { result ≡ false → vec.new ≡ vec.old }
    ensures memory { result ≡ false → mem.new.memory ≡ mem.old.memory }
    ensures log { result ≡ false → log.new.items ≡ [] }
    ensures marks { mem.new.marks ≡ mem.old.marks }
{
    match n {
        4 => loaded(core, vec, mem, log, t, rt, address, n),
        1 => loaded(core, vec, mem, log, t, rt, address, n),
        _ => loaded(core, vec, mem, log, t, rt, address, n),
    }
}

/// Stores a register. The rows share it.
#[inline(never)]
fn stored_register(
    core: &Core,
    vec: &VecRegs,
    mem: &mut Mem,
    log: &mut AccessLog,
    t: Transfer,
    rt: Reg,
    address: u64,
    n: u32,
) -> bool
    requires some { 1 ≤ n }
    requires most { n ≤ 16 }
    requires empty { log.old.items ≡ [] }
    ensures done { result ≡ true → (after : CoreState → CoreState)
        → table.stored_to t
        (reach mem.old.memory Kind.Write (record { lane = 0; register = rt; address = address; bytes = n } ∷ []))
        after core.now vec.now mem.old.memory
        ≡ done_with after core.now vec.now mem.new.memory log.new.items }
    ensures memory { result ≡ false → mem.new.memory ≡ mem.old.memory }
    ensures log { result ≡ false → log.new.items ≡ [] }
    ensures marks { mem.new.marks ≡ mem.old.marks }
{
    match n {
        16 => stored(core, vec, mem, log, t, rt, address, n),
        8 => stored(core, vec, mem, log, t, rt, address, n),
        4 => stored(core, vec, mem, log, t, rt, address, n),
        2 => stored(core, vec, mem, log, t, rt, address, n),
        1 => stored(core, vec, mem, log, t, rt, address, n),
        _ => stored(core, vec, mem, log, t, rt, address, n),
    }
}

/// Loads a vector register. The rows share it.
#[inline(never)]
fn loaded_vector(
    core: &mut Core,
    vec: &mut VecRegs,
    mem: &mut Mem,
    log: &mut AccessLog,
    t: Transfer,
    rt: Reg,
    address: u64,
    n: u32,
) -> bool
    requires some { 1 ≤ n }
    requires most { n ≤ greatest_of t }
    requires size { IsLowSize (8 * n) }
    requires empty { log.old.items ≡ [] }
    ensures done { result ≡ true → (after : CoreState → CoreState)
        → table.loaded_to t
        (reach mem.old.memory Kind.Read (record { lane = 0; register = rt; address = address; bytes = n } ∷ []))
        after core.old vec.old mem.old.memory
        ≡ done_with after core.new vec.new mem.new.memory log.new.items }
    ensures core { result ≡ false → core.new ≡ core.old }
    ensures vectors { result ≡ false → vec.new ≡ vec.old }
    ensures memory { result ≡ false → mem.new.memory ≡ mem.old.memory }
    ensures log { result ≡ false → log.new.items ≡ [] }
    ensures marks { mem.new.marks ≡ mem.old.marks }
{
    match n {
        16 => loaded(core, vec, mem, log, t, rt, address, n),
        8 => loaded(core, vec, mem, log, t, rt, address, n),
        4 => loaded(core, vec, mem, log, t, rt, address, n),
        _ => loaded(core, vec, mem, log, t, rt, address, n),
    }
}

/// Stores one register.
#[inline(always)]
fn stored(
    core: &Core,
    vec: &VecRegs,
    mem: &mut Mem,
    log: &mut AccessLog,
    t: Transfer,
    rt: Reg,
    address: u64,
    n: u32,
) -> bool
    requires some { 1 ≤ n }
    requires most { n ≤ 16 }
    requires empty { log.old.items ≡ [] }
    ensures done { result ≡ true → (after : CoreState → CoreState)
        → table.stored_to t
        (reach mem.old.memory Kind.Write (record { lane = 0; register = rt; address = address; bytes = n } ∷ []))
        after core.now vec.now mem.old.memory
        ≡ done_with after core.now vec.now mem.new.memory log.new.items }
    ensures memory { result ≡ false → mem.new.memory ≡ mem.old.memory }
    ensures log { result ≡ false → log.new.items ≡ [] }
    ensures marks { mem.new.marks ≡ mem.old.marks }
{
    let v = stored_value(core, vec, t, rt);
    match store_here(mem, log, v, address, n) {
        Ok(()) => true,
        Err(_) => false,
    }
}

/// Loads one register.
#[inline(always)]
fn loaded(
    core: &mut Core,
    vec: &mut VecRegs,
    mem: &mut Mem,
    log: &mut AccessLog,
    t: Transfer,
    rt: Reg,
    address: u64,
    n: u32,
) -> bool
    requires some { 1 ≤ n }
    requires most { n ≤ greatest_of t }
    requires size { IsLowSize (8 * n) }
    requires empty { log.old.items ≡ [] }
    ensures done { result ≡ true → (after : CoreState → CoreState)
        → table.loaded_to t
        (reach mem.old.memory Kind.Read (record { lane = 0; register = rt; address = address; bytes = n } ∷ []))
        after core.old vec.old mem.old.memory
        ≡ done_with after core.new vec.new mem.new.memory log.new.items }
    ensures core { result ≡ false → core.new ≡ core.old }
    ensures vectors { result ≡ false → vec.new ≡ vec.old }
    ensures memory { result ≡ false → mem.new.memory ≡ mem.old.memory }
    ensures log { result ≡ false → log.new.items ≡ [] }
    ensures marks { mem.new.marks ≡ mem.old.marks }
{
    match load_here(mem, log, address, n) {
        Ok(v) => {
            put_loaded(core, vec, t, rt, n, v);
            true
        }
        Err(_) => false,
    }
}
