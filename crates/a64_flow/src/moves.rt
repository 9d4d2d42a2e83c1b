//! Loads and stores of general registers that no test refuses and that cross no page.
ghost use Rattle.std.specs.Prelude.{◌≡◌, ◌≤◌, ◌*◌, ◌∷◌, [], ℕ, List, false, true, nat_eq};
ghost use Rattle.emu_model.specs.State.{Core as CoreState, Vectors};
ghost use Rattle.a64_effects.specs.LoadStore.{is_misaligned, transferred_by};
ghost use Rattle.a64_effects.specs.declared.transfer.Transfer.{Transfer};
ghost use Rattle.a64_flow.specs.AtOnce.{general};
ghost use Rattle.a64_flow.specs.Ends.{done_with};
ghost use Rattle.vec_regs.specs.Packed.{IsLowSize};

use core_regs::{Core, RegOrSp, Source, Target};
use emu_bits::sign_extended;
use emu_model::PAGE_SIZE;
use guest_mem::{AccessLog, Kind, Mem};

/// Registers that are loaded or stored, one behind the other.
pub(crate) trait Moves: Copy {
    /// What becomes of a register's bytes.
    ghost transfer: { Self → Transfer };

    /// The registers in order.
    ghost registers: { Self → List ℕ };

    /// How many bytes each has.
    ghost bytes: { Self → ℕ };

    /// Loads or stores them at an address that comes from a base, and answers whether it did. Else nothing is changed.
    fn moved(
        self,
        core: &mut Core,
        mem: &mut Mem,
        log: &mut AccessLog,
        n: RegOrSp,
        address: u64,
    ) -> bool
        requires some { 1 ≤ bytes self }
        requires most { bytes self ≤ 8 }
        requires size { IsLowSize (8 * bytes self) }
        requires empty { log.old.items ≡ [] }
        ensures done { result ≡ true → (w : Vectors) → (after : CoreState → CoreState)
            → transferred_by (general (transfer self) (registers self) n address (bytes self) after)
            core.old w mem.old.memory
            ≡ done_with after core.new w mem.new.memory log.new.items }
        ensures core { result ≡ false → core.new ≡ core.old }
        ensures memory { result ≡ false → mem.new.memory ≡ mem.old.memory }
        ensures log { result ≡ false → log.new.items ≡ [] }
        ensures marks { mem.new.marks ≡ mem.old.marks };
}

/// A load with zeros above.
#[derive(Clone, Copy)]
pub(crate) struct Load {
    pub t: Target,
    pub bytes: u32,
}

impl Moves for Load {
    ghost transfer = { λ _. Transfer.Load };

    ghost registers = { λ s. s.t ∷ [] };

    ghost bytes = { λ s. s.bytes };

    #[inline(always)]
    fn moved(
        self,
        core: &mut Core,
        mem: &mut Mem,
        log: &mut AccessLog,
        n: RegOrSp,
        address: u64,
    ) -> bool {
        let bytes = self.bytes;
        if is_tilted(core, n) || address % PAGE_SIZE + u64::from(bytes) > PAGE_SIZE {
            return false;
        }
        match mem.load(address, bytes, Kind::Read) {
            Ok(v) => {
                log.set_run(address, bytes, 1, false);
                core.set_target(self.t, 64, v as u64);
                true
            }
            Err(_) => false,
        }
    }
}

/// A load with copies of the top bit above.
#[derive(Clone, Copy)]
pub(crate) struct LoadSigned {
    pub t: Target,
    pub bytes: u32,
}

impl Moves for LoadSigned {
    ghost transfer = { λ _. Transfer.LoadSigned };

    ghost registers = { λ s. s.t ∷ [] };

    ghost bytes = { λ s. s.bytes };

    #[inline(always)]
    fn moved(
        self,
        core: &mut Core,
        mem: &mut Mem,
        log: &mut AccessLog,
        n: RegOrSp,
        address: u64,
    ) -> bool {
        let bytes = self.bytes;
        if is_tilted(core, n) || address % PAGE_SIZE + u64::from(bytes) > PAGE_SIZE {
            return false;
        }
        match mem.load(address, bytes, Kind::Read) {
            Ok(v) => {
                log.set_run(address, bytes, 1, false);
                core.set_target(self.t, 64, sign_extended(v as u64, 8 * bytes, 64));
                true
            }
            Err(_) => false,
        }
    }
}

/// A store.
#[derive(Clone, Copy)]
pub(crate) struct Store {
    pub t: Source,
    pub bytes: u32,
}

impl Moves for Store {
    ghost transfer = { λ _. Transfer.Store };

    ghost registers = { λ s. s.t ∷ [] };

    ghost bytes = { λ s. s.bytes };

    #[inline(always)]
    fn moved(
        self,
        core: &mut Core,
        mem: &mut Mem,
        log: &mut AccessLog,
        n: RegOrSp,
        address: u64,
    ) -> bool {
        let bytes = self.bytes;
        if is_tilted(core, n) || address % PAGE_SIZE + u64::from(bytes) > PAGE_SIZE {
            return false;
        }
        match mem.store(address, bytes, u128::from(core.source(self.t))) {
            Ok(()) => {
                log.set_run(address, bytes, 1, true);
                true
            }
            Err(_) => false,
        }
    }
}

/// A load of two registers of 64 bits.
#[derive(Clone, Copy)]
pub(crate) struct LoadTwo {
    pub t: Target,
    pub u: Target,
}

impl Moves for LoadTwo {
    ghost transfer = { λ _. Transfer.Load };

    ghost registers = { λ s. s.t ∷ s.u ∷ [] };

    ghost bytes = { λ _. 8 };

    #[inline(always)]
    fn moved(
        self,
        core: &mut Core,
        mem: &mut Mem,
        log: &mut AccessLog,
        n: RegOrSp,
        address: u64,
    ) -> bool {
        if is_tilted(core, n) || address % PAGE_SIZE > PAGE_SIZE - 16 {
            return false;
        }
        // for its clause: what the pages have are bytes
        let _mapped = mem.pages().mapped();
        match mem.load(address, 16, Kind::Read) {
            Ok(v) => {
                log.set_run(address, 8, 2, false);
                core.set_target(self.t, 64, (v % 0x1_0000_0000_0000_0000) as u64);
                core.set_target(self.u, 64, (v >> 64) as u64);
                true
            }
            Err(_) => false,
        }
    }
}

/// A store of two registers of 64 bits.
#[derive(Clone, Copy)]
pub(crate) struct StoreTwo {
    pub t: Source,
    pub u: Source,
}

impl Moves for StoreTwo {
    ghost transfer = { λ _. Transfer.Store };

    ghost registers = { λ s. s.t ∷ s.u ∷ [] };

    ghost bytes = { λ _. 8 };

    #[inline(always)]
    fn moved(
        self,
        core: &mut Core,
        mem: &mut Mem,
        log: &mut AccessLog,
        n: RegOrSp,
        address: u64,
    ) -> bool {
        if is_tilted(core, n) || address % PAGE_SIZE > PAGE_SIZE - 16 {
            return false;
        }
        let v = core.source(self.t) as u128 + ((core.source(self.u) as u128) << 64);
        match mem.store(address, 16, v) {
            Ok(()) => {
                log.set_run(address, 8, 2, true);
                true
            }
            Err(_) => false,
        }
    }
}

/// Whether the base is SP, and SP isn't a multiple of 16.
#[inline(always)]
fn is_tilted(core: &Core, n: RegOrSp) -> bool
    ensures { result ≡ is_misaligned (nat_eq n 31) core.now }
{
    n.is_sp() && core.reg_or_sp(n) % 16 != 0
}
