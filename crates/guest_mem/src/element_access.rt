//! The load and the store of one element, noted in the log of accesses, and the test of SP before an access.

ghost use Rattle.std.specs.Prelude.{◌≡◌, ◌≤◌, ◌<◌, ◌+◌, ◌^◌, ◌++◌, ◌∷◌, [], ⊤, MatchResult, None, Some, false, true};
ghost use Rattle.arrayvec.specs.ArrayVec.{array_vec_len};
ghost use Rattle.emu_model.specs.Access.{refused, stored, value};
ghost use Rattle.emu_model.specs.declared.access.Kind.{Kind};
ghost use Rattle.emu_model.specs.declared.trap.TrapKind.{TrapKind};

pub use crate::stack::test_sp;
use crate::{Access, AccessLog, Kind, Mem};
use core_regs::{Trap, TrapKind};

/// Stores the low n bytes of a number, n at most 16, and logs the access. A trap stores and logs nothing.
pub fn store(mem: &mut Mem, log: &mut AccessLog, v: u128, address: u64, n: u32) -> Result<(), Trap>
    requires some { 1 ≤ n }
    requires most { n ≤ 16 }
    requires room { array_vec_len log.old < 1024 }
    ensures result { MatchResult result (λ x. refused mem.old.memory address n Kind.Write ≡ None)
        (λ trap. (trap.kind ≡ TrapKind.Write) × (refused mem.old.memory address n Kind.Write ≡ Some trap.address)) }
    ensures memory { MatchResult result (λ x. mem.new.memory ≡ stored mem.old.memory address n v)
        (λ trap. mem.new.memory ≡ mem.old.memory) }
    ensures marks { mem.new.marks ≡ mem.old.marks }
    ensures log { MatchResult result
        (λ x. log.new.items ≡ log.old.items ++ record { address = address; bytes = n; write = true } ∷ [])
        (λ trap. log.new.items ≡ log.old.items) }
{
    store_here(mem, log, v, address, n)
}

/// The same as `store`, in the code of its caller.
#[inline(always)]
pub fn store_here(
    mem: &mut Mem,
    log: &mut AccessLog,
    v: u128,
    address: u64,
    n: u32,
) -> Result<(), Trap>
    requires some { 1 ≤ n }
    requires most { n ≤ 16 }
    requires room { array_vec_len log.old < 1024 }
    ensures result { MatchResult result (λ x. refused mem.old.memory address n Kind.Write ≡ None)
        (λ trap. (trap.kind ≡ TrapKind.Write) × (refused mem.old.memory address n Kind.Write ≡ Some trap.address)) }
    ensures memory { MatchResult result (λ x. mem.new.memory ≡ stored mem.old.memory address n v)
        (λ trap. mem.new.memory ≡ mem.old.memory) }
    ensures marks { mem.new.marks ≡ mem.old.marks }
    ensures log { MatchResult result
        (λ x. log.new.items ≡ log.old.items ++ record { address = address; bytes = n; write = true } ∷ [])
        (λ trap. log.new.items ≡ log.old.items) }
{
    match mem.store(address, n, v) {
        Ok(()) => {
            log.push(Access {
                address,
                bytes: n,
                write: true,
            });
            Ok(())
        }
        Err(denied) => Err(Trap {
            kind: TrapKind::Write,
            address: denied.address,
        }),
    }
}

/// The little-endian number of n bytes, n at most 16, and logs the access. A trap logs nothing.
pub fn load(mem: &mut Mem, log: &mut AccessLog, address: u64, n: u32) -> Result<u128, Trap>
    requires some { 1 ≤ n }
    requires most { n ≤ 16 }
    requires room { array_vec_len log.old < 1024 }
    ensures result { MatchResult result
        (λ v. (refused mem.old.memory address n Kind.Read ≡ None) × (v ≡ value mem.old.memory address n))
        (λ trap. (trap.kind ≡ TrapKind.Read) × (refused mem.old.memory address n Kind.Read ≡ Some trap.address)) }
    ensures small { MatchResult result (λ v. v < 256 ^ n) (λ trap. ⊤) }
    ensures memory { mem.new ≡ mem.old }
    ensures log { MatchResult result
        (λ v. log.new.items ≡ log.old.items ++ record { address = address; bytes = n; write = false } ∷ [])
        (λ trap. log.new.items ≡ log.old.items) }
{
    load_here(mem, log, address, n)
}

/// The same as `load`, in the code of its caller.
#[inline(always)]
pub fn load_here(mem: &mut Mem, log: &mut AccessLog, address: u64, n: u32) -> Result<u128, Trap>
    requires some { 1 ≤ n }
    requires most { n ≤ 16 }
    requires room { array_vec_len log.old < 1024 }
    ensures result { MatchResult result
        (λ v. (refused mem.old.memory address n Kind.Read ≡ None) × (v ≡ value mem.old.memory address n))
        (λ trap. (trap.kind ≡ TrapKind.Read) × (refused mem.old.memory address n Kind.Read ≡ Some trap.address)) }
    ensures small { MatchResult result (λ v. v < 256 ^ n) (λ trap. ⊤) }
    ensures memory { mem.new ≡ mem.old }
    ensures log { MatchResult result
        (λ v. log.new.items ≡ log.old.items ++ record { address = address; bytes = n; write = false } ∷ [])
        (λ trap. log.new.items ≡ log.old.items) }
{
    match mem.load(address, n, Kind::Read) {
        Ok(v) => {
            log.push(Access {
                address,
                bytes: n,
                write: false,
            });
            Ok(v)
        }
        Err(denied) => Err(Trap {
            kind: TrapKind::Read,
            address: denied.address,
        }),
    }
}

/// The same of at most 8 bytes.
pub fn load_u64(mem: &mut Mem, log: &mut AccessLog, address: u64, n: u32) -> Result<u64, Trap>
    requires some { 1 ≤ n }
    requires most { n ≤ 8 }
    requires room { array_vec_len log.old < 1024 }
    ensures result { MatchResult result
        (λ v. (refused mem.old.memory address n Kind.Read ≡ None) × (v ≡ value mem.old.memory address n))
        (λ trap. (trap.kind ≡ TrapKind.Read) × (refused mem.old.memory address n Kind.Read ≡ Some trap.address)) }
    ensures memory { mem.new ≡ mem.old }
    ensures log { MatchResult result
        (λ v. log.new.items ≡ log.old.items ++ record { address = address; bytes = n; write = false } ∷ [])
        (λ trap. log.new.items ≡ log.old.items) }
{
    let v = load(mem, log, address, n)?;
    Ok(v as u64)
}
