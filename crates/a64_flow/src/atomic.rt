//! Loads and stores of the same bytes as one step, at multiples of their size. Each step is done as a whole, so the
//! order asks for nothing.
ghost use Rattle.std.specs.Prelude.{◌≡◌, ◌≤◌, Bool, [], None, MatchResult};
ghost use Rattle.a64_insn.specs.declared.form.A64Form.{A64Form};
ghost use Rattle.emu_model.specs.declared.access.Kind.{Kind};
ghost use Rattle.emu_model.specs.declared.trap.Effect.{Effect};
ghost use Rattle.emu_model.specs.Access.{refused, value};
ghost use Rattle.emu_model.specs.Done.{Done, quietly};
ghost use Rattle.emu_model.specs.State.{Core as CoreState, Vectors};
ghost use Rattle.a64_effects.specs.Atomic as step;
ghost use Rattle.a64_effects.specs.Groups.{load_store};
ghost use Rattle.a64_flow.specs.Ends.{ended};

use crate::alignment::test_multiple;
use crate::numbers::bytes_of;
use a64_insn::AtomicOp;
use core_regs::{Core, Trap, TrapKind};
use emu_bits::{Reg, U, low_bits, sext};
use guest_mem::element_access::{store, test_sp};
use guest_mem::{Access, AccessLog, Kind, Mem};

/// `ldadd`, `ldclr`, `ldeor`, `ldset`, `ldsmax`, `ldsmin`, `ldumax`, `ldumin`, `swp`: Rt gets the old value, and memory
/// what op makes of it and Rs.
pub(crate) fn atomic(
    core: &mut Core,
    mem: &mut Mem,
    log: &mut AccessLog,
    op: AtomicOp,
    size: U<2>,
    rs: Reg,
    rn: Reg,
    rt: Reg,
) -> Result<(), Trap>
    requires { log.old.items ≡ [] }
    ensures done { (acquires : Bool) (releases : Bool) (v : Vectors)
        → load_store (A64Form.Atomic op size acquires releases rs rn rt) core.old v mem.old.memory
        ≡ ended result core.new v mem.new.memory log.new.items }
    ensures marks { mem.new.marks ≡ mem.old.marks }
{
    test_sp(core, rn.get() == 31)?;
    let (address, n) = (core.x_sp(rn), bytes_of(size));
    test_multiple(address, n)?;
    let old = granted(mem, address, n)?;
    let new = updated(op, n, old, low_bits(core.x(rs), 8 * n));
    exchange(mem, log, Some(new), address, n);
    core.set_x(rt, 64, old);
    Ok(())
}

/// `cas`: Rs gets the old value, and memory Rt where that is what Rs had.
pub(crate) fn compare_swap(
    core: &mut Core,
    mem: &mut Mem,
    log: &mut AccessLog,
    size: U<2>,
    rs: Reg,
    rn: Reg,
    rt: Reg,
) -> Result<(), Trap>
    requires { log.old.items ≡ [] }
    ensures done { (acquires : Bool) (releases : Bool) (v : Vectors)
        → load_store (A64Form.CompareSwap size acquires releases rs rn rt) core.old v mem.old.memory
        ≡ ended result core.new v mem.new.memory log.new.items }
    ensures marks { mem.new.marks ≡ mem.old.marks }
{
    test_sp(core, rn.get() == 31)?;
    let (address, n) = (core.x_sp(rn), bytes_of(size));
    test_multiple(address, n)?;
    let old = granted(mem, address, n)?;
    let new = if old == low_bits(core.x(rs), 8 * n) {
        Some(low_bits(core.x(rt), 8 * n) as u128)
    } else {
        None
    };
    exchange(mem, log, new, address, n);
    core.set_x(rs, 64, old);
    Ok(())
}

/// The value of n bytes that may be read and written. A trap has the first byte that may not be read, or else the first
/// that may not be written.
fn granted(mem: &mut Mem, address: u64, n: u32) -> Result<u64, Trap>
    requires some { 1 ≤ n }
    requires most { n ≤ 8 }
    ensures result { MatchResult result (λ o. (refused mem.old.memory address n Kind.Read ≡ None)
        × ((refused mem.old.memory address n Kind.Write ≡ None) × (o ≡ value mem.old.memory address n)))
        (λ trap. (c : CoreState) (v : Vectors) (d : Done) → step.unless_refused
        (refused mem.old.memory address n Kind.Read) (refused mem.old.memory address n Kind.Write) c v mem.old.memory d
        ≡ quietly c v mem.old.memory (Effect.Trap trap)) }
    ensures memory { mem.new ≡ mem.old }
{
    let old = match mem.load(address, n, Kind::Read) {
        Ok(old) => old,
        Err(denied) => {
            return Err(Trap {
                kind: TrapKind::Read,
                address: denied.address,
            });
        }
    };
    match mem.load(address, n, Kind::Write) {
        Ok(_) => Ok(old as u64),
        Err(denied) => Err(Trap {
            kind: TrapKind::Write,
            address: denied.address,
        }),
    }
}

/// What n bytes with this value become by a register's, n at most 8; of a number that has more bytes the lowest are
/// stored.
fn updated(op: AtomicOp, n: u32, old: u64, by: u64) -> u128
    requires some { 1 ≤ n }
    requires most { n ≤ 8 }
    ensures { result ≡ step.updated op n old by }
{
    let less_or_same = sext(old, 8 * n) <= sext(by, 8 * n);
    match op {
        AtomicOp::Ldadd => old as u128 + by as u128,
        AtomicOp::Ldclr => (old & (0xFFFF_FFFF_FFFF_FFFF - by)) as u128,
        AtomicOp::Ldeor => (old ^ by) as u128,
        AtomicOp::Ldset => u128::from(old | by),
        AtomicOp::Ldsmax => (if less_or_same { by } else { old }) as u128,
        AtomicOp::Ldsmin => (if less_or_same { old } else { by }) as u128,
        AtomicOp::Ldumax => old.max(by) as u128,
        AtomicOp::Ldumin => old.min(by) as u128,
        AtomicOp::Swp => by as u128,
    }
}

/// Notes a load of n bytes that may be written, and stores their new value, if they get one.
fn exchange(mem: &mut Mem, log: &mut AccessLog, new: Option<u128>, address: u64, n: u32)
    requires some { 1 ≤ n }
    requires most { n ≤ 8 }
    requires empty { log.old.items ≡ [] }
    requires writable { refused mem.old.memory address n Kind.Write ≡ None }
    ensures done { (c : CoreState) (v : Vectors) → step.exchanged address n new c v mem.old.memory
        ≡ record { core = c; vectors = v; memory = mem.new.memory; accesses = log.new.items; effect = Effect.Next } }
    ensures marks { mem.new.marks ≡ mem.old.marks }
{
    log.push(Access {
        address,
        bytes: n,
        write: false,
    });
    if let Some(value) = new {
        let Ok(()) = store(mem, log, value, address, n) else {
            unreachable!()
        };
    }
}
