//! Exceptions, barriers and system registers, none of which accesses memory.
ghost use Rattle.std.specs.Prelude.{◌≡◌};
ghost use Rattle.a64_insn.specs.declared.form.A64Form.{A64Form};
ghost use Rattle.emu_model.specs.Access.{Memory};
ghost use Rattle.emu_model.specs.State.{Vectors, read_x, with_x};
ghost use Rattle.emu_model.specs.Done.{quietly};
ghost use Rattle.a64_effects.specs.Groups.{flow};
ghost use Rattle.a64_effects.specs.Flow as table;

use a64_insn::{BarrierOp, ExceptOp, ReadSysOp, WriteSysOp};
use core_regs::{Core, Effect, Trap, TrapKind};
use emu_bits::{Flags, Reg, U};

/// `svc`, `brk`, `hlt`: a call, and two traps.
pub(crate) fn except(core: &Core, op: ExceptOp, imm16: U<16>) -> Effect
    ensures { (v : Vectors) (m : Memory) → flow (A64Form.Except op imm16) core.now v m ≡ quietly core.now v m result }
{
    let kind = match op {
        ExceptOp::Svc => return Effect::Call,
        ExceptOp::Brk => TrapKind::Break,
        ExceptOp::Hlt => TrapKind::Halt,
    };
    Effect::Trap(Trap {
        kind,
        address: core.pc(),
    })
}

/// `clrex`, `dsb`, `dmb`, `isb`: clrex empties the exclusive monitor.
pub(crate) fn barrier(core: &mut Core, op: BarrierOp) -> Effect
    ensures registers { core.new ≡ table.after_barrier op core.old }
    ensures effect { result ≡ Effect.Next }
{
    match op {
        BarrierOp::Clrex => core.set_monitor(None),
        BarrierOp::Dsb | BarrierOp::Dmb | BarrierOp::Isb => {}
    }
    Effect::Next
}

/// `mrs`: a system register into Xt.
pub(crate) fn read_sys(core: &mut Core, op: ReadSysOp, rt: Reg) -> Effect
    ensures registers { core.new ≡ with_x core.old rt 64 (table.system_value op core.old) }
    ensures effect { result ≡ Effect.Next }
{
    let v = match op {
        ReadSysOp::Tpidr => core.tpidr(),
        ReadSysOp::Nzcv => number_of_flags(core.flags()),
        ReadSysOp::Dczid => 16,
    };
    core.set_x(rt, 64, v);
    Effect::Next
}

/// `msr`: Xt into a system register.
pub(crate) fn write_sys(core: &mut Core, op: WriteSysOp, rt: Reg) -> Effect
    ensures registers { core.new ≡ table.with_system_value op (read_x core.old rt) core.old }
    ensures effect { result ≡ Effect.Next }
{
    let v = core.x(rt);
    match op {
        WriteSysOp::Tpidr => core.set_tpidr(v),
        WriteSysOp::Nzcv => core.set_flags(Flags::of_number(U::at(((v >> 28) % 16) as u32, 0))),
    }
    Effect::Next
}

/// The flags at bits 31 to 28, N first.
fn number_of_flags(f: Flags) -> u64
    ensures { result ≡ table.number_of_flags f }
{
    let nzcv = u64::from(f.n) * 8 + u64::from(f.z) * 4 + u64::from(f.c) * 2 + u64::from(f.v);
    nzcv << 28
}
