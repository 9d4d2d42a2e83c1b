//! Operations that are done at once: those on registers alone, and the loads and stores of general registers that no
//! test refuses and that cross no page.
ghost use Rattle.std.specs.Prelude.{◌≡◌, ◌≤◌, ◌+◌, ◌*◌, ◌^◌, [], false, IfSome};
ghost use Rattle.emu_model.specs.Access.{address};
ghost use Rattle.emu_model.specs.State.{read_x_sp};
ghost use Rattle.a64_effects.specs.Flow.{moved_address};
ghost use Rattle.a64_flow.specs.AtOnce.{IsDone, general_index, general_offset, general_post, general_pre};
ghost use Rattle.a64_operations.specs.Groups.{is_by_form};
ghost use Rattle.a64_operations.specs.Meaning.{meaning_of};
ghost use Rattle.vec_regs.specs.Packed.{IsLowSize};

use crate::moves::{Load, LoadSigned, LoadTwo, Moves, Store, StoreTwo};
use a64_operations::Operation;
use a64_operations::operands::{sxtw, uxtw, uxtx};
use a64_perform::perform;
use core_regs::{Core, Effect, RegOrSp};
use emu_bits::U;
use guest_mem::{AccessLog, Mem};

/// Does an operation, and says how the step goes on. None where it isn't done at once: then nothing is changed.
///
/// What it calls is called here alone and small enough to be compiled into the loop of steps each by itself, as both in
/// one function wouldn't be.
#[inline(always)]
pub fn tried(
    core: &mut Core,
    mem: &mut Mem,
    log: &mut AccessLog,
    operation: &Operation,
) -> Option<Effect>
    requires { log.old.items ≡ [] }
    ensures done { IsDone (meaning_of operation.now) result core.old core.new mem.old.memory mem.new.memory
        log.new.items }
    ensures ready { IfSome result (λ effect. is_by_form operation.now ≡ false) }
    ensures marks { mem.new.marks ≡ mem.old.marks }
{
    match accessed(core, mem, log, operation) {
        Some(effect) => Some(effect),
        None => perform::<Operation>(core, operation),
    }
}

/// Does the load or store of general registers that an operation is, and says how the step goes on. None where it isn't
/// one, or isn't done at once: then nothing is changed.
fn accessed(
    core: &mut Core,
    mem: &mut Mem,
    log: &mut AccessLog,
    operation: &Operation,
) -> Option<Effect>
    requires { log.old.items ≡ [] }
    ensures done { IsDone (meaning_of operation.now) result core.old core.new mem.old.memory mem.new.memory
        log.new.items }
    ensures ready { IfSome result (λ effect. is_by_form operation.now ≡ false) }
    ensures marks { mem.new.marks ≡ mem.old.marks }
{
    match *operation {
        Operation::LdrB { t, n, by } => offset(core, mem, log, Load { t, bytes: 1 }, n, by),
        Operation::StrB { t, n, by } => offset(core, mem, log, Store { t, bytes: 1 }, n, by),
        Operation::LdrH { t, n, by } => offset(core, mem, log, Load { t, bytes: 2 }, n, by),
        Operation::StrH { t, n, by } => offset(core, mem, log, Store { t, bytes: 2 }, n, by),
        Operation::LdrW { t, n, by } => offset(core, mem, log, Load { t, bytes: 4 }, n, by),
        Operation::StrW { t, n, by } => offset(core, mem, log, Store { t, bytes: 4 }, n, by),
        Operation::LdrX { t, n, by } => offset(core, mem, log, Load { t, bytes: 8 }, n, by),
        Operation::StrX { t, n, by } => offset(core, mem, log, Store { t, bytes: 8 }, n, by),
        Operation::Ldrsw { t, n, by } => offset(core, mem, log, LoadSigned { t, bytes: 4 }, n, by),
        Operation::LdrBLsl { t, n, m, amount } => {
            let by = uxtx(core, m);
            index(core, mem, log, Load { t, bytes: 1 }, n, by, amount)
        },
        Operation::LdrBUxtw { t, n, m, amount } => {
            let by = uxtw(core, m);
            index(core, mem, log, Load { t, bytes: 1 }, n, by, amount)
        },
        Operation::LdrBSxtw { t, n, m, amount } => {
            let by = sxtw(core, m);
            index(core, mem, log, Load { t, bytes: 1 }, n, by, amount)
        },
        Operation::StrBLsl { t, n, m, amount } => {
            let by = uxtx(core, m);
            index(core, mem, log, Store { t, bytes: 1 }, n, by, amount)
        },
        Operation::LdrHLsl { t, n, m, amount } => {
            let by = uxtx(core, m);
            index(core, mem, log, Load { t, bytes: 2 }, n, by, amount)
        },
        Operation::StrHLsl { t, n, m, amount } => {
            let by = uxtx(core, m);
            index(core, mem, log, Store { t, bytes: 2 }, n, by, amount)
        },
        Operation::LdrWLsl { t, n, m, amount } => {
            let by = uxtx(core, m);
            index(core, mem, log, Load { t, bytes: 4 }, n, by, amount)
        },
        Operation::LdrWUxtw { t, n, m, amount } => {
            let by = uxtw(core, m);
            index(core, mem, log, Load { t, bytes: 4 }, n, by, amount)
        },
        Operation::LdrWSxtw { t, n, m, amount } => {
            let by = sxtw(core, m);
            index(core, mem, log, Load { t, bytes: 4 }, n, by, amount)
        },
        Operation::StrWLsl { t, n, m, amount } => {
            let by = uxtx(core, m);
            index(core, mem, log, Store { t, bytes: 4 }, n, by, amount)
        },
        Operation::LdrXLsl { t, n, m, amount } => {
            let by = uxtx(core, m);
            index(core, mem, log, Load { t, bytes: 8 }, n, by, amount)
        },
        Operation::LdrXUxtw { t, n, m, amount } => {
            let by = uxtw(core, m);
            index(core, mem, log, Load { t, bytes: 8 }, n, by, amount)
        },
        Operation::LdrXSxtw { t, n, m, amount } => {
            let by = sxtw(core, m);
            index(core, mem, log, Load { t, bytes: 8 }, n, by, amount)
        },
        Operation::StrXLsl { t, n, m, amount } => {
            let by = uxtx(core, m);
            index(core, mem, log, Store { t, bytes: 8 }, n, by, amount)
        },
        Operation::LdrswLsl { t, n, m, amount } => {
            let by = uxtx(core, m);
            index(core, mem, log, LoadSigned { t, bytes: 4 }, n, by, amount)
        },
        Operation::LdrBPost { t, n, by } => post(core, mem, log, Load { t, bytes: 1 }, n, by),
        Operation::StrBPost { t, n, by } => post(core, mem, log, Store { t, bytes: 1 }, n, by),
        Operation::LdrWPost { t, n, by } => post(core, mem, log, Load { t, bytes: 4 }, n, by),
        Operation::StrWPost { t, n, by } => post(core, mem, log, Store { t, bytes: 4 }, n, by),
        Operation::LdrXPost { t, n, by } => post(core, mem, log, Load { t, bytes: 8 }, n, by),
        Operation::StrXPost { t, n, by } => post(core, mem, log, Store { t, bytes: 8 }, n, by),
        Operation::LdrXPre { t, n, by } => pre(core, mem, log, Load { t, bytes: 8 }, n, by),
        Operation::StrXPre { t, n, by } => pre(core, mem, log, Store { t, bytes: 8 }, n, by),
        Operation::Ldp { t, u, n, by } => offset(core, mem, log, LoadTwo { t, u }, n, by),
        Operation::Stp { t, u, n, by } => offset(core, mem, log, StoreTwo { t, u }, n, by),
        Operation::LdpPost { t, u, n, by } => post(core, mem, log, LoadTwo { t, u }, n, by),
        Operation::StpPost { t, u, n, by } => post(core, mem, log, StoreTwo { t, u }, n, by),
        Operation::LdpPre { t, u, n, by } => pre(core, mem, log, LoadTwo { t, u }, n, by),
        Operation::StpPre { t, u, n, by } => pre(core, mem, log, StoreTwo { t, u }, n, by),
        _ => None,
    }
}

/// At so many bytes from a base.
#[inline(always)]
fn offset<W: Moves>(
    core: &mut Core,
    mem: &mut Mem,
    log: &mut AccessLog,
    what: W,
    n: RegOrSp,
    by: i32,
) -> Option<Effect>
    requires some { 1 ≤ W.bytes what }
    requires most { W.bytes what ≤ 8 }
    requires size { IsLowSize (8 * W.bytes what) }
    requires empty { log.old.items ≡ [] }
    ensures done { IsDone (general_offset (W.transfer what) (W.registers what) n by (W.bytes what)) result
        core.old core.new mem.old.memory mem.new.memory log.new.items }
    ensures marks { mem.new.marks ≡ mem.old.marks }
{
    let there = near(core, n, by);
    if what.moved(core, mem, log, n, there) {
        Some(Effect::Next)
    } else {
        None
    }
}

/// At an index from a base, moved left.
#[inline(always)]
fn index<W: Moves>(
    core: &mut Core,
    mem: &mut Mem,
    log: &mut AccessLog,
    what: W,
    n: RegOrSp,
    by: u64,
    amount: U<6>,
) -> Option<Effect>
    requires some { 1 ≤ W.bytes what }
    requires most { W.bytes what ≤ 8 }
    requires size { IsLowSize (8 * W.bytes what) }
    requires empty { log.old.items ≡ [] }
    ensures done { IsDone (general_index (W.transfer what) (W.registers what) n by amount (W.bytes what)) result
        core.old core.new mem.old.memory mem.new.memory log.new.items }
    ensures marks { mem.new.marks ≡ mem.old.marks }
{
    let there = indexed(core, n, by, amount);
    if what.moved(core, mem, log, n, there) {
        Some(Effect::Next)
    } else {
        None
    }
}

/// At a base, which is then so many bytes on.
#[inline(always)]
fn post<W: Moves>(
    core: &mut Core,
    mem: &mut Mem,
    log: &mut AccessLog,
    what: W,
    n: RegOrSp,
    by: i32,
) -> Option<Effect>
    requires some { 1 ≤ W.bytes what }
    requires most { W.bytes what ≤ 8 }
    requires size { IsLowSize (8 * W.bytes what) }
    requires empty { log.old.items ≡ [] }
    ensures done { IsDone (general_post (W.transfer what) (W.registers what) n by (W.bytes what)) result
        core.old core.new mem.old.memory mem.new.memory log.new.items }
    ensures marks { mem.new.marks ≡ mem.old.marks }
{
    let base = core.reg_or_sp(n);
    let there = near(core, n, by);
    if what.moved(core, mem, log, n, base) {
        core.set_reg_or_sp(n, 64, there);
        Some(Effect::Next)
    } else {
        None
    }
}

/// At so many bytes from a base, which is then there.
#[inline(always)]
fn pre<W: Moves>(
    core: &mut Core,
    mem: &mut Mem,
    log: &mut AccessLog,
    what: W,
    n: RegOrSp,
    by: i32,
) -> Option<Effect>
    requires some { 1 ≤ W.bytes what }
    requires most { W.bytes what ≤ 8 }
    requires size { IsLowSize (8 * W.bytes what) }
    requires empty { log.old.items ≡ [] }
    ensures done { IsDone (general_pre (W.transfer what) (W.registers what) n by (W.bytes what)) result
        core.old core.new mem.old.memory mem.new.memory log.new.items }
    ensures marks { mem.new.marks ≡ mem.old.marks }
{
    let there = near(core, n, by);
    if what.moved(core, mem, log, n, there) {
        core.set_reg_or_sp(n, 64, there);
        Some(Effect::Next)
    } else {
        None
    }
}

/// So many bytes from a base.
#[inline(always)]
fn near(core: &Core, n: RegOrSp, by: i32) -> u64
    ensures { result ≡ moved_address (read_x_sp core.now n) by }
{
    core.reg_or_sp(n).wrapping_add_signed(by as i64)
}

/// An index from a base, moved left.
#[inline(always)]
fn indexed(core: &Core, n: RegOrSp, index: u64, amount: U<6>) -> u64
    ensures { result ≡ address (read_x_sp core.now n + index * 2 ^ amount) }
{
    core.reg_or_sp(n).wrapping_add(index << amount.get())
}
