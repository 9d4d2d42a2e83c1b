//! What a step changed.
ghost use Rattle.std.specs.Prelude.{◌≡◌, ◌<◌, ◌++◌, get_or, string_bytes, OnOk};
ghost use Rattle.emu_run.specs.Registers.{lines_of};
ghost use Rattle.debug_shows.specs.Changes.{
  access_head,
  access_text,
  access_value,
  kind_text,
  scalar_changes,
  stored_text,
  was_text,
  word_change,
  x_change,
};

use crate::places::{push_instruction, push_place};
use crate::transfers::{Transfer, active_lane, transfer_of};
use crate::values::value_at;
use core_regs::Core;
use debug_texts::{push_decimal, push_hex, push_lane_name};
use debug_values::word_at;
use elf_symbols::Symbol;
use emu_bits::{Pred, Reg};
use emu_machine::Machine;
use guest_mem::{Access, Mem};
use std::alloc::{AllocError, Global};
use vec_regs::VecRegs;

/// How many accesses of a step are shown.
const MOST_SHOWN: usize = 16;

/// A machine before a step, as far as what the step changed is told by it.
#[derive(Drop)]
pub struct Before {
    core: Core,
    vec: VecRegs,
    /// What stood where the step's accesses are, one for each.
    values: Vec<u64>,
}

impl Before {
    /// The machine before a step that makes these accesses. Err is want of memory.
    pub fn of(alloc: Global, machine: &Machine, accesses: &[Access]) -> Result<Before, AllocError> {
        let mut values = Vec::new(alloc);
        for access in accesses {
            values.push(value_at(machine.mem(), access.address, access.bytes.min(8)))?;
        }
        Ok(Before {
            core: machine.core().copy(),
            vec: machine.vec().copy(),
            values,
        })
    }

    /// The vector registers before the step.
    pub fn vec(&self) -> &VecRegs {
        &self.vec
    }
}

/// Appends a new value, and the old one.
fn push_was(text: &mut String, old: u64, new: u64) -> Result<(), AllocError>
    ensures { OnOk result (string_bytes text.new ≡ string_bytes text.old ++ was_text old new) }
{
    text.push_str(" = ")?;
    push_hex(text, new)?;
    text.push_str(" (was ")?;
    push_hex(text, old)?;
    text.push_str(")\n")
}

/// Appends a register of 64 bits, where it has changed.
fn push_word(text: &mut String, name: &str, old: u64, new: u64) -> Result<(), AllocError>
    ensures { OnOk result (string_bytes text.new ≡ string_bytes text.old ++ word_change name.now old new) }
{
    if old == new {
        return Ok(());
    }
    text.push_str("  ")?;
    text.push_str(name)?;
    push_was(text, old, new)
}

/// General register k.
fn x_of(core: &Core, k: u32) -> u64
    requires { k < 31 }
    ensures { result ≡ get_or core.now.x k 0 }
{
    core.x(Reg::at(k, 0))
}

/// Appends general register k, where it has changed.
fn push_x(text: &mut String, k: u32, old: &Core, new: &Core) -> Result<(), AllocError>
    requires { k < 31 }
    ensures { OnOk result (string_bytes text.new ≡ string_bytes text.old ++ x_change old.now new.now k) }
{
    let before = x_of(old, k);
    let now = x_of(new, k);
    if before == now {
        return Ok(());
    }
    text.push_str("  x")?;
    push_decimal(text, u64::from(k))?;
    push_was(text, before, now)
}

/// Appends the general registers that have changed.
fn push_xs(text: &mut String, old: &Core, new: &Core) -> Result<(), AllocError>
    ensures { OnOk result
        (string_bytes text.new ≡ string_bytes text.old ++ lines_of 31 (x_change old.now new.now)) }
{
    'registers: for k in 0..31u32 {
        push_x(text, k, old, new)?;
    }
    Ok(())
}

/// SP.
fn sp_of(core: &Core) -> u64
    ensures { result ≡ core.now.sp }
{
    core.x_sp(Reg::at(31, 0))
}

/// Appends the general registers and SP, where they have changed.
fn push_scalars(text: &mut String, old: &Core, new: &Core) -> Result<(), AllocError>
    ensures { OnOk result (string_bytes text.new ≡ string_bytes text.old ++ scalar_changes old.now new.now) }
{
    push_xs(text, old, new)?;
    push_word(text, "sp", sp_of(old), sp_of(new))
}

/// Appends the condition flags, where they have changed.
fn push_flags(text: &mut String, old: &Core, new: &Core) -> Result<(), AllocError> {
    let (before, now) = (old.flags(), new.flags());
    if before == now {
        return Ok(());
    }
    text.push_str("  nzcv =")?;
    for (set, name) in [(now.n, " N"), (now.z, " Z"), (now.c, " C"), (now.v, " V")] {
        if set {
            text.push_str(name)?;
        }
    }
    text.push_str("\n")
}

/// Whether a Z register has changed.
fn is_same_z(r: Reg, old: &VecRegs, new: &VecRegs) -> bool {
    old.length().bits() == new.length().bits() && old.z_words(r) == new.z_words(r)
}

/// Whether a predicate has changed.
fn is_same_p(r: Pred, old: &VecRegs, new: &VecRegs) -> bool {
    old.length().bits() == new.length().bits() && old.p_words(r) == new.p_words(r)
}

/// Appends a line that a sink is given, indented.
fn push_vectors(text: &mut String, old: &VecRegs, new: &VecRegs) -> Result<(), AllocError> {
    if old.length().bits() != new.length().bits() {
        push_word(
            text,
            "vl",
            u64::from(old.length().bits()),
            u64::from(new.length().bits()),
        )?;
    }
    'vectors: for k in 0..32u32 {
        let r = Reg::at(k, 0);
        if !is_same_z(r, old, new) {
            push_words(text, "z", k, new.z_words(r), new.length().bits() / 64)?;
        }
    }
    'predicates: for k in 0..16u32 {
        let r = Pred::at(k, 0);
        if !is_same_p(r, old, new) {
            push_words(
                text,
                "p",
                k,
                new.p_words(r),
                new.length().bits().div_ceil(512),
            )?;
        }
    }
    if old.ffr_words() != new.ffr_words() {
        text.push_str("  ffr changed\n")?;
    }
    Ok(())
}

/// Appends a register by its words of 64 bits, the highest first.
fn push_words(
    text: &mut String,
    letter: &str,
    k: u32,
    words: &[u64],
    count: u32,
) -> Result<(), AllocError> {
    text.push_str("  ")?;
    text.push_str(letter)?;
    push_decimal(text, u64::from(k))?;
    text.push_str(" =")?;
    'words: for i in 0..count {
        let at = (count - 1 - i) as usize;
        text.push_str(" ")?;
        if at < words.len() {
            push_hex(text, words[at])?;
        }
    }
    text.push_str("\n")
}

/// What is said of an access before its address.
fn kind_text(write: bool) -> &'static str
    ensures { result.now ≡ kind_text write }
{
    if write { "  stored " } else { "  loaded " }
}

/// Appends what stood before where an element was stored.
fn push_stored(text: &mut String, write: bool, old: u64) -> Result<(), AllocError>
    ensures { OnOk result (string_bytes text.new ≡ string_bytes text.old ++ stored_text write old) }
{
    if !write {
        return Ok(());
    }
    text.push_str(", was ")?;
    push_hex(text, old)
}

/// Appends what is said of an element before its value.
fn push_access_head(text: &mut String, access: &Access) -> Result<(), AllocError>
    ensures { OnOk result (string_bytes text.new ≡ string_bytes text.old ++ access_head access.now) }
{
    text.push_str(kind_text(access.write))?;
    push_hex(text, access.address)?;
    text.push_str(" ")?;
    push_decimal(text, u64::from(access.bytes))?;
    text.push_str(": ")
}

/// The number that stands where an element was loaded or stored, of eight bytes at most.
fn access_value(mem: &Mem, access: &Access) -> u64
    ensures { result ≡ access_value mem.now.memory access.now }
{
    value_at(mem, access.address, access.bytes.min(8))
}

/// Appends an element that was loaded or stored.
fn push_access(text: &mut String, old: u64, mem: &Mem, access: &Access) -> Result<(), AllocError>
    ensures { OnOk result (string_bytes text.new ≡ string_bytes text.old ++ access_text old mem.now.memory access.now) }
{
    push_access_head(text, access)?;
    push_hex(text, access_value(mem, access))?;
    push_stored(text, access.write, old)?;
    text.push_str("\n")
}

/// Whether an access shares a byte with so many bytes from an address on, where that is asked.
fn is_asked(asked: &Option<(u64, u64)>, access: &Access) -> bool {
    match asked {
        None => true,
        Some((address, count)) => {
            let first = u128::from(access.address);
            let watched = u128::from(*address);
            first < watched + u128::from(*count) && watched < first + u128::from(access.bytes)
        }
    }
}

/// Appends which of several accesses one is: the lane that it loads or stores, where the instruction is known to go by
/// the active lanes of one register, or else its number.
fn push_which(
    text: &mut String,
    transfer: &Option<Transfer>,
    before: &Before,
    k: usize,
    count: usize,
) -> Result<(), AllocError> {
    text.push_str("  ")?;
    match transfer {
        Some(transfer) => match active_lane(&before.vec, transfer, k) {
            Some(lane) => push_lane_name(text, &lane)?,
            None => text.push_str("a lane")?,
        },
        None => {
            text.push_str("element ")?;
            push_decimal(text, k as u64)?;
            text.push_str(" of ")?;
            push_decimal(text, count as u64)?;
        }
    }
    Ok(())
}

/// Appends the instruction of the step.
fn push_instruction_of(
    text: &mut String,
    symbols: &[Symbol<'_>],
    before: &Before,
    machine: &Machine,
) -> Result<(), AllocError> {
    let pc = before.core.pc();
    text.push_str("  by ")?;
    push_place(text, symbols, pc)?;
    text.push_str("  ")?;
    push_instruction(text, machine.mem(), pc)?;
    text.push_str("\n")
}

/// Appends the accesses of a step: those that share a byte with so many bytes from an address on, where that is asked.
fn push_accesses(
    text: &mut String,
    symbols: &[Symbol<'_>],
    asked: &Option<(u64, u64)>,
    before: &Before,
    machine: &Machine,
) -> Result<(), AllocError> {
    let accesses = machine.accesses();
    let count = accesses.len();
    if count == 0 {
        return Ok(());
    }
    push_instruction_of(text, symbols, before, machine)?;
    let transfer = transfer_of(word_at(machine.mem(), before.core.pc()));
    let mut shown = 0;
    'accesses: for k in 0..count {
        if k < before.values.len() && shown < MOST_SHOWN && is_asked(asked, &accesses[k]) {
            shown += 1;
            if count > 1 || transfer.is_some() {
                push_which(text, &transfer, before, k, count)?;
            }
            push_access(text, before.values[k], machine.mem(), &accesses[k])?;
        }
    }
    if asked.is_none() && count > shown {
        text.push_str("  and ")?;
        push_decimal(text, (count - shown) as u64)?;
        text.push_str(" elements more\n")?;
    }
    Ok(())
}

/// Appends what the last step of a machine changed, by the machine before it. Of its accesses are told those that share
/// a byte with so many bytes from an address on, where that is asked, and else the first ones.
pub fn push_changes(
    text: &mut String,
    symbols: &[Symbol<'_>],
    asked: Option<(u64, u64)>,
    before: &Before,
    machine: &Machine,
) -> Result<(), AllocError> {
    push_scalars(text, &before.core, machine.core())?;
    push_flags(text, &before.core, machine.core())?;
    push_vectors(text, &before.vec, machine.vec())?;
    push_accesses(text, symbols, &asked, before, machine)
}
