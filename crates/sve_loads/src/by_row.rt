//! Loads and stores that are done at once, each form that loops are made of by a function of its own.
ghost use Rattle.std.specs.Prelude.{ℕ, ◌≡◌, ◌||◌, [], true, false};
ghost use Rattle.emu_model.specs.declared.access.Kind.{Kind};
ghost use Rattle.emu_model.specs.declared.trap.Effect.{Effect};
ghost use Rattle.sve_effects.specs.Effects.{is_contiguous_load, is_contiguous_store};
ghost use Rattle.sve_effects.specs.Rows.{performed};
ghost use Rattle.sve_loads.specs.AtOnce.{
  IsAtOnce,
  is_load_imm,
  is_load_reg,
  is_load_z,
  is_store_imm,
  is_store_reg,
  is_store_z,
};
ghost use Rattle.sve_loads.specs.Plans as table;

use crate::at_once::{by_form, load_imm, load_reg, load_z, store_imm, store_reg, store_z};
use core_regs::Core;
use guest_mem::{AccessLog, Mem};
use sve_insn::{Sve, SveForm};
use vec_regs::VecRegs;

/// Does `ld1` at an immediate at once, as `by_form` does. It isn't inlined, so that its frame is its own, or none.
#[rattlefmt::skip]
#[inline(never)]
fn perform_load_imm(core: &Core, vec: &mut VecRegs, mem: &mut Mem, log: &mut AccessLog, i: &Sve) -> bool
    requires row { is_load_imm i.now ≡ true }
    requires own { (is_contiguous_load i.now || is_contiguous_store i.now) ≡ true }
    requires empty { log.old.items ≡ [] }
    ensures done { result ≡ true → performed i.now core.now vec.old mem.old.memory ≡ record {
      core = core.now;
      vectors = vec.new;
      memory = mem.new.memory;
      accesses = log.new.items;
      effect = Effect.Next;
    } }
    ensures loads { (n base : ℕ) → is_contiguous_load i.now ≡ true →
        let p = table.load_plan i.now core.now vec.old in
        IsAtOnce n base Kind.Read p core.now vec.old mem.old.memory → result ≡ true }
    ensures stores { (n base : ℕ) → is_contiguous_store i.now ≡ true →
        let p = table.store_plan i.now core.now vec.old in
        IsAtOnce n base Kind.Write p core.now vec.old mem.old.memory → result ≡ true }
    ensures kept { result ≡ false → vec.new ≡ vec.old }
    ensures unlogged { result ≡ false → log.new ≡ log.old }
    ensures memory { result ≡ false → mem.new.memory ≡ mem.old.memory }
    ensures marks { mem.new.marks ≡ mem.old.marks }
{
    if vec.length().bits() > 512 {
        return by_form(core, vec, mem, log, i);
    }
    match *i.form() {
        SveForm::LoadImm { dtype, imm4, pg, rn, zt } => load_imm(core, vec, mem, log, dtype, imm4, pg, rn, zt),
        _ => unreachable!(),
    }
}

/// Does `ld1` at a register at once, as `by_form` does. It isn't inlined, so that its frame is its own, or none.
#[rattlefmt::skip]
#[inline(never)]
fn perform_load_reg(core: &Core, vec: &mut VecRegs, mem: &mut Mem, log: &mut AccessLog, i: &Sve) -> bool
    requires row { is_load_reg i.now ≡ true }
    requires own { (is_contiguous_load i.now || is_contiguous_store i.now) ≡ true }
    requires empty { log.old.items ≡ [] }
    ensures done { result ≡ true → performed i.now core.now vec.old mem.old.memory ≡ record {
      core = core.now;
      vectors = vec.new;
      memory = mem.new.memory;
      accesses = log.new.items;
      effect = Effect.Next;
    } }
    ensures loads { (n base : ℕ) → is_contiguous_load i.now ≡ true →
        let p = table.load_plan i.now core.now vec.old in
        IsAtOnce n base Kind.Read p core.now vec.old mem.old.memory → result ≡ true }
    ensures stores { (n base : ℕ) → is_contiguous_store i.now ≡ true →
        let p = table.store_plan i.now core.now vec.old in
        IsAtOnce n base Kind.Write p core.now vec.old mem.old.memory → result ≡ true }
    ensures kept { result ≡ false → vec.new ≡ vec.old }
    ensures unlogged { result ≡ false → log.new ≡ log.old }
    ensures memory { result ≡ false → mem.new.memory ≡ mem.old.memory }
    ensures marks { mem.new.marks ≡ mem.old.marks }
{
    if vec.length().bits() > 512 {
        return by_form(core, vec, mem, log, i);
    }
    match *i.form() {
        SveForm::LoadReg { dtype, rm, pg, rn, zt } => load_reg(core, vec, mem, log, dtype, rm, pg, rn, zt),
        _ => unreachable!(),
    }
}

/// Does `ldr` of a Z register at once, as `by_form` does. It is compiled into its caller.
#[rattlefmt::skip]
#[inline(always)]
fn perform_load_z(core: &Core, vec: &mut VecRegs, mem: &mut Mem, log: &mut AccessLog, i: &Sve) -> bool
    requires row { is_load_z i.now ≡ true }
    requires own { (is_contiguous_load i.now || is_contiguous_store i.now) ≡ true }
    requires empty { log.old.items ≡ [] }
    ensures done { result ≡ true → performed i.now core.now vec.old mem.old.memory ≡ record {
      core = core.now;
      vectors = vec.new;
      memory = mem.new.memory;
      accesses = log.new.items;
      effect = Effect.Next;
    } }
    ensures loads { (n base : ℕ) → is_contiguous_load i.now ≡ true →
        let p = table.load_plan i.now core.now vec.old in
        IsAtOnce n base Kind.Read p core.now vec.old mem.old.memory → result ≡ true }
    ensures stores { (n base : ℕ) → is_contiguous_store i.now ≡ true →
        let p = table.store_plan i.now core.now vec.old in
        IsAtOnce n base Kind.Write p core.now vec.old mem.old.memory → result ≡ true }
    ensures kept { result ≡ false → vec.new ≡ vec.old }
    ensures unlogged { result ≡ false → log.new ≡ log.old }
    ensures memory { result ≡ false → mem.new.memory ≡ mem.old.memory }
    ensures marks { mem.new.marks ≡ mem.old.marks }
{
    match *i.form() {
        SveForm::LoadZ { imm9h, imm9l, rn, zt } => load_z(core, vec, mem, log, imm9h, imm9l, rn, zt),
        _ => unreachable!(),
    }
}

/// Does `st1` at an immediate at once, as `by_form` does. It isn't inlined, so that its frame is its own, or none.
#[rattlefmt::skip]
#[inline(never)]
fn perform_store_imm(core: &Core, vec: &mut VecRegs, mem: &mut Mem, log: &mut AccessLog, i: &Sve) -> bool
    requires row { is_store_imm i.now ≡ true }
    requires own { (is_contiguous_load i.now || is_contiguous_store i.now) ≡ true }
    requires empty { log.old.items ≡ [] }
    ensures done { result ≡ true → performed i.now core.now vec.old mem.old.memory ≡ record {
      core = core.now;
      vectors = vec.new;
      memory = mem.new.memory;
      accesses = log.new.items;
      effect = Effect.Next;
    } }
    ensures loads { (n base : ℕ) → is_contiguous_load i.now ≡ true →
        let p = table.load_plan i.now core.now vec.old in
        IsAtOnce n base Kind.Read p core.now vec.old mem.old.memory → result ≡ true }
    ensures stores { (n base : ℕ) → is_contiguous_store i.now ≡ true →
        let p = table.store_plan i.now core.now vec.old in
        IsAtOnce n base Kind.Write p core.now vec.old mem.old.memory → result ≡ true }
    ensures kept { result ≡ false → vec.new ≡ vec.old }
    ensures unlogged { result ≡ false → log.new ≡ log.old }
    ensures memory { result ≡ false → mem.new.memory ≡ mem.old.memory }
    ensures marks { mem.new.marks ≡ mem.old.marks }
{
    if vec.length().bits() > 512 {
        return by_form(core, vec, mem, log, i);
    }
    match *i.form() {
        SveForm::StoreImm { msz, size, imm4, pg, rn, zt } => {
            store_imm(core, vec, mem, log, msz, size, imm4, pg, rn, zt)
        }
        _ => unreachable!(),
    }
}

/// Does `st1` at a register at once, as `by_form` does. It isn't inlined, so that its frame is its own, or none.
#[rattlefmt::skip]
#[inline(never)]
fn perform_store_reg(core: &Core, vec: &mut VecRegs, mem: &mut Mem, log: &mut AccessLog, i: &Sve) -> bool
    requires row { is_store_reg i.now ≡ true }
    requires own { (is_contiguous_load i.now || is_contiguous_store i.now) ≡ true }
    requires empty { log.old.items ≡ [] }
    ensures done { result ≡ true → performed i.now core.now vec.old mem.old.memory ≡ record {
      core = core.now;
      vectors = vec.new;
      memory = mem.new.memory;
      accesses = log.new.items;
      effect = Effect.Next;
    } }
    ensures loads { (n base : ℕ) → is_contiguous_load i.now ≡ true →
        let p = table.load_plan i.now core.now vec.old in
        IsAtOnce n base Kind.Read p core.now vec.old mem.old.memory → result ≡ true }
    ensures stores { (n base : ℕ) → is_contiguous_store i.now ≡ true →
        let p = table.store_plan i.now core.now vec.old in
        IsAtOnce n base Kind.Write p core.now vec.old mem.old.memory → result ≡ true }
    ensures kept { result ≡ false → vec.new ≡ vec.old }
    ensures unlogged { result ≡ false → log.new ≡ log.old }
    ensures memory { result ≡ false → mem.new.memory ≡ mem.old.memory }
    ensures marks { mem.new.marks ≡ mem.old.marks }
{
    if vec.length().bits() > 512 {
        return by_form(core, vec, mem, log, i);
    }
    match *i.form() {
        SveForm::StoreReg { msz, size, rm, pg, rn, zt } => store_reg(core, vec, mem, log, msz, size, rm, pg, rn, zt),
        _ => unreachable!(),
    }
}

/// Does `str` of a Z register at once, as `by_form` does. It is compiled into its caller.
#[rattlefmt::skip]
#[inline(always)]
fn perform_store_z(core: &Core, vec: &mut VecRegs, mem: &mut Mem, log: &mut AccessLog, i: &Sve) -> bool
    requires row { is_store_z i.now ≡ true }
    requires own { (is_contiguous_load i.now || is_contiguous_store i.now) ≡ true }
    requires empty { log.old.items ≡ [] }
    ensures done { result ≡ true → performed i.now core.now vec.old mem.old.memory ≡ record {
      core = core.now;
      vectors = vec.new;
      memory = mem.new.memory;
      accesses = log.new.items;
      effect = Effect.Next;
    } }
    ensures loads { (n base : ℕ) → is_contiguous_load i.now ≡ true →
        let p = table.load_plan i.now core.now vec.old in
        IsAtOnce n base Kind.Read p core.now vec.old mem.old.memory → result ≡ true }
    ensures stores { (n base : ℕ) → is_contiguous_store i.now ≡ true →
        let p = table.store_plan i.now core.now vec.old in
        IsAtOnce n base Kind.Write p core.now vec.old mem.old.memory → result ≡ true }
    ensures kept { result ≡ false → vec.new ≡ vec.old }
    ensures unlogged { result ≡ false → log.new ≡ log.old }
    ensures memory { result ≡ false → mem.new.memory ≡ mem.old.memory }
    ensures marks { mem.new.marks ≡ mem.old.marks }
{
    match *i.form() {
        SveForm::StoreZ { imm9h, imm9l, rn, zt } => store_z(core, vec, mem, log, imm9h, imm9l, rn, zt),
        _ => unreachable!(),
    }
}

/// The same, with an arm for each form that loops are made of.
#[rattlefmt::skip]
#[inline(always)]
pub(crate) fn perform(core: &Core, vec: &mut VecRegs, mem: &mut Mem, log: &mut AccessLog, i: &Sve) -> bool
    requires own { (is_contiguous_load i.now || is_contiguous_store i.now) ≡ true }
    requires empty { log.old.items ≡ [] }
    ensures done { result ≡ true → performed i.now core.now vec.old mem.old.memory ≡ record {
      core = core.now;
      vectors = vec.new;
      memory = mem.new.memory;
      accesses = log.new.items;
      effect = Effect.Next;
    } }
    ensures loads { (n base : ℕ) → is_contiguous_load i.now ≡ true →
        let p = table.load_plan i.now core.now vec.old in
        IsAtOnce n base Kind.Read p core.now vec.old mem.old.memory → result ≡ true }
    ensures stores { (n base : ℕ) → is_contiguous_store i.now ≡ true →
        let p = table.store_plan i.now core.now vec.old in
        IsAtOnce n base Kind.Write p core.now vec.old mem.old.memory → result ≡ true }
    ensures kept { result ≡ false → vec.new ≡ vec.old }
    ensures unlogged { result ≡ false → log.new ≡ log.old }
    ensures memory { result ≡ false → mem.new.memory ≡ mem.old.memory }
    ensures marks { mem.new.marks ≡ mem.old.marks }
{
    match *i.form() {
        SveForm::LoadImm { .. } => perform_load_imm(core, vec, mem, log, i),
        SveForm::LoadReg { .. } => perform_load_reg(core, vec, mem, log, i),
        SveForm::LoadZ { .. } => perform_load_z(core, vec, mem, log, i),
        SveForm::StoreImm { .. } => perform_store_imm(core, vec, mem, log, i),
        SveForm::StoreReg { .. } => perform_store_reg(core, vec, mem, log, i),
        SveForm::StoreZ { .. } => perform_store_z(core, vec, mem, log, i),
        SveForm::LoadNtImm { .. }
        | SveForm::LoadNtReg { .. }
        | SveForm::StoreNtImm { .. }
        | SveForm::StoreNtReg { .. } => by_form(core, vec, mem, log, i),
        SveForm::LoadQuadImm { .. }
        | SveForm::LoadQuadReg { .. }
        | SveForm::LoadManyImm { .. }
        | SveForm::LoadManyReg { .. }
        | SveForm::LoadOne { .. }
        | SveForm::LoadP { .. }
        | SveForm::StoreManyImm { .. }
        | SveForm::StoreManyReg { .. }
        | SveForm::StoreP { .. } => false,
        _ => unreachable!(),
    }
}
