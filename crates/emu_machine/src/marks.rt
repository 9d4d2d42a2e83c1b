//! Marks of a machine: each is none, or keeps the machine as it once was.
ghost use Rattle.std.specs.Prelude.{
  ◌≡◌,
  ◌≤◌,
  ◌<◌,
  length as len,
  set,
  get_or,
  is_some,
  IfOk,
  IsSome,
  Some,
  None,
  [],
  map,
  string_bytes,
  false,
};
ghost use Rattle.std.specs.List.{count_by};
ghost use Rattle.emu_model.specs.Access.{most_mapped_pages};
ghost use Rattle.emu_model.specs.Marks.{fresh_marks};
ghost use Rattle.emu_system.specs.ArgumentLimits.{AreArguments};
ghost use Rattle.emu_system.specs.Start.{opening};
ghost use Rattle.elf_image.specs.Images.{seen_image};
ghost use Rattle.elf_image.specs.Loadable.{IsLoadable};
ghost use Rattle.emu_machine.specs.Machines.{has_ended, mark_at, saved_of};

use crate::machine::Machine;
use crate::registers::Registers;
use crate::saved::Saved;
use elf_image::Image;
use emu_model::Length;
use guest_pages::{OutOfMemory, Pages};
use std::alloc::Global;

impl Machine {
    /// The machine of an image before its first step, as `open` makes it, with sixteen marks, which are none. Its
    /// memory has three frames for each of the pages. The only error is want of memory, and no later call takes memory.
    pub fn open_marked(
        alloc: Global,
        bytes: &[u8],
        image: &Image,
        args: &[String],
        length: Length,
        pages: u32,
    ) -> Result<Machine, OutOfMemory>
        requires loadable { IsLoadable bytes.now pages (seen_image image.now) }
        requires arguments { AreArguments (map string_bytes args.now) }
        requires few { pages ≤ most_mapped_pages }
        ensures parts { IfOk result (λ m. m.parts
            ≡ opening bytes.now (seen_image image.now) (map string_bytes args.now) length pages) }
        ensures marks { IfOk result (λ m. m.marks ≡ fresh_marks) }
        ensures places { IfOk result (λ m. len m.saved ≡ 16) }
        ensures accesses { IfOk result (λ m. m.accesses ≡ []) }
        ensures failed { IfOk result (λ m. m.failed ≡ false) }
    {
        let saved = unset_marks(alloc, length)?;
        let memory = Pages::with_marks(alloc, pages)?;
        let registers = Registers::unset(alloc, length)?;
        Ok(Machine::opened(memory, saved, registers, bytes, image, args))
    }

    /// The greatest number of mapped pages.
    pub fn limit(&self) -> u32
        ensures { result ≡ self.now.parts.memory.limit }
    {
        self.running.memory.pages().limit()
    }

    /// The number of spare frames. In a machine with marks of which at most one isn't none, it can be marked.
    pub fn spare(&self) -> u32
        ensures spare { result ≡ self.now.spare }
        ensures one_mark { 0 < len self.now.marks → count_by is_some self.now.marks ≤ 1
            → self.now.parts.memory.limit ≤ self.now.spare }
    {
        self.running.memory.pages().spare()
    }

    /// The number of marks that aren't none.
    pub fn marked(&self) -> u32
        ensures { result ≡ count_by is_some self.now.marks }
    {
        self.running.memory.pages().marked()
    }

    /// Makes mark `k` the machine as it is. It takes no spare frame.
    pub fn mark(&mut self, k: u32)
        requires going { has_ended self.old ≡ false }
        requires index { k < len self.old.marks }
        requires place { k < len self.old.saved }
        requires none { get_or self.old.marks k None ≡ None }
        requires room { self.old.parts.memory.limit ≤ self.old.spare }
        ensures parts { self.new.parts ≡ self.old.parts }
        ensures marks { self.new.marks ≡ set self.old.marks k (Some self.old.parts.memory.pages) }
        ensures saved { self.new.saved ≡ set self.old.saved k (saved_of self.old.parts) }
        ensures spare { self.new.spare ≡ self.old.spare }
        ensures accesses { self.new.accesses ≡ self.old.accesses }
        ensures failed { self.new.failed ≡ self.old.failed }
    {
        self.running.memory.pages_mut().mark(k);
        self.running.saved[k as usize].set(
            &self.running.core,
            &self.running.vec,
            self.running.brk,
            self.running.steps,
        );
    }

    /// Makes mark `k` none.
    pub fn drop_mark(&mut self, k: u32)
        requires { k < len self.old.marks }
        ensures parts { self.new.parts ≡ self.old.parts }
        ensures marks { self.new.marks ≡ set self.old.marks k None }
        ensures saved { self.new.saved ≡ self.old.saved }
        ensures spare { self.old.spare ≤ self.new.spare }
        ensures accesses { self.new.accesses ≡ self.old.accesses }
        ensures failed { self.new.failed ≡ self.old.failed }
    {
        self.running.memory.pages_mut().drop_mark(k);
    }

    /// Makes the machine that of mark `k`, which hadn't ended, with the number of steps that it had counted. A machine
    /// that has ended, or in which a stream has failed, goes back too.
    pub fn restore(&mut self, k: u32)
        requires index { k < len self.old.marks }
        requires place { k < len self.old.saved }
        requires set { IsSome (get_or self.old.marks k None) }
        requires few { count_by is_some self.old.marks ≤ 2 }
        ensures machine { mark_at self.old k ≡ Some self.new.parts }
        ensures marks { self.new.marks ≡ self.old.marks }
        ensures saved { self.new.saved ≡ self.old.saved }
        ensures accesses { self.new.accesses ≡ [] }
        ensures failed { self.new.failed ≡ false }
    {
        let Saved {
            core,
            vec,
            brk,
            steps,
        } = self.running.saved[k as usize].copy();
        self.running.memory.pages_mut().restore(k);
        *self.running.core = core;
        *self.running.vec = vec;
        self.running.brk = brk;
        self.running.steps = steps;
        self.running.ended = None;
        self.running.failed = false;
        self.running.log.clear();
        self.shown.clear();
    }
}

/// Sixteen places for what marks keep.
fn unset_marks(alloc: Global, length: Length) -> Result<Vec<Saved>, OutOfMemory>
    ensures { IfOk result (λ saved. len saved.items ≡ 16) }
{
    let mut saved = Vec::with_capacity(alloc, 16)?;
    for _turn in 0..16u32 {
        saved.push_reserved(Saved::unset(length));
    }
    Ok(saved)
}
