//! The calls on pages: brk, munmap, mmap, mprotect.
ghost use Rattle.std.specs.Prelude.{◌≡◌, ◌/◌, ◌^◌, ◌≤◌};
ghost use Rattle.emu_model.specs.Access.{page_size};
ghost use Rattle.emu_model.specs.declared.program_break.Break.{Break};
ghost use Rattle.emu_model.specs.Pages.{free_run};
ghost use Rattle.emu_model.specs.SoundState.{IsSoundBreak};
ghost use Rattle.emu_system.specs.SystemCall as model;
ghost use Rattle.linux_calls.specs.Replies.{HasDone};

use crate::reply::Reply;
use emu_model::{Break, PAGE_SIZE, Rights};
use emu_system::Errno;
use guest_mem::Mem;

/// The break, and each page that `mmap` maps, is at or below this address.
const HIGHEST: u64 = 0x7F00_0000_0000;

/// The page at 2^47, before which ranges end.
const END_PAGE: u64 = (1 << 47) / PAGE_SIZE;

/// The flags MAP_PRIVATE and MAP_ANONYMOUS.
const PRIVATE_AND_ANONYMOUS: u64 = 0x22;

/// The flags MAP_STACK and MAP_NORESERVE, which mean nothing here.
const WITHOUT_MEANING: u64 = 0x24000;

/// The rights of the heap.
const READ_WRITE: Rights = Rights {
    r: true,
    w: true,
    x: false,
};

/// brk(address): moves the break there, if the pages can be had, and answers where it is.
pub fn move_break(mem: &mut Mem, brk: &mut Break, to: u64) -> Reply
    requires { IsSoundBreak brk.old }
    ensures done { HasDone (model.moved_break mem.old.memory brk.old to) mem.old.memory brk.old
        mem.new.memory brk.new result }
    ensures sound { IsSoundBreak brk.new }
    ensures marks { mem.new.marks ≡ mem.old.marks }
{
    let now = brk.now;
    if to < brk.start || HIGHEST < to {
        return Reply::Answer(now);
    }
    let old = pages_for(now);
    let new = pages_for(to);
    if now <= to {
        if let Err(_) = mem.pages_mut().map(old, new - old, READ_WRITE) {
            return Reply::Answer(now);
        }
    } else {
        mem.pages_mut().unmap(new, old - new);
    }
    brk.now = to;
    Reply::Answer(to)
}

/// munmap(address, length): takes away the pages of the range that are mapped.
pub fn unmap(mem: &mut Mem, address: u64, length: u64) -> Reply
    ensures done { (brk : Break) → HasDone (model.unmapping mem.old.memory address length) mem.old.memory brk
        mem.new.memory brk result }
    ensures marks { mem.new.marks ≡ mem.old.marks }
{
    if address % PAGE_SIZE != 0 || length == 0 {
        return Reply::Error(Errno::EINVAL);
    }
    let first = address / PAGE_SIZE;
    let count = pages_for(length);
    if first + count > END_PAGE {
        return Reply::Error(Errno::EINVAL);
    }
    mem.pages_mut().unmap(first, count);
    Reply::Answer(0)
}

/// mmap(_, length, rights, flags): maps the highest free pages, and answers their address.
pub fn map(mem: &mut Mem, length: u64, prot: u64, flags: u64) -> Reply
    ensures done { (brk : Break) → HasDone (model.mapping mem.old.memory length prot flags) mem.old.memory brk
        mem.new.memory brk result }
    ensures marks { mem.new.marks ≡ mem.old.marks }
{
    if length == 0 || prot > 7 || flags & (u64::MAX - WITHOUT_MEANING) != PRIVATE_AND_ANONYMOUS {
        return Reply::Error(Errno::EINVAL);
    }
    map_highest(mem, pages_for(length), rights_of(prot))
}

/// Maps the highest `count` pages that are free one after the other, and answers their address.
fn map_highest(mem: &mut Mem, count: u64, rights: Rights) -> Reply
    ensures done { (brk : Break)
        → HasDone (model.mapping_at (free_run mem.old.memory.pages count (model.highest / page_size))
        mem.old.memory count rights) mem.old.memory brk mem.new.memory brk result }
    ensures marks { mem.new.marks ≡ mem.old.marks }
{
    let Some(first) = mem.pages().free_run(count, HIGHEST / PAGE_SIZE) else {
        return Reply::Error(Errno::ENOMEM);
    };
    match mem.pages_mut().map(first, count, rights) {
        Ok(()) => Reply::Answer(PAGE_SIZE * first),
        Err(_) => Reply::Error(Errno::ENOMEM),
    }
}

/// mprotect(address, length, rights): gives the pages of the range these rights, if all are mapped.
pub fn protect(mem: &mut Mem, address: u64, length: u64, prot: u64) -> Reply
    ensures done { (brk : Break)
        → HasDone (model.protection mem.old.memory address length prot) mem.old.memory brk mem.new.memory brk result }
    ensures marks { mem.new.marks ≡ mem.old.marks }
{
    if address % PAGE_SIZE != 0 || prot > 7 {
        return Reply::Error(Errno::EINVAL);
    }
    if length == 0 {
        return Reply::Answer(0);
    }
    let first = address / PAGE_SIZE;
    let count = pages_for(length);
    if first + count > END_PAGE {
        return Reply::Error(Errno::ENOMEM);
    }
    match mem.pages_mut().protect(first, count, rights_of(prot)) {
        Ok(()) => Reply::Answer(0),
        Err(_) => Reply::Error(Errno::ENOMEM),
    }
}

/// How many pages so many bytes take.
fn pages_for(bytes: u64) -> u64
    ensures pages { result ≡ model.pages_for bytes }
    ensures most { result ≤ 2 ^ 52 }
{
    if bytes % PAGE_SIZE == 0 {
        bytes / PAGE_SIZE
    } else {
        bytes / PAGE_SIZE + 1
    }
}

/// Rights by the bits PROT_READ, PROT_WRITE and PROT_EXEC.
fn rights_of(prot: u64) -> Rights
    ensures { result ≡ model.rights_of prot }
{
    Rights {
        r: prot % 2 == 1,
        w: prot / 2 % 2 == 1,
        x: prot / 4 % 2 == 1,
    }
}
