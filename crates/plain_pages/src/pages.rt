//! The mapped pages, and the calls that map, find and change them: the plain program of the definitions.
ghost use Rattle.std.specs.Prelude.{
  ◌≡◌,
  ◌≤◌,
  ◌<◌,
  ◌+◌,
  ◌*◌,
  ◌^◌,
  length,
  if◌then◌else◌,
  MatchOption,
  IfOk,
  IfErr,
  IfSome,
  OnOk,
  OnErr,
  ⊤,
};
ghost use Rattle.std.specs.FinMap as map;
ghost use Rattle.emu_model.specs.Access.{page_size};
ghost use Rattle.emu_model.specs.ByPage.{page_gives};
ghost use Rattle.emu_model.specs.Pages.{free_run, least_unmapped, mapped, protected, unmapped, with_bytes};
ghost use Rattle.emu_model.specs.SoundState.{IsSoundMemory};
ghost use Rattle.guest_pages.specs.MapFault.{map_fault, protect_answer};

use crate::slots::{
    Slot, find_slot, free_run, insert_slots, is_mapped, mapped_place, place, protect_slots,
    remove_slots, store_slot, taken, told_bytes, unmapped_page, write_slot, zeroed_slots,
};
use emu_model::{Kind, Rights};
use guest_pages::{MapFault, Unmapped};
use std::alloc::{AllocError, Global};
use std::marker::Model;

/// Want of memory.
pub type OutOfMemory = AllocError;

/// Why pages weren't mapped.
#[derive(Clone, Copy, Debug, PartialEq, Eq)]
pub enum MapError {
    /// They can't be.
    Refused(MapFault),
    OutOfMemory,
}

/// The mapped pages. Contracts see them as a finite map from page to rights and bytes, and the greatest number of
/// pages.
#[derive(Drop)]
pub struct Pages {
    alloc: Global,
    slots: Vec<Slot>,
    limit: u32,
}

impl Model for Pages {
    ghost use Rattle.emu_model.specs.Access.{Memory};
    ghost use Rattle.emu_model.specs.Codes.{coded_memory};

    ghost Value = { Memory };

    ghost coded = { coded_memory };

    ghost use Rattle.plain_pages.specs.Slots.{memory_of, IsInOrder};

    ghost view = { memory_of };

    ghost invariant = { IsInOrder };
}

impl Pages {
    /// No pages, of which at most `limit` may be mapped.
    pub fn new(alloc: Global, limit: u32) -> Result<Pages, OutOfMemory>
        ensures { IfOk result (λ p. p ≡ record { pages = map.empty; limit = limit }) }
    {
        Ok(Pages {
            alloc,
            slots: Vec::new(alloc),
            limit,
        })
    }

    /// The number of mapped pages.
    pub fn mapped(&self) -> u32
        ensures count { result ≡ map.len self.now.pages }
        ensures sound { IsSoundMemory self.now }
    {
        self.slots.len() as u32
    }

    /// Whether a page is mapped.
    pub fn is_mapped(&self, page: u64) -> bool
        ensures { result ≡ map.contains_key self.now.pages page }
    {
        is_mapped(&self.slots, page)
    }

    /// The rights and the 4,096 bytes of a page. None exactly where the page isn't mapped.
    pub fn find(&self, page: u64) -> Option<(Rights, &[u8])>
        ensures found { MatchOption result (map.get self.now.pages page ≡ None)
            (λ f. map.get self.now.pages page ≡ Some (record { rights = f.0; bytes = f.1.now })) }
        ensures whole { MatchOption result ⊤ (λ f. length f.1.now ≡ page_size) }
    {
        match find_slot(&self.slots, page) {
            None => None,
            Some(at) => {
                let slot = &self.slots[at];
                Some((slot.rights, told_bytes(&slot.bytes)))
            }
        }
    }

    /// Maps `count` pages from page `first` on, with these rights and their bytes 0. `Taken` has the least of them that
    /// is mapped already; else `Full` comes exactly where there would be more pages than the limit. An Err leaves the
    /// pages as they were.
    pub fn map(&mut self, first: u64, count: u64, rights: Rights) -> Result<(), MapError>
        requires begins { 1 ≤ first }
        requires ends { first + count ≤ 2 ^ 35 }
        ensures refused { IfSome (map_fault self.old first count) (λ fault. result ≡ Err (MapError.Refused fault)) }
        ensures wanting { map_fault self.old first count ≡ None → IfErr result (λ error. error ≡ MapError.OutOfMemory) }
        ensures mapped { OnOk result (self.new ≡ mapped self.old first count rights) }
        ensures unchanged { OnErr result (self.new ≡ self.old) }
    {
        let at = place(&self.slots, first);
        if let Some(page) = taken(&self.slots, at, first, count) {
            return Err(MapError::Refused(MapFault::Taken(page)));
        }
        if self.limit as u64 - (self.slots.len() as u64) < count {
            return Err(MapError::Refused(MapFault::Full));
        }
        let Ok(fresh) = zeroed_slots(self.alloc, first, count, rights) else {
            return Err(MapError::OutOfMemory);
        };
        match insert_slots(&mut self.slots, at, fresh) {
            Ok(()) => Ok(()),
            Err(_) => Err(MapError::OutOfMemory),
        }
    }

    /// Takes away those of `count` pages from page `first` on that are mapped.
    pub fn unmap(&mut self, first: u64, count: u64)
        requires { first + count ≤ 2 ^ 35 }
        ensures { self.new ≡ unmapped self.old first count }
    {
        remove_slots(&mut self.slots, first, count);
    }

    /// Gives `count` pages from page `first` on these rights. `Unmapped` has the least of them that isn't mapped, and
    /// then no page is changed.
    pub fn protect(&mut self, first: u64, count: u64, rights: Rights) -> Result<(), Unmapped>
        requires { first + count ≤ 2 ^ 35 }
        ensures result { result ≡ protect_answer (least_unmapped self.old.pages first count) }
        ensures protected { OnOk result (self.new ≡ protected self.old first count rights) }
        ensures unchanged { OnErr result (self.new ≡ self.old) }
    {
        if let Some(page) = unmapped_page(&self.slots, first, count) {
            return Err(Unmapped { page });
        }
        protect_slots(&mut self.slots, first, count, rights);
        Ok(())
    }

    /// The greatest page, from page 1 on, from which `count` pages are unmapped that end at or below page `below`. None
    /// exactly where there is no such page.
    pub fn free_run(&self, count: u64, below: u64) -> Option<u64>
        ensures { result ≡ free_run self.now.pages count below }
    {
        free_run(&self.slots, count, below)
    }

    /// Replaces the bytes of a page from place `at` on; a page that isn't mapped stays so.
    pub fn write(&mut self, page: u64, at: usize, bytes: &[u8])
        requires number { page < 2 ^ 52 }
        requires within { at + length bytes.now ≤ page_size }
        ensures { self.new ≡ with_bytes self.old (page * page_size + at) bytes.now }
    {
        write_slot(&mut self.slots, page, at, bytes);
    }

    /// Replaces the bytes of a page from place `at` on where it may be written, and answers whether it may.
    pub fn store(&mut self, page: u64, at: usize, bytes: &[u8]) -> bool
        requires number { page < 2 ^ 52 }
        requires within { at + length bytes.now ≤ page_size }
        ensures allowed { result ≡ page_gives (map.get self.old.pages page) Kind.Write }
        ensures bytes { self.new
            ≡ (if result then with_bytes self.old (page * page_size + at) bytes.now else self.old) }
    {
        store_slot(&mut self.slots, page, at, bytes)
    }
}
