//! The mapped pages, and the calls that map, find and change them.
ghost use Rattle.std.specs.Prelude.{
  ◌≡◌,
  true,
  ◌≤◌,
  ◌<◌,
  ◌+◌,
  ◌*◌,
  ◌^◌,
  length,
  set,
  get_or,
  is_some,
  IsSome,
  Some,
  None,
  false,
  if◌then◌else◌,
  MatchOption,
  IfOk,
  IfSome,
  OnOk,
  OnErr,
  IsTrue,
  option_map,
  [],
  ⊤,
};
ghost use Rattle.std.specs.FinMap as map;
ghost use Rattle.std.specs.List.{count_by};
ghost use mathlib.Core.Option.{none};
ghost use Rattle.emu_model.specs.Access.{page_size, most_mapped_pages};
ghost use Rattle.emu_model.specs.ByPage.{page_gives};
ghost use Rattle.emu_model.specs.Marks.{fresh_marks};
ghost use Rattle.std.specs.Borrow.{sem, follows_so, Lends, LendsSo, Array, u8 as byte};
ghost use Rattle.guest_pages.specs.contracts.pages.Pages.{the_row};
ghost use Rattle.guest_pages.specs.Lending.{memory_with_part, with_part};
ghost use Rattle.emu_model.specs.Pages.{bytes_at, free_run, least_unmapped, mapped, protected, unmapped, with_bytes};
ghost use Rattle.emu_model.specs.SoundState.{IsSoundMemory};
ghost use Rattle.guest_pages.specs.MapFault.{map_fault, protect_answer};
ghost use Rattle.guest_pages.specs.Open.{IsOpen};

use crate::cache::Cache;
use crate::gaps::free_run;
use crate::places::{
    allows, cached_place, is_mapped, look_up, place_to_write, protect_pages, remove_pages,
    search_for, store_page, taken, unmapped_page, write_page,
};
use emu_model::{Kind, PAGE_BYTES, Rights};
pub use page_list::OutOfMemory;
use page_list::PageList;
use std::alloc::Global;
use std::marker::Model;

/// Why pages can't be mapped.
#[derive(Clone, Copy, Debug, PartialEq, Eq)]
pub enum MapFault {
    /// The page is mapped already.
    Taken(u64),
    /// There would be more pages than the limit allows.
    Full,
}

/// A page that isn't mapped.
#[derive(Clone, Copy, Debug, PartialEq, Eq)]
pub struct Unmapped {
    pub page: u64,
}

/// The mapped pages. Contracts see them as memory, a finite map from page to rights and bytes with the greatest number
/// of pages; and beside it the marks, each none or such a map, and the number of spare frames.
#[derive(Drop)]
pub struct Pages {
    list: PageList,
    cache: Cache,
}

impl Model for Pages {
    ghost use Rattle.emu_model.specs.Marks.{MarkedMemory, coded_marked_memory};

    ghost Value = { MarkedMemory };

    ghost coded = { coded_marked_memory };

    ghost use Rattle.guest_pages.specs.Places.{IsInOrder, marked_memory_of};

    ghost view = { marked_memory_of };

    ghost invariant = { IsInOrder };
}

impl Pages {
    /// No pages, of which at most `limit` may be mapped. No later call takes memory.
    pub fn new(alloc: Global, limit: u32) -> Result<Pages, OutOfMemory>
        ensures { IfOk result
            (λ p. p ≡ record { memory = record { pages = map.empty; limit = limit }; marks = []; spare = limit }) }
    {
        let list = PageList::new(alloc, limit)?;
        Ok(Pages {
            list,
            cache: Cache::empty(),
        })
    }

    /// The number of mapped pages.
    pub fn mapped(&self) -> u32
        ensures count { result ≡ map.len self.now.memory.pages }
        ensures sound { IsSoundMemory self.now.memory }
    {
        self.list.len() as u32
    }

    /// Whether a page is mapped.
    pub fn is_mapped(&self, page: u64) -> bool
        ensures { result ≡ map.contains_key self.now.memory.pages page }
    {
        is_mapped(&self.list, &self.cache, page)
    }

    /// The rights and the 4,096 bytes of a page. None exactly where the page isn't mapped.
    pub fn find(&self, page: u64) -> Option<(Rights, &[u8])>
        ensures found { MatchOption result (map.get self.now.memory.pages page ≡ None)
            (λ f. map.get self.now.memory.pages page ≡ Some (record { rights = f.0; bytes = f.1.now })) }
        ensures whole { MatchOption result ⊤ (λ f. length f.1.now ≡ page_size) }
    {
        match cached_place(&self.list, &self.cache, page) {
            None => None,
            Some(i) => Some((self.list.rights(i), self.list.bytes(i))),
        }
    }

    /// The same, and puts a page that it finds into the look-up cache, of which no contract speaks.
    #[inline(always)]
    pub fn seek(&mut self, page: u64) -> Option<(Rights, &[u8])>
        ensures* unchanged { sem 𝓛
            (follows_so the_row the_row self.entry.ghost_name none (λ _ _. ⊤) (λ m. m ≡ self.old)) }
        ensures found { MatchOption result (map.get self.old.memory.pages page ≡ None)
            (λ f. map.get self.old.memory.pages page ≡ Some (record { rights = f.0; bytes = f.1.now })) }
        ensures whole { MatchOption result ⊤ (λ f. length f.1.now ≡ page_size) }
    {
        match look_up(&self.list, &mut self.cache, page) {
            None => None,
            Some(i) => Some((self.list.rights(i), self.list.bytes(i))),
        }
    }

    /// The bytes of a page that has the right for `kind`, with the look-up cache as in `seek`.
    #[inline(always)]
    pub fn seek_for(&mut self, page: u64, kind: Kind) -> Option<&[u8]>
        ensures* unchanged { sem 𝓛
            (follows_so the_row the_row self.entry.ghost_name none (λ _ _. ⊤) (λ m. m ≡ self.old)) }
        ensures found { MatchOption result (page_gives (map.get self.old.memory.pages page) kind ≡ false)
            (λ s. IsOpen (map.get self.old.memory.pages page) kind s.now) }
        ensures whole { MatchOption result ⊤ (λ s. length s.now ≡ page_size) }
    {
        match kind {
            Kind::Fetch => self.seek_code(page),
            Kind::Read => self.seek_read(page),
            Kind::Write => self.seek_data(page, kind),
        }
    }

    /// The same by the look-up cache alone.
    #[inline(always)]
    fn seek_data(&mut self, page: u64, kind: Kind) -> Option<&[u8]>
        ensures* unchanged { sem 𝓛
            (follows_so the_row the_row self.entry.ghost_name none (λ _ _. ⊤) (λ m. m ≡ self.old)) }
        ensures found { MatchOption result (page_gives (map.get self.old.memory.pages page) kind ≡ false)
            (λ s. IsOpen (map.get self.old.memory.pages page) kind s.now) }
        ensures whole { MatchOption result ⊤ (λ s. length s.now ≡ page_size) }
    {
        match look_up(&self.list, &mut self.cache, page) {
            None => None,
            Some(i) => {
                if allows(self.list.rights(i), kind) {
                    Some(self.list.bytes(i))
                } else {
                    None
                }
            }
        }
    }

    /// The bytes of a page that may be fetched from: the one at hand, or else it is looked for.
    #[inline(always)]
    fn seek_code(&mut self, page: u64) -> Option<&[u8]>
        ensures* unchanged { sem 𝓛
            (follows_so the_row the_row self.entry.ghost_name none (λ _ _. ⊤) (λ m. m ≡ self.old)) }
        ensures found { MatchOption result (page_gives (map.get self.old.memory.pages page) Kind.Fetch ≡ false)
            (λ s. IsOpen (map.get self.old.memory.pages page) Kind.Fetch s.now) }
        ensures whole { MatchOption result ⊤ (λ s. length s.now ≡ page_size) }
    {
        if self.list.is_code(page) {
            return Some(self.list.code(page));
        }
        match search_for(&mut self.list, &mut self.cache, page, Kind::Fetch) {
            None => None,
            Some(i) => Some(self.list.bytes(i)),
        }
    }

    /// The bytes of a page that may be read, likewise.
    #[inline(always)]
    fn seek_read(&mut self, page: u64) -> Option<&[u8]>
        ensures* unchanged { sem 𝓛
            (follows_so the_row the_row self.entry.ghost_name none (λ _ _. ⊤) (λ m. m ≡ self.old)) }
        ensures found { MatchOption result (page_gives (map.get self.old.memory.pages page) Kind.Read ≡ false)
            (λ s. IsOpen (map.get self.old.memory.pages page) Kind.Read s.now) }
        ensures whole { MatchOption result ⊤ (λ s. length s.now ≡ page_size) }
    {
        if self.list.is_read(page) {
            return Some(self.list.read(page));
        }
        match search_for(&mut self.list, &mut self.cache, page, Kind::Read) {
            None => None,
            Some(i) => Some(self.list.bytes(i)),
        }
    }

    /// The 4,096 bytes of a page, for writing. None exactly where the page isn't mapped.
    pub fn find_mut(&mut self, page: u64) -> Option<&mut [u8]>
        ensures* writes_back { sem 𝓛
            (LendsSo the_row (Array byte 0) self.entry result
            (λ n w. (n.memory ≡ memory_with_part self.old.memory page 0 w) × (n.marks ≡ self.old.marks))
            (λ n. n ≡ self.old)) }
        ensures found { option_map (λ s. s.now) result
            ≡ option_map (λ p. p.bytes) (map.get self.old.memory.pages page) }
        ensures whole { MatchOption result ⊤ (λ s. length s.now ≡ page_size) }
    {
        let mut spare = 0;
        if self.is_mapped(page) {
            Some(self.page_mut(page, &mut spare))
        } else {
            None
        }
    }

    /// The 4,096 bytes of a page that is mapped, for writing, and sets `spare` to the number of frames that are spare
    /// then.
    pub fn page_mut(&mut self, page: u64, spare: &mut u32) -> &mut [u8]
        requires { IsTrue (map.contains_key self.old.memory.pages page) }
        ensures* writes_back { sem 𝓛
            (Lends the_row (Array byte 0) self.entry result (with_part self.old spare.new page 0)) }
        ensures found { Some result.now ≡ option_map (λ p. p.bytes) (map.get self.old.memory.pages page) }
        ensures whole { length result.now ≡ page_size }
    {
        // a field is looked at, so that the proof may use what the pages keep to
        let _ = &self.cache;
        self.part_mut(page, 0, PAGE_BYTES, spare)
    }

    /// `count` bytes of a page that is mapped, from place `at` on, for writing, and sets `spare` to the number of
    /// frames that are spare then.
    #[inline(always)]
    pub fn part_mut(&mut self, page: u64, at: usize, count: usize, spare: &mut u32) -> &mut [u8]
        requires mapped { IsTrue (map.contains_key self.old.memory.pages page) }
        requires within { at + count ≤ page_size }
        ensures* writes_back { sem 𝓛
            (Lends the_row (Array byte 0) self.entry result (with_part self.old spare.new page at)) }
        ensures value { result.now ≡ bytes_at self.old.memory (page * page_size + at) count }
        ensures length { length result.now ≡ count }
    {
        if self.list.is_written(page) {
            return self.list.part_at_hand(page, at, count, spare);
        }
        let i = place_to_write(&mut self.list, &mut self.cache, page);
        self.list.part_mut(i, at, count, spare)
    }

    /// Whether a page is at hand to be written, as a page that was written lately mostly is. It may be written then.
    #[inline(always)]
    pub fn is_at_hand(&self, page: u64) -> bool
        ensures { IsTrue result → page_gives (map.get self.now.memory.pages page) Kind.Write ≡ true }
    {
        self.list.is_written(page)
    }

    /// Whether a page is at hand to be read, as a page that was read lately mostly is. It may be read then.
    #[inline(always)]
    pub fn is_at_hand_to_read(&self, page: u64) -> bool
        ensures { IsTrue result → page_gives (map.get self.now.memory.pages page) Kind.Read ≡ true }
    {
        if self.list.is_read(page) {
            // for its clause
            let _bytes = self.list.read(page);
            return true;
        }
        false
    }

    /// Whether a page may be written.
    #[inline(always)]
    pub fn may_write(&self, page: u64) -> bool
        ensures { result ≡ page_gives (map.get self.now.memory.pages page) Kind.Write }
    {
        if self.list.is_written(page) {
            return true;
        }
        match self.find(page) {
            None => false,
            Some((rights, _)) => rights.w,
        }
    }

    /// Maps `count` pages from page `first` on, with these rights and their bytes 0. `Taken` has the least of them that
    /// is mapped already; else `Full` comes exactly where there would be more pages than the limit. An Err leaves the
    /// pages as they were.
    pub fn map(&mut self, first: u64, count: u64, rights: Rights) -> Result<(), MapFault>
        requires begins { 1 ≤ first }
        requires ends { first + count ≤ 2 ^ 35 }
        ensures refused { IfSome (map_fault self.old.memory first count) (λ fault. result ≡ Err fault) }
        ensures granted { map_fault self.old.memory first count ≡ None → result ≡ Ok (record {}) }
        ensures mapped { OnOk result (self.new.memory ≡ mapped self.old.memory first count rights) }
        ensures marks { self.new.marks ≡ self.old.marks }
        ensures unchanged { OnErr result (self.new ≡ self.old) }
    {
        let at = self.list.place(first);
        if let Some(page) = taken(&self.list, at, first, count) {
            return Err(MapFault::Taken(page));
        }
        if self.list.limit() as u64 - (self.list.len() as u64) < count {
            return Err(MapFault::Full);
        }
        self.cache = Cache::empty();
        self.list.insert(at, first, count, rights);
        Ok(())
    }

    /// Takes away those of `count` pages from page `first` on that are mapped.
    pub fn unmap(&mut self, first: u64, count: u64)
        requires { first + count ≤ 2 ^ 35 }
        ensures unmapped { self.new.memory ≡ unmapped self.old.memory first count }
        ensures marks { self.new.marks ≡ self.old.marks }
    {
        self.cache = Cache::empty();
        remove_pages(&mut self.list, first, count);
    }

    /// Gives `count` pages from page `first` on these rights. `Unmapped` has the least of them that isn't mapped, and
    /// then no page is changed.
    pub fn protect(&mut self, first: u64, count: u64, rights: Rights) -> Result<(), Unmapped>
        requires { first + count ≤ 2 ^ 35 }
        ensures result { result ≡ protect_answer (least_unmapped self.old.memory.pages first count) }
        ensures protected { OnOk result (self.new.memory ≡ protected self.old.memory first count rights) }
        ensures marks { self.new.marks ≡ self.old.marks }
        ensures unchanged { OnErr result (self.new ≡ self.old) }
    {
        if let Some(page) = unmapped_page(&self.list, &self.cache, first, count) {
            return Err(Unmapped { page });
        }
        protect_pages(&mut self.list, first, count, rights);
        Ok(())
    }

    /// The greatest page, from page 1 on, from which `count` pages are unmapped that end at or below page `below`. None
    /// exactly where there is no such page.
    pub fn free_run(&self, count: u64, below: u64) -> Option<u64>
        ensures { result ≡ free_run self.now.memory.pages count below }
    {
        free_run(&self.list, count, below)
    }

    /// Replaces the bytes of a page from place `at` on; a page that isn't mapped stays so.
    pub fn write(&mut self, page: u64, at: usize, bytes: &[u8])
        requires number { page < 2 ^ 52 }
        requires within { at + length bytes.now ≤ page_size }
        ensures bytes { self.new.memory ≡ with_bytes self.old.memory (page * page_size + at) bytes.now }
        ensures marks { self.new.marks ≡ self.old.marks }
    {
        write_page(&mut self.list, &mut self.cache, page, at, bytes);
    }

    /// Replaces the bytes of a page from place `at` on where it may be written, and answers whether it may.
    #[inline(always)]
    pub fn store(&mut self, page: u64, at: usize, bytes: &[u8]) -> bool
        requires number { page < 2 ^ 52 }
        requires within { at + length bytes.now ≤ page_size }
        ensures allowed { result ≡ page_gives (map.get self.old.memory.pages page) Kind.Write }
        ensures bytes { self.new.memory
            ≡ (if result then with_bytes self.old.memory (page * page_size + at) bytes.now else self.old.memory) }
        ensures marks { self.new.marks ≡ self.old.marks }
    {
        store_page(&mut self.list, &mut self.cache, page, at, bytes)
    }

    /// No pages, of which at most `limit` may be mapped, and sixteen marks, which are none. No later call takes memory.
    pub fn with_marks(alloc: Global, limit: u32) -> Result<Pages, OutOfMemory>
        requires { limit ≤ most_mapped_pages }
        ensures { IfOk result (λ p. p ≡ record {
          memory = record { pages = map.empty; limit = limit };
          marks = fresh_marks;
          spare = 3 * limit;
        }) }
    {
        let list = PageList::with_marks(alloc, limit)?;
        Ok(Pages {
            list,
            cache: Cache::empty(),
        })
    }

    /// The greatest number of pages.
    pub fn limit(&self) -> u32
        ensures { result ≡ self.now.memory.limit }
    {
        self.list.limit()
    }

    /// The number of spare frames. Where at most one mark isn't none, the pages can be marked.
    pub fn spare(&self) -> u32
        ensures spare { result ≡ self.now.spare }
        ensures one_mark { 0 < length self.now.marks → count_by is_some self.now.marks ≤ 1
            → self.now.memory.limit ≤ self.now.spare }
    {
        self.list.spare()
    }

    /// The number of marks, whether they are none or not: none, or sixteen.
    pub fn marks(&self) -> usize
        ensures { result ≡ length self.now.marks }
    {
        self.list.marks()
    }

    /// Whether mark `k` isn't none.
    pub fn is_marked(&self, k: u32) -> bool
        requires { k < length self.now.marks }
        ensures { result ≡ is_some (get_or self.now.marks k None) }
    {
        self.list.is_marked(k as usize)
    }

    /// The number of marks that aren't none.
    pub fn marked(&self) -> u32
        ensures { result ≡ count_by is_some self.now.marks }
    {
        self.list.marked()
    }

    /// Makes mark `k` the pages as they are. It takes no spare frame.
    pub fn mark(&mut self, k: u32)
        requires index { k < length self.old.marks }
        requires none { get_or self.old.marks k None ≡ None }
        requires room { self.old.memory.limit ≤ self.old.spare }
        ensures memory { self.new.memory ≡ self.old.memory }
        ensures marks { self.new.marks ≡ set self.old.marks k (Some self.old.memory.pages) }
        ensures spare { self.new.spare ≡ self.old.spare }
    {
        self.list.mark(k as usize);
    }

    /// Makes mark `k` none.
    pub fn drop_mark(&mut self, k: u32)
        requires index { k < length self.old.marks }
        ensures memory { self.new.memory ≡ self.old.memory }
        ensures marks { self.new.marks ≡ set self.old.marks k None }
        ensures spare { self.old.spare ≤ self.new.spare }
    {
        self.list.drop_mark(k as usize);
    }

    /// Makes the pages those of mark `k`.
    pub fn restore(&mut self, k: u32)
        requires index { k < length self.old.marks }
        requires set { IsSome (get_or self.old.marks k None) }
        requires few { count_by is_some self.old.marks ≤ 2 }
        ensures pages { get_or self.old.marks k None ≡ Some self.new.memory.pages }
        ensures limit { self.new.memory.limit ≡ self.old.memory.limit }
        ensures marks { self.new.marks ≡ self.old.marks }
    {
        self.list.restore(k as usize);
        self.cache = Cache::empty();
    }
}
