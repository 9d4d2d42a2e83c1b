//! The list of pages.
ghost use Rattle.std.specs.Prelude.{
  ◌≡◌,
  ◌≤◌,
  ◌<◌,
  ◌+◌,
  ◌*◌,
  ◌^◌,
  ◌++◌,
  ◌↔◌,
  [],
  length,
  take,
  drop,
  set,
  get_or,
  replicate,
  true,
  is_some,
  Some,
  None,
  IsSome,
  IfOk,
  IsTrue,
};
ghost use Rattle.std.specs.List.{AllByRecursion, count_by};
ghost use Rattle.emu_model.specs.Access.{gives, page_size, most_mapped_pages};
ghost use Rattle.emu_model.specs.WithinPage.{page_with_bytes};
ghost use Rattle.page_list.specs.Entries.{
  IsAscending,
  IsAtHand,
  IsBelow,
  IsFrom,
  IsGiven,
  IsGivenAt,
  changed_at,
  entry_at,
  is_held,
  nothing_at_hand,
  page_with_rights,
  place_at_hand,
  zeroed_entries,
};

use crate::code::NO_PAGE;
use crate::hand::Hand;
use crate::slots::{
    Mark, Slot, clear_mark, code_of, ensure_own, fill_mark, frame_bytes, frame_number, has_own,
    move_back, move_to_end, own_frame, page_bytes, pop_all, pop_every, push_all, share_all,
    told_bytes,
};
use emu_model::{Kind, Rights};
use frame_arena::{FrameArena, OutOfMemory};
use std::alloc::Global;
use std::marker::Model;

/// Pages with their numbers, at most as many as the limit.
#[derive(Drop)]
pub struct PageList {
    slots: Vec<Slot>,
    arena: FrameArena,
    limit: u32,
    hand: Hand,
    // none, or sixteen
    marks: Vec<Mark>,
}

impl Model for PageList {
    ghost use Rattle.page_list.specs.Entries.{Listed, coded_listed};
    ghost use Rattle.page_list.specs.Slots.{listed, IsKept};

    ghost Value = { Listed };

    ghost coded = { coded_listed };

    ghost view = { listed };

    ghost invariant = { IsKept };
}

impl PageList {
    ghost use Rattle.std.specs.Borrow.{sem};
    ghost use Rattle.page_list.specs.Lending.{LendsPart};

    /// No pages, with room for `limit` of them. No later call takes memory.
    pub fn new(alloc: Global, limit: u32) -> Result<PageList, OutOfMemory>
        ensures { IfOk result
            (λ l. l ≡ record { pages = []; limit = limit; hand = nothing_at_hand; marks = []; spare = limit }) }
    {
        let slots = Vec::with_capacity(alloc, limit as usize)?;
        let arena = FrameArena::new(alloc, limit)?;
        let hand = Hand::empty(alloc)?;
        Ok(PageList {
            slots,
            arena,
            limit,
            hand,
            marks: Vec::new(alloc),
        })
    }

    /// The number of pages.
    #[inline(always)]
    pub fn len(&self) -> usize
        ensures length { result ≡ length self.now.pages }
        ensures most { result ≤ self.now.limit }
        ensures narrow { self.now.limit < 2 ^ 32 }
    {
        self.slots.len()
    }

    /// The greatest number of pages.
    pub fn limit(&self) -> u32
        ensures { result ≡ self.now.limit }
    {
        self.limit
    }

    /// The number of the page at place `i`.
    #[inline(always)]
    pub fn number(&self, i: usize) -> u64
        requires { i < length self.now.pages }
        ensures { result ≡ (entry_at self.now.pages i).0 }
    {
        self.slots[i].number
    }

    /// The rights of the page at place `i`.
    #[inline(always)]
    pub fn rights(&self, i: usize) -> Rights
        requires { i < length self.now.pages }
        ensures { result ≡ (entry_at self.now.pages i).1.rights }
    {
        self.slots[i].rights
    }

    /// The 4,096 bytes of the page at place `i`.
    #[inline(always)]
    pub fn bytes(&self, i: usize) -> &[u8]
        requires { i < length self.now.pages }
        ensures bytes { result.now ≡ (entry_at self.now.pages i).1.bytes }
        ensures length { length result.now ≡ page_size }
    {
        page_bytes(&self.slots[i], &self.arena)
    }

    /// Whether a page is at hand, to be fetched from.
    #[inline(always)]
    pub fn is_code(&self, page: u64) -> bool
        ensures { IsTrue result ↔ IsAtHand self.now page }
    {
        self.hand.code.number == page && page != NO_PAGE
    }

    /// The 4,096 bytes of a page that is at hand.
    #[inline(always)]
    pub fn code(&self, page: u64) -> &[u8]
        requires { IsAtHand self.now page }
        ensures given { IsGiven self.now.pages Kind.Fetch page result.now }
        ensures length { length result.now ≡ page_size }
    {
        told_bytes(self.arena.bytes_at(self.hand.code.frame))
    }

    /// Whether a page is at hand, to be read.
    #[inline(always)]
    pub fn is_read(&self, page: u64) -> bool
        ensures { result ≡ is_held self.now.hand.reads page }
    {
        self.hand.reads.has(page)
    }

    /// The 4,096 bytes of a page that is at hand.
    #[inline(always)]
    pub fn read(&self, page: u64) -> &[u8]
        requires { is_held self.now.hand.reads page ≡ true }
        ensures given { IsGiven self.now.pages Kind.Read page result.now }
        ensures length { length result.now ≡ page_size }
    {
        frame_bytes(&self.arena, self.hand.reads.frame(page))
    }

    /// Whether a page is at hand, to be written.
    #[inline(always)]
    pub fn is_written(&self, page: u64) -> bool
        ensures held { result ≡ is_held self.now.hand.writes page }
        ensures given { IsTrue result → IsGivenAt self.now.pages Kind.Write page (place_at_hand self.now.hand page) }
    {
        self.hand.writes.has(page)
    }

    /// `count` bytes of a page that is at hand, from place `at` on, for writing, and sets `spare` to the number of frames
    /// that are spare.
    #[inline(always)]
    pub fn part_at_hand(&mut self, page: u64, at: usize, count: usize, spare: &mut u32) -> &mut [u8]
        requires held { is_held self.old.hand.writes page ≡ true }
        requires within { at + count ≤ page_size }
        ensures* writes_back { sem 𝓛 (LendsPart self.entry spare.new (place_at_hand self.old.hand page) at result) }
        ensures bytes { result.now
            ≡ take count (drop at (entry_at self.old.pages (place_at_hand self.old.hand page)).1.bytes) }
        ensures length { length result.now ≡ count }
    {
        let number = self.hand.writes.own_frame(page);
        // for its clause: what the frame has are bytes
        let _bytes = told_bytes(self.arena.bytes_at(number));
        *spare = self.arena.spare();
        self.arena.part_at_mut(number, at, count)
    }

    /// Replaces the bytes of a page that is at hand from place `at` on.
    #[inline(always)]
    pub fn write_at_hand(&mut self, page: u64, at: usize, bytes: &[u8])
        requires held { is_held self.old.hand.writes page ≡ true }
        requires within { at + length bytes.now ≤ page_size }
        ensures pages { self.new.pages
            ≡ changed_at (page_with_bytes at bytes.now) (place_at_hand self.old.hand page) self.old.pages }
        ensures limit { self.new.limit ≡ self.old.limit }
        ensures marks { self.new.marks ≡ self.old.marks }
    {
        let bytes = told_bytes(bytes);
        let mut spare = 0;
        self.part_at_hand(page, at, bytes.len(), &mut spare)
            .copy_from_slice(bytes);
    }

    /// Keeps the page at place `i`, which gives the right for `kind`, at hand for it. One that is fetched from is kept
    /// where it has a frame, and one that is written where it has a frame of its own.
    pub fn hold(&mut self, i: usize, kind: Kind)
        requires place { i < length self.old.pages }
        requires allowed { gives (entry_at self.old.pages i).1.rights kind ≡ true }
        ensures pages { self.new.pages ≡ self.old.pages }
        ensures limit { self.new.limit ≡ self.old.limit }
        ensures marks { self.new.marks ≡ self.old.marks }
        ensures spare { self.new.spare ≡ self.old.spare }
    {
        match kind {
            Kind::Fetch => self.hold_code(i),
            Kind::Read => self.hold_read(i),
            Kind::Write => self.hold_write(i),
        }
    }

    fn hold_read(&mut self, i: usize)
        requires place { i < length self.old.pages }
        requires allowed { (entry_at self.old.pages i).1.rights.r ≡ true }
        ensures pages { self.new.pages ≡ self.old.pages }
        ensures limit { self.new.limit ≡ self.old.limit }
        ensures marks { self.new.marks ≡ self.old.marks }
        ensures spare { self.new.spare ≡ self.old.spare }
    {
        let slot = &self.slots[i];
        self.hand.reads.set(slot.number, frame_number(slot), i);
    }

    fn hold_write(&mut self, i: usize)
        requires place { i < length self.old.pages }
        requires allowed { (entry_at self.old.pages i).1.rights.w ≡ true }
        ensures pages { self.new.pages ≡ self.old.pages }
        ensures limit { self.new.limit ≡ self.old.limit }
        ensures marks { self.new.marks ≡ self.old.marks }
        ensures spare { self.new.spare ≡ self.old.spare }
    {
        if has_own(&self.slots, i) {
            let slot = &self.slots[i];
            self.hand.writes.set(slot.number, frame_number(slot), i);
        }
    }

    fn hold_code(&mut self, i: usize)
        requires place { i < length self.old.pages }
        requires allowed { (entry_at self.old.pages i).1.rights.x ≡ true }
        ensures pages { self.new.pages ≡ self.old.pages }
        ensures limit { self.new.limit ≡ self.old.limit }
        ensures marks { self.new.marks ≡ self.old.marks }
        ensures spare { self.new.spare ≡ self.old.spare }
    {
        if let Some(code) = code_of(&self.slots[i]) {
            self.hand.code = code;
        }
    }

    /// Gives the page at place `i` other rights.
    pub fn set_rights(&mut self, i: usize, rights: Rights)
        requires { i < length self.old.pages }
        ensures pages { self.new.pages ≡ changed_at (page_with_rights rights) i self.old.pages }
        ensures limit { self.new.limit ≡ self.old.limit }
        ensures marks { self.new.marks ≡ self.old.marks }
        ensures spare { self.new.spare ≡ self.old.spare }
    {
        self.hand.drop_page(self.slots[i].number);
        self.slots[i].rights = rights;
    }

    /// `count` bytes of the page at place `i` from place `at` on, for writing. The page gets a frame of its own first,
    /// where it has none; `spare` is set to the number of frames that are spare then.
    #[inline(always)]
    pub fn part_mut(&mut self, i: usize, at: usize, count: usize, spare: &mut u32) -> &mut [u8]
        requires place { i < length self.old.pages }
        requires within { at + count ≤ page_size }
        ensures* writes_back { sem 𝓛 (LendsPart self.entry spare.new i at result) }
        ensures bytes { result.now ≡ take count (drop at (entry_at self.old.pages i).1.bytes) }
        ensures length { length result.now ≡ count }
    {
        ensure_own(&mut self.slots, &mut self.arena, &mut self.hand, i);
        // for its clause: what the frame has are bytes
        let _bytes = told_bytes(self.arena.bytes(own_frame(&self.slots, i)));
        *spare = self.arena.spare();
        self.arena.part_mut(own_frame(&self.slots, i), at, count)
    }

    /// Replaces the bytes of the page at place `i` from place `at` on.
    #[inline(always)]
    pub fn write(&mut self, i: usize, at: usize, bytes: &[u8])
        requires place { i < length self.old.pages }
        requires within { at + length bytes.now ≤ page_size }
        ensures pages { self.new.pages ≡ changed_at (page_with_bytes at bytes.now) i self.old.pages }
        ensures limit { self.new.limit ≡ self.old.limit }
        ensures marks { self.new.marks ≡ self.old.marks }
    {
        let bytes = told_bytes(bytes);
        let mut spare = 0;
        self.part_mut(i, at, bytes.len(), &mut spare)
            .copy_from_slice(bytes);
    }

    /// The number of pages that come before a page.
    pub fn place(&self, page: u64) -> usize
        requires { IsAscending self.now.pages }
        ensures bound { result ≤ length self.now.pages }
        ensures below { AllByRecursion (IsBelow page) (take result self.now.pages) }
        ensures from { AllByRecursion (IsFrom page) (drop result self.now.pages) }
    {
        self.slots.partition_point(|slot| slot.number < page)
    }

    /// Puts `count` zeroed pages from page `first` on in at place `at`.
    pub fn insert(&mut self, at: usize, first: u64, count: u64, rights: Rights)
        requires place { at ≤ length self.old.pages }
        requires ends { first + count ≤ 2 ^ 35 }
        requires room { length self.old.pages + count ≤ self.old.limit }
        ensures pages { self.new.pages
            ≡ take at self.old.pages ++ (zeroed_entries first count rights ++ drop at self.old.pages) }
        ensures limit { self.new.limit ≡ self.old.limit }
        ensures marks { self.new.marks ≡ self.old.marks }
    {
        self.hand.clear();
        push_all(&mut self.slots, first, count, rights);
        move_back(&mut self.slots, at, count as usize);
    }

    /// Takes `count` pages from place `at` on away.
    pub fn remove(&mut self, at: usize, count: usize)
        requires { at + count ≤ length self.old.pages }
        ensures pages { self.new.pages ≡ take at self.old.pages ++ drop count (drop at self.old.pages) }
        ensures limit { self.new.limit ≡ self.old.limit }
        ensures marks { self.new.marks ≡ self.old.marks }
    {
        self.hand.clear();
        move_to_end(&mut self.slots, at, count);
        pop_all(&mut self.slots, &mut self.arena, count);
    }

    /// No pages and no marks, with room for `limit` pages and for sixteen marks of as many. No later call takes memory.
    pub fn with_marks(alloc: Global, limit: u32) -> Result<PageList, OutOfMemory>
        requires { limit ≤ most_mapped_pages }
        ensures { IfOk result (λ l. l
            ≡ record { pages = []; limit = limit; hand = nothing_at_hand; marks = replicate 16 None; spare = 3 * limit }) }
    {
        let slots = Vec::with_capacity(alloc, limit as usize)?;
        let arena = FrameArena::new(alloc, 3 * limit)?;
        let hand = Hand::empty(alloc)?;
        let mut marks = Vec::with_capacity(alloc, 16)?;
        for _turn in 0..16u32 {
            marks.push_reserved(Mark {
                slots: Vec::with_capacity(alloc, limit as usize)?,
                set: false,
            });
        }
        Ok(PageList {
            slots,
            arena,
            limit,
            hand,
            marks,
        })
    }

    /// The number of spare frames, which no page and no mark has. Where at most one mark is set, there are as many as
    /// there may be pages.
    pub fn spare(&self) -> u32
        ensures spare { result ≡ self.now.spare }
        ensures one_mark { 0 < length self.now.marks → count_by is_some self.now.marks ≤ 1
            → self.now.limit ≤ self.now.spare }
    {
        let _marks = &self.marks;
        self.arena.spare()
    }

    /// The number of marks, set or not: none, or sixteen.
    pub fn marks(&self) -> usize
        ensures { result ≡ length self.now.marks }
    {
        self.marks.len()
    }

    /// Whether mark `k` is set.
    pub fn is_marked(&self, k: usize) -> bool
        requires { k < length self.now.marks }
        ensures { result ≡ is_some (get_or self.now.marks k None) }
    {
        self.marks[k].set
    }

    /// The number of marks that are set.
    pub fn marked(&self) -> u32
        ensures { result ≡ count_by is_some self.now.marks }
    {
        let mut count = 0;
        for i in 0..self.marks.len() {
            if self.marks[i].set {
                count += 1;
            }
        }
        count
    }

    /// Makes mark `k` the pages as they are. They share their frames with it, and no frame is taken.
    pub fn mark(&mut self, k: usize)
        requires index { k < length self.old.marks }
        requires none { get_or self.old.marks k None ≡ None }
        requires room { self.old.limit ≤ self.old.spare }
        ensures pages { self.new.pages ≡ self.old.pages }
        ensures limit { self.new.limit ≡ self.old.limit }
        ensures marks { self.new.marks ≡ set self.old.marks k (Some self.old.pages) }
        ensures spare { self.new.spare ≡ self.old.spare }
    {
        self.hand.clear();
        fill_mark(&mut self.slots, &mut self.marks[k], &mut self.arena);
    }

    /// Makes mark `k` none.
    pub fn drop_mark(&mut self, k: usize)
        requires index { k < length self.old.marks }
        ensures pages { self.new.pages ≡ self.old.pages }
        ensures limit { self.new.limit ≡ self.old.limit }
        ensures marks { self.new.marks ≡ set self.old.marks k None }
        ensures spare { self.old.spare ≤ self.new.spare }
    {
        clear_mark(&mut self.marks[k], &mut self.arena);
    }

    /// Makes the pages those of mark `k`.
    pub fn restore(&mut self, k: usize)
        requires index { k < length self.old.marks }
        requires set { IsSome (get_or self.old.marks k None) }
        requires few { count_by is_some self.old.marks ≤ 2 }
        ensures pages { get_or self.old.marks k None ≡ Some self.new.pages }
        ensures limit { self.new.limit ≡ self.old.limit }
        ensures marks { self.new.marks ≡ self.old.marks }
    {
        self.hand.clear();
        pop_every(&mut self.slots, &mut self.arena);
        share_all(&mut self.marks[k].slots, &mut self.slots, &mut self.arena);
        // for its clauses
        let _spare = self.arena.spare();
    }
}
