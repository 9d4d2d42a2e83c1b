//! The slots of the mapped pages, in the order of their numbers.
ghost use Rattle.std.specs.Prelude.{
  ◌≡◌,
  ◌≤◌,
  ◌<◌,
  ◌+◌,
  ◌^◌,
  ◌++◌,
  length,
  take,
  drop,
  if◌then◌else◌,
  not,
  ◌&&◌,
  nat_le,
  nat_lt,
  MatchOption,
  IfNone,
  IfOk,
  OnErr,
  OnOk,
  IsTrue,
};
ghost use Rattle.std.specs.List.{AllByRecursion, filter};
ghost use Rattle.std.specs.Ordering.{nat_cmp};
ghost use Rattle.std.specs.FinMap.{contains_key, find};
ghost use Rattle.emu_model.specs.Access.{page_size};
ghost use Rattle.emu_model.specs.ByPage.{page_gives};
ghost use Rattle.emu_model.specs.Pages.{free_run, is_page_in, is_free, least_mapped, least_unmapped, zeros};
ghost use Rattle.emu_model.specs.SoundState.{AreBytes};
ghost use Rattle.emu_model.specs.WithinPage.{overwritten, page_with_bytes};
ghost use Rattle.plain_pages.specs.Slots.{
  IsAscending,
  IsBelow,
  IsFrom,
  IsAt,
  IsEntry,
  all_changed,
  changed,
  entries_of,
  page_with_rights,
  pages_of,
  zeroed_entries,
};

use emu_model::{Kind, PAGE_BYTES, Rights};
use std::alloc::{AllocError, Global};

/// A mapped page.
#[derive(Drop)]
pub struct Slot {
    pub number: u64,
    pub rights: Rights,
    pub bytes: Vec<u8>,
}

/// The number of slots whose pages come before a page.
pub fn place(slots: &[Slot], page: u64) -> usize
    requires { IsAscending (entries_of slots.now) }
    ensures bound { result ≤ length slots.now }
    ensures below { AllByRecursion (IsBelow page) (take result (entries_of slots.now)) }
    ensures from { AllByRecursion (IsFrom page) (drop result (entries_of slots.now)) }
{
    slots.partition_point(|slot| slot.number < page)
}

/// The place of a page's slot. None exactly where the page isn't mapped.
pub fn find_slot(slots: &[Slot], page: u64) -> Option<usize>
    requires { IsAscending (entries_of slots.now) }
    ensures { MatchOption result (find nat_cmp page (entries_of slots.now) ≡ None) (IsAt slots.now page) }
{
    let at = place(slots, page);
    if at < slots.len() && slots[at].number == page {
        Some(at)
    } else {
        None
    }
}

/// The place of the slot of a page that is mapped.
pub fn mapped_place(slots: &[Slot], page: u64) -> usize
    requires ascending { IsAscending (entries_of slots.now) }
    requires mapped { IsTrue (contains_key (pages_of (entries_of slots.now)) page) }
    ensures { IsAt slots.now page result }
{
    place(slots, page)
}

/// The least of `count` pages from page `first` on that is mapped, with the place of `first`.
pub fn taken(slots: &[Slot], at: usize, first: u64, count: u64) -> Option<u64>
    requires ascending { IsAscending (entries_of slots.now) }
    requires ends { first + count < 2 ^ 64 }
    requires bound { at ≤ length slots.now }
    requires below { AllByRecursion (IsBelow first) (take at (entries_of slots.now)) }
    requires from { AllByRecursion (IsFrom first) (drop at (entries_of slots.now)) }
    ensures least { result ≡ least_mapped (pages_of (entries_of slots.now)) first count }
    ensures past { IfNone result (AllByRecursion (IsFrom (first + count)) (drop at (entries_of slots.now))) }
{
    if at < slots.len() && slots[at].number < first + count {
        Some(slots[at].number)
    } else {
        None
    }
}

/// The same slice; its clause says that each of its values is a byte.
pub fn told_bytes(bytes: &[u8]) -> &[u8]
    ensures same { result.now ≡ bytes.now }
    ensures bytes { AreBytes bytes.now }
{
    bytes
}

/// Replaces the bytes from place `at` on.
fn overwrite(bytes: &mut [u8], at: usize, piece: &[u8])
    requires { at + length piece.now ≤ length bytes.old }
    ensures { bytes.new ≡ overwritten at piece.now bytes.old }
{
    bytes[at..at + piece.len()].copy_from_slice(piece);
}

/// Replaces the bytes of the page whose slot is at place `i`, from place `at` on.
fn write_at(slots: &mut [Slot], page: u64, i: usize, at: usize, bytes: &[u8])
    requires place { IsAt slots.old page i }
    requires ascending { IsAscending (entries_of slots.old) }
    requires whole { AllByRecursion IsEntry (entries_of slots.old) }
    requires within { at + length bytes.now ≤ page_size }
    ensures { entries_of slots.new ≡ changed (page_with_bytes at bytes.now) page (entries_of slots.old) }
{
    overwrite(&mut slots[i].bytes, at, bytes);
}

/// Replaces the bytes of a page from place `at` on; a page that isn't mapped stays so.
pub fn write_slot(slots: &mut [Slot], page: u64, at: usize, bytes: &[u8])
    requires ascending { IsAscending (entries_of slots.old) }
    requires whole { AllByRecursion IsEntry (entries_of slots.old) }
    requires within { at + length bytes.now ≤ page_size }
    ensures { entries_of slots.new ≡ changed (page_with_bytes at bytes.now) page (entries_of slots.old) }
{
    if let Some(i) = find_slot(slots, page) {
        write_at(slots, page, i, at, bytes);
    }
}

/// The same where the page may be written, and whether it may.
pub fn store_slot(slots: &mut [Slot], page: u64, at: usize, bytes: &[u8]) -> bool
    requires ascending { IsAscending (entries_of slots.old) }
    requires whole { AllByRecursion IsEntry (entries_of slots.old) }
    requires within { at + length bytes.now ≤ page_size }
    ensures allowed { result ≡ page_gives (find nat_cmp page (entries_of slots.old)) Kind.Write }
    ensures entries { entries_of slots.new ≡ (if result
        then changed (page_with_bytes at bytes.now) page (entries_of slots.old) else entries_of slots.old) }
{
    match find_slot(slots, page) {
        Some(i) if slots[i].rights.w => {
            write_at(slots, page, i, at, bytes);
            true
        }
        _ => false,
    }
}

#[tactic(auto, using(emu_model::specs::PageEquations::zeros_is))]
/// `count` zero bytes.
fn zeroed(alloc: Global, count: usize) -> Result<Vec<u8>, AllocError>
    ensures { IfOk result (λ v. v.items ≡ zeros count) }
{
    vec![in alloc; 0; count]
}

/// The slots of `count` zeroed pages from page `first` on.
pub fn zeroed_slots(
    alloc: Global,
    first: u64,
    count: u64,
    rights: Rights,
) -> Result<Vec<Slot>, AllocError>
    requires { first + count ≤ 2 ^ 35 }
    ensures { IfOk result (λ v. entries_of v.items ≡ zeroed_entries first count rights) }
{
    let mut slots = Vec::new(alloc);
    for number in first..first + count {
        let bytes = zeroed(alloc, PAGE_BYTES)?;
        slots.push(Slot {
            number,
            rights,
            bytes,
        })?;
    }
    Ok(slots)
}

/// Puts slots in at a place. An Err leaves the slots as they were.
pub fn insert_slots(
    slots: &mut Vec<Slot>,
    at: usize,
    mut fresh: Vec<Slot>,
) -> Result<(), AllocError>
    requires { at ≤ length slots.old.items }
    ensures ok { OnOk result (slots.new.items ≡ take at slots.old.items ++ (fresh.items ++ drop at slots.old.items)) }
    ensures err { OnErr result (slots.new.items ≡ slots.old.items) }
{
    let count = fresh.len();
    slots.append(&mut fresh)?;
    slots[at..].rotate_right(count);
    Ok(())
}

/// Takes away the slots of `count` pages from page `first` on.
pub fn remove_slots(slots: &mut Vec<Slot>, first: u64, count: u64)
    requires { first + count ≤ 2 ^ 35 }
    ensures { entries_of slots.new.items ≡ filter (λ e. not (is_page_in first count e.0)) (entries_of slots.old.items) }
{
    let end = first + count;
    slots.retain(
        move |slot|
            ensures { result ≡ not (nat_le first slot.now.number && nat_lt slot.now.number end) }
        { !(first <= slot.number && slot.number < end) },
    );
}

/// Whether a page is mapped.
pub fn is_mapped(slots: &[Slot], page: u64) -> bool
    requires { IsAscending (entries_of slots.now) }
    ensures { result ≡ contains_key (pages_of (entries_of slots.now)) page }
{
    match find_slot(slots, page) {
        None => false,
        Some(_) => true,
    }
}

#[tactic(auto, using(emu_model::specs::PageEquations::ranges))]
/// The least of `count` pages from page `first` on that isn't mapped.
pub fn unmapped_page(slots: &[Slot], first: u64, count: u64) -> Option<u64>
    requires ascending { IsAscending (entries_of slots.now) }
    requires ends { first + count ≤ 2 ^ 35 }
    ensures { result ≡ least_unmapped (pages_of (entries_of slots.now)) first count }
{
    for page in first..first + count {
        if !is_mapped(slots, page) {
            return Some(page);
        }
    }
    None
}

/// Gives a page other rights; a page that isn't mapped stays so.
fn protect_slot(slots: &mut [Slot], page: u64, rights: Rights)
    requires { IsAscending (entries_of slots.old) }
    ensures { entries_of slots.new ≡ changed (page_with_rights rights) page (entries_of slots.old) }
{
    if let Some(i) = find_slot(slots, page) {
        slots[i].rights = rights;
    }
}

/// Gives `count` pages from page `first` on other rights; a page that isn't mapped stays so.
pub fn protect_slots(slots: &mut [Slot], first: u64, count: u64, rights: Rights)
    requires ascending { IsAscending (entries_of slots.old) }
    requires ends { first + count ≤ 2 ^ 35 }
    ensures { entries_of slots.new ≡ all_changed (page_with_rights rights) first count (entries_of slots.old) }
{
    for page in first..first + count {
        protect_slot(slots, page, rights);
    }
}

/// Whether `count` pages from page `first` on are unmapped.
fn is_free(slots: &[Slot], first: u64, count: u64) -> bool
    requires ascending { IsAscending (entries_of slots.now) }
    requires ends { first + count < 2 ^ 64 }
    ensures { result ≡ is_free (pages_of (entries_of slots.now)) first count }
{
    taken(slots, place(slots, first), first, count).is_none()
}

/// The greatest page, from page 1 on, from which `count` pages are unmapped that end at or below page `below`.
pub fn free_run(slots: &[Slot], count: u64, below: u64) -> Option<u64>
    requires { IsAscending (entries_of slots.now) }
    ensures { result ≡ free_run (pages_of (entries_of slots.now)) count below }
{
    let mut first = below.saturating_sub(count);
    while first > 0 {
        if is_free(slots, first, count) {
            return Some(first);
        }
        first -= 1;
    }
    None
}
