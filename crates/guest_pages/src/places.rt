//! The places of pages in the list, which has them in the order of their numbers.
ghost use Rattle.std.specs.Prelude.{
  ◌≡◌,
  ◌≤◌,
  ◌<◌,
  ◌+◌,
  ◌^◌,
  length,
  take,
  drop,
  if◌then◌else◌,
  not,
  true,
  false,
  MatchOption,
  IfNone,
  IfSome,
  IsTrue,
  Some,
};
ghost use Rattle.std.specs.List.{AllByRecursion, filter};
ghost use Rattle.std.specs.Ordering.{nat_cmp};
ghost use Rattle.std.specs.FinMap.{contains_key, find};
ghost use Rattle.emu_model.specs.Access.{gives, page_size};
ghost use Rattle.emu_model.specs.ByPage.{page_gives};
ghost use Rattle.emu_model.specs.Pages.{is_page_in, least_mapped, least_unmapped};
ghost use Rattle.emu_model.specs.WithinPage.{page_with_bytes};
ghost use Rattle.guest_pages.specs.Places.{
  IsAscending,
  IsBelow,
  IsFrom,
  IsAt,
  IsRight,
  all_changed,
  cached,
  changed,
  entry_at,
  page_with_rights,
  pages_of,
};

use crate::cache::Cache;
use emu_model::{Kind, Rights};
use page_list::PageList;

/// The place of a page. None exactly where the page isn't mapped.
#[inline(never)]
pub fn find_place(list: &PageList, page: u64) -> Option<usize>
    requires { IsAscending list.now.pages }
    ensures { MatchOption result (find nat_cmp page list.now.pages ≡ None) (IsAt list.now.pages page) }
{
    let at = list.place(page);
    if at < list.len() && list.number(at) == page {
        Some(at)
    } else {
        None
    }
}

/// The same, by the cache first.
#[inline(always)]
pub fn cached_place(list: &PageList, cache: &Cache, page: u64) -> Option<usize>
    requires ascending { IsAscending list.now.pages }
    requires right { IsRight list.now.pages cache.now }
    ensures { MatchOption result (find nat_cmp page list.now.pages ≡ None) (IsAt list.now.pages page) }
{
    match cache.place(page) {
        Some(i) => Some(i),
        None => find_place(list, page),
    }
}

/// The same, and the cache holds a place that was found.
#[inline(always)]
pub fn look_up(list: &PageList, cache: &mut Cache, page: u64) -> Option<usize>
    requires ascending { IsAscending list.now.pages }
    requires right { IsRight list.now.pages cache.old }
    ensures place { MatchOption result (find nat_cmp page list.now.pages ≡ None) (IsAt list.now.pages page) }
    ensures held { IfSome result (λ i. cached cache.new page ≡ Some i) }
    ensures right { IsRight list.now.pages cache.new }
{
    match cache.place(page) {
        Some(i) => Some(i),
        None => search(list, cache, page),
    }
}

/// The same where the line of the cache has another page.
#[cold]
#[inline(never)]
fn search(list: &PageList, cache: &mut Cache, page: u64) -> Option<usize>
    requires ascending { IsAscending list.now.pages }
    requires right { IsRight list.now.pages cache.old }
    ensures place { MatchOption result (find nat_cmp page list.now.pages ≡ None) (IsAt list.now.pages page) }
    ensures held { IfSome result (λ i. cached cache.new page ≡ Some i) }
    ensures right { IsRight list.now.pages cache.new }
{
    match find_place(list, page) {
        Some(i) => {
            cache.set(page, i);
            Some(i)
        }
        None => None,
    }
}

/// Whether rights allow an access.
#[inline(always)]
pub fn allows(rights: Rights, kind: Kind) -> bool
    ensures { result ≡ gives rights kind }
{
    match kind {
        Kind::Read => rights.r,
        Kind::Write => rights.w,
        Kind::Fetch => rights.x,
    }
}

/// The place of a page that has the right for `kind`. The page that is found is kept at hand for it.
#[cold]
#[inline(never)]
pub fn search_for(list: &mut PageList, cache: &mut Cache, page: u64, kind: Kind) -> Option<usize>
    requires ascending { IsAscending list.old.pages }
    requires right { IsRight list.old.pages cache.old }
    ensures place { MatchOption result (page_gives (find nat_cmp page list.old.pages) kind ≡ false)
        (IsAt list.old.pages page) }
    ensures allowed { IfSome result (λ i. gives (entry_at list.old.pages i).1.rights kind ≡ true) }
    ensures pages { list.new.pages ≡ list.old.pages }
    ensures limit { list.new.limit ≡ list.old.limit }
    ensures marks { list.new.marks ≡ list.old.marks }
    ensures spare { list.new.spare ≡ list.old.spare }
    ensures right { IsRight list.old.pages cache.new }
{
    match look_up(list, cache, page) {
        Some(i) if allows(list.rights(i), kind) => {
            list.hold(i, kind);
            Some(i)
        }
        _ => None,
    }
}

/// The place of a page that is mapped.
pub fn mapped_place(list: &PageList, cache: &mut Cache, page: u64) -> usize
    requires ascending { IsAscending list.now.pages }
    requires right { IsRight list.now.pages cache.old }
    requires mapped { IsTrue (contains_key (pages_of list.now.pages) page) }
    ensures place { IsAt list.now.pages page result }
    ensures right { IsRight list.now.pages cache.new }
{
    match look_up(list, cache, page) {
        Some(i) => i,
        None => unreachable!(),
    }
}

/// The same. The page is kept at hand to be written, if it may be.
#[cold]
#[inline(never)]
pub fn place_to_write(list: &mut PageList, cache: &mut Cache, page: u64) -> usize
    requires ascending { IsAscending list.old.pages }
    requires right { IsRight list.old.pages cache.old }
    requires mapped { IsTrue (contains_key (pages_of list.old.pages) page) }
    ensures place { IsAt list.old.pages page result }
    ensures pages { list.new.pages ≡ list.old.pages }
    ensures limit { list.new.limit ≡ list.old.limit }
    ensures marks { list.new.marks ≡ list.old.marks }
    ensures right { IsRight list.old.pages cache.new }
{
    let i = mapped_place(list, cache, page);
    if list.rights(i).w {
        list.hold(i, Kind::Write);
    }
    i
}

/// The least of `count` pages from page `first` on that is mapped, with the place of `first`.
pub fn taken(list: &PageList, at: usize, first: u64, count: u64) -> Option<u64>
    requires ascending { IsAscending list.now.pages }
    requires ends { first + count ≤ 2 ^ 35 }
    requires bound { at ≤ length list.now.pages }
    requires below { AllByRecursion (IsBelow first) (take at list.now.pages) }
    requires from { AllByRecursion (IsFrom first) (drop at list.now.pages) }
    ensures least { result ≡ least_mapped (pages_of list.now.pages) first count }
    ensures past { IfNone result (AllByRecursion (IsFrom (first + count)) (drop at list.now.pages)) }
{
    if at < list.len() && list.number(at) < first + count {
        Some(list.number(at))
    } else {
        None
    }
}

/// Replaces the bytes of a page from place `at` on; a page that isn't mapped stays so.
pub fn write_page(list: &mut PageList, cache: &mut Cache, page: u64, at: usize, bytes: &[u8])
    requires ascending { IsAscending list.old.pages }
    requires right { IsRight list.old.pages cache.old }
    requires within { at + length bytes.now ≤ page_size }
    ensures pages { list.new.pages ≡ changed (page_with_bytes at bytes.now) page list.old.pages }
    ensures limit { list.new.limit ≡ list.old.limit }
    ensures marks { list.new.marks ≡ list.old.marks }
    ensures right { IsRight list.new.pages cache.new }
{
    if let Some(i) = look_up(list, cache, page) {
        list.write(i, at, bytes);
    }
}

/// The same where the page may be written, and whether it may.
#[inline(always)]
pub fn store_page(
    list: &mut PageList,
    cache: &mut Cache,
    page: u64,
    at: usize,
    bytes: &[u8],
) -> bool
    requires ascending { IsAscending list.old.pages }
    requires right { IsRight list.old.pages cache.old }
    requires within { at + length bytes.now ≤ page_size }
    ensures allowed { result ≡ page_gives (find nat_cmp page list.old.pages) Kind.Write }
    ensures pages { list.new.pages
        ≡ (if result then changed (page_with_bytes at bytes.now) page list.old.pages else list.old.pages) }
    ensures limit { list.new.limit ≡ list.old.limit }
    ensures marks { list.new.marks ≡ list.old.marks }
    ensures right { IsRight list.new.pages cache.new }
{
    if list.is_written(page) {
        list.write_at_hand(page, at, bytes);
        return true;
    }
    store_found(list, cache, page, at, bytes)
}

/// The same where the page isn't at hand. It is from now on, if it has a frame of its own already.
#[cold]
#[inline(never)]
fn store_found(list: &mut PageList, cache: &mut Cache, page: u64, at: usize, bytes: &[u8]) -> bool
    requires ascending { IsAscending list.old.pages }
    requires right { IsRight list.old.pages cache.old }
    requires within { at + length bytes.now ≤ page_size }
    ensures allowed { result ≡ page_gives (find nat_cmp page list.old.pages) Kind.Write }
    ensures pages { list.new.pages
        ≡ (if result then changed (page_with_bytes at bytes.now) page list.old.pages else list.old.pages) }
    ensures limit { list.new.limit ≡ list.old.limit }
    ensures marks { list.new.marks ≡ list.old.marks }
    ensures right { IsRight list.new.pages cache.new }
{
    match look_up(list, cache, page) {
        Some(i) if list.rights(i).w => {
            list.hold(i, Kind::Write);
            list.write(i, at, bytes);
            true
        }
        _ => false,
    }
}

/// Takes away `count` pages from page `first` on.
pub fn remove_pages(list: &mut PageList, first: u64, count: u64)
    requires ascending { IsAscending list.old.pages }
    requires ends { first + count ≤ 2 ^ 35 }
    ensures pages { list.new.pages ≡ filter (λ e. not (is_page_in first count e.0)) list.old.pages }
    ensures limit { list.new.limit ≡ list.old.limit }
    ensures marks { list.new.marks ≡ list.old.marks }
{
    let at = list.place(first);
    let end = list.place(first + count);
    list.remove(at, end - at);
}

/// Whether a page is mapped.
pub fn is_mapped(list: &PageList, cache: &Cache, page: u64) -> bool
    requires ascending { IsAscending list.now.pages }
    requires right { IsRight list.now.pages cache.now }
    ensures { result ≡ contains_key (pages_of list.now.pages) page }
{
    match cached_place(list, cache, page) {
        None => false,
        Some(_) => true,
    }
}

#[tactic(auto, using(emu_model::specs::PageEquations::ranges))]
/// The least of `count` pages from page `first` on that isn't mapped.
pub fn unmapped_page(list: &PageList, cache: &Cache, first: u64, count: u64) -> Option<u64>
    requires ascending { IsAscending list.now.pages }
    requires right { IsRight list.now.pages cache.now }
    requires ends { first + count ≤ 2 ^ 35 }
    ensures { result ≡ least_unmapped (pages_of list.now.pages) first count }
{
    for page in first..first + count {
        if !is_mapped(list, cache, page) {
            return Some(page);
        }
    }
    None
}

/// Gives a page other rights; a page that isn't mapped stays so.
fn protect_page(list: &mut PageList, page: u64, rights: Rights)
    requires { IsAscending list.old.pages }
    ensures pages { list.new.pages ≡ changed (page_with_rights rights) page list.old.pages }
    ensures limit { list.new.limit ≡ list.old.limit }
    ensures marks { list.new.marks ≡ list.old.marks }
{
    if let Some(i) = find_place(list, page) {
        list.set_rights(i, rights);
    }
}

/// Gives `count` pages from page `first` on other rights; a page that isn't mapped stays so.
pub fn protect_pages(list: &mut PageList, first: u64, count: u64, rights: Rights)
    requires ascending { IsAscending list.old.pages }
    requires ends { first + count ≤ 2 ^ 35 }
    ensures pages { list.new.pages ≡ all_changed (page_with_rights rights) first count list.old.pages }
    ensures limit { list.new.limit ≡ list.old.limit }
    ensures marks { list.new.marks ≡ list.old.marks }
{
    for page in first..first + count {
        protect_page(list, page, rights);
    }
}
