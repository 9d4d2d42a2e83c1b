//! Counts of words.
ghost use Rattle.std.specs.Prelude.{
  ◌≡◌,
  ◌<◌,
  ◌≤◌,
  ◌+◌,
  ◌-◌,
  ◌/◌,
  ◌^◌,
  ℕ,
  [],
  OnErr,
  OnOk,
  IfOk,
  IfSome,
  get_or,
  length,
  nat_eq,
  position,
};
ghost use Rattle.word_counts.specs.Counts.{count_at, place_of, IsCounted, IsSame};

use std::alloc::{AllocError, Global};
use std::marker::Model;

/// The words of a page.
pub(crate) const PAGE_WORDS: usize = 1024;

/// For how many pages it is kept at hand where they stand.
const HINTS: usize = 256;

/// How often words were executed, by their numbers: word `w` has the four bytes from address `4 * w` on. Contracts see
/// the pages that have counts, and by `count_at` the count of each word.
#[derive(Drop)]
pub struct WordCounts {
    pages: Vec<u64>,
    counts: Vec<u64>,
    // where a page with these low bits stood when it was last asked for; no part of what contracts see
    hints: [usize; HINTS],
}

impl Model for WordCounts {
    ghost use Rattle.word_counts.specs.Counts.{Counts, IsTable};
    ghost use Rattle.word_counts.specs.Codes.{coded_counts};

    ghost Value = { Counts };

    ghost coded = { coded_counts };

    ghost view = { λ t. record { pages = t.pages.items; counts = t.counts.items } };

    ghost invariant = { λ t. IsTable (record { pages = t.pages.items; counts = t.counts.items }) };
}

/// Where a page stands among others.
fn position_of(pages: &[u64], page: u64) -> Option<usize>
    ensures place { result ≡ position (λ p. nat_eq p page) pages.now }
    ensures within { IfSome result (λ place. place < length pages.now) }
{
    pages.iter().position(|other| *other == page)
}

/// The least of some pages from one on that is below `most`, and `most` where there is none.
fn least_from(pages: &[u64], from: u64, most: u64) -> u64
    requires { from ≤ most }
    ensures from { from ≤ result }
    ensures most { result ≤ most }
    ensures least { (k : ℕ) → k < length pages.now → from ≤ get_or pages.now k 0 → result ≤ get_or pages.now k 0 }
{
    let mut least = most;
    'pages: for k in 0..pages.len() {
        if from <= pages[k] && pages[k] < least {
            least = pages[k];
        }
    }
    least
}

impl WordCounts {
    /// No word was executed.
    pub fn new(alloc: Global) -> WordCounts
        ensures empty { result ≡ record { pages = []; counts = [] } }
        ensures zero { (word : ℕ) → count_at result word ≡ 0 }
    {
        WordCounts {
            pages: Vec::new(alloc),
            counts: Vec::new(alloc),
            hints: [0; HINTS],
        }
    }

    /// Where a page stands among those that have counts, and their number where it doesn't.
    fn place_of(&self, page: u64) -> usize
        ensures place { result ≡ place_of self.now page }
        ensures most { result ≤ length self.now.pages }
    {
        let hint = self.hints[(page % HINTS as u64) as usize];
        if hint < self.pages.len() && self.pages[hint] == page {
            return hint;
        }
        match position_of(&self.pages, page) {
            Some(place) => place,
            None => self.pages.len(),
        }
    }

    /// How often a word was executed.
    pub fn count(&self, word: u64) -> u64
        ensures { result ≡ count_at self.now word }
    {
        let place = self.place_of(word / PAGE_WORDS as u64);
        if place == self.pages.len() {
            return 0;
        }
        self.counts[PAGE_WORDS * place + (word % PAGE_WORDS as u64) as usize]
    }

    /// The least page from one on that has counts and is below `most`, and `most` where there is none: no word of the
    /// pages before it was executed.
    pub fn least_page(&self, from: u64, most: u64) -> u64
        requires { from ≤ most }
        ensures from { from ≤ result }
        ensures most { result ≤ most }
        ensures zero { (word : ℕ) → from ≤ word / 1024 → word / 1024 < result → count_at self.now word ≡ 0 }
    {
        least_from(&self.pages, from, most)
    }

    /// Notes where a page stands.
    #[inline(always)]
    fn note(&mut self, page: u64, place: usize)
        ensures { self.new ≡ self.old }
    {
        self.hints[(page % HINTS as u64) as usize] = place;
    }

    /// Adds a page, with counts of 0. Err is want of memory.
    #[cold]
    #[inline(never)]
    fn add_page(&mut self, page: u64) -> Result<(), AllocError>
        requires absent { place_of self.old page ≡ length self.old.pages }
        requires below { page < 2 ^ 52 }
        ensures place { OnOk result (place_of self.new page ≡ length self.old.pages) }
        ensures longer { OnOk result (length self.new.pages ≡ length self.old.pages + 1) }
        ensures same { IsSame self.old self.new }
    {
        self.pages.reserve(1)?;
        self.counts.resize(self.counts.len() + PAGE_WORDS, 0)?;
        self.pages.push_reserved(page);
        Ok(())
    }

    /// The place of a page, which is added where it has no counts. Err is want of memory.
    #[inline(always)]
    fn place_made(&mut self, page: u64) -> Result<usize, AllocError>
        requires { page < 2 ^ 52 }
        ensures place { IfOk result (λ place. place ≡ place_of self.new page) }
        ensures within { IfOk result (λ place. place < length self.new.pages) }
        ensures same { IsSame self.old self.new }
    {
        let place = self.place_of(page);
        if place == self.pages().len() {
            self.add_page(page)?;
            self.note(page, place);
            return Ok(place);
        }
        self.note(page, place);
        Ok(place)
    }

    /// The numbers of the pages that have counts, in the order in which they came.
    fn pages(&self) -> &[u64]
        ensures { result.now ≡ self.now.pages }
    {
        &self.pages
    }

    /// Counts a word. Err is want of memory, and no count has changed.
    #[inline(always)]
    pub fn add(&mut self, word: u64) -> Result<(), AllocError>
        requires below { word < 2 ^ 62 }
        requires room { count_at self.old word < 2 ^ 64 - 1 }
        ensures counted { OnOk result (IsCounted word self.old self.new) }
        ensures unchanged { OnErr result (IsSame self.old self.new) }
    {
        let place = self.place_made(word / PAGE_WORDS as u64)?;
        self.counts[PAGE_WORDS * place + (word % PAGE_WORDS as u64) as usize] += 1;
        Ok(())
    }
}
