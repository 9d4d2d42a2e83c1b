//! Frames that hold bytes.
ghost use Rattle.std.specs.Prelude.{◌≡◌, ◌≤◌, ◌+◌, ℕ, List, length, take, drop};
ghost use denote.RawPtr.{block_ptr};
ghost use denote.Struct.Lending.{lent_at};
ghost use Rattle.frame_arena.specs.Size.{frame_size};
ghost use Rattle.frame_arena.specs.Links.{Frame, page_at};

use crate::FRAME_BYTES;
use crate::list::Spare;
use std::marker::Model;
use std::slice::from_raw_parts_mut;

/// The memory of one frame, which holds 4,096 bytes.
#[derive(Drop)]
pub struct Page {
    at: *mut [u8; FRAME_BYTES],
    pub ghost block: { ℕ },
    pub ghost place: { ℕ },
    pub ghost placed: { at ≡ block_ptr block place },
    pub ghost bytes: { List ℕ },
}

impl Model for Page {
    ghost also_owns = { λ p. page_at p.at p.bytes };

    ghost also_shares = { λ p _ κ. lent_at Frame p.at p.bytes κ };
}

impl Page {
    /// Writes all bytes of a spare frame.
    pub fn new(spare: Spare, bytes: [u8; FRAME_BYTES]) -> Page
        ensures { (result.block ≡ spare.block) × (result.place ≡ spare.place) × (result.bytes ≡ bytes) }
    {
        let Spare { at } = spare;
        let at = at as *mut [u8; FRAME_BYTES];
        unsafe { at.write(bytes) };
        Page { at }
    }

    /// Forgets the bytes.
    pub fn into_spare(self) -> Spare
        ensures { (result.block ≡ self.block) × (result.place ≡ self.place) }
    {
        let Page { at } = self;
        Spare { at: at as *mut u8 }
    }

    /// The bytes.
    #[inline(always)]
    pub fn bytes(&self) -> &[u8; FRAME_BYTES]
        ensures { result.now ≡ self.now.bytes }
    {
        unsafe { &*self.at }
    }
}

impl Page {
    ghost use Rattle.std.specs.Borrow.{sem};
    ghost use Rattle.frame_arena.specs.LendingPages.{LendsBytes, LendsPart};

    /// The bytes, for writing.
    #[inline(always)]
    pub fn bytes_mut(&mut self) -> &mut [u8; FRAME_BYTES]
        ensures* writes_back { sem 𝓛 (LendsBytes self.entry result) }
        ensures bytes { result.now ≡ self.old.bytes }
    {
        unsafe { &mut *self.at }
    }

    /// `count` of the bytes from place `at` on, for writing.
    #[inline(always)]
    pub fn part_mut(&mut self, at: usize, count: usize) -> &mut [u8]
        requires { at + count ≤ frame_size }
        ensures* writes_back { sem 𝓛 (LendsPart self.entry at result) }
        ensures bytes { (result.now ≡ take count (drop at self.old.bytes)) × (length result.now ≡ count) }
    {
        let page = self.at as *mut u8;
        unsafe { from_raw_parts_mut(page.add(at), count) }
    }
}
