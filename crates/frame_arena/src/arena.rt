//! Frames that are taken and given back.
ghost use Rattle.std.specs.Prelude.{◌≡◌, ℕ, ◌≤◌, ◌<◌, ◌+◌, ◌^◌, ◌==◌, take, drop, IfOk, MatchOption, Some, length};
ghost use Rattle.std.specs.FinMap as map;
ghost use Rattle.frame_arena.specs.Size.{frame_size};

use crate::list::FreeList;
use crate::memory::{Lease, Memory};
use crate::slot::{Slot, zeroed_page};
use crate::{FRAME_BYTES, OutOfMemory};
use std::alloc::{AllocError, Global};
use std::marker::Model;
use std::mem;

/// A frame that was taken from an arena, and is live there until it is given back; one that is dropped stays live.
/// Several frames may name one block. Contracts see a frame as the number of its block.
#[derive(Drop)]
pub struct Frame {
    number: u32,
}

impl Model for Frame {
    ghost use Rattle.std.specs.Prelude.{ℕ};
    ghost use Rattle.std.specs.Coded.{coded_ℕ};

    ghost Value = { ℕ };

    ghost coded = { coded_ℕ };

    ghost view = { λ f. f.number };
}

/// One region of blocks. Contracts see the bytes of the blocks in use by their numbers and how many frames name each,
/// how many are spare, and how many there are.
pub struct FrameArena {
    // the frames that were cut off the region so far, by their numbers
    slots: Vec<Slot>,
    // those of them that were given back, and their number
    free: FreeList,
    given: u32,
    // the rest of the region, where no frame was taken yet
    rest: Option<Memory>,
    total: u32,
    alloc: Global,
    lease: Lease<Global>,
}

impl Model for FrameArena {
    ghost use Rattle.frame_arena.specs.Frames.{Frames, frames_code};
    ghost use Rattle.frame_arena.specs.Slots.{frames_of, IsKept};

    ghost Value = { Frames };

    ghost coded = { frames_code };

    ghost view = { frames_of };

    ghost invariant = { IsKept };
}

impl Frame {
    /// Its number in the arena.
    #[inline(always)]
    pub fn number(&self) -> u32
        ensures { result ≡ self.now }
    {
        self.number
    }
}

impl FrameArena {
    ghost use Rattle.std.specs.Borrow.{sem};
    ghost use Rattle.frame_arena.specs.Frames.{
      IsLive,
      IsSole,
      bytes_of,
      count_of,
      fresh,
      freed,
      given,
      lowered,
      shared,
      zeroed,
      Takes,
    };
    ghost use Rattle.frame_arena.specs.LendingFrames.{LendsFrame, LendsPart};

    /// An arena of that many frames, all spare. No byte of the region is read or written.
    pub fn new(alloc: Global, frames: u32) -> Result<FrameArena, OutOfMemory>
        ensures { IfOk result (λ a. a ≡ fresh frames) }
    {
        let count = frames as usize;
        let slots = Vec::with_capacity(alloc, count)?;
        let Some((region, lease)) = Memory::new(&alloc, count * FRAME_BYTES) else {
            return Err(AllocError);
        };
        Ok(FrameArena {
            slots,
            free: FreeList::empty(),
            given: 0,
            rest: Some(region),
            total: frames,
            alloc,
            lease,
        })
    }

    /// The number of spare frames: with the live ones they are all.
    pub fn spare(&self) -> u32
        ensures spare { result ≡ self.now.spare }
        ensures total { map.len self.now.live + result ≡ self.now.total }
        ensures counted { (n : ℕ) → IsLive self.now n → 1 ≤ count_of self.now.live n }
    {
        self.total - self.slots.len() as u32 + self.given
    }

    /// A spare frame becomes live, and its 4,096 bytes are 0. None exactly where no frame is spare.
    pub fn take(&mut self) -> Option<Frame>
        ensures { MatchOption result ((self.old.spare ≡ 0) × (self.new ≡ self.old))
            (λ f. Takes self.old f zeroed self.new) }
    {
        if self.given > 0 {
            let free = mem::replace(&mut self.free, FreeList::empty());
            let (number, (frame, free)) = free.pop();
            self.free = free;
            self.given -= 1;
            self.slots[number] = Slot::Used {
                others: 0,
                page: zeroed_page(frame),
            };
            return Some(Frame {
                number: number as u32,
            });
        }
        let number = self.slots.len() as u32;
        if number == self.total {
            return None;
        }
        let Some(region) = self.rest.take() else {
            unreachable!()
        };
        let (frame, rest) = region.cut();
        self.rest = Some(rest);
        self.slots.push_reserved(Slot::Used {
            others: 0,
            page: zeroed_page(frame),
        });
        Some(Frame { number })
    }

    /// The block of a frame that alone names it becomes spare.
    fn free(&mut self, f: Frame)
        requires { IsLive self.old f }
        ensures { self.new ≡ freed self.old f }
    {
        let Frame { number } = f;
        match mem::replace(&mut self.slots[number as usize], Slot::Spare) {
            Slot::Used { others: _, page } => {
                let free = mem::replace(&mut self.free, FreeList::empty());
                self.free = free.push(page.into_spare(), number as usize);
                self.given += 1;
            }
            Slot::Spare => unreachable!(),
        }
    }

    /// One frame less names the block of a frame.
    fn lower(&mut self, f: Frame)
        requires live { IsLive self.old f }
        requires others { 1 < count_of self.old.live f }
        ensures { self.new ≡ lowered self.old f }
    {
        let Frame { number } = f;
        self.slots[number as usize].lower();
    }

    /// Gives a frame back; its block becomes spare with the last frame that names it. A block counts as in use by its
    /// number alone: give a frame to the arena that it was taken from.
    pub fn give(&mut self, f: Frame)
        requires { IsLive self.old f }
        ensures { self.new ≡ given self.old f }
    {
        if self.sole(&f) {
            self.free(f);
        } else {
            self.lower(f);
        }
    }

    /// Another frame that names the same block.
    pub fn share(&mut self, f: &Frame) -> Frame
        requires live { IsLive self.old f.now }
        requires few { count_of self.old.live f.now + 1 < 2 ^ 32 }
        ensures same { result ≡ f.now }
        ensures arena { self.new ≡ shared self.old f.now }
    {
        self.slots[f.number as usize].raise();
        Frame { number: f.number }
    }

    /// Whether the frame alone names its block.
    #[inline(always)]
    pub fn sole(&self, f: &Frame) -> bool
        requires { IsLive self.now f.now }
        ensures sole { result ≡ (count_of self.now.live f.now == 1) }
        ensures named { 1 ≤ count_of self.now.live f.now }
    {
        self.slots[f.number as usize].is_sole()
    }

    /// A spare block takes the bytes of a frame's block. None exactly where no block is spare.
    pub fn copy(&mut self, f: &Frame) -> Option<Frame>
        requires { IsLive self.old f.now }
        ensures { MatchOption result ((self.old.spare ≡ 0) × (self.new ≡ self.old))
            (λ c. Takes self.old c (bytes_of self.old.live f.now) self.new) }
    {
        let mut bytes = [0; FRAME_BYTES];
        bytes.copy_from_slice(self.bytes(f));
        let copy = self.take()?;
        self.bytes_mut(&copy).copy_from_slice(&bytes);
        Some(copy)
    }

    /// The 4,096 bytes of a live frame.
    #[inline(always)]
    pub fn bytes(&self, f: &Frame) -> &[u8]
        requires { IsLive self.now f.now }
        ensures bytes { result.now ≡ bytes_of self.now.live f.now }
        ensures length { length result.now ≡ frame_size }
    {
        self.bytes_at(f.number())
    }

    /// The same by the frame's number.
    #[inline(always)]
    pub fn bytes_at(&self, number: u32) -> &[u8]
        requires { IsLive self.now number }
        ensures bytes { result.now ≡ bytes_of self.now.live number }
        ensures length { length result.now ≡ frame_size }
    {
        self.slots[number as usize].bytes()
    }

    /// The 4,096 bytes of a live frame, for writing. No other frame is changed.
    #[inline(always)]
    pub fn bytes_mut(&mut self, f: &Frame) -> &mut [u8]
        requires { IsSole self.old f.now }
        ensures* writes_back { sem 𝓛 (LendsFrame self.entry f.now result) }
        ensures bytes { result.now ≡ bytes_of self.old.live f.now }
        ensures length { length result.now ≡ frame_size }
    {
        // for its length
        let _bytes = self.bytes(f);
        let bytes = self.slots[f.number as usize].bytes_mut();
        bytes.as_mut_slice()
    }

    /// `count` bytes of a live frame from place `at` on, for writing.
    #[inline(always)]
    pub fn part_mut(&mut self, f: &Frame, at: usize, count: usize) -> &mut [u8]
        requires sole { IsSole self.old f.now }
        requires within { at + count ≤ frame_size }
        ensures* writes_back { sem 𝓛 (LendsPart self.entry f.now at result) }
        ensures bytes { result.now ≡ take count (drop at (bytes_of self.old.live f.now)) }
        ensures length { length result.now ≡ count }
    {
        self.part_at_mut(f.number(), at, count)
    }

    /// The same by the frame's number.
    #[inline(always)]
    pub fn part_at_mut(&mut self, number: u32, at: usize, count: usize) -> &mut [u8]
        requires sole { IsSole self.old number }
        requires within { at + count ≤ frame_size }
        ensures* writes_back { sem 𝓛 (LendsPart self.entry number at result) }
        ensures bytes { result.now ≡ take count (drop at (bytes_of self.old.live number)) }
        ensures length { length result.now ≡ count }
    {
        self.slots[number as usize].part_mut(at, count)
    }
}

// The frames are put in the order of their numbers, and joined to the region again, which is given back.
impl Drop for FrameArena {
    fn drop(self) {
        let FrameArena {
            mut slots,
            mut free,
            given,
            rest,
            total: _,
            alloc,
            lease,
        } = self;
        let count = slots.len();
        for _back in 0..given {
            let (number, (frame, others)) = free.pop();
            free = others;
            // a page has bytes: the zeros are read by nobody
            slots[number] = Slot::Used {
                others: 0,
                page: zeroed_page(frame),
            };
        }
        let Some(mut region) = rest else {
            unreachable!()
        };
        for _last in 0..count {
            let Some(slot) = slots.pop() else {
                unreachable!()
            };
            let Slot::Used { others: _, page } = slot else {
                unreachable!()
            };
            region = region.glue(page.into_spare());
        }
        region.free(lease, &alloc);
    }
}
