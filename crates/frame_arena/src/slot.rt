//! The place of a block in the table: its page and how many frames name it, where the block is in use.
ghost use Rattle.std.specs.Prelude.{
  ◌≡◌,
  ◌≤◌,
  ◌<◌,
  ◌+◌,
  ◌-◌,
  ◌^◌,
  ◌==◌,
  IsSome,
  Some,
  None,
  [],
  length,
  take,
  drop,
  unwrap_or,
};
ghost use Rattle.std.specs.Borrow.{sem};
ghost use Rattle.frame_arena.specs.Size.{frame_size};
ghost use Rattle.frame_arena.specs.Frames.{zeroed};
ghost use Rattle.frame_arena.specs.Slots.{others_in, page_in, slot_bytes, with_others};
ghost use Rattle.frame_arena.specs.Lending.{LendsSlot, LendsSlotPart};

use crate::FRAME_BYTES;
use crate::list::Spare;
use crate::page::Page;

#[derive(Drop)]
pub(crate) enum Slot {
    Spare,
    // a block in use: how many frames name it but for one, and its bytes
    Used { others: u32, page: Page },
}

#[tactic(auto, unfolding(crate::specs::Frames::zeroed))]
/// A page of zeros in a spare frame.
pub(crate) fn zeroed_page(frame: Spare) -> Page
    ensures { (result.block ≡ frame.block) × (result.place ≡ frame.place) × (result.bytes ≡ zeroed) }
{
    Page::new(frame, [0; FRAME_BYTES])
}

impl Slot {
    #[inline(always)]
    pub(crate) fn bytes(&self) -> &[u8; FRAME_BYTES]
        requires { IsSome (page_in self.now) }
        ensures { slot_bytes self.now ≡ Some result.now }
    {
        match self {
            Slot::Used { others: _, page } => page.bytes(),
            Slot::Spare => unreachable!(),
        }
    }

    #[inline(always)]
    pub(crate) fn bytes_mut(&mut self) -> &mut [u8; FRAME_BYTES]
        requires { IsSome (page_in self.old) }
        ensures* writes_back { sem 𝓛 (LendsSlot self.entry result) }
        ensures bytes { slot_bytes self.old ≡ Some result.now }
    {
        match self {
            Slot::Used { others: _, page } => page.bytes_mut(),
            Slot::Spare => unreachable!(),
        }
    }

    #[inline(always)]
    pub(crate) fn part_mut(&mut self, at: usize, count: usize) -> &mut [u8]
        requires live { IsSome (page_in self.old) }
        requires within { at + count ≤ frame_size }
        ensures* writes_back { sem 𝓛 (LendsSlotPart self.entry at result) }
        ensures bytes { result.now ≡ take count (drop at (unwrap_or (slot_bytes self.old) [])) }
        ensures length { length result.now ≡ count }
    {
        match self {
            Slot::Used { others: _, page } => page.part_mut(at, count),
            Slot::Spare => unreachable!(),
        }
    }

    /// Whether one frame alone names the block.
    #[inline(always)]
    pub(crate) fn is_sole(&self) -> bool
        ensures { result ≡ (others_in self.now == 0) }
    {
        match self {
            Slot::Used { others, page: _ } => *others == 0,
            Slot::Spare => true,
        }
    }

    /// One frame more names the block.
    pub(crate) fn raise(&mut self)
        requires live { IsSome (page_in self.old) }
        requires few { others_in self.old + 1 < 2 ^ 32 }
        ensures { self.new ≡ with_others self.old (others_in self.old + 1) }
    {
        match self {
            Slot::Used { others, page: _ } => *others += 1,
            Slot::Spare => unreachable!(),
        }
    }

    /// One frame less names the block.
    pub(crate) fn lower(&mut self)
        requires live { IsSome (page_in self.old) }
        requires some { 1 ≤ others_in self.old }
        ensures { self.new ≡ with_others self.old (others_in self.old - 1) }
    {
        match self {
            Slot::Used { others, page: _ } => *others -= 1,
            Slot::Spare => unreachable!(),
        }
    }
}
