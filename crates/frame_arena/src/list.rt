//! Spare frames, and their list.
ghost use Rattle.std.specs.Prelude.{◌≡◌, ℕ, ◌<◌, List, [], ◌∷◌, length};
ghost use denote.RawPtr.{block_ptr};
ghost use Rattle.linked_list_allocator.specs.Ownership.{bytes_at};
ghost use Rattle.frame_arena.specs.Size.{frame_size};
ghost use Rattle.frame_arena.specs.Links.{Place, links, first_of};

use std::marker::Model;
use std::ptr::null_mut;

/// What a spare frame begins with.
#[repr(C)]
pub(crate) struct Node {
    number: usize,
    next: *mut Node,
}

/// The memory of one frame, in which nothing lies.
#[derive(Drop)]
pub struct Spare {
    pub(crate) at: *mut u8,
    pub ghost block: { ℕ },
    pub ghost place: { ℕ },
    pub ghost placed: { at ≡ block_ptr block place },
}

impl Model for Spare {
    ghost also_owns = { λ s. bytes_at s.at frame_size };
}

/// Spare frames with their numbers. Each begins with its number and a pointer to the next.
#[derive(Drop)]
pub struct FreeList {
    head: *mut Node,
    pub ghost frames: { List Place },
    pub ghost placed: { head ≡ first_of frames },
}

impl Model for FreeList {
    ghost also_owns = { λ l. links l.frames };
}

impl FreeList {
    /// No frames.
    pub fn empty() -> FreeList
        ensures { result.frames ≡ [] }
    {
        FreeList { head: null_mut() }
    }

    /// Puts a frame and its number first.
    pub fn push(self, frame: Spare, number: usize) -> FreeList
        ensures { result.frames ≡ (frame.block, frame.place, number) ∷ self.frames }
    {
        let FreeList { head } = self;
        let Spare { at } = frame;
        unsafe {
            let node = at as *mut Node;
            node.write(Node { number, next: head });
            FreeList { head: node }
        }
    }

    /// The first frame, with its number, and the rest.
    pub fn pop(self) -> (usize, (Spare, FreeList))
        requires { 0 < length self.frames }
        ensures { (result.1.0.block, result.1.0.place, result.0) ∷ result.1.1.frames ≡ self.frames }
    {
        let FreeList { head } = self;
        unsafe {
            let number = (*head).number;
            let next = (*head).next;
            let at = head as *mut u8;
            (number, (Spare { at }, FreeList { head: next }))
        }
    }
}
