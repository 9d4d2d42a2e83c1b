//! The region, as its allocator sees it and as frames are cut off it.
ghost use Rattle.std.specs.Prelude.{◌≡◌, ℕ, ◌+◌, ◌≤◌, ◌<◌, ◌^◌, IfSome};
ghost use denote.RawPtr.{Ptr, block_ptr, block_of, count_of};
ghost use Rattle.linked_list_allocator.specs.Ownership.{bytes_at, units_of};
ghost use Rattle.frame_arena.specs.Size.{frame_size};
ghost use Rattle.frame_arena.specs.Links.{IsRegionSize};

use crate::FRAME_BYTES;
use crate::list::Spare;
use std::alloc::Allocator;
use std::marker::{Model, PhantomData};

/// `size` bytes in which nothing lies.
#[derive(Drop)]
pub struct Memory {
    ptr: *mut u8,
    size: usize,
    ghost fits: { IsRegionSize size },
}

impl Model for Memory {
    ghost also_owns = { λ m. bytes_at m.ptr m.size };
}

/// The right, and the duty, to give the region back to its allocator: a lease can't be dropped, so whoever has one has
/// it until [`Memory::free`] takes it with the whole region.
pub struct Lease<A: Allocator> {
    marker: PhantomData<A>,
    ghost alloc: { A },
    ghost ptr: { Ptr },
    ghost size: { ℕ },
}

impl<A: Allocator> Model for Lease<A> {
    ghost also_owns = { λ l. A.dealloc_token l.alloc (units_of l.size) l.ptr };
}

impl Memory {
    /// A region of `size` bytes. None where the allocator has none.
    pub fn new<A: Allocator>(alloc: &A, size: usize) -> Option<(Memory, Lease<A>)>
        requires { IsRegionSize size }
        ensures { IfSome result (λ m. (m.0.size ≡ size) × (m.1.alloc ≡ alloc.now) × (m.1.ptr ≡ m.0.ptr)
            × (m.1.size ≡ size) × (m.0.ptr ≡ block_ptr (block_of m.0.ptr) (count_of m.0.ptr))) }
    {
        match alloc.allocate(size, 16) {
            Ok(ptr) => {
                let marker = PhantomData;
                Some((Memory { ptr, size }, Lease { marker }))
            }
            Err(_) => None,
        }
    }

    /// The first frame, and the rest.
    pub fn cut(self) -> (Spare, Memory)
        requires { frame_size ≤ self.size }
        ensures size { result.1.size + frame_size ≡ self.size }
        ensures first { self.ptr ≡ block_ptr result.0.block result.0.place }
        ensures rest { result.1.ptr ≡ block_ptr result.0.block (result.0.place + frame_size) }
    {
        let Memory { ptr, size } = self;
        let rest = unsafe { ptr.add(FRAME_BYTES) };
        let size = size - FRAME_BYTES;
        (Spare { at: ptr }, Memory { ptr: rest, size })
    }

    /// The frame that lies just before these bytes joins them.
    pub fn glue(self, frame: Spare) -> Memory
        requires { (self.ptr ≡ block_ptr frame.block (frame.place + frame_size)) × (self.size + frame_size < 2 ^ 63) }
        ensures { (result.ptr ≡ block_ptr frame.block frame.place) × (result.size ≡ self.size + frame_size) }
    {
        let Memory { ptr: _, size } = self;
        let Spare { at } = frame;
        let size = size + FRAME_BYTES;
        Memory { ptr: at, size }
    }

    /// Gives the region back to its allocator. No clause says so: contracts don't see what an allocator has.
    pub fn free<A: Allocator>(self, lease: Lease<A>, alloc: &A)
        requires { (lease.alloc ≡ alloc.now) × (lease.ptr ≡ self.ptr) × (lease.size ≡ self.size) }
    {
        let Memory { ptr, size } = self;
        let Lease { marker: _ } = lease;
        unsafe { alloc.deallocate(ptr, size, 16) }
    }
}
