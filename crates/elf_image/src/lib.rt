//! The reader of ELF64 executables for AArch64.
#![tactic(auto)]

mod fields;
mod header;
mod segments;

ghost use Rattle.std.specs.Prelude.{◌≡◌, IfOk};
ghost use Rattle.emu_system.specs.Image.{elf};
ghost use Rattle.elf_image.specs.Images.{seen};
ghost use Rattle.elf_image.specs.Loadable.{IsLoadable};

use crate::header::read_header;
use crate::segments::{headers_address, page_count, read_segments};
use arrayvec::ArrayVec;
pub use emu_system::{ElfFault, Segment};

/// The number of the stack's pages.
const STACK_PAGES: u128 = 256;

/// An executable: where it starts, and what of its file is mapped.
#[derive(Debug, Drop)]
pub struct Image {
    /// The address of its first instruction, e_entry.
    pub entry: u64,
    /// The address of the program headers in memory, or 0 where they are in no segment.
    pub phdr: u64,
    /// The number of program headers, e_phnum.
    pub phnum: u16,
    /// The segments of PT_LOAD headers that have memory, in the order of the headers.
    pub segments: ArrayVec<Segment, 64>,
}

/// The image of a file where at most `limit` pages may be mapped, the stack's 256 among them, or the first fault of the
/// file in the order of the checks: first those of the header, then of each program header in order, last `NoSegments`
/// and `TooManyPages`.
pub fn read(bytes: &[u8], limit: u32) -> Result<Image, ElfFault>
    ensures image { seen result ≡ elf bytes.now limit }
    ensures loadable { IfOk (seen result) (IsLoadable bytes.now limit) }
{
    let header = read_header(bytes)?;
    let segments = read_segments(bytes, &header)?;
    if segments.is_empty() {
        return Err(ElfFault::NoSegments);
    }
    if page_count(&segments) + STACK_PAGES > u128::from(limit) {
        return Err(ElfFault::TooManyPages);
    }
    Ok(Image {
        entry: header.entry,
        phdr: headers_address(header.phoff, &segments),
        phnum: header.phnum,
        segments,
    })
}
