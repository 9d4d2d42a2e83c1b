//! The segments of the program headers.
ghost use Rattle.std.specs.Prelude.{◌≡◌, ◌+◌, ◌<◌, ◌≤◌, ◌^◌, length, [], IfOk};
ghost use Rattle.std.specs.List.{All};
ghost use Rattle.emu_system.specs.Image.{
  header_at,
  is_load,
  is_segment,
  segment_of,
  segment_fault,
  segments_from,
  overlaps_any,
  share_a_page,
  first_page,
  end_page,
  headers_address,
  pages_of,
  e_phoff,
};
ghost use Rattle.elf_image.specs.Images.{seen_header, seen_segments, HasHeaders};
ghost use Rattle.elf_image.specs.Loadable.{AreLoadable};

use crate::fields::{doubleword, word};
use crate::header::Header;
use arrayvec::ArrayVec;
use emu_bits::flag;
use emu_model::{PAGE_SIZE, Rights};
use emu_system::{ElfFault, Segment};

/// A program header.
#[derive(Clone, Copy, Debug)]
pub struct ProgramHeader {
    /// p_type.
    pub kind: u32,
    /// p_flags.
    pub flags: u32,
    /// p_offset.
    pub offset: u64,
    /// p_vaddr.
    pub address: u64,
    /// p_filesz.
    pub file_size: u64,
    /// p_memsz.
    pub memory_size: u64,
}

/// PT_LOAD.
const LOAD: u32 = 1;
/// PT_INTERP.
const INTERPRETER: u32 = 3;
/// The bit of p_flags that gives X.
const EXECUTE_BIT: u32 = 0;
/// The bit that gives W.
const WRITE_BIT: u32 = 1;
/// The bit that gives R.
const READ_BIT: u32 = 2;
/// The lowest address that a segment may have.
const LOWEST: u64 = PAGE_SIZE;
/// The address behind the highest.
const END: u64 = 0x7F00_0000_0000;

impl ProgramHeader {
    /// The program header at an offset in a file.
    pub fn at(bytes: &[u8], offset: usize) -> Self
        requires { offset + 56 ≤ length bytes.now }
        ensures { seen_header result ≡ header_at bytes.now offset }
    {
        ProgramHeader {
            kind: word(bytes, offset),
            flags: word(bytes, offset + 4),
            offset: doubleword(bytes, offset + 8),
            address: doubleword(bytes, offset + 16),
            file_size: doubleword(bytes, offset + 32),
            memory_size: doubleword(bytes, offset + 40),
        }
    }

    /// Whether it is a PT_LOAD header.
    pub fn is_load(self) -> bool
        ensures { result ≡ is_load (seen_header self) }
    {
        self.kind == LOAD
    }

    /// Whether it is a PT_LOAD header with bytes in memory.
    pub fn is_segment(self) -> bool
        ensures { result ≡ is_segment (seen_header self) }
    {
        self.kind == LOAD && self.memory_size != 0
    }

    /// The segment that it describes as header number `index`.
    pub fn segment(self, index: u16) -> Segment
        ensures { result ≡ segment_of index (seen_header self) }
    {
        Segment {
            index,
            address: self.address,
            offset: self.offset,
            file_size: self.file_size,
            memory_size: self.memory_size,
            rights: Rights {
                r: flag(self.flags, READ_BIT),
                w: flag(self.flags, WRITE_BIT),
                x: flag(self.flags, EXECUTE_BIT),
            },
        }
    }
}

/// The number of a segment's first page.
fn first_page(s: &Segment) -> u128
    ensures { result ≡ first_page s.now }
{
    u128::from(s.address / PAGE_SIZE)
}

/// The number of the page behind a segment's last one.
fn end_page(s: &Segment) -> u128
    ensures value { result ≡ end_page s.now }
    ensures small { result < 2 ^ 64 }
{
    (u128::from(s.address) + u128::from(s.memory_size)).div_ceil(u128::from(PAGE_SIZE))
}

/// Whether two segments share a page.
fn share_a_page(s: &Segment, t: &Segment) -> bool
    ensures { result ≡ share_a_page s.now t.now }
{
    first_page(s) < end_page(t) && first_page(t) < end_page(s)
}

/// Whether a segment shares a page with one of some others.
#[tactic(auto, using(crate::proofs::Loops::segment_loops))]
fn overlaps_any(s: &Segment, others: &[Segment]) -> bool
    ensures { result ≡ overlaps_any s.now others.now }
{
    for other in others {
        if share_a_page(s, other) {
            return true;
        }
    }
    false
}

/// The fault of program header number `index` behind these segments.
fn segment_fault(bytes: &[u8], before: &[Segment], index: u16, h: ProgramHeader) -> Option<ElfFault>
    ensures { result ≡ segment_fault bytes.now before.now index (seen_header h) }
{
    if h.kind == INTERPRETER {
        return Some(ElfFault::Interpreter(index));
    }
    if !h.is_load() {
        return None;
    }
    if u128::from(h.offset) + u128::from(h.file_size) > bytes.len() as u128 {
        return Some(ElfFault::SegmentOutside(index));
    }
    if h.file_size > h.memory_size {
        return Some(ElfFault::FileOverMemory(index));
    }
    if !h.is_segment() {
        return None;
    }
    if h.address < LOWEST || u128::from(h.address) + u128::from(h.memory_size) > u128::from(END) {
        return Some(ElfFault::AddressOutside(index));
    }
    if h.file_size != 0 && h.offset % PAGE_SIZE != h.address % PAGE_SIZE {
        return Some(ElfFault::NotCongruent(index));
    }
    if overlaps_any(&h.segment(index), before) {
        return Some(ElfFault::Overlap(index));
    }
    None
}

/// The segments of a file with this header, or the first fault of its program headers.
#[tactic(auto, using(crate::proofs::Loops::header_loops))]
pub fn read_segments(bytes: &[u8], header: &Header) -> Result<ArrayVec<Segment, 64>, ElfFault>
    requires phoff { header.now.phoff ≡ e_phoff bytes.now }
    requires headers { HasHeaders bytes.now header.now.phoff header.now.phnum }
    ensures list { seen_segments result ≡ segments_from bytes.now 0 header.now.phnum [] }
    ensures loadable { IfOk result (λ segments. AreLoadable bytes.now segments.items) }
{
    let mut segments = ArrayVec::new();
    for index in 0..header.phnum {
        let h = ProgramHeader::at(bytes, header.phoff as usize + 56 * index as usize);
        if let Some(fault) = segment_fault(bytes, &segments, index, h) {
            return Err(fault);
        }
        if h.is_segment() {
            segments.push(h.segment(index));
        }
    }
    Ok(segments)
}

/// The address of the program headers, which are at the offset `phoff` in the file, or 0 where no segment holds them.
#[tactic(auto, using(crate::proofs::Loops::segment_loops))]
pub fn headers_address(phoff: u64, segments: &[Segment]) -> u64
    requires { All (λ s. s.address + s.file_size < 2 ^ 64) segments.now }
    ensures { result ≡ headers_address phoff segments.now }
{
    for s in segments {
        if s.offset <= phoff && phoff - s.offset < s.file_size {
            return s.address + (phoff - s.offset);
        }
    }
    0
}

/// How many pages the segments have.
pub fn page_count(segments: &[Segment]) -> u128
    requires { length segments.now ≤ 64 }
    ensures value { result ≡ pages_of segments.now }
    ensures small { result < 2 ^ 72 }
{
    let mut count: u128 = 0;
    for s in segments {
        count += end_page(s) - first_page(s);
    }
    count
}
