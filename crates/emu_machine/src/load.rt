//! The segments of a file as pages of memory.
ghost use Rattle.std.specs.Prelude.{◌≡◌, ◌+◌, ◌≤◌, ◌<◌, ◌^◌, length};
ghost use Rattle.std.specs.FinMap as map;
ghost use Rattle.std.specs.List.{All, flat_map};
ghost use Rattle.emu_system.specs.Image.{first_page, end_page, page_count, pages_of};
ghost use Rattle.emu_model.specs.Pages.{with_bytes};
ghost use Rattle.emu_system.specs.Start.{highest_page, segment_page, segment_pages};
ghost use Rattle.elf_image.specs.Loadable.{AreLoadable, IsLoadableSegment};
ghost use Rattle.guest_pages.specs.MapFault.{map_fault};
ghost use Rattle.emu_machine.specs.Loads.{HasPages, IsBelowLimit};

use elf_image::Segment;
use emu_model::{PAGE_BYTES, PAGE_SIZE};
use guest_pages::Pages;

/// Maps the pages of the segments, with the file's bytes in their place and 0 elsewhere.
pub fn load_segments(pages: &mut Pages, file: &[u8], segments: &[Segment])
    requires loadable { AreLoadable file.now segments.now }
    requires empty { pages.old.memory.pages ≡ map.empty }
    requires within_limit { pages_of segments.now ≤ pages.old.memory.limit }
    ensures memory { pages.new.memory
        ≡ record pages.old.memory { pages = map.from_entries (flat_map (segment_pages file.now) segments.now) } }
    ensures marks { pages.new.marks ≡ pages.old.marks }
{
    for segment in segments {
        load_segment(pages, file, segment);
    }
}

/// Maps the pages of a segment, which are free, with the file's bytes in their place and 0 elsewhere.
fn load_segment(pages: &mut Pages, file: &[u8], segment: &Segment)
    requires loadable { IsLoadableSegment file.now segment.now }
    requires free { map_fault pages.old.memory (first_page segment.now) (page_count segment.now) ≡ None }
    ensures pages { HasPages (first_page segment.now) (page_count segment.now)
        (segment_page file.now segment.now) pages.old.memory pages.new.memory }
    ensures marks { pages.new.marks ≡ pages.old.marks }
{
    let first = segment.address / PAGE_SIZE;
    let end = end_page(segment);
    // nothing refuses it
    let _ = pages.map(first, end - first, segment.rights);
    let from = segment.offset as usize;
    let to = from + segment.file_size as usize;
    copy(pages, segment.address, &file[from..to]);
}

/// Writes bytes from an address on, page by page. What falls on pages that aren't mapped is left out.
pub fn copy(pages: &mut Pages, address: u64, bytes: &[u8])
    requires { address + length bytes.now ≤ 2 ^ 47 }
    ensures bytes { pages.new.memory ≡ with_bytes pages.old.memory address bytes.now }
    ensures marks { pages.new.marks ≡ pages.old.marks }
{
    let mut at = 0;
    while at < bytes.len() {
        let to = address + at as u64;
        let place = (to % PAGE_SIZE) as usize;
        let end = bytes.len().min(at + (PAGE_BYTES - place));
        pages.write(to / PAGE_SIZE, place, &bytes[at..end]);
        at = end;
    }
}

/// The page behind the last one of a segment.
fn end_page(segment: &Segment) -> u64
    requires { IsBelowLimit segment.now }
    ensures value { result ≡ end_page segment.now }
    ensures limit { result ≤ 0x7F0000000 }
{
    (segment.address + segment.memory_size + (PAGE_SIZE - 1)) / PAGE_SIZE
}

/// The page behind the highest segment.
pub fn highest_page(segments: &[Segment]) -> u64
    requires { All IsBelowLimit segments.now }
    ensures value { result ≡ highest_page segments.now }
    ensures limit { result ≤ 0x7F0000000 }
{
    let mut highest = 0;
    for segment in segments {
        highest = end_page(segment).max(highest);
    }
    highest
}
