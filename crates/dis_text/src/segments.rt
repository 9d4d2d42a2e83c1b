//! The words of a program as text.
ghost use Rattle.std.specs.Prelude.{◌≡◌, ◌+◌, ◌*◌, ◌≤◌, ◌<◌, ◌++◌, length, drop, flat_map};
ghost use Rattle.std.specs.List.{All};
ghost use Rattle.byteorder.specs.Endian.{little_number};
ghost use Rattle.emu_run.specs.Registers.{lines_of};
ghost use Rattle.emu_run.specs.Step.{decode as instruction_of};
ghost use Rattle.asm_text.specs.Disassembly.{
  word_text,
  word_line,
  skipped,
  word_count,
  line_at,
  segment_lines,
  dis_of,
};
ghost use Rattle.elf_image.specs.Images.{seen_image};
ghost use Rattle.elf_image.specs.Loadable.{IsLoadableSegment, AreLoadable};
ghost use Rattle.dis_text.specs.Segments.{executable_lines};
ghost use Rattle.io_gate.specs.Streams.{HasCause};
ghost use Rattle.io_gate.specs.Pieces.{PutsAll};

use crate::print;
use arrayvec::ArrayString;
use byteorder::{ByteOrder, LittleEndian};
use elf_image::{Image, Segment};
use emu_report::Text;
use insn_decode::decode;
use io_gate::{Failed, Sink};

/// How many lines are put at once.
const LINES: u64 = 15;

/// Appends the text of a word at pc: its instruction's, or a directive's where it is in no row of a table.
fn push_word_text(text: &mut Text, word: u32, pc: u64)
    requires { length text.old + 96 ≤ 2048 }
    ensures text { text.new ≡ text.old ++ word_text word pc (instruction_of word) }
    ensures len { length text.new ≤ length text.old + 96 }
{
    match decode(word) {
        Some(insn) => {
            let mut line = ArrayString::new();
            print(&insn, pc, &mut line);
            text.push(line.as_str().as_bytes());
        }
        None => {
            text.push(b".word 0x");
            text.push_hex(u64::from(word), 8);
        }
    }
}

/// Appends the line of a word at pc: the address, the word, and its text.
fn push_line(text: &mut Text, pc: u64, word: u32)
    requires { length text.old + 123 ≤ 2048 }
    ensures text { text.new ≡ text.old ++ word_line pc word }
    ensures len { length text.new ≤ length text.old + 123 }
{
    text.push_hex(pc, 16);
    text.push(b" ");
    text.push_hex(u64::from(word), 8);
    text.push(b" ");
    push_word_text(text, word, pc);
    text.push(b"\n");
}

/// The word that stands at an offset of a file.
fn word_at(file: &[u8], offset: u64) -> u32
    requires { offset + 4 ≤ length file.now }
    ensures { result ≡ little_number 4 (drop offset file.now) }
{
    LittleEndian::read_u32(&file[offset as usize..])
}

/// The number of bytes before the first multiple of 4.
fn skipped(address: u64) -> u64
    ensures { result ≡ skipped address }
{
    (4 - address % 4) % 4
}

/// How many whole words stand among so many bytes from an address on, at multiples of 4.
fn word_count(address: u64, size: u64) -> u64
    ensures { result ≡ word_count address size }
{
    size.saturating_sub(skipped(address)) / 4
}

/// Puts the lines of `count` words of a segment from a word's number on, at once.
fn put_some<S: Sink>(
    file: &[u8],
    segment: &Segment,
    first: u64,
    count: u64,
    sink: &mut S,
) -> Result<(), Failed>
    requires loadable { IsLoadableSegment file.now segment.now }
    requires few { count ≤ 15 }
    requires within { first + count ≤ word_count segment.now.address segment.now.file_size }
    ensures bytes { PutsAll (S.held sink.old) (S.held sink.new)
        (lines_of count (λ k. line_at file.now segment.now (skipped segment.now.address + 4 * (first + k)))) result }
    ensures cause { HasCause (S.faults sink.old) (S.faults sink.new) result }
{
    let mut text = Text::new();
    let start = skipped(segment.address);
    'words: for k in 0..count {
        let place = start + 4 * (first + k);
        push_line(
            &mut text,
            segment.address + place,
            word_at(file, segment.offset + place),
        );
    }
    text.put(sink)
}

/// Puts the lines of a segment.
fn put_segment<S: Sink>(file: &[u8], segment: &Segment, sink: &mut S) -> Result<(), Failed>
    requires { IsLoadableSegment file.now segment.now }
    ensures bytes { PutsAll (S.held sink.old) (S.held sink.new) (segment_lines file.now segment.now) result }
    ensures cause { HasCause (S.faults sink.old) (S.faults sink.new) result }
{
    let count = word_count(segment.address, segment.file_size);
    let mut done = 0;
    'batches: while done < count {
        let next = LINES.min(count - done);
        put_some(file, segment, done, next, sink)?;
        done += next;
    }
    Ok(())
}

/// Puts the lines of a segment, if it is executable.
fn put_executable<S: Sink>(file: &[u8], segment: &Segment, sink: &mut S) -> Result<(), Failed>
    requires { IsLoadableSegment file.now segment.now }
    ensures bytes { PutsAll (S.held sink.old) (S.held sink.new) (executable_lines file.now segment.now) result }
    ensures cause { HasCause (S.faults sink.old) (S.faults sink.new) result }
{
    if segment.rights.x {
        put_segment(file, segment, sink)
    } else {
        Ok(())
    }
}

/// Puts the lines of those of some segments that are executable.
fn put_segments<S: Sink>(file: &[u8], segments: &[Segment], sink: &mut S) -> Result<(), Failed>
    requires { All (IsLoadableSegment file.now) segments.now }
    ensures bytes { PutsAll (S.held sink.old) (S.held sink.new)
        (flat_map (executable_lines file.now) segments.now) result }
    ensures cause { HasCause (S.faults sink.old) (S.faults sink.new) result }
{
    for segment in segments {
        put_executable(file, segment, sink)?;
    }
    Ok(())
}

/// Puts the lines of an image that was read from a file: for each executable segment, in the order of the program
/// headers, one for each whole word of its file bytes at an address that is a multiple of 4. After `Failed` some of
/// their first bytes were put.
pub fn put_dis<S: Sink>(file: &[u8], image: &Image, sink: &mut S) -> Result<(), Failed>
    requires { AreLoadable file.now image.now.segments.items }
    ensures bytes { PutsAll (S.held sink.old) (S.held sink.new) (dis_of file.now (seen_image image.now)) result }
    ensures cause { HasCause (S.faults sink.old) (S.faults sink.new) result }
{
    put_segments(file, image.segments.as_slice(), sink)
}
