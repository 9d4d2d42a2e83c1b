//! The file of an executable.
ghost use Rattle.std.specs.Prelude.{◌≡◌, ◌==◌, ◌&&◌, ◌++◌, ◌≤◌, ◌^◌, IfOk, OnOk, length};
ghost use Rattle.byteorder.specs.Endian.{little_bytes};
ghost use Rattle.listing_model.specs.File as elf;

use crate::filling::{CODE_BASE, rounded_up};
use asm_tokens::OutOfMemory;
use byteorder::{LittleEndian, WriteBytesExt};
use emu_model::{PAGE_BYTES, PAGE_SIZE};
use std::alloc::{AllocError, Global};

/// Appends a number of 2 bytes.
fn put_16(file: &mut Vec<u8>, n: u16) -> Result<(), OutOfMemory>
    ensures { OnOk result (file.new.items ≡ file.old.items ++ little_bytes 2 n) }
{
    file.write_u16::<LittleEndian>(n).map_err(|_| AllocError)
}

/// Appends a number of 4 bytes.
fn put_32(file: &mut Vec<u8>, n: u32) -> Result<(), OutOfMemory>
    ensures { OnOk result (file.new.items ≡ file.old.items ++ little_bytes 4 n) }
{
    file.write_u32::<LittleEndian>(n).map_err(|_| AllocError)
}

/// Appends a number of 8 bytes.
fn put_64(file: &mut Vec<u8>, n: u64) -> Result<(), OutOfMemory>
    ensures { OnOk result (file.new.items ≡ file.old.items ++ little_bytes 8 n) }
{
    file.write_u64::<LittleEndian>(n).map_err(|_| AllocError)
}

/// Appends zeros up to so many bytes in all.
fn pad(file: &mut Vec<u8>, size: usize) -> Result<(), OutOfMemory>
    requires { length file.old.items ≤ size }
    ensures { OnOk result (file.new.items ≡ elf.padded size file.old.items) }
{
    file.resize(size, 0)
}

/// In front of the entry: ELF, of class ELFCLASS64, little endian, of version 1; an executable, for AArch64, of version 1.
const IDENTIFICATION: [u8; 24] = [
    0x7F, 0x45, 0x4C, 0x46, 2, 1, 1, 0, 0, 0, 0, 0, 0, 0, 0, 0, 2, 0, 183, 0, 1, 0, 0, 0,
];

/// Behind the entry: the program headers stand at byte 64, and section headers nowhere; there are no flags; this header
/// has 64 bytes, and a program header 56.
const SIZES: [u8; 24] = [
    64, 0, 0, 0, 0, 0, 0, 0, 0, 0, 0, 0, 0, 0, 0, 0, 0, 0, 0, 0, 64, 0, 56, 0,
];

/// Appends the header of an executable with so many segments.
fn put_header(file: &mut Vec<u8>, entry: u64, segments: u16) -> Result<(), OutOfMemory>
    ensures { OnOk result (file.new.items ≡ file.old.items ++ elf.elf_header entry segments) }
{
    file.extend_from_slice(&IDENTIFICATION)?;
    put_64(file, entry)?;
    file.extend_from_slice(&SIZES)?;
    put_16(file, segments)?;
    file.extend_from_slice(&[0; 6])
}

/// A segment of the file and of memory.
#[derive(Clone, Copy)]
struct Segment {
    flags: u32,
    offset: u64,
    address: u64,
    file_size: u64,
    memory_size: u64,
}

/// Appends the program header of a segment.
fn put_segment(file: &mut Vec<u8>, segment: Segment) -> Result<(), OutOfMemory>
    ensures { OnOk result (file.new.items ≡ file.old.items
        ++ elf.program_header segment.flags segment.offset segment.address segment.file_size segment.memory_size) }
{
    put_32(file, 1)?;
    put_32(file, segment.flags)?;
    put_64(file, segment.offset)?;
    put_64(file, segment.address)?;
    put_64(file, segment.address)?;
    put_64(file, segment.file_size)?;
    put_64(file, segment.memory_size)?;
    put_64(file, PAGE_SIZE)
}

/// Appends the program header of the code.
fn put_code_header(file: &mut Vec<u8>, size: u64) -> Result<(), OutOfMemory>
    ensures { OnOk result (file.new.items ≡ file.old.items ++ elf.code_header size) }
{
    put_segment(
        file,
        Segment {
            flags: 5,
            offset: PAGE_SIZE,
            address: CODE_BASE,
            file_size: size,
            memory_size: size,
        },
    )
}

/// Appends the program header of the data.
fn put_data_header(
    file: &mut Vec<u8>,
    code_size: u64,
    size: u64,
    bss: u64,
) -> Result<(), OutOfMemory>
    requires small { code_size ≤ 2 ^ 24 }
    requires small_data { size ≤ 2 ^ 24 }
    requires small_bss { bss ≤ 2 ^ 30 }
    ensures { OnOk result (file.new.items ≡ file.old.items ++ elf.data_header code_size size bss) }
{
    put_segment(
        file,
        Segment {
            flags: 6,
            offset: PAGE_SIZE + rounded_up(code_size),
            address: CODE_BASE + rounded_up(code_size),
            file_size: size,
            memory_size: size + bss,
        },
    )
}

/// Whether there is neither data nor memory behind it.
fn has_no_data(values: &[u8], bss: u64) -> bool
    ensures { result ≡ (length values.now == 0 && bss == 0) }
{
    values.is_empty() && bss == 0
}

/// The file of an entry, the bytes of the code and of the data, and the size of the memory behind the data.
pub fn elf_file(
    alloc: Global,
    entry: u64,
    code: &[u8],
    values: &[u8],
    bss: u64,
) -> Result<Vec<u8>, OutOfMemory>
    requires small { length code.now ≤ 2 ^ 24 }
    requires small_data { length values.now ≤ 2 ^ 24 }
    requires small_bss { bss ≤ 2 ^ 30 }
    ensures { IfOk result (λ f. f.items ≡ elf.file_of entry code.now values.now bss) }
{
    let mut file = Vec::new(alloc);
    let size = code.len() as u64;
    if has_no_data(values, bss) {
        put_header(&mut file, entry, 1)?;
        put_code_header(&mut file, size)?;
        pad(&mut file, PAGE_BYTES)?;
        file.extend_from_slice(code)?;
        return Ok(file);
    }
    put_header(&mut file, entry, 2)?;
    put_code_header(&mut file, size)?;
    put_data_header(&mut file, size, values.len() as u64, bss)?;
    pad(&mut file, PAGE_BYTES)?;
    file.extend_from_slice(code)?;
    pad(&mut file, PAGE_BYTES + rounded_up(size) as usize)?;
    file.extend_from_slice(values)?;
    Ok(file)
}
