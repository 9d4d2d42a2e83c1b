//! The ELF header.
ghost use Rattle.std.specs.Prelude.{◌≡◌, Some, MatchResult, IfOk, IfNone};
ghost use Rattle.emu_system.specs.Image.{header_fault, e_phoff, e_phnum};
ghost use Rattle.elf_image.specs.Images.{IsHeader, HasHeaders};

use crate::fields::{byte, doubleword, halfword, word};
use emu_system::ElfFault;

/// What an image takes from the ELF header.
#[derive(Clone, Copy, Debug)]
pub struct Header {
    /// e_entry.
    pub entry: u64,
    /// e_phoff.
    pub phoff: u64,
    /// e_phnum.
    pub phnum: u16,
}

/// The first four bytes, as a number.
const MAGIC: u32 = 0x464C_457F;
/// ELFCLASS64.
const CLASS: u8 = 2;
/// ELFDATA2LSB.
const DATA: u8 = 1;
/// EV_CURRENT.
const VERSION: u8 = 1;
/// ET_EXEC.
const EXECUTABLE: u16 = 2;
/// EM_AARCH64.
const AARCH64: u16 = 183;
/// The bytes of the ELF header.
const HEADER_SIZE: usize = 64;
/// The bytes of a program header.
const PROGRAM_HEADER_SIZE: u16 = 56;
/// The greatest number of program headers.
const MOST_HEADERS: u16 = 64;

/// The header of a file, or the first fault in it.
pub fn read_header(bytes: &[u8]) -> Result<Header, ElfFault>
    ensures header { MatchResult result (IsHeader bytes.now) (λ fault. header_fault bytes.now ≡ Some fault) }
    ensures headers { IfOk result (λ h. HasHeaders bytes.now h.phoff h.phnum) }
{
    match header_fault(bytes) {
        Some(fault) => Err(fault),
        None => Ok(Header {
            entry: doubleword(bytes, 24),
            phoff: doubleword(bytes, 32),
            phnum: halfword(bytes, 56),
        }),
    }
}

/// The first fault in the header of a file.
fn header_fault(bytes: &[u8]) -> Option<ElfFault>
    ensures first { result ≡ header_fault bytes.now }
    ensures headers { IfNone result (HasHeaders bytes.now (e_phoff bytes.now) (e_phnum bytes.now)) }
{
    if bytes.len() < HEADER_SIZE {
        return Some(ElfFault::TooShort);
    }
    if word(bytes, 0) != MAGIC {
        return Some(ElfFault::BadMagic);
    }
    if byte(bytes, 4) != CLASS {
        return Some(ElfFault::BadClass);
    }
    if byte(bytes, 5) != DATA {
        return Some(ElfFault::BadData);
    }
    if byte(bytes, 6) != VERSION || word(bytes, 20) != u32::from(VERSION) {
        return Some(ElfFault::BadVersion);
    }
    if halfword(bytes, 16) != EXECUTABLE {
        return Some(ElfFault::BadType);
    }
    if halfword(bytes, 18) != AARCH64 {
        return Some(ElfFault::BadMachine);
    }
    if halfword(bytes, 54) != PROGRAM_HEADER_SIZE {
        return Some(ElfFault::BadHeaderSize);
    }
    let phnum = halfword(bytes, 56);
    if phnum > MOST_HEADERS {
        return Some(ElfFault::TooManySegments);
    }
    let end = u128::from(doubleword(bytes, 32))
        + u128::from(PROGRAM_HEADER_SIZE) * u128::from(phnum);
    if end > bytes.len() as u128 {
        return Some(ElfFault::HeadersOutside);
    }
    None
}
