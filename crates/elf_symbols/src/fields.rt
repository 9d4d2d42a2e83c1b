//! Little-endian numbers at offsets in a file.
ghost use Rattle.std.specs.Prelude.{◌≡◌, ◌+◌, ◌<◌, ◌≤◌, length};
ghost use Rattle.elf_symbols.specs.Symbols.{field_at};

use byteorder::{ByteOrder, LittleEndian};

/// The byte at an offset.
pub fn byte(bytes: &[u8], offset: usize) -> u8
    requires { offset < length bytes.now }
    ensures { result ≡ field_at bytes.now offset 1 }
{
    bytes[offset]
}

/// The number in the two bytes at an offset.
pub fn halfword(bytes: &[u8], offset: usize) -> u16
    requires { offset + 2 ≤ length bytes.now }
    ensures { result ≡ field_at bytes.now offset 2 }
{
    LittleEndian::read_u16(&bytes[offset..])
}

/// The number in the four bytes at an offset.
pub fn word(bytes: &[u8], offset: usize) -> u32
    requires { offset + 4 ≤ length bytes.now }
    ensures { result ≡ field_at bytes.now offset 4 }
{
    LittleEndian::read_u32(&bytes[offset..])
}

/// The number in the eight bytes at an offset.
pub fn doubleword(bytes: &[u8], offset: usize) -> u64
    requires { offset + 8 ≤ length bytes.now }
    ensures { result ≡ field_at bytes.now offset 8 }
{
    LittleEndian::read_u64(&bytes[offset..])
}
