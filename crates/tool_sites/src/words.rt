//! Words and doublewords of memory.
ghost use Rattle.std.specs.Prelude.{◌≡◌};
ghost use Rattle.tool_sites.specs.Words.{byte_at, doubleword_at, word_at};

use guest_mem::Mem;

/// The byte at an address, and 0 where no page is mapped.
fn byte_at(memory: &Mem, address: u64) -> u8
    ensures { result ≡ byte_at memory.now.memory address }
{
    memory.peek(address).unwrap_or(0)
}

/// The little-endian word at an address.
pub fn word_at(memory: &Mem, address: u64) -> u32
    ensures { result ≡ word_at memory.now.memory address }
{
    let first = byte_at(memory, address);
    let second = byte_at(memory, address.wrapping_add(1));
    let third = byte_at(memory, address.wrapping_add(2));
    let fourth = byte_at(memory, address.wrapping_add(3));
    first as u32 + 256 * second as u32 + 65_536 * third as u32 + 16_777_216 * fourth as u32
}

/// The little-endian doubleword at an address.
pub fn doubleword_at(memory: &Mem, address: u64) -> u64
    ensures { result ≡ doubleword_at memory.now.memory address }
{
    let low = word_at(memory, address);
    let high = word_at(memory, address.wrapping_add(4));
    low as u64 + 4_294_967_296 * high as u64
}
