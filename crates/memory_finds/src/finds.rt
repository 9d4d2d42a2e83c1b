//! Where bytes stand in memory, one behind the other.
ghost use Rattle.std.specs.Prelude.{◌≡◌};
ghost use Rattle.memory_finds.specs.Finds.{first_at, is_byte_at, stand_at};

use guest_mem::Mem;

/// Whether a byte stands at an address in mapped memory.
fn is_byte_at(mem: &Mem, address: u64, byte: u8) -> bool
    ensures { result ≡ is_byte_at mem.now.memory address byte }
{
    match mem.peek(address) {
        None => false,
        Some(found) => found == byte,
    }
}

/// Whether bytes stand in mapped memory from an address on.
fn stand_at(mem: &Mem, address: u64, bytes: &[u8]) -> bool
    ensures { result ≡ stand_at mem.now.memory address bytes.now }
{
    let mut at = address;
    for byte in bytes {
        if !is_byte_at(mem, at, *byte) {
            return false;
        }
        at = at.wrapping_add(1);
    }
    true
}

/// The first of so many addresses from one on, modulo 2^64, from which on bytes stand in mapped memory.
#[tactic(auto, unfolding(crate::specs::Finds::first_at))]
pub fn next_found(mem: &Mem, address: u64, count: u64, bytes: &[u8]) -> Option<u64>
    ensures { result ≡ first_at mem.now.memory bytes.now address count }
{
    let mut at = address;
    let mut left = count;
    'addresses: while left > 0 {
        if stand_at(mem, at, bytes) {
            return Some(at);
        }
        at = at.wrapping_add(1);
        left -= 1;
    }
    None
}
