//! Numbers in memory.
ghost use Rattle.std.specs.Prelude.{◌≡◌, ◌≤◌, ◌<◌, ◌*◌, ◌^◌};
ghost use Rattle.emu_model.specs.Access.{byte_at, value};

use guest_mem::Mem;

/// The byte at an address, and 0 where its page isn't mapped.
pub fn byte_at(mem: &Mem, address: u64) -> u8
    ensures { result ≡ byte_at mem.now.memory address }
{
    mem.peek(address).unwrap_or(0)
}

/// The little-endian number of so many bytes from an address on. A byte whose page isn't mapped is 0.
pub fn value_at(mem: &Mem, address: u64, count: u32) -> u64
    requires { count ≤ 8 }
    ensures value { result ≡ value mem.now.memory address count }
    ensures fits { result < 2 ^ (8 * count) }
{
    let mut number = 0u64;
    let mut left = count;
    'bytes: while left > 0 {
        left -= 1;
        let byte = byte_at(mem, address.wrapping_add(u64::from(left)));
        number = 256 * number + u64::from(byte);
    }
    number
}
