//! Bytes over a page border.
ghost use Rattle.std.specs.Prelude.{◌≡◌, ◌≤◌, ◌<◌, ◌+◌, ◌-◌, ◌*◌, ◌%◌, ℕ, None, IfSome, true, false, get_or, length};
ghost use Rattle.std.specs.Option.{is_some};
ghost use Rattle.emu_model.specs.declared.access.Kind.{Kind};
ghost use Rattle.emu_model.specs.Access.{address, allowed, refused, page_size};
ghost use Rattle.emu_model.specs.Pages.{bytes_at, with_bytes};
ghost use Rattle.guest_mem.specs.Slices.{to_page_end};

use emu_model::PAGE_SIZE;
use guest_mem::{Kind, Mem};

/// Copies the bytes from an address on, up to the end of its page and at most `most`, to a place of a buffer, and
/// answers how many they are. None where the page may not be read.
fn copy_part(mem: &mut Mem, at: u64, most: usize, bytes: &mut [u8], place: usize) -> Option<usize>
    requires { place + most ≤ length bytes.old }
    ensures sure { allowed mem.old.memory Kind.Read at ≡ true → is_some result ≡ true }
    ensures count { IfSome result (λ n. n ≡ to_page_end at most) }
    ensures few { IfSome result (λ n. n ≤ most) }
    ensures allowed { IfSome result (λ n. refused mem.old.memory at n Kind.Read ≡ None) }
    ensures here { IfSome result
        (λ n. (j : ℕ) → j < n → get_or bytes.new (place + j) 0 ≡ get_or (bytes_at mem.old.memory at n) j 0) }
    ensures before { (j : ℕ) → j < place → get_or bytes.new j 0 ≡ get_or bytes.old j 0 }
    ensures behind { IfSome result (λ n. (j : ℕ) → place + n ≤ j → get_or bytes.new j 0 ≡ get_or bytes.old j 0) }
    ensures long { length bytes.new ≡ length bytes.old }
    ensures memory { mem.new ≡ mem.old }
{
    match mem.slice_at(at, most, Kind::Read) {
        Some(part) => {
            let n = part.len();
            bytes[place..place + n].copy_from_slice(part);
            Some(n)
        }
        None => None,
    }
}

/// Fills the first `total` places of a buffer with the bytes from an address on, which end in its page or in the next,
/// and says whether they may be read. The other places stay.
pub fn joined(mem: &mut Mem, base: u64, total: usize, bytes: &mut [u8]) -> bool
    requires { total ≤ length bytes.old }
    ensures sure { base % page_size + total ≤ 2 * page_size → allowed mem.old.memory Kind.Read base ≡ true
        → allowed mem.old.memory Kind.Read (address (base + (page_size - base % page_size))) ≡ true → result ≡ true }
    ensures allowed { result ≡ true → refused mem.old.memory base total Kind.Read ≡ None }
    ensures bytes { result ≡ true → (j : ℕ) → j < total
        → get_or bytes.new j 0 ≡ get_or (bytes_at mem.old.memory base total) j 0 }
    ensures behind { result ≡ true → (j : ℕ) → total ≤ j → get_or bytes.new j 0 ≡ get_or bytes.old j 0 }
    ensures long { length bytes.new ≡ length bytes.old }
    ensures memory { mem.new ≡ mem.old }
{
    let Some(first) = copy_part(mem, base, total, bytes, 0) else {
        return false;
    };
    if first == total {
        return true;
    }
    let at = base.wrapping_add(first as u64);
    let Some(rest) = copy_part(mem, at, total - first, bytes, first) else {
        return false;
    };
    if first + rest < total {
        return false;
    }
    true
}

/// Writes bytes that fit their page, where it may be written, and says whether it may.
pub(crate) fn put_bytes(mem: &mut Mem, at: u64, bytes: &[u8]) -> bool
    requires { at % page_size + length bytes.now ≤ page_size }
    ensures allowed { result ≡ true → refused mem.old.memory at (length bytes.now) Kind.Write ≡ None }
    ensures written { result ≡ true → mem.new.memory ≡ with_bytes mem.old.memory at bytes.now }
    ensures kept { result ≡ false → mem.new.memory ≡ mem.old.memory }
    ensures sure { 0 < length bytes.now → refused mem.old.memory at (length bytes.now) Kind.Write ≡ None
        → result ≡ true }
    ensures marks { mem.new.marks ≡ mem.old.marks }
{
    match mem.write_at(at, bytes) {
        Some(_) => true,
        None => false,
    }
}

/// Writes bytes that end in their page or in the next, where both may be written, and says whether they may.
pub fn put_over(mem: &mut Mem, at: u64, bytes: &[u8]) -> bool
    requires { length bytes.now ≤ page_size }
    ensures sure { page_size < at % page_size + length bytes.now → allowed mem.old.memory Kind.Write at ≡ true
        → allowed mem.old.memory Kind.Write (address (at + (page_size - at % page_size))) ≡ true → result ≡ true }
    ensures allowed { result ≡ true → refused mem.old.memory at (length bytes.now) Kind.Write ≡ None }
    ensures written { result ≡ true → mem.new.memory ≡ with_bytes mem.old.memory at bytes.now }
    ensures kept { result ≡ false → mem.new.memory ≡ mem.old.memory }
    ensures marks { mem.new.marks ≡ mem.old.marks }
{
    let first = (PAGE_SIZE - at % PAGE_SIZE) as usize;
    if bytes.len() <= first {
        return put_bytes(mem, at, bytes);
    }
    let next = at.wrapping_add(first as u64);
    if !mem.may_write(next) {
        return false;
    }
    if !put_bytes(mem, at, &bytes[..first]) {
        return false;
    }
    put_bytes(mem, next, &bytes[first..]);
    true
}
