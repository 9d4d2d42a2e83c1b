//! Moves of the first lanes of a register.
ghost use Rattle.std.specs.Prelude.{◌≡◌, ◌≤◌, ◌<◌, ◌+◌, ◌-◌, ◌*◌, ◌/◌, ◌%◌, ℕ, [], None, true, false, take, get_or};
ghost use Rattle.emu_model.specs.declared.access.Kind.{Kind};
ghost use Rattle.emu_model.specs.Access.{address, allowed, page_size, refused};
ghost use Rattle.emu_model.specs.Lanes.{read_z, with_z};
ghost use Rattle.emu_model.specs.Lists.{each};
ghost use Rattle.emu_model.specs.Pages.{bytes_at, with_bytes};
ghost use Rattle.emu_model.specs.SoundState.{AreBytes};

use crate::register_bytes::{put_long, put_pair, set_bytes};
use element_loops::{joined, put_over, put_register};
use emu_bits::Reg;
use emu_model::PAGE_SIZE;
use guest_mem::{AccessLog, Kind, Mem};
use vec_regs::VecRegs;

/// The same slice; its clause says that each of its values is a byte.
fn told_bytes(bytes: &[u8]) -> &[u8]
    ensures same { result.now ≡ bytes.now }
    ensures bytes { AreBytes bytes.now }
    ensures small { (k : ℕ) → get_or bytes.now k 0 < 256 }
{
    bytes
}

/// Loads n lanes of w bytes from an address on, which end in its page or in the next, and writes a register that has
/// them, and zeros behind them, exactly where both pages may be read, and says whether it did. Else nothing is changed.
#[inline(never)]
fn load_over(
    vec: &mut VecRegs,
    mem: &mut Mem,
    log: &mut AccessLog,
    base: u64,
    w: u32,
    n: u32,
    zt: Reg,
) -> bool
    requires few { n * w ≤ vec.old.bits / 8 }
    requires lanes { n ≤ 256 }
    ensures sure { allowed mem.old.memory Kind.Read base ≡ true
        → allowed mem.old.memory Kind.Read (address (base + (page_size - base % page_size))) ≡ true → result ≡ true }
    ensures allowed { result ≡ true → refused mem.old.memory base (n * w) Kind.Read ≡ None }
    ensures loaded { result ≡ true → let bytes = bytes_at mem.old.memory base (n * w) in
        vec.new ≡ with_z vec.old zt (each (vec.old.bits / 8) (λ j. get_or bytes j 0)) }
    ensures bytes { result ≡ true → (k : ℕ) → get_or (bytes_at mem.old.memory base (n * w)) k 0 < 256 }
    ensures logged { result ≡ true → log.new.items
        ≡ each n (λ i. record { address = address (base + i * w); bytes = w; write = false }) }
    ensures kept { result ≡ false → vec.new ≡ vec.old }
    ensures unlogged { result ≡ false → log.new ≡ log.old }
    ensures memory { mem.new ≡ mem.old }
{
    let _length = vec.length();
    let total = n * w;
    let mut both = [0u8; 256];
    if !joined(mem, base, total as usize, &mut both) {
        return false;
    }
    let bytes = told_bytes(&both[..total as usize]);
    let whole = vec.length().bits() / 8;
    set_bytes(vec, zt, bytes, total, whole);
    log.set_run(base, w, n, false);
    true
}

/// Loads n lanes of w bytes from an address on, and writes a register that has them, and zeros behind them, where they
/// are in one page, exactly where it may be read, and says whether it did. Else nothing is changed.
#[inline(always)]
fn load_within(
    vec: &mut VecRegs,
    mem: &mut Mem,
    log: &mut AccessLog,
    base: u64,
    w: u32,
    n: u32,
    zt: Reg,
) -> bool
    requires few { n * w ≤ vec.old.bits / 8 }
    requires lanes { n ≤ 256 }
    requires within { base % page_size + n * w ≤ page_size }
    ensures sure { result ≡ allowed mem.old.memory Kind.Read base }
    ensures allowed { result ≡ true → refused mem.old.memory base (n * w) Kind.Read ≡ None }
    ensures loaded { result ≡ true → let bytes = bytes_at mem.old.memory base (n * w) in
        vec.new ≡ with_z vec.old zt (each (vec.old.bits / 8) (λ j. get_or bytes j 0)) }
    ensures bytes { result ≡ true → (k : ℕ) → get_or (bytes_at mem.old.memory base (n * w)) k 0 < 256 }
    ensures logged { result ≡ true → log.new.items
        ≡ each n (λ i. record { address = address (base + i * w); bytes = w; write = false }) }
    ensures kept { result ≡ false → vec.new ≡ vec.old }
    ensures unlogged { result ≡ false → log.new ≡ log.old }
    ensures memory { mem.new ≡ mem.old }
{
    // read before the log is written
    let whole = vec.length().bits() / 8;
    let total = n * w;
    match mem.slice_at(base, total as usize, Kind::Read) {
        Some(bytes) => {
            // for its clause
            let _bytes = told_bytes(bytes);
            log.set_run(base, w, n, false);
            // last, so that nothing is kept over its call
            set_bytes(vec, zt, bytes, total, whole);
            true
        }
        None => false,
    }
}

/// The same. It isn't inlined, so that the search for a page that isn't at hand takes nothing where the page is.
#[inline(never)]
fn load_away(
    vec: &mut VecRegs,
    mem: &mut Mem,
    log: &mut AccessLog,
    base: u64,
    w: u32,
    n: u32,
    zt: Reg,
) -> bool
    requires few { n * w ≤ vec.old.bits / 8 }
    requires lanes { n ≤ 256 }
    requires within { base % page_size + n * w ≤ page_size }
    ensures sure { result ≡ allowed mem.old.memory Kind.Read base }
    ensures allowed { result ≡ true → refused mem.old.memory base (n * w) Kind.Read ≡ None }
    ensures loaded { result ≡ true → let bytes = bytes_at mem.old.memory base (n * w) in
        vec.new ≡ with_z vec.old zt (each (vec.old.bits / 8) (λ j. get_or bytes j 0)) }
    ensures bytes { result ≡ true → (k : ℕ) → get_or (bytes_at mem.old.memory base (n * w)) k 0 < 256 }
    ensures logged { result ≡ true → log.new.items
        ≡ each n (λ i. record { address = address (base + i * w); bytes = w; write = false }) }
    ensures kept { result ≡ false → vec.new ≡ vec.old }
    ensures unlogged { result ≡ false → log.new ≡ log.old }
    ensures memory { mem.new ≡ mem.old }
{
    load_within(vec, mem, log, base, w, n, zt)
}

/// Loads n lanes of w bytes from an address on, and writes a register that has them, and zeros behind them, where they
/// are in pages that may be read, and says whether it did. Else nothing is changed.
#[inline(always)]
pub fn load_lanes(
    vec: &mut VecRegs,
    mem: &mut Mem,
    log: &mut AccessLog,
    base: u64,
    w: u32,
    n: u32,
    zt: Reg,
) -> bool
    requires few { n * w ≤ vec.old.bits / 8 }
    requires lanes { n ≤ 256 }
    requires empty { log.old.items ≡ [] }
    ensures within { base % page_size + n * w ≤ page_size → result ≡ allowed mem.old.memory Kind.Read base }
    ensures beyond { page_size < base % page_size + n * w → allowed mem.old.memory Kind.Read base ≡ true
        → allowed mem.old.memory Kind.Read (address (base + (page_size - base % page_size))) ≡ true → result ≡ true }
    ensures allowed { result ≡ true → refused mem.old.memory base (n * w) Kind.Read ≡ None }
    ensures loaded { result ≡ true → let bytes = bytes_at mem.old.memory base (n * w) in
        vec.new ≡ with_z vec.old zt (each (vec.old.bits / 8) (λ j. get_or bytes j 0)) }
    ensures bytes { result ≡ true → (k : ℕ) → get_or (bytes_at mem.old.memory base (n * w)) k 0 < 256 }
    ensures logged { result ≡ true → log.new.items
        ≡ each n (λ i. record { address = address (base + i * w); bytes = w; write = false }) }
    ensures kept { result ≡ false → vec.new ≡ vec.old }
    ensures unlogged { result ≡ false → log.new ≡ log.old }
    ensures memory { mem.new ≡ mem.old }
{
    let _length = vec.length();
    if base % PAGE_SIZE + u64::from(n * w) > PAGE_SIZE {
        return load_over(vec, mem, log, base, w, n, zt);
    }
    if !mem.pages().is_at_hand_to_read(base / PAGE_SIZE) {
        return load_away(vec, mem, log, base, w, n, zt);
    }
    load_within(vec, mem, log, base, w, n, zt)
}

/// Stores the first n lanes of a register, of w bytes, from an address on, where they are in one page, which may be
/// written.
#[inline(always)]
fn put_lanes(vec: &VecRegs, mem: &mut Mem, log: &mut AccessLog, base: u64, w: u32, n: u32, zt: Reg)
    requires few { n * w ≤ vec.now.bits / 8 }
    requires lanes { n ≤ 256 }
    requires within { base % page_size + n * w ≤ page_size }
    requires allowed { allowed mem.old.memory Kind.Write base ≡ true }
    requires empty { log.old.items ≡ [] }
    ensures stored { mem.new.memory ≡ with_bytes mem.old.memory base (take (n * w) (read_z vec.now zt)) }
    ensures logged { log.new.items
        ≡ each n (λ i. record { address = address (base + i * w); bytes = w; write = true }) }
    ensures marks { mem.new.marks ≡ mem.old.marks }
{
    let _length = vec.length();
    let _words = vec.z_words(zt);
    let mut spare = 0;
    let total = n * w;
    let places = mem.writable(base, total as usize, &mut spare);
    if total == 16 {
        put_pair(vec, zt, places);
        // for its clause
        let _bytes = told_bytes(places);
        log.set_run(base, w, n, true);
    } else {
        // first, so that nothing is kept over the call
        log.set_run(base, w, n, true);
        put_long(vec, zt, places);
        let _bytes = told_bytes(places);
    }
}

/// The same where the page may be written, and says whether it may.
#[inline(never)]
fn put_away(
    vec: &VecRegs,
    mem: &mut Mem,
    log: &mut AccessLog,
    base: u64,
    w: u32,
    n: u32,
    zt: Reg,
) -> bool
    requires few { n * w ≤ vec.now.bits / 8 }
    requires lanes { n ≤ 256 }
    requires within { base % page_size + n * w ≤ page_size }
    requires empty { log.old.items ≡ [] }
    ensures allowed { result ≡ allowed mem.old.memory Kind.Write base }
    ensures stored { result ≡ true
        → mem.new.memory ≡ with_bytes mem.old.memory base (take (n * w) (read_z vec.now zt)) }
    ensures logged { result ≡ true → log.new.items
        ≡ each n (λ i. record { address = address (base + i * w); bytes = w; write = true }) }
    ensures kept { result ≡ false → mem.new.memory ≡ mem.old.memory }
    ensures unlogged { result ≡ false → log.new ≡ log.old }
    ensures marks { mem.new.marks ≡ mem.old.marks }
{
    if mem.may_write(base) {
        put_lanes(vec, mem, log, base, w, n, zt);
        true
    } else {
        false
    }
}

/// Stores the first n lanes of a register, of w bytes, from an address on, which end in the next page, exactly where
/// both pages may be written, and says whether it did. Else nothing is changed.
#[inline(never)]
fn store_over(
    vec: &VecRegs,
    mem: &mut Mem,
    log: &mut AccessLog,
    base: u64,
    w: u32,
    n: u32,
    zt: Reg,
) -> bool
    requires few { n * w ≤ vec.now.bits / 8 }
    requires lanes { n ≤ 256 }
    requires over { page_size < base % page_size + n * w }
    ensures sure { allowed mem.old.memory Kind.Write base ≡ true
        → allowed mem.old.memory Kind.Write (address (base + (page_size - base % page_size))) ≡ true → result ≡ true }
    ensures allowed { result ≡ true → refused mem.old.memory base (n * w) Kind.Write ≡ None }
    ensures stored { result ≡ true
        → mem.new.memory ≡ with_bytes mem.old.memory base (take (n * w) (read_z vec.now zt)) }
    ensures logged { result ≡ true → log.new.items
        ≡ each n (λ i. record { address = address (base + i * w); bytes = w; write = true }) }
    ensures kept { result ≡ false → mem.new.memory ≡ mem.old.memory }
    ensures unlogged { result ≡ false → log.new ≡ log.old }
    ensures marks { mem.new.marks ≡ mem.old.marks }
{
    let _length = vec.length();
    let total = n * w;
    let mut both = [0u8; 256];
    put_register(vec, zt, &mut both);
    if !put_over(mem, base, &both[..total as usize]) {
        return false;
    }
    log.set_run(base, w, n, true);
    true
}

/// Stores the first n lanes of a register, of w bytes, from an address on, where they are in pages that may be written,
/// and says whether it did. Else nothing is changed.
#[inline(always)]
pub fn store_lanes(
    vec: &VecRegs,
    mem: &mut Mem,
    log: &mut AccessLog,
    base: u64,
    w: u32,
    n: u32,
    zt: Reg,
) -> bool
    requires few { n * w ≤ vec.now.bits / 8 }
    requires lanes { n ≤ 256 }
    requires empty { log.old.items ≡ [] }
    ensures within { base % page_size + n * w ≤ page_size → result ≡ allowed mem.old.memory Kind.Write base }
    ensures beyond { page_size < base % page_size + n * w → allowed mem.old.memory Kind.Write base ≡ true
        → allowed mem.old.memory Kind.Write (address (base + (page_size - base % page_size))) ≡ true → result ≡ true }
    ensures allowed { result ≡ true → refused mem.old.memory base (n * w) Kind.Write ≡ None }
    ensures stored { result ≡ true
        → mem.new.memory ≡ with_bytes mem.old.memory base (take (n * w) (read_z vec.now zt)) }
    ensures logged { result ≡ true → log.new.items
        ≡ each n (λ i. record { address = address (base + i * w); bytes = w; write = true }) }
    ensures kept { result ≡ false → mem.new.memory ≡ mem.old.memory }
    ensures unlogged { result ≡ false → log.new ≡ log.old }
    ensures marks { mem.new.marks ≡ mem.old.marks }
{
    let _length = vec.length();
    if base % PAGE_SIZE + u64::from(n * w) > PAGE_SIZE {
        return store_over(vec, mem, log, base, w, n, zt);
    }
    if !mem.pages().is_at_hand(base / PAGE_SIZE) {
        return put_away(vec, mem, log, base, w, n, zt);
    }
    put_lanes(vec, mem, log, base, w, n, zt);
    true
}
