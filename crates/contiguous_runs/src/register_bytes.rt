//! The bytes of registers, and bytes in memory.
ghost use Rattle.std.specs.Prelude.{◌≡◌, ◌≤◌, ◌<◌, ◌+◌, ◌*◌, ◌/◌, ◌%◌, ◌^◌, ℕ, List, length, take, get_or};
ghost use Rattle.std.specs.Int.{bytes_low_first};
ghost use Rattle.emu_model.specs.Lists.{each};
ghost use Rattle.emu_model.specs.Lanes.{read_z, with_z};
ghost use Rattle.vec_regs.specs.Words.{byte_of};

use byteorder::{ByteOrder, LittleEndian};
use emu_bits::Reg;
use vec_regs::VecRegs;

/// Eight bytes from a place on, as a word.
#[inline(always)]
fn whole_word(bytes: &[u8], place: usize) -> u64
    requires { place + 8 ≤ length bytes.now }
    ensures { (t : ℕ) → t < 8 → result / 2 ^ (8 * t) % 256 ≡ get_or bytes.now (place + t) 0 }
{
    LittleEndian::read_u64(&bytes[place..place + 8])
}

/// The bytes from a place on, fewer than eight and all that there are, as a word with zeros above them.
#[inline(never)]
fn few_bytes(bytes: &[u8], place: usize) -> u64
    requires some { place ≤ length bytes.now }
    requires few { length bytes.now < place + 8 }
    ensures { (t : ℕ) → t < 8 → result / 2 ^ (8 * t) % 256 ≡ get_or bytes.now (place + t) 0 }
{
    let mut last = [0u8; 8];
    let count = bytes.len() - place;
    last[..count].copy_from_slice(&bytes[place..place + count]);
    whole_word(&last, 0)
}

/// The same, by the last eight bytes where there are eight.
#[inline(always)]
fn last_word(bytes: &[u8], place: usize) -> u64
    requires some { place < length bytes.now }
    requires few { length bytes.now < place + 8 }
    ensures { (t : ℕ) → t < 8 → result / 2 ^ (8 * t) % 256 ≡ get_or bytes.now (place + t) 0 }
{
    if bytes.len() < 8 {
        return few_bytes(bytes, place);
    }
    let before = place + 8 - bytes.len();
    let word = whole_word(bytes, bytes.len() - 8);
    word >> (8 * before)
}

/// Eight bytes from a place on, as a word; those behind the last byte are 0.
#[inline(always)]
fn word_from(bytes: &[u8], place: usize) -> u64
    requires { place ≤ 256 }
    ensures { (t : ℕ) → t < 8 → result / 2 ^ (8 * t) % 256 ≡ get_or bytes.now (place + t) 0 }
{
    if place + 8 <= bytes.len() {
        whole_word(bytes, place)
    } else if place < bytes.len() {
        last_word(bytes, place)
    } else {
        0
    }
}

/// Writes all bytes of a register of so many times 128 bits. Their number is a constant where it is called.
#[inline(always)]
fn set_parts(vec: &mut VecRegs, zd: Reg, bytes: &[u8], parts: u32)
    requires parts { parts ≡ vec.old.bits / 128 }
    requires room { vec.old.bits / 8 ≤ length bytes.now }
    ensures { vec.new ≡ with_z vec.old zd (each (vec.old.bits / 8) (λ j. get_or bytes.now j 0)) }
{
    let _length = vec.length();
    let _words = vec.z_words(zd);
    for i in 0..parts {
        let low = whole_word(bytes, 16 * i as usize);
        let high = whole_word(bytes, 16 * i as usize + 8);
        vec.set_z_pair(zd, i, [low, high]);
    }
}

/// Writes all bytes of a register. It isn't inlined, so that no loop is where a register of 128 bits is written.
#[inline(never)]
fn set_long(vec: &mut VecRegs, zd: Reg, bytes: &[u8])
    requires { vec.old.bits / 8 ≤ length bytes.now }
    ensures { vec.new ≡ with_z vec.old zd (each (vec.old.bits / 8) (λ j. get_or bytes.now j 0)) }
{
    let parts = vec.length().bits() / 128;
    if parts == 16 {
        set_parts(vec, zd, bytes, 16);
    } else {
        set_parts(vec, zd, bytes, parts);
    }
}

/// Writes all bytes of a register of so many bytes, at once where they are 16.
#[inline(always)]
fn set_whole(vec: &mut VecRegs, zd: Reg, bytes: &[u8], count: u32)
    requires count { count ≡ vec.old.bits / 8 }
    requires room { vec.old.bits / 8 ≤ length bytes.now }
    ensures { vec.new ≡ with_z vec.old zd (each (vec.old.bits / 8) (λ j. get_or bytes.now j 0)) }
{
    let _length = vec.length();
    if count == 16 {
        set_parts(vec, zd, bytes, 1);
    } else {
        set_long(vec, zd, bytes);
    }
}

/// Writes the first bytes of a register, and zeros behind them.
#[inline(never)]
fn set_some(vec: &mut VecRegs, zd: Reg, bytes: &[u8])
    ensures { vec.new ≡ with_z vec.old zd (each (vec.old.bits / 8) (λ j. get_or bytes.now j 0)) }
{
    let _length = vec.length();
    let _words = vec.z_words(zd);
    let parts = vec.length().bits() / 128;
    let whole = (bytes.len() / 16).min(parts as usize) as u32;
    for i in 0..whole {
        let low = whole_word(bytes, 16 * i as usize);
        let high = whole_word(bytes, 16 * i as usize + 8);
        vec.set_z_pair(zd, i, [low, high]);
    }
    for k in whole..parts {
        let low = word_from(bytes, 16 * k as usize);
        let high = word_from(bytes, 16 * k as usize + 8);
        vec.set_z_pair(zd, k, [low, high]);
    }
}

/// Writes the first bytes of a register of so many bytes, and zeros behind them.
#[inline(always)]
pub(crate) fn set_bytes(vec: &mut VecRegs, zd: Reg, bytes: &[u8], count: u32, whole: u32)
    requires count { length bytes.now ≡ count }
    requires whole { whole ≡ vec.old.bits / 8 }
    ensures { vec.new ≡ with_z vec.old zd (each (vec.old.bits / 8) (λ j. get_or bytes.now j 0)) }
{
    if count == whole {
        set_whole(vec, zd, bytes, count);
    } else {
        set_some(vec, zd, bytes);
    }
}

/// Puts the low n bytes of a word at a place.
#[inline(never)]
fn put_low(bytes: &mut [u8], at: usize, n: usize, v: u64)
    requires most { n ≤ 8 }
    requires room { at + n ≤ length bytes.old }
    ensures here { (t : ℕ) → t < n → get_or bytes.new (at + t) 0 ≡ get_or (take n (bytes_low_first 0 8 v)) t 0 }
    ensures before { (i : ℕ) → i < at → get_or bytes.new i 0 ≡ get_or bytes.old i 0 }
    ensures long { length bytes.new ≡ length bytes.old }
{
    let number = v.to_le_bytes();
    bytes[at..at + n].copy_from_slice(&number[..n]);
}

/// Puts word i of a register behind those before it.
#[inline(always)]
fn put_word(bytes: &mut [u8], i: usize, word: u64)
    requires { 8 * i + 8 ≤ length bytes.old }
    // whatever the words before it are
    ensures done { (words : List ℕ) → get_or words i 0 ≡ word
        → ((j : ℕ) → j < 8 * i → get_or bytes.old j 0 ≡ byte_of 8 words j)
        → (j : ℕ) → j < 8 * (i + 1) → get_or bytes.new j 0 ≡ byte_of 8 words j }
    ensures long { length bytes.new ≡ length bytes.old }
{
    bytes[8 * i..8 * i + 8].copy_from_slice(&word.to_le_bytes());
}

/// Puts the first 16 bytes of a register.
#[inline(always)]
pub(crate) fn put_pair(vec: &VecRegs, r: Reg, bytes: &mut [u8])
    requires { length bytes.old ≡ 16 }
    ensures same { (j : ℕ) → j < length bytes.old → get_or bytes.new j 0 ≡ get_or (read_z vec.now r) j 0 }
    ensures long { length bytes.new ≡ length bytes.old }
{
    let _length = vec.length();
    let words = vec.z_words(r);
    put_word(bytes, 0, words[0]);
    put_word(bytes, 1, words[1]);
}

/// Puts the bytes of a register of 2048 bits.
#[inline(always)]
fn put_full(vec: &VecRegs, r: Reg, bytes: &mut [u8])
    requires whole { length bytes.old ≡ 256 }
    requires room { length bytes.old ≤ vec.now.bits / 8 }
    ensures same { (j : ℕ) → j < length bytes.old → get_or bytes.new j 0 ≡ get_or (read_z vec.now r) j 0 }
    ensures long { length bytes.new ≡ length bytes.old }
{
    let words = vec.z_words(r);
    // a constant number of words
    for i in 0..32 {
        put_word(bytes, i, words[i]);
    }
}

/// Puts the first bytes of a register, as many as there are places. It isn't inlined, so that no loop is where a
/// register of 128 bits is put.
#[inline(never)]
pub(crate) fn put_long(vec: &VecRegs, r: Reg, bytes: &mut [u8])
    requires { length bytes.old ≤ vec.now.bits / 8 }
    ensures same { (j : ℕ) → j < length bytes.old → get_or bytes.new j 0 ≡ get_or (read_z vec.now r) j 0 }
    ensures long { length bytes.new ≡ length bytes.old }
{
    if bytes.len() == 256 {
        put_full(vec, r, bytes);
    } else {
        put_some(vec, r, bytes);
    }
}

/// Puts the first bytes of a register, word by word.
#[inline(always)]
fn put_some(vec: &VecRegs, r: Reg, bytes: &mut [u8])
    requires { length bytes.old ≤ vec.now.bits / 8 }
    ensures same { (j : ℕ) → j < length bytes.old → get_or bytes.new j 0 ≡ get_or (read_z vec.now r) j 0 }
    ensures long { length bytes.new ≡ length bytes.old }
{
    let _length = vec.length();
    let words = vec.z_words(r);
    let whole = bytes.len() / 8;
    let rest = bytes.len() % 8;
    for i in 0..whole {
        put_word(bytes, i, words[i]);
    }
    if rest > 0 {
        put_low(bytes, 8 * whole, rest, words[whole]);
    }
}
