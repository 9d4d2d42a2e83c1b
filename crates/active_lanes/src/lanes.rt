//! Words made lane by lane.
ghost use Rattle.std.specs.Prelude.{◌≡◌, ◌≤◌, ◌<◌, ◌+◌, ◌*◌, ◌/◌, ◌%◌, ◌^◌, ℕ, length, get_or};
ghost use Rattle.emu_model.specs.WithinPage.{number_in};
ghost use Rattle.emu_model.specs.Lanes.{byte_in};
ghost use Rattle.emu_model.specs.LaneSizes.{IsLaneSize};
ghost use Rattle.vec_regs.specs.Words.{byte_of};
ghost use Rattle.active_lanes.specs.Placed.{lane_at};

use byteorder::{ByteOrder, LittleEndian};
use vec_regs::extended;

/// The little-endian number of n bytes from a place on.
#[inline(always)]
fn number_at(bytes: &[u8], at: usize, n: u32) -> u64
    requires some { 1 ≤ n }
    requires most { n ≤ 8 }
    requires room { at + n ≤ length bytes.now }
    ensures { result ≡ number_in bytes.now at n }
{
    match n {
        1 => u64::from(bytes[at]),
        2 => u64::from(LittleEndian::read_u16(&bytes[at..at + 2])),
        4 => u64::from(LittleEndian::read_u32(&bytes[at..at + 4])),
        8 => LittleEndian::read_u64(&bytes[at..at + 8]),
        _ => LittleEndian::read_uint(&bytes[at..at + n as usize], n as usize),
    }
}

/// Lane k, the element of n bytes at place `at + k * step`, extended to e bits.
#[inline(always)]
fn lane(e: u32, n: u32, is_signed: bool, bytes: &[u8], at: usize, step: usize, k: usize) -> u64
    requires size { e ≤ 64 }
    requires some { 1 ≤ n }
    requires most { n ≤ 8 }
    requires room { at + k * step + n ≤ length bytes.now }
    ensures { result ≡ lane_at is_signed e n bytes.now at step k }
{
    extended(is_signed, e, n, number_at(bytes, at + k * step, n))
}

/// 2^e
#[inline(always)]
fn modulus(e: u32) -> u128
    requires { IsLaneSize e }
    ensures value { result ≡ 2 ^ e }
    ensures small { result ≤ 2 ^ 64 }
{
    match e {
        8 => 0x100,
        16 => 0x1_0000,
        32 => 0x1_0000_0000,
        _ => 0x1_0000_0000_0000_0000,
    }
}

/// The word of the lanes from lane k on.
#[inline(always)]
fn word(e: u32, n: u32, is_signed: bool, bytes: &[u8], at: usize, step: usize, k: usize) -> u64
    requires size { IsLaneSize e }
    requires some { 1 ≤ n }
    requires most { n ≤ 8 }
    requires few { k ≤ 256 }
    requires room { (q : ℕ) → q < 64 / e → at + (k + q) * step + n ≤ length bytes.now }
    ensures { (t : ℕ) → t < 8
        → result / 2 ^ (8 * t) % 256 ≡ byte_in (e / 8) (λ q. lane_at is_signed e n bytes.now at step (k + q)) t }
{
    let m = modulus(e);
    let mut so_far: u64 = 0;
    for q in (0..64 / e as usize).rev() {
        let v = lane(e, n, is_signed, bytes, at, step, k + q);
        so_far = (so_far as u128 * m + v as u128 % m) as u64;
    }
    so_far
}

/// Makes the first `count` words of a register, lane by lane. The sizes are constants where it is called, so that each
/// pair of them is compiled by itself.
#[inline(always)]
pub(crate) fn put_each(
    e: u32,
    n: u32,
    is_signed: bool,
    bytes: &[u8],
    at: usize,
    step: usize,
    count: usize,
    words: &mut [u64],
)
    requires size { IsLaneSize e }
    requires some { 1 ≤ n }
    requires most { n ≤ 8 }
    requires few { count ≤ 32 }
    requires long { count ≤ length words.old }
    requires room { (k : ℕ) → k < count * (64 / e) → at + k * step + n ≤ length bytes.now }
    ensures bytes { (j : ℕ) → j < 8 * count
        → byte_of 8 words.new j ≡ byte_in (e / 8) (lane_at is_signed e n bytes.now at step) j }
    ensures above { (k : ℕ) → count ≤ k → get_or words.new k 0 ≡ get_or words.old k 0 }
    ensures length { length words.new ≡ length words.old }
{
    for i in 0..count {
        words[i] = word(e, n, is_signed, bytes, at, step, i * (64 / e as usize));
    }
}

/// The same, with the sizes told apart for elements that are smaller than their lanes.
pub(crate) fn put_extended(
    e: u32,
    n: u32,
    is_signed: bool,
    bytes: &[u8],
    at: usize,
    step: usize,
    count: usize,
    words: &mut [u64],
)
    requires size { IsLaneSize e }
    requires some { 1 ≤ n }
    requires most { n ≤ 8 }
    requires few { count ≤ 32 }
    requires long { count ≤ length words.old }
    requires room { (k : ℕ) → k < count * (64 / e) → at + k * step + n ≤ length bytes.now }
    ensures bytes { (j : ℕ) → j < 8 * count
        → byte_of 8 words.new j ≡ byte_in (e / 8) (lane_at is_signed e n bytes.now at step) j }
    ensures above { (k : ℕ) → count ≤ k → get_or words.new k 0 ≡ get_or words.old k 0 }
    ensures length { length words.new ≡ length words.old }
{
    if e == 16 && n == 1 {
        put_each(16, 1, is_signed, bytes, at, step, count, words);
    } else if e == 32 && n == 1 {
        put_each(32, 1, is_signed, bytes, at, step, count, words);
    } else if e == 32 && n == 2 {
        put_each(32, 2, is_signed, bytes, at, step, count, words);
    } else if e == 64 && n == 1 {
        put_each(64, 1, is_signed, bytes, at, step, count, words);
    } else if e == 64 && n == 2 {
        put_each(64, 2, is_signed, bytes, at, step, count, words);
    } else if e == 64 && n == 4 {
        put_each(64, 4, is_signed, bytes, at, step, count, words);
    } else {
        put_each(e, n, is_signed, bytes, at, step, count, words);
    }
}
