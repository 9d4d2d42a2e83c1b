//! Fields among the 256 bits of four words, the lowest word first.
ghost use Rattle.std.specs.Prelude.{
  ◌≡◌,
  ◌<◌,
  ◌≤◌,
  ◌+◌,
  ◌-◌,
  ◌*◌,
  ◌/◌,
  ◌%◌,
  ◌&&◌,
  ℕ,
  false,
  nat_eq,
  nat_lt,
  get_or,
  if◌then◌else◌,
};
ghost use Rattle.lane_model.specs.WordBits.{bit_of};
ghost use Rattle.lane_permute.specs.Places.{IsField, is_one, zipped, every_second, joined, transposed, reversed};

use crate::exchanges::{apart, backwards, in_turn};

/// Word i, or 0 where there is none.
#[inline(always)]
fn word(words: &[u64; 4], i: u32) -> u64
    ensures { result ≡ get_or words.now i 0 }
{
    if i < 4 { words[i as usize] } else { 0 }
}

/// The 64 bits from a place on, 0 from bit 256 on.
#[inline(always)]
fn bits_from(words: &[u64; 4], at: u32) -> u64
    ensures { (s : ℕ) → s < 64 → is_one result s ≡ bit_of words.now (at + s) }
{
    let low = word(words, at / 64);
    let high = word(words, at / 64 + 1);
    if at % 64 == 0 {
        low >> (at % 64)
    } else {
        low >> (at % 64) | high << (64 - at % 64)
    }
}

/// The low half of a word, and that of another above it.
#[inline(always)]
fn low_halves(a: u64, b: u64) -> u64
    ensures { (s : ℕ) → s < 64 → is_one result s ≡ (if nat_lt s 32 then is_one a s else is_one b (s - 32)) }
{
    a % 0x1_0000_0000 | b << 32
}

/// The low n bits of a word, at least one, and all of them where n is 64 or more.
#[inline(always)]
fn first_bits(word: u64, n: u32) -> u64
    requires { 0 < n }
    ensures { (s : ℕ) → s < 64 → is_one result s ≡ (nat_lt s n && is_one word s) }
{
    if n < 64 {
        word << (64 - n) >> (64 - n)
    } else {
        word
    }
}

/// 64 bits of fields of both in turn, from bit `from` of each on.
#[inline(always)]
fn zipped_word(a: &[u64; 4], b: &[u64; 4], from: u32, w: u32) -> u64
    requires { IsField w }
    ensures { (s : ℕ) → s < 64 → is_one result s ≡ zipped w from (bit_of a.now) (bit_of b.now) s }
{
    let low = bits_from(a, from);
    let high = bits_from(b, from);
    let pair = low_halves(low, high);
    in_turn(pair, w)
}

/// Word i of fields of both in turn, 0 from a number of bits on.
#[inline(always)]
fn zipped_at(a: &[u64; 4], b: &[u64; 4], from: u32, w: u32, bits: u32, i: u32) -> u64
    requires field { IsField w }
    requires from { from ≤ 128 }
    requires few { i < 4 }
    ensures { (s : ℕ) → s < 64
        → is_one result s ≡ (nat_lt (64 * i + s) bits && zipped w from (bit_of a.now) (bit_of b.now) (64 * i + s)) }
{
    if bits <= 64 * i {
        0
    } else {
        let word = zipped_word(a, b, from + 32 * i, w);
        first_bits(word, bits - 64 * i)
    }
}

/// The fields of w bits of both in turn, from bit `from` of each on, which are so many bits together.
pub fn zip(a: &[u64; 4], b: &[u64; 4], from: u32, w: u32, bits: u32) -> [u64; 4]
    requires field { IsField w }
    requires from { from ≤ 128 }
    requires few { bits ≤ 256 }
    ensures { (j : ℕ) → bit_of result j ≡ (nat_lt j bits && zipped w from (bit_of a.now) (bit_of b.now) j) }
{
    if from <= 32 && bits <= 64 {
        let word = zip_word(a, b, from, w, bits);
        [word, 0, 0, 0]
    } else {
        zip_words(a, b, from, w, bits)
    }
}

/// The same where the first words have all of it.
#[inline(always)]
fn zip_word(a: &[u64; 4], b: &[u64; 4], from: u32, w: u32, bits: u32) -> u64
    requires field { IsField w }
    requires from { from ≤ 32 }
    ensures { (s : ℕ) → s < 64 → is_one result s ≡ (nat_lt s bits && zipped w from (bit_of a.now) (bit_of b.now) s) }
{
    if bits == 0 {
        0
    } else {
        let pair = low_halves(a[0] >> from, b[0] >> from);
        let word = in_turn(pair, w);
        first_bits(word, bits)
    }
}

/// The same of all words. It isn't inlined, so that few bits take no time for many.
#[inline(never)]
fn zip_words(a: &[u64; 4], b: &[u64; 4], from: u32, w: u32, bits: u32) -> [u64; 4]
    requires field { IsField w }
    requires from { from ≤ 128 }
    requires few { bits ≤ 256 }
    ensures { (j : ℕ) → bit_of result j ≡ (nat_lt j bits && zipped w from (bit_of a.now) (bit_of b.now) j) }
{
    let w0 = zipped_at(a, b, from, w, bits, 0);
    let w1 = zipped_at(a, b, from, w, bits, 1);
    let w2 = zipped_at(a, b, from, w, bits, 2);
    let w3 = zipped_at(a, b, from, w, bits, 3);
    [w0, w1, w2, w3]
}

/// Every second field of two words, the first from bit `skip` on.
#[inline(always)]
fn second_fields(low: u64, high: u64, skip: u32, w: u32) -> u64
    requires field { IsField w }
    requires within { skip ≤ w }
    ensures { (s : ℕ) → s < 64 → is_one result s
        ≡ (if nat_lt s 32 then every_second w skip (is_one low) s else every_second w skip (is_one high) (s - 32)) }
{
    let first = apart(low >> skip, w);
    let second = apart(high >> skip, w);
    low_halves(first, second)
}

/// Every second field of w bits, the first from bit `skip` on: 128 bits.
#[inline(always)]
fn every_second_field(a: &[u64; 4], skip: u32, w: u32) -> [u64; 4]
    requires field { IsField w }
    requires within { skip ≤ w }
    ensures { (j : ℕ) → bit_of result j ≡ (nat_lt j 128 && every_second w skip (bit_of a.now) j) }
{
    let w0 = second_fields(a[0], a[1], skip, w);
    let w1 = second_fields(a[2], a[3], skip, w);
    [w0, w1, 0, 0]
}

/// The bits of the first below a place, which are its only ones, and the first 128 bits of the second from there on.
#[inline(always)]
fn join(a: &[u64; 4], b: &[u64; 4], at: u32) -> [u64; 4]
    requires within { at ≤ 128 }
    requires above { (j : ℕ) → at ≤ j → bit_of a.now j ≡ false }
    requires few { (j : ℕ) → 128 ≤ j → bit_of b.now j ≡ false }
    ensures { (j : ℕ) → bit_of result j ≡ joined at (bit_of a.now) (bit_of b.now) j }
{
    let up = [0, 0, b[0], b[1]];
    let w0 = bits_from(&up, 128 - at);
    let w1 = bits_from(&up, 192 - at);
    let w2 = bits_from(&up, 256 - at);
    let w3 = bits_from(&up, 320 - at);
    [a[0] | w0, a[1] | w1, a[2] | w2, a[3] | w3]
}

/// Every second field of w bits of the first, and then of the second, the first from bit `skip` on. Both have so many
/// bits.
pub fn uzp(a: &[u64; 4], b: &[u64; 4], skip: u32, w: u32, bits: u32) -> [u64; 4]
    requires field { IsField w }
    requires within { skip ≤ w }
    requires few { bits ≤ 256 }
    requires whole { bits % 16 ≡ 0 }
    requires first { (j : ℕ) → bits ≤ j → bit_of a.now j ≡ false }
    requires second { (j : ℕ) → bits ≤ j → bit_of b.now j ≡ false }
    ensures fields { (j : ℕ) → j < bits → bit_of result j
        ≡ joined (bits / 2) (every_second w skip (bit_of a.now)) (every_second w skip (bit_of b.now)) j }
    ensures above { (j : ℕ) → bits ≤ j → bit_of result j ≡ false }
{
    if bits <= 64 {
        let word = uzp_word(a, b, skip, w, bits);
        [word, 0, 0, 0]
    } else {
        uzp_words(a, b, skip, w, bits)
    }
}

/// The same where the first words have all bits.
#[inline(always)]
fn uzp_word(a: &[u64; 4], b: &[u64; 4], skip: u32, w: u32, bits: u32) -> u64
    requires field { IsField w }
    requires within { skip ≤ w }
    requires few { bits ≤ 64 }
    requires whole { bits % 16 ≡ 0 }
    requires first { (j : ℕ) → bits ≤ j → bit_of a.now j ≡ false }
    requires second { (j : ℕ) → bits ≤ j → bit_of b.now j ≡ false }
    ensures { (s : ℕ) → s < 64 → is_one result s
        ≡ joined (bits / 2) (every_second w skip (bit_of a.now)) (every_second w skip (bit_of b.now)) s }
{
    let first = second_fields(a[0], 0, skip, w);
    let second = second_fields(b[0], 0, skip, w);
    first | second << (bits / 2)
}

/// The same of all words. It isn't inlined, so that few bits take no time for many.
#[inline(never)]
fn uzp_words(a: &[u64; 4], b: &[u64; 4], skip: u32, w: u32, bits: u32) -> [u64; 4]
    requires field { IsField w }
    requires within { skip ≤ w }
    requires few { bits ≤ 256 }
    requires whole { bits % 16 ≡ 0 }
    requires first { (j : ℕ) → bits ≤ j → bit_of a.now j ≡ false }
    requires second { (j : ℕ) → bits ≤ j → bit_of b.now j ≡ false }
    ensures fields { (j : ℕ) → j < bits → bit_of result j
        ≡ joined (bits / 2) (every_second w skip (bit_of a.now)) (every_second w skip (bit_of b.now)) j }
    ensures above { (j : ℕ) → bits ≤ j → bit_of result j ≡ false }
{
    let low = every_second_field(a, skip, w);
    let high = every_second_field(b, skip, w);
    join(&low, &high, bits / 2)
}

/// The even fields of w bits of a word.
#[inline(always)]
fn even_fields(w: u32) -> u64
    requires { IsField w }
    ensures { (s : ℕ) → s < 64 → is_one result s ≡ nat_eq (s / w % 2) 0 }
{
    match w {
        8 => 0x00ff_00ff_00ff_00ff,
        4 => 0x0f0f_0f0f_0f0f_0f0f,
        2 => 0x3333_3333_3333_3333,
        _ => 0x5555_5555_5555_5555,
    }
}

/// Every second field of w bits of two words in turn, the first from bit `skip` on, which is 0 or w.
#[inline(always)]
fn transposed_word(a: u64, b: u64, skip: u32, w: u32) -> u64
    requires field { IsField w }
    requires within { skip ≤ w }
    ensures { (s : ℕ) → s < 64 → is_one result s ≡ transposed w skip (is_one a) (is_one b) s }
{
    let even = even_fields(w);
    even & (a >> skip) | (even & (b >> skip)) << w
}

/// Every second field of w bits of both in turn, the first from bit `skip` on, which is 0 or w.
pub fn trn(a: &[u64; 4], b: &[u64; 4], skip: u32, w: u32) -> [u64; 4]
    requires field { IsField w }
    requires within { skip ≤ w }
    ensures { (j : ℕ) → bit_of result j ≡ transposed w skip (bit_of a.now) (bit_of b.now) j }
{
    let w0 = transposed_word(a[0], b[0], skip, w);
    let w1 = transposed_word(a[1], b[1], skip, w);
    let w2 = transposed_word(a[2], b[2], skip, w);
    let w3 = transposed_word(a[3], b[3], skip, w);
    [w0, w1, w2, w3]
}

/// The fields of w bits in reverse order, of all bits.
#[inline(always)]
fn turned(a: &[u64; 4], w: u32) -> [u64; 4]
    requires { IsField w }
    ensures { (j : ℕ) → bit_of result j ≡ (nat_lt j 256 && reversed w 256 (bit_of a.now) j) }
{
    let w0 = backwards(a[3], w);
    let w1 = backwards(a[2], w);
    let w2 = backwards(a[1], w);
    let w3 = backwards(a[0], w);
    [w0, w1, w2, w3]
}

/// The fields of w bits in reverse order, of so many bits.
pub fn rev(a: &[u64; 4], w: u32, bits: u32) -> [u64; 4]
    requires field { IsField w }
    requires few { bits ≤ 256 }
    requires whole { bits % 16 ≡ 0 }
    ensures fields { (j : ℕ) → j < bits → bit_of result j ≡ reversed w bits (bit_of a.now) j }
    ensures above { (j : ℕ) → bits ≤ j → bit_of result j ≡ false }
{
    let turned = turned(a, w);
    let w0 = bits_from(&turned, 256 - bits);
    let w1 = bits_from(&turned, 320 - bits);
    let w2 = bits_from(&turned, 384 - bits);
    let w3 = bits_from(&turned, 448 - bits);
    [w0, w1, w2, w3]
}
