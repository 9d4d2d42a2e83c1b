//! Predicates as four words: bits of words, and the first bit, the last bit and the number of bits that are 1.
ghost use Rattle.std.specs.Prelude.{
  ◌≡◌,
  ◌≢◌,
  ◌<◌,
  ◌≤◌,
  ◌+◌,
  ◌*◌,
  ◌/◌,
  ◌%◌,
  ◌&&◌,
  ℕ,
  nat_eq,
  nat_lt,
  length,
  get_or,
  bit_and,
  set,
  replicate,
  false,
  IfSome,
  if◌then◌else◌,
};
ghost use Rattle.std.specs.Int.{bit_at};
ghost use Rattle.emu_bits.specs.Flags.{size_of};
ghost use Rattle.lane_model.specs.WordBits.{bit_of};
ghost use Rattle.lane_model.specs.FirstLast.{first_where, last_where, count_where};
ghost use Rattle.lane_model.specs.FirstLastLaws.{answer_at};
ghost use Rattle.lane_model.specs.Predicate.{logic_bit, is_at, is_behind};
ghost use Rattle.pred_bits.specs.LaneBits.{places_tested};

use emu_bits::numbers::power;
use emu_bits::{Esize, Flags};
use lane_model::predicates::LogicOp;

/// A word with bit `at` written.
pub fn with_bit(word: u64, at: u32, v: bool) -> u64
    requires { at < 64 }
    ensures written { nat_eq (bit_at result at) 1 ≡ v }
    ensures others { (i : ℕ) → i < 64 → i ≢ at → bit_at result i ≡ bit_at word i }
{
    if v { word | 1 << at } else { word & !(1 << at) }
}

/// A logical operation on each bit of words.
#[inline(always)]
pub fn logic(op: LogicOp, g: u64, a: u64, b: u64) -> u64
    ensures { (i : ℕ) → i < 64 → nat_eq (bit_at result i) 1
        ≡ logic_bit op (nat_eq (bit_at g i) 1) (nat_eq (bit_at a i) 1) (nat_eq (bit_at b i) 1) }
{
    match op {
        LogicOp::And => g & (a & b),
        LogicOp::Bic => g & (a & !b),
        LogicOp::Eor => g & (a ^ b),
        LogicOp::Orr => g & (a | b),
        LogicOp::Orn => g & (a | !b),
        LogicOp::Nor => g & (!a & !b),
        LogicOp::Nand => g & (!a | !b),
        LogicOp::Sel => (g & a) | (!g & b),
    }
}

/// A word whose bit is 1 where the field of a lane begins.
#[inline(always)]
fn starts(e: Esize) -> u64
    ensures { (s : ℕ) → s < 64 → nat_eq (bit_at result s) 1 ≡ nat_eq (s % (size_of e / 8)) 0 }
{
    match e {
        Esize::B => 0xffff_ffff_ffff_ffff,
        Esize::H => 0x5555_5555_5555_5555,
        Esize::S => 0x1111_1111_1111_1111,
        Esize::D => 0x0101_0101_0101_0101,
    }
}

/// Four words: so many that are `whole`, then `part`, and zeros behind.
#[inline(always)]
fn run_of_words(count: u32, whole: u64, part: u64) -> [u64; 4]
    ensures words { (i : ℕ) → i < 4
        → get_or result i 0 ≡ (if nat_lt i count then whole else if nat_eq i count then part else 0) }
    ensures count { length result ≡ 4 }
{
    match count {
        0 => [part, 0, 0, 0],
        1 => [whole, part, 0, 0],
        2 => [whole, whole, part, 0],
        3 => [whole, whole, whole, part],
        _ => [whole, whole, whole, whole],
    }
}

/// The bits below a number at which the field of a lane begins.
#[inline(always)]
pub fn starts_below(n: u32, e: Esize) -> [u64; 4]
    requires { n ≤ 256 }
    ensures { (b : ℕ) → bit_of result b ≡ (nat_eq (b % (size_of e / 8)) 0 && nat_lt b n) }
{
    let starts = starts(e);
    if n < 64 {
        run_of_words(0, starts, starts & (power(n) - 1))
    } else if n < 256 {
        run_of_words(n / 64, starts, starts & (power(n % 64) - 1))
    } else {
        run_of_words(4, starts, 0)
    }
}

/// The same in code of its own, where it is seldom needed.
#[inline(never)]
pub fn starts_below_apart(n: u32, e: Esize) -> [u64; 4]
    requires { n ≤ 256 }
    ensures { (b : ℕ) → bit_of result b ≡ (nat_eq (b % (size_of e / 8)) 0 && nat_lt b n) }
{
    starts_below(n, e)
}

/// The bits at which the field of a lane begins, and which are 1 in both.
#[inline(always)]
pub fn starts_in_both(g: &[u64; 4], a: &[u64; 4], e: Esize) -> [u64; 4]
    ensures { (b : ℕ) → bit_of result b ≡ (nat_eq (b % (size_of e / 8)) 0 && (bit_of g.now b && bit_of a.now b)) }
{
    let starts = starts(e);
    let mut words = [0; 4];
    for i in 0..4 {
        words[i] = starts & (g[i] & a[i]);
    }
    words
}

/// The same where the words behind the first are 0.
#[inline(always)]
pub fn starts_in_first(g: &[u64; 4], a: &[u64; 4], e: Esize) -> [u64; 4]
    requires { (b : ℕ) → 64 ≤ b → bit_of g.now b ≡ false }
    ensures { (b : ℕ) → bit_of result b ≡ (nat_eq (b % (size_of e / 8)) 0 && (bit_of g.now b && bit_of a.now b)) }
{
    [starts(e) & (g[0] & a[0]), 0, 0, 0]
}

/// Words from one on: zeros below it, those of its bits that a mask has, and the words behind it.
#[inline(always)]
fn words_from(words: &[u64; 4], k: u32, mask: u64) -> [u64; 4]
    ensures words { (i : ℕ) → i < 4 → get_or result i 0
        ≡ (if nat_lt i k then 0
        else if nat_eq i k then bit_and (get_or words.now i 0) mask else get_or words.now i 0) }
    ensures count { length result ≡ 4 }
{
    match k {
        0 => [words[0] & mask, words[1], words[2], words[3]],
        1 => [0, words[1] & mask, words[2], words[3]],
        2 => [0, 0, words[2] & mask, words[3]],
        3 => [0, 0, 0, words[3] & mask],
        _ => [0, 0, 0, 0],
    }
}

/// The bits behind a place.
#[inline(always)]
fn behind_place(words: &[u64; 4], p: u32) -> [u64; 4]
    ensures { (b : ℕ) → bit_of result b ≡ (bit_of words.now b && nat_lt p b) }
{
    let upto = (power(p % 64) - 1) * 2 + 1;
    words_from(words, p / 64, !upto)
}

/// The bits behind a place; all where there is none.
#[inline(always)]
pub fn behind(words: &[u64; 4], place: Option<u32>) -> [u64; 4]
    ensures { (b : ℕ) → bit_of result b ≡ (bit_of words.now b && is_behind place b) }
{
    match place {
        Some(p) => behind_place(words, p),
        None => *words,
    }
}

/// One word among zeros.
#[inline(always)]
fn word_alone(i: u32, word: u64) -> [u64; 4]
    requires { i < 4 }
    ensures { result ≡ set (replicate 4 0) i word }
{
    match i {
        0 => [word, 0, 0, 0],
        1 => [0, word, 0, 0],
        2 => [0, 0, word, 0],
        _ => [0, 0, 0, word],
    }
}

/// The first bit that is 1, alone.
#[inline(always)]
pub fn first_alone(words: &[u64; 4]) -> [u64; 4]
    ensures { (b : ℕ) → bit_of result b ≡ is_at (first_where 256 (bit_of words.now)) b }
{
    for i in 0..4u32 {
        let word = words[i as usize];
        if word != 0 {
            let alone = with_bit(0, word.trailing_zeros(), true);
            return word_alone(i, alone);
        }
    }
    [0; 4]
}

/// The place of the first bit that is 1.
#[inline(always)]
pub fn first_bit(words: &[u64; 4]) -> Option<u32>
    ensures value { result ≡ first_where 256 (bit_of words.now) }
    ensures within { IfSome result (λ p. p < 256) }
{
    for i in 0..4u32 {
        let word = words[i as usize];
        if word != 0 {
            return Some(64 * i + word.trailing_zeros());
        }
    }
    None
}

/// The place of the last bit that is 1.
#[inline(always)]
pub fn last_bit(words: &[u64; 4]) -> Option<u32>
    ensures value { result ≡ last_where 256 (bit_of words.now) }
    ensures within { IfSome result (λ p. p < 256) }
{
    for i in (0..4u32).rev() {
        let word = words[i as usize];
        if word != 0 {
            return Some(64 * i + (63 - word.leading_zeros()));
        }
    }
    None
}

/// Whether the first bit that is 1 in `on` is 1 in `set` too; false where there is none.
#[inline(always)]
pub fn first_is_in(on: &[u64; 4], set: &[u64; 4]) -> bool
    ensures { result ≡ answer_at (first_where 256 (bit_of on.now)) (bit_of set.now) }
{
    for i in 0..4u32 {
        let word = on[i as usize];
        if word != 0 {
            return (set[i as usize] >> word.trailing_zeros()) % 2 == 1;
        }
    }
    false
}

/// Whether the last bit that is 1 in `on` is 1 in `set` too; false where there is none.
#[inline(always)]
pub fn last_is_in(on: &[u64; 4], set: &[u64; 4]) -> bool
    ensures { result ≡ answer_at (last_where 256 (bit_of on.now)) (bit_of set.now) }
{
    for i in (0..4u32).rev() {
        let word = on[i as usize];
        if word != 0 {
            return (set[i as usize] >> (63 - word.leading_zeros())) % 2 == 1;
        }
    }
    false
}

/// The flags of a test of places: N whether the first that is 1 in `on` is 1 in `set`, Z whether none is 1 in `set`, C
/// whether the last that is 1 in `on` isn't 1 in `set`, V clear.
#[inline(always)]
pub fn test_words(on: &[u64; 4], set: &[u64; 4]) -> Flags
    ensures { result ≡ places_tested (bit_of on.now) (bit_of set.now) }
{
    Flags {
        n: first_is_in(on, set),
        z: first_bit(set).is_none(),
        c: !last_is_in(on, set),
        v: false,
    }
}

/// How many bits are 1.
#[inline(always)]
pub fn count_bits(words: &[u64; 4]) -> u32
    ensures value { result ≡ count_where 256 (bit_of words.now) }
    ensures few { result ≤ 256 }
{
    let mut n = 0;
    for i in 0..4 {
        n += words[i].count_ones();
    }
    n
}
