//! First, last and next lanes, the predicate test, loops and counts, by the words of predicates.
ghost use Rattle.std.specs.Prelude.{
  ◌≡◌,
  ◌<◌,
  ◌≤◌,
  ◌+◌,
  ◌-◌,
  ◌*◌,
  ◌/◌,
  ◌%◌,
  ◌^◌,
  ◌⊎◌,
  ℕ,
  suc,
  true,
  ◌&&◌,
  length,
  min,
  IfSome,
  nat_lt,
};
ghost use Rattle.emu_bits.specs.Flags.{size_of};
ghost use Rattle.lane_model.specs.Bits.{field_bit, active, lanes_of};
ghost use Rattle.lane_model.specs.Lists.{each};
ghost use Rattle.lane_model.specs.WordBits.{bit_of};
ghost use Rattle.lane_model.specs.FirstLast.{first_where, all_below};
ghost use Rattle.lane_model.specs.Predicate as model;
ghost use Rattle.lane_model.specs.Predicate.{only_next, while_lanes, while_holds, count_lanes};
ghost use Rattle.pred_bits.specs.LaneBits as lane_bits;
ghost use Rattle.pred_bits.specs.LaneBits.{among, rank};

use crate::pred_words::{
    behind, count_bits, first_alone, first_bit, last_bit, last_is_in, starts_below,
    starts_below_apart, starts_in_both, starts_in_first, test_words,
};
use crate::{PredBits, WhileTest};
use emu_bits::numbers::power;
use emu_bits::{Esize, Flags, low_bits};

/// The words of the lanes that are active and set, where the bits are whole fields: the lowest bit of such a lane's
/// field is 1, and all others are 0.
#[inline(always)]
fn whole_lane_words(g: &PredBits, a: &PredBits, e: Esize) -> [u64; 4]
    requires same { length a.now ≡ length g.now }
    requires whole { length g.now % (size_of e / 8) ≡ 0 }
    ensures { (b : ℕ) → bit_of result b ≡ field_bit (size_of e / 8) (among (lanes_of (size_of e) (length g.now))
        (λ k. active (size_of e) g.now k && active (size_of e) a.now k)) b }
{
    starts_in_both(&g.words, &a.words, e)
}

/// The same where the first word has all bits.
#[inline(always)]
fn first_lane_words(g: &PredBits, a: &PredBits, e: Esize) -> [u64; 4]
    requires same { length a.now ≡ length g.now }
    requires whole { length g.now % (size_of e / 8) ≡ 0 }
    requires few { length g.now ≤ 64 }
    ensures { (b : ℕ) → bit_of result b ≡ field_bit (size_of e / 8) (among (lanes_of (size_of e) (length g.now))
        (λ k. active (size_of e) g.now k && active (size_of e) a.now k)) b }
{
    starts_in_first(&g.words, &a.words, e)
}

/// The words of the lanes that are active and set: the lowest bit of such a lane's field is 1, and all others are 0.
#[inline(always)]
fn lane_words(g: &PredBits, a: &PredBits, e: Esize) -> [u64; 4]
    requires { length a.now ≡ length g.now }
    ensures { (b : ℕ) → bit_of result b ≡ field_bit (size_of e / 8) (among (lanes_of (size_of e) (length g.now))
        (λ k. active (size_of e) g.now k && active (size_of e) a.now k)) b }
{
    let words = starts_in_both(&g.words, &a.words, e);
    let rest = g.bits % (e.bits() / 8);
    if rest == 0 {
        words
    } else {
        // a part of a field at the end is no lane
        starts_in_both(&words, &starts_below_apart(g.bits - rest, e), e)
    }
}

/// The lane in whose field a place is.
#[inline(always)]
fn lane_at(place: Option<u32>, e: Esize) -> Option<u32>
    ensures { result ≡ lane_bits.lane_at (size_of e / 8) place }
{
    let width = e.bits() / 8;
    match place {
        Some(p) => Some(p / width),
        None => None,
    }
}

/// The first lane that is active and set.
#[inline(always)]
pub(crate) fn first_set(g: &PredBits, a: &PredBits, e: Esize) -> Option<u32>
    requires { length a.now ≡ length g.now }
    ensures value { result
        ≡ model.first_set (lanes_of (size_of e) (length g.now)) (active (size_of e) g.now)
        (active (size_of e) a.now) }
    ensures within { IfSome result (λ k. k < lanes_of (size_of e) (length g.now)) }
{
    let _bits = g.bits();
    lane_at(first_bit(&lane_words(g, a, e)), e)
}

/// The first active lane.
#[inline(always)]
pub(crate) fn first_lane(g: &PredBits, e: Esize) -> Option<u32>
    ensures value { result ≡ first_where (lanes_of (size_of e) (length g.now)) (active (size_of e) g.now) }
    ensures within { IfSome result (λ k. k < lanes_of (size_of e) (length g.now)) }
{
    first_set(g, g, e)
}

/// Whether the last active lane is set; false where none is active.
#[inline(always)]
pub(crate) fn last_is_set(g: &PredBits, a: &PredBits, e: Esize) -> bool
    requires { length a.now ≡ length g.now }
    ensures { result ≡ model.last_is_set (lanes_of (size_of e) (length g.now)) (active (size_of e) g.now)
        (active (size_of e) a.now) }
{
    let _bits = g.bits();
    let on = lane_words(g, g, e);
    let set = lane_words(g, a, e);
    last_is_in(&on, &set)
}

/// The flags of a predicate test: N whether the first active lane is set, Z whether no active lane is, C whether the
/// last active lane isn't, V clear.
#[inline(always)]
pub fn pred_test(g: &PredBits, a: &PredBits, e: Esize) -> Flags
    requires { length a.now ≡ length g.now }
    ensures { result ≡ model.pred_test (size_of e) (length g.now) g.now a.now }
{
    let _bits = g.bits();
    let on = lane_words(g, g, e);
    let set = starts_in_both(&on, &a.words, Esize::B);
    test_words(&on, &set)
}

/// The first active lane behind the last one that is set in `before`, alone, and the flags of its predicate test, by
/// the words of the lanes that are active and of those that are set.
#[inline(always)]
fn next_words(
    g: &PredBits,
    before: &PredBits,
    e: Esize,
    on: &[u64; 4],
    set: &[u64; 4],
) -> (PredBits, Flags)
    requires same { length before.now ≡ length g.now }
    requires on { (b : ℕ) → bit_of on.now b ≡ field_bit (size_of e / 8) (among (lanes_of (size_of e) (length g.now))
        (λ k. active (size_of e) g.now k && active (size_of e) g.now k)) b }
    requires set { (b : ℕ)
        → bit_of set.now b ≡ field_bit (size_of e / 8) (among (lanes_of (size_of e) (length before.now))
        (λ k. active (size_of e) before.now k && active (size_of e) before.now k)) b }
    ensures lane { result.0 ≡ only_next (size_of e) (length g.now) g.now before.now }
    ensures flags { result.1
        ≡ model.pred_test (size_of e) (length g.now) g.now (only_next (size_of e) (length g.now) g.now before.now) }
{
    let bits = g.bits();
    let rest = behind(on, last_bit(set));
    let alone = first_alone(&rest);
    (PredBits::of_words(bits, &alone), test_words(on, &alone))
}

/// The first active lane behind the last one that is set in `before`, alone (pnext).
#[inline(always)]
pub fn next(g: &PredBits, before: &PredBits, e: Esize) -> PredBits
    requires { length before.now ≡ length g.now }
    ensures { result ≡ only_next (size_of e) (length g.now) g.now before.now }
{
    let on = lane_words(g, g, e);
    let set = lane_words(before, before, e);
    let (lane, _flags) = next_words(g, before, e, &on, &set);
    lane
}

/// The lane as `next` has it, and the flags of its predicate test. The bits are whole fields.
#[inline(always)]
pub fn next_tested(g: &PredBits, before: &PredBits, e: Esize) -> (PredBits, Flags)
    requires same { length before.now ≡ length g.now }
    requires whole { length g.now % (size_of e / 8) ≡ 0 }
    ensures lane { result.0 ≡ only_next (size_of e) (length g.now) g.now before.now }
    ensures flags { result.1
        ≡ model.pred_test (size_of e) (length g.now) g.now (only_next (size_of e) (length g.now) g.now before.now) }
{
    if g.bits() <= 64 {
        let on = first_lane_words(g, g, e);
        let set = first_lane_words(before, before, e);
        next_words(g, before, e, &on, &set)
    } else {
        let on = whole_lane_words(g, g, e);
        let set = whole_lane_words(before, before, e);
        next_words(g, before, e, &on, &set)
    }
}

/// All lanes, of so many bits, at most 256, which are whole fields (ptrue).
#[inline(always)]
pub fn all_lanes(e: Esize, bits: u32) -> PredBits
    requires few { bits ≤ 256 }
    requires whole { bits % (size_of e / 8) ≡ 0 }
    ensures { result ≡ model.lanes_below (size_of e) bits (lanes_of (size_of e) bits) }
{
    PredBits::of_words(bits, &starts_below(bits, e))
}

/// The lanes below a number that is at most that of all lanes, of so many bits, at most 256. The bits are whole fields.
#[inline(always)]
pub fn first_lanes(count: u32, e: Esize, bits: u32) -> PredBits
    requires few { bits ≤ 256 }
    requires whole { bits % (size_of e / 8) ≡ 0 }
    requires lanes { count ≤ lanes_of (size_of e) bits }
    ensures { result ≡ model.lanes_below (size_of e) bits count }
{
    PredBits::of_words(bits, &starts_below(count * (e.bits() / 8), e))
}

/// The lanes below a number, of so many bits, at most 256 (ptrue). The bits are whole fields.
#[inline(always)]
pub fn lanes_below(count: u32, e: Esize, bits: u32) -> PredBits
    requires few { bits ≤ 256 }
    requires whole { bits % (size_of e / 8) ≡ 0 }
    ensures { result ≡ model.lanes_below (size_of e) bits count }
{
    let lanes = bits / (e.bits() / 8);
    first_lanes(count.min(lanes), e, bits)
}

/// Whether the condition of a loop holds of equal numbers too.
#[inline(always)]
fn is_inclusive(test: WhileTest) -> bool
    ensures { result ≡ lane_bits.is_inclusive test }
{
    match test {
        WhileTest::Lt | WhileTest::Lo => false,
        WhileTest::Le | WhileTest::Ls => true,
    }
}

/// What is added to numbers of so many bits, for their order as unsigned ones to be the order that the condition of a
/// loop tests.
#[inline(always)]
fn offset(test: WhileTest, width: u32) -> u64
    requires { (width ≡ 32) ⊎ (width ≡ 64) }
    ensures { result ≡ lane_bits.offset test width }
{
    match test {
        WhileTest::Lt | WhileTest::Le => power(width - 1),
        WhileTest::Lo | WhileTest::Ls => 0,
    }
}

/// The low `width` bits of a number, as an unsigned number by the order that the condition of a loop tests.
#[inline(always)]
fn rank(test: WhileTest, x: u64, width: u32) -> u64
    requires { (width ≡ 32) ⊎ (width ≡ 64) }
    ensures value { result ≡ rank test width x }
    ensures small { result < 2 ^ width }
{
    // apart, so that each is by a constant
    if width == 64 {
        low_bits(x.wrapping_add(offset(test, 64)), 64)
    } else {
        low_bits(x.wrapping_add(offset(test, 32)), 32)
    }
}

/// How many numbers from a on are below b, at most `lanes`.
#[inline(always)]
fn numbers_below(a: u64, b: u64, lanes: u32) -> u32
    ensures { result ≡ min (b - a) lanes }
{
    b.saturating_sub(a).min(lanes as u64) as u32
}

/// How many of the first lanes the condition of a loop holds of, up to all of them.
#[inline(always)]
fn while_count(test: WhileTest, from: u64, to: u64, width: u32, lanes: u32) -> u32
    requires { (width ≡ 32) ⊎ (width ≡ 64) }
    ensures value { (k : ℕ) → k < lanes
        → nat_lt k result ≡ all_below (suc k) (λ j. while_holds test width (from + j) to) }
    ensures within { result ≤ lanes }
{
    let a = rank(test, from, width);
    let b = rank(test, to, width);
    if !is_inclusive(test) {
        numbers_below(a, b, lanes)
    } else if b == low_bits(0xffff_ffff_ffff_ffff, width) {
        // the greatest number: no other is behind it
        lanes
    } else {
        numbers_below(a, b + 1, lanes)
    }
}

/// The lanes of a loop: a lane is set where the condition holds of `from`, `from` + 1 and so on up to the lane's
/// number, and of `to`, each modulo 2^width. The result has `bits` bits, at most 256, which are whole fields.
#[inline(always)]
pub fn while_bits(test: WhileTest, from: u64, to: u64, width: u32, e: Esize, bits: u32) -> PredBits
    requires width { (width ≡ 32) ⊎ (width ≡ 64) }
    requires few { bits ≤ 256 }
    requires whole { bits % (size_of e / 8) ≡ 0 }
    ensures { result ≡ while_lanes test width from to (size_of e) bits }
{
    let lanes = bits / (e.bits() / 8);
    first_lanes(while_count(test, from, to, width, lanes), e, bits)
}

/// The flags of a predicate test of so many lanes, all active, of which those below a number are set.
#[inline(always)]
fn flags_below(count: u32, lanes: u32) -> Flags
    requires { 0 < lanes }
    ensures { result ≡ model.test_flags lanes (λ k. true) (λ k. nat_lt k count) }
{
    Flags {
        n: count > 0,
        z: count == 0,
        c: count < lanes,
        v: false,
    }
}

/// The lanes of a loop as `while_bits` has them, and the flags of a predicate test of all of them. There is a lane.
#[inline(always)]
pub fn while_tested(
    test: WhileTest,
    from: u64,
    to: u64,
    width: u32,
    e: Esize,
    bits: u32,
) -> (PredBits, Flags)
    requires width { (width ≡ 32) ⊎ (width ≡ 64) }
    requires few { bits ≤ 256 }
    requires whole { bits % (size_of e / 8) ≡ 0 }
    requires some { 0 < lanes_of (size_of e) bits }
    ensures lanes { result.0 ≡ while_lanes test width from to (size_of e) bits }
    ensures flags { result.1 ≡ model.pred_test (size_of e) bits (each bits (λ k. true))
        (while_lanes test width from to (size_of e) bits) }
{
    let lanes = bits / (e.bits() / 8);
    let count = while_count(test, from, to, width, lanes);
    (first_lanes(count, e, bits), flags_below(count, lanes))
}

/// The flags of a predicate test of all lanes, the first of which has to be there.
#[inline(always)]
pub fn test_all(a: &PredBits, e: Esize) -> Flags
    requires { 0 < lanes_of (size_of e) (length a.now) }
    ensures { result ≡ model.pred_test (size_of e) (length a.now) (each (length a.now) (λ k. true)) a.now }
{
    Flags {
        n: a.lane(e, 0),
        z: first_set(a, a, e).is_none(),
        c: !a.lane(e, a.lanes(e) - 1),
        v: false,
    }
}

/// How many lanes are active and set (cntp).
#[inline(always)]
pub fn count(g: &PredBits, a: &PredBits, e: Esize) -> u32
    requires { length a.now ≡ length g.now }
    ensures value { result ≡ count_lanes (size_of e) (length g.now) g.now a.now }
    ensures few { result ≤ 256 }
{
    let _bits = g.bits();
    count_bits(&lane_words(g, a, e))
}
