//! Logical operations, a word at a time, and breaks.
ghost use Rattle.std.specs.Prelude.{◌≡◌, ◌≤◌, ◌<◌, ℕ, true, nat_lt, length, IfSome};
ghost use Rattle.lane_model.specs.Lists.{each};
ghost use Rattle.lane_model.specs.Predicate as model;
ghost use Rattle.lane_model.specs.Predicate.{is_upto, broken, broken_pair, broken_next, with_first_active};

use crate::lanes::{first_lane, first_set, lanes_below, last_is_set};
use crate::{LogicOp, PredBits, pred_words};
use emu_bits::Esize;

/// A logical operation on each bit; but for sel, an inactive bit is 0.
#[inline(always)]
pub fn logic(op: LogicOp, g: &PredBits, a: &PredBits, b: &PredBits) -> PredBits
    requires first { length a.now ≡ length g.now }
    requires second { length b.now ≡ length g.now }
    ensures { result ≡ model.logic op (length g.now) g.now a.now b.now }
{
    let mut words = [0; 4];
    for i in 0..4 {
        words[i] = pred_words::logic(op, g.words[i], a.words[i], b.words[i]);
    }
    PredBits {
        words,
        bits: g.bits,
    }
}

/// The number of bits up to a place, which itself counts where `inclusive`; all where there is none.
#[inline(always)]
fn limit(inclusive: bool, place: Option<u32>, bits: u32) -> u32
    requires { IfSome place (λ k. k < bits) }
    ensures { (k : ℕ) → k < bits → nat_lt k result ≡ is_upto inclusive place k }
{
    match place {
        Some(k) => if inclusive { k + 1 } else { k },
        None => bits,
    }
}

/// The bits up to a place, which itself counts where `inclusive`; all where there is none.
#[inline(always)]
fn upto(inclusive: bool, place: Option<u32>, bits: u32) -> PredBits
    requires few { bits ≤ 256 }
    requires within { IfSome place (λ k. k < bits) }
    ensures { result ≡ each bits (is_upto inclusive place) }
{
    lanes_below(limit(inclusive, place, bits), Esize::B, bits)
}

/// So many bits, at most 256, all true.
#[inline(always)]
pub fn ones(bits: u32) -> PredBits
    requires { bits ≤ 256 }
    ensures { result ≡ each bits (λ k. true) }
{
    upto(false, None, bits)
}

/// The active bits up to the first of them that is 1 in `a`, which itself counts where `after` (brka), and does not
/// else (brkb). Inactive bits are those of `before` where `keep`, else 0.
#[inline(always)]
pub fn brk(after: bool, keep: bool, g: &PredBits, a: &PredBits, before: &PredBits) -> PredBits
    requires first { length a.now ≡ length g.now }
    requires second { length before.now ≡ length g.now }
    ensures { result ≡ broken after keep (length g.now) g.now a.now before.now }
{
    let part = upto(after, first_set(g, a, Esize::B), g.bits);
    if keep {
        logic(LogicOp::Sel, g, &part, before)
    } else {
        logic(LogicOp::And, g, &part, &part)
    }
}

/// The active bits up to the first of them that is 1 in `b`, as `brk`, where `a` is 1 at the last active bit (brkpa,
/// brkpb); else 0.
#[inline(always)]
pub fn brkp(after: bool, g: &PredBits, a: &PredBits, b: &PredBits) -> PredBits
    requires first { length a.now ≡ length g.now }
    requires second { length b.now ≡ length g.now }
    ensures { result ≡ broken_pair after (length g.now) g.now a.now b.now }
{
    if last_is_set(g, a, Esize::B) {
        brk(after, false, g, b, b)
    } else {
        PredBits::new(g.bits)
    }
}

/// The bits of `before` where `a` is 1 at the last active bit (brkn), else 0.
#[inline(always)]
pub fn brkn(g: &PredBits, a: &PredBits, before: &PredBits) -> PredBits
    requires first { length a.now ≡ length g.now }
    requires second { length before.now ≡ length g.now }
    ensures { result ≡ broken_next (length g.now) g.now a.now before.now }
{
    if last_is_set(g, a, Esize::B) {
        PredBits::of_words(before.bits, &before.words)
    } else {
        PredBits::new(g.bits)
    }
}

/// The bits of `before`, and the first active bit (pfirst).
#[inline(always)]
pub fn first(g: &PredBits, before: &PredBits) -> PredBits
    requires { length before.now ≡ length g.now }
    ensures { result ≡ with_first_active (length g.now) g.now before.now }
{
    let mut bits = PredBits::of_words(before.bits, &before.words);
    if let Some(k) = first_lane(g, Esize::B) {
        bits.set(k, true);
    }
    bits
}
