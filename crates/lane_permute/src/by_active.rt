//! Permutes by active lanes.
ghost use Rattle.std.specs.Prelude.{
  ◌≡◌,
  ◌<◌,
  ◌≤◌,
  ◌+◌,
  ℕ,
  length,
  slice_set,
  nat_lt,
  if◌then◌else◌,
  MatchOption,
  is_some,
};
ghost use Rattle.lane_model.specs.FirstLast.{first_where, last_where};
ghost use Rattle.lane_model.specs.FirstLastLaws.{IsFirstWhere, IsLastWhere};
ghost use Rattle.lane_model.specs.Permute as model;
ghost use Rattle.lane_model.specs.Permute.{active_lanes, compact_place, splice_place, last_lane};
ghost use Rattle.lane_model.specs.Bits.{is_set};
ghost use Rattle.lane_permute.specs.Slices.{HasLanes, IsPermuted, number_at};

use crate::by_number::zero;
use crate::runs::spliced;
use lane_pack::Lane;

/// The active lanes in order, and 0 behind them (compact). `mask` tells which lanes are active.
pub fn compact<T: Lane>(mask: &[bool], a: &[T], out: &mut [T])
    requires mask { length mask.now ≡ length out.old }
    requires first { length a.now ≡ length out.old }
    ensures { IsPermuted T.number a.now a.now 0 (compact_place (is_set mask.now) (length out.old)) out.new }
{
    let count = gather(mask, a, out);
    clear_from(count, out);
}

/// The lanes of `a` from the first active one to the last, all between, then the lanes of `b`, which stand alone where
/// no lane is active (splice). `mask` tells which lanes are active.
pub fn splice<T: Lane>(mask: &[bool], a: &[T], b: &[T], out: &mut [T])
    requires mask { length mask.now ≡ length out.old }
    requires first { length a.now ≡ length out.old }
    requires second { length b.now ≡ length out.old }
    ensures { IsPermuted T.number a.now b.now 0 (splice_place (is_set mask.now) (length out.old)) out.new }
{
    let (from, count) = run_of(mask);
    spliced(a, b, from, count, out);
}

/// The last active lane; or, where `after` is true, the lane after it, which is lane 0 after the last lane of all
/// (lastb, lasta). None exactly where no lane is active. `mask` tells which lanes are active.
pub fn last<T: Lane>(mask: &[bool], a: &[T], after: bool) -> Option<T>
    requires { length mask.now ≡ length a.now }
    ensures none { is_some result ≡ is_some (last_where (length a.now) (is_set mask.now)) }
    ensures lane { MatchOption result (Unit {0})
        (λ x. T.number x ≡ number_at T.number a.now (last_lane after (is_set mask.now) (length a.now))) }
{
    let k = last_active(mask)?;
    Some(a[if after { lane_after(k, a.len()) } else { k }])
}

/// The lane after lane k of n, which is lane 0 after the last one.
fn lane_after(k: usize, n: usize) -> usize
    requires { k < n }
    ensures value { result ≡ (if nat_lt (k + 1) n then k + 1 else 0) }
    ensures within { result < n }
{
    if k + 1 < n { k + 1 } else { 0 }
}

/// The active lanes in order, from lane 0 of `out` on, and how many they are.
fn gather<T: Lane>(mask: &[bool], a: &[T], out: &mut [T]) -> usize
    requires mask { length mask.now ≡ length out.old }
    requires first { length a.now ≡ length out.old }
    ensures count { result ≡ length (active_lanes (is_set mask.now) (length out.old)) }
    ensures lanes { HasLanes T.number a.now (active_lanes (is_set mask.now) (length out.old)) out.new }
{
    let mut count = 0;
    for k in 0..mask.len() {
        count = put_active(mask[k], a[k], count, out);
    }
    count
}

/// Writes lane `count` where it is active, and counts it.
#[inline(always)]
fn put_active<T: Lane>(is_active: bool, lane: T, count: usize, out: &mut [T]) -> usize
    requires { count < length out.old }
    ensures count { result ≡ (if is_active then count + 1 else count) }
    ensures lanes { out.new ≡ (if is_active then slice_set out.old count lane else out.old) }
{
    if is_active {
        out[count] = lane;
        count + 1
    } else {
        count
    }
}

/// Writes 0 to each lane from one on.
fn clear_from<T: Lane>(from: usize, out: &mut [T])
    ensures { (i : ℕ) → i < length out.old
        → number_at T.number out.new i ≡ (if nat_lt i from then number_at T.number out.old i else 0) }
{
    let zero = zero();
    for k in from..out.len() {
        out[k] = zero;
    }
}

/// The run of a splice by these active lanes: its first lane, and how many lanes it has.
fn run_of(mask: &[bool]) -> (usize, usize)
    ensures within { result.0 + result.1 ≤ length mask.now }
    ensures places { (k : ℕ)
        → model.spliced result.0 result.1 k ≡ splice_place (is_set mask.now) (length mask.now) k }
{
    match first_active(mask) {
        Some(from) => match last_active(mask) {
            Some(to) => (from, to + 1 - from),
            None => (0, 0),
        },
        None => (0, 0),
    }
}

/// The first active lane.
#[tactic(auto, using(lane_model::proofs::ActiveLanes::active_rules))]
fn first_active(mask: &[bool]) -> Option<usize>
    ensures value { result ≡ first_where (length mask.now) (is_set mask.now) }
    ensures found { IsFirstWhere (length mask.now) (is_set mask.now) result }
{
    let mut found = None;
    for k in 0..mask.len() {
        if found.is_none() && mask[k] {
            found = Some(k);
        }
    }
    found
}

/// The last active lane.
#[tactic(auto, using(lane_model::proofs::ActiveLanes::active_rules))]
fn last_active(mask: &[bool]) -> Option<usize>
    ensures value { result ≡ last_where (length mask.now) (is_set mask.now) }
    ensures found { IsLastWhere (length mask.now) (is_set mask.now) result }
{
    let mut found = None;
    for k in 0..mask.len() {
        if mask[k] {
            found = Some(k);
        }
    }
    found
}
