//! Permutes by active lanes, and the first and the last of them.
ghost use Rattle.std.specs.Prelude.{◌≡◌, ◌<◌, ◌≤◌, ◌+◌, ◌*◌, ◌/◌, ℕ, IfSome, true, false};
ghost use Rattle.sve_effects.specs.LaneLoop.{is_active};
ghost use Rattle.sve_effects.specs.FirstLast.{first_where, last_where};
ghost use Rattle.sve_effects.specs.FirstLastLaws.{IsFirstWhere, IsLastWhere};
ghost use Rattle.sve_effects.specs.Permute as place;
ghost use Rattle.sve_effects.specs.Permute.{compact_place, splice_place, lane_by_last};
ghost use Rattle.sve_effects.specs.PermuteRows as model;
ghost use Rattle.emu_model.specs.LaneSizes.{IsLaneSize};

use crate::slices::{compacted_lanes, spliced_lanes};
use emu_bits::{Pred, Reg};
use vec_regs::VecRegs;

/// Writes the active lanes of zn to zd in order, and 0 behind them.
pub(crate) fn compacted(vec: &mut VecRegs, e: u32, pg: Pred, zn: Reg, zd: Reg)
    requires { IsLaneSize e }
    ensures { vec.new
        ≡ model.with_places e (compact_place (is_active e vec.old pg) (vec.old.bits / e)) zn zn 0 zd vec.old }
{
    match e {
        8 => compacted_lanes::<u8, 256>(vec, pg, zn, zd),
        16 => compacted_lanes::<u16, 128>(vec, pg, zn, zd),
        32 => compacted_lanes::<u32, 64>(vec, pg, zn, zd),
        _ => compacted_lanes::<u64, 32>(vec, pg, zn, zd),
    }
}

/// Writes the lanes of zdn from the first active one to the last, all between, then those of zm, to zdn.
#[tactic(auto, using(crate::proofs::CopiedLanes::spliced_is))]
pub(crate) fn spliced(vec: &mut VecRegs, e: u32, pg: Pred, zm: Reg, zdn: Reg)
    requires { IsLaneSize e }
    ensures { vec.new
        ≡ model.with_places e (splice_place (is_active e vec.old pg) (vec.old.bits / e)) zdn zm 0 zdn vec.old }
{
    let (from, count) = run_of(vec, e, pg);
    match e {
        8 => spliced_lanes::<u8, 256>(vec, from, count, zm, zdn),
        16 => spliced_lanes::<u16, 128>(vec, from, count, zm, zdn),
        32 => spliced_lanes::<u32, 64>(vec, from, count, zm, zdn),
        _ => spliced_lanes::<u64, 32>(vec, from, count, zm, zdn),
    }
}

/// The run of a splice by these active lanes: its first lane, and how many lanes it has.
fn run_of(vec: &VecRegs, e: u32, pg: Pred) -> (usize, usize)
    requires { IsLaneSize e }
    ensures within { result.0 + result.1 ≤ vec.now.bits / e }
    ensures places { (k : ℕ)
        → place.spliced result.0 result.1 k ≡ splice_place (is_active e vec.now pg) (vec.now.bits / e) k }
{
    match first_active(vec, e, pg) {
        Some(from) => match last_active(vec, e, pg) {
            Some(to) => (from as usize, to as usize + 1 - from as usize),
            None => (0, 0),
        },
        None => (0, 0),
    }
}

/// Whether no lane of word i of a register is active, by the eight bits of the predicate that stand for it.
#[inline(always)]
fn is_idle(vec: &VecRegs, pg: Pred, i: u32) -> bool
    requires { i < vec.now.bits / 64 }
    // whatever the size of lanes
    ensures { result ≡ true → (e j : ℕ) → IsLaneSize e → j < 64 / e
        → is_active e vec.now pg (i * (64 / e) + j) ≡ false }
{
    let _length = vec.length();
    let words = vec.p_words(pg);
    (words[i as usize / 8] >> (8 * (i % 8))) % 256 == 0
}

/// The first active lane of word i of a register, counted in the word.
fn first_in(vec: &VecRegs, e: u32, pg: Pred, i: u32) -> Option<u32>
    requires size { IsLaneSize e }
    requires within { i < vec.now.bits / 64 }
    ensures { IsFirstWhere (64 / e) (λ j. is_active e vec.now pg (i * (64 / e) + j)) result }
{
    let _length = vec.length();
    if is_idle(vec, pg, i) {
        return None;
    }
    let count = 64 / e;
    for j in 0..count {
        if vec.is_active(pg, e, i * count + j) {
            return Some(j);
        }
    }
    None
}

/// The last active lane of word i of a register, counted in the word.
fn last_in(vec: &VecRegs, e: u32, pg: Pred, i: u32) -> Option<u32>
    requires size { IsLaneSize e }
    requires within { i < vec.now.bits / 64 }
    ensures { IsLastWhere (64 / e) (λ j. is_active e vec.now pg (i * (64 / e) + j)) result }
{
    let _length = vec.length();
    if is_idle(vec, pg, i) {
        return None;
    }
    let count = 64 / e;
    for j in (0..count).rev() {
        if vec.is_active(pg, e, i * count + j) {
            return Some(j);
        }
    }
    None
}

/// The first active lane.
fn first_active(vec: &VecRegs, e: u32, pg: Pred) -> Option<u32>
    requires { IsLaneSize e }
    ensures value { result ≡ first_where (vec.now.bits / e) (is_active e vec.now pg) }
    ensures found { IsFirstWhere (vec.now.bits / e) (is_active e vec.now pg) result }
{
    let _length = vec.length();
    let count = 64 / e;
    for i in 0..vec.length().bits() / 64 {
        if let Some(j) = first_in(vec, e, pg, i) {
            return Some(i * count + j);
        }
    }
    None
}

/// The last active lane.
pub(crate) fn last_active(vec: &VecRegs, e: u32, pg: Pred) -> Option<u32>
    requires { IsLaneSize e }
    ensures value { result ≡ last_where (vec.now.bits / e) (is_active e vec.now pg) }
    ensures found { IsLastWhere (vec.now.bits / e) (is_active e vec.now pg) result }
{
    let _length = vec.length();
    let count = 64 / e;
    for i in (0..vec.length().bits() / 64).rev() {
        if let Some(j) = last_in(vec, e, pg, i) {
            return Some(i * count + j);
        }
    }
    None
}

/// The lane that the last active one of n names: the one after it where `after` is true, which is lane 0 after the last
/// lane of all or where none is active; else that one, or the last lane of all where none is active.
pub(crate) fn lane_by_last(after: bool, n: u32, last: Option<u32>) -> u32
    requires some { 0 < n }
    requires within { IfSome last (λ k. k < n) }
    ensures value { result ≡ lane_by_last after n last }
    ensures within { result < n }
{
    match last {
        Some(k) if !after => k,
        Some(k) if k + 1 < n => k + 1,
        None if !after => n - 1,
        _ => 0,
    }
}
