//! The active lanes of a register where they come before all others.
ghost use Rattle.std.specs.Prelude.{◌≡◌, ◌≤◌, ◌<◌, ◌/◌, ℕ, None, IfSome, true, false};
ghost use Rattle.emu_model.specs.LaneSizes.{IsLaneSize};
ghost use Rattle.sve_effects.specs.LaneLoop.{is_active};
ghost use Rattle.contiguous_runs.specs.Leading.{AreLeading, HasActive, HasGap};

use active_lanes::{active_from, front_lanes, idle_from, is_full, largest};
use emu_bits::Pred;
use vec_regs::VecRegs;

/// How many lanes from the first on are active. Up to 512 bits one look at the predicate tells it, and at 2048 bits
/// where all are.
#[inline(always)]
fn front(vec: &VecRegs, pg: Pred, e: u32) -> u32
    requires { IsLaneSize e }
    ensures on { (k : ℕ) → k < result → is_active e vec.now pg k ≡ true }
    ensures few { result ≤ vec.now.bits / e }
    ensures off { result < vec.now.bits / e → is_active e vec.now pg result ≡ false }
{
    let bits = vec.length().bits();
    if bits <= 512 {
        active_from(vec, pg, e, 0, bits / e)
    } else if is_full(vec, pg, e) {
        bits / e
    } else {
        front_lanes(vec, pg, e)
    }
}

/// Whether no lane from lane k on, which may be the one behind the last, is active.
#[inline(never)]
fn are_idle(vec: &VecRegs, pg: Pred, e: u32, k: u32) -> bool
    requires size { IsLaneSize e }
    requires within { k ≤ vec.now.bits / e }
    ensures idle { result ≡ true → (i : ℕ) → k ≤ i → i < vec.now.bits / e → is_active e vec.now pg i ≡ false }
    ensures not { result ≡ false → HasActive k e pg vec.now }
{
    let lanes = vec.length().bits() / e;
    let mut at = k;
    while at < lanes {
        if vec.is_active(pg, e, at) {
            return false;
        }
        at += idle_from(vec, pg, e, at, lanes - at);
    }
    true
}

/// Whether no lane from lane k on, which isn't active, is. Up to 512 bits one look at the predicate tells it.
#[inline(always)]
fn is_rest_idle(vec: &VecRegs, pg: Pred, e: u32, k: u32) -> bool
    requires size { IsLaneSize e }
    requires within { k < vec.now.bits / e }
    requires off { is_active e vec.now pg k ≡ false }
    ensures idle { result ≡ true → (i : ℕ) → k ≤ i → i < vec.now.bits / e → is_active e vec.now pg i ≡ false }
    ensures not { result ≡ false → HasActive k e pg vec.now }
{
    let bits = vec.length().bits();
    let lanes = bits / e;
    let next = k + idle_from(vec, pg, e, k, lanes - k);
    if next < lanes {
        // up to 512 bits all lanes were seen, so that the next one is active
        if bits <= 512 {
            return false;
        }
        return are_idle(vec, pg, e, next);
    }
    true
}

/// How many lanes are active, where these come before all others. None where an active lane is behind one that isn't.
/// The size is a constant where it is called.
#[inline(always)]
fn leading(vec: &VecRegs, pg: Pred, e: u32) -> Option<u32>
    requires { IsLaneSize e }
    ensures few { IfSome result (λ n. n ≤ vec.now.bits / e) }
    ensures leading { IfSome result (λ n. AreLeading n e pg vec.now) }
    ensures gap { result ≡ None → HasGap e pg vec.now }
{
    let n = front(vec, pg, e);
    if n < vec.length().bits() / e && !is_rest_idle(vec, pg, e, n) {
        return None;
    }
    Some(n)
}

/// How many lanes are active, where these come before all others. None where an active lane is behind one that isn't.
#[inline(always)]
pub fn leading_lanes(vec: &VecRegs, pg: Pred, e: u32) -> Option<u32>
    requires { IsLaneSize e }
    ensures few { IfSome result (λ n. n ≤ vec.now.bits / e) }
    ensures leading { IfSome result (λ n. AreLeading n e pg vec.now) }
    ensures gap { result ≡ None → HasGap e pg vec.now }
{
    match e {
        8 => leading(vec, pg, 8),
        16 => leading(vec, pg, 16),
        32 => leading(vec, pg, 32),
        _ => leading(vec, pg, largest(e)),
    }
}
