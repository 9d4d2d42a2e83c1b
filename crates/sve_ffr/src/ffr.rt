//! What a load clears in FFR, and the lanes that it writes by it.
ghost use Rattle.std.specs.Prelude.{◌≡◌, ◌<◌, ◌/◌, ◌*◌, ℕ, ◌&&◌, Some, true, nat_lt, if◌then◌else◌, length};
ghost use Rattle.arrayvec.specs.ArrayVec.{array_vec_len};
ghost use Rattle.emu_model.specs.Lists.{each};
ghost use Rattle.emu_model.specs.Lanes.{with_ffr, with_lanes};
ghost use Rattle.emu_model.specs.LaneSizes.{IsLaneSize};
ghost use Rattle.sve_effects.specs.FirstFault as model;
ghost use Rattle.sve_effects.specs.FirstFault.{cleared_from};

use arrayvec::ArrayVec;
use emu_bits::Reg;
use vec_regs::VecRegs;

/// A bit before a limit, and else none.
fn bit_before(is_set: bool, j: u32, limit: u64) -> bool
    ensures { result ≡ (is_set && nat_lt j limit) }
{
    is_set && u64::from(j) < limit
}

/// Clears the bits of FFR from lane q of e bits on.
fn clear_from(vec: &mut VecRegs, e: u32, q: u32)
    requires { IsLaneSize e }
    ensures { vec.new ≡ with_ffr vec.old (cleared_from e (Some q) vec.old.ffr) }
{
    let _words = vec.ffr_words();
    let total = vec.length().bits() / 8;
    let limit = u64::from(q) * u64::from(e / 8);
    let mut flags: ArrayVec<bool, 256> = ArrayVec::new();
    for j in 0..total {
        flags.push(bit_before(vec.ffr_bit(j), j, limit));
    }
    vec.set_ffr_fields(8, &flags);
}

/// Clears the bits of FFR from a lane of e bits on, if there is one.
pub(crate) fn clear(vec: &mut VecRegs, e: u32, from: Option<u32>)
    requires { IsLaneSize e }
    ensures { vec.new ≡ with_ffr vec.old (cleared_from e from vec.old.ffr) }
{
    match from {
        Some(q) => clear_from(vec, e, q),
        None => {}
    }
}

/// The first lane of e bits whose lowest bit in FFR is 0.
pub(crate) fn first_cleared(vec: &VecRegs, e: u32) -> Option<u32>
    requires { IsLaneSize e }
    ensures { result ≡ model.first_cleared e vec.now.ffr (vec.now.bits / e) }
{
    let lanes = vec.length().bits() / e;
    for k in 0..lanes {
        if !vec.ffr_bit(k * (e / 8)) {
            return Some(k);
        }
    }
    None
}

/// Whether a lane comes before another, or that one isn't there.
fn is_before(end: Option<u32>, k: u32) -> bool
    ensures { result ≡ model.is_before end k }
{
    match end {
        None => true,
        Some(end) => k < end,
    }
}

/// The value of a lane before an end, and 0 from there on.
fn value_before(end: Option<u32>, k: u32, v: u64) -> u64
    ensures { result ≡ if model.is_before end k then v else 0 }
{
    if is_before(end, k) { v } else { 0 }
}

/// Writes the lanes before an end, and 0 from there on.
pub(crate) fn write(
    vec: &mut VecRegs,
    e: u32,
    zt: Reg,
    values: &ArrayVec<u64, 256>,
    end: Option<u32>,
)
    requires size { IsLaneSize e }
    requires count { array_vec_len values.now ≡ vec.old.bits / e }
    // whatever function gives the values, and whatever function is the same before the end
    ensures { (f h : ℕ → ℕ) → values.now.items ≡ each (vec.old.bits / e) f
        → ((k : ℕ) → model.is_before end k ≡ true → f k ≡ h k)
        → vec.new ≡ with_lanes e (λ k. if model.is_before end k then h k else 0) zt vec.old }
{
    let lanes = vec.length().bits() / e;
    let mut out: ArrayVec<u64, 256> = ArrayVec::new();
    for k in 0..lanes {
        out.push(value_before(end, k, values[k as usize]));
    }
    vec.set_lanes(e, zt, &out);
}
