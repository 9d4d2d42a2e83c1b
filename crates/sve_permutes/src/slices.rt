//! Registers as arrays of lanes, for the permutes that move runs of lanes, or gather active ones.
ghost use Rattle.std.specs.Prelude.{◌≡◌, ◌<◌, ◌≤◌, ◌+◌, ◌*◌, ◌/◌, ◌%◌, ◌^◌, ℕ, map, get_or, length, false};
ghost use Rattle.sve_effects.specs.LaneLoop.{lane_of, is_active};
ghost use Rattle.sve_effects.specs.Permute.{spliced, compact_place};
ghost use Rattle.sve_effects.specs.PermuteRows as model;
ghost use Rattle.emu_model.specs.Lanes.{with_lanes};
ghost use Rattle.emu_model.specs.LaneSizes.{IsLaneSize};

use emu_bits::{Pred, Reg};
use lane_pack::{Lane, pack, unpack};
use sve_insn::UnpackOp;
use vec_regs::VecRegs;

/// The lanes of a register, and zeros above: N of them have 2,048 bits.
#[inline(always)]
pub(crate) fn lanes_in<T: Lane, const N: usize>(vec: &VecRegs, r: Reg) -> [T; N]
    requires whole { N * T.BITS ≡ 2048 }
    requires few { N ≤ 256 }
    ensures lanes { (k : ℕ) → get_or (map T.number result) k 0 ≡ lane_of T.BITS vec.now r k % 2 ^ T.BITS }
    ensures count { length result ≡ N }

    // what is known of a register's lanes
    ensures above { (k : ℕ) → vec.now.bits / T.BITS ≤ k → lane_of T.BITS vec.now r k ≡ 0 }
    ensures small { (k : ℕ) → lane_of T.BITS vec.now r k % 2 ^ T.BITS ≡ lane_of T.BITS vec.now r k }
    ensures few { vec.now.bits / T.BITS ≤ N }
{
    let _length = vec.length();
    let mut lanes = [T::from_u64(0); N];
    unpack(vec.z_words(r), &mut lanes);
    lanes
}

/// Which lanes of e bits are active, and false above.
#[inline(always)]
fn flags_in<const N: usize>(vec: &VecRegs, e: u32, pg: Pred) -> [bool; N]
    requires size { IsLaneSize e }
    requires whole { N * e ≡ 2048 }
    requires few { N ≤ 256 }
    ensures flags { (k : ℕ) → get_or result k false ≡ is_active e vec.now pg k }
    ensures count { length result ≡ N }
    ensures above { (k : ℕ) → vec.now.bits / e ≤ k → is_active e vec.now pg k ≡ false }
{
    let _words = vec.p_words(pg);
    let mut flags = [false; N];
    for k in 0..vec.length().bits() / e {
        flags[k as usize] = vec.is_active(pg, e, k);
    }
    flags
}

/// Writes the lanes of a register.
#[inline(always)]
fn set_lanes<T: Lane>(vec: &mut VecRegs, zd: Reg, lanes: &[T])
    requires { length lanes.now ≡ vec.old.bits / T.BITS }
    // whatever function gives the lanes' numbers
    ensures { (f : ℕ → ℕ)
        → ((k : ℕ) → k < vec.old.bits / T.BITS → get_or (map T.number lanes.now) k 0 ≡ f k % 2 ^ T.BITS)
        → vec.new ≡ with_lanes T.BITS f zd vec.old }
{
    let _length = vec.length();
    let mut words = [0; 32];
    pack(lanes, &mut words);
    vec.set_z_words(zd, &words);
}

/// Writes a run of lanes of zdn, then those of zm, to zdn.
pub(crate) fn spliced_lanes<T: Lane, const N: usize>(
    vec: &mut VecRegs,
    from: usize,
    count: usize,
    zm: Reg,
    zdn: Reg,
)
    requires whole { N * T.BITS ≡ 2048 }
    requires few { N ≤ 256 }
    requires run { from + count ≤ vec.old.bits / T.BITS }
    ensures { vec.new ≡ model.with_places T.BITS (spliced from count) zdn zm 0 zdn vec.old }
{
    let n = (vec.length().bits() / T::BITS) as usize;
    let a: [T; N] = lanes_in(vec, zdn);
    let b: [T; N] = lanes_in(vec, zm);
    let mut out = a;
    let (front, _above) = out.split_at_mut(n);
    lane_permute::spliced(&a[..n], &b[..n], from, count, front);
    set_lanes(vec, zdn, front);
}

/// Writes the active lanes of zn to zd in order, and 0 behind them.
pub(crate) fn compacted_lanes<T: Lane, const N: usize>(
    vec: &mut VecRegs,
    pg: Pred,
    zn: Reg,
    zd: Reg,
)
    requires whole { N * T.BITS ≡ 2048 }
    requires few { N ≤ 256 }
    ensures { vec.new
        ≡ model.with_places T.BITS (compact_place (is_active T.BITS vec.old pg) (vec.old.bits / T.BITS)) zn zn 0 zd
        vec.old }
{
    let n = (vec.length().bits() / T::BITS) as usize;
    let mask: [bool; N] = flags_in(vec, T::BITS, pg);
    let a: [T; N] = lanes_in(vec, zn);
    let mut out = a;
    let (front, _above) = out.split_at_mut(n);
    lane_permute::compact(&mask[..n], &a[..n], front);
    set_lanes(vec, zd, front);
}

/// Writes lanes of half the size, of a half of zn, to zd, extended.
pub(crate) fn widened_lanes<T: Lane, H: Lane, const N: usize, const M: usize>(
    vec: &mut VecRegs,
    op: UnpackOp,
    zn: Reg,
    zd: Reg,
)
    requires bits { T.BITS ≡ 2 * H.BITS }
    requires whole { N * T.BITS ≡ 2048 }
    requires halves { M * H.BITS ≡ 2048 }
    requires few { M ≤ 256 }
    ensures { vec.new ≡ model.after_unpack op T.BITS zn zd vec.old }
{
    let n = (vec.length().bits() / T::BITS) as usize;
    let a: [H; M] = lanes_in(vec, zn);
    let mut out = [T::from_u64(0); N];
    let (front, _above) = out.split_at_mut(n);
    lane_permute::widen(&a[..2 * n], is_high(op), is_signed(op), front);
    set_lanes(vec, zd, front);
}

fn is_high(op: UnpackOp) -> bool
    ensures { result ≡ (model.unpacks op).0 }
{
    matches!(op, UnpackOp::Sunpkhi | UnpackOp::Uunpkhi)
}

fn is_signed(op: UnpackOp) -> bool
    ensures { result ≡ (model.unpacks op).1 }
{
    matches!(op, UnpackOp::Sunpklo | UnpackOp::Sunpkhi)
}
