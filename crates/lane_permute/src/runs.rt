//! Permutes that keep runs of lanes together.
ghost use Rattle.std.specs.Prelude.{◌≡◌, ◌<◌, ◌≤◌, ◌+◌, ℕ, length};
ghost use Rattle.lane_model.specs.Permute.{taken, concatenated, ext_place, insr_place};
ghost use Rattle.lane_model.specs.Permute as model;
ghost use Rattle.lane_permute.specs.Slices.{IsPermuted, number_at};

use lane_pack::Lane;

/// The bytes from byte `from` on of both sources one after the other; from byte 0 where there is no such byte (ext).
pub fn ext(a: &[u8], b: &[u8], from: usize, out: &mut [u8])
    requires first { length a.now ≡ length out.old }
    requires second { length b.now ≡ length out.old }
    ensures { IsPermuted (λ x. x) a.now b.now 0 (ext_place from (length out.old)) out.new }
{
    let n = out.len();
    if from < n {
        spliced(a, b, from, n - from, out);
    } else {
        spliced(a, b, 0, n, out);
    }
}

/// So many lanes of `a` as `count` says, from lane `from` on, then the lanes of `b`.
pub fn spliced<T: Lane>(a: &[T], b: &[T], from: usize, count: usize, out: &mut [T])
    requires run { from + count ≤ length out.old }
    requires first { length a.now ≡ length out.old }
    requires second { length b.now ≡ length out.old }
    ensures { IsPermuted T.number a.now b.now 0 (model.spliced from count) out.new }
{
    let n = out.len();
    let (front, back) = out.split_at_mut(count);
    front.copy_from_slice(&a[from..from + count]);
    back.copy_from_slice(&b[..n - count]);
}

/// The lanes from lane `from` on of both sources one after the other: as many as each has, which are at most 16.
#[inline(always)]
pub fn window<T: Lane, const W: usize>(a: &[T; W], b: &[T; W], from: usize) -> [T; W]
    requires few { W ≤ 16 }
    requires within { from ≤ W }
    ensures { (k : ℕ) → k < W → number_at T.number result k
        ≡ taken (number_at T.number a.now) (number_at T.number b.now) 0 0 (concatenated W (from + k)) }
{
    let mut both = [T::from_u64(0); 32];
    let (first, rest) = both.split_at_mut(W);
    let (second, _above) = rest.split_at_mut(W);
    first.copy_from_slice(a);
    second.copy_from_slice(b);
    let all = &both[..];
    let mut out = *a;
    out.copy_from_slice(&all[from..from + W]);
    out
}

/// Lanes move up by one, and lane 0 is `low` (insr).
#[inline(always)]
pub fn insr<T: Lane>(a: &[T], low: T, out: &mut [T])
    requires { length a.now ≡ length out.old }
    ensures { IsPermuted T.number a.now a.now (T.number low) insr_place out.new }
{
    let n = out.len();
    if n == 0 {
        return;
    }
    let (front, back) = out.split_at_mut(1);
    front[0] = low;
    back.copy_from_slice(&a[..n - 1]);
}
