//! Permutes that take lanes of two sources in turn, and those that take every other lane of both.
ghost use Rattle.std.specs.Prelude.{◌≡◌, ◌≤◌, ◌%◌, ◌/◌, ◌+◌, ◌*◌, length};
ghost use Rattle.lane_model.specs.Fields.{bit};
ghost use Rattle.lane_model.specs.Permute.{by_parity, concatenated, zip_place, uzp_place, trn_place};
ghost use Rattle.lane_permute.specs.Slices.{IsPermuted, number_at};

use lane_pack::Lane;

/// Lanes of both sources in turn: of their low halves, or of their high halves where `second` is true (zip1, zip2).
#[inline(always)]
pub fn zip<T: Lane>(a: &[T], b: &[T], second: bool, out: &mut [T])
    requires even { length out.old % 2 ≡ 0 }
    requires first { length a.now ≡ length out.old }
    requires second { length b.now ≡ length out.old }
    ensures { IsPermuted T.number a.now b.now 0 (zip_place second (length out.old)) out.new }
{
    let half = out.len() / 2;
    if second {
        pairs_from(a, b, half, out);
    } else {
        pairs_from(a, b, 0, out);
    }
}

/// The even lanes of both sources one after the other, or the odd lanes where `second` is true (uzp1, uzp2).
#[inline(always)]
pub fn uzp<T: Lane>(a: &[T], b: &[T], second: bool, out: &mut [T])
    requires first { length a.now ≡ length out.old }
    requires second { length b.now ≡ length out.old }
    ensures { IsPermuted T.number a.now b.now 0 (uzp_place second (length out.old)) out.new }
{
    if second {
        every_other(a, b, 1, out);
    } else {
        every_other(a, b, 0, out);
    }
}

/// The even lanes of both sources in turn, or the odd lanes where `second` is true (trn1, trn2).
#[inline(always)]
pub fn trn<T: Lane>(a: &[T], b: &[T], second: bool, out: &mut [T])
    requires even { length out.old % 2 ≡ 0 }
    requires first { length a.now ≡ length out.old }
    requires second { length b.now ≡ length out.old }
    ensures { IsPermuted T.number a.now b.now 0 (trn_place second) out.new }
{
    if second {
        pairs_of_pairs(a, b, 1, out);
    } else {
        pairs_of_pairs(a, b, 0, out);
    }
}

/// Lanes of both sources in turn, from lane `start` of each on.
#[inline(always)]
fn pairs_from<T: Lane>(a: &[T], b: &[T], start: usize, out: &mut [T])
    requires even { length out.old % 2 ≡ 0 }
    requires half { start + length out.old / 2 ≤ length out.old }
    requires first { length a.now ≡ length out.old }
    requires second { length b.now ≡ length out.old }
    ensures { IsPermuted T.number a.now b.now 0 (λ k. by_parity k (start + k / 2)) out.new }
{
    for j in 0..out.len() / 2 {
        out[2 * j] = a[start + j];
        out[2 * j + 1] = b[start + j];
    }
}

/// The lower lane of each pair of both sources in turn, or the upper lane where `odd` is 1.
#[inline(always)]
fn pairs_of_pairs<T: Lane>(a: &[T], b: &[T], odd: usize, out: &mut [T])
    requires even { length out.old % 2 ≡ 0 }
    requires odd { odd ≤ 1 }
    requires first { length a.now ≡ length out.old }
    requires second { length b.now ≡ length out.old }
    ensures { IsPermuted T.number a.now b.now 0 (λ k. by_parity k (2 * (k / 2) + odd)) out.new }
{
    for j in 0..out.len() / 2 {
        out[2 * j] = a[2 * j + odd];
        out[2 * j + 1] = b[2 * j + odd];
    }
}

/// The even lanes of both sources one after the other, or the odd lanes where `odd` is 1: a cursor goes through the
/// first source, and then one through the second.
#[inline(always)]
fn every_other<T: Lane>(a: &[T], b: &[T], odd: usize, out: &mut [T])
    requires odd { odd ≤ 1 }
    requires first { length a.now ≡ length out.old }
    requires second { length b.now ≡ length out.old }
    ensures { IsPermuted T.number a.now b.now 0 (λ k. concatenated (length out.old) (2 * k + odd)) out.new }
{
    let n = out.len();
    let front = count_of(n, odd);
    for k in 0..front {
        out[k] = a[2 * k + odd];
    }
    for k in front..n {
        // 2k + odd is n or more
        out[k] = b[k - (n - k - odd)];
    }
}

/// How many of n lanes are even, or odd where `odd` is 1.
#[inline(always)]
fn count_of(n: usize, odd: usize) -> usize
    requires { odd ≤ 1 }
    ensures below { 2 * result + odd ≤ n + 1 }
    ensures above { n ≤ 2 * result + odd }
    ensures within { result ≤ n }
{
    if odd == 0 { n - n / 2 } else { n / 2 }
}
