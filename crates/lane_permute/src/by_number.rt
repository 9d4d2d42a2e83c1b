//! Lanes that another lane's number names, and lanes of half the size.
ghost use Rattle.std.specs.Prelude.{◌≡◌, ◌⊎◌, ◌<◌, ◌*◌, ◌%◌, ◌^◌, ℕ, length};
ghost use Rattle.lane_model.specs.Fields.{bit};
ghost use Rattle.lane_model.specs.Extended.{extended_by};
ghost use Rattle.lane_model.specs.Numbers.{sign_extended};
ghost use Rattle.lane_model.specs.Permute.{taken, indexed_place, half_place};
ghost use Rattle.lane_permute.specs.Slices.{IsPermuted, number_at};

use lane_pack::Lane;

/// The lanes of `a` that the lanes of `at` number, and 0 where there is none (tbl).
pub fn tbl<T: Lane>(a: &[T], at: &[T], out: &mut [T])
    requires first { length a.now ≡ length out.old }
    requires places { length at.now ≡ length out.old }
    ensures { IsPermuted T.number a.now a.now 0
        (λ k. indexed_place (number_at T.number at.now k) (length out.old)) out.new }
{
    chosen(a, at, out);
}

/// The same of any number of lanes.
#[inline(always)]
pub fn chosen<T: Lane>(a: &[T], at: &[T], out: &mut [T])
    requires { length at.now ≡ length out.old }
    ensures { IsPermuted T.number a.now a.now 0
        (λ k. indexed_place (number_at T.number at.now k) (length a.now)) out.new }
{
    let zero = zero();
    for k in 0..out.len() {
        out[k] = indexed(a, number_of(at, k), zero);
    }
}

/// Lanes of half the size, of the low half of `a`, or of its high half where `high` is true, extended by their sign or
/// by zeros (sunpklo, sunpkhi, uunpklo, uunpkhi).
pub fn widen<T: Lane, H: Lane>(a: &[H], high: bool, signed: bool, out: &mut [T])
    requires lanes { length a.now ≡ 2 * length out.old }
    requires bits { T.BITS ≡ 2 * H.BITS }
    ensures { (k : ℕ) → k < length out.old → number_at T.number out.new k ≡ extended_by signed T.BITS H.BITS
        (taken (number_at H.number a.now) (number_at H.number a.now) 0 0 (half_place high (length out.old) k)) }
{
    let n = out.len();
    let first = first_of_half(high, n);
    for k in 0..n {
        out[k] = wide::<T, H>(number_of(a, first + k), signed);
    }
}

/// The number of lane k.
#[inline(always)]
fn number_of<T: Lane>(lanes: &[T], k: usize) -> u64
    requires { k < length lanes.now }
    ensures value { result ≡ number_at T.number lanes.now k }
    ensures small { result < 2 ^ T.BITS }
{
    lanes[k].to_u64()
}

/// The first lane of a half of n lanes.
#[inline(always)]
fn first_of_half(high: bool, n: usize) -> usize
    ensures { result ≡ bit high * n }
{
    if high { n } else { 0 }
}

/// The lane 0.
#[inline(always)]
pub(crate) fn zero<T: Lane>() -> T
    ensures { T.number result ≡ 0 }
{
    T::from_u64(0)
}

/// Lane i, or another where there is none.
#[inline(always)]
fn indexed<T: Lane>(a: &[T], i: u64, none: T) -> T
    requires { T.number none ≡ 0 }
    ensures { T.number result
        ≡ taken (number_at T.number a.now) (number_at T.number a.now) 0 0 (indexed_place i (length a.now)) }
{
    if i < a.len() as u64 {
        a[i as usize]
    } else {
        none
    }
}

/// A number of half the bits, extended.
#[inline(always)]
fn wide<T: Lane, H: Lane>(x: u64, signed: bool) -> T
    requires small { x < 2 ^ H.BITS }
    requires bits { T.BITS ≡ 2 * H.BITS }
    ensures { T.number result ≡ extended_by signed T.BITS H.BITS x }
{
    T::from_u64(if signed { with_sign(x, H::BITS) } else { x })
}

/// A number of 8, 16 or 32 bits, with copies of its top bit above: at least as many of them as it has bits.
#[inline(always)]
fn with_sign(x: u64, bits: u32) -> u64
    requires size { (bits ≡ 8) ⊎ (bits ≡ 16) ⊎ (bits ≡ 32) }
    requires small { x < 2 ^ bits }
    ensures { result % 2 ^ (2 * bits) ≡ sign_extended (2 * bits) bits x }
{
    if x < 1 << (bits - 1) {
        x
    } else {
        x.wrapping_sub(1 << bits)
    }
}
