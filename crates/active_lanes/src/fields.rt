//! The bits of a predicate that stand for a word of 64 bits.
ghost use Rattle.std.specs.Prelude.{◌≡◌, ◌≢◌, ◌≤◌, ◌<◌, ◌+◌, ◌*◌, ◌/◌, ◌%◌, ◌^◌, ℕ, true, false};
ghost use Rattle.emu_model.specs.LaneSizes.{IsLaneSize};
ghost use Rattle.sve_effects.specs.LaneLoop.{is_active};
ghost use Rattle.active_lanes.specs.Kept.{keeps};
ghost use Rattle.active_lanes.specs.Seen.{seen_end, unseen_bit};

use emu_bits::Pred;
use vec_regs::VecRegs;

/// How many whole words so many lanes make.
pub fn words_of_lanes(e: u32, lanes: u32) -> u32
    requires { IsLaneSize e }
    ensures { result ≡ lanes / (64 / e) }
{
    match e {
        8 => lanes / 8,
        16 => lanes / 4,
        32 => lanes / 2,
        _ => lanes,
    }
}

/// How many whole lanes so many bytes make.
fn lanes_of_bytes(e: u32, bytes: u32) -> u32
    requires { IsLaneSize e }
    ensures { result ≡ bytes / (e / 8) }
{
    match e {
        8 => bytes,
        16 => bytes / 2,
        32 => bytes / 4,
        _ => bytes / 8,
    }
}

/// The eight bits of a predicate that stand for word i of a register.
pub(crate) fn field(vec: &VecRegs, pg: Pred, i: u32) -> u64
    requires { i < vec.now.bits / 64 }
    // whatever the size of lanes
    ensures { (e t : ℕ) → IsLaneSize e → t < 8
        → keeps (e / 8) result t ≡ is_active e vec.now pg ((8 * i + t) / (e / 8)) }
{
    let _length = vec.length();
    let words = vec.p_words(pg);
    (words[i as usize / 8] >> (8 * (i % 8))) % 256
}

/// Whether all lanes of a word are on, where the bits are as `ptrue` and `whilelo` make them for lanes of this size or
/// of bytes.
pub(crate) fn is_whole(e: u32, field: u64) -> bool
    requires { IsLaneSize e }
    ensures { result ≡ true → (t : ℕ) → t < 8 → keeps (e / 8) field t ≡ true }
{
    match e {
        8 => field == 255,
        16 => field == 0x55 || field == 255,
        32 => field == 0x11 || field == 255,
        _ => field == 1 || field == 255,
    }
}

/// The bits of a predicate, of 64, that no lane looks at: those behind the lowest of each field.
#[inline(always)]
fn bits_between(e: u32) -> u64
    requires { IsLaneSize e }
    ensures { (b : ℕ) → b < 64 → result / 2 ^ b % 2 ≡ unseen_bit (e / 8) b }
{
    match e {
        8 => 0,
        16 => 0xaaaa_aaaa_aaaa_aaaa,
        32 => 0xeeee_eeee_eeee_eeee,
        _ => 0xfefe_fefe_fefe_fefe,
    }
}

/// How many bits are 1, before the lowest that is 0; 64 where none is.
#[inline(always)]
fn ones(bits: u64) -> u32
    ensures ones { (i : ℕ) → i < result → bits / 2 ^ i % 2 ≡ 1 }
    ensures few { result ≤ 64 }
    ensures next { result < 64 → bits / 2 ^ result % 2 ≡ 0 }
{
    bits.trailing_ones()
}

/// How many bits are 0, before the lowest that is 1; 64 where none is.
#[inline(always)]
fn zeros(bits: u64) -> u32
    ensures zeros { (i : ℕ) → i < result → bits / 2 ^ i % 2 ≡ 0 }
    ensures few { result ≤ 64 }
    ensures next { result < 64 → bits / 2 ^ result % 2 ≡ 1 }
{
    bits.trailing_zeros()
}

/// How many lanes from lane k on are active: all of at most so many whose bits stand in the same 64 bits of the
/// predicate as that of lane k, or those before the first that isn't.
#[inline(always)]
pub fn active_from(vec: &VecRegs, pg: Pred, e: u32, k: u32, most: u32) -> u32
    requires size { IsLaneSize e }
    requires lane { k < vec.now.bits / e }
    requires within { k + most ≤ vec.now.bits / e }
    ensures on { (i : ℕ) → k ≤ i → i < k + result → is_active e vec.now pg i ≡ true }
    ensures few { result ≤ most }
    ensures seen { k + result ≤ seen_end e k }
    ensures off { result < most → k + result < seen_end e k → is_active e vec.now pg (k + result) ≡ false }
{
    let _length = vec.length();
    let at = k * (e / 8);
    let words = vec.p_words(pg);
    let rest = words[at as usize / 64] >> (at % 64);
    let bytes = ones(rest | bits_between(e)).min(64 - at % 64);
    lanes_of_bytes(e, bytes).min(most)
}

/// How many lanes from lane k on, which isn't active, aren't: all of at most so many whose bits stand in the same 64
/// bits of the predicate as that of lane k, or those before the first that is.
pub fn idle_from(vec: &VecRegs, pg: Pred, e: u32, k: u32, most: u32) -> u32
    requires size { IsLaneSize e }
    requires some { 1 ≤ most }
    requires within { k + most ≤ vec.now.bits / e }
    requires off { is_active e vec.now pg k ≡ false }
    ensures off { (i : ℕ) → k ≤ i → i < k + result → is_active e vec.now pg i ≡ false }
    ensures some { 1 ≤ result }
    ensures few { result ≤ most }
    ensures seen { k + result ≤ seen_end e k }
    ensures on { result < most → k + result < seen_end e k → is_active e vec.now pg (k + result) ≡ true }
{
    let _length = vec.length();
    let at = k * (e / 8);
    let words = vec.p_words(pg);
    let rest = words[at as usize / 64] >> (at % 64);
    let bytes = zeros(rest & !bits_between(e)).min(64 - at % 64);
    lanes_of_bytes(e, bytes).min(most)
}

/// How many lanes from the first on are active, 64 bits of the predicate at a time. The size is a constant where it is
/// called.
#[inline(always)]
fn front_of_size(vec: &VecRegs, pg: Pred, e: u32) -> u32
    requires { IsLaneSize e }
    ensures on { (k : ℕ) → k < result → is_active e vec.now pg k ≡ true }
    ensures few { result ≤ vec.now.bits / e }
    ensures off { result < vec.now.bits / e → is_active e vec.now pg result ≡ false }
{
    let most = lanes_of_bytes(e, 64);
    let whole = vec.length().bits() / 512;
    for i in 0..whole {
        let d = active_from(vec, pg, e, i * most, most);
        if d < most {
            return i * most + d;
        }
    }
    let lanes = vec.length().bits() / e;
    let k = whole * most;
    if k == lanes {
        return k;
    }
    k + active_from(vec, pg, e, k, lanes - k)
}

/// Whether all lanes of a register of 2048 bits are active, by one look at the four words of the predicate. Of a
/// shorter register it says no.
#[inline(always)]
pub fn is_full(vec: &VecRegs, pg: Pred, e: u32) -> bool
    requires { IsLaneSize e }
    ensures { result ≡ true → (k : ℕ) → k < vec.now.bits / e → is_active e vec.now pg k ≡ true }
{
    let _length = vec.length();
    let words = vec.p_words(pg);
    let all = words[0] & words[1] & words[2] & words[3];
    (all | bits_between(e)) == u64::MAX
}

/// The size of lanes that have more than 32 bits, as a constant.
#[inline(always)]
pub fn largest(e: u32) -> u32
    requires size { IsLaneSize e }
    requires not_bytes { e ≢ 8 }
    requires not_halfwords { e ≢ 16 }
    requires not_words { e ≢ 32 }
    ensures { result ≡ e }
{
    64
}

/// How many lanes from the first on are active: all lanes, or those before the first that isn't.
pub fn front_lanes(vec: &VecRegs, pg: Pred, e: u32) -> u32
    requires { IsLaneSize e }
    ensures on { (k : ℕ) → k < result → is_active e vec.now pg k ≡ true }
    ensures few { result ≤ vec.now.bits / e }
    ensures off { result < vec.now.bits / e → is_active e vec.now pg result ≡ false }
{
    match e {
        8 => front_of_size(vec, pg, 8),
        16 => front_of_size(vec, pg, 16),
        32 => front_of_size(vec, pg, 32),
        _ => front_of_size(vec, pg, largest(e)),
    }
}
