//! Bitmask immediates: their values, and the fields of a value.
ghost use Rattle.std.specs.Prelude.{◌≡◌, ℕ, ◌+◌, ◌-◌, ◌*◌, ◌/◌, ◌%◌, ◌^◌, ◌<◌, ◌≤◌, ◌⊎◌, IfSome, IfNone};
ghost use Rattle.emu_bits.specs.Fields.{bit};
ghost use Rattle.emu_bits.specs.Bitmask.{bitmask_of, element_log, has_no_value, rotated, repeated};
ghost use Rattle.emu_bits.specs.LeastFields.{GivesBitmask, IsLeastFields};
ghost use Rattle.emu_bits.specs.Search.{shrunk, run_start, run_length, guess_n, guess_immr, guess_imms, first_log};

use crate::numbers::power;

/// The value of the fields N, immr and imms of a bitmask immediate at a width of 32 or 64 bits, or none where they
/// have none.
pub fn bitmask(n: bool, immr: u32, imms: u32, width: u32) -> Option<u64>
    requires rotation { immr < 64 }
    requires size { imms < 64 }
    requires width { (width ≡ 32) ⊎ (width ≡ 64) }
    ensures { result ≡ bitmask_of width (bit n) immr imms }
{
    let log = element_log(n, imms)?;
    if is_refused(width, n, imms, log) {
        return None;
    }
    let size = element_size(log);
    let element = rotated(size, power(imms % size + 1) - 1, immr % size);
    Some(element * lowest_bits(log, width))
}

/// The fields N, immr and imms of a value's bitmask immediate at a width of 32 or 64 bits, with the least immr, or
/// none where no fields give the value.
pub fn bitmask_fields(value: u64, width: u32) -> Option<(bool, u32, u32)>
    requires { (width ≡ 32) ⊎ (width ≡ 64) }
    ensures fields { IfSome result (λ f. IsLeastFields width value (bit f.0) f.1 f.2) }
    ensures none { IfNone result ((n immr imms : ℕ) → GivesBitmask width value n immr imms → ⊥) }
{
    let (n, immr, imms) = candidate(value, width);
    if bitmask(n, immr, imms, width) == Some(value) {
        Some((n, immr, imms))
    } else {
        None
    }
}

/// The number of bits of an element, as a power of two: the highest set bit of N followed by NOT imms.
fn element_log(n: bool, imms: u32) -> Option<u32>
    requires { imms < 64 }
    ensures log { result ≡ element_log (bit n) imms }
    ensures small { IfSome result (λ h. h ≤ 5 + bit n) }
{
    let sizes = u32::from(n) * 64 + (63 - imms);
    if sizes == 0 {
        None
    } else {
        Some(31 - sizes.leading_zeros())
    }
}

/// Whether elements of 2^log bits have no bitmask.
fn is_refused(width: u32, n: bool, imms: u32, log: u32) -> bool
    requires { log ≤ 6 }
    ensures { result ≡ has_no_value width (bit n) imms log }
{
    log == 0 || width == 32 && n || imms % element_size(log) == element_size(log) - 1
}

/// The bits of an element.
fn element_size(log: u32) -> u32
    requires { log ≤ 6 }
    ensures value { result ≡ 2 ^ log }
    ensures some { 0 < result }
    ensures small { result ≤ 64 }
{
    1u32 << log
}

/// A number rotated right within some bits.
fn rotated(bits: u32, v: u64, places: u32) -> u64
    requires bits { bits ≤ 64 }
    requires within { v < 2 ^ bits }
    requires places { places < bits }
    ensures value { result ≡ rotated bits v places }
    ensures within { result < 2 ^ bits }
{
    if places == 0 {
        v
    } else {
        (v >> places) + (v % power(places) << (bits - places))
    }
}

/// The lowest bit of each element of 2^log bits, at a width of 32 or 64 bits.
fn lowest_bits(log: u32, width: u32) -> u64
    requires width { (width ≡ 32) ⊎ (width ≡ 64) }
    requires log { (1 ≤ log) × (log ≤ 6) }
    requires narrow { width ≡ 32 → log ≤ 5 }
    ensures { result ≡ repeated (2 ^ log) 1 (width / 2 ^ log) }
{
    let all = lowest_of_64(log);
    if width == 32 {
        all % 0x1_0000_0000
    } else {
        all
    }
}

/// The same at 64 bits.
fn lowest_of_64(log: u32) -> u64
    requires { (1 ≤ log) × (log ≤ 6) }
    ensures { result ≡ repeated (2 ^ log) 1 (64 / 2 ^ log) }
{
    match log {
        1 => 0x5555_5555_5555_5555,
        2 => 0x1111_1111_1111_1111,
        3 => 0x0101_0101_0101_0101,
        4 => 0x0001_0001_0001_0001,
        5 => 0x0000_0001_0000_0001,
        _ => 1,
    }
}

/// A part of a number that it repeats: 2^log bits.
#[derive(Clone, Copy)]
struct Element {
    log: u32,
    bits: u64,
}

/// The least element that a value repeats, of 2 bits or more.
fn least_element(value: u64, width: u32) -> Element
    requires { (width ≡ 32) ⊎ (width ≡ 64) }
    ensures log { result.log ≡ (shrunk (first_log width) value).log }
    ensures bits { result.bits ≡ (shrunk (first_log width) value).bits }
    ensures small { result.log ≤ 6 }
{
    let mut log = if width == 64 { 6 } else { 5 };
    let mut bits = value;
    while log > 1 {
        let half = element_size(log - 1);
        let low = bits % power(half);
        if bits >> half != low {
            break;
        }
        bits = low;
        log -= 1;
    }
    Element { log, bits }
}

/// The lowest run of ones in a number.
#[derive(Clone, Copy)]
struct Run {
    start: u32,
    length: u32,
}

/// Where it starts, and its length.
fn lowest_run(v: u64) -> Run
    ensures start { result.start ≡ run_start v }
    ensures length { result.length ≡ run_length v }
    ensures small { result.start < 64 }
    ensures short { result.length ≤ 64 }
{
    let start = v.trailing_zeros() % 64;
    Run {
        start,
        length: (v >> start).trailing_ones(),
    }
}

/// The only fields that can give a value.
fn candidate(value: u64, width: u32) -> (bool, u32, u32)
    requires { (width ≡ 32) ⊎ (width ≡ 64) }
    ensures n { bit result.0 ≡ guess_n (shrunk (first_log width) value) }
    ensures immr { result.1 ≡ guess_immr (shrunk (first_log width) value) }
    ensures imms { result.2 ≡ guess_imms (shrunk (first_log width) value) }
    ensures small { (result.1 < 64) × (result.2 < 64) }
{
    let element = least_element(value, width);
    let bits = element_size(element.log);
    let (immr, ones) = if element.bits % 2 == 0 {
        let run = lowest_run(element.bits);
        (bits.saturating_sub(run.start), run.length)
    } else {
        let run = lowest_run((u64::MAX >> (64 - bits)).saturating_sub(element.bits));
        (
            bits.saturating_sub(run.start + run.length),
            bits.saturating_sub(run.length),
        )
    };
    let imms = 64u32.saturating_sub(2 * bits) + ones.saturating_sub(1);
    (element.log == 6, immr % 64, imms % 64)
}
