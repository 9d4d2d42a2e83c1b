//! What slots show of a number, and the number that an item tells.
ghost use Rattle.std.specs.Prelude.{◌≡◌, ◌<◌, ◌≤◌, ◌^◌, ◌||◌, ◌==◌, true, false, pos, neg_ℤ};
ghost use Rattle.text_model.specs.declared.slots.Kind.TheVariants.{Signed, LeftShift, Bitmask};
ghost use Rattle.text_model.specs.Masks.{bitmask_at, bitmask_fields as fields_of_bitmask};
ghost use Rattle.text_model.specs.Slots.{shown_number, spread, inverse, can_show, is_named};
ghost use Rattle.text_model.specs.Told.{told_of, told_number, gathered};
ghost use Rattle.text_model.specs.Reading.{is_canonical};
ghost use Rattle.text_code.specs.Sound.{is_sound_kind};

use emu_bits::{bitmask, bitmask_fields};
use text_model::Kind;

/// Bytes of 255 where the lowest k bits of a number are 1.
fn spread(k: u32, v: u64) -> u64
    requires { k ≤ 8 }
    ensures value { result ≡ spread k v }
    ensures small { result < 256 ^ k }
{
    if k == 0 {
        0
    } else {
        v % 2 * 255 + 256 * spread(k - 1, v / 2)
    }
}

/// The lowest bits of the lowest k bytes of a number.
fn gathered(k: u32, m: u128) -> u128
    requires { k ≤ 8 }
    ensures value { result ≡ gathered k m }
    ensures small { result < 2 ^ k }
{
    if k == 0 {
        0
    } else {
        m % 2 + 2 * gathered(k - 1, m / 256)
    }
}

/// The condition that holds where one doesn't.
fn inverse(c: u128) -> u128
    ensures { result ≡ inverse c }
{
    if c % 2 == 0 { c + 1 } else { c - 1 }
}

/// The bitmask of the fields N, immr and imms, which v is; none where they have none.
fn bitmask_at(width: u8, v: u64) -> Option<u64>
    requires width { (width == 32 || width == 64) ≡ true }
    requires small { v < 2 ^ 13 }
    ensures { result ≡ bitmask_at width v }
{
    bitmask(
        v / 4096 == 1,
        (v / 64 % 64) as u32,
        (v % 64) as u32,
        u32::from(width),
    )
}

/// The fields N, immr and imms of a bitmask; 0 where there are none.
fn fields_at(width: u8, m: u128) -> u128
    requires { (width == 32 || width == 64) ≡ true }
    ensures { result ≡ fields_of_bitmask width m }
{
    let Ok(value) = u64::try_from(m) else {
        return 0;
    };
    match bitmask_fields(value, u32::from(width)) {
        Some((n, immr, imms)) => u128::from(n) * 4096 + u128::from(immr) * 64 + u128::from(imms),
        None => 0,
    }
}

/// A number that isn't negative.
pub fn natural(n: u128) -> i128
    requires { n < 2 ^ 127 }
    ensures { result ≡ pos n }
{
    n as i128
}

/// The number of this size that isn't positive.
fn minus(n: u128) -> i128
    requires { n < 2 ^ 127 }
    ensures { result ≡ neg_ℤ (pos n) }
{
    -(n as i128)
}

/// A signed number of some bits, times another.
fn signed(bits: u32, v: u64, by: u16) -> i128
    requires some { 0 < bits }
    requires narrow { bits ≤ 32 }
    requires small { v < 2 ^ bits }
    ensures { result ≡ shown_number (Signed by) bits v }
{
    let by = u128::from(by);
    if v < 1 << (bits - 1) {
        natural(by * u128::from(v))
    } else {
        minus(by * u128::from((1 << bits) - v))
    }
}

/// What a slot shows of the number v, which has some bits: a number, or which one of its class a register or another
/// word is.
pub fn shown(kind: Kind, bits: u32, v: u64) -> i128
    requires sound { is_sound_kind kind bits ≡ true }
    requires narrow { bits ≤ 32 }
    requires small { v < 2 ^ bits }
    ensures { result ≡ shown_number kind bits v }
{
    let wide = u128::from(v);
    match kind {
        Kind::Fixed(x) => natural(u128::from(x)),
        Kind::Plain | Kind::NamedCount | Kind::UnnamedCount => natural(wide),
        Kind::Stack => natural(if v == 31 { 32 } else { wide }),
        Kind::After(k) => natural((wide + u128::from(k)) % 32),
        Kind::Scaled { by, from } => natural(u128::from(by) * (wide + u128::from(from))),
        Kind::Falling => natural((1 << bits) - wide),
        Kind::Signed(by) => signed(bits, v, by),
        Kind::Target { .. } => 0,
        Kind::Bitmask(width) => natural(u128::from(bitmask_at(width, v).unwrap_or(0))),
        Kind::Spread => natural(u128::from(spread(8, v))),
        Kind::LeftShift(width) => natural((u128::from(width) - 1).saturating_sub(wide % 64)),
        Kind::Inverted => natural(inverse(wide)),
    }
}

/// The number, of some bits, that is shown as a signed number times another.
fn signed_told(bits: u32, by: u16, negative: bool, size: u128) -> u128
    requires some { 0 < by }
    requires narrow { bits ≤ 32 }
    ensures { result ≡ told_of (Signed by) bits negative size }
{
    let quotient = size / u128::from(by);
    if negative {
        (1u128 << bits).saturating_sub(quotient)
    } else {
        quotient
    }
}

/// The fields immr and imms of a left shift by an amount.
fn left_shift_told(width: u8, amount: u128) -> u128
    requires { (width == 32 || width == 64) ≡ true }
    ensures { result ≡ told_of (LeftShift width) 12 false amount }
{
    let width = u128::from(width);
    width.saturating_sub(amount) % width * 64 + (width - 1).saturating_sub(amount)
}

/// The number, of some bits, that a slot shows as an integer of this size, if there is one.
fn told_of(kind: Kind, bits: u32, negative: bool, size: u128) -> u128
    requires sound { is_sound_kind kind bits ≡ true }
    requires narrow { bits ≤ 32 }
    ensures { result ≡ told_of kind bits negative size }
{
    match kind {
        Kind::Fixed(_) | Kind::Target { .. } => 0,
        Kind::Plain | Kind::NamedCount | Kind::UnnamedCount => size,
        Kind::Stack => if size == 32 { 31 } else { size },
        Kind::After(k) => (size % 32 + (32 - u128::from(k))) % 32,
        Kind::Scaled { by, from } => (size / u128::from(by)).saturating_sub(u128::from(from)),
        Kind::Falling => (1u128 << bits).saturating_sub(size),
        Kind::Signed(by) => signed_told(bits, by, negative, size),
        Kind::Bitmask(width) => fields_at(width, size),
        Kind::Spread => gathered(8, size),
        Kind::LeftShift(width) => left_shift_told(width, size),
        Kind::Inverted => inverse(size),
    }
}

/// The number, of some bits, that a slot shows as this integer, if there is one.
pub fn told(kind: Kind, bits: u32, value: i128) -> u128
    requires sound { is_sound_kind kind bits ≡ true }
    requires narrow { bits ≤ 32 }
    ensures { result ≡ told_number kind bits value }
{
    told_of(kind, bits, value < 0, value.unsigned_abs())
}

/// Whether a count has a name.
fn is_named(v: u64) -> bool
    ensures { result ≡ is_named v }
{
    v < 14 || 29 <= v
}

/// Whether a slot of this kind can show a number.
pub fn can_show(kind: Kind, v: u64) -> bool
    ensures { result ≡ can_show kind v }
{
    match kind {
        Kind::NamedCount => is_named(v),
        Kind::UnnamedCount => 13 < v && v < 29,
        _ => true,
    }
}

/// Whether fields give a bitmask, and their rotation is the least that gives it.
fn is_least(width: u8, v: u64) -> bool
    requires width { (width == 32 || width == 64) ≡ true }
    requires small { v < 2 ^ 13 }
    ensures { result ≡ is_canonical (Bitmask width) v }
{
    match bitmask_at(width, v) {
        Some(mask) => fields_at(width, u128::from(mask)) == u128::from(v),
        None => false,
    }
}

/// Whether a statement may stand for this number.
pub fn is_canonical(kind: Kind, bits: u32, v: u64) -> bool
    requires sound { is_sound_kind kind bits ≡ true }
    requires small { v < 2 ^ bits }
    ensures { result ≡ is_canonical kind v }
{
    match kind {
        Kind::Bitmask(width) => is_least(width, v),
        Kind::Inverted => v < 14,
        _ => true,
    }
}
