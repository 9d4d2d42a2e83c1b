//! The order of lanes that are read as signed.
ghost use Rattle.std.specs.Prelude.{◌≡◌, ◌<◌, ◌^◌, int_lt};
ghost use Rattle.emu_bits.specs.Numbers.{signed};
ghost use Rattle.emu_model.specs.LaneSizes.{IsLaneSize};

use lane_pack::Lane;

/// Whether a lane of e bits is less than another, both read as signed.
#[inline(always)]
fn less(e: u32, a: u64, b: u64) -> bool
    requires size { IsLaneSize e }
    requires first { a < 2 ^ e }
    requires second { b < 2 ^ e }
    ensures { result ≡ int_lt (signed a e) (signed b e) }
{
    match e {
        8 => (a as u8).cast_signed() < (b as u8).cast_signed(),
        16 => (a as u16).cast_signed() < (b as u16).cast_signed(),
        32 => (a as u32).cast_signed() < (b as u32).cast_signed(),
        _ => a.cast_signed() < b.cast_signed(),
    }
}

/// Whether a lane is less than another, both read as signed.
#[inline(always)]
pub fn signed_less<T: Lane>(a: T, b: T) -> bool
    ensures { result ≡ int_lt (signed (T.number a) T.BITS) (signed (T.number b) T.BITS) }
{
    less(T::BITS, a.to_u64(), b.to_u64())
}
