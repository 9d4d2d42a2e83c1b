//! Elements of memory as lanes.
ghost use Rattle.std.specs.Prelude.{◌≡◌, ◌≤◌, ◌*◌, if◌then◌else◌};
ghost use Rattle.emu_bits.specs.Numbers as numbers;

use emu_bits::sign_extended;

/// An element of n bytes, 1 to 8, extended to a lane of e bits by its sign or by zeros.
pub fn extended(is_signed: bool, e: u32, n: u32, v: u64) -> u64
    requires some { 1 ≤ n }
    requires most { n ≤ 8 }
    requires bits { e ≤ 64 }
    ensures { result ≡ (if is_signed then numbers.sign_extended e (8 * n) v else v) }
{
    if is_signed {
        sign_extended(v, 8 * n, e)
    } else {
        v
    }
}
