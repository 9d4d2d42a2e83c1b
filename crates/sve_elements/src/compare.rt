//! Comparisons of two lanes.
ghost use Rattle.std.specs.Prelude.{◌≡◌};
ghost use Rattle.sve_effects.specs.Lane.{lane_test};
ghost use Rattle.emu_model.specs.LaneSizes.{IsLaneSize};

use emu_bits::sext;
use sve_effects::LaneTest;

/// The answer of a comparison: ge, gt, lt and le read the lanes as signed, hs, hi, lo and ls as unsigned.
pub fn test(test: LaneTest, e: u32, a: u64, b: u64) -> bool
    requires { IsLaneSize e }
    ensures { result ≡ lane_test test e a b }
{
    match test {
        LaneTest::Eq => a == b,
        LaneTest::Ne => a != b,
        LaneTest::Ge => sext(a, e) >= sext(b, e),
        LaneTest::Gt => sext(a, e) > sext(b, e),
        LaneTest::Lt => sext(a, e) < sext(b, e),
        LaneTest::Le => sext(a, e) <= sext(b, e),
        LaneTest::Hs => a >= b,
        LaneTest::Hi => a > b,
        LaneTest::Lo => a < b,
        LaneTest::Ls => a <= b,
    }
}
