//! The sizes of lanes.
ghost use Rattle.std.specs.Prelude.{◌≡◌};
ghost use Rattle.sve_effects.specs.LaneLoop as model;
ghost use Rattle.emu_model.specs.LaneSizes.{IsLaneSize};

use emu_bits::U;

/// The bits of the lanes of a size: 8 for 0, 16 for 1, 32 for 2, 64 for 3.
pub fn lane_bits(size: U<2>) -> u32
    ensures value { result ≡ model.lane_bits size }
    ensures size { IsLaneSize result }
{
    match size.get() {
        0 => 8,
        1 => 16,
        2 => 32,
        _ => 64,
    }
}
