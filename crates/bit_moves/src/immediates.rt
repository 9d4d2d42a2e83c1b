//! The 64 bits that an immediate stands for.
ghost use Rattle.std.specs.Prelude.{◌≡◌, ◌<◌, ◌≤◌, ◌*◌, ◌/◌, ◌%◌, ◌^◌, true};
ghost use Rattle.emu_bits.specs.Bitmask.{repeated};
ghost use Rattle.a64_insn.specs.BitMoves.{move_imm_holds_for};
ghost use Rattle.a64_effects.specs.BitMoves as table;

use emu_bits::U;

/// The 64 bits of a byte, by op and cmode.
pub(crate) fn move_value(op: bool, cmode: U<4>, i: u32) -> u64
    requires byte { i < 256 }
    requires cmode { move_imm_holds_for cmode ≡ true }
    ensures { result ≡ table.move_value op cmode i }
{
    let x = placed(op, cmode, i);
    if op && cmode.get() < 14 { !x } else { x }
}

/// The byte, shifted in each part of the 64 bits, or spread.
#[tactic(auto, unfolding(a64_insn::specs::BitMoves::move_imm_holds_for))]
fn placed(op: bool, cmode: U<4>, i: u32) -> u64
    requires byte { i < 256 }
    requires cmode { move_imm_holds_for cmode ≡ true }
    ensures { result ≡ table.placed op cmode i }
{
    let i = u64::from(i);
    match cmode.get() {
        0 => twice(i),
        2 => twice(i * 0x100),
        4 => twice(i * 0x1_0000),
        6 => twice(i * 0x100_0000),
        8 => four_times(i),
        10 => four_times(i * 0x100),
        12 => twice(i * 0x100 + 0xFF),
        13 => twice(i * 0x1_0000 + 0xFFFF),
        14 if op => spread(i),
        14 => i * 0x0101_0101_0101_0101,
        _ => 0,
    }
}

/// 32 bits twice.
fn twice(x: u64) -> u64
    requires { x < 2 ^ 32 }
    ensures { result ≡ repeated 32 x 2 }
{
    x * 0x1_0000_0001
}

/// 16 bits four times.
fn four_times(x: u64) -> u64
    requires { x < 2 ^ 16 }
    ensures { result ≡ repeated 16 x 4 }
{
    x * 0x0001_0001_0001_0001
}

/// Each bit of a byte as a byte.
#[tactic(auto, unfolding(emu_bits::specs::Operations::number_of_bytes))]
fn spread(i: u64) -> u64
    requires { i < 256 }
    ensures { result ≡ table.spread i }
{
    let low = whole(i, 0) + whole(i, 1) * 0x100 + whole(i, 2) * 0x1_0000 + whole(i, 3) * 0x100_0000;
    let high = whole(i, 4)
        + whole(i, 5) * 0x100
        + whole(i, 6) * 0x1_0000
        + whole(i, 7) * 0x100_0000;
    low + high * 0x1_0000_0000
}

/// 255 where bit k is set, else 0.
fn whole(i: u64, k: u32) -> u64
    requires { k ≤ 7 }
    ensures value { result ≡ 255 * (i / 2 ^ k % 2) }
    ensures small { result < 256 }
{
    255 * ((i >> k) % 2)
}
