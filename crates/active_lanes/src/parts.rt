//! Registers that are written 128 bits after 128 bits.
ghost use Rattle.std.specs.Prelude.{◌≡◌, ◌≤◌, ◌<◌, ◌+◌, ◌*◌, ◌/◌, ◌%◌, ◌^◌, ℕ, length, get_or, if◌then◌else◌};
ghost use Rattle.emu_model.specs.Lists.{each};
ghost use Rattle.emu_model.specs.Lanes.{with_z};
ghost use Rattle.emu_model.specs.LaneSizes.{IsLaneSize};
ghost use Rattle.vec_regs.specs.Words.{bytes_of};
ghost use Rattle.active_lanes.specs.Kept.{is_kept};

use crate::fields::field;
use crate::kept_words::kept_word;
use byteorder::{ByteOrder, LittleEndian};
use emu_bits::{Pred, Reg};
use vec_regs::VecRegs;

/// Writes the words of a register; those from bit VL on aren't looked at.
pub fn set_words(vec: &mut VecRegs, zd: Reg, words: &[u64; 32])
    ensures { vec.new ≡ with_z vec.old zd (bytes_of (vec.old.bits / 8) words.now) }
{
    let _length = vec.length();
    let _words = vec.z_words(zd);
    for i in 0..vec.length().bits() / 128 {
        let low = words[2 * i as usize];
        let high = words[2 * i as usize + 1];
        vec.set_z_pair(zd, i, [low, high]);
    }
}

/// Word i of a register that has bytes as they stand from a place on, and zeros in the lanes that aren't kept.
#[inline(always)]
fn copied_word(vec: &VecRegs, pg: Pred, e: u32, whole: u32, bytes: &[u8], at: usize, i: u32) -> u64
    requires size { IsLaneSize e }
    requires within { i < vec.now.bits / 64 }
    requires room { at + 8 * i + 8 ≤ length bytes.now }
    ensures { (t : ℕ) → t < 8 → result / 2 ^ (8 * t) % 256
        ≡ (if is_kept whole pg e vec.now ((8 * i + t) / (e / 8)) then get_or bytes.now (at + (8 * i + t)) 0 else 0) }
{
    let place = at + 8 * i as usize;
    let word = LittleEndian::read_u64(&bytes[place..place + 8]);
    if i < whole {
        return word;
    }
    kept_word(e, field(vec, pg, i), word)
}

/// Writes a register that has bytes as they stand from a place on, and zeros in the lanes that aren't kept.
pub fn set_copied(vec: &mut VecRegs, zd: Reg, e: u32, pg: Pred, whole: u32, bytes: &[u8], at: usize)
    requires size { IsLaneSize e }
    requires room { at + vec.old.bits / 8 ≤ length bytes.now }
    ensures { vec.new ≡ with_z vec.old zd (each (vec.old.bits / 8)
        (λ j. if is_kept whole pg e vec.old (j / (e / 8)) then get_or bytes.now (at + j) 0 else 0)) }
{
    let _length = vec.length();
    let _words = vec.z_words(zd);
    for i in 0..vec.length().bits() / 128 {
        let low = copied_word(vec, pg, e, whole, bytes, at, 2 * i);
        let high = copied_word(vec, pg, e, whole, bytes, at, 2 * i + 1);
        vec.set_z_pair(zd, i, [low, high]);
    }
}
