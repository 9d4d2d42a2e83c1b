//! Words aimed at addresses.
ghost use Rattle.std.specs.Prelude.{◌≡◌, ◌<◌, ◌-◌, ◌%◌, ◌^◌, true, Some, bit_and};
ghost use Rattle.text_model.specs.Slots.{bits_in, places, target_address};
ghost use Rattle.text_model.specs.Aim.{reach_of, reach_bits, number_to, aimed};
ghost use Rattle.text_code.specs.Sound.{are_sound};
ghost use Rattle.text_code.specs.Aims.{reach_as, reach_told, is_sound_reach, are_sound_reaches};

use crate::bits::{Built, width_of};
use crate::choosing::ones_of;
use text_model::{Kind, Parts, Slot};

/// How a target is shown: the address `by` times the signed number at its parts, behind the instruction's, which is
/// rounded down to a multiple of `page`.
#[derive(Clone, Copy)]
pub struct Reach {
    pub by: u16,
    pub page: u16,
    pub parts: Parts,
}

/// How the target among some slots is shown, if there is one.
pub fn reach_of(slots: &[Slot]) -> Option<Reach>
    requires { are_sound slots.now ≡ true }
    ensures told { reach_told result ≡ reach_of slots.now }
    ensures sound { are_sound_reaches result ≡ true }
{
    match slots.split_first() {
        Some((slot, more)) => match slot.codec.kind {
            Kind::Target { by, page } => Some(Reach {
                by,
                page,
                parts: slot.codec.parts,
            }),
            _ => reach_of(more),
        },
        None => None,
    }
}

/// The address that an instruction at another is rounded down to.
fn base(page: u16, pc: u64) -> u64
    requires { 0 < page }
    ensures { result ≡ pc - pc % page }
{
    pc - pc % u64::from(page)
}

/// The address that the number v of a target reaches.
pub fn address(reach: Reach, v: u64, pc: u64) -> u64
    requires sound { is_sound_reach reach ≡ true }
    requires small { v < 2 ^ bits_in (places reach.parts) }
    ensures { result ≡ target_address reach.by reach.page (bits_in (places reach.parts)) v pc }
{
    let bits = width_of(reach.parts);
    let by = u64::from(reach.by);
    let base = base(reach.page, pc);
    if v < 1 << (bits - 1) {
        base.wrapping_add(by * v)
    } else {
        base.wrapping_sub(by * ((1 << bits) - v))
    }
}

/// The number of a target that reaches an address, if one does.
fn number_to(reach: Reach, pc: u64, target: u64) -> u64
    requires { is_sound_reach reach ≡ true }
    ensures number { result ≡ number_to (reach_as reach) pc target }
    ensures small { result < 2 ^ bits_in (places reach.parts) }
{
    let away = target.wrapping_sub(base(reach.page, pc));
    away / u64::from(reach.by) % (1 << width_of(reach.parts))
}

/// A word of which the bits of its target are 0, aimed at an address; none where its field can't reach it.
pub fn aimed(reach: Reach, word: u32, pc: u64, target: u64) -> Option<u32>
    requires { is_sound_reach reach ≡ true }
    ensures { result ≡ aimed (reach_told (Some reach)) word pc target }
{
    let v = number_to(reach, pc, target);
    if address(reach, v, pc) != target {
        return None;
    }
    let built = Built { mask: 0, word };
    Some(built.with_parts(reach.parts, u128::from(v)).word)
}

/// A word with the bits of its target 0.
pub fn unaimed(reach: Reach, word: u32) -> u32
    requires { is_sound_reach reach ≡ true }
    ensures { result ≡ bit_and word (2 ^ 32 - 1 - reach_bits (reach_told (Some reach))) }
{
    word & (u32::MAX - ones_of(reach.parts))
}
