//! What a slot prints of a word.
ghost use Rattle.std.specs.Prelude.{◌≡◌, true};
ghost use Rattle.text_model.specs.Slots.{places, bits_in, joined};
ghost use Rattle.text_model.specs.Text.{printed, printed_item};
ghost use Rattle.text_code.specs.Sound.{is_sound};

use crate::aiming::{Reach, address};
use crate::bits::{number_of, width_of};
use crate::groups::class_in;
use crate::kinds::shown;
use text_model::{Item, Kind, Slot};

/// The value that a slot prints of a word that stands at pc: of a target its address.
fn printed(slot: Slot, word: u32, pc: u64) -> i128
    requires { is_sound slot ≡ true }
    ensures { result
        ≡ printed slot.codec.kind (bits_in (places slot.codec.parts)) (joined (places slot.codec.parts) word) pc }
{
    let parts = slot.codec.parts;
    let number = number_of(parts, word);
    match slot.codec.kind {
        Kind::Target { by, page } => i128::from(address(Reach { by, page, parts }, number, pc)),
        kind => shown(kind, width_of(parts), number),
    }
}

/// The item that a slot prints of a word that stands at pc: of a target its address.
pub fn printed_item(slot: Slot, word: u32, pc: u64) -> Item
    requires { is_sound slot ≡ true }
    ensures { result ≡ printed_item slot word pc }
{
    Item {
        class: class_in(slot.shape, word),
        value: printed(slot, word, pc),
    }
}
