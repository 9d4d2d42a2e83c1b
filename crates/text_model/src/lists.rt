//! The names of instructions and the slots of their texts, each in a list by its number. So the patterns of the tables
//! hold numbers in the place of pointers, and a program that has them starts without touching them.

ghost use Rattle.std.specs.Prelude.{◌≡◌, [], get_or};
ghost use Rattle.text_model.specs.Lists.{name_at, slot_at, texts_of};
ghost use Rattle.text_model.specs.declared.slot_list.TheConstants.{NONE};

use crate::Slot;
use crate::name_list::NAMES;
use crate::slot_list::{NONE, SLOTS};

/// The text at a place of a list; empty behind the last.
fn text_in(texts: &[&'static str], at: usize) -> &'static str
    ensures { result.now ≡ get_or (texts_of texts.now) at [] }
{
    if at < texts.len() { texts[at] } else { "" }
}

/// The slot at a place of a list; [`NONE`] behind the last.
fn slot_in(slots: &[Slot], at: usize) -> Slot
    ensures { result ≡ get_or slots.now at NONE }
{
    if at < slots.len() { slots[at] } else { NONE }
}

/// The name of this number; empty where there is none.
pub fn name(number: u16) -> &'static str
    ensures { result.now ≡ name_at number }
{
    text_in(&NAMES, usize::from(number))
}

/// The slot of this number; no item of a text where there is none.
pub fn slot(number: u8) -> Slot
    ensures { result ≡ slot_at number }
{
    slot_in(&SLOTS, usize::from(number))
}
