//! The items of a statement slot by slot, those that were left out put in.
ghost use Rattle.std.specs.Prelude.{◌≡◌, ◌≤◌, ℕ, true, false, length, option_map, MatchOption, List, ◌∷◌, []};
ghost use Rattle.text_model.specs.Slots.{items_in};
ghost use Rattle.text_model.specs.Reading.{is_left_out, raised, item_for, filled, same_classes};
ghost use Rattle.text_code.specs.Sound.{is_sound_style, is_sound, are_sound};
ghost use Rattle.text_code.specs.Filling.{first_of};

use crate::groups::{class_in, same_class};
use crate::kinds::natural;
use arrayvec::ArrayVec;
use text_model::{Class, Item, Need, Slot, Style};

/// No instruction's text has more items.
pub const MOST: usize = 24;

/// Whether a slot's item was left out, where the slot before it was or wasn't, and this item is next.
fn is_left_out(need: Need, out: bool, next: Option<Item>) -> bool
    ensures { result ≡ is_left_out need out (first_of next) }
{
    match need {
        Need::Must => false,
        Need::Begins => match next {
            Some(item) => !same_class(item.class, Class::Comma),
            None => true,
        },
        Need::Inside(_) => out,
    }
}

/// A slot's item where it was left out.
fn left_out(slot: Slot) -> Item
    requires { is_sound slot ≡ true }
    ensures { result ∷ [] ≡ item_for true slot [] }
{
    let value = match slot.need {
        Need::Inside(value) => i128::from(value),
        _ => 0,
    };
    Item {
        class: class_in(slot.shape, 0),
        value,
    }
}

/// An item, raised by a power of two where it is negative and read in hexadecimal.
fn raised(style: Style, item: Item) -> Item
    requires { is_sound_style style ≡ true }
    ensures { result ≡ raised style item }
{
    match style {
        Style::Hexadecimal(width) => {
            let size = item.value.unsigned_abs();
            if item.value < 0 && size <= 1 << (width - 1) {
                Item {
                    value: natural((1 << width) - size),
                    ..item
                }
            } else {
                item
            }
        }
        _ => item,
    }
}

/// The items of a statement, one for each slot, those that were left out put in; none where there are too few or too
/// many.
pub fn filled(slots: &[Slot], items: &[Item]) -> Option<ArrayVec<Item, MOST>>
    requires sound { are_sound slots.now ≡ true }
    requires few { length slots.now ≤ 24 }
    ensures { MatchOption result
        ((v : ℕ) → same_classes (items_in slots.now v) (filled false slots.now items.now) ≡ false)
        (λ r. r.items ≡ filled false slots.now items.now) }
{
    let (mut left, mut next) = (slots, items);
    let mut all = ArrayVec::new();
    let mut out = false;
    while let Some((slot, more)) = left.split_first() {
        out = is_left_out(slot.need, out, next.first().copied());
        if out {
            all.push(left_out(*slot));
        } else {
            let Some((item, rest)) = next.split_first() else {
                return None;
            };
            all.push(raised(slot.style, *item));
            next = rest;
        }
        left = more;
    }
    if next.is_empty() { Some(all) } else { None }
}
