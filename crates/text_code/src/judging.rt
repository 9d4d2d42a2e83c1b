//! What a pattern makes of a statement's items.
ghost use Rattle.std.specs.Prelude.{◌≡◌, ◌≤◌, ◌&&◌, [], true, length};
ghost use Rattle.text_model.specs.Slots.{items_in};
ghost use Rattle.text_model.specs.Told.{built, slot_tells, all_bound};
ghost use Rattle.text_model.specs.Reading.{is_target, has_target, same_classes};
ghost use Rattle.text_code.specs.Sound.{is_sound, are_sound};
ghost use Rattle.text_code.specs.Tables.{built_of};
ghost use Rattle.text_code.specs.Judging.{verdict, are_shown, is_shown, answer_to};

use crate::bits::{Built, number_of, width_of};
use crate::filling::filled;
use crate::groups::{class_in, has_class, place_in, same_class};
use crate::kinds::{can_show, is_canonical, shown, told};
use text_model::{Item, Kind, Refusal, Shape, Slot};

/// With what a slot's item tells.
fn told_by(built: Built, slot: Slot, item: Item) -> Built
    requires { is_sound slot ≡ true }
    ensures { built_of result ≡ all_bound (built_of built) (slot_tells slot item) }
{
    let built = match slot.shape {
        Shape::Told(b, group) => built.with(b, u128::from(place_in(group, item.class))),
        _ => built,
    };
    let parts = slot.codec.parts;
    built.with_parts(parts, told(slot.codec.kind, width_of(parts), item.value))
}

/// The word that the items of a statement tell.
fn word_told(base: u32, slots: &[Slot], items: &[Item]) -> u32
    requires { are_sound slots.now ≡ true }
    ensures { result ≡ (built (record { mask = 0; word = base }) slots.now items.now).word }
{
    let (mut left, mut next) = (slots, items);
    let mut built = Built {
        mask: 0,
        word: base,
    };
    while let Some((slot, more)) = left.split_first() {
        let Some((item, rest)) = next.split_first() else {
            return built.word;
        };
        built = told_by(built, *slot, *item);
        left = more;
        next = rest;
    }
    built.word
}

/// Whether an item's value is what a slot shows of a word, as it may be shown.
fn is_shown(slot: Slot, word: u32, value: i128) -> bool
    requires { is_sound slot ≡ true }
    ensures { result ≡ is_shown slot word value }
{
    let kind = slot.codec.kind;
    let bits = width_of(slot.codec.parts);
    let number = number_of(slot.codec.parts, word);
    shown(kind, bits, number) == value
        && has_class(slot.shape, word)
        && can_show(kind, number)
        && is_canonical(kind, bits, number)
}

/// Whether all is fine, and this value too is what a slot shows of a word.
fn still_fine(fine: bool, slot: Slot, word: u32, value: i128) -> bool
    requires { is_sound slot ≡ true }
    ensures { result ≡ (fine && is_shown slot word value) }
{
    fine && is_shown(slot, word, value)
}

/// Whether the items are those that the slots show of a word.
fn judged(slots: &[Slot], items: &[Item], word: u32) -> Result<(), Refusal>
    requires { are_sound slots.now ≡ true }
    ensures { result
        ≡ verdict (same_classes (items_in slots.now word) items.now) (are_shown slots.now items.now word) tt }
{
    let (mut left, mut next) = (slots, items);
    let mut fine = true;
    while let Some((slot, more)) = left.split_first() {
        let Some((item, rest)) = next.split_first() else {
            return Err(Refusal::BadOperands);
        };
        if !same_class(class_in(slot.shape, word), item.class) {
            return Err(Refusal::BadOperands);
        }
        fine = still_fine(fine, *slot, word, item.value);
        left = more;
        next = rest;
    }
    if !next.is_empty() {
        Err(Refusal::BadOperands)
    } else if fine {
        Ok(())
    } else {
        Err(Refusal::OutOfRange)
    }
}

/// Whether a slot of this kind shows a target.
fn is_target(kind: Kind) -> bool
    ensures { result ≡ is_target kind }
{
    matches!(kind, Kind::Target { .. })
}

/// Whether the last item of a pattern's text is a target.
pub fn has_target(slots: &[Slot]) -> bool
    ensures { result ≡ has_target slots.now }
{
    slots.iter().any(|slot| is_target(slot.codec.kind))
}

/// The word that a pattern of the name with this base and these slots reads in a statement's items, whatever the table
/// says of it.
pub fn answer(base: u32, slots: &[Slot], items: &[Item]) -> Result<u32, Refusal>
    requires sound { are_sound slots.now ≡ true }
    requires few { length slots.now ≤ 24 }
    ensures { result ≡ answer_to (record { name = []; base = base; slots = slots.now }) items.now }
{
    let Some(items) = filled(slots, items) else {
        return Err(Refusal::BadOperands);
    };
    let word = word_told(base, slots, &items);
    judged(slots, &items, word)?;
    Ok(word)
}
