//! The pattern that shows a word.
ghost use Rattle.std.specs.Prelude.{◌≡◌, ◌<◌, ◌^◌, Option, true, option_map, bit_or};
ghost use Rattle.emu_bits.specs.Rows.{ones_at};
ghost use Rattle.text_model.specs.Lists.{slots_of};
ghost use Rattle.text_model.specs.Slots.{place_of, places, all_fit, fits};
ghost use Rattle.text_model.specs.Text.{ones_of, slot_places, told_bits, shows, chosen};
ghost use Rattle.text_code.specs.Sound.{are_in_word, are_parts, is_sound, are_sound};
ghost use Rattle.text_code.specs.Tables.{pattern_of, patterns_of, pattern_at};
ghost use Rattle.text_code.specs.Reads.{all_sound};

use crate::bits::{number_of, ones};
use crate::groups::has_class;
use crate::kinds::can_show;
use crate::patterns::Pattern;
use text_model::slot_numbers::END;
use text_model::{Bits, Parts, Shape, Slot, slot};

/// Some ones, and ones at these bits.
fn with_ones(b: Bits, more: u32) -> u32
    requires { are_in_word b ≡ true }
    ensures { result ≡ bit_or (ones_at (place_of b)) more }
{
    ones(b) | more
}

/// The word with ones at a number's parts.
pub fn ones_of(parts: Parts) -> u32
    requires { are_parts parts ≡ true }
    ensures { result ≡ ones_of (places parts) }
{
    match parts {
        Parts::Nowhere => 0,
        Parts::At(a) => with_ones(a, 0),
        Parts::Two(a, b) => with_ones(a, with_ones(b, 0)),
        Parts::Three(a, b, c) => with_ones(a, with_ones(b, with_ones(c, 0))),
    }
}

/// The word with ones at the bits that a slot tells.
fn slot_bits(slot: Slot) -> u32
    requires { is_sound slot ≡ true }
    ensures { result ≡ ones_of (slot_places slot) }
{
    let bits = ones_of(slot.codec.parts);
    match slot.shape {
        Shape::Told(b, _) => with_ones(b, bits),
        _ => bits,
    }
}

/// The word with ones at the bits that the slots of these numbers tell.
fn told_bits(numbers: &[u8]) -> u32
    requires { are_sound (slots_of numbers.now) ≡ true }
    ensures { result ≡ told_bits (slots_of numbers.now) }
{
    match numbers.split_first() {
        Some((number, more)) if *number != END => slot_bits(slot(*number)) | told_bits(more),
        _ => 0,
    }
}

/// Whether a slot can show what a word has at its bits.
fn fits(slot: Slot, word: u32) -> bool
    requires { is_sound slot ≡ true }
    ensures { result ≡ fits slot word }
{
    has_class(slot.shape, word) && can_show(slot.codec.kind, number_of(slot.codec.parts, word))
}

/// Whether each of the slots of these numbers can show what a word has at its bits.
fn all_fit(numbers: &[u8], word: u32) -> bool
    requires { are_sound (slots_of numbers.now) ≡ true }
    ensures { result ≡ all_fit (slots_of numbers.now) word }
{
    match numbers.split_first() {
        Some((number, more)) if *number != END => {
            fits(slot(*number), word) && all_fit(more, word)
        }
        _ => true,
    }
}

/// Whether a pattern shows a word.
pub fn shows(pattern: &Pattern, word: u32) -> bool
    requires { are_sound (pattern_of pattern.now).slots ≡ true }
    ensures { result ≡ shows (pattern_of pattern.now) word }
{
    word & (u32::MAX - told_bits(&pattern.slots)) == pattern.base && all_fit(&pattern.slots, word)
}

/// The first of some patterns that shows a word.
pub fn chosen(patterns: &'static [Pattern], word: u32) -> Option<&'static Pattern>
    requires { all_sound (patterns_of patterns.now) ≡ true }
    ensures { pattern_at result ≡ chosen (patterns_of patterns.now) word }
{
    match patterns.split_first() {
        Some((pattern, more)) => {
            if shows(pattern, word) {
                Some(pattern)
            } else {
                chosen(more, word)
            }
        }
        None => None,
    }
}
