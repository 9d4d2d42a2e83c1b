//! Bits of a word that slots speak of: read, and told.
ghost use Rattle.std.specs.Prelude.{◌≡◌, ◌<◌, ◌≤◌, ◌^◌, true};
ghost use Rattle.emu_bits.specs.Rows.{width, ones_at};
ghost use Rattle.text_model.specs.Slots.{place_of, places, at_place, bits_in, joined};
ghost use Rattle.text_model.specs.Told.{Binding, parted, bound, all_bound};
ghost use Rattle.text_code.specs.Sound.{are_in_word, are_parts};
ghost use Rattle.text_code.specs.Tables.{built_of};

use emu_bits::{bits, put};
use text_model::{Bits, Parts};

/// How many bits these are.
pub fn width(b: Bits) -> u32
    requires { are_in_word b ≡ true }
    ensures value { result ≡ width (place_of b) }
    ensures small { result ≤ 32 }
{
    u32::from(b.high) - u32::from(b.low) + 1
}

/// The number that a word has at these bits.
pub fn number_at(b: Bits, word: u32) -> u32
    requires { are_in_word b ≡ true }
    ensures value { result ≡ at_place (place_of b) word }
    ensures small { result < 2 ^ width (place_of b) }
{
    bits(word, u32::from(b.high), u32::from(b.low))
}

/// The word with ones at these bits.
pub fn ones(b: Bits) -> u32
    requires { are_in_word b ≡ true }
    ensures { result ≡ ones_at (place_of b) }
{
    ((1u64 << (b.high + 1)) - (1u64 << b.low)) as u32
}

/// How many bits the parts of a number have.
pub fn width_of(parts: Parts) -> u32
    requires { are_parts parts ≡ true }
    ensures value { result ≡ bits_in (places parts) }
    ensures small { result ≤ 96 }
{
    match parts {
        Parts::Nowhere => 0,
        Parts::At(a) => width(a),
        Parts::Two(a, b) => width(a) + width(b),
        Parts::Three(a, b, c) => width(a) + width(b) + width(c),
    }
}

/// The number that a word has at its parts.
pub fn number_of(parts: Parts, word: u32) -> u64
    requires parts { are_parts parts ≡ true }
    requires narrow { bits_in (places parts) ≤ 32 }
    ensures value { result ≡ joined (places parts) word }
    ensures small { result < 2 ^ bits_in (places parts) }
{
    match parts {
        Parts::Nowhere => 0,
        Parts::At(a) => u64::from(number_at(a, word)),
        Parts::Two(a, b) => {
            u64::from(number_at(a, word)) * (1 << width(b)) + u64::from(number_at(b, word))
        }
        Parts::Three(a, b, c) => {
            let below = width(b) + width(c);
            let rest = u64::from(number_at(b, word)) * (1 << width(c))
                + u64::from(number_at(c, word));
            u64::from(number_at(a, word)) * (1 << below) + rest
        }
    }
}

/// A word that is being told, and the bits of it that have been.
#[derive(Clone, Copy)]
pub struct Built {
    pub mask: u32,
    pub word: u32,
}

impl Built {
    /// With a number told at these bits, unless they have been told before.
    pub fn with(self, b: Bits, value: u128) -> Self
        requires { are_in_word b ≡ true }
        ensures { built_of result ≡ bound (built_of self) (record { place = place_of b; value = value }) }
    {
        let ones = ones(b);
        if self.mask & ones != 0 {
            return self;
        }
        let number = (value % (1 << width(b))) as u32;
        Built {
            mask: self.mask | ones,
            word: put(self.word, number, u32::from(b.low)),
        }
    }

    /// With a number told at its parts.
    pub fn with_parts(self, parts: Parts, value: u128) -> Self
        requires { are_parts parts ≡ true }
        ensures { built_of result ≡ all_bound (built_of self) (parted (places parts) value) }
    {
        match parts {
            Parts::Nowhere => self,
            Parts::At(a) => self.with(a, value),
            Parts::Two(a, b) => self.with(a, value >> width(b)).with(b, value),
            Parts::Three(a, b, c) => self
                .with(a, value >> (width(b) + width(c)))
                .with(b, value >> width(c))
                .with(c, value),
        }
    }
}
