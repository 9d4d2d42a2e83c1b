//! Numbers and places, as lines show them.
ghost use Rattle.std.specs.Prelude.{◌≡◌, ◌++◌, codes, length, nat_eq, string_bytes, OnOk};
ghost use Rattle.std.specs.Fmt.{decimal};
ghost use Rattle.tool_texts.specs.Explanations.{
  then_count,
  then_hex,
  then_offset,
  then_place,
  then_short,
  then_steps,
  then_symbol,
  then_word,
  word_zeros,
};

use std::alloc::AllocError;
use std::fmt::Write;
use std::marker::Model;

/// A place in the program: an address, with the name of the symbol that reaches it, which is empty where there is none,
/// and the distance from the symbol's own address in bytes. Contracts see the bytes of the name.
#[derive(Drop)]
pub struct Place {
    address: u64,
    name: String,
    offset: u64,
}

impl Model for Place {
    ghost use Rattle.std.specs.Prelude.{string_bytes};
    ghost use Rattle.tool_texts.specs.Places.{SeenPlace};

    ghost Value = { SeenPlace };

    ghost view = { λ p. record { address = p.address; name = string_bytes p.name; offset = p.offset } };
}

impl Place {
    /// The place of an address, so far from the symbol of a name.
    pub fn new(address: u64, name: String, offset: u64) -> Place
        ensures { result ≡ record { address = address; name = string_bytes name; offset = offset } }
    {
        Place {
            address,
            name,
            offset,
        }
    }

    /// Its address.
    pub fn address(&self) -> u64
        ensures { result ≡ self.now.address }
    {
        self.address
    }

    /// Whether no symbol reaches it.
    fn is_nameless(&self) -> bool
        ensures { result ≡ nat_eq (length self.now.name) 0 }
    {
        self.name.is_empty()
    }
}

/// Appends a number in hexadecimal digits behind `0x`.
pub(crate) fn push_hex(text: &mut String, n: u64) -> Result<(), AllocError>
    ensures { OnOk result (string_bytes text.new ≡ then_hex (string_bytes text.old) n) }
{
    text.push_str("0x")?;
    write!(text, "{n:x}")
}

/// Appends a number in decimal digits.
fn push_decimal(text: &mut String, n: u64) -> Result<(), AllocError>
    ensures { OnOk result (string_bytes text.new ≡ string_bytes text.old ++ decimal n) }
{
    write!(text, "{n}")
}

/// Appends how many things there are, by the name of one: `96 bytes`, `1 byte`.
pub(crate) fn push_count(text: &mut String, count: u64, one: &str) -> Result<(), AllocError>
    ensures { OnOk result (string_bytes text.new ≡ then_count (string_bytes text.old) count one.now) }
{
    push_decimal(text, count)?;
    text.push_str(" ")?;
    text.push_str(one)?;
    if count == 1 {
        return Ok(());
    }
    text.push_str("s")
}

/// The zeros before the digits of a word, which has eight.
fn word_zeros(word: u32) -> &'static str
    ensures { result.now ≡ word_zeros word }
{
    if word < 0x10 {
        "0000000"
    } else if word < 0x100 {
        "000000"
    } else if word < 0x1000 {
        "00000"
    } else if word < 0x1_0000 {
        "0000"
    } else if word < 0x10_0000 {
        "000"
    } else if word < 0x100_0000 {
        "00"
    } else if word < 0x1000_0000 {
        "0"
    } else {
        ""
    }
}

/// Appends a word of 32 bits in eight hexadecimal digits behind `0x`.
pub(crate) fn push_word(text: &mut String, word: u32) -> Result<(), AllocError>
    ensures { OnOk result (string_bytes text.new ≡ then_word (string_bytes text.old) word) }
{
    text.push_str("0x")?;
    text.push_str(word_zeros(word))?;
    write!(text, "{word:x}")
}

/// Appends the distance from a symbol, as `+0x14`; nothing where it is 0.
fn push_offset(text: &mut String, offset: u64) -> Result<(), AllocError>
    ensures { OnOk result (string_bytes text.new ≡ then_offset (string_bytes text.old) offset) }
{
    if offset == 0 {
        return Ok(());
    }
    text.push_str("+")?;
    push_hex(text, offset)
}

/// Appends a symbol with the distance from it, as `dot_product+0x14`.
fn push_symbol(text: &mut String, place: &Place) -> Result<(), AllocError>
    ensures { OnOk result (string_bytes text.new ≡ then_symbol (string_bytes text.old) place.now) }
{
    text.push_str(place.name.as_str())?;
    push_offset(text, place.offset)
}

/// Appends a place, as `0x400184, dot_product+0x14`; without a symbol the address alone.
pub fn push_place(text: &mut String, place: &Place) -> Result<(), AllocError>
    ensures { OnOk result (string_bytes text.new ≡ then_place (string_bytes text.old) place.now) }
{
    push_hex(text, place.address)?;
    if place.is_nameless() {
        return Ok(());
    }
    text.push_str(", ")?;
    push_symbol(text, place)
}

/// Appends a place by its symbol, as `dot_product+0x14`; without one the address.
pub fn push_short(text: &mut String, place: &Place) -> Result<(), AllocError>
    ensures { OnOk result (string_bytes text.new ≡ then_short (string_bytes text.old) place.now) }
{
    if place.is_nameless() {
        push_hex(text, place.address)
    } else {
        push_symbol(text, place)
    }
}

/// Appends `, after 21 steps` and a newline.
pub(crate) fn push_steps(text: &mut String, steps: u64) -> Result<(), AllocError>
    ensures { OnOk result (string_bytes text.new ≡ then_steps (string_bytes text.old) steps) }
{
    text.push_str(", after ")?;
    push_count(text, steps, "step")?;
    text.push_str("\n")
}
