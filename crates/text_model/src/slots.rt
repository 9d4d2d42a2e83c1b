//! The slots of a pattern: what each shows of a word, and how it is written.
use crate::classes::{Class, Group};

/// Bits of a word: the highest and the lowest place.
#[derive(Clone, Copy)]
pub struct Bits {
    pub high: u8,
    pub low: u8,
}

/// Bits of a word that one number is made of, the highest part first.
#[derive(Clone, Copy)]
pub enum Parts {
    Nowhere,
    At(Bits),
    Two(Bits, Bits),
    Three(Bits, Bits, Bits),
}

/// The class of what a slot shows.
#[derive(Clone, Copy)]
pub enum Shape {
    /// Always this one.
    Only(Class),
    /// The one of a group that these bits pick; reading it tells the bits.
    Told(Bits, Group),
    /// The one of a group that these bits pick, which another slot tells.
    Shown(Bits, Group),
}

/// The value of what a slot shows, by the number v that its bits are.
#[derive(Clone, Copy)]
pub enum Kind {
    /// Always this value.
    Fixed(u16),
    /// v: a register, or a word of a list.
    Plain,
    /// A register of which 31 is the stack pointer, value 32.
    Stack,
    /// The register so many places behind v, modulo 32.
    After(u8),
    /// v, where a count of this number has a name: up to 13, and from 29 on.
    NamedCount,
    /// The number v, where a count of this number has no name.
    UnnamedCount,
    /// The number by · (v + from).
    Scaled { by: u16, from: u8 },
    /// The number 2^b - v, where v has b bits.
    Falling,
    /// The number by · v, where v is signed.
    Signed(u16),
    /// The address by · v, signed, behind the instruction's, which is rounded down to a multiple of `page`.
    Target { by: u16, page: u16 },
    /// The bitmask of the fields N, immr and imms that v is, at a width of 32 or 64 bits.
    Bitmask(u8),
    /// The number whose byte k is 255 where bit k of v is 1, else 0.
    Spread,
    /// The amount of a left shift at a width of 32 or 64 bits, which the fields immr and imms that v is make.
    LeftShift(u8),
    /// The condition that holds where v doesn't.
    Inverted,
}

/// What a slot shows, and of which bits.
#[derive(Clone, Copy)]
pub struct Codec {
    pub kind: Kind,
    pub parts: Parts,
}

/// How an item is written.
#[derive(Clone, Copy)]
pub enum Style {
    /// A word or a mark.
    Word,
    /// `#5` or `#-5`.
    Counted,
    /// `5`.
    Bare,
    /// `#0x1f`. A negative number read here stands for itself plus 2 to the power of this width.
    Hexadecimal(u8),
    /// `0x1f`.
    Address,
}

/// Whether an item may be left out when it is read.
#[derive(Clone, Copy)]
pub enum Need {
    /// It may not.
    Must,
    /// It is the comma that begins a part which may be left out.
    Begins,
    /// It stands in such a part, and has this value where the part is left out.
    Inside(u16),
}

/// A slot: one item of a text.
#[derive(Clone, Copy)]
pub struct Slot {
    pub style: Style,
    pub shape: Shape,
    pub codec: Codec,
    pub need: Need,
}

impl Default for Slot {
    fn default() -> Self {
        Slot {
            style: Style::Word,
            shape: Shape::Only(Class::Unknown),
            codec: Codec {
                kind: Kind::Fixed(0),
                parts: Parts::Nowhere,
            },
            need: Need::Must,
        }
    }
}

/// An item of a statement: a number, or which one of its class a register, another word or a mark is.
#[derive(Clone, Copy)]
pub struct Item {
    pub class: Class,
    pub value: i128,
}

impl Default for Item {
    fn default() -> Self {
        Item {
            class: Class::Unknown,
            value: 0,
        }
    }
}

/// Why a statement isn't read. A later one tells more.
#[derive(Clone, Copy, PartialEq, Eq, Debug)]
pub enum Refusal {
    /// No pattern has the name.
    UnknownName,
    /// No pattern of the name has the shape.
    BadOperands,
    /// A pattern has the shape, but a number, a register or the line's condition doesn't fit.
    OutOfRange,
}
