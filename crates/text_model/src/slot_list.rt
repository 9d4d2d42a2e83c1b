//! The slots by their numbers.
use crate::{Bits, Class, Codec, Group, Kind, Need, Parts, Shape, Slot, Style};

/// Bits of a word.
macro_rules! bits {
    ($high:literal, $low:literal) => {
        Bits { high: $high, low: $low }
    };
}

/// A number's bits in one piece.
macro_rules! at {
    ($high:literal, $low:literal) => {
        Parts::At(bits!($high, $low))
    };
}

/// A number's bits in two pieces, the higher ones first.
macro_rules! two {
    ($high:literal, $low:literal, $next_high:literal, $next_low:literal) => {
        Parts::Two(bits!($high, $low), bits!($next_high, $next_low))
    };
}

/// A slot.
macro_rules! slot {
    ($style:expr, $shape:expr, $kind:expr, $parts:expr, $need:expr) => {
        Slot { style: $style, shape: $shape, codec: Codec { kind: $kind, parts: $parts }, need: $need }
    };
}

/// A register or a word of a class.
macro_rules! of {
    ($class:ident, $kind:ident, $parts:expr) => {
        slot!(Style::Word, Shape::Only(Class::$class), Kind::$kind, $parts, Need::Must)
    };
}

/// A register or a word of the class that bits pick of a group.
macro_rules! told {
    ($high:literal, $low:literal, $group:ident, $kind:ident, $parts:expr) => {
        slot!(Style::Word, Shape::Told(bits!($high, $low), Group::$group), Kind::$kind, $parts, Need::Must)
    };
}

/// A mark, or the one word of a class.
macro_rules! mark {
    ($class:ident) => {
        mark!($class, Need::Must)
    };
    ($class:ident, $need:expr) => {
        slot!(Style::Word, Shape::Only(Class::$class), Kind::Fixed(0), Parts::Nowhere, $need)
    };
}

/// A number.
macro_rules! number {
    ($style:expr, $kind:expr, $parts:expr) => {
        number!($style, $kind, $parts, Need::Must)
    };
    ($style:expr, $kind:expr, $parts:expr, $need:expr) => {
        slot!($style, Shape::Only(Class::Number), $kind, $parts, $need)
    };
}

/// `#` and a number, so many times the bits.
macro_rules! counted {
    ($by:literal, $parts:expr) => {
        number!(Style::Counted, Kind::Scaled { by: $by, from: 0 }, $parts)
    };
}

/// An address, so many times the bits behind the instruction's, which is rounded down to a multiple.
macro_rules! target {
    ($by:literal, $page:literal, $parts:expr) => {
        number!(Style::Address, Kind::Target { by: $by, page: $page }, $parts)
    };
}

/// What stands behind the last slot of a pattern: no item of a text.
pub(crate) const NONE: Slot = mark!(Unknown);

/// The slots in the order of their numbers.
pub(crate) const SLOTS: [Slot; 230] = [
    NONE,
    // marks, and words that are always the same
    mark!(Comma),
    mark!(OpenBracket),
    mark!(CloseBracket),
    mark!(Comma, Need::Begins),
    mark!(Slash),
    mark!(Zeroing),
    mark!(Merging),
    mark!(OpenBrace),
    mark!(CloseBrace),
    mark!(Exclamation),
    mark!(Shift),
    mark!(ShiftOnes),
    mark!(Times),
    slot!(
        Style::Word,
        Shape::Only(Class::ExtendDoubleword),
        Kind::Fixed(1),
        Parts::Nowhere,
        Need::Must
    ),
    mark!(TpidrEl0),
    mark!(Nzcv),
    mark!(DczidEl0),
    mark!(Comma, Need::Inside(0)),
    mark!(Shift, Need::Inside(0)),
    mark!(Times, Need::Inside(0)),
    mark!(VectorLength, Need::Inside(0)),
    slot!(
        Style::Word,
        Shape::Only(Class::Shift),
        Kind::Plain,
        at!(23, 22),
        Need::Inside(0)
    ),
    // general registers
    told!(31, 31, General, Plain, at!(4, 0)),
    told!(31, 31, General, Stack, at!(4, 0)),
    told!(31, 31, General, Plain, at!(9, 5)),
    told!(31, 31, General, Stack, at!(9, 5)),
    told!(31, 31, General, Plain, at!(20, 16)),
    told!(31, 31, General, Plain, at!(14, 10)),
    told!(30, 30, General, Plain, at!(4, 0)),
    told!(22, 22, GeneralReversed, Plain, at!(4, 0)),
    told!(12, 12, General, Plain, at!(9, 5)),
    told!(12, 12, General, Plain, at!(20, 16)),
    told!(22, 22, General, Plain, at!(9, 5)),
    told!(22, 22, General, Plain, at!(20, 16)),
    slot!(
        Style::Word,
        Shape::Shown(bits!(23, 22), Group::GeneralOfLane),
        Kind::Plain,
        at!(4, 0),
        Need::Must
    ),
    slot!(
        Style::Word,
        Shape::Shown(bits!(23, 22), Group::GeneralOfLane),
        Kind::Plain,
        at!(9, 5),
        Need::Must
    ),
    slot!(
        Style::Word,
        Shape::Shown(bits!(23, 22), Group::GeneralOfLane),
        Kind::Stack,
        at!(9, 5),
        Need::Must
    ),
    slot!(
        Style::Word,
        Shape::Shown(bits!(23, 22), Group::GeneralOfLane),
        Kind::Plain,
        at!(20, 16),
        Need::Must
    ),
    of!(W, Plain, at!(4, 0)),
    of!(W, Stack, at!(4, 0)),
    of!(W, Plain, at!(9, 5)),
    of!(W, Stack, at!(9, 5)),
    of!(W, Plain, at!(20, 16)),
    of!(W, Plain, at!(14, 10)),
    of!(X, Plain, at!(4, 0)),
    of!(X, Stack, at!(4, 0)),
    of!(X, Plain, at!(9, 5)),
    of!(X, Stack, at!(9, 5)),
    of!(X, Plain, at!(20, 16)),
    of!(X, Stack, at!(20, 16)),
    of!(X, Plain, at!(14, 10)),
    // scalar and vector registers of A64
    of!(B, Plain, at!(4, 0)),
    of!(H, Plain, at!(4, 0)),
    of!(S, Plain, at!(4, 0)),
    of!(D, Plain, at!(4, 0)),
    of!(Q, Plain, at!(4, 0)),
    of!(S, Plain, at!(9, 5)),
    of!(D, Plain, at!(9, 5)),
    of!(S, Plain, at!(14, 10)),
    of!(D, Plain, at!(14, 10)),
    of!(Q, Plain, at!(14, 10)),
    slot!(
        Style::Word,
        Shape::Shown(bits!(23, 22), Group::Scalar),
        Kind::Plain,
        at!(4, 0),
        Need::Must
    ),
    slot!(
        Style::Word,
        Shape::Shown(bits!(23, 22), Group::Scalar),
        Kind::Plain,
        at!(9, 5),
        Need::Must
    ),
    told!(31, 30, WideScalar, Plain, at!(4, 0)),
    told!(30, 30, ByteVector, Plain, at!(4, 0)),
    told!(30, 30, HalfwordVector, Plain, at!(4, 0)),
    told!(30, 30, WordVector, Plain, at!(4, 0)),
    of!(V2d, Plain, at!(4, 0)),
    // Z registers
    told!(23, 22, Lanes, Plain, at!(4, 0)),
    of!(Zb, Plain, at!(4, 0)),
    of!(Zd, Plain, at!(4, 0)),
    of!(Zh, Plain, at!(4, 0)),
    of!(Zq, Plain, at!(4, 0)),
    of!(Zs, Plain, at!(4, 0)),
    of!(Z, Plain, at!(4, 0)),
    told!(23, 22, Lanes, Plain, at!(20, 16)),
    of!(Zb, Plain, at!(20, 16)),
    of!(Zd, Plain, at!(20, 16)),
    of!(Zh, Plain, at!(20, 16)),
    of!(Zb, Plain, at!(18, 16)),
    of!(Zh, Plain, at!(19, 16)),
    slot!(
        Style::Word,
        Shape::Shown(bits!(23, 22), Group::QuarterLanes),
        Kind::Plain,
        at!(20, 16),
        Need::Must
    ),
    of!(Zs, Plain, at!(20, 16)),
    told!(23, 22, Lanes, Plain, at!(9, 5)),
    of!(Zb, Plain, at!(9, 5)),
    of!(Zd, Plain, at!(9, 5)),
    of!(Zh, Plain, at!(9, 5)),
    slot!(
        Style::Word,
        Shape::Shown(bits!(23, 22), Group::HalfLanes),
        Kind::Plain,
        at!(9, 5),
        Need::Must
    ),
    of!(Zq, Plain, at!(9, 5)),
    slot!(
        Style::Word,
        Shape::Shown(bits!(23, 22), Group::QuarterLanes),
        Kind::Plain,
        at!(9, 5),
        Need::Must
    ),
    of!(Zs, Plain, at!(9, 5)),
    of!(Z, Plain, at!(9, 5)),
    slot!(
        Style::Word,
        Shape::Only(Class::Zb),
        Kind::After(0),
        at!(4, 0),
        Need::Must
    ),
    slot!(
        Style::Word,
        Shape::Only(Class::Zb),
        Kind::After(1),
        at!(4, 0),
        Need::Must
    ),
    slot!(
        Style::Word,
        Shape::Only(Class::Zb),
        Kind::After(2),
        at!(4, 0),
        Need::Must
    ),
    slot!(
        Style::Word,
        Shape::Only(Class::Zb),
        Kind::After(3),
        at!(4, 0),
        Need::Must
    ),
    slot!(
        Style::Word,
        Shape::Only(Class::Zd),
        Kind::After(0),
        at!(4, 0),
        Need::Must
    ),
    slot!(
        Style::Word,
        Shape::Only(Class::Zd),
        Kind::After(1),
        at!(4, 0),
        Need::Must
    ),
    slot!(
        Style::Word,
        Shape::Only(Class::Zd),
        Kind::After(2),
        at!(4, 0),
        Need::Must
    ),
    slot!(
        Style::Word,
        Shape::Only(Class::Zd),
        Kind::After(3),
        at!(4, 0),
        Need::Must
    ),
    slot!(
        Style::Word,
        Shape::Only(Class::Zh),
        Kind::After(0),
        at!(4, 0),
        Need::Must
    ),
    slot!(
        Style::Word,
        Shape::Only(Class::Zh),
        Kind::After(1),
        at!(4, 0),
        Need::Must
    ),
    slot!(
        Style::Word,
        Shape::Only(Class::Zh),
        Kind::After(2),
        at!(4, 0),
        Need::Must
    ),
    slot!(
        Style::Word,
        Shape::Only(Class::Zh),
        Kind::After(3),
        at!(4, 0),
        Need::Must
    ),
    slot!(
        Style::Word,
        Shape::Only(Class::Zs),
        Kind::After(0),
        at!(4, 0),
        Need::Must
    ),
    told!(22, 21, Lanes, Plain, at!(4, 0)),
    slot!(
        Style::Word,
        Shape::Only(Class::Zs),
        Kind::After(1),
        at!(4, 0),
        Need::Must
    ),
    slot!(
        Style::Word,
        Shape::Only(Class::Zs),
        Kind::After(2),
        at!(4, 0),
        Need::Must
    ),
    slot!(
        Style::Word,
        Shape::Only(Class::Zs),
        Kind::After(3),
        at!(4, 0),
        Need::Must
    ),
    // predicates
    told!(23, 22, Flags, Plain, at!(3, 0)),
    of!(Pb, Plain, at!(3, 0)),
    of!(Pd, Plain, at!(3, 0)),
    of!(Ph, Plain, at!(3, 0)),
    of!(Ps, Plain, at!(3, 0)),
    of!(P, Plain, at!(12, 10)),
    of!(P, Plain, at!(19, 16)),
    of!(P, Plain, at!(8, 5)),
    of!(P, Plain, at!(13, 10)),
    told!(23, 22, Flags, Plain, at!(19, 16)),
    of!(Pb, Plain, at!(19, 16)),
    told!(23, 22, Flags, Plain, at!(8, 5)),
    of!(Pb, Plain, at!(8, 5)),
    slot!(
        Style::Word,
        Shape::Told(bits!(14, 14), Group::Predication),
        Kind::Fixed(0),
        Parts::Nowhere,
        Need::Must
    ),
    slot!(
        Style::Word,
        Shape::Told(bits!(16, 16), Group::Predication),
        Kind::Fixed(0),
        Parts::Nowhere,
        Need::Must
    ),
    slot!(
        Style::Word,
        Shape::Told(bits!(4, 4), Group::Predication),
        Kind::Fixed(0),
        Parts::Nowhere,
        Need::Must
    ),
    of!(P, Plain, at!(3, 0)),
    // conditions, extends and counts
    of!(ExtendWord, Plain, at!(14, 14)),
    of!(ExtendWord, Plain, at!(22, 22)),
    slot!(
        Style::Word,
        Shape::Only(Class::Count),
        Kind::NamedCount,
        at!(9, 5),
        Need::Inside(31)
    ),
    of!(Condition, Plain, at!(15, 12)),
    of!(Condition, Inverted, at!(15, 12)),
    of!(ExtendWord, Plain, at!(15, 15)),
    of!(ExtendDoubleword, Plain, at!(15, 15)),
    told!(14, 13, Extend, Plain, at!(15, 15)),
    told!(14, 13, NarrowExtend, Plain, at!(15, 15)),
    // numbers
    number!(Style::Hexadecimal(64), Kind::Bitmask(64), at!(17, 5)),
    number!(Style::Counted, Kind::UnnamedCount, at!(9, 5)),
    number!(Style::Bare, Kind::Scaled { by: 1, from: 0 }, at!(20, 19)),
    number!(Style::Bare, Kind::Scaled { by: 1, from: 0 }, at!(20, 20)),
    number!(Style::Bare, Kind::Scaled { by: 1, from: 0 }, at!(23, 22)),
    number!(
        Style::Bare,
        Kind::Scaled { by: 1, from: 0 },
        two!(23, 22, 20, 17)
    ),
    number!(
        Style::Bare,
        Kind::Scaled { by: 1, from: 0 },
        two!(23, 22, 20, 18)
    ),
    number!(
        Style::Bare,
        Kind::Scaled { by: 1, from: 0 },
        two!(23, 22, 20, 19)
    ),
    number!(
        Style::Bare,
        Kind::Scaled { by: 1, from: 0 },
        two!(23, 22, 20, 20)
    ),
    number!(Style::Counted, Kind::Scaled { by: 1, from: 1 }, at!(19, 16)),
    number!(Style::Counted, Kind::Fixed(1), Parts::Nowhere),
    number!(Style::Counted, Kind::Fixed(2), Parts::Nowhere),
    number!(Style::Counted, Kind::Fixed(3), Parts::Nowhere),
    number!(Style::Counted, Kind::Falling, at!(18, 16)),
    number!(Style::Counted, Kind::Falling, at!(19, 16)),
    number!(Style::Counted, Kind::Falling, at!(20, 16)),
    number!(Style::Counted, Kind::Falling, two!(22, 22, 20, 16)),
    number!(Style::Counted, Kind::Falling, two!(22, 22, 9, 5)),
    number!(Style::Counted, Kind::Falling, at!(7, 5)),
    number!(Style::Counted, Kind::Falling, at!(8, 5)),
    number!(Style::Counted, Kind::Falling, at!(9, 5)),
    number!(Style::Counted, Kind::Signed(1), at!(10, 5)),
    number!(Style::Counted, Kind::Signed(1), at!(12, 5)),
    number!(Style::Counted, Kind::Signed(1), at!(20, 16)),
    number!(Style::Counted, Kind::Signed(1), at!(9, 5)),
    counted!(1, at!(12, 5)),
    counted!(1, at!(18, 16)),
    counted!(1, at!(19, 16)),
    counted!(1, at!(20, 14)),
    counted!(1, at!(20, 16)),
    counted!(1, two!(20, 16, 12, 10)),
    counted!(1, two!(22, 22, 20, 16)),
    counted!(1, two!(22, 22, 9, 5)),
    counted!(1, at!(7, 5)),
    counted!(1, at!(8, 5)),
    counted!(1, at!(9, 5)),
    number!(Style::Hexadecimal(32), Kind::Bitmask(32), at!(22, 10)),
    number!(Style::Hexadecimal(64), Kind::Bitmask(64), at!(22, 10)),
    number!(Style::Hexadecimal(64), Kind::Spread, two!(18, 16, 9, 5)),
    number!(Style::Counted, Kind::LeftShift(32), at!(21, 10)),
    number!(Style::Counted, Kind::LeftShift(64), at!(21, 10)),
    number!(Style::Counted, Kind::Scaled { by: 8, from: 1 }, at!(12, 12)),
    number!(Style::Counted, Kind::Fixed(0), Parts::Nowhere),
    number!(Style::Counted, Kind::Fixed(4), Parts::Nowhere),
    number!(Style::Counted, Kind::Signed(1), at!(20, 12)),
    number!(Style::Counted, Kind::Signed(4), at!(21, 15)),
    number!(Style::Counted, Kind::Signed(8), at!(21, 15)),
    number!(Style::Counted, Kind::Signed(16), at!(21, 15)),
    counted!(1, at!(3, 0)),
    counted!(1, at!(4, 0)),
    counted!(1, at!(11, 5)),
    counted!(1, at!(11, 8)),
    counted!(1, at!(12, 10)),
    counted!(1, at!(15, 10)),
    counted!(1, two!(18, 16, 9, 5)),
    counted!(1, at!(20, 5)),
    counted!(1, at!(21, 10)),
    counted!(1, at!(21, 16)),
    counted!(1, two!(31, 31, 23, 19)),
    // numbers in parts that may be left out
    number!(
        Style::Counted,
        Kind::Scaled { by: 1, from: 1 },
        at!(19, 16),
        Need::Inside(1)
    ),
    number!(
        Style::Counted,
        Kind::Signed(1),
        at!(19, 16),
        Need::Inside(0)
    ),
    number!(
        Style::Counted,
        Kind::Signed(16),
        at!(19, 16),
        Need::Inside(0)
    ),
    number!(
        Style::Counted,
        Kind::Signed(2),
        at!(19, 16),
        Need::Inside(0)
    ),
    number!(
        Style::Counted,
        Kind::Signed(3),
        at!(19, 16),
        Need::Inside(0)
    ),
    number!(
        Style::Counted,
        Kind::Signed(4),
        at!(19, 16),
        Need::Inside(0)
    ),
    number!(
        Style::Counted,
        Kind::Signed(1),
        two!(21, 16, 12, 10),
        Need::Inside(0)
    ),
    number!(
        Style::Counted,
        Kind::Scaled { by: 8, from: 0 },
        at!(13, 13),
        Need::Inside(0)
    ),
    number!(
        Style::Counted,
        Kind::Scaled { by: 1, from: 0 },
        at!(20, 16),
        Need::Inside(0)
    ),
    number!(
        Style::Counted,
        Kind::Scaled { by: 2, from: 0 },
        at!(20, 16),
        Need::Inside(0)
    ),
    number!(
        Style::Counted,
        Kind::Scaled { by: 4, from: 0 },
        at!(20, 16),
        Need::Inside(0)
    ),
    number!(
        Style::Counted,
        Kind::Scaled { by: 8, from: 0 },
        at!(20, 16),
        Need::Inside(0)
    ),
    number!(
        Style::Counted,
        Kind::Scaled { by: 1, from: 0 },
        at!(21, 16),
        Need::Inside(0)
    ),
    number!(
        Style::Counted,
        Kind::Scaled { by: 2, from: 0 },
        at!(21, 16),
        Need::Inside(0)
    ),
    number!(
        Style::Counted,
        Kind::Scaled { by: 4, from: 0 },
        at!(21, 16),
        Need::Inside(0)
    ),
    number!(
        Style::Counted,
        Kind::Scaled { by: 8, from: 0 },
        at!(21, 16),
        Need::Inside(0)
    ),
    number!(
        Style::Counted,
        Kind::Signed(1),
        at!(20, 12),
        Need::Inside(0)
    ),
    number!(
        Style::Counted,
        Kind::Signed(4),
        at!(21, 15),
        Need::Inside(0)
    ),
    number!(
        Style::Counted,
        Kind::Signed(8),
        at!(21, 15),
        Need::Inside(0)
    ),
    number!(
        Style::Counted,
        Kind::Signed(16),
        at!(21, 15),
        Need::Inside(0)
    ),
    number!(
        Style::Counted,
        Kind::Scaled { by: 12, from: 0 },
        at!(22, 22),
        Need::Inside(0)
    ),
    number!(
        Style::Counted,
        Kind::Scaled { by: 16, from: 0 },
        at!(22, 21),
        Need::Inside(0)
    ),
    number!(
        Style::Counted,
        Kind::Scaled { by: 1, from: 0 },
        at!(15, 10),
        Need::Inside(0)
    ),
    number!(
        Style::Counted,
        Kind::Scaled { by: 8, from: 0 },
        at!(14, 13),
        Need::Inside(0)
    ),
    number!(
        Style::Counted,
        Kind::Scaled { by: 1, from: 0 },
        at!(21, 10),
        Need::Inside(0)
    ),
    number!(
        Style::Counted,
        Kind::Scaled { by: 2, from: 0 },
        at!(21, 10),
        Need::Inside(0)
    ),
    number!(
        Style::Counted,
        Kind::Scaled { by: 4, from: 0 },
        at!(21, 10),
        Need::Inside(0)
    ),
    number!(
        Style::Counted,
        Kind::Scaled { by: 8, from: 0 },
        at!(21, 10),
        Need::Inside(0)
    ),
    number!(
        Style::Counted,
        Kind::Scaled { by: 16, from: 0 },
        at!(21, 10),
        Need::Inside(0)
    ),
    // targets
    target!(4, 1, at!(25, 0)),
    target!(4, 1, at!(23, 5)),
    target!(4, 1, at!(18, 5)),
    target!(1, 1, two!(23, 5, 30, 29)),
    target!(4096, 4096, two!(23, 5, 30, 29)),
    // behind the others
    told!(30, 30, General, Plain, at!(20, 16)),
];
