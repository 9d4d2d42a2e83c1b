//! The patterns of bit moves.
use text_code::{Pattern, padded, pattern};
use text_model::names;
use text_model::slot_numbers::*;

/// `Vd.T, #i{, lsl #0}`.
macro_rules! shifted_byte {
    ($name:ident, $base:literal, $d:ident, $shift:ident) => {
        pattern!($name, $base, [$d, COMMA, UNSIGNED_18_16_9_5, PERHAPS, IN_LSL, $shift])
    };
}

/// `Vd.T, #i, msl #8` or `#16`.
macro_rules! with_ones {
    ($name:ident, $base:literal) => {
        pattern!($name, $base, [VD_WORDS, COMMA, UNSIGNED_18_16_9_5, COMMA, MSL, MSL_AMOUNT])
    };
}

/// `fmov Wd, Sn`, `Sd, Wn`, `Xd, Dn`, `Dd, Xn`
pub const F_MOVE: [Pattern; 4] = [
    pattern!(FMOV, 0x1E26_0000, [WD, COMMA, SN]),
    pattern!(FMOV, 0x1E27_0000, [SD, COMMA, WN]),
    pattern!(FMOV, 0x9E66_0000, [XD, COMMA, DN]),
    pattern!(FMOV, 0x9E67_0000, [DD, COMMA, XN]),
];

/// `movi`, `mvni`
pub const MOVE_IMM: [Pattern; 9] = [
    shifted_byte!(MOVI, 0x0F00_0400, VD_WORDS, IN_UNSIGNED_14_13_BY_8),
    shifted_byte!(MOVI, 0x0F00_8400, VD_HALFWORDS, IN_UNSIGNED_13_13_BY_8),
    with_ones!(MOVI, 0x0F00_C400),
    shifted_byte!(MVNI, 0x2F00_0400, VD_WORDS, IN_UNSIGNED_14_13_BY_8),
    shifted_byte!(MVNI, 0x2F00_8400, VD_HALFWORDS, IN_UNSIGNED_13_13_BY_8),
    with_ones!(MVNI, 0x2F00_C400),
    pattern!(MOVI, 0x0F00_E400, [VD_BYTES, COMMA, UNSIGNED_18_16_9_5]),
    pattern!(MOVI, 0x2F00_E400, [DD, COMMA, SPREAD]),
    pattern!(MOVI, 0x6F00_E400, [VD_DOUBLEWORDS, COMMA, SPREAD]),
];
