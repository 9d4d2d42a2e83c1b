//! The patterns of loads and stores.
use text_code::{Pattern, padded, pattern};
use text_model::names;
use text_model::shared_slots::*;
use text_model::slot_numbers::*;

/// `[Xn|SP{, #0}]`, scaled.
macro_rules! scaled_offset {
    ($name:ident, $base:literal, $t:ident, $offset:ident) => {
        pattern!($name, $base, [$t, COMMA, OPEN, XN_SP, PERHAPS, $offset, CLOSE])
    };
}

/// `[Xn|SP{, #0}]`, signed.
macro_rules! signed_offset {
    ($name:ident, $base:literal, $t:ident) => {
        pattern!($name, $base, [$t, COMMA, OPEN, XN_SP, PERHAPS, IN_SIGNED_IMM9, CLOSE])
    };
}

/// `[Xn|SP], #i`.
macro_rules! post {
    ($name:ident, $base:literal, $t:ident) => {
        pattern!($name, $base, [$t, COMMA, OPEN, XN_SP, CLOSE, COMMA, SIGNED_IMM9])
    };
}

/// `[Xn|SP, #i]!`.
macro_rules! pre {
    ($name:ident, $base:literal, $t:ident) => {
        pattern!($name, $base, [$t, COMMA, OPEN, XN_SP, COMMA, SIGNED_IMM9, CLOSE, EXCLAMATION])
    };
}

/// `[Xn|SP, Rm]` and `[Xn|SP, Rm, ext]`.
macro_rules! indexed {
    ($name:ident, $base:literal, $t:ident, $m:ident) => {
        pattern!($name, $base, [$t, COMMA, OPEN, XN_SP, COMMA, $m, CLOSE])
    };
    ($name:ident, $base:literal, $t:ident, $m:ident, $extend:ident) => {
        pattern!($name, $base, [$t, COMMA, OPEN, XN_SP, COMMA, $m, COMMA, $extend, CLOSE])
    };
}

/// `[Xn|SP, Rm, ext #a]`, where the amount is always the same.
macro_rules! scaled {
    ($name:ident, $base:literal, $t:ident, $m:ident, $extend:ident, $amount:ident) => {
        pattern!($name, $base, [$t, COMMA, OPEN, XN_SP, COMMA, $m, COMMA, $extend, $amount, CLOSE])
    };
}

/// `Rt, Rt2, [Xn|SP], #i`.
macro_rules! pair_post {
    ($name:ident, $base:literal, $t:ident, $u:ident, $offset:ident) => {
        pattern!($name, $base, [$t, COMMA, $u, COMMA, OPEN, XN_SP, CLOSE, COMMA, $offset])
    };
}

/// `Rt, Rt2, [Xn|SP{, #0}]`.
macro_rules! pair_offset {
    ($name:ident, $base:literal, $t:ident, $u:ident, $offset:ident) => {
        pattern!($name, $base, [$t, COMMA, $u, COMMA, OPEN, XN_SP, PERHAPS, $offset, CLOSE])
    };
}

/// `Rt, Rt2, [Xn|SP, #i]!`.
macro_rules! pair_pre {
    ($name:ident, $base:literal, $t:ident, $u:ident, $offset:ident) => {
        pattern!($name, $base, [$t, COMMA, $u, COMMA, OPEN, XN_SP, COMMA, $offset, CLOSE, EXCLAMATION])
    };
}

/// `Rt, [Xn|SP]` and `Ws, Rt, [Xn|SP]`.
macro_rules! exclusive {
    ($name:ident, $base:literal, $t:ident) => {
        pattern!($name, $base, [$t, COMMA, OPEN, XN_SP, CLOSE])
    };
    ($name:ident, $base:literal, $s:ident, $t:ident) => {
        pattern!($name, $base, [$s, COMMA, $t, COMMA, OPEN, XN_SP, CLOSE])
    };
}

/// `[Xn|SP{, #0}]`, scaled
pub const LS_UNSIGNED: [Pattern; 22] = [
    scaled_offset!(PRFM, 0xF980_0000, RT_NUMBER, IN_UNSIGNED_IMM12_BY_8),
    scaled_offset!(STRB, 0x3900_0000, WT, IN_UNSIGNED_IMM12),
    scaled_offset!(LDRB, 0x3940_0000, WT, IN_UNSIGNED_IMM12),
    scaled_offset!(LDRSB, 0x3980_0000, RT_EXTENDED, IN_UNSIGNED_IMM12),
    scaled_offset!(STRH, 0x7900_0000, WT, IN_UNSIGNED_IMM12_BY_2),
    scaled_offset!(LDRH, 0x7940_0000, WT, IN_UNSIGNED_IMM12_BY_2),
    scaled_offset!(LDRSH, 0x7980_0000, RT_EXTENDED, IN_UNSIGNED_IMM12_BY_2),
    scaled_offset!(STR, 0xB900_0000, WT, IN_UNSIGNED_IMM12_BY_4),
    scaled_offset!(LDR, 0xB940_0000, WT, IN_UNSIGNED_IMM12_BY_4),
    scaled_offset!(LDRSW, 0xB980_0000, XT, IN_UNSIGNED_IMM12_BY_4),
    scaled_offset!(STR, 0xF900_0000, XT, IN_UNSIGNED_IMM12_BY_8),
    scaled_offset!(LDR, 0xF940_0000, XT, IN_UNSIGNED_IMM12_BY_8),
    scaled_offset!(STR, 0x3D00_0000, BT, IN_UNSIGNED_IMM12),
    scaled_offset!(LDR, 0x3D40_0000, BT, IN_UNSIGNED_IMM12),
    scaled_offset!(STR, 0x7D00_0000, HT, IN_UNSIGNED_IMM12_BY_2),
    scaled_offset!(LDR, 0x7D40_0000, HT, IN_UNSIGNED_IMM12_BY_2),
    scaled_offset!(STR, 0xBD00_0000, ST, IN_UNSIGNED_IMM12_BY_4),
    scaled_offset!(LDR, 0xBD40_0000, ST, IN_UNSIGNED_IMM12_BY_4),
    scaled_offset!(STR, 0xFD00_0000, DT, IN_UNSIGNED_IMM12_BY_8),
    scaled_offset!(LDR, 0xFD40_0000, DT, IN_UNSIGNED_IMM12_BY_8),
    scaled_offset!(STR, 0x3D80_0000, QT, IN_UNSIGNED_IMM12_BY_16),
    scaled_offset!(LDR, 0x3DC0_0000, QT, IN_UNSIGNED_IMM12_BY_16),
];

/// `[Xn|SP{, #0}]`, unscaled
pub const LS_UNSCALED: [Pattern; 22] = [
    signed_offset!(PRFUM, 0xF880_0000, RT_NUMBER),
    signed_offset!(STURB, 0x3800_0000, WT),
    signed_offset!(LDURB, 0x3840_0000, WT),
    signed_offset!(LDURSB, 0x3880_0000, RT_EXTENDED),
    signed_offset!(STURH, 0x7800_0000, WT),
    signed_offset!(LDURH, 0x7840_0000, WT),
    signed_offset!(LDURSH, 0x7880_0000, RT_EXTENDED),
    signed_offset!(STUR, 0xB800_0000, WT),
    signed_offset!(LDUR, 0xB840_0000, WT),
    signed_offset!(LDURSW, 0xB880_0000, XT),
    signed_offset!(STUR, 0xF800_0000, XT),
    signed_offset!(LDUR, 0xF840_0000, XT),
    signed_offset!(STUR, 0x3C00_0000, BT),
    signed_offset!(LDUR, 0x3C40_0000, BT),
    signed_offset!(STUR, 0x7C00_0000, HT),
    signed_offset!(LDUR, 0x7C40_0000, HT),
    signed_offset!(STUR, 0xBC00_0000, ST),
    signed_offset!(LDUR, 0xBC40_0000, ST),
    signed_offset!(STUR, 0xFC00_0000, DT),
    signed_offset!(LDUR, 0xFC40_0000, DT),
    signed_offset!(STUR, 0x3C80_0000, QT),
    signed_offset!(LDUR, 0x3CC0_0000, QT),
];

/// `[Xn|SP], #i`
pub const LS_POST: [Pattern; 21] = [
    post!(STRB, 0x3800_0400, WT),
    post!(LDRB, 0x3840_0400, WT),
    post!(LDRSB, 0x3880_0400, RT_EXTENDED),
    post!(STRH, 0x7800_0400, WT),
    post!(LDRH, 0x7840_0400, WT),
    post!(LDRSH, 0x7880_0400, RT_EXTENDED),
    post!(STR, 0xB800_0400, WT),
    post!(LDR, 0xB840_0400, WT),
    post!(LDRSW, 0xB880_0400, XT),
    post!(STR, 0xF800_0400, XT),
    post!(LDR, 0xF840_0400, XT),
    post!(STR, 0x3C00_0400, BT),
    post!(LDR, 0x3C40_0400, BT),
    post!(STR, 0x7C00_0400, HT),
    post!(LDR, 0x7C40_0400, HT),
    post!(STR, 0xBC00_0400, ST),
    post!(LDR, 0xBC40_0400, ST),
    post!(STR, 0xFC00_0400, DT),
    post!(LDR, 0xFC40_0400, DT),
    post!(STR, 0x3C80_0400, QT),
    post!(LDR, 0x3CC0_0400, QT),
];

/// `[Xn|SP, #i]!`
pub const LS_PRE: [Pattern; 21] = [
    pre!(STRB, 0x3800_0C00, WT),
    pre!(LDRB, 0x3840_0C00, WT),
    pre!(LDRSB, 0x3880_0C00, RT_EXTENDED),
    pre!(STRH, 0x7800_0C00, WT),
    pre!(LDRH, 0x7840_0C00, WT),
    pre!(LDRSH, 0x7880_0C00, RT_EXTENDED),
    pre!(STR, 0xB800_0C00, WT),
    pre!(LDR, 0xB840_0C00, WT),
    pre!(LDRSW, 0xB880_0C00, XT),
    pre!(STR, 0xF800_0C00, XT),
    pre!(LDR, 0xF840_0C00, XT),
    pre!(STR, 0x3C00_0C00, BT),
    pre!(LDR, 0x3C40_0C00, BT),
    pre!(STR, 0x7C00_0C00, HT),
    pre!(LDR, 0x7C40_0C00, HT),
    pre!(STR, 0xBC00_0C00, ST),
    pre!(LDR, 0xBC40_0C00, ST),
    pre!(STR, 0xFC00_0C00, DT),
    pre!(LDR, 0xFC40_0C00, DT),
    pre!(STR, 0x3C80_0C00, QT),
    pre!(LDR, 0x3CC0_0C00, QT),
];

/// `[Xn|SP, Wm, uxtw]` and `sxtw`
pub const LS_REG_WORD: [Pattern; 22] = [
    indexed!(PRFM, 0xF8A0_4800, RT_NUMBER, WM, EXT_WORD),
    indexed!(STRB, 0x3820_4800, WT, WM, EXT_WORD),
    indexed!(LDRB, 0x3860_4800, WT, WM, EXT_WORD),
    indexed!(LDRSB, 0x38A0_4800, RT_EXTENDED, WM, EXT_WORD),
    indexed!(STRH, 0x7820_4800, WT, WM, EXT_WORD),
    indexed!(LDRH, 0x7860_4800, WT, WM, EXT_WORD),
    indexed!(LDRSH, 0x78A0_4800, RT_EXTENDED, WM, EXT_WORD),
    indexed!(STR, 0xB820_4800, WT, WM, EXT_WORD),
    indexed!(LDR, 0xB860_4800, WT, WM, EXT_WORD),
    indexed!(LDRSW, 0xB8A0_4800, XT, WM, EXT_WORD),
    indexed!(STR, 0xF820_4800, XT, WM, EXT_WORD),
    indexed!(LDR, 0xF860_4800, XT, WM, EXT_WORD),
    indexed!(STR, 0x3C20_4800, BT, WM, EXT_WORD),
    indexed!(LDR, 0x3C60_4800, BT, WM, EXT_WORD),
    indexed!(STR, 0x7C20_4800, HT, WM, EXT_WORD),
    indexed!(LDR, 0x7C60_4800, HT, WM, EXT_WORD),
    indexed!(STR, 0xBC20_4800, ST, WM, EXT_WORD),
    indexed!(LDR, 0xBC60_4800, ST, WM, EXT_WORD),
    indexed!(STR, 0xFC20_4800, DT, WM, EXT_WORD),
    indexed!(LDR, 0xFC60_4800, DT, WM, EXT_WORD),
    indexed!(STR, 0x3CA0_4800, QT, WM, EXT_WORD),
    indexed!(LDR, 0x3CE0_4800, QT, WM, EXT_WORD),
];

/// `[Xn|SP, Wm, uxtw #a]` and `sxtw #a`
pub const LS_REG_WORD_SCALED: [Pattern; 22] = [
    scaled!(PRFM, 0xF8A0_5800, RT_NUMBER, WM, EXT_WORD, NUMBER_3),
    scaled!(STRB, 0x3820_5800, WT, WM, EXT_WORD, NUMBER_0),
    scaled!(LDRB, 0x3860_5800, WT, WM, EXT_WORD, NUMBER_0),
    scaled!(LDRSB, 0x38A0_5800, RT_EXTENDED, WM, EXT_WORD, NUMBER_0),
    scaled!(STRH, 0x7820_5800, WT, WM, EXT_WORD, NUMBER_1),
    scaled!(LDRH, 0x7860_5800, WT, WM, EXT_WORD, NUMBER_1),
    scaled!(LDRSH, 0x78A0_5800, RT_EXTENDED, WM, EXT_WORD, NUMBER_1),
    scaled!(STR, 0xB820_5800, WT, WM, EXT_WORD, NUMBER_2),
    scaled!(LDR, 0xB860_5800, WT, WM, EXT_WORD, NUMBER_2),
    scaled!(LDRSW, 0xB8A0_5800, XT, WM, EXT_WORD, NUMBER_2),
    scaled!(STR, 0xF820_5800, XT, WM, EXT_WORD, NUMBER_3),
    scaled!(LDR, 0xF860_5800, XT, WM, EXT_WORD, NUMBER_3),
    scaled!(STR, 0x3C20_5800, BT, WM, EXT_WORD, NUMBER_0),
    scaled!(LDR, 0x3C60_5800, BT, WM, EXT_WORD, NUMBER_0),
    scaled!(STR, 0x7C20_5800, HT, WM, EXT_WORD, NUMBER_1),
    scaled!(LDR, 0x7C60_5800, HT, WM, EXT_WORD, NUMBER_1),
    scaled!(STR, 0xBC20_5800, ST, WM, EXT_WORD, NUMBER_2),
    scaled!(LDR, 0xBC60_5800, ST, WM, EXT_WORD, NUMBER_2),
    scaled!(STR, 0xFC20_5800, DT, WM, EXT_WORD, NUMBER_3),
    scaled!(LDR, 0xFC60_5800, DT, WM, EXT_WORD, NUMBER_3),
    scaled!(STR, 0x3CA0_5800, QT, WM, EXT_WORD, NUMBER_4),
    scaled!(LDR, 0x3CE0_5800, QT, WM, EXT_WORD, NUMBER_4),
];

/// `[Xn|SP, Xm]`
pub const LS_REG_SHIFT: [Pattern; 22] = [
    indexed!(PRFM, 0xF8A0_6800, RT_NUMBER, XM),
    indexed!(STRB, 0x3820_6800, WT, XM),
    indexed!(LDRB, 0x3860_6800, WT, XM),
    indexed!(LDRSB, 0x38A0_6800, RT_EXTENDED, XM),
    indexed!(STRH, 0x7820_6800, WT, XM),
    indexed!(LDRH, 0x7860_6800, WT, XM),
    indexed!(LDRSH, 0x78A0_6800, RT_EXTENDED, XM),
    indexed!(STR, 0xB820_6800, WT, XM),
    indexed!(LDR, 0xB860_6800, WT, XM),
    indexed!(LDRSW, 0xB8A0_6800, XT, XM),
    indexed!(STR, 0xF820_6800, XT, XM),
    indexed!(LDR, 0xF860_6800, XT, XM),
    indexed!(STR, 0x3C20_6800, BT, XM),
    indexed!(LDR, 0x3C60_6800, BT, XM),
    indexed!(STR, 0x7C20_6800, HT, XM),
    indexed!(LDR, 0x7C60_6800, HT, XM),
    indexed!(STR, 0xBC20_6800, ST, XM),
    indexed!(LDR, 0xBC60_6800, ST, XM),
    indexed!(STR, 0xFC20_6800, DT, XM),
    indexed!(LDR, 0xFC60_6800, DT, XM),
    indexed!(STR, 0x3CA0_6800, QT, XM),
    indexed!(LDR, 0x3CE0_6800, QT, XM),
];

/// `[Xn|SP, Xm, lsl #a]`
pub const LS_REG_SHIFT_SCALED: [Pattern; 22] = [
    scaled!(PRFM, 0xF8A0_7800, RT_NUMBER, XM, LSL, NUMBER_3),
    scaled!(STRB, 0x3820_7800, WT, XM, LSL, NUMBER_0),
    scaled!(LDRB, 0x3860_7800, WT, XM, LSL, NUMBER_0),
    scaled!(LDRSB, 0x38A0_7800, RT_EXTENDED, XM, LSL, NUMBER_0),
    scaled!(STRH, 0x7820_7800, WT, XM, LSL, NUMBER_1),
    scaled!(LDRH, 0x7860_7800, WT, XM, LSL, NUMBER_1),
    scaled!(LDRSH, 0x78A0_7800, RT_EXTENDED, XM, LSL, NUMBER_1),
    scaled!(STR, 0xB820_7800, WT, XM, LSL, NUMBER_2),
    scaled!(LDR, 0xB860_7800, WT, XM, LSL, NUMBER_2),
    scaled!(LDRSW, 0xB8A0_7800, XT, XM, LSL, NUMBER_2),
    scaled!(STR, 0xF820_7800, XT, XM, LSL, NUMBER_3),
    scaled!(LDR, 0xF860_7800, XT, XM, LSL, NUMBER_3),
    scaled!(STR, 0x3C20_7800, BT, XM, LSL, NUMBER_0),
    scaled!(LDR, 0x3C60_7800, BT, XM, LSL, NUMBER_0),
    scaled!(STR, 0x7C20_7800, HT, XM, LSL, NUMBER_1),
    scaled!(LDR, 0x7C60_7800, HT, XM, LSL, NUMBER_1),
    scaled!(STR, 0xBC20_7800, ST, XM, LSL, NUMBER_2),
    scaled!(LDR, 0xBC60_7800, ST, XM, LSL, NUMBER_2),
    scaled!(STR, 0xFC20_7800, DT, XM, LSL, NUMBER_3),
    scaled!(LDR, 0xFC60_7800, DT, XM, LSL, NUMBER_3),
    scaled!(STR, 0x3CA0_7800, QT, XM, LSL, NUMBER_4),
    scaled!(LDR, 0x3CE0_7800, QT, XM, LSL, NUMBER_4),
];

/// `[Xn|SP, Xm, sxtx]`
pub const LS_REG_SIGNED: [Pattern; 22] = [
    indexed!(PRFM, 0xF8A0_E800, RT_NUMBER, XM, SXTX),
    indexed!(STRB, 0x3820_E800, WT, XM, SXTX),
    indexed!(LDRB, 0x3860_E800, WT, XM, SXTX),
    indexed!(LDRSB, 0x38A0_E800, RT_EXTENDED, XM, SXTX),
    indexed!(STRH, 0x7820_E800, WT, XM, SXTX),
    indexed!(LDRH, 0x7860_E800, WT, XM, SXTX),
    indexed!(LDRSH, 0x78A0_E800, RT_EXTENDED, XM, SXTX),
    indexed!(STR, 0xB820_E800, WT, XM, SXTX),
    indexed!(LDR, 0xB860_E800, WT, XM, SXTX),
    indexed!(LDRSW, 0xB8A0_E800, XT, XM, SXTX),
    indexed!(STR, 0xF820_E800, XT, XM, SXTX),
    indexed!(LDR, 0xF860_E800, XT, XM, SXTX),
    indexed!(STR, 0x3C20_E800, BT, XM, SXTX),
    indexed!(LDR, 0x3C60_E800, BT, XM, SXTX),
    indexed!(STR, 0x7C20_E800, HT, XM, SXTX),
    indexed!(LDR, 0x7C60_E800, HT, XM, SXTX),
    indexed!(STR, 0xBC20_E800, ST, XM, SXTX),
    indexed!(LDR, 0xBC60_E800, ST, XM, SXTX),
    indexed!(STR, 0xFC20_E800, DT, XM, SXTX),
    indexed!(LDR, 0xFC60_E800, DT, XM, SXTX),
    indexed!(STR, 0x3CA0_E800, QT, XM, SXTX),
    indexed!(LDR, 0x3CE0_E800, QT, XM, SXTX),
];

/// `[Xn|SP, Xm, sxtx #a]`
pub const LS_REG_SIGNED_SCALED: [Pattern; 22] = [
    scaled!(PRFM, 0xF8A0_F800, RT_NUMBER, XM, SXTX, NUMBER_3),
    scaled!(STRB, 0x3820_F800, WT, XM, SXTX, NUMBER_0),
    scaled!(LDRB, 0x3860_F800, WT, XM, SXTX, NUMBER_0),
    scaled!(LDRSB, 0x38A0_F800, RT_EXTENDED, XM, SXTX, NUMBER_0),
    scaled!(STRH, 0x7820_F800, WT, XM, SXTX, NUMBER_1),
    scaled!(LDRH, 0x7860_F800, WT, XM, SXTX, NUMBER_1),
    scaled!(LDRSH, 0x78A0_F800, RT_EXTENDED, XM, SXTX, NUMBER_1),
    scaled!(STR, 0xB820_F800, WT, XM, SXTX, NUMBER_2),
    scaled!(LDR, 0xB860_F800, WT, XM, SXTX, NUMBER_2),
    scaled!(LDRSW, 0xB8A0_F800, XT, XM, SXTX, NUMBER_2),
    scaled!(STR, 0xF820_F800, XT, XM, SXTX, NUMBER_3),
    scaled!(LDR, 0xF860_F800, XT, XM, SXTX, NUMBER_3),
    scaled!(STR, 0x3C20_F800, BT, XM, SXTX, NUMBER_0),
    scaled!(LDR, 0x3C60_F800, BT, XM, SXTX, NUMBER_0),
    scaled!(STR, 0x7C20_F800, HT, XM, SXTX, NUMBER_1),
    scaled!(LDR, 0x7C60_F800, HT, XM, SXTX, NUMBER_1),
    scaled!(STR, 0xBC20_F800, ST, XM, SXTX, NUMBER_2),
    scaled!(LDR, 0xBC60_F800, ST, XM, SXTX, NUMBER_2),
    scaled!(STR, 0xFC20_F800, DT, XM, SXTX, NUMBER_3),
    scaled!(LDR, 0xFC60_F800, DT, XM, SXTX, NUMBER_3),
    scaled!(STR, 0x3CA0_F800, QT, XM, SXTX, NUMBER_4),
    scaled!(LDR, 0x3CE0_F800, QT, XM, SXTX, NUMBER_4),
];

/// `ldr`, `ldrsw`, `prfm Rt, target`
pub const LS_LITERAL: [Pattern; 4] = [
    pattern!(LDR, 0x1800_0000, [RT_BY_30, COMMA, TARGET_IMM19]),
    pattern!(LDRSW, 0x9800_0000, [XT, COMMA, TARGET_IMM19]),
    pattern!(PRFM, 0xD800_0000, [RT_NUMBER, COMMA, TARGET_IMM19]),
    pattern!(LDR, 0x1C00_0000, [VT_BY_31_30, COMMA, TARGET_IMM19]),
];

/// `stp`, `ldp` and so on, `Rt, Rt2, place`
pub const PAIR: [Pattern; 43] = [
    pair_post!(STP, 0x2880_0000, WT, WT2, SIGNED_IMM7_21_15_BY_4),
    pair_offset!(STP, 0x2900_0000, WT, WT2, IN_SIGNED_IMM7_21_15_BY_4),
    pair_pre!(STP, 0x2980_0000, WT, WT2, SIGNED_IMM7_21_15_BY_4),
    pair_post!(LDP, 0x28C0_0000, WT, WT2, SIGNED_IMM7_21_15_BY_4),
    pair_offset!(LDP, 0x2940_0000, WT, WT2, IN_SIGNED_IMM7_21_15_BY_4),
    pair_pre!(LDP, 0x29C0_0000, WT, WT2, SIGNED_IMM7_21_15_BY_4),
    pair_offset!(STNP, 0x2800_0000, WT, WT2, IN_SIGNED_IMM7_21_15_BY_4),
    pair_offset!(LDNP, 0x2840_0000, WT, WT2, IN_SIGNED_IMM7_21_15_BY_4),
    pair_post!(STP, 0xA880_0000, XT, XT2, SIGNED_IMM7_21_15_BY_8),
    pair_offset!(STP, 0xA900_0000, XT, XT2, IN_SIGNED_IMM7_21_15_BY_8),
    pair_pre!(STP, 0xA980_0000, XT, XT2, SIGNED_IMM7_21_15_BY_8),
    pair_post!(LDP, 0xA8C0_0000, XT, XT2, SIGNED_IMM7_21_15_BY_8),
    pair_offset!(LDP, 0xA940_0000, XT, XT2, IN_SIGNED_IMM7_21_15_BY_8),
    pair_pre!(LDP, 0xA9C0_0000, XT, XT2, SIGNED_IMM7_21_15_BY_8),
    pair_offset!(STNP, 0xA800_0000, XT, XT2, IN_SIGNED_IMM7_21_15_BY_8),
    pair_offset!(LDNP, 0xA840_0000, XT, XT2, IN_SIGNED_IMM7_21_15_BY_8),
    pair_post!(LDPSW, 0x68C0_0000, XT, XT2, SIGNED_IMM7_21_15_BY_4),
    pair_offset!(LDPSW, 0x6940_0000, XT, XT2, IN_SIGNED_IMM7_21_15_BY_4),
    pair_pre!(LDPSW, 0x69C0_0000, XT, XT2, SIGNED_IMM7_21_15_BY_4),
    pair_post!(STP, 0x2C80_0000, ST, ST2, SIGNED_IMM7_21_15_BY_4),
    pair_offset!(STP, 0x2D00_0000, ST, ST2, IN_SIGNED_IMM7_21_15_BY_4),
    pair_pre!(STP, 0x2D80_0000, ST, ST2, SIGNED_IMM7_21_15_BY_4),
    pair_post!(LDP, 0x2CC0_0000, ST, ST2, SIGNED_IMM7_21_15_BY_4),
    pair_offset!(LDP, 0x2D40_0000, ST, ST2, IN_SIGNED_IMM7_21_15_BY_4),
    pair_pre!(LDP, 0x2DC0_0000, ST, ST2, SIGNED_IMM7_21_15_BY_4),
    pair_offset!(STNP, 0x2C00_0000, ST, ST2, IN_SIGNED_IMM7_21_15_BY_4),
    pair_offset!(LDNP, 0x2C40_0000, ST, ST2, IN_SIGNED_IMM7_21_15_BY_4),
    pair_post!(STP, 0x6C80_0000, DT, DT2, SIGNED_IMM7_21_15_BY_8),
    pair_offset!(STP, 0x6D00_0000, DT, DT2, IN_SIGNED_IMM7_21_15_BY_8),
    pair_pre!(STP, 0x6D80_0000, DT, DT2, SIGNED_IMM7_21_15_BY_8),
    pair_post!(LDP, 0x6CC0_0000, DT, DT2, SIGNED_IMM7_21_15_BY_8),
    pair_offset!(LDP, 0x6D40_0000, DT, DT2, IN_SIGNED_IMM7_21_15_BY_8),
    pair_pre!(LDP, 0x6DC0_0000, DT, DT2, SIGNED_IMM7_21_15_BY_8),
    pair_offset!(STNP, 0x6C00_0000, DT, DT2, IN_SIGNED_IMM7_21_15_BY_8),
    pair_offset!(LDNP, 0x6C40_0000, DT, DT2, IN_SIGNED_IMM7_21_15_BY_8),
    pair_post!(STP, 0xAC80_0000, QT, QT2, SIGNED_IMM7_21_15_BY_16),
    pair_offset!(STP, 0xAD00_0000, QT, QT2, IN_SIGNED_IMM7_21_15_BY_16),
    pair_pre!(STP, 0xAD80_0000, QT, QT2, SIGNED_IMM7_21_15_BY_16),
    pair_post!(LDP, 0xACC0_0000, QT, QT2, SIGNED_IMM7_21_15_BY_16),
    pair_offset!(LDP, 0xAD40_0000, QT, QT2, IN_SIGNED_IMM7_21_15_BY_16),
    pair_pre!(LDP, 0xADC0_0000, QT, QT2, SIGNED_IMM7_21_15_BY_16),
    pair_offset!(STNP, 0xAC00_0000, QT, QT2, IN_SIGNED_IMM7_21_15_BY_16),
    pair_offset!(LDNP, 0xAC40_0000, QT, QT2, IN_SIGNED_IMM7_21_15_BY_16),
];

/// `stxr`, `stlxr Ws, Rt, [Xn|SP]`
pub const STORE_EX: [Pattern; 6] = [
    exclusive!(STXRB, 0x0800_7C00, WS, WT),
    exclusive!(STXRH, 0x4800_7C00, WS, WT),
    exclusive!(STXR, 0x8800_7C00, WS, RT_BY_30),
    exclusive!(STLXRB, 0x0800_FC00, WS, WT),
    exclusive!(STLXRH, 0x4800_FC00, WS, WT),
    exclusive!(STLXR, 0x8800_FC00, WS, RT_BY_30),
];

/// `ldxr`, `ldaxr Rt, [Xn|SP]`
pub const LOAD_EX: [Pattern; 6] = [
    exclusive!(LDXRB, 0x085F_7C00, WT),
    exclusive!(LDXRH, 0x485F_7C00, WT),
    exclusive!(LDXR, 0x885F_7C00, RT_BY_30),
    exclusive!(LDAXRB, 0x085F_FC00, WT),
    exclusive!(LDAXRH, 0x485F_FC00, WT),
    exclusive!(LDAXR, 0x885F_FC00, RT_BY_30),
];

/// `stlr`, `ldar Rt, [Xn|SP]`
pub const ORDERED: [Pattern; 6] = [
    exclusive!(STLRB, 0x089F_FC00, WT),
    exclusive!(STLRH, 0x489F_FC00, WT),
    exclusive!(STLR, 0x889F_FC00, RT_BY_30),
    exclusive!(LDARB, 0x08DF_FC00, WT),
    exclusive!(LDARH, 0x48DF_FC00, WT),
    exclusive!(LDAR, 0x88DF_FC00, RT_BY_30),
];
