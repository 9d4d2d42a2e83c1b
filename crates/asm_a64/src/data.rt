//! The patterns of data processing.
use text_code::{Pattern, padded, pattern};
use text_model::names;
use text_model::shared_slots::*;
use text_model::slot_numbers::*;

/// `Rd|SP, Rn|SP, #i{, lsl #0}`.
macro_rules! add_imm {
    ($name:ident, $base:literal, $d:ident) => {
        pattern!($name, $base, [$d, COMMA, RN_SP, COMMA, UNSIGNED_IMM12, PERHAPS, IN_LSL, IN_UNSIGNED_SH_22_BY_12])
    };
}

/// `Rd|SP, Rn, #m` at a width.
macro_rules! logic_imm {
    ($name:ident, $base:literal, $d:ident, $n:ident, $mask:ident) => {
        pattern!($name, $base, [$d, COMMA, $n, COMMA, $mask])
    };
}

/// `Rd, Rn, Rm{, lsl #0}`.
macro_rules! shifted {
    ($name:ident, $base:literal) => {
        pattern!($name, $base, [RD, COMMA, RN, COMMA, RM, PERHAPS, IN_SHIFT, IN_UNSIGNED_AMOUNT])
    };
}

/// `Rd|SP, Rn|SP, Rm, ext #a`.
macro_rules! extended {
    ($name:ident, $base:literal, $d:ident, $n:ident, $m:ident, $extend:ident) => {
        pattern!($name, $base, [$d, COMMA, $n, COMMA, $m, COMMA, $extend, UNSIGNED_A])
    };
}

/// `Rd, Rn, Rm`.
macro_rules! three {
    ($name:ident, $base:literal) => {
        pattern!($name, $base, [RD, COMMA, RN, COMMA, RM])
    };
}

/// `Rn, y, #f, cond`.
macro_rules! conditional {
    ($name:ident, $base:literal, $y:ident) => {
        pattern!($name, $base, [RN, COMMA, $y, COMMA, UNSIGNED_F, COMMA, COND])
    };
}

/// `adr`, `adrp Xd, target`
pub const ADR: [Pattern; 2] = [
    pattern!(ADR, 0x1000_0000, [XD, COMMA, TARGET_23_5_30_29]),
    pattern!(ADRP, 0x9000_0000, [XD, COMMA, TARGET_23_5_30_29_BY_PAGE]),
];

/// `add`, `adds`, `sub`, `subs Rd|SP, Rn|SP, #i{, lsl #0}`
pub const ADD_IMM: [Pattern; 4] = [
    add_imm!(ADD, 0x1100_0000, RD_SP),
    add_imm!(ADDS, 0x3100_0000, RD),
    add_imm!(SUB, 0x5100_0000, RD_SP),
    add_imm!(SUBS, 0x7100_0000, RD),
];

/// `and`, `orr`, `eor`, `ands Rd|SP, Rn, #m`
pub const LOGIC_IMM: [Pattern; 8] = [
    logic_imm!(AND, 0x1200_0000, WD_SP, WN, BITMASK_22_10_OF_32),
    logic_imm!(ORR, 0x3200_0000, WD_SP, WN, BITMASK_22_10_OF_32),
    logic_imm!(EOR, 0x5200_0000, WD_SP, WN, BITMASK_22_10_OF_32),
    logic_imm!(ANDS, 0x7200_0000, WD, WN, BITMASK_22_10_OF_32),
    logic_imm!(AND, 0x9200_0000, XD_SP, XN, BITMASK_22_10_OF_64),
    logic_imm!(ORR, 0xB200_0000, XD_SP, XN, BITMASK_22_10_OF_64),
    logic_imm!(EOR, 0xD200_0000, XD_SP, XN, BITMASK_22_10_OF_64),
    logic_imm!(ANDS, 0xF200_0000, XD, XN, BITMASK_22_10_OF_64),
];

/// `movn`, `movz`, `movk Rd, #i{, lsl #0}`
pub const MOVE_WIDE: [Pattern; 3] = [
    pattern!(
        MOVN,
        0x1280_0000,
        [
            RD,
            COMMA,
            UNSIGNED_IMM16,
            PERHAPS,
            IN_LSL,
            IN_UNSIGNED_HW_BY_16
        ]
    ),
    pattern!(
        MOVZ,
        0x5280_0000,
        [
            RD,
            COMMA,
            UNSIGNED_IMM16,
            PERHAPS,
            IN_LSL,
            IN_UNSIGNED_HW_BY_16
        ]
    ),
    pattern!(
        MOVK,
        0x7280_0000,
        [
            RD,
            COMMA,
            UNSIGNED_IMM16,
            PERHAPS,
            IN_LSL,
            IN_UNSIGNED_HW_BY_16
        ]
    ),
];

/// `sbfm`, `bfm`, `ubfm Rd, Rn, #r, #s`
pub const BITFIELD: [Pattern; 6] = [
    pattern!(
        SBFM,
        0x1300_0000,
        [WD, COMMA, WN, COMMA, UNSIGNED_R, COMMA, UNSIGNED_S]
    ),
    pattern!(
        BFM,
        0x3300_0000,
        [WD, COMMA, WN, COMMA, UNSIGNED_R, COMMA, UNSIGNED_S]
    ),
    pattern!(
        UBFM,
        0x5300_0000,
        [WD, COMMA, WN, COMMA, UNSIGNED_R, COMMA, UNSIGNED_S]
    ),
    pattern!(
        SBFM,
        0x9340_0000,
        [XD, COMMA, XN, COMMA, UNSIGNED_R, COMMA, UNSIGNED_S]
    ),
    pattern!(
        BFM,
        0xB340_0000,
        [XD, COMMA, XN, COMMA, UNSIGNED_R, COMMA, UNSIGNED_S]
    ),
    pattern!(
        UBFM,
        0xD340_0000,
        [XD, COMMA, XN, COMMA, UNSIGNED_R, COMMA, UNSIGNED_S]
    ),
];

/// `extr Rd, Rn, Rm, #s`
pub const EXTRACT: [Pattern; 2] = [
    pattern!(
        EXTR,
        0x1380_0000,
        [WD, COMMA, WN, COMMA, WM, COMMA, UNSIGNED_S]
    ),
    pattern!(
        EXTR,
        0x93C0_0000,
        [XD, COMMA, XN, COMMA, XM, COMMA, UNSIGNED_S]
    ),
];

/// `and`, `bic` and so on, `Rd, Rn, Rm{, lsl #0}`
pub const LOGIC_REG: [Pattern; 8] = [
    shifted!(AND, 0x0A00_0000),
    shifted!(BIC, 0x0A20_0000),
    shifted!(ORR, 0x2A00_0000),
    shifted!(ORN, 0x2A20_0000),
    shifted!(EOR, 0x4A00_0000),
    shifted!(EON, 0x4A20_0000),
    shifted!(ANDS, 0x6A00_0000),
    shifted!(BICS, 0x6A20_0000),
];

/// `add`, `adds`, `sub`, `subs Rd, Rn, Rm{, lsl #0}`
pub const ADD_REG: [Pattern; 4] = [
    shifted!(ADD, 0x0B00_0000),
    shifted!(ADDS, 0x2B00_0000),
    shifted!(SUB, 0x4B00_0000),
    shifted!(SUBS, 0x6B00_0000),
];

/// `add`, `adds`, `sub`, `subs Rd|SP, Rn|SP, Rm, ext #a`
pub const ADD_EXT: [Pattern; 12] = [
    extended!(ADD, 0x0B20_0000, WD_SP, WN_SP, WM, EXT),
    extended!(ADD, 0x8B20_0000, XD_SP, XN_SP, WM, EXT_NARROW),
    extended!(ADD, 0x8B20_6000, XD_SP, XN_SP, XM, EXT_DOUBLEWORD),
    extended!(ADDS, 0x2B20_0000, WD, WN_SP, WM, EXT),
    extended!(ADDS, 0xAB20_0000, XD, XN_SP, WM, EXT_NARROW),
    extended!(ADDS, 0xAB20_6000, XD, XN_SP, XM, EXT_DOUBLEWORD),
    extended!(SUB, 0x4B20_0000, WD_SP, WN_SP, WM, EXT),
    extended!(SUB, 0xCB20_0000, XD_SP, XN_SP, WM, EXT_NARROW),
    extended!(SUB, 0xCB20_6000, XD_SP, XN_SP, XM, EXT_DOUBLEWORD),
    extended!(SUBS, 0x6B20_0000, WD, WN_SP, WM, EXT),
    extended!(SUBS, 0xEB20_0000, XD, XN_SP, WM, EXT_NARROW),
    extended!(SUBS, 0xEB20_6000, XD, XN_SP, XM, EXT_DOUBLEWORD),
];

/// `adc`, `adcs`, `sbc`, `sbcs Rd, Rn, Rm`
pub const ADD_CARRY: [Pattern; 4] = [
    three!(ADC, 0x1A00_0000),
    three!(ADCS, 0x3A00_0000),
    three!(SBC, 0x5A00_0000),
    three!(SBCS, 0x7A00_0000),
];

/// `ccmn`, `ccmp Rn, Rm, #f, cond`
pub const COND_REG: [Pattern; 2] = [
    conditional!(CCMN, 0x3A40_0000, RM),
    conditional!(CCMP, 0x7A40_0000, RM),
];

/// `ccmn`, `ccmp Rn, #i, #f, cond`
pub const COND_IMM: [Pattern; 2] = [
    conditional!(CCMN, 0x3A40_0800, UNSIGNED_I),
    conditional!(CCMP, 0x7A40_0800, UNSIGNED_I),
];

/// `csel`, `csinc`, `csinv`, `csneg Rd, Rn, Rm, cond`
pub const SELECT: [Pattern; 4] = [
    pattern!(CSEL, 0x1A80_0000, [RD, COMMA, RN, COMMA, RM, COMMA, COND]),
    pattern!(CSINC, 0x1A80_0400, [RD, COMMA, RN, COMMA, RM, COMMA, COND]),
    pattern!(CSINV, 0x5A80_0000, [RD, COMMA, RN, COMMA, RM, COMMA, COND]),
    pattern!(CSNEG, 0x5A80_0400, [RD, COMMA, RN, COMMA, RM, COMMA, COND]),
];

/// `madd`, `msub Rd, Rn, Rm, Ra`
pub const MUL_ADD: [Pattern; 2] = [
    pattern!(MADD, 0x1B00_0000, [RD, COMMA, RN, COMMA, RM, COMMA, RA]),
    pattern!(MSUB, 0x1B00_8000, [RD, COMMA, RN, COMMA, RM, COMMA, RA]),
];

/// `smaddl`, `smsubl`, `umaddl`, `umsubl Xd, Wn, Wm, Xa`
pub const MUL_LONG: [Pattern; 4] = [
    pattern!(SMADDL, 0x9B20_0000, [XD, COMMA, WN, COMMA, WM, COMMA, XA]),
    pattern!(SMSUBL, 0x9B20_8000, [XD, COMMA, WN, COMMA, WM, COMMA, XA]),
    pattern!(UMADDL, 0x9BA0_0000, [XD, COMMA, WN, COMMA, WM, COMMA, XA]),
    pattern!(UMSUBL, 0x9BA0_8000, [XD, COMMA, WN, COMMA, WM, COMMA, XA]),
];

/// `smulh`, `umulh Xd, Xn, Xm`
pub const MUL_HIGH: [Pattern; 2] = [
    pattern!(SMULH, 0x9B40_7C00, [XD, COMMA, XN, COMMA, XM]),
    pattern!(UMULH, 0x9BC0_7C00, [XD, COMMA, XN, COMMA, XM]),
];

/// `udiv`, `sdiv`, `lslv`, `lsrv`, `asrv`, `rorv Rd, Rn, Rm`
pub const TWO_SOURCE: [Pattern; 6] = [
    three!(UDIV, 0x1AC0_0800),
    three!(SDIV, 0x1AC0_0C00),
    three!(LSLV, 0x1AC0_2000),
    three!(LSRV, 0x1AC0_2400),
    three!(ASRV, 0x1AC0_2800),
    three!(RORV, 0x1AC0_2C00),
];

/// `rbit`, `rev16`, `clz`, `cls Rd, Rn`
pub const ONE_SOURCE: [Pattern; 4] = [
    pattern!(RBIT, 0x5AC0_0000, [RD, COMMA, RN]),
    pattern!(REV16, 0x5AC0_0400, [RD, COMMA, RN]),
    pattern!(CLZ, 0x5AC0_1000, [RD, COMMA, RN]),
    pattern!(CLS, 0x5AC0_1400, [RD, COMMA, RN]),
];

/// `rev Wd, Wn`, `rev Xd, Xn`, `rev32 Xd, Xn`
pub const REV: [Pattern; 3] = [
    pattern!(REV, 0x5AC0_0800, [WD, COMMA, WN]),
    pattern!(REV, 0xDAC0_0C00, [XD, COMMA, XN]),
    pattern!(REV32, 0xDAC0_0800, [XD, COMMA, XN]),
];
