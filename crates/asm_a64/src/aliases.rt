//! The patterns of other names.
use text_code::{Pattern, padded, pattern};
use text_model::names;
use text_model::slot_numbers::*;

/// Other names, which are read and never printed.
pub const ALIASES: [Pattern; 15] = [
    pattern!(MOV, 0x2A00_03E0, [RD, COMMA, RM]),
    pattern!(MOV, 0x1100_0000, [RD_SP, COMMA, RN_SP]),
    pattern!(MOV, 0x5280_0000, [RD, COMMA, UNSIGNED_IMM16]),
    pattern!(CMP, 0x7100_001F, [RN_SP, COMMA, UNSIGNED_IMM12]),
    pattern!(CMP, 0x6B00_001F, [RN, COMMA, RM]),
    pattern!(LSL, 0x5300_0000, [WD, COMMA, WN, COMMA, LEFT_21_10_OF_32]),
    pattern!(LSR, 0x5300_7C00, [WD, COMMA, WN, COMMA, UNSIGNED_R]),
    pattern!(ASR, 0x1300_7C00, [WD, COMMA, WN, COMMA, UNSIGNED_R]),
    pattern!(LSL, 0xD340_0000, [XD, COMMA, XN, COMMA, LEFT_21_10_OF_64]),
    pattern!(LSR, 0xD340_FC00, [XD, COMMA, XN, COMMA, UNSIGNED_R]),
    pattern!(ASR, 0x9340_FC00, [XD, COMMA, XN, COMMA, UNSIGNED_R]),
    pattern!(MUL, 0x1B00_7C00, [RD, COMMA, RN, COMMA, RM]),
    pattern!(CSET, 0x1A9F_07E0, [RD, COMMA, INVERTED_COND]),
    pattern!(RET, 0xD65F_03C0, []),
    pattern!(NOP, 0xD503_201F, []),
];
