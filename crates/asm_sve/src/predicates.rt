//! The texts of lines of predicates.
use text_code::{Pattern, padded};
use text_model::names;
use text_model::shared_slots::*;
use text_model::slot_numbers::*;

pub(crate) const CMP_VEC_TEXTS: [Pattern; 24] = patterns![
    [PD_B, PG/ZEROING, ZN_B, ZM_B]:
        CMPHS 0x24000000, CMPHI 0x24000010, CMPGE 0x24008000, CMPGT 0x24008010,
        CMPEQ 0x2400A000, CMPNE 0x2400A010;
    [PD_H, PG/ZEROING, ZN_H, ZM_H]:
        CMPHS 0x24400000, CMPHI 0x24400010, CMPGE 0x24408000, CMPGT 0x24408010,
        CMPEQ 0x2440A000, CMPNE 0x2440A010;
    [PD_S, PG/ZEROING, ZN_S, ZM_S]:
        CMPHS 0x24800000, CMPHI 0x24800010, CMPGE 0x24808000, CMPGT 0x24808010,
        CMPEQ 0x2480A000, CMPNE 0x2480A010;
    [PD_D, PG/ZEROING, ZN_D, ZM_D]:
        CMPHS 0x24C00000, CMPHI 0x24C00010, CMPGE 0x24C08000, CMPGT 0x24C08010,
        CMPEQ 0x24C0A000, CMPNE 0x24C0A010;
];

pub(crate) const CMP_WIDE_TEXTS: [Pattern; 22] = patterns![
    [PD_B, PG/ZEROING, ZN_B, ZM_D]:
        CMPEQ 0x24002000, CMPNE 0x24002010, CMPGE 0x24004000, CMPGT 0x24004010,
        CMPHS 0x2400C000, CMPHI 0x2400C010;
    [PD_H, PG/ZEROING, ZN_H, ZM_D]:
        CMPEQ 0x24402000, CMPNE 0x24402010, CMPGE 0x24404000, CMPGT 0x24404010,
        CMPHS 0x2440C000, CMPHI 0x2440C010;
    [PD_S, PG/ZEROING, ZN_S, ZM_D]:
        CMPEQ 0x24802000, CMPNE 0x24802010, CMPGE 0x24804000, CMPGT 0x24804010,
        CMPHS 0x2480C000, CMPHI 0x2480C010;
    [PD, PG/ZEROING, ZN, ZM_D]:
        CMPLT 0x24006000, CMPLE 0x24006010, CMPLO 0x2400E000, CMPLS 0x2400E010;
];

pub(crate) const CMP_U_IMM_TEXTS: [Pattern; 4] = patterns![
    [PD, PG/ZEROING, ZN, UNSIGNED_IMM7_20_14]:
        CMPHS 0x24200000, CMPHI 0x24200010, CMPLO 0x24202000, CMPLS 0x24202010;
];

pub(crate) const CMP_S_IMM_TEXTS: [Pattern; 6] = patterns![
    [PD, PG/ZEROING, ZN, SIGNED_IMM5]:
        CMPGE 0x25000000, CMPGT 0x25000010, CMPLT 0x25002000, CMPLE 0x25002010,
        CMPEQ 0x25008000, CMPNE 0x25008010;
];

pub(crate) const LOGIC_P_TEXTS: [Pattern; 14] = patterns![
    [PD_B, PG_13_10/ZEROING, PN_B, PM_B]:
        AND 0x25004000, BIC 0x25004010, EOR 0x25004200, ORR 0x25804000, ORN 0x25804010,
        NOR 0x25804200, NAND 0x25804210, ANDS 0x25404000, BICS 0x25404010,
        EORS 0x25404200, ORRS 0x25C04000, ORNS 0x25C04010, NORS 0x25C04200,
        NANDS 0x25C04210;
];

pub(crate) const SELECT_P_TEXTS: [Pattern; 1] = patterns![
    [PD_B, PG_13_10, PN_B, PM_B]:
        SEL 0x25004210;
];

pub(crate) const BREAK_FIRST_TEXTS: [Pattern; 4] = patterns![
    [PD_B, PG_13_10/M_4, PN_B]:
        BRKA 0x25104000, BRKB 0x25904000, BRKAS 0x25504000, BRKBS 0x25D04000;
];

pub(crate) const BREAK_PAIR_TEXTS: [Pattern; 4] = patterns![
    [PD_B, PG_13_10/ZEROING, PN_B, PM_B]:
        BRKPA 0x2500C000, BRKPB 0x2500C010, BRKPAS 0x2540C000, BRKPBS 0x2540C010;
];

pub(crate) const BREAK_NEXT_TEXTS: [Pattern; 2] = patterns![
    [PDM_B, PG_13_10/ZEROING, PN_B, PDM_B]:
        BRKN 0x25184000, BRKNS 0x25584000;
];

pub(crate) const PTEST_TEXTS: [Pattern; 1] = patterns![
    [PG_13_10, PN_B]:
        PTEST 0x2550C000;
];

pub(crate) const FIRST_TEXTS: [Pattern; 1] = patterns![
    [PDN_B, PG_8_5, PDN_B]:
        PFIRST 0x2558C000;
];

pub(crate) const NEXT_TEXTS: [Pattern; 1] = patterns![
    [PDN, PG_8_5, PDN]:
        PNEXT 0x2519C400;
];

pub(crate) const PTRUE_TEXTS: [Pattern; 4] = patterns![
    [PD PERHAPS PATTERN]:
        PTRUE 0x2518E000, PTRUES 0x2519E000;
    [PD, PATTERN_NUMBER]:
        PTRUE 0x2518E000, PTRUES 0x2519E000;
];

pub(crate) const PFALSE_TEXTS: [Pattern; 1] = patterns![
    [PD_B]:
        PFALSE 0x2518E400;
];

pub(crate) const READ_FFR_TEXTS: [Pattern; 2] = patterns![
    [PD_B, PG_8_5/ZEROING]:
        RDFFR 0x2518F000, RDFFRS 0x2558F000;
];

pub(crate) const READ_FFR_ALL_TEXTS: [Pattern; 1] = patterns![
    [PD_B]:
        RDFFR 0x2519F000;
];

pub(crate) const WRITE_FFR_TEXTS: [Pattern; 2] = patterns![
    []:
        SETFFR 0x252C9000;
    [PN_B]:
        WRFFR 0x25289000;
];

pub(crate) const COUNT_P_TEXTS: [Pattern; 1] = patterns![
    [XD, PG_13_10, PN]:
        CNTP 0x25208000;
];

pub(crate) const INC_P_TEXTS: [Pattern; 2] = patterns![
    [XDN, PM_8_5]:
        INCP 0x252C8800, DECP 0x252D8800;
];

pub(crate) const INC_P_Z_TEXTS: [Pattern; 2] = patterns![
    [ZDN, PM_8_5]:
        INCP 0x252C8000, DECP 0x252D8000;
];

pub(crate) const WHILE_TEXTS: [Pattern; 4] = patterns![
    [PD, RN_BY_12, RM_BY_12]:
        WHILELT 0x25200400, WHILELE 0x25200410, WHILELO 0x25200C00, WHILELS 0x25200C10;
];

pub(crate) const CTERM_TEXTS: [Pattern; 2] = patterns![
    [RN_BY_22, RM_BY_22]:
        CTERMEQ 0x25A02000, CTERMNE 0x25A02010;
];
