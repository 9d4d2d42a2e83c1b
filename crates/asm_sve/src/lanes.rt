//! The texts of lines whose results are lane by lane.
use text_code::{Pattern, padded};
use text_model::names;
use text_model::shared_slots::*;
use text_model::slot_numbers::*;

pub(crate) const BINARY_TEXTS: [Pattern; 35] = patterns![
    [ZDN, PG/MERGING, ZDN, ZM_9_5]:
        ADD 0x04000000, SUB 0x04010000, SUBR 0x04030000, SMAX 0x04080000,
        UMAX 0x04090000, SMIN 0x040A0000, UMIN 0x040B0000, SABD 0x040C0000,
        UABD 0x040D0000, MUL 0x04100000, SMULH 0x04120000, UMULH 0x04130000,
        SDIV 0x04140000, UDIV 0x04150000, SDIVR 0x04160000, UDIVR 0x04170000,
        ORR 0x04180000, EOR 0x04190000, AND 0x041A0000, BIC 0x041B0000;
    [ZDN_B, PG/MERGING, ZDN_B, ZM_9_5_B]:
        ASR 0x04108000, LSR 0x04118000, LSL 0x04138000;
    [ZDN_H, PG/MERGING, ZDN_H, ZM_9_5_H]:
        ASR 0x04508000, LSR 0x04518000, LSL 0x04538000;
    [ZDN_S, PG/MERGING, ZDN_S, ZM_9_5_S]:
        ASR 0x04908000, LSR 0x04918000, LSL 0x04938000;
    [ZDN_D, PG/MERGING, ZDN_D, ZM_9_5_D]:
        ASR 0x04D08000, LSR 0x04D18000, LSL 0x04D38000;
    [ZDN, PG/MERGING, ZDN, ZM_9_5]:
        ASRR 0x04148000, LSRR 0x04158000, LSLR 0x04178000;
];

pub(crate) const BINARY_WIDE_TEXTS: [Pattern; 9] = patterns![
    [ZDN_B, PG/MERGING, ZDN_B, ZM_9_5_D]:
        ASR 0x04188000, LSR 0x04198000, LSL 0x041B8000;
    [ZDN_H, PG/MERGING, ZDN_H, ZM_9_5_D]:
        ASR 0x04588000, LSR 0x04598000, LSL 0x045B8000;
    [ZDN_S, PG/MERGING, ZDN_S, ZM_9_5_D]:
        ASR 0x04988000, LSR 0x04998000, LSL 0x049B8000;
];

pub(crate) const SHIFT_IMM_TEXTS: [Pattern; 16] = patterns![
    [ZDN_B, PG/MERGING, ZDN_B, RIGHT_7_5]:
        ASR 0x04008100, LSR 0x04018100;
    [ZDN_B, PG/MERGING, ZDN_B, LEFT_7_5]:
        LSL 0x04038100;
    [ZDN_B, PG/MERGING, ZDN_B, RIGHT_7_5]:
        ASRD 0x04048100;
    [ZDN_H, PG/MERGING, ZDN_H, RIGHT_8_5]:
        ASR 0x04008200, LSR 0x04018200;
    [ZDN_H, PG/MERGING, ZDN_H, LEFT_8_5]:
        LSL 0x04038200;
    [ZDN_H, PG/MERGING, ZDN_H, RIGHT_8_5]:
        ASRD 0x04048200;
    [ZDN_S, PG/MERGING, ZDN_S, RIGHT_9_5]:
        ASR 0x04408000, LSR 0x04418000;
    [ZDN_S, PG/MERGING, ZDN_S, LEFT_9_5]:
        LSL 0x04438000;
    [ZDN_S, PG/MERGING, ZDN_S, RIGHT_9_5]:
        ASRD 0x04448000;
    [ZDN_D, PG/MERGING, ZDN_D, RIGHT_22_22_9_5]:
        ASR 0x04808000, LSR 0x04818000;
    [ZDN_D, PG/MERGING, ZDN_D, LEFT_22_22_9_5]:
        LSL 0x04838000;
    [ZDN_D, PG/MERGING, ZDN_D, RIGHT_22_22_9_5]:
        ASRD 0x04848000;
];

pub(crate) const UNARY_TEXTS: [Pattern; 17] = patterns![
    [ZD, PG/MERGING, ZN]:
        SXTB 0x0410A000, UXTB 0x0411A000, SXTH 0x0412A000, UXTH 0x0413A000,
        SXTW 0x0414A000, UXTW 0x0415A000, ABS 0x0416A000, NEG 0x0417A000, CLS 0x0418A000,
        CLZ 0x0419A000, CNT 0x041AA000, CNOT 0x041BA000, NOT 0x041EA000, REVB 0x05248000,
        REVH 0x05258000, REVW 0x05268000, RBIT 0x05278000;
];

pub(crate) const MUL_ADD_Z_TEXTS: [Pattern; 2] = patterns![
    [ZDA, PG/MERGING, ZN, ZM]:
        MLA 0x04004000, MLS 0x04006000;
];

pub(crate) const MUL_ADD_D_TEXTS: [Pattern; 2] = patterns![
    [ZDN, PG/MERGING, ZM, ZA]:
        MAD 0x0400C000, MSB 0x0400E000;
];

pub(crate) const PLAIN_TEXTS: [Pattern; 6] = patterns![
    [ZD, ZN, ZM]:
        ADD 0x04200000, SUB 0x04200400, SQADD 0x04201000, UQADD 0x04201400,
        SQSUB 0x04201800, UQSUB 0x04201C00;
];

pub(crate) const LOGIC_Z_TEXTS: [Pattern; 4] = patterns![
    [ZD_D, ZN_D, ZM_D]:
        AND 0x04203000, ORR 0x04603000, EOR 0x04A03000, BIC 0x04E03000;
];

pub(crate) const PLAIN_WIDE_TEXTS: [Pattern; 3] = patterns![
    [ZD, ZN, ZM_D]:
        ASR 0x04208000, LSR 0x04208400, LSL 0x04208C00;
];

pub(crate) const PLAIN_SHIFT_TEXTS: [Pattern; 12] = patterns![
    [ZD_B, ZN_B, RIGHT_18_16]:
        ASR 0x04289000, LSR 0x04289400;
    [ZD_B, ZN_B, LEFT_18_16]:
        LSL 0x04289C00;
    [ZD_H, ZN_H, RIGHT_19_16]:
        ASR 0x04309000, LSR 0x04309400;
    [ZD_H, ZN_H, LEFT_19_16]:
        LSL 0x04309C00;
    [ZD_S, ZN_S, RIGHT_20_16]:
        ASR 0x04609000, LSR 0x04609400;
    [ZD_S, ZN_S, LEFT_20_16]:
        LSL 0x04609C00;
    [ZD_D, ZN_D, RIGHT_22_22_20_16]:
        ASR 0x04A09000, LSR 0x04A09400;
    [ZD_D, ZN_D, LEFT_22_22_20_16]:
        LSL 0x04A09C00;
];

pub(crate) const INDEX_TEXTS: [Pattern; 4] = patterns![
    [ZD, SIGNED_X, SIGNED_Y]:
        INDEX 0x04204000;
    [ZD, R_X_OF_LANE, SIGNED_Y]:
        INDEX 0x04204400;
    [ZD, SIGNED_X, R_Y_OF_LANE]:
        INDEX 0x04204800;
    [ZD, R_X_OF_LANE, R_Y_OF_LANE]:
        INDEX 0x04204C00;
];

pub(crate) const DOT_TEXTS: [Pattern; 2] = patterns![
    [ZDA, ZN_QUARTER, ZM_QUARTER]:
        SDOT 0x44000000, UDOT 0x44000400;
];

pub(crate) const DOT_INDEXED_TEXTS: [Pattern; 4] = patterns![
    [ZDA_S, ZN_B, ZM_LOW_B [INDEX_20_19]]:
        SDOT 0x44A00000, UDOT 0x44A00400;
    [ZDA_D, ZN_H, ZM_LOW_H [INDEX_20_20]]:
        SDOT 0x44E00000, UDOT 0x44E00400;
];

pub(crate) const WIDE_IMM_TEXTS: [Pattern; 7] = patterns![
    [ZDN, ZDN, UNSIGNED_IMM8 PERHAPS IN_LSL IN_UNSIGNED_SH_13_BY_8]:
        ADD 0x2520C000, SUB 0x2521C000, SUBR 0x2523C000, SQADD 0x2524C000,
        UQADD 0x2525C000, SQSUB 0x2526C000, UQSUB 0x2527C000;
];

pub(crate) const MIN_MAX_IMM_TEXTS: [Pattern; 5] = patterns![
    [ZDN, ZDN, SIGNED_IMM8]:
        SMAX 0x2528C000, SMIN 0x252AC000, MUL 0x2530C000;
    [ZDN, ZDN, UNSIGNED_IMM8]:
        UMAX 0x2529C000, UMIN 0x252BC000;
];

pub(crate) const DUP_IMM_TEXTS: [Pattern; 1] = patterns![
    [ZD, SIGNED_IMM8 PERHAPS IN_LSL IN_UNSIGNED_SH_13_BY_8]:
        DUP 0x2538C000;
];

pub(crate) const BITMASK_Z_TEXTS: [Pattern; 4] = patterns![
    [ZDN_D, ZDN_D, BITMASK_17_5]:
        ORR 0x05000000, EOR 0x05400000, AND 0x05800000;
    [ZDN_D, BITMASK_17_5]:
        DUPM 0x05C00000;
];

pub(crate) const COPY_IMM_TEXTS: [Pattern; 1] = patterns![
    [ZD, PG_19_16/M_14, SIGNED_IMM8 PERHAPS IN_LSL IN_UNSIGNED_SH_13_BY_8]:
        CPY 0x05100000;
];

pub(crate) const PREFIX_P_TEXTS: [Pattern; 1] = patterns![
    [ZD, PG/M_16, ZN]:
        MOVPRFX 0x04102000;
];

pub(crate) const PREFIX_TEXTS: [Pattern; 1] = patterns![
    [ZD_WHOLE, ZN_WHOLE]:
        MOVPRFX 0x0420BC00;
];

pub(crate) const SELECT_Z_TEXTS: [Pattern; 1] = patterns![
    [ZD, PG_13_10, ZN, ZM]:
        SEL 0x0520C000;
];
