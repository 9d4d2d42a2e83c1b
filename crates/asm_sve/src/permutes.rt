//! The texts of lines of permutes.
use text_code::{Pattern, padded};
use text_model::names;
use text_model::shared_slots::*;
use text_model::slot_numbers::*;

pub(crate) const DUP_REG_TEXTS: [Pattern; 1] = patterns![
    [ZD, RN_SP_OF_LANE]:
        DUP 0x05203800;
];

pub(crate) const DUP_LANE_TEXTS: [Pattern; 5] = patterns![
    [ZD_B, ZN_B [INDEX_23_22_20_17]]:
        DUP 0x05212000;
    [ZD_H, ZN_H [INDEX_23_22_20_18]]:
        DUP 0x05222000;
    [ZD_S, ZN_S [INDEX_23_22_20_19]]:
        DUP 0x05242000;
    [ZD_D, ZN_D [INDEX_23_22_20_20]]:
        DUP 0x05282000;
    [ZD_Q, ZN_Q [INDEX_23_22]]:
        DUP 0x05302000;
];

pub(crate) const INSERT_TEXTS: [Pattern; 2] = patterns![
    [ZDN, R_SRC_OF_LANE]:
        INSR 0x05243800;
    [ZDN, V_SRC]:
        INSR 0x05343800;
];

pub(crate) const REV_Z_TEXTS: [Pattern; 1] = patterns![
    [ZD, ZN]:
        REV 0x05383800;
];

pub(crate) const UNPACK_TEXTS: [Pattern; 4] = patterns![
    [ZD, ZN_HALF]:
        SUNPKLO 0x05303800, SUNPKHI 0x05313800, UUNPKLO 0x05323800, UUNPKHI 0x05333800;
];

pub(crate) const TABLE_TEXTS: [Pattern; 1] = patterns![
    [ZD, {ZN}, ZM]:
        TBL 0x05203000;
];

pub(crate) const INTERLEAVE_TEXTS: [Pattern; 6] = patterns![
    [ZD, ZN, ZM]:
        ZIP1 0x05206000, ZIP2 0x05206400, UZP1 0x05206800, UZP2 0x05206C00,
        TRN1 0x05207000, TRN2 0x05207400;
];

pub(crate) const INTERLEAVE_P_TEXTS: [Pattern; 6] = patterns![
    [PD, PN, PM]:
        ZIP1 0x05204000, ZIP2 0x05204400, UZP1 0x05204800, UZP2 0x05204C00,
        TRN1 0x05205000, TRN2 0x05205400;
];

pub(crate) const UNPACK_P_TEXTS: [Pattern; 2] = patterns![
    [PD_H, PN_B]:
        PUNPKLO 0x05304000, PUNPKHI 0x05314000;
];

pub(crate) const REV_P_TEXTS: [Pattern; 1] = patterns![
    [PD, PN]:
        REV 0x05344000;
];

pub(crate) const COMPACT_TEXTS: [Pattern; 1] = patterns![
    [ZD, PG, ZN]:
        COMPACT 0x05218000;
];

pub(crate) const SPLICE_TEXTS: [Pattern; 1] = patterns![
    [ZDN, PG, ZDN, ZM_9_5]:
        SPLICE 0x052C8000;
];

pub(crate) const EXT_TEXTS: [Pattern; 1] = patterns![
    [ZDN_B, ZDN_B, ZM_9_5_B, UNSIGNED_20_16_12_10]:
        EXT 0x05200000;
];

pub(crate) const COPY_REG_TEXTS: [Pattern; 2] = patterns![
    [ZD, PG/MERGING, RN_SP_OF_LANE]:
        CPY 0x0528A000;
    [ZD, PG/MERGING, VN]:
        CPY 0x05208000;
];

pub(crate) const LAST_TEXTS: [Pattern; 4] = patterns![
    [RD_OF_LANE, PG, ZN]:
        LASTA 0x0520A000, LASTB 0x0521A000;
    [VD, PG, ZN]:
        LASTA 0x05228000, LASTB 0x05238000;
];

pub(crate) const COND_LAST_TEXTS: [Pattern; 6] = patterns![
    [RDN_OF_LANE, PG, RDN_OF_LANE, ZM_9_5]:
        CLASTA 0x0530A000, CLASTB 0x0531A000;
    [VDN, PG, VDN, ZM_9_5]:
        CLASTA 0x052A8000, CLASTB 0x052B8000;
    [ZDN, PG, ZDN, ZM_9_5]:
        CLASTA 0x05288000, CLASTB 0x05298000;
];
