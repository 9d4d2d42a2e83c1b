//! The patterns of branches, exceptions and system.
use text_code::{Pattern, padded, pattern};
use text_model::names;
use text_model::shared_slots::*;
use text_model::slot_numbers::*;

/// `b`, `bl target`
pub const BRANCH: [Pattern; 2] = [
    pattern!(B, 0x1400_0000, [TARGET_IMM26]),
    pattern!(BL, 0x9400_0000, [TARGET_IMM26]),
];

/// `b.eq target` and so on: the name settles the condition
pub const BRANCH_COND: [Pattern; 16] = [
    pattern!(B_EQ, 0x5400_0000, [TARGET_IMM19]),
    pattern!(B_NE, 0x5400_0001, [TARGET_IMM19]),
    pattern!(B_CS, 0x5400_0002, [TARGET_IMM19]),
    pattern!(B_CC, 0x5400_0003, [TARGET_IMM19]),
    pattern!(B_MI, 0x5400_0004, [TARGET_IMM19]),
    pattern!(B_PL, 0x5400_0005, [TARGET_IMM19]),
    pattern!(B_VS, 0x5400_0006, [TARGET_IMM19]),
    pattern!(B_VC, 0x5400_0007, [TARGET_IMM19]),
    pattern!(B_HI, 0x5400_0008, [TARGET_IMM19]),
    pattern!(B_LS, 0x5400_0009, [TARGET_IMM19]),
    pattern!(B_GE, 0x5400_000A, [TARGET_IMM19]),
    pattern!(B_LT, 0x5400_000B, [TARGET_IMM19]),
    pattern!(B_GT, 0x5400_000C, [TARGET_IMM19]),
    pattern!(B_LE, 0x5400_000D, [TARGET_IMM19]),
    pattern!(B_AL, 0x5400_000E, [TARGET_IMM19]),
    pattern!(B_NV, 0x5400_000F, [TARGET_IMM19]),
];

/// `cbz`, `cbnz Rt, target`
pub const COMPARE: [Pattern; 2] = [
    pattern!(CBZ, 0x3400_0000, [RT, COMMA, TARGET_IMM19]),
    pattern!(CBNZ, 0x3500_0000, [RT, COMMA, TARGET_IMM19]),
];

/// `tbz`, `tbnz Rt, #b, target`
pub const TEST: [Pattern; 2] = [
    pattern!(
        TBZ,
        0x3600_0000,
        [RT, COMMA, UNSIGNED_31_31_23_19, COMMA, TARGET_IMM14]
    ),
    pattern!(
        TBNZ,
        0x3700_0000,
        [RT, COMMA, UNSIGNED_31_31_23_19, COMMA, TARGET_IMM14]
    ),
];

/// `br`, `blr`, `ret Xn`
pub const BRANCH_REG: [Pattern; 3] = [
    pattern!(BR, 0xD61F_0000, [XN]),
    pattern!(BLR, 0xD63F_0000, [XN]),
    pattern!(RET, 0xD65F_0000, [XN]),
];

/// `svc`, `brk`, `hlt #i`
pub const EXCEPT: [Pattern; 3] = [
    pattern!(SVC, 0xD400_0001, [UNSIGNED_IMM16]),
    pattern!(BRK, 0xD420_0000, [UNSIGNED_IMM16]),
    pattern!(HLT, 0xD440_0000, [UNSIGNED_IMM16]),
];

/// `hint #n`
pub const HINT: [Pattern; 1] = [pattern!(HINT, 0xD503_201F, [UNSIGNED_N_11_5])];

/// `clrex`, `dsb`, `dmb`, `isb #n`
pub const BARRIER: [Pattern; 4] = [
    pattern!(CLREX, 0xD503_305F, [UNSIGNED_N_11_8]),
    pattern!(DSB, 0xD503_309F, [UNSIGNED_N_11_8]),
    pattern!(DMB, 0xD503_30BF, [UNSIGNED_N_11_8]),
    pattern!(ISB, 0xD503_30DF, [UNSIGNED_N_11_8]),
];

/// `mrs Xt, tpidr_el0` and so on
pub const READ_SYS: [Pattern; 3] = [
    pattern!(MRS, 0xD53B_D040, [XT, COMMA, TPIDR_EL0]),
    pattern!(MRS, 0xD53B_4200, [XT, COMMA, NZCV]),
    pattern!(MRS, 0xD53B_00E0, [XT, COMMA, DCZID_EL0]),
];

/// `msr tpidr_el0, Xt` and `msr nzcv, Xt`
pub const WRITE_SYS: [Pattern; 2] = [
    pattern!(MSR, 0xD51B_D040, [TPIDR_EL0, COMMA, XT]),
    pattern!(MSR, 0xD51B_4200, [NZCV, COMMA, XT]),
];
