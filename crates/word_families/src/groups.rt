//! The groups of encodings that words outside of the instruction table are in, by the Arm manual's C4.1, "A64
//! instruction set encoding", and its subsections, whose titles stand beside the groups.
use crate::Family;

/// Some encodings: the words whose bits under the mask are the value's.
#[derive(Clone, Copy, Debug)]
pub struct Group {
    /// The bits that tell the group.
    pub mask: u32,
    /// What they are.
    pub value: u32,
    /// The family of its words.
    pub family: Family,
}

/// The groups, in the order of C4.1. A word has the family of the first one that it is in.
pub const GROUPS: [Group; 132] = [
    // ---- Reserved encodings: UDF, whose upper 16 bits are 0.
    Group {
        mask: 0xFFFF_0000,
        value: 0x0000_0000,
        family: Family::PermanentlyUndefined,
    },
    // ---- SME encodings: bit 31 is 1, and bits 28:25 are 0000.
    Group {
        mask: 0x9E00_0000,
        value: 0x8000_0000,
        family: Family::Sme,
    },
    // ---- Data processing (immediate).
    // Add/subtract (immediate, with tags)
    Group {
        mask: 0xBFC0_C000,
        value: 0x9180_0000,
        family: Family::MemoryTagging,
    },
    // Min/max (immediate)
    Group {
        mask: 0x7FF0_0000,
        value: 0x11C0_0000,
        family: Family::OtherExtension,
    },
    // Data-processing (1 source immediate): AUTIASPPC, AUTIBSPPC
    Group {
        mask: 0xFFC0_001F,
        value: 0xF380_001F,
        family: Family::PointerAuthentication,
    },
    // ---- Branches, exception generating and system instructions.
    // Conditional branch (immediate): BC.cond
    Group {
        mask: 0xFF00_0010,
        value: 0x5400_0010,
        family: Family::OtherExtension,
    },
    // Miscellaneous branch (immediate): RETAASPPC, RETABSPPC
    Group {
        mask: 0xFFC0_001F,
        value: 0x5500_001F,
        family: Family::PointerAuthentication,
    },
    // Exception generation: HVC and SMC; TCANCEL; DCPS1 to DCPS3
    Group {
        mask: 0xFFE0_001E,
        value: 0xD400_0002,
        family: Family::System,
    },
    Group {
        mask: 0xFFE0_001F,
        value: 0xD460_0000,
        family: Family::OtherExtension,
    },
    Group {
        mask: 0xFFE0_001C,
        value: 0xD4A0_0000,
        family: Family::System,
    },
    // System instructions with register argument: WFET and WFIT
    Group {
        mask: 0xFFFF_FFC0,
        value: 0xD503_1000,
        family: Family::OtherExtension,
    },
    // Barriers: TCOMMIT, and the others that are no rows
    Group {
        mask: 0xFFFF_FFFF,
        value: 0xD503_307F,
        family: Family::OtherExtension,
    },
    Group {
        mask: 0xFFFF_F01F,
        value: 0xD503_301F,
        family: Family::System,
    },
    // PSTATE: CFINV, XAFLAG and AXFLAG; SMSTART and SMSTOP; the others
    Group {
        mask: 0xFFFF_F09F,
        value: 0xD500_401F,
        family: Family::OtherExtension,
    },
    Group {
        mask: 0xFFFF_F8FF,
        value: 0xD503_407F,
        family: Family::Sme,
    },
    Group {
        mask: 0xFFF8_F01F,
        value: 0xD500_401F,
        family: Family::System,
    },
    // System with result: TSTART and TTEST
    Group {
        mask: 0xFFFF_FEE0,
        value: 0xD523_3060,
        family: Family::OtherExtension,
    },
    // System instructions, and system register move: SYS, SYSL, MSR and MRS, with their pairs SYSP, MSRR and MRRS
    Group {
        mask: 0xFF90_0000,
        value: 0xD510_0000,
        family: Family::System,
    },
    Group {
        mask: 0xFF98_0000,
        value: 0xD508_0000,
        family: Family::System,
    },
    // Unconditional branch (register): ERET and DRPS
    Group {
        mask: 0xFFDF_FFFF,
        value: 0xD69F_03E0,
        family: Family::System,
    },
    // ---- Branches to an authenticated address, of "Unconditional branch (register)".
    // BRAAZ, BRABZ, BLRAAZ, BLRABZ
    Group {
        mask: 0xFFDF_F81F,
        value: 0xD61F_081F,
        family: Family::PointerAuthentication,
    },
    // BRAA, BRAB, BLRAA, BLRAB
    Group {
        mask: 0xFFDF_F800,
        value: 0xD71F_0800,
        family: Family::PointerAuthentication,
    },
    // RETAA, RETAB, ERETAA, ERETAB
    Group {
        mask: 0xFF3F_FBFF,
        value: 0xD61F_0BFF,
        family: Family::PointerAuthentication,
    },
    // ---- Loads and stores.
    // Compare and swap pair, and load/store exclusive pair
    Group {
        mask: 0xBFA0_7C00,
        value: 0x0820_7C00,
        family: Family::PairAtomics,
    },
    Group {
        mask: 0xBFA0_0000,
        value: 0x8820_0000,
        family: Family::PairAtomics,
    },
    // Load/store ordered: LDLAR and STLLR, with their bytes and halfwords
    Group {
        mask: 0x3FA0_8000,
        value: 0x0880_0000,
        family: Family::OtherExtension,
    },
    // Advanced SIMD load/store multiple structures and single structure, and the same, post-indexed
    Group {
        mask: 0xBE00_0000,
        value: 0x0C00_0000,
        family: Family::AdvancedSimd,
    },
    // Load/store memory tags
    Group {
        mask: 0xFF20_0000,
        value: 0xD920_0000,
        family: Family::MemoryTagging,
    },
    // Load/store register pair: STGP, post-indexed, and with an offset and pre-indexed
    Group {
        mask: 0xFFC0_0000,
        value: 0x6880_0000,
        family: Family::MemoryTagging,
    },
    Group {
        mask: 0xFF40_0000,
        value: 0x6900_0000,
        family: Family::MemoryTagging,
    },
    // LDAPR/STLR (unscaled immediate), (writeback) and (SIMD&FP), and load/store ordered pair
    Group {
        mask: 0x3F20_0C00,
        value: 0x1900_0000,
        family: Family::RcpcLoads,
    },
    Group {
        mask: 0x3F20_0C00,
        value: 0x1900_0800,
        family: Family::RcpcLoads,
    },
    Group {
        mask: 0x3F20_0C00,
        value: 0x1D00_0800,
        family: Family::RcpcLoads,
    },
    // Memory copy and memory set
    Group {
        mask: 0x3B20_0C00,
        value: 0x1900_0400,
        family: Family::OtherExtension,
    },
    // 128-bit atomic memory operations
    Group {
        mask: 0xFF20_0C00,
        value: 0x1920_0000,
        family: Family::PairAtomics,
    },
    // Load/store register (unprivileged)
    Group {
        mask: 0x3F20_0C00,
        value: 0x3800_0800,
        family: Family::UnprivilegedLoads,
    },
    // Load/store register (pac)
    Group {
        mask: 0xFF20_0400,
        value: 0xF820_0400,
        family: Family::PointerAuthentication,
    },
    // Atomic memory operations: LDAPR, with its bytes and halfwords
    Group {
        mask: 0x3FE0_FC00,
        value: 0x38A0_C000,
        family: Family::RcpcLoads,
    },
    // Atomic memory operations: ST64BV and ST64BV0, ST64B, LD64B
    Group {
        mask: 0xFFE0_EC00,
        value: 0xF820_A000,
        family: Family::OtherExtension,
    },
    Group {
        mask: 0xFFE0_FC00,
        value: 0xF820_9000,
        family: Family::OtherExtension,
    },
    Group {
        mask: 0xFFE0_FC00,
        value: 0xF820_D000,
        family: Family::OtherExtension,
    },
    // ---- Data processing (register).
    // Data-processing (2 source): CRC32 and CRC32C
    Group {
        mask: 0x7FE0_E000,
        value: 0x1AC0_4000,
        family: Family::Crc32,
    },
    // Data-processing (2 source): SUBP and SUBPS; IRG and GMI
    Group {
        mask: 0xDFE0_FC00,
        value: 0x9AC0_0000,
        family: Family::MemoryTagging,
    },
    Group {
        mask: 0xFFE0_F800,
        value: 0x9AC0_1000,
        family: Family::MemoryTagging,
    },
    // Data-processing (2 source): PACGA
    Group {
        mask: 0xFFE0_FC00,
        value: 0x9AC0_3000,
        family: Family::PointerAuthentication,
    },
    // Data-processing (2 source): SMAX, UMAX, SMIN and UMIN
    Group {
        mask: 0x7FE0_F000,
        value: 0x1AC0_6000,
        family: Family::OtherExtension,
    },
    // Data-processing (1 source): PACIA to AUTDZB; XPACI and XPACD
    Group {
        mask: 0xFFFF_C000,
        value: 0xDAC1_0000,
        family: Family::PointerAuthentication,
    },
    Group {
        mask: 0xFFFF_FBE0,
        value: 0xDAC1_43E0,
        family: Family::PointerAuthentication,
    },
    // Data-processing (1 source): CTZ and CNT; ABS
    Group {
        mask: 0x7FFF_F800,
        value: 0x5AC0_1800,
        family: Family::OtherExtension,
    },
    Group {
        mask: 0x7FFF_FC00,
        value: 0x5AC0_2000,
        family: Family::OtherExtension,
    },
    // Rotate right into flags
    Group {
        mask: 0xFFE0_7C10,
        value: 0xBA00_0400,
        family: Family::OtherExtension,
    },
    // Evaluate into flags
    Group {
        mask: 0xFFFF_BC1F,
        value: 0x3A00_080D,
        family: Family::OtherExtension,
    },
    // ---- Scalar floating point, of "Data processing (scalar floating-point and Advanced SIMD)".
    // Conversion between floating-point and fixed-point
    Group {
        mask: 0x5F20_0000,
        value: 0x1E00_0000,
        family: Family::FloatingPoint,
    },
    // Conversion between floating-point and integer
    Group {
        mask: 0x5F20_FC00,
        value: 0x1E20_0000,
        family: Family::FloatingPoint,
    },
    // Floating-point data-processing (1 source)
    Group {
        mask: 0x5F20_7C00,
        value: 0x1E20_4000,
        family: Family::FloatingPoint,
    },
    // Floating-point compare
    Group {
        mask: 0x5F20_3C00,
        value: 0x1E20_2000,
        family: Family::FloatingPoint,
    },
    // Floating-point immediate
    Group {
        mask: 0x5F20_1C00,
        value: 0x1E20_1000,
        family: Family::FloatingPoint,
    },
    // Floating-point conditional compare
    Group {
        mask: 0x5F20_0C00,
        value: 0x1E20_0400,
        family: Family::FloatingPoint,
    },
    // Floating-point data-processing (2 source)
    Group {
        mask: 0x5F20_0C00,
        value: 0x1E20_0800,
        family: Family::FloatingPoint,
    },
    // Floating-point conditional select
    Group {
        mask: 0x5F20_0C00,
        value: 0x1E20_0C00,
        family: Family::FloatingPoint,
    },
    // Floating-point data-processing (3 source)
    Group {
        mask: 0x5F00_0000,
        value: 0x1F00_0000,
        family: Family::FloatingPoint,
    },
    // ---- Cryptographic instructions, of "Data processing (scalar floating-point and Advanced SIMD)".
    // Cryptographic AES
    Group {
        mask: 0xFF3E_0C00,
        value: 0x4E28_0800,
        family: Family::Cryptographic,
    },
    // Cryptographic three-register SHA
    Group {
        mask: 0xFF20_8C00,
        value: 0x5E00_0000,
        family: Family::Cryptographic,
    },
    // Cryptographic two-register SHA
    Group {
        mask: 0xFF3E_0C00,
        value: 0x5E28_0800,
        family: Family::Cryptographic,
    },
    // Cryptographic three-register, imm2
    Group {
        mask: 0xFFE0_C000,
        value: 0xCE40_8000,
        family: Family::Cryptographic,
    },
    // Cryptographic three-register SHA 512
    Group {
        mask: 0xFFE0_B000,
        value: 0xCE60_8000,
        family: Family::Cryptographic,
    },
    // Cryptographic four-register
    Group {
        mask: 0xFF80_8000,
        value: 0xCE00_0000,
        family: Family::Cryptographic,
    },
    // XAR
    Group {
        mask: 0xFFE0_0000,
        value: 0xCE80_0000,
        family: Family::Cryptographic,
    },
    // Cryptographic two-register SHA 512
    Group {
        mask: 0xFFFF_F000,
        value: 0xCEC0_8000,
        family: Family::Cryptographic,
    },
    // ---- Advanced SIMD on scalars, of "Data processing (scalar floating-point and Advanced SIMD)".
    // Advanced SIMD scalar copy
    Group {
        mask: 0xDFE0_8400,
        value: 0x5E00_0400,
        family: Family::AdvancedSimd,
    },
    // Advanced SIMD scalar three same FP16
    Group {
        mask: 0xDF60_C400,
        value: 0x5E40_0400,
        family: Family::AdvancedSimd,
    },
    // Advanced SIMD scalar two-register miscellaneous FP16
    Group {
        mask: 0xDF7E_0C00,
        value: 0x5E78_0800,
        family: Family::AdvancedSimd,
    },
    // Advanced SIMD scalar three same extra
    Group {
        mask: 0xDF20_8400,
        value: 0x5E00_8400,
        family: Family::AdvancedSimd,
    },
    // Advanced SIMD scalar two-register miscellaneous
    Group {
        mask: 0xDF3E_0C00,
        value: 0x5E20_0800,
        family: Family::AdvancedSimd,
    },
    // Advanced SIMD scalar pairwise
    Group {
        mask: 0xDF3E_0C00,
        value: 0x5E30_0800,
        family: Family::AdvancedSimd,
    },
    // Advanced SIMD scalar three different
    Group {
        mask: 0xDF20_0C00,
        value: 0x5E20_0000,
        family: Family::AdvancedSimd,
    },
    // Advanced SIMD scalar three same
    Group {
        mask: 0xDF20_0400,
        value: 0x5E20_0400,
        family: Family::AdvancedSimd,
    },
    // Advanced SIMD scalar shift by immediate
    Group {
        mask: 0xDF80_0400,
        value: 0x5F00_0400,
        family: Family::AdvancedSimd,
    },
    // Advanced SIMD scalar x indexed element
    Group {
        mask: 0xDF00_0400,
        value: 0x5F00_0000,
        family: Family::AdvancedSimd,
    },
    // ---- Advanced SIMD on vectors, of "Data processing (scalar floating-point and Advanced SIMD)".
    // Advanced SIMD table lookup and permute, and extract
    Group {
        mask: 0xBF20_8400,
        value: 0x0E00_0000,
        family: Family::AdvancedSimd,
    },
    Group {
        mask: 0xBF20_8400,
        value: 0x2E00_0000,
        family: Family::AdvancedSimd,
    },
    // Advanced SIMD copy
    Group {
        mask: 0x9FE0_8400,
        value: 0x0E00_0400,
        family: Family::AdvancedSimd,
    },
    // Advanced SIMD three same (FP16)
    Group {
        mask: 0x9F60_C400,
        value: 0x0E40_0400,
        family: Family::AdvancedSimd,
    },
    // Advanced SIMD two-register miscellaneous (FP16)
    Group {
        mask: 0x9F7E_0C00,
        value: 0x0E78_0800,
        family: Family::AdvancedSimd,
    },
    // Advanced SIMD three-register extension
    Group {
        mask: 0x9F20_8400,
        value: 0x0E00_8400,
        family: Family::AdvancedSimd,
    },
    // Advanced SIMD two-register miscellaneous
    Group {
        mask: 0x9F3E_0C00,
        value: 0x0E20_0800,
        family: Family::AdvancedSimd,
    },
    // Advanced SIMD across lanes
    Group {
        mask: 0x9F3E_0C00,
        value: 0x0E30_0800,
        family: Family::AdvancedSimd,
    },
    // Advanced SIMD three different
    Group {
        mask: 0x9F20_0C00,
        value: 0x0E20_0000,
        family: Family::AdvancedSimd,
    },
    // Advanced SIMD three same
    Group {
        mask: 0x9F20_0400,
        value: 0x0E20_0400,
        family: Family::AdvancedSimd,
    },
    // Advanced SIMD modified immediate, and shift by immediate
    Group {
        mask: 0x9F80_0400,
        value: 0x0F00_0400,
        family: Family::AdvancedSimd,
    },
    // Advanced SIMD vector x indexed element
    Group {
        mask: 0x9F00_0400,
        value: 0x0F00_0000,
        family: Family::AdvancedSimd,
    },
    // ---- SVE integer, permute and predicate encodings that are of floating point or of later extensions: bits 31:25
    // ---- are 0000010 or 0010010.
    // SVE bitwise shift by immediate (predicated): SQSHL, UQSHL, SRSHR, URSHR and SQSHLU
    Group {
        mask: 0xFF3E_E000,
        value: 0x0406_8000,
        family: Family::Sve2,
    },
    Group {
        mask: 0xFF3E_E000,
        value: 0x040C_8000,
        family: Family::Sve2,
    },
    Group {
        mask: 0xFF3F_E000,
        value: 0x040F_8000,
        family: Family::Sve2,
    },
    // SVE bitwise unary operations (predicated): FABS and FNEG
    Group {
        mask: 0xFF3E_E000,
        value: 0x041C_A000,
        family: Family::SveFloatingPoint,
    },
    // SVE bitwise logical operations (unpredicated): XAR, and SVE2 bitwise ternary operations
    Group {
        mask: 0xFF20_FC00,
        value: 0x0420_3400,
        family: Family::Sve2,
    },
    Group {
        mask: 0xFF20_F800,
        value: 0x0420_3800,
        family: Family::Sve2,
    },
    // Streaming SVE stack frame adjustment and size: ADDSVL and ADDSPL; RDSVL
    Group {
        mask: 0xFFA0_F800,
        value: 0x0420_5800,
        family: Family::Sme,
    },
    Group {
        mask: 0xFFFF_F800,
        value: 0x04BF_5800,
        family: Family::Sme,
    },
    // SVE2 integer multiply vectors (unpredicated)
    Group {
        mask: 0xFF20_E000,
        value: 0x0420_6000,
        family: Family::Sve2,
    },
    // SVE address generation: ADR
    Group {
        mask: 0xFF20_F000,
        value: 0x0420_A000,
        family: Family::SveLeftOut,
    },
    // SVE floating-point trig select coefficient, and exponential accelerator
    Group {
        mask: 0xFF20_FC00,
        value: 0x0420_B000,
        family: Family::SveFloatingPoint,
    },
    Group {
        mask: 0xFF3F_FC00,
        value: 0x0420_B800,
        family: Family::SveFloatingPoint,
    },
    // SVE copy floating-point immediate (predicated): FCPY
    Group {
        mask: 0xFF30_E000,
        value: 0x0510_C000,
        family: Family::SveFloatingPoint,
    },
    // SVE permute vector: EXT of two registers
    Group {
        mask: 0xFFE0_E000,
        value: 0x0560_0000,
        family: Family::Sve2,
    },
    // SVE permute vector segments
    Group {
        mask: 0xFFE0_E000,
        value: 0x05A0_0000,
        family: Family::SveLeftOut,
    },
    // SVE table lookup of three sources: TBL and TBX
    Group {
        mask: 0xFF20_F800,
        value: 0x0520_2800,
        family: Family::Sve2,
    },
    // SVE2 splice of two registers
    Group {
        mask: 0xFF3F_E000,
        value: 0x052D_8000,
        family: Family::Sve2,
    },
    // REVD
    Group {
        mask: 0xFFFF_E000,
        value: 0x052E_8000,
        family: Family::Sme,
    },
    // SVE integer compare scalar count and limit: WHILEGE, WHILEGT, WHILEHS and WHILEHI
    Group {
        mask: 0xFF20_E400,
        value: 0x2520_0000,
        family: Family::Sve2,
    },
    // SVE pointer conflict compare: WHILERW and WHILEWR
    Group {
        mask: 0xFF20_FC00,
        value: 0x2520_3000,
        family: Family::Sve2,
    },
    // SVE predicate select: PSEL, and compares of SME2 whose result is a pair or a counter
    Group {
        mask: 0xFF20_C000,
        value: 0x2520_4000,
        family: Family::Sme,
    },
    // SVE broadcast floating-point immediate (unpredicated): FDUP
    Group {
        mask: 0xFF3F_E000,
        value: 0x2539_C000,
        family: Family::SveFloatingPoint,
    },
    // SVE saturating inc/dec register and vector by predicate count: SQINCP, UQINCP, SQDECP and UQDECP
    Group {
        mask: 0xFF3C_F000,
        value: 0x2528_8000,
        family: Family::SveLeftOut,
    },
    // SVE integer dot product (mixed sign): USDOT; the same, indexed, and SUDOT
    Group {
        mask: 0xFFE0_FC00,
        value: 0x4480_7800,
        family: Family::SveLeftOut,
    },
    Group {
        mask: 0xFFE0_F800,
        value: 0x44A0_1800,
        family: Family::SveLeftOut,
    },
    // SVE integer clamp
    Group {
        mask: 0xFF20_F800,
        value: 0x4400_C000,
        family: Family::Sme,
    },
    // SVE integer matrix multiply accumulate
    Group {
        mask: 0xFF20_FC00,
        value: 0x4500_9800,
        family: Family::SveLeftOut,
    },
    // ---- The other SVE encodings with bits 31:29 at 010, which are SVE2's, and those at 011, of floating point.
    Group {
        mask: 0xFE00_0000,
        value: 0x4400_0000,
        family: Family::Sve2,
    },
    Group {
        mask: 0xFE00_0000,
        value: 0x6400_0000,
        family: Family::SveFloatingPoint,
    },
    // ---- SVE memory: bit 31 is 1, and bits 28:25 are 0010.
    // SVE 32-bit gather prefetch: scalar plus 32-bit scaled offsets, and vector plus immediate
    Group {
        mask: 0xFFA0_8010,
        value: 0x8420_0000,
        family: Family::SveLeftOut,
    },
    Group {
        mask: 0xFE60_E010,
        value: 0x8400_E000,
        family: Family::SveLeftOut,
    },
    // SVE contiguous prefetch: scalar plus immediate, and scalar plus scalar
    Group {
        mask: 0xFFC0_8010,
        value: 0x85C0_0000,
        family: Family::SveLeftOut,
    },
    Group {
        mask: 0xFE60_E010,
        value: 0x8400_C000,
        family: Family::SveLeftOut,
    },
    // SVE2 32-bit gather non-temporal load
    Group {
        mask: 0xFE60_C000,
        value: 0x8400_8000,
        family: Family::Sve2,
    },
    // SVE load and broadcast octoword: LD1RO
    Group {
        mask: 0xFE60_E000,
        value: 0xA420_0000,
        family: Family::SveLeftOut,
    },
    Group {
        mask: 0xFE70_E000,
        value: 0xA420_2000,
        family: Family::SveLeftOut,
    },
    // SVE 64-bit gather prefetch: scalar plus unpacked 32-bit scaled offsets, scalar plus 64-bit scaled offsets, and
    // vector plus immediate
    Group {
        mask: 0xFFA0_8010,
        value: 0xC420_0000,
        family: Family::SveLeftOut,
    },
    Group {
        mask: 0xFFE0_8010,
        value: 0xC460_8000,
        family: Family::SveLeftOut,
    },
    Group {
        mask: 0xFE60_E010,
        value: 0xC400_E000,
        family: Family::SveLeftOut,
    },
    // SVE2 64-bit gather non-temporal load
    Group {
        mask: 0xFE60_A000,
        value: 0xC400_8000,
        family: Family::Sve2,
    },
    // SVE2 64-bit and 32-bit scatter non-temporal store
    Group {
        mask: 0xFE20_E000,
        value: 0xE400_2000,
        family: Family::Sve2,
    },
];
