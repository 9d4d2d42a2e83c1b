//! The numbers of slots. A slot that shows a field of a form has the field's name: a register with the letter of its
//! kind in place of the field's first, a number behind how it is read. Behind the name stand the field's bits, where
//! fields of that name have others too; what tells or has a register's width, `B`, `H`, `S`, `D` and `Q` for lanes of
//! a fixed size, and `SP` where 31 is the stack pointer; and what a number is multiplied by. A number of several
//! fields is named by the highest and lowest bits of its parts. `IN` is what may be left out. Where another field
//! stands at the same place in other forms, the slot has that one's name in `shared_slots`.

/// Behind the last slot of a pattern.
pub const END: u8 = 0;

// ---- marks, and words that are always the same

/// `,`.
pub const COMMA: u8 = 1;

/// `[`.
pub const OPEN: u8 = 2;

/// `]`.
pub const CLOSE: u8 = 3;

/// `,`, which begins a part that may be left out.
pub const PERHAPS: u8 = 4;

/// `/`.
pub const SLASH: u8 = 5;

/// `z`.
pub const ZEROING: u8 = 6;

/// `m`.
pub const MERGING: u8 = 7;

/// `{`.
pub const OPEN_BRACE: u8 = 8;

/// `}`.
pub const CLOSE_BRACE: u8 = 9;

/// `!`.
pub const EXCLAMATION: u8 = 10;

/// `lsl`.
pub const LSL: u8 = 11;

/// `msl`.
pub const MSL: u8 = 12;

/// `mul`.
pub const MUL: u8 = 13;

/// `sxtx`.
pub const SXTX: u8 = 14;

/// `tpidr_el0`.
pub const TPIDR_EL0: u8 = 15;

/// `nzcv`.
pub const NZCV: u8 = 16;

/// `dczid_el0`.
pub const DCZID_EL0: u8 = 17;

/// `,` in a part that may be left out.
pub const IN_COMMA: u8 = 18;

/// `lsl` in a part that may be left out.
pub const IN_LSL: u8 = 19;

/// `mul` in a part that may be left out.
pub const IN_MUL: u8 = 20;

/// `vl` in a part that may be left out.
pub const IN_VL: u8 = 21;

/// `lsl`, `lsr`, `asr` or `ror`: bits 23 to 22; `lsl` where its part is left out.
pub const IN_SHIFT: u8 = 22;

// ---- general registers

/// A `w` or `x` register, as bit 31 tells: bits 4 to 0.
pub const RD: u8 = 23;

/// A `w` or `x` register, as bit 31 tells: bits 4 to 0, of which 31 is the stack pointer.
pub const RD_SP: u8 = 24;

/// A `w` or `x` register, as bit 31 tells: bits 9 to 5.
pub const RN: u8 = 25;

/// A `w` or `x` register, as bit 31 tells: bits 9 to 5, of which 31 is the stack pointer.
pub const RN_SP: u8 = 26;

/// A `w` or `x` register, as bit 31 tells: bits 20 to 16.
pub const RM: u8 = 27;

/// A `w` or `x` register, as bit 31 tells: bits 14 to 10.
pub const RA: u8 = 28;

/// A `w` or `x` register, as bit 30 tells: bits 4 to 0.
pub const RT_BY_30: u8 = 29;

/// A `x` or `w` register, as bit 22 tells: bits 4 to 0.
pub const RT_EXTENDED: u8 = 30;

/// A `w` or `x` register, as bit 12 tells: bits 9 to 5.
pub const RN_BY_12: u8 = 31;

/// A `w` or `x` register, as bit 12 tells: bits 20 to 16.
pub const RM_BY_12: u8 = 32;

/// A `w` or `x` register, as bit 22 tells: bits 9 to 5.
pub const RN_BY_22: u8 = 33;

/// A `w` or `x` register, as bit 22 tells: bits 20 to 16.
pub const RM_BY_22: u8 = 34;

/// A `w` register, or `x` for doublewords, as bits 23 to 22 have, which another slot tells: bits 4 to 0.
pub const RD_OF_LANE: u8 = 35;

/// A `w` register, or `x` for doublewords, as bits 23 to 22 have, which another slot tells: bits 9 to 5.
pub const R_X_OF_LANE: u8 = 36;

/// A `w` register, or `x` for doublewords, as bits 23 to 22 have, which another slot tells: bits 9 to 5, of which 31 is
/// the stack pointer.
pub const RN_SP_OF_LANE: u8 = 37;

/// A `w` register, or `x` for doublewords, as bits 23 to 22 have, which another slot tells: bits 20 to 16.
pub const R_Y_OF_LANE: u8 = 38;

/// A `w` register: bits 4 to 0.
pub const WD: u8 = 39;

/// A `w` register: bits 4 to 0, of which 31 is the stack pointer.
pub const WD_SP: u8 = 40;

/// A `w` register: bits 9 to 5.
pub const WN: u8 = 41;

/// A `w` register: bits 9 to 5, of which 31 is the stack pointer.
pub const WN_SP: u8 = 42;

/// A `w` register: bits 20 to 16.
pub const WM: u8 = 43;

/// A `w` register: bits 14 to 10.
pub const WT2: u8 = 44;

/// A `x` register: bits 4 to 0.
pub const XD: u8 = 45;

/// A `x` register: bits 4 to 0, of which 31 is the stack pointer.
pub const XD_SP: u8 = 46;

/// A `x` register: bits 9 to 5.
pub const XN: u8 = 47;

/// A `x` register: bits 9 to 5, of which 31 is the stack pointer.
pub const XN_SP: u8 = 48;

/// A `x` register: bits 20 to 16.
pub const XM: u8 = 49;

/// A `x` register: bits 20 to 16, of which 31 is the stack pointer.
pub const XN_SP_20_16: u8 = 50;

/// A `x` register: bits 14 to 10.
pub const XA: u8 = 51;

// ---- scalar and vector registers of A64

/// A `b` register: bits 4 to 0.
pub const BT: u8 = 52;

/// A `h` register: bits 4 to 0.
pub const HT: u8 = 53;

/// A `s` register: bits 4 to 0.
pub const SD: u8 = 54;

/// A `d` register: bits 4 to 0.
pub const DD: u8 = 55;

/// A `q` register: bits 4 to 0.
pub const QT: u8 = 56;

/// A `s` register: bits 9 to 5.
pub const SN: u8 = 57;

/// A `d` register: bits 9 to 5.
pub const DN: u8 = 58;

/// A `s` register: bits 14 to 10.
pub const ST2: u8 = 59;

/// A `d` register: bits 14 to 10.
pub const DT2: u8 = 60;

/// A `q` register: bits 14 to 10.
pub const QT2: u8 = 61;

/// A `b`, `h`, `s` or `d` register, as bits 23 to 22 have, which another slot tells: bits 4 to 0.
pub const VD: u8 = 62;

/// A `b`, `h`, `s` or `d` register, as bits 23 to 22 have, which another slot tells: bits 9 to 5.
pub const VN: u8 = 63;

/// A `s`, `d` or `q` register, as bits 31 to 30 tell: bits 4 to 0.
pub const VT_BY_31_30: u8 = 64;

/// A `v` register with `.8b` or `.16b`, as bit 30 tells: bits 4 to 0.
pub const VD_BYTES: u8 = 65;

/// A `v` register with `.4h` or `.8h`, as bit 30 tells: bits 4 to 0.
pub const VD_HALFWORDS: u8 = 66;

/// A `v` register with `.2s` or `.4s`, as bit 30 tells: bits 4 to 0.
pub const VD_WORDS: u8 = 67;

/// A `v` register with `.2d`: bits 4 to 0.
pub const VD_DOUBLEWORDS: u8 = 68;

// ---- Z registers

/// A `z` register with the suffix that bits 23 to 22 tell: bits 4 to 0.
pub const ZD: u8 = 69;

/// A `z` register with `.b`: bits 4 to 0.
pub const ZD_B: u8 = 70;

/// A `z` register with `.d`: bits 4 to 0.
pub const ZD_D: u8 = 71;

/// A `z` register with `.h`: bits 4 to 0.
pub const ZD_H: u8 = 72;

/// A `z` register with `.q`: bits 4 to 0.
pub const ZD_Q: u8 = 73;

/// A `z` register with `.s`: bits 4 to 0.
pub const ZD_S: u8 = 74;

/// A `z` register: bits 4 to 0.
pub const ZD_WHOLE: u8 = 75;

/// A `z` register with the suffix that bits 23 to 22 tell: bits 20 to 16.
pub const ZM: u8 = 76;

/// A `z` register with `.b`: bits 20 to 16.
pub const ZM_B: u8 = 77;

/// A `z` register with `.d`: bits 20 to 16.
pub const ZM_D: u8 = 78;

/// A `z` register with `.h`: bits 20 to 16.
pub const ZM_H: u8 = 79;

/// A `z` register with `.b`: bits 18 to 16.
pub const ZM_LOW_B: u8 = 80;

/// A `z` register with `.h`: bits 19 to 16.
pub const ZM_LOW_H: u8 = 81;

/// A `z` register with the suffix of a quarter of what bits 23 to 22 have, which another slot tells: bits 20 to 16.
pub const ZM_QUARTER: u8 = 82;

/// A `z` register with `.s`: bits 20 to 16.
pub const ZM_S: u8 = 83;

/// A `z` register with the suffix that bits 23 to 22 tell: bits 9 to 5.
pub const ZN: u8 = 84;

/// A `z` register with `.b`: bits 9 to 5.
pub const ZN_B: u8 = 85;

/// A `z` register with `.d`: bits 9 to 5.
pub const ZN_D: u8 = 86;

/// A `z` register with `.h`: bits 9 to 5.
pub const ZN_H: u8 = 87;

/// A `z` register with the suffix of half of what bits 23 to 22 have, which another slot tells: bits 9 to 5.
pub const ZN_HALF: u8 = 88;

/// A `z` register with `.q`: bits 9 to 5.
pub const ZN_Q: u8 = 89;

/// A `z` register with the suffix of a quarter of what bits 23 to 22 have, which another slot tells: bits 9 to 5.
pub const ZN_QUARTER: u8 = 90;

/// A `z` register with `.s`: bits 9 to 5.
pub const ZN_S: u8 = 91;

/// A `z` register: bits 9 to 5.
pub const ZN_WHOLE: u8 = 92;

/// A `z` register with `.b`: bits 4 to 0.
pub const ZT_B_0: u8 = 93;

/// A `z` register with `.b`: bits 4 to 0 plus 1, modulo 32.
pub const ZT_B_1: u8 = 94;

/// A `z` register with `.b`: bits 4 to 0 plus 2, modulo 32.
pub const ZT_B_2: u8 = 95;

/// A `z` register with `.b`: bits 4 to 0 plus 3, modulo 32.
pub const ZT_B_3: u8 = 96;

/// A `z` register with `.d`: bits 4 to 0.
pub const ZT_D_0: u8 = 97;

/// A `z` register with `.d`: bits 4 to 0 plus 1, modulo 32.
pub const ZT_D_1: u8 = 98;

/// A `z` register with `.d`: bits 4 to 0 plus 2, modulo 32.
pub const ZT_D_2: u8 = 99;

/// A `z` register with `.d`: bits 4 to 0 plus 3, modulo 32.
pub const ZT_D_3: u8 = 100;

/// A `z` register with `.h`: bits 4 to 0.
pub const ZT_H_0: u8 = 101;

/// A `z` register with `.h`: bits 4 to 0 plus 1, modulo 32.
pub const ZT_H_1: u8 = 102;

/// A `z` register with `.h`: bits 4 to 0 plus 2, modulo 32.
pub const ZT_H_2: u8 = 103;

/// A `z` register with `.h`: bits 4 to 0 plus 3, modulo 32.
pub const ZT_H_3: u8 = 104;

/// A `z` register with `.s`: bits 4 to 0.
pub const ZT_S_0: u8 = 105;

/// A `z` register with the suffix that bits 22 to 21 tell: bits 4 to 0.
pub const ZT_STORED: u8 = 106;

/// A `z` register with `.s`: bits 4 to 0 plus 1, modulo 32.
pub const ZT_S_1: u8 = 107;

/// A `z` register with `.s`: bits 4 to 0 plus 2, modulo 32.
pub const ZT_S_2: u8 = 108;

/// A `z` register with `.s`: bits 4 to 0 plus 3, modulo 32.
pub const ZT_S_3: u8 = 109;

// ---- predicates

/// A `p` register with the suffix that bits 23 to 22 tell: bits 3 to 0.
pub const PD: u8 = 110;

/// A `p` register with `.b`: bits 3 to 0.
pub const PD_B: u8 = 111;

/// A `p` register with `.d`: bits 3 to 0.
pub const PD_D: u8 = 112;

/// A `p` register with `.h`: bits 3 to 0.
pub const PD_H: u8 = 113;

/// A `p` register with `.s`: bits 3 to 0.
pub const PD_S: u8 = 114;

/// A `p` register: bits 12 to 10.
pub const PG: u8 = 115;

/// A `p` register: bits 19 to 16.
pub const PG_19_16: u8 = 116;

/// A `p` register: bits 8 to 5.
pub const PG_8_5: u8 = 117;

/// A `p` register: bits 13 to 10.
pub const PG_13_10: u8 = 118;

/// A `p` register with the suffix that bits 23 to 22 tell: bits 19 to 16.
pub const PM: u8 = 119;

/// A `p` register with `.b`: bits 19 to 16.
pub const PM_B: u8 = 120;

/// A `p` register with the suffix that bits 23 to 22 tell: bits 8 to 5.
pub const PN: u8 = 121;

/// A `p` register with `.b`: bits 8 to 5.
pub const PN_B: u8 = 122;

/// `z` or `m`: bit 14.
pub const M_14: u8 = 123;

/// `z` or `m`: bit 16.
pub const M_16: u8 = 124;

/// `z` or `m`: bit 4.
pub const M_4: u8 = 125;

/// A `p` register: bits 3 to 0.
pub const PT: u8 = 126;

// ---- conditions, extends and counts

/// `uxtw` or `sxtw`: bit 14.
pub const XS_14: u8 = 127;

/// `uxtw` or `sxtw`: bit 22.
pub const XS_22: u8 = 128;

/// The name of a count: bits 9 to 5; `all` where its part is left out.
pub const PATTERN: u8 = 129;

/// A condition: bits 15 to 12.
pub const COND: u8 = 130;

/// The condition that holds where that of bits 15 to 12 doesn't.
pub const INVERTED_COND: u8 = 131;

/// `uxtw` or `sxtw`: bit 15.
pub const EXT_WORD: u8 = 132;

/// `uxtx` or `sxtx`: bit 15.
pub const EXT_DOUBLEWORD: u8 = 133;

/// An unsigned or signed extend: bit 15, of the size that bits 14 to 13 tell.
pub const EXT: u8 = 134;

/// The same of a byte, a halfword or a word: bit 15, of the size that bits 14 to 13 tell.
pub const EXT_NARROW: u8 = 135;

// ---- numbers

/// `#n` in hexadecimal: the bitmask of 64 bits that bits 17 to 5 make.
pub const BITMASK_17_5: u8 = 136;

/// `#n`: bits 9 to 5, where that count has no name.
pub const PATTERN_NUMBER: u8 = 137;

/// `n`: bits 20 to 19.
pub const INDEX_20_19: u8 = 138;

/// `n`: bit 20.
pub const INDEX_20_20: u8 = 139;

/// `n`: bits 23 to 22.
pub const INDEX_23_22: u8 = 140;

/// `n`: bits 23 to 22 and bits 20 to 17.
pub const INDEX_23_22_20_17: u8 = 141;

/// `n`: bits 23 to 22 and bits 20 to 18.
pub const INDEX_23_22_20_18: u8 = 142;

/// `n`: bits 23 to 22 and bits 20 to 19.
pub const INDEX_23_22_20_19: u8 = 143;

/// `n`: bits 23 to 22 and bit 20.
pub const INDEX_23_22_20_20: u8 = 144;

/// `#n`: bits 19 to 16 plus 1.
pub const IMM4_PLUS_1: u8 = 145;

/// `#1`.
pub const NUMBER_1: u8 = 146;

/// `#2`.
pub const NUMBER_2: u8 = 147;

/// `#3`.
pub const NUMBER_3: u8 = 148;

/// `#n`: 8 minus bits 18 to 16.
pub const RIGHT_18_16: u8 = 149;

/// `#n`: 16 minus bits 19 to 16.
pub const RIGHT_19_16: u8 = 150;

/// `#n`: 32 minus bits 20 to 16.
pub const RIGHT_20_16: u8 = 151;

/// `#n`: 64 minus bit 22 and bits 20 to 16.
pub const RIGHT_22_22_20_16: u8 = 152;

/// `#n`: 64 minus bit 22 and bits 9 to 5.
pub const RIGHT_22_22_9_5: u8 = 153;

/// `#n`: 8 minus bits 7 to 5.
pub const RIGHT_7_5: u8 = 154;

/// `#n`: 16 minus bits 8 to 5.
pub const RIGHT_8_5: u8 = 155;

/// `#n`: 32 minus bits 9 to 5.
pub const RIGHT_9_5: u8 = 156;

/// `#n`: bits 10 to 5, signed.
pub const SIGNED_IMM6_10_5: u8 = 157;

/// `#n`: bits 12 to 5, signed.
pub const SIGNED_IMM8: u8 = 158;

/// `#n`: bits 20 to 16, signed.
pub const SIGNED_IMM5: u8 = 159;

/// `#n`: bits 9 to 5, signed.
pub const SIGNED_X: u8 = 160;

/// `#n`: bits 12 to 5.
pub const UNSIGNED_IMM8: u8 = 161;

/// `#n`: bits 18 to 16.
pub const LEFT_18_16: u8 = 162;

/// `#n`: bits 19 to 16.
pub const LEFT_19_16: u8 = 163;

/// `#n`: bits 20 to 14.
pub const UNSIGNED_IMM7_20_14: u8 = 164;

/// `#n`: bits 20 to 16.
pub const LEFT_20_16: u8 = 165;

/// `#n`: bits 20 to 16 and bits 12 to 10.
pub const UNSIGNED_20_16_12_10: u8 = 166;

/// `#n`: bit 22 and bits 20 to 16.
pub const LEFT_22_22_20_16: u8 = 167;

/// `#n`: bit 22 and bits 9 to 5.
pub const LEFT_22_22_9_5: u8 = 168;

/// `#n`: bits 7 to 5.
pub const LEFT_7_5: u8 = 169;

/// `#n`: bits 8 to 5.
pub const LEFT_8_5: u8 = 170;

/// `#n`: bits 9 to 5.
pub const LEFT_9_5: u8 = 171;

/// `#n` in hexadecimal: the bitmask of 32 bits that bits 22 to 10 make.
pub const BITMASK_22_10_OF_32: u8 = 172;

/// `#n` in hexadecimal: the bitmask of 64 bits that bits 22 to 10 make.
pub const BITMASK_22_10_OF_64: u8 = 173;

/// `#n` in hexadecimal: a byte of ones for each 1 of bits 18 to 16 and bits 9 to 5.
pub const SPREAD: u8 = 174;

/// `#n`: the left shift of 32 bits that bits 21 to 10 make.
pub const LEFT_21_10_OF_32: u8 = 175;

/// `#n`: the left shift of 64 bits that bits 21 to 10 make.
pub const LEFT_21_10_OF_64: u8 = 176;

/// `#n`: 8 times (bit 12 plus 1).
pub const MSL_AMOUNT: u8 = 177;

/// `#0`.
pub const NUMBER_0: u8 = 178;

/// `#4`.
pub const NUMBER_4: u8 = 179;

/// `#n`: bits 20 to 12, signed.
pub const SIGNED_IMM9: u8 = 180;

/// `#n`: 4 times bits 21 to 15, signed.
pub const SIGNED_IMM7_21_15_BY_4: u8 = 181;

/// `#n`: 8 times bits 21 to 15, signed.
pub const SIGNED_IMM7_21_15_BY_8: u8 = 182;

/// `#n`: 16 times bits 21 to 15, signed.
pub const SIGNED_IMM7_21_15_BY_16: u8 = 183;

/// `#n`: bits 3 to 0.
pub const UNSIGNED_F: u8 = 184;

/// `#n`: bits 4 to 0.
pub const RT_NUMBER: u8 = 185;

/// `#n`: bits 11 to 5.
pub const UNSIGNED_N_11_5: u8 = 186;

/// `#n`: bits 11 to 8.
pub const UNSIGNED_N_11_8: u8 = 187;

/// `#n`: bits 12 to 10.
pub const UNSIGNED_A: u8 = 188;

/// `#n`: bits 15 to 10.
pub const UNSIGNED_S: u8 = 189;

/// `#n`: bits 18 to 16 and bits 9 to 5.
pub const UNSIGNED_18_16_9_5: u8 = 190;

/// `#n`: bits 20 to 5.
pub const UNSIGNED_IMM16: u8 = 191;

/// `#n`: bits 21 to 10.
pub const UNSIGNED_IMM12: u8 = 192;

/// `#n`: bits 21 to 16.
pub const UNSIGNED_R: u8 = 193;

/// `#n`: bit 31 and bits 23 to 19.
pub const UNSIGNED_31_31_23_19: u8 = 194;

// ---- numbers in parts that may be left out

/// `#n`: bits 19 to 16 plus 1; 1 where its part is left out.
pub const IN_IMM4_PLUS_1: u8 = 195;

/// `#n`: bits 19 to 16, signed; 0 where its part is left out.
pub const IN_SIGNED_IMM4: u8 = 196;

/// `#n`: 16 times bits 19 to 16, signed; 0 where its part is left out.
pub const IN_SIGNED_IMM4_BY_16: u8 = 197;

/// `#n`: 2 times bits 19 to 16, signed; 0 where its part is left out.
pub const IN_SIGNED_IMM4_BY_2: u8 = 198;

/// `#n`: 3 times bits 19 to 16, signed; 0 where its part is left out.
pub const IN_SIGNED_IMM4_BY_3: u8 = 199;

/// `#n`: 4 times bits 19 to 16, signed; 0 where its part is left out.
pub const IN_SIGNED_IMM4_BY_4: u8 = 200;

/// `#n`: bits 21 to 16 and bits 12 to 10, signed; 0 where its part is left out.
pub const IN_SIGNED_21_16_12_10: u8 = 201;

/// `#n`: 8 times bit 13; 0 where its part is left out.
pub const IN_UNSIGNED_13_13_BY_8: u8 = 202;

/// `#n`: bits 20 to 16; 0 where its part is left out.
pub const IN_UNSIGNED_IMM5: u8 = 203;

/// `#n`: 2 times bits 20 to 16; 0 where its part is left out.
pub const IN_UNSIGNED_IMM5_BY_2: u8 = 204;

/// `#n`: 4 times bits 20 to 16; 0 where its part is left out.
pub const IN_UNSIGNED_IMM5_BY_4: u8 = 205;

/// `#n`: 8 times bits 20 to 16; 0 where its part is left out.
pub const IN_UNSIGNED_IMM5_BY_8: u8 = 206;

/// `#n`: bits 21 to 16; 0 where its part is left out.
pub const IN_UNSIGNED_IMM6_21_16: u8 = 207;

/// `#n`: 2 times bits 21 to 16; 0 where its part is left out.
pub const IN_UNSIGNED_IMM6_21_16_BY_2: u8 = 208;

/// `#n`: 4 times bits 21 to 16; 0 where its part is left out.
pub const IN_UNSIGNED_IMM6_21_16_BY_4: u8 = 209;

/// `#n`: 8 times bits 21 to 16; 0 where its part is left out.
pub const IN_UNSIGNED_IMM6_21_16_BY_8: u8 = 210;

/// `#n`: bits 20 to 12, signed; 0 where its part is left out.
pub const IN_SIGNED_IMM9: u8 = 211;

/// `#n`: 4 times bits 21 to 15, signed; 0 where its part is left out.
pub const IN_SIGNED_IMM7_21_15_BY_4: u8 = 212;

/// `#n`: 8 times bits 21 to 15, signed; 0 where its part is left out.
pub const IN_SIGNED_IMM7_21_15_BY_8: u8 = 213;

/// `#n`: 16 times bits 21 to 15, signed; 0 where its part is left out.
pub const IN_SIGNED_IMM7_21_15_BY_16: u8 = 214;

/// `#n`: 12 times bit 22; 0 where its part is left out.
pub const IN_UNSIGNED_SH_22_BY_12: u8 = 215;

/// `#n`: 16 times bits 22 to 21; 0 where its part is left out.
pub const IN_UNSIGNED_HW_BY_16: u8 = 216;

/// `#n`: bits 15 to 10; 0 where its part is left out.
pub const IN_UNSIGNED_AMOUNT: u8 = 217;

/// `#n`: 8 times bits 14 to 13; 0 where its part is left out.
pub const IN_UNSIGNED_14_13_BY_8: u8 = 218;

/// `#n`: bits 21 to 10; 0 where its part is left out.
pub const IN_UNSIGNED_IMM12: u8 = 219;

/// `#n`: 2 times bits 21 to 10; 0 where its part is left out.
pub const IN_UNSIGNED_IMM12_BY_2: u8 = 220;

/// `#n`: 4 times bits 21 to 10; 0 where its part is left out.
pub const IN_UNSIGNED_IMM12_BY_4: u8 = 221;

/// `#n`: 8 times bits 21 to 10; 0 where its part is left out.
pub const IN_UNSIGNED_IMM12_BY_8: u8 = 222;

/// `#n`: 16 times bits 21 to 10; 0 where its part is left out.
pub const IN_UNSIGNED_IMM12_BY_16: u8 = 223;

// ---- targets

/// A target: bits 25 to 0 signed, times 4, behind the instruction's address.
pub const TARGET_IMM26: u8 = 224;

/// A target: bits 23 to 5 signed, times 4, behind the instruction's address.
pub const TARGET_IMM19: u8 = 225;

/// A target: bits 18 to 5 signed, times 4, behind the instruction's address.
pub const TARGET_IMM14: u8 = 226;

/// A target: bits 23 to 5 and bits 30 to 29 signed, behind the instruction's address.
pub const TARGET_23_5_30_29: u8 = 227;

/// A target: bits 23 to 5 and bits 30 to 29 signed, times 4096, behind the instruction's address, which is rounded down
/// to a multiple of 4096.
pub const TARGET_23_5_30_29_BY_PAGE: u8 = 228;

// ---- behind the others

/// A `w` or `x` register, as bit 30 tells: bits 20 to 16.
pub const RS_BY_30: u8 = 229;
