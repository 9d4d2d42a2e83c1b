//! The names of instructions, and their numbers. A new one is put last.

pub const ABS: u16 = 0;

pub const ADC: u16 = 1;

pub const ADCS: u16 = 2;

pub const ADD: u16 = 3;

pub const ADDPL: u16 = 4;

pub const ADDS: u16 = 5;

pub const ADDVL: u16 = 6;

pub const ADR: u16 = 7;

pub const ADRP: u16 = 8;

pub const AND: u16 = 9;

pub const ANDS: u16 = 10;

pub const ANDV: u16 = 11;

pub const ASR: u16 = 12;

pub const ASRD: u16 = 13;

pub const ASRR: u16 = 14;

pub const ASRV: u16 = 15;

pub const B: u16 = 16;

pub const B_AL: u16 = 17;

pub const B_CC: u16 = 18;

pub const B_CS: u16 = 19;

pub const B_EQ: u16 = 20;

pub const B_GE: u16 = 21;

pub const B_GT: u16 = 22;

pub const B_HI: u16 = 23;

pub const B_LE: u16 = 24;

pub const B_LS: u16 = 25;

pub const B_LT: u16 = 26;

pub const B_MI: u16 = 27;

pub const B_NE: u16 = 28;

pub const B_NV: u16 = 29;

pub const B_PL: u16 = 30;

pub const B_VC: u16 = 31;

pub const B_VS: u16 = 32;

pub const BFM: u16 = 33;

pub const BIC: u16 = 34;

pub const BICS: u16 = 35;

pub const BL: u16 = 36;

pub const BLR: u16 = 37;

pub const BR: u16 = 38;

pub const BRK: u16 = 39;

pub const BRKA: u16 = 40;

pub const BRKAS: u16 = 41;

pub const BRKB: u16 = 42;

pub const BRKBS: u16 = 43;

pub const BRKN: u16 = 44;

pub const BRKNS: u16 = 45;

pub const BRKPA: u16 = 46;

pub const BRKPAS: u16 = 47;

pub const BRKPB: u16 = 48;

pub const BRKPBS: u16 = 49;

pub const CBNZ: u16 = 50;

pub const CBZ: u16 = 51;

pub const CCMN: u16 = 52;

pub const CCMP: u16 = 53;

pub const CLASTA: u16 = 54;

pub const CLASTB: u16 = 55;

pub const CLREX: u16 = 56;

pub const CLS: u16 = 57;

pub const CLZ: u16 = 58;

pub const CMP: u16 = 59;

pub const CMPEQ: u16 = 60;

pub const CMPGE: u16 = 61;

pub const CMPGT: u16 = 62;

pub const CMPHI: u16 = 63;

pub const CMPHS: u16 = 64;

pub const CMPLE: u16 = 65;

pub const CMPLO: u16 = 66;

pub const CMPLS: u16 = 67;

pub const CMPLT: u16 = 68;

pub const CMPNE: u16 = 69;

pub const CNOT: u16 = 70;

pub const CNT: u16 = 71;

pub const CNTB: u16 = 72;

pub const CNTD: u16 = 73;

pub const CNTH: u16 = 74;

pub const CNTP: u16 = 75;

pub const CNTW: u16 = 76;

pub const COMPACT: u16 = 77;

pub const CPY: u16 = 78;

pub const CSEL: u16 = 79;

pub const CSET: u16 = 80;

pub const CSINC: u16 = 81;

pub const CSINV: u16 = 82;

pub const CSNEG: u16 = 83;

pub const CTERMEQ: u16 = 84;

pub const CTERMNE: u16 = 85;

pub const DECB: u16 = 86;

pub const DECD: u16 = 87;

pub const DECH: u16 = 88;

pub const DECP: u16 = 89;

pub const DECW: u16 = 90;

pub const DMB: u16 = 91;

pub const DSB: u16 = 92;

pub const DUP: u16 = 93;

pub const DUPM: u16 = 94;

pub const EON: u16 = 95;

pub const EOR: u16 = 96;

pub const EORS: u16 = 97;

pub const EORV: u16 = 98;

pub const EXT: u16 = 99;

pub const EXTR: u16 = 100;

pub const FMOV: u16 = 101;

pub const HINT: u16 = 102;

pub const HLT: u16 = 103;

pub const INCB: u16 = 104;

pub const INCD: u16 = 105;

pub const INCH: u16 = 106;

pub const INCP: u16 = 107;

pub const INCW: u16 = 108;

pub const INDEX: u16 = 109;

pub const INSR: u16 = 110;

pub const ISB: u16 = 111;

pub const LASTA: u16 = 112;

pub const LASTB: u16 = 113;

pub const LD1B: u16 = 114;

pub const LD1D: u16 = 115;

pub const LD1H: u16 = 116;

pub const LD1RB: u16 = 117;

pub const LD1RD: u16 = 118;

pub const LD1RH: u16 = 119;

pub const LD1RQB: u16 = 120;

pub const LD1RQD: u16 = 121;

pub const LD1RQH: u16 = 122;

pub const LD1RQW: u16 = 123;

pub const LD1RSB: u16 = 124;

pub const LD1RSH: u16 = 125;

pub const LD1RSW: u16 = 126;

pub const LD1RW: u16 = 127;

pub const LD1SB: u16 = 128;

pub const LD1SH: u16 = 129;

pub const LD1SW: u16 = 130;

pub const LD1W: u16 = 131;

pub const LD2B: u16 = 132;

pub const LD2D: u16 = 133;

pub const LD2H: u16 = 134;

pub const LD2W: u16 = 135;

pub const LD3B: u16 = 136;

pub const LD3D: u16 = 137;

pub const LD3H: u16 = 138;

pub const LD3W: u16 = 139;

pub const LD4B: u16 = 140;

pub const LD4D: u16 = 141;

pub const LD4H: u16 = 142;

pub const LD4W: u16 = 143;

pub const LDAR: u16 = 144;

pub const LDARB: u16 = 145;

pub const LDARH: u16 = 146;

pub const LDAXR: u16 = 147;

pub const LDAXRB: u16 = 148;

pub const LDAXRH: u16 = 149;

pub const LDFF1B: u16 = 150;

pub const LDFF1D: u16 = 151;

pub const LDFF1H: u16 = 152;

pub const LDFF1SB: u16 = 153;

pub const LDFF1SH: u16 = 154;

pub const LDFF1SW: u16 = 155;

pub const LDFF1W: u16 = 156;

pub const LDNF1B: u16 = 157;

pub const LDNF1D: u16 = 158;

pub const LDNF1H: u16 = 159;

pub const LDNF1SB: u16 = 160;

pub const LDNF1SH: u16 = 161;

pub const LDNF1SW: u16 = 162;

pub const LDNF1W: u16 = 163;

pub const LDNP: u16 = 164;

pub const LDNT1B: u16 = 165;

pub const LDNT1D: u16 = 166;

pub const LDNT1H: u16 = 167;

pub const LDNT1W: u16 = 168;

pub const LDP: u16 = 169;

pub const LDPSW: u16 = 170;

pub const LDR: u16 = 171;

pub const LDRB: u16 = 172;

pub const LDRH: u16 = 173;

pub const LDRSB: u16 = 174;

pub const LDRSH: u16 = 175;

pub const LDRSW: u16 = 176;

pub const LDUR: u16 = 177;

pub const LDURB: u16 = 178;

pub const LDURH: u16 = 179;

pub const LDURSB: u16 = 180;

pub const LDURSH: u16 = 181;

pub const LDURSW: u16 = 182;

pub const LDXR: u16 = 183;

pub const LDXRB: u16 = 184;

pub const LDXRH: u16 = 185;

pub const LSL: u16 = 186;

pub const LSLR: u16 = 187;

pub const LSLV: u16 = 188;

pub const LSR: u16 = 189;

pub const LSRR: u16 = 190;

pub const LSRV: u16 = 191;

pub const MAD: u16 = 192;

pub const MADD: u16 = 193;

pub const MLA: u16 = 194;

pub const MLS: u16 = 195;

pub const MOV: u16 = 196;

pub const MOVI: u16 = 197;

pub const MOVK: u16 = 198;

pub const MOVN: u16 = 199;

pub const MOVPRFX: u16 = 200;

pub const MOVZ: u16 = 201;

pub const MRS: u16 = 202;

pub const MSB: u16 = 203;

pub const MSR: u16 = 204;

pub const MSUB: u16 = 205;

pub const MUL: u16 = 206;

pub const MVNI: u16 = 207;

pub const NAND: u16 = 208;

pub const NANDS: u16 = 209;

pub const NEG: u16 = 210;

pub const NOP: u16 = 211;

pub const NOR: u16 = 212;

pub const NORS: u16 = 213;

pub const NOT: u16 = 214;

pub const ORN: u16 = 215;

pub const ORNS: u16 = 216;

pub const ORR: u16 = 217;

pub const ORRS: u16 = 218;

pub const ORV: u16 = 219;

pub const PFALSE: u16 = 220;

pub const PFIRST: u16 = 221;

pub const PNEXT: u16 = 222;

pub const PRFM: u16 = 223;

pub const PRFUM: u16 = 224;

pub const PTEST: u16 = 225;

pub const PTRUE: u16 = 226;

pub const PTRUES: u16 = 227;

pub const PUNPKHI: u16 = 228;

pub const PUNPKLO: u16 = 229;

pub const RBIT: u16 = 230;

pub const RDFFR: u16 = 231;

pub const RDFFRS: u16 = 232;

pub const RDVL: u16 = 233;

pub const RET: u16 = 234;

pub const REV: u16 = 235;

pub const REV16: u16 = 236;

pub const REV32: u16 = 237;

pub const REVB: u16 = 238;

pub const REVH: u16 = 239;

pub const REVW: u16 = 240;

pub const RORV: u16 = 241;

pub const SABD: u16 = 242;

pub const SADDV: u16 = 243;

pub const SBC: u16 = 244;

pub const SBCS: u16 = 245;

pub const SBFM: u16 = 246;

pub const SDIV: u16 = 247;

pub const SDIVR: u16 = 248;

pub const SDOT: u16 = 249;

pub const SEL: u16 = 250;

pub const SETFFR: u16 = 251;

pub const SMADDL: u16 = 252;

pub const SMAX: u16 = 253;

pub const SMAXV: u16 = 254;

pub const SMIN: u16 = 255;

pub const SMINV: u16 = 256;

pub const SMSUBL: u16 = 257;

pub const SMULH: u16 = 258;

pub const SPLICE: u16 = 259;

pub const SQADD: u16 = 260;

pub const SQDECB: u16 = 261;

pub const SQDECD: u16 = 262;

pub const SQDECH: u16 = 263;

pub const SQDECW: u16 = 264;

pub const SQINCB: u16 = 265;

pub const SQINCD: u16 = 266;

pub const SQINCH: u16 = 267;

pub const SQINCW: u16 = 268;

pub const SQSUB: u16 = 269;

pub const ST1B: u16 = 270;

pub const ST1D: u16 = 271;

pub const ST1H: u16 = 272;

pub const ST1W: u16 = 273;

pub const ST2B: u16 = 274;

pub const ST2D: u16 = 275;

pub const ST2H: u16 = 276;

pub const ST2W: u16 = 277;

pub const ST3B: u16 = 278;

pub const ST3D: u16 = 279;

pub const ST3H: u16 = 280;

pub const ST3W: u16 = 281;

pub const ST4B: u16 = 282;

pub const ST4D: u16 = 283;

pub const ST4H: u16 = 284;

pub const ST4W: u16 = 285;

pub const STLR: u16 = 286;

pub const STLRB: u16 = 287;

pub const STLRH: u16 = 288;

pub const STLXR: u16 = 289;

pub const STLXRB: u16 = 290;

pub const STLXRH: u16 = 291;

pub const STNP: u16 = 292;

pub const STNT1B: u16 = 293;

pub const STNT1D: u16 = 294;

pub const STNT1H: u16 = 295;

pub const STNT1W: u16 = 296;

pub const STP: u16 = 297;

pub const STR: u16 = 298;

pub const STRB: u16 = 299;

pub const STRH: u16 = 300;

pub const STUR: u16 = 301;

pub const STURB: u16 = 302;

pub const STURH: u16 = 303;

pub const STXR: u16 = 304;

pub const STXRB: u16 = 305;

pub const STXRH: u16 = 306;

pub const SUB: u16 = 307;

pub const SUBR: u16 = 308;

pub const SUBS: u16 = 309;

pub const SUNPKHI: u16 = 310;

pub const SUNPKLO: u16 = 311;

pub const SVC: u16 = 312;

pub const SXTB: u16 = 313;

pub const SXTH: u16 = 314;

pub const SXTW: u16 = 315;

pub const TBL: u16 = 316;

pub const TBNZ: u16 = 317;

pub const TBZ: u16 = 318;

pub const TRN1: u16 = 319;

pub const TRN2: u16 = 320;

pub const UABD: u16 = 321;

pub const UADDV: u16 = 322;

pub const UBFM: u16 = 323;

pub const UDIV: u16 = 324;

pub const UDIVR: u16 = 325;

pub const UDOT: u16 = 326;

pub const UMADDL: u16 = 327;

pub const UMAX: u16 = 328;

pub const UMAXV: u16 = 329;

pub const UMIN: u16 = 330;

pub const UMINV: u16 = 331;

pub const UMSUBL: u16 = 332;

pub const UMULH: u16 = 333;

pub const UQADD: u16 = 334;

pub const UQDECB: u16 = 335;

pub const UQDECD: u16 = 336;

pub const UQDECH: u16 = 337;

pub const UQDECW: u16 = 338;

pub const UQINCB: u16 = 339;

pub const UQINCD: u16 = 340;

pub const UQINCH: u16 = 341;

pub const UQINCW: u16 = 342;

pub const UQSUB: u16 = 343;

pub const UUNPKHI: u16 = 344;

pub const UUNPKLO: u16 = 345;

pub const UXTB: u16 = 346;

pub const UXTH: u16 = 347;

pub const UXTW: u16 = 348;

pub const UZP1: u16 = 349;

pub const UZP2: u16 = 350;

pub const WHILELE: u16 = 351;

pub const WHILELO: u16 = 352;

pub const WHILELS: u16 = 353;

pub const WHILELT: u16 = 354;

pub const WRFFR: u16 = 355;

pub const ZIP1: u16 = 356;

pub const ZIP2: u16 = 357;
