//! The names of A64 instructions, in the order of their bytes, and where their patterns stand.
ghost use Rattle.std.specs.Prelude.{◌≡◌, true};
ghost use Rattle.text_model.specs.Statement.{lowered};
ghost use Rattle.text_model.specs.Writing.{flat};
ghost use Rattle.text_code.specs.Names.{names_of, is_searchable, given_patterns, own_patterns, all_known, all_spots};
ghost use Rattle.text_code.specs.Reads.{with_name, at_spots, are_spots, all_sound};
ghost use Rattle.text_code.specs.Parts.{all_named, are_found};
ghost use Rattle.asm_a64.specs.Table.{a64_lines};

use crate::lines;
use text_code::{Name, Names, Spot, spots_in};

/// Names with their spots, each a line of patterns and a place in it.
macro_rules! names {
    ($($name:literal: $($line:ident $place:literal),*;)*) => {
        [$(Name { name: $name, spots: &[$(Spot { line: lines::$line, place: $place }),*] }),*]
    };
}

/// All names, each with the spots of its patterns.
fn all_names() -> Names
    ensures first { is_searchable (names_of result.first.now) ≡ true }
    ensures second { is_searchable (names_of result.second.now) ≡ true }
    ensures third { is_searchable (names_of result.third.now) ≡ true }
    ensures searchable { is_searchable (all_named result) ≡ true }
    ensures found { are_found (all_named result) ≡ true }
    ensures patterns { given_patterns a64_lines (all_named result) ≡ own_patterns (flat a64_lines) (all_named result) }
    ensures known { all_known (all_named result) (flat a64_lines) ≡ true }
    ensures within { all_spots a64_lines (all_named result) ≡ true }
{
    Names {
        first: &FIRST,
        second: &SECOND,
        third: &THIRD,
    }
}

/// Where the patterns of a name stand.
pub(crate) fn spots(name: &str) -> &'static [Spot]
    ensures patterns { at_spots a64_lines result.now ≡ with_name (lowered name.now) (flat a64_lines) }
    ensures within { are_spots a64_lines result.now ≡ true }
    ensures sound { all_sound (at_spots a64_lines result.now) ≡ true }
{
    spots_in(all_names(), name)
}

static FIRST: [Name; 114] = names![
    "adc": ADD_CARRY 0;
    "adcs": ADD_CARRY 1;
    "add": ADD_IMM 0, ADD_REG 0, ADD_EXT 0, ADD_EXT 1, ADD_EXT 2;
    "adds": ADD_IMM 1, ADD_REG 1, ADD_EXT 3, ADD_EXT 4, ADD_EXT 5;
    "adr": ADR 0;
    "adrp": ADR 1;
    "and": LOGIC_IMM 0, LOGIC_IMM 4, LOGIC_REG 0;
    "ands": LOGIC_IMM 3, LOGIC_IMM 7, LOGIC_REG 6;
    "asr": ALIASES 7, ALIASES 10;
    "asrv": TWO_SOURCE 4;
    "b": BRANCH 0;
    "b.al": BRANCH_COND 14;
    "b.cc": BRANCH_COND 3;
    "b.cs": BRANCH_COND 2;
    "b.eq": BRANCH_COND 0;
    "b.ge": BRANCH_COND 10;
    "b.gt": BRANCH_COND 12;
    "b.hi": BRANCH_COND 8;
    "b.le": BRANCH_COND 13;
    "b.ls": BRANCH_COND 9;
    "b.lt": BRANCH_COND 11;
    "b.mi": BRANCH_COND 4;
    "b.ne": BRANCH_COND 1;
    "b.nv": BRANCH_COND 15;
    "b.pl": BRANCH_COND 5;
    "b.vc": BRANCH_COND 7;
    "b.vs": BRANCH_COND 6;
    "bfm": BITFIELD 1, BITFIELD 4;
    "bic": LOGIC_REG 1;
    "bics": LOGIC_REG 7;
    "bl": BRANCH 1;
    "blr": BRANCH_REG 1;
    "br": BRANCH_REG 0;
    "brk": EXCEPT 1;
    "cas": COMPARE_SWAP 2;
    "casa": COMPARE_SWAP 5;
    "casab": COMPARE_SWAP 3;
    "casah": COMPARE_SWAP 4;
    "casal": COMPARE_SWAP 11;
    "casalb": COMPARE_SWAP 9;
    "casalh": COMPARE_SWAP 10;
    "casb": COMPARE_SWAP 0;
    "cash": COMPARE_SWAP 1;
    "casl": COMPARE_SWAP 8;
    "caslb": COMPARE_SWAP 6;
    "caslh": COMPARE_SWAP 7;
    "cbnz": COMPARE 1;
    "cbz": COMPARE 0;
    "ccmn": COND_REG 0, COND_IMM 0;
    "ccmp": COND_REG 1, COND_IMM 1;
    "clrex": BARRIER 0;
    "cls": ONE_SOURCE 3;
    "clz": ONE_SOURCE 2;
    "cmp": ALIASES 3, ALIASES 4;
    "csel": SELECT 0;
    "cset": ALIASES 12;
    "csinc": SELECT 1;
    "csinv": SELECT 2;
    "csneg": SELECT 3;
    "dmb": BARRIER 2;
    "dsb": BARRIER 1;
    "eon": LOGIC_REG 5;
    "eor": LOGIC_IMM 2, LOGIC_IMM 6, LOGIC_REG 4;
    "extr": EXTRACT 0, EXTRACT 1;
    "fmov": F_MOVE 0, F_MOVE 1, F_MOVE 2, F_MOVE 3;
    "hint": HINT 0;
    "hlt": EXCEPT 2;
    "isb": BARRIER 3;
    "ldadd": ATOMIC 2;
    "ldadda": ATOMIC 5;
    "ldaddab": ATOMIC 3;
    "ldaddah": ATOMIC 4;
    "ldaddal": ATOMIC 11;
    "ldaddalb": ATOMIC 9;
    "ldaddalh": ATOMIC 10;
    "ldaddb": ATOMIC 0;
    "ldaddh": ATOMIC 1;
    "ldaddl": ATOMIC 8;
    "ldaddlb": ATOMIC 6;
    "ldaddlh": ATOMIC 7;
    "ldar": ORDERED 5;
    "ldarb": ORDERED 3;
    "ldarh": ORDERED 4;
    "ldaxr": LOAD_EX 5;
    "ldaxrb": LOAD_EX 3;
    "ldaxrh": LOAD_EX 4;
    "ldclr": ATOMIC 14;
    "ldclra": ATOMIC 17;
    "ldclrab": ATOMIC 15;
    "ldclrah": ATOMIC 16;
    "ldclral": ATOMIC 23;
    "ldclralb": ATOMIC 21;
    "ldclralh": ATOMIC 22;
    "ldclrb": ATOMIC 12;
    "ldclrh": ATOMIC 13;
    "ldclrl": ATOMIC 20;
    "ldclrlb": ATOMIC 18;
    "ldclrlh": ATOMIC 19;
    "ldeor": ATOMIC 26;
    "ldeora": ATOMIC 29;
    "ldeorab": ATOMIC 27;
    "ldeorah": ATOMIC 28;
    "ldeoral": ATOMIC 35;
    "ldeoralb": ATOMIC 33;
    "ldeoralh": ATOMIC 34;
    "ldeorb": ATOMIC 24;
    "ldeorh": ATOMIC 25;
    "ldeorl": ATOMIC 32;
    "ldeorlb": ATOMIC 30;
    "ldeorlh": ATOMIC 31;
    "ldnp": PAIR 7, PAIR 15, PAIR 26, PAIR 34, PAIR 42;
    "ldp": PAIR 3, PAIR 4, PAIR 5, PAIR 11, PAIR 12, PAIR 13, PAIR 22, PAIR 23, PAIR 24, PAIR 30, PAIR 31, PAIR 32,
        PAIR 38, PAIR 39, PAIR 40;
    "ldpsw": PAIR 16, PAIR 17, PAIR 18;
    "ldr": LS_UNSIGNED 8, LS_UNSIGNED 11, LS_UNSIGNED 13, LS_UNSIGNED 15, LS_UNSIGNED 17, LS_UNSIGNED 19,
        LS_UNSIGNED 21, LS_POST 7, LS_POST 10, LS_POST 12, LS_POST 14, LS_POST 16, LS_POST 18, LS_POST 20, LS_PRE 7,
        LS_PRE 10, LS_PRE 12, LS_PRE 14, LS_PRE 16, LS_PRE 18, LS_PRE 20, LS_REG_WORD 8, LS_REG_WORD 11,
        LS_REG_WORD 13, LS_REG_WORD 15, LS_REG_WORD 17, LS_REG_WORD 19, LS_REG_WORD 21, LS_REG_WORD_SCALED 8,
        LS_REG_WORD_SCALED 11, LS_REG_WORD_SCALED 13, LS_REG_WORD_SCALED 15, LS_REG_WORD_SCALED 17,
        LS_REG_WORD_SCALED 19, LS_REG_WORD_SCALED 21, LS_REG_SHIFT 8, LS_REG_SHIFT 11, LS_REG_SHIFT 13,
        LS_REG_SHIFT 15, LS_REG_SHIFT 17, LS_REG_SHIFT 19, LS_REG_SHIFT 21, LS_REG_SHIFT_SCALED 8,
        LS_REG_SHIFT_SCALED 11, LS_REG_SHIFT_SCALED 13, LS_REG_SHIFT_SCALED 15, LS_REG_SHIFT_SCALED 17,
        LS_REG_SHIFT_SCALED 19, LS_REG_SHIFT_SCALED 21, LS_REG_SIGNED 8, LS_REG_SIGNED 11, LS_REG_SIGNED 13,
        LS_REG_SIGNED 15, LS_REG_SIGNED 17, LS_REG_SIGNED 19, LS_REG_SIGNED 21, LS_REG_SIGNED_SCALED 8,
        LS_REG_SIGNED_SCALED 11, LS_REG_SIGNED_SCALED 13, LS_REG_SIGNED_SCALED 15, LS_REG_SIGNED_SCALED 17,
        LS_REG_SIGNED_SCALED 19, LS_REG_SIGNED_SCALED 21, LS_LITERAL 0, LS_LITERAL 3;
];

static SECOND: [Name; 103] = names![
    "ldrb": LS_UNSIGNED 2, LS_POST 1, LS_PRE 1, LS_REG_WORD 2, LS_REG_WORD_SCALED 2, LS_REG_SHIFT 2,
        LS_REG_SHIFT_SCALED 2, LS_REG_SIGNED 2, LS_REG_SIGNED_SCALED 2;
    "ldrh": LS_UNSIGNED 5, LS_POST 4, LS_PRE 4, LS_REG_WORD 5, LS_REG_WORD_SCALED 5, LS_REG_SHIFT 5,
        LS_REG_SHIFT_SCALED 5, LS_REG_SIGNED 5, LS_REG_SIGNED_SCALED 5;
    "ldrsb": LS_UNSIGNED 3, LS_POST 2, LS_PRE 2, LS_REG_WORD 3, LS_REG_WORD_SCALED 3, LS_REG_SHIFT 3,
        LS_REG_SHIFT_SCALED 3, LS_REG_SIGNED 3, LS_REG_SIGNED_SCALED 3;
    "ldrsh": LS_UNSIGNED 6, LS_POST 5, LS_PRE 5, LS_REG_WORD 6, LS_REG_WORD_SCALED 6, LS_REG_SHIFT 6,
        LS_REG_SHIFT_SCALED 6, LS_REG_SIGNED 6, LS_REG_SIGNED_SCALED 6;
    "ldrsw": LS_UNSIGNED 9, LS_POST 8, LS_PRE 8, LS_REG_WORD 9, LS_REG_WORD_SCALED 9, LS_REG_SHIFT 9,
        LS_REG_SHIFT_SCALED 9, LS_REG_SIGNED 9, LS_REG_SIGNED_SCALED 9, LS_LITERAL 1;
    "ldset": ATOMIC 38;
    "ldseta": ATOMIC 41;
    "ldsetab": ATOMIC 39;
    "ldsetah": ATOMIC 40;
    "ldsetal": ATOMIC 47;
    "ldsetalb": ATOMIC 45;
    "ldsetalh": ATOMIC 46;
    "ldsetb": ATOMIC 36;
    "ldseth": ATOMIC 37;
    "ldsetl": ATOMIC 44;
    "ldsetlb": ATOMIC 42;
    "ldsetlh": ATOMIC 43;
    "ldsmax": ATOMIC 50;
    "ldsmaxa": ATOMIC 53;
    "ldsmaxab": ATOMIC 51;
    "ldsmaxah": ATOMIC 52;
    "ldsmaxal": ATOMIC 59;
    "ldsmaxalb": ATOMIC 57;
    "ldsmaxalh": ATOMIC 58;
    "ldsmaxb": ATOMIC 48;
    "ldsmaxh": ATOMIC 49;
    "ldsmaxl": ATOMIC 56;
    "ldsmaxlb": ATOMIC 54;
    "ldsmaxlh": ATOMIC 55;
    "ldsmin": ATOMIC 62;
    "ldsmina": ATOMIC 65;
    "ldsminab": ATOMIC 63;
    "ldsminah": ATOMIC 64;
    "ldsminal": ATOMIC 71;
    "ldsminalb": ATOMIC 69;
    "ldsminalh": ATOMIC 70;
    "ldsminb": ATOMIC 60;
    "ldsminh": ATOMIC 61;
    "ldsminl": ATOMIC 68;
    "ldsminlb": ATOMIC 66;
    "ldsminlh": ATOMIC 67;
    "ldumax": ATOMIC 74;
    "ldumaxa": ATOMIC 77;
    "ldumaxab": ATOMIC 75;
    "ldumaxah": ATOMIC 76;
    "ldumaxal": ATOMIC 83;
    "ldumaxalb": ATOMIC 81;
    "ldumaxalh": ATOMIC 82;
    "ldumaxb": ATOMIC 72;
    "ldumaxh": ATOMIC 73;
    "ldumaxl": ATOMIC 80;
    "ldumaxlb": ATOMIC 78;
    "ldumaxlh": ATOMIC 79;
    "ldumin": ATOMIC 86;
    "ldumina": ATOMIC 89;
    "lduminab": ATOMIC 87;
    "lduminah": ATOMIC 88;
    "lduminal": ATOMIC 95;
    "lduminalb": ATOMIC 93;
    "lduminalh": ATOMIC 94;
    "lduminb": ATOMIC 84;
    "lduminh": ATOMIC 85;
    "lduminl": ATOMIC 92;
    "lduminlb": ATOMIC 90;
    "lduminlh": ATOMIC 91;
    "ldur": LS_UNSCALED 8, LS_UNSCALED 11, LS_UNSCALED 13, LS_UNSCALED 15, LS_UNSCALED 17, LS_UNSCALED 19,
        LS_UNSCALED 21;
    "ldurb": LS_UNSCALED 2;
    "ldurh": LS_UNSCALED 5;
    "ldursb": LS_UNSCALED 3;
    "ldursh": LS_UNSCALED 6;
    "ldursw": LS_UNSCALED 9;
    "ldxr": LOAD_EX 2;
    "ldxrb": LOAD_EX 0;
    "ldxrh": LOAD_EX 1;
    "lsl": ALIASES 5, ALIASES 8;
    "lslv": TWO_SOURCE 2;
    "lsr": ALIASES 6, ALIASES 9;
    "lsrv": TWO_SOURCE 3;
    "madd": MUL_ADD 0;
    "mov": ALIASES 0, ALIASES 1, ALIASES 2;
    "movi": MOVE_IMM 0, MOVE_IMM 1, MOVE_IMM 2, MOVE_IMM 6, MOVE_IMM 7, MOVE_IMM 8;
    "movk": MOVE_WIDE 2;
    "movn": MOVE_WIDE 0;
    "movz": MOVE_WIDE 1;
    "mrs": READ_SYS 0, READ_SYS 1, READ_SYS 2;
    "msr": WRITE_SYS 0, WRITE_SYS 1;
    "msub": MUL_ADD 1;
    "mul": ALIASES 11;
    "mvni": MOVE_IMM 3, MOVE_IMM 4, MOVE_IMM 5;
    "nop": ALIASES 14;
    "orn": LOGIC_REG 3;
    "orr": LOGIC_IMM 1, LOGIC_IMM 5, LOGIC_REG 2;
    "prfm": LS_UNSIGNED 0, LS_REG_WORD 0, LS_REG_WORD_SCALED 0, LS_REG_SHIFT 0, LS_REG_SHIFT_SCALED 0,
        LS_REG_SIGNED 0, LS_REG_SIGNED_SCALED 0, LS_LITERAL 2;
    "prfum": LS_UNSCALED 0;
    "rbit": ONE_SOURCE 0;
    "ret": BRANCH_REG 2, ALIASES 13;
    "rev": REV 0, REV 1;
    "rev16": ONE_SOURCE 1;
    "rev32": REV 2;
    "rorv": TWO_SOURCE 5;
    "sbc": ADD_CARRY 2;
    "sbcs": ADD_CARRY 3;
    "sbfm": BITFIELD 0, BITFIELD 3;
];

static THIRD: [Name; 43] = names![
    "sdiv": TWO_SOURCE 1;
    "smaddl": MUL_LONG 0;
    "smsubl": MUL_LONG 1;
    "smulh": MUL_HIGH 0;
    "stlr": ORDERED 2;
    "stlrb": ORDERED 0;
    "stlrh": ORDERED 1;
    "stlxr": STORE_EX 5;
    "stlxrb": STORE_EX 3;
    "stlxrh": STORE_EX 4;
    "stnp": PAIR 6, PAIR 14, PAIR 25, PAIR 33, PAIR 41;
    "stp": PAIR 0, PAIR 1, PAIR 2, PAIR 8, PAIR 9, PAIR 10, PAIR 19, PAIR 20, PAIR 21, PAIR 27, PAIR 28, PAIR 29,
        PAIR 35, PAIR 36, PAIR 37;
    "str": LS_UNSIGNED 7, LS_UNSIGNED 10, LS_UNSIGNED 12, LS_UNSIGNED 14, LS_UNSIGNED 16, LS_UNSIGNED 18,
        LS_UNSIGNED 20, LS_POST 6, LS_POST 9, LS_POST 11, LS_POST 13, LS_POST 15, LS_POST 17, LS_POST 19, LS_PRE 6,
        LS_PRE 9, LS_PRE 11, LS_PRE 13, LS_PRE 15, LS_PRE 17, LS_PRE 19, LS_REG_WORD 7, LS_REG_WORD 10,
        LS_REG_WORD 12, LS_REG_WORD 14, LS_REG_WORD 16, LS_REG_WORD 18, LS_REG_WORD 20, LS_REG_WORD_SCALED 7,
        LS_REG_WORD_SCALED 10, LS_REG_WORD_SCALED 12, LS_REG_WORD_SCALED 14, LS_REG_WORD_SCALED 16,
        LS_REG_WORD_SCALED 18, LS_REG_WORD_SCALED 20, LS_REG_SHIFT 7, LS_REG_SHIFT 10, LS_REG_SHIFT 12,
        LS_REG_SHIFT 14, LS_REG_SHIFT 16, LS_REG_SHIFT 18, LS_REG_SHIFT 20, LS_REG_SHIFT_SCALED 7,
        LS_REG_SHIFT_SCALED 10, LS_REG_SHIFT_SCALED 12, LS_REG_SHIFT_SCALED 14, LS_REG_SHIFT_SCALED 16,
        LS_REG_SHIFT_SCALED 18, LS_REG_SHIFT_SCALED 20, LS_REG_SIGNED 7, LS_REG_SIGNED 10, LS_REG_SIGNED 12,
        LS_REG_SIGNED 14, LS_REG_SIGNED 16, LS_REG_SIGNED 18, LS_REG_SIGNED 20, LS_REG_SIGNED_SCALED 7,
        LS_REG_SIGNED_SCALED 10, LS_REG_SIGNED_SCALED 12, LS_REG_SIGNED_SCALED 14, LS_REG_SIGNED_SCALED 16,
        LS_REG_SIGNED_SCALED 18, LS_REG_SIGNED_SCALED 20;
    "strb": LS_UNSIGNED 1, LS_POST 0, LS_PRE 0, LS_REG_WORD 1, LS_REG_WORD_SCALED 1, LS_REG_SHIFT 1,
        LS_REG_SHIFT_SCALED 1, LS_REG_SIGNED 1, LS_REG_SIGNED_SCALED 1;
    "strh": LS_UNSIGNED 4, LS_POST 3, LS_PRE 3, LS_REG_WORD 4, LS_REG_WORD_SCALED 4, LS_REG_SHIFT 4,
        LS_REG_SHIFT_SCALED 4, LS_REG_SIGNED 4, LS_REG_SIGNED_SCALED 4;
    "stur": LS_UNSCALED 7, LS_UNSCALED 10, LS_UNSCALED 12, LS_UNSCALED 14, LS_UNSCALED 16, LS_UNSCALED 18,
        LS_UNSCALED 20;
    "sturb": LS_UNSCALED 1;
    "sturh": LS_UNSCALED 4;
    "stxr": STORE_EX 2;
    "stxrb": STORE_EX 0;
    "stxrh": STORE_EX 1;
    "sub": ADD_IMM 2, ADD_REG 2, ADD_EXT 6, ADD_EXT 7, ADD_EXT 8;
    "subs": ADD_IMM 3, ADD_REG 3, ADD_EXT 9, ADD_EXT 10, ADD_EXT 11;
    "svc": EXCEPT 0;
    "swp": ATOMIC 98;
    "swpa": ATOMIC 101;
    "swpab": ATOMIC 99;
    "swpah": ATOMIC 100;
    "swpal": ATOMIC 107;
    "swpalb": ATOMIC 105;
    "swpalh": ATOMIC 106;
    "swpb": ATOMIC 96;
    "swph": ATOMIC 97;
    "swpl": ATOMIC 104;
    "swplb": ATOMIC 102;
    "swplh": ATOMIC 103;
    "tbnz": TEST 1;
    "tbz": TEST 0;
    "ubfm": BITFIELD 2, BITFIELD 5;
    "udiv": TWO_SOURCE 0;
    "umaddl": MUL_LONG 2;
    "umsubl": MUL_LONG 3;
    "umulh": MUL_HIGH 1;
];
