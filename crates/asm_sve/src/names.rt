//! The names of SVE instructions, in the order of their bytes, and where their patterns stand.
ghost use Rattle.std.specs.Prelude.{◌≡◌, true};
ghost use Rattle.text_model.specs.Statement.{lowered};
ghost use Rattle.text_model.specs.Writing.{flat};
ghost use Rattle.text_code.specs.Names.{names_of, is_searchable, given_patterns, own_patterns, all_known, all_spots};
ghost use Rattle.text_code.specs.Reads.{with_name, at_spots, are_spots, all_sound};
ghost use Rattle.text_code.specs.Parts.{all_named, are_found};
ghost use Rattle.asm_sve.specs.Table.{sve_lines};

use sve_insn::lines;
use text_code::{Name, Names, Spot, spots_in};

/// Names with their spots: lines by name, each with places in it.
macro_rules! names {
    ($($name:literal: $($line:ident [$($place:literal)*]),*;)*) => {
        [$(Name { name: $name, spots: &[$($(Spot { line: lines::$line, place: $place }),*),*] }),*]
    };
}

/// All names, each with the spots of its patterns.
fn all_names() -> Names
    ensures first { is_searchable (names_of result.first.now) ≡ true }
    ensures second { is_searchable (names_of result.second.now) ≡ true }
    ensures third { is_searchable (names_of result.third.now) ≡ true }
    ensures searchable { is_searchable (all_named result) ≡ true }
    ensures found { are_found (all_named result) ≡ true }
    ensures patterns { given_patterns sve_lines (all_named result) ≡ own_patterns (flat sve_lines) (all_named result) }
    ensures known { all_known (all_named result) (flat sve_lines) ≡ true }
    ensures within { all_spots sve_lines (all_named result) ≡ true }
{
    Names {
        first: &FIRST,
        second: &SECOND,
        third: &THIRD,
    }
}

/// Where the patterns of a name stand.
pub(crate) fn spots(name: &str) -> &'static [Spot]
    ensures patterns { at_spots sve_lines result.now ≡ with_name (lowered name.now) (flat sve_lines) }
    ensures within { are_spots sve_lines result.now ≡ true }
    ensures sound { all_sound (at_spots sve_lines result.now) ≡ true }
{
    spots_in(all_names(), name)
}

static FIRST: [Name; 81] = names![
    "abs": UNARY [6];
    "add": BINARY [0], PLAIN [0], WIDE_IMM [0];
    "addpl": ADD_LENGTH [1];
    "addvl": ADD_LENGTH [0];
    "and": BINARY [18], LOGIC_Z [0], BITMASK_Z [2], LOGIC_P [0];
    "ands": LOGIC_P [7];
    "andv": REDUCE [8];
    "asr": BINARY [20 23 26 29], BINARY_WIDE [0 3 6], SHIFT_IMM [0 4 8 12], PLAIN_WIDE [0],
        PLAIN_SHIFT [0 3 6 9];
    "asrd": SHIFT_IMM [3 7 11 15];
    "asrr": BINARY [32];
    "bic": BINARY [19], LOGIC_Z [3], LOGIC_P [1];
    "bics": LOGIC_P [8];
    "brka": BREAK [0];
    "brkas": BREAK [2];
    "brkb": BREAK [1];
    "brkbs": BREAK [3];
    "brkn": BREAK_NEXT [0];
    "brkns": BREAK_NEXT [1];
    "brkpa": BREAK_PAIR [0];
    "brkpas": BREAK_PAIR [2];
    "brkpb": BREAK_PAIR [1];
    "brkpbs": BREAK_PAIR [3];
    "clasta": COND_LAST [0 2 4];
    "clastb": COND_LAST [1 3 5];
    "cls": UNARY [8];
    "clz": UNARY [9];
    "cmpeq": CMP_VEC [4 10 16 22], CMP_WIDE [0 6 12], CMP_S_IMM [4];
    "cmpge": CMP_VEC [2 8 14 20], CMP_WIDE [2 8 14], CMP_S_IMM [0];
    "cmpgt": CMP_VEC [3 9 15 21], CMP_WIDE [3 9 15], CMP_S_IMM [1];
    "cmphi": CMP_VEC [1 7 13 19], CMP_WIDE [5 11 17], CMP_U_IMM [1];
    "cmphs": CMP_VEC [0 6 12 18], CMP_WIDE [4 10 16], CMP_U_IMM [0];
    "cmple": CMP_WIDE [19], CMP_S_IMM [3];
    "cmplo": CMP_WIDE [20], CMP_U_IMM [2];
    "cmpls": CMP_WIDE [21], CMP_U_IMM [3];
    "cmplt": CMP_WIDE [18], CMP_S_IMM [2];
    "cmpne": CMP_VEC [5 11 17 23], CMP_WIDE [1 7 13], CMP_S_IMM [5];
    "cnot": UNARY [11];
    "cnt": UNARY [10];
    "cntb": COUNT [0 1];
    "cntd": COUNT [6 7];
    "cnth": COUNT [2 3];
    "cntp": COUNT_P [0];
    "cntw": COUNT [4 5];
    "compact": COMPACT [0];
    "cpy": COPY_IMM [0], COPY_REG [0 1];
    "ctermeq": CTERM [0];
    "ctermne": CTERM [1];
    "decb": INC_X [1 3];
    "decd": INC_X [13 15], INC_Z [9 11];
    "dech": INC_X [5 7], INC_Z [1 3];
    "decp": INC_P [1], INC_PZ [1];
    "decw": INC_X [9 11], INC_Z [5 7];
    "dup": DUP_REG [0], DUP_LANE [0 1 2 3 4], DUP_IMM [0];
    "dupm": BITMASK_Z [3];
    "eor": BINARY [17], LOGIC_Z [2], BITMASK_Z [1], LOGIC_P [2];
    "eors": LOGIC_P [9];
    "eorv": REDUCE [7];
    "ext": EXT [0];
    "incb": INC_X [0 2];
    "incd": INC_X [12 14], INC_Z [8 10];
    "inch": INC_X [4 6], INC_Z [0 2];
    "incp": INC_P [0], INC_PZ [0];
    "incw": INC_X [8 10], INC_Z [4 6];
    "index": INDEX [0 1 2 3];
    "insr": INSERT [0 1];
    "lasta": LAST [0 2];
    "lastb": LAST [1 3];
    "ld1b": GATHER_SX [0], LOAD_IMM [0 1 2 3], LOAD_REG [0 1 2 3], GATHER_DX [0], GATHER_D [0],
        GATHER_SV [0], GATHER_DV [0];
    "ld1d": LOAD_IMM [15], LOAD_REG [15], GATHER_DX [5], GATHER_DX_SCALED [3], GATHER_D [5],
        GATHER_D_SCALED [3], GATHER_DV [5];
    "ld1h": GATHER_SX [2], GATHER_SX_SCALED [0], LOAD_IMM [5 6 7], LOAD_REG [5 6 7], GATHER_DX [2],
        GATHER_DX_SCALED [0], GATHER_D [2], GATHER_D_SCALED [0], GATHER_SV [2], GATHER_DV [2];
    "ld1rb": LOAD_ONE [0 1 2 3];
    "ld1rd": LOAD_ONE [15];
    "ld1rh": LOAD_ONE [5 6 7];
    "ld1rqb": LOAD_QUAD_IMM [0], LOAD_QUAD_REG [0];
    "ld1rqd": LOAD_QUAD_IMM [3], LOAD_QUAD_REG [3];
    "ld1rqh": LOAD_QUAD_IMM [1], LOAD_QUAD_REG [1];
    "ld1rqw": LOAD_QUAD_IMM [2], LOAD_QUAD_REG [2];
    "ld1rsb": LOAD_ONE [12 13 14];
    "ld1rsh": LOAD_ONE [8 9];
    "ld1rsw": LOAD_ONE [4];
    "ld1rw": LOAD_ONE [10 11];
];

static SECOND: [Name; 80] = names![
    "ld1sb": GATHER_SX [1], LOAD_IMM [12 13 14], LOAD_REG [12 13 14], GATHER_DX [1], GATHER_D [1],
        GATHER_SV [1], GATHER_DV [1];
    "ld1sh": GATHER_SX [4], GATHER_SX_SCALED [2], LOAD_IMM [8 9], LOAD_REG [8 9], GATHER_DX [4],
        GATHER_DX_SCALED [2], GATHER_D [4], GATHER_D_SCALED [2], GATHER_SV [4], GATHER_DV [4];
    "ld1sw": LOAD_IMM [4], LOAD_REG [4], GATHER_DX [6], GATHER_DX_SCALED [4], GATHER_D [6],
        GATHER_D_SCALED [4], GATHER_DV [6];
    "ld1w": GATHER_SX [3], GATHER_SX_SCALED [1], LOAD_IMM [10 11], LOAD_REG [10 11], GATHER_DX [3],
        GATHER_DX_SCALED [1], GATHER_D [3], GATHER_D_SCALED [1], GATHER_SV [3], GATHER_DV [3];
    "ld2b": LOAD_MANY_IMM [0], LOAD_MANY_REG [0];
    "ld2d": LOAD_MANY_IMM [3], LOAD_MANY_REG [3];
    "ld2h": LOAD_MANY_IMM [1], LOAD_MANY_REG [1];
    "ld2w": LOAD_MANY_IMM [2], LOAD_MANY_REG [2];
    "ld3b": LOAD_MANY_IMM [4], LOAD_MANY_REG [4];
    "ld3d": LOAD_MANY_IMM [7], LOAD_MANY_REG [7];
    "ld3h": LOAD_MANY_IMM [5], LOAD_MANY_REG [5];
    "ld3w": LOAD_MANY_IMM [6], LOAD_MANY_REG [6];
    "ld4b": LOAD_MANY_IMM [8], LOAD_MANY_REG [8];
    "ld4d": LOAD_MANY_IMM [11], LOAD_MANY_REG [11];
    "ld4h": LOAD_MANY_IMM [9], LOAD_MANY_REG [9];
    "ld4w": LOAD_MANY_IMM [10], LOAD_MANY_REG [10];
    "ldff1b": GATHER_SX [5], LOAD_FF [0 1 2 3], GATHER_DX [7], GATHER_D [7], GATHER_SV [5],
        GATHER_DV [7];
    "ldff1d": LOAD_FF [15], GATHER_DX [12], GATHER_DX_SCALED [8], GATHER_D [12],
        GATHER_D_SCALED [8], GATHER_DV [12];
    "ldff1h": GATHER_SX [7], GATHER_SX_SCALED [3], LOAD_FF [5 6 7], GATHER_DX [9],
        GATHER_DX_SCALED [5], GATHER_D [9], GATHER_D_SCALED [5], GATHER_SV [7], GATHER_DV [9];
    "ldff1sb": GATHER_SX [6], LOAD_FF [12 13 14], GATHER_DX [8], GATHER_D [8], GATHER_SV [6],
        GATHER_DV [8];
    "ldff1sh": GATHER_SX [9], GATHER_SX_SCALED [5], LOAD_FF [8 9], GATHER_DX [11],
        GATHER_DX_SCALED [7], GATHER_D [11], GATHER_D_SCALED [7], GATHER_SV [9], GATHER_DV [11];
    "ldff1sw": LOAD_FF [4], GATHER_DX [13], GATHER_DX_SCALED [9], GATHER_D [13],
        GATHER_D_SCALED [9], GATHER_DV [13];
    "ldff1w": GATHER_SX [8], GATHER_SX_SCALED [4], LOAD_FF [10 11], GATHER_DX [10],
        GATHER_DX_SCALED [6], GATHER_D [10], GATHER_D_SCALED [6], GATHER_SV [8], GATHER_DV [10];
    "ldnf1b": LOAD_NF [0 1 2 3];
    "ldnf1d": LOAD_NF [15];
    "ldnf1h": LOAD_NF [5 6 7];
    "ldnf1sb": LOAD_NF [12 13 14];
    "ldnf1sh": LOAD_NF [8 9];
    "ldnf1sw": LOAD_NF [4];
    "ldnf1w": LOAD_NF [10 11];
    "ldnt1b": LOAD_NT_IMM [0], LOAD_NT_REG [0];
    "ldnt1d": LOAD_NT_IMM [3], LOAD_NT_REG [3];
    "ldnt1h": LOAD_NT_IMM [1], LOAD_NT_REG [1];
    "ldnt1w": LOAD_NT_IMM [2], LOAD_NT_REG [2];
    "ldr": LOAD_Z [0], LOAD_P [0];
    "lsl": BINARY [22 25 28 31], BINARY_WIDE [2 5 8], SHIFT_IMM [2 6 10 14], PLAIN_WIDE [2],
        PLAIN_SHIFT [2 5 8 11];
    "lslr": BINARY [34];
    "lsr": BINARY [21 24 27 30], BINARY_WIDE [1 4 7], SHIFT_IMM [1 5 9 13], PLAIN_WIDE [1],
        PLAIN_SHIFT [1 4 7 10];
    "lsrr": BINARY [33];
    "mad": MUL_ADD_D [0];
    "mla": MUL_ADD_Z [0];
    "mls": MUL_ADD_Z [1];
    "movprfx": PREFIX_P [0], PREFIX [0];
    "msb": MUL_ADD_D [1];
    "mul": BINARY [9], MIN_MAX_IMM [2];
    "nand": LOGIC_P [6];
    "nands": LOGIC_P [13];
    "neg": UNARY [7];
    "nor": LOGIC_P [5];
    "nors": LOGIC_P [12];
    "not": UNARY [12];
    "orn": LOGIC_P [4];
    "orns": LOGIC_P [11];
    "orr": BINARY [16], LOGIC_Z [1], BITMASK_Z [0], LOGIC_P [3];
    "orrs": LOGIC_P [10];
    "orv": REDUCE [6];
    "pfalse": PFALSE [0];
    "pfirst": FIRST [0];
    "pnext": NEXT [0];
    "ptest": PTEST [0];
    "ptrue": PTRUE [0 2];
    "ptrues": PTRUE [1 3];
    "punpkhi": UNPACK_P [1];
    "punpklo": UNPACK_P [0];
    "rbit": UNARY [16];
    "rdffr": READ_FFR [0], READ_FFR_ALL [0];
    "rdffrs": READ_FFR [1];
    "rdvl": READ_LENGTH [0];
    "rev": REV_Z [0], REV_P [0];
    "revb": UNARY [13];
    "revh": UNARY [14];
    "revw": UNARY [15];
    "sabd": BINARY [7];
    "saddv": REDUCE [0];
    "sdiv": BINARY [12];
    "sdivr": BINARY [14];
    "sdot": DOT [0], DOT_INDEXED [0 2];
    "sel": SELECT_Z [0], SELECT_P [0];
    "setffr": WRITE_FFR [0];
    "smax": BINARY [3], MIN_MAX_IMM [0];
];

static THIRD: [Name; 80] = names![
    "smaxv": REDUCE [2];
    "smin": BINARY [5], MIN_MAX_IMM [1];
    "sminv": REDUCE [4];
    "smulh": BINARY [10];
    "splice": SPLICE [0];
    "sqadd": PLAIN [2], WIDE_IMM [3];
    "sqdecb": SAT_X [2 6 12 13];
    "sqdecd": SAT_X [50 54 60 61], SAT_Z [18 22];
    "sqdech": SAT_X [18 22 28 29], SAT_Z [2 6];
    "sqdecw": SAT_X [34 38 44 45], SAT_Z [10 14];
    "sqincb": SAT_X [0 4 8 9];
    "sqincd": SAT_X [48 52 56 57], SAT_Z [16 20];
    "sqinch": SAT_X [16 20 24 25], SAT_Z [0 4];
    "sqincw": SAT_X [32 36 40 41], SAT_Z [8 12];
    "sqsub": PLAIN [4], WIDE_IMM [5];
    "st1b": STORE_REG [0], STORE_IMM [0], SCATTER_SX [0], SCATTER_DX [0], SCATTER_D [0],
        SCATTER_SV [0], SCATTER_DV [0];
    "st1d": STORE_REG [3], STORE_IMM [3], SCATTER_DX [3], SCATTER_DX_SCALED [2], SCATTER_D [3],
        SCATTER_D_SCALED [2], SCATTER_DV [3];
    "st1h": STORE_REG [1], STORE_IMM [1], SCATTER_SX [1], SCATTER_SX_SCALED [0], SCATTER_DX [1],
        SCATTER_DX_SCALED [0], SCATTER_D [1], SCATTER_D_SCALED [0], SCATTER_SV [1], SCATTER_DV [1];
    "st1w": STORE_REG [2], STORE_IMM [2], SCATTER_SX [2], SCATTER_SX_SCALED [1], SCATTER_DX [2],
        SCATTER_DX_SCALED [1], SCATTER_D [2], SCATTER_D_SCALED [1], SCATTER_SV [2], SCATTER_DV [2];
    "st2b": STORE_MANY_IMM [0], STORE_MANY_REG [0];
    "st2d": STORE_MANY_IMM [3], STORE_MANY_REG [3];
    "st2h": STORE_MANY_IMM [1], STORE_MANY_REG [1];
    "st2w": STORE_MANY_IMM [2], STORE_MANY_REG [2];
    "st3b": STORE_MANY_IMM [4], STORE_MANY_REG [4];
    "st3d": STORE_MANY_IMM [7], STORE_MANY_REG [7];
    "st3h": STORE_MANY_IMM [5], STORE_MANY_REG [5];
    "st3w": STORE_MANY_IMM [6], STORE_MANY_REG [6];
    "st4b": STORE_MANY_IMM [8], STORE_MANY_REG [8];
    "st4d": STORE_MANY_IMM [11], STORE_MANY_REG [11];
    "st4h": STORE_MANY_IMM [9], STORE_MANY_REG [9];
    "st4w": STORE_MANY_IMM [10], STORE_MANY_REG [10];
    "stnt1b": STORE_NT_IMM [0], STORE_NT_REG [0];
    "stnt1d": STORE_NT_IMM [3], STORE_NT_REG [3];
    "stnt1h": STORE_NT_IMM [1], STORE_NT_REG [1];
    "stnt1w": STORE_NT_IMM [2], STORE_NT_REG [2];
    "str": STORE_Z [0], STORE_P [0];
    "sub": BINARY [1], PLAIN [1], WIDE_IMM [1];
    "subr": BINARY [2], WIDE_IMM [2];
    "sunpkhi": UNPACK [1];
    "sunpklo": UNPACK [0];
    "sxtb": UNARY [0];
    "sxth": UNARY [2];
    "sxtw": UNARY [4];
    "tbl": TABLE [0];
    "trn1": INTERLEAVE [4], INTERLEAVE_P [4];
    "trn2": INTERLEAVE [5], INTERLEAVE_P [5];
    "uabd": BINARY [8];
    "uaddv": REDUCE [1];
    "udiv": BINARY [13];
    "udivr": BINARY [15];
    "udot": DOT [1], DOT_INDEXED [1 3];
    "umax": BINARY [4], MIN_MAX_IMM [3];
    "umaxv": REDUCE [3];
    "umin": BINARY [6], MIN_MAX_IMM [4];
    "uminv": REDUCE [5];
    "umulh": BINARY [11];
    "uqadd": PLAIN [3], WIDE_IMM [4];
    "uqdecb": SAT_X [3 7 14 15];
    "uqdecd": SAT_X [51 55 62 63], SAT_Z [19 23];
    "uqdech": SAT_X [19 23 30 31], SAT_Z [3 7];
    "uqdecw": SAT_X [35 39 46 47], SAT_Z [11 15];
    "uqincb": SAT_X [1 5 10 11];
    "uqincd": SAT_X [49 53 58 59], SAT_Z [17 21];
    "uqinch": SAT_X [17 21 26 27], SAT_Z [1 5];
    "uqincw": SAT_X [33 37 42 43], SAT_Z [9 13];
    "uqsub": PLAIN [5], WIDE_IMM [6];
    "uunpkhi": UNPACK [3];
    "uunpklo": UNPACK [2];
    "uxtb": UNARY [1];
    "uxth": UNARY [3];
    "uxtw": UNARY [5];
    "uzp1": INTERLEAVE [2], INTERLEAVE_P [2];
    "uzp2": INTERLEAVE [3], INTERLEAVE_P [3];
    "whilele": WHILE [1];
    "whilelo": WHILE [2];
    "whilels": WHILE [3];
    "whilelt": WHILE [0];
    "wrffr": WRITE_FFR [1];
    "zip1": INTERLEAVE [0], INTERLEAVE_P [0];
    "zip2": INTERLEAVE [1], INTERLEAVE_P [1];
];
