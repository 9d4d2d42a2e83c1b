//! The dictionary of words, and the registers by their letters.
ghost use Rattle.std.specs.Prelude.{◌≡◌};
ghost use Rattle.text_model.specs.Words.{families, dictionary};
ghost use Rattle.text_code.specs.Tables.{families_of, words_of};

use text_model::Class;

/// Registers of a class: their letter, what stands behind the number, and how many there are.
#[derive(Clone, Copy)]
pub struct Family {
    pub letter: u8,
    pub suffix: &'static str,
    pub class: Class,
    pub count: u8,
}

/// A word or a mark, with its class and its value there.
#[derive(Clone, Copy)]
pub struct Word {
    pub text: &'static str,
    pub class: Class,
    pub value: u8,
}

macro_rules! registers {
    ($letter:literal, $suffix:literal, $class:ident, $count:literal) => {
        Family { letter: $letter, suffix: $suffix, class: Class::$class, count: $count }
    };
}

macro_rules! word {
    ($text:literal, $class:ident, $value:literal) => {
        Word { text: $text, class: Class::$class, value: $value }
    };
}

static FAMILIES: [Family; 25] = [
    registers!(b'w', "", W, 31),
    registers!(b'x', "", X, 31),
    registers!(b'z', ".b", Zb, 32),
    registers!(b'z', ".h", Zh, 32),
    registers!(b'z', ".s", Zs, 32),
    registers!(b'z', ".d", Zd, 32),
    registers!(b'z', ".q", Zq, 32),
    registers!(b'z', "", Z, 32),
    registers!(b'p', "", P, 16),
    registers!(b'p', ".b", Pb, 16),
    registers!(b'p', ".h", Ph, 16),
    registers!(b'p', ".s", Ps, 16),
    registers!(b'p', ".d", Pd, 16),
    registers!(b'b', "", B, 32),
    registers!(b'h', "", H, 32),
    registers!(b's', "", S, 32),
    registers!(b'd', "", D, 32),
    registers!(b'q', "", Q, 32),
    registers!(b'v', ".8b", V8b, 32),
    registers!(b'v', ".16b", V16b, 32),
    registers!(b'v', ".4h", V4h, 32),
    registers!(b'v', ".8h", V8h, 32),
    registers!(b'v', ".2s", V2s, 32),
    registers!(b'v', ".4s", V4s, 32),
    registers!(b'v', ".2d", V2d, 32),
];

/// In the order of their bytes.
static WORDS: [Word; 64] = [
    word!("!", Exclamation, 0),
    word!(",", Comma, 0),
    word!("/", Slash, 0),
    word!("[", OpenBracket, 0),
    word!("]", CloseBracket, 0),
    word!("al", Condition, 14),
    word!("all", Count, 31),
    word!("asr", Shift, 2),
    word!("cc", Condition, 3),
    word!("cs", Condition, 2),
    word!("dczid_el0", DczidEl0, 0),
    word!("eq", Condition, 0),
    word!("ge", Condition, 10),
    word!("gt", Condition, 12),
    word!("hi", Condition, 8),
    word!("le", Condition, 13),
    word!("ls", Condition, 9),
    word!("lsl", Shift, 0),
    word!("lsr", Shift, 1),
    word!("lt", Condition, 11),
    word!("m", Merging, 0),
    word!("mi", Condition, 4),
    word!("msl", ShiftOnes, 0),
    word!("mul", Times, 0),
    word!("mul3", Count, 30),
    word!("mul4", Count, 29),
    word!("ne", Condition, 1),
    word!("nv", Condition, 15),
    word!("nzcv", Nzcv, 0),
    word!("pl", Condition, 5),
    word!("pow2", Count, 0),
    word!("ror", Shift, 3),
    word!("sp", X, 32),
    word!("sxtb", ExtendByte, 1),
    word!("sxth", ExtendHalfword, 1),
    word!("sxtw", ExtendWord, 1),
    word!("sxtx", ExtendDoubleword, 1),
    word!("tpidr_el0", TpidrEl0, 0),
    word!("uxtb", ExtendByte, 0),
    word!("uxth", ExtendHalfword, 0),
    word!("uxtw", ExtendWord, 0),
    word!("uxtx", ExtendDoubleword, 0),
    word!("vc", Condition, 7),
    word!("vl", VectorLength, 0),
    word!("vl1", Count, 1),
    word!("vl128", Count, 12),
    word!("vl16", Count, 9),
    word!("vl2", Count, 2),
    word!("vl256", Count, 13),
    word!("vl3", Count, 3),
    word!("vl32", Count, 10),
    word!("vl4", Count, 4),
    word!("vl5", Count, 5),
    word!("vl6", Count, 6),
    word!("vl64", Count, 11),
    word!("vl7", Count, 7),
    word!("vl8", Count, 8),
    word!("vs", Condition, 6),
    word!("wsp", W, 32),
    word!("wzr", W, 31),
    word!("xzr", X, 31),
    word!("z", Zeroing, 0),
    word!("{", OpenBrace, 0),
    word!("}", CloseBrace, 0),
];

/// The families of registers.
pub fn register_families() -> &'static [Family]
    ensures { families_of result.now ≡ families }
{
    &FAMILIES
}

/// The words that are no registers, in the order of their bytes.
#[tactic(auto, unfolding(text_model::specs::Words::dictionary))]
pub fn other_words() -> &'static [Word]
    ensures { words_of result.now ≡ dictionary }
{
    &WORDS
}
