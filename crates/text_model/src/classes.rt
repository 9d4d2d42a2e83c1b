//! What the items of a statement are.

/// What an item of a statement is. Its value tells which: a number, with its sign, or the number of a register or of
/// another word among those of its class.
#[derive(Clone, Copy)]
pub enum Class {
    /// No item of a text.
    Unknown,
    /// A number.
    Number,
    Comma,
    Slash,
    OpenBracket,
    CloseBracket,
    OpenBrace,
    CloseBrace,
    Exclamation,
    /// `w0` to `w30`; 31 is `wzr`, and 32 `wsp`.
    W,
    /// `x0` to `x30`; 31 is `xzr`, and 32 `sp`.
    X,
    /// `b0` to `b31`, and so on.
    B,
    H,
    S,
    D,
    Q,
    /// `v0.8b` to `v31.8b`, and so on.
    V8b,
    V16b,
    V4h,
    V8h,
    V2s,
    V4s,
    V2d,
    /// `z0` to `z31`.
    Z,
    /// `z0.b` to `z31.b`, and so on.
    Zb,
    Zh,
    Zs,
    Zd,
    Zq,
    /// `p0` to `p15`.
    P,
    /// `p0.b` to `p15.b`, and so on.
    Pb,
    Ph,
    Ps,
    Pd,
    /// `lsl`, `lsr`, `asr`, `ror`.
    Shift,
    /// `msl`.
    ShiftOnes,
    /// `uxtb`, `sxtb`, and so on.
    ExtendByte,
    ExtendHalfword,
    ExtendWord,
    ExtendDoubleword,
    /// `eq` to `nv`.
    Condition,
    /// `pow2`, `vl1` to `vl256`, `mul4`, `mul3`, `all`.
    Count,
    /// `mul`.
    Times,
    /// `vl`.
    VectorLength,
    /// `m`.
    Merging,
    /// `z`.
    Zeroing,
    TpidrEl0,
    Nzcv,
    DczidEl0,
}

impl Class {
    ghost use Rattle.std.specs.Prelude.{◌≡◌};
    ghost use Rattle.text_model.specs.ClassNumbers.{class_number};

    /// The place of this class in the order of all, from 0 on.
    pub fn number(self) -> u8
        ensures { result ≡ class_number self }
    {
        self as u8
    }
}

/// Classes of which a field picks one, in the order of its values.
#[derive(Clone, Copy)]
pub enum Group {
    /// W, X.
    General,
    /// X, W.
    GeneralReversed,
    /// W, W, W, X: the general register that a lane of the size goes to or comes from.
    GeneralOfLane,
    /// B, H, S, D.
    Scalar,
    /// S, D, Q.
    WideScalar,
    /// Zb, Zh, Zs, Zd.
    Lanes,
    /// Zb, Zb, Zh, Zs: lanes of half the size.
    HalfLanes,
    /// Zb, Zb, Zb, Zh: lanes of a quarter of the size.
    QuarterLanes,
    /// Pb, Ph, Ps, Pd.
    Flags,
    /// V2s, V4s.
    WordVector,
    /// V4h, V8h.
    HalfwordVector,
    /// V8b, V16b.
    ByteVector,
    /// ExtendByte, ExtendHalfword, ExtendWord, ExtendDoubleword.
    Extend,
    /// The first three of these.
    NarrowExtend,
    /// Zeroing, Merging.
    Predication,
}
