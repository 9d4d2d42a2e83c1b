//! The names of the lines that have several.

/// Operations of two lanes; those with an r at the end take the operands in the other order.
#[derive(Clone, Copy)]
pub enum BinaryOp {
    Add,
    Sub,
    Subr,
    Smax,
    Umax,
    Smin,
    Umin,
    Sabd,
    Uabd,
    Mul,
    Smulh,
    Umulh,
    Sdiv,
    Udiv,
    Sdivr,
    Udivr,
    Orr,
    Eor,
    And,
    Bic,
    Asr,
    Lsr,
    Lsl,
    Asrr,
    Lsrr,
    Lslr,
}

/// Shifts: right with the sign, right, left.
#[derive(Clone, Copy)]
pub enum ShiftOp {
    Asr,
    Lsr,
    Lsl,
}

/// Shifts by an immediate; asrd is a signed division towards zero.
#[derive(Clone, Copy)]
pub enum ShiftImmOp {
    Asr,
    Lsr,
    Lsl,
    Asrd,
}

/// Operations of one lane: extensions, arithmetic, counts of bits, reversals.
#[derive(Clone, Copy)]
pub enum UnaryOp {
    Sxtb,
    Uxtb,
    Sxth,
    Uxth,
    Sxtw,
    Uxtw,
    Abs,
    Neg,
    Cls,
    Clz,
    Cnt,
    Cnot,
    Not,
    Revb,
    Revh,
    Revw,
    Rbit,
}

/// Products added to the addend's register or subtracted from it.
#[derive(Clone, Copy)]
pub enum MulAddZOp {
    Mla,
    Mls,
}

/// Products of the destination added to another register or subtracted from it.
#[derive(Clone, Copy)]
pub enum MulAddDOp {
    Mad,
    Msb,
}

/// Sums and differences, those with sq or uq before them saturating.
#[derive(Clone, Copy)]
pub enum PlainOp {
    Add,
    Sub,
    Sqadd,
    Uqadd,
    Sqsub,
    Uqsub,
}

/// Logical operations; bic takes the complement of its last operand.
#[derive(Clone, Copy)]
pub enum LogicZOp {
    And,
    Orr,
    Eor,
    Bic,
}

/// The first number and the step of an index, each an immediate or a register.
#[derive(Clone, Copy)]
pub enum IndexOp {
    ImmImm,
    RegImm,
    ImmReg,
    RegReg,
}

/// Sums of four products, signed or unsigned.
#[derive(Clone, Copy)]
pub enum DotOp {
    Sdot,
    Udot,
}

/// Sums of four products, signed or unsigned, in lanes of 32 (s) or 64 bits (d).
#[derive(Clone, Copy)]
pub enum DotIndexedOp {
    SdotS,
    UdotS,
    SdotD,
    UdotD,
}

/// Sums and differences with an immediate.
#[derive(Clone, Copy)]
pub enum WideImmOp {
    Add,
    Sub,
    Subr,
    Sqadd,
    Uqadd,
    Sqsub,
    Uqsub,
}

/// The greater, the smaller or the product of a lane and an immediate.
#[derive(Clone, Copy)]
pub enum MinMaxImmOp {
    Smax,
    Smin,
    Mul,
    Umax,
    Umin,
}

/// Logical operations with a bitmask, and the bitmask itself (dupm).
#[derive(Clone, Copy)]
pub enum BitmaskZOp {
    Orr,
    Eor,
    And,
    Dupm,
}

/// Folds over the active lanes.
#[derive(Clone, Copy)]
pub enum ReduceOp {
    Saddv,
    Uaddv,
    Smaxv,
    Umaxv,
    Sminv,
    Uminv,
    Orv,
    Eorv,
    Andv,
}

/// A count added or subtracted.
#[derive(Clone, Copy)]
pub enum IncOp {
    Inc,
    Dec,
}

/// A count added or subtracted with saturation, signed (sq) or unsigned (uq).
#[derive(Clone, Copy)]
pub enum SatOp {
    Sqinc,
    Uqinc,
    Sqdec,
    Uqdec,
}

/// Multiples of the bytes of a vector register (addvl) or of a predicate register (addpl).
#[derive(Clone, Copy)]
pub enum AddLengthOp {
    Addvl,
    Addpl,
}

/// Lane 0 from a general (r) or a vector register (v).
#[derive(Clone, Copy)]
pub enum InsertOp {
    InsrR,
    InsrV,
}

/// The low or the high half's lanes, extended signed or unsigned.
#[derive(Clone, Copy)]
pub enum UnpackOp {
    Sunpklo,
    Sunpkhi,
    Uunpklo,
    Uunpkhi,
}

/// Lanes in turn, even or odd lanes, even or odd lanes in turn.
#[derive(Clone, Copy)]
pub enum InterleaveOp {
    Zip1,
    Zip2,
    Uzp1,
    Uzp2,
    Trn1,
    Trn2,
}

/// The low or the high half's bits.
#[derive(Clone, Copy)]
pub enum UnpackPOp {
    Punpklo,
    Punpkhi,
}

/// Lanes from a general (r) or a vector register (v).
#[derive(Clone, Copy)]
pub enum CopyRegOp {
    CpyR,
    CpyV,
}

/// The lane after the last active one or that one, to a general (r) or a vector register (v).
#[derive(Clone, Copy)]
pub enum LastOp {
    LastaR,
    LastbR,
    LastaV,
    LastbV,
}

/// The lane after the last active one or that one, where one is active, to a general (r) or a vector register (v), or
/// to each lane (z).
#[derive(Clone, Copy)]
pub enum CondLastOp {
    ClastaR,
    ClastbR,
    ClastaV,
    ClastbV,
    ClastaZ,
    ClastbZ,
}

/// Comparisons of lanes: hs and hi unsigned, ge and gt signed.
#[derive(Clone, Copy)]
pub enum CmpVecOp {
    Cmphs,
    Cmphi,
    Cmpge,
    Cmpgt,
    Cmpeq,
    Cmpne,
}

/// Comparisons with 64-bit lanes: those from cmphs on unsigned.
#[derive(Clone, Copy)]
pub enum CmpWideOp {
    Cmpeq,
    Cmpne,
    Cmpge,
    Cmpgt,
    Cmplt,
    Cmple,
    Cmphs,
    Cmphi,
    Cmplo,
    Cmpls,
}

/// Comparisons with an unsigned immediate.
#[derive(Clone, Copy)]
pub enum CmpUImmOp {
    Cmphs,
    Cmphi,
    Cmplo,
    Cmpls,
}

/// Comparisons with a signed immediate.
#[derive(Clone, Copy)]
pub enum CmpSImmOp {
    Cmpge,
    Cmpgt,
    Cmplt,
    Cmple,
    Cmpeq,
    Cmpne,
}

/// Logical operations of predicates.
#[derive(Clone, Copy)]
pub enum LogicPOp {
    And,
    Bic,
    Eor,
    Orr,
    Orn,
    Nor,
    Nand,
}

/// Breaks after (a) and before (b) the first set bit.
#[derive(Clone, Copy)]
pub enum BreakOp {
    Brka,
    Brkb,
}

/// Breaks after (a) and before (b) the first set bit, going on from another predicate.
#[derive(Clone, Copy)]
pub enum BreakPairOp {
    Brkpa,
    Brkpb,
}

/// The lanes of a pattern; ptrues sets the flags.
#[derive(Clone, Copy)]
pub enum PtrueOp {
    Ptrue,
    Ptrues,
}

/// FFR under a predicate; rdffrs sets the flags.
#[derive(Clone, Copy)]
pub enum ReadFfrOp {
    Rdffr,
    Rdffrs,
}

/// FFR set to all ones, or to a predicate.
#[derive(Clone, Copy)]
pub enum WriteFfrOp {
    Setffr,
    Wrffr,
}

/// The number of set lanes added or subtracted.
#[derive(Clone, Copy)]
pub enum IncPOp {
    Incp,
    Decp,
}

/// Comparisons of a loop's counter: signed (lt, le), unsigned (lo, ls).
#[derive(Clone, Copy)]
pub enum WhileOp {
    Whilelt,
    Whilele,
    Whilelo,
    Whilels,
}

/// The end of a loop where two registers are equal, or different.
#[derive(Clone, Copy)]
pub enum CtermOp {
    Ctermeq,
    Ctermne,
}

/// Loads of two, three or four registers.
#[derive(Clone, Copy)]
pub enum LoadManyOp {
    Ld2,
    Ld3,
    Ld4,
}

/// Stores of two, three or four registers.
#[derive(Clone, Copy)]
pub enum StoreManyOp {
    St2,
    St3,
    St4,
}
