//! The functions of lanes, by name.

/// A function of two operands of a lane's width, or of one and a number: its result is a lane. Shifts take any amount.
#[derive(Clone, Copy, Debug, PartialEq, Eq)]
pub enum LaneOp {
    /// The sum.
    Add,
    /// The difference.
    Sub,
    /// The greater signed number.
    Smax,
    /// The greater unsigned number.
    Umax,
    /// The smaller signed number.
    Smin,
    /// The smaller unsigned number.
    Umin,
    /// The greater signed number less the smaller.
    Sabd,
    /// The greater unsigned number less the smaller.
    Uabd,
    /// The product's lower half.
    Mul,
    /// The signed product's upper half.
    Smulh,
    /// The unsigned product's upper half.
    Umulh,
    /// The signed quotient, towards zero, and 0 where the second is 0.
    Sdiv,
    /// The unsigned quotient, and 0 where the second is 0.
    Udiv,
    /// OR of the bits.
    Orr,
    /// Exclusive OR of the bits.
    Eor,
    /// AND of the bits.
    And,
    /// The first AND NOT the second.
    Bic,
    /// A shift to the right, with copies of the top bit above.
    Asr,
    /// A shift to the right, with zeros above.
    Lsr,
    /// A shift to the left.
    Lsl,
    /// The signed quotient by a power of two, towards zero.
    Asrd,
    /// The signed sum, saturated.
    Sqadd,
    /// The unsigned sum, saturated.
    Uqadd,
    /// The signed difference, saturated.
    Sqsub,
    /// The unsigned difference, saturated.
    Uqsub,
    /// A signed number plus an unsigned amount, saturated as a signed number.
    SqaddAmount,
    /// A signed number less an unsigned amount, saturated as a signed number.
    SqsubAmount,
}

/// A comparison of two lanes.
#[derive(Clone, Copy, Debug, PartialEq, Eq)]
pub enum LaneTest {
    /// Equal.
    Eq,
    /// Not equal.
    Ne,
    /// Signed greater or equal.
    Ge,
    /// Signed greater.
    Gt,
    /// Signed less.
    Lt,
    /// Signed less or equal.
    Le,
    /// Unsigned higher or same.
    Hs,
    /// Unsigned higher.
    Hi,
    /// Unsigned lower.
    Lo,
    /// Unsigned lower or same.
    Ls,
}
