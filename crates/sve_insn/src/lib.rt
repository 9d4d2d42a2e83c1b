//! SVE instructions: one form for each line of the instruction table, made only where the line's condition holds.
#![tactic(auto)]

mod conditions;
pub mod fold_words;
pub mod form;
pub mod lane_words;
pub mod lines;
pub mod memory_words;
pub mod ops;

pub use form::{Sve, SveForm};
pub use ops::{
    AddLengthOp, BinaryOp, BitmaskZOp, BreakOp, BreakPairOp, CmpSImmOp, CmpUImmOp, CmpVecOp,
    CmpWideOp, CondLastOp, CopyRegOp, CtermOp, DotIndexedOp, DotOp, IncOp, IncPOp, IndexOp,
    InsertOp, InterleaveOp, LastOp, LoadManyOp, LogicPOp, LogicZOp, MinMaxImmOp, MulAddDOp,
    MulAddZOp, PlainOp, PtrueOp, ReadFfrOp, ReduceOp, SatOp, ShiftImmOp, ShiftOp, StoreManyOp,
    UnaryOp, UnpackOp, UnpackPOp, WhileOp, WideImmOp, WriteFfrOp,
};
